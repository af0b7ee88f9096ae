//! The parts that are added to an adapter.

ghost use Rattle.std.specs.Prelude.{◌≡◌};
ghost use Rattle.wc_gc.specs.Edit.{growing_position, lazy_position, start_position};
ghost use Rattle.wc_gc.specs.Found.{found_view};
ghost use Rattle.wc_gc.specs.Parts.{is_lazy, parts_of, settings_view};

use crate::found::Found;
use crate::settings::Settings;

/// The parts that are added to an adapter.
#[derive(Clone, Copy, Debug)]
pub struct Parts {
    /// An import of the main module's realloc.
    pub import_realloc: bool,
    /// Code that allocates a stack, called first by each function that is exported.
    pub lazy: bool,
    /// A realloc that grows memory.
    pub growing: bool,
    /// A start function that allocates a stack.
    pub start: bool,
}

impl Parts {
    /// The parts for what is found among live items.
    pub fn of(settings: Settings<'_>, found: &Found) -> Parts
        ensures { result ≡ parts_of (settings_view settings.entry) (found_view found.now) }
    {
        let lazy = is_lazy(settings, found);
        let start = !found.stacks.is_empty() && !found.memories.is_empty() && !lazy;
        let import_realloc = settings.realloc.is_some()
            && !found.stacks.is_empty()
            && found.reallocs.is_empty();
        let growing = start
            && (found.states.is_empty()
                || (!settings.realloc.is_some() && found.reallocs.is_empty()));
        Parts {
            import_realloc,
            lazy,
            growing,
            start,
        }
    }

    /// The position of the lazy code among what is added.
    pub fn lazy_position(self) -> u32
        ensures { result ≡ lazy_position self }
    {
        u32::from(self.import_realloc)
    }

    /// The position of the growing realloc among what is added.
    pub fn growing_position(self) -> u32
        ensures { result ≡ growing_position self }
    {
        self.lazy_position() + u32::from(self.lazy)
    }

    /// The position of the start function among what is added.
    pub fn start_position(self) -> u32
        ensures { result ≡ start_position self }
    {
        self.growing_position() + u32::from(self.growing)
    }
}

/// Whether the first call of an export allocates a stack: there is a global for its state, and the main module has a
/// realloc.
pub fn is_lazy(settings: Settings<'_>, found: &Found) -> bool
    ensures { result ≡ is_lazy (settings_view settings.entry) (found_view found.now) }
{
    !found.stacks.is_empty() && !found.states.is_empty() && settings.realloc.is_some()
}
