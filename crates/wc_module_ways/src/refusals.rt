//! Why nothing can be said of modules, and where.

ghost use Rattle.std.specs.Prelude.{◌≡◌, None};
ghost use Rattle.wc_module_ways.specs.Refusals.{IsOfAdapter, IsOfCore, IsOfMain, moved};

use crate::core_module::CoreInput;
use std::alloc::{AllocError, AllocFailed};
use wc_gc::{GcFault, TrimPlace};
use wc_import_paths::Refusal;
use wc_read::ReadPlace;
use wc_texts::Refused;

/// Why nothing can be said of modules.
#[derive(Debug, Drop)]
pub struct ModulesRefusal<'a> {
    /// The name and the bytes of the adapter that is at fault; `None` for the main module, and for another core module.
    pub adapter: Option<(&'a str, &'a [u8])>,
    /// The position among the component's core modules of the one that is at fault, if it is not the main module.
    pub core: Option<usize>,
    /// The fault.
    pub fault: GcFault,
    /// Its place, if it has one. A byte of a core module of a component's file is counted from the start of that file.
    pub place: Option<TrimPlace>,
}

impl From<AllocError> for ModulesRefusal<'_> {
    ghost use Rattle.std.specs.Prelude.{◌≡◌, None};
    ghost use Rattle.wc_gc.specs.declared.fault.GcFault.TheVariants.{Memory};

    ghost from_gives = { λ _ r.
        (r.fault ≡ Memory) × (r.adapter ≡ None) × (r.core ≡ None) × (r.place ≡ None) };

    fn from(_e: AllocError) -> Self {
        ModulesRefusal {
            adapter: None,
            core: None,
            fault: GcFault::Memory,
            place: None,
        }
    }
}

impl<T: Drop> From<AllocFailed<T>> for ModulesRefusal<'_> {
    ghost use Rattle.std.specs.Prelude.{◌≡◌, None};
    ghost use Rattle.wc_gc.specs.declared.fault.GcFault.TheVariants.{Memory};

    ghost from_gives = { λ _ r.
        (r.fault ≡ Memory) × (r.adapter ≡ None) × (r.core ≡ None) × (r.place ≡ None) };

    fn from(_e: AllocFailed<T>) -> Self {
        ModulesRefusal {
            adapter: None,
            core: None,
            fault: GcFault::Memory,
            place: None,
        }
    }
}

/// The refusal of the main module, which lies at this offset in its file.
pub(crate) fn of_main<'a>(offset: usize, refused: Refusal) -> ModulesRefusal<'a>
    ensures { IsOfMain refused.fault (moved offset refused.place) result }
{
    let Refused { fault, place } = refused;
    ModulesRefusal {
        adapter: None,
        core: None,
        fault,
        place: moved(offset, place),
    }
}

/// The refusal of a core module.
pub(crate) fn of_core<'a>(core: &CoreInput<'a>, refused: Refusal) -> ModulesRefusal<'a>
    ensures { IsOfCore core.now.index refused.fault (moved core.now.offset refused.place) result }
{
    let Refused { fault, place } = refused;
    ModulesRefusal {
        adapter: None,
        core: Some(core.index),
        fault,
        place: moved(core.offset, place),
    }
}

/// A place in a module that lies at this offset in its file.
fn moved(offset: usize, place: Option<TrimPlace>) -> Option<TrimPlace>
    ensures { result ≡ moved offset place }
{
    match place {
        Some(TrimPlace::Bytes(place)) => Some(TrimPlace::Bytes(ReadPlace {
            offset: offset.saturating_add(place.offset),
            section: place.section,
        })),
        Some(TrimPlace::Section { id }) => Some(TrimPlace::Section { id }),
        Some(TrimPlace::Body { function, operator }) => {
            Some(TrimPlace::Body { function, operator })
        }
        None => None,
    }
}

/// The refusal of the adapter of a name and these bytes.
pub(crate) fn of_adapter<'a>(name: &'a str, bytes: &'a [u8], refused: Refusal) -> ModulesRefusal<'a>
    ensures { IsOfAdapter name.now bytes.now refused.fault refused.place result }
{
    let Refused { fault, place } = refused;
    ModulesRefusal {
        adapter: Some((name, bytes)),
        core: None,
        fault,
        place,
    }
}
