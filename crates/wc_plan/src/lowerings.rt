//! The lowerings of functions, and the canonical options that they need.

ghost use Rattle.std.specs.Prelude.{◌≡◌, string_bytes};
ghost use Rattle.std.specs.Option.{option_map};
ghost use Rattle.wc_world.specs.FunctionsLowered.{lowering_at};
ghost use Rattle.wc_world.specs.Options.{memory_flag, realloc_flag};
ghost use Rattle.wc_world.specs.WorldViews.{import_map_view, lowering_view};
ghost use Rattle.wc_plan.specs.Plans.{is_indirect, needs, options_of};

use crate::calls::Call;
use bitflags::Flags;
use wc_maps::Map;
use wc_world::{ImportedInterface, Lowering, RequiredOptions};

/// The lowering of a function, if there is one.
pub(crate) fn lowering_of<'a>(
    import_map: &'a Map<Option<String>, ImportedInterface>,
    call: &Call,
) -> Option<&'a Lowering>
    ensures { option_map (λ l. lowering_view l.now) result ≡ lowering_at
        (import_map_view import_map.now) (option_map string_bytes call.now.0)
        (string_bytes call.now.1.0) call.now.1.1 }
{
    let imported = import_map.get(&call.0)?;
    imported.lowerings.get(&call.1)
}

/// The options of a lowered function. A resource that is dropped has none.
fn options_of(lowering: &Lowering) -> RequiredOptions
    ensures { result.0 ≡ options_of (lowering_view lowering.now) }
{
    match lowering {
        Lowering::Direct { options } => *options,
        Lowering::Indirect { options, .. } => *options,
        Lowering::ResourceDrop(_) => RequiredOptions::empty(),
    }
}

/// Whether the options of a lowering have a memory.
pub(crate) fn has_memory_option(lowering: &Lowering) -> bool
    ensures { result ≡ needs memory_flag (lowering_view lowering.now) }
{
    options_of(lowering).contains(RequiredOptions::MEMORY)
}

/// Whether the options of a lowering have a realloc.
pub(crate) fn has_realloc_option(lowering: &Lowering) -> bool
    ensures { result ≡ needs realloc_flag (lowering_view lowering.now) }
{
    options_of(lowering).contains(RequiredOptions::REALLOC)
}

/// Whether a shim stands in for the lowered function.
pub(crate) fn is_indirect(lowering: &Lowering) -> bool
    ensures { result ≡ is_indirect (lowering_view lowering.now) }
{
    matches!(lowering, Lowering::Indirect { .. })
}
