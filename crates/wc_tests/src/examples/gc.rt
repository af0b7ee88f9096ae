//! Examples of `wc_gc`.

ghost use Rattle.std.specs.Prelude.{◌≡◌, ◌≢◌, ◌↔◌, [], IfOk, IsTrue, None};
ghost use Rattle.wc_read.specs.Modules.{ModuleValue, SpellsModule};
ghost use Rattle.wc_read.specs.Decoded.{DecodedModule};
ghost use Rattle.wc_gc.specs.LiveItems.{IsLive, names_of, trim_input};
ghost use Rattle.wc_gc.specs.Parts.{settings};
ghost use Rattle.wc_gc.specs.TraceLaws.{HasCut};
ghost use Rattle.wc_tests.specs.Gc.{IsTrimmedOwn};

use std::alloc::Global;
use wc_gc::laws::{no_trace, nothing_is_edited};
use wc_gc::{GcFault, LiveSet, liveness_counted, run};
use wc_maps::Set;
use wc_read::Space;
use wc_write::laws::slices_are_bytes;

/// Whether the required exports of an adapter reach its first memory.
pub(crate) fn reaches_memory(
    alloc: Global,
    adapter: &[u8],
    required: &Set<String>,
) -> Result<bool, GcFault>
    ensures { IfOk result (λ answer. (m : ModuleValue) × SpellsModule adapter.now m
        × (IsTrue answer ↔ IsLive (names_of required.now.keys) m (Space.Memories, 0))) }
{
    let found = liveness_counted(alloc, adapter, required)?;
    Ok(found.live.contains((Space::Memories, 0)))
}

/// Two adapters, trimmed to the same exports. If both have the same cut, both give the same bytes: items that their
/// exports do not reach leave no trace.
pub(crate) fn trim_both(
    alloc: Global,
    first: &[u8],
    second: &[u8],
    required: &Set<String>,
) -> Result<(Vec<u8>, Vec<u8>), GcFault>
    requires { required.now.keys ≢ [] }
    ensures { IfOk result (λ both. (c : DecodedModule)
        → HasCut (trim_input first.now required.now.keys) c
        → HasCut (trim_input second.now required.now.keys) c
        → both.0.items ≡ both.1.items) }
{
    no_trace();
    slices_are_bytes(first);
    slices_are_bytes(second);
    let one = run(alloc, first, required, None, 16)?;
    let other = run(alloc, second, required, None, 16)?;
    Ok((one, other))
}

/// An adapter, trimmed to some exports, for a main module without a realloc. If nothing is added to it and it reaches
/// no imported realloc, each kept item is to every depth the same as in the adapter itself.
pub(crate) fn trim_unedited(
    alloc: Global,
    adapter: &[u8],
    required: &Set<String>,
) -> Result<Vec<u8>, GcFault>
    requires { required.now.keys ≢ [] }
    ensures { IfOk result (λ v. IsTrimmedOwn (settings None 16)
        (trim_input adapter.now required.now.keys) v.items) }
{
    nothing_is_edited();
    let trimmed = run(alloc, adapter, required, None, 16)?;
    Ok(trimmed)
}
