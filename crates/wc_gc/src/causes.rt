//! The causes among the live items of an adapter for which it is not trimmed.

ghost use Rattle.std.specs.Prelude.{◌≡◌, ◌<◌, ◌&&◌, IfErr, IsOk};
ghost use Rattle.std.specs.List.{list_all, list_any};
ghost use Rattle.wc_read.specs.Types.{func_type_value};
ghost use Rattle.wc_gc.specs.Causes.{IsFoundCause, called_reallocs, grows_memory, has_page_size, has_page_size_at, has_realloc_type, is_realloc_type_at};
ghost use Rattle.wc_read.specs.Decoded.{decoded_module};
ghost use Rattle.wc_gc.specs.Found.{are_i32, found_view, is_i32, is_own_memory_at, is_realloc_type};
ghost use Rattle.wc_gc.specs.LiveItems.{IsFirstCause};
ghost use Rattle.wc_gc.specs.Parts.{settings_view};

use crate::fault::GcFault;
use crate::found::Found;
use crate::parts::{Parts, is_lazy};
use crate::settings::Settings;
use wc_read::{Def, FuncType, MemoryType, Module, ValType};

/// The exponent of the size of pages where a memory's type does not say it.
const USUAL_PAGE_SIZE_LOG2: u32 = 16;

/// Checks what was found.
pub fn check_found(
    adapter: &Module<'_>,
    settings: Settings<'_>,
    found: &Found,
) -> Result<(), GcFault>
    ensures fault { IfErr result (IsFirstCause (IsFoundCause
        (settings_view settings.entry) (decoded_module adapter.now) (found_view found.now))) }
    ensures none { IsOk result → (f : GcFault) → ¬ (IsFoundCause
        (settings_view settings.entry) (decoded_module adapter.now) (found_view found.now) f) }
{
    if found.stacks.len() > 1 || found.states.len() > 1 {
        return Err(GcFault::SeveralNamed);
    }
    if !found.tables.is_empty() {
        return Err(GcFault::LiveTable);
    }
    if found.memories.len() > 1 {
        return Err(GcFault::SeveralMemories);
    }
    if has_own_memory(adapter, &found.memories) {
        return Err(GcFault::LocalMemory);
    }
    if !have_realloc_type(adapter, called_reallocs(settings, found)) {
        return Err(GcFault::ReallocType);
    }
    if grows_memory(settings, found) && !has_memory_to_grow(adapter, settings, found) {
        return Err(GcFault::ReallocMemory);
    }
    Ok(())
}

/// Whether one of the memories is the adapter's own.
fn has_own_memory(adapter: &Module<'_>, memories: &[u32]) -> bool
    ensures { result ≡ list_any (is_own_memory_at (decoded_module adapter.now)) memories.now }
{
    memories
        .iter()
        .any(|memory| is_own_memory(adapter, *memory))
}

/// Whether an index is that of a memory of the adapter's own.
#[tactic(auto, unfolding(wc_read::specs::Decoded::decoded_module))]
fn is_own_memory(adapter: &Module<'_>, index: u32) -> bool
    ensures { result ≡ is_own_memory_at (decoded_module adapter.now) index }
{
    match adapter.memories.get(index as usize) {
        Some(memory) => matches!(&memory.def, Def::Local(_)),
        None => false,
    }
}

/// The imported reallocs that have to be of a realloc's type: all, where they become growing reallocs, else the last,
/// where lazy code calls it.
fn called_reallocs<'a>(settings: Settings<'_>, found: &'a Found) -> &'a [u32]
    ensures { result.now
        ≡ called_reallocs (settings_view settings.entry) (found_view found.now) }
{
    let reallocs = found.reallocs.as_slice();
    if settings.realloc.is_none() {
        return reallocs;
    }
    if !is_lazy(settings, found) || reallocs.is_empty() {
        return &reallocs[..0];
    }
    &reallocs[reallocs.len() - 1..]
}

/// Whether all of these functions are of a realloc's type.
fn have_realloc_type(adapter: &Module<'_>, funcs: &[u32]) -> bool
    ensures { result ≡ list_all (has_realloc_type (decoded_module adapter.now)) funcs.now }
{
    funcs.iter().all(|func| has_realloc_type(adapter, *func))
}

fn has_realloc_type(adapter: &Module<'_>, index: u32) -> bool
    ensures { result ≡ has_realloc_type (decoded_module adapter.now) index }
{
    match adapter.funcs.get(index as usize) {
        Some(func) => is_realloc_type_at(adapter, func.ty),
        None => false,
    }
}

#[tactic(auto, unfolding(wc_read::specs::Decoded::decoded_module))]
fn is_realloc_type_at(adapter: &Module<'_>, index: u32) -> bool
    ensures { result ≡ is_realloc_type_at (decoded_module adapter.now) index }
{
    match adapter.types.get(index as usize) {
        Some(ty) => is_realloc_type(ty),
        None => false,
    }
}

fn is_realloc_type(ty: &FuncType) -> bool
    ensures { result ≡ is_realloc_type (func_type_value ty.now) }
{
    are_i32(ty.params(), 4) && are_i32(ty.results(), 1)
}

/// Whether these are so many types i32.
fn are_i32(types: &[ValType], count: usize) -> bool
    ensures { result ≡ are_i32 count types.now }
{
    types.len() == count && all_i32(types)
}

fn all_i32(types: &[ValType]) -> bool
    ensures { result ≡ list_all is_i32 types.now }
{
    types.iter().all(|ty| is_i32(*ty))
}

fn is_i32(ty: ValType) -> bool
    ensures { result ≡ is_i32 ty }
{
    matches!(ty, ValType::I32)
}

/// Whether a realloc that grows memory is in the output.
fn grows_memory(settings: Settings<'_>, found: &Found) -> bool
    ensures { result ≡ grows_memory (settings_view settings.entry) (found_view found.now) }
{
    Parts::of(settings, found).growing
        || (!settings.realloc.is_some() && !found.reallocs.is_empty())
}

/// Whether a live memory is of 32 bits and has pages of the required size.
fn has_memory_to_grow(adapter: &Module<'_>, settings: Settings<'_>, found: &Found) -> bool
    ensures { result ≡ list_any (has_page_size_at (decoded_module adapter.now)
        settings.entry.page_size_log2) (found_view found.now).memories }
{
    found.memories.iter().any(|memory| has_page_size_at(adapter, *memory, settings.page_size_log2))
}

#[tactic(auto, unfolding(wc_read::specs::Decoded::decoded_module))]
fn has_page_size_at(adapter: &Module<'_>, index: u32, page_size_log2: u32) -> bool
    ensures { result ≡ has_page_size_at (decoded_module adapter.now) page_size_log2 index }
{
    match adapter.memories.get(index as usize) {
        Some(memory) => has_page_size(memory.ty, page_size_log2),
        None => false,
    }
}

fn has_page_size(ty: MemoryType, page_size_log2: u32) -> bool
    ensures { result ≡ has_page_size page_size_log2 ty }
{
    !ty.memory64 && ty.page_size_log2.unwrap_or(USUAL_PAGE_SIZE_LOG2) == page_size_log2
}
