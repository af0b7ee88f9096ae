//! Stack pointers, states, reallocs, tables, memories and types among live items.

ghost use Rattle.std.specs.Prelude.{◌≡◌, ◌&&◌, ◌<◌, ◌^◌, length, filter, IfOk};
ghost use Rattle.std.specs.List.{range_with_len};
ghost use Rattle.wc_read.specs.Decoded.{decoded_module};
ghost use Rattle.wc_gc.specs.Found.{allocation_state, found_in, found_view, has_name, is_empty_type, is_empty_type_at, is_mutable_i32, is_mutable_i32_at, is_named_at, is_realloc, is_realloc_at, is_realloc_name};
ghost use Rattle.wc_gc.specs.Live.{has_item};
ghost use Rattle.wc_gc.specs.Private.ItemCounts.{ItemCountsFitU32};
ghost use Rattle.wc_read.specs.Items.{def_value};
ghost use Rattle.wc_read.specs.Types.{func_type_value};

use crate::live::{LiveSet, LiveSets};
use std::alloc::{AllocError, Global};
use wc_read::{Def, FuncType, GlobalType, Module, ValType};

/// The name by which adapters import from the module that they are for.
pub const MAIN_MODULE: &str = "__main_module__";

const REALLOC: &str = "cabi_realloc";

const OLD_REALLOC: &str = "canonical_abi_realloc";

const STACK_POINTER: &str = "__stack_pointer";

const ALLOCATION_STATE: &str = "allocation_state";

/// Live items that trimming goes by, by their indices.
#[derive(Debug, Drop)]
pub struct Found {
    /// Mutable globals of type i32 that are named as the stack pointer.
    pub stacks: Vec<u32>,
    /// Those that are named as the state of the stack's allocation.
    pub states: Vec<u32>,
    /// Imports of the main module's realloc.
    pub reallocs: Vec<u32>,
    /// All tables.
    pub tables: Vec<u32>,
    /// All memories.
    pub memories: Vec<u32>,
    /// Function types without parameters and results.
    pub empties: Vec<u32>,
}

impl Found {
    /// The live items that trimming goes by.
    pub fn of<L: LiveSet>(
        alloc: Global,
        adapter: &Module<'_>,
        live: &LiveSets<L>,
    ) -> Result<Found, AllocError>
        requires { ItemCountsFitU32 adapter.now }
        ensures { IfOk result (λ f. found_view f
            ≡ found_in (decoded_module adapter.now) (has_item L.has live.now)) }
    {
        Ok(Found {
            stacks: live_named(alloc, adapter, &live.globals, STACK_POINTER)?,
            states: live_named(alloc, adapter, &live.globals, ALLOCATION_STATE)?,
            reallocs: live_reallocs(alloc, adapter, &live.funcs)?,
            tables: live_indices(alloc, &live.tables, adapter.tables.len())?,
            memories: live_indices(alloc, &live.memories, adapter.memories.len())?,
            empties: live_empties(alloc, adapter, &live.types)?,
        })
    }
}

/// The numbers of a set that are below a bound, in their order.
fn live_indices<L: LiveSet>(alloc: Global, live: &L, size: usize) -> Result<Vec<u32>, AllocError>
    requires { size < 2 ^ 32 }
    ensures { IfOk result (λ v. v.items
        ≡ filter (λ n. L.has live.now n) (range_with_len 0 size)) }
{
    live.numbers_below(alloc, size as u32)
}

/// The live mutable globals of type i32 that have a name.
fn live_named<L: LiveSet>(
    alloc: Global,
    adapter: &Module<'_>,
    live: &L,
    name: &str,
) -> Result<Vec<u32>, AllocError>
    requires { ItemCountsFitU32 adapter.now }
    ensures { IfOk result (λ v. v.items ≡ filter
        (λ n. L.has live.now n && is_named_at (decoded_module adapter.now) name.now n)
        (range_with_len 0 (length adapter.now.globals.items))) }
{
    (0..adapter.globals.len() as u32)
        .filter(|index| is_named(adapter, *index, name) && live.contains(*index))
        .collect(alloc)
}

/// The live imports of the main module's realloc.
fn live_reallocs<L: LiveSet>(
    alloc: Global,
    adapter: &Module<'_>,
    live: &L,
) -> Result<Vec<u32>, AllocError>
    requires { ItemCountsFitU32 adapter.now }
    ensures { IfOk result (λ v. v.items ≡ filter
        (λ n. L.has live.now n && is_realloc_at (decoded_module adapter.now) n)
        (range_with_len 0 (length adapter.now.funcs.items))) }
{
    (0..adapter.funcs.len() as u32)
        .filter(|index| is_realloc(adapter, *index) && live.contains(*index))
        .collect(alloc)
}

/// The live function types without parameters and results.
fn live_empties<L: LiveSet>(
    alloc: Global,
    adapter: &Module<'_>,
    live: &L,
) -> Result<Vec<u32>, AllocError>
    requires { ItemCountsFitU32 adapter.now }
    ensures { IfOk result (λ v. v.items ≡ filter
        (λ n. L.has live.now n && is_empty_type_at (decoded_module adapter.now) n)
        (range_with_len 0 (length adapter.now.types.items))) }
{
    (0..adapter.types.len() as u32)
        .filter(|index| has_empty_type(adapter, *index) && live.contains(*index))
        .collect(alloc)
}

/// Whether an index is that of a function type without parameters and results.
#[tactic(auto, unfolding(wc_read::specs::Decoded::decoded_module))]
fn has_empty_type(adapter: &Module<'_>, index: u32) -> bool
    ensures { result ≡ is_empty_type_at (decoded_module adapter.now) index }
{
    match adapter.types.get(index as usize) {
        Some(ty) => is_empty_type(ty),
        None => false,
    }
}

fn is_empty_type(ty: &FuncType) -> bool
    ensures { result ≡ is_empty_type (func_type_value ty.now) }
{
    ty.params().is_empty() && ty.results().is_empty()
}

/// Whether an index is that of a mutable global of type i32 that has a name.
fn is_named(adapter: &Module<'_>, index: u32, name: &str) -> bool
    ensures { result ≡ is_named_at (decoded_module adapter.now) name.now index }
{
    is_mutable_i32(adapter, index) && has_name(adapter, index, name)
}

fn is_mutable_i32(adapter: &Module<'_>, index: u32) -> bool
    ensures { result ≡ is_mutable_i32_at (decoded_module adapter.now) index }
{
    match adapter.globals.get(index as usize) {
        Some(global) => is_mutable_i32_type(global.ty),
        None => false,
    }
}

fn is_mutable_i32_type(ty: GlobalType) -> bool
    ensures { result ≡ is_mutable_i32 ty }
{
    ty.mutable && matches!(ty.content_type, ValType::I32)
}

fn has_name(adapter: &Module<'_>, index: u32, name: &str) -> bool
    ensures { result ≡ has_name (decoded_module adapter.now) name.now index }
{
    match adapter.global_names.get(&index) {
        Some(found) => *found == name,
        None => false,
    }
}

/// Whether an index is that of an import of the main module's realloc.
fn is_realloc(adapter: &Module<'_>, index: u32) -> bool
    ensures { result ≡ is_realloc_at (decoded_module adapter.now) index }
{
    match adapter.funcs.get(index as usize) {
        Some(func) => imports_realloc(func.def),
        None => false,
    }
}

/// Whether a function is an import of the main module's realloc.
pub fn imports_realloc(def: Def<'_, &[u8]>) -> bool
    ensures { result ≡ is_realloc (def_value (λ b. b.now) def.entry) }
{
    match def {
        Def::Import(module, name) => module == MAIN_MODULE && is_realloc_name(name),
        Def::Local(_) => false,
    }
}

fn is_realloc_name(name: &str) -> bool
    ensures { result ≡ is_realloc_name name.now }
{
    name == REALLOC || name == OLD_REALLOC
}
