//! The functions that may call what an element segment puts in a table.

ghost use Rattle.std.specs.Prelude.{◌≡◌, ◌<◌, [], IfOk, OnOk, length, map};
ghost use Rattle.std.specs.List.{list_any, slice_get};
ghost use Rattle.wc_read.specs.Decoded.{func_code};
ghost use Rattle.wc_segments.specs.Elements.{element_value};
ghost use Rattle.wc_segments.specs.Modes.{mode_value};
ghost use Rattle.wc_graph.specs.Private.Places.{entry_by};
ghost use Rattle.wc_paths.specs.Callers.{is_reached, table_of};
ghost use Rattle.wc_paths.specs.Roots.{is_active};
ghost use Rattle.wc_paths.specs.Private.CallLists.{ListsUnder};
ghost use Rattle.wc_paths.specs.Private.Callers.{AreListed, def_calls, is_calling};

use crate::call_lists::{CallKey, CallLists, list_body};
use crate::equal_types::first_equal;
use crate::items::PathItem;
use crate::roots::is_active;
use std::alloc::{AllocError, Global};
use wc_maps::{Map, Seed};
use wc_read::{Def, Func, Module, Space};
use wc_segments::{ElementSegment, SegmentMode, Segments};

/// The functions that two lists of roots reach and that call through a table, by the table and the type of these calls.
/// The calls are `call_indirect` (WebAssembly core specification, 5.4.1) and `return_call_indirect` (proposal of tail
/// calls). So such a function may call each function of that type that an active element segment puts in the table.
#[derive(Drop)]
pub struct Callers {
    /// For each element segment the table that it fills, if it is active.
    tables: Vec<Option<usize>>,
    /// For each function the index of the first type that is equal to its own.
    types: Vec<Option<usize>>,
    /// The functions that call, by the table and the first type that is equal to the one that they call with.
    lists: CallLists,
}

impl Callers {
    ghost use Rattle.wc_paths.specs.Callers.{AreCallersIn, call_key, calling_of};
    ghost use Rattle.wc_paths.specs.CallLists.{listed};
    ghost use Rattle.wc_paths.specs.Paths.{graph_in};

    /// Finds the functions that call through tables. `reached`: for each function of this module, by its index, whether roots lead
    /// there; `seed`: the seed of maps. It takes time and memory linear in the module: each body that is reached is read once.
    ///
    /// # Errors
    ///
    /// `AllocError`: an allocation failed.
    pub fn find(
        alloc: Global,
        seed: Seed,
        module: &Module<'_>,
        segments: &Segments<'_>,
        reached: &[bool],
    ) -> Result<Callers, AllocError>
        ensures { IfOk result (AreCallersIn (graph_in «module».now segments.now) reached.now) }
    {
        if !has_active(&segments.elements) {
            let tables = Vec::new(alloc);
            let types = Vec::new(alloc);
            let lists = Map::with_hasher(alloc, seed);
            return Ok(Callers {
                tables,
                types,
                lists,
            });
        }
        let firsts = first_equal(alloc, seed, &module.types)?;
        let tables = filled_tables(alloc, &segments.elements)?;
        let types = types_of(alloc, &firsts, &module.funcs)?;
        let functions = Functions {
            funcs: &module.funcs,
            firsts: &firsts,
            reached,
        };
        let lists = lists_of(alloc, seed, functions)?;
        Ok(Callers {
            tables,
            types,
            lists,
        })
    }

    /// The functions that may call `next`, a function that `item` puts in a table, by their indices. If `item` is an
    /// active element segment, they are the functions that call through its table with the type of `next` or an equal
    /// type. For any other item the list is empty.
    pub fn between(&self, item: PathItem, next: PathItem) -> &[usize]
        ensures { result.now ≡ calling_of self.now item next }
    {
        match self.key(item, next) {
            Some(key) => self.listed(key),
            None => &[],
        }
    }

    /// The table that a segment fills, and the type of a function.
    fn key(&self, item: PathItem, next: PathItem) -> Option<CallKey>
        ensures { result ≡ call_key self.now item next }
    {
        match (item, next) {
            (PathItem::Elements(segment), PathItem::Item(Space::Funcs, function)) => {
                let table = entry_at(&self.tables, segment)?;
                let ty = entry_at(&self.types, function)?;
                Some((table, ty))
            }
            _ => None,
        }
    }

    /// The functions that are listed under a key.
    fn listed(&self, key: CallKey) -> &[usize]
        ensures { result.now ≡ listed self.now.lists.entries key }
    {
        match self.lists.get(&key) {
            Some(functions) => functions.as_slice(),
            None => &[],
        }
    }
}

/// An entry; `None` past the last one.
fn entry_at(entries: &[Option<usize>], index: usize) -> Option<usize>
    ensures { result ≡ entry_by (slice_get entries.now index) }
{
    match entries.get(index) {
        Some(entry) => *entry,
        None => None,
    }
}

/// Whether an element segment is active.
fn has_active(elements: &[ElementSegment<'_>]) -> bool
    ensures { result ≡ list_any (λ e. is_active (element_value e).mode) elements.now }
{
    elements.iter().any(|element| is_active(&element.mode))
}

/// For each element segment the table that it fills, if it is active.
fn filled_tables(
    alloc: Global,
    elements: &[ElementSegment<'_>],
) -> Result<Vec<Option<usize>>, AllocError>
    ensures { IfOk result (λ v. v.items ≡ map (λ e. table_of (element_value e).mode) elements.now) }
{
    elements
        .iter()
        .map(|element| filled_table(&element.mode))
        .collect(alloc)
}

/// The table that a segment fills, if it is active.
fn filled_table(mode: &SegmentMode<'_>) -> Option<usize>
    ensures { result ≡ table_of (mode_value mode.now) }
{
    match mode {
        SegmentMode::Active { index, .. } => Some(*index as usize),
        SegmentMode::Passive => None,
        SegmentMode::Declarative => None,
    }
}

/// For each function the index of the first type that is equal to its own.
fn types_of(
    alloc: Global,
    firsts: &[usize],
    funcs: &[Func<'_>],
) -> Result<Vec<Option<usize>>, AllocError>
    ensures { IfOk result (λ v. v.items
        ≡ map (λ f. slice_get firsts.now (func_code f).ty) funcs.now) }
{
    funcs
        .iter()
        .map(|func| type_of(firsts, *func))
        .collect(alloc)
}

/// The index of the first type that is equal to that of a function.
fn type_of(firsts: &[usize], func: Func<'_>) -> Option<usize>
    ensures { result ≡ slice_get firsts.now (func_code func.entry).ty }
{
    firsts.get(func.ty as usize).copied()
}

/// The functions of a module, and what says which of them are listed.
#[derive(Clone, Copy)]
struct Functions<'a, 'm> {
    funcs: &'a [Func<'m>],
    /// For each type the index of the first that is equal to it.
    firsts: &'a [usize],
    /// For each function whether roots lead there.
    reached: &'a [bool],
}

/// The functions that are reached, listed under what they call. `seed`: that of a map.
fn lists_of(
    alloc: Global,
    seed: Seed,
    functions: Functions<'_, '_>,
) -> Result<CallLists, AllocError>
    ensures { IfOk result (λ m. AreListed functions.entry
        (length functions.entry.funcs.now) m.entries) }
{
    let mut lists = Map::with_hasher(alloc, seed);
    for index in 0..functions.funcs.len() {
        list_function(alloc, functions, index, &mut lists)?;
    }
    Ok(lists)
}

/// Lists the function of an index under what it calls, if it is reached.
fn list_function(
    alloc: Global,
    functions: Functions<'_, '_>,
    index: usize,
    lists: &mut CallLists,
) -> Result<(), AllocError>
    requires { index < length functions.funcs.now }
    ensures { OnOk result (ListsUnder (λ q. is_calling functions.entry q index) index
        lists.old.entries lists.new.entries) }
{
    if !is_reached(functions.reached, index) {
        return Ok(());
    }
    let func = functions.funcs[index];
    list_def(alloc, functions.firsts, func, index, lists)?;
    Ok(())
}

/// Whether roots lead to the function of an index.
fn is_reached(reached: &[bool], index: usize) -> bool
    ensures { result ≡ is_reached reached.now index }
{
    match reached.get(index) {
        Some(reached) => *reached,
        None => false,
    }
}

/// Lists a function, of an index, under what it calls.
fn list_def(
    alloc: Global,
    firsts: &[usize],
    func: Func<'_>,
    index: usize,
    lists: &mut CallLists,
) -> Result<(), AllocError>
    ensures { OnOk result (ListsUnder (λ q. def_calls firsts.now q (func_code func.entry).def)
        index lists.old.entries lists.new.entries) }
{
    match func.def {
        Def::Import(_, _) => Ok(()),
        Def::Local(bytes) => list_body(alloc, firsts, bytes, index, lists),
    }
}
