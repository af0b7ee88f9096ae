//! The image of an adapter: its live items under their new indices.

ghost use Rattle.std.specs.Prelude.{◌≡◌, ◌<◌, ◌^◌, ◌++◌, ◌∷◌, [], ℕ, length, map, true, IsTrue, IfOk, OnOk, Some};
ghost use Rattle.std.specs.List.{filter_map, slice_get};
ghost use Rattle.wc_read.specs.Exports.{export_value};
ghost use Rattle.wc_read.specs.Items.{item_value, table_value};
ghost use Rattle.wc_read.specs.Renumbering.{renumber_func_type};
ghost use Rattle.wc_read.specs.Types.{func_type_value};
ghost use Rattle.wc_read.specs.declared.operators.Space.TheVariants.{Funcs};
ghost use Rattle.wc_write.specs.Modules.{built_value_by};
ghost use Rattle.wc_gc.specs.AddedCode.{empty_type, realloc_type};
ghost use Rattle.wc_gc.specs.Bits.{bit_of};
ghost use Rattle.wc_read.specs.Decoded.{decoded_module, global_code};
ghost use Rattle.wc_gc.specs.Edit.{only_if, types_added};
ghost use Rattle.wc_gc.specs.EditedImage.{edited_image, edited_rank};
ghost use Rattle.wc_gc.specs.Private.Edit.{AreCoded, AreCodedAt, IsCodedAt, edited_of, funcs_at, funcs_of, image_funcs, image_types, live_funcs, new_funcs, new_indices, settings_of, types_of, written_funcs};
ghost use Rattle.wc_gc.specs.Private.ItemCounts.{ItemCountsFitU32};
ghost use Rattle.wc_gc.specs.Private.KeptBodies.{AreBodiesCut};
ghost use Rattle.wc_gc.specs.Private.FuncGroups.{AreGroups};
ghost use Rattle.wc_gc.specs.Image.{kept_items, new_export, new_global, new_table};
ghost use Rattle.wc_gc.specs.Live.{has_item};
ghost use Rattle.wc_gc.specs.NewBodies.{body_written, init_written};
ghost use Rattle.wc_gc.specs.NewIndices.{new_of};
ghost use Rattle.wc_gc.specs.InRange.{is_item_in_range};

use crate::edit::{Edit, EditSource, NewFunc};
use crate::func_groups::FuncGroups;
use crate::live::{BitVec, LiveSet};
use crate::live_items::exported_item;
use crate::new_bodies::{NewBody, NewInit};
use crate::new_indices::NewIndices;
use crate::parts::Parts;
use std::alloc::{AllocError, Global};
use wc_read::{
    Def, Export, Func, FuncType, Global as ModuleGlobal, GlobalType, Item, Table, ValType,
};
use wc_write::Built;

/// A global of the image.
type NewGlobal<'a, 'n> = Item<'a, GlobalType, NewInit<'a, 'n>>;

/// The most functions that are added after those of a set: what allocates a stack, a realloc, and the start function.
const MOST_ADDED: usize = 3;

/// The image of an adapter with some of its exports: its live items and what is added, in their order, under their new
/// indices.
pub fn image<'a, 'n, L: LiveSet>(
    alloc: Global,
    source: &EditSource<'_, 'a, L>,
    groups: &FuncGroups<L>,
    edit: Edit<'a, 'n>,
) -> Result<Built<'a, NewBody<'a, 'n>, NewInit<'a, 'n>>, AllocError>
    requires bounded { ItemCountsFitU32 source.now.adapter.now }
    requires groups { AreGroups L.has (settings_of edit) source.now.adapter.now.funcs.items
        (L.has source.now.live.now.funcs) (map export_value source.now.exports.now) groups.now }
    requires in_range { (n : ℕ) → IsTrue (L.has source.now.live.now.funcs n)
        → is_item_in_range (decoded_module source.now.adapter.now) (Funcs, n) ≡ true }
    requires cut { AreBodiesCut source.now.adapter.now.funcs.items edit.bodies.now.cuts.now }
    requires types { types_of edit ≡ length source.now.adapter.now.types.items }
    requires funcs { funcs_of edit ≡ length source.now.adapter.now.funcs.items }
    requires indices { let s = source.now in new_indices edit ≡ edited_rank (edited_of edit
        (decoded_module s.adapter.now) (map export_value s.exports.now)
        (has_item L.has s.live.now)) }
    ensures { let s = source.now in IfOk result (λ b. built_value_by body_written init_written b
        ≡ edited_image (edited_of edit.entry
        (decoded_module s.adapter.now) (map export_value s.exports.now)
        (has_item L.has s.live.now))) }
{
    let adapter = source.adapter;
    let live = source.live;
    let types = new_types(alloc, &live.types, &adapter.types, edit)?;
    let funcs = new_funcs(alloc, &adapter.funcs, groups, edit)?;
    let mut tables = kept_items(alloc, &live.tables, &adapter.tables)?;
    renumber_tables(&mut tables, edit.new);
    let memories = kept_items(alloc, &live.memories, &adapter.memories)?;
    let globals = kept_items(alloc, &live.globals, &adapter.globals)?;
    let globals = new_globals(alloc, &globals, edit.new)?;
    let exports = new_exports(alloc, source.exports, edit.new)?;
    Ok(Built {
        types,
        funcs,
        tables,
        memories,
        globals,
        exports,
        start: edit.start(),
        producers: adapter.producers,
    })
}

/// The function types: live ones, and those that are added.
fn new_types<L: LiveSet>(
    alloc: Global,
    live: &L,
    types: &[FuncType],
    edit: Edit<'_, '_>,
) -> Result<Vec<FuncType>, AllocError>
    requires { length types.now < 2 ^ 32 }
    ensures { IfOk result (λ v. map func_type_value v.items
        ≡ image_types edit.entry (L.has live.now) types.now) }
{
    let mut types = kept_types(alloc, live, types, edit.new)?;
    append_types(alloc, &mut types, edit.parts, edit.found.empties.is_empty())?;
    Ok(types)
}

/// Appends the types that are added; one for the start function, if no empty type is live.
fn append_types(
    alloc: Global,
    types: &mut Vec<FuncType>,
    parts: Parts,
    no_empty: bool,
) -> Result<(), AllocError>
    ensures { OnOk result (map func_type_value types.new.items
        ≡ map func_type_value types.old.items ++ types_added parts no_empty) }
{
    append_if(types, parts.import_realloc, realloc_type(alloc)?)?;
    append_if(types, parts.lazy, empty_type(alloc))?;
    append_if(types, parts.growing, realloc_type(alloc)?)?;
    append_if(types, parts.start && no_empty, empty_type(alloc))
}

/// Appends a type, if it is added.
fn append_if(types: &mut Vec<FuncType>, added: bool, ty: FuncType) -> Result<(), AllocError>
    ensures { OnOk result (map func_type_value types.new.items
        ≡ map func_type_value types.old.items ++ only_if added (func_type_value ty)) }
{
    if !added {
        return Ok(());
    }
    types.push(ty)?;
    Ok(())
}

/// The type of a realloc.
fn realloc_type(alloc: Global) -> Result<FuncType, AllocError>
    ensures { IfOk result (λ t. func_type_value t ≡ realloc_type) }
{
    let params = Vec::from_slice(alloc, &[ValType::I32; 4])?;
    let results = Vec::from_slice(alloc, &[ValType::I32])?;
    Ok(FuncType::new(params, results))
}

/// The type of functions without parameters and results.
fn empty_type(alloc: Global) -> FuncType
    ensures { func_type_value result ≡ empty_type }
{
    FuncType::new(Vec::new(alloc), Vec::new(alloc))
}

/// The functions: live imports, the import that is added, live defined functions, those that are added.
fn new_funcs<'a, 'n, L: LiveSet>(
    alloc: Global,
    funcs: &[Func<'a>],
    groups: &FuncGroups<L>,
    edit: Edit<'a, 'n>,
) -> Result<Vec<NewFunc<'a, 'n>>, AllocError>
    requires bounded { length funcs.now < 2 ^ 32 }
    requires cut { AreBodiesCut funcs.now edit.bodies.now.cuts.now }
    requires imports { AreCoded (L.has groups.now.imports) funcs.now }
    requires defined { AreCoded (L.has groups.now.defined) funcs.now }
    ensures { let g = groups.now in IfOk result (λ v. written_funcs v.items ≡ image_funcs
        edit.entry (L.has g.imports) (L.has g.defined)
        (bit_of g.exported.words.items) funcs.now) }
{
    let mut items = Vec::new(alloc);
    append_funcs(&mut items, funcs, &groups.imports, &groups.exported, edit)?;
    edit.append_import(&mut items)?;
    append_funcs(&mut items, funcs, &groups.defined, &groups.exported, edit)?;
    edit.append_added(&mut items)?;
    Ok(items)
}

/// Appends the functions whose indices are in a set, in their order.
fn append_funcs<'a, 'n, L: LiveSet>(
    items: &mut Vec<NewFunc<'a, 'n>>,
    funcs: &[Func<'a>],
    kept: &L,
    exported: &BitVec,
    edit: Edit<'a, 'n>,
) -> Result<(), AllocError>
    requires bounded { length funcs.now < 2 ^ 32 }
    requires cut { AreBodiesCut funcs.now edit.bodies.now.cuts.now }
    requires coded { AreCoded (L.has kept.now) funcs.now }
    ensures { OnOk result (written_funcs items.new.items ≡ written_funcs items.old.items
        ++ live_funcs edit.entry (L.has kept.now) (bit_of exported.now.words.items) funcs.now) }
{
    let indices = kept.numbers_below(*items.allocator(), funcs.len() as u32)?;
    items.reserve_exact(indices.len().saturating_add(MOST_ADDED))?;
    append_funcs_at(items, funcs, &indices, exported, edit)
}

/// Appends the functions of these indices, in their order.
fn append_funcs_at<'a, 'n>(
    items: &mut Vec<NewFunc<'a, 'n>>,
    funcs: &[Func<'a>],
    indices: &[u32],
    exported: &BitVec,
    edit: Edit<'a, 'n>,
) -> Result<(), AllocError>
    requires cut { AreBodiesCut funcs.now edit.bodies.now.cuts.now }
    requires coded { AreCodedAt indices.now funcs.now }
    ensures { OnOk result (written_funcs items.new.items ≡ written_funcs items.old.items
        ++ funcs_at edit.entry (bit_of exported.now.words.items) funcs.now indices.now) }
{
    for index in indices {
        append_func_at(items, funcs, *index, exported, edit)?;
    }
    Ok(())
}

/// Appends the function of an index, where there is one.
#[inline(always)]
fn append_func_at<'a, 'n>(
    items: &mut Vec<NewFunc<'a, 'n>>,
    funcs: &[Func<'a>],
    index: u32,
    exported: &BitVec,
    edit: Edit<'a, 'n>,
) -> Result<(), AllocError>
    requires cut { AreBodiesCut funcs.now edit.bodies.now.cuts.now }
    requires coded { IsCodedAt funcs.now index }
    ensures { OnOk result (written_funcs items.new.items ≡ written_funcs items.old.items
        ++ funcs_at edit.entry (bit_of exported.now.words.items) funcs.now (index ∷ [])) }
{
    match funcs.get(index as usize) {
        Some(func) => {
            let is_exported = exported.contains(index);
            items.push(edit.edited_func(func, index, is_exported))?;
            Ok(())
        }
        None => Ok(()),
    }
}

/// The items whose indices are in a set, in their order.
fn kept_items<T: Copy, L: LiveSet>(
    alloc: Global,
    live: &L,
    items: &[T],
) -> Result<Vec<T>, AllocError>
    requires { length items.now < 2 ^ 32 }
    ensures { IfOk result (λ v. v.items
        ≡ kept_items (L.has live.now) (length items.now) items.now) }
{
    let indices = live.numbers_below(alloc, items.len() as u32)?;
    items_at(alloc, items, &indices)
}

/// The items of these indices, in their order.
fn items_at<T: Copy>(alloc: Global, items: &[T], indices: &[u32]) -> Result<Vec<T>, AllocError>
    ensures { IfOk result (λ v. v.items ≡ filter_map (slice_get items.now) indices.now) }
{
    let mut found = Vec::with_capacity(alloc, indices.len())?;
    for index in indices {
        append_item_at(&mut found, items, *index)?;
    }
    Ok(found)
}

/// Appends the item of an index, where there is one.
#[inline(always)]
fn append_item_at<T: Copy>(found: &mut Vec<T>, items: &[T], index: u32) -> Result<(), AllocError>
    ensures { OnOk result (found.new.items
        ≡ found.old.items ++ filter_map (slice_get items.now) (index ∷ [])) }
{
    match items.get(index as usize) {
        Some(item) => {
            found.push(*item)?;
            Ok(())
        }
        None => Ok(()),
    }
}

/// The function types whose indices are in a set, in their order, under new indices.
fn kept_types<L: LiveSet>(
    alloc: Global,
    live: &L,
    types: &[FuncType],
    new: &NewIndices,
) -> Result<Vec<FuncType>, AllocError>
    requires { length types.now < 2 ^ 32 }
    ensures { IfOk result (λ v. map func_type_value v.items
        ≡ map (renumber_func_type (new_of new.now))
        (kept_items (L.has live.now) (length types.now) (map func_type_value types.now))) }
{
    let indices = live.numbers_below(alloc, types.len() as u32)?;
    types_at(alloc, types, &indices, new)
}

/// The function types of these indices, in their order, under new indices.
fn types_at(
    alloc: Global,
    types: &[FuncType],
    indices: &[u32],
    new: &NewIndices,
) -> Result<Vec<FuncType>, AllocError>
    ensures { IfOk result (λ v. map func_type_value v.items
        ≡ map (renumber_func_type (new_of new.now))
        (filter_map (slice_get (map func_type_value types.now)) indices.now)) }
{
    let mut found = Vec::with_capacity(alloc, indices.len())?;
    for index in indices {
        append_type_at(&mut found, types, *index, new)?;
    }
    Ok(found)
}

/// Appends the function type of an index, where there is one, under new indices.
#[inline(always)]
fn append_type_at(
    kept: &mut Vec<FuncType>,
    types: &[FuncType],
    index: u32,
    new: &NewIndices,
) -> Result<(), AllocError>
    ensures { OnOk result (map func_type_value kept.new.items
        ≡ map func_type_value kept.old.items ++ map (renumber_func_type (new_of new.now))
        (filter_map (slice_get (map func_type_value types.now)) (index ∷ []))) }
{
    match types.get(index as usize) {
        Some(ty) => {
            let ty = new.func_type(*kept.allocator(), ty)?;
            kept.push(ty)?;
            Ok(())
        }
        None => Ok(()),
    }
}

/// Puts the new types of tables in place of their old ones.
fn renumber_tables(tables: &mut [Table<'_>], new: &NewIndices)
    ensures { map table_value tables.new
        ≡ map (new_table (new_of new.now)) (map table_value tables.old) }
{
    for table in tables.iter_mut() {
        table.ty = new.table_type(table.ty);
    }
}

/// Globals under new indices.
fn new_globals<'a, 'n>(
    alloc: Global,
    globals: &[ModuleGlobal<'a>],
    new: &'n NewIndices,
) -> Result<Vec<NewGlobal<'a, 'n>>, AllocError>
    ensures { IfOk result (λ v. map (item_value init_written) v.items
        ≡ map (λ g. new_global (new_of new.now) (global_code g)) globals.now) }
{
    let mut items = Vec::with_capacity(alloc, globals.len())?;
    for global in globals {
        items.push(new_global(global, new))?;
    }
    Ok(items)
}

/// A global under new indices.
fn new_global<'a, 'n>(global: &ModuleGlobal<'a>, new: &'n NewIndices) -> NewGlobal<'a, 'n>
    ensures { item_value init_written result
        ≡ new_global (new_of new.now) (global_code global.now) }
{
    let ty = new.global_type(global.ty);
    match global.def {
        Def::Import(module, name) => Item {
            ty,
            def: Def::Import(module, name),
        },
        Def::Local(bytes) => Item {
            ty,
            def: Def::Local(NewInit { bytes, new }),
        },
    }
}

/// Exports under new indices.
fn new_exports<'a>(
    alloc: Global,
    exports: &[Export<'a>],
    new: &NewIndices,
) -> Result<Vec<Export<'a>>, AllocError>
    ensures { IfOk result (λ v. map export_value v.items
        ≡ map (new_export (new_of new.now)) (map export_value exports.now)) }
{
    let mut items = Vec::with_capacity(alloc, exports.len())?;
    for export in exports {
        let (space, index) = exported_item(export);
        items.push(Export {
            name: export.name,
            kind: export.kind,
            index: new.of(space, index),
        })?;
    }
    Ok(items)
}
