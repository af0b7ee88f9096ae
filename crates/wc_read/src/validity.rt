//! The validity of a module beside that of its sections (WebAssembly core specification, 3.4).

ghost use Rattle.std.specs.Prelude.{◌≡◌, ◌≢◌, ◌<◌, ◌↔◌, length, IfOk, IfErr, IsTrue, ◌&&◌, Some, nat_lt};
ghost use Rattle.std.specs.List.{list_all, slice_get};
ghost use Rattle.wc_read.specs.Fault.{IfRefused};
ghost use Rattle.wc_read.specs.Types.{func_type_value, has_type_index};
ghost use Rattle.wc_read.specs.Reading.Validity.{name_types};
ghost use Rattle.wc_read.specs.Reading.Types.{have_type_indices, is_nullary};
ghost use Rattle.wc_read.specs.Modules.{module_value, count_of, HaveTypes, IsStart, IsModule, CountsFitU32};

use crate::core_module::Module;
use crate::distinct::have_distinct_names;
use crate::exports::{Export, ExportKind};
use crate::fault::ReadFault;
use crate::init_types::{are_typed, has_type_index, init_fault};
use crate::items::{self, Func, Table};
use crate::types::{FuncType, ValType};
use std::alloc::Global;

/// Whether all indices name an item, names of exports are distinct, initialisers leave one value of their globals'
/// types, the start function has no parameters and no results, and there are less than 2^32 items in each space.
pub fn check_module(alloc: Global, module: &Module) -> Result<(), ReadFault>
    ensures found { IfOk result (λ _. IsModule (module_value «module».now)) }
    ensures refused { IfRefused result (¬ (IsModule (module_value «module».now))) }
    ensures no_component { IfErr result (λ f. f ≢ ReadFault.Component) }
{
    if !counts_fit_u32(module) {
        return Err(ReadFault::TooLarge);
    }
    if !have_types(&module.funcs, &module.types) {
        return Err(ReadFault::BadIndex);
    }
    if !name_types(module) {
        return Err(ReadFault::BadIndex);
    }
    if !name_items(&module.exports, module) {
        return Err(ReadFault::BadIndex);
    }
    if !have_distinct_names(alloc, &module.exports)? {
        return Err(ReadFault::DuplicateExport);
    }
    if !are_typed(
        alloc,
        module.types.len(),
        module.funcs.len(),
        &module.globals,
    )? {
        return Err(init_fault(alloc, module.types.len(), &module.globals));
    }
    match module.start {
        Some(index) => check_start(module, index)?,
        None => {}
    }
    Ok(())
}

/// Whether no space has 2^32 items.
fn counts_fit_u32(module: &Module) -> bool
    ensures { IsTrue result ↔ CountsFitU32 (module_value «module».now) }
{
    let limit = u32::MAX as usize;
    module.funcs.len() <= limit
        && module.tables.len() <= limit
        && module.memories.len() <= limit
        && module.globals.len() <= limit
}

/// Whether functions have types of the module.
fn have_types(funcs: &[Func], types: &[FuncType]) -> bool
    ensures { result ≡ list_all (λ f. nat_lt f.ty (length types.now)) funcs.now }
{
    funcs.iter().all(|func| (func.ty as usize) < types.len())
}

/// Whether the indices of types in types, tables and globals are those of types of the module.
fn name_types(module: &Module) -> bool
    ensures { result ≡ name_types (length «module».now.types.items) «module».now }
{
    let types = module.types.len();
    types_name_types(&module.types, types)
        && tables_name_types(&module.tables, types)
        && globals_name_types(&module.globals, types)
}

/// Whether all indices of types in function types are below `count`.
pub fn types_name_types(types: &[FuncType], count: usize) -> bool
    ensures { result ≡ list_all (λ t. have_type_indices count (func_type_value t)) types.now }
{
    types.iter().all(|ty| have_type_indices(count, ty))
}

/// Whether all indices of types in a function type are below `count`.
fn have_type_indices(count: usize, ty: &FuncType) -> bool
    ensures { result ≡ have_type_indices count (func_type_value ty.now) }
{
    are_below(count, ty.params()) && are_below(count, ty.results())
}

fn are_below(count: usize, types: &[ValType]) -> bool
    ensures { result ≡ list_all (has_type_index count) types.now }
{
    types.iter().all(|ty| has_type_index(count, *ty))
}

fn tables_name_types(tables: &[Table], count: usize) -> bool
    ensures { result ≡ list_all (λ t. has_type_index count t.ty.element_type) tables.now }
{
    tables
        .iter()
        .all(|table| has_type_index(count, table.ty.element_type))
}

fn globals_name_types(globals: &[items::Global], count: usize) -> bool
    ensures { result ≡ list_all (λ g. has_type_index count g.ty.content_type) globals.now }
{
    globals
        .iter()
        .all(|global| has_type_index(count, global.ty.content_type))
}

/// Whether exports name items of the module.
fn name_items(exports: &[Export], module: &Module) -> bool
    ensures { result ≡ list_all
        (λ e. nat_lt e.index (count_of (module_value «module».now) e.kind)) exports.now }
{
    exports.iter().all(|export| (export.index as usize) < count_of(module, export.kind))
}

/// How many items the space of a kind has.
fn count_of(module: &Module, kind: ExportKind) -> usize
    ensures { result ≡ count_of (module_value «module».now) kind }
{
    match kind {
        ExportKind::Func => module.funcs.len(),
        ExportKind::Table => module.tables.len(),
        ExportKind::Memory => module.memories.len(),
        ExportKind::Global => module.globals.len(),
    }
}

/// Checks that a function of the module has no parameters and no results.
fn check_start(module: &Module, index: u32) -> Result<(), ReadFault>
    requires typed { HaveTypes (module_value «module».now) }
    ensures found { IfOk result (λ _. IsStart (module_value «module».now) index) }
    ensures refused { IfErr result (λ _. ¬ (IsStart (module_value «module».now) index)) }
    ensures no_memory { IfErr result (λ f. f ≢ ReadFault.Memory) }
    ensures no_component { IfErr result (λ f. f ≢ ReadFault.Component) }
{
    let Some(func) = module.funcs.get(index as usize) else {
        return Err(ReadFault::BadIndex);
    };
    let ty = type_of(&module.types, func.ty);
    if !is_nullary(ty) {
        return Err(ReadFault::BadStart);
    }
    Ok(())
}

/// Whether functions of a type take nothing and give nothing.
fn is_nullary(ty: &FuncType) -> bool
    ensures { result ≡ is_nullary (func_type_value ty.now) }
{
    ty.params().is_empty() && ty.results().is_empty()
}

/// The type with an index.
fn type_of(types: &[FuncType], index: u32) -> &FuncType
    requires { index < length types.now }
    ensures { slice_get types.now index ≡ Some result.now }
{
    &types[index as usize]
}
