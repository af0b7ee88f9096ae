//! The validity of segments beside that of their sections (WebAssembly core specification, 3.4.5 and 3.4.6).

ghost use Rattle.std.specs.Prelude.{◌≡◌, ◌↔◌, ◌<◌, All, IsTrue, map};
ghost use Rattle.wc_read.specs.InitTypes.{IsTyped};
ghost use Rattle.wc_read.specs.Items.{memory_value, table_value};
ghost use Rattle.wc_read.specs.Modules.{module_value};
ghost use Rattle.wc_read.specs.Reading.InitTypes.{scope_value};
ghost use Rattle.wc_segments.specs.Data.{data_value};
ghost use Rattle.wc_segments.specs.Elements.{element_value, elements_value};
ghost use Rattle.wc_segments.specs.Modes.{mode_value};
ghost use Rattle.wc_segments.specs.Reading.Checks.{Checks};
ghost use Rattle.wc_segments.specs.Validity.{address_type, AreElements, IsData, IsElement, IsMode, IsOffset, memory_is_64, segment_scope, table_is_64};

use crate::data::DataSegment;
use crate::elements::{ElementSegment, Elements, Expression};
use crate::modes::SegmentMode;
use std::alloc::Global;
use wc_read::{Memory, Module, ReadFault, Scope, Table, ValType, has_type_index, is_typed_init};

/// The items that initialisers of segments may name: all that the module has.
pub fn segment_scope<'a>(module: &'a Module<'_>) -> Scope<'a>
    ensures { scope_value result ≡ segment_scope (module_value «module».now) }
{
    Scope {
        types: module.types.len(),
        functions: module.funcs.len(),
        globals: &module.globals,
    }
}

/// Checks element segments of a module with these tables.
pub fn check_elements(
    alloc: Global,
    scope: &Scope<'_>,
    tables: &[Table<'_>],
    elements: &[ElementSegment<'_>],
) -> Result<(), ReadFault>
    ensures { Checks result (All (IsElement (scope_value scope.now) (map table_value tables.now))
        (map element_value elements.now)) }
{
    for element in elements {
        check_element(alloc, scope, tables, element)?;
    }
    Ok(())
}

/// Checks data segments of a module with these memories.
pub fn check_data(
    alloc: Global,
    scope: &Scope<'_>,
    memories: &[Memory<'_>],
    data: &[DataSegment<'_>],
) -> Result<(), ReadFault>
    ensures { Checks result (All (IsData (scope_value scope.now) (map memory_value memories.now))
        (map data_value «data».now)) }
{
    for segment in data {
        check_memory(alloc, scope, memories, &segment.mode)?;
    }
    Ok(())
}

fn check_element(
    alloc: Global,
    scope: &Scope<'_>,
    tables: &[Table<'_>],
    element: &ElementSegment<'_>,
) -> Result<(), ReadFault>
    ensures { Checks result (IsElement (scope_value scope.now) (map table_value tables.now)
        (element_value element.now)) }
{
    check_table(alloc, scope, tables, &element.mode)?;
    if !has_type_index(scope.types, element.ty) {
        return Err(ReadFault::BadIndex);
    }
    check_contents(alloc, scope, element.ty, &element.elements)
}

/// Checks that an active element segment has a table, and an offset there.
fn check_table(
    alloc: Global,
    scope: &Scope<'_>,
    tables: &[Table<'_>],
    mode: &SegmentMode<'_>,
) -> Result<(), ReadFault>
    ensures { Checks result (IsMode (scope_value scope.now)
        (table_is_64 (map table_value tables.now)) (mode_value mode.now)) }
{
    match mode {
        SegmentMode::Active { index, offset } => {
            check_offset(alloc, scope, table_is_64(tables, *index), offset)
        }
        SegmentMode::Passive => Ok(()),
        SegmentMode::Declarative => Ok(()),
    }
}

/// Checks that an active data segment has a memory, and an offset there.
fn check_memory(
    alloc: Global,
    scope: &Scope<'_>,
    memories: &[Memory<'_>],
    mode: &SegmentMode<'_>,
) -> Result<(), ReadFault>
    ensures { Checks result (IsMode (scope_value scope.now)
        (memory_is_64 (map memory_value memories.now)) (mode_value mode.now)) }
{
    match mode {
        SegmentMode::Active { index, offset } => {
            check_offset(alloc, scope, memory_is_64(memories, *index), offset)
        }
        SegmentMode::Passive => Ok(()),
        SegmentMode::Declarative => Ok(()),
    }
}

/// Whether indices of a table have 64 bits; `None` where there is no such table.
fn table_is_64(tables: &[Table<'_>], index: u32) -> Option<bool>
    ensures { result ≡ table_is_64 (map table_value tables.now) index }
{
    let table = tables.get(index as usize)?;
    Some(table.ty.table64)
}

/// Whether addresses of a memory have 64 bits; `None` where there is no such memory.
fn memory_is_64(memories: &[Memory<'_>], index: u32) -> Option<bool>
    ensures { result ≡ memory_is_64 (map memory_value memories.now) index }
{
    let memory = memories.get(index as usize)?;
    Some(memory.ty.memory64)
}

/// The type of an index or an address.
fn address_type(is_64: bool) -> ValType
    ensures { result ≡ address_type is_64 }
{
    if is_64 { ValType::I64 } else { ValType::I32 }
}

/// Checks an offset in a table or memory with addresses of 64 bits, or of 32, which may be missing.
fn check_offset(
    alloc: Global,
    scope: &Scope<'_>,
    is_64: Option<bool>,
    offset: &[u8],
) -> Result<(), ReadFault>
    ensures { Checks result (IsOffset (scope_value scope.now) is_64 offset.now) }
{
    match is_64 {
        Some(is_64) => check_init(alloc, scope, address_type(is_64), offset),
        None => Err(ReadFault::BadIndex),
    }
}

/// Checks that an initialiser leaves one value of a type.
fn check_init(alloc: Global, scope: &Scope<'_>, ty: ValType, init: &[u8]) -> Result<(), ReadFault>
    ensures { Checks result (IsTyped (scope_value scope.now) ty init.now) }
{
    if is_typed_init(alloc, scope, ty, init)? {
        Ok(())
    } else {
        Err(ReadFault::BadInitialiser)
    }
}

/// Checks the elements of a segment of a type.
fn check_contents(
    alloc: Global,
    scope: &Scope<'_>,
    ty: ValType,
    elements: &Elements<'_>,
) -> Result<(), ReadFault>
    ensures { Checks result (AreElements (scope_value scope.now) ty (elements_value elements.now)) }
{
    match elements {
        Elements::Functions(functions) => check_functions(scope.functions, functions),
        Elements::Expressions(expressions) => check_expressions(alloc, scope, ty, expressions),
    }
}

fn check_functions(count: usize, functions: &[u32]) -> Result<(), ReadFault>
    ensures { Checks result (All (λ index. index < count) functions.now) }
{
    if are_below(count, functions) {
        Ok(())
    } else {
        Err(ReadFault::BadIndex)
    }
}

fn are_below(count: usize, indices: &[u32]) -> bool
    ensures { IsTrue result ↔ All (λ index. index < count) indices.now }
{
    indices.iter().all(|index| (*index as usize) < count)
}

fn check_expressions(
    alloc: Global,
    scope: &Scope<'_>,
    ty: ValType,
    expressions: &[Expression<'_>],
) -> Result<(), ReadFault>
    ensures { Checks result (All (IsTyped (scope_value scope.now) ty)
        (map (λ e. e.bytes.now) expressions.now)) }
{
    for expression in expressions {
        check_init(alloc, scope, ty, expression.bytes)?;
    }
    Ok(())
}
