//! The items that each item of a module names.

ghost use Rattle.std.specs.Prelude.{◌≡◌, ◌++◌, map, IfOk, OnOk};
ghost use Rattle.std.specs.List.{flat_map};
ghost use Rattle.wc_read.specs.Types.{func_type_value};
ghost use Rattle.wc_read.specs.declared.operators.Space.TheVariants.{Funcs};
ghost use Rattle.wc_read.specs.Decoded.{func_code, global_code, is_code};
ghost use Rattle.wc_read.specs.Entries.{func_type_refs};
ghost use Rattle.wc_segments.specs.Data.{data_value};
ghost use Rattle.wc_segments.specs.Elements.{element_value, elements_value};
ghost use Rattle.wc_segments.specs.Modes.{mode_value};
ghost use Rattle.wc_paths.specs.Items.{data_items, element_items, elements_items, func_items, global_items, init_items, mode_items, space_items};
ghost use Rattle.wc_paths.specs.declared.items.PathItem.TheVariants.{Item};

use crate::body_names::put_body;
use crate::items::{PathItem, put_code, put_type, put_types};
use std::alloc::{AllocError, Global};
use wc_read::{Def, Func, FuncType, Global as ModuleGlobal, ReadFault, Space, read_init};
use wc_segments::{DataSegment, ElementSegment, Elements, Expression, SegmentMode};

/// Appends the types that a function type names.
pub fn put_func_type(names: &mut Vec<PathItem>, ty: &FuncType) -> Result<(), AllocError>
    ensures { OnOk result (names.new.items
        ≡ names.old.items ++ space_items (func_type_refs (func_type_value ty.now))) }
{
    put_types(names, ty.params())?;
    put_types(names, ty.results())
}

/// Appends the items that a function names, and answers whether its body is code.
pub fn put_func(
    names: &mut Vec<PathItem>,
    alloc: Global,
    func: Func<'_>,
) -> Result<bool, AllocError>
    ensures names { OnOk result (names.new.items
        ≡ names.old.items ++ func_items (func_code func.entry)) }
    ensures code { IfOk result (λ code. code ≡ is_code (func_code func.entry).def) }
{
    names.push(PathItem::Item(Space::Types, func.ty as usize))?;
    match func.def {
        Def::Import(_, _) => Ok(true),
        Def::Local(bytes) => put_body(names, alloc, bytes),
    }
}

/// Appends the items that an initialiser names.
fn put_init(names: &mut Vec<PathItem>, alloc: Global, bytes: &[u8]) -> Result<(), AllocError>
    ensures { OnOk result (names.new.items ≡ names.old.items ++ init_items bytes.now) }
{
    match read_init(alloc, bytes) {
        Ok(init) => put_code(names, &init.operators),
        Err(fault) => match fault {
            ReadFault::Memory => Err(AllocError),
            _ => Ok(()),
        },
    }
}

/// Appends the items that a global names: by its type, and by its initialiser.
pub fn put_global(
    names: &mut Vec<PathItem>,
    alloc: Global,
    global: ModuleGlobal<'_>,
) -> Result<(), AllocError>
    ensures { OnOk result (names.new.items
        ≡ names.old.items ++ global_items (global_code global.entry)) }
{
    put_type(names, global.ty.content_type)?;
    match global.def {
        Def::Import(_, _) => Ok(()),
        Def::Local(bytes) => put_init(names, alloc, bytes),
    }
}

/// Appends what an active segment fills, an item of a space, and what its offset names.
fn put_mode(
    names: &mut Vec<PathItem>,
    alloc: Global,
    space: Space,
    mode: &SegmentMode<'_>,
) -> Result<(), AllocError>
    ensures { OnOk result (names.new.items
        ≡ names.old.items ++ mode_items space (mode_value mode.now)) }
{
    match mode {
        SegmentMode::Active { index, offset } => {
            names.push(PathItem::Item(space, *index as usize))?;
            put_init(names, alloc, offset)
        }
        SegmentMode::Passive => Ok(()),
        SegmentMode::Declarative => Ok(()),
    }
}

fn put_functions(names: &mut Vec<PathItem>, functions: &[u32]) -> Result<(), AllocError>
    ensures { OnOk result (names.new.items
        ≡ names.old.items ++ map (λ n. Item Funcs n) functions.now) }
{
    for index in functions {
        names.push(PathItem::Item(Space::Funcs, *index as usize))?;
    }
    Ok(())
}

fn put_expressions(
    names: &mut Vec<PathItem>,
    alloc: Global,
    expressions: &[Expression<'_>],
) -> Result<(), AllocError>
    ensures { OnOk result (names.new.items ≡ names.old.items
        ++ flat_map init_items (map (λ e. e.bytes.now) expressions.now)) }
{
    for expression in expressions {
        put_init(names, alloc, expression.bytes)?;
    }
    Ok(())
}

fn put_elements(
    names: &mut Vec<PathItem>,
    alloc: Global,
    elements: &Elements<'_>,
) -> Result<(), AllocError>
    ensures { OnOk result (names.new.items
        ≡ names.old.items ++ elements_items (elements_value elements.now)) }
{
    match elements {
        Elements::Functions(functions) => put_functions(names, functions),
        Elements::Expressions(expressions) => put_expressions(names, alloc, expressions),
    }
}

/// Appends the items that an element segment names: its table and the items that its offset names, if it is active; the
/// type that its reference type names; and its elements, or the items that these name.
pub fn put_element(
    names: &mut Vec<PathItem>,
    alloc: Global,
    element: &ElementSegment<'_>,
) -> Result<(), AllocError>
    ensures { OnOk result (names.new.items
        ≡ names.old.items ++ element_items (element_value element.now)) }
{
    put_mode(names, alloc, Space::Tables, &element.mode)?;
    put_type(names, element.ty)?;
    put_elements(names, alloc, &element.elements)
}

/// Appends the items that a data segment names: its memory, if it is active, and what its offset names.
pub fn put_data(
    names: &mut Vec<PathItem>,
    alloc: Global,
    data: &DataSegment<'_>,
) -> Result<(), AllocError>
    ensures { OnOk result (names.new.items
        ≡ names.old.items ++ data_items (data_value «data».now)) }
{
    put_mode(names, alloc, Space::Memories, &data.mode)
}
