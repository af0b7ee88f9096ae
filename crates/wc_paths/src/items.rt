//! Items of a module, its segments among them, and what operators and types name of them.

ghost use Rattle.std.specs.Prelude.{◌≡◌, ◌∷◌, [], ◌++◌, OnOk};
ghost use Rattle.std.specs.Option.{option_to_list};
ghost use Rattle.wc_read.specs.Operators.{immediates_value, instr_values};
ghost use Rattle.wc_read.specs.Bodies.{local_types};
ghost use Rattle.wc_read.specs.Entries.{refs_list, val_type_refs};
ghost use Rattle.wc_paths.specs.Items.{code_items, index_items, operator_items, space_items};

use std::alloc::AllocError;
use wc_read::{Immediates, Index, IndexKind, Instr, Locals, Refs, Space, ValType, refs};

/// An item of a module, by its index (WebAssembly core specification, 2.5.1).
#[derive(Clone, Copy, Debug, PartialEq, Eq)]
pub enum PathItem {
    /// A type, a function, a table, a memory or a global.
    Item(Space, usize),
    /// An element segment.
    Elements(usize),
    /// A data segment.
    Data(usize),
}

/// Appends the type that a value type names.
pub fn put_type(names: &mut Vec<PathItem>, ty: ValType) -> Result<(), AllocError>
    ensures { OnOk result (names.new.items
        ≡ names.old.items ++ space_items (val_type_refs (ty ∷ []))) }
{
    match ty {
        ValType::TypeRef { index, .. } => {
            names.push(PathItem::Item(Space::Types, index as usize))?;
            Ok(())
        }
        _ => Ok(()),
    }
}

/// Appends the types that value types name.
pub fn put_types(names: &mut Vec<PathItem>, types: &[ValType]) -> Result<(), AllocError>
    ensures { OnOk result (names.new.items
        ≡ names.old.items ++ space_items (val_type_refs types.now)) }
{
    for ty in types {
        put_type(names, *ty)?;
    }
    Ok(())
}

/// Appends the types that runs of locals name.
pub fn put_locals(names: &mut Vec<PathItem>, runs: &[Locals]) -> Result<(), AllocError>
    ensures { OnOk result (names.new.items
        ≡ names.old.items ++ space_items (val_type_refs (local_types runs.now))) }
{
    for run in runs {
        put_type(names, run.ty)?;
    }
    Ok(())
}

/// Appends the item that an index names, if it names one.
fn put_index(names: &mut Vec<PathItem>, index: Index) -> Result<(), AllocError>
    ensures { OnOk result (names.new.items ≡ names.old.items ++ index_items index) }
{
    let number = index.number as usize;
    match index.kind {
        IndexKind::In(space) => names.push(PathItem::Item(space, number))?,
        IndexKind::Elem => names.push(PathItem::Elements(number))?,
        IndexKind::Data => names.push(PathItem::Data(number))?,
        IndexKind::Local => {}
        IndexKind::Label => {}
    }
    Ok(())
}

/// Appends an item of a space, if there is one.
fn put_reference(names: &mut Vec<PathItem>, item: Option<(Space, u32)>) -> Result<(), AllocError>
    ensures { OnOk result (names.new.items
        ≡ names.old.items ++ space_items (option_to_list item)) }
{
    match item {
        Some((space, number)) => {
            names.push(PathItem::Item(space, number as usize))?;
            Ok(())
        }
        None => Ok(()),
    }
}

fn put_refs(names: &mut Vec<PathItem>, named: Refs) -> Result<(), AllocError>
    ensures { OnOk result (names.new.items ≡ names.old.items ++ space_items (refs_list named)) }
{
    put_reference(names, named.first)?;
    put_reference(names, named.second)
}

/// Appends the items that an operator names, in the order in which it is spelled.
pub fn put_operator(names: &mut Vec<PathItem>, instr: &Instr<'_>) -> Result<(), AllocError>
    ensures { OnOk result (names.new.items
        ≡ names.old.items ++ operator_items (immediates_value instr.now.immediates)) }
{
    match &instr.immediates {
        Immediates::Index(index) => put_index(names, *index),
        Immediates::Indices(first, second) => {
            put_index(names, *first)?;
            put_index(names, *second)
        }
        Immediates::ValTypes(types) => put_types(names, types),
        _ => put_refs(names, refs(instr)),
    }
}

/// Appends the items that operators name.
pub fn put_code(names: &mut Vec<PathItem>, code: &[Instr<'_>]) -> Result<(), AllocError>
    ensures { OnOk result (names.new.items
        ≡ names.old.items ++ code_items (instr_values code.now)) }
{
    for instr in code {
        put_operator(names, instr)?;
    }
    Ok(())
}
