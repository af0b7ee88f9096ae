//! Index spaces: imported items, and then defined ones.

ghost use Rattle.std.specs.Prelude.{◌≡◌, ℕ, List, Option, ⊤, map, IfOk};
ghost use Rattle.wc_read.specs.declared.types.ImportType.{ImportType as import_type};
ghost use Rattle.wc_read.specs.Imports.{import_values};
ghost use Rattle.wc_read.specs.Reading.Globals.{local_global_values};
ghost use Rattle.wc_read.specs.Items.{item_value, func_values, global_values};
ghost use Rattle.wc_read.specs.Spaces.{func_of, table_of, memory_of, global_of, imported_items, func_space, declared_space, global_space};

use crate::globals::LocalGlobal;
use crate::items::{self, Def, Func, Item};
use crate::types::{GlobalType, Import, ImportType, MemoryType, TableType};
use std::alloc::{AllocError, Global};

/// The type of one kind of items.
pub trait ItemType: Sized {
    ghost of: { import_type → Option Self };

    /// The type of what is imported, if it is of this kind.
    fn of(ty: ImportType) -> Option<Self>
        ensures { result ≡ of ty };
}

impl ItemType for u32 {
    ghost of = { func_of };

    fn of(ty: ImportType) -> Option<u32> {
        match ty {
            ImportType::Func(index) => Some(index),
            _ => None,
        }
    }
}

impl ItemType for TableType {
    ghost of = { table_of };

    fn of(ty: ImportType) -> Option<TableType> {
        match ty {
            ImportType::Table(table) => Some(table),
            _ => None,
        }
    }
}

impl ItemType for MemoryType {
    ghost of = { memory_of };

    fn of(ty: ImportType) -> Option<MemoryType> {
        match ty {
            ImportType::Memory(memory) => Some(memory),
            _ => None,
        }
    }
}

impl ItemType for GlobalType {
    ghost of = { global_of };

    fn of(ty: ImportType) -> Option<GlobalType> {
        match ty {
            ImportType::Global(global) => Some(global),
            _ => None,
        }
    }
}

/// The content of a defined item.
pub trait Content: Sized {
    ghost Value: { Type 0 };

    ghost view: { Self → Value };
}

impl<'a> Content for &'a [u8] {
    ghost Value = { List ℕ };

    ghost view = { λ b. b.now };
}

impl Content for () {
    ghost Value = { ⊤ };

    ghost view = { λ _. tt };
}

/// The imported items of one kind.
pub fn imported<'a, T: ItemType + Drop, C: Content + Drop>(
    alloc: Global,
    imports: &[Import<'a>],
) -> Result<Vec<Item<'a, T, C>>, AllocError>
    ensures { IfOk result (λ v.
        map (item_value C.view) v.items ≡ imported_items T.of (import_values imports.now)) }
{
    let mut items = Vec::new(alloc);
    for import in imports {
        if let Some(ty) = T::of(import.ty) {
            items.push(Item {
                ty,
                def: Def::Import(import.module, import.name),
            })?;
        }
    }
    Ok(items)
}

/// The functions: imported ones, and then one for each type and body.
pub fn funcs<'a>(
    alloc: Global,
    imports: &[Import<'a>],
    types: &[u32],
    bodies: &[&'a [u8]],
) -> Result<Vec<Func<'a>>, AllocError>
    ensures { IfOk result (λ v. func_values v.items
        ≡ func_space (import_values imports.now) types.now (map (λ b. b.now) bodies.now)) }
{
    let mut funcs = imported::<u32, &[u8]>(alloc, imports)?;
    for (ty, body) in types.iter().zip(bodies) {
        funcs.push(Item {
            ty: *ty,
            def: Def::Local(*body),
        })?;
    }
    Ok(funcs)
}

/// Tables or memories: imported ones, and then one for each type.
pub fn declared<'a, T: ItemType + Copy + Drop>(
    alloc: Global,
    imports: &[Import<'a>],
    types: &[T],
) -> Result<Vec<Item<'a, T, ()>>, AllocError>
    ensures { IfOk result (λ v. map (item_value (λ _. tt)) v.items
        ≡ declared_space T.of (import_values imports.now) types.now) }
{
    let mut items = imported::<T, ()>(alloc, imports)?;
    for ty in types {
        items.push(Item {
            ty: *ty,
            def: Def::Local(()),
        })?;
    }
    Ok(items)
}

/// The globals: imported ones, and then defined ones.
pub fn globals<'a>(
    alloc: Global,
    imports: &[Import<'a>],
    locals: &[LocalGlobal<'a>],
) -> Result<Vec<items::Global<'a>>, AllocError>
    ensures { IfOk result (λ v. global_values v.items
        ≡ global_space (import_values imports.now) (local_global_values locals.now)) }
{
    let mut globals = imported::<GlobalType, &[u8]>(alloc, imports)?;
    for global in locals {
        globals.push(Item {
            ty: global.ty,
            def: Def::Local(global.init),
        })?;
    }
    Ok(globals)
}
