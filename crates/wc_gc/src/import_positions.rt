//! The positions of the items of imports among others.

ghost use Rattle.std.specs.Prelude.{◌≡◌, ◌<◌, length, slice_set, IfOk, IfSome, Some};
ghost use Rattle.std.specs.Option.{option_map_or};
ghost use Rattle.wc_read.specs.Imports.{import_values};
ghost use Rattle.wc_read.specs.ImportItems.{is_in_space, positions_from};
ghost use Rattle.wc_gc.specs.Private.ImportPositions.{AreBySpace, ArePositionsIn, import_at};

use std::alloc::{AllocError, Global};
use wc_read::{Import, ImportType, Space};

/// The positions of the imports whose items are in a space, for each space that has some.
#[derive(Drop)]
struct ImportSpaces {
    funcs: Vec<usize>,
    tables: Vec<usize>,
    memories: Vec<usize>,
    globals: Vec<usize>,
}

/// For each import the position of its item among some items; `None` where it is none of them.
pub fn import_positions(
    alloc: Global,
    imports: &[Import<'_>],
    order: &[(Space, u32)],
) -> Result<Vec<Option<usize>>, AllocError>
    ensures each { IfOk result (λ v. length v.items ≡ length imports.now) }
    ensures at { IfOk result (λ v.
        ArePositionsIn (import_values imports.now) order.now v.items) }
{
    let spaces = import_spaces(alloc, imports)?;
    let mut positions = vec![in alloc; None; imports.len()]?;
    for position in 0..order.len() {
        note_position(
            &mut positions,
            import_at(&spaces, order[position]),
            position,
        );
    }
    Ok(positions)
}

/// Notes the position of an item that is an import.
fn note_position(positions: &mut Vec<Option<usize>>, import: Option<usize>, position: usize)
    requires { IfSome import (λ k. k < length positions.old.items) }
    ensures { positions.new.items ≡ option_map_or
        (λ k. slice_set positions.old.items k (Some position)) import positions.old.items }
{
    if let Some(import) = import {
        positions[import] = Some(position);
    }
}

/// The positions of the imports of each space.
fn import_spaces(alloc: Global, imports: &[Import<'_>]) -> Result<ImportSpaces, AllocError>
    ensures { IfOk result (AreBySpace (import_values imports.now)) }
{
    Ok(ImportSpaces {
        funcs: positions_in(alloc, imports, Space::Funcs)?,
        tables: positions_in(alloc, imports, Space::Tables)?,
        memories: positions_in(alloc, imports, Space::Memories)?,
        globals: positions_in(alloc, imports, Space::Globals)?,
    })
}

/// The positions of the imports whose items are in a space.
fn positions_in(
    alloc: Global,
    imports: &[Import<'_>],
    space: Space,
) -> Result<Vec<usize>, AllocError>
    ensures { IfOk result (λ v. v.items ≡ positions_from space 0 (import_values imports.now)) }
{
    let mut positions = Vec::new(alloc);
    for position in 0..imports.len() {
        if is_in_space(space, &imports[position].ty) {
            positions.push(position)?;
        }
    }
    Ok(positions)
}

/// Whether an import has its item in a space.
fn is_in_space(space: Space, ty: &ImportType) -> bool
    ensures { result ≡ is_in_space space ty.now }
{
    match ty {
        ImportType::Func(_) => space == Space::Funcs,
        ImportType::Table(_) => space == Space::Tables,
        ImportType::Memory(_) => space == Space::Memories,
        ImportType::Global(_) => space == Space::Globals,
    }
}

/// The position of the import that an item is; `None` where it is none.
fn import_at(spaces: &ImportSpaces, item: (Space, u32)) -> Option<usize>
    ensures { result ≡ import_at spaces.now item }
{
    let positions = match item.0 {
        Space::Types => return None,
        Space::Funcs => &spaces.funcs,
        Space::Tables => &spaces.tables,
        Space::Memories => &spaces.memories,
        Space::Globals => &spaces.globals,
    };
    positions.get(item.1 as usize).copied()
}
