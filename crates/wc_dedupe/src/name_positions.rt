//! The names of imports without repeats, in ascending order, and the position of each import's name among them.

ghost use Rattle.std.specs.Prelude.{◌≡◌, ◌<◌, IfOk, OnOk, get_or, length};
ghost use Rattle.std.specs.List.Sorted.{IsSorted};
ghost use Rattle.wc_dedupe.specs.Private.NamePositions.{names_of, entries_cmp, AreEntries, Ascend, PushesNew, HavePositions};

use std::alloc::{AllocError, Global};

/// Names without repeats, in ascending order, and the position among them of each name of a list.
#[derive(Drop)]
pub(crate) struct NamePositions<'a> {
    pub(crate) names: Vec<(&'a str, &'a str)>,
    pub(crate) positions: Vec<usize>,
}

/// The names of a list without repeats, in ascending order, and where each is. Names are compared by their modules
/// first.
pub(crate) fn name_positions<'a>(
    alloc: Global,
    names: &[(&'a str, &'a str)],
) -> Result<NamePositions<'a>, AllocError>
    ensures { IfOk result (λ p. Ascend p.names.items
        × HavePositions (names_of names.now) (names_of p.names.items) p.positions.items) }
{
    let entries = sorted_entries(alloc, names)?;
    positions_of(alloc, names, &entries)
}

/// The names with their indices, in ascending order.
fn sorted_entries<'a>(
    alloc: Global,
    names: &[(&'a str, &'a str)],
) -> Result<Vec<(&'a str, &'a str, usize)>, AllocError>
    ensures sorted { IfOk result (λ v. IsSorted entries_cmp v.items) }
    ensures entries { IfOk result (λ v.
        AreEntries (names_of names.now) (length (names_of names.now)) v.items) }
{
    let mut entries = entries_of(alloc, names)?;
    entries.sort()?;
    Ok(entries)
}

/// The names with their indices.
fn entries_of<'a>(
    alloc: Global,
    names: &[(&'a str, &'a str)],
) -> Result<Vec<(&'a str, &'a str, usize)>, AllocError>
    ensures { IfOk result (λ v.
        AreEntries (names_of names.now) (length (names_of names.now)) v.items) }
{
    let mut entries = Vec::with_capacity(alloc, names.len())?;
    for (index, name) in names.iter().enumerate() {
        entries.push((name.0, name.1, index))?;
    }
    Ok(entries)
}

/// The names of entries that are in ascending order without repeats, and where each is.
fn positions_of<'a>(
    alloc: Global,
    names: &[(&'a str, &'a str)],
    entries: &[(&'a str, &'a str, usize)],
) -> Result<NamePositions<'a>, AllocError>
    requires entries { AreEntries (names_of names.now) (length (names_of names.now)) entries.now }
    requires sorted { IsSorted entries_cmp entries.now }
    ensures { IfOk result (λ p. Ascend p.names.items
        × HavePositions (names_of names.now) (names_of p.names.items) p.positions.items) }
{
    let mut distinct = Vec::new(alloc);
    let mut positions = vec![in alloc; 0; entries.len()]?;
    for entry in entries {
        push_new(&mut distinct, (entry.0, entry.1))?;
        positions[entry.2] = distinct.len() - 1;
    }
    Ok(NamePositions {
        names: distinct,
        positions,
    })
}

/// The name at a position.
pub(crate) fn name_in<'a>(names: &[(&'a str, &'a str)], position: usize) -> (&'a str, &'a str)
    requires { position < length names.now }
    ensures { result ≡ get_or names.now position result }
{
    names[position]
}

/// Appends a name, where it is not the last.
pub(crate) fn push_new<'a>(
    names: &mut Vec<(&'a str, &'a str)>,
    name: (&'a str, &'a str),
) -> Result<(), AllocError>
    ensures { OnOk result (PushesNew names.old.items names.new.items name.entry) }
{
    if let Some(last) = names.last() {
        if *last == name {
            return Ok(());
        }
    }
    names.push(name)?;
    Ok(())
}
