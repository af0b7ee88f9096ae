//! Interfaces in a row, and where each of them is, to find those that are in a set.

ghost use Rattle.std.specs.Prelude.{◌≡◌, ◌<◌, ◌++◌, All, IfOk, List, OnOk, filter, length, map, ℕ};
ghost use Rattle.std.specs.List.{flat_map};
ghost use Rattle.wc_resolve.specs.Dependencies.{interface_ids};
ghost use Rattle.wc_world.specs.Used.{has_interface};
ghost use Rattle.wc_selection.specs.KeyIndex.{positions_from};
ghost use Rattle.wc_record.specs.Private.ListedInterfaces.{ArePositions, ListsMore, id_at, listed};

use std::alloc::{AllocError, Global};
use std::marker::Model;
use wc_maps::{Map, Seed, Set};
use wc_resolve::InterfaceId;

/// Lists a position under an interface, after the others of that interface.
fn list_position(
    alloc: Global,
    positions: &mut Map<InterfaceId, Vec<usize>>,
    id: InterfaceId,
    position: usize,
) -> Result<(), AllocError>
    ensures { OnOk result (ListsMore positions.old.entries positions.new.entries id.0 position) }
{
    if let Some(others) = positions.get_mut(&id) {
        others.push(position)?;
        return Ok(());
    }
    let mut first = Vec::new(alloc);
    first.push(position)?;
    positions.insert(id, first)?;
    Ok(())
}

/// The positions of interfaces under their ids. `seed`: the seed of the map.
fn positions_by_id(
    alloc: Global,
    seed: Seed,
    interfaces: &[InterfaceId],
) -> Result<Map<InterfaceId, Vec<usize>>, AllocError>
    ensures { IfOk result (λ m. ArePositions (interface_ids interfaces.now) m.entries) }
{
    let mut positions = Map::with_hasher(alloc, seed);
    for position in 0..interfaces.len() {
        list_position(alloc, &mut positions, interfaces[position], position)?;
    }
    Ok(positions)
}

/// Adds the positions that are listed under an interface.
fn add_listed(
    positions: &Map<InterfaceId, Vec<usize>>,
    id: InterfaceId,
    found: &mut Vec<usize>,
) -> Result<(), AllocError>
    ensures { OnOk result (found.new.items
        ≡ found.old.items ++ listed positions.now.entries id.0) }
{
    match positions.get(&id) {
        Some(list) => found.extend_from_slice(list),
        None => Ok(()),
    }
}

/// The positions that are listed under the interfaces of a set, those of one after those of another.
fn listed_positions(
    alloc: Global,
    positions: &Map<InterfaceId, Vec<usize>>,
    set: &Set<InterfaceId>,
) -> Result<Vec<usize>, AllocError>
    ensures { IfOk result (λ v. v.items
        ≡ flat_map (listed positions.now.entries) (interface_ids set.now.keys)) }
{
    let mut found = Vec::new(alloc);
    for id in set.iter() {
        add_listed(positions, *id, &mut found)?;
    }
    Ok(found)
}

/// The positions of the interfaces of a set among those that are listed, ascending.
fn sorted_positions(
    alloc: Global,
    positions: &Map<InterfaceId, Vec<usize>>,
    set: &Set<InterfaceId>,
) -> Result<Vec<usize>, AllocError>
    ensures { (ids : List ℕ) → ArePositions ids positions.now.entries → IfOk result (λ v.
        v.items ≡ positions_from 0 (has_interface set.now) ids) }
{
    let mut found = listed_positions(alloc, positions, set)?;
    found.sort_unstable();
    found.dedup();
    Ok(found)
}

/// The interfaces at these positions.
fn interfaces_at(
    alloc: Global,
    interfaces: &[InterfaceId],
    positions: &[usize],
) -> Result<Vec<InterfaceId>, AllocError>
    requires { All (λ p. p < length interfaces.now) positions.now }
    ensures { IfOk result (λ v. interface_ids v.items
        ≡ map (id_at (interface_ids interfaces.now)) positions.now) }
{
    let mut found = Vec::with_capacity(alloc, positions.len())?;
    for position in positions {
        found.push(interfaces[*position])?;
    }
    Ok(found)
}

/// Interfaces in a row, to look up where they are.
#[derive(Drop)]
pub(crate) struct ListedInterfaces<'i> {
    interfaces: &'i [InterfaceId],
    /// The positions of each interface, in order.
    positions: Map<InterfaceId, Vec<usize>>,
}

impl<'i> Model for ListedInterfaces<'i> {
    ghost use Rattle.std.specs.Prelude.{List, ℕ};
    ghost use Rattle.wc_resolve.specs.Dependencies.{interface_ids};
    ghost use Rattle.wc_record.specs.Private.ListedInterfaces.{ArePositions};

    ghost Value = { List ℕ };

    ghost view = { λ l. interface_ids l.interfaces.now };

    ghost invariant = { λ l. ArePositions (interface_ids l.interfaces.now) l.positions.entries };
}

impl<'i> ListedInterfaces<'i> {
    /// These interfaces. `seed`: the seed of their map.
    pub(crate) fn new(
        alloc: Global,
        seed: Seed,
        interfaces: &'i [InterfaceId],
    ) -> Result<ListedInterfaces<'i>, AllocError>
        ensures { IfOk result (λ listed. listed ≡ interface_ids interfaces.now) }
    {
        let positions = positions_by_id(alloc, seed, interfaces)?;
        Ok(ListedInterfaces {
            interfaces,
            positions,
        })
    }

    /// Those that the set has, in their order. It takes time for the set alone, however many interfaces there are.
    pub(crate) fn members_of(
        &self,
        alloc: Global,
        set: &Set<InterfaceId>,
    ) -> Result<Vec<InterfaceId>, AllocError>
        ensures { IfOk result (λ ids. interface_ids ids.items
            ≡ filter (has_interface set.now) self.now) }
    {
        let positions = sorted_positions(alloc, &self.positions, set)?;
        interfaces_at(alloc, self.interfaces, &positions)
    }
}
