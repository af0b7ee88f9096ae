//! Worlds, and the items that they import and export.

ghost use Rattle.json.specs.Value.{value_view};
ghost use Rattle.wc_json.specs.Fault.{Reads};
ghost use Rattle.wc_json.specs.Worlds.{interface_item_of, item_of, type_item_of};
ghost use Rattle.wc_resolve.specs.Views.{item_view};

use crate::from_json::FromJson;
use crate::keys::item_key;
use crate::members::{only_member, optional_member, required_member};
use crate::paths::{at_key, at_variant, fault_here};
use crate::{JsonFault, Problem};
use json::Value;
use std::alloc::Global;
use wc_maps::{Map, Seed};
use wc_resolve::{Function, InterfaceId, PackageId, TypeId, World, WorldItem, WorldKey};

/// An interface as an item: its id, alone or as a member of an object.
fn interface_item_of(alloc: Global, seed: Seed, value: &Value<'_>) -> Result<WorldItem, JsonFault>
    ensures { Reads item_view result (interface_item_of (value_view value.now)) }
{
    let Value::Object(_) = value else {
        return Ok(WorldItem::Interface {
            id: InterfaceId::from_json(alloc, seed, value)?,
            external_id: None,
        });
    };
    let id = required_member(alloc, seed, value, "id")?;
    let external_id = optional_member(alloc, seed, value, "external_id")?;
    Ok(WorldItem::Interface { id, external_id })
}

/// A type as an item: its id, alone or as a member of an object.
fn type_item_of(alloc: Global, seed: Seed, value: &Value<'_>) -> Result<WorldItem, JsonFault>
    ensures { Reads item_view result (type_item_of (value_view value.now)) }
{
    let Value::Object(_) = value else {
        return Ok(WorldItem::TypeItem {
            id: TypeId::from_json(alloc, seed, value)?,
        });
    };
    Ok(WorldItem::TypeItem {
        id: required_member(alloc, seed, value, "id")?,
    })
}

/// An interface, a function or a type. Any other kind is Unknown.
fn item_of(alloc: Global, seed: Seed, kind: &str, value: &Value<'_>) -> Result<WorldItem, JsonFault>
    ensures { Reads item_view result (item_of kind.now (value_view value.now)) }
{
    match kind {
        "interface" => interface_item_of(alloc, seed, value),
        "function" => Ok(WorldItem::Function(Function::from_json(alloc, seed, value)?)),
        "type" => type_item_of(alloc, seed, value),
        _ => Err(fault_here(alloc, Problem::Unknown)),
    }
}

impl FromJson for WorldItem {
    ghost use Rattle.wc_resolve.specs.Views.{ItemView, item_view};
    ghost use Rattle.wc_json.specs.Worlds.{item};

    ghost View = { ItemView };

    ghost view = { item_view };

    ghost reading = { item };

    fn from_json(alloc: Global, seed: Seed, value: &Value<'_>) -> Result<WorldItem, JsonFault> {
        let member = only_member(alloc, value)?;
        at_variant(alloc, member.0, item_of(alloc, seed, member.0, &member.1))
    }
}

/// The imports or exports of a world, by their keys, in the order of the object's members.
#[derive(Drop)]
struct Items(Map<WorldKey, WorldItem>);

impl FromJson for Items {
    ghost use Rattle.std.specs.Prelude.{List, map};
    ghost use Rattle.wc_resolve.specs.Views.{ItemView, KeyView, world_entry};
    ghost use Rattle.wc_json.specs.Worlds.{items};

    ghost View = { List (KeyView × ItemView) };

    ghost view = { λ m. map world_entry m.0.entries };

    ghost reading = { items };

    fn from_json(alloc: Global, seed: Seed, value: &Value<'_>) -> Result<Items, JsonFault> {
        let Value::Object(members) = value else {
            return Err(fault_here(alloc, Problem::NotAnObject));
        };
        let mut items = Map::with_capacity_and_hasher(alloc, members.len(), seed)?;
        for member in members {
            let item = at_key(
                alloc,
                member.0,
                WorldItem::from_json(alloc, seed, &member.1),
            )?;
            items.insert(item_key(alloc, member.0, &item)?, item)?;
        }
        Ok(Items(items))
    }
}

/// A world, and the package that it says to be of.
impl FromJson for (World, Option<PackageId>) {
    ghost use Rattle.std.specs.Prelude.{ℕ, Option};
    ghost use Rattle.wc_resolve.specs.Views.{WorldView};
    ghost use Rattle.wc_json.specs.Worlds.{world, world_and_package_view};

    ghost View = { WorldView × Option ℕ };

    ghost view = { world_and_package_view };

    ghost reading = { world };

    fn from_json(
        alloc: Global,
        seed: Seed,
        value: &Value<'_>,
    ) -> Result<(World, Option<PackageId>), JsonFault> {
        let name = required_member(alloc, seed, value, "name")?;
        let imports: Items = required_member(alloc, seed, value, "imports")?;
        let exports: Items = required_member(alloc, seed, value, "exports")?;
        let package = optional_member(alloc, seed, value, "package")?;
        let world = World {
            name,
            imports: imports.0,
            exports: exports.0,
        };
        Ok((world, package))
    }
}
