//! The exported interfaces that exported interfaces use, as lists.

ghost use Rattle.std.specs.Prelude.{◌≡◌, ◌++◌, [], IfOk, OnOk, map};
ghost use Rattle.std.specs.List.{cons_option, filter_map};
ghost use Rattle.wc_encoder.specs.Distinct.{exported_interfaces, item_interface};
ghost use Rattle.wc_encoder.specs.EncoderParts.{world_exports};
ghost use Rattle.wc_adapters.specs.Entries.{entries_of};
ghost use Rattle.wc_resolve.specs.Dependencies.{interface_ids};
ghost use Rattle.wc_resolve.specs.Views.{item_view};
ghost use Rattle.wc_world.specs.Used.{used_view};
ghost use Rattle.wc_record.specs.Private.Used.{used_interface_view};
ghost use Rattle.wc_record.specs.Worlds.{used_interface, used_interfaces};

use crate::listed_interfaces::ListedInterfaces;
use crate::objects::{begin_object, end_object, put_member};
use crate::to_json::ToJson;
use json::Writer;
use std::alloc::{AllocError, Global};
use wc_encoder::ComponentEncoder;
use wc_maps::{Map, Set};
use wc_resolve::{InterfaceId, WorldItem, WorldKey};

/// An exported interface, and the exported interfaces that it uses.
#[derive(Drop)]
pub(crate) struct UsedInterfaces {
    pub interface: InterfaceId,
    pub uses: Vec<InterfaceId>,
}

impl ToJson for UsedInterfaces {
    ghost use Rattle.wc_record.specs.Private.Used.{used_interface_view};
    ghost use Rattle.wc_record.specs.Worlds.{UsedInterface, used_interface_json};

    ghost View = { UsedInterface };

    ghost view = { used_interface_view };

    ghost json = { used_interface_json };

    fn write(&self, out: &mut Writer) -> Result<(), AllocError> {
        begin_object(out)?;
        put_member(out, "interface", &self.interface)?;
        put_member(out, "uses", &self.uses)?;
        end_object(out)
    }
}

/// Appends the id of an item that is an interface. Any other leaves the list as it is.
fn add_interface(interfaces: &mut Vec<InterfaceId>, item: &WorldItem) -> Result<(), AllocError>
    ensures { OnOk result (interface_ids interfaces.new.items ≡ interface_ids interfaces.old.items
        ++ cons_option (item_interface (item_view item.now)) []) }
{
    match item {
        WorldItem::Interface { id, .. } => interfaces.push(*id)?,
        WorldItem::Function(_) => {}
        WorldItem::TypeItem { .. } => {}
    }
    Ok(())
}

/// The ids of the interfaces that a world exports, in the order of its exports.
fn interfaces_among(
    alloc: Global,
    exports: &Map<WorldKey, WorldItem>,
) -> Result<Vec<InterfaceId>, AllocError>
    ensures { IfOk result (λ ids. interface_ids ids.items
        ≡ exported_interfaces (entries_of exports.now)) }
{
    let mut interfaces = Vec::new(alloc);
    for (_key, item) in exports.iter() {
        add_interface(&mut interfaces, item)?;
    }
    Ok(interfaces)
}

/// The interfaces that the world of an encoder exports, in order.
fn exported_interfaces(
    alloc: Global,
    encoder: &ComponentEncoder,
) -> Result<Vec<InterfaceId>, AllocError>
    ensures { IfOk result (λ ids. interface_ids ids.items
        ≡ exported_interfaces (world_exports encoder.now)) }
{
    encoder.well_formedness();
    let metadata = encoder.metadata();
    interfaces_among(alloc, &metadata.resolve.world(metadata.world).exports)
}

/// Appends an interface that the map has, with those of the listed interfaces that it uses.
fn add_used(
    alloc: Global,
    list: &mut Vec<UsedInterfaces>,
    listed: &ListedInterfaces<'_>,
    used: &Map<InterfaceId, Set<InterfaceId>>,
    id: InterfaceId,
) -> Result<(), AllocError>
    ensures { OnOk result (map used_interface_view list.new.items
        ≡ map used_interface_view list.old.items ++ cons_option
        (used_interface listed.now (used_view used.now) id.0) []) }
{
    if let Some(set) = used.get(&id) {
        let uses = listed.members_of(alloc, set)?;
        list.push(UsedInterfaces {
            interface: id,
            uses,
        })?;
    }
    Ok(())
}

/// The interfaces that the map has, each with those of the listed interfaces that it uses.
fn used_among(
    alloc: Global,
    listed: &ListedInterfaces<'_>,
    interfaces: &[InterfaceId],
    used: &Map<InterfaceId, Set<InterfaceId>>,
) -> Result<Vec<UsedInterfaces>, AllocError>
    ensures { IfOk result (λ list. map used_interface_view list.items
        ≡ filter_map (used_interface listed.now (used_view used.now))
        (interface_ids interfaces.now)) }
{
    let mut list = Vec::new(alloc);
    for id in interfaces {
        add_used(alloc, &mut list, listed, used, *id)?;
    }
    Ok(list)
}

/// Of each interface that the world of an encoder exports, the exported interfaces that it uses, in the order of the
/// world's exports.
pub(crate) fn used_interfaces(
    alloc: Global,
    encoder: &ComponentEncoder,
    used: &Map<InterfaceId, Set<InterfaceId>>,
) -> Result<Vec<UsedInterfaces>, AllocError>
    ensures { IfOk result (λ list. map used_interface_view list.items
        ≡ used_interfaces (exported_interfaces (world_exports encoder.now)) (used_view used.now)) }
{
    let interfaces = exported_interfaces(alloc, encoder)?;
    let listed = ListedInterfaces::new(alloc, *used.hasher(), &interfaces)?;
    used_among(alloc, &listed, &interfaces, used)
}
