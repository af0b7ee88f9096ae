//! The places of faults, as JSON; no bytes where a fault has none.

ghost use Rattle.std.specs.Prelude.{◌≡◌, IfOk, None};
ghost use Rattle.wc_record.specs.Places.{bytes_json, trim_place_json};
ghost use Rattle.wc_record.specs.Texts.{text_of};
ghost use Rattle.wc_calls.specs.Places.{place_text, unplaced_world_text};
ghost use Rattle.wc_calls.specs.Private.Refusals.{message_place_json, refusal_text, unplaced_text};

use crate::message_fault::MessageFault;
use crate::refusals::{MessagePlace, RefusedMessage};
use std::alloc::{AllocError, Global};
use wc_gc::TrimPlace;
use wc_read::ReadPlace;
use wc_record::{
    adapter_to_json, json_place_to_json, key_to_json, part_to_json, plan_place_to_json,
    read_place_to_json, trim_fault_to_json, trim_place_to_json, world_place_to_json,
    worlds_to_json,
};
use wc_world::WorldFault;

/// The place of a fault of trimming.
pub(crate) fn trim_place_text(
    alloc: Global,
    place: Option<TrimPlace>,
) -> Result<Vec<u8>, AllocError>
    ensures { IfOk result (λ v. v.items ≡ place_text (trim_place_json None) place) }
{
    match place {
        Some(place) => trim_place_to_json(alloc, place),
        None => Ok(Vec::new(alloc)),
    }
}

/// The byte at which a module stops to be right.
pub(crate) fn read_place_text(
    alloc: Global,
    place: Option<ReadPlace>,
) -> Result<Vec<u8>, AllocError>
    ensures { IfOk result (λ v. v.items ≡ place_text (bytes_json None) place) }
{
    match place {
        Some(place) => read_place_to_json(alloc, place),
        None => Ok(Vec::new(alloc)),
    }
}

/// The place of the refusal of a message.
pub(crate) fn refusal_text(alloc: Global, refused: &RefusedMessage) -> Result<Vec<u8>, AllocError>
    ensures { IfOk result (λ v. v.items ≡ refusal_text refused.now.fault refused.now.place) }
{
    match &refused.place {
        Some(place) => message_place_text(alloc, place),
        None => unplaced_text(alloc, &refused.fault),
    }
}

/// A place.
fn message_place_text(alloc: Global, place: &MessagePlace) -> Result<Vec<u8>, AllocError>
    ensures { IfOk result (λ v. v.items ≡ text_of (message_place_json place.now)) }
{
    match place {
        MessagePlace::Json(place) => json_place_to_json(alloc, place),
        MessagePlace::Worlds { name, worlds } => worlds_to_json(alloc, name, worlds),
        MessagePlace::Part(part) => part_to_json(alloc, *part),
        MessagePlace::Bytes(place) => read_place_to_json(alloc, *place),
        MessagePlace::World(place) => world_place_to_json(alloc, place),
        MessagePlace::Plan(place) => plan_place_to_json(alloc, place),
    }
}

/// The subject of a fault that comes without a place.
fn unplaced_text(alloc: Global, fault: &MessageFault) -> Result<Vec<u8>, AllocError>
    ensures { IfOk result (λ v. v.items ≡ unplaced_text fault.now) }
{
    match fault {
        MessageFault::World(fault) => unplaced_world_text(alloc, fault),
        MessageFault::AdapterTwice(name) => adapter_to_json(alloc, name),
        MessageFault::UnknownKey(key) => key_to_json(alloc, key),
        MessageFault::SeveralKeys(key) => key_to_json(alloc, key),
        MessageFault::RepeatedKey(key) => key_to_json(alloc, key),
        _ => Ok(Vec::new(alloc)),
    }
}

/// The subject of a fault of a component's world that comes without a place.
fn unplaced_world_text(alloc: Global, fault: &WorldFault) -> Result<Vec<u8>, AllocError>
    ensures { IfOk result (λ v. v.items ≡ unplaced_world_text fault.now) }
{
    match fault {
        WorldFault::Trim(adapter, fault) => trim_fault_to_json(alloc, adapter, fault),
        _ => Ok(Vec::new(alloc)),
    }
}
