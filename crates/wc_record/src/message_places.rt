//! The places of faults of messages that are not in modules.
//!
//! These are parts of worlds, functions of plans, whole adapters, keys of exports, names of worlds, and pieces of JSON.

ghost use Rattle.std.specs.Prelude.{◌≡◌, IfOk, None, OnOk, map, string_bytes};
ghost use Rattle.std.specs.Str.{IsUtf8};
ghost use Rattle.wc_record.specs.MessagePlaces.{adapter_json, json_place_json, key_json, missing_export_json, part_json, plan_place_json, trim_fault_json, worlds_json};
ghost use Rattle.wc_record.specs.Objects.{PutsJson};
ghost use Rattle.wc_record.specs.Texts.{text_of};

use crate::objects::{
    begin_object, end_object, put_kind, put_kind_with, put_list_member, put_member,
};
use crate::to_json::ToJson;
use json::Writer;
use std::alloc::{AllocError, Global};
use wc_gc::GcFault;
use wc_json::JsonPlace;
use wc_plan::PlanPlace;
use wc_resolve::Part;

impl ToJson for Part {
    ghost use Rattle.wc_resolve.specs.declared.explain.Part.{Part as part};
    ghost use Rattle.wc_record.specs.MessagePlaces.{part_json};

    ghost View = { part };

    ghost view = { λ p. p };

    ghost json = { part_json };

    fn write(&self, out: &mut Writer) -> Result<(), AllocError> {
        match self {
            Part::World(index) => put_kind_with(out, "world", "index", index),
            Part::Interface(index) => put_kind_with(out, "interface", "index", index),
            Part::TypeDef(index) => put_kind_with(out, "type", "index", index),
            Part::Package(index) => put_kind_with(out, "package", "index", index),
        }
    }
}

impl ToJson for PlanPlace {
    ghost use Rattle.wc_plan.specs.declared.fault.PlanPlace.{PlanPlace as plan_place};
    ghost use Rattle.wc_record.specs.MessagePlaces.{plan_place_json};

    ghost View = { plan_place };

    ghost view = { λ p. p };

    ghost json = { plan_place_json };

    fn write(&self, out: &mut Writer) -> Result<(), AllocError> {
        begin_object(out)?;
        put_kind(out, "function")?;
        put_member(out, "adapter", &self.adapter)?;
        put_member(out, "interface", &self.interface)?;
        put_member(out, "name", &self.name)?;
        put_member(out, "abi", &self.abi)?;
        end_object(out)
    }
}

impl ToJson for JsonPlace {
    ghost use Rattle.wc_json.specs.declared.places.JsonPlace.{JsonPlace as json_place};
    ghost use Rattle.wc_record.specs.MessagePlaces.{json_place_json};

    ghost View = { json_place };

    ghost view = { λ p. p };

    ghost json = { json_place_json };

    fn write(&self, out: &mut Writer) -> Result<(), AllocError> {
        match self {
            JsonPlace::Byte(at) => put_kind_with(out, "json-byte", "byte", at),
            JsonPlace::Path(path) => put_kind_with(out, "json-path", "path", path),
        }
    }
}

/// Writes an export that an adapter doesn't have.
fn put_missing_export(out: &mut Writer, adapter: &str, name: &str) -> Result<(), AllocError>
    ensures { OnOk result (PutsJson out.old out.new (missing_export_json adapter.now name.now)) }
{
    let types: Option<u8> = None;
    begin_object(out)?;
    put_kind(out, "missing-export")?;
    put_member(out, "adapter", &adapter)?;
    put_member(out, "name", &name)?;
    put_member(out, "types", &types)?;
    end_object(out)
}

/// Writes which adapter a fault of trimming is about.
fn put_trim_fault(out: &mut Writer, adapter: &str, fault: &GcFault) -> Result<(), AllocError>
    ensures { OnOk result (PutsJson out.old out.new (trim_fault_json adapter.now fault.now)) }
{
    match fault {
        GcFault::MissingExport(name) => put_missing_export(out, adapter, name),
        _ => put_kind_with(out, "module", "adapter", &adapter),
    }
}

/// Writes the name of a world, and the names of the worlds that there are.
fn put_worlds(out: &mut Writer, name: &str, worlds: &[String]) -> Result<(), AllocError>
    ensures { OnOk result (PutsJson out.old out.new
        (worlds_json name.now (map string_bytes worlds.now))) }
{
    begin_object(out)?;
    put_kind(out, "worlds")?;
    put_member(out, "name", &name)?;
    put_list_member(out, "worlds", worlds)?;
    end_object(out)
}

/// The place of a fault of worlds, interfaces, types and packages, as JSON: an object with `kind`, which is `world`,
/// `interface`, `type` or `package`, and `index`, the index in its list.
///
/// # Errors
///
/// `AllocError`: an allocation failed.
pub fn part_to_json(alloc: Global, part: Part) -> Result<Vec<u8>, AllocError>
    ensures text { IfOk result (λ bytes. bytes.items ≡ text_of (part_json part)) }
    ensures utf8 { IfOk result (λ bytes. IsUtf8 bytes.items) }
{
    let mut out = Writer::new(Vec::new(alloc));
    part.write(&mut out)?;
    Ok(out.into_inner())
}

/// The function that a fault of a plan is about, as JSON: an object with `kind`, which is `function`, and `adapter`,
/// `interface`, `name` and `abi`. `adapter` is the name of the adapter or the library that imports the function, or
/// null for the main module. `interface` is null for a function of the world itself.
///
/// # Errors
///
/// `AllocError`: an allocation failed.
pub fn plan_place_to_json(alloc: Global, place: &PlanPlace) -> Result<Vec<u8>, AllocError>
    ensures text { IfOk result (λ bytes. bytes.items ≡ text_of (plan_place_json place.now)) }
    ensures utf8 { IfOk result (λ bytes. IsUtf8 bytes.items) }
{
    let mut out = Writer::new(Vec::new(alloc));
    place.write(&mut out)?;
    Ok(out.into_inner())
}

/// An adapter or a library, as JSON: an object with `kind`, which is `module`, and with `adapter`, its name.
///
/// # Errors
///
/// `AllocError`: an allocation failed.
pub fn adapter_to_json(alloc: Global, adapter: &str) -> Result<Vec<u8>, AllocError>
    ensures text { IfOk result (λ bytes. bytes.items ≡ text_of (adapter_json adapter.now)) }
    ensures utf8 { IfOk result (λ bytes. IsUtf8 bytes.items) }
{
    let mut out = Writer::new(Vec::new(alloc));
    put_kind_with(&mut out, "module", "adapter", &adapter)?;
    Ok(out.into_inner())
}

/// The adapter that a fault of trimming without a place is about, as JSON: for a missing export an object of the kind
/// `missing-export`, as in `world_place_to_json`; otherwise the adapter, as in `adapter_to_json`.
///
/// # Errors
///
/// `AllocError`: an allocation failed.
pub fn trim_fault_to_json(
    alloc: Global,
    adapter: &str,
    fault: &GcFault,
) -> Result<Vec<u8>, AllocError>
    ensures text { IfOk result (λ bytes. bytes.items
        ≡ text_of (trim_fault_json adapter.now fault.now)) }
    ensures utf8 { IfOk result (λ bytes. IsUtf8 bytes.items) }
{
    let mut out = Writer::new(Vec::new(alloc));
    put_trim_fault(&mut out, adapter, fault)?;
    Ok(out.into_inner())
}

/// A key of a world's exports, as JSON: an object with `kind`, which is `key`, and with `key`, its text.
///
/// # Errors
///
/// `AllocError`: an allocation failed.
pub fn key_to_json(alloc: Global, key: &str) -> Result<Vec<u8>, AllocError>
    ensures text { IfOk result (λ bytes. bytes.items ≡ text_of (key_json key.now)) }
    ensures utf8 { IfOk result (λ bytes. IsUtf8 bytes.items) }
{
    let mut out = Writer::new(Vec::new(alloc));
    put_kind_with(&mut out, "key", "key", &key)?;
    Ok(out.into_inner())
}

/// The name of a world that is not selected, as JSON: an object with `kind`, which is `worlds`, with `name`, and with
/// `worlds`, the list of the names of the worlds that there are.
///
/// # Errors
///
/// `AllocError`: an allocation failed.
pub fn worlds_to_json(alloc: Global, name: &str, worlds: &[String]) -> Result<Vec<u8>, AllocError>
    ensures text { IfOk result (λ bytes. bytes.items
        ≡ text_of (worlds_json name.now (map string_bytes worlds.now))) }
    ensures utf8 { IfOk result (λ bytes. IsUtf8 bytes.items) }
{
    let mut out = Writer::new(Vec::new(alloc));
    put_worlds(&mut out, name, worlds)?;
    Ok(out.into_inner())
}

/// The place of a fault of JSON, as JSON. For a text that is not JSON it is an object with `kind`, which is
/// `json-byte`, and `byte`. Otherwise it is an object with `kind`, which is `json-path`, and `path`, the path to the
/// wrong part.
///
/// # Errors
///
/// `AllocError`: an allocation failed.
pub fn json_place_to_json(alloc: Global, place: &JsonPlace) -> Result<Vec<u8>, AllocError>
    ensures text { IfOk result (λ bytes. bytes.items ≡ text_of (json_place_json place.now)) }
    ensures utf8 { IfOk result (λ bytes. IsUtf8 bytes.items) }
{
    let mut out = Writer::new(Vec::new(alloc));
    place.write(&mut out)?;
    Ok(out.into_inner())
}
