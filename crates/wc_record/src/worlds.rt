//! A component's world.

ghost use Rattle.std.specs.Prelude.{◌≡◌, IfOk, OnOk, codes, map};
ghost use Rattle.std.specs.Option.{option_copied};
ghost use Rattle.std.specs.Str.{IsUtf8};
ghost use Rattle.wc_dedupe.specs.Dedupe.{renames_in};
ghost use Rattle.wc_texts.specs.Shapes.{array_of};
ghost use Rattle.wc_record.specs.Objects.{PutsField};
ghost use Rattle.wc_record.specs.Texts.{planned_world_text, world_text};
ghost use Rattle.wc_record.specs.Worlds.{rename_json};
ghost use Rattle.wc_resolve.specs.Signature.{signature_view};
ghost use Rattle.wc_world.specs.Views.{indirect};
ghost use Rattle.wc_world.specs.WorldViews.{world_view};
ghost use Rattle.wc_record.specs.Worlds.{lowering_json, planned_world_json, world_json, world_members};
ghost use Rattle.wc_record.specs.Objects.{PutsFields, PutsJson};
ghost use Rattle.wc_plan.specs.PlanViews.{plan_view};

use crate::export_options::lifted_exports;
use crate::maps::EntryToJson;
use crate::objects::{
    begin_object, end_object, put_kind, put_kind_with, put_list_member, put_member,
};
use crate::to_json::{ToJson, begin_array, end_array};
use crate::used::used_interfaces;
use bitflags::Flags;
use json::Writer;
use std::alloc::{AllocError, Global};
use wc_dedupe::{ModuleImportMap, Rename, RenameList};
use wc_maps::Set;
use wc_plan::Plan;
use wc_resolve::{AbiVariant, InterfaceId, TypeId, WasmSignature};
use wc_world::{ComponentWorld, ImportedInterface, Lowering, RequiredOptions, WorldAdapter};

impl<'a> ToJson for Rename<'a> {
    ghost use Rattle.wc_dedupe.specs.Renames.{rename_view};
    ghost use Rattle.wc_dedupe.specs.Renaming.{RenameView};
    ghost use Rattle.wc_record.specs.Worlds.{rename_json};

    ghost View = { RenameView };

    ghost view = { rename_view };

    ghost json = { rename_json };

    fn write(&self, out: &mut Writer) -> Result<(), AllocError> {
        begin_object(out)?;
        put_member(out, "module", &self.module)?;
        put_member(out, "original", &self.original)?;
        put_member(out, "name", &self.name)?;
        end_object(out)
    }
}

impl ToJson for RenameList {
    ghost use Rattle.std.specs.Prelude.{List, map};
    ghost use Rattle.wc_dedupe.specs.Renaming.{RenameView};
    ghost use Rattle.wc_texts.specs.Shapes.{array_of};
    ghost use Rattle.wc_record.specs.Worlds.{rename_json};

    ghost View = { List RenameView };

    ghost view = { λ renames. renames };

    ghost json = { λ renames. array_of (map rename_json renames) };

    fn write(&self, out: &mut Writer) -> Result<(), AllocError> {
        begin_array(out)?;
        for index in 0..self.len() {
            self.at(index).write(out)?;
        }
        end_array(out)
    }
}

/// Writes the member with the renamed imports of the main module.
fn put_renames(out: &mut Writer, renamed: Option<&ModuleImportMap>) -> Result<(), AllocError>
    ensures { OnOk result (PutsField out.old out.new (codes "renames")
        (array_of (map rename_json (renames_in (option_copied renamed.entry))))) }
{
    match renamed {
        Some(renamed) => put_member(out, "renames", renamed.renames()),
        None => put_list_member::<Rename<'_>>(out, "renames", &[]),
    }
}

/// An adapter or a library under its name.
impl<'a, 'b> EntryToJson<&'a str> for WorldAdapter<'b> {
    ghost use Rattle.wc_world.specs.Views.{NamedWorldAdapter};
    ghost use Rattle.wc_world.specs.WorldViews.{adapter_view};
    ghost use Rattle.wc_record.specs.Worlds.{adapter_entry_json};

    ghost EntryView = { NamedWorldAdapter };

    ghost entry_view = { λ name adapter. (name.now, adapter_view adapter) };

    ghost entry_json = { adapter_entry_json };

    fn write_entry(&self, name: &&'a str, out: &mut Writer) -> Result<(), AllocError> {
        begin_object(out)?;
        put_member(out, "name", name)?;
        put_member(out, "length", &(self.wasm.as_slice().len() as u64))?;
        put_member(out, "info", &self.info)?;
        put_member(out, "library_info", &self.library_info)?;
        end_object(out)
    }
}

impl ToJson for RequiredOptions {
    ghost use Rattle.std.specs.Prelude.{ℕ};
    ghost use Rattle.wc_texts.specs.Shapes.{number_json};

    ghost View = { ℕ };

    ghost view = { λ options. options.0 };

    ghost json = { number_json };

    fn write(&self, out: &mut Writer) -> Result<(), AllocError> {
        out.u64(self.bits() as u64)
    }
}

/// Writes how a function is met that another one stands in for.
fn put_indirect(
    out: &mut Writer,
    sig: &WasmSignature,
    options: RequiredOptions,
) -> Result<(), AllocError>
    ensures { OnOk result (PutsJson out.old out.new
        (lowering_json (indirect (signature_view sig.now) options.0))) }
{
    begin_object(out)?;
    put_kind(out, "indirect")?;
    put_member(out, "sig", sig)?;
    put_member(out, "options", &options)?;
    end_object(out)
}

impl ToJson for Lowering {
    ghost use Rattle.wc_world.specs.Views.{LoweringView};
    ghost use Rattle.wc_world.specs.WorldViews.{lowering_view};
    ghost use Rattle.wc_record.specs.Worlds.{lowering_json};

    ghost View = { LoweringView };

    ghost view = { lowering_view };

    ghost json = { lowering_json };

    fn write(&self, out: &mut Writer) -> Result<(), AllocError> {
        match self {
            Lowering::Direct { options } => put_kind_with(out, "direct", "options", options),
            Lowering::Indirect { sig, options } => put_indirect(out, sig, *options),
            Lowering::ResourceDrop(id) => put_kind_with(out, "resource-drop", "type", id),
        }
    }
}

/// How an import is met, under its name and how it is called.
impl EntryToJson<(String, AbiVariant)> for Lowering {
    ghost use Rattle.std.specs.Prelude.{string_bytes};
    ghost use Rattle.wc_world.specs.Views.{LoweringKey, LoweringView};
    ghost use Rattle.wc_world.specs.WorldViews.{lowering_view};
    ghost use Rattle.wc_record.specs.Worlds.{lowering_entry_json};

    ghost EntryView = { LoweringKey × LoweringView };

    ghost entry_view = { λ key lowering. ((string_bytes key.0, key.1), lowering_view lowering) };

    ghost entry_json = { lowering_entry_json };

    fn write_entry(&self, key: &(String, AbiVariant), out: &mut Writer) -> Result<(), AllocError> {
        begin_object(out)?;
        put_member(out, "name", &key.0)?;
        put_member(out, "abi", &key.1)?;
        put_member(out, "lowering", self)?;
        end_object(out)
    }
}

/// The imports from an interface, under its name.
impl EntryToJson<Option<String>> for ImportedInterface {
    ghost use Rattle.std.specs.Prelude.{List, Option, string_bytes, ℕ};
    ghost use Rattle.std.specs.Option.{option_map};
    ghost use Rattle.wc_world.specs.Views.{ImportedView};
    ghost use Rattle.wc_world.specs.WorldViews.{imported_view};
    ghost use Rattle.wc_record.specs.Worlds.{imported_entry_json};

    ghost EntryView = { Option (List ℕ) × ImportedView };

    ghost entry_view = { λ name imported. (option_map string_bytes name, imported_view imported) };

    ghost entry_json = { imported_entry_json };

    fn write_entry(&self, name: &Option<String>, out: &mut Writer) -> Result<(), AllocError> {
        begin_object(out)?;
        put_member(out, "name", name)?;
        put_member(out, "interface", &self.interface)?;
        put_member(out, "implements", &self.implements)?;
        put_member(out, "external_id", &self.external_id)?;
        put_member(out, "lowerings", &self.lowerings)?;
        end_object(out)
    }
}

/// The live types of an interface.
impl EntryToJson<InterfaceId> for Set<TypeId> {
    ghost use Rattle.std.specs.Prelude.{List, ℕ};
    ghost use Rattle.wc_resolve.specs.Roots.{indices};
    ghost use Rattle.wc_record.specs.Worlds.{live_entry_json};

    ghost EntryView = { ℕ × List ℕ };

    ghost entry_view = { λ id types. (id.0, indices types.keys) };

    ghost entry_json = { live_entry_json };

    fn write_entry(&self, interface: &InterfaceId, out: &mut Writer) -> Result<(), AllocError> {
        begin_object(out)?;
        put_member(out, "interface", interface)?;
        put_list_member(out, "types", self.as_slice())?;
        end_object(out)
    }
}

/// Writes the members of a component's world.
fn put_members(
    alloc: Global,
    out: &mut Writer,
    world: &ComponentWorld<'_>,
) -> Result<(), AllocError>
    ensures { OnOk result (PutsFields out.old out.new (world_members (world_view world.now))) }
{
    let used = used_interfaces(alloc, world.encoder, &world.exports_used)?;
    let lifted = lifted_exports(alloc, world.encoder)?;
    put_member(out, "info", &world.info)?;
    put_renames(out, world.encoder.module_import_map())?;
    put_member(out, "adapters", &world.adapters)?;
    put_member(out, "import_map", &world.import_map)?;
    put_member(out, "live_type_imports", &world.live_type_imports)?;
    put_member(out, "exports_used", &used)?;
    put_member(out, "export_options", &lifted)?;
    Ok(())
}

/// Writes a component's world.
fn put_world(alloc: Global, out: &mut Writer, world: &ComponentWorld<'_>) -> Result<(), AllocError>
    ensures { OnOk result (PutsJson out.old out.new (world_json (world_view world.now))) }
{
    begin_object(out)?;
    put_members(alloc, out, world)?;
    end_object(out)
}

/// Writes a component's world with its plan.
fn put_planned_world(
    alloc: Global,
    out: &mut Writer,
    world: &ComponentWorld<'_>,
    plan: &Plan,
) -> Result<(), AllocError>
    ensures { OnOk result (PutsJson out.old out.new
        (planned_world_json (world_view world.now) (plan_view plan.now))) }
{
    begin_object(out)?;
    put_members(alloc, out, world)?;
    put_member(out, "plan", &plan.uses)?;
    end_object(out)
}

/// A component's world as JSON: an object with these members, all of them lists but `info`.
///
/// - `info`: what the main module imports and exports.
/// - `renames`: the main module's renamed imports, each an object with `module`, `original` and `name`.
/// - `adapters`: adapters and libraries, each with `name`, `length` (how many bytes it has, which are not written),
///   `info`, and `library_info`, null for an adapter.
/// - `import_map`: what is imported of each interface, with `name` (null for the world itself), `interface`,
///   `implements`, `external_id` and `lowerings`. A lowering has `name`, `abi` and `lowering`, which is of kind
///   `direct`, `indirect` or `resource-drop`. `options` are bits: memory is 1, realloc 2, string encoding 4, async 8.
/// - `live_type_imports`: an `interface`, and its live `types`.
/// - `exports_used`: an exported `interface`, and those that it `uses`, in the order of the world's exports.
/// - `export_options`: the functions that the world exports, in this order, each with `interface` (null for a function of
///   the world itself), `name` and `options`, the bits that it needs where it is lifted synchronously. A function that is
///   lifted asynchronously has 8 besides.
///
/// # Errors
///
/// `AllocError`: an allocation failed.
pub fn world_to_json(alloc: Global, world: &ComponentWorld<'_>) -> Result<Vec<u8>, AllocError>
    ensures text { IfOk result (λ bytes. bytes.items ≡ world_text (world_view world.now)) }
    ensures utf8 { IfOk result (λ bytes. IsUtf8 bytes.items) }
{
    let mut out = Writer::new(Vec::new(alloc));
    put_world(alloc, &mut out, world)?;
    Ok(out.into_inner())
}

/// A component's world and its plan as JSON: the object of `world_to_json` with one member more, which is the last:
/// `plan`, the list of `plan_to_json`.
///
/// # Errors
///
/// `AllocError`: an allocation failed.
pub fn planned_world_to_json(
    alloc: Global,
    world: &ComponentWorld<'_>,
    plan: &Plan,
) -> Result<Vec<u8>, AllocError>
    ensures text { IfOk result (λ bytes. bytes.items
        ≡ planned_world_text (world_view world.now) (plan_view plan.now)) }
    ensures utf8 { IfOk result (λ bytes. IsUtf8 bytes.items) }
{
    let mut out = Writer::new(Vec::new(alloc));
    put_planned_world(alloc, &mut out, world, plan)?;
    Ok(out.into_inner())
}
