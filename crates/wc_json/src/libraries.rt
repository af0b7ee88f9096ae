//! Library information: how a library is instantiated, and with which arguments.

ghost use Rattle.std.specs.Prelude.{◌≡◌, ◌≢◌, IfErr, codes};
ghost use Rattle.json.specs.Value.{value_view};
ghost use Rattle.wc_adapters.specs.Adapters.{instance_view, which_view};
ghost use Rattle.wc_json.specs.Fault.{NeedsNoMemory, Reads};
ghost use Rattle.wc_json.specs.Libraries.{export_kind, export_kind_of, instance_of_kind, which_of_kind};
ghost use Rattle.wc_json.specs.declared.fault.JsonFault.TheVariants.{Memory};

use crate::from_json::FromJson;
use crate::members::required_member;
use crate::paths::{at_member, fault_here};
use crate::{JsonFault, Problem};
use json::Value;
use std::alloc::Global;
use wc_encoder::{Instance, Item, LibraryInfo, MainOrAdapter};
use wc_maps::Seed;
use wc_read::ExportKind;

/// `func`, `table`, `memory` or `global`. Any other name is Unknown.
fn export_kind_of(alloc: Global, name: &str) -> Result<ExportKind, JsonFault>
    ensures reads { Reads (λ k. k) result (export_kind_of name.now) }
    ensures no_memory { NeedsNoMemory result }
{
    match name {
        "func" => Ok(ExportKind::Func),
        "table" => Ok(ExportKind::Table),
        "memory" => Ok(ExportKind::Memory),
        "global" => Ok(ExportKind::Global),
        _ => Err(fault_here(alloc, Problem::Unknown)),
    }
}

/// A kind of exports, by its name.
impl FromJson for ExportKind {
    ghost use Rattle.wc_read.specs.declared.exports.ExportKind.{ExportKind};
    ghost use Rattle.wc_json.specs.Libraries.{export_kind};

    ghost View = { ExportKind };

    ghost view = { λ k. k };

    ghost reading = { export_kind };

    fn from_json(alloc: Global, _seed: Seed, value: &Value<'_>) -> Result<ExportKind, JsonFault>
        ensures reads { Reads (λ k. k) result (export_kind (value_view value.now)) }
        ensures no_memory { NeedsNoMemory result }
    {
        match value.as_str() {
            Some(name) => export_kind_of(alloc, name),
            None => Err(fault_here(alloc, Problem::NotAText)),
        }
    }
}

/// The module of this kind: the main module, or the adapter of the name that the value has.
fn which_of_kind(
    alloc: Global,
    seed: Seed,
    kind: &str,
    value: &Value<'_>,
) -> Result<MainOrAdapter, JsonFault>
    ensures reads { Reads which_view result (which_of_kind kind.now (value_view value.now)) }
    ensures memory { IfErr result (λ f. f ≡ Memory → kind.now ≢ codes "main") }
{
    match kind {
        "main" => Ok(MainOrAdapter::Main),
        "adapter" => Ok(MainOrAdapter::Adapter(required_member(alloc, seed, value, "name")?)),
        _ => at_member(alloc, "kind", Err(fault_here(alloc, Problem::Unknown))),
    }
}

impl FromJson for MainOrAdapter {
    ghost use Rattle.wc_adapters.specs.Adapters.{WhichView, which_view};
    ghost use Rattle.wc_json.specs.Libraries.{which};

    ghost View = { WhichView };

    ghost view = { which_view };

    ghost reading = { which };

    fn from_json(alloc: Global, seed: Seed, value: &Value<'_>) -> Result<MainOrAdapter, JsonFault> {
        let kind: String = required_member(alloc, seed, value, "kind")?;
        which_of_kind(alloc, seed, &kind, value)
    }
}

/// An item that a library imports.
impl FromJson for Item {
    ghost use Rattle.wc_adapters.specs.Adapters.{LibraryItemView, library_item_view};
    ghost use Rattle.wc_json.specs.Libraries.{library_item};

    ghost View = { LibraryItemView };

    ghost view = { library_item_view };

    ghost reading = { library_item };

    fn from_json(alloc: Global, seed: Seed, value: &Value<'_>) -> Result<Item, JsonFault> {
        let alias = required_member(alloc, seed, value, "alias")?;
        let kind = required_member(alloc, seed, value, "kind")?;
        let which = required_member(alloc, seed, value, "which")?;
        let name = required_member(alloc, seed, value, "name")?;
        Ok(Item {
            alias,
            kind,
            which,
            name,
        })
    }
}

/// The instance of this kind: all exports of a module, or items.
fn instance_of_kind(
    alloc: Global,
    seed: Seed,
    kind: &str,
    value: &Value<'_>,
) -> Result<Instance, JsonFault>
    ensures { Reads instance_view result (instance_of_kind kind.now (value_view value.now)) }
{
    match kind {
        "module" => Ok(Instance::MainOrAdapter(required_member(alloc, seed, value, "which")?)),
        "items" => Ok(Instance::Items(required_member(alloc, seed, value, "items")?)),
        _ => at_member(alloc, "kind", Err(fault_here(alloc, Problem::Unknown))),
    }
}

/// The instance that a library gets under the name of a module.
impl FromJson for Instance {
    ghost use Rattle.wc_adapters.specs.Adapters.{InstanceView, instance_view};
    ghost use Rattle.wc_json.specs.Libraries.{instance};

    ghost View = { InstanceView };

    ghost view = { instance_view };

    ghost reading = { instance };

    fn from_json(alloc: Global, seed: Seed, value: &Value<'_>) -> Result<Instance, JsonFault> {
        let kind: String = required_member(alloc, seed, value, "kind")?;
        instance_of_kind(alloc, seed, &kind, value)
    }
}

/// An argument of a library: the name of a module that it imports from, and what it gets under that
/// name.
impl FromJson for (String, Instance) {
    ghost use Rattle.std.specs.Prelude.{List, ℕ};
    ghost use Rattle.wc_adapters.specs.Adapters.{InstanceView, argument_view};
    ghost use Rattle.wc_json.specs.Libraries.{argument};

    ghost View = { List ℕ × InstanceView };

    ghost view = { argument_view };

    ghost reading = { argument };

    fn from_json(
        alloc: Global,
        seed: Seed,
        value: &Value<'_>,
    ) -> Result<(String, Instance), JsonFault> {
        let name = required_member(alloc, seed, value, "name")?;
        let instance = required_member(alloc, seed, value, "instance")?;
        Ok((name, instance))
    }
}

impl FromJson for LibraryInfo {
    ghost use Rattle.wc_adapters.specs.Adapters.{LibraryView, library_view};
    ghost use Rattle.wc_json.specs.Libraries.{library};

    ghost View = { LibraryView };

    ghost view = { library_view };

    ghost reading = { library };

    fn from_json(alloc: Global, seed: Seed, value: &Value<'_>) -> Result<LibraryInfo, JsonFault> {
        let arguments = required_member(alloc, seed, value, "arguments")?;
        let instantiate_after_shims = required_member(
            alloc,
            seed,
            value,
            "instantiate_after_shims",
        )?;
        Ok(LibraryInfo {
            arguments,
            instantiate_after_shims,
        })
    }
}
