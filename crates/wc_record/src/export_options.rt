//! The canonical options of the functions that a world exports, as a list.

ghost use Rattle.std.specs.Prelude.{◌≡◌, ◌<◌, ◌++◌, ◌∷◌, [], All, IfOk, OnOk, length, map};
ghost use Rattle.std.specs.Option.{option_map};
ghost use Rattle.wc_adapters.specs.Entries.{entries_of};
ghost use Rattle.wc_encoder.specs.EncoderParts.{world_exports};
ghost use Rattle.wc_resolve.specs.Dependencies.{id_of_interface};
ghost use Rattle.wc_resolve.specs.Views.{function_entry, function_view, item_view};
ghost use Rattle.wc_resolve.specs.WellFormed.{IsUsable};
ghost use Rattle.wc_record.specs.ExportOptions.{lifted_exports, lifted_function, lifted_functions, lifted_interface, lifted_item};
ghost use Rattle.wc_record.specs.Private.ExportOptions.{IsLiftable, lifted_view};

use crate::objects::{begin_object, end_object, put_member};
use crate::to_json::ToJson;
use json::Writer;
use std::alloc::{AllocError, Global};
use wc_encoder::ComponentEncoder;
use wc_maps::Map;
use wc_resolve::{AbiVariant, Function, InterfaceId, Resolve, WorldItem, WorldKey};
use wc_world::RequiredOptions;

/// An exported function: its interface, if it is not one of the world itself, its name, and the options that it needs
/// where it is lifted synchronously.
#[derive(Drop)]
pub(crate) struct LiftedFunction<'a> {
    pub interface: Option<InterfaceId>,
    pub name: &'a str,
    pub options: RequiredOptions,
}

impl<'a> ToJson for LiftedFunction<'a> {
    ghost use Rattle.wc_record.specs.ExportOptions.{LiftedView, lifted_json};
    ghost use Rattle.wc_record.specs.Private.ExportOptions.{lifted_view};

    ghost View = { LiftedView };

    ghost view = { lifted_view };

    ghost json = { lifted_json };

    fn write(&self, out: &mut Writer) -> Result<(), AllocError> {
        begin_object(out)?;
        put_member(out, "interface", &self.interface)?;
        put_member(out, "name", &self.name)?;
        put_member(out, "options", &self.options)?;
        end_object(out)
    }
}

/// Appends a function.
fn push_function<'a>(
    alloc: Global,
    resolve: &Resolve,
    list: &mut Vec<LiftedFunction<'a>>,
    interface: Option<InterfaceId>,
    function: &'a Function,
) -> Result<(), AllocError>
    requires { IsUsable resolve.now (function_view function.now) }
    ensures { OnOk result (map lifted_view list.new.items ≡ map lifted_view list.old.items
        ++ lifted_function resolve.now (option_map id_of_interface interface)
        (function_view function.now) ∷ []) }
{
    let abi = AbiVariant::GuestExport;
    let options = RequiredOptions::for_export(alloc, resolve, function, abi)?;
    list.push(LiftedFunction {
        interface,
        name: &function.name,
        options,
    })?;
    Ok(())
}

/// Appends the functions of an interface, in their order.
fn push_functions<'a>(
    alloc: Global,
    resolve: &Resolve,
    list: &mut Vec<LiftedFunction<'a>>,
    id: InterfaceId,
    functions: &'a Map<String, Function>,
) -> Result<(), AllocError>
    requires { All (λ e. IsUsable resolve.now (function_view e.1)) functions.now.entries }
    ensures { OnOk result (map lifted_view list.new.items ≡ map lifted_view list.old.items
        ++ lifted_functions resolve.now id.0 (map function_entry functions.now.entries)) }
{
    for (_name, function) in functions.iter() {
        push_function(alloc, resolve, list, Some(id), function)?;
    }
    Ok(())
}

/// Appends the functions of the interface at an index.
fn push_interface<'a>(
    alloc: Global,
    resolve: &'a Resolve,
    list: &mut Vec<LiftedFunction<'a>>,
    id: InterfaceId,
) -> Result<(), AllocError>
    requires { id.0 < length resolve.now.interfaces }
    ensures { OnOk result (map lifted_view list.new.items ≡ map lifted_view list.old.items
        ++ lifted_interface resolve.now id.0) }
{
    resolve.well_formedness();
    push_functions(alloc, resolve, list, id, &resolve.interface(id).functions)
}

/// Appends the functions of an exported item.
fn push_item<'a>(
    alloc: Global,
    resolve: &'a Resolve,
    list: &mut Vec<LiftedFunction<'a>>,
    item: &'a WorldItem,
) -> Result<(), AllocError>
    requires { IsLiftable resolve.now (item_view item.now) }
    ensures { OnOk result (map lifted_view list.new.items ≡ map lifted_view list.old.items
        ++ lifted_item resolve.now (item_view item.now)) }
{
    match item {
        WorldItem::Interface { id, .. } => push_interface(alloc, resolve, list, *id),
        WorldItem::Function(function) => push_function(alloc, resolve, list, None, function),
        WorldItem::TypeItem { .. } => Ok(()),
    }
}

/// The functions that a world with these exports exports, in their order.
fn lifted_among<'a>(
    alloc: Global,
    resolve: &'a Resolve,
    exports: &'a Map<WorldKey, WorldItem>,
) -> Result<Vec<LiftedFunction<'a>>, AllocError>
    requires { All (λ e. IsLiftable resolve.now (item_view e.1)) exports.now.entries }
    ensures { IfOk result (λ list. map lifted_view list.items
        ≡ lifted_exports resolve.now (entries_of exports.now)) }
{
    let mut list = Vec::new(alloc);
    for (_key, item) in exports.iter() {
        push_item(alloc, resolve, &mut list, item)?;
    }
    Ok(list)
}

/// The functions that the world of an encoder exports, in the order of its exports, each with the options that it needs
/// where it is lifted synchronously.
pub(crate) fn lifted_exports<'a>(
    alloc: Global,
    encoder: &'a ComponentEncoder,
) -> Result<Vec<LiftedFunction<'a>>, AllocError>
    ensures { IfOk result (λ list. map lifted_view list.items
        ≡ lifted_exports encoder.now.resolve (world_exports encoder.now)) }
{
    encoder.well_formedness();
    let metadata = encoder.metadata();
    metadata.resolve.well_formedness();
    let exports = &metadata.resolve.world(metadata.world).exports;
    lifted_among(alloc, &metadata.resolve, exports)
}
