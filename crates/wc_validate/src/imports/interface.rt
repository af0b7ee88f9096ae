//! Imports from modules that are about interfaces.

ghost use Rattle.std.specs.Prelude.{◌≡◌, ◌<◌, All, IfOk, length};
ghost use Rattle.std.specs.Option.{option_map};
ghost use Rattle.wc_resolve.specs.Ranges.{IsKeyIn};
ghost use Rattle.wc_names.specs.Interfaces.{found_interface, interface_texts};
ghost use Rattle.wc_validate.specs.Private.Imports.Functions.{IsDecidedAmong, IsDecidedInExport, IsDecidedInImport};
ghost use Rattle.wc_validate.specs.Private.Imports.Interface.{IsIndexed, found_view, interface_entries, IsDecidedAsExport, IsDecidedAsImport, IsFoundBy};
ghost use Rattle.wc_validate.specs.Private.Imports.Kinds.{other_kinds};
ghost use Rattle.wc_validate.specs.NameScope.{HasInterfaces, HasItsWorld, lookup_name_scope, name_scope_of};

use crate::imports::intrinsics::{exported_intrinsic, imported_intrinsic, lowered_function};
use crate::imports::items::ImportedFunction;
use crate::name_fault::NameFault;
use crate::name_scope::Lookup;
use crate::names::{ContextInWorld, Names};
use std::alloc::{AllocError, Global};
use wc_maps::Map;
use wc_names::{Import, InterfaceNames, NameMangling, PayloadLookupContext};
use wc_resolve::{InterfaceId, Resolve, WorldItem, WorldKey};
use wc_texts::strip_prefix;

/// The scope that an interface is looked up in: the imports of a world, or its exports, with an index of the
/// interfaces, if there is one.
#[derive(Clone, Copy)]
pub(crate) struct InterfaceLookup<'a> {
    resolve: &'a Resolve,
    items: &'a Map<WorldKey, WorldItem>,
    index: &'a Option<InterfaceNames<'a>>,
}

/// An interface that a text is about, and its key.
#[derive(Drop)]
pub(crate) struct FoundInterface {
    key: WorldKey,
    id: InterfaceId,
}

/// The interface that is found, if one is, and its key.
fn found_interface(found: Option<(WorldKey, InterfaceId)>) -> Option<FoundInterface>
    ensures { option_map found_view result ≡ option_map found_interface found }
{
    match found {
        Some((key, id)) => Some(FoundInterface { key, id }),
        None => None,
    }
}

/// The interface that a text is about.
fn interface_of<N: NameMangling>(
    scheme: &N,
    alloc: Global,
    lookup: InterfaceLookup<'_>,
    text: &str,
) -> Result<Option<FoundInterface>, AllocError>
    requires keys { All (λ x. IsKeyIn lookup.resolve.now x.0)
        (interface_entries lookup) }
    requires indexed { IsIndexed (interface_texts (N.scheme scheme.now)) lookup }
    ensures { IfOk result (IsFoundBy (N.scheme scheme.now) lookup.entry text.now) }
{
    match lookup.index {
        Some(names) => Ok(found_interface(names.interface(alloc, text)?)),
        None => {
            let found = scheme.module_to_interface(alloc, text, lookup.resolve, lookup.items)?;
            Ok(found_interface(found))
        }
    }
}

/// The built-in that a name is of from the module of an exported interface, which is found.
fn exported_item<N: NameMangling>(
    scheme: &N,
    alloc: Global,
    names: &Names<'_>,
    found: FoundInterface,
    function: ImportedFunction<'_>,
) -> Result<Import, NameFault>
    requires world { HasItsWorld (name_scope_of names.now) }
    requires interface { found.id.0 < length names.now.resolve.now.interfaces }
    ensures { IsDecidedAsExport (N.scheme scheme.now) names.now found function.entry result }
{
    names.resolve.well_formedness();
    let context = ContextInWorld {
        lookup: PayloadLookupContext {
            resolve: names.resolve,
            world: names.world,
            id: Some(found.id),
            imported: false,
            key: Some(found.key),
        },
        world_id: names.world_id,
    };
    match exported_intrinsic(scheme, alloc, &context, function.name, function.ty)? {
        Some(import) => Ok(import),
        None => Err(NameFault::UnknownIntrinsic),
    }
}

/// The import of a name from the module of an interface that the world exports.
fn exported_interface<N: NameMangling>(
    scheme: &N,
    alloc: Global,
    lookup: Lookup<'_>,
    text: &str,
    function: ImportedFunction<'_>,
) -> Result<Import, NameFault>
    requires world { HasItsWorld (lookup_name_scope lookup) }
    requires interfaces { HasInterfaces (interface_texts (N.scheme scheme.now)) lookup }
    ensures { IsDecidedInExport (N.scheme scheme.now)
        (lookup_name_scope lookup.entry) text.now function.entry result }
{
    let names = lookup.names;
    names.resolve.well_formedness();
    let exports = InterfaceLookup {
        resolve: names.resolve,
        items: &names.world.exports,
        index: &lookup.interfaces.exports,
    };
    match interface_of(scheme, alloc, exports, text)? {
        Some(found) => exported_item(scheme, alloc, names, found, function),
        None => Err(NameFault::UnknownInterface),
    }
}

/// The function, or the built-in, that a name is of from the module of an imported interface, which is found.
fn imported_item<N: NameMangling>(
    scheme: &N,
    alloc: Global,
    names: &Names<'_>,
    found: FoundInterface,
    function: ImportedFunction<'_>,
) -> Result<Import, NameFault>
    requires world { HasItsWorld (name_scope_of names.now) }
    requires interface { found.id.0 < length names.now.resolve.now.interfaces }
    ensures { IsDecidedAsImport (N.scheme scheme.now) names.now found function.entry result }
{
    names.resolve.well_formedness();
    let context = ContextInWorld {
        lookup: PayloadLookupContext {
            resolve: names.resolve,
            world: names.world,
            id: Some(found.id),
            imported: true,
            key: Some(found.key),
        },
        world_id: names.world_id,
    };
    let (function_name, abi) = scheme.interface_function_name_and_abi(function.name);
    match lowered_function(alloc, &context, function_name, abi, function.ty)? {
        Some(lowered) => Ok(lowered),
        None => match imported_intrinsic(scheme, alloc, &context, function.name, function.ty)? {
            Some(import) => Ok(import),
            None => Err(NameFault::MissingFunction),
        },
    }
}

/// The import of a name from the module of an interface that the world imports.
fn imported_interface<N: NameMangling>(
    scheme: &N,
    alloc: Global,
    lookup: Lookup<'_>,
    text: &str,
    function: ImportedFunction<'_>,
) -> Result<Import, NameFault>
    requires world { HasItsWorld (lookup_name_scope lookup) }
    requires interfaces { HasInterfaces (interface_texts (N.scheme scheme.now)) lookup }
    ensures { IsDecidedInImport (N.scheme scheme.now)
        (lookup_name_scope lookup.entry) text.now function.entry result }
{
    let names = lookup.names;
    names.resolve.well_formedness();
    let imports = InterfaceLookup {
        resolve: names.resolve,
        items: &names.world.imports,
        index: &lookup.interfaces.imports,
    };
    match interface_of(scheme, alloc, imports, text)? {
        Some(found) => imported_item(scheme, alloc, names, found, function),
        None => Err(NameFault::UnknownInterface),
    }
}

/// The import of a name from a module that is not the root.
pub(crate) fn interface_import<N: NameMangling>(
    scheme: &N,
    alloc: Global,
    lookup: Lookup<'_>,
    function: ImportedFunction<'_>,
) -> Result<Import, NameFault>
    requires world { HasItsWorld (lookup_name_scope lookup) }
    requires interfaces { HasInterfaces (interface_texts (N.scheme scheme.now)) lookup }
    ensures { IsDecidedAmong (N.scheme scheme.now)
        (lookup_name_scope lookup.entry) other_kinds function.entry result }
{
    let Some(text) = strip_prefix(function.module_name, scheme.import_non_root_prefix()) else {
        return Err(NameFault::BadSyntax);
    };
    match strip_prefix(text, scheme.import_exported_intrinsic_prefix()) {
        Some(export) => exported_interface(scheme, alloc, lookup, export, function),
        None => imported_interface(scheme, alloc, lookup, text, function),
    }
}
