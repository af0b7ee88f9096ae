//! Look-ups of functions and resources by names.

ghost use Rattle.std.specs.Prelude.{◌≡◌, ◌<◌, IfOk, is_some};
ghost use Rattle.std.specs.Option.{option_map};
ghost use Rattle.wc_resolve.specs.Roots.{id_index};
ghost use Rattle.wc_resolve.specs.Views.{key_view, plain_key, world_view};
ghost use Rattle.wc_names.specs.Contexts.{context_scope};
ghost use Rattle.wc_names.specs.Keys.{item_under, scope_key};
ghost use Rattle.wc_validate.specs.Private.Imports.Kinds.{IsContextFormed};
ghost use Rattle.wc_validate.specs.Private.Imports.Lookups.{function_in, lookup_scope, resource_in, type_in, function_found};

use std::alloc::{AllocError, Global};
use wc_names::PayloadLookupContext;
use wc_names::keys::{
    function_under, if_resource, plain_function, plain_item, plain_type, type_under,
};
use wc_resolve::{Function, TypeId, World, WorldKey};

/// Whether the world imports something under a plain key.
pub(crate) fn is_imported(alloc: Global, world: &World, name: &str) -> Result<bool, AllocError>
    ensures { IfOk result (λ b. b ≡ is_some (item_under (world_view world.now).imports
        (plain_key name.now))) }
{
    Ok(plain_item(alloc, &world.imports, name)?.is_some())
}

/// The function of a name: of the context's interface, or of those that its world imports or exports.
pub(crate) fn function_named<'a>(
    alloc: Global,
    context: &PayloadLookupContext<'a>,
    name: &str,
) -> Result<Option<&'a Function>, AllocError>
    requires { IsContextFormed context.now }
    ensures { IfOk result (λ found. function_found found
        ≡ function_in (lookup_scope context.now) name.now) }
{
    match context.id {
        Some(id) => Ok(function_under(&context.resolve.interface(id).functions, name)),
        None => {
            if context.imported {
                plain_function(alloc, &context.world.imports, name)
            } else {
                plain_function(alloc, &context.world.exports, name)
            }
        }
    }
}

/// The type of a name: of the context's interface, or of those that its world imports.
fn type_named(
    alloc: Global,
    context: &PayloadLookupContext<'_>,
    name: &str,
) -> Result<Option<TypeId>, AllocError>
    requires { IsContextFormed context.now }
    ensures { IfOk result (λ found. option_map id_index found ≡
        type_in (lookup_scope context.now) name.now) }
{
    match context.id {
        Some(id) => Ok(type_under(&context.resolve.interface(id).types, name)),
        None => plain_type(alloc, &context.world.imports, name),
    }
}

/// The resource of a name: of the context's interface, or of those that its world imports.
pub(crate) fn resource_named(
    alloc: Global,
    context: &PayloadLookupContext<'_>,
    name: &str,
) -> Result<Option<TypeId>, AllocError>
    requires { IsContextFormed context.now }
    ensures { IfOk result (λ found. option_map id_index found ≡
        resource_in (lookup_scope context.now) name.now) }
{
    context.resolve.well_formedness();
    match type_named(alloc, context, name)? {
        Some(id) => Ok(if_resource(context.resolve, id)),
        None => Ok(None),
    }
}

/// The key of an import for something of this name: the context's, or the name itself.
pub(crate) fn scope_key(
    alloc: Global,
    context: &PayloadLookupContext<'_>,
    name: &str,
) -> Result<WorldKey, AllocError>
    ensures { IfOk result (λ key. key_view key
        ≡ scope_key (context_scope context.now) name.now) }
{
    match &context.key {
        Some(key) => key.clone(alloc),
        None => Ok(WorldKey::Name(String::from_str(alloc, name)?)),
    }
}
