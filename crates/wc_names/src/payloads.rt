//! Built-ins of futures and streams, and what their names are looked up in.

ghost use Rattle.std.specs.Prelude.{◌≡◌, ◌<◌, [], IfOk, IfSome, IsTrue, None, Some, length, map, slice_get};
ghost use Rattle.std.specs.Option.{ForSome, option_map};
ghost use Rattle.wc_resolve.specs.Futures.{function_futures};
ghost use Rattle.wc_resolve.specs.LongFunctions.{function_at_place, function_of_items};
ghost use Rattle.wc_resolve.specs.Ranges.{IsFunctionIn, IsWorldIn};
ghost use Rattle.wc_resolve.specs.Roots.{id_index};
ghost use Rattle.wc_resolve.specs.Views.{function_view, key_view, world_entry, world_view};
ghost use Rattle.wc_names.specs.AsyncValues.{operation_row, unit_type};
ghost use Rattle.wc_names.specs.Contexts.{context_scope, IsOwnNameImportIn, IsPayloadTypeIn, NamesImportIn};
ghost use Rattle.wc_names.specs.ExportNames.{interface_function};
ghost use Rattle.wc_names.specs.Finds.{Finds};
ghost use Rattle.wc_names.specs.Keys.{function_at, function_named, resource_named, scope_key, type_named, world_entries};
ghost use Rattle.wc_names.specs.Mangling.{legacy};
ghost use Rattle.wc_names.specs.Places.{IsPlaced, named_view};
ghost use Rattle.wc_names.specs.Views.{async_value, import_view, payload_type_view, payload_view};

use crate::async_values::{AsyncValue, AsyncValueName, Operation, name_parts};
use crate::keys::{
    function_under, function_under_at, if_resource, plain_function, plain_function_at, plain_type,
    type_under,
};
use crate::texts::number;
use crate::{Import, PayloadInfo, PayloadType};
use std::alloc::{AllocError, Global};
use wc_maps::Map;
use wc_resolve::{
    Function, FunctionPlace, InterfaceId, Resolve, TypeId, World, WorldId, WorldItem, WorldKey,
};
use wc_texts::strip_prefix;

/// Where the functions and resources that names refer to are looked up: in an interface, or among those that the world
/// itself imports or exports. What is found is recorded under this key, or under its own name where there is none.
#[derive(Drop)]
pub struct PayloadLookupContext<'a> {
    pub resolve: &'a Resolve,
    pub world: &'a World,
    /// The interface; `None`: the world itself.
    pub id: Option<InterfaceId>,
    /// Whether the functions are those that the world imports; else it exports them. Resources of the world itself are
    /// always those that it imports.
    pub imported: bool,
    /// The key of the interface.
    pub key: Option<WorldKey>,
}

/// A function that a name is of.
#[derive(Clone, Copy)]
pub struct NamedFunction<'a> {
    pub function: &'a Function,
    /// Where the `Resolve` has it, if that is known.
    pub place: Option<FunctionPlace>,
}

impl<'a> PayloadLookupContext<'a> {
    /// The function of a name: of the interface, or of those that the world imports (`imported`) or exports.
    ///
    /// The interface must be in range (`has_interface`).
    ///
    /// # Errors
    ///
    /// `AllocError`: an allocation failed.
    pub fn function(&self, alloc: Global, name: &str) -> Result<Option<&Function>, AllocError>
        requires { ForSome self.now.id
            (λ id. id.0 < length self.now.resolve.now.interfaces) }
        ensures { IfOk result (λ found. option_map (λ f. function_view f.now) found ≡
            function_named self.now.resolve.now (world_view self.now.world.now) self.now.imported
            (context_scope self.now) name.now) }
    {
        match self.id {
            Some(id) => Ok(function_under(&self.resolve.interface(id).functions, name)),
            None => {
                if self.imported {
                    plain_function(alloc, &self.world.imports, name)
                } else {
                    plain_function(alloc, &self.world.exports, name)
                }
            }
        }
    }

    /// The imports of the world (`imported`), or its exports.
    fn items(&self) -> &Map<WorldKey, WorldItem>
        ensures { map world_entry result.now.entries
            ≡ world_entries (world_view self.now.world.now) self.now.imported }
    {
        if self.imported {
            &self.world.imports
        } else {
            &self.world.exports
        }
    }

    /// The place of an item that the world imports (`imported`) or exports, if the world's index is known.
    fn item_place(&self, world_id: Option<WorldId>, index: usize) -> Option<FunctionPlace>
        requires { ForSome world_id (λ id.
            slice_get self.now.resolve.now.worlds id.0 ≡ Some (world_view self.now.world.now)) }
        ensures { IfSome result (λ place. function_at_place self.now.resolve.now place ≡
            function_of_items (world_entries (world_view self.now.world.now) self.now.imported)
            index) }
    {
        match world_id {
            Some(id) => {
                if self.imported {
                    Some(FunctionPlace::Import(id, index))
                } else {
                    Some(FunctionPlace::Export(id, index))
                }
            }
            None => None,
        }
    }

    /// The function of a name among what the world imports (`imported`) or exports, and its place, if the world's index
    /// is known.
    fn named_item(
        &self,
        alloc: Global,
        world_id: Option<WorldId>,
        name: &str,
    ) -> Result<Option<NamedFunction<'_>>, AllocError>
        requires { ForSome world_id (λ id.
            slice_get self.now.resolve.now.worlds id.0 ≡ Some (world_view self.now.world.now)) }
        ensures function { IfOk result (λ found. option_map named_view found ≡
            function_at self.now.resolve.now (world_view self.now.world.now) self.now.imported
            None name.now) }
        ensures place { IfOk result
            (λ found. IfSome found (IsPlaced self.now.resolve.now)) }
    {
        match plain_function_at(alloc, self.items(), name)? {
            Some((index, function)) => Ok(Some(NamedFunction {
                function,
                place: self.item_place(world_id, index),
            })),
            None => Ok(None),
        }
    }

    /// The function of a name, as `function` has it, and its place, if it is one of an interface, or the world's index
    /// is known.
    ///
    /// The interface must be in range (`has_interface`), and the index, if there is one, be that of the world.
    ///
    /// # Errors
    ///
    /// `AllocError`: an allocation failed.
    pub fn named_function(
        &self,
        alloc: Global,
        world_id: Option<WorldId>,
        name: &str,
    ) -> Result<Option<NamedFunction<'_>>, AllocError>
        requires interface { ForSome self.now.id
            (λ id. id.0 < length self.now.resolve.now.interfaces) }
        requires listed { ForSome world_id (λ id.
            slice_get self.now.resolve.now.worlds id.0 ≡ Some (world_view self.now.world.now)) }
        ensures function { IfOk result (λ found. option_map named_view found ≡
            function_named self.now.resolve.now (world_view self.now.world.now) self.now.imported
            (context_scope self.now) name.now) }
        ensures place { IfOk result
            (λ found. IfSome found (IsPlaced self.now.resolve.now)) }
    {
        match self.id {
            Some(id) => Ok(named_in(self.resolve, id, name)),
            None => self.named_item(alloc, world_id, name),
        }
    }

    /// The type of a name: of the interface, or of those that the world imports.
    fn type_of(&self, alloc: Global, name: &str) -> Result<Option<TypeId>, AllocError>
        requires { ForSome self.now.id
            (λ id. id.0 < length self.now.resolve.now.interfaces) }
        ensures { IfOk result (λ found. option_map id_index found ≡
            type_named self.now.resolve.now (world_view self.now.world.now)
            (context_scope self.now).interface name.now) }
    {
        match self.id {
            Some(id) => Ok(type_under(&self.resolve.interface(id).types, name)),
            None => plain_type(alloc, &self.world.imports, name),
        }
    }

    /// The resource of a name: of the interface, or of those that the world imports. An alias of a resource is none.
    ///
    /// The world must be in range of the `Resolve`, as each of its worlds is (`Resolve::well_formedness`), and the
    /// interface too (`has_interface`).
    ///
    /// # Errors
    ///
    /// `AllocError`: an allocation failed.
    pub fn resource(&self, alloc: Global, name: &str) -> Result<Option<TypeId>, AllocError>
        requires world { IsWorldIn self.now.resolve.now (world_view self.now.world.now) }
        requires interface { ForSome self.now.id
            (λ id. id.0 < length self.now.resolve.now.interfaces) }
        ensures { IfOk result (λ found. option_map id_index found ≡
            resource_named self.now.resolve.now (world_view self.now.world.now)
            (context_scope self.now) name.now) }
    {
        self.resolve.well_formedness();
        match self.type_of(alloc, name)? {
            Some(id) => Ok(if_resource(self.resolve, id)),
            None => Ok(None),
        }
    }

    /// The key of an import for a function, resource or built-in of this name: a copy of `key`, or the name where there
    /// is no key.
    ///
    /// # Errors
    ///
    /// `AllocError`: an allocation failed.
    pub fn key_of(&self, alloc: Global, name: &str) -> Result<WorldKey, AllocError>
        ensures { IfOk result
            (λ key. key_view key ≡ scope_key (context_scope self.now) name.now) }
    {
        match &self.key {
            Some(key) => key.clone(alloc),
            None => Ok(WorldKey::Name(String::from_str(alloc, name)?)),
        }
    }
}

/// The function of a name in an interface, and its place.
fn named_in<'a>(resolve: &'a Resolve, id: InterfaceId, name: &str) -> Option<NamedFunction<'a>>
    requires { id.0 < length resolve.now.interfaces }
    ensures function { option_map named_view result
        ≡ interface_function resolve.now id.0 name.now }
    ensures place { IfSome result (IsPlaced resolve.now) }
{
    match function_under_at(&resolve.interface(id).functions, name) {
        Some((index, function)) => Some(NamedFunction {
            function,
            place: Some(FunctionPlace::Interface(id, index)),
        }),
        None => None,
    }
}

/// A future or a stream without a payload.
fn unit_type(value: AsyncValue) -> PayloadType
    ensures { payload_type_view result ≡ unit_type value }
{
    match value {
        AsyncValue::Future => PayloadType::UnitFuture,
        AsyncValue::Stream => PayloadType::UnitStream,
    }
}

/// The future or stream at an index of a function.
fn nth_of(resolve: &Resolve, named: NamedFunction<'_>, index: u32) -> Option<TypeId>
    requires function { IsFunctionIn (length resolve.now.types) (named_view named) }
    requires place { IsPlaced resolve.now named }
    ensures { option_map id_index result ≡
        slice_get (function_futures resolve.now (named_view named.entry)) index }
{
    match named.place {
        Some(place) => resolve.nth_future_or_stream_at(place, index),
        None => named.function.nth_future_or_stream(resolve, index),
    }
}

/// The future or stream that the parts of a name say.
fn payload_type(
    alloc: Global,
    context: &PayloadLookupContext<'_>,
    world_id: Option<WorldId>,
    name: &AsyncValueName<'_>,
) -> Result<Option<PayloadType>, AllocError>
    requires world { IsWorldIn context.now.resolve.now (world_view context.now.world.now) }
    requires interface { ForSome context.now.id
        (λ id. id.0 < length context.now.resolve.now.interfaces) }
    requires listed { ForSome world_id (λ id.
        slice_get context.now.resolve.now.worlds id.0 ≡ Some (world_view context.now.world.now)) }
    ensures { IfOk result (λ found. Finds (option_map payload_type_view found)
        (IsPayloadTypeIn context.now name.now.value name.now.which.now name.now.function.now)) }
{
    context.resolve.well_formedness();
    if name.which == "unit" {
        return Ok(Some(unit_type(name.value)));
    }
    let Some(index) = number(name.which) else {
        return Ok(None);
    };
    let Some(named) = context.named_function(alloc, world_id, name.function)? else {
        return Ok(None);
    };
    match nth_of(context.resolve, named, index) {
        Some(id) => Ok(Some(PayloadType::Typed {
            id,
            function: String::from_str(alloc, &named.function.name)?,
        })),
        None => Ok(None),
    }
}

/// The import of an operation on a future or a stream.
fn import_of(value: AsyncValue, operation: Operation, async_: bool, info: PayloadInfo) -> Import
    requires { IsTrue async_ → IsTrue (operation_row value operation).may_be_lowered }
    ensures { import_view result ≡ async_value value operation async_ (payload_view info) }
{
    match value {
        AsyncValue::Future => match operation {
            Operation::New => Import::FutureNew(info),
            Operation::Write => Import::FutureWrite { async_, info },
            Operation::Read => Import::FutureRead { async_, info },
            Operation::CancelWrite => Import::FutureCancelWrite { info, async_ },
            Operation::CancelRead => Import::FutureCancelRead { info, async_ },
            Operation::Forward => Import::FutureForward(info),
            Operation::DropWritable => Import::FutureDropWritable(info),
            Operation::DropReadable => Import::FutureDropReadable(info),
        },
        AsyncValue::Stream => match operation {
            Operation::New => Import::StreamNew(info),
            Operation::Write => Import::StreamWrite { async_, info },
            Operation::Read => Import::StreamRead { async_, info },
            Operation::CancelWrite => Import::StreamCancelWrite { info, async_ },
            Operation::CancelRead => Import::StreamCancelRead { info, async_ },
            Operation::Forward => Import::StreamForward(info),
            Operation::DropWritable => Import::StreamDropWritable(info),
            Operation::DropReadable => Import::StreamDropReadable(info),
        },
    }
}

/// The import that a name is, which is not after `[async-lower]`, or (`async_`) is.
fn own_name_import(
    alloc: Global,
    context: &PayloadLookupContext<'_>,
    world_id: Option<WorldId>,
    name: &str,
    async_: bool,
) -> Result<Option<Import>, AllocError>
    requires world { IsWorldIn context.now.resolve.now (world_view context.now.world.now) }
    requires interface { ForSome context.now.id
        (λ id. id.0 < length context.now.resolve.now.interfaces) }
    requires listed { ForSome world_id (λ id.
        slice_get context.now.resolve.now.worlds id.0 ≡ Some (world_view context.now.world.now)) }
    ensures { IfOk result (λ found. Finds (option_map import_view found)
        (IsOwnNameImportIn context.now name.now async_)) }
{
    let Some(parts) = name_parts(name) else {
        return Ok(None);
    };
    if async_ && !parts.operation.may_be_lowered() {
        return Ok(None);
    }
    let Some(ty) = payload_type(alloc, context, world_id, &parts)? else {
        return Ok(None);
    };
    let info = PayloadInfo {
        name: String::from_str(alloc, name)?,
        ty,
        key: context.key_of(alloc, name)?,
        interface: context.id,
        imported: context.imported,
    };
    Ok(Some(import_of(parts.value, parts.operation, async_, info)))
}

/// The import that a name of the legacy scheme is. `world_id`: the index of the context's world, if it is known.
pub(crate) fn async_value_import(
    alloc: Global,
    context: &PayloadLookupContext<'_>,
    world_id: Option<WorldId>,
    name: &str,
) -> Result<Option<Import>, AllocError>
    requires world { IsWorldIn context.now.resolve.now (world_view context.now.world.now) }
    requires interface { ForSome context.now.id
        (λ id. id.0 < length context.now.resolve.now.interfaces) }
    requires listed { ForSome world_id (λ id.
        slice_get context.now.resolve.now.worlds id.0 ≡ Some (world_view context.now.world.now)) }
    ensures { IfOk result (λ found. Finds (option_map import_view found)
        (NamesImportIn (legacy []) context.now name.now)) }
{
    match strip_prefix(name, "[async-lower]") {
        Some(rest) => own_name_import(alloc, context, world_id, rest, true),
        None => own_name_import(alloc, context, world_id, name, false),
    }
}
