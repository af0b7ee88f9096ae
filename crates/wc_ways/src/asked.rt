//! The imports of the world to which imports of modules belong, and which of them are asked about.

ghost use Rattle.std.specs.Prelude.{◌≡◌, IfOk, string_bytes};
ghost use Rattle.std.specs.Option.{option_map};
ghost use Rattle.semver.specs.Identifiers.{parts_text};
ghost use Rattle.wc_names.specs.Views.{import_view, payload_view};
ghost use Rattle.wc_resolve.specs.Dependencies.{id_of_interface};
ghost use Rattle.wc_resolve.specs.Resolve.{key_text};
ghost use Rattle.wc_resolve.specs.Views.{key_view};
ghost use Rattle.wc_ways.specs.Asked.{is_asked, own_name, payload_import, scoped_import, world_import};
ghost use Rattle.wc_ways.specs.Private.Imported.{imported_view};

use std::alloc::{AllocError, Global};
use wc_names::{Import, PayloadInfo, PayloadType};
use wc_resolve::{InterfaceId, Resolve, WorldKey};
use wc_why::asks_about;

/// The key that asks about all interfaces.
pub(crate) const ALL: &str = "all";

/// The name that stands for the interface of what is the world's own, as in the lines of a plan.
pub(crate) const ROOT: &str = "$root";

/// An import of the world, to which an import of a module belongs.
#[derive(Clone, Copy)]
pub(crate) enum Imported<'a> {
    /// The interface of this id.
    Interface(InterfaceId),
    /// The function or the type of this name that is the world's own.
    Own(&'a str),
}

/// Whether an import of the world is asked about: by the name of its interface, which is `$root` for what is the world's
/// own, or by its text; or all are.
pub(crate) fn is_asked(key: &str, interface: &str, text: &str) -> bool
    ensures { result ≡ is_asked key.now interface.now text.now }
{
    key == ALL || key == interface || asks_about(key, text)
}

/// The text of the key of an interface, if it has one.
pub(crate) fn key_text(
    alloc: Global,
    resolve: &Resolve,
    key: &WorldKey,
) -> Result<Option<String>, AllocError>
    ensures { IfOk result (λ t. option_map string_bytes t
        ≡ key_text parts_text resolve.now (key_view key.now)) }
{
    match key {
        WorldKey::Name(name) => Ok(Some(String::from_str(alloc, name)?)),
        WorldKey::Interface(id) => {
            if resolve.has_interface(*id) {
                resolve.id_of(alloc, *id)
            } else {
                Ok(None)
            }
        }
    }
}

/// The name of an import: that of a function; of what is none the name that it has in the module.
pub(crate) fn own_name<'a>(name: &'a str, import: &'a Import) -> &'a str
    ensures { result.now ≡ own_name name.now (import_view import.now) }
{
    match import.function() {
        Some(function) => function.name,
        None => name,
    }
}

/// The import of the world to which an import of a module belongs: that of a function, of a dropped resource, or of the
/// function whose future or stream a built-in is for.
pub(crate) fn world_import(import: &Import) -> Option<Imported<'_>>
    ensures { option_map imported_view result ≡ world_import (import_view import.now) }
{
    match import {
        Import::WorldFunc(_, name, _) => Some(Imported::Own(name)),
        Import::InterfaceFunc(_, id, _, _) => Some(Imported::Interface(*id)),
        Import::ImportedResourceDrop(key, interface, _) => scoped_import(key, *interface),
        Import::StreamNew(info) | Import::FutureNew(info) => payload_import(info),
        Import::StreamForward(info) | Import::FutureForward(info) => payload_import(info),
        Import::StreamDropReadable(info) => payload_import(info),
        Import::FutureDropReadable(info) => payload_import(info),
        Import::StreamDropWritable(info) => payload_import(info),
        Import::FutureDropWritable(info) => payload_import(info),
        Import::StreamRead { info, .. } | Import::FutureRead { info, .. } => payload_import(info),
        Import::StreamWrite { info, .. } | Import::FutureWrite { info, .. } => payload_import(info),
        Import::StreamCancelRead { info, .. } => payload_import(info),
        Import::FutureCancelRead { info, .. } => payload_import(info),
        Import::StreamCancelWrite { info, .. } => payload_import(info),
        Import::FutureCancelWrite { info, .. } => payload_import(info),
        _ => None,
    }
}

/// The import of the world of a resource: its interface, if it is of one.
fn scoped_import(key: &WorldKey, interface: Option<InterfaceId>) -> Option<Imported<'_>>
    ensures { option_map imported_view result
        ≡ scoped_import (key_view key.now) (option_map id_of_interface interface) }
{
    match (interface, key) {
        (Some(id), _) => Some(Imported::Interface(id)),
        (None, WorldKey::Name(name)) => Some(Imported::Own(name)),
        (None, WorldKey::Interface(_)) => None,
    }
}

/// The import of the world that has a future or a stream, if it is imported.
fn payload_import(info: &PayloadInfo) -> Option<Imported<'_>>
    ensures { option_map imported_view result ≡ payload_import (payload_view info.now) }
{
    if !info.imported {
        return None;
    }
    match (info.interface, &info.ty) {
        (Some(id), _) => Some(Imported::Interface(id)),
        (None, PayloadType::Typed { function, .. }) => Some(Imported::Own(function)),
        (None, PayloadType::UnitFuture | PayloadType::UnitStream) => None,
    }
}
