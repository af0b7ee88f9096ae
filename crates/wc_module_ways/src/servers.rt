//! The modules that serve functions to the main module, and the places of their exports.

ghost use Rattle.std.specs.Prelude.{◌≡◌, ◌<◌, ◌^◌, ◌+◌, ◌++◌, [], IfOk, List, OnOk, cond, map};
ghost use Rattle.wc_read.specs.Exports.{export_value};
ghost use Rattle.wc_read.specs.Modules.{module_value};
ghost use Rattle.wc_paths.specs.Counts.{counts_value};
ghost use Rattle.wc_paths.specs.Items.{counts_of};
ghost use Rattle.wc_import_paths.specs.Followed.{followed_view};
ghost use Rattle.wc_import_paths.specs.Following.{graph_in};
ghost use Rattle.wc_import_paths.specs.Rows.{bare_graph};
ghost use Rattle.wc_paths.specs.Numbers.{item_count};
ghost use Rattle.wc_module_ways.specs.Adapters.{adapter_view};
ghost use Rattle.wc_module_ways.specs.CoreModules.{core_view};
ghost use Rattle.wc_module_ways.specs.Servers.{ServerView, adapter_server, core_server, servers_of};
ghost use Rattle.wc_module_ways.specs.Private.Places.{ArePlaces, PutsPlace, PutsServer};
ghost use Rattle.wc_module_ways.specs.Private.Servers.{server_by, server_view};

use crate::adapter::AdapterModule;
use crate::core_module::{CoreLibrary, CoreModule, FollowedCore};
use crate::modules::Modules;
use crate::server::Server;
use std::alloc::{AllocError, Global};
use wc_maps::{Map, Seed};
use wc_paths::{Counts, PathItem, export_item, has_item, number_of};
use wc_read::Export;

/// For each export of a module that serves its name, by this name and the export's, the position of the part and the
/// number of its item.
pub(crate) type ExportPlaces<'a> = Map<(&'a str, &'a str), (usize, usize)>;

/// The modules that serve functions, for each part after the main module.
pub(crate) fn servers_of<'a>(
    alloc: Global,
    modules: &'a Modules<'_>,
) -> Result<Vec<Server<'a>>, AllocError>
    ensures { IfOk result (λ v. map server_view v.items
        ≡ servers_of (map adapter_view modules.now.adapters.items)
        (map core_view modules.now.core.items)) }
{
    let mut servers = Vec::new(alloc);
    push_adapter_servers(&modules.adapters, &mut servers)?;
    push_core_servers(&modules.core, &mut servers)?;
    Ok(servers)
}

/// Appends adapters.
fn push_adapter_servers<'a>(
    adapters: &'a [AdapterModule<'_>],
    servers: &mut Vec<Server<'a>>,
) -> Result<(), AllocError>
    ensures { OnOk result (map server_view servers.new.items ≡ map server_view servers.old.items
        ++ map adapter_server (map adapter_view adapters.now)) }
{
    for adapter in adapters {
        servers.push(Server {
            name: adapter.name,
            exports: &adapter.code.exports,
            counts: adapter.rows.counts,
        })?;
    }
    Ok(())
}

/// Appends core modules.
fn push_core_servers<'a>(
    core: &'a [CoreModule<'_>],
    servers: &mut Vec<Server<'a>>,
) -> Result<(), AllocError>
    ensures { OnOk result (map server_view servers.new.items ≡ map server_view servers.old.items
        ++ map core_server (map core_view core.now)) }
{
    for one in core {
        servers.push(core_server(one))?;
    }
    Ok(())
}

/// A core module with the exports that it serves.
fn core_server<'a>(core: &'a CoreModule<'_>) -> Server<'a>
    ensures { server_view result ≡ core_server (core_view core.now) }
{
    match core {
        CoreModule::Followed(core) => followed_server(core),
        CoreModule::Unfollowed(core) => library_server(core),
    }
}

/// A core module that is followed, with the exports that it serves.
fn followed_server<'a>(core: &'a FollowedCore<'_>) -> Server<'a>
    ensures { server_view result ≡ server_by core.now.name.now
        (cond core.now.serves (map export_value core.now.followed.code.exports.items) [])
        (counts_of (graph_in (followed_view core.now.followed))) }
{
    Server {
        name: core.name,
        exports: served_exports(core),
        counts: core.followed.rows.counts,
    }
}

/// A library, which serves nothing.
fn library_server<'a>(core: &'a CoreLibrary<'_>) -> Server<'a>
    ensures { server_view result ≡ server_by core.now.name.now []
        (counts_of (bare_graph (module_value core.now.code))) }
{
    Server {
        name: core.name,
        exports: &[],
        counts: core.rows.counts,
    }
}

/// The exports that a core module serves: all, if it serves its name.
fn served_exports<'a, 'r>(core: &'a FollowedCore<'r>) -> &'a [Export<'r>]
    ensures { map export_value result.now
        ≡ cond core.now.serves (map export_value core.now.followed.code.exports.items) [] }
{
    if core.serves {
        &core.followed.code.exports
    } else {
        &[]
    }
}

/// The places of the exports of modules that serve functions, each of which is the part after the position before it.
pub(crate) fn export_places<'a>(
    alloc: Global,
    seed: Seed,
    servers: &[Server<'a>],
) -> Result<ExportPlaces<'a>, AllocError>
    ensures { IfOk result (λ m. ArePlaces (map server_view servers.now) m.entries) }
{
    let mut places = Map::with_hasher(alloc, seed);
    for index in 0..servers.len() {
        let server = &servers[index];
        put_exports(
            server.name,
            server.exports,
            index,
            &server.counts,
            &mut places,
        )?;
    }
    Ok(places)
}

/// Puts the exports that the module of a name at an index serves, which has so many items.
fn put_exports<'a>(
    name: &'a str,
    exports: &[Export<'a>],
    index: usize,
    counts: &Counts,
    places: &mut ExportPlaces<'a>,
) -> Result<(), AllocError>
    requires fits { item_count (counts_value counts.now) < 2 ^ 64 }
    requires room { index + 1 < 2 ^ 64 }
    ensures { OnOk result (PutsServer (server_by name.now (map export_value exports.now)
        (counts_value counts.now)) index places.old.entries places.new.entries) }
{
    for export in exports {
        put_export(
            (name, export.name),
            index,
            export_item(export),
            counts,
            places,
        )?;
    }
    Ok(())
}

/// Puts the item of an export of the module at an index under a key, if it is there.
fn put_export<'a>(
    key: (&'a str, &'a str),
    index: usize,
    item: PathItem,
    counts: &Counts,
    places: &mut ExportPlaces<'a>,
) -> Result<(), AllocError>
    requires fits { item_count (counts_value counts.now) < 2 ^ 64 }
    requires room { index + 1 < 2 ^ 64 }
    ensures { OnOk result (PutsPlace key.entry index item (counts_value counts.now)
        places.old.entries places.new.entries) }
{
    if has_item(counts, item) {
        places.insert(key, (index + 1, number_of(counts, item)))?;
    }
    Ok(())
}
