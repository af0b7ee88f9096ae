//! The modules as parts of a component.

ghost use Rattle.std.specs.Prelude.{◌≡◌, ◌<◌, ◌^◌, ◌++◌, All, IfOk, List, OnOk, map};
ghost use Rattle.std.specs.Option.{option_map, option_to_list};
ghost use Rattle.wc_read.specs.Imports.{import_value, import_values};
ghost use Rattle.wc_paths.specs.Counts.{counts_value};
ghost use Rattle.wc_paths.specs.Numbers.{item_count};
ghost use Rattle.wc_why.specs.Part.{link_view, part_view};
ghost use Rattle.wc_import_paths.specs.MainModules.{bytes_in, code_of, main_view};
ghost use Rattle.wc_module_ways.specs.Adapters.{IsRead, adapter_view};
ghost use Rattle.wc_module_ways.specs.CoreModules.{core_view};
ghost use Rattle.wc_module_ways.specs.Modules.{HasModules};
ghost use Rattle.wc_module_ways.specs.Parts.{AreAdapterParts, AreLinks, AreParts, IsPartOfAdapter};
ghost use Rattle.wc_module_ways.specs.Private.Places.{ArePlaces, found_place, found_view, link_of, named_place, original_place};
ghost use Rattle.wc_module_ways.specs.Servers.{ServerView, servers_of};

use crate::adapter::AdapterModule;
use crate::core_parts::push_core_parts;
use crate::functions::is_function;
use crate::modules::Modules;
use crate::servers::{ExportPlaces, export_places, servers_of};
use std::alloc::{AllocError, Global};
use wc_component_file::original_import_name;
use wc_import_paths::{adapter_part, exports_of_names};
use wc_maps::Seed;
use wc_paths::{Counts, PathItem, has_item, import_items, number_of};
use wc_read::Import;
use wc_why::{Link, Part};

/// The parts of a component: the main module, then each adapter, and then each other core module.
pub(crate) fn parts_of<'a>(
    alloc: Global,
    modules: &'a Modules<'_>,
) -> Result<Vec<Part<'a>>, AllocError>
    requires { HasModules modules.now }
    ensures { IfOk result (λ v. AreParts (main_view modules.now.main) (bytes_in modules.now.main)
        (map adapter_view modules.now.adapters.items) (map core_view modules.now.core.items)
        (map part_view v.items)) }
{
    let seed = *modules.names.hasher();
    let mut main = modules.main.part(alloc)?;
    let links = links_in(alloc, seed, modules, &main.counts)?;
    main.links = links;
    let mut parts = adapter_parts(alloc, seed, &modules.adapters)?;
    push_core_parts(alloc, &modules.functions, &modules.core, &mut parts)?;
    parts.insert(0, main)?;
    Ok(parts)
}

/// The links from the main module, which has so many items.
fn links_in<'a>(
    alloc: Global,
    seed: Seed,
    modules: &'a Modules<'_>,
    counts: &Counts,
) -> Result<Vec<Link<'a>>, AllocError>
    requires { item_count (counts_value counts.now) < 2 ^ 64 }
    ensures { IfOk result (λ v. AreLinks (code_of (main_view modules.now.main)).imports
        (counts_value counts.now) (servers_of (map adapter_view modules.now.adapters.items)
        (map core_view modules.now.core.items)) (map link_view v.items)) }
{
    let servers = servers_of(alloc, modules)?;
    let places = export_places(alloc, seed, &servers)?;
    links_of(alloc, &modules.main.code().imports, counts, &places)
}

/// The parts of adapters.
fn adapter_parts<'a>(
    alloc: Global,
    seed: Seed,
    adapters: &'a [AdapterModule<'_>],
) -> Result<Vec<Part<'a>>, AllocError>
    requires { All IsRead (map adapter_view adapters.now) }
    ensures { IfOk result (λ v. AreAdapterParts (map adapter_view adapters.now)
        (map part_view v.items)) }
{
    let mut parts = Vec::new(alloc);
    for adapter in adapters {
        parts.push(part_of_adapter(alloc, seed, adapter)?)?;
    }
    Ok(parts)
}

/// The part of an adapter.
fn part_of_adapter<'a>(
    alloc: Global,
    seed: Seed,
    adapter: &'a AdapterModule<'_>,
) -> Result<Part<'a>, AllocError>
    requires { IsRead (adapter_view adapter.now) }
    ensures { IfOk result (λ p. IsPartOfAdapter (adapter_view adapter.now) (part_view p)) }
{
    let always = exports_of_names(alloc, seed, &adapter.always, &adapter.code.exports)?;
    adapter_part(alloc, adapter.name, adapter.bytes, &adapter.rows, &always)
}

/// The links from functions that the main module imports to exports, which are at these places.
fn links_of<'a>(
    alloc: Global,
    imports: &'a [Import<'_>],
    counts: &Counts,
    places: &ExportPlaces<'_>,
) -> Result<Vec<Link<'a>>, AllocError>
    requires { item_count (counts_value counts.now) < 2 ^ 64 }
    ensures { IfOk result (λ v. (servers : List ServerView)
        → ArePlaces servers places.now.entries
        → AreLinks (import_values imports.now) (counts_value counts.now) servers
        (map link_view v.items)) }
{
    let items = import_items(alloc, imports)?;
    let mut links = Vec::new(alloc);
    for position in 0..imports.len() {
        push_link(
            &imports[position],
            items[position],
            counts,
            places,
            &mut links,
        )?;
    }
    Ok(links)
}

/// Appends the link of an import with this item, if it is an export of a module.
fn push_link<'a>(
    import: &'a Import<'_>,
    item: PathItem,
    counts: &Counts,
    places: &ExportPlaces<'_>,
    links: &mut Vec<Link<'a>>,
) -> Result<(), AllocError>
    requires { item_count (counts_value counts.now) < 2 ^ 64 }
    ensures { OnOk result (map link_view links.new.items ≡ map link_view links.old.items
        ++ option_to_list (link_of (import_value import.now) item (counts_value counts.now)
        places.now.entries)) }
{
    match link_of(import, item, counts, places) {
        Some(link) => {
            links.push(link)?;
            Ok(())
        }
        None => Ok(()),
    }
}

/// The link of an import with this item, if it is an export of a module.
fn link_of<'a>(
    import: &'a Import<'_>,
    item: PathItem,
    counts: &Counts,
    places: &ExportPlaces<'_>,
) -> Option<Link<'a>>
    requires { item_count (counts_value counts.now) < 2 ^ 64 }
    ensures { option_map link_view result ≡ link_of (import_value import.now) item
        (counts_value counts.now) places.now.entries }
{
    if is_function(import.ty) && has_item(counts, item) {
        match found_place(import.module, import.name, places) {
            Some((export, (part, linked))) => Some(Link {
                item: number_of(counts, item),
                part,
                linked,
                export,
            }),
            None => None,
        }
    } else {
        None
    }
}

/// The place of the export of a name of a module; if there is none, that of the name before its version. It comes with
/// the name that was found.
fn found_place<'a>(
    from: &'a str,
    name: &'a str,
    places: &ExportPlaces<'_>,
) -> Option<(&'a str, (usize, usize))>
    ensures { option_map found_view result
        ≡ found_place places.now.entries from.now name.now }
{
    match places.get(&(from, name)) {
        Some(place) => Some((name, *place)),
        None => original_place(from, name, places),
    }
}

/// The place of the export of the name before the version of a name, with that name.
fn original_place<'a>(
    from: &'a str,
    name: &'a str,
    places: &ExportPlaces<'_>,
) -> Option<(&'a str, (usize, usize))>
    ensures { option_map found_view result
        ≡ original_place places.now.entries from.now name.now }
{
    match original_import_name(name) {
        Some(original) => named_place(from, original, places),
        None => None,
    }
}

/// The place of the export of a name of a module, with the name.
fn named_place<'a>(
    from: &'a str,
    name: &'a str,
    places: &ExportPlaces<'_>,
) -> Option<(&'a str, (usize, usize))>
    ensures { option_map found_view result
        ≡ named_place places.now.entries from.now name.now }
{
    match places.get(&(from, name)) {
        Some(place) => Some((name, *place)),
        None => None,
    }
}
