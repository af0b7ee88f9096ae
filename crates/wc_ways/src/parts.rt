//! The modules of a component as parts of one graph.

ghost use Rattle.std.specs.Prelude.{◌≡◌, ◌<◌, ◌++◌, All, IfOk, List, OnOk, length, map};
ghost use Rattle.std.specs.Option.{option_map, option_to_list};
ghost use Rattle.wc_why.specs.Part.{link_view, part_view};
ghost use Rattle.wc_import_paths.specs.MainModules.{main_view};
ghost use Rattle.wc_names.specs.Views.{import_view};
ghost use Rattle.wc_paths.specs.Counts.{counts_value};
ghost use Rattle.wc_paths.specs.Roots.{AreImportItems};
ghost use Rattle.wc_read.specs.Exports.{export_value};
ghost use Rattle.wc_read.specs.Imports.{ImportValue, import_value, import_values};
ghost use Rattle.wc_read.specs.Modules.{module_value};
ghost use Rattle.wc_summary.specs.Leads.{as_number};
ghost use Rattle.wc_validate.specs.Validate.{module_record};
ghost use Rattle.wc_world.specs.WorldViews.{world_view};
ghost use Rattle.wc_ways.specs.Found.{number_named};
ghost use Rattle.wc_ways.specs.Parts.{AreParts, always_of, export_named, exported_number, link_at, link_from, linked_at, linked_by, links_of};
ghost use Rattle.wc_ways.specs.Private.Modules.{AreModulesOf, ArePlaces, IsRead, codes_in};
ghost use Rattle.wc_ways.specs.Private.Parts.{AreAdapterParts, CanLink, IsPartOfModule, link_with, linked_view};

use crate::modules::{AdapterModule, ImportPlaces, Modules, main_rows};
use crate::originals::recorded_at;
use std::alloc::{AllocError, Global};
use wc_import_paths::{ModuleRows, adapter_part, library_part};
use wc_names::Import as Recorded;
use wc_paths::{PathItem, export_item, has_item, import_items, number_of};
use wc_read::{Export, Import};
use wc_why::{Link, Part, TreeImport};
use wc_world::ComponentWorld;

/// The modules of a component's world, with what the main module's imports are linked to.
#[derive(Clone, Copy)]
struct Linking<'c, 'a> {
    world: &'a ComponentWorld<'a>,
    modules: &'a Modules<'a>,
    /// The rows of the main module: the items that each item names.
    rows: &'c ModuleRows,
}

/// An item of an adapter: the position of the part, its number there, and the name by which it is exported.
#[derive(Clone, Copy)]
struct Linked<'a> {
    part: usize,
    item: usize,
    export: &'a str,
}

/// The parts of a component: the main module, and each adapter and library in order.
pub(crate) fn parts_of<'a>(
    alloc: Global,
    world: &'a ComponentWorld<'a>,
    modules: &'a Modules<'a>,
) -> Result<Vec<Part<'a>>, AllocError>
    requires { AreModulesOf (world_view world.now) modules.now }
    ensures { IfOk result (λ v. AreParts (world_view world.now) (main_view modules.now.main)
        (codes_in modules.now) (map part_view v.items)) }
{
    let mut main = modules.main.part(alloc)?;
    let mut parts = adapter_parts(alloc, &modules.adapters)?;
    let linking = Linking {
        world,
        modules,
        rows: main_rows(&modules.main),
    };
    main.links = links_of(alloc, linking, &modules.main.code().imports)?;
    parts.insert(0, main)?;
    Ok(parts)
}

/// The parts of adapters and libraries.
fn adapter_parts<'a>(
    alloc: Global,
    adapters: &'a [AdapterModule<'a>],
) -> Result<Vec<Part<'a>>, AllocError>
    requires { All IsRead adapters.now }
    ensures { IfOk result (λ v. AreAdapterParts adapters.now (map part_view v.items)) }
{
    let mut parts = Vec::new(alloc);
    for adapter in adapters {
        let part = part_of(alloc, adapter)?;
        parts.push(part)?;
    }
    Ok(parts)
}

/// The part of an adapter or a library.
fn part_of<'a>(alloc: Global, adapter: &'a AdapterModule<'a>) -> Result<Part<'a>, AllocError>
    requires { IsRead adapter.now }
    ensures { IfOk result (λ p. IsPartOfModule adapter.now (part_view p)) }
{
    if adapter.is_library {
        library_part(
            alloc,
            adapter.name,
            adapter.bytes,
            &adapter.code,
            &adapter.rows,
        )
    } else {
        let always = always_of(alloc, adapter)?;
        adapter_part(alloc, adapter.name, adapter.bytes, &adapter.rows, &always)
    }
}

/// The exports that an adapter has to have whatever the main module imports, in the order in which they are required.
fn always_of<'a>(alloc: Global, adapter: &AdapterModule<'a>) -> Result<Vec<Export<'a>>, AllocError>
    requires { IsRead adapter.now }
    ensures { IfOk result (λ v. map export_value v.items
        ≡ always_of (module_record adapter.now.info.now) (module_value adapter.now.code)) }
{
    let mut always = Vec::new(alloc);
    for (name, _export) in adapter.info.exports.iter() {
        push_some(export_named(adapter, name), &mut always)?;
    }
    Ok(always)
}

/// The export of a module under a name.
fn export_named<'a>(module: &AdapterModule<'a>, name: &str) -> Option<Export<'a>>
    requires { IsRead module.now }
    ensures { option_map export_value result
        ≡ export_named (module_value module.now.code).exports name.now }
{
    module.exports.get(name).copied()
}

/// The links from the main module's imports to the exports of adapters that they are, in the order of the file.
fn links_of<'a>(
    alloc: Global,
    linking: Linking<'_, 'a>,
    imports: &[Import<'_>],
) -> Result<Vec<Link<'a>>, AllocError>
    requires { CanLink linking }
    ensures { let l = linking.entry in IfOk result (λ v. map link_view v.items
        ≡ links_of (world_view l.world.now) (codes_in l.modules.now)
        (counts_value l.rows.now.counts)
        (import_values imports.now)) }
{
    let items = import_items(alloc, imports)?;
    let mut links = Vec::new(alloc);
    for position in 0..imports.len() {
        let link = link_at(&linking, imports, &items, position);
        push_some(link, &mut links)?;
    }
    Ok(links)
}

/// The link from the main module's import at a position, if there is one.
fn link_at<'a>(
    linking: &Linking<'_, 'a>,
    imports: &[Import<'_>],
    items: &[PathItem],
    position: usize,
) -> Option<Link<'a>>
    requires linking { CanLink linking.now }
    requires items { AreImportItems (import_values imports.now) items.now }
    requires there { position < length imports.now }
    ensures { let l = linking.now in option_map link_view result
        ≡ link_at (world_view l.world.now) (codes_in l.modules.now) (counts_value l.rows.now.counts)
        (import_values imports.now) position }
{
    link_from(linking, &imports[position], items[position])
}

/// The link from an import of the main module to the export of an adapter that it is, if it is one.
fn link_from<'a>(linking: &Linking<'_, 'a>, import: &Import<'_>, item: PathItem) -> Option<Link<'a>>
    requires { CanLink linking.now }
    ensures { option_map link_view result ≡ link_with linking.now (import_value import.now) item }
{
    match recorded_at(&linking.world.info.imports, import.module, import.name) {
        Some(recorded) => match linked_by(linking, recorded) {
            Some(linked) => link_to(linking.rows, item, linked),
            None => None,
        },
        None => None,
    }
}

/// The link from an item of the main module to an item of an adapter.
fn link_to<'a>(rows: &ModuleRows, item: PathItem, linked: Linked<'a>) -> Option<Link<'a>>
    ensures { option_map link_view result
        ≡ link_from (as_number (counts_value rows.now.counts) item) (linked_view linked.entry) }
{
    match as_number(rows, item) {
        Some(number) => Some(Link {
            item: number,
            part: linked.part,
            linked: linked.item,
            export: linked.export,
        }),
        None => None,
    }
}

/// The export of an adapter that is recorded of an import, if it is one.
fn linked_by<'a>(linking: &Linking<'_, 'a>, recorded: &'a Recorded) -> Option<Linked<'a>>
    requires { CanLink linking.now }
    ensures { option_map linked_view result ≡ linked_by (world_view linking.now.world.now)
        (codes_in linking.now.modules.now) (import_view recorded.now) }
{
    match recorded {
        Recorded::AdapterExport { adapter, func, .. } => {
            match linking.world.adapters.get_index_of(adapter.as_str()) {
                Some(index) => linked_at(linking.modules, index, func),
                None => None,
            }
        }
        _ => None,
    }
}

/// The export of this name of the adapter at a position.
fn linked_at<'a>(modules: &'a Modules<'a>, index: usize, func: &'a str) -> Option<Linked<'a>>
    requires { All IsRead modules.now.adapters.items }
    ensures { option_map linked_view result ≡ linked_at (codes_in modules.now) func.now index }
{
    match modules.adapters.get(index) {
        Some(module) => match exported_number(module, func) {
            Some(item) => Some(Linked {
                part: index + 1,
                item,
                export: func,
            }),
            None => None,
        },
        None => None,
    }
}

/// The number of the item that a module exports under a name.
fn exported_number(module: &AdapterModule<'_>, name: &str) -> Option<usize>
    requires { IsRead module.now }
    ensures { result ≡ exported_number (module_value module.now.code) name.now }
{
    match export_named(module, name) {
        Some(export) => as_number(&module.rows, export_item(&export)),
        None => None,
    }
}

/// The number of the item of an import, if it is there.
pub(crate) fn number_named(
    rows: &ModuleRows,
    places: &ImportPlaces<'_>,
    import: TreeImport<'_>,
) -> Option<usize>
    ensures { (imports : List ImportValue) → ArePlaces imports places.now.entries → result
        ≡ number_named (counts_value rows.now.counts) imports import.entry.«module».now
        import.entry.name.now }
{
    match places.get(&(import.module, import.name)) {
        Some(item) => as_number(rows, *item),
        None => None,
    }
}

/// The number of an item, if it is there.
pub(crate) fn as_number(rows: &ModuleRows, item: PathItem) -> Option<usize>
    ensures { result ≡ as_number (counts_value rows.now.counts) item }
{
    if has_item(&rows.counts, item) {
        Some(number_of(&rows.counts, item))
    } else {
        None
    }
}

/// Appends what there is.
pub(crate) fn push_some<T: Drop>(found: Option<T>, list: &mut Vec<T>) -> Result<(), AllocError>
    ensures { OnOk result (list.new.items ≡ list.old.items ++ option_to_list found) }
{
    match found {
        Some(item) => Ok(list.push(item)?),
        None => Ok(()),
    }
}
