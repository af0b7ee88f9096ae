//! The paths to the functions that a component imports.

ghost use Rattle.std.specs.Prelude.{◌≡◌, IfErr, IfOk, map, string_bytes};
ghost use Rattle.std.specs.List.{list_any};
ghost use Rattle.wc_adapters.specs.Entries.{entries_of};
ghost use Rattle.wc_why.specs.Tree.{tree_view, tree_way_view};
ghost use Rattle.wc_resolve.specs.Views.{item_view, key_view};
ghost use Rattle.wc_world.specs.Nameable.{AreNameable};
ghost use Rattle.wc_world.specs.WorldViews.{world_view};
ghost use Rattle.wc_ways.specs.Ways.{IsWaysText, is_asked_type, is_own_type, none_text, ways_text};
ghost use Rattle.wc_ways.specs.WaysFaults.{IsWaysFault};
ghost use Rattle.wc_ways.specs.WaysTree.{IsWaysGraph, IsWaysJson};
ghost use Rattle.wc_ways.specs.Private.Modules.{AreModulesOf};

use crate::modules::Modules;
use crate::tree::{shown_in, tree_of};
use crate::type_roots::imports_of;
use std::alloc::{AllocError, Global};
use wc_gc::GcFault;
use wc_maps::Map;
use wc_resolve::{WorldItem, WorldKey};
use wc_texts::escaped;
use wc_why::{Tree, asks_about};
use wc_why_text::{push_lines, tree_to_graph, tree_to_json};
use wc_world::ComponentWorld;

/// The paths to what the modules of a component import of what its world imports, as lines (`wc_why_text::push_lines`): of what `key`
/// asks about (`asks_about`): an interface, a package, or a function or a type of the world itself; of all where it is `all`; or of
/// all that is the world's own where it is `$root`. A key without a version asks about each version.
///
/// The imports of the main module come first, and then the imports of each adapter, in order: functions, drops of resources,
/// and built-ins for a future or a stream of a function that is imported. Built-ins for exports, and what modules of a
/// component share, are none. Each has a line `INTERFACE NAME`, and then a line for each step of the path to it,
/// after two blanks. INTERFACE is `$root` for what is the world's own; NAME is the name of the function, and of another
/// import the name that it has in its module. An interface that the world imports under several keys is shown under each of them.
///
/// The modules are one graph (`wc_why::tree_of_parts`): the item of an import of the main module that is recorded as an export
/// of an adapter also names what the adapter exports. A path is a shortest one from the first list of roots that leads to the import:
///
/// - the exports that adapters have to have whatever the main module imports;
/// - the main module's exports and its start function;
/// - its active segments;
/// - its imports to which nothing leads, and the imports of libraries.
///
/// Where `key` is `all` no line is marked.
///
/// After these there is a line `INTERFACE: only its types are used` for each interface of which no function is lowered and no resource
/// dropped, but types are live, in the world's order. Under it is the path to the first root that needs such a type, of those
/// of the live types in their order: an import of a module; `world imports NAME` for a type that the world itself imports, and
/// `world exports NAME` for an export of it. The last line is `type NAME`: the type of INTERFACE that is live first.
///
/// Where nothing is imported that is asked about, there is one line: `KEY: imported by the world itself` for a type that the world
/// imports, or `KEY: in the world but not imported`. Texts from outside are escaped (`wc_texts::escaped`), and a blank in them is
/// `\u{20}`; in the line of a key it stays.
///
/// It takes time and memory linear in the modules, in the types and in the text; and also time linear in the types to which it refers
/// for each exported interface.
///
/// # Errors
///
/// - `Memory`: an allocation failed.
/// - Others: an adapter, as the encoder has it, has this fault of `wc_gc::why_imports`. An adapter that was trimmed has
///   none, and those of a component's world were.
pub fn ways_text(alloc: Global, world: &ComponentWorld<'_>, key: &str) -> Result<String, GcFault>
    requires { AreNameable (world_view world.now) }
    ensures text { IfOk result (λ s. IsWaysText (world_view world.now) key.now
        (string_bytes s)) }
    ensures fault { IfErr result (IsWaysFault (world_view world.now)) }
{
    let modules = Modules::read(alloc, world)?;
    Ok(text_in(alloc, world, key, &modules)?)
}

/// The paths of `ways_text` as a tree, which has each item of a module once, as JSON in one line (`wc_why_text::tree_to_json`). Its
/// modules are the main module and then each adapter and library, in order.
///
/// A path for types alone ends at the thing that needs them: an import of the main module or of an adapter; an import
/// of a library, to which no item leads; or an item that the world itself imports or exports. If nothing is known to
/// need them, it ends nowhere.
///
/// Where nothing is imported that is asked about, there are no items and no paths. Texts are escaped by the rules of JSON alone.
///
/// It takes time and memory linear in the modules and in the types, however long the paths are. For each exported
/// interface it also takes time linear in the types to which it refers.
///
/// # Errors
///
/// Those of `ways_text`.
pub fn ways_json(alloc: Global, world: &ComponentWorld<'_>, key: &str) -> Result<Vec<u8>, GcFault>
    requires { AreNameable (world_view world.now) }
    ensures json { IfOk result (λ v. IsWaysJson (world_view world.now) key.now v.items) }
    ensures fault { IfErr result (IsWaysFault (world_view world.now)) }
{
    let modules = Modules::read(alloc, world)?;
    Ok(json_in(alloc, world, key, &modules)?)
}

/// The tree of `ways_json` as a graph, in the language of Graphviz (`wc_why_text::tree_to_graph`). Each module is a cluster
/// with a box for each run of items, and each interface is a box. The line of a marked item begins with `* `.
///
/// It takes time and memory linear in the modules and in the types, however long the paths are. For each exported
/// interface it also takes time linear in the types to which it refers.
///
/// # Errors
///
/// Those of `ways_text`.
pub fn ways_graph(alloc: Global, world: &ComponentWorld<'_>, key: &str) -> Result<String, GcFault>
    requires { AreNameable (world_view world.now) }
    ensures graph { IfOk result (λ s. IsWaysGraph (world_view world.now) key.now
        (string_bytes s)) }
    ensures fault { IfErr result (IsWaysFault (world_view world.now)) }
{
    let modules = Modules::read(alloc, world)?;
    Ok(graph_in(alloc, world, key, &modules)?)
}

/// The lines of `ways_text`, by the modules of the component.
fn text_in(
    alloc: Global,
    world: &ComponentWorld<'_>,
    key: &str,
    modules: &Modules<'_>,
) -> Result<String, AllocError>
    requires { AreModulesOf (world_view world.now) modules.now }
    ensures { IfOk result (λ s. IsWaysText (world_view world.now) key.now (string_bytes s)) }
{
    let shown = shown_in(alloc, world, key, modules)?;
    let tree = tree_of(alloc, &shown)?;
    text_of(alloc, world, key, &tree)
}

/// The JSON of `ways_json`, by the modules of the component.
fn json_in(
    alloc: Global,
    world: &ComponentWorld<'_>,
    key: &str,
    modules: &Modules<'_>,
) -> Result<Vec<u8>, AllocError>
    requires { AreModulesOf (world_view world.now) modules.now }
    ensures { IfOk result (λ v. IsWaysJson (world_view world.now) key.now v.items) }
{
    let shown = shown_in(alloc, world, key, modules)?;
    let tree = tree_of(alloc, &shown)?;
    tree_to_json(alloc, &tree)
}

/// The graph of `ways_graph`, by the modules of the component.
fn graph_in(
    alloc: Global,
    world: &ComponentWorld<'_>,
    key: &str,
    modules: &Modules<'_>,
) -> Result<String, AllocError>
    requires { AreModulesOf (world_view world.now) modules.now }
    ensures { IfOk result (λ s. IsWaysGraph (world_view world.now) key.now (string_bytes s)) }
{
    let shown = shown_in(alloc, world, key, modules)?;
    let tree = tree_of(alloc, &shown)?;
    tree_to_graph(alloc, *world.adapters.hasher(), &tree)
}

/// The lines of a tree; or the line that it has no paths.
fn text_of(
    alloc: Global,
    world: &ComponentWorld<'_>,
    key: &str,
    tree: &Tree<'_>,
) -> Result<String, AllocError>
    ensures { IfOk result (λ s. string_bytes s ≡ ways_text (world_view world.now) key.now
        (tree_view tree.now) (map tree_way_view tree.now.ways.items)) }
{
    if tree.ways.is_empty() {
        return none_text(alloc, world, key);
    }
    let mut text = String::new(alloc);
    push_lines(alloc, *world.adapters.hasher(), true, tree, &mut text)?;
    Ok(text)
}

/// The line that there are no paths.
fn none_text(alloc: Global, world: &ComponentWorld<'_>, key: &str) -> Result<String, AllocError>
    ensures { IfOk result (λ s. string_bytes s ≡ none_text (world_view world.now) key.now) }
{
    let shown = escaped(alloc, key)?;
    if is_own_type(imports_of(world.encoder), key) {
        format!(in alloc; "{shown}: imported by the world itself\n")
    } else {
        format!(in alloc; "{shown}: in the world but not imported\n")
    }
}

/// Whether a type is asked about that the world itself imports.
fn is_own_type(imports: &Map<WorldKey, WorldItem>, key: &str) -> bool
    ensures { result ≡ list_any (is_asked_type key.now) (entries_of imports.now) }
{
    for (name, item) in imports.iter() {
        if is_asked_type(key, name, item) {
            return true;
        }
    }
    false
}

/// Whether an import of the world is a type that is asked about.
fn is_asked_type(key: &str, name: &WorldKey, item: &WorldItem) -> bool
    ensures { result ≡ is_asked_type key.now (key_view name.now, item_view item.now) }
{
    match (name, item) {
        (WorldKey::Name(name), WorldItem::TypeItem { .. }) => asks_about(key, name),
        _ => false,
    }
}
