//! The interfaces that a component imports for their types alone, each with what needs these.

ghost use Rattle.std.specs.Prelude.{◌≡◌, IfOk, OnOk, Some};
ghost use Rattle.std.specs.Option.{option_map, option_to_list};
ghost use Rattle.semver.specs.Identifiers.{parts_text};
ghost use Rattle.wc_why.specs.Texts.{text_of};
ghost use Rattle.wc_why.specs.Tree.{tree_import_view};
ghost use Rattle.wc_import_paths.specs.MainModules.{main_view};
ghost use Rattle.wc_resolve.specs.Resolve.{key_text};
ghost use Rattle.wc_resolve.specs.Views.{key_view};
ghost use Rattle.wc_world.specs.WorldViews.{adapter_view, world_view};
ghost use Rattle.wc_ways.specs.Typed.{adapter_target, end_at, end_for, end_in, end_of_root, item_end, main_target, target_by, target_in, target_of, type_target, typed_if, typed_in};
ghost use Rattle.wc_ways.specs.Private.AskedKeys.{imported_shown};
ghost use Rattle.wc_ways.specs.Private.Found.{Finds};
ghost use Rattle.wc_ways.specs.Private.Modules.{AreModulesOf, code_in, codes_in};
ghost use Rattle.wc_ways.specs.Private.Needs.{AreNeededIn, root_view};
ghost use Rattle.wc_ways.specs.Private.TypedFound.{AreAllRead, IsPlaced, end_view};

use crate::asked::key_text;
use crate::modules::{AdapterModule, Modules, main_rows};
use crate::needs::{NeededTypes, TypeRoot, WorldSide};
use crate::parts::number_named;
use crate::type_roots::needed_types;
use crate::types::{cite_of, typed_name};
use crate::wanted::{Wanted, What};
use std::alloc::{AllocError, Global};
use wc_resolve::WorldKey;
use wc_why::{Target, TreeImport};
use wc_world::{ComponentWorld, ImportedInterface, WorldAdapter};

/// An interface that is imported for its types alone, and what needs the one of them that is live first.
#[derive(Drop)]
pub(crate) struct FoundTyped<'a> {
    pub(crate) interface: &'a str,
    /// The name of the type, if it has one.
    pub(crate) ty: Option<&'a str>,
    pub(crate) end: FoundEnd<'a>,
}

/// How interfaces that are imported for their types alone are found.
#[derive(Clone, Copy)]
struct Typing<'s, 'a> {
    world: &'a ComponentWorld<'a>,
    key: &'s str,
    needed: &'s NeededTypes<'a>,
    modules: &'s Modules<'a>,
}

/// The end of a path for types: what needs the type.
#[derive(Drop)]
pub(crate) enum FoundEnd<'a> {
    /// Nothing is known to need it.
    Nowhere,
    /// The world's own import or export of a name.
    World { side: WorldSide, name: String },
    /// An import of the main module.
    Main(TreeImport<'a>),
    /// An import of an adapter that was trimmed, by the position of the adapter among the modules.
    Adapter(usize, TreeImport<'a>),
    /// An import of a library.
    Library(usize, TreeImport<'a>),
}

/// Appends the interfaces that are asked about and imported for their types alone, in the world's order.
pub(crate) fn put_typed<'a>(
    alloc: Global,
    world: &'a ComponentWorld<'a>,
    key: &str,
    modules: &'a Modules<'a>,
    wanted: &mut Vec<Wanted<'a>>,
) -> Result<(), AllocError>
    requires { AreModulesOf (world_view world.now) modules.now }
    ensures { let m = modules.now in OnOk result (Finds wanted.old.items wanted.new.items
        (typed_in (world_view world.now) key.now (main_view m.main) (codes_in m))) }
{
    let found = needed_types(alloc, world)?;
    for (name, imported) in world.import_map.iter() {
        let typing = Typing {
            world,
            key,
            needed: &found.needed,
            modules,
        };
        put_if_typed(alloc, typing, (name, imported), wanted)?;
    }
    Ok(())
}

/// Appends an interface, if it is asked about and imported for its types alone.
fn put_if_typed<'a>(
    alloc: Global,
    typing: Typing<'_, 'a>,
    import: (&'a Option<String>, &'a ImportedInterface),
    wanted: &mut Vec<Wanted<'a>>,
) -> Result<(), AllocError>
    requires modules { AreModulesOf (world_view typing.world.now) typing.modules.now }
    requires needed { AreNeededIn (world_view typing.world.now) typing.needed.now }
    ensures { let t = typing.entry in let m = t.modules.now in OnOk result
        (Finds wanted.old.items wanted.new.items (option_to_list (typed_if (world_view t.world.now)
        t.key.now (main_view m.main) (codes_in m) (imported_shown import.entry)))) }
{
    let Some((interface, id)) = typed_name(typing.world, typing.key, import.0, import.1) else {
        return Ok(());
    };
    let cite = cite_of(typing.world, typing.needed, id);
    let end = end_of(alloc, typing.world, cite.root)?;
    let target = target_of(typing.modules, &end);
    let typed = FoundTyped {
        interface,
        ty: cite.name,
        end,
    };
    wanted.push(Wanted {
        what: What::Types(typed),
        target,
    })?;
    Ok(())
}

/// The item at which a path for types ends; one that isn't there, where it ends at none.
fn target_of(modules: &Modules<'_>, end: &FoundEnd<'_>) -> Target
    requires { AreAllRead modules.now }
    ensures { result ≡ target_of
        (main_view modules.now.main) (codes_in modules.now)
        (end_view end.now) }
{
    match found_target(modules, end) {
        Some(target) => target,
        None => type_target(usize::MAX, usize::MAX),
    }
}

/// The item at which a path for types ends, if it ends at one.
fn found_target(modules: &Modules<'_>, end: &FoundEnd<'_>) -> Option<Target>
    requires { AreAllRead modules.now }
    ensures { result ≡ target_by (main_view modules.now.main) (codes_in modules.now)
        (end_view end.now) }
{
    match end {
        FoundEnd::Main(import) => main_target(modules, *import),
        FoundEnd::Adapter(part, import) => adapter_target(modules, *part, *import),
        FoundEnd::Nowhere | FoundEnd::World { .. } | FoundEnd::Library(_, _) => None,
    }
}

/// An item at which a path for types ends: it isn't asked about.
fn type_target(part: usize, item: usize) -> Target
    ensures { result ≡ type_target part item }
{
    Target {
        part,
        item,
        is_asked: false,
    }
}

/// The item of an import of the main module.
fn main_target(modules: &Modules<'_>, import: TreeImport<'_>) -> Option<Target>
    requires { AreAllRead modules.now }
    ensures { result ≡ main_target
        (main_view modules.now.main) (tree_import_view import.entry) }
{
    match number_named(main_rows(&modules.main), &modules.places, import) {
        Some(item) => Some(type_target(0, item)),
        None => None,
    }
}

/// The item of an import of an adapter.
fn adapter_target(modules: &Modules<'_>, part: usize, import: TreeImport<'_>) -> Option<Target>
    requires { AreAllRead modules.now }
    ensures { result ≡ adapter_target
        (codes_in modules.now) part (tree_import_view import.entry) }
{
    if part == 0 {
        return None;
    }
    match modules.adapters.get(part - 1) {
        Some(adapter) => target_in(adapter, part, import),
        None => None,
    }
}

/// The item of an import of an adapter that is this part.
fn target_in(adapter: &AdapterModule<'_>, part: usize, import: TreeImport<'_>) -> Option<Target>
    requires { IsPlaced adapter.now }
    ensures { result ≡ target_in part (code_in adapter.now) (tree_import_view import.entry) }
{
    match number_named(&adapter.rows, &adapter.places, import) {
        Some(item) => Some(type_target(part, item)),
        None => None,
    }
}

/// The end of a path for types, by the first root that needs the type, if there is one.
fn end_of<'a>(
    alloc: Global,
    world: &'a ComponentWorld<'a>,
    root: Option<TypeRoot<'a>>,
) -> Result<FoundEnd<'a>, AllocError>
    ensures { IfOk result (λ e. end_view e
        ≡ end_for (world_view world.now) (option_map root_view root.entry)) }
{
    match root {
        Some(root) => end_of_root(alloc, world, root),
        None => Ok(FoundEnd::Nowhere),
    }
}

/// The end of a path to a root of live types.
fn end_of_root<'a>(
    alloc: Global,
    world: &'a ComponentWorld<'a>,
    root: TypeRoot<'a>,
) -> Result<FoundEnd<'a>, AllocError>
    ensures { IfOk result (λ e. end_view e
        ≡ end_of_root (world_view world.now) (root_view root.entry)) }
{
    match root {
        TypeRoot::Import {
            adapter,
            module,
            name,
        } => end_at_import(world, adapter, TreeImport { module, name }),
        TypeRoot::Item { side, key } => end_at_item(alloc, world, side, key),
    }
}

/// The world's own import or export under a key.
fn end_at_item<'a>(
    alloc: Global,
    world: &ComponentWorld<'_>,
    side: WorldSide,
    key: &WorldKey,
) -> Result<FoundEnd<'a>, AllocError>
    ensures { IfOk result (λ e. end_view e ≡ item_end side
        (key_text parts_text (world_view world.now).encoder.resolve (key_view key.now))) }
{
    let metadata = world.encoder.metadata();
    match key_text(alloc, &metadata.resolve, key)? {
        Some(name) => Ok(FoundEnd::World { side, name }),
        None => Ok(FoundEnd::Nowhere),
    }
}

/// An import of an adapter, or of the main module where none is named.
fn end_at_import<'a>(
    world: &ComponentWorld<'_>,
    adapter: Option<&str>,
    import: TreeImport<'a>,
) -> Result<FoundEnd<'a>, AllocError>
    ensures { IfOk result (λ e. end_view e ≡ end_at (world_view world.now)
        (option_map text_of adapter.entry) (tree_import_view import.entry)) }
{
    match adapter {
        Some(name) => end_in_adapter(world, name, import),
        None => Ok(FoundEnd::Main(import)),
    }
}

/// An import of the adapter of a name.
fn end_in_adapter<'a>(
    world: &ComponentWorld<'_>,
    name: &str,
    import: TreeImport<'a>,
) -> Result<FoundEnd<'a>, AllocError>
    ensures { IfOk result (λ e. end_view e ≡ end_at (world_view world.now)
        (Some name.now) (tree_import_view import.entry)) }
{
    match world.adapters.get_full(name) {
        Some((index, _name, adapter)) => {
            // It is below their number.
            if index < world.adapters.len() {
                Ok(end_in(adapter, index + 1, import))
            } else {
                Err(AllocError)
            }
        }
        None => Ok(FoundEnd::Nowhere),
    }
}

/// An import of an adapter, or of a library, at a position among the modules.
fn end_in<'a>(adapter: &WorldAdapter<'_>, place: usize, import: TreeImport<'a>) -> FoundEnd<'a>
    ensures { end_view result ≡ end_in (adapter_view adapter.now).library_info place
        (tree_import_view import.entry) }
{
    match adapter.library_info {
        Some(_) => FoundEnd::Library(place, import),
        None => FoundEnd::Adapter(place, import),
    }
}
