//! The imports of a component's modules, by interfaces.

ghost use Rattle.std.specs.Prelude.{◌≡◌, ℕ, IfErr, IfOk, List, OnOk, false, length, map, string_bytes, true};
ghost use Rattle.wc_maps.specs.Texts.{HasTexts, is_in};
ghost use Rattle.wc_read.specs.Imports.{import_value, import_values};
ghost use Rattle.wc_read.specs.Names.{name_entries};
ghost use Rattle.wc_summary.specs.Entries.{entries_view};
ghost use Rattle.wc_summary.specs.Leads.{tag_view, tags_view};
ghost use Rattle.wc_summary.specs.Summary.{entry_view};
ghost use Rattle.wc_why.specs.Texts.{text_of};
ghost use Rattle.wc_module_ways.specs.AdapterNames.{HasNames};
ghost use Rattle.wc_module_ways.specs.Adapters.{Given, IsRead, adapter_view};
ghost use Rattle.wc_module_ways.specs.Imports.{AreEntries, AreMainNames, IsImportsJsonIn, IsImportsTextIn, main_tags};
ghost use Rattle.wc_import_paths.specs.MainModules.{bytes_in, code_of, main_view};
ghost use Rattle.wc_module_ways.specs.Modules.{AreView, HasModules, ModulesView, is_of_main};
ghost use Rattle.wc_module_ways.specs.Refusals.{IsThisRefusal, IsWaysRefusal};
ghost use Rattle.wc_module_ways.specs.Tags.{tag_if};
ghost use Rattle.wc_module_ways.specs.Private.Imports.{AreChainsOf, AreWanted, NotesAdaptersOf, NotesFor, NotesMainOf, NotesWanted, tag_at, tags_at};

use crate::adapter::AdapterModule;
use crate::adapters::names_at;
use crate::core_imports::note_core;
use crate::modules::Modules;
use crate::name_lists::NameLists;
use crate::refusals::{ModulesRefusal, of_adapter};
use crate::shared::{is_of_adapter, is_of_main};
use std::alloc::{AllocError, Global};
use wc_gc::{ImportChains, why_imports_explained};
use wc_import_paths::MainModule;
use wc_maps::{Map, OrderedMap, Seed, Set, is_in_set, text_set};
use wc_read::laws::modules_unique;
use wc_read::{Import, function_names};
use wc_summary::{
    AdapterImports, Entries, Required, json_of, lines_of, note_adapter_module, note_main_module,
    sort_entries,
};

/// The imports of modules by interface, as lines. Each interface has a line, `INTERFACE: ` and then its parts with `; `
/// between them. INTERFACE is the name of the module that the imports are from. The parts are
///
/// - `N imports of main by func I NAME, ..`: the number of the main module's imports from the interface, and the
///   functions that name one of them and that an export, the start function or an active segment reaches. At most three
///   functions are listed, and then `and N more`;
/// - `N imports of adapter ADAPTER, B bytes with EXPORT ..`: the number of an adapter's imports from the interface, the
///   required exports that lead to one of them, and the bytes of the bodies that are live for these exports alone. If
///   the main module imports none of these exports, the adapter's imports from the interface go, and these bytes too;
/// - `N imports of adapter ADAPTER, stays for EXPORT ..`, if exports lead to them that are required whatever the main
///   module imports: these exports.
///
/// The imports are `Modules::imports`. First come the interfaces from which the main module itself imports, then the
/// interfaces that go with exports of adapters, and last the interfaces that stay. In each group the interfaces with
/// which more bytes go come first; otherwise the order is the order of the imports. An interface that is used for its
/// types alone is not known here.
///
/// It takes time linear in the modules for each 64 interfaces and each 64 required exports (`wc_graph::spread`), and
/// time linear in the text.
///
/// # Errors
///
/// Those of `tree_of_modules`.
pub fn imports_text<'r>(alloc: Global, modules: &Modules<'r>) -> Result<String, ModulesRefusal<'r>>
    requires { HasModules modules.now }
    ensures text { IfOk result (λ s. IsImportsTextIn modules.now (string_bytes s)) }
    ensures refused { IfErr result
        (IsWaysRefusal (map adapter_view modules.now.adapters.items)) }
{
    let entries = entries_of(alloc, modules)?;
    let names = main_names(alloc, &modules.main)?;
    Ok(lines_of(alloc, &names, &entries)?)
}

/// The imports of modules by interface, as JSON in one line: an object whose member `imports` is a list of objects, in
/// the order of `imports_text`, as `wc_summary::json_of` writes them. `interface` is the name of the module that the
/// imports are from.
///
/// # Errors
///
/// Those of `tree_of_modules`.
pub fn imports_json<'r>(alloc: Global, modules: &Modules<'r>) -> Result<Vec<u8>, ModulesRefusal<'r>>
    requires { HasModules modules.now }
    ensures json { IfOk result (λ v. IsImportsJsonIn modules.now v.items) }
    ensures refused { IfErr result
        (IsWaysRefusal (map adapter_view modules.now.adapters.items)) }
{
    let entries = entries_of(alloc, modules)?;
    let names = main_names(alloc, &modules.main)?;
    Ok(json_of(alloc, &names, &entries)?)
}

/// The names of the functions of a main module; none, where it can't be followed.
fn main_names<'r>(
    alloc: Global,
    main: &MainModule<'r>,
) -> Result<OrderedMap<u32, &'r str>, AllocError>
    ensures { IfOk result (λ m. AreMainNames (bytes_in main.now) (main_view main.now)
        (name_entries m)) }
{
    match main {
        MainModule::Whole(followed) => match function_names(alloc, followed.bytes) {
            Ok(names) => Ok(names),
            // The bytes are those of a module: there is no fault but that memory runs out.
            Err(_) => Err(AllocError),
        },
        MainModule::Unread { .. } => Ok(OrderedMap::new(alloc)),
    }
}

/// The interfaces of which modules import something, with what, in the order in which they are listed.
fn entries_of<'r>(alloc: Global, modules: &Modules<'r>) -> Result<Entries<'r>, ModulesRefusal<'r>>
    requires { HasModules modules.now }
    ensures entries { (w : ModulesView) → AreView modules.now w
        → IfOk result (λ m. AreEntries w (map entry_view m.entries)) }
    ensures refused { IfErr result
        (IsWaysRefusal (map adapter_view modules.now.adapters.items)) }
{
    let mut entries = Map::with_hasher(alloc, *modules.names.hasher());
    note_main(alloc, modules, &mut entries)?;
    note_adapters(alloc, modules, &mut entries)?;
    note_core(alloc, modules, &mut entries)?;
    sort_entries(&mut entries)?;
    Ok(entries)
}

/// Notes what the main module imports.
fn note_main(
    alloc: Global,
    modules: &Modules<'_>,
    entries: &mut Entries<'_>,
) -> Result<(), AllocError>
    ensures { (given : List Given) → HasNames given modules.now.names.keys
        → OnOk result (NotesMainOf (main_view modules.now.main) given
        (entries_view entries.old.entries) (entries_view entries.new.entries)) }
{
    let code = modules.main.code();
    let tags = main_tags(alloc, &modules.names, &code.imports)?;
    note_main_module(alloc, code, modules.main.segments(), &tags, entries)
}

/// The interface of each of these imports of the main module, if it is from no adapter, of which these are the names.
fn main_tags(
    alloc: Global,
    names: &Set<&str>,
    imports: &[Import<'_>],
) -> Result<Vec<Option<String>>, AllocError>
    ensures sized { IfOk result (λ v. length v.items ≡ length imports.now) }
    ensures tags { (given : List Given) → HasNames given names.now.keys
        → IfOk result (λ v. tags_view v.items ≡ main_tags given (import_values imports.now)) }
{
    let mut tags = Vec::new(alloc);
    for import in imports {
        tags.push(main_tag(alloc, names, import)?)?;
    }
    Ok(tags)
}

/// The interface of an import of the main module, if it is from no adapter, of which these are the names.
fn main_tag(
    alloc: Global,
    names: &Set<&str>,
    import: &Import<'_>,
) -> Result<Option<String>, AllocError>
    ensures { (given : List Given) → HasNames given names.now.keys
        → IfOk result (λ t. tag_view t
        ≡ tag_if (is_of_main given (import_value import.now)) (import_value import.now)) }
{
    tag_if(alloc, is_of_main(names, import), import)
}

/// The interface of each of these imports of an adapter, if it stays and is from no module of the component.
/// `positions`: for each import the position of its item among the items that stay.
fn adapter_tags(
    alloc: Global,
    imports: &[Import<'_>],
    positions: &[Option<usize>],
) -> Result<Vec<Option<String>>, AllocError>
    requires { length positions.now ≡ length imports.now }
    ensures { IfOk result (λ v. tags_view v.items
        ≡ tags_at (import_values imports.now) positions.now) }
{
    let mut tags = Vec::new(alloc);
    for index in 0..imports.len() {
        tags.push(adapter_tag(alloc, &imports[index], positions[index])?)?;
    }
    Ok(tags)
}

/// The interface of an import of an adapter, if it stays, at this position, and is from no module of the component.
fn adapter_tag(
    alloc: Global,
    import: &Import<'_>,
    position: Option<usize>,
) -> Result<Option<String>, AllocError>
    ensures { IfOk result (λ t. tag_view t ≡ tag_at position (import_value import.now)) }
{
    match position {
        Some(_) => tag_if(alloc, is_of_adapter(import), import),
        None => Ok(None),
    }
}

/// The interface of an import, if it is one of those.
pub(crate) fn tag_if(
    alloc: Global,
    is_one: bool,
    import: &Import<'_>,
) -> Result<Option<String>, AllocError>
    ensures { IfOk result (λ t. tag_view t ≡ tag_if is_one (import_value import.now)) }
{
    if is_one {
        Ok(Some(String::from_str(alloc, import.module)?))
    } else {
        Ok(None)
    }
}

/// Notes what adapters import, in order.
fn note_adapters<'r>(
    alloc: Global,
    modules: &Modules<'r>,
    entries: &mut Entries<'r>,
) -> Result<(), ModulesRefusal<'r>>
    requires { HasModules modules.now }
    ensures notes { OnOk result (NotesAdaptersOf (code_of (main_view modules.now.main)).imports
        (map adapter_view modules.now.adapters.items)
        (entries_view entries.old.entries) (entries_view entries.new.entries)) }
    ensures refused { IfErr result
        (IsWaysRefusal (map adapter_view modules.now.adapters.items)) }
{
    for index in 0..modules.adapters.len() {
        note_adapter(alloc, &modules.functions, &modules.adapters[index], entries)?;
    }
    Ok(())
}

/// Notes what an adapter imports, by the functions that the main module imports.
fn note_adapter<'r>(
    alloc: Global,
    functions: &NameLists<'r>,
    adapter: &AdapterModule<'r>,
    entries: &mut Entries<'r>,
) -> Result<(), ModulesRefusal<'r>>
    requires { IsRead (adapter_view adapter.now) }
    ensures notes { OnOk result (NotesFor functions.now.entries (adapter_view adapter.now)
        (entries_view entries.old.entries) (entries_view entries.new.entries)) }
    ensures refused { IfErr result (IsThisRefusal (adapter_view adapter.now)) }
{
    modules_unique();
    match why_imports_explained(alloc, adapter.bytes, &adapter.required) {
        Ok(chains) => Ok(note_trimmed(alloc, functions, adapter, &chains, entries)?),
        Err(refused) => Err(of_adapter(adapter.name, adapter.bytes, refused)),
    }
}

/// Notes what an adapter imports that can be trimmed, and has these chains.
fn note_trimmed<'r>(
    alloc: Global,
    functions: &NameLists<'r>,
    adapter: &AdapterModule<'r>,
    chains: &ImportChains<'_>,
    entries: &mut Entries<'r>,
) -> Result<(), AllocError>
    requires { AreChainsOf (adapter_view adapter.now) chains.now }
    ensures { OnOk result (NotesFor functions.now.entries (adapter_view adapter.now)
        (entries_view entries.old.entries) (entries_view entries.new.entries)) }
{
    let tags = adapter_tags(alloc, &adapter.code.imports, &chains.imports)?;
    let imported = names_at(functions, adapter.name, &[]);
    let wanted = wanted_names(alloc, *adapter.required.hasher(), imported, &adapter.always)?;
    let imports = AdapterImports {
        name: adapter.name,
        code: &adapter.code,
        tags: &tags,
        required: Required {
            names: &adapter.required,
            wanted: &wanted,
        },
    };
    note_adapter_module(alloc, &imports, entries)
}

/// These names, but those that are always needed, as the keys of a map.
fn wanted_names(
    alloc: Global,
    seed: Seed,
    names: &[&str],
    always: &[&str],
) -> Result<Map<String, ()>, AllocError>
    ensures { IfOk result (λ m. AreWanted (map text_of always.now) (map text_of names.now)
        m.entries) }
{
    let set = text_set(alloc, seed, always)?;
    names_outside(alloc, names, &set)
}

/// These names, but those of a set, as the keys of a map.
fn names_outside(
    alloc: Global,
    names: &[&str],
    set: &Set<&str>,
) -> Result<Map<String, ()>, AllocError>
    ensures { (always : List (List ℕ)) → HasTexts always (map text_of set.now.keys)
        → IfOk result (λ m. AreWanted always (map text_of names.now) m.entries) }
{
    let mut wanted = Map::with_hasher(alloc, *set.hasher());
    for name in names {
        note_outside(alloc, name, set, &mut wanted)?;
    }
    Ok(wanted)
}

/// Notes a name, unless it is in a set.
fn note_outside(
    alloc: Global,
    name: &str,
    set: &Set<&str>,
    wanted: &mut Map<String, ()>,
) -> Result<(), AllocError>
    ensures in_set { is_in (map text_of set.now.keys) name.now ≡ true
        → OnOk result (wanted.new.entries ≡ wanted.old.entries) }
    ensures outside { is_in (map text_of set.now.keys) name.now ≡ false
        → OnOk result (NotesWanted name.now wanted.old.entries wanted.new.entries) }
{
    if is_in_set(set, name) {
        return Ok(());
    }
    note_wanted(alloc, name, wanted)
}

/// Notes a name, unless it is noted.
fn note_wanted(alloc: Global, name: &str, wanted: &mut Map<String, ()>) -> Result<(), AllocError>
    ensures { OnOk result (NotesWanted name.now wanted.old.entries wanted.new.entries) }
{
    if wanted.contains_key(name) {
        return Ok(());
    }
    wanted.insert(String::from_str(alloc, name)?, ())?;
    Ok(())
}
