//! Which module must export which key of a world's exports, if a command doesn't say.
//!
//! It is the main module, if it has all functions of the key; otherwise the one adapter that has them.

ghost use Rattle.std.specs.Prelude.{◌≡◌, ◌≢◌, ◌<◌, ◌++◌, All, IfErr, IfOk, IsTrue, MatchOption, OnOk, codes, false, length, map, string_bytes, take};
ghost use Rattle.std.specs.List.{AllZip, flat_map};
ghost use Rattle.std.specs.Option.{option_map, option_to_list};
ghost use Rattle.wc_read.specs.Fault.{SpellsNothing};
ghost use Rattle.wc_read.specs.Modules.{SpellsModule};
ghost use Rattle.wc_selection.specs.Keys.{named_key};
ghost use Rattle.wc_maps.specs.Texts.{text_of};
ghost use Rattle.wcplan_inputs.specs.Arguments.{command_view};
ghost use Rattle.wc_options.specs.Listing.{listing_text, most_listed};
ghost use Rattle.wcplan_inputs.specs.SharedKeys.{AreNamesOf, AreSharedAmong, IsNamedFile, IsUnshared, IsUnsharedAmong, IsUnsharedKey, adapter_line, adapter_text, asked_key, exporters, has_all, has_key, is_open, is_shared, lack_line, lack_lines, lacks, named_pairs, shared_pairs};
ghost use Rattle.wcplan_inputs.specs.Private.SharedKeys.{adapter_view, asked_view, exported_scope, file_bytes, names_view, own_pair};

use crate::adapter_files::AdapterFile;
use crate::arguments::Command;
use crate::exporter_fault::ExporterFault;
use crate::exporters::{KeyFunctions, export_names};
use std::alloc::{AllocError, Global};
use wc_maps::{Map, Seed, Set};
use wc_options::name_listing;
use wc_resolve::{Resolve, WorldItem, WorldKey};
use wc_texts::quoted;

/// The most adapters for which the program says what they lack, and the most names in a listing.
const MOST: usize = 8;

/// The exports of a world, with the keys by which a command gives them.
#[derive(Clone, Copy)]
pub(crate) struct ExportedWorld<'r, 'k> {
    pub(crate) resolve: &'r Resolve,
    pub(crate) exports: &'r Map<WorldKey, WorldItem>,
    pub(crate) keys: &'k [(WorldKey, String)],
    /// Whether names of the older scheme are refused.
    pub(crate) rejects_legacy: bool,
}

/// An adapter by its name, with the names of its exports; `None` if it is no module.
#[derive(Drop)]
struct AdapterNames<'a, 'f> {
    name: &'a str,
    exports: Option<Set<&'f str>>,
}

/// The names of the exports of modules.
#[derive(Drop)]
struct ModuleNames<'a, 'm, 'f> {
    main: Set<&'m str>,
    adapters: Vec<AdapterNames<'a, 'f>>,
}

/// Whether a command leaves the keys to its modules: it has adapters, and gives the keys of none.
pub(crate) fn is_open(command: &Command<'_>) -> bool
    ensures { result ≡ is_open (command_view command.now) }
{
    command.exports.is_empty() && command.adapter_exports.is_empty() && !command.adapters.is_empty()
}

/// The keys for which the main module, with these bytes, lacks a function. Each is given with its text after the name
/// of the one adapter that has all its functions. If the bytes are no module, the list is empty. The sets that are
/// made hash under `seed`.
///
/// # Errors
///
/// - `NoExporter`, `SeveralExporters`: no adapter has all functions of such a key, or several have. The first such
///   key is named.
/// - `Memory`: an allocation failed.
pub(crate) fn shared_keys<'x>(
    alloc: Global,
    seed: Seed,
    world: ExportedWorld<'x, 'x>,
    main: &[u8],
    adapters: &[AdapterFile<'_>],
) -> Result<Vec<(String, String)>, ExporterFault>
    ensures shared { IfOk result (λ v. AreSharedAmong (exported_scope world.entry) main.now
        (map file_bytes adapters.now) (map named_key world.entry.keys.now)
        (map own_pair v.items)) }
    ensures fault { IfErr result (λ f. f ≢ ExporterFault.Memory → IsUnsharedAmong
        (exported_scope world.entry) main.now (map file_bytes adapters.now)
        (map named_key world.entry.keys.now) f) }
{
    match module_names(alloc, seed, main, adapters)? {
        Some(names) => shared_exports(alloc, world, &names),
        None => Ok(Vec::new(alloc)),
    }
}

/// The names of the exports of modules; `None` if the main module's bytes are no module. Their sets hash under
/// `seed`.
fn module_names<'a, 'm, 'f>(
    alloc: Global,
    seed: Seed,
    main: &'m [u8],
    adapters: &'f [AdapterFile<'a>],
) -> Result<Option<ModuleNames<'a, 'm, 'f>>, AllocError>
    ensures { IfOk result (λ r. MatchOption r (SpellsNothing SpellsModule main.now)
        (λ x. AreNamesOf main.now (map file_bytes adapters.now) (names_view x))) }
{
    let Some(main) = export_names(alloc, seed, main)? else {
        return Ok(None);
    };
    let adapters = adapter_names(alloc, seed, adapters)?;
    Ok(Some(ModuleNames { main, adapters }))
}

/// The names of the exports of adapters. Their sets hash under `seed`.
fn adapter_names<'a, 'f>(
    alloc: Global,
    seed: Seed,
    files: &'f [AdapterFile<'a>],
) -> Result<Vec<AdapterNames<'a, 'f>>, AllocError>
    ensures { IfOk result (λ v. AllZip IsNamedFile (map file_bytes files.now)
        (map adapter_view v.items)) }
{
    let mut names = Vec::new(alloc);
    for file in files {
        names.push(names_in(alloc, seed, file)?)?;
    }
    Ok(names)
}

/// The names of the exports of an adapter. Their set hashes under `seed`.
fn names_in<'a, 'f>(
    alloc: Global,
    seed: Seed,
    file: &'f AdapterFile<'a>,
) -> Result<AdapterNames<'a, 'f>, AllocError>
    ensures { IfOk result (λ a. IsNamedFile (file_bytes file.now) (adapter_view a)) }
{
    let exports = export_names(alloc, seed, file.wasm.as_slice())?;
    Ok(AdapterNames {
        name: file.name,
        exports,
    })
}

/// The keys for which the main module lacks a function, each with its text after the name of the one adapter that has
/// all its functions.
fn shared_exports<'x>(
    alloc: Global,
    world: ExportedWorld<'x, 'x>,
    names: &ModuleNames<'_, '_, '_>,
) -> Result<Vec<(String, String)>, ExporterFault>
    ensures pairs { IfOk result (λ v. map own_pair v.items
        ≡ flat_map (λ k. shared_pairs (names_view names.now)
        (asked_key (exported_scope world.entry) k))
        (map named_key world.entry.keys.now)) }
    ensures each { OnOk result (All (λ k. IsTrue (is_shared (names_view names.now)
        (asked_key (exported_scope world.entry) k))) (map named_key world.entry.keys.now)) }
    ensures fault { IfErr result (λ f. f ≢ ExporterFault.Memory → IsUnshared
        (exported_scope world.entry) (names_view names.now)
        (map named_key world.entry.keys.now) f) }
{
    let mut pairs = Vec::new(alloc);
    for key in world.keys {
        push_shared(alloc, world, names, key, &mut pairs)?;
    }
    Ok(pairs)
}

/// Adds a key that an adapter must export, with its text after the adapter's name.
fn push_shared<'x>(
    alloc: Global,
    world: ExportedWorld<'x, 'x>,
    names: &ModuleNames<'_, '_, '_>,
    key: &'x (WorldKey, String),
    pairs: &mut Vec<(String, String)>,
) -> Result<(), ExporterFault>
    ensures pairs { OnOk result (map own_pair pairs.new.items ≡ map own_pair pairs.old.items
        ++ shared_pairs (names_view names.now)
        (asked_key (exported_scope world.entry) (named_key key.now))) }
    ensures shared { OnOk result (IsTrue (is_shared (names_view names.now)
        (asked_key (exported_scope world.entry) (named_key key.now)))) }
    ensures fault { IfErr result (IsUnsharedKey (names_view names.now)
        (asked_key (exported_scope world.entry) (named_key key.now))) }
{
    let asked = asked_key(alloc, world, key)?;
    push_pair(alloc, names, &asked, pairs)
}

/// Adds a key with its functions, with its text after the name of the adapter that must export it, if an adapter
/// must.
fn push_pair(
    alloc: Global,
    names: &ModuleNames<'_, '_, '_>,
    asked: &AskedKey<'_>,
    pairs: &mut Vec<(String, String)>,
) -> Result<(), ExporterFault>
    ensures pairs { OnOk result (map own_pair pairs.new.items ≡ map own_pair pairs.old.items
        ++ shared_pairs (names_view names.now) (asked_view asked.now)) }
    ensures shared { OnOk result
        (IsTrue (is_shared (names_view names.now) (asked_view asked.now))) }
    ensures fault { IfErr result (IsUnsharedKey (names_view names.now) (asked_view asked.now)) }
{
    if let Some(name) = exporter_of(alloc, names, asked)? {
        pairs.push(copied_pair(alloc, name, asked.text)?)?;
    }
    Ok(())
}

/// The copies of two texts.
fn copied_pair(alloc: Global, name: &str, text: &str) -> Result<(String, String), AllocError>
    ensures { IfOk result (λ p. own_pair p ≡ (name.now, text.now)) }
{
    let name = String::from_str(alloc, name)?;
    let text = String::from_str(alloc, text)?;
    Ok((name, text))
}

/// A key, with its functions.
#[derive(Drop)]
struct AskedKey<'k> {
    text: &'k str,
    functions: KeyFunctions<'k>,
    /// Whether names of the older scheme are refused.
    rejects_legacy: bool,
}

/// A key of a world's exports, with its functions.
fn asked_key<'x>(
    alloc: Global,
    world: ExportedWorld<'x, 'x>,
    key: &'x (WorldKey, String),
) -> Result<AskedKey<'x>, AllocError>
    ensures { IfOk result (λ q. asked_view q
        ≡ asked_key (exported_scope world.entry) (named_key key.now)) }
{
    let functions = KeyFunctions::new(alloc, world.resolve, world.exports, key)?;
    Ok(AskedKey {
        text: key.1.as_str(),
        functions,
        rejects_legacy: world.rejects_legacy,
    })
}

/// The adapter that must export a key; `None` if the main module must.
fn exporter_of<'a>(
    alloc: Global,
    names: &ModuleNames<'a, '_, '_>,
    asked: &AskedKey<'_>,
) -> Result<Option<&'a str>, ExporterFault>
    ensures pairs { IfOk result (λ r. option_to_list
        (option_map (λ name. (name.now, (asked_view asked.now).text)) r)
        ≡ shared_pairs (names_view names.now) (asked_view asked.now)) }
    ensures shared { OnOk result
        (IsTrue (is_shared (names_view names.now) (asked_view asked.now))) }
    ensures fault { IfErr result (IsUnsharedKey (names_view names.now) (asked_view asked.now)) }
{
    if has_all(alloc, asked, &names.main)? {
        return Ok(None);
    }
    only_exporter(alloc, names, asked)
}

/// The one adapter that has all functions of a key, which the main module has not.
fn only_exporter<'a>(
    alloc: Global,
    names: &ModuleNames<'a, '_, '_>,
    asked: &AskedKey<'_>,
) -> Result<Option<&'a str>, ExporterFault>
    requires { has_all (asked_view asked.now) (names_view names.now).main ≡ false }
    ensures pairs { IfOk result (λ r. option_to_list
        (option_map (λ name. (name.now, (asked_view asked.now).text)) r)
        ≡ named_pairs (asked_view asked.now).text
        (exporters (asked_view asked.now) (names_view names.now).adapters)) }
    ensures one { OnOk result
        (length (exporters (asked_view asked.now) (names_view names.now).adapters) ≡ 1) }
    ensures fault { IfErr result (IsUnsharedKey (names_view names.now) (asked_view asked.now)) }
{
    let found = exporters(alloc, &names.adapters, asked)?;
    if found.len() != 1 {
        return Err(not_one_exporter(alloc, names, asked, &found));
    }
    Ok(Some(found[0]))
}

/// The fault of a key that the main module has not all functions of, where these adapters have.
fn not_one_exporter(
    alloc: Global,
    names: &ModuleNames<'_, '_, '_>,
    asked: &AskedKey<'_>,
    found: &[&str],
) -> ExporterFault
    requires main { has_all (asked_view asked.now) (names_view names.now).main ≡ false }
    requires found { map text_of found.now
        ≡ exporters (asked_view asked.now) (names_view names.now).adapters }
    requires several { length (exporters (asked_view asked.now) (names_view names.now).adapters)
        ≢ 1 }
    ensures { IsUnsharedKey (names_view names.now) (asked_view asked.now) result }
{
    if found.is_empty() {
        no_exporter(alloc, names, asked)
    } else {
        several_exporters(alloc, names, asked, found)
    }
}

/// The adapters that have all functions of a key, in order.
fn exporters<'a>(
    alloc: Global,
    adapters: &[AdapterNames<'a, '_>],
    asked: &AskedKey<'_>,
) -> Result<Vec<&'a str>, AllocError>
    ensures { IfOk result (λ v. map text_of v.items
        ≡ exporters (asked_view asked.now) (map adapter_view adapters.now)) }
{
    let mut found = Vec::new(alloc);
    for adapter in adapters {
        if has_key(alloc, asked, adapter)? {
            found.push(adapter.name)?;
        }
    }
    Ok(found)
}

/// Whether an adapter has all functions of a key.
#[tactic(auto, unfolding(crate::specs::SharedKeys::has_key))]
fn has_key(
    alloc: Global,
    asked: &AskedKey<'_>,
    adapter: &AdapterNames<'_, '_>,
) -> Result<bool, AllocError>
    ensures { IfOk result (λ has. has ≡ has_key (asked_view asked.now) (adapter_view adapter.now)) }
{
    match &adapter.exports {
        Some(names) => has_all(alloc, asked, names),
        None => Ok(false),
    }
}

/// Whether a module with exports of these names has all functions of a key.
fn has_all(alloc: Global, asked: &AskedKey<'_>, names: &Set<&str>) -> Result<bool, AllocError>
    ensures { IfOk result (λ has. has
        ≡ has_all (asked_view asked.now) (map text_of names.now.keys)) }
{
    let lacking = asked.first_lacking(alloc, names)?;
    Ok(lacking.is_none())
}

/// The fault of a key that no module has all functions of.
fn no_exporter(
    alloc: Global,
    names: &ModuleNames<'_, '_, '_>,
    asked: &AskedKey<'_>,
) -> ExporterFault
    requires main { has_all (asked_view asked.now) (names_view names.now).main ≡ false }
    requires adapters { length (exporters (asked_view asked.now) (names_view names.now).adapters)
        ≡ 0 }
    ensures { IsUnsharedKey (names_view names.now) (asked_view asked.now) result }
{
    match no_exporter_texts(alloc, names, asked) {
        Ok((key, lines)) => ExporterFault::NoExporter(key, lines),
        Err(AllocError) => ExporterFault::Memory,
    }
}

/// A key, and the lines of what each module lacks of it.
fn no_exporter_texts(
    alloc: Global,
    names: &ModuleNames<'_, '_, '_>,
    asked: &AskedKey<'_>,
) -> Result<(String, String), AllocError>
    ensures key { IfOk result (λ t. string_bytes t.0 ≡ (asked_view asked.now).text) }
    ensures lines { IfOk result (λ t. string_bytes t.1
        ≡ lack_lines (names_view names.now) (asked_view asked.now)) }
{
    let key = String::from_str(alloc, asked.text)?;
    let lines = lack_lines(alloc, names, asked)?;
    Ok((key, lines))
}

/// The lines of the functions of a key that the main module and the first adapters lack.
fn lack_lines(
    alloc: Global,
    names: &ModuleNames<'_, '_, '_>,
    asked: &AskedKey<'_>,
) -> Result<String, AllocError>
    ensures { IfOk result (λ text. string_bytes text
        ≡ lack_lines (names_view names.now) (asked_view asked.now)) }
{
    let main = lack_line(alloc, "main", asked.first_lacking(alloc, &names.main)?)?;
    let adapters = adapter_lines(alloc, first_of(&names.adapters), asked)?;
    format!(in alloc; "{main}{adapters}")
}

/// The fault of a key that several adapters have all functions of.
fn several_exporters(
    alloc: Global,
    names: &ModuleNames<'_, '_, '_>,
    asked: &AskedKey<'_>,
    found: &[&str],
) -> ExporterFault
    requires main { has_all (asked_view asked.now) (names_view names.now).main ≡ false }
    requires found { map text_of found.now
        ≡ exporters (asked_view asked.now) (names_view names.now).adapters }
    requires several { 1
        < length (exporters (asked_view asked.now) (names_view names.now).adapters) }
    ensures { IsUnsharedKey (names_view names.now) (asked_view asked.now) result }
{
    match several_texts(alloc, asked, found) {
        Ok((key, listing)) => ExporterFault::SeveralExporters(key, listing),
        Err(AllocError) => ExporterFault::Memory,
    }
}

/// A key, and the adapters that have it.
fn several_texts(
    alloc: Global,
    asked: &AskedKey<'_>,
    found: &[&str],
) -> Result<(String, String), AllocError>
    ensures key { IfOk result (λ t. string_bytes t.0 ≡ (asked_view asked.now).text) }
    ensures listing { IfOk result (λ t. string_bytes t.1
        ≡ listing_text (map text_of found.now)) }
{
    let key = String::from_str(alloc, asked.text)?;
    let listing = name_listing(alloc, found)?;
    Ok((key, listing))
}

/// The first adapters, as many as are listed.
fn first_of<'s, 'a, 'm>(adapters: &'s [AdapterNames<'a, 'm>]) -> &'s [AdapterNames<'a, 'm>]
    ensures { result.now ≡ take most_listed adapters.now }
{
    if adapters.len() > MOST {
        &adapters[..MOST]
    } else {
        adapters
    }
}

/// The lines of what adapters lack of a key.
fn adapter_lines(
    alloc: Global,
    adapters: &[AdapterNames<'_, '_>],
    asked: &AskedKey<'_>,
) -> Result<String, AllocError>
    ensures { IfOk result (λ text. string_bytes text
        ≡ flat_map (adapter_line (asked_view asked.now)) (map adapter_view adapters.now)) }
{
    let mut text = String::new(alloc);
    for adapter in adapters {
        let line = adapter_line(alloc, asked, adapter)?;
        text.push_str(&line)?;
    }
    Ok(text)
}

/// The line of what an adapter lacks of a key.
fn adapter_line(
    alloc: Global,
    asked: &AskedKey<'_>,
    adapter: &AdapterNames<'_, '_>,
) -> Result<String, AllocError>
    ensures { IfOk result (λ text. string_bytes text
        ≡ adapter_line (asked_view asked.now) (adapter_view adapter.now)) }
{
    match &adapter.exports {
        Some(names) => lacking_line(alloc, adapter.name, asked.first_lacking(alloc, names)?),
        None => no_module_line(alloc, adapter.name),
    }
}

/// The line of a function that the adapter with this name lacks; empty if it lacks none.
fn lacking_line(alloc: Global, name: &str, function: Option<&str>) -> Result<String, AllocError>
    ensures { IfOk result (λ text. string_bytes text
        ≡ lack_line (adapter_text name.now) (option_map text_of function.entry)) }
{
    let importer = adapter_text(alloc, name)?;
    lack_line(alloc, &importer, function)
}

/// The line of the adapter of this name, which is no module.
fn no_module_line(alloc: Global, name: &str) -> Result<String, AllocError>
    ensures { IfOk result (λ text. string_bytes text
        ≡ codes "\n  " ++ (adapter_text name.now ++ codes " is no core module")) }
{
    let importer = adapter_text(alloc, name)?;
    format!(in alloc; "\n  {importer} is no core module")
}

/// An adapter of this name.
fn adapter_text(alloc: Global, name: &str) -> Result<String, AllocError>
    ensures { IfOk result (λ text. string_bytes text ≡ adapter_text name.now) }
{
    let name = quoted(alloc, name)?;
    format!(in alloc; "adapter {name}")
}

/// The line of a function that a module lacks; empty if it lacks none.
fn lack_line(alloc: Global, exporter: &str, function: Option<&str>) -> Result<String, AllocError>
    ensures { IfOk result (λ text. string_bytes text
        ≡ lack_line exporter.now (option_map text_of function.entry)) }
{
    match function {
        Some(function) => {
            let function = quoted(alloc, function)?;
            format!(in alloc; "\n  {exporter} lacks {function}")
        }
        None => Ok(String::new(alloc)),
    }
}

impl<'k> AskedKey<'k> {
    /// The first function of the key that a module with exports of these names lacks.
    fn first_lacking(&self, alloc: Global, names: &Set<&str>) -> Result<Option<&'k str>, AllocError>
        ensures { IfOk result (λ r. option_map text_of r
            ≡ lacks (asked_view self.now) (map text_of names.now.keys)) }
    {
        self.functions
            .first_lacking(alloc, names, self.rejects_legacy)
    }
}
