//! The core modules of a component's file as its parts.

ghost use Rattle.std.specs.Prelude.{◌≡◌, ℕ, ◌∷◌, ◌++◌, [], All, IfOk, List, OnOk, cond, map, not};
ghost use Rattle.wc_maps.specs.Texts.{HasTexts};
ghost use Rattle.wc_texts.specs.Names.{first_occurrences};
ghost use Rattle.wc_read.specs.Exports.{ExportValue, export_value};
ghost use Rattle.wc_read.specs.Imports.{ImportValue};
ghost use Rattle.wc_why.specs.Part.{part_view};
ghost use Rattle.wc_why.specs.Texts.{text_of};
ghost use Rattle.wc_import_paths.specs.Followed.{HasPaths, followed_view};
ghost use Rattle.wc_module_ways.specs.CoreModules.{HasCore, core_view};
ghost use Rattle.wc_module_ways.specs.CoreParts.{IsFollowedCorePart, IsPartOfCore, linked_name, linked_names, unlinked};
ghost use Rattle.wc_module_ways.specs.NameLists.{AreListed};
ghost use Rattle.wc_module_ways.specs.Names.{function_pairs, names_under};
ghost use Rattle.wc_module_ways.specs.Private.CoreParts.{PutsCoreParts};

use crate::adapters::names_at;
use crate::core_module::{CoreModule, FollowedCore};
use crate::name_lists::NameLists;
use std::alloc::{AllocError, Global};
use wc_component_file::original_import_name;
use wc_import_paths::{core_part, library_part};
use wc_maps::{Set, is_in_set, text_set};
use wc_read::Export;
use wc_why::Part;

/// Appends the parts of core modules. `functions`: the functions that the main module imports.
pub(crate) fn push_core_parts<'a>(
    alloc: Global,
    functions: &NameLists<'_>,
    core: &'a [CoreModule<'_>],
    parts: &mut Vec<Part<'a>>,
) -> Result<(), AllocError>
    requires { All HasCore core.now }
    ensures { (imports : List ImportValue) →
        AreListed (function_pairs imports) functions.now.entries →
        OnOk result (PutsCoreParts imports (map core_view core.now)
        (map part_view parts.old.items) (map part_view parts.new.items)) }
{
    for index in 0..core.len() {
        parts.push(part_of_core(alloc, functions, &core[index])?)?;
    }
    Ok(())
}

/// The part of a core module.
fn part_of_core<'a>(
    alloc: Global,
    functions: &NameLists<'_>,
    core: &'a CoreModule<'_>,
) -> Result<Part<'a>, AllocError>
    requires { HasCore core.now }
    ensures { (imports : List ImportValue) →
        AreListed (function_pairs imports) functions.now.entries →
        IfOk result (λ p. IsPartOfCore imports (core_view core.now) (part_view p)) }
{
    match core {
        CoreModule::Followed(core) => part_of_followed(alloc, functions, core),
        CoreModule::Unfollowed(core) => {
            library_part(alloc, core.name, core.bytes, &core.code, &core.rows)
        }
    }
}

/// The part of a core module that is followed.
fn part_of_followed<'a>(
    alloc: Global,
    functions: &NameLists<'_>,
    core: &'a FollowedCore<'_>,
) -> Result<Part<'a>, AllocError>
    requires { HasPaths core.now.followed }
    ensures { (imports : List ImportValue) →
        AreListed (function_pairs imports) functions.now.entries →
        IfOk result (λ p. IsFollowedCorePart imports core.now.name.now core.now.serves
        core.now.followed.bytes.now (followed_view core.now.followed) (part_view p)) }
{
    let linked = linked_names(alloc, functions, core)?;
    let others = unlinked(alloc, &linked, &core.followed.code.exports)?;
    core_part(alloc, core.name, &core.followed, &others)
}

/// The names of the exports of a core module that the main module imports, each once, in the order of these imports.
pub(crate) fn linked_names<'a>(
    alloc: Global,
    functions: &'a NameLists<'_>,
    core: &FollowedCore<'_>,
) -> Result<Set<&'a str>, AllocError>
    ensures { (imports : List ImportValue) →
        AreListed (function_pairs imports) functions.now.entries →
        IfOk result (λ s. map text_of s.keys ≡ linked_names imports core.now.name.now
        core.now.serves (map export_value core.now.followed.code.exports.items)) }
{
    let names = export_names(alloc, &core.followed.code.exports)?;
    let there = text_set(alloc, *functions.hasher(), &names)?;
    linked_among(alloc, &there, imported_names(functions, core))
}

/// The names of exports.
fn export_names<'a>(alloc: Global, exports: &[Export<'a>]) -> Result<Vec<&'a str>, AllocError>
    ensures { IfOk result (λ v. map text_of v.items
        ≡ map (λ (e : ExportValue). e.name) (map export_value exports.now)) }
{
    let mut names = Vec::new(alloc);
    for export in exports {
        names.push(export.name)?;
    }
    Ok(names)
}

/// The names under which the main module imports functions from the name that a core module serves.
fn imported_names<'a>(functions: &'a NameLists<'_>, core: &FollowedCore<'_>) -> &'a [&'a str]
    ensures { (imports : List ImportValue) →
        AreListed (function_pairs imports) functions.now.entries →
        map text_of result.now ≡ cond core.now.serves
        (names_under (function_pairs imports) core.now.name.now) [] }
{
    if core.serves {
        names_at(functions, core.name, &[])
    } else {
        &[]
    }
}

/// The names of exports to which imports of these names are linked, each once. `there`: the names of all exports.
fn linked_among<'a>(
    alloc: Global,
    there: &Set<&str>,
    imported: &[&'a str],
) -> Result<Set<&'a str>, AllocError>
    ensures { (names : List (List ℕ)) → HasTexts names (map text_of there.now.keys) →
        IfOk result (λ s. map text_of s.keys
        ≡ first_occurrences (map (linked_name names) (map text_of imported.now))) }
{
    let mut linked = Set::with_hasher(alloc, *there.hasher());
    for name in imported {
        linked.insert(linked_name(there, *name))?;
    }
    Ok(linked)
}

/// The name of the export to which an import of a name is linked: this one, or the one before its version, if there is
/// no export of this name.
fn linked_name<'a>(there: &Set<&str>, name: &'a str) -> &'a str
    ensures { (names : List (List ℕ)) → HasTexts names (map text_of there.now.keys) →
        result.now ≡ linked_name names name.now }
{
    if is_in_set(there, name) {
        return name;
    }
    match original_import_name(name) {
        Some(original) => original,
        None => name,
    }
}

/// Those of these exports whose names are not linked, in order.
pub(crate) fn unlinked<'a>(
    alloc: Global,
    linked: &Set<&str>,
    exports: &[Export<'a>],
) -> Result<Vec<Export<'a>>, AllocError>
    ensures { IfOk result (λ v. map export_value v.items
        ≡ unlinked (map text_of linked.now.keys) (map export_value exports.now)) }
{
    let mut others = Vec::new(alloc);
    for export in exports {
        push_unless(is_in_set(linked, export.name), export, &mut others)?;
    }
    Ok(others)
}

/// Appends an export, unless it is linked.
fn push_unless<'a>(
    is_linked: bool,
    export: &Export<'a>,
    others: &mut Vec<Export<'a>>,
) -> Result<(), AllocError>
    ensures { OnOk result (map export_value others.new.items ≡ map export_value others.old.items
        ++ cond (not is_linked) (export_value export.now ∷ []) []) }
{
    if !is_linked {
        others.push(*export)?;
    }
    Ok(())
}
