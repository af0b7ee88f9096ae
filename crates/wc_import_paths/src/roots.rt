//! The exports at which paths may begin.

ghost use Rattle.std.specs.Prelude.{◌≡◌, ◌≢◌, ◌++◌, AllPairs, IfErr, IfOk, IsOk, None, OnOk, map};
ghost use Rattle.std.specs.Option.{option_map, option_to_list};
ghost use Rattle.wc_read.specs.Exports.{export_value};
ghost use Rattle.wc_gc.specs.Exports.{AreNamed, IsMissingFault, by_name, export_entries, missing_name};
ghost use Rattle.wc_why.specs.Texts.{text_of};
ghost use Rattle.wc_import_paths.specs.Private.Roots.{IsMissing};
ghost use Rattle.wc_import_paths.specs.Roots.{export_named, exports_for, exports_named};

use std::alloc::{AllocError, Global};
use wc_gc::GcFault;
use wc_maps::{Map, Seed};
use wc_read::Export;

/// The exports at which paths may begin: those of these names, in their order; all, where there are none.
///
/// # Errors
///
/// - `MissingExport`: a name is not exported; the first such.
/// - `Memory`: an allocation failed.
pub(crate) fn exports_for<'r>(
    alloc: Global,
    seed: Seed,
    names: &[&str],
    exports: &[Export<'r>],
) -> Result<Vec<Export<'r>>, GcFault>
    requires { AllPairs (λ x y. x ≢ y) (map (λ e. e.name) (map export_value exports.now)) }
    ensures found { IfOk result (λ v. map export_value v.items
        ≡ exports_for (map text_of names.now) (map export_value exports.now)) }
    ensures there { IsOk result
        → missing_name (map export_value exports.now) (map text_of names.now) ≡ None }
    ensures fault { IfErr result
        (IsMissingFault (map export_value exports.now) (map text_of names.now)) }
{
    if names.is_empty() {
        return Ok(Vec::from_slice(alloc, exports)?);
    }
    let named = exports_by_name(alloc, seed, exports)?;
    exports_named(alloc, &named, names)
}

/// Exports by their names. `seed`: the seed of the map.
fn exports_by_name<'r>(
    alloc: Global,
    seed: Seed,
    exports: &[Export<'r>],
) -> Result<Map<&'r str, Export<'r>>, AllocError>
    requires { AllPairs (λ x y. x ≢ y) (map (λ e. e.name) (map export_value exports.now)) }
    ensures { IfOk result (λ m. m.entries ≡ map by_name exports.now) }
{
    let mut named = Map::with_hasher(alloc, seed);
    for export in exports {
        named.insert(export.name, *export)?;
    }
    Ok(named)
}

/// The exports of some names, in their order.
fn exports_named<'r>(
    alloc: Global,
    named: &Map<&str, Export<'r>>,
    names: &[&str],
) -> Result<Vec<Export<'r>>, GcFault>
    requires { AreNamed named.now.entries }
    ensures found { IfOk result (λ v. map export_value v.items
        ≡ exports_named (export_entries named.now.entries) (map text_of names.now)) }
    ensures there { IsOk result
        → missing_name (export_entries named.now.entries) (map text_of names.now) ≡ None }
    ensures fault { IfErr result
        (IsMissingFault (export_entries named.now.entries) (map text_of names.now)) }
{
    let mut found = Vec::new(alloc);
    for name in names {
        match export_named(named, name) {
            Some(export) => found.push(export)?,
            None => return Err(missing(alloc, name)),
        }
    }
    Ok(found)
}

/// The exports of some names, in their order; a name that is not exported is left out.
///
/// # Errors
///
/// `AllocError`: an allocation failed.
pub fn exports_of_names<'r>(
    alloc: Global,
    seed: Seed,
    names: &[&str],
    exports: &[Export<'r>],
) -> Result<Vec<Export<'r>>, AllocError>
    requires { AllPairs (λ x y. x ≢ y) (map (λ e. e.name) (map export_value exports.now)) }
    ensures { IfOk result (λ v. map export_value v.items
        ≡ exports_named (map export_value exports.now) (map text_of names.now)) }
{
    let named = exports_by_name(alloc, seed, exports)?;
    exports_among(alloc, &named, names)
}

/// The exports of those of some names that are there.
fn exports_among<'r>(
    alloc: Global,
    named: &Map<&str, Export<'r>>,
    names: &[&str],
) -> Result<Vec<Export<'r>>, AllocError>
    requires { AreNamed named.now.entries }
    ensures { IfOk result (λ v. map export_value v.items
        ≡ exports_named (export_entries named.now.entries) (map text_of names.now)) }
{
    let mut found = Vec::new(alloc);
    for name in names {
        push_some(export_named(named, name), &mut found)?;
    }
    Ok(found)
}

/// Appends an export, if there is one.
fn push_some<'r>(export: Option<Export<'r>>, found: &mut Vec<Export<'r>>) -> Result<(), AllocError>
    ensures { OnOk result (map export_value found.new.items ≡ map export_value found.old.items
        ++ option_to_list (option_map export_value export.entry)) }
{
    match export {
        Some(export) => {
            found.push(export)?;
            Ok(())
        }
        None => Ok(()),
    }
}

/// The export of a name.
fn export_named<'r>(named: &Map<&str, Export<'r>>, name: &str) -> Option<Export<'r>>
    requires { AreNamed named.now.entries }
    ensures { option_map export_value result
        ≡ export_named (export_entries named.now.entries) name.now }
{
    match named.get(name) {
        Some(export) => Some(*export),
        None => None,
    }
}

/// The fault for a name that is not exported.
fn missing(alloc: Global, name: &str) -> GcFault
    ensures { IsMissing name.now result }
{
    match String::from_str(alloc, name) {
        Ok(name) => GcFault::MissingExport(name),
        Err(AllocError) => GcFault::Memory,
    }
}
