//! Exports that are required of an adapter, and whether a component needs it.

ghost use Rattle.std.specs.Prelude.{◌≡◌, ◌++◌, IfOk, map};
ghost use Rattle.wc_gc.specs.LiveItems.{names_of};
ghost use Rattle.wc_read.specs.Exports.{export_value};
ghost use Rattle.wc_read.specs.Modules.{module_value};
ghost use Rattle.wc_texts.specs.Names.{first_occurrences};
ghost use Rattle.wc_why.specs.Texts.{text_of};
ghost use Rattle.wc_module_ways.specs.ComponentExports.{component_exports, has_hash};
ghost use Rattle.wc_module_ways.specs.Required.{always_names, has_interface_export, is_needed, required_names};

use crate::component_exports::{has_hash, push_component_exports};
use std::alloc::{AllocError, Global};
use wc_maps::{Seed, Set};
use wc_read::{Export, Module};

/// The exports that are required of an adapter: the exports of these names, which the main module imports; the exports
/// that a component may need; and the exports that the caller asks for.
pub(crate) fn required_names(
    alloc: Global,
    seed: Seed,
    imported: &[&str],
    code: &Module<'_>,
    asked: &[&str],
) -> Result<Set<String>, AllocError>
    ensures { IfOk result (λ s. names_of s.keys ≡ required_names (map text_of imported.now)
        (module_value code.now) (map text_of asked.now)) }
{
    let names = all_names(alloc, imported, code, asked)?;
    name_set(alloc, seed, &names)
}

/// The names of the exports that an adapter has to have whatever the main module imports: those that a component may
/// need, and those that are asked for. Some may be repeated.
pub(crate) fn always_names<'a>(
    alloc: Global,
    code: &Module<'a>,
    asked: &[&'a str],
) -> Result<Vec<&'a str>, AllocError>
    ensures { IfOk result (λ v. map text_of v.items
        ≡ always_names (module_value code.now) (map text_of asked.now)) }
{
    let mut names = Vec::new(alloc);
    push_component_exports(code, &mut names)?;
    names.extend_from_slice(asked)?;
    Ok(names)
}

/// The names of these exports, some of them repeated.
fn all_names<'a>(
    alloc: Global,
    imported: &[&'a str],
    code: &Module<'a>,
    asked: &[&'a str],
) -> Result<Vec<&'a str>, AllocError>
    ensures { IfOk result (λ v. map text_of v.items ≡ map text_of imported.now
        ++ (component_exports (module_value code.now) ++ map text_of asked.now)) }
{
    let mut names = Vec::from_slice(alloc, imported)?;
    push_component_exports(code, &mut names)?;
    names.extend_from_slice(asked)?;
    Ok(names)
}

/// Names as a set, in order of their first occurrences.
fn name_set(alloc: Global, seed: Seed, names: &[&str]) -> Result<Set<String>, AllocError>
    ensures { IfOk result (λ s. names_of s.keys ≡ first_occurrences (map text_of names.now)) }
{
    let mut set = Set::with_hasher(alloc, seed);
    for name in names {
        set.insert(String::from_str(alloc, name)?)?;
    }
    Ok(set)
}

/// Whether a component needs an adapter: the main module imports a function of it, it exports a function of an
/// interface, or the caller asks for one of its exports.
pub(crate) fn is_needed(imported: &[&str], code: &Module<'_>, asked: &[&str]) -> bool
    ensures { result ≡ is_needed (map text_of imported.now) (module_value code.now)
        (map text_of asked.now) }
{
    !imported.is_empty() || !asked.is_empty() || has_interface_export(&code.exports)
}

/// Whether a name of these exports is that of something of an interface.
fn has_interface_export(exports: &[Export<'_>]) -> bool
    ensures { result ≡ has_interface_export (map export_value exports.now) }
{
    for export in exports {
        if has_hash(export.name) {
            return true;
        }
    }
    false
}
