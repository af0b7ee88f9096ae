//! Which names a core module serves: the main module imports functions of a name, and it exports each of them.

ghost use Rattle.std.specs.Prelude.{◌≡◌, [], ◌∷◌, ◌++◌, IfErr, IfNone, IfOk, IfSome, List, OnOk, cond, map, not, ◌&&◌, ◌||◌, ℕ, true, false, is_some};
ghost use Rattle.std.specs.Str.{bytes_eq};
ghost use Rattle.wc_maps.specs.Texts.{HasTexts, is_in, text_of, text_pair};
ghost use Rattle.wc_read.specs.Imports.{import_value};
ghost use Rattle.wc_read.specs.Spaces.{func_of};
ghost use Rattle.wc_component_file.specs.Roles.{IsServing};
ghost use Rattle.wc_component_file.specs.Serving.{function_pairs, gives, without};
ghost use Rattle.wc_component_file.specs.Told.{role_view};
ghost use Rattle.wc_component_file.specs.Private.Served.{AreLacking, IsOnlyLeft, IsOtherLeft, IsServingRefusal, is_left};

use crate::renamed::original_import_name;
use crate::role::{Role, RolesRefusal};
use std::alloc::{AllocError, Global};
use wc_maps::{Seed, Set, is_in_set, text_set};
use wc_read::{Import, ImportType};

/// The functions among imports: the names of their modules, and their own.
pub(crate) fn function_pairs<'a>(
    alloc: Global,
    imports: &[Import<'a>],
) -> Result<Vec<(&'a str, &'a str)>, AllocError>
    ensures { IfOk result (λ v. map text_pair v.items
        ≡ function_pairs (map import_value imports.now)) }
{
    let mut pairs = Vec::new(alloc);
    for import in imports {
        let pair = (import.module, import.name);
        push_if(is_function(import.ty), pair, &mut pairs)?;
    }
    Ok(pairs)
}

/// Whether what is imported is a function.
fn is_function(ty: ImportType) -> bool
    ensures { result ≡ is_some (func_of ty) }
{
    matches!(ty, ImportType::Func(_))
}

/// Those of these functions that are from no module of these names.
pub(crate) fn without<'a>(
    alloc: Global,
    names: &Set<&str>,
    pairs: &[(&'a str, &'a str)],
) -> Result<Vec<(&'a str, &'a str)>, AllocError>
    ensures { IfOk result (λ v. map text_pair v.items
        ≡ without (map text_of names.now.keys) (map text_pair pairs.now)) }
{
    let mut left = Vec::new(alloc);
    for pair in pairs {
        push_if(!is_in_set(names, pair.0), *pair, &mut left)?;
    }
    Ok(left)
}

/// Appends a function, if it is one of those.
fn push_if<'a>(
    is_one: bool,
    pair: (&'a str, &'a str),
    pairs: &mut Vec<(&'a str, &'a str)>,
) -> Result<(), AllocError>
    ensures { OnOk result (map text_pair pairs.new.items ≡ map text_pair pairs.old.items
        ++ cond is_one (text_pair pair.entry ∷ []) []) }
{
    if is_one {
        pairs.push(pair)?;
    }
    Ok(())
}

/// The role of a module that exports these functions, by what it serves of the functions that are asked for. `seed`:
/// the seed of sets.
pub(crate) fn served_role<'a>(
    alloc: Global,
    seed: Seed,
    functions: &[&'a str],
    asked: &[(&'a str, &'a str)],
) -> Result<Role<'a>, RolesRefusal>
    ensures role { IfOk result (λ r. IsServing (map text_pair asked.now)
        (map text_of functions.now) (role_view r)) }
    ensures refused { IfErr result (IsServingRefusal (map text_pair asked.now)
        (map text_of functions.now)) }
{
    let exported = text_set(alloc, seed, functions)?;
    let lacking = lacking(alloc, seed, &exported, asked)?;
    match first_left(asked, &lacking) {
        Some(name) => only_role(asked, &lacking, name),
        None => Ok(Role::Other),
    }
}

/// The names of modules of which a function is asked for that is not among these exported ones.
fn lacking<'a>(
    alloc: Global,
    seed: Seed,
    exported: &Set<&str>,
    asked: &[(&'a str, &'a str)],
) -> Result<Set<&'a str>, AllocError>
    ensures { (functions : List (List ℕ)) → HasTexts functions (map text_of exported.now.keys) →
        IfOk result (λ s. AreLacking functions (map text_pair asked.now) (map text_of s.keys)) }
{
    let mut lacking = Set::with_hasher(alloc, seed);
    for pair in asked {
        insert_if(!gives(exported, pair.1), pair.0, &mut lacking)?;
    }
    Ok(lacking)
}

/// Puts a name into a set, if it is one of those.
fn insert_if<'a>(is_one: bool, name: &'a str, names: &mut Set<&'a str>) -> Result<(), AllocError>
    ensures { OnOk result ((t : List ℕ) → is_in (map text_of names.new.keys) t
        ≡ (is_in (map text_of names.old.keys) t || (bytes_eq name.now t && is_one))) }
{
    if is_one {
        names.insert(name)?;
    }
    Ok(())
}

/// Whether these exported functions have one under the name by which it is imported, or under that before it was
/// renamed.
fn gives(exported: &Set<&str>, name: &str) -> bool
    ensures { (functions : List (List ℕ)) → HasTexts functions (map text_of exported.now.keys) →
        result ≡ gives functions name.now }
{
    if is_in_set(exported, name) {
        return true;
    }
    match original_import_name(name) {
        Some(original) => is_in_set(exported, original),
        None => false,
    }
}

/// The first name of which functions are asked for and none is lacking.
fn first_left<'a>(asked: &[(&'a str, &'a str)], lacking: &Set<&str>) -> Option<&'a str>
    ensures left { IfSome result (λ n.
        is_left (map text_pair asked.now) (map text_of lacking.now.keys) n.now ≡ true) }
    ensures none { IfNone result ((n : List ℕ) →
        is_left (map text_pair asked.now) (map text_of lacking.now.keys) n ≡ false) }
{
    for pair in asked {
        if !is_in_set(lacking, pair.0) {
            return Some(pair.0);
        }
    }
    None
}

/// The role of a module that serves a name, if it serves no other.
fn only_role<'a>(
    asked: &[(&'a str, &'a str)],
    lacking: &Set<&str>,
    name: &'a str,
) -> Result<Role<'a>, RolesRefusal>
    ensures only { IfOk result (λ r. IsOnlyLeft (map text_pair asked.now)
        (map text_of lacking.now.keys) name.now (role_view r)) }
    ensures refused { IfErr result (λ r. IsOtherLeft (map text_pair asked.now)
        (map text_of lacking.now.keys) name.now r) }
{
    for pair in asked {
        if is_another(lacking, name, pair.0) {
            return Err(RolesRefusal::Unclear);
        }
    }
    Ok(Role::Adapter(name))
}

/// Whether a name is none of these, and not this one.
fn is_another(lacking: &Set<&str>, name: &str, other: &str) -> bool
    ensures { result ≡ (not (bytes_eq other.now name.now)
        && not (is_in (map text_of lacking.now.keys) other.now)) }
{
    other != name && !is_in_set(lacking, other)
}
