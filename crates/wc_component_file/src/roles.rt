//! Which core module of a component is which.

ghost use Rattle.std.specs.Prelude.{◌≡◌, ◌++◌, ◌<◌, ◌==◌, ◌&&◌, IfErr, IfOk, OnOk, length, map, nat_lt, not};
ghost use Rattle.std.specs.Option.{option_map, option_to_list};
ghost use Rattle.wc_maps.specs.Texts.{HasTexts, text_of, text_pair};
ghost use Rattle.wc_component_file.specs.Files.{core_module_view, file_view};
ghost use Rattle.wc_component_file.specs.Roles.{AreAsked, AreRoles, AreServing, HasFunctionsAt, IsRole, IsRolesRefusal, IsToldRefusal, adapter_name, adapter_names, told_name, told_names};
ghost use Rattle.wc_component_file.specs.Told.{role_view, told_view};
ghost use Rattle.wc_component_file.specs.Private.Adapters.{AreRolesOf, AreServed, HasRepeated, IsAskedRefusal, IsRoleRefusal, IsServedRefusal, IsServingRefusalIn, IsUnreadIn};

use crate::file::{ComponentFile, CoreModule};
use crate::main_module::{MainModule, main_module};
use crate::role::{Role, RolesRefusal};
use crate::serving::{function_pairs, served_role, without};
use crate::told::{Told, candidates, told_modules, unread};
use std::alloc::{AllocError, Global};
use wc_maps::{Seed, Set, first_repeated, text_set};
use wc_read::read_module_explained;

/// How many modules at most may serve a name, where the main module imports functions: each of them is compared with
/// all of these.
const MOST_CANDIDATES: usize = 100;

/// The role of each core module of a component's file. `seed`: the seed of sets. `main`: the position of the main
/// module, if the caller chooses it.
///
/// 1. The main module is the one that is chosen, or else the only one named `main`, or else the first.
/// 2. Another module is told by its name: `wit-component:adapter:X` is the adapter for X;
///    `wit-component-shim-module` and `start-shim-module` are shims; `wit-component-fixup` is a fixup. Any other name
///    is that of a library, where the main module was found by its name.
/// 3. A module that no name tells is told by its exports. One without exports is a fixup. One whose exports are all
///    named by decimal numbers or `$imports` is a shim. Another serves X if the main module imports functions from X,
///    no module is named as the adapter for X, and it exports each of these functions under its name, or under the name
///    before it was renamed ([`original_import_name`](crate::original_import_name)). It is the adapter for the only
///    name that it serves; one that serves none is `Other`.
///
/// A module is read only where rule 3 needs it: those that no name tells, in order; and then the main module, if one of
/// them may serve a name.
///
/// # Errors
///
/// Of several causes the first in this order is named; `Memory` may come in place of any.
///
/// - `NoModule`: the file has no core module.
/// - `NoSuchModule`: the main module that is chosen is past the last one.
/// - `Unclear`: none is chosen, and several are named `main`.
/// - `Unread`: the bytes of a module that has to be read are no module.
/// - `Unclear`: the main module imports functions, and more than a hundred modules may serve a name; a module serves
///   several names; or several modules are adapters for one name.
/// - `Memory`: an allocation failed.
pub fn roles_of<'a>(
    alloc: Global,
    seed: Seed,
    file: &ComponentFile<'a>,
    main: Option<usize>,
) -> Result<Vec<Role<'a>>, RolesRefusal>
    ensures roles { IfOk result (λ v. AreRoles (file_view file.now) main (map role_view v.items)) }
    ensures refused { IfErr result (IsRolesRefusal (file_view file.now) main) }
{
    let main = main_module(&file.modules, main)?;
    roles_with(alloc, seed, &file.modules, main)
}

/// The roles of modules with this main module.
fn roles_with<'a>(
    alloc: Global,
    seed: Seed,
    modules: &[CoreModule<'a>],
    main: MainModule,
) -> Result<Vec<Role<'a>>, RolesRefusal>
    requires { main.position < length modules.now }
    ensures roles { IfOk result (λ v. AreRolesOf main
        (map core_module_view modules.now) (map role_view v.items)) }
    ensures refused { IfErr result (IsToldRefusal main (map core_module_view modules.now)) }
{
    let told = told_modules(alloc, modules, main)?;
    let asked = asked_functions(alloc, seed, modules, main, &told)?;
    served_roles(alloc, seed, &told, &asked)
}

/// The functions of which a candidate may serve some: none, where there is no candidate.
fn asked_functions<'a>(
    alloc: Global,
    seed: Seed,
    modules: &[CoreModule<'a>],
    main: MainModule,
    told: &[Told<'a>],
) -> Result<Vec<(&'a str, &'a str)>, RolesRefusal>
    requires { main.position < length modules.now }
    ensures asked { IfOk result (λ v. AreAsked main (map core_module_view modules.now)
        (map told_view told.now) (map text_pair v.items)) }
    ensures refused { IfErr result (IsAskedRefusal main (map core_module_view modules.now)
        (map told_view told.now)) }
{
    let count = candidates(told);
    if count == 0 {
        return Ok(Vec::new(alloc));
    }
    let functions = functions_at(alloc, modules, main.position)?;
    if is_too_many(count, &functions) {
        return Err(RolesRefusal::Unclear);
    }
    let names = told_names(alloc, seed, told)?;
    Ok(without(alloc, &names, &functions)?)
}

/// Whether there are so many candidates that all of them are not compared with these functions.
fn is_too_many(count: usize, functions: &[(&str, &str)]) -> bool
    ensures { result ≡ (nat_lt 100 count && not (length functions.now == 0)) }
{
    count > MOST_CANDIDATES && !functions.is_empty()
}

/// The functions that the module at a position imports.
fn functions_at<'a>(
    alloc: Global,
    modules: &[CoreModule<'a>],
    position: usize,
) -> Result<Vec<(&'a str, &'a str)>, RolesRefusal>
    requires { position < length modules.now }
    ensures functions { IfOk result (λ v. HasFunctionsAt (map core_module_view modules.now)
        position (map text_pair v.items)) }
    ensures refused { IfErr result (IsUnreadIn (map core_module_view modules.now) position) }
{
    match read_module_explained(alloc, modules[position].bytes) {
        Ok(module) => Ok(function_pairs(alloc, &module.imports)?),
        Err(refused) => Err(unread(position, refused)),
    }
}

/// The names of the adapters that names of modules tell.
fn told_names<'a>(alloc: Global, seed: Seed, told: &[Told<'a>]) -> Result<Set<&'a str>, AllocError>
    ensures { IfOk result (λ s. HasTexts (told_names (map told_view told.now))
        (map text_of s.keys)) }
{
    let mut names = Vec::new(alloc);
    for one in told {
        push_some(told_name(one), &mut names)?;
    }
    text_set(alloc, seed, &names)
}

/// The name of an adapter that the name of a module tells.
fn told_name<'a>(told: &Told<'a>) -> Option<&'a str>
    ensures { option_map (λ n. n.now) result ≡ told_name (told_view told.now) }
{
    match told {
        Told::Known(role) => adapter_name(*role),
        Told::Candidate(_) => None,
    }
}

/// The name that a module of a role serves.
fn adapter_name(role: Role<'_>) -> Option<&'_ str>
    ensures { option_map (λ n. n.now) result ≡ adapter_name (role_view role.entry) }
{
    match role {
        Role::Adapter(name) => Some(name),
        Role::Main | Role::Library(_) | Role::Shim | Role::Fixup | Role::Other => None,
    }
}

/// Appends a name, if there is one.
fn push_some<'a>(name: Option<&'a str>, names: &mut Vec<&'a str>) -> Result<(), AllocError>
    ensures { OnOk result (map text_of names.new.items ≡ map text_of names.old.items
        ++ option_to_list (option_map text_of name.entry)) }
{
    match name {
        Some(name) => {
            names.push(name)?;
            Ok(())
        }
        None => Ok(()),
    }
}

/// The roles of modules, no two of which are adapters for one name.
fn served_roles<'a>(
    alloc: Global,
    seed: Seed,
    told: &[Told<'a>],
    asked: &[(&'a str, &'a str)],
) -> Result<Vec<Role<'a>>, RolesRefusal>
    ensures roles { IfOk result (λ v. AreServed (map text_pair asked.now)
        (map told_view told.now) (map role_view v.items)) }
    ensures refused { IfErr result (IsServedRefusal (map text_pair asked.now)
        (map told_view told.now)) }
{
    let roles = all_roles(alloc, seed, told, asked)?;
    if are_twins(alloc, seed, &roles)? {
        return Err(RolesRefusal::Unclear);
    }
    Ok(roles)
}

/// The roles of modules, by what each serves of the functions that are asked for.
fn all_roles<'a>(
    alloc: Global,
    seed: Seed,
    told: &[Told<'a>],
    asked: &[(&'a str, &'a str)],
) -> Result<Vec<Role<'a>>, RolesRefusal>
    ensures roles { IfOk result (λ v. AreServing (map text_pair asked.now)
        (map told_view told.now) (map role_view v.items)) }
    ensures refused { IfErr result (IsServingRefusalIn (map text_pair asked.now)
        (map told_view told.now)) }
{
    let mut roles = Vec::new(alloc);
    for one in told {
        let role = role_of(alloc, seed, one, asked)?;
        roles.push(role)?;
    }
    Ok(roles)
}

/// The role of a module.
fn role_of<'a>(
    alloc: Global,
    seed: Seed,
    told: &Told<'a>,
    asked: &[(&'a str, &'a str)],
) -> Result<Role<'a>, RolesRefusal>
    ensures role { IfOk result (λ r. IsRole (map text_pair asked.now)
        (told_view told.now) (role_view r)) }
    ensures refused { IfErr result (IsRoleRefusal (map text_pair asked.now)
        (told_view told.now)) }
{
    match told {
        Told::Known(role) => Ok(*role),
        Told::Candidate(functions) => served_role(alloc, seed, functions, asked),
    }
}

/// Whether two modules are adapters for one name.
fn are_twins(alloc: Global, seed: Seed, roles: &[Role<'_>]) -> Result<bool, AllocError>
    ensures { IfOk result (HasRepeated (adapter_names (map role_view roles.now))) }
{
    let names = adapter_names(alloc, roles)?;
    Ok(first_repeated(alloc, seed, &names)?.is_some())
}

/// The names that modules of these roles serve.
fn adapter_names<'a>(alloc: Global, roles: &[Role<'a>]) -> Result<Vec<&'a str>, AllocError>
    ensures { IfOk result (λ v. map text_of v.items ≡ adapter_names (map role_view roles.now)) }
{
    let mut names = Vec::new(alloc);
    for role in roles {
        push_some(adapter_name(*role), &mut names)?;
    }
    Ok(names)
}
