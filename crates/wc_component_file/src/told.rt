//! Core modules of a component, as their names or their exports tell what they are.

ghost use Rattle.std.specs.Prelude.{◌≡◌, [], ◌∷◌, ◌++◌, IfErr, IfOk, OnOk, cond, filter, length, map};
ghost use Rattle.std.specs.List.{list_all};
ghost use Rattle.std.specs.Option.{option_map};
ghost use Rattle.wc_maps.specs.Texts.{text_of};
ghost use Rattle.wc_read.specs.Exports.{export_value};
ghost use Rattle.wc_read.specs.Modules.{ModuleValue, SpellsModule, module_value};
ghost use Rattle.wc_component_file.specs.Files.{core_module_view};
ghost use Rattle.wc_component_file.specs.Serving.{function_names, is_func};
ghost use Rattle.wc_component_file.specs.Told.{AreTold, IsTold, candidates, fixed_role, is_candidate, is_shim_name, role_of_name, role_view, told_by_exports, told_view};
ghost use Rattle.wc_component_file.specs.Private.Untold.{IsUnreadAs, IsUnreadAt, IsUntoldIn, IsUntoldOf};

use crate::file::CoreModule;
use crate::main_module::MainModule;
use crate::renamed::is_number;
use crate::role::{Role, RolesRefusal};
use std::alloc::{AllocError, Global};
use wc_read::{Export, ExportKind, Module, ReadFault, ReadPlace, read_module_explained};
use wc_texts::{Refused, strip_prefix};

/// A core module, as its name or its exports tell what it is.
#[derive(Drop)]
pub(crate) enum Told<'a> {
    /// Its role.
    Known(Role<'a>),
    /// The names of the functions that it exports: it may serve a name.
    Candidate(Vec<&'a str>),
}

/// These modules, each as its name or else its exports tell what it is.
pub(crate) fn told_modules<'a>(
    alloc: Global,
    modules: &[CoreModule<'a>],
    main: MainModule,
) -> Result<Vec<Told<'a>>, RolesRefusal>
    ensures told { IfOk result (λ v. AreTold main
        (map core_module_view modules.now) (map told_view v.items)) }
    ensures refused { IfErr result (IsUntoldIn main (map core_module_view modules.now)) }
{
    let mut told = Vec::new(alloc);
    for position in 0..modules.len() {
        let one = told_module(alloc, &modules[position], position, main)?;
        told.push(one)?;
    }
    Ok(told)
}

/// The module at a position, as its name or else its exports tell what it is.
fn told_module<'a>(
    alloc: Global,
    module: &CoreModule<'a>,
    position: usize,
    main: MainModule,
) -> Result<Told<'a>, RolesRefusal>
    ensures told { IfOk result (λ t. IsTold main
        position (core_module_view module.now) (told_view t)) }
    ensures refused { IfErr result (IsUntoldOf main position (core_module_view module.now)) }
{
    if position == main.position {
        return Ok(Told::Known(Role::Main));
    }
    match role_of_name(main.is_named, module.name) {
        Some(role) => Ok(Told::Known(role)),
        None => told_by_bytes(alloc, module.bytes, position),
    }
}

/// The role that a name tells. `is_named`: whether the main module was found by its name.
fn role_of_name(is_named: bool, name: Option<&str>) -> Option<Role<'_>>
    ensures { option_map role_view result
        ≡ role_of_name is_named (option_map (λ n. n.now) name.entry) }
{
    let name = name?;
    match strip_prefix(name, "wit-component:adapter:") {
        Some(rest) => Some(Role::Adapter(rest)),
        None => fixed_role(is_named, name),
    }
}

/// The role that a name tells which is not that of an adapter.
fn fixed_role(is_named: bool, name: &str) -> Option<Role<'_>>
    ensures { option_map role_view result ≡ fixed_role is_named name.now }
{
    if name == "wit-component-shim-module" || name == "start-shim-module" {
        return Some(Role::Shim);
    }
    if name == "wit-component-fixup" {
        return Some(Role::Fixup);
    }
    if is_named {
        return Some(Role::Library(name));
    }
    None
}

/// The module of these bytes, as its exports tell what it is. `position`: its position.
fn told_by_bytes(alloc: Global, bytes: &[u8], position: usize) -> Result<Told<'_>, RolesRefusal>
    ensures told { IfOk result (λ t. (m : ModuleValue) × SpellsModule bytes.now m
        × (told_view t ≡ told_by_exports m.exports)) }
    ensures refused { IfErr result (IsUnreadAt position bytes.now) }
{
    match read_module_explained(alloc, bytes) {
        Ok(module) => Ok(told_by_module(alloc, &module)?),
        Err(refused) => Err(unread(position, refused)),
    }
}

/// The refusal of the module at a position.
pub(crate) fn unread(position: usize, refused: Refused<ReadFault, ReadPlace>) -> RolesRefusal
    ensures { IsUnreadAs position refused result }
{
    if refused.fault == ReadFault::Memory {
        return RolesRefusal::Memory;
    }
    RolesRefusal::Unread {
        module: position,
        fault: refused.fault,
        place: refused.place,
    }
}

/// A module, as its exports tell what it is.
fn told_by_module<'a>(alloc: Global, module: &Module<'a>) -> Result<Told<'a>, AllocError>
    ensures { IfOk result (λ t. told_view t ≡ told_by_exports (module_value module.now).exports) }
{
    told_by_exports(alloc, &module.exports)
}

/// A module with these exports, as they tell what it is: without exports a fixup; with numbers alone a shim.
fn told_by_exports<'a>(alloc: Global, exports: &[Export<'a>]) -> Result<Told<'a>, AllocError>
    ensures { IfOk result (λ t. told_view t ≡ told_by_exports (map export_value exports.now)) }
{
    if exports.is_empty() {
        return Ok(Told::Known(Role::Fixup));
    }
    if are_shim_names(exports) {
        return Ok(Told::Known(Role::Shim));
    }
    Ok(Told::Candidate(function_names(alloc, exports)?))
}

/// Whether these exports have the names that those of shims have.
fn are_shim_names(exports: &[Export<'_>]) -> bool
    ensures { result ≡ list_all (λ e. is_shim_name e.name) (map export_value exports.now) }
{
    for export in exports {
        if !is_shim_name(export.name) {
            return false;
        }
    }
    true
}

/// Whether a name is that of an export of shims.
fn is_shim_name(name: &str) -> bool
    ensures { result ≡ is_shim_name name.now }
{
    is_number(name.as_bytes()) || name == "$imports"
}

/// The names of the functions among exports.
fn function_names<'a>(alloc: Global, exports: &[Export<'a>]) -> Result<Vec<&'a str>, AllocError>
    ensures { IfOk result (λ v. map text_of v.items
        ≡ function_names (map export_value exports.now)) }
{
    let mut names = Vec::new(alloc);
    for export in exports {
        push_if(is_func(export.kind), export.name, &mut names)?;
    }
    Ok(names)
}

/// Whether what is exported is a function.
fn is_func(kind: ExportKind) -> bool
    ensures { result ≡ is_func kind }
{
    matches!(kind, ExportKind::Func)
}

/// Appends a name, if it is one of those.
fn push_if<'a>(is_one: bool, name: &'a str, names: &mut Vec<&'a str>) -> Result<(), AllocError>
    ensures { OnOk result (map text_of names.new.items ≡ map text_of names.old.items
        ++ cond is_one (name.now ∷ []) []) }
{
    if is_one {
        names.push(name)?;
    }
    Ok(())
}

/// How many of these may serve a name.
pub(crate) fn candidates(told: &[Told<'_>]) -> usize
    ensures { result ≡ candidates (map told_view told.now) }
{
    count_candidates(told)
}

fn count_candidates(told: &[Told<'_>]) -> usize
    ensures { result ≡ length (filter (λ t. is_candidate (told_view t)) told.now) }
{
    told.iter().filter(|one| is_candidate(one)).count()
}

/// Whether a module may serve a name.
fn is_candidate(told: &Told<'_>) -> bool
    ensures { result ≡ is_candidate (told_view told.now) }
{
    match told {
        Told::Known(_) => false,
        Told::Candidate(_) => true,
    }
}
