//! The main module among the core modules of a component.

ghost use Rattle.std.specs.Prelude.{◌≡◌, ◌<◌, IfErr, IfOk, None, length, map};
ghost use Rattle.std.specs.List.{list_any};
ghost use Rattle.std.specs.Option.{option_map};
ghost use Rattle.wc_component_file.specs.Files.{core_module_view};
ghost use Rattle.wc_component_file.specs.MainModules.{IsMain, is_main_name, is_named_main};
ghost use Rattle.wc_component_file.specs.Roles.{IsMainRefusal};

use crate::file::CoreModule;
use crate::role::RolesRefusal;

/// The main module: its position, and whether its name tells that it is the main one.
#[derive(Clone, Copy)]
pub(crate) struct MainModule {
    pub(crate) position: usize,
    pub(crate) is_named: bool,
}

/// The main module of these: the one that is chosen; or else the one of the name `main`; or else the first.
pub(crate) fn main_module(
    modules: &[CoreModule<'_>],
    chosen: Option<usize>,
) -> Result<MainModule, RolesRefusal>
    ensures main { IfOk result (IsMain (map core_module_view modules.now) chosen) }
    ensures within { IfOk result (λ m. m.position < length modules.now) }
    ensures refused { IfErr result (IsMainRefusal (map core_module_view modules.now) chosen) }
{
    if modules.is_empty() {
        return Err(RolesRefusal::NoModule);
    }
    match chosen {
        Some(position) if position < modules.len() => Ok(MainModule {
            position,
            is_named: false,
        }),
        Some(_) => Err(RolesRefusal::NoSuchModule),
        None => named_main(modules),
    }
}

/// The main module where none is chosen.
fn named_main(modules: &[CoreModule<'_>]) -> Result<MainModule, RolesRefusal>
    requires { 0 < length modules.now }
    ensures main { IfOk result (IsMain (map core_module_view modules.now) None) }
    ensures within { IfOk result (λ m. m.position < length modules.now) }
    ensures refused { IfErr result (IsMainRefusal (map core_module_view modules.now) None) }
{
    for position in 0..modules.len() {
        if is_main_name(modules[position].name) {
            if has_main_name(&modules[position + 1..]) {
                return Err(RolesRefusal::Unclear);
            }
            return Ok(MainModule {
                position,
                is_named: true,
            });
        }
    }
    Ok(MainModule {
        position: 0,
        is_named: false,
    })
}

/// Whether one of these is named as main modules are.
fn has_main_name(modules: &[CoreModule<'_>]) -> bool
    ensures { result ≡ list_any is_named_main (map core_module_view modules.now) }
{
    for core in modules {
        if is_main_name(core.name) {
            return true;
        }
    }
    false
}

/// Whether a name is that of main modules.
fn is_main_name(name: Option<&str>) -> bool
    ensures { result ≡ is_main_name (option_map (λ n. n.now) name.entry) }
{
    match name {
        Some(name) => name == "main",
        None => false,
    }
}
