//! The imports of modules that belong to no other module of the component.

ghost use Rattle.std.specs.Prelude.{◌≡◌, [], ◌∷◌, ◌++◌, List, OnOk, cond, filter};
ghost use Rattle.wc_read.specs.Imports.{import_value, import_values};
ghost use Rattle.wc_module_ways.specs.Adapters.{Given};
ghost use Rattle.wc_module_ways.specs.Modules.{is_adapter_shown, is_core_shown, is_linkage, is_main_module, is_main_shown, is_of_adapter, is_of_core, is_of_main};
ghost use Rattle.wc_module_ways.specs.AdapterNames.{HasNames};

use std::alloc::AllocError;
use wc_import_paths::Asked;
use wc_maps::Set;
use wc_read::Import;

/// The module by which adapters import what the main module exports.
const MAIN_MODULE: &str = "__main_module__";

/// Appends those of these imports of the main module that are from no adapter, of which these are the names.
pub(crate) fn push_main_imports<'r>(
    names: &Set<&'r str>,
    imports: &[Import<'r>],
    found: &mut Vec<Import<'r>>,
) -> Result<(), AllocError>
    ensures { (given : List Given) → HasNames given names.now.keys → OnOk result
        (import_values found.new.items ≡ import_values found.old.items
        ++ filter (is_of_main given) (import_values imports.now)) }
{
    for import in imports {
        push_if(is_of_main(names, import), import, found)?;
    }
    Ok(())
}

/// Appends those of these imports of an adapter that are not from the main module.
pub(crate) fn push_adapter_imports<'r>(
    imports: &[Import<'r>],
    found: &mut Vec<Import<'r>>,
) -> Result<(), AllocError>
    ensures { OnOk result (import_values found.new.items ≡ import_values found.old.items
        ++ filter is_of_adapter (import_values imports.now)) }
{
    for import in imports {
        push_if(is_of_adapter(import), import, found)?;
    }
    Ok(())
}

/// Appends an import, if it is one of those.
fn push_if<'r>(
    is_one: bool,
    import: &Import<'r>,
    found: &mut Vec<Import<'r>>,
) -> Result<(), AllocError>
    ensures { OnOk result (import_values found.new.items ≡ import_values found.old.items
        ++ cond is_one (import_value import.now ∷ []) []) }
{
    if is_one {
        found.push(*import)?;
    }
    Ok(())
}

/// Appends those of these imports of a core module that are from no module of the component. `names`: the names of
/// those that serve them.
pub(crate) fn push_core_imports<'r>(
    names: &Set<&'r str>,
    is_library: bool,
    imports: &[Import<'r>],
    found: &mut Vec<Import<'r>>,
) -> Result<(), AllocError>
    ensures { (given : List Given) → HasNames given names.now.keys → OnOk result
        (import_values found.new.items ≡ import_values found.old.items
        ++ filter (is_of_core given is_library) (import_values imports.now)) }
{
    for import in imports {
        push_if(is_of_core(names, is_library, import), import, found)?;
    }
    Ok(())
}

/// Whether an import of the main module is shown: it is requested, and it is from no adapter. `names`: the names of the
/// adapters.
pub(crate) fn is_main_shown(names: &Set<&str>, asked: &Asked<'_, '_>, import: &Import<'_>) -> bool
    ensures { (given : List Given) → HasNames given names.now.keys
        → result ≡ is_main_shown given asked.now (import_value import.now) }
{
    is_of_main(names, import) && asked.is_shown(import)
}

/// Whether an import of an adapter is shown: it is from no module of the component, and it is asked for.
pub(crate) fn is_adapter_shown(asked: &Asked<'_, '_>, import: &Import<'_>) -> bool
    ensures { result ≡ is_adapter_shown asked.now (import_value import.now) }
{
    is_of_adapter(import) && asked.is_shown(import)
}

/// Whether an import of a core module is shown: it is from no module of the component, and it is asked for.
pub(crate) fn is_core_shown(
    names: &Set<&str>,
    is_library: bool,
    asked: &Asked<'_, '_>,
    import: &Import<'_>,
) -> bool
    ensures { (given : List Given) → HasNames given names.now.keys
        → result ≡ is_core_shown given is_library asked.now (import_value import.now) }
{
    is_of_core(names, is_library, import) && asked.is_shown(import)
}

/// Whether an import of the main module is from no adapter, of which these are the names.
pub(crate) fn is_of_main(names: &Set<&str>, import: &Import<'_>) -> bool
    ensures { (given : List Given) → HasNames given names.now.keys
        → result ≡ is_of_main given (import_value import.now) }
{
    !is_main_module(import) && !names.contains(import.module)
}

/// Whether an import of an adapter is from no module of the component.
pub(crate) fn is_of_adapter(import: &Import<'_>) -> bool
    ensures { result ≡ is_of_adapter (import_value import.now) }
{
    !is_main_module(import) && !(import.module == "env" && import.name == "memory")
}

/// Whether an import of a core module is from no module of the component. `names`: the names of those that serve them.
pub(crate) fn is_of_core(names: &Set<&str>, is_library: bool, import: &Import<'_>) -> bool
    ensures { (given : List Given) → HasNames given names.now.keys
        → result ≡ is_of_core given is_library (import_value import.now) }
{
    is_of_adapter(import)
        && !names.contains(import.module)
        && !(is_library && is_linkage(import.module))
}

/// Whether a library imports from a name what modules share that it is linked with.
fn is_linkage(from: &str) -> bool
    ensures { result ≡ is_linkage from.now }
{
    from == "env" || from == "GOT.mem" || from == "GOT.func"
}

/// Whether an import is from the main module.
fn is_main_module(import: &Import<'_>) -> bool
    ensures { result ≡ is_main_module (import_value import.now) }
{
    import.module == MAIN_MODULE
}
