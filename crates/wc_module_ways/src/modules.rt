//! The modules of a component before it is made.

ghost use Rattle.std.specs.Prelude.{◌≡◌, ◌++◌, IfErr, IfOk, List, OnOk, map};
ghost use Rattle.std.specs.List.{flat_map};
ghost use Rattle.wc_read.specs.Imports.{import_values};
ghost use Rattle.wc_why.specs.Texts.{text_of};
ghost use Rattle.wc_module_ways.specs.Adapters.{AreAdapters, Given, adapter_view, given_view};
ghost use Rattle.wc_module_ways.specs.CoreModules.{core_view};
ghost use Rattle.wc_import_paths.specs.MainModules.{IsMainOf, main_view};
ghost use Rattle.wc_module_ways.specs.NameLists.{AreListed};
ghost use Rattle.wc_module_ways.specs.Names.{NamePair};
ghost use Rattle.wc_module_ways.specs.Private.Others.{AreOthers};
ghost use Rattle.wc_module_ways.specs.Modules.{AreImportsIn, AreModules, IsWholeIf, core_imports, given_in, imports_through, input_view};
ghost use Rattle.wc_module_ways.specs.Refusals.{IsAdaptersRefusal, IsMainFault, IsOthersRefusal, IsReadRefusal};
ghost use Rattle.wc_module_ways.specs.AdapterNames.{HasNames};

use crate::adapter::AdapterModule;
use crate::adapters::{Wanted, read_adapters};
use crate::core_module::{CoreInput, CoreModule};
use crate::core_modules::{push_core_names, read_core};
use crate::functions::function_names_of;
use crate::name_lists::{NameLists, list_names};
use crate::refusals::{ModulesRefusal, of_main};
use crate::shared::{push_adapter_imports, push_core_imports, push_main_imports};
use std::alloc::{AllocError, Global};
use wc_import_paths::{MainModule, Refusal};
use wc_maps::{Seed, Set};
use wc_read::Import;

/// The modules of a component, as their files have them.
#[derive(Clone, Copy)]
pub struct ModulesInput<'a, 's> {
    /// The bytes of the main module.
    pub main: &'a [u8],
    /// Where its first byte lies in its file: 0, if it is a file of its own.
    pub main_offset: usize,
    /// The exports of it at which paths may begin, in order; all, if there are none.
    pub exports: &'s [&'a str],
    /// The names of the adapters, and the bytes of their modules, in order.
    pub adapters: &'s [(&'a str, &'a [u8])],
    /// The other core modules of a component's file, in order; none, where the modules are files of their own.
    pub core: &'s [CoreInput<'a>],
    /// Exports that are asked of adapters, each after the name of its adapter.
    pub adapter_exports: &'s [(&'a str, &'a str)],
    /// Whether what can't be read of the main module is a fault.
    pub is_whole: bool,
}

/// The modules of a component: before it is made the main module, and the adapters that it needs; of a component's file
/// the main module, and the other core modules.
#[derive(Drop)]
pub struct Modules<'r> {
    /// The main module.
    pub main: MainModule<'r>,
    /// The adapters that a component of it needs, in order.
    pub adapters: Vec<AdapterModule<'r>>,
    /// The other core modules of a component's file, in order.
    pub core: Vec<CoreModule<'r>>,
    /// The names of the functions that the main module imports, under the modules that they come from.
    pub(crate) functions: NameLists<'r>,
    /// The names of all adapters, and of the core modules from whose names others import.
    pub(crate) names: Set<&'r str>,
}

impl<'r> Modules<'r> {
    /// The modules with these bytes. `seed`: the seed of the maps that are made.
    ///
    /// These exports are required of an adapter: the functions that the main module imports under its name; the exports
    /// that a component may need; and the exports that the caller asks for. A component may need functions of
    /// interfaces, which have a `#` in their names; names of the standard scheme, which begin with `cm32p2`; reallocs
    /// (`cabi_realloc` of its type, `canonical_abi_realloc`, `cabi_import_realloc`, `cabi_export_realloc`,
    /// `cabi_realloc_adapter`); `_initialize` without parameters and results; a memory `memory`; and a table
    /// `__indirect_function_table`. An adapter is left out if the main module imports no function of it, it exports no
    /// function of an interface, and none of its exports is asked for.
    ///
    /// The other core modules of a component's file are followed from all their exports, the start function and active
    /// segments, and libraries among them are read. They are not trimmed, and none is left out.
    ///
    /// It takes time and memory linear in the modules and in the names.
    ///
    /// # Errors
    ///
    /// Of several causes the first in this order is named; `Memory` may come in place of any.
    ///
    /// - Of the main module: `Read`, with the byte at which it stops to be a module; `MissingExport`, an export that is
    ///   not there. A section of segments, or a body, that can't be read is one only where the main module has to be
    ///   whole.
    /// - Of an adapter, in order: `Read`, with the byte at which it stops to be a module.
    /// - Of another core module, in order: what `wc_import_paths::follow` names of it; of a library only `Read`, with
    ///   the byte.
    /// - `Memory`: an allocation failed.
    pub fn read(
        alloc: Global,
        seed: Seed,
        input: &ModulesInput<'r, '_>,
    ) -> Result<Modules<'r>, ModulesRefusal<'r>>
        ensures modules { IfOk result (AreModules (input_view input.now)) }
        ensures refused { IfErr result (IsReadRefusal (input_view input.now)) }
    {
        match main_of(alloc, seed, input) {
            Ok(main) => read_with(alloc, seed, input, main),
            Err(refused) => Err(of_main(input.main_offset, refused)),
        }
    }

    /// The imports of the modules to which paths may be shown: first the imports of the main module that are not from
    /// an adapter, then the imports of each adapter, and then those of each other core module. Imports that modules of
    /// a component share are left out: imports from `__main_module__`, and the `memory` that an adapter imports from
    /// `env`; of another core module also what it imports from the name of one of them, and of a library what it
    /// imports from `env`, `GOT.mem` and `GOT.func`.
    ///
    /// # Errors
    ///
    /// `AllocError`: an allocation failed.
    pub fn imports(&self, alloc: Global) -> Result<Vec<Import<'r>>, AllocError>
        ensures { IfOk result (λ v. AreImportsIn self.now (import_values v.items)) }
    {
        let mut imports = Vec::new(alloc);
        push_main_imports(&self.names, &self.main.code().imports, &mut imports)?;
        push_all_imports(&self.adapters, &mut imports)?;
        push_all_core_imports(&self.names, &self.core, &mut imports)?;
        Ok(imports)
    }
}

/// The main module.
fn main_of<'r>(
    alloc: Global,
    seed: Seed,
    input: &ModulesInput<'r, '_>,
) -> Result<MainModule<'r>, Refusal>
    ensures main { IfOk result (IsMainOf input.now.main.now (map text_of input.now.exports.now)) }
    ensures whole { IfOk result (λ m. IsWholeIf input.now.is_whole (main_view m)) }
    ensures refused { IfErr result (λ r. IsMainFault input.now.is_whole input.now.main.now
        (map text_of input.now.exports.now) r.fault r.place) }
{
    if input.is_whole {
        MainModule::follow(alloc, seed, input.main, input.exports)
    } else {
        MainModule::read(alloc, seed, input.main, input.exports)
    }
}

/// Appends the imports of adapters that belong to no other module of the component.
fn push_all_imports<'r>(
    adapters: &[AdapterModule<'r>],
    found: &mut Vec<Import<'r>>,
) -> Result<(), AllocError>
    ensures { OnOk result (import_values found.new.items ≡ import_values found.old.items
        ++ flat_map imports_through (map adapter_view adapters.now)) }
{
    for adapter in adapters {
        push_adapter_imports(&adapter.code.imports, found)?;
    }
    Ok(())
}

/// Appends the imports of core modules that belong to no other module of the component. `names`: the names of those
/// that serve them.
fn push_all_core_imports<'r>(
    names: &Set<&'r str>,
    core: &[CoreModule<'r>],
    found: &mut Vec<Import<'r>>,
) -> Result<(), AllocError>
    ensures { (given : List Given) → HasNames given names.now.keys → OnOk result
        (import_values found.new.items ≡ import_values found.old.items
        ++ flat_map (core_imports given) (map core_view core.now)) }
{
    for one in core {
        push_core_imports(names, one.is_library(), &one.code().imports, found)?;
    }
    Ok(())
}

/// The modules with this main module.
fn read_with<'r>(
    alloc: Global,
    seed: Seed,
    input: &ModulesInput<'r, '_>,
    main: MainModule<'r>,
) -> Result<Modules<'r>, ModulesRefusal<'r>>
    requires is_main { IsMainOf input.now.main.now (map text_of input.now.exports.now) main }
    requires whole { IsWholeIf input.now.is_whole (main_view main) }
    ensures modules { IfOk result (AreModules (input_view input.now)) }
    ensures refused { IfErr result (IsOthersRefusal (input_view input.now)) }
{
    match read_others(alloc, seed, input, &main.code().imports) {
        Ok(others) => Ok(modules_of(main, others)),
        Err(refusal) => Err(refusal),
    }
}

/// The main module with the others.
fn modules_of<'r>(main: MainModule<'r>, others: Others<'r>) -> Modules<'r>
    ensures main { result.main ≡ main.entry }
    ensures adapters { result.adapters.items ≡ others.entry.adapters.items }
    ensures core { result.core.items ≡ others.entry.core.items }
    ensures functions { result.functions.entries ≡ others.entry.functions.entries }
    ensures names { result.names.keys ≡ others.entry.names.keys }
{
    let Others {
        adapters,
        core,
        functions,
        names,
    } = others;
    Modules {
        main,
        adapters,
        core,
        functions,
        names,
    }
}

/// The adapters that a component needs, the other core modules, and what is looked up of them.
#[derive(Drop)]
struct Others<'r> {
    adapters: Vec<AdapterModule<'r>>,
    core: Vec<CoreModule<'r>>,
    functions: NameLists<'r>,
    names: Set<&'r str>,
}

/// The adapters, and the other core modules, for a main module with these imports.
fn read_others<'r>(
    alloc: Global,
    seed: Seed,
    input: &ModulesInput<'r, '_>,
    imports: &[Import<'r>],
) -> Result<Others<'r>, ModulesRefusal<'r>>
    ensures others { IfOk result (AreOthers (input_view input.now) (import_values imports.now)) }
    ensures refused { IfErr result (IsOthersRefusal (input_view input.now)) }
{
    let functions = function_names_of(alloc, seed, imports)?;
    let adapters = adapters_for(alloc, seed, input, &functions)?;
    let core = read_core(alloc, seed, input.core)?;
    let names = names_of(alloc, seed, input)?;
    Ok(Others {
        adapters,
        core,
        functions,
        names,
    })
}

/// The adapters for a main module that imports these functions.
fn adapters_for<'r>(
    alloc: Global,
    seed: Seed,
    input: &ModulesInput<'r, '_>,
    functions: &NameLists<'r>,
) -> Result<Vec<AdapterModule<'r>>, ModulesRefusal<'r>>
    ensures adapters { (imported : List NamePair) → AreListed imported functions.now.entries →
        IfOk result (λ v. AreAdapters imported
        (input_view input.now).adapter_exports (map given_view input.now.adapters.now)
        (map adapter_view v.items)) }
    ensures refused { IfErr result (IsAdaptersRefusal (map given_view input.now.adapters.now)) }
{
    let asked = list_names(alloc, seed, input.adapter_exports)?;
    let wanted = Wanted {
        imported: functions,
        asked: &asked,
    };
    read_adapters(alloc, seed, input.adapters, wanted)
}

/// The names of adapters, and of the core modules from whose names others import, as a set.
fn names_of<'r>(
    alloc: Global,
    seed: Seed,
    input: &ModulesInput<'r, '_>,
) -> Result<Set<&'r str>, AllocError>
    ensures { IfOk result (λ s. HasNames (given_in (input_view input.now)) s.keys) }
{
    let mut names = adapter_names(alloc, seed, input.adapters)?;
    push_core_names(input.core, &mut names)?;
    Ok(names)
}

/// The names of adapters as a set.
fn adapter_names<'r>(
    alloc: Global,
    seed: Seed,
    adapters: &[(&'r str, &'r [u8])],
) -> Result<Set<&'r str>, AllocError>
    ensures { IfOk result (λ s. HasNames (map given_view adapters.now) s.keys) }
{
    let mut names = Set::with_hasher(alloc, seed);
    for adapter in adapters {
        names.insert(adapter.0)?;
    }
    Ok(names)
}
