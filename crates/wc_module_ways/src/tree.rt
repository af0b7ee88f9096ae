//! The paths to what modules import as one tree: from the main module, and through its adapters.

ghost use Rattle.std.specs.Prelude.{◌≡◌, ◌<◌, ◌^◌, ◌++◌, [], All, IfErr, IfOk, List, OnOk, cond, length, map};
ghost use Rattle.wc_read.specs.Imports.{import_values};
ghost use Rattle.wc_paths.specs.Counts.{counts_value};
ghost use Rattle.wc_paths.specs.Numbers.{item_count};
ghost use Rattle.wc_why.specs.Part.{part_view};
ghost use Rattle.wc_why.specs.Tree.{tree_caller_view, tree_view};
ghost use Rattle.wc_import_paths.specs.MainModules.{bytes_in, main_view, reached_in};
ghost use Rattle.wc_import_paths.specs.Shown.{end_view, import_ends};
ghost use Rattle.wc_module_ways.specs.AdapterNames.{HasNames};
ghost use Rattle.wc_module_ways.specs.Adapters.{Given, adapter_view};
ghost use Rattle.wc_module_ways.specs.CoreModules.{core_view};
ghost use Rattle.wc_module_ways.specs.Modules.{AreView, HasModules, ModulesView, is_adapter_shown, is_main_shown};
ghost use Rattle.wc_module_ways.specs.Parts.{AreParts};
ghost use Rattle.wc_module_ways.specs.Refusals.{HasNoCause, IsThisRefusal, IsWaysRefusal};
ghost use Rattle.wc_module_ways.specs.Private.Parts.{HasAdapterParts};
ghost use Rattle.wc_module_ways.specs.Tree.{IsTreeIn, all_adapter_ends, import_ends_of, shown_ends};

use crate::adapter::AdapterModule;
use crate::core_tree::push_core;
use crate::modules::Modules;
use crate::parts::parts_of;
use crate::refusals::{ModulesRefusal, of_adapter};
use crate::shared::{is_adapter_shown, is_main_shown};
use std::alloc::{AllocError, Global};
use wc_gc::why_imports_explained;
use wc_import_paths::{
    Asked, ShownEnd, is_any_asked, push_functions, push_shown, shows_imports, tree_to_ends,
};
use wc_maps::Set;
use wc_paths::{Counts, import_items};
use wc_read::Import;
use wc_why::{Part, Tree, TreeCaller};

/// The tree of the paths to the imports of modules that are asked for: those of the main module that are not from an
/// adapter, then those of each adapter, and then those of each other core module; and then to these functions of the
/// main module. Where only functions are asked for, no import is shown.
///
/// It takes time and memory linear in the modules.
///
/// # Errors
///
/// Of several causes the first in this order is named; `Memory` may come in place of any.
///
/// - Of an adapter, in order: what `wc_gc::why_imports` names of it, with its place.
/// - `Memory`: an allocation failed.
pub fn tree_of_modules<'r>(
    alloc: Global,
    modules: &'r Modules<'r>,
    asked: &Asked<'_, '_>,
    functions: &[TreeCaller<'r>],
) -> Result<Tree<'r>, ModulesRefusal<'r>>
    requires { HasModules modules.now }
    ensures tree { IfOk result (λ t. IsTreeIn modules.now asked.now
        (map tree_caller_view functions.now) (tree_view t)) }
    ensures refused { IfErr result
        (IsWaysRefusal (map adapter_view modules.now.adapters.items)) }
    // Without a fault there is no cause.
    ensures no_cause { OnOk result
        (All HasNoCause (map adapter_view modules.now.adapters.items)) }
{
    check_adapters(alloc, &modules.adapters)?;
    Ok(tree_of(alloc, modules, asked, functions)?)
}

/// Checks that each adapter can be trimmed for what is required of it.
fn check_adapters<'r>(
    alloc: Global,
    adapters: &[AdapterModule<'r>],
) -> Result<(), ModulesRefusal<'r>>
    ensures refused { IfErr result (IsWaysRefusal (map adapter_view adapters.now)) }
    ensures no_cause { OnOk result (All HasNoCause (map adapter_view adapters.now)) }
{
    for adapter in adapters {
        check_adapter(alloc, adapter)?;
    }
    Ok(())
}

/// Checks that an adapter can be trimmed for what is required of it.
fn check_adapter<'r>(alloc: Global, adapter: &AdapterModule<'r>) -> Result<(), ModulesRefusal<'r>>
    ensures refused { IfErr result (IsThisRefusal (adapter_view adapter.now)) }
    ensures no_cause { OnOk result (HasNoCause (adapter_view adapter.now)) }
{
    match why_imports_explained(alloc, adapter.bytes, &adapter.required) {
        Ok(_chains) => Ok(()),
        Err(refused) => Err(of_adapter(adapter.name, adapter.bytes, refused)),
    }
}

/// The tree of modules of which each adapter can be trimmed.
fn tree_of<'r>(
    alloc: Global,
    modules: &'r Modules<'r>,
    asked: &Asked<'_, '_>,
    functions: &[TreeCaller<'r>],
) -> Result<Tree<'r>, AllocError>
    requires { HasModules modules.now }
    ensures { IfOk result (λ t. IsTreeIn modules.now asked.now
        (map tree_caller_view functions.now) (tree_view t)) }
{
    let parts = parts_of(alloc, modules)?;
    let shown = shown_in(alloc, modules, asked, functions, &parts)?;
    let is_asked = is_any_asked(asked, functions);
    tree_to_ends(alloc, &parts, &shown, is_asked, false)
}

/// The ends that are shown of modules, which are these parts.
fn shown_in<'r>(
    alloc: Global,
    modules: &'r Modules<'r>,
    asked: &Asked<'_, '_>,
    functions: &[TreeCaller<'r>],
    parts: &[Part<'_>],
) -> Result<Vec<ShownEnd<'r>>, AllocError>
    requires { AreParts (main_view modules.now.main) (bytes_in modules.now.main)
        (map adapter_view modules.now.adapters.items) (map core_view modules.now.core.items)
        (map part_view parts.now) }
    ensures { (w : ModulesView) → AreView modules.now w → IfOk result (λ v. map end_view v.items
        ≡ shown_ends w asked.now (reached_in modules.now.main) (map tree_caller_view functions.now)) }
{
    let has_imports = shows_imports(asked, functions);
    let mut shown = imports_if(alloc, modules, asked, has_imports, parts)?;
    let reached = modules.main.reached();
    push_functions(&parts[0].counts, reached, functions, &mut shown)?;
    Ok(shown)
}

/// The imports of modules that are asked for; none, if they are not to be shown.
fn imports_if<'r>(
    alloc: Global,
    modules: &'r Modules<'r>,
    asked: &Asked<'_, '_>,
    is_wanted: bool,
    parts: &[Part<'_>],
) -> Result<Vec<ShownEnd<'r>>, AllocError>
    requires { AreParts (main_view modules.now.main) (bytes_in modules.now.main)
        (map adapter_view modules.now.adapters.items) (map core_view modules.now.core.items)
        (map part_view parts.now) }
    ensures { (w : ModulesView) → AreView modules.now w → IfOk result (λ v. map end_view v.items
        ≡ cond is_wanted (import_ends_of w asked.now) []) }
{
    let mut shown = Vec::new(alloc);
    if is_wanted {
        push_imports(alloc, modules, asked, parts, &mut shown)?;
        Ok(shown)
    } else {
        Ok(shown)
    }
}

/// Appends the imports of modules that are asked for.
fn push_imports<'r>(
    alloc: Global,
    modules: &'r Modules<'r>,
    asked: &Asked<'_, '_>,
    parts: &[Part<'_>],
    shown: &mut Vec<ShownEnd<'r>>,
) -> Result<(), AllocError>
    requires { AreParts (main_view modules.now.main) (bytes_in modules.now.main)
        (map adapter_view modules.now.adapters.items) (map core_view modules.now.core.items)
        (map part_view parts.now) }
    ensures { (w : ModulesView) → AreView modules.now w → OnOk result (map end_view shown.new.items
        ≡ map end_view shown.old.items ++ import_ends_of w asked.now) }
{
    let imports = &modules.main.code().imports;
    push_main(
        alloc,
        &modules.names,
        asked,
        (imports, &parts[0].counts),
        shown,
    )?;
    push_adapters(alloc, &modules.adapters, asked, parts, shown)?;
    push_core(alloc, modules, asked, modules.adapters.len() + 1, shown)
}

/// Appends the imports of the main module that are asked for, and from no adapter, of which these are the names.
fn push_main<'r>(
    alloc: Global,
    names: &Set<&str>,
    asked: &Asked<'_, '_>,
    main: (&[Import<'r>], &Counts),
    shown: &mut Vec<ShownEnd<'r>>,
) -> Result<(), AllocError>
    requires { item_count (counts_value main.1.now) < 2 ^ 64 }
    ensures { (given : List Given) → HasNames given names.now.keys → OnOk result
        (map end_view shown.new.items ≡ map end_view shown.old.items
        ++ import_ends 0 (counts_value main.entry.1.now) (is_main_shown given asked.now)
        (import_values main.entry.0.now)) }
{
    let (imports, counts) = main;
    let items = import_items(alloc, imports)?;
    for position in 0..imports.len() {
        let import = &imports[position];
        let item = items[position];
        let is_wanted = is_main_shown(names, asked, import);
        push_shown((counts, 0), import, item, is_wanted, shown)?;
    }
    Ok(())
}

/// Appends the imports of adapters that are asked for.
fn push_adapters<'r>(
    alloc: Global,
    adapters: &'r [AdapterModule<'r>],
    asked: &Asked<'_, '_>,
    parts: &[Part<'_>],
    shown: &mut Vec<ShownEnd<'r>>,
) -> Result<(), AllocError>
    requires { HasAdapterParts (map adapter_view adapters.now) (map part_view parts.now) }
    ensures { OnOk result (map end_view shown.new.items ≡ map end_view shown.old.items
        ++ all_adapter_ends asked.now 1 (map adapter_view adapters.now)) }
{
    for index in 0..adapters.len() {
        let imports = &adapters[index].code.imports;
        push_adapter(
            alloc,
            imports,
            asked,
            (index + 1, &parts[index + 1].counts),
            shown,
        )?;
    }
    Ok(())
}

/// Appends those of these imports of an adapter, which is a part, that are asked for.
fn push_adapter<'r>(
    alloc: Global,
    imports: &[Import<'r>],
    asked: &Asked<'_, '_>,
    part: (usize, &Counts),
    shown: &mut Vec<ShownEnd<'r>>,
) -> Result<(), AllocError>
    requires { item_count (counts_value part.1.now) < 2 ^ 64 }
    ensures { OnOk result (map end_view shown.new.items ≡ map end_view shown.old.items
        ++ import_ends part.entry.0 (counts_value part.entry.1.now) (is_adapter_shown asked.now)
        (import_values imports.now)) }
{
    let (position_of_part, counts) = part;
    let items = import_items(alloc, imports)?;
    for position in 0..imports.len() {
        let import = &imports[position];
        let item = items[position];
        let is_wanted = is_adapter_shown(asked, import);
        push_shown((counts, position_of_part), import, item, is_wanted, shown)?;
    }
    Ok(())
}
