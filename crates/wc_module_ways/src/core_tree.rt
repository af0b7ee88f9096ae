//! The imports of the core modules of a component's file to which paths are shown.

ghost use Rattle.std.specs.Prelude.{◌≡◌, ◌+◌, ◌<◌, ◌^◌, ◌++◌, List, OnOk, length, map};
ghost use Rattle.wc_read.specs.Imports.{import_values};
ghost use Rattle.wc_paths.specs.Counts.{counts_value};
ghost use Rattle.wc_paths.specs.Numbers.{item_count};
ghost use Rattle.wc_import_paths.specs.Shown.{end_view, import_ends};
ghost use Rattle.wc_module_ways.specs.AdapterNames.{HasNames};
ghost use Rattle.wc_module_ways.specs.Adapters.{Given};
ghost use Rattle.wc_module_ways.specs.CoreModules.{core_view};
ghost use Rattle.wc_module_ways.specs.Modules.{is_core_shown};
ghost use Rattle.wc_module_ways.specs.Tree.{all_core_ends};

use crate::modules::Modules;
use crate::shared::is_core_shown;
use std::alloc::{AllocError, Global};
use wc_import_paths::{Asked, ShownEnd, push_shown};
use wc_maps::Set;
use wc_paths::{Counts, import_items};
use wc_read::Import;

/// Which imports of a core module are shown.
#[derive(Clone, Copy)]
struct CoreShown<'f, 'r, 'p, 'a> {
    /// The names of the modules that serve them.
    names: &'f Set<&'r str>,
    /// Whether the core module is a library.
    is_library: bool,
    /// The imports that are asked for.
    asked: &'f Asked<'p, 'a>,
}

/// Appends the imports of core modules that are asked for. `first`: the position of the part of the first of them.
pub(crate) fn push_core<'r>(
    alloc: Global,
    modules: &Modules<'r>,
    asked: &Asked<'_, '_>,
    first: usize,
    shown: &mut Vec<ShownEnd<'r>>,
) -> Result<(), AllocError>
    requires { first + length modules.now.core.items < 2 ^ 64 }
    ensures { (given : List Given) → HasNames given modules.now.names.keys → OnOk result
        (map end_view shown.new.items ≡ map end_view shown.old.items
        ++ all_core_ends given asked.now first (map core_view modules.now.core.items)) }
{
    for index in 0..modules.core.len() {
        let core = &modules.core[index];
        let of = CoreShown {
            names: &modules.names,
            is_library: core.is_library(),
            asked,
        };
        let counts = core.counts();
        push_one(
            alloc,
            of,
            &core.code().imports,
            (first + index, &counts),
            shown,
        )?;
    }
    Ok(())
}

/// Appends those of these imports of a core module, which is a part with so many items, that are shown.
fn push_one<'r>(
    alloc: Global,
    of: CoreShown<'_, '_, '_, '_>,
    imports: &[Import<'r>],
    part: (usize, &Counts),
    shown: &mut Vec<ShownEnd<'r>>,
) -> Result<(), AllocError>
    requires { item_count (counts_value part.1.now) < 2 ^ 64 }
    ensures { (given : List Given) → HasNames given of.entry.names.now.keys → OnOk result
        (map end_view shown.new.items ≡ map end_view shown.old.items
        ++ import_ends part.entry.0 (counts_value part.entry.1.now)
        (is_core_shown given of.entry.is_library of.entry.asked.now) (import_values imports.now)) }
{
    let (position_of_part, counts) = part;
    let items = import_items(alloc, imports)?;
    for position in 0..imports.len() {
        let import = &imports[position];
        let item = items[position];
        let is_wanted = is_core_shown(of.names, of.is_library, of.asked, import);
        push_shown((counts, position_of_part), import, item, is_wanted, shown)?;
    }
    Ok(())
}
