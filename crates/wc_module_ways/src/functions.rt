//! The functions that the main module imports.

ghost use Rattle.std.specs.Prelude.{◌≡◌, [], ◌∷◌, ◌++◌, IfOk, OnOk, cond, map};
ghost use Rattle.wc_read.specs.Imports.{import_values};
ghost use Rattle.wc_module_ways.specs.NameLists.{AreListed};
ghost use Rattle.wc_module_ways.specs.Names.{function_pairs, is_function, pair_view};

use crate::name_lists::{NameLists, list_names};
use std::alloc::{AllocError, Global};
use wc_maps::Seed;
use wc_read::{Import, ImportType};

/// The names of the functions among these imports, under the modules that they come from, in order. `seed`: the seed
/// of the map.
pub(crate) fn function_names_of<'r>(
    alloc: Global,
    seed: Seed,
    imports: &[Import<'r>],
) -> Result<NameLists<'r>, AllocError>
    ensures { IfOk result (λ m. AreListed (function_pairs (import_values imports.now)) m.entries) }
{
    let pairs = function_pairs(alloc, imports)?;
    list_names(alloc, seed, &pairs)
}

/// The modules and the names of the functions among imports.
fn function_pairs<'r>(
    alloc: Global,
    imports: &[Import<'r>],
) -> Result<Vec<(&'r str, &'r str)>, AllocError>
    ensures { IfOk result (λ v. map pair_view v.items
        ≡ function_pairs (import_values imports.now)) }
{
    let mut pairs = Vec::new(alloc);
    for import in imports {
        push_function(import, &mut pairs)?;
    }
    Ok(pairs)
}

/// Appends the module and the name of an import, if it is a function.
fn push_function<'r>(
    import: &Import<'r>,
    pairs: &mut Vec<(&'r str, &'r str)>,
) -> Result<(), AllocError>
    ensures { OnOk result (map pair_view pairs.new.items ≡ map pair_view pairs.old.items
        ++ cond (is_function import.now.ty) ((import.now.module.now, import.now.name.now) ∷ []) []) }
{
    if is_function(import.ty) {
        pairs.push((import.module, import.name))?;
    }
    Ok(())
}

/// Whether what is imported is a function.
pub(crate) fn is_function(ty: ImportType) -> bool
    ensures { result ≡ is_function ty }
{
    matches!(ty, ImportType::Func(_))
}
