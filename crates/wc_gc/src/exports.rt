//! The exports that are kept.

ghost use Rattle.std.specs.Prelude.{◌≡◌, ◌≢◌, ◌<◌, ℕ, map, length, AllPairs, None, IfErr, IfOk, IsOk};
ghost use Rattle.std.specs.List.{range_with_len, swap_remove};
ghost use Rattle.std.specs.Option.{option_map};
ghost use Rattle.wc_read.specs.Exports.{export_value};
ghost use Rattle.wc_gc.specs.Exports.{AreNamed, IsMissingFault, by_name, export_entries, export_names, kept_exports, missing_name};
ghost use Rattle.wc_gc.specs.LiveItems.{names_of};
ghost use Rattle.wc_gc.specs.Private.KeptOrder.{HasPosition};

use crate::fault::GcFault;
use crate::kept_order::KeptOrder;
use std::alloc::{AllocError, Global};
use wc_maps::{Map, Seed, Set};
use wc_read::Export;

/// The exports whose names are required, where each of these names is exported.
pub fn required_exports<'a>(
    alloc: Global,
    exports: &[Export<'a>],
    required: &Set<String>,
) -> Result<Vec<Export<'a>>, GcFault>
    requires { AllPairs (λ x y. x ≢ y) (export_names (map export_value exports.now)) }
    ensures kept { IfOk result (λ v. map export_value v.items
        ≡ kept_exports (names_of required.now.keys) (map export_value exports.now)) }
    ensures none { IsOk result → missing_name (map export_value exports.now)
        (names_of required.now.keys) ≡ None }
    ensures fault { IfErr result (IsMissingFault (map export_value exports.now)
        (names_of required.now.keys)) }
{
    let kept = kept_exports(alloc, exports, required)?;
    check_required(alloc, exports, &kept, required)?;
    Ok(kept)
}

/// The exports whose names are required. Each other one is taken out, in their order; the last export takes its index.
fn kept_exports<'a>(
    alloc: Global,
    exports: &[Export<'a>],
    required: &Set<String>,
) -> Result<Vec<Export<'a>>, AllocError>
    requires { AllPairs (λ x y. x ≢ y) (export_names (map export_value exports.now)) }
    ensures { IfOk result (λ v. map export_value v.items
        ≡ kept_exports (names_of required.now.keys) (map export_value exports.now)) }
{
    let mut kept = Vec::from_slice(alloc, exports)?;
    let mut positions = KeptOrder::of_all(alloc, exports.len())?;
    drop_exports(&mut kept, &mut positions, exports, required);
    Ok(kept)
}

/// Takes out each export that is not required. `positions`: the position of each export by its index.
fn drop_exports<'a>(
    kept: &mut Vec<Export<'a>>,
    positions: &mut KeptOrder,
    exports: &[Export<'a>],
    required: &Set<String>,
)
    requires distinct { AllPairs (λ x y. x ≢ y) (export_names (map export_value exports.now)) }
    requires all { kept.old.items ≡ exports.now }
    requires order { positions.old.order.items ≡ range_with_len 0 (length exports.now) }
    requires noted { (n : ℕ) → n < length exports.now → HasPosition positions.old n }
    ensures { map export_value kept.new.items
        ≡ kept_exports (names_of required.now.keys) (map export_value exports.now) }
{
    let mut index = 0;
    for export in exports {
        if !required.contains(export.name) {
            remove_at(kept, positions.take_out(index));
        }
        index += 1;
    }
}

/// Takes out the export at a position. The last one takes it.
fn remove_at<'a>(kept: &mut Vec<Export<'a>>, position: usize) -> Export<'a>
    requires { position < length kept.old.items }
    ensures { kept.new.items ≡ swap_remove kept.old.items position result }
{
    kept.swap_remove(position)
}

/// Says which of the names is not exported, the first of them. `kept`: the exports whose names are required.
fn check_required(
    alloc: Global,
    exports: &[Export<'_>],
    kept: &[Export<'_>],
    required: &Set<String>,
) -> Result<(), GcFault>
    requires distinct { AllPairs (λ x y. x ≢ y) (export_names (map export_value exports.now)) }
    requires kept { map export_value kept.now
        ≡ kept_exports (names_of required.now.keys) (map export_value exports.now) }
    ensures none { IsOk result → missing_name (map export_value exports.now)
        (names_of required.now.keys) ≡ None }
    ensures fault { IfErr result (IsMissingFault (map export_value exports.now)
        (names_of required.now.keys)) }
{
    // The names of exports are distinct, so if as many are kept as are required, none is missing.
    if kept.len() == required.len() {
        return Ok(());
    }
    let named = exports_by_name(alloc, *required.hasher(), exports)?;
    check_named(alloc, &named, required)
}

/// Exports by their names. `seed`: the seed of the map.
pub fn exports_by_name<'a>(
    alloc: Global,
    seed: Seed,
    exports: &[Export<'a>],
) -> Result<Map<&'a str, Export<'a>>, AllocError>
    requires { AllPairs (λ x y. x ≢ y) (export_names (map export_value exports.now)) }
    ensures { IfOk result (λ m. m.entries ≡ map by_name exports.now) }
{
    let mut named = Map::with_hasher(alloc, seed);
    for export in exports {
        named.insert(export.name, *export)?;
    }
    Ok(named)
}

/// The first of the names that is not exported.
fn missing_name<'a>(exports: &Map<&str, Export<'_>>, required: &'a Set<String>) -> Option<&'a str>
    requires { AreNamed exports.now.entries }
    ensures { option_map (λ name. name.now) result
        ≡ missing_name (export_entries exports.now.entries) (names_of required.now.keys) }
{
    for name in required {
        if !exports.contains_key(name.as_str()) {
            return Some(name.as_str());
        }
    }
    None
}

/// Says which of the names is not exported, the first of them.
pub fn check_named(
    alloc: Global,
    exports: &Map<&str, Export<'_>>,
    required: &Set<String>,
) -> Result<(), GcFault>
    requires { AreNamed exports.now.entries }
    ensures none { IsOk result → missing_name (export_entries exports.now.entries)
        (names_of required.now.keys) ≡ None }
    ensures fault { IfErr result (IsMissingFault (export_entries exports.now.entries)
        (names_of required.now.keys)) }
{
    match missing_name(exports, required) {
        None => Ok(()),
        Some(name) => Err(GcFault::MissingExport(String::from_str(alloc, name)?)),
    }
}
