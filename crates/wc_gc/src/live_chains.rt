//! The chains by which required exports reach the live items of an adapter.

ghost use Rattle.std.specs.Prelude.{◌≡◌, Contains, IsOk, IfOk, IfErr, IfSome, IfNone, Some};
ghost use Rattle.std.specs.List.{slice_get};
ghost use Rattle.wc_read.specs.Modules.{IsModule, module_value};
ghost use Rattle.wc_gc.specs.LiveItems.{HasLiveBody, IsFault, IsLivenessCause, IsSupported, names_of, trim_input};
ghost use Rattle.wc_gc.specs.LiveChains.{AreImportChains, AreWhyImports, ChainsUnique, IsWhy, KeptIsLive, items_named};
ghost use Rattle.wc_gc.specs.Private.TrimPlace.{HasFound, IsRefusalOf};
ghost use Rattle.wc_gc.specs.Private.Roots.{AreNamedRoots};

use crate::exports::{check_named, exports_by_name};
use crate::fault::GcFault;
use crate::finders::{Finders, Roots, find_all, find_roots};
use crate::import_chains::{Chain, ImportChains};
use crate::import_positions::import_positions;
use crate::trim_place::bodies::stopped;
use crate::trim_place::{Refusal, first_unsupported, unsupported, why_imports_explained};
use std::alloc::Global;
use wc_maps::Set;
use wc_read::{Module, Space};
use wc_texts::Refused;

/// Why an item of an adapter is live: the shortest chain to it from a required export, and of several the first, by the
/// order of the required names, and then by the order in which each item names others. `None` where the item is not
/// live; then the required exports don't reach it, or the adapter doesn't have it.
///
/// The chain is one of the adapter as it is, before `run` adds code or exchanges imported reallocs. It takes time and
/// memory linear in the adapter.
///
/// # Errors
///
/// Those of `liveness_counted`: of several causes the first in this order is named; `Memory` may come in place of any.
///
/// - `Read`: the bytes are no module; the fault of `read_module`.
/// - `MissingExport`: a required name is not exported; the first of them.
/// - `UnsupportedSection`: the adapter has a start function, or a section of elements, data or a data count.
/// - `LiveBody`: a body that is reached is no code, or names a segment or an index that is out of range.
/// - `Memory`: an allocation failed.
pub fn why<'a>(
    alloc: Global,
    wasm: &[u8],
    required: &'a Set<String>,
    item: (Space, u32),
) -> Result<Option<Chain<'a>>, GcFault>
    // The chain exactly where the item is live.
    ensures chain { IfOk result (IsWhy (trim_input wasm.now required.now.keys) item) }
    // A fault has its cause, and no fault before it has.
    ensures fault { IfErr result (IsFault (trim_input wasm.now required.now.keys)) }
    // Without a fault there is no cause.
    ensures no_cause { IsOk result →
        (f : GcFault) → ¬ (IsLivenessCause (trim_input wasm.now required.now.keys) f) }
{
    let chains = why_imports(alloc, wasm, required)?;
    match position_of(&chains.order, item) {
        Some(position) => Ok(Some(chains.chain(alloc, position)?)),
        None => Ok(None),
    }
}

/// Why the imports of an adapter are live: the chains of `why` to all live items, in one pass, as a tree from which one
/// chain at a time is taken (`ImportChains::chain`), and for each import the position of its item. It takes time and
/// memory linear in the adapter; the chains of n imports together may be n² items.
///
/// # Errors
///
/// Those of `liveness_counted`, as `why` has them.
pub fn why_imports<'a>(
    alloc: Global,
    wasm: &[u8],
    required: &'a Set<String>,
) -> Result<ImportChains<'a>, GcFault>
    ensures chains { IfOk result (AreWhyImports (trim_input wasm.now required.now.keys)) }
    // A fault has its cause, and no fault before it has.
    ensures fault { IfErr result (IsFault (trim_input wasm.now required.now.keys)) }
    // Without a fault there is no cause.
    ensures no_cause { IsOk result →
        (f : GcFault) → ¬ (IsLivenessCause (trim_input wasm.now required.now.keys) f) }
{
    match why_imports_explained(alloc, wasm, required) {
        Ok(chains) => Ok(chains),
        Err(refused) => Err(refused.fault),
    }
}

/// The chains to what a module imports that was read.
pub fn chains_in<'a>(
    alloc: Global,
    adapter: &Module<'_>,
    required: &'a Set<String>,
) -> Result<ImportChains<'a>, Refusal>
    requires { IsModule (module_value adapter.now) }
    ensures chains { IfOk result (AreImportChains (names_of required.now.keys)
        (module_value adapter.now)) }
    ensures supported { IsOk result →
        IsSupported (names_of required.now.keys) (module_value adapter.now) }
    ensures in_range { IsOk result →
        ¬ (HasLiveBody (names_of required.now.keys) (module_value adapter.now)) }
    ensures refusal { IfErr result
        (IsRefusalOf (names_of required.now.keys) (module_value adapter.now)) }
{
    let roots = supported_roots(alloc, adapter, required)?;
    let Roots { search, exports } = roots;
    let found = match find_all(alloc, adapter, search) {
        Ok(found) => found,
        Err(stop) => return Err(stopped(alloc, adapter, stop)),
    };
    let Finders { order, finder } = found;
    let imports = import_positions(alloc, &adapter.imports, &order)?;
    Ok(ImportChains {
        order,
        finder,
        exports,
        imports,
    })
}

/// The items of required exports, where there is nothing that is not supported.
fn supported_roots<'a>(
    alloc: Global,
    adapter: &Module<'_>,
    required: &'a Set<String>,
) -> Result<Roots<'a>, Refusal>
    requires { IsModule (module_value adapter.now) }
    ensures found { IfOk result (λ r. HasFound (items_named (module_value adapter.now).exports
        (names_of required.now.keys)) r.search) }
    ensures named { IfOk result (AreNamedRoots (names_of required.now.keys)
        (module_value adapter.now).exports) }
    ensures supported { IsOk result →
        IsSupported (names_of required.now.keys) (module_value adapter.now) }
    ensures refusal { IfErr result
        (IsRefusalOf (names_of required.now.keys) (module_value adapter.now)) }
{
    let named = exports_by_name(alloc, *required.hasher(), &adapter.exports)?;
    if let Err(fault) = check_named(alloc, &named, required) {
        return Err(Refused::without_place(fault));
    }
    if let Some(id) = first_unsupported(adapter) {
        return Err(unsupported(id));
    }
    let roots = find_roots(alloc, &named, required)?;
    Ok(roots)
}

/// The position of an item.
fn position_of(order: &[(Space, u32)], item: (Space, u32)) -> Option<usize>
    ensures found { IfSome result (λ k. slice_get order.now k ≡ Some item) }
    ensures none { IfNone result (¬ (Contains order.now item)) }
{
    for (position, other) in order.iter().enumerate() {
        if *other == item {
            return Some(position);
        }
    }
    None
}

/// Law: of two such chains to an item neither is shorter or before the other, so they are one.
pub fn chains_unique()
    ensures { ChainsUnique }
{}

/// Law: what is kept of an adapter that `run` trims is what is live, so the code that is added keeps nothing. Each item
/// that is kept has its chain in the adapter as it was.
pub fn kept_is_live()
    ensures { KeptIsLive }
{}
