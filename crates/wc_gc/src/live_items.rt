//! The items that the required exports of an adapter reach.

ghost use Rattle.std.specs.Prelude.{◌≡◌, map, IsOk, IfOk, IfErr};
ghost use Rattle.wc_read.specs.Exports.{export_value};
ghost use Rattle.wc_read.specs.Modules.{IsModule, module_value};
ghost use Rattle.wc_read.specs.Decoded.{exported_item};
ghost use Rattle.wc_gc.specs.Exports.{kept_exports};
ghost use Rattle.wc_gc.specs.Live.{has_item};
ghost use Rattle.wc_gc.specs.Private.KeptBodies.{AreBodiesCut};
ghost use Rattle.wc_gc.specs.LiveItems.{IsLivenessCause, IsFault, IsLiveness, IsLivenessOf, IsSupported, names_of, trim_input};
ghost use Rattle.wc_gc.specs.Private.TrimPlace.{IsRefusalOf};

use crate::body_cuts::BodyCuts;
use crate::exports::required_exports;
use crate::fault::GcFault;
use crate::live::{BitVec, LiveSet, LiveSets};
use crate::range_set::RangeSet;
use crate::search::Search;
use crate::trim_place::bodies::stopped;
use crate::trim_place::{Refusal, first_unsupported, unsupported};
use std::alloc::{AllocError, Global};
use wc_maps::Set;
use wc_read::{Export, ExportKind, Module, Space, read_module};
use wc_texts::Refused;

/// The reached items of an adapter.
#[derive(Debug, Drop)]
pub struct Liveness<L> {
    /// The items, by their spaces.
    pub live: LiveSets<L>,
    /// How many items were visited.
    pub turns: u64,
}

/// The items that the required exports of an adapter reach: the items that they name, and the items that a reached
/// item names. A function names its type and the items in its body, a global the items in its initialiser. Each
/// reached item is visited once. Bodies that are not reached are not read.
///
/// # Errors
///
/// If several causes apply, the first in this order is named; `Memory` may come instead of any.
///
/// - `Read`: the bytes are no module; the fault of `read_module`.
/// - `MissingExport`: a required name is not exported; the first of them.
/// - `UnsupportedSection`: the adapter has a start function, or a section of elements, data or a data count.
/// - `LiveBody`: a body that is reached is no code, or names a segment or an index that is out of range.
/// - `Memory`: an allocation failed.
pub fn liveness_counted(
    alloc: Global,
    wasm: &[u8],
    required: &Set<String>,
) -> Result<Liveness<RangeSet>, GcFault>
    // What is live is what is reached.
    ensures live { IfOk result (λ l. IsLiveness (trim_input wasm.now required.now.keys)
        (has_item ⟦<RangeSet as LiveSet>⟧.has l.live) l.turns) }
    // A fault has its cause, and no fault before it has.
    ensures fault { IfErr result (IsFault (trim_input wasm.now required.now.keys)) }
    // Without a fault there is no cause.
    ensures no_cause { IsOk result →
        (f : GcFault) → ¬ (IsLivenessCause (trim_input wasm.now required.now.keys) f) }
{
    let adapter = read_module(alloc, wasm)?;
    match find_live_in(alloc, &adapter, required, 0) {
        Ok(reached) => Ok(reached.found),
        Err(refused) => Err(refused.fault),
    }
}

/// The exports that are kept of an adapter, and the items that they reach.
#[derive(Drop)]
pub struct Reached<'a, L> {
    /// The exports that are kept.
    pub exports: Vec<Export<'a>>,
    /// The live items.
    pub found: Liveness<L>,
    /// The live bodies, as they were cut.
    pub cuts: BodyCuts<'a>,
}

/// The kept exports of a module that was read, and its live items, in sets of any kind. The search marks found items
/// by bits. It keeps the stretches of live bodies among the first `places` functions.
pub fn find_live_in<'a, L: LiveSet>(
    alloc: Global,
    adapter: &Module<'a>,
    required: &Set<String>,
    places: usize,
) -> Result<Reached<'a, L>, Refusal>
    requires { IsModule (module_value adapter.now) }
    ensures kept { IfOk result (λ r. map export_value r.exports.items
        ≡ kept_exports (names_of required.now.keys) (module_value adapter.now).exports) }
    ensures live { IfOk result (λ r. IsLivenessOf (names_of required.now.keys)
        (module_value adapter.now) (has_item L.has r.found.live) r.found.turns) }
    ensures cut { IfOk result (λ r. AreBodiesCut adapter.now.funcs.items r.cuts) }
    ensures refusal { IfErr result
        (IsRefusalOf (names_of required.now.keys) (module_value adapter.now)) }
{
    let exports = supported_exports(alloc, adapter, required)?;
    let roots = exported_items(alloc, &exports)?;
    let mut search = Search::<BitVec>::new(alloc);
    let mut cuts = BodyCuts::new(alloc, places)?;
    let turns = match search.reach_all(alloc, adapter, &roots, &mut cuts) {
        Ok(turns) => turns,
        Err(stop) => return Err(stopped(alloc, adapter, stop)),
    };
    cuts.finish(alloc);
    let live = LiveSets::of_bits(alloc, &search.live)?;
    Ok(Reached {
        exports,
        found: Liveness { live, turns },
        cuts,
    })
}

/// The kept exports, if the adapter has no unsupported section.
fn supported_exports<'a>(
    alloc: Global,
    adapter: &Module<'a>,
    required: &Set<String>,
) -> Result<Vec<Export<'a>>, Refusal>
    requires { IsModule (module_value adapter.now) }
    ensures kept { IfOk result (λ v. map export_value v.items
        ≡ kept_exports (names_of required.now.keys) (module_value adapter.now).exports) }
    ensures supported { IsOk result →
        IsSupported (names_of required.now.keys) (module_value adapter.now) }
    ensures refusal { IfErr result
        (IsRefusalOf (names_of required.now.keys) (module_value adapter.now)) }
{
    match required_exports(alloc, &adapter.exports, required) {
        Ok(exports) => match first_unsupported(adapter) {
            Some(id) => Err(unsupported(id)),
            None => Ok(exports),
        },
        Err(fault) => Err(Refused::without_place(fault)),
    }
}

/// The items that exports name.
pub fn exported_items(
    alloc: Global,
    exports: &[Export<'_>],
) -> Result<Vec<(Space, u32)>, AllocError>
    ensures { IfOk result
        (λ v. v.items ≡ map (λ e. exported_item (export_value e)) exports.now) }
{
    exports
        .iter()
        .map(|export| exported_item(export))
        .collect(alloc)
}

/// The item that an export names.
pub fn exported_item(export: &Export<'_>) -> (Space, u32)
    ensures { result ≡ exported_item (export_value export.now) }
{
    let space = match export.kind {
        ExportKind::Func => Space::Funcs,
        ExportKind::Table => Space::Tables,
        ExportKind::Memory => Space::Memories,
        ExportKind::Global => Space::Globals,
    };
    (space, export.index)
}
