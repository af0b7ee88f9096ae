//! The text of the image of an edited adapter.

ghost use Rattle.std.specs.Prelude.{◌≡◌, ◌+◌, ◌⊎◌, ℕ, length, map, true, IsTrue, IfOk, IfErr, IsOk};
ghost use Rattle.wc_read.specs.Exports.{export_value};
ghost use Rattle.wc_read.specs.declared.operators.Space.TheVariants.{Funcs};
ghost use Rattle.wc_write.specs.Modules.{built_text};
ghost use Rattle.wc_gc.specs.Counts.{AreDisjoint};
ghost use Rattle.wc_read.specs.Decoded.{decoded_module};
ghost use Rattle.wc_gc.specs.Edit.{added_types, edit, one_if};
ghost use Rattle.wc_gc.specs.EditedImage.{FitsBits, IsImageFault, edited_image};
ghost use Rattle.wc_gc.specs.Private.ItemCounts.{ItemCountsFitU32};
ghost use Rattle.wc_gc.specs.Private.KeptBodies.{AreBodiesCut};
ghost use Rattle.wc_gc.specs.Found.{found_in, found_view};
ghost use Rattle.wc_gc.specs.Live.{has_item};
ghost use Rattle.wc_gc.specs.NewIndices.{AreRanksOf, HasRoomFor};
ghost use Rattle.wc_gc.specs.Parts.{settings_view};
ghost use Rattle.wc_gc.specs.InRange.{is_item_in_range};

use crate::assemble::image;
use crate::edit::{Edit, EditSource, lazy_call};
use crate::fault::GcFault;
use crate::found::Found;
use crate::func_groups::FuncGroups;
use crate::live::{LiveSet, LiveSets};
use crate::live_items::Reached;
use crate::new_bodies::OldBodies;
use crate::new_indices::{Counts, NewIndices, SpaceRanks};
use crate::parts::Parts;
use crate::settings::Settings;
use std::alloc::Global;
use wc_read::Module;
use wc_write::write_module_of;

/// The text of the image of an adapter with some of its exports, edited for what is found among its live items. The
/// adapter is let go before the text is made.
pub fn edited_text<'a, 'n, L: LiveSet>(
    alloc: Global,
    adapter: Module<'a>,
    reached: &'n Reached<'a, L>,
    settings: Settings<'a>,
    found: &'n Found,
) -> Result<Vec<u8>, GcFault>
    requires bounded { ItemCountsFitU32 adapter }
    requires in_range { (n : ℕ) → IsTrue (L.has reached.now.found.live.funcs n)
        → is_item_in_range (decoded_module adapter) (Funcs, n) ≡ true }
    requires found { found_view found.now ≡ found_in
        (decoded_module adapter) (has_item L.has reached.now.found.live) }
    requires cut { AreBodiesCut adapter.funcs.items reached.now.cuts }
    ensures written { let r = reached.now in IfOk result (λ v. v.items ≡ built_text (edited_image
        (edit (settings_view settings.entry) (decoded_module adapter.entry)
        (map export_value r.exports.items) (has_item L.has r.found.live)))) }
    ensures fits { let r = reached.now in IsOk result → FitsBits (edited_image
        (edit (settings_view settings.entry) (decoded_module adapter.entry)
        (map export_value r.exports.items) (has_item L.has r.found.live))) }
    ensures fault { let r = reached.now in IfErr result (IsImageFault (edited_image
        (edit (settings_view settings.entry) (decoded_module adapter.entry)
        (map export_value r.exports.items) (has_item L.has r.found.live)))) }
{
    let live = &reached.found.live;
    let exports = &reached.exports;
    let parts = Parts::of(settings, found);
    let groups = FuncGroups::new(alloc, &adapter.funcs, &live.funcs, exports, settings)?;
    let new = new_indices(alloc, live, &groups, counts(&adapter, parts, found))?;
    let bodies = OldBodies {
        cuts: &reached.cuts,
        new: &new,
        call: lazy_call(&new, parts),
    };
    let edit = Edit {
        settings,
        parts,
        found,
        new: &new,
        bodies: &bodies,
    };
    let source = EditSource {
        adapter: &adapter,
        exports,
        live,
    };
    let built = image(alloc, &source, &groups, edit)?;
    drop(adapter);
    Ok(write_module_of(alloc, &built)?)
}

/// The new indices of live items.
fn new_indices<L: LiveSet>(
    alloc: Global,
    live: &LiveSets<L>,
    groups: &FuncGroups<L>,
    counts: Counts,
) -> Result<NewIndices, GcFault>
    requires { AreDisjoint (L.has groups.now.imports) (L.has groups.now.defined) }
    ensures ranks { IfOk result (λ n. AreRanksOf (has_item L.has live.now)
        (L.has groups.now.imports) (L.has groups.now.defined) n.ranks) }
    ensures counts { IfOk result (λ n. n.counts ≡ counts) }
    ensures fits { IsOk result → HasRoomFor (has_item L.has live.now)
        (L.has groups.now.imports) (L.has groups.now.defined) counts }
    ensures fault { IfErr result (λ f. (f ≡ GcFault.Memory)
        ⊎ ((f ≡ GcFault.TooLarge) × ¬ (HasRoomFor (has_item L.has live.now)
        (L.has groups.now.imports) (L.has groups.now.defined) counts))) }
{
    let ranks = SpaceRanks::new(alloc, live, groups)?;
    match NewIndices::new(ranks, counts) {
        Some(new) => Ok(new),
        None => Err(GcFault::TooLarge),
    }
}

/// How many types and functions an adapter has, and how many are added.
#[tactic(auto, using(crate::proofs::EditedTextLemmas::count_added_types))]
fn counts(adapter: &Module<'_>, parts: Parts, found: &Found) -> Counts
    requires { ItemCountsFitU32 adapter.now }
    ensures types { result.types ≡ length adapter.now.types.items }
    ensures funcs { result.funcs ≡ length adapter.now.funcs.items }
    ensures added_types { result.added_types
        ≡ length (added_types parts (found_view found.now)) }
    ensures added_imports { result.added_imports ≡ one_if parts.import_realloc }
    ensures added_funcs { result.added_funcs
        ≡ one_if parts.lazy + (one_if parts.growing + one_if parts.start) }
{
    let start_type = parts.start && found.empties.is_empty();
    Counts {
        types: adapter.types.len() as u32,
        funcs: adapter.funcs.len() as u32,
        added_types: parts.start_position() + u32::from(start_type),
        added_imports: u32::from(parts.import_realloc),
        added_funcs: u32::from(parts.lazy) + (u32::from(parts.growing) + u32::from(parts.start)),
    }
}
