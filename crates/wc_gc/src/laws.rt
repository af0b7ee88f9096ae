//! Laws of trimming, over its definitions: all of this crate.

ghost use Rattle.wc_gc.specs.Laws.{BodiesStaySpellable, InitialisersStaySpellable, KeepsBits, TrimmedIsRead};
ghost use Rattle.std.specs.Prelude.{Bool};
ghost use Rattle.wc_read.specs.Decoded.{ItemIndex};
ghost use Rattle.wc_gc.specs.Image.{rank};
ghost use Rattle.wc_gc.specs.Edit.{EditedModule};
ghost use Rattle.wc_gc.specs.Unfolding.{ImageUnfolds, RenumberedUnfolds, TrimmedIsClosed, TrimmedUnfolds};
ghost use Rattle.wc_gc.specs.RankLaws.{RanksDiffer, RanksKeepOrder};

pub use crate::live_chains::{chains_unique, kept_is_live};
pub use crate::machine_laws::{
    added_bodies_are_spellable, growing_body_grows, stack_body_allocates,
};
pub use crate::restriction_laws::trimmed_restricts;
pub use crate::trace_laws::{image_is_of_cut, no_trace, trim_twice};
pub use crate::trim_place::places_are_of_faults;
pub use crate::untouched_laws::{
    calls_keep_code, kept_items_have_chains, nothing_is_edited, untouched,
};

/// A body that has an encoding, as `wc_write::laws::body_text_read` requires, has one under new indices that fit in
/// 32 bits where the old ones do. So does an initialiser (WebAssembly core specification, 5.4).
pub fn code_stays_spellable()
    ensures bodies { BodiesStaySpellable }
    ensures initialisers { InitialisersStaySpellable }
{}

/// Ranks are such new indices.
pub fn ranks_keep_bits()
    ensures { (kept : ItemIndex → Bool) → KeepsBits (rank kept) }
{}

/// No two items of a space, kept or added, have the same rank. Ranks keep the order of types, tables, memories and
/// globals. For functions, they keep the order of the imported ones and the order of the defined ones.
pub fn ranks_are_ordered()
    ensures differ { (e : EditedModule) → RanksDiffer e }
    ensures order { (e : EditedModule) → RanksKeepOrder e }
{}

/// The text that `run` returns is read back: it encodes the image whose text it is, and no other module. The text of
/// each body and initialiser of the image encodes it, and no other (`wc_write::laws::text_read`; WebAssembly core
/// specification, 5.5).
pub fn trimmed_read()
    ensures { TrimmedIsRead }
{}

/// Let the kept items of a module be items of another module under new indices, and name only kept items. Then each
/// of them unfolds in the other module as in this one, at every depth: into its entry, with the named item instead of
/// each index.
pub fn renumbered_unfolds()
    ensures { RenumberedUnfolds }
{}

/// Let all items in the image of an edited adapter be in range, be code and name only such items. Then each kept or
/// added item unfolds at its rank in the image as it does in the edited adapter, at every depth.
pub fn image_unfolds()
    ensures { ImageUnfolds }
{}

/// Each item in the image of an adapter that `run` trims is in range, is code and names only such items. So each kept
/// or added item unfolds in the image as it does in the edited adapter, at every depth.
pub fn trimmed_unfolds()
    ensures closed { TrimmedIsClosed }
    ensures unfolds { TrimmedUnfolds }
{}
