//! The main module of a component.

ghost use Rattle.std.specs.Prelude.{◌≡◌, ◌≢◌, ℕ, IfErr, IfNone, IfOk, IfSome, List, map};
ghost use Rattle.std.specs.Option.{option_map};
ghost use Rattle.wc_read.specs.Modules.{SpellsModule, module_value};
ghost use Rattle.wc_gc.specs.declared.fault.GcFault.TheVariants.{Memory};
ghost use Rattle.wc_segments.specs.Segments.{segments_value};
ghost use Rattle.wc_segments.specs.declared.segments.SegmentSection.{SegmentSection as segment_section};
ghost use Rattle.wc_why.specs.Part.{part_view};
ghost use Rattle.wc_why.specs.declared.tree.Unfollowed.{Unfollowed as reason};
ghost use Rattle.wc_why.specs.Texts.{text_of};
ghost use Rattle.wc_import_paths.specs.Following.{IsRefusal, section_id};
ghost use Rattle.wc_import_paths.specs.MainModules.{HasMain, IsMainOf, IsMainPart, IsMainRefusal, IsUnfollowed, IsUnfollowedBy, IsWhole, bytes_in, code_of, main_view, reached_in, segments_of};

use crate::asked::Asked;
use crate::followed::{Followed, Refusal, follow};
use crate::part::{followed_part, unread_part};
use crate::rows::ModuleRows;
use std::alloc::{AllocError, Global};
use wc_gc::{GcFault, TrimPlace};
use wc_maps::Seed;
use wc_read::codes::{DATA_COUNT_ID, DATA_ID, ELEMENT_ID};
use wc_read::{Module, read_module};
use wc_segments::{SegmentSection, Segments};
use wc_texts::Refused;
use wc_why::{Part, Unfollowed};

/// The main module of a component.
#[derive(Drop)]
pub enum MainModule<'r> {
    /// It is followed.
    Whole(Followed<'r>),
    /// A part of it can't be read, that paths reach.
    Unread {
        /// Its bytes.
        bytes: &'r [u8],
        /// The module.
        code: Module<'r>,
        /// Its rows, without its segments.
        rows: ModuleRows,
        /// The part.
        why: Unfollowed,
    },
}

impl<'r> MainModule<'r> {
    /// The main module with these bytes. Its paths begin at its exports of these names, or at all exports if no names
    /// are given; at its start function; and, if none of these leads to an import, at its active segments.
    ///
    /// # Errors
    ///
    /// The faults of `wc_import_paths::follow`, except for a section of segments or a reachable body that can't be
    /// read.
    pub fn read(
        alloc: Global,
        seed: Seed,
        bytes: &'r [u8],
        exports: &[&str],
    ) -> Result<MainModule<'r>, Refusal>
        ensures main { IfOk result (IsMainOf bytes.now (map text_of exports.now)) }
        ensures refused { IfErr result (λ r.
            IsMainRefusal bytes.now (map text_of exports.now) r.fault r.place) }
    {
        match Asked::new(alloc, seed, &[]) {
            Ok(all) => follow_all(alloc, &all, bytes, exports),
            Err(AllocError) => Err(Refused::without_place(GcFault::Memory)),
        }
    }

    /// The main module with these bytes, which is followed whole: what can't be read of it is a fault.
    ///
    /// # Errors
    ///
    /// Those of `wc_import_paths::follow`.
    pub fn follow(
        alloc: Global,
        seed: Seed,
        bytes: &'r [u8],
        exports: &[&str],
    ) -> Result<MainModule<'r>, Refusal>
        ensures main { IfOk result (IsMainOf bytes.now (map text_of exports.now)) }
        ensures whole { IfOk result (λ m. IsWhole (main_view m)) }
        ensures refused { IfErr result (λ r.
            IsRefusal bytes.now (map text_of exports.now) r.fault r.place) }
    {
        match Asked::new(alloc, seed, &[]) {
            Ok(all) => whole_main(alloc, &all, bytes, exports),
            Err(AllocError) => Err(Refused::without_place(GcFault::Memory)),
        }
    }

    /// Its bytes.
    pub fn bytes(&self) -> &'r [u8]
        ensures { result.now ≡ bytes_in self.now }
    {
        match self {
            MainModule::Whole(followed) => followed.bytes,
            MainModule::Unread { bytes, .. } => *bytes,
        }
    }

    /// The module.
    pub fn code(&self) -> &Module<'r>
        ensures { module_value result.now ≡ code_of (main_view self.now) }
    {
        match self {
            MainModule::Whole(followed) => &followed.code,
            MainModule::Unread { code, .. } => code,
        }
    }

    /// Its segments, if it is followed.
    pub fn segments(&self) -> Option<&Segments<'r>>
        ensures { option_map (λ s. segments_value s.now) result ≡ segments_of (main_view self.now) }
    {
        match self {
            MainModule::Whole(followed) => Some(&followed.segments),
            MainModule::Unread { .. } => None,
        }
    }

    /// For each of its functions whether an export at which paths may begin, the start function or an active segment
    /// leads to it; for none, where it is not followed.
    pub fn reached(&self) -> &[bool]
        ensures { result.now ≡ reached_in self.now }
    {
        match self {
            MainModule::Whole(followed) => followed.reached.as_slice(),
            MainModule::Unread { .. } => &[],
        }
    }

    /// Its part of a component, without links.
    ///
    /// # Errors
    ///
    /// `AllocError`: an allocation failed.
    pub fn part<'a>(&'a self, alloc: Global) -> Result<Part<'a>, AllocError>
        requires { HasMain self.now }
        ensures { IfOk result (λ p. IsMainPart (bytes_in self.now) (main_view self.now)
            (part_view p)) }
    {
        match self {
            MainModule::Whole(followed) => followed_part(alloc, followed, true),
            MainModule::Unread {
                bytes,
                code,
                rows,
                why,
            } => unread_part(alloc, bytes, code, rows, *why),
        }
    }
}

/// The main module with these bytes, with the names of the functions on the paths to the imports that are asked for.
fn follow_all<'r>(
    alloc: Global,
    all: &Asked<'_, '_>,
    bytes: &'r [u8],
    exports: &[&str],
) -> Result<MainModule<'r>, Refusal>
    ensures main { IfOk result (IsMainOf bytes.now (map text_of exports.now)) }
    ensures refused { IfErr result (λ r.
        IsMainRefusal bytes.now (map text_of exports.now) r.fault r.place) }
{
    match follow(alloc, all, bytes, exports) {
        Ok(followed) => Ok(MainModule::Whole(followed)),
        Err(refused) => unfollowed_main(alloc, bytes, refused),
    }
}

/// The main module with these bytes, which is followed whole.
fn whole_main<'r>(
    alloc: Global,
    all: &Asked<'_, '_>,
    bytes: &'r [u8],
    exports: &[&str],
) -> Result<MainModule<'r>, Refusal>
    ensures main { IfOk result (IsMainOf bytes.now (map text_of exports.now)) }
    ensures whole { IfOk result (λ m. IsWhole (main_view m)) }
    ensures refused { IfErr result (λ r.
        IsRefusal bytes.now (map text_of exports.now) r.fault r.place) }
{
    match follow(alloc, all, bytes, exports) {
        Ok(followed) => Ok(MainModule::Whole(followed)),
        Err(refused) => Err(refused),
    }
}

/// The main module with these bytes, which can't be followed for this refusal.
fn unfollowed_main<'r>(
    alloc: Global,
    bytes: &'r [u8],
    refused: Refusal,
) -> Result<MainModule<'r>, Refusal>
    ensures main { (exports : List (List ℕ))
        → IsRefusal bytes.now exports refused.fault refused.place
        → IfOk result (IsMainOf bytes.now exports) }
    ensures refused { (exports : List (List ℕ))
        → IsRefusal bytes.now exports refused.fault refused.place
        → IfErr result (λ r. IsMainRefusal bytes.now exports r.fault r.place) }
{
    match why_not(&refused) {
        Some(why) => match read_module(alloc, bytes) {
            Ok(code) => unread_main(alloc, bytes, code, why),
            // The bytes are those of a module: an allocation failed.
            Err(_) => Err(Refused::without_place(GcFault::Memory)),
        },
        None => Err(refused),
    }
}

/// The main module with these bytes, which can't be followed for this part.
fn unread_main<'r>(
    alloc: Global,
    bytes: &'r [u8],
    code: Module<'r>,
    why: Unfollowed,
) -> Result<MainModule<'r>, Refusal>
    requires { SpellsModule bytes.now (module_value code) }
    ensures main { (exports : List (List ℕ)) → IsUnfollowed bytes.now exports why
        → IfOk result (IsMainOf bytes.now exports) }
    ensures memory { IfErr result (λ r. r.fault ≡ Memory) }
{
    match ModuleRows::bare(alloc, &code) {
        Ok(rows) => Ok(MainModule::Unread {
            bytes,
            code,
            rows,
            why,
        }),
        Err(AllocError) => Err(Refused::without_place(GcFault::Memory)),
    }
}

/// The part of a module that can't be read, where a refusal is for such a part.
fn why_not(refused: &Refusal) -> Option<Unfollowed>
    ensures some { IfSome result (IsUnfollowedBy refused.now.fault refused.now.place) }
    ensures none { IfNone result ((why : reason) →
        ¬ (IsUnfollowedBy refused.now.fault refused.now.place why)) }
{
    match (&refused.fault, &refused.place) {
        (GcFault::Read(_), Some(TrimPlace::Section { id })) => match section_of(*id) {
            Some(section) => Some(Unfollowed::Section(section)),
            None => None,
        },
        (
            GcFault::LiveBody,
            Some(
                TrimPlace::Body {
                    function,
                    operator: None,
                },
            ),
        ) => Some(Unfollowed::Body(*function as usize)),
        _ => None,
    }
}

/// The section of segments of an id.
fn section_of(id: u8) -> Option<SegmentSection>
    ensures some { IfSome result (λ s. section_id s ≡ id) }
    ensures none { IfNone result ((s : segment_section) → section_id s ≢ id) }
{
    if id == ELEMENT_ID {
        Some(SegmentSection::Elements)
    } else if id == DATA_COUNT_ID {
        Some(SegmentSection::DataCount)
    } else if id == DATA_ID {
        Some(SegmentSection::Data)
    } else {
        None
    }
}
