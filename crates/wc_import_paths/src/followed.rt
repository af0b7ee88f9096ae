//! A module that is followed: what it has, and the paths in it.

ghost use Rattle.std.specs.Prelude.{◌≡◌, ◌≢◌, AllPairs, IfErr, IfOk, IsOk, None, map};
ghost use Rattle.std.specs.Option.{option_map};
ghost use Rattle.wc_read.specs.Exports.{export_value};
ghost use Rattle.wc_read.specs.Modules.{SpellsModule, module_value};
ghost use Rattle.wc_gc.specs.Exports.{missing_name};
ghost use Rattle.wc_gc.specs.declared.trim_place.TrimPlace.TheVariants.{Bytes};
ghost use Rattle.wc_segments.specs.Segments.{SpellsSegments, segments_value};
ghost use Rattle.wc_paths.specs.Callers.{AreReached};
ghost use Rattle.wc_paths.specs.Paths.{AreClosed, IsReachedInAny, graph_in};
ghost use Rattle.wc_paths.specs.Roots.{roots_of, second_roots};
ghost use Rattle.wc_why.specs.Texts.{text_of};
ghost use Rattle.wc_import_paths.specs.Following.{IsCodeRefusal, IsRefusal, body_place, section_id};
ghost use Rattle.wc_import_paths.specs.Roots.{exports_for};
ghost use Rattle.wc_import_paths.specs.Rows.{AreRowsFor};
ghost use Rattle.wc_import_paths.specs.Followed.{IsSource};
ghost use Rattle.wc_import_paths.specs.Private.Followed.{IsExportRefusal, IsPathsRefusal, IsSegmentsRefusal, IsUnreadRefusal, IsUnreadSegments};

use crate::asked::Asked;
use crate::reached::reached_functions;
use crate::roots::exports_for;
use crate::rows::ModuleRows;
use std::alloc::{AllocError, Global};
use wc_gc::{GcFault, TrimPlace};
use wc_maps::Seed;
use wc_paths::{Callers, PathFault, PathItem, import_items, roots_of, second_roots};
use wc_read::codes::{DATA_COUNT_ID, DATA_ID, ELEMENT_ID};
use wc_read::{Export, Module, ReadFault, ReadPlace, read_module_explained};
use wc_segments::{SegmentSection, Segments, read_segments};
use wc_texts::Refused;

/// A module, its segments, and what its items name.
#[derive(Drop)]
pub struct Followed<'r> {
    /// Its bytes.
    pub bytes: &'r [u8],
    /// The module.
    pub code: Module<'r>,
    /// Its segments.
    pub segments: Segments<'r>,
    /// The exports at which paths may begin, in order.
    pub exports: Vec<Export<'r>>,
    /// Its rows: the items that each item names.
    pub rows: ModuleRows,
    /// For each function whether an export at which paths may begin, the start function or an active segment leads to
    /// it.
    pub reached: Vec<bool>,
    /// The functions that may call through tables.
    pub callers: Callers,
    /// For each import its item.
    pub items: Vec<PathItem>,
}

/// Why a module can't be followed, and where: `Read`, if the bytes are no module or a section of segments can't be
/// read; `MissingExport`; `LiveBody` of a function; or `Memory`.
pub type Refusal = Refused<GcFault, TrimPlace>;

/// Reads the module with these bytes, and follows it from its exports of these names, in their order, or from all in
/// the order of the module, where there are none, from the start function, and from the active segments (`wc_paths`).
///
/// It takes time and memory linear in the module and in the names that are given.
///
/// # Errors
///
/// Of several causes the first in this order is named; `Memory` may come in place of any.
///
/// - `Read`: the bytes are no module, with the byte at which they stop being one; or a section of segments can't be
///   read, with this section.
/// - `MissingExport`: a name is not exported; the first such, without a place.
/// - `LiveBody`: the body of a function that a path reaches is no code, or names what is not there. Its place is this
///   function.
/// - `Memory`: an allocation failed.
pub fn follow<'r>(
    alloc: Global,
    asked: &Asked<'_, '_>,
    bytes: &'r [u8],
    export_names: &[&str],
) -> Result<Followed<'r>, Refusal>
    ensures source { IfOk result (IsSource bytes.now (map text_of export_names.now)) }
    ensures refused { IfErr result (λ r.
        IsRefusal bytes.now (map text_of export_names.now) r.fault r.place) }
{
    let code = read_code(alloc, bytes)?;
    let segments = segments_of(alloc, bytes, &code)?;
    let exports = asked_exports(alloc, asked.seed(), export_names, &code)?;
    let rows = ModuleRows::of(alloc, &code, &segments)?;
    let reached = reached_from(alloc, &code, &segments, &exports, &rows)?;
    let callers = Callers::find(alloc, asked.seed(), &code, &segments, &reached)?;
    let items = import_items(alloc, &code.imports)?;
    Ok(Followed {
        bytes,
        code,
        segments,
        exports,
        rows,
        reached,
        callers,
        items,
    })
}

/// Reads the module with these bytes, and of others says where they stop to be one.
///
/// # Errors
///
/// - `Read`: the bytes are no module, with the byte at which they stop to be one.
/// - `Memory`: an allocation failed; it may come in place of the other.
pub fn read_code(alloc: Global, bytes: &[u8]) -> Result<Module<'_>, Refusal>
    ensures found { IfOk result (λ m. SpellsModule bytes.now (module_value m)) }
    ensures refused { IfErr result (λ r. IsCodeRefusal bytes.now r.fault r.place) }
{
    match read_module_explained(alloc, bytes) {
        Ok(code) => Ok(code),
        Err(refused) => Err(unread(refused)),
    }
}

/// The refusal of bytes that are no module.
fn unread(refused: Refused<ReadFault, ReadPlace>) -> Refusal
    ensures { IsUnreadRefusal refused.fault refused.place result.fault result.place }
{
    Refused {
        fault: GcFault::from(refused.fault),
        place: bytes_place(refused.place),
    }
}

/// The place of a byte.
fn bytes_place(place: Option<ReadPlace>) -> Option<TrimPlace>
    ensures { result ≡ option_map (λ p. Bytes p) place }
{
    match place {
        Some(place) => Some(TrimPlace::Bytes(place)),
        None => None,
    }
}

/// Reads the segments of a module.
fn segments_of<'r>(
    alloc: Global,
    bytes: &'r [u8],
    code: &Module<'_>,
) -> Result<Segments<'r>, Refusal>
    ensures found { IfOk result
        (λ s. SpellsSegments (module_value code.now) bytes.now (segments_value s)) }
    ensures refused { IfErr result (λ r.
        IsSegmentsRefusal (module_value code.now) bytes.now r.fault r.place) }
{
    match read_segments(alloc, bytes, code) {
        Ok(segments) => Ok(segments),
        Err(refused) => Err(unread_segments(refused)),
    }
}

/// The refusal of segments that can't be read.
fn unread_segments(refused: Refused<ReadFault, SegmentSection>) -> Refusal
    ensures { IsUnreadSegments refused.fault refused.place result.fault result.place }
{
    match refused.place {
        Some(section) => Refused {
            fault: GcFault::Read(refused.fault),
            place: Some(TrimPlace::Section {
                id: section_id(section),
            }),
        },
        // The bytes are those of a module: an allocation failed.
        None => Refused::without_place(GcFault::Memory),
    }
}

/// The id of a section of segments.
fn section_id(section: SegmentSection) -> u8
    ensures { result ≡ section_id section }
{
    match section {
        SegmentSection::Elements => ELEMENT_ID,
        SegmentSection::DataCount => DATA_COUNT_ID,
        SegmentSection::Data => DATA_ID,
    }
}

/// The exports at which paths may begin.
fn asked_exports<'r>(
    alloc: Global,
    seed: Seed,
    names: &[&str],
    code: &Module<'r>,
) -> Result<Vec<Export<'r>>, Refusal>
    requires { AllPairs (λ x y. x ≢ y) (map (λ e. e.name) (module_value code.now).exports) }
    ensures found { IfOk result (λ v. map export_value v.items
        ≡ exports_for (map text_of names.now) (module_value code.now).exports) }
    ensures there { IsOk result → missing_name (module_value code.now).exports
        (map text_of names.now) ≡ None }
    ensures refused { IfErr result (λ r. IsExportRefusal (module_value code.now).exports
        (map text_of names.now) r.fault r.place) }
{
    match exports_for(alloc, seed, names, &code.exports) {
        Ok(exports) => Ok(exports),
        Err(fault) => Err(Refused::without_place(fault)),
    }
}

/// The functions to which these exports, the start function or active segments lead.
fn reached_from(
    alloc: Global,
    code: &Module<'_>,
    segments: &Segments<'_>,
    exports: &[Export<'_>],
    rows: &ModuleRows,
) -> Result<Vec<bool>, Refusal>
    requires { AreRowsFor (graph_in code.now segments.now) rows.now }
    ensures reached { IfOk result (λ v. AreReached (graph_in code.now segments.now)
        (roots_of (map export_value exports.now) code.now.start)
        (second_roots (segments_value segments.now)) v.items) }
    ensures closed { IsOk result → AreClosed (graph_in code.now segments.now)
        (IsReachedInAny (graph_in code.now segments.now)
        (roots_of (map export_value exports.now) code.now.start)
        (second_roots (segments_value segments.now))) }
    ensures refused { IfErr result (λ r. IsPathsRefusal (graph_in code.now segments.now)
        (roots_of (map export_value exports.now) code.now.start)
        (second_roots (segments_value segments.now)) r.fault r.place) }
{
    let first = roots_of(alloc, exports, code.start)?;
    let second = second_roots(alloc, segments)?;
    match reached_functions(alloc, rows, &first, &second) {
        Ok(reached) => Ok(reached),
        Err(PathFault::Memory) => Err(Refused::without_place(GcFault::Memory)),
        Err(PathFault::LiveBody(function)) => Err(Refused {
            fault: GcFault::LiveBody,
            place: body_place(function),
        }),
    }
}

/// The place of the body of a function.
fn body_place(function: usize) -> Option<TrimPlace>
    ensures { result ≡ body_place function }
{
    match u32::try_from(function) {
        Ok(function) => Some(TrimPlace::Body {
            function,
            operator: None,
        }),
        Err(_) => None,
    }
}
