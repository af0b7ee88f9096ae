//! The section or the body that the cause of a fault of trimming is in.

ghost use Rattle.std.specs.Prelude.{◌≡◌, ◌≢◌, ◌≤◌, [], slice_get, IfOk, IfErr, IsOk, Some};
ghost use Rattle.std.specs.Option.{option_map};
ghost use Rattle.wc_read.specs.Modules.{module_value};
ghost use Rattle.wc_gc.specs.Fault.{of_read};
ghost use Rattle.wc_gc.specs.LiveChains.{AreWhyImports};
ghost use Rattle.wc_gc.specs.LiveItems.{IsFault, IsLivenessCause, TrimInput, trim_input};
ghost use Rattle.wc_gc.specs.Parts.{SettingsView, settings};
ghost use Rattle.wc_gc.specs.Trim.{IsTrimFault};
ghost use Rattle.wc_gc.specs.TrimmedText.{IsTrimmed};
ghost use Rattle.wc_gc.specs.TrimPlace.{IsExplained, IsPlace, unsupported_ids};
ghost use Rattle.wc_gc.specs.declared.trim_place.TrimPlace.TheVariants.{Bytes, Section};

pub(crate) mod bodies;

use crate::fault::GcFault;
use crate::import_chains::ImportChains;
use crate::live_chains::chains_in;
use crate::range_set::RangeSet;
use crate::settings::Settings;
use crate::trim::trim;
use std::alloc::Global;
use std::fmt;
use wc_maps::Set;
use wc_read::codes::{DATA_COUNT_ID, DATA_ID, ELEMENT_ID, START_ID};
use wc_read::{Module, ReadFault, ReadPlace, read_module_explained};
use wc_texts::Refused;

/// The part of an adapter that a fault of trimming is about.
#[derive(Clone, Copy, Debug, PartialEq, Eq)]
pub enum TrimPlace {
    /// The offset at which the adapter is malformed.
    Bytes(ReadPlace),
    /// A section.
    Section {
        /// The section's id (WebAssembly core specification, 5.5.2).
        id: u8,
    },
    /// The body of a function.
    Body {
        /// The function's index, among imported and defined functions.
        function: u32,
        /// The first operator that names a segment or an index out of range, by its number in the body: 0 is the
        /// first, and each `else` and `end` counts. `None` if the body is no code, or if only a type of its locals is
        /// out of range.
        operator: Option<usize>,
    },
}

/// A refused adapter, and what its fault is about.
pub type Refusal = Refused<GcFault, TrimPlace>;

impl fmt::Display for TrimPlace {
    ghost use Rattle.wc_gc.specs.TrimPlace.{place_text};

    ghost output = { λ place. Some (place_text place) };

    fn fmt<W: fmt::Write>(&self, f: &mut fmt::Formatter<W>) -> fmt::Result {
        match self {
            TrimPlace::Bytes(place) => write!(f, "{place}"),
            TrimPlace::Section { id } => match *id {
                START_ID => f.write_str("start section"),
                ELEMENT_ID => f.write_str("element section"),
                DATA_ID => f.write_str("data section"),
                DATA_COUNT_ID => f.write_str("data count section"),
                id => write!(f, "section {id}"),
            },
            TrimPlace::Body { function, operator } => match operator {
                Some(operator) => {
                    write!(f, "operator {operator} of the body of function {function}")
                }
                None => write!(f, "body of function {function}"),
            },
        }
    }
}

/// Trims an adapter as `run` does. If it is refused, the result says which part the fault is about:
///
/// - `Read` is about the offset at which the adapter is malformed (`wc_read::read_module_explained`);
/// - `UnsupportedSection` is about the first section, in the order of the bytes, that has the start function (id 8),
///   elements (9), a data count (12) or data (11);
/// - `LiveBody` is about the body of a function that the required exports reach. The body is no code, or names a
///   segment or an index out of range. If several functions have such bodies, it is about one of them.
///
/// The other faults have no position: `Memory` and `TooLarge` are about the adapter as a whole; `MissingExport` has
/// its name; `SeveralNamed`, `LiveTable`, `SeveralMemories`, `LocalMemory`, `ReallocType` and `ReallocMemory` are
/// about live items.
///
/// # Errors
///
/// The faults of `run`. `Memory` also comes if an allocation for the position of another fault fails.
pub fn run_explained(
    alloc: Global,
    wasm: &[u8],
    required: &Set<String>,
    main_module_realloc: Option<&str>,
    page_size_log2: u32,
) -> Result<Vec<u8>, Refused<GcFault, TrimPlace>>
    requires some { required.now.keys ≢ [] }
    requires paged { page_size_log2 ≤ 16 }
    ensures trimmed { IfOk result (λ v. IsTrimmed
        (settings main_module_realloc.entry page_size_log2)
        (trim_input wasm.now required.now.keys) v.items) }
    ensures fault { IfErr result (λ r. IsTrimFault
        (settings main_module_realloc.entry page_size_log2)
        (trim_input wasm.now required.now.keys) r.fault) }
    ensures place { IfErr result (λ r. IsExplained
        (trim_input wasm.now required.now.keys) r.fault r.place) }
{
    let settings = Settings {
        realloc: main_module_realloc,
        page_size_log2,
    };
    trim::<RangeSet>(alloc, wasm, required, settings)
}

/// Why the imports of an adapter are live, as `why_imports` gives it. If the adapter is refused, the result says
/// which part the fault is about, as `run_explained` does.
///
/// # Errors
///
/// The faults of `why_imports`. `Memory` also comes if an allocation for the position of another fault fails.
pub fn why_imports_explained<'a>(
    alloc: Global,
    wasm: &[u8],
    required: &'a Set<String>,
) -> Result<ImportChains<'a>, Refused<GcFault, TrimPlace>>
    ensures chains { IfOk result (AreWhyImports (trim_input wasm.now required.now.keys)) }
    ensures fault { IfErr result
        (λ r. IsFault (trim_input wasm.now required.now.keys) r.fault) }
    ensures place { IfErr result (λ r. IsExplained
        (trim_input wasm.now required.now.keys) r.fault r.place) }
    // Without a fault there is no cause.
    ensures no_cause { IsOk result →
        (f : GcFault) → ¬ (IsLivenessCause (trim_input wasm.now required.now.keys) f) }
{
    match read_module_explained(alloc, wasm) {
        Ok(adapter) => chains_in(alloc, &adapter, required),
        Err(refused) => Err(unread(refused)),
    }
}

/// A refusal of bytes that are no module, as one of an adapter.
pub fn unread(refused: Refused<ReadFault, ReadPlace>) -> Refusal
    ensures fault { result.fault ≡ of_read refused.fault }
    ensures place { result.place ≡ option_map Bytes refused.place }
{
    let fault = GcFault::from(refused.fault);
    match refused.place {
        Some(place) => Refused {
            fault,
            place: Some(TrimPlace::Bytes(place)),
        },
        None => Refused::without_place(fault),
    }
}

/// A refusal of an adapter with a section that is not supported.
pub fn unsupported(id: u8) -> Refusal
    ensures fault { result.fault ≡ GcFault.UnsupportedSection }
    ensures place { result.place ≡ Some (Section id) }
{
    Refused {
        fault: GcFault::UnsupportedSection,
        place: Some(TrimPlace::Section { id }),
    }
}

/// The id of the first section that is not supported.
pub fn first_unsupported(adapter: &Module<'_>) -> Option<u8>
    ensures { result ≡ slice_get (unsupported_ids (module_value adapter.now)) 0 }
{
    if adapter.start.is_some() {
        return Some(START_ID);
    }
    adapter.ids.first().copied()
}

/// If an adapter has a position for a fault, `run` refuses it with this fault: the adapter has the fault's cause, and
/// none of a fault that is named before it.
pub fn places_are_of_faults()
    ensures { (s : SettingsView) (w : TrimInput) (f : GcFault) (p : TrimPlace) →
        IsPlace w f p → IsTrimFault s w f }
{}
