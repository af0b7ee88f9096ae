//! The segments of a module.

ghost use Rattle.std.specs.Prelude.{◌≡◌, ◌≢◌, ◌↔◌, IfOk, IfErr, IsTrue, MatchOption, map};
ghost use Rattle.wc_read.specs.Fault.{SpellsNothing};
ghost use Rattle.wc_read.specs.Modules.{module_value};
ghost use Rattle.wc_read.specs.Place.{IsRefusedWith};
ghost use Rattle.wc_read.specs.Reading.Contents.{content_in};
ghost use Rattle.wc_read.specs.Reading.Reader.{AnswersWithoutMemory, number_at, read_all};
ghost use Rattle.wc_read.specs.Sections.{data_count_id, IsComponent, section_values};
ghost use Rattle.wc_segments.specs.Data.{data_value};
ghost use Rattle.wc_segments.specs.Elements.{element_value};
ghost use Rattle.wc_segments.specs.Reading.Checks.{Reads};
ghost use Rattle.wc_segments.specs.Reading.Segments.{IsRefusedIn};
ghost use Rattle.wc_segments.specs.Segments.{HasData, HasElements, HaveSegments, IsCountOf, IsRefused, segment_section_name, segments_value, SpellsSegments};

use crate::data::DataSegment;
use crate::elements::ElementSegment;
use crate::validity::{check_data, check_elements, segment_scope};
use std::alloc::Global;
use wc_read::codes::{DATA_COUNT_ID, DATA_ID, ELEMENT_ID};
use wc_read::{Module, ReadFault, Reader, Section, frames, section_content, section_items};
use wc_texts::Refused;

/// The segments of a module (WebAssembly core specification, 2.5.7 and 2.5.8).
#[derive(Debug, PartialEq, Eq, Drop)]
pub struct Segments<'a> {
    /// The element segments, by their indices.
    pub elements: Vec<ElementSegment<'a>>,
    /// The data segments, by their indices.
    pub data: Vec<DataSegment<'a>>,
}

/// A section of segments (5.5.12, 5.5.14 and 5.5.15).
#[derive(Clone, Copy, Debug, PartialEq, Eq)]
pub enum SegmentSection {
    Elements,
    DataCount,
    Data,
}

impl SegmentSection {
    /// `element section`, `data count section` or `data section`.
    pub fn name(self) -> &'static str
        ensures { result.now ≡ segment_section_name self }
    {
        match self {
            SegmentSection::Elements => "element section",
            SegmentSection::DataCount => "data count section",
            SegmentSection::Data => "data section",
        }
    }
}

/// Reads the segments of a module (5.5.12, 5.5.14 and 5.5.15) from its bytes: element segments in all eight forms,
/// and data segments. `module` is the module that `read_module` has read from the bytes.
///
/// Each index is in range in the module. An offset leaves an i32, or an i64 if the table or the memory has addresses
/// of 64 bits. An expression leaves a value of the segment's type, null or not. Whether that type is the table's, and
/// whether a segment fits into its table or memory, is not checked. Reading takes time and memory linear in the
/// bytes.
///
/// # Errors
///
/// The place is the section at fault. The section of elements comes first, then the data count, then the data. If all
/// three are right by themselves, but the count differs from the number of data segments, it is the data count.
///
/// - `Truncated`, `BadNumber`: as of any section.
/// - `SectionSize`: bytes of a section follow its last item.
/// - `BadType`: flags are of no form, a kind of elements is not that of functions, or a type no reference type.
/// - `UnknownOperator`, `BadInitialiser`: as for initialisers of globals.
/// - `BadIndex`: a table, a memory, a function of elements, or the type that a reference type names is out of range.
/// - `CountMismatch`: the data count is another than the number of data segments.
/// - The faults of `frames`, without a place: the bytes are no module.
/// - `Memory`, without a place: an allocation failed.
pub fn read_segments<'a>(
    alloc: Global,
    wasm: &'a [u8],
    module: &Module<'_>,
) -> Result<Segments<'a>, Refused<ReadFault, SegmentSection>>
    // What is read is what the bytes spell.
    ensures found { IfOk result
        (λ s. SpellsSegments (module_value «module».now) wasm.now (segments_value s)) }
    // Unless memory runs out, what is spelled is read.
    ensures refused { IfErr result (λ r. r.fault ≢ ReadFault.Memory
        → SpellsNothing (SpellsSegments (module_value «module».now)) wasm.now) }
    // A fault is in the section that it names.
    ensures place { IfErr result
        (λ r. IsRefused (module_value «module».now) wasm.now r.fault r.place) }
    ensures component { IsRefusedWith result ReadFault.Component ↔ IsComponent wasm.now }
{
    match frames(alloc, wasm) {
        Ok(frames) => segments_in(alloc, &frames.sections, module),
        Err(fault) => Err(Refused::without_place(fault)),
    }
}

/// The segments that sections have.
fn segments_in<'a>(
    alloc: Global,
    sections: &[Section<'a>],
    module: &Module<'_>,
) -> Result<Segments<'a>, Refused<ReadFault, SegmentSection>>
    ensures found { IfOk result (λ s. HaveSegments (section_values sections.now)
        (module_value «module».now) (segments_value s)) }
    ensures fault { IfErr result (λ r. IsRefusedIn (section_values sections.now)
        (module_value «module».now) r.fault r.place) }
{
    let elements = match element_segments(alloc, sections, module) {
        Ok(elements) => elements,
        Err(fault) => return Err(refused(fault, SegmentSection::Elements)),
    };
    let count = match data_count(sections) {
        Ok(count) => count,
        Err(fault) => return Err(refused(fault, SegmentSection::DataCount)),
    };
    let data = match data_segments(alloc, sections, module) {
        Ok(data) => data,
        Err(fault) => return Err(refused(fault, SegmentSection::Data)),
    };
    if !is_count_of(count, &data) {
        return Err(refused(ReadFault::CountMismatch, SegmentSection::DataCount));
    }
    Ok(Segments { elements, data })
}

/// The element segments that sections have.
fn element_segments<'a>(
    alloc: Global,
    sections: &[Section<'a>],
    module: &Module<'_>,
) -> Result<Vec<ElementSegment<'a>>, ReadFault>
    ensures { Reads (λ v. map element_value v.items) result
        (HasElements (section_values sections.now) (module_value «module».now)) }
{
    let elements = section_items::<ElementSegment>(alloc, sections, ELEMENT_ID)?;
    let scope = segment_scope(module);
    check_elements(alloc, &scope, &module.tables, &elements)?;
    Ok(elements)
}

/// The data segments that sections have.
fn data_segments<'a>(
    alloc: Global,
    sections: &[Section<'a>],
    module: &Module<'_>,
) -> Result<Vec<DataSegment<'a>>, ReadFault>
    ensures { Reads (λ v. map data_value v.items) result
        (HasData (section_values sections.now) (module_value «module».now)) }
{
    let data = section_items::<DataSegment>(alloc, sections, DATA_ID)?;
    let scope = segment_scope(module);
    check_data(alloc, &scope, &module.memories, &data)?;
    Ok(data)
}

/// The count of data segments, if a section has it.
#[tactic(auto, unfolding(wc_read::specs::Reading::Contents::content_in))]
fn data_count(sections: &[Section<'_>]) -> Result<Option<u32>, ReadFault>
    ensures { AnswersWithoutMemory (λ n. n) result
        (content_in data_count_id (number_at 32) (section_values sections.now)) }
{
    match section_content(sections, DATA_COUNT_ID) {
        Some(content) => Ok(Some(count_in(content)?)),
        None => Ok(None),
    }
}

/// The number that is all of some bytes.
#[tactic(auto, unfolding(wc_read::specs::Reading::Reader::read_all))]
fn count_in(content: &[u8]) -> Result<u32, ReadFault>
    ensures { AnswersWithoutMemory (λ n. n) result (read_all (number_at 32) content.now) }
{
    let mut reader = Reader::new(content);
    let count = reader.u32()?;
    if !reader.rest.is_empty() {
        return Err(ReadFault::SectionSize);
    }
    Ok(count)
}

/// Whether a count, if present, is the number of data segments.
fn is_count_of(count: Option<u32>, data: &[DataSegment<'_>]) -> bool
    ensures { IsTrue result ↔ IsCountOf count (map data_value «data».now) }
{
    match count {
        Some(count) => count as usize == data.len(),
        None => true,
    }
}

/// A fault, and its section if it has a place.
fn refused(fault: ReadFault, section: SegmentSection) -> Refused<ReadFault, SegmentSection>
    ensures fault { result.fault ≡ fault }
    ensures place { MatchOption result.place (fault ≡ ReadFault.Memory)
        (λ s. (s ≡ section) × (fault ≢ ReadFault.Memory)) }
{
    if fault == ReadFault::Memory {
        return Refused::without_place(fault);
    }
    Refused {
        fault,
        place: Some(section),
    }
}
