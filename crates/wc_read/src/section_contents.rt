//! The contents of a module's sections.

ghost use Rattle.std.specs.Prelude.{map};
ghost use Rattle.wc_read.specs.Reading.Reader.{number_at, Answers, AnswersWithoutMemory};
ghost use Rattle.wc_read.specs.Sections.{section_values, start_id};
ghost use Rattle.wc_read.specs.Reading.Contents.{section_contents_value, items_in, content_in, section_contents_in};

use crate::codes::{
    CODE_ID, EXPORT_ID, FUNCTION_ID, GLOBAL_ID, IMPORT_ID, MEMORY_ID, START_ID, TABLE_ID, TYPE_ID,
};
use crate::contents::{items, start};
use crate::exports::Export;
use crate::fault::ReadFault;
use crate::globals::LocalGlobal;
use crate::order::section_content;
use crate::reader::Spelled;
use crate::sections::Section;
use crate::types::{FuncType, Import, MemoryType, TableType};
use std::alloc::Global;

/// The contents of a module's sections (WebAssembly core specification, 5.5.4 to 5.5.13), nothing where a section is
/// not there.
#[derive(Drop)]
pub struct SectionContents<'a> {
    pub types: Vec<FuncType>,
    pub imports: Vec<Import<'a>>,
    pub func_types: Vec<u32>,
    pub tables: Vec<TableType>,
    pub memories: Vec<MemoryType>,
    pub globals: Vec<LocalGlobal<'a>>,
    pub exports: Vec<Export<'a>>,
    pub start: Option<u32>,
    pub bodies: Vec<&'a [u8]>,
}

/// Reads the sections whose contents are read.
#[tactic(auto, unfolding(crate::specs::Reading::Contents::section_contents_in))]
pub fn read_section_contents<'a>(
    alloc: Global,
    sections: &[Section<'a>],
) -> Result<SectionContents<'a>, ReadFault>
    ensures { Answers (λ p. section_contents_value p) result
        (section_contents_in (section_values sections.now)) }
{
    let types = section_items::<FuncType>(alloc, sections, TYPE_ID)?;
    let imports = section_items::<Import>(alloc, sections, IMPORT_ID)?;
    let func_types = section_items::<u32>(alloc, sections, FUNCTION_ID)?;
    let tables = section_items::<TableType>(alloc, sections, TABLE_ID)?;
    let memories = section_items::<MemoryType>(alloc, sections, MEMORY_ID)?;
    let globals = section_items::<LocalGlobal>(alloc, sections, GLOBAL_ID)?;
    let exports = section_items::<Export>(alloc, sections, EXPORT_ID)?;
    let start = start_section(sections)?;
    let bodies = section_items::<&[u8]>(alloc, sections, CODE_ID)?;
    Ok(SectionContents {
        types,
        imports,
        func_types,
        tables,
        memories,
        globals,
        exports,
        start,
        bodies,
    })
}

/// The items of the section with this id, whose whole content is a vector of them (WebAssembly core specification,
/// 5.5.2); none if no section has the id.
///
/// # Errors
///
/// - `SectionSize`: bytes follow the last item.
/// - `Truncated`, `BadNumber`: the content ends before the last item, or its count is no u32 in LEB128.
/// - The faults of an item.
/// - `Memory`: an allocation failed.
#[tactic(auto, unfolding(crate::specs::Reading::Contents::items_in))]
pub fn section_items<'a, T: Spelled<'a> + Drop>(
    alloc: Global,
    sections: &[Section<'a>],
    id: u8,
) -> Result<Vec<T>, ReadFault>
    ensures { Answers (λ v. map T.view v.items) result
        (items_in id T.read (section_values sections.now)) }
{
    match section_content(sections, id) {
        Some(content) => items::<T>(alloc, content),
        None => Ok(Vec::new(alloc)),
    }
}

/// The function that the start section names.
#[tactic(auto, unfolding(crate::specs::Reading::Contents::content_in))]
fn start_section(sections: &[Section]) -> Result<Option<u32>, ReadFault>
    ensures { AnswersWithoutMemory (λ n. n) result
        (content_in start_id (number_at 32) (section_values sections.now)) }
{
    match section_content(sections, START_ID) {
        Some(content) => Ok(Some(start(content)?)),
        None => Ok(None),
    }
}
