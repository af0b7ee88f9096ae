//! The place where the reading of a section of a refused module stops, in its content.

ghost use Rattle.std.specs.Prelude.{◌≡◌, ◌≢◌, ◌≤◌, ◌-◌, length, None, IfOk, IfSome};
ghost use Rattle.wc_read.specs.Private.Places.{AreContentsOf};

use crate::codes::{
    CODE_ID, CUSTOM_ID, EXPORT_ID, FUNCTION_ID, GLOBAL_ID, IMPORT_ID, MEMORY_ID, START_ID,
    TABLE_ID, TYPE_ID,
};
use crate::exports::Export;
use crate::fault::ReadFault;
use crate::framing::frames;
use crate::globals::LocalGlobal;
use crate::reader::{Reader, Spelled};
use crate::section_contents::{SectionContents, read_section_contents};
use crate::sections::Section;
use crate::types::{FuncType, Import, MemoryType, TableType};
use std::alloc::{AllocError, Global};

/// The fault whose place is looked for in a module that is refused.
#[derive(Clone, Copy)]
pub struct Sought {
    /// The fault that reading returned.
    pub fault: ReadFault,
    /// Whether of the contents only those of import sections were read, and the order of sections was not.
    pub imports_alone: bool,
}

impl Sought {
    /// Whether this fault, which the section has in its place among others, is sought, and about its id.
    pub fn is_of_order(self, section: &Section, fault: ReadFault) -> bool {
        !self.imports_alone && section.id != CUSTOM_ID && fault == self.fault
    }
}

/// How many bytes were read where these are left; 0, where more are.
pub fn passed(bytes: &[u8], rest: &[u8]) -> usize
    ensures exact { result ≡ length bytes.now - length rest.now }
    ensures bounded { result ≤ length bytes.now }
{
    if rest.len() <= bytes.len() {
        bytes.len() - rest.len()
    } else {
        0
    }
}

/// Where a reader stopped, of which this rest is left: at the first byte past the items, at the name that is no text,
/// at the end that is inside an item, and else at the last byte that was read.
pub fn stop(content: &[u8], rest: &[u8], fault: ReadFault) -> usize
    ensures { result ≤ length content.now }
{
    let read = passed(content, rest);
    match fault {
        ReadFault::Truncated => content.len(),
        ReadFault::SectionSize => read,
        ReadFault::BadName => read,
        _ => if read == 0 { 0 } else { read - 1 },
    }
}

/// Where the content of a section stops to be right with what is sought.
pub fn stop_in(
    alloc: Global,
    section: &Section,
    sought: Sought,
) -> Result<Option<usize>, AllocError>
    ensures { IfOk result (λ stop. IfSome stop (λ k. k ≤ length section.now.content.now)) }
{
    if sought.imports_alone && section.id != IMPORT_ID {
        return Ok(None);
    }
    let content = section.content;
    if let Some((fault, rest)) = fault_in(alloc, section)?
        && fault == sought.fault
    {
        return Ok(Some(stop(content, rest, fault)));
    }
    Ok(None)
}

/// The fault of the content of a section, read by itself, and what is left there.
fn fault_in<'a>(
    alloc: Global,
    section: &Section<'a>,
) -> Result<Option<(ReadFault, &'a [u8])>, AllocError> {
    let content = section.content;
    match section.id {
        CUSTOM_ID => fault_of_item::<&str>(alloc, content, false),
        TYPE_ID => fault_of_items::<FuncType>(alloc, content),
        IMPORT_ID => fault_of_items::<Import>(alloc, content),
        FUNCTION_ID => fault_of_items::<u32>(alloc, content),
        TABLE_ID => fault_of_items::<TableType>(alloc, content),
        MEMORY_ID => fault_of_items::<MemoryType>(alloc, content),
        GLOBAL_ID => fault_of_items::<LocalGlobal>(alloc, content),
        EXPORT_ID => fault_of_items::<Export>(alloc, content),
        START_ID => fault_of_item::<u32>(alloc, content, true),
        CODE_ID => fault_of_items::<&[u8]>(alloc, content),
        _ => Ok(None),
    }
}

/// The fault of a content that is a vector.
fn fault_of_items<'a, T: Spelled<'a> + Drop>(
    alloc: Global,
    content: &'a [u8],
) -> Result<Option<(ReadFault, &'a [u8])>, AllocError> {
    let mut reader = Reader::new(content);
    match reader.vector::<T>(alloc) {
        Ok(_) => Ok(left(reader.rest)),
        Err(fault) => fault_at(fault, reader.rest),
    }
}

/// The fault of a content that is an item, with nothing after it where `alone` says so.
fn fault_of_item<'a, T: Spelled<'a> + Drop>(
    alloc: Global,
    content: &'a [u8],
    alone: bool,
) -> Result<Option<(ReadFault, &'a [u8])>, AllocError> {
    let mut reader = Reader::new(content);
    match T::read_from(alloc, &mut reader) {
        Ok(_) => Ok(if alone { left(reader.rest) } else { None }),
        Err(fault) => fault_at(fault, reader.rest),
    }
}

/// The fault of bytes that are left after the last item.
fn left(rest: &[u8]) -> Option<(ReadFault, &[u8])> {
    if rest.is_empty() {
        None
    } else {
        Some((ReadFault::SectionSize, rest))
    }
}

/// A fault that a reader answered, and what is left then.
fn fault_at(fault: ReadFault, rest: &[u8]) -> Result<Option<(ReadFault, &[u8])>, AllocError> {
    if fault == ReadFault::Memory {
        Err(AllocError)
    } else {
        Ok(Some((fault, rest)))
    }
}

/// The contents of the sections of a module, where bytes spell sections and all their items are right by themselves.
pub fn contents_of<'a>(
    alloc: Global,
    bytes: &'a [u8],
) -> Result<Option<SectionContents<'a>>, AllocError>
    ensures { IfOk result (AreContentsOf bytes.now) }
{
    let frames = match frames(alloc, bytes) {
        Ok(frames) => frames,
        Err(fault) => return unread(fault),
    };
    match read_section_contents(alloc, &frames.sections) {
        Ok(contents) => Ok(Some(contents)),
        Err(fault) => unread(fault),
    }
}

/// That there are no contents, unless memory ran out.
fn unread<'a>(fault: ReadFault) -> Result<Option<SectionContents<'a>>, AllocError>
    ensures { IfOk result (λ found. (found ≡ None) × (fault ≢ ReadFault.Memory)) }
{
    if fault == ReadFault::Memory {
        Err(AllocError)
    } else {
        Ok(None)
    }
}
