//! The sections of a component by their sizes.

ghost use Rattle.std.specs.Prelude.{◌≡◌, ◌≤◌, ◌++◌, IfOk, IfErr, length, Some};
ghost use Rattle.wc_component_file.specs.Frames.{SpellsComponent, frame_values};
ghost use Rattle.wc_component_file.specs.Refusals.{IsFileRefusal};
ghost use Rattle.wc_component_file.specs.Private.Frames.{GivesFrame};
ghost use Rattle.wc_component_file.specs.declared.fault.FileFault.TheVariants.{Read};
ghost use Rattle.wc_read.specs.Sections.{component_header};

use crate::fault::{FileFault, FileRefusal};
use crate::headers::header_of;
use std::alloc::Global;
use wc_read::{ReadFault, Reader, Section};

/// The version of components that are read.
const VERSION: u16 = 13;

/// The id of a section that is a core module.
pub const CORE_MODULE_ID: u8 = 1;

/// The largest id of a section.
const LAST_ID: u8 = 12;

/// A section of a component, and where its content begins in the file.
#[derive(Clone, Copy)]
pub struct Frame<'a> {
    pub offset: usize,
    pub section: Section<'a>,
}

/// Cuts a component into its sections: the header, and then ids, sizes and contents to the end of the bytes. Nothing
/// else is checked than that the ids are known.
pub fn frames(alloc: Global, bytes: &[u8]) -> Result<Vec<Frame<'_>>, FileRefusal>
    ensures found { IfOk result (λ v. SpellsComponent bytes.now (frame_values v.items)) }
    ensures refused { IfErr result (IsFileRefusal bytes.now) }
{
    match header_of(bytes) {
        None => Err(FileRefusal::without_byte(FileFault::Read(ReadFault::NotWasm))),
        Some((VERSION, rest)) => frames_after(alloc, bytes, rest),
        Some((version, _)) => Err(FileRefusal::without_byte(FileFault::Version(version))),
    }
}

/// The sections after the header.
fn frames_after<'a>(
    alloc: Global,
    bytes: &'a [u8],
    rest: &'a [u8],
) -> Result<Vec<Frame<'a>>, FileRefusal>
    requires { bytes.now ≡ component_header ++ rest.now }
    ensures found { IfOk result (λ v. SpellsComponent bytes.now (frame_values v.items)) }
    ensures refused { IfErr result (IsFileRefusal bytes.now) }
{
    let mut reader = Reader::new(rest);
    let mut frames = Vec::new(alloc);
    while !reader.rest.is_empty() {
        let frame = next_frame(bytes.len(), &mut reader)?;
        frames.push(frame)?;
    }
    Ok(frames)
}

/// The next section, of a file of this size.
fn next_frame<'a>(size: usize, reader: &mut Reader<'a>) -> Result<Frame<'a>, FileRefusal>
    requires { length reader.now.rest.now ≤ size }
    ensures { GivesFrame size result reader.old.rest.now reader.new.rest.now }
{
    let start = size - reader.rest.len();
    match reader.section() {
        Ok(section) => {
            if section.id > LAST_ID {
                return Err(refused_at(start, ReadFault::UnknownSection));
            }
            Ok(Frame {
                offset: size - reader.rest.len() - section.content.len(),
                section,
            })
        }
        Err(ReadFault::BadNumber) => Err(refused_at(start, ReadFault::BadNumber)),
        Err(_) => Err(refused_at(start, ReadFault::Truncated)),
    }
}

/// A refusal for the section that begins at this byte.
fn refused_at(byte: usize, fault: ReadFault) -> FileRefusal
    ensures fault { result.fault ≡ Read fault }
    ensures byte { result.byte ≡ Some byte }
{
    FileRefusal {
        fault: FileFault::Read(fault),
        byte: Some(byte),
    }
}
