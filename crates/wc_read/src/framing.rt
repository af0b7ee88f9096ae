//! The header of a module, and its sections by their sizes.

ghost use Rattle.std.specs.Prelude.{◌≢◌, ◌↔◌, IfOk, IfErr, IsErrOf};
ghost use Rattle.wc_read.specs.Reading.Reader.{GivesWithoutMemory};
ghost use Rattle.wc_read.specs.Reading.Framing.{section_at};
ghost use Rattle.wc_read.specs.Sections.{SectionValue, section_value, section_values, SpellsFrames, SpellsSection, IsComponent};
ghost use Rattle.wc_read.specs.Formats.{SpellsItems};
ghost use Rattle.wc_read.specs.Fault.{IfRefused, SpellsNothing};

use crate::fault::ReadFault;
use crate::reader::{Reader, Spelled};
use crate::sections::{Frames, MODULE_HEADER, Section};
use std::alloc::Global;

const COMPONENT_HEADER: &[u8] = b"\0asm\x0d\0\x01\0";

impl<'a> Reader<'a> {
    /// Reads a section (WebAssembly core specification, 5.5.2): its id, its size, and the bytes of its content.
    ///
    /// # Errors
    ///
    /// - `Truncated`: the bytes end inside it.
    /// - `BadNumber`: its size is not a u32 in LEB128.
    #[tactic(auto, unfolding(crate::specs::Reading::Framing::section_at))]
    pub fn section(&mut self) -> Result<Section<'a>, ReadFault>
        ensures { GivesWithoutMemory (λ s. section_value s) result self.new.rest.now
            (section_at self.old.rest.now) }
    {
        let id = self.byte()?;
        let size = self.u32()?;
        let content = self.bytes(size as usize)?;
        Ok(Section { id, content })
    }
}

impl<'a> Spelled<'a> for Section<'a> {
    ghost Value = { SectionValue };

    ghost view = { λ s. section_value s };

    ghost read = { section_at };

    fn read_from(_alloc: Global, reader: &mut Reader<'a>) -> Result<Section<'a>, ReadFault> {
        reader.section()
    }
}

/// Cuts a module into its sections (WebAssembly core specification, 5.5.16): the header, and then ids, sizes
/// and contents to the end of the bytes. Nothing else is checked: ids may be any, in any order.
///
/// # Errors
///
/// - `Component`: the bytes begin with the header of a component.
/// - `NotWasm`: the bytes begin with the header of neither a module nor a component.
/// - `Truncated`: the bytes end inside a section.
/// - `BadNumber`: the size of a section is not a u32 in LEB128.
/// - `Memory`: an allocation failed.
pub fn frames(alloc: Global, bytes: &[u8]) -> Result<Frames<'_>, ReadFault>
    // What is cut is spelled so, by all of the bytes.
    ensures found { IfOk result (λ f. SpellsFrames bytes.now (section_values f.sections.items)) }
    // Unless memory runs out, what is spelled is cut.
    ensures refused { IfRefused result (SpellsNothing SpellsFrames bytes.now) }
    ensures component { IsErrOf result ReadFault.Component ↔ IsComponent bytes.now }
{
    if bytes.starts_with(COMPONENT_HEADER) {
        return Err(ReadFault::Component);
    }
    let Some(rest) = bytes.strip_prefix(MODULE_HEADER) else {
        return Err(ReadFault::NotWasm);
    };
    Ok(Frames {
        sections: sections(alloc, rest)?,
    })
}

fn sections(alloc: Global, bytes: &[u8]) -> Result<Vec<Section<'_>>, ReadFault>
    ensures found { IfOk result (λ v. SpellsItems SpellsSection bytes.now
        (section_values v.items)) }
    ensures refused { IfRefused result (SpellsNothing (SpellsItems SpellsSection) bytes.now) }
    ensures no_component { IfErr result (λ f. f ≢ ReadFault.Component) }
{
    let mut reader = Reader::new(bytes);
    let mut sections = Vec::new(alloc);
    while !reader.rest.is_empty() {
        let section = reader.section()?;
        sections.push(section)?;
    }
    Ok(sections)
}
