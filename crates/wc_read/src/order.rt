//! The order of a module's sections.

ghost use Rattle.std.specs.Prelude.{◌≡◌, ◌≢◌, IfOk, IfErr};
ghost use Rattle.std.specs.Option.{option_map};
ghost use Rattle.wc_read.specs.Sections.{section_value, section_values};
ghost use Rattle.wc_read.specs.Order.{section_position, AreInOrder, content_of};
ghost use Rattle.wc_read.specs.Reading.Order.{next_position};
ghost use Rattle.wc_read.specs.Reading.Reader.{AnswersWithoutMemory};

use crate::codes::{CODE_ID, CUSTOM_ID, DATA_COUNT_ID, DATA_ID};
use crate::fault::ReadFault;
use crate::reader::Reader;
use crate::sections::Section;

/// Whether a module may have these sections (WebAssembly core specification, 5.5.16): ids of the format, all
/// but custom sections in their order and once at most, custom sections with a name at the front (5.5.3).
pub fn check_order(sections: &[Section]) -> Result<(), ReadFault>
    ensures found { IfOk result (λ _. AreInOrder (section_values sections.now)) }
    ensures refused { IfErr result (λ _. ¬ (AreInOrder (section_values sections.now))) }
    ensures no_memory { IfErr result (λ f. f ≢ ReadFault.Memory) }
    ensures no_component { IfErr result (λ f. f ≢ ReadFault.Component) }
{
    let mut position = 0;
    for section in sections {
        position = next_position(position, section)?;
    }
    Ok(())
}

/// The position of a section after one that has `position`; a custom section takes none.
#[tactic(auto, unfolding(crate::specs::Reading::Order::next_position))]
pub fn next_position(position: u8, section: &Section) -> Result<u8, ReadFault>
    ensures { AnswersWithoutMemory (λ n. n) result
        (next_position position (section_value section.now)) }
{
    if section.id == CUSTOM_ID {
        let mut reader = Reader::new(section.content);
        reader.name()?;
        return Ok(position);
    }
    if section.id > DATA_COUNT_ID {
        return Err(ReadFault::UnknownSection);
    }
    let next = section_position(section.id);
    if next <= position {
        return Err(ReadFault::SectionOrder);
    }
    Ok(next)
}

fn section_position(id: u8) -> u8
    ensures { result ≡ section_position id }
{
    match id {
        DATA_COUNT_ID => 10,
        CODE_ID => 11,
        DATA_ID => 12,
        _ => id,
    }
}

/// The content of the first section with an id; `None` where there is no such section.
pub fn section_content<'a>(sections: &[Section<'a>], id: u8) -> Option<&'a [u8]>
    ensures { option_map (λ b. b.now) result ≡ content_of id (section_values sections.now) }
{
    for section in sections {
        if section.id == id {
            return Some(section.content);
        }
    }
    None
}
