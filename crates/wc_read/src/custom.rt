//! Custom sections by their names.

ghost use Rattle.std.specs.Prelude.{◌≡◌, IfOk, IfErr};
ghost use Rattle.wc_read.specs.Reading.Custom.{ContentAfterName, optional_bytes};
ghost use Rattle.wc_read.specs.Sections.{section_value};

use crate::codes::CUSTOM_ID;
use crate::fault::ReadFault;
use crate::reader::Reader;
use crate::sections::Section;
use std::alloc::Global;

/// The bytes after the name of a custom section with a given name (WebAssembly core specification, 5.5.3);
/// None of any other section.
pub fn content_after_name<'a>(
    alloc: Global,
    section: &Section<'a>,
    name: &str,
) -> Result<Option<&'a [u8]>, ReadFault>
    ensures found { IfOk result (λ r. ContentAfterName name.now (section_value section.now)
        (optional_bytes r)) }
    ensures memory { IfErr result (λ e. e ≡ ReadFault.Memory) }
{
    if section.id != CUSTOM_ID {
        return Ok(None);
    }
    let mut reader = Reader::new(section.content);
    let Some(found) = reader.find::<&'a str>(alloc)? else {
        return Ok(None);
    };
    if found != name {
        return Ok(None);
    }
    Ok(Some(reader.rest))
}
