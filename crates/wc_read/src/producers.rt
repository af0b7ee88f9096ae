//! The producers section.

ghost use Rattle.std.specs.Prelude.{◌≡◌, IfOk, IfErr};
ghost use Rattle.wc_read.specs.Reading.Custom.{optional_bytes};
ghost use Rattle.wc_read.specs.Producers.{ProducerValue, FieldValue, LastProducers};
ghost use Rattle.wc_read.specs.Reading.Producers.{producer_value, field_value, producer_at, field_at, AreFields, ProducersOf};
ghost use Rattle.wc_read.specs.Sections.{section_value, section_values};

use crate::codes::PRODUCERS;
use crate::custom::content_after_name;
use crate::fault::ReadFault;
use crate::reader::{Reader, Spelled};
use crate::sections::Section;
use std::alloc::Global;

/// A language or tool, and its version.
#[derive(Clone, Copy)]
struct Producer<'a> {
    name: &'a str,
    version: &'a str,
}

/// A field of a producers section.
#[derive(Drop)]
struct ProducersField<'a> {
    name: &'a str,
    producers: Vec<Producer<'a>>,
}

impl<'a> Spelled<'a> for Producer<'a> {
    ghost Value = { ProducerValue };

    ghost view = { λ p. producer_value p };

    ghost read = { producer_at };

    #[tactic(auto, unfolding(crate::specs::Reading::Producers::producer_at))]
    fn read_from(_alloc: Global, reader: &mut Reader<'a>) -> Result<Producer<'a>, ReadFault> {
        let name = reader.name()?;
        let version = reader.name()?;
        Ok(Producer { name, version })
    }
}

impl<'a> Spelled<'a> for ProducersField<'a> {
    ghost Value = { FieldValue };

    ghost view = { λ f. field_value f };

    ghost read = { field_at };

    #[tactic(auto, unfolding(crate::specs::Reading::Producers::field_at))]
    fn read_from(alloc: Global, reader: &mut Reader<'a>) -> Result<ProducersField<'a>, ReadFault> {
        let name = reader.name()?;
        let producers = reader.vector::<Producer>(alloc)?;
        Ok(ProducersField { name, producers })
    }
}

/// The bytes after the name of the last producers section that reads: fields to the end of the bytes, as the
/// tool conventions spell them. One that does not read is passed over.
pub fn producers<'a>(alloc: Global, sections: &[Section<'a>]) -> Result<Option<&'a [u8]>, ReadFault>
    ensures found { IfOk result (λ p. LastProducers (section_values sections.now)
        (optional_bytes p)) }
    ensures memory { IfErr result (λ e. e ≡ ReadFault.Memory) }
{
    let mut last = None;
    for section in sections {
        let found = section_producers(alloc, section)?;
        if found.is_some() {
            last = found;
        }
    }
    Ok(last)
}

/// The bytes after the name of a producers section, where it reads.
fn section_producers<'a>(
    alloc: Global,
    section: &Section<'a>,
) -> Result<Option<&'a [u8]>, ReadFault>
    ensures found { IfOk result (λ p. ProducersOf (section_value section.now) (optional_bytes p)) }
    ensures memory { IfErr result (λ e. e ≡ ReadFault.Memory) }
{
    let Some(bytes) = content_after_name(alloc, section, PRODUCERS)? else {
        return Ok(None);
    };
    if !are_fields(alloc, bytes)? {
        return Ok(None);
    }
    Ok(Some(bytes))
}

/// Whether the bytes are a vector of fields.
fn are_fields(alloc: Global, bytes: &[u8]) -> Result<bool, ReadFault>
    ensures found { IfOk result (λ are. AreFields are bytes.now) }
    ensures memory { IfErr result (λ e. e ≡ ReadFault.Memory) }
{
    let mut reader = Reader::new(bytes);
    match reader.vector::<ProducersField>(alloc) {
        Ok(_fields) => Ok(reader.rest.is_empty()),
        Err(fault) => match fault {
            ReadFault::Memory => Err(ReadFault::Memory),
            _ => Ok(false),
        },
    }
}
