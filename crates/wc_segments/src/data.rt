//! Data segments, in their three forms.

ghost use Rattle.std.specs.Prelude.{◌≡◌};
ghost use Rattle.wc_read.specs.Reading.Reader.{GivesWithoutMemory};
ghost use Rattle.wc_segments.specs.Data.{DataValue, data_form_of, data_value};
ghost use Rattle.wc_segments.specs.Reading.Data.{data_at, data_form_at};

use crate::modes::{ModeForm, SegmentMode, read_mode};
use std::alloc::Global;
use wc_read::{ReadFault, Reader, Spelled};

/// A data segment (WebAssembly core specification, 2.5.8).
#[derive(Clone, Copy, Debug, PartialEq, Eq)]
pub struct DataSegment<'a> {
    /// How it is used. An active one fills a memory.
    pub mode: SegmentMode<'a>,
    /// Its bytes.
    pub bytes: &'a [u8],
}

/// The form of data segments that flags say (5.5.14).
#[tactic(auto, unfolding(crate::specs::Data::data_form_of))]
fn data_form_of(flags: u32) -> Option<ModeForm>
    ensures { result ≡ data_form_of flags }
{
    match flags {
        0 => Some(ModeForm::First),
        1 => Some(ModeForm::Passive),
        2 => Some(ModeForm::Named),
        _ => None,
    }
}

/// The flags that a data segment begins with.
#[tactic(auto, unfolding(crate::specs::Reading::Data::data_form_at))]
fn read_data_form(reader: &mut Reader<'_>) -> Result<ModeForm, ReadFault>
    ensures { GivesWithoutMemory (λ f. f) result reader.new.rest.now
        (data_form_at reader.old.rest.now) }
{
    let flags = reader.u32()?;
    match data_form_of(flags) {
        Some(form) => Ok(form),
        None => Err(ReadFault::BadType),
    }
}

impl<'a> Spelled<'a> for DataSegment<'a> {
    ghost Value = { DataValue };

    ghost view = { λ d. data_value d };

    ghost read = { data_at };

    #[tactic(auto, unfolding(crate::specs::Reading::Data::data_at))]
    fn read_from(alloc: Global, reader: &mut Reader<'a>) -> Result<DataSegment<'a>, ReadFault> {
        let form = read_data_form(reader)?;
        let mode = read_mode(reader, alloc, form)?;
        let size = reader.u32()?;
        let bytes = reader.bytes(size as usize)?;
        Ok(DataSegment { mode, bytes })
    }
}
