//! The modes of segments, and their reading.

ghost use Rattle.wc_read.specs.Reading.Reader.{Gives};
ghost use Rattle.wc_segments.specs.Modes.{mode_value};
ghost use Rattle.wc_segments.specs.Reading.Modes.{mode_at};

use std::alloc::Global;
use wc_read::{ReadFault, Reader};

/// The mode of a segment: how it is used (WebAssembly core specification, 2.5.7 and 2.5.8).
#[derive(Clone, Copy, Debug, PartialEq, Eq)]
pub enum SegmentMode<'a> {
    /// Operators copy it, that name it.
    Passive,
    /// It is copied when the module is instantiated.
    Active {
        /// The table or the memory that it fills.
        index: u32,
        /// The bytes of the constant expression that says where it begins there, its `end` among them.
        offset: &'a [u8],
    },
    /// It only declares functions, so that bodies may refer to them. Data is never declared.
    Declarative,
}

/// The form in which bytes give a mode, as flags say (5.5.12 and 5.5.14).
#[derive(Clone, Copy, Debug, PartialEq, Eq)]
pub enum ModeForm {
    /// An offset, in table or memory 0.
    First,
    /// An index, and an offset.
    Named,
    /// Nothing, of a passive segment.
    Passive,
    /// Nothing, of a declarative segment.
    Declarative,
}

/// A mode in its form.
#[tactic(auto, unfolding(crate::specs::Reading::Modes::mode_at))]
pub fn read_mode<'a>(
    reader: &mut Reader<'a>,
    alloc: Global,
    form: ModeForm,
) -> Result<SegmentMode<'a>, ReadFault>
    ensures { Gives (λ m. mode_value m) result reader.new.rest.now
        (mode_at form reader.old.rest.now) }
{
    match form {
        ModeForm::First => {
            let offset = reader.init(alloc)?;
            Ok(SegmentMode::Active { index: 0, offset })
        }
        ModeForm::Named => {
            let index = reader.u32()?;
            let offset = reader.init(alloc)?;
            Ok(SegmentMode::Active { index, offset })
        }
        ModeForm::Passive => Ok(SegmentMode::Passive),
        ModeForm::Declarative => Ok(SegmentMode::Declarative),
    }
}
