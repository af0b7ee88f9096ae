//! Globals of a global section.

ghost use Rattle.wc_read.specs.Globals.{LocalGlobalValue};
ghost use Rattle.wc_read.specs.Reading.Globals.{local_global_value, local_global_at};

use crate::fault::ReadFault;
use crate::reader::{Reader, Spelled};
use crate::types::GlobalType;
use std::alloc::Global;

/// A global that is not imported: its type, and the bytes of its initialiser, the end of it among them (WebAssembly
/// core specification, 2.5.6 and 5.5.9).
#[derive(Clone, Copy, Debug, PartialEq, Eq)]
pub struct LocalGlobal<'a> {
    pub ty: GlobalType,
    pub init: &'a [u8],
}

impl<'a> Spelled<'a> for LocalGlobal<'a> {
    ghost Value = { LocalGlobalValue };

    ghost view = { λ g. local_global_value g };

    ghost read = { local_global_at };

    #[tactic(auto, unfolding(crate::specs::Reading::Globals::local_global_at))]
    fn read_from(alloc: Global, reader: &mut Reader<'a>) -> Result<LocalGlobal<'a>, ReadFault> {
        let ty = reader.global()?;
        let init = reader.init(alloc)?;
        Ok(LocalGlobal { ty, init })
    }
}
