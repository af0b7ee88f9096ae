//! Faults of reading the file of a component.

ghost use Rattle.std.specs.Prelude.{◌≡◌, None};
ghost use Rattle.wc_component_file.specs.Fault.{file_fault_text, version_text};
ghost use Rattle.wc_texts.specs.Pieces.{IsPut};
ghost use Rattle.wc_component_file.specs.declared.fault.FileFault.TheVariants.{Memory};

use itoa::Buffer;
use std::alloc::{AllocError, AllocFailed};
use thiserror::Error;
use wc_read::ReadFault;
use wc_texts::{FaultText, OUT_OF_MEMORY, Pieces, PutFailed, put_carried};

/// Why a component's file was refused.
#[derive(Clone, Copy, Debug, PartialEq, Eq, Error)]
pub enum FileFault {
    /// An allocation failed.
    #[error("out of memory")]
    Memory,
    /// The file is a component of this version.
    #[error("component of version {0}; version 13 is read")]
    Version(u16),
    /// The file can't be cut into sections. It carries `NotWasm` where the file does not begin as a component does,
    /// `Truncated` or `BadNumber` where a section is cut off or its size is no number, and `UnknownSection` where a
    /// section's id is above 12.
    #[error("Read: {0}")]
    Read(ReadFault),
}

impl FaultText for FileFault {
    ghost text = { file_fault_text };

    fn put_pieces<P: Pieces>(&self, out: &mut P) -> Result<(), PutFailed> {
        match self {
            FileFault::Memory => out.put_piece(OUT_OF_MEMORY),
            FileFault::Version(version) => put_version(out, *version),
            FileFault::Read(fault) => put_carried(out, "Read", fault),
        }
    }
}

/// Puts the fault of a version.
fn put_version<P: Pieces>(out: &mut P, version: u16) -> Result<(), PutFailed>
    ensures { IsPut P.puts P.fails out.old out.new (version_text version) result }
{
    let mut digits = Buffer::new();
    out.put_piece("component of version ")?;
    out.put_piece(digits.format(version))?;
    out.put_piece("; version 13 is read")
}

/// A refusal of a component's file.
#[derive(Clone, Copy, Debug, PartialEq, Eq)]
pub struct FileRefusal {
    /// Why it was refused.
    pub fault: FileFault,
    /// The byte of the file at which the section begins that has the fault. `None` where the header has it, and where an
    /// allocation failed.
    pub byte: Option<usize>,
}

impl FileRefusal {
    /// A refusal for a fault that no section has.
    pub(crate) fn without_byte(fault: FileFault) -> FileRefusal
        ensures fault { result.fault ≡ fault }
        ensures byte { result.byte ≡ None }
    {
        FileRefusal { fault, byte: None }
    }
}

impl From<AllocError> for FileRefusal {
    ghost from_gives = { λ _ r. (r.fault ≡ Memory) × (r.byte ≡ None) };

    fn from(_e: AllocError) -> FileRefusal {
        FileRefusal::without_byte(FileFault::Memory)
    }
}

impl<T: Drop> From<AllocFailed<T>> for FileRefusal {
    ghost from_gives = { λ _ r. (r.fault ≡ Memory) × (r.byte ≡ None) };

    fn from(_e: AllocFailed<T>) -> FileRefusal {
        FileRefusal::without_byte(FileFault::Memory)
    }
}
