//! Faults of encoders: the reasons why the parts of one are refused.

ghost use Rattle.std.specs.Prelude.{◌≡◌, ◌≤◌};
ghost use Rattle.wc_encoder.specs.declared.fault.EncoderFault.TheVariants.{Memory};
ghost use Rattle.wc_encoder.specs.Fault.{encoder_fault_number, encoder_fault_text};

use std::alloc::{AllocError, AllocFailed};
use thiserror::Error;
use wc_texts::{FaultText, OUT_OF_MEMORY, Pieces, PutFailed};

/// Why parts are refused. Of several causes, the first in the order from `UnknownWorld` to
/// `ImportNameClash` is named; `Memory` may come in place of any.
#[derive(Clone, Copy, Debug, PartialEq, Eq, Error)]
pub enum EncoderFault {
    /// An allocation failed.
    #[error("out of memory")]
    Memory,
    /// The `Resolve` has no world at the index.
    #[error("UnknownWorld")]
    UnknownWorld,
    /// The world doesn't export a key of `main_module_exports`, or of an adapter's
    /// `required_exports`.
    #[error("NotAnExport")]
    NotAnExport,
    /// The world exports a type.
    #[error("TypeExported")]
    TypeExported,
    /// The world exports one interface under two keys.
    #[error("InterfaceTwice")]
    InterfaceTwice,
    /// An interface that the world exports depends directly on one that is exported after it under
    /// its own id.
    #[error("DependencyLater")]
    DependencyLater,
    /// Two imports of the world have one name.
    #[error("ImportNameClash")]
    ImportNameClash,
}

impl EncoderFault {
    /// All faults, each at its number.
    pub const ALL: [EncoderFault; 7] = [
        EncoderFault::Memory,
        EncoderFault::UnknownWorld,
        EncoderFault::NotAnExport,
        EncoderFault::TypeExported,
        EncoderFault::InterfaceTwice,
        EncoderFault::DependencyLater,
        EncoderFault::ImportNameClash,
    ];

    /// The number of the fault, its position in the enum. It never changes.
    pub fn number(self) -> u32
        ensures number { result ≡ encoder_fault_number self }
        ensures bounded { result ≤ 6 }
    {
        match self {
            EncoderFault::Memory => 0,
            EncoderFault::UnknownWorld => 1,
            EncoderFault::NotAnExport => 2,
            EncoderFault::TypeExported => 3,
            EncoderFault::InterfaceTwice => 4,
            EncoderFault::DependencyLater => 5,
            EncoderFault::ImportNameClash => 6,
        }
    }
}

impl FaultText for EncoderFault {
    ghost text = { encoder_fault_text };

    fn put_pieces<P: Pieces>(&self, out: &mut P) -> Result<(), PutFailed> {
        match self {
            EncoderFault::Memory => out.put_piece(OUT_OF_MEMORY),
            EncoderFault::UnknownWorld => out.put_piece("UnknownWorld"),
            EncoderFault::NotAnExport => out.put_piece("NotAnExport"),
            EncoderFault::TypeExported => out.put_piece("TypeExported"),
            EncoderFault::InterfaceTwice => out.put_piece("InterfaceTwice"),
            EncoderFault::DependencyLater => out.put_piece("DependencyLater"),
            EncoderFault::ImportNameClash => out.put_piece("ImportNameClash"),
        }
    }
}

impl From<AllocError> for EncoderFault {
    ghost from_gives = { λ _ e. e ≡ Memory };

    fn from(_e: AllocError) -> EncoderFault {
        EncoderFault::Memory
    }
}

impl<T: Drop> From<AllocFailed<T>> for EncoderFault {
    ghost from_gives = { λ _ e. e ≡ Memory };

    fn from(_e: AllocFailed<T>) -> EncoderFault {
        EncoderFault::Memory
    }
}
