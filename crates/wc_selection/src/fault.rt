//! Faults of requests: the reasons why a document doesn't have what one names.

ghost use Rattle.std.specs.Prelude.{◌≡◌};
ghost use Rattle.wc_selection.specs.Fault.{request_fault_text};

use std::alloc::{AllocError, AllocFailed};
use thiserror::Error;
use wc_texts::{FaultText, OUT_OF_MEMORY, Pieces, PutFailed, put_quoted};

/// Why a document doesn't have what a request names: a world, or keys of its exports.
#[derive(Clone, Copy, Debug, PartialEq, Eq, Error)]
pub enum RequestFault<'a> {
    /// An allocation failed.
    #[error("out of memory")]
    Memory,
    /// The package that a world says to be of is not in range.
    #[error("package of a world out of range")]
    PackageRange,
    /// No world has this name.
    #[error("no world `{0}`")]
    UnknownWorld(&'a str),
    /// Several worlds have this name.
    #[error("several worlds `{0}`")]
    SeveralWorlds(&'a str),
    /// The world has no export with this key.
    #[error("no export `{0}`")]
    UnknownKey(&'a str),
    /// Several exports of the world have this key, but for their versions.
    #[error("several exports `{0}`")]
    SeveralKeys(&'a str),
    /// This key of an export is given twice.
    #[error("export `{0}` twice")]
    RepeatedKey(&'a str),
}

impl FaultText for RequestFault<'_> {
    ghost text = { request_fault_text };

    fn put_pieces<P: Pieces>(&self, out: &mut P) -> Result<(), PutFailed> {
        match self {
            RequestFault::Memory => out.put_piece(OUT_OF_MEMORY),
            RequestFault::PackageRange => out.put_piece("package of a world out of range"),
            RequestFault::UnknownWorld(name) => put_quoted(out, "no world", name),
            RequestFault::SeveralWorlds(name) => put_quoted(out, "several worlds", name),
            RequestFault::UnknownKey(key) => put_quoted(out, "no export", key),
            RequestFault::SeveralKeys(key) => put_quoted(out, "several exports", key),
            RequestFault::RepeatedKey(key) => {
                put_quoted(out, "export", key)?;
                out.put_piece(" twice")
            }
        }
    }
}

impl From<AllocError> for RequestFault<'_> {
    ghost use Rattle.wc_selection.specs.declared.fault.RequestFault.TheVariants.{Memory};

    ghost from_gives = { λ _ e. e ≡ Memory };

    fn from(_e: AllocError) -> Self {
        RequestFault::Memory
    }
}

impl<T: Drop> From<AllocFailed<T>> for RequestFault<'_> {
    ghost use Rattle.wc_selection.specs.declared.fault.RequestFault.TheVariants.{Memory};

    ghost from_gives = { λ _ e. e ≡ Memory };

    fn from(_e: AllocFailed<T>) -> Self {
        RequestFault::Memory
    }
}
