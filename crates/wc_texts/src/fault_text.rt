//! The texts of faults, and how they carry each other's.

ghost use Rattle.std.specs.Prelude.{◌≡◌, ℕ, List, IfOk, Some, string_bytes};
ghost use Rattle.wc_texts.specs.FaultTexts.{about_text, carried_text, quoted_text};
ghost use Rattle.wc_texts.specs.Pieces.{IsPut};

use crate::pieces::Pieces;
use crate::sink::PutFailed;
use std::alloc::{AllocError, Global};
use std::fmt;

/// The text of each fault `Memory`.
pub const OUT_OF_MEMORY: &str = "out of memory";

/// The factor of a fault's number in the number of a fault that carries it.
pub const CARRIED: u32 = 256;

/// A fault with a known text: its name; if it carries another fault, its name, `: `, and the text of that fault.
pub trait FaultText {
    // The text of the fault.
    ghost text: { Self → List ℕ };

    /// Puts the text of the fault, of any length. It does not allocate.
    ///
    /// # Errors
    ///
    /// `PutFailed`: a put failed. How much was written is left open.
    fn put_pieces<P: Pieces>(&self, out: &mut P) -> Result<(), PutFailed>
        ensures { IsPut P.puts P.fails out.old out.new (text self.now) result };
}

/// Puts the name of a fault, `: `, and the text of the fault that it carries. It does not allocate.
///
/// # Errors
///
/// `PutFailed`: a put failed. How much was written is left open.
pub fn put_carried<P: Pieces, F: FaultText>(
    out: &mut P,
    name: &str,
    fault: &F,
) -> Result<(), PutFailed>
    ensures { IsPut P.puts P.fails out.old out.new
        (carried_text name.now (F.text fault.now)) result }
{
    out.put_piece(name)?;
    out.put_piece(": ")?;
    fault.put_pieces(out)
}

/// Puts the name of a fault, and a name or a key in quotation marks. It does not allocate.
///
/// # Errors
///
/// `PutFailed`: a put failed. How much was written is left open.
pub fn put_quoted<P: Pieces>(out: &mut P, name: &str, key: &str) -> Result<(), PutFailed>
    ensures { IsPut P.puts P.fails out.old out.new (quoted_text name.now key.now) result }
{
    out.put_piece(name)?;
    out.put_piece(" `")?;
    out.put_piece(key)?;
    out.put_piece("`")
}

/// Puts the name of a fault, that of an adapter in quotation marks, `: `, and the text of the fault that it carries. It
/// does not allocate.
///
/// # Errors
///
/// `PutFailed`: a put failed. How much was written is left open.
pub fn put_about<P: Pieces, F: FaultText>(
    out: &mut P,
    name: &str,
    adapter: &str,
    fault: &F,
) -> Result<(), PutFailed>
    ensures { IsPut P.puts P.fails out.old out.new
        (about_text name.now adapter.now (F.text fault.now)) result }
{
    out.put_piece(name)?;
    out.put_piece(" `")?;
    out.put_piece(adapter)?;
    out.put_piece("`: ")?;
    fault.put_pieces(out)
}

/// Puts the text of a fault, with the result of a `Display`: put to a formatter, it is the text that `Display` of the
/// fault writes.
///
/// # Errors
///
/// `fmt::Error`: a put failed; for a formatter, a write of its writer. Any part of the text may have been written.
pub fn show<P: Pieces, F: FaultText>(fault: &F, out: &mut P) -> fmt::Result
    ensures { IsPut P.puts P.fails out.old out.new (F.text fault.now) result }
{
    match fault.put_pieces(out) {
        Ok(()) => Ok(()),
        Err(PutFailed) => Err(fmt::Error),
    }
}

/// A fault, as its text.
#[derive(Clone, Copy)]
struct Shown<'a, F>(&'a F);

impl<F: FaultText> fmt::Display for Shown<'_, F> {
    ghost output = { λ shown. Some (F.text shown.0.now) };

    fn fmt<W: fmt::Write>(&self, f: &mut fmt::Formatter<W>) -> fmt::Result {
        show(self.0, f)
    }
}

/// The text of a fault.
///
/// # Errors
///
/// `AllocError`: an allocation failed.
pub fn text_of<F: FaultText>(alloc: Global, fault: &F) -> Result<String, AllocError>
    ensures { IfOk result (λ text. string_bytes text ≡ F.text fault.now) }
{
    let shown = Shown(fault);
    format!(in alloc; "{shown}")
}
