//! Outputs that take a text piece by piece: a sink, or a formatter.

ghost use Rattle.std.specs.Prelude.{◌≡◌, ◌++◌, ℕ, List, ⊤, true};
ghost use Rattle.std.specs.Fmt.{HasWritten, IsPlainFormatter};
ghost use Rattle.wc_texts.specs.Pieces.{IsPut};
ghost use Rattle.wc_texts.specs.PieceLaws.{put_twice, written_twice};
ghost use Rattle.wc_texts.specs.Puts.{IsPutTo};

use crate::sink::{PutFailed, Sink};
use std::fmt;

/// An output that takes the pieces of a text, one after another. Every `Sink` is one, and so is a formatter.
pub trait Pieces {
    // A put of these bytes, in one piece or several, took the first to the second.
    ghost puts: { Self → List ℕ → Self → Type 0 };

    // The facts known after a put that failed.
    ghost fails: { Self → Type 0 };

    /// Puts a piece.
    ///
    /// # Errors
    ///
    /// `PutFailed`: the sink, or the formatter's writer, failed. How much of the piece was written is left open.
    fn put_piece(&mut self, piece: &str) -> Result<(), PutFailed>
        ensures { IsPut puts fails self.old self.new piece.now result };

    // Two texts, one after the other, are one.
    ghost joins: { (a b c : Self) (s t : List ℕ) → puts a s b → puts b t c → puts a (s ++ t) c };
}

impl<S: Sink> Pieces for S {
    ghost puts = { IsPutTo S.written S.is_failed };

    ghost fails = { λ s. S.is_failed s ≡ true };

    ghost joins = { put_twice S.written S.is_failed };

    fn put_piece(&mut self, piece: &str) -> Result<(), PutFailed> {
        self.put(piece.as_bytes())
    }
}

impl<W: fmt::Write> Pieces for fmt::Formatter<W> {
    ghost puts = { λ f bytes g. IsPlainFormatter f → HasWritten W.write_str_gives f bytes g };

    ghost fails = { λ _. ⊤ };

    ghost joins = { written_twice W.write_str_gives };

    fn put_piece(&mut self, piece: &str) -> Result<(), PutFailed> {
        match self.write_str(piece) {
            Ok(()) => Ok(()),
            Err(_) => Err(PutFailed),
        }
    }
}
