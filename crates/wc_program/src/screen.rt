//! Outputs that take a whole text in one call.

ghost use Rattle.std.specs.Prelude.{ℕ, List, None, Option, OnErr, OnOk, Some};

use crate::output::Output;
use wc_texts::{FaultText, PutFailed};

/// An output that prints a whole text in one call. Every `Output` is one.
pub trait Screen {
    // Known of an output before a call that printed this text and handed it on, or else failed; and after it.
    ghost ends: { Self → Self → Option (List ℕ) → Type 0 };

    /// Prints a text, and hands it on.
    ///
    /// # Errors
    ///
    /// `PutFailed`: the output fails. How much was printed is left open.
    fn show<T: FaultText>(&mut self, text: &T) -> Result<(), PutFailed>
        ensures shown { OnOk result (ends self.old self.new (Some (T.text text.now))) }
        ensures fails { OnErr result (ends self.old self.new None) };

    /// Prints bytes, and hands them on.
    ///
    /// # Errors
    ///
    /// `PutFailed`: the output fails. How much was printed is left open.
    fn show_bytes(&mut self, bytes: &[u8]) -> Result<(), PutFailed>
        ensures shown { OnOk result (ends self.old self.new (Some bytes.now)) }
        ensures fails { OnErr result (ends self.old self.new None) };
}

impl<O: Output> Screen for O {
    ghost use Rattle.wc_program.specs.Screen.{output_ends};

    ghost ends = { output_ends O.written O.sent O.is_failed };

    fn show<T: FaultText>(&mut self, text: &T) -> Result<(), PutFailed> {
        text.put_pieces(self)?;
        self.flush()
    }

    fn show_bytes(&mut self, bytes: &[u8]) -> Result<(), PutFailed> {
        self.put(bytes)?;
        self.flush()
    }
}
