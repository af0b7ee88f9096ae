//! Outputs that a program prints to.

ghost use Rattle.std.specs.Prelude.{◌≡◌, ℕ, List, Option, true, false, OnOk, OnErr};
ghost use Rattle.std.specs.Io.KnownBytes.{Keeps};

use std::alloc::Global;
use std::io::{BufWriter, Write};
use wc_texts::{PutFailed, Sink};

/// A sink that may buffer bytes until it is flushed.
pub trait Output: Sink {
    // The bytes that were handed on, and are not buffered, where they are known.
    ghost sent: { Self → Option (List ℕ) };

    /// Hands on all bytes that were put so far.
    ///
    /// # Errors
    ///
    /// `PutFailed`: the output was failed already, or fails now. How many bytes were handed on is left open.
    fn flush(&mut self) -> Result<(), PutFailed>
        ensures sent { OnOk result (Keeps (Self.written self.old) (sent self.new)) }
        ensures written { OnOk result (Keeps (Self.written self.old) (Self.written self.new)) }
        ensures refuses { OnOk result (Self.is_failed self.old ≡ false) }
        ensures works { OnOk result (Self.is_failed self.new ≡ false) }
        ensures fails { OnErr result (Self.is_failed self.new ≡ true) };
}

/// An output to a writer through a buffer. A write or a flush that fails makes it failed for good.
#[derive(Drop)]
pub struct Printer<W: Write + Drop> {
    writer: BufWriter<W>,
    failed: bool,
}

impl<W: Write + Drop> Printer<W> {
    ghost use Rattle.wc_program.specs.Output.{buffer_of, has_failed};

    /// A printer over a writer with its buffer, which is not failed.
    pub fn new(writer: BufWriter<W>) -> Self
        ensures writer { buffer_of result ≡ writer }
        ensures works { has_failed result ≡ false }
    {
        Self {
            writer,
            failed: false,
        }
    }
}

impl<W: Write + Drop> Sink for Printer<W> {
    ghost use Rattle.std.specs.Io.Buffered.{writer_contents};
    ghost use Rattle.wc_program.specs.Output.{buffer_of, has_failed};

    ghost written = { λ p. writer_contents W.contents (buffer_of p) };

    ghost is_failed = { λ p. has_failed p };

    fn put(&mut self, bytes: &[u8]) -> Result<(), PutFailed> {
        if self.failed() {
            return Err(PutFailed);
        }
        if self.writer.write_all(bytes).is_err() {
            self.failed = true;
            return Err(PutFailed);
        }
        Ok(())
    }

    fn failed(&self) -> bool {
        self.failed
    }
}

impl<W: Write + Drop> Output for Printer<W> {
    ghost use Rattle.std.specs.Io.Buffered.{writer_inner};
    ghost use Rattle.wc_program.specs.Output.{buffer_of};

    ghost sent = { λ p. W.contents (writer_inner (buffer_of p)) };

    fn flush(&mut self) -> Result<(), PutFailed> {
        if self.failed() {
            return Err(PutFailed);
        }
        if self.writer.flush().is_err() {
            self.failed = true;
            return Err(PutFailed);
        }
        Ok(())
    }
}
