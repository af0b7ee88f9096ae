//! Sinks: outputs of bytes.

ghost use Rattle.std.specs.Prelude.{◌≡◌, true, false, ⊤, ℕ, List, Bool, Option, OnOk, OnErr, Some, codes};
ghost use Rattle.std.specs.Io.KnownBytes.{Appends, Keeps};

use std::error::Error as StdError;
use std::fmt;
use std::io::{self, Write};

/// A put or a flush failed. The sink is failed, and every later put fails.
#[derive(Clone, Copy, Debug, PartialEq, Eq)]
pub struct PutFailed;

impl fmt::Display for PutFailed {
    ghost output = { λ _. Some (codes "PutFailed") };

    fn fmt<W: fmt::Write>(&self, f: &mut fmt::Formatter<W>) -> fmt::Result {
        f.write_str("PutFailed")
    }
}

impl StdError for PutFailed {}

/// An output of bytes, until a write fails. From then on it is failed: every put fails, and nothing more is written.
pub trait Sink {
    // The bytes that were written so far, where they are known.
    ghost written: { Self → Option (List ℕ) };

    ghost is_failed: { Self → Bool };

    // The facts known of a failed put: of the sink before it, the bytes, and the sink after it.
    ghost put_fails: { Self → List ℕ → Self → Type 0 } = { λ _ _ _. ⊤ };

    /// Writes bytes, all of them.
    ///
    /// # Errors
    ///
    /// `PutFailed`: the sink was failed already, and nothing is written; or it was not, and fails now. How many of
    /// the bytes are written then is left open, and only the implementation's `put_fails` says why.
    fn put(&mut self, bytes: &[u8]) -> Result<(), PutFailed>
        ensures written { OnOk result (Appends (written self.old) (written self.new) bytes.now) }
        ensures refuses { OnOk result (is_failed self.old ≡ false) }
        ensures works { OnOk result (is_failed self.new ≡ false) }
        ensures fails { OnErr result (is_failed self.new ≡ true) }
        ensures cause { is_failed self.old ≡ false →
            OnErr result (put_fails self.old bytes.now self.new) }
        ensures quiet { is_failed self.old ≡ true
            → Keeps (written self.old) (written self.new) };

    /// Whether the sink is failed.
    fn failed(&self) -> bool
        ensures { result ≡ is_failed self.now };
}

/// The writer under a `WriterSink`. Every `Write` is one.
pub trait Destination {
    // The bytes that were written so far, where they are known.
    ghost held: { Self → Option (List ℕ) };

    // The facts known of a failed write: of the destination before it, the bytes, and the destination after it.
    ghost write_fails: { Self → List ℕ → Self → Type 0 };

    // The facts known of a failed flush: of the destination before it and after it.
    ghost flush_fails: { Self → Self → Type 0 };

    /// Writes bytes, all of them.
    ///
    /// # Errors
    ///
    /// The write failed; `write_fails` says what is known then.
    fn write_bytes(&mut self, bytes: &[u8]) -> io::Result<()>
        ensures written { OnOk result (Appends (held self.old) (held self.new) bytes.now) }
        ensures failed { OnErr result (write_fails self.old bytes.now self.new) };

    /// Flushes, that is hands on buffered bytes. The bytes that were written stay the same, after an error too.
    ///
    /// # Errors
    ///
    /// The flush failed; `flush_fails` says what is known then.
    fn hand_on(&mut self) -> io::Result<()>
        ensures kept { Keeps (held self.old) (held self.new) }
        ensures failed { OnErr result (flush_fails self.old self.new) };
}

impl<W: Write> Destination for W {
    ghost held = { W.contents };

    // `Write` says nothing of a call that failed.
    ghost write_fails = { λ _ _ _. ⊤ };

    ghost flush_fails = { λ _ _. ⊤ };

    fn write_bytes(&mut self, bytes: &[u8]) -> io::Result<()> {
        self.write_all(bytes)
    }

    fn hand_on(&mut self) -> io::Result<()> {
        self.flush()
    }
}

/// A sink over any writer. A write or a flush that fails makes it failed for good.
#[derive(Debug, Drop)]
pub struct WriterSink<W> {
    writer: W,
    failed: bool,
}

impl<W: Destination> WriterSink<W> {
    ghost use Rattle.wc_texts.specs.Sink.{writer_of, has_failed};

    /// A sink that writes to `writer`, and is not failed.
    pub fn new(writer: W) -> Self
        ensures writer { writer_of result ≡ writer }
        ensures works { has_failed result ≡ false }
    {
        Self {
            writer,
            failed: false,
        }
    }

    /// Flushes the writer. The bytes that were written stay the same, after an error too.
    ///
    /// # Errors
    ///
    /// `PutFailed`: the sink was failed already, and stays unchanged; or it was not, and the writer's flush failed,
    /// which makes it failed.
    pub fn flush(&mut self) -> Result<(), PutFailed>
        ensures written { Keeps (W.held (writer_of self.old)) (W.held (writer_of self.new)) }
        ensures refuses { OnOk result (has_failed self.old ≡ false) }
        ensures works { OnOk result (has_failed self.new ≡ false) }
        ensures fails { OnErr result (has_failed self.new ≡ true) }
        ensures cause { has_failed self.old ≡ false →
            OnErr result (W.flush_fails (writer_of self.old) (writer_of self.new)) }
        ensures quiet { has_failed self.old ≡ true → self.new ≡ self.old }
    {
        if self.failed {
            return Err(PutFailed);
        }
        if self.writer.hand_on().is_err() {
            self.failed = true;
            return Err(PutFailed);
        }
        Ok(())
    }

    /// The writer. After a failed put, some of the bytes of that put may have been written to it.
    pub fn into_inner(self) -> W
        ensures { result ≡ writer_of self }
    {
        let WriterSink { writer, failed: _ } = self;
        writer
    }
}

impl<W: Destination> Sink for WriterSink<W> {
    ghost use Rattle.wc_texts.specs.Sink.{writer_of, has_failed};

    ghost written = { λ s. W.held (writer_of s) };

    ghost is_failed = { λ s. has_failed s };

    ghost put_fails = { λ s bytes t. W.write_fails (writer_of s) bytes (writer_of t) };

    fn put(&mut self, bytes: &[u8]) -> Result<(), PutFailed> {
        if self.failed() {
            return Err(PutFailed);
        }
        if self.writer.write_bytes(bytes).is_err() {
            self.failed = true;
            return Err(PutFailed);
        }
        Ok(())
    }

    fn failed(&self) -> bool {
        self.failed
    }
}
