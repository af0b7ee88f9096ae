//! Why no module can be found that exports a key.

ghost use Rattle.std.specs.Prelude.{◌≡◌, ◌≢◌, [], IfOk, IsErr, string_bytes};
ghost use Rattle.wc_texts.specs.Escape.{escaped};
ghost use Rattle.wcplan_inputs.specs.ExporterFault.{exporter_fault_text, exporter_lines, no_exporter_text, several_text};

use std::alloc::{AllocError, AllocFailed, Global};
use wc_texts::{OUT_OF_MEMORY, escaped};

/// Why no module can be found that exports a key, if a command names none. `run_command` says which of several causes
/// is named; `Memory` may come instead of any.
#[derive(Debug, Drop)]
pub enum ExporterFault {
    /// An allocation failed.
    Memory,
    /// No module has all functions of the key. It carries the key, and the lines of what each module lacks.
    NoExporter(String, String),
    /// The main module lacks a function of the key, and several adapters have all its functions. It carries the key,
    /// and these adapters as a text.
    SeveralExporters(String, String),
}

impl ExporterFault {
    /// The text of the fault, escaped.
    ///
    /// # Errors
    ///
    /// `AllocError`: an allocation failed.
    pub(crate) fn text(&self, alloc: Global) -> Result<String, AllocError>
        ensures { IfOk result (λ text. string_bytes text ≡ exporter_fault_text self.now) }
    {
        match self {
            ExporterFault::Memory => String::from_str(alloc, OUT_OF_MEMORY),
            ExporterFault::NoExporter(key, _) => no_exporter_text(alloc, key),
            ExporterFault::SeveralExporters(key, listing) => several_text(alloc, key, listing),
        }
    }

    /// The lines under it.
    ///
    /// # Errors
    ///
    /// `AllocError`: the fault has lines, and an allocation failed.
    pub(crate) fn lines(&self, alloc: Global) -> Result<String, AllocError>
        ensures text { IfOk result (λ text. string_bytes text ≡ exporter_lines self.now) }
        ensures lines { IsErr result → exporter_lines self.now ≢ [] }
    {
        match self {
            ExporterFault::NoExporter(_, lines) => copied(alloc, lines),
            _ => Ok(String::new(alloc)),
        }
    }
}

/// A copy of a text; an empty text takes no allocation.
fn copied(alloc: Global, text: &str) -> Result<String, AllocError>
    ensures text { IfOk result (λ copy. string_bytes copy ≡ text.now) }
    ensures lines { IsErr result → text.now ≢ [] }
{
    if text.is_empty() {
        Ok(String::new(alloc))
    } else {
        String::from_str(alloc, text)
    }
}

/// The text if no module has all functions of a key, escaped.
fn no_exporter_text(alloc: Global, key: &str) -> Result<String, AllocError>
    ensures { IfOk result (λ text. string_bytes text ≡ escaped (no_exporter_text key.now)) }
{
    let text = format!(in alloc; "no module exports all functions of `{key}`")?;
    escaped(alloc, &text)
}

/// The text where several adapters have all functions of a key, escaped.
fn several_text(alloc: Global, key: &str, listing: &str) -> Result<String, AllocError>
    ensures { IfOk result (λ text. string_bytes text ≡ escaped (several_text key.now listing.now)) }
{
    let text = format!(in alloc; "several adapters export all functions of `{key}`:{listing}")?;
    escaped(alloc, &text)
}

impl From<AllocError> for ExporterFault {
    ghost use Rattle.wcplan_inputs.specs.declared.exporter_fault.ExporterFault.TheVariants.{Memory};

    ghost from_gives = { λ _ e. e ≡ Memory };

    fn from(_e: AllocError) -> Self {
        ExporterFault::Memory
    }
}

impl<T: Drop> From<AllocFailed<T>> for ExporterFault {
    ghost use Rattle.wcplan_inputs.specs.declared.exporter_fault.ExporterFault.TheVariants.{Memory};

    ghost from_gives = { λ _ e. e ≡ Memory };

    fn from(_e: AllocFailed<T>) -> Self {
        ExporterFault::Memory
    }
}
