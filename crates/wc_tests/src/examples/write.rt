//! An example of `wc_write`.

ghost use Rattle.std.specs.Prelude.{◌≡◌, IfOk};
ghost use Rattle.wc_read.specs.Modules.{ModuleValue, SpellsModule};
ghost use Rattle.wc_write.specs.Text.{imports_text, section_text};

use std::alloc::Global;
use thiserror::Error;
use wc_read::{ReadFault, read_module};
use wc_write::{WriteFault, write_import_section};

/// Why the imports of a module could not be written again.
#[derive(Clone, Copy, Debug, Error)]
pub(crate) enum RewriteFault {
    /// The bytes could not be read.
    #[error("Read: {0}")]
    Read(#[from] ReadFault),
    /// The section could not be written.
    #[error("Write: {0}")]
    Write(#[from] WriteFault),
}

/// Reads a module, and writes its imports as one section.
pub(crate) fn import_section(alloc: Global, bytes: &[u8]) -> Result<Vec<u8>, RewriteFault>
    ensures written { IfOk result (λ section. (m : ModuleValue) × SpellsModule bytes.now m
        × (section.items ≡ section_text 2 (imports_text m.imports))) }
{
    let module = read_module(alloc, bytes)?;
    let section = write_import_section(alloc, &module.imports)?;
    Ok(section)
}
