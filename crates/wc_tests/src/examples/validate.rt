//! An example of `wc_validate`.

ghost use Rattle.std.specs.Prelude.{◌≡◌, IfOk, None};
ghost use Rattle.wc_validate.specs.Imports.Map.{memory_in};
ghost use Rattle.wc_validate.specs.Validate.{IsRecordOf, ModuleRecord, main_input};

use std::alloc::Global;
use wc_encoder::ComponentEncoder;
use wc_read::MemoryType;
use wc_validate::{ValidateFault, validate_module};

/// Validates a module as the main one, and answers the memory that it imports, if any.
pub(crate) fn imported_memory(
    alloc: Global,
    encoder: &ComponentEncoder,
    bytes: &[u8],
) -> Result<Option<MemoryType>, ValidateFault>
    ensures { IfOk result (λ memory. (r : ModuleRecord)
        × IsRecordOf (main_input encoder.now None) bytes.now r × (memory ≡ memory_in r.imports)) }
{
    let validated = validate_module(alloc, encoder, bytes, None)?;
    Ok(validated.imports.imported_memory())
}
