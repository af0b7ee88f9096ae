//! An example of `wc_dedupe`.

ghost use Rattle.std.specs.Prelude.{◌≡◌, ℕ, IfOk, List, string_bytes};
ghost use Rattle.std.specs.Option.{option_map};
ghost use Rattle.wc_dedupe.specs.Dedupe.{IsDeduped};
ghost use Rattle.wc_dedupe.specs.Renaming.{RenameView, original_in};

use std::alloc::Global;
use std::borrow::CowSlice;
use wc_dedupe::{DedupeFault, ModuleImportMap};
use wc_read::Import;

/// Renames the repeated imports of a module, and gives the original name of one of its imports
/// then. `None` where it was not renamed.
pub(crate) fn original_name(
    alloc: Global,
    bytes: &[u8],
    import: &Import<'_>,
) -> Result<Option<String>, DedupeFault>
    ensures { IfOk result (λ name. (out : List ℕ) × (renames : List RenameView)
        × IsDeduped bytes.now out renames
        × (option_map string_bytes name
        ≡ original_in renames import.now.module.now import.now.name.now)) }
{
    let (_deduped, map) = ModuleImportMap::new(alloc, CowSlice::Borrowed(bytes))?;
    let Some(map) = map else {
        return Ok(None);
    };
    match map.original_name(import) {
        Some(name) => Ok(Some(String::from_str(alloc, name)?)),
        None => Ok(None),
    }
}
