//! The lines that print renamed imports.

ghost use Rattle.wc_dedupe.specs.Renames.{rename_view};
ghost use Rattle.wc_texts.specs.Puts.{Puts, PutsAny};
ghost use Rattle.wctrim_command.specs.Lines.{line_of, lines_of};

use wc_dedupe::{Rename, RenameList};
use wc_write::{PutFailed, Sink};

/// Between a module's name and an import's.
const COLON: &[u8] = b": ";

/// Between an import's name and its new one.
const ARROW: &[u8] = b" -> ";

/// Between the parts of a line.
pub(crate) const SPACE: &[u8] = b" ";

/// The end of a line.
pub(crate) const LINE_FEED: &[u8] = b"\n";

/// Puts a line for each rename, in order.
pub(crate) fn put_renames<S: Sink>(out: &mut S, renames: &RenameList) -> Result<(), PutFailed>
    ensures { PutsAny S.written S.is_failed out.old out.new (lines_of renames.now) result }
{
    for index in 0..renames.len() {
        put_rename(out, renames.at(index))?;
    }
    Ok(())
}

/// Puts the line `MODULE: OLD -> NEW` of a rename.
fn put_rename<S: Sink>(out: &mut S, rename: Rename<'_>) -> Result<(), PutFailed>
    ensures { Puts S.written S.is_failed out.old out.new
        (line_of (rename_view rename.entry)) result }
{
    out.put(rename.module.as_bytes())?;
    out.put(COLON)?;
    out.put(rename.original.as_bytes())?;
    out.put(ARROW)?;
    out.put(rename.name.as_bytes())?;
    out.put(LINE_FEED)
}
