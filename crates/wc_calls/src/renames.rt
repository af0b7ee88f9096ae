//! Renames as bytes.

ghost use Rattle.std.specs.Prelude.{◌≡◌, ◌++◌, OnOk, IfOk};
ghost use Rattle.std.specs.List.{flat_map};
ghost use Rattle.wc_write.specs.Text.{number_text, name_text};
ghost use Rattle.wc_dedupe.specs.Renames.{rename_view};
ghost use Rattle.wc_calls.specs.Renames.{rename_text, renames_text};

use std::alloc::{AllocError, Global};
use wc_dedupe::{Rename, RenameList};
use wc_read::codes::MORE_BYTES;

/// How many numbers have seven bits.
const SEVEN_BITS: u64 = 128;

/// The text of renames: how many they are, and of each the module, the original name and the new one.
pub(crate) fn renames_text(alloc: Global, renames: &RenameList) -> Result<Vec<u8>, AllocError>
    ensures { IfOk result (λ text. text.items ≡ renames_text renames.now) }
{
    let mut text = Vec::new(alloc);
    put_number(&mut text, renames.len() as u64)?;
    put_renames(&mut text, renames)?;
    Ok(text)
}

/// Appends renames, one after another.
fn put_renames(out: &mut Vec<u8>, renames: &RenameList) -> Result<(), AllocError>
    ensures { OnOk result (out.new.items
        ≡ out.old.items ++ flat_map rename_text renames.now) }
{
    for index in 0..renames.len() {
        put_rename(out, renames.at(index))?;
    }
    Ok(())
}

/// Appends a rename.
fn put_rename(out: &mut Vec<u8>, rename: Rename<'_>) -> Result<(), AllocError>
    ensures { OnOk result (out.new.items
        ≡ out.old.items ++ rename_text (rename_view rename.entry)) }
{
    put_name(out, rename.module)?;
    put_name(out, rename.original)?;
    put_name(out, rename.name)
}

/// Appends a name: its length in bytes, and its bytes.
fn put_name(out: &mut Vec<u8>, name: &str) -> Result<(), AllocError>
    ensures { OnOk result (out.new.items ≡ out.old.items ++ name_text name.now) }
{
    put_number(out, name.len() as u64)?;
    out.extend_from_slice(name.as_bytes())?;
    Ok(())
}

/// Appends an unsigned number as minimal LEB128, the low seven bits first.
fn put_number(out: &mut Vec<u8>, number: u64) -> Result<(), AllocError>
    ensures { OnOk result (out.new.items ≡ out.old.items ++ number_text number) }
{
    let mut rest = number;
    while rest >= SEVEN_BITS {
        out.push(MORE_BYTES + (rest % SEVEN_BITS) as u8)?;
        rest /= SEVEN_BITS;
    }
    out.push(rest as u8)?;
    Ok(())
}
