//! Sections (WebAssembly core specification, 5.5.2).

ghost use Rattle.std.specs.Prelude.{◌≡◌, ◌++◌, length, take, IfOk, OnOk, OnErr, IsOk, IsErrOf};
ghost use Rattle.wc_write.specs.Text.{FitsSize, ExceedsSize, section_text};

use crate::fault::WriteFault;
use crate::numbers::put_number;
use std::alloc::{AllocError, Global};

/// Appends a section: its id, its content's size, its content. After an error `out` still begins with the bytes
/// that it had before.
#[tactic(auto, unfolding(crate::specs::Text::section_text))]
fn put_section(out: &mut Vec<u8>, id: u8, content: &[u8]) -> Result<(), AllocError>
    ensures written { OnOk result (out.new.items ≡ out.old.items ++ section_text id content.now) }
    ensures kept { OnErr result (take (length out.old.items) out.new.items ≡ out.old.items) }
{
    out.push(id)?;
    put_number(out, content.len() as u64)?;
    out.extend_from_slice(content)?;
    Ok(())
}

/// Appends a section to `out` (WebAssembly core specification, 5.5.2): its id, its content's size as minimal
/// LEB128, and its content unchanged. Any id and any content are written.
///
/// # Errors
///
/// - `TooLarge`: exactly where the content has 2^32 bytes or more.
/// - `Memory`: an allocation failed.
///
/// After an error `out` has the bytes that it had before.
pub fn append_raw_section(out: &mut Vec<u8>, id: u8, content: &[u8]) -> Result<(), WriteFault>
    ensures written { OnOk result (out.new.items ≡ out.old.items ++ section_text id content.now) }
    ensures unchanged { OnErr result (out.new.items ≡ out.old.items) }
    ensures fits { IsOk result → FitsSize content.now }
    ensures too_large { IsErrOf result WriteFault.TooLarge → ExceedsSize content.now }
    ensures large { ExceedsSize content.now → IsErrOf result WriteFault.TooLarge }
{
    if content.len() > u32::MAX as usize {
        return Err(WriteFault::TooLarge);
    }
    let before = out.len();
    if put_section(out, id, content).is_err() {
        out.truncate(before);
        return Err(WriteFault::Memory);
    }
    Ok(())
}

/// A section (WebAssembly core specification, 5.5.2): its id, its content's size as minimal LEB128, and its content
/// unchanged. Any id and any content are written.
///
/// # Errors
///
/// - `TooLarge`: exactly where the content has 2^32 bytes or more.
/// - `Memory`: an allocation failed.
pub fn raw_section(alloc: Global, id: u8, content: &[u8]) -> Result<Vec<u8>, WriteFault>
    ensures written { IfOk result (λ v. v.items ≡ section_text id content.now) }
    ensures fits { IsOk result → FitsSize content.now }
    ensures too_large { IsErrOf result WriteFault.TooLarge → ExceedsSize content.now }
    ensures large { ExceedsSize content.now → IsErrOf result WriteFault.TooLarge }
{
    let mut section = Vec::new(alloc);
    append_raw_section(&mut section, id, content)?;
    Ok(section)
}
