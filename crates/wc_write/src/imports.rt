//! Import sections (WebAssembly core specification, 5.5.5).

ghost use Rattle.std.specs.Prelude.{◌≡◌, ◌++◌, IfOk, OnOk, OnErr, IsOk, IsErrOf};
ghost use Rattle.wc_read.specs.Imports.{import_value, import_values};
ghost use Rattle.wc_read.specs.Sections.{import_id};
ghost use Rattle.wc_write.specs.Text.{import_text, imports_text, FitsSize, ExceedsSize, section_text};

use crate::fault::WriteFault;
use crate::numbers::put_name;
use crate::sections::append_raw_section;
use crate::types::put_import_type;
use crate::vectors::{Written, put_vector};
use std::alloc::{AllocError, Global};
use wc_read::Import;
use wc_read::codes::IMPORT_ID;

impl<'a> Written for Import<'a> {
    ghost text = { λ i. import_text (import_value i) };

    #[tactic(auto, unfolding(crate::specs::Text::import_text))]
    fn put(&self, out: &mut Vec<u8>) -> Result<(), AllocError> {
        put_name(out, self.module)?;
        put_name(out, self.name)?;
        put_import_type(out, &self.ty)
    }
}

/// Appends an import section to `out` (WebAssembly core specification, 5.5.5): id 2, the content's size, the number
/// of imports, and the imports in order, each number as minimal LEB128. Nothing but the size is checked.
///
/// # Errors
///
/// - `TooLarge`: the content has 2^32 bytes or more.
/// - `Memory`: an allocation failed.
///
/// After an error `out` has the bytes that it had before.
#[tactic(auto, using(crate::proofs::ImportLemmas::imports_written))]
pub fn append_import_section(out: &mut Vec<u8>, imports: &[Import<'_>]) -> Result<(), WriteFault>
    ensures written { OnOk result (out.new.items ≡ out.old.items
        ++ section_text import_id (imports_text (import_values imports.now))) }
    ensures unchanged { OnErr result (out.new.items ≡ out.old.items) }
    ensures fits { IsOk result → FitsSize (imports_text (import_values imports.now)) }
    ensures too_large { IsErrOf result WriteFault.TooLarge →
        ExceedsSize (imports_text (import_values imports.now)) }
{
    let mut content = Vec::new(*out.allocator());
    put_vector(&mut content, imports)?;
    append_raw_section(out, IMPORT_ID, &content)
}

/// An import section (WebAssembly core specification, 5.5.5): id 2, the content's size, the number of imports, and
/// the imports in order, each number as minimal LEB128. Nothing but the size is checked.
///
/// # Errors
///
/// - `TooLarge`: the content has 2^32 bytes or more.
/// - `Memory`: an allocation failed.
pub fn write_import_section(alloc: Global, imports: &[Import<'_>]) -> Result<Vec<u8>, WriteFault>
    ensures written { IfOk result (λ v. v.items ≡
        section_text import_id (imports_text (import_values imports.now))) }
    ensures fits { IsOk result → FitsSize (imports_text (import_values imports.now)) }
    ensures too_large { IsErrOf result WriteFault.TooLarge →
        ExceedsSize (imports_text (import_values imports.now)) }
{
    let mut section = Vec::new(alloc);
    append_import_section(&mut section, imports)?;
    Ok(section)
}
