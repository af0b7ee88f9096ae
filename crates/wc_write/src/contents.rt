//! The items of a module's sections (WebAssembly core specification, 5.3.6 and 5.5.7 to 5.5.10).

ghost use Rattle.std.specs.Prelude.{◌≡◌};
ghost use Rattle.wc_read.specs.Types.{func_type_value};
ghost use Rattle.wc_read.specs.Exports.{export_value, export_kind_code};
ghost use Rattle.wc_write.specs.Text.{table_text, memory_text};
ghost use Rattle.wc_write.specs.Modules.{func_type_text, export_text};

use crate::numbers::{put_name, put_number};
use crate::spaces::Defined;
use crate::types::{put_memory, put_table};
use crate::vectors::{Written, put_vector};
use std::alloc::AllocError;
use wc_read::codes::FUNC_TYPE;
use wc_read::{Export, ExportKind, FuncType, MemoryType, TableType};

impl Written for FuncType {
    ghost text = { λ f. func_type_text (func_type_value f) };

    fn put(&self, out: &mut Vec<u8>) -> Result<(), AllocError> {
        out.push(FUNC_TYPE)?;
        put_vector(out, self.params())?;
        put_vector(out, self.results())
    }
}

impl<'b> Written for Defined<'b, TableType, ()> {
    ghost text = { λ t. table_text t.ty };

    fn put(&self, out: &mut Vec<u8>) -> Result<(), AllocError> {
        put_table(out, &self.ty)
    }
}

impl<'b> Written for Defined<'b, MemoryType, ()> {
    ghost text = { λ m. memory_text m.ty };

    fn put(&self, out: &mut Vec<u8>) -> Result<(), AllocError> {
        put_memory(out, &self.ty)
    }
}

/// The byte of a kind of export (5.5.10).
fn export_kind_byte(kind: ExportKind) -> u8
    ensures { result ≡ export_kind_code kind }
{
    match kind {
        ExportKind::Func => 0,
        ExportKind::Table => 1,
        ExportKind::Memory => 2,
        ExportKind::Global => 3,
    }
}

impl<'a> Written for Export<'a> {
    ghost text = { λ e. export_text (export_value e) };

    fn put(&self, out: &mut Vec<u8>) -> Result<(), AllocError> {
        put_name(out, self.name)?;
        out.push(export_kind_byte(self.kind))?;
        put_number(out, u64::from(self.index))
    }
}
