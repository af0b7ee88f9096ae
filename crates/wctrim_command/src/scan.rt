//! The lines that print the imports and the exports of a module.

ghost use Rattle.std.specs.Prelude.{◌≡◌, map, flat_map};
ghost use Rattle.wc_read.specs.Imports.{import_value};
ghost use Rattle.wc_read.specs.Exports.{export_value};
ghost use Rattle.wc_read.specs.Modules.{module_value};
ghost use Rattle.wc_texts.specs.Puts.{Puts, PutsAny};
ghost use Rattle.wctrim_command.specs.Scan.{kind_of, import_line, export_line, scan_lines};

use crate::lines::{LINE_FEED, SPACE};
use itoa::Buffer;
use wc_read::{Export, ExportKind, Import, ImportType, Module};
use wc_write::{PutFailed, Sink};

/// Puts a line for each import of a module, and then for each export, in order.
pub(crate) fn put_scan<S: Sink>(out: &mut S, module: &Module<'_>) -> Result<(), PutFailed>
    ensures { PutsAny S.written S.is_failed out.old out.new
        (scan_lines (module_value «module».now)) result }
{
    put_imports(out, &module.imports)?;
    put_exports(out, &module.exports)
}

/// Puts a line for each import, in order.
fn put_imports<S: Sink>(out: &mut S, imports: &[Import<'_>]) -> Result<(), PutFailed>
    ensures { PutsAny S.written S.is_failed out.old out.new
        (flat_map import_line (map import_value imports.now)) result }
{
    for import in imports {
        put_import(out, import)?;
    }
    Ok(())
}

/// Puts a line for each export, in order.
fn put_exports<S: Sink>(out: &mut S, exports: &[Export<'_>]) -> Result<(), PutFailed>
    ensures { PutsAny S.written S.is_failed out.old out.new
        (flat_map export_line (map export_value exports.now)) result }
{
    for export in exports {
        put_export(out, export)?;
    }
    Ok(())
}

/// Puts the line `import MODULE NAME KIND` of an import.
fn put_import<S: Sink>(out: &mut S, import: &Import<'_>) -> Result<(), PutFailed>
    ensures { Puts S.written S.is_failed out.old out.new
        (import_line (import_value import.now)) result }
{
    out.put(b"import ")?;
    out.put(import.module.as_bytes())?;
    out.put(SPACE)?;
    out.put(import.name.as_bytes())?;
    out.put(SPACE)?;
    out.put(kind_of(&import.ty).name().as_bytes())?;
    out.put(LINE_FEED)
}

/// Puts the line `export NAME KIND INDEX` of an export.
fn put_export<S: Sink>(out: &mut S, export: &Export<'_>) -> Result<(), PutFailed>
    ensures { Puts S.written S.is_failed out.old out.new
        (export_line (export_value export.now)) result }
{
    let mut index = Buffer::new();
    out.put(b"export ")?;
    out.put(export.name.as_bytes())?;
    out.put(SPACE)?;
    out.put(export.kind.name().as_bytes())?;
    out.put(SPACE)?;
    out.put(index.format(export.index).as_bytes())?;
    out.put(LINE_FEED)
}

/// The index space that an import adds to, as the kind of its exports.
fn kind_of(ty: &ImportType) -> ExportKind
    ensures { result ≡ kind_of ty.now }
{
    match ty {
        ImportType::Func(_) => ExportKind::Func,
        ImportType::Table(_) => ExportKind::Table,
        ImportType::Memory(_) => ExportKind::Memory,
        ImportType::Global(_) => ExportKind::Global,
    }
}
