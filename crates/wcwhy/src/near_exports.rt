//! The exports that are there in place of those that are not.

ghost use Rattle.std.specs.Prelude.{◌≡◌, IfOk, map, string_bytes};
ghost use Rattle.std.specs.Option.{option_map};
ghost use Rattle.wc_read.specs.Exports.{export_value};
ghost use Rattle.wcwhy.specs.NearExports.{IsNearExport, IsNearFor, first_alike, function_text, is_alike_name, near_export};

use crate::texts::{is_alike, same_letters};
use std::alloc::{AllocError, Global};
use wc_gc::GcFault;
use wc_read::laws::modules_unique;
use wc_read::{Export, read_module};
use wc_texts::escaped;

/// The near export that is there in place of the one that a fault of the module with these bytes is about, as it is in
/// the fault's text; `None` where nothing is, and for all other faults.
pub(crate) fn near_for(
    alloc: Global,
    bytes: &[u8],
    fault: &GcFault,
) -> Result<Option<String>, AllocError>
    ensures { IfOk result (λ near. IsNearFor bytes.now fault.now near) }
{
    match fault {
        GcFault::MissingExport(name) => near_export_of(alloc, bytes, name),
        _ => Ok(None),
    }
}

/// The first export of the module with these bytes that equals a name except for its version and the case of letters,
/// escaped.
fn near_export_of(alloc: Global, bytes: &[u8], name: &str) -> Result<Option<String>, AllocError>
    ensures { IfOk result (λ near. IsNearExport bytes.now name.now near) }
{
    // The bytes are those of a module: there is no fault but that memory runs out.
    modules_unique();
    let Ok(code) = read_module(alloc, bytes) else {
        return Err(AllocError);
    };
    near_export(alloc, &code.exports, name)
}

/// The first of these exports that is equal to a name but for its version and for the case of letters, escaped.
fn near_export(
    alloc: Global,
    exports: &[Export<'_>],
    name: &str,
) -> Result<Option<String>, AllocError>
    ensures { IfOk result (λ near. option_map string_bytes near
        ≡ near_export (map export_value exports.now) name.now) }
{
    match first_alike(exports, name) {
        Some(export) => Ok(Some(escaped(alloc, export.name)?)),
        None => Ok(None),
    }
}

/// The first of these exports that is equal to a name but for its version and for the case of letters.
fn first_alike<'i, 'r>(exports: &'i [Export<'r>], name: &str) -> Option<&'i Export<'r>>
    ensures { option_map (λ e. export_value e.now) result
        ≡ first_alike name.now (map export_value exports.now) }
{
    for export in exports {
        if is_alike_export(name, export.name) {
            return Some(export);
        }
    }
    None
}

/// Whether names of exports are equal except for their versions and the case of letters. A version ends before a `#`,
/// after which the function of an interface is named.
fn is_alike_export(name: &str, other: &str) -> bool
    ensures { result ≡ is_alike_name name.now other.now }
{
    is_alike(name, other) && same_letters(function_of(name), function_of(other))
}

/// The function of an interface that a name of an export is about: what is after the first `#`.
fn function_of(name: &str) -> &str
    ensures { result.now ≡ function_text name.now }
{
    match name.split_once('#') {
        Some((_interface, function)) => function,
        None => "",
    }
}
