//! The names of the files that are written.

ghost use Rattle.std.specs.Prelude.{◌≡◌, All, IfNone, IfSome, map, true};
ghost use Rattle.std.specs.Option.{option_map};
ghost use Rattle.wc_maps.specs.Texts.{text_of};
ghost use Rattle.wcplan_inputs.specs.FileNames.{AreFilesNamed, IsFilesCause, IsFirstUnfit, IsNameCause, AreNamesFit, is_file_name, is_parted};

use crate::fault::SelectionFault;
use wc_maps::has_text;

/// The name of the file of the main module.
const MAIN: &str = "main";

/// Why files of the main module and of adapters of these names can't be written to a directory, if they are to be
/// written and can't. The first in this order is named, and of one the first adapter:
///
/// - `EmptyDirectory`: the path of the directory is empty.
/// - `FileName`: the name of an adapter is no file's: it is empty, `.` or `..`, or has a `/`, a `\` or a zero byte.
/// - `MainFile`: an adapter has the name of the main module's file.
pub(crate) fn file_fault<'a>(
    directory: Option<&'a str>,
    adapters: &[&'a str],
) -> Option<SelectionFault<'a>>
    ensures fault { IfSome result (IsFilesCause (option_map text_of directory.entry)
        (map text_of adapters.now)) }
    ensures none { IfNone result (AreFilesNamed (option_map text_of directory.entry)
        (map text_of adapters.now)) }
{
    match directory {
        Some("") => Some(SelectionFault::EmptyDirectory),
        Some(_) => name_fault(adapters),
        None => None,
    }
}

/// Why adapters of these names can't be written to a directory, if they can't.
fn name_fault<'a>(adapters: &[&'a str]) -> Option<SelectionFault<'a>>
    ensures fault { IfSome result (IsNameCause (map text_of adapters.now)) }
    ensures none { IfNone result (AreNamesFit (map text_of adapters.now)) }
{
    if let Some(name) = first_unfit(adapters) {
        return Some(SelectionFault::FileName(name));
    }
    if has_text(adapters, MAIN) {
        Some(SelectionFault::MainFile(MAIN))
    } else {
        None
    }
}

/// The first name that is no file's.
fn first_unfit<'a>(names: &[&'a str]) -> Option<&'a str>
    ensures unfit { IfSome result (λ name. IsFirstUnfit (map text_of names.now) name.now) }
    ensures none { IfNone result (All (λ name. is_file_name name ≡ true)
        (map text_of names.now)) }
{
    for name in names {
        if !is_file_name(name) {
            return Some(*name);
        }
    }
    None
}

/// Whether a file may have this name: it is neither empty nor `.` nor `..`, and has no `/`, `\` or zero byte.
fn is_file_name(name: &str) -> bool
    ensures { result ≡ is_file_name name.now }
{
    !(name == "" || name == "." || name == ".." || is_parted(name))
}

/// Whether a text has a byte that ends a name in a path, or a path.
fn is_parted(name: &str) -> bool
    ensures { result ≡ is_parted name.now }
{
    name.as_bytes()
        .iter()
        .any(|byte| *byte == b'/' || *byte == b'\\' || *byte == 0)
}
