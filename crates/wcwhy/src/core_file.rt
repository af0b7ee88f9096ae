//! A core module of a component, which is written to a file.

ghost use Rattle.std.specs.Prelude.{◌≡◌, IfErr, IfOk, OnOk};
ghost use Rattle.wc_program.specs.Files.{Writes, file_change};
ghost use Rattle.wcwhy.specs.Arguments.{command_view};
ghost use Rattle.wcwhy.specs.CoreFile.{IsCoreCause, IsCoreWritten};
ghost use Rattle.wcwhy.specs.Private.CoreFile.{IsWriteFault};

use crate::arguments::Command;
use crate::component::{component_file, missing_module};
use crate::fault::WhyFault;
use crate::inputs::read_source;
use std::alloc::Global;
use wc_program::{FileStore, problem_of};

/// Writes the core module of this index, of a command's component, to the file of this path. Every other file stays the
/// same.
///
/// # Errors
///
/// - Those of `read_source`.
/// - `File`: the component's file can't be read.
/// - `NoModule`, `NoSuchModule`: it has no core module, or none of this index.
/// - `CannotWrite`: the file could not be written. It may have any bytes then.
/// - `Memory`: an allocation failed.
///
/// After each fault but `CannotWrite` all files are the same.
pub(crate) fn write_core<'a, F: FileStore>(
    alloc: Global,
    command: &Command<'a>,
    target: (usize, &'a str),
    files: &mut F,
) -> Result<(), WhyFault<'a>>
    ensures done { OnOk result (IsCoreWritten (command_view command.now)
        (target.entry.0, target.entry.1.now) (F.held files.old) (F.held files.new)) }
    ensures fault { IfErr result (IsCoreCause (command_view command.now)
        (target.entry.0, target.entry.1.now)
        (file_change F.held F.read_fails F.write_fails files.old files.new)) }
{
    let source = read_source(command, &*files)?;
    let file = component_file(alloc, &source)?;
    let modules = file.modules.as_slice();
    match modules.get(target.0) {
        Some(module) => write_bytes(target.1, module.bytes, files),
        None => Err(missing_module(&file, target.0)),
    }
}

/// Writes these bytes to the file of this path.
fn write_bytes<'a, F: FileStore>(
    path: &'a str,
    bytes: &[u8],
    files: &mut F,
) -> Result<(), WhyFault<'a>>
    ensures done { OnOk result (Writes (F.held files.old) (F.held files.new) path.now bytes.now) }
    ensures fault { IfErr result (IsWriteFault path.now bytes.now
        (file_change F.held F.read_fails F.write_fails files.old files.new)) }
{
    match files.write(path, bytes) {
        Ok(()) => Ok(()),
        Err(e) => Err(WhyFault::CannotWrite(path, problem_of(&e))),
    }
}
