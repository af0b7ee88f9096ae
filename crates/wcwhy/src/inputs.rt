//! The files of a command: that of the module or component, those of its adapters, and that of what is allowed.

ghost use Rattle.std.specs.Prelude.{◌≡◌, IfErr, IfOk, OnOk, map, string_bytes};
ghost use Rattle.std.specs.List.{AllZip};
ghost use Rattle.std.specs.Option.{option_map};
ghost use Rattle.wc_why.specs.Texts.{text_of};
ghost use Rattle.wc_program.specs.Files.{FailsToRead, Holds, file_change};
ghost use Rattle.wcwhy.specs.Arguments.{command_view};
ghost use Rattle.wcwhy.specs.Inputs.{AreInputs, Fits, IsAdapterFile, IsAllowFile, IsInputCause, IsMisfit, IsSourceCause, gives_adapters, input_path};
ghost use Rattle.wcwhy.specs.Private.Inputs.{AreUnread, IsAllowFault, IsReadFault, IsTextFault, allow_view, file_view};

use crate::adapter_names::check_names;
use crate::arguments::Command;
use crate::fault::WhyFault;
use std::alloc::Global;
use wc_component_file::is_component;
use wc_maps::Seed;
use wc_options::is_standard;
use wc_program::{FileProblem, FileStore};

/// The bytes of the files of a command.
#[derive(Drop)]
pub(crate) struct Input<'a> {
    /// Those of the module, or of the component.
    pub(crate) source: Vec<u8>,
    /// Those of the adapters by their names, in order.
    pub(crate) adapters: Vec<(&'a str, Vec<u8>)>,
    /// The file that says what is allowed, if there is one.
    pub(crate) allow: Option<AllowFile<'a>>,
}

/// A file that says what is allowed.
#[derive(Drop)]
pub(crate) struct AllowFile<'a> {
    /// Its path.
    pub(crate) path: &'a str,
    /// Its text.
    pub(crate) text: String,
}

/// A command, with what a file says that is allowed.
#[derive(Clone, Copy)]
pub(crate) struct Request<'c, 'a> {
    /// The seed of the maps that are made.
    pub(crate) seed: Seed,
    /// The command.
    pub(crate) command: &'c Command<'a>,
    /// The file that says what is allowed, if there is one.
    pub(crate) allow: &'c Option<AllowFile<'a>>,
}

/// The bytes of the files of a command. The names of adapters are checked before adapters are read. `seed`: the seed of
/// the sets that are made.
///
/// # Errors
///
/// Of several causes the first in this order is named; `Memory` may come in place of any.
///
/// - Those of `read_source`.
/// - `RepeatedAdapter`, `NoAdapter`: adapters are not named so (`check_names`).
/// - `CannotRead`: an adapter could not be read; they are read in order.
/// - `CannotRead`, `AllowNotText`: the file of what is allowed could not be read, or is no text.
/// - `Memory`: an allocation failed.
pub(crate) fn read_input<'a, F: FileStore>(
    alloc: Global,
    seed: Seed,
    command: &Command<'a>,
    files: &F,
) -> Result<Input<'a>, WhyFault<'a>>
    ensures read { IfOk result (λ i. AreInputs (command_view command.now) (F.held files.now)
        i.source.items (map file_view i.adapters.items) (option_map allow_view i.allow)) }
    ensures fault { IfErr result (IsInputCause (command_view command.now)
        (file_change F.held F.read_fails F.write_fails files.now files.now)) }
{
    let source = read_source(command, files)?;
    check_names(alloc, seed, &command.adapters, &command.adapter_exports)?;
    let adapters = read_adapters(alloc, command, files)?;
    let allow = read_allow(command.allow, files)?;
    Ok(Input {
        source,
        adapters,
        allow,
    })
}

/// The bytes of a command's module or component.
///
/// # Errors
///
/// - `CannotRead`: the file could not be read.
/// - `Component`: it is a component, and an adapter is given, or an export of one.
/// - `NoComponent`: it is no component, and a core module is chosen.
/// - `Memory`: the file is too large for memory.
pub(crate) fn read_source<'a, F: FileStore>(
    command: &Command<'a>,
    files: &F,
) -> Result<Vec<u8>, WhyFault<'a>>
    ensures held { IfOk result (λ v. Holds (F.held files.now)
        (input_path (command_view command.now).source) v.items) }
    ensures fits { IfOk result (λ v. Fits (command_view command.now) v.items) }
    ensures fault { IfErr result (IsSourceCause (command_view command.now)
        (file_change F.held F.read_fails F.write_fails files.now files.now)) }
{
    let source = read_file(command.source, files)?;
    check_kind(command, &source)?;
    Ok(source)
}

/// Checks that a file with these bytes is a component if a core module is chosen, and none if an adapter is given.
fn check_kind<'a>(command: &Command<'a>, source: &[u8]) -> Result<(), WhyFault<'a>>
    ensures fits { OnOk result (Fits (command_view command.now) source.now) }
    ensures fault { IfErr result (IsMisfit (command_view command.now) source.now) }
{
    if is_component(source) {
        if gives_adapters(command) {
            return Err(WhyFault::Component);
        }
    } else if command.core.is_some() {
        return Err(WhyFault::NoComponent);
    }
    Ok(())
}

/// Whether an adapter is given, or an export of one.
fn gives_adapters(command: &Command<'_>) -> bool
    ensures { result ≡ gives_adapters (command_view command.now) }
{
    !command.adapters.is_empty() || !command.adapter_exports.is_empty()
}

/// The adapters of a command by their names, with the bytes of their files, in order.
fn read_adapters<'a, F: FileStore>(
    alloc: Global,
    command: &Command<'a>,
    files: &F,
) -> Result<Vec<(&'a str, Vec<u8>)>, WhyFault<'a>>
    ensures read { IfOk result (λ v. AllZip (IsAdapterFile (F.held files.now))
        (command_view command.now).adapters (map file_view v.items)) }
    ensures fault { IfErr result (AreUnread (command_view command.now)
        (FailsToRead F.read_fails files.now)) }
{
    let mut read = Vec::new(alloc);
    for (name, path) in &command.adapters {
        let wasm = read_file(path, files)?;
        read.push((*name, wasm))?;
    }
    Ok(read)
}

/// The file of this path that says what is allowed, if there is one.
fn read_allow<'a, F: FileStore>(
    path: Option<&'a str>,
    files: &F,
) -> Result<Option<AllowFile<'a>>, WhyFault<'a>>
    ensures read { IfOk result (λ o. IsAllowFile (F.held files.now)
        (option_map text_of path.entry) (option_map allow_view o)) }
    ensures fault { IfErr result (IsAllowFault (option_map text_of path.entry) (F.held files.now)
        (FailsToRead F.read_fails files.now)) }
{
    match path {
        Some(path) => {
            let text = read_text(path, files)?;
            Ok(Some(AllowFile { path, text }))
        }
        None => Ok(None),
    }
}

/// The text of the file of this path; that of standard input, if the path is `-`.
fn read_text<'a, F: FileStore>(path: &'a str, files: &F) -> Result<String, WhyFault<'a>>
    ensures read { IfOk result (λ text. Holds (F.held files.now) (input_path path.now)
        (string_bytes text)) }
    ensures fault { IfErr result (IsTextFault path.now (F.held files.now)
        (FailsToRead F.read_fails files.now)) }
{
    let bytes = read_file(path, files)?;
    match String::from_utf8(bytes) {
        Ok(text) => Ok(text),
        Err(_) => Err(WhyFault::AllowNotText(path)),
    }
}

/// The bytes of the file of this path; those of standard input, if the path is `-`.
fn read_file<'a, F: FileStore>(path: &'a str, files: &F) -> Result<Vec<u8>, WhyFault<'a>>
    ensures read { IfOk result (λ v. Holds (F.held files.now) (input_path path.now) v.items) }
    ensures fault { IfErr result (IsReadFault path.now (FailsToRead F.read_fails files.now)) }
{
    match wc_program::read_file(files, input_path(path)) {
        Ok(bytes) => Ok(bytes),
        Err(FileProblem::Memory) => Err(WhyFault::Memory),
        Err(problem) => Err(WhyFault::CannotRead(path, problem)),
    }
}

/// The path of the file that is read: `-` stands for standard input.
fn input_path(path: &str) -> &str
    ensures { result.now ≡ input_path path.now }
{
    if is_standard(path) {
        "/dev/stdin"
    } else {
        path
    }
}
