//! The arguments of a command.

ghost use Rattle.std.specs.Prelude.{◌≡◌, IfOk, IfErr, IsErr, None, map, string_bytes};
ghost use Rattle.wctrim_command.specs.Command.{CommandView, command_view, IsCommandLine, IsExecutable};
ghost use Rattle.wctrim_command.specs.Private.TrimArguments.{trim_parts, IsTrimOf};

use crate::trim_arguments::trim_arguments;

/// A request to the program.
#[derive(Clone, Copy, Debug, PartialEq, Eq)]
pub enum Command<'a> {
    /// Renames the repeated imports of the module in the file `source`, prints each rename, and writes the renamed
    /// module to the file `target`. Both are paths.
    Dedupe {
        source: &'a str,
        target: &'a str,
    },
    /// Prints the imports and the exports of the module in the file `source`, a path, and writes no file.
    Scan {
        source: &'a str,
    },
    /// Cuts the adapter in the file `source` to what the exports of these names reach, and writes it to the file
    /// `target`. Both are paths. The main module exports a realloc as `realloc`, where that is a name, and a page of
    /// its memory has 2^`page` bytes.
    Trim {
        source: &'a str,
        target: &'a str,
        realloc: Option<&'a str>,
        page: u32,
        exports: &'a [String],
    },
}

impl<'a> Command<'a> {
    ghost use Rattle.std.specs.Option.{option_map};
    ghost use Rattle.wctrim_command.specs.Command.{source_of, target_of};

    /// The path of the file that is read.
    pub fn source(&self) -> &'a str
        ensures { result.now ≡ source_of (command_view self.now) }
    {
        match *self {
            Command::Dedupe { source, .. } | Command::Scan { source } => source,
            Command::Trim { source, .. } => source,
        }
    }

    /// The path of the file that is written, `None` where none is.
    pub fn target(&self) -> Option<&'a str>
        ensures { option_map (λ t. t.now) result ≡ target_of (command_view self.now) }
    {
        match *self {
            Command::Dedupe { target, .. } => Some(target),
            Command::Scan { .. } => None,
            Command::Trim { target, .. } => Some(target),
        }
    }
}

/// The arguments are those of no command.
#[derive(Clone, Copy, Debug, PartialEq, Eq)]
pub struct Usage;

/// The command of these arguments, the first of them the one after the program's name: `dedupe IN OUT`, `scan IN`, or
/// `trim IN OUT [--realloc NAME] [--page 0|16] EXPORT...`. IN, OUT and NAME may be any strings. It does not allocate.
///
/// Directly after OUT the arguments `--realloc` and `--page` are options, in either order, each at most once. The page
/// is 16 where it is not given. From the first other argument on all are exports, one at least.
///
/// # Errors
///
/// `Usage`: they are the arguments of no command.
pub fn parse(arguments: &[String]) -> Result<Command<'_>, Usage>
    ensures command { IfOk result (λ c. IsCommandLine (map string_bytes arguments.now)
        (command_view c)) }
    // No other command has these arguments.
    ensures unique { IfOk result (λ c. (d : CommandView)
        → IsCommandLine (map string_bytes arguments.now) d → d ≡ command_view c) }
    ensures executable { IfOk result (λ c. IsExecutable (command_view c)) }
    ensures usage { IfErr result (λ _. (c : CommandView)
        → ¬ (IsCommandLine (map string_bytes arguments.now) c)) }
{
    match arguments {
        [name, source, target] if name.as_str() == "dedupe" => Ok(Command::Dedupe {
            source: source.as_str(),
            target: target.as_str(),
        }),
        [name, file] if name.as_str() == "scan" => Ok(Command::Scan {
            source: file.as_str(),
        }),
        [name, source, target, after_paths @ ..] if name.as_str() == "trim" => {
            parse_trim(source.as_str(), target.as_str(), after_paths)
        }
        _ => Err(Usage),
    }
}

/// The trim from one file to another with these arguments after their paths.
fn parse_trim<'a>(
    source: &'a str,
    target: &'a str,
    after_paths: &'a [String],
) -> Result<Command<'a>, Usage>
    ensures parts { IfOk result (λ c. IsTrimOf source.now target.now
        (trim_parts (map string_bytes after_paths.now)) (command_view c)) }
    ensures none { IsErr result → trim_parts (map string_bytes after_paths.now) ≡ None }
{
    let parsed = trim_arguments(after_paths)?;
    Ok(Command::Trim {
        source,
        target,
        realloc: parsed.realloc,
        page: parsed.page_size_log2,
        exports: parsed.exports,
    })
}
