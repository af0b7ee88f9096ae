//! The arguments of a trim after its paths: its options, and then its exports.

ghost use Rattle.std.specs.Prelude.{◌≡◌, map, string_bytes, IfOk, IsErr, Some, None};
ghost use Rattle.std.specs.Option.{option_map};
ghost use Rattle.wctrim_command.specs.Private.TrimArguments.{realloc_parts, page_of, page_parts, either_realloc, trim_parts, are_exports as are_exports_in};

use crate::command::Usage;

/// The option before the name of the main module's realloc.
const REALLOC: &str = "--realloc";

/// The option before the exponent of the page size.
const PAGE: &str = "--page";

/// The exponent of the page size where none is given.
const DEFAULT_PAGE: u32 = 16;

/// The arguments of a trim after its paths.
#[derive(Clone, Copy)]
pub(crate) struct TrimArguments<'a> {
    /// The name of the main module's realloc.
    pub(crate) realloc: Option<&'a str>,
    /// The exponent of the page size.
    pub(crate) page_size_log2: u32,
    /// The exports, one at least.
    pub(crate) exports: &'a [String],
}

/// Reads the options, in either order, and then the exports.
pub(crate) fn trim_arguments(arguments: &[String]) -> Result<TrimArguments<'_>, Usage>
    ensures parts { IfOk result (λ t. trim_parts (map string_bytes arguments.now)
        ≡ Some (
          option_map (λ n. n.now) t.realloc,
          t.page_size_log2,
          map string_bytes t.exports.now,
        )) }
    ensures none { IsErr result → trim_parts (map string_bytes arguments.now) ≡ None }
{
    let (before, arguments) = realloc_option(arguments);
    let (page_size_log2, arguments) = page_option(arguments)?;
    let (realloc, exports) = realloc_option_unless(before, arguments);
    if !are_exports(exports) {
        return Err(Usage);
    }
    Ok(TrimArguments {
        realloc,
        page_size_log2,
        exports,
    })
}

/// The name of the main module's realloc where it is known, or else where it is given here, and the arguments after it.
fn realloc_option_unless<'a>(
    known: Option<&'a str>,
    arguments: &'a [String],
) -> (Option<&'a str>, &'a [String])
    ensures { either_realloc (option_map (λ n. n.now) known.entry) (map string_bytes arguments.now)
        ≡ (option_map (λ n. n.now) result.0, map string_bytes result.1.now) }
{
    match known {
        Some(_) => (known, arguments),
        None => realloc_option(arguments),
    }
}

/// The name of the main module's realloc, where it is given here, and the arguments after it.
fn realloc_option(arguments: &[String]) -> (Option<&str>, &[String])
    ensures { realloc_parts (map string_bytes arguments.now)
        ≡ (option_map (λ n. n.now) result.0, map string_bytes result.1.now) }
{
    match arguments {
        [argument, name, arguments @ ..] if argument.as_str() == REALLOC => (
            Some(name.as_str()),
            arguments,
        ),
        _ => (None, arguments),
    }
}

/// The exponent of the page size, where it is given here, or else the default; and the arguments after it.
fn page_option(arguments: &[String]) -> Result<(u32, &[String]), Usage>
    ensures parts { IfOk result (λ r. page_parts (map string_bytes arguments.now)
        ≡ Some (r.0, map string_bytes r.1.now)) }
    ensures none { IsErr result → page_parts (map string_bytes arguments.now) ≡ None }
{
    match arguments {
        [argument, digits, arguments @ ..] if argument.as_str() == PAGE => {
            let page_size_log2 = page_size_log2_of(digits.as_str())?;
            Ok((page_size_log2, arguments))
        }
        _ => Ok((DEFAULT_PAGE, arguments)),
    }
}

/// The exponent that an argument spells.
fn page_size_log2_of(argument: &str) -> Result<u32, Usage>
    ensures page_size_log2 { IfOk result (λ n. page_of argument.now ≡ Some n) }
    ensures none { IsErr result → page_of argument.now ≡ None }
{
    if argument == "0" {
        Ok(0)
    } else if argument == "16" {
        Ok(16)
    } else {
        Err(Usage)
    }
}

/// Whether there is an argument, and the first is no option.
fn are_exports(arguments: &[String]) -> bool
    ensures { result ≡ are_exports_in (map string_bytes arguments.now) }
{
    match arguments {
        [first, ..] => !(first.as_str() == REALLOC || first.as_str() == PAGE),
        [] => false,
    }
}
