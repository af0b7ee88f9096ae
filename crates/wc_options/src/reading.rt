//! The reading of arguments, one after another.

ghost use Rattle.std.specs.Prelude.{◌≡◌, IfErr, OnOk, Ok};
ghost use Rattle.std.specs.Option.{option_map};
ghost use Rattle.wc_options.specs.Reading.{begins_option, comes_again, is_full, lines_of, mode_view, pair_of, plain, read, refused, refused_token, repeated, said_by, step_view, take_alone, take_free, take_kind, take_named, take_option, take_pair, take_up, take_value, texts_in, token_view, valued};
ghost use Rattle.wc_options.specs.Table.{option_named};
ghost use Rattle.wc_options.specs.Wrong.{IsReadWithoutMemory, IsRefused, IsStop};

use crate::given::{is_given, text_count};
use crate::table::{ProgramOption, Value, option_named};
use crate::wrong::{NoCommand, WrongArgument};

/// The kinds of argument that may come next.
#[derive(Clone, Copy)]
pub(crate) enum Mode<'a> {
    /// Any argument.
    Free,
    /// The value of the option of this name.
    Pending(&'a str, Value),
    /// No option: those have ended.
    Ended,
}

/// The meaning of an argument: a text or an option.
#[derive(Clone, Copy)]
pub(crate) enum Token<'a> {
    /// A text that is no option.
    Plain(&'a str),
    /// The option with this name and this value, which is empty if it has none.
    Given(&'a str, &'a str),
}

/// Reads arguments by a table of options; the first argument is the one after the program's name. An argument that
/// begins with `-` is an option, except `-` alone. The argument `--` is skipped; arguments after it are no options.
/// If an option has a value, it is the next argument, or follows a `=` in the same one. `most`: how many arguments
/// may be no options; `None` for any number. Nothing is allocated.
///
/// # Errors
///
/// The arguments are read in order, and the first of these is named:
///
/// - `Help`, `Version`: an option is `--help` or `-h`, or `--version`.
/// - `Wrong`: an option is not in the table, or is repeated, or its value is not allowed; or too many arguments are
///   no options; or, after the last, the value of an option is missing.
pub fn check<'a>(
    table: &[ProgramOption],
    most: Option<usize>,
    arguments: &'a [String],
) -> Result<(), NoCommand<'a>>
    ensures read { OnOk result (read (lines_of table.now) most (texts_in arguments.now)
        ≡ Ok (said_by (lines_of table.now) (texts_in arguments.now))) }
    ensures stops { IfErr result (IsStop ⊥ (read (lines_of table.now) most
        (texts_in arguments.now))) }
{
    let mut mode = Mode::Free;
    for index in 0..arguments.len() {
        let (next, token) = take_up(table, mode, arguments[index].as_str())?;
        check_token(table, most, &arguments[..index], token)?;
        mode = next;
    }
    match mode {
        Mode::Pending(name, _) => Err(NoCommand::Wrong(WrongArgument::MissingValue(name))),
        Mode::Free | Mode::Ended => Ok(()),
    }
}

/// Refuses what an argument says after those before it: an option that comes again, or one text too many.
fn check_token<'a>(
    table: &[ProgramOption],
    most: Option<usize>,
    before: &[String],
    token: Option<Token<'a>>,
) -> Result<(), NoCommand<'a>>
    ensures { IsRefused (refused (lines_of table.now) most
        (said_by (lines_of table.now) (texts_in before.now))
        (option_map token_view token.entry)) result }
{
    match token {
        Some(Token::Plain(text)) => check_plain(table, most, before, text),
        Some(Token::Given(name, _)) => check_given(table, before, name),
        None => Ok(()),
    }
}

/// Refuses a text that is no option, if there are as many before it as there may be.
fn check_plain<'a>(
    table: &[ProgramOption],
    most: Option<usize>,
    before: &[String],
    text: &'a str,
) -> Result<(), NoCommand<'a>>
    ensures { IsRefused (refused_token (lines_of table.now) most
        (said_by (lines_of table.now) (texts_in before.now)) (plain text.now)) result }
{
    if is_full(table, most, before) {
        return Err(NoCommand::Wrong(WrongArgument::Unexpected(text)));
    }
    Ok(())
}

/// Whether there are as many texts that are no options as there may be.
fn is_full(table: &[ProgramOption], most: Option<usize>, before: &[String]) -> bool
    ensures { result ≡ is_full most (said_by (lines_of table.now) (texts_in before.now)) }
{
    match most {
        Some(most) => text_count(table, before) == most,
        None => false,
    }
}

/// Refuses a repeated option, if it may come only once.
fn check_given<'a>(
    table: &[ProgramOption],
    before: &[String],
    name: &'a str,
) -> Result<(), NoCommand<'a>>
    ensures { IsRefused (repeated (lines_of table.now)
        (said_by (lines_of table.now) (texts_in before.now)) name.now) result }
{
    if comes_again(table, before, name) {
        return Err(NoCommand::Wrong(WrongArgument::RepeatedOption(name)));
    }
    Ok(())
}

/// Whether an option is repeated that may come only once.
fn comes_again(table: &[ProgramOption], before: &[String], name: &str) -> bool
    ensures { result ≡ comes_again (lines_of table.now)
        (said_by (lines_of table.now) (texts_in before.now)) name.now }
{
    match option_named(table, name) {
        Some(option) => !option.repeats && is_given(table, before, name),
        None => false,
    }
}

/// Reads an argument: returns the mode of the argument after it, and its meaning, unless that one is its value.
pub(crate) fn take_up<'a>(
    table: &[ProgramOption],
    mode: Mode<'a>,
    argument: &'a str,
) -> Result<(Mode<'a>, Option<Token<'a>>), NoCommand<'a>>
    ensures { IsReadWithoutMemory step_view result
        (take_up (lines_of table.now) (mode_view mode.entry) argument.now) }
{
    match mode {
        Mode::Free => take_free(table, argument),
        Mode::Pending(name, value) => take_value(name, value, argument),
        Mode::Ended => Ok((Mode::Ended, Some(Token::Plain(argument)))),
    }
}

/// Takes up the value of an option in an argument of its own.
fn take_value<'a>(
    name: &'a str,
    value: Value,
    argument: &'a str,
) -> Result<(Mode<'a>, Option<Token<'a>>), NoCommand<'a>>
    ensures { IsReadWithoutMemory step_view result (take_value name.now value argument.now) }
{
    match value {
        Value::Key if begins_option(argument) => {
            Err(NoCommand::Wrong(WrongArgument::MissingValue(name)))
        }
        _ => valued(name, value, argument),
    }
}

/// Takes up the value of an option.
fn valued<'a>(
    name: &'a str,
    value: Value,
    text: &'a str,
) -> Result<(Mode<'a>, Option<Token<'a>>), NoCommand<'a>>
    ensures { IsReadWithoutMemory step_view result (valued name.now value text.now) }
{
    match value {
        Value::Pair if pair(text).is_none() => Err(NoCommand::Wrong(WrongArgument::NotAPair {
            option: name,
            value: text,
        })),
        _ => Ok((Mode::Free, Some(Token::Given(name, text)))),
    }
}

/// Takes up any argument.
fn take_free<'a>(
    table: &[ProgramOption],
    argument: &'a str,
) -> Result<(Mode<'a>, Option<Token<'a>>), NoCommand<'a>>
    ensures { IsReadWithoutMemory step_view result
        (take_free (lines_of table.now) argument.now) }
{
    if argument == "--" {
        return Ok((Mode::Ended, None));
    }
    if begins_option(argument) {
        take_option(table, argument)
    } else {
        Ok((Mode::Free, Some(Token::Plain(argument))))
    }
}

/// Takes up an argument that begins as options do.
fn take_option<'a>(
    table: &[ProgramOption],
    argument: &'a str,
) -> Result<(Mode<'a>, Option<Token<'a>>), NoCommand<'a>>
    ensures { IsReadWithoutMemory step_view result
        (take_option (lines_of table.now) argument.now) }
{
    if argument == "--help" || argument == "-h" {
        return Err(NoCommand::Help);
    }
    if argument == "--version" {
        return Err(NoCommand::Version);
    }
    match option_named(table, argument) {
        Some(option) => Ok(take_alone(argument, option.value)),
        None => take_pair(table, argument),
    }
}

/// Takes up an option in an argument of its own.
fn take_alone(argument: &str, value: Value) -> (Mode<'_>, Option<Token<'_>>)
    ensures { Ok (step_view result) ≡ take_alone argument.now value }
{
    match value {
        Value::Nothing => (Mode::Free, Some(Token::Given(argument, ""))),
        Value::Text | Value::Key | Value::Pair => (Mode::Pending(argument, value), None),
    }
}

/// Takes up an option with its value in one argument.
fn take_pair<'a>(
    table: &[ProgramOption],
    argument: &'a str,
) -> Result<(Mode<'a>, Option<Token<'a>>), NoCommand<'a>>
    ensures { IsReadWithoutMemory step_view result
        (take_pair (lines_of table.now) argument.now (pair_of argument.now)) }
{
    match pair(argument) {
        Some((name, text)) => take_named(table, argument, name, text),
        None => Err(NoCommand::Wrong(WrongArgument::UnknownOption(argument))),
    }
}

/// Takes up the option of this name with this value, which are in one argument.
fn take_named<'a>(
    table: &[ProgramOption],
    argument: &'a str,
    name: &'a str,
    text: &'a str,
) -> Result<(Mode<'a>, Option<Token<'a>>), NoCommand<'a>>
    ensures { IsReadWithoutMemory step_view result (take_named argument.now (name.now, text.now)
        (option_named (lines_of table.now) name.now)) }
{
    match option_named(table, name) {
        Some(option) => take_kind(argument, name, text, option.value),
        None => Err(NoCommand::Wrong(WrongArgument::UnknownOption(argument))),
    }
}

/// Takes up an option of this kind with its value, which are in one argument.
fn take_kind<'a>(
    argument: &'a str,
    name: &'a str,
    text: &'a str,
    value: Value,
) -> Result<(Mode<'a>, Option<Token<'a>>), NoCommand<'a>>
    ensures { IsReadWithoutMemory step_view result
        (take_kind argument.now (name.now, text.now) value) }
{
    match value {
        Value::Nothing => Err(NoCommand::Wrong(WrongArgument::UnknownOption(argument))),
        Value::Text | Value::Key | Value::Pair => valued(name, value, text),
    }
}

/// Whether an argument begins as options do.
fn begins_option(argument: &str) -> bool
    ensures { result ≡ begins_option argument.now }
{
    argument.starts_with('-') && argument != "-"
}

/// The texts before and after the first `=`.
pub fn pair(text: &str) -> Option<(&str, &str)>
    ensures { option_map (λ p. (p.0.now, p.1.now)) result ≡ pair_of text.now }
{
    text.split_once('=')
}
