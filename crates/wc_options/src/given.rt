//! The parts of arguments: the values of an option, and the texts that are no options.

ghost use Rattle.std.specs.Prelude.{◌≡◌, ◌++◌, IfOk, OnOk, length, map};
ghost use Rattle.std.specs.Option.{option_map};
ghost use Rattle.wc_options.specs.Reading.{first, is_given, lines_of, plain_texts, said, said_by, texts_in, token_view, value_in, values_of};
ghost use Rattle.wc_options.specs.Wrong.{text_of};

use crate::reading::{Mode, Token, take_up};
use crate::table::ProgramOption;
use std::alloc::{AllocError, Global};

/// The values of the option of this name, in order.
///
/// # Errors
///
/// `AllocError`: an allocation failed. Where there is no value, nothing is allocated.
pub fn values<'a>(
    alloc: Global,
    table: &[ProgramOption],
    arguments: &'a [String],
    name: &str,
) -> Result<Vec<&'a str>, AllocError>
    ensures { IfOk result (λ v. map text_of v.items
        ≡ values_of name.now (said_by (lines_of table.now) (texts_in arguments.now))) }
{
    let mut found = Vec::new(alloc);
    let mut mode = Mode::Free;
    for argument in arguments {
        let Ok((next, token)) = take_up(table, mode, argument.as_str()) else {
            return Ok(found);
        };
        push_value(&mut found, token, name)?;
        mode = next;
    }
    Ok(found)
}

/// Appends the value that an argument gives to the option of this name.
fn push_value<'a>(
    found: &mut Vec<&'a str>,
    token: Option<Token<'a>>,
    name: &str,
) -> Result<(), AllocError>
    ensures { OnOk result (map text_of found.new.items ≡ map text_of found.old.items
        ++ values_of name.now (said (option_map token_view token.entry))) }
{
    if let Some(value) = value_in(token, name) {
        found.push(value)?;
    }
    Ok(())
}

/// The value that an argument gives to the option of this name.
fn value_in<'a>(token: Option<Token<'a>>, name: &str) -> Option<&'a str>
    ensures { option_map text_of result
        ≡ first (values_of name.now (said (option_map token_view token.entry))) }
{
    match token {
        Some(Token::Given(option, value)) if option == name => Some(value),
        _ => None,
    }
}

/// The first value of the option of this name.
pub fn value<'a>(table: &[ProgramOption], arguments: &'a [String], name: &str) -> Option<&'a str>
    ensures { option_map text_of result
        ≡ first (values_of name.now (said_by (lines_of table.now) (texts_in arguments.now))) }
{
    let mut mode = Mode::Free;
    for argument in arguments {
        let Ok((next, token)) = take_up(table, mode, argument.as_str()) else {
            return None;
        };
        if let Some(value) = value_in(token, name) {
            return Some(value);
        }
        mode = next;
    }
    None
}

/// Whether the option of this name is given.
pub fn is_given(table: &[ProgramOption], arguments: &[String], name: &str) -> bool
    ensures { result ≡ is_given name.now
        (said_by (lines_of table.now) (texts_in arguments.now)) }
{
    value(table, arguments, name).is_some()
}

/// The texts that are no options, in order.
///
/// # Errors
///
/// `AllocError`: an allocation failed. Where there is no such text, nothing is allocated.
pub fn texts<'a>(
    alloc: Global,
    table: &[ProgramOption],
    arguments: &'a [String],
) -> Result<Vec<&'a str>, AllocError>
    ensures { IfOk result (λ v. map text_of v.items
        ≡ plain_texts (said_by (lines_of table.now) (texts_in arguments.now))) }
{
    let mut found = Vec::new(alloc);
    let mut mode = Mode::Free;
    for argument in arguments {
        let Ok((next, token)) = take_up(table, mode, argument.as_str()) else {
            return Ok(found);
        };
        push_text(&mut found, token)?;
        mode = next;
    }
    Ok(found)
}

/// Appends the text that an argument is, if it is no option.
fn push_text<'a>(found: &mut Vec<&'a str>, token: Option<Token<'a>>) -> Result<(), AllocError>
    ensures { OnOk result (map text_of found.new.items ≡ map text_of found.old.items
        ++ plain_texts (said (option_map token_view token.entry))) }
{
    if let Some(Token::Plain(text)) = token {
        found.push(text)?;
    }
    Ok(())
}

/// How many texts are no options.
pub fn text_count(table: &[ProgramOption], arguments: &[String]) -> usize
    ensures { result ≡ length (plain_texts (said_by (lines_of table.now)
        (texts_in arguments.now))) }
{
    let mut count = 0;
    let mut mode = Mode::Free;
    for argument in arguments {
        let Ok((next, token)) = take_up(table, mode, argument.as_str()) else {
            return count;
        };
        if let Some(Token::Plain(_)) = token {
            count += 1;
        }
        mode = next;
    }
    count
}
