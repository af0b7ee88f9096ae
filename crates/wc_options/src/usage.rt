//! The usage text and the help, made of a table of options.

ghost use Rattle.std.specs.Prelude.{◌++◌, codes};
ghost use Rattle.wc_options.specs.Usage.{help_text, helps, usage_text, usages};
ghost use Rattle.wc_texts.specs.Pieces.{IsPut};

use crate::table::ProgramOption;
use wc_texts::{FaultText, Pieces, PutFailed};

/// The usage and help texts of a program.
#[derive(Clone, Copy)]
pub struct Page<'a> {
    /// How the usage text begins, up to the options.
    pub usage: &'a str,
    /// How it ends, after the options.
    pub end: &'a str,
    /// The lines of help of arguments that are no options.
    pub words: &'a str,
    /// The last lines of help, after those of the options.
    pub last: &'a str,
    /// The table of the options.
    pub options: &'a [ProgramOption],
}

/// The usage text of a page.
#[derive(Clone, Copy)]
pub struct Usage<'a>(pub Page<'a>);

/// The help of a page: the usage text, and after it a line for each argument.
#[derive(Clone, Copy)]
pub struct Help<'a>(pub Page<'a>);

impl FaultText for Usage<'_> {
    ghost text = { λ u. usage_text u.0 };

    fn put_pieces<P: Pieces>(&self, out: &mut P) -> Result<(), PutFailed> {
        put_usages(out, self.0.usage, self.0.options)?;
        out.put_piece(self.0.end)
    }
}

impl FaultText for Help<'_> {
    ghost text = { λ h. help_text h.0 };

    fn put_pieces<P: Pieces>(&self, out: &mut P) -> Result<(), PutFailed> {
        Usage(self.0).put_pieces(out)?;
        put_lines(out, self.0)
    }
}

/// A line that says what is wrong with a call, and after it the usage text of a page.
#[derive(Clone, Copy)]
pub struct WrongCall<'a> {
    /// How the line begins, as `wcplan: `.
    pub start: &'a str,
    /// The mistake.
    pub text: &'a str,
    /// The page.
    pub page: Page<'a>,
}

impl FaultText for WrongCall<'_> {
    ghost text = { λ w. w.start.now ++ (w.text.now ++ (codes "\n" ++ usage_text w.page)) };

    fn put_pieces<P: Pieces>(&self, out: &mut P) -> Result<(), PutFailed> {
        out.put_piece(self.start)?;
        put_rest(out, self.text, "\n", self.page)
    }
}

/// Puts the mistake, the end of its line, and the usage text.
fn put_rest<P: Pieces>(out: &mut P, text: &str, end: &str, page: Page<'_>) -> Result<(), PutFailed>
    ensures { IsPut P.puts P.fails out.old out.new
        (text.now ++ (end.now ++ usage_text page.entry)) result }
{
    out.put_piece(text)?;
    put_usage_after(out, end, page)
}

/// Puts the end of a line, and the usage text.
fn put_usage_after<P: Pieces>(out: &mut P, end: &str, page: Page<'_>) -> Result<(), PutFailed>
    ensures { IsPut P.puts P.fails out.old out.new (end.now ++ usage_text page.entry) result }
{
    out.put_piece(end)?;
    Usage(page).put_pieces(out)
}

/// Puts the lines of help.
fn put_lines<P: Pieces>(out: &mut P, page: Page<'_>) -> Result<(), PutFailed>
    ensures { IsPut P.puts P.fails out.old out.new
        ((page.entry.words.now ++ helps page.entry.options.now) ++ page.entry.last.now) result }
{
    put_helps(out, page.words, page.options)?;
    out.put_piece(page.last)
}

/// Puts a text, and after it what the usage text shows of options.
fn put_usages<P: Pieces>(
    out: &mut P,
    before: &str,
    options: &[ProgramOption],
) -> Result<(), PutFailed>
    ensures { IsPut P.puts P.fails out.old out.new (before.now ++ usages options.now) result }
{
    out.put_piece(before)?;
    for option in options {
        out.put_piece(option.usage)?;
    }
    Ok(())
}

/// Puts a text, and after it the lines of help of options.
fn put_helps<P: Pieces>(
    out: &mut P,
    before: &str,
    options: &[ProgramOption],
) -> Result<(), PutFailed>
    ensures { IsPut P.puts P.fails out.old out.new (before.now ++ helps options.now) result }
{
    out.put_piece(before)?;
    for option in options {
        out.put_piece(option.help)?;
    }
    Ok(())
}
