//! The reasons why arguments make no command, and the texts of mistakes.

ghost use Rattle.std.specs.Prelude.{◌≡◌, IfOk, string_bytes};
ghost use Rattle.wc_texts.specs.Escape.{escaped};
ghost use Rattle.wc_options.specs.Wrong.{wrong_text, wrong_view};
ghost use Rattle.wc_options.specs.declared.wrong.NoCommand.TheVariants.{Memory};

use std::alloc::{AllocError, AllocFailed, Global};
use wc_texts::escaped;

/// The reason why arguments make no command.
#[derive(Clone, Copy, Debug, PartialEq, Eq)]
pub enum NoCommand<'a> {
    /// An allocation failed.
    Memory,
    /// The help text is asked for.
    Help,
    /// The version is asked for.
    Version,
    /// An argument is wrong, or missing.
    Wrong(WrongArgument<'a>),
}

/// A wrong argument. An option is here by its name, as it was given.
#[derive(Clone, Copy, Debug, PartialEq, Eq)]
pub enum WrongArgument<'a> {
    /// There is no such option.
    UnknownOption(&'a str),
    /// Nothing comes after this option, which has a value.
    MissingValue(&'a str),
    /// The value of this option has no `=`.
    NotAPair { option: &'a str, value: &'a str },
    /// This option is given twice, and may be given once; or `-` is, which is standard input, as a file.
    RepeatedOption(&'a str),
    /// This argument comes after the last that is no option, and is none.
    Unexpected(&'a str),
    /// The argument that the usage text calls so is missing.
    Missing(&'a str),
    /// These two options are given together.
    Together { option: &'a str, other: &'a str },
    /// This option is given without the other, which it needs.
    Without { option: &'a str, other: &'a str },
    /// The value of this option is no number.
    NotANumber { option: &'a str, value: &'a str },
}

impl From<AllocError> for NoCommand<'_> {
    ghost from_gives = { λ _ e. e ≡ Memory };

    fn from(_e: AllocError) -> Self {
        NoCommand::Memory
    }
}

impl<T: Drop> From<AllocFailed<T>> for NoCommand<'_> {
    ghost from_gives = { λ _ e. e ≡ Memory };

    fn from(_e: AllocFailed<T>) -> Self {
        NoCommand::Memory
    }
}

impl WrongArgument<'_> {
    /// The text that says what is wrong, in a line without its end. Arguments in it are escaped (`wc_texts::escaped`).
    ///
    /// # Errors
    ///
    /// `AllocError`: an allocation failed.
    pub fn text(&self, alloc: Global) -> Result<String, AllocError>
        ensures { IfOk result (λ text. string_bytes text
            ≡ escaped (wrong_text (wrong_view self.now))) }
    {
        let text = wrong_text(alloc, self)?;
        escaped(alloc, &text)
    }
}

/// The text that says what is wrong.
fn wrong_text(alloc: Global, wrong: &WrongArgument<'_>) -> Result<String, AllocError>
    ensures { IfOk result (λ text. string_bytes text ≡ wrong_text (wrong_view wrong.now)) }
{
    match wrong {
        WrongArgument::UnknownOption(argument) => format!(in alloc; "unknown option {argument}"),
        WrongArgument::MissingValue(option) => format!(in alloc; "missing value of {option}"),
        WrongArgument::NotAPair { option, value } => {
            format!(in alloc; "no = in {value} of {option}")
        }
        WrongArgument::RepeatedOption(option) => format!(in alloc; "{option} twice"),
        WrongArgument::Unexpected(argument) => format!(in alloc; "unexpected argument {argument}"),
        WrongArgument::Missing(name) => format!(in alloc; "missing {name}"),
        WrongArgument::Together { option, other } => format!(in alloc; "{option} with {other}"),
        WrongArgument::Without { option, other } => format!(in alloc; "{option} without {other}"),
        WrongArgument::NotANumber { option, value } => {
            format!(in alloc; "{option} {value}: no number")
        }
    }
}
