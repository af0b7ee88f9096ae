//! The table of a program's options.

ghost use Rattle.std.specs.Prelude.{◌≡◌, map};
ghost use Rattle.std.specs.Option.{option_map};
ghost use Rattle.wc_options.specs.Table.{option_named, option_view};

/// The kind of an option's value.
#[derive(Clone, Copy, Debug, PartialEq, Eq)]
pub enum Value {
    /// It has none.
    Nothing,
    /// Any text.
    Text,
    /// Any text; but no option, unless it is in one argument with the name.
    Key,
    /// A text that has a `=`.
    Pair,
}

/// An option of a program: a line of its table.
#[derive(Clone, Copy, Debug)]
pub struct ProgramOption {
    /// The name, which begins with `-`.
    pub name: &'static str,
    /// The kind of its value.
    pub value: Value,
    /// Whether it may come several times.
    pub repeats: bool,
    /// How the usage text shows it, with what is before it there: as ` [--dot]`.
    pub usage: &'static str,
    /// Its line of help.
    pub help: &'static str,
}

/// The option of this name.
pub(crate) fn option_named(table: &[ProgramOption], name: &str) -> Option<ProgramOption>
    ensures { option_map option_view result ≡ option_named (map option_view table.now) name.now }
{
    for option in table {
        if option.name == name {
            return Some(*option);
        }
    }
    None
}
