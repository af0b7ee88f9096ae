//! The arguments of the program.

ghost use Rattle.std.specs.Prelude.{◌≡◌, ◌<◌, IfOk, find, length, map, ⊤};
ghost use Rattle.std.specs.Option.{option_map};
ghost use Rattle.wc_options.specs.Reading.{is_given, lines_of, plain_texts, said_by, texts_in};
ghost use Rattle.wc_options.specs.Wrong.{IsRead, IsReadWithoutMemory, wrong_view};
ghost use Rattle.wc_maps.specs.Texts.{text_of, text_pair};
ghost use Rattle.wcwhy.specs.Arguments.{command_view};
ghost use Rattle.wcwhy.specs.Private.Arguments.{AreLists, is_once, is_standard_path};
ghost use Rattle.wcwhy.specs.Reading.{AsksMemory, IsCommand, and_apart, apart, are_inputs_apart, are_said, clash, clash_table, command_of, command_with, core_misfit, core_of, finish_with, is_said, misfit, number_misfit, option_table, option_value, output_misfit, read_arguments};

use std::alloc::{AllocError, Global};
use wc_import_paths::{ImportPattern, index_of, patterns_of};
pub use wc_options::{NoCommand, WrongArgument};
use wc_options::{
    ProgramOption, Value, adapters_of, check, count_standard, is_given, is_standard, pairs_of,
    text_count, texts, value, values,
};

/// A request to the program. Paths and names are any texts.
#[derive(Debug, Drop)]
pub struct Command<'a> {
    /// The path of the module, or of a component's file; with adapters that of the main module of a component.
    pub source: &'a str,
    /// The names of the adapters and the paths of their modules, in order; none, where the module stands alone.
    pub adapters: Vec<(&'a str, &'a str)>,
    /// Exports that a component needs of adapters, each after the name of its adapter, in order.
    pub adapter_exports: Vec<(&'a str, &'a str)>,
    /// The imports that are asked for, in order; all that stay, if there are none.
    pub imports: Vec<ImportPattern<'a>>,
    /// The functions of the module that are asked for, each by its index or its name, in order.
    pub functions: Vec<&'a str>,
    /// Whether a graph is printed in place of lines, where the module stands alone.
    pub dot: bool,
    /// Whether JSON is printed in place of lines.
    pub json: bool,
    /// Whether it is printed by which modules each interface is imported, in place of paths.
    pub summary: bool,
    /// The path of the file that says which imports are allowed, where they are checked.
    pub allow: Option<&'a str>,
    /// The index of the component's core module that is chosen, if one is.
    pub core: Option<usize>,
    /// The path of the file to which the chosen core module is written, in place of an answer.
    pub out: Option<&'a str>,
    /// The exports at which paths may begin, in order; all, if there are none.
    pub exports: Vec<&'a str>,
}

/// The options.
pub(crate) const OPTIONS: [ProgramOption; 10] = [
    ProgramOption {
        name: "--adapt",
        value: Value::Text,
        repeats: true,
        usage: " [--adapt [NAME=]FILE]...",
        help: "  --adapt [NAME=]FILE     an adapter's module; NAME defaults to FILE's name up to the first `.`\n",
    },
    ProgramOption {
        name: "--adapter-export",
        value: Value::Pair,
        repeats: true,
        usage: " [--adapter-export NAME=EXPORT]...",
        help: "  --adapter-export NAME=EXPORT\n                          an export of the adapter that the component needs\n",
    },
    ProgramOption {
        name: "--import",
        value: Value::Text,
        repeats: true,
        usage: "\n             [--import KEY[=NAME]]...",
        help: "  --import KEY[=NAME]     only imports from this module or package (default: all)\n",
    },
    ProgramOption {
        name: "--func",
        value: Value::Text,
        repeats: true,
        usage: " [--func N|NAME]...",
        help: "  --func N|NAME           the path to this function of IN, by index or name\n",
    },
    ProgramOption {
        name: "--dot",
        value: Value::Nothing,
        repeats: false,
        usage: " [--dot]",
        help: "  --dot                   print a graph in the language of Graphviz\n",
    },
    ProgramOption {
        name: "--json",
        value: Value::Nothing,
        repeats: false,
        usage: " [--json]",
        help: "  --json                  print the paths as JSON; with --imports the interfaces\n",
    },
    ProgramOption {
        name: "--imports",
        value: Value::Nothing,
        repeats: false,
        usage: " [--imports]",
        help: "  --imports               list which modules import each interface, and which calls to remove to drop it\n",
    },
    ProgramOption {
        name: "--allow",
        value: Value::Text,
        repeats: false,
        usage: "\n             [--allow FILE]",
        help: "  --allow FILE            fail if an interface is imported that no line of FILE allows\n",
    },
    ProgramOption {
        name: "--core",
        value: Value::Text,
        repeats: false,
        usage: " [--core N",
        help: "  --core N                take core module N of IN as its main module (default: the one named main, or 0)\n",
    },
    ProgramOption {
        name: "--out",
        value: Value::Text,
        repeats: false,
        usage: " [--out FILE]]",
        help: "  --out FILE              with --core: write this core module to FILE, and print nothing\n",
    },
];

/// Pairs that do not fit together: names of options, and `EXPORT` for an export.
const CLASHES: [(&str, &str); 18] = [
    ("--dot", "--json"),
    ("--imports", "--import"),
    ("--imports", "--func"),
    ("--imports", "--dot"),
    ("--imports", "EXPORT"),
    ("--out", "--adapt"),
    ("--out", "--adapter-export"),
    ("--out", "--import"),
    ("--out", "--func"),
    ("--out", "--dot"),
    ("--out", "--json"),
    ("--out", "--imports"),
    ("--out", "--allow"),
    ("--out", "EXPORT"),
    ("--allow", "--import"),
    ("--allow", "--func"),
    ("--allow", "--dot"),
    ("--allow", "--imports"),
];

/// The command of these arguments; the first is the argument after the program's name. They are `IN` and then each
/// `EXPORT`, with options before, between and after them.
///
/// At most one of `--dot` and `--json` is given. With `--imports` there is no `--import`, no `--func`, no `--dot` and
/// no EXPORT; with `--allow` no `--import`, no `--func`, no `--dot` and no `--imports`; and with `--out` nothing but
/// IN and `--core`, which it needs. At most one of `IN` and the FILEs that are read is `-`, which is standard input.
/// `--adapt [NAME=]FILE`, `--adapter-export NAME=EXPORT`, `--import KEY[=NAME]` and `--func N|NAME` may come several
/// times, `--dot`, `--json`, `--imports`, `--allow FILE`, `--core N` and `--out FILE` once. N is a text of decimal
/// digits, a number below 2^64.
///
/// The argument after an option that has a value is its value, whatever it is. In one argument a `=` is between the
/// option and its value, as in `--import=KEY`. An adapter's NAME ends at the first `=`; without a `=` the value of
/// `--adapt` is FILE, and NAME is the name of this file up to its first `.`. KEY is the name of a module or a package
/// of interfaces, with its version or without (`wc_why::asks_about`), and ends at the first `=`. `--` is not an
/// argument; no argument after it is an option. `-` alone is no option, and neither is an argument that begins with
/// another character.
///
/// # Errors
///
/// They are read in order, and the first of these is named:
///
/// - `Help`, `Version`: an option is `--help` or `-h`, or `--version`.
/// - `Wrong`: an argument is wrong; or, after the last one, the value of an option or IN is missing; or options, or an
///   option and an EXPORT, do not fit together; or `--out` is given without `--core`, or N of `--core` is no number; or
///   `-` is given for two files.
/// - `Memory`: an allocation failed. It may come only where nothing is wrong but that `-` is given for two files.
pub fn parse(alloc: Global, arguments: &[String]) -> Result<Command<'_>, NoCommand<'_>>
    ensures { IsRead command_view (AsksMemory (texts_in arguments.now)) result
        (read_arguments (texts_in arguments.now)) }
{
    check(options(), None, arguments)?;
    match text_count(options(), arguments) {
        0 => Err(NoCommand::Wrong(WrongArgument::Missing("IN"))),
        _ => finish(alloc, arguments),
    }
}

/// The command of arguments of which none by itself is wrong, and one at least is no option.
fn finish(alloc: Global, arguments: &[String]) -> Result<Command<'_>, NoCommand<'_>>
    requires { 0 < length (plain_texts (said_by option_table (texts_in arguments.now))) }
    ensures { let tokens = said_by option_table (texts_in arguments.now) in
        let reading = finish_with tokens (plain_texts tokens) in
        IsRead command_view (IsCommand reading) result (and_apart reading) }
{
    match misfit(arguments) {
        Some(wrong) => Err(NoCommand::Wrong(wrong)),
        None => finish_apart(alloc, arguments),
    }
}

/// The command of arguments that fit together, if at most one of its files is standard input.
fn finish_apart(alloc: Global, arguments: &[String]) -> Result<Command<'_>, NoCommand<'_>>
    requires { 0 < length (plain_texts (said_by option_table (texts_in arguments.now))) }
    ensures { IsRead command_view ⊤ result
        (apart (command_of (said_by option_table (texts_in arguments.now)))) }
{
    match command_of(alloc, arguments) {
        Ok(command) => apart(command),
        Err(AllocError) => Err(NoCommand::Memory),
    }
}

/// The mistake in arguments of which none by itself is wrong: two that do not fit together, or the choice of a core
/// module.
fn misfit(arguments: &[String]) -> Option<WrongArgument<'_>>
    ensures { option_map wrong_view result
        ≡ misfit (said_by option_table (texts_in arguments.now)) }
{
    match clash(arguments) {
        Some((option, other)) => Some(WrongArgument::Together { option, other }),
        None => core_misfit(arguments),
    }
}

/// The first pair that does not fit together and is given.
fn clash(arguments: &[String]) -> Option<(&'static str, &'static str)>
    ensures { option_map text_pair result
        ≡ clash (said_by option_table (texts_in arguments.now)) }
{
    first_said(clashes(), arguments)
}

/// The first pair of a table of which both are given.
fn first_said(
    table: &[(&'static str, &'static str)],
    arguments: &[String],
) -> Option<(&'static str, &'static str)>
    ensures { option_map text_pair result ≡ find
        (are_said (said_by option_table (texts_in arguments.now))) (map text_pair table.now) }
{
    for (option, other) in table {
        if is_said(arguments, option) && is_said(arguments, other) {
            return Some((*option, *other));
        }
    }
    None
}

/// The pairs that do not fit together.
fn clashes() -> &'static [(&'static str, &'static str)]
    ensures { map text_pair result.now ≡ clash_table }
{
    &CLASHES
}

/// Whether the option of this name is given; or an export, where the name is `EXPORT`.
fn is_said(arguments: &[String], name: &str) -> bool
    ensures { result ≡ is_said (said_by option_table (texts_in arguments.now)) name.now }
{
    if name == "EXPORT" {
        text_count(options(), arguments) > 1
    } else {
        has_option(arguments, name)
    }
}

/// The mistake in the choice of a core module: no number, or none where one is to be written.
fn core_misfit(arguments: &[String]) -> Option<WrongArgument<'_>>
    ensures { option_map wrong_view result
        ≡ core_misfit (said_by option_table (texts_in arguments.now)) }
{
    match option_value(arguments, "--core") {
        Some(text) => number_misfit(text),
        None => output_misfit(arguments),
    }
}

/// A value of `--core` that is no number.
fn number_misfit(text: &str) -> Option<WrongArgument<'_>>
    ensures { option_map wrong_view result ≡ number_misfit text.now }
{
    match index_of(text) {
        Some(_) => None,
        None => Some(WrongArgument::NotANumber {
            option: "--core",
            value: text,
        }),
    }
}

/// `--out`, where no core module is chosen.
fn output_misfit(arguments: &[String]) -> Option<WrongArgument<'_>>
    ensures { option_map wrong_view result
        ≡ output_misfit (said_by option_table (texts_in arguments.now)) }
{
    if has_option(arguments, "--out") {
        Some(WrongArgument::Without {
            option: "--out",
            other: "--core",
        })
    } else {
        None
    }
}

/// The command, if at most one of its files is standard input.
fn apart<'a>(command: Command<'a>) -> Result<Command<'a>, NoCommand<'a>>
    ensures { IsReadWithoutMemory command_view result (apart (command_view command.entry)) }
{
    if !are_inputs_apart(&command) {
        return Err(NoCommand::Wrong(WrongArgument::RepeatedOption("-")));
    }
    Ok(command)
}

/// Whether at most one of the files that a command reads is standard input.
fn are_inputs_apart(command: &Command<'_>) -> bool
    ensures { result ≡ are_inputs_apart (command_view command.now) }
{
    let adapters = count_standard(&command.adapters);
    let source = is_standard(command.source);
    let allow = is_standard_path(command.allow);
    is_once(source, allow, adapters)
}

/// Whether a path is given that means standard input.
fn is_standard_path(path: Option<&str>) -> bool
    ensures { result ≡ is_standard_path (option_map text_of path.entry) }
{
    match path {
        Some(path) => is_standard(path),
        None => false,
    }
}

/// Whether at most one file is standard input, of the module, of the list of what is allowed, and of adapters, of
/// which so many are.
fn is_once(source: bool, allow: bool, adapters: usize) -> bool
    ensures { result ≡ is_once source allow adapters }
{
    match (source, allow) {
        (true, true) => false,
        (true, false) | (false, true) => adapters == 0,
        (false, false) => adapters < 2,
    }
}

/// The options as a table.
fn options() -> &'static [ProgramOption]
    ensures { lines_of result.now ≡ option_table }
{
    &OPTIONS
}

/// Whether the option of this name is given.
fn has_option(arguments: &[String], name: &str) -> bool
    ensures { result ≡ is_given name.now (said_by option_table (texts_in arguments.now)) }
{
    is_given(options(), arguments, name)
}

/// The value of the option of this name.
fn option_value<'a>(arguments: &'a [String], name: &str) -> Option<&'a str>
    ensures { option_map text_of result
        ≡ option_value (said_by option_table (texts_in arguments.now)) name.now }
{
    value(options(), arguments, name)
}

/// The index of the core module that is chosen, if one is.
fn core_of(arguments: &[String]) -> Option<usize>
    ensures { result ≡ core_of (said_by option_table (texts_in arguments.now)) }
{
    match option_value(arguments, "--core") {
        Some(text) => index_of(text),
        None => None,
    }
}

/// The command of arguments that are read, one of which at least is no option.
fn command_of(alloc: Global, arguments: &[String]) -> Result<Command<'_>, AllocError>
    requires { 0 < length (plain_texts (said_by option_table (texts_in arguments.now))) }
    ensures { IfOk result (λ c. command_view c
        ≡ command_of (said_by option_table (texts_in arguments.now))) }
{
    let words = texts(alloc, options(), arguments)?;
    let exports = Vec::from_slice(alloc, &words[1..])?;
    let lists = lists_of(alloc, arguments)?;
    Ok(command_from(arguments, words[0], exports, lists))
}

/// The command of this path, with these exports and lists.
fn command_from<'a>(
    arguments: &'a [String],
    source: &'a str,
    exports: Vec<&'a str>,
    lists: Lists<'a>,
) -> Command<'a>
    requires { AreLists (said_by option_table (texts_in arguments.now)) lists }
    ensures { command_view result ≡ command_with (said_by option_table (texts_in arguments.now))
        source.now (map text_of exports.entry.items) }
{
    Command {
        source,
        adapters: lists.adapters,
        adapter_exports: lists.adapter_exports,
        imports: lists.imports,
        functions: lists.functions,
        dot: has_option(arguments, "--dot"),
        json: has_option(arguments, "--json"),
        summary: has_option(arguments, "--imports"),
        allow: option_value(arguments, "--allow"),
        core: core_of(arguments),
        out: option_value(arguments, "--out"),
        exports,
    }
}

/// The lists of a command: what is given by options that may come several times.
#[derive(Drop)]
struct Lists<'a> {
    adapters: Vec<(&'a str, &'a str)>,
    adapter_exports: Vec<(&'a str, &'a str)>,
    imports: Vec<ImportPattern<'a>>,
    functions: Vec<&'a str>,
}

/// Reads what is given by options that may come several times.
fn lists_of(alloc: Global, arguments: &[String]) -> Result<Lists<'_>, AllocError>
    ensures { IfOk result (AreLists (said_by option_table (texts_in arguments.now))) }
{
    let adapters = adapters_of(alloc, &values(alloc, options(), arguments, "--adapt")?)?;
    let given = values(alloc, options(), arguments, "--adapter-export")?;
    let adapter_exports = pairs_of(alloc, &given)?;
    let imports = patterns_of(alloc, &values(alloc, options(), arguments, "--import")?)?;
    let functions = values(alloc, options(), arguments, "--func")?;
    Ok(Lists {
        adapters,
        adapter_exports,
        imports,
        functions,
    })
}
