//! The arguments of the program.

ghost use Rattle.std.specs.Prelude.{◌≡◌, IfOk, ⊤};
ghost use Rattle.std.specs.Option.{option_map};
ghost use Rattle.wc_options.specs.Reading.{first, is_given, lines_of, plain_texts, said_by, texts_in, values_of};
ghost use Rattle.wc_options.specs.Wrong.{IsRead, IsReadWithoutMemory};
ghost use Rattle.wc_maps.specs.Texts.{text_of};
ghost use Rattle.wcplan_inputs.specs.Arguments.{command_view};
ghost use Rattle.wcplan_inputs.specs.Reading.{AsksMemory, AreModules, are_inputs_apart, command_with, finish_with, fitting, option_table, read_arguments};

use std::alloc::{AllocError, Global};
pub use wc_options::{NoCommand, WrongArgument};
use wc_options::{
    ProgramOption, Value, adapters_of, check, count_standard, is_given, is_standard, pairs_of,
    text_count, texts, value, values,
};

/// A command: the work that arguments ask the program to do. Paths, names and keys are any texts.
#[derive(Debug, Drop)]
pub struct Command<'a> {
    /// The path of the file that has the worlds as JSON.
    pub worlds: &'a str,
    /// The name of the world that modules are encoded for; `None` for the one that includes all others.
    pub world: Option<&'a str>,
    /// The path of the main module.
    pub main: &'a str,
    /// The names of the adapters and the paths of their modules, in order.
    pub adapters: Vec<(&'a str, &'a str)>,
    /// The keys that the main module must export, in order.
    pub exports: Vec<&'a str>,
    /// Keys that adapters must export, each after the name of its adapter, in order.
    pub adapter_exports: Vec<(&'a str, &'a str)>,
    /// Whether names of the older scheme are refused.
    pub reject_legacy_names: bool,
    /// Whether adapters grow memory themselves, instead of calling the main module's realloc.
    pub realloc_via_memory_grow: bool,
    /// The name of the export that is the task hook; `None` if no export is.
    pub task_hook: Option<&'a str>,
    /// Whether JSON is printed: the record of the component's world and its plan, instead of the lines of the plan;
    /// or with `why` the paths.
    pub json: bool,
    /// The key of an interface, or `all`: the program prints why it is imported, instead of the lines of the plan.
    pub why: Option<&'a str>,
    /// Whether this is printed as a graph, instead of lines.
    pub dot: bool,
    /// Whether the imports from each interface are printed, instead of the lines of the plan.
    pub imports: bool,
    /// The path of the directory that files are written to, if they are.
    pub out: Option<&'a str>,
}

/// The options.
pub const OPTIONS: [ProgramOption; 11] = [
    ProgramOption {
        name: "--adapt",
        value: Value::Text,
        repeats: true,
        usage: " [--adapt [NAME=]FILE]...",
        help: "  --adapt [NAME=]FILE        an adapter's module; NAME defaults to FILE's name up to the first `.`\n",
    },
    ProgramOption {
        name: "--export",
        value: Value::Text,
        repeats: true,
        usage: " [--export KEY]...",
        help: "  --export KEY               a key of the world's exports that the main module exports\n",
    },
    ProgramOption {
        name: "--adapter-export",
        value: Value::Pair,
        repeats: true,
        usage: " [--adapter-export NAME=KEY]...",
        help: "  --adapter-export NAME=KEY  a key of the world's exports that the adapter exports; if neither is given, it is inferred from the modules' exports\n",
    },
    ProgramOption {
        name: "--reject-legacy-names",
        value: Value::Nothing,
        repeats: false,
        usage: "\n              [--reject-legacy-names]",
        help: "  --reject-legacy-names      refuse names of the older scheme\n",
    },
    ProgramOption {
        name: "--realloc-via-memory-grow",
        value: Value::Nothing,
        repeats: false,
        usage: " [--realloc-via-memory-grow]",
        help: "  --realloc-via-memory-grow  let adapters grow memory themselves\n",
    },
    ProgramOption {
        name: "--task-hook",
        value: Value::Text,
        repeats: false,
        usage: " [--task-hook NAME]",
        help: "  --task-hook NAME           MAIN.wasm's task-hook export\n",
    },
    ProgramOption {
        name: "--json",
        value: Value::Nothing,
        repeats: false,
        usage: " [--json]",
        help: "  --json                     print the component's world and its plan as JSON; with --why the paths, with --imports the interfaces\n",
    },
    ProgramOption {
        name: "--why",
        value: Value::Key,
        repeats: false,
        usage: " [--why KEY [--dot]]",
        help: "  --why KEY                  print the paths by which the interface KEY is imported (`all`: each interface)\n",
    },
    ProgramOption {
        name: "--dot",
        value: Value::Nothing,
        repeats: false,
        usage: "",
        help: "  --dot                      print them as a graph in the language of Graphviz\n",
    },
    ProgramOption {
        name: "--imports",
        value: Value::Nothing,
        repeats: false,
        usage: " [--imports]",
        help: "  --imports                  list which modules import each interface, and which calls to remove to drop it\n",
    },
    ProgramOption {
        name: "--out",
        value: Value::Text,
        repeats: false,
        usage: " [--out DIR]",
        help: "  --out DIR                  write the modules to DIR (created if missing)\n",
    },
];

/// The command that these arguments describe; the first is the one after the program's name. `WORLDS.json`, `WORLD`
/// and `MAIN.wasm` come in this order, and `WORLD` may be left out; options may come before, between and after them.
/// `--adapt NAME=FILE`, `--export KEY` and `--adapter-export NAME=KEY` may repeat; `--reject-legacy-names`,
/// `--realloc-via-memory-grow`, `--task-hook NAME`, `--json`, `--why KEY`, `--dot` and `--out DIR` may not. If an
/// option has a value, the next argument is the value, whatever it is; only the key of `--why` can't be an option. In
/// one argument, a `=` separates option and value, as in `--out=DIR`. The NAME of an adapter ends at the first `=`.
/// If the value of `--adapt` has no `=`, it is FILE, and NAME is this file's name up to its first `.`. The argument
/// `--` is skipped; arguments after it are no options. `-` alone is no option, nor is an argument that begins with
/// another character than `-`. `--dot` requires `--why` and excludes `--json`. At most one of `WORLDS.json`,
/// `MAIN.wasm` and the FILEs is `-`, which is standard input.
///
/// # Errors
///
/// The arguments are read in order, and the first of these causes is named:
///
/// - `Help`, `Version`: an option is `--help` or `-h`, or `--version`.
/// - `Wrong`: an argument is wrong; or, after the last, an option's value or one of the two paths is missing, or
///   options or files don't fit together.
/// - `Memory`: an allocation failed. It may come only if no argument by itself is wrong, and at least one is no
///   option. If all arguments are options, nothing is allocated.
pub fn parse(alloc: Global, arguments: &[String]) -> Result<Command<'_>, NoCommand<'_>>
    ensures { IsRead command_view (AsksMemory (texts_in arguments.now)) result
        (read_arguments (texts_in arguments.now)) }
{
    check(options(), Some(3), arguments)?;
    if text_count(options(), arguments) == 0 {
        return Err(NoCommand::Wrong(WrongArgument::Missing("WORLDS.json")));
    }
    finish(alloc, arguments)
}

/// The options as a table.
fn options() -> &'static [ProgramOption]
    ensures { lines_of result.now ≡ option_table }
{
    &OPTIONS
}

/// The command of arguments of which none by itself is wrong.
fn finish(alloc: Global, arguments: &[String]) -> Result<Command<'_>, NoCommand<'_>>
    ensures { let tokens = said_by option_table (texts_in arguments.now) in
        IsRead command_view ⊤ result (finish_with tokens (plain_texts tokens)) }
{
    let words = texts(alloc, options(), arguments)?;
    match words.as_slice() {
        [worlds, world, main, ..] => finish_paths(alloc, arguments, worlds, Some(world), main),
        [worlds, main] => finish_paths(alloc, arguments, worlds, None, main),
        [_] => Err(NoCommand::Wrong(WrongArgument::Missing("MAIN.wasm"))),
        [] => Err(NoCommand::Wrong(WrongArgument::Missing("WORLDS.json"))),
    }
}

/// The command with these paths, and this world, if one is named.
fn finish_paths<'a>(
    alloc: Global,
    arguments: &'a [String],
    worlds: &'a str,
    world: Option<&'a str>,
    main: &'a str,
) -> Result<Command<'a>, NoCommand<'a>>
    ensures { IsRead command_view ⊤ result (fitting (command_with
        (said_by option_table (texts_in arguments.now)) worlds.now
        (option_map text_of world.entry) main.now)) }
{
    let modules = modules_of(alloc, arguments)?;
    fitting(command_from(arguments, worlds, world, main, modules))
}

/// The command with these paths, this world and these modules.
fn command_from<'a>(
    arguments: &'a [String],
    worlds: &'a str,
    world: Option<&'a str>,
    main: &'a str,
    modules: Modules<'a>,
) -> Command<'a>
    requires { AreModules (said_by option_table (texts_in arguments.now)) modules }
    ensures { command_view result ≡ command_with
        (said_by option_table (texts_in arguments.now)) worlds.now
        (option_map text_of world.entry) main.now }
{
    Command {
        worlds,
        world,
        main,
        adapters: modules.adapters,
        exports: modules.exports,
        adapter_exports: modules.adapter_exports,
        reject_legacy_names: has_option(arguments, "--reject-legacy-names"),
        realloc_via_memory_grow: has_option(arguments, "--realloc-via-memory-grow"),
        task_hook: option_value(arguments, "--task-hook"),
        json: has_option(arguments, "--json"),
        why: option_value(arguments, "--why"),
        dot: has_option(arguments, "--dot"),
        imports: has_option(arguments, "--imports"),
        out: option_value(arguments, "--out"),
    }
}

/// Whether the option with this name is present.
fn has_option(arguments: &[String], name: &str) -> bool
    ensures { result ≡ is_given name.now (said_by option_table (texts_in arguments.now)) }
{
    is_given(options(), arguments, name)
}

/// The value of the option of this name.
fn option_value<'a>(arguments: &'a [String], name: &str) -> Option<&'a str>
    ensures { option_map text_of result
        ≡ first (values_of name.now (said_by option_table (texts_in arguments.now))) }
{
    value(options(), arguments, name)
}

/// The parts of a command that are about modules.
#[derive(Drop)]
struct Modules<'a> {
    adapters: Vec<(&'a str, &'a str)>,
    exports: Vec<&'a str>,
    adapter_exports: Vec<(&'a str, &'a str)>,
}

/// Reads the parts of a command that are about modules.
fn modules_of(alloc: Global, arguments: &[String]) -> Result<Modules<'_>, AllocError>
    ensures { IfOk result (AreModules (said_by option_table (texts_in arguments.now))) }
{
    let adapters = adapters_of(alloc, &values(alloc, options(), arguments, "--adapt")?)?;
    let exports = values(alloc, options(), arguments, "--export")?;
    let given = values(alloc, options(), arguments, "--adapter-export")?;
    let adapter_exports = pairs_of(alloc, &given)?;
    Ok(Modules {
        adapters,
        exports,
        adapter_exports,
    })
}

/// The command, if its options and files fit together.
fn fitting<'a>(command: Command<'a>) -> Result<Command<'a>, NoCommand<'a>>
    ensures { IsReadWithoutMemory command_view result (fitting (command_view command.entry)) }
{
    if command.imports && command.why.is_some() {
        return Err(NoCommand::Wrong(WrongArgument::Together {
            option: "--imports",
            other: "--why",
        }));
    }
    if command.imports && command.dot {
        return Err(NoCommand::Wrong(WrongArgument::Together {
            option: "--imports",
            other: "--dot",
        }));
    }
    if command.dot && command.why.is_none() {
        return Err(NoCommand::Wrong(WrongArgument::Missing("--why")));
    }
    if command.dot && command.json {
        return Err(NoCommand::Wrong(WrongArgument::Together {
            option: "--dot",
            other: "--json",
        }));
    }
    if !are_inputs_apart(&command) {
        return Err(NoCommand::Wrong(WrongArgument::RepeatedOption("-")));
    }
    Ok(command)
}

/// Whether at most one of the files of a command is standard input.
fn are_inputs_apart(command: &Command<'_>) -> bool
    ensures { result ≡ are_inputs_apart (command_view command.now) }
{
    let adapters = count_standard(&command.adapters);
    match (is_standard(command.worlds), is_standard(command.main)) {
        (true, true) => false,
        (true, false) => adapters == 0,
        (false, true) => adapters == 0,
        (false, false) => adapters < 2,
    }
}
