//! The text that is printed of a main module and its adapters, or of the core modules of a component.

ghost use Rattle.std.specs.Prelude.{◌≡◌, [], IfErr, IfOk, None, OnOk, Some, length, map, true};
ghost use Rattle.wc_why.specs.Tree.{tree_caller_view, tree_way_view};
ghost use Rattle.wc_import_paths.specs.Functions.{AreAskedOf};
ghost use Rattle.wc_import_paths.specs.MainModules.{code_of};
ghost use Rattle.wc_import_paths.specs.Patterns.{first_unknown, pattern_view};
ghost use Rattle.wc_module_ways.specs.Adapters.{adapter_view, given_view};
ghost use Rattle.wc_module_ways.specs.Modules.{AreView, HasModules, ModulesView, imports_of, input_view};
ghost use Rattle.wc_module_ways.specs.Refusals.{IsWaysRefusal};
ghost use Rattle.wc_program.specs.Screen.{Becomes, output_ends, printed};
ghost use Rattle.wc_read.specs.Imports.{import_values};
ghost use Rattle.wcwhy.specs.Allowed.{way_modules};
ghost use Rattle.wcwhy.specs.Arguments.{command_view};
ghost use Rattle.wcwhy.specs.ModuleWays.{ArePrinted, AreWays, IsModulesCause, modules_input, IsShown, IsSummary};
ghost use Rattle.wcwhy.specs.Shown.{ShowsThese};
ghost use Rattle.wcwhy.specs.Warnings.{quiet, refused_patterns, said_by};
ghost use Rattle.wcwhy.specs.Private.Execution.{IsUnknownOf, PrintsSome};
ghost use Rattle.wcwhy.specs.Private.Inputs.{allow_in, allow_view, file_view};
ghost use Rattle.wcwhy.specs.Private.ModuleWays.{AreAnswered, IsKnownCause, IsModulesFault, IsPutFault, IsShownCause, IsVerdictFault, IsVerdictOf, IsWaysCause, IsWaysFault, of_core};
ghost use Rattle.wcwhy.specs.Private.Warnings.{said_view};
ghost use Rattle.wcwhy.specs.declared.fault.WhyFault.TheVariants.{Memory};

use crate::allowed::way_imports;
use crate::arguments::Command;
use crate::execution::check_imports;
use crate::fault::{WhyFault, adapter_fault, source_fault};
use crate::functions::functions_for;
use crate::inputs::{AllowFile, Input, Request};
use crate::tree::{form_of, print_no_paths, print_tree};
use crate::warnings::{Said, Verdict, judge, quiet};
use std::alloc::{AllocError, Global};
use wc_gc::{GcFault, TrimPlace};
use wc_import_paths::{Asked, ImportPattern};
use wc_maps::Seed;
use wc_module_ways::{
    Modules, ModulesInput, ModulesRefusal, imports_json, imports_text, tree_of_modules,
};
use wc_program::{Output, Screen};
use wc_read::Import;
use wc_texts::{PutFailed, Refused};
use wc_why::{TreeCaller, TreeWay};

/// Prints the paths through a main module and its adapters to the imports that a command asks for. The result is what
/// is said besides.
pub(crate) fn print_modules<'a, O: Output>(
    alloc: Global,
    request: &Request<'_, 'a>,
    input: &Input<'_>,
    out: &mut O,
) -> Result<Said, WhyFault<'a>>
    ensures done { IfOk result (λ said. PrintsSome (ArePrinted
        (command_view request.now.command.now) (modules_input
        (command_view request.now.command.now) input.now.source.items
        (map file_view input.now.adapters.items)) (allow_in request.now) (said_view said))
        (Becomes (output_ends O.written O.sent O.is_failed) out.old out.new)) }
    ensures fault { IfErr result (IsModulesCause (command_view request.now.command.now)
        (modules_input (command_view request.now.command.now) input.now.source.items
        (map file_view input.now.adapters.items))
        (Becomes (output_ends O.written O.sent O.is_failed) out.old out.new)) }
{
    let command = request.command;
    match given_adapters(alloc, &input.adapters) {
        Ok(adapters) => {
            let core = Vec::new(alloc);
            let given = ModulesInput {
                main: &input.source,
                main_offset: 0,
                exports: &command.exports,
                adapters: &adapters,
                core: &core,
                adapter_exports: &command.adapter_exports,
                is_whole: !command.functions.is_empty(),
            };
            print_given(alloc, request, &given, out)
        }
        Err(AllocError) => Err(WhyFault::Memory),
    }
}

/// Adapters by their names, with the bytes of their files.
fn given_adapters<'f>(
    alloc: Global,
    files: &'f [(&str, Vec<u8>)],
) -> Result<Vec<(&'f str, &'f [u8])>, AllocError>
    ensures { IfOk result (λ v. map given_view v.items ≡ map file_view files.now) }
{
    let mut given = Vec::new(alloc);
    for (name, wasm) in files {
        given.push((*name, wasm.as_slice()))?;
    }
    Ok(given)
}

/// Prints the paths through these modules to the imports that a command asks for. The result is what is said besides.
pub(crate) fn print_given<'a, O: Output>(
    alloc: Global,
    request: &Request<'_, 'a>,
    given: &ModulesInput<'_, '_>,
    out: &mut O,
) -> Result<Said, WhyFault<'a>>
    ensures done { IfOk result (λ said. PrintsSome (ArePrinted
        (command_view request.now.command.now) (input_view given.now) (allow_in request.now)
        (said_view said))
        (Becomes (output_ends O.written O.sent O.is_failed) out.old out.new)) }
    ensures fault { IfErr result (IsModulesCause (command_view request.now.command.now)
        (input_view given.now)
        (Becomes (output_ends O.written O.sent O.is_failed) out.old out.new)) }
{
    match Modules::read(alloc, request.seed, given) {
        Ok(modules) => print_read(alloc, request, &modules, out),
        Err(refusal) => Err(read_fault(alloc, given.main, refusal)),
    }
}

/// Prints the paths through modules that are read: to what options ask for, or to what is not allowed.
fn print_read<'a, O: Output>(
    alloc: Global,
    request: &Request<'_, 'a>,
    modules: &Modules<'_>,
    out: &mut O,
) -> Result<Said, WhyFault<'a>>
    requires { HasModules modules.now }
    ensures done { (w : ModulesView) → AreView modules.now w
        → IfOk result (λ said. PrintsSome (AreAnswered (command_view request.now.command.now) w
        (allow_in request.now) (said_view said))
        (Becomes (output_ends O.written O.sent O.is_failed) out.old out.new)) }
    ensures fault { (w : ModulesView) → AreView modules.now w → IfErr result (IsKnownCause
        (command_view request.now.command.now) w
        (Becomes (output_ends O.written O.sent O.is_failed) out.old out.new)) }
{
    match request.allow {
        Some(allow) => print_judged(alloc, request, allow, modules, out),
        None => print_some(alloc, request, modules, out),
    }
}

/// Prints the paths through modules to the imports that options ask for. Nothing is said besides.
fn print_some<'a, O: Output>(
    alloc: Global,
    request: &Request<'_, 'a>,
    modules: &Modules<'_>,
    out: &mut O,
) -> Result<Said, WhyFault<'a>>
    requires { HasModules modules.now }
    ensures done { (w : ModulesView) → AreView modules.now w
        → IfOk result (λ said. PrintsSome (AreAnswered (command_view request.now.command.now) w
        None (said_view said))
        (Becomes (output_ends O.written O.sent O.is_failed) out.old out.new)) }
    ensures fault { (w : ModulesView) → AreView modules.now w → IfErr result (IsKnownCause
        (command_view request.now.command.now) w
        (Becomes (output_ends O.written O.sent O.is_failed) out.old out.new)) }
{
    match asked_of(alloc, request, modules) {
        Ok(asked) => print_asked(alloc, request.command, &asked, modules, out),
        Err(fault) => Err(fault),
    }
}

/// Prints what is asked for of modules. Nothing is said besides.
fn print_asked<'a, O: Output>(
    alloc: Global,
    command: &Command<'a>,
    asked: &Asked<'_, '_>,
    modules: &Modules<'_>,
    out: &mut O,
) -> Result<Said, WhyFault<'a>>
    requires { HasModules modules.now }
    ensures said { IfOk result (λ said. said_view said ≡ quiet) }
    ensures done { (w : ModulesView) → AreView modules.now w
        → OnOk result (PrintsSome (IsShown (command_view command.now) w asked.now)
        (Becomes (output_ends O.written O.sent O.is_failed) out.old out.new)) }
    ensures fault { (w : ModulesView) → AreView modules.now w
        → IfErr result (IsShownCause (command_view command.now) w
        (Becomes (output_ends O.written O.sent O.is_failed) out.old out.new)) }
{
    match print_shown(alloc, command, asked, modules, out) {
        Ok(()) => Ok(quiet(alloc)),
        Err(fault) => Err(fault),
    }
}

/// The imports that options ask for. The modules have some for each option.
fn asked_of<'c, 'a>(
    alloc: Global,
    request: &Request<'c, 'a>,
    modules: &Modules<'_>,
) -> Result<Asked<'c, 'a>, WhyFault<'a>>
    ensures asked { IfOk result (λ asked. asked
        ≡ (command_view request.now.command.now).imports) }
    ensures known { (w : ModulesView) → AreView modules.now w
        → OnOk result (first_unknown (imports_of w)
        (command_view request.now.command.now).imports ≡ None) }
    ensures fault { (w : ModulesView) → AreView modules.now w
        → IfErr result (IsUnknownOf (imports_of w)
        (command_view request.now.command.now).imports) }
{
    match modules.imports(alloc) {
        Ok(imports) => asked_for(alloc, request, &imports),
        Err(AllocError) => Err(WhyFault::Memory),
    }
}

/// The imports that options ask for. Of these imports there are some for each option.
fn asked_for<'c, 'a>(
    alloc: Global,
    request: &Request<'c, 'a>,
    imports: &[Import<'_>],
) -> Result<Asked<'c, 'a>, WhyFault<'a>>
    ensures asked { IfOk result (λ asked. asked
        ≡ (command_view request.now.command.now).imports) }
    ensures known { OnOk result (first_unknown (import_values imports.now)
        (command_view request.now.command.now).imports ≡ None) }
    ensures fault { IfErr result (IsUnknownOf (import_values imports.now)
        (command_view request.now.command.now).imports) }
{
    match Asked::new(alloc, request.seed, &request.command.imports) {
        Ok(asked) => match check_imports(alloc, &asked, imports) {
            Ok(()) => Ok(asked),
            Err(fault) => Err(fault),
        },
        Err(AllocError) => Err(WhyFault::Memory),
    }
}

/// Prints the paths through modules to the imports that are not allowed. The result says which, and what allows
/// nothing.
fn print_judged<'a, O: Output>(
    alloc: Global,
    request: &Request<'_, 'a>,
    allow: &AllowFile<'_>,
    modules: &Modules<'_>,
    out: &mut O,
) -> Result<Said, WhyFault<'a>>
    requires { HasModules modules.now }
    ensures done { (w : ModulesView) → AreView modules.now w
        → IfOk result (λ said. PrintsSome (AreAnswered (command_view request.now.command.now) w
        (Some (allow_view allow.now)) (said_view said))
        (Becomes (output_ends O.written O.sent O.is_failed) out.old out.new)) }
    ensures fault { (w : ModulesView) → AreView modules.now w → IfErr result (IsShownCause
        (command_view request.now.command.now) w
        (Becomes (output_ends O.written O.sent O.is_failed) out.old out.new)) }
{
    match verdict_of(alloc, request.seed, allow, modules) {
        Ok(verdict) => print_verdict(alloc, request, verdict, modules, out),
        Err(fault) => Err(fault),
    }
}

/// The verdict of a file of what is allowed on modules: on the imports to which there are paths.
fn verdict_of<'a, 'r>(
    alloc: Global,
    seed: Seed,
    allow: &AllowFile<'_>,
    modules: &'r Modules<'r>,
) -> Result<Verdict<'r>, WhyFault<'a>>
    requires { HasModules modules.now }
    ensures verdict { (w : ModulesView) → AreView modules.now w
        → IfOk result (λ v. IsVerdictOf w (allow_view allow.now)
        (map pattern_view v.patterns.items) (said_view v.said)) }
    ensures fault { (w : ModulesView) → AreView modules.now w
        → IfErr result (IsVerdictFault w) }
{
    match Asked::new(alloc, seed, &[]) {
        Ok(all) => verdict_by(alloc, allow, &all, modules),
        Err(AllocError) => Err(WhyFault::Memory),
    }
}

/// The verdict of a file of what is allowed on modules, of which all imports are asked for.
fn verdict_by<'a, 'r>(
    alloc: Global,
    allow: &AllowFile<'_>,
    all: &Asked<'_, '_>,
    modules: &'r Modules<'r>,
) -> Result<Verdict<'r>, WhyFault<'a>>
    requires modules { HasModules modules.now }
    requires all { all.now ≡ [] }
    ensures verdict { (w : ModulesView) → AreView modules.now w
        → IfOk result (λ v. IsVerdictOf w (allow_view allow.now)
        (map pattern_view v.patterns.items) (said_view v.said)) }
    ensures fault { (w : ModulesView) → AreView modules.now w
        → IfErr result (IsVerdictFault w) }
{
    match tree_of_modules(alloc, modules, all, &[]) {
        Ok(tree) => judge_ways(alloc, all.seed(), allow, &tree.ways),
        Err(refusal) => Err(ways_fault(alloc, refusal)),
    }
}

/// The verdict of a file of what is allowed on the imports at the ends of these paths.
fn judge_ways<'a, 'r>(
    alloc: Global,
    seed: Seed,
    allow: &AllowFile<'_>,
    ways: &[TreeWay<'r>],
) -> Result<Verdict<'r>, WhyFault<'a>>
    ensures patterns { IfOk result (λ v. map pattern_view v.patterns.items
        ≡ refused_patterns (allow_view allow.now) (way_modules (map tree_way_view ways.now))) }
    ensures said { IfOk result (λ v. said_view v.said
        ≡ said_by (allow_view allow.now) (way_modules (map tree_way_view ways.now))) }
    ensures fault { IfErr result (λ f. f ≡ Memory) }
{
    let imports = way_imports(alloc, ways)?;
    Ok(judge(alloc, seed, allow, &imports)?)
}

/// Prints the paths through modules to the imports that are not allowed. The result says which, and what allows
/// nothing.
fn print_verdict<'a, O: Output>(
    alloc: Global,
    request: &Request<'_, 'a>,
    verdict: Verdict<'_>,
    modules: &Modules<'_>,
    out: &mut O,
) -> Result<Said, WhyFault<'a>>
    requires { HasModules modules.now }
    ensures said { IfOk result (λ said. said_view said ≡ said_view verdict.entry.said) }
    ensures done { (w : ModulesView) → AreView modules.now w
        → OnOk result (PrintsSome (ShowsThese (command_view request.now.command.now) true
        (IsShown (command_view request.now.command.now) w)
        (map pattern_view verdict.entry.patterns.items))
        (Becomes (output_ends O.written O.sent O.is_failed) out.old out.new)) }
    ensures fault { (w : ModulesView) → AreView modules.now w → IfErr result (IsShownCause
        (command_view request.now.command.now) w
        (Becomes (output_ends O.written O.sent O.is_failed) out.old out.new)) }
{
    let Verdict { patterns, said } = verdict;
    match print_patterns(alloc, request, &patterns, modules, out) {
        Ok(()) => Ok(said),
        Err(fault) => Err(fault),
    }
}

/// Prints the paths through modules to the imports that patterns ask for; none, if there are no patterns.
fn print_patterns<'a, O: Output>(
    alloc: Global,
    request: &Request<'_, 'a>,
    patterns: &[ImportPattern<'_>],
    modules: &Modules<'_>,
    out: &mut O,
) -> Result<(), WhyFault<'a>>
    requires { HasModules modules.now }
    ensures done { (w : ModulesView) → AreView modules.now w
        → OnOk result (PrintsSome (ShowsThese (command_view request.now.command.now) true
        (IsShown (command_view request.now.command.now) w) (map pattern_view patterns.now))
        (Becomes (output_ends O.written O.sent O.is_failed) out.old out.new)) }
    ensures fault { (w : ModulesView) → AreView modules.now w → IfErr result (IsShownCause
        (command_view request.now.command.now) w
        (Becomes (output_ends O.written O.sent O.is_failed) out.old out.new)) }
{
    let command = request.command;
    if patterns.is_empty() {
        return print_no_paths(alloc, request.seed, form_of(command, true), out);
    }
    match Asked::new(alloc, request.seed, patterns) {
        Ok(asked) => print_shown(alloc, command, &asked, modules, out),
        Err(AllocError) => Err(WhyFault::Memory),
    }
}

/// Prints the imports of modules by interfaces, if that is asked for, or else the paths through them.
fn print_shown<'a, O: Output>(
    alloc: Global,
    command: &Command<'a>,
    asked: &Asked<'_, '_>,
    modules: &Modules<'_>,
    out: &mut O,
) -> Result<(), WhyFault<'a>>
    requires { HasModules modules.now }
    ensures done { (w : ModulesView) → AreView modules.now w
        → OnOk result (PrintsSome (IsShown (command_view command.now) w asked.now)
        (Becomes (output_ends O.written O.sent O.is_failed) out.old out.new)) }
    ensures fault { (w : ModulesView) → AreView modules.now w
        → IfErr result (IsShownCause (command_view command.now) w
        (Becomes (output_ends O.written O.sent O.is_failed) out.old out.new)) }
{
    if command.summary {
        print_summary(alloc, command.json, modules, out)
    } else {
        print_ways(alloc, command, asked, modules, out)
    }
}

/// Prints the imports of modules by interfaces, as JSON or as lines.
fn print_summary<'a, O: Output>(
    alloc: Global,
    json: bool,
    modules: &Modules<'_>,
    out: &mut O,
) -> Result<(), WhyFault<'a>>
    requires { HasModules modules.now }
    ensures done { (w : ModulesView) → AreView modules.now w
        → OnOk result (PrintsSome (IsSummary json w)
        (Becomes (output_ends O.written O.sent O.is_failed) out.old out.new)) }
    ensures fault { (w : ModulesView) → AreView modules.now w → IfErr result (IsWaysCause w
        (Becomes (output_ends O.written O.sent O.is_failed) out.old out.new)) }
{
    match summary_bytes(alloc, json, modules) {
        Ok(text) => put_bytes(&text, out),
        Err(refusal) => Err(ways_fault(alloc, refusal)),
    }
}

/// The imports of modules by interfaces, as JSON or as lines.
fn summary_bytes<'r>(
    alloc: Global,
    json: bool,
    modules: &Modules<'r>,
) -> Result<Vec<u8>, ModulesRefusal<'r>>
    requires { HasModules modules.now }
    ensures text { IfOk result (λ v. (w : ModulesView) → AreView modules.now w
        → IsSummary json w v.items) }
    ensures refused { IfErr result
        (IsWaysRefusal (map adapter_view modules.now.adapters.items)) }
{
    if json {
        imports_json(alloc, modules)
    } else {
        match imports_text(alloc, modules) {
            Ok(text) => Ok(text.into_bytes()),
            Err(refusal) => Err(refusal),
        }
    }
}

/// Prints the paths through modules to the imports and the functions that are asked for.
fn print_ways<'a, O: Output>(
    alloc: Global,
    command: &Command<'a>,
    asked: &Asked<'_, '_>,
    modules: &Modules<'_>,
    out: &mut O,
) -> Result<(), WhyFault<'a>>
    requires { HasModules modules.now }
    ensures done { (w : ModulesView) → AreView modules.now w
        → OnOk result (PrintsSome (AreWays (command_view command.now) w asked.now)
        (Becomes (output_ends O.written O.sent O.is_failed) out.old out.new)) }
    ensures fault { (w : ModulesView) → AreView modules.now w
        → IfErr result (IsShownCause (command_view command.now) w
        (Becomes (output_ends O.written O.sent O.is_failed) out.old out.new)) }
{
    let main = &modules.main;
    let count = main.code().funcs.len();
    match functions_for(alloc, asked.seed(), command, main.bytes(), count) {
        Ok(functions) => print_with(alloc, command, asked, (modules, &functions), out),
        Err(fault) => Err(fault),
    }
}

/// Prints the paths through modules to the imports that are asked for, and to these functions.
fn print_with<'a, O: Output>(
    alloc: Global,
    command: &Command<'a>,
    asked: &Asked<'_, '_>,
    ends: (&Modules<'_>, &[TreeCaller<'_>]),
    out: &mut O,
) -> Result<(), WhyFault<'a>>
    requires { HasModules ends.0.now }
    ensures done { (w : ModulesView) → AreView ends.entry.0.now w
        → AreAskedOf w.bytes (length (code_of w.main).funcs) (command_view command.now).functions
        (map tree_caller_view ends.entry.1.now)
        → OnOk result (PrintsSome (AreWays (command_view command.now) w asked.now)
        (Becomes (output_ends O.written O.sent O.is_failed) out.old out.new)) }
    ensures fault { (w : ModulesView) → AreView ends.entry.0.now w
        → IfErr result (IsWaysCause w
        (Becomes (output_ends O.written O.sent O.is_failed) out.old out.new)) }
{
    match tree_of_modules(alloc, ends.0, asked, ends.1) {
        Ok(tree) => print_tree(alloc, asked.seed(), form_of(command, true), &tree, out),
        Err(refusal) => Err(ways_fault(alloc, refusal)),
    }
}

/// Puts the bytes of a text, and flushes them.
fn put_bytes<'a, O: Output>(text: &[u8], out: &mut O) -> Result<(), WhyFault<'a>>
    ensures done { OnOk result (Becomes (output_ends O.written O.sent O.is_failed) out.old out.new
        (printed text.now)) }
    ensures fault { IfErr result (IsPutFault
        (Becomes (output_ends O.written O.sent O.is_failed) out.old out.new)) }
{
    match out.show_bytes(text) {
        Ok(()) => Ok(()),
        Err(PutFailed) => Err(WhyFault::Output),
    }
}

/// The fault for a main module with these bytes, or an adapter of it, that can't be read.
fn read_fault<'a>(alloc: Global, main: &[u8], refusal: ModulesRefusal<'_>) -> WhyFault<'a>
    ensures { IsModulesFault main.now refusal.entry result }
{
    let ModulesRefusal {
        adapter,
        core,
        fault,
        place,
    } = refusal;
    match adapter {
        Some((name, bytes)) => adapter_fault(alloc, name, bytes, Refused { fault, place }),
        None => match core {
            Some(index) => core_fault(index, fault, place),
            None => source_fault(alloc, main, Refused { fault, place }),
        },
    }
}

/// The fault for the core module of this index, which can't be followed.
pub(crate) fn core_fault<'a>(index: usize, fault: GcFault, place: Option<TrimPlace>) -> WhyFault<'a>
    ensures { result ≡ of_core index fault place }
{
    match fault {
        GcFault::Memory => WhyFault::Memory,
        _ => WhyFault::Core {
            module: index,
            fault,
            place,
        },
    }
}

/// The fault for an adapter that can't be followed.
fn ways_fault<'a>(alloc: Global, refusal: ModulesRefusal<'_>) -> WhyFault<'a>
    ensures { IsWaysFault refusal.entry result }
{
    let ModulesRefusal {
        adapter,
        core: _,
        fault,
        place,
    } = refusal;
    match adapter {
        Some((name, bytes)) => adapter_fault(alloc, name, bytes, Refused { fault, place }),
        None => WhyFault::Memory,
    }
}
