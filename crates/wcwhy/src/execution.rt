//! The text that is printed for the bytes of a module.

ghost use Rattle.std.specs.Prelude.{◌≡◌, IfErr, IfOk, None, OnOk, Some, false, length, map};
ghost use Rattle.wc_read.specs.Imports.{import_value, import_values};
ghost use Rattle.wc_program.specs.Screen.{Becomes, output_ends};
ghost use Rattle.wc_import_paths.specs.Followed.{HasPaths, followed_view};
ghost use Rattle.wc_import_paths.specs.Functions.{AreAskedOf};
ghost use Rattle.wc_import_paths.specs.Patterns.{first_unknown, pattern_view};
ghost use Rattle.wc_why.specs.Tree.{tree_caller_view};
ghost use Rattle.wcwhy.specs.Arguments.{command_view};
ghost use Rattle.wcwhy.specs.Program.{IsPrintCause, IsPrintedOf, IsSourceText};
ghost use Rattle.wcwhy.specs.Shown.{ShowsThese};
ghost use Rattle.wcwhy.specs.Private.Execution.{IsFollowedCause, IsNoImportFault, IsSourceAnswer, IsTreeFault, IsUnknownOf, PrintsSome};
ghost use Rattle.wcwhy.specs.Private.Inputs.{allow_in, allow_view};
ghost use Rattle.wcwhy.specs.Private.Warnings.{said_view};

use crate::arguments::Command;
use crate::fault::{WhyFault, near_text, source_fault};
use crate::functions::functions_for;
use crate::inputs::{AllowFile, Request};
use crate::tree::{form_of, print_no_paths, print_tree};
use crate::warnings::{Said, judge, quiet};
use std::alloc::{AllocError, Global};
use wc_import_paths::{Asked, Followed, ImportPattern, follow, tree_of_followed};
use wc_program::Output;
use wc_read::Import;
use wc_why::TreeCaller;

/// Prints why imports of the module with these bytes stay: as a graph or as JSON if the command says so, otherwise as
/// lines. The result is what is said besides.
pub(crate) fn print_reasons<'a, O: Output>(
    alloc: Global,
    request: &Request<'_, 'a>,
    bytes: &[u8],
    out: &mut O,
) -> Result<Said, WhyFault<'a>>
    ensures done { IfOk result (λ said. PrintsSome (IsPrintedOf
        (command_view request.now.command.now) bytes.now (allow_in request.now) (said_view said))
        (Becomes (output_ends O.written O.sent O.is_failed) out.old out.new)) }
    ensures fault { IfErr result (IsPrintCause (command_view request.now.command.now) bytes.now
        (Becomes (output_ends O.written O.sent O.is_failed) out.old out.new)) }
{
    match Asked::new(alloc, request.seed, &request.command.imports) {
        Ok(asked) => print_followed(alloc, request, &asked, bytes, out),
        Err(AllocError) => Err(WhyFault::Memory),
    }
}

/// The fault for the imports that an option asks for, of which a module with these imports has none.
fn no_import<'a>(alloc: Global, pattern: ImportPattern<'a>, imports: &[Import<'_>]) -> WhyFault<'a>
    ensures { IsNoImportFault (map import_value imports.now) pattern.entry result }
{
    match near_text(alloc, &pattern, imports) {
        Ok(near) => WhyFault::NoImport(pattern, near),
        Err(AllocError) => WhyFault::Memory,
    }
}

/// Prints why the imports of the module with these bytes stay that options ask for, or that are not allowed.
fn print_followed<'a, O: Output>(
    alloc: Global,
    request: &Request<'_, 'a>,
    asked: &Asked<'_, 'a>,
    bytes: &[u8],
    out: &mut O,
) -> Result<Said, WhyFault<'a>>
    requires { asked.now ≡ (command_view request.now.command.now).imports }
    ensures done { IfOk result (λ said. PrintsSome (IsPrintedOf
        (command_view request.now.command.now) bytes.now (allow_in request.now) (said_view said))
        (Becomes (output_ends O.written O.sent O.is_failed) out.old out.new)) }
    ensures fault { IfErr result (IsPrintCause (command_view request.now.command.now) bytes.now
        (Becomes (output_ends O.written O.sent O.is_failed) out.old out.new)) }
{
    match follow(alloc, asked, bytes, &request.command.exports) {
        Ok(followed) => print_source(alloc, request, asked, &followed, out),
        Err(refusal) => Err(source_fault(alloc, bytes, refusal)),
    }
}

/// Prints the paths to the imports that options ask for, or that are not allowed.
fn print_source<'a, O: Output>(
    alloc: Global,
    request: &Request<'_, 'a>,
    asked: &Asked<'_, 'a>,
    followed: &Followed<'_>,
    out: &mut O,
) -> Result<Said, WhyFault<'a>>
    requires paths { HasPaths followed.now }
    requires asked { asked.now ≡ (command_view request.now.command.now).imports }
    ensures done { IfOk result (λ said. PrintsSome (IsSourceAnswer
        (command_view request.now.command.now) followed.now (allow_in request.now) (said_view said))
        (Becomes (output_ends O.written O.sent O.is_failed) out.old out.new)) }
    ensures fault { IfErr result (IsFollowedCause (command_view request.now.command.now)
        followed.now (Becomes (output_ends O.written O.sent O.is_failed) out.old out.new)) }
{
    match request.allow {
        Some(allow) => print_judged(alloc, request, allow, followed, out),
        None => print_some(alloc, request.command, asked, followed, out),
    }
}

/// Prints the paths to the imports that options ask for. Nothing is said besides.
fn print_some<'a, O: Output>(
    alloc: Global,
    command: &Command<'a>,
    asked: &Asked<'_, 'a>,
    followed: &Followed<'_>,
    out: &mut O,
) -> Result<Said, WhyFault<'a>>
    requires paths { HasPaths followed.now }
    requires asked { asked.now ≡ (command_view command.now).imports }
    ensures done { IfOk result (λ said. PrintsSome (IsSourceAnswer
        (command_view command.now) followed.now None (said_view said))
        (Becomes (output_ends O.written O.sent O.is_failed) out.old out.new)) }
    ensures fault { IfErr result (IsFollowedCause (command_view command.now)
        followed.now (Becomes (output_ends O.written O.sent O.is_failed) out.old out.new)) }
{
    match check_imports(alloc, asked, &followed.code.imports) {
        Ok(()) => match print_known(alloc, command, asked, followed, out) {
            Ok(()) => Ok(quiet(alloc)),
            Err(fault) => Err(fault),
        },
        Err(fault) => Err(fault),
    }
}

/// Checks that some of these imports are those that each pattern asks for.
pub(crate) fn check_imports<'a>(
    alloc: Global,
    asked: &Asked<'_, 'a>,
    imports: &[Import<'_>],
) -> Result<(), WhyFault<'a>>
    ensures known { OnOk result (first_unknown (import_values imports.now) asked.now ≡ None) }
    ensures fault { IfErr result (IsUnknownOf (import_values imports.now) asked.now) }
{
    match asked.first_unknown(alloc, imports) {
        Ok(Some(pattern)) => Err(no_import(alloc, pattern, imports)),
        Ok(None) => Ok(()),
        Err(AllocError) => Err(WhyFault::Memory),
    }
}

/// Prints the paths to the imports that are not allowed. The result says which, and what allows nothing.
fn print_judged<'a, O: Output>(
    alloc: Global,
    request: &Request<'_, 'a>,
    allow: &AllowFile<'_>,
    followed: &Followed<'_>,
    out: &mut O,
) -> Result<Said, WhyFault<'a>>
    requires { HasPaths followed.now }
    ensures done { IfOk result (λ said. PrintsSome (IsSourceAnswer
        (command_view request.now.command.now) followed.now (Some (allow_view allow.now))
        (said_view said))
        (Becomes (output_ends O.written O.sent O.is_failed) out.old out.new)) }
    ensures fault { IfErr result (IsFollowedCause (command_view request.now.command.now)
        followed.now (Becomes (output_ends O.written O.sent O.is_failed) out.old out.new)) }
{
    match judge(alloc, request.seed, allow, &followed.code.imports) {
        Ok(verdict) => match print_patterns(alloc, request, &verdict.patterns, followed, out) {
            Ok(()) => Ok(verdict.said),
            Err(fault) => Err(fault),
        },
        Err(AllocError) => Err(WhyFault::Memory),
    }
}

/// Prints the paths to the imports that patterns ask for; none, if there are no patterns.
fn print_patterns<'a, O: Output>(
    alloc: Global,
    request: &Request<'_, 'a>,
    patterns: &[ImportPattern<'_>],
    followed: &Followed<'_>,
    out: &mut O,
) -> Result<(), WhyFault<'a>>
    requires { HasPaths followed.now }
    ensures done { OnOk result (PrintsSome (ShowsThese (command_view request.now.command.now) false
        (IsSourceText (command_view request.now.command.now) (followed_view followed.now)
        followed.now.bytes.now) (map pattern_view patterns.now))
        (Becomes (output_ends O.written O.sent O.is_failed) out.old out.new)) }
    ensures fault { IfErr result (IsFollowedCause (command_view request.now.command.now)
        followed.now (Becomes (output_ends O.written O.sent O.is_failed) out.old out.new)) }
{
    if patterns.is_empty() {
        return print_no_paths(alloc, request.seed, form_of(request.command, false), out);
    }
    match Asked::new(alloc, request.seed, patterns) {
        Ok(asked) => print_known(alloc, request.command, &asked, followed, out),
        Err(AllocError) => Err(WhyFault::Memory),
    }
}

/// Prints the paths to the imports that are asked for, and to the functions that options ask for.
fn print_known<'a, O: Output>(
    alloc: Global,
    command: &Command<'a>,
    asked: &Asked<'_, '_>,
    followed: &Followed<'_>,
    out: &mut O,
) -> Result<(), WhyFault<'a>>
    requires { HasPaths followed.now }
    ensures done { OnOk result (PrintsSome (IsSourceText (command_view command.now)
        (followed_view followed.now) followed.now.bytes.now asked.now)
        (Becomes (output_ends O.written O.sent O.is_failed) out.old out.new)) }
    ensures fault { IfErr result (IsFollowedCause (command_view command.now) followed.now
        (Becomes (output_ends O.written O.sent O.is_failed) out.old out.new)) }
{
    let count = followed.code.funcs.len();
    match functions_for(alloc, asked.seed(), command, followed.bytes, count) {
        Ok(functions) => print_with(alloc, command, asked, (followed, &functions), out),
        Err(fault) => Err(fault),
    }
}

/// Prints the paths to the imports that are asked for, and to these functions.
fn print_with<'a, O: Output>(
    alloc: Global,
    command: &Command<'a>,
    asked: &Asked<'_, '_>,
    ends: (&Followed<'_>, &[TreeCaller<'_>]),
    out: &mut O,
) -> Result<(), WhyFault<'a>>
    requires { HasPaths ends.0.now }
    ensures done { AreAskedOf ends.entry.0.now.bytes.now
        (length (followed_view ends.entry.0.now).code.funcs) (command_view command.now).functions
        (map tree_caller_view ends.entry.1.now)
        → OnOk result (PrintsSome (IsSourceText (command_view command.now)
        (followed_view ends.entry.0.now) ends.entry.0.now.bytes.now asked.now)
        (Becomes (output_ends O.written O.sent O.is_failed) out.old out.new)) }
    ensures fault { IfErr result (IsTreeFault
        (Becomes (output_ends O.written O.sent O.is_failed) out.old out.new)) }
{
    match tree_of_followed(alloc, asked, ends.1, ends.0) {
        Ok(tree) => print_tree(alloc, asked.seed(), form_of(command, false), &tree, out),
        Err(AllocError) => Err(WhyFault::Memory),
    }
}
