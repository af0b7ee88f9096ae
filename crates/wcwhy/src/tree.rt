//! The tree of paths, as it is printed.

ghost use Rattle.std.specs.Prelude.{◌≡◌, IfErr, IsErrOf, OnOk, true};
ghost use Rattle.std.specs.Io.KnownBytes.{Appends};
ghost use Rattle.wc_why.specs.Tree.{tree_view};
ghost use Rattle.wc_why_text.specs.TreeGraph.{tree_graph};
ghost use Rattle.wcwhy.specs.Arguments.{command_view};
ghost use Rattle.wcwhy.specs.Tree.{IsTextBy, IsTreeJson, no_paths};
ghost use Rattle.wc_program.specs.Screen.{Becomes, output_ends};
ghost use Rattle.wcwhy.specs.Private.Execution.{IsTreeFault, PrintsSome};
ghost use Rattle.wcwhy.specs.Private.Puts.{PutsSome};
ghost use Rattle.wcwhy.specs.Private.Trees.{form_of};

use crate::arguments::Command;
use crate::fault::WhyFault;
use std::alloc::Global;
use wc_maps::Seed;
use wc_program::Output;
use wc_texts::Sink;
use wc_why::Tree;
use wc_why_text::{LinesFault, put_lines, tree_to_graph, tree_to_json};

/// A form in which a tree is printed.
#[derive(Clone, Copy)]
pub(crate) struct Form {
    /// Whether it is a graph.
    pub(crate) dot: bool,
    /// Whether it is JSON, where it is no graph.
    pub(crate) json: bool,
    /// Whether lines name the modules.
    pub(crate) of_component: bool,
}

/// The form that a command asks for of the paths in a module that stands alone, or in the modules of a component.
pub(crate) fn form_of(command: &Command<'_>, of_component: bool) -> Form
    ensures { result ≡ form_of (command_view command.now) of_component }
{
    Form {
        dot: command.dot,
        json: command.json,
        of_component,
    }
}

/// Prints the paths of a tree.
pub(crate) fn print_tree<'a, O: Output>(
    alloc: Global,
    seed: Seed,
    form: Form,
    tree: &Tree<'_>,
    out: &mut O,
) -> Result<(), WhyFault<'a>>
    ensures done { OnOk result (PrintsSome (IsTextBy form.dot form.json form.of_component
        (tree_view tree.now))
        (Becomes (output_ends O.written O.sent O.is_failed) out.old out.new)) }
    ensures fault { IfErr result (IsTreeFault
        (Becomes (output_ends O.written O.sent O.is_failed) out.old out.new)) }
{
    match put_and_flush(alloc, seed, form, tree, out) {
        Ok(()) => Ok(()),
        Err(LinesFault::Memory) => Err(WhyFault::Memory),
        Err(LinesFault::Output) => Err(WhyFault::Output),
    }
}

/// Prints a tree without paths.
pub(crate) fn print_no_paths<'a, O: Output>(
    alloc: Global,
    seed: Seed,
    form: Form,
    out: &mut O,
) -> Result<(), WhyFault<'a>>
    ensures done { OnOk result (PrintsSome (IsTextBy form.dot form.json form.of_component no_paths)
        (Becomes (output_ends O.written O.sent O.is_failed) out.old out.new)) }
    ensures fault { IfErr result (IsTreeFault
        (Becomes (output_ends O.written O.sent O.is_failed) out.old out.new)) }
{
    let tree = Tree {
        modules: Vec::new(alloc),
        ways: Vec::new(alloc),
    };
    print_tree(alloc, seed, form, &tree, out)
}

/// Puts the paths of a tree, and flushes them.
fn put_and_flush<O: Output>(
    alloc: Global,
    seed: Seed,
    form: Form,
    tree: &Tree<'_>,
    out: &mut O,
) -> Result<(), LinesFault>
    ensures done { OnOk result (PrintsSome (IsTextBy form.dot form.json form.of_component
        (tree_view tree.now))
        (Becomes (output_ends O.written O.sent O.is_failed) out.old out.new)) }
    ensures output { IsErrOf result LinesFault.Output → O.is_failed out.new ≡ true }
{
    put_tree(alloc, seed, form, tree, out)?;
    out.flush()?;
    Ok(())
}

/// Puts the paths of a tree: as a graph or as JSON, if that is asked for, and otherwise in lines.
fn put_tree<S: Sink>(
    alloc: Global,
    seed: Seed,
    form: Form,
    tree: &Tree<'_>,
    out: &mut S,
) -> Result<(), LinesFault>
    ensures done { OnOk result (PutsSome (IsTextBy form.dot form.json form.of_component
        (tree_view tree.now)) (S.written out.old) (S.written out.new)) }
    ensures works { OnOk result (S.is_failed out.new ≡ S.is_failed out.old) }
    ensures output { IsErrOf result LinesFault.Output → S.is_failed out.new ≡ true }
{
    if form.dot {
        put_graph(alloc, seed, tree, out)
    } else if form.json {
        put_json(alloc, tree, out)
    } else {
        put_lines(alloc, seed, form.of_component, tree, out)
    }
}

/// Puts the paths of a tree as a graph.
fn put_graph<S: Sink>(
    alloc: Global,
    seed: Seed,
    tree: &Tree<'_>,
    out: &mut S,
) -> Result<(), LinesFault>
    ensures done { OnOk result (Appends (S.written out.old) (S.written out.new)
        (tree_graph (tree_view tree.now))) }
    ensures works { OnOk result (S.is_failed out.new ≡ S.is_failed out.old) }
    ensures output { IsErrOf result LinesFault.Output → S.is_failed out.new ≡ true }
{
    let text = tree_to_graph(alloc, seed, tree)?;
    out.put(text.as_bytes())?;
    Ok(())
}

/// Puts the paths of a tree as JSON.
fn put_json<S: Sink>(alloc: Global, tree: &Tree<'_>, out: &mut S) -> Result<(), LinesFault>
    ensures done { OnOk result (PutsSome (IsTreeJson (tree_view tree.now))
        (S.written out.old) (S.written out.new)) }
    ensures works { OnOk result (S.is_failed out.new ≡ S.is_failed out.old) }
    ensures output { IsErrOf result LinesFault.Output → S.is_failed out.new ≡ true }
{
    let text = tree_to_json(alloc, tree)?;
    out.put(&text)?;
    Ok(())
}
