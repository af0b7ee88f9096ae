//! Which items are on all paths to what was asked for.

ghost use Rattle.std.specs.Prelude.{◌≡◌, ◌<◌, ◌∷◌, ◌++◌, [], All, IfOk, OnOk, map};
ghost use Rattle.std.specs.List.{filter_map};
ghost use Rattle.wc_why.specs.Component.{asked_items};
ghost use Rattle.wc_why.specs.Part.{part_view};
ghost use Rattle.wc_why.specs.Private.Components.{IsComponent};
ghost use Rattle.wc_why.specs.Private.Graph.{names_by};
ghost use Rattle.wc_why.specs.Private.Marks.{AreMarks, asked_numbers};
ghost use Rattle.wc_why.specs.Private.Numbers.{number_of, total};

use crate::component::Target;
use crate::graph::ComponentGraph;
use crate::numbers::Numbers;
use std::alloc::{AllocError, Global};
use wc_graph::dominators_in;

/// For each item whether each path from a root to any target that was asked for goes through it; `None` where nothing is marked.
pub(crate) fn marks_of(
    alloc: Global,
    graph: &ComponentGraph<'_, '_>,
    roots: &[usize],
    targets: &[Target],
    marked: bool,
) -> Result<Option<Vec<bool>>, AllocError>
    requires component { IsComponent graph.now }
    requires there { All (λ x. x < total graph.now.numbers.now) roots.now }
    ensures { IfOk result (AreMarks (names_by (map part_view graph.now.parts.now)
        graph.now.numbers.now graph.now.links.now) graph.now.numbers.now roots.now targets.now
        marked) }
{
    if !marked {
        return Ok(None);
    }
    let asked = asked_of(alloc, graph.numbers, targets)?;
    match dominators_in(alloc, graph, roots, &asked) {
        Ok(marks) => Ok(Some(marks)),
        // Items name items alone that are there: an allocation failed.
        Err(_) => Err(AllocError),
    }
}

/// The numbers of the targets that were asked for, those that are there.
fn asked_of(alloc: Global, numbers: &Numbers, targets: &[Target]) -> Result<Vec<usize>, AllocError>
    ensures { IfOk result (λ v. v.items ≡ asked_numbers numbers.now targets.now) }
{
    let mut asked = Vec::new(alloc);
    for target in targets {
        put_asked(numbers, *target, &mut asked)?;
    }
    Ok(asked)
}

/// Appends the number of a target, if it was asked for and is there.
fn put_asked(numbers: &Numbers, target: Target, out: &mut Vec<usize>) -> Result<(), AllocError>
    ensures { OnOk result (out.new.items ≡ out.old.items
        ++ filter_map (number_of numbers.now) (asked_items (target ∷ []))) }
{
    if !target.is_asked {
        return Ok(());
    }
    match numbers.number(target.part, target.item) {
        Some(number) => {
            out.push(number)?;
            Ok(())
        }
        None => Ok(()),
    }
}
