//! Which items that a search found are on chains to some of them.

ghost use Rattle.std.specs.Prelude.{◌≡◌, ◌<◌, ◌≤◌, ℕ, All, IfOk, false, length, replicate, slice_index_or};
ghost use Rattle.wc_graph.specs.ChainMarks.{AreOnChains};
ghost use Rattle.wc_graph.specs.Private.ChainMarks.{AreTaken, AreTargets};

use std::alloc::{AllocError, Global};

/// For each position of what a search found whether it is on the chain to one of some positions. `finder` has for each
/// position that of its finder, which is no later. It takes time and memory linear in both.
///
/// # Errors
///
/// `AllocError`: an allocation failed.
pub fn on_chains(
    alloc: Global,
    finder: &[usize],
    targets: &[usize],
) -> Result<Vec<bool>, AllocError>
    requires earlier { (k : ℕ) → k < length finder.now → slice_index_or finder.now k 0 ≤ k }
    requires there { All (λ p. p < length finder.now) targets.now }
    ensures { IfOk result (λ v. AreOnChains finder.now targets.now v.items) }
{
    let marks = vec![in alloc; false; finder.len()]?;
    let marks = with_targets(targets, marks);
    Ok(with_finders(finder, marks))
}

/// Marks some positions.
fn with_targets(targets: &[usize], marks: Vec<bool>) -> Vec<bool>
    requires none { marks.items ≡ replicate (length marks.items) false }
    requires there { All (λ p. p < length marks.items) targets.now }
    ensures { AreTargets targets.now (length marks.items) result.items }
{
    let mut marks = marks;
    for target in targets {
        marks[*target] = true;
    }
    marks
}

/// Marks the finder of each position that is marked, and its finder, and so on.
fn with_finders(finder: &[usize], marks: Vec<bool>) -> Vec<bool>
    requires sized { length marks.items ≡ length finder.now }
    requires earlier { (k : ℕ) → k < length finder.now → slice_index_or finder.now k 0 ≤ k }
    ensures { AreTaken finder.now marks.items 0 result.items }
{
    let mut marks = marks;
    let mut index = marks.len();
    while index > 0 {
        index -= 1;
        if marks[index] {
            marks[finder[index]] = true;
        }
    }
    marks
}
