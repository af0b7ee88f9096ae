//! The chains to some of the positions that a search found, as a tree with each position once.

ghost use Rattle.std.specs.Prelude.{◌≡◌, ◌<◌, ◌≤◌, ℕ, All, IfOk, Some, None, length, slice_index_or};
ghost use Rattle.wc_graph.specs.ChainTree.{IsChainTree, IsInside};
ghost use Rattle.wc_graph.specs.Private.ChainTree.{IsGrowth, IsGrown, IsGrownIf, IsNewPart, IsPut};

use std::alloc::{AllocError, Global};

/// Positions that a search found, each once, and for each the index of its finder among them.
#[derive(Drop)]
pub struct ChainTree {
    /// The positions on the chains to the targets: first the chain to the first target, then the new positions on the
    /// chain to each next target.
    pub order: Vec<usize>,
    /// For each of them the index of its finder in `order`; `None` for a root.
    pub from: Vec<Option<usize>>,
    /// For each target its index in `order`; `None` for a target that is `None`.
    pub ends: Vec<Option<usize>>,
}

/// The tree while it grows.
#[derive(Drop)]
struct Growth {
    order: Vec<usize>,
    from: Vec<Option<usize>>,
    /// For each position its index in `order`, if it is in it.
    places: Vec<Option<usize>>,
}

/// Positions that a tree does not have yet, on the chain to the first of them, each after the position that it found;
/// and the index of the finder of the last, if it has one.
#[derive(Drop)]
struct NewPart {
    new: Vec<usize>,
    after: Option<usize>,
}

/// The chains to some of the positions that a search found, as a tree. A target that is `None` has no chain. `finder`
/// has for each position the position of its finder, which is no later; a root is its own finder. The call takes time
/// and memory linear in both lists.
///
/// # Errors
///
/// `AllocError`: an allocation failed.
pub fn tree_to(
    alloc: Global,
    finder: &[usize],
    targets: &[Option<usize>],
) -> Result<ChainTree, AllocError>
    requires earlier { (k : ℕ) → k < length finder.now → slice_index_or finder.now k 0 ≤ k }
    requires there { All (λ o. IsInside finder.now o) targets.now }
    ensures { IfOk result (IsChainTree finder.now targets.now) }
{
    let places = vec![in alloc; None; finder.len()]?;
    let mut growth = Growth {
        order: Vec::new(alloc),
        from: Vec::new(alloc),
        places,
    };
    let mut ends = Vec::new(alloc);
    for target in targets {
        let end = add_if(alloc, finder, *target, &mut growth)?;
        ends.push(end)?;
    }
    let Growth { order, from, .. } = growth;
    Ok(ChainTree { order, from, ends })
}

/// Adds the chain to a position, unless it is `None`, and returns its index.
fn add_if(
    alloc: Global,
    finder: &[usize],
    target: Option<usize>,
    growth: &mut Growth,
) -> Result<Option<usize>, AllocError>
    requires earlier { (k : ℕ) → k < length finder.now → slice_index_or finder.now k 0 ≤ k }
    requires there { IsInside finder.now target }
    requires growth { IsGrowth finder.now growth.old }
    ensures { IfOk result (IsGrownIf finder.now target growth.old growth.new) }
{
    match target {
        Some(position) => {
            let place = add(alloc, finder, position, growth)?;
            Ok(Some(place))
        }
        None => Ok(None),
    }
}

/// Adds the chain to a position, and returns its index.
fn add(
    alloc: Global,
    finder: &[usize],
    target: usize,
    growth: &mut Growth,
) -> Result<usize, AllocError>
    requires earlier { (k : ℕ) → k < length finder.now → slice_index_or finder.now k 0 ≤ k }
    requires there { target < length finder.now }
    requires growth { IsGrowth finder.now growth.old }
    ensures { IfOk result (IsGrown finder.now target growth.old growth.new) }
{
    let part = new_part(alloc, finder, &growth.places, target)?;
    put_all(finder, target, part, growth)
}

/// The new positions on the chain to a position.
fn new_part(
    alloc: Global,
    finder: &[usize],
    places: &[Option<usize>],
    target: usize,
) -> Result<NewPart, AllocError>
    requires earlier { (k : ℕ) → k < length finder.now → slice_index_or finder.now k 0 ≤ k }
    requires there { target < length finder.now }
    requires sized { length places.now ≡ length finder.now }
    ensures { IfOk result (λ p. IsNewPart finder.now places.now target p.new.items p.after) }
{
    let mut new = Vec::new(alloc);
    let mut at = target;
    while places[at].is_none() {
        new.push(at)?;
        let next = finder[at];
        if next == at {
            return Ok(NewPart { new, after: None });
        }
        at = next;
    }
    Ok(NewPart {
        new,
        after: places[at],
    })
}

/// Appends new positions, and returns the index of the first of them; without new positions, the index of the
/// existing position.
fn put_all(
    finder: &[usize],
    target: usize,
    part: NewPart,
    growth: &mut Growth,
) -> Result<usize, AllocError>
    requires earlier { (k : ℕ) → k < length finder.now → slice_index_or finder.now k 0 ≤ k }
    requires growth { IsGrowth finder.now growth.old }
    requires part { IsNewPart finder.now growth.old.places.items target part.new.items part.after }
    ensures { IfOk result (IsGrown finder.now target growth.old growth.new) }
{
    let NewPart { mut new, mut after } = part;
    while let Some(position) = new.pop() {
        let place = put(position, after, growth)?;
        after = Some(place);
    }
    match after {
        Some(place) => Ok(place),
        None => unreachable!(),
    }
}

/// Appends a position, and returns its index.
fn put(position: usize, after: Option<usize>, growth: &mut Growth) -> Result<usize, AllocError>
    requires { position < length growth.old.places.items }
    ensures { IfOk result (IsPut position after growth.old growth.new) }
{
    let place = growth.order.len();
    growth.order.push(position)?;
    growth.from.push(after)?;
    growth.places[position] = Some(place);
    Ok(place)
}
