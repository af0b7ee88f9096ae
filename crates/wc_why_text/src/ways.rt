//! Ways of a tree: whether they are for types alone, and whether a path leads to their ends.

ghost use Rattle.std.specs.Prelude.{◌≡◌, ◌++◌, ◌∷◌, [], IfOk, OnOk, map};
ghost use Rattle.wc_why.specs.Tree.{tree_way_view};
ghost use Rattle.wc_why_text.specs.Ways.{chosen_ways, is_chosen, is_typed, is_unreached};

use std::alloc::{AllocError, Global};
use wc_why::TreeWay;

/// Whether a path is for the types of an interface alone.
pub(crate) fn is_typed(way: &TreeWay<'_>) -> bool
    ensures { result ≡ is_typed (tree_way_view way.now) }
{
    match (way.interface, way.name) {
        (Some(_), None) => true,
        (Some(_), Some(_)) => false,
        (None, _) => false,
    }
}

/// Whether no path leads to the import, or the function, of a way.
pub(crate) fn is_unreached(way: &TreeWay<'_>) -> bool
    ensures { result ≡ is_unreached (tree_way_view way.now) }
{
    match (way.item, way.ty) {
        (None, None) => !is_typed(way),
        (None, Some(_)) => false,
        (Some(_), _) => false,
    }
}

/// Whether a way is one to what is reached; with `imports`, whether it is one to an import besides.
fn is_chosen(way: &TreeWay<'_>, imports: bool) -> bool
    ensures { result ≡ is_chosen imports (tree_way_view way.now) }
{
    if is_unreached(way) {
        return false;
    }
    if !imports {
        return true;
    }
    match way.interface {
        Some(_) => true,
        None => false,
    }
}

/// The ways to what is reached, in order; with `imports`, those to imports among them.
pub(crate) fn chosen_ways<'a>(
    alloc: Global,
    ways: &[TreeWay<'a>],
    imports: bool,
) -> Result<Vec<TreeWay<'a>>, AllocError>
    ensures { IfOk result (λ v. map tree_way_view v.items
        ≡ chosen_ways imports (map tree_way_view ways.now)) }
{
    let mut chosen = Vec::new(alloc);
    for way in ways {
        put_chosen(way, imports, &mut chosen)?;
    }
    Ok(chosen)
}

/// Appends a way, if it is chosen.
fn put_chosen<'a>(
    way: &TreeWay<'a>,
    imports: bool,
    chosen: &mut Vec<TreeWay<'a>>,
) -> Result<(), AllocError>
    ensures { OnOk result (map tree_way_view chosen.new.items
        ≡ map tree_way_view chosen.old.items ++ chosen_ways imports (tree_way_view way.now ∷ [])) }
{
    if is_chosen(way, imports) {
        push_way(way, chosen)
    } else {
        Ok(())
    }
}

/// Appends a way.
fn push_way<'a>(way: &TreeWay<'a>, ways: &mut Vec<TreeWay<'a>>) -> Result<(), AllocError>
    ensures { OnOk result (ways.new.items ≡ ways.old.items ++ way.now ∷ []) }
{
    ways.push(*way)?;
    Ok(())
}
