//! The lines of a tree of paths.

ghost use Rattle.std.specs.Prelude.{◌≡◌, ◌++◌, IfOk, IsErrOf, OnOk, map, string_bytes, true};
ghost use Rattle.std.specs.Io.KnownBytes.{Appends};
ghost use Rattle.wc_why.specs.Tree.{tree_module_view, tree_view, tree_way_view};
ghost use Rattle.wc_why_text.specs.TreeLines.{lines_after, tree_lines, way_lines};

use crate::way_items::{put_items, way_items};
use crate::way_lines::way_text;
use std::alloc::{AllocError, Global};
use wc_maps::{Seed, Set};
use wc_texts::{PutFailed, Sink};
use wc_why::{Tree, TreeModule, TreeWay};

/// Why lines could not be put.
#[derive(Clone, Copy, Debug, PartialEq, Eq)]
pub enum LinesFault {
    /// An allocation failed.
    Memory,
    /// The output failed.
    Output,
}

impl From<AllocError> for LinesFault {
    ghost use Rattle.wc_why_text.specs.declared.tree_lines.LinesFault.TheVariants.{Memory};

    ghost from_gives = { λ _ e. e ≡ Memory };

    fn from(_e: AllocError) -> LinesFault {
        LinesFault::Memory
    }
}

impl From<PutFailed> for LinesFault {
    ghost use Rattle.wc_why_text.specs.declared.tree_lines.LinesFault.TheVariants.{Output};

    ghost from_gives = { λ _ e. e ≡ Output };

    fn from(_e: PutFailed) -> LinesFault {
        LinesFault::Output
    }
}

/// Puts the lines of a tree of paths, as `push_lines` appends them. The text of one path at a time is kept in memory.
///
/// # Errors
///
/// `Memory`: an allocation failed. `Output`: the sink is failed. Some of the lines may have been put.
pub fn put_lines<S: Sink>(
    alloc: Global,
    seed: Seed,
    of_component: bool,
    tree: &Tree<'_>,
    out: &mut S,
) -> Result<(), LinesFault>
    ensures done { OnOk result (Appends (S.written out.old) (S.written out.new)
        (tree_lines of_component (tree_view tree.now))) }
    ensures works { OnOk result (S.is_failed out.new ≡ S.is_failed out.old) }
    ensures output { IsErrOf result LinesFault.Output → S.is_failed out.new ≡ true }
{
    let mut above = Set::with_hasher(alloc, seed);
    for way in &tree.ways {
        let lines = next_lines(alloc, of_component, &tree.modules, way, &mut above)?;
        out.put(lines.as_bytes())?;
    }
    Ok(())
}

/// Appends the lines of a tree of paths. It takes time and memory linear in the tree and the lines.
///
/// Of each path the first line is `INTERFACE NAME`, `INTERFACE: only its types are used`, or `func N NAME` of a function that
/// was asked for by itself; where no path leads there, `: not reached` ends it, and there is no other line. A line for each
/// step follows, after two blanks:
///
/// - where it begins: `export NAME`, `start`, `fills table T` or `fills memory M`; of a component `main exports NAME` and so on,
///   and `adapter ADAPTER exports NAME`; or why no path through the main module is shown (`unfollowed_text`);
/// - `main imports ADAPTER NAME` and `adapter ADAPTER exports NAME`, where it goes on in an adapter;
/// - the items, as `item_text` and `segment_text` have them, with names as `rust_name` reads them. `* ` is before a marked one,
///   in place of the two blanks, but on a path for types alone;
/// - before an item the functions that may call it: `called by func N NAME` for each, and `called by N more`, if there are more;
/// - of a component the import with which it ends: `main imports MODULE NAME`, or `adapter ADAPTER imports MODULE NAME`;
/// - `world imports NAME`, or `world exports NAME`, and `type NAME`.
///
/// Where an item on the path has a line above, `as above to ITEM` names the last such item, in place of all lines before and
/// among these; of a component with `of main` or `of adapter ADAPTER`. So each item has one line. An import that is its own
/// path has no line of its own.
///
/// Texts from outside are escaped (`wc_texts::escaped`), and a blank in them is `\u{20}`; but in the name of an item, and of
/// an export of a module that stands alone, which end their lines, it stays.
///
/// # Errors
///
/// `AllocError`: an allocation failed. Some of the lines may have been appended.
pub fn push_lines(
    alloc: Global,
    seed: Seed,
    of_component: bool,
    tree: &Tree<'_>,
    text: &mut String,
) -> Result<(), AllocError>
    ensures { OnOk result (string_bytes text.new
        ≡ string_bytes text.old ++ tree_lines of_component (tree_view tree.now)) }
{
    let mut above = Set::with_hasher(alloc, seed);
    for way in &tree.ways {
        let lines = next_lines(alloc, of_component, &tree.modules, way, &mut above)?;
        text.push_str(&lines)?;
    }
    Ok(())
}

/// The lines of a way, where some items have lines above: now those of this way have them too.
fn next_lines(
    alloc: Global,
    of_component: bool,
    modules: &[TreeModule<'_>],
    way: &TreeWay<'_>,
    above: &mut Set<(usize, usize)>,
) -> Result<String, AllocError>
    ensures lines { IfOk result (λ s. string_bytes s ≡ way_lines of_component
        (map tree_module_view modules.now) above.old.keys (tree_way_view way.now)) }
    ensures above { OnOk result (above.new.keys ≡ lines_after (map tree_module_view modules.now)
        above.old.keys (tree_way_view way.now)) }
{
    let items = way_items(alloc, modules, way, above)?;
    let text = way_text(alloc, of_component, modules, way, &items)?;
    put_items(modules, &items.items, above)?;
    Ok(text)
}
