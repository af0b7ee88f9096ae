//! The paths to imports as JSON.

ghost use Rattle.std.specs.Prelude.{ℕ, IfErr, IfOk, List, map};
ghost use Rattle.wc_why.specs.Texts.{text_of};
ghost use Rattle.wc_import_paths.specs.Followed.{HasPaths, IsSource};
ghost use Rattle.wc_import_paths.specs.Following.{IsRefusal};
ghost use Rattle.wc_import_paths.specs.JsonPaths.{IsPathsText};
ghost use Rattle.wc_import_paths.specs.Patterns.{pattern_view};

use crate::asked::Asked;
use crate::followed::{Followed, Refusal, follow};
use crate::patterns::ImportPattern;
use crate::shown::tree_of_followed;
use std::alloc::{AllocError, Global};
use wc_gc::GcFault;
use wc_maps::Seed;
use wc_texts::Refused;
use wc_why_text::paths_to_json as tree_paths;

/// The paths to those imports of the module with these bytes that `imports` ask for, or to all, where there are none,
/// as JSON in a line (`wc_why_text::paths_to_json`). Of each import, in the order of the module, it is the one path of
/// the module's tree (`tree_of_followed`): where it begins, and its items, functions with the names that the module
/// gives them. An import to which no path leads is left out; so is what the module does not import. Where imports are
/// asked for, items have marks: whether each path to any of them goes through the item.
///
/// Paths begin at the module's exports of the names `exports`, in their order, or at all exports in the order of the
/// module if `exports` is empty; and then at the start function. If none of these leads to an import, the path to it
/// begins at an active segment.
///
/// `seed`: the seed of the maps that are made. It takes time and memory linear in the module, in `imports` and
/// `exports`, and in the text.
///
/// # Errors
///
/// Of several causes the first in this order is named; `Memory` may come in place of any.
///
/// - `Read`: the bytes are no module, with the byte at which they stop being one; or a section of segments can't be
///   read, with this section.
/// - `MissingExport`: a name of `exports` is not exported; the first such, without a place.
/// - `LiveBody`: the body of a function that a path reaches is no code, or names what is not there. Its place is this
///   function.
/// - `Memory`: an allocation failed.
pub fn paths_to_json(
    alloc: Global,
    seed: Seed,
    bytes: &[u8],
    exports: &[&str],
    imports: &[ImportPattern<'_>],
) -> Result<Vec<u8>, Refusal>
    ensures text { IfOk result (λ v. IsPathsText bytes.now (map text_of exports.now)
        (map pattern_view imports.now) v.items) }
    ensures refused { IfErr result (λ r.
        IsRefusal bytes.now (map text_of exports.now) r.fault r.place) }
{
    match Asked::new(alloc, seed, imports) {
        Ok(asked) => asked_text(alloc, &asked, bytes, exports),
        Err(AllocError) => Err(Refused::without_place(GcFault::Memory)),
    }
}

/// The paths to the imports that are asked for.
fn asked_text(
    alloc: Global,
    asked: &Asked<'_, '_>,
    bytes: &[u8],
    exports: &[&str],
) -> Result<Vec<u8>, Refusal>
    ensures text { IfOk result
        (λ v. IsPathsText bytes.now (map text_of exports.now) asked.now v.items) }
    ensures refused { IfErr result (λ r.
        IsRefusal bytes.now (map text_of exports.now) r.fault r.place) }
{
    match follow(alloc, asked, bytes, exports) {
        Ok(followed) => match followed_text(alloc, asked, &followed) {
            Ok(text) => Ok(text),
            Err(AllocError) => Err(Refused::without_place(GcFault::Memory)),
        },
        Err(refusal) => Err(refusal),
    }
}

/// The paths in a module that is followed.
fn followed_text(
    alloc: Global,
    asked: &Asked<'_, '_>,
    followed: &Followed<'_>,
) -> Result<Vec<u8>, AllocError>
    requires { HasPaths followed.now }
    ensures { (bytes : List ℕ) (exports : List (List ℕ)) → IsSource bytes exports followed.now
        → IfOk result (λ v. IsPathsText bytes exports asked.now v.items) }
{
    let tree = tree_of_followed(alloc, asked, &[], followed)?;
    tree_paths(alloc, asked.seed(), &tree)
}
