//! Names that are short enough for the boxes of a graph.

ghost use Rattle.std.specs.Prelude.{◌≡◌, IfOk, string_bytes};
ghost use Rattle.std.specs.Str.{chars};
ghost use Rattle.wc_why_text.specs.ShortNames.{cut, short_name};

use crate::rust_names::{characters_of, characters_text, plain};
use std::alloc::{AllocError, Global};

/// How many characters of a name are shown.
const SHOWN: usize = 40;

/// A name as it is in a box: the last two parts of a name that Rust mangled, read (`rust_name`); and of what has more than 40
/// characters the first 40 and `..`.
pub(crate) fn short_name(alloc: Global, name: &str) -> Result<String, AllocError>
    ensures { IfOk result (λ s. string_bytes s ≡ short_name name.now) }
{
    let characters = characters_of(alloc, name)?;
    let plain = plain(alloc, true, &characters)?;
    cut(alloc, &plain)
}

/// The first of these characters, and `..` where there are more.
fn cut(alloc: Global, characters: &[char]) -> Result<String, AllocError>
    ensures { IfOk result (λ s. string_bytes s ≡ cut characters.now) }
{
    if characters.len() <= SHOWN {
        return characters_text(alloc, characters);
    }
    let text = characters_text(alloc, &characters[..SHOWN])?;
    format!(in alloc; "{text}..")
}
