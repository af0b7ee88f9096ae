//! The places of faults of texts.

ghost use Rattle.std.specs.Prelude.{IfOk};
ghost use Rattle.wc_json.specs.Places.{IsFaultPlace};

use crate::JsonFault;
use crate::json_place::json_end;
use crate::repeated_members::repeated_member;
use std::alloc::{AllocError, Global};
use wc_maps::Seed;

/// The place of a fault in a text.
#[derive(Debug, PartialEq, Eq, Drop)]
pub enum JsonPlace {
    /// A byte of the text, from 0, as [`json_end`](crate::json_end) has it.
    Byte(usize),
    /// A member or an item, by its path from the whole text, as [`JsonFault::Wrong`] has it. A key in brackets is not
    /// escaped in the path of a member that is repeated.
    Path(String),
}

/// Finds the place of a fault of reading a text: the byte where the text stops to be JSON, the member that is repeated,
/// or the value that is wrong; `None` where an allocation failed. The text is read again. `seed`: the seed of the sets
/// of names that are made.
///
/// # Errors
///
/// `AllocError`: an allocation failed.
pub fn fault_place(
    alloc: Global,
    seed: Seed,
    text: &str,
    fault: &JsonFault,
) -> Result<Option<JsonPlace>, AllocError>
    ensures { IfOk result (IsFaultPlace text.now fault.now) }
{
    match fault {
        JsonFault::Memory => Ok(None),
        JsonFault::NotJson => Ok(Some(JsonPlace::Byte(json_end(alloc, text)?))),
        JsonFault::RepeatedMember => {
            Ok(Some(JsonPlace::Path(repeated_member(alloc, seed, text)?)))
        }
        JsonFault::Wrong { path, .. } => {
            Ok(Some(JsonPlace::Path(String::from_str(alloc, path)?)))
        }
    }
}
