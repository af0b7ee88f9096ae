//! Laws of what trimming leaves of an adapter's imports and exports: contracts of functions that do nothing when they
//! run.

ghost use Rattle.wc_world.specs.Restricted.{RefusedAsCollision, TrimmedIsRestricted};

use wc_encoder::ComponentEncoder;
use wc_gc::laws::trimmed_restricts;
use wc_read::laws::modules_unique;
use wc_validate::laws::{restrictions_recorded, restrictions_valid};

/// The record of a trimmed adapter is the part of the adapter's record that its required exports reach, besides the
/// main module's realloc. It is refused only where it imports one name of the main module twice. It does nothing when
/// it runs.
pub(crate) fn trimmed_is_restricted(encoder: &ComponentEncoder)
    ensures restricted { TrimmedIsRestricted encoder.now }
    ensures collides { RefusedAsCollision encoder.now }
{
    trimmed_restricts();
    modules_unique();
    restrictions_valid(encoder);
    restrictions_recorded(encoder);
}
