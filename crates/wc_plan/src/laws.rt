//! Laws of plans: contracts of functions that do nothing when they run.

ghost use Rattle.wc_plan.specs.Laws.{PlansExcludeFaults, WorldsNameable, WorldsUnique};

use wc_encoder::ComponentEncoder;
use wc_read::laws::modules_unique;
use wc_validate::laws::records_unique;
use wc_world::laws::recorded_functions_lowered;

/// A world that `ComponentWorld::new` makes meets the condition of `plan`: for each imported function, its interface
/// is in range and has a name. The law does nothing when it runs.
pub fn worlds_nameable(encoder: &ComponentEncoder)
    ensures { WorldsNameable encoder.now }
{
    recorded_functions_lowered(encoder);
}

/// An encoder and options have at most one world: two worlds that meet the contract of `ComponentWorld::new` have the
/// same main module, adapters, lowerings, live types and exports used. The law leaves open whether the bytes of a
/// trimmed adapter are borrowed. It does nothing when it runs.
pub fn worlds_unique(encoder: &ComponentEncoder)
    ensures { WorldsUnique encoder.now }
{
    records_unique(encoder);
    modules_unique();
}

/// `plan` succeeds only if no fault except `Memory` applies: if no function has a fault, there is no first one. The
/// law does nothing when it runs.
pub fn plans_exclude_faults()
    ensures { PlansExcludeFaults }
{}
