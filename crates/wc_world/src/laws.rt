//! Laws of the worlds of components: contracts of functions that do nothing when they run.

ghost use Rattle.wc_world.specs.FunctionsLowered.{FunctionsLowered};
ghost use Rattle.wc_world.specs.Laws.{WorldsExcludeFaults};

use wc_encoder::ComponentEncoder;
use wc_read::laws::modules_unique;
use wc_validate::laws::{records_exclude_faults, records_in_range, records_unique};

/// If a component has a world, no fault has a cause, except failed allocations: if `ComponentWorld::new` succeeds, no
/// other fault was possible. The law does nothing when it runs.
pub fn worlds_exclude_faults(encoder: &ComponentEncoder)
    ensures { WorldsExcludeFaults encoder.now }
{
    records_unique(encoder);
    records_exclude_faults(encoder);
    modules_unique();
}

/// In a world that `ComponentWorld::new` makes, each function that is recorded as an import, of the main module or of
/// an adapter, has its lowering. A function of the world itself has it under no name. Any other has it under the name
/// of its interface's key, which is in range and has a name (`Resolve::name_world_key`). The law does nothing when it
/// runs.
pub fn recorded_functions_lowered(encoder: &ComponentEncoder)
    ensures { FunctionsLowered encoder.now }
{
    encoder.well_formedness();
    let metadata = encoder.metadata();
    metadata.resolve.well_formedness();
    records_in_range(encoder);
}
