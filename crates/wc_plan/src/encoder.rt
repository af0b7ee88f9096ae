//! Plans of encoders.

ghost use Rattle.std.specs.Prelude.{◌≡◌, IfErr, IfOk};
ghost use Rattle.wc_plan.specs.Encoder.{ForWorlds, IsEncoderFault, IsFaultWith, IsLowered};
ghost use Rattle.wc_plan.specs.Fault.{HasNoFault};
ghost use Rattle.wc_plan.specs.PlanViews.{plan_view};
ghost use Rattle.wc_plan.specs.Plans.{plan_of};
ghost use Rattle.wc_world.specs.Views.{ComponentWorldView};
ghost use Rattle.wc_world.specs.World.{IsWorldOf};

use crate::Plan;
use crate::fault::PlanFault;
use crate::laws::{worlds_nameable, worlds_unique};
use crate::planner::plan;
use std::alloc::Global;
use wc_encoder::ComponentEncoder;
use wc_world::laws::{recorded_functions_lowered, worlds_exclude_faults};
use wc_world::{ComponentWorld, ImportOptions};

/// The plan of the component's world that an encoder and options make (`ComponentWorld::new`). At most one such world
/// exists (`laws::worlds_unique`), so the plan is that of each.
///
/// # Errors
///
/// `World` comes before all others. `Memory` may come instead of any.
///
/// - `World`: `ComponentWorld::new` gives this fault, which is not its `Memory`. If a world exists all the same, the
///   fault says that an allocation failed.
/// - `NoMemory`, `NoRealloc`: as in `plan`. `NoLowering` never comes.
/// - `Memory`: an allocation failed.
pub fn plan_encoder<O: ImportOptions>(
    alloc: Global,
    encoder: &ComponentEncoder,
    options: &O,
) -> Result<Plan, PlanFault>
    ensures plan { IfOk result (λ p. (w : ComponentWorldView)
        × IsWorldOf (O.options_of options.now) encoder.now w × HasNoFault w
        × (plan_view p ≡ plan_of w)) }
    ensures each { IfOk result (λ p. ForWorlds (O.options_of options.now) encoder.now
        (λ w. HasNoFault w × (plan_view p ≡ plan_of w))) }
    ensures fault { IfErr result (IsEncoderFault (O.options_of options.now) encoder.now) }
    ensures each_fault { IfErr result (λ f. ForWorlds (O.options_of options.now) encoder.now
        (λ w. IsFaultWith encoder.now w f)) }
    ensures lowered { IfErr result IsLowered }
{
    worlds_nameable(encoder);
    worlds_unique(encoder);
    worlds_exclude_faults(encoder);
    recorded_functions_lowered(encoder);
    let world = ComponentWorld::new(alloc, encoder, options)?;
    plan(alloc, &world)
}
