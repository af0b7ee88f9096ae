//! Explanations of the faults of a component's world: their positions, and near names.

ghost use Rattle.std.specs.Prelude.{IfOk};
ghost use Rattle.wc_world.specs.Refused.{IsPlaceOrNone, IsRefusedAt};
ghost use Rattle.wcplan_inputs.specs.Details.{IsExplanation};
ghost use Rattle.wcplan_inputs.specs.Explained.{IsOfPlan, IsOfWorld};

use crate::adapter_names::given_adapters;
use crate::fault::ProgramFault;
use crate::nearest::near_place;
use std::alloc::{AllocError, Global};
use wc_encoder::ComponentEncoder;
use wc_plan::{PlanFault, PlanPlace};
use wc_texts::Refused;
use wc_world::{WorldFault, WorldPlace};

/// The explanation of a fault of a component's world.
#[derive(Debug, Drop)]
pub struct Explained {
    /// The import, export or byte that the fault is about.
    pub place: WorldPlace,
    /// The first near name for an unknown name, which differs only in its version or in the case of letters: of an
    /// interface, of an import of the world, or of a function of an interface. `None` if no name is near.
    pub nearest: Option<String>,
    /// The list of adapters, or the text that there are none, if the main module imports from an unknown module.
    pub adapters: Option<String>,
}

/// The fault of a command whose component has no world, made from the fault of `ComponentWorld::new_explained`, with
/// its details; `Memory` if an allocation for it failed.
pub fn world_fault<'a>(
    alloc: Global,
    encoder: &ComponentEncoder,
    refused: Refused<WorldFault, WorldPlace>,
) -> ProgramFault<'a>
    requires { IsRefusedAt encoder.now refused }
    ensures { IsOfWorld encoder.now refused.fault result }
{
    let Refused { fault, place } = refused;
    if let WorldFault::Memory = fault {
        return ProgramFault::Memory;
    }
    match with_nearest(alloc, encoder, &fault, place) {
        Ok(place) => ProgramFault::World(Refused { fault, place }),
        Err(AllocError) => ProgramFault::Memory,
    }
}

/// Explains a fault by its position.
///
/// # Errors
///
/// `AllocError`: an allocation failed.
fn with_nearest(
    alloc: Global,
    encoder: &ComponentEncoder,
    fault: &WorldFault,
    place: Option<WorldPlace>,
) -> Result<Option<Explained>, AllocError>
    requires { IsPlaceOrNone encoder.now fault.now place }
    ensures { IfOk result (IsExplanation encoder.now fault.now) }
{
    match place {
        Some(place) => {
            let nearest = near_place(alloc, encoder, fault, &place.place)?;
            let adapters = given_adapters(alloc, encoder, fault)?;
            Ok(Some(Explained {
                place,
                nearest,
                adapters,
            }))
        }
        None => Ok(None),
    }
}

/// The fault of a command whose component's world has no plan, for what `plan_explained` answered.
pub fn plan_fault<'a>(refused: Refused<PlanFault, PlanPlace>) -> ProgramFault<'a>
    ensures { IsOfPlan refused result }
{
    match refused.fault {
        PlanFault::Memory => ProgramFault::Memory,
        _ => ProgramFault::Plan(refused),
    }
}
