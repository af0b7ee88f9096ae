//! Refusals of messages: the fault, and its place.

ghost use Rattle.std.specs.Option.{option_map};
ghost use Rattle.std.specs.Prelude.{◌≡◌};
ghost use Rattle.wc_calls.specs.MessageFault.{of_dedupe, of_json, of_plan, of_resolve, of_world};
ghost use Rattle.wc_calls.specs.Private.Refusals.{IsRefusalOf, IsTextRefusal};
ghost use Rattle.wc_calls.specs.declared.refusals.MessagePlace.TheVariants as kind;

use crate::message_fault::MessageFault;
use std::alloc::Global;
use wc_dedupe::DedupeFault;
use wc_json::{JsonFault, JsonPlace, fault_place};
use wc_maps::Seed;
use wc_plan::{PlanFault, PlanPlace};
use wc_read::ReadPlace;
use wc_resolve::{Part, ResolveFault};
use wc_texts::Refused;
use wc_world::{WorldFault, WorldPlace};

/// The place of a fault of a message.
#[derive(Drop)]
pub(crate) enum MessagePlace {
    /// A byte or a path of the message.
    Json(JsonPlace),
    /// The name of a world that the message gives, and the names of the worlds that there are.
    Worlds { name: String, worlds: Vec<String> },
    /// A world, an interface, a type or a package.
    Part(Part),
    /// A byte of the main module.
    Bytes(ReadPlace),
    /// A place in a module.
    World(WorldPlace),
    /// A function that a module imports.
    Plan(PlanPlace),
}

/// The refusal of a message: the fault, and its place.
pub(crate) type RefusedMessage = Refused<MessageFault, MessagePlace>;

impl From<MessageFault> for Refused<MessageFault, MessagePlace> {
    ghost use Rattle.wc_calls.specs.Private.Refusals.{IsWithoutPlace};

    ghost from_gives = { IsWithoutPlace };

    fn from(e: MessageFault) -> Self {
        Refused::without_place(e)
    }
}

/// The refusal of a text that is no message, with the byte or the path that this is about.
pub(crate) fn text_refusal(
    alloc: Global,
    seed: Seed,
    text: &str,
    fault: JsonFault,
) -> RefusedMessage
    ensures { IsTextRefusal text.now fault result }
{
    match fault_place(alloc, seed, text, &fault) {
        Ok(place) => json_refusal(fault, place),
        Err(e) => Refused::from(e),
    }
}

/// The refusal of a text that is no message, with this place.
fn json_refusal(fault: JsonFault, place: Option<JsonPlace>) -> RefusedMessage
    ensures fault { result.fault ≡ of_json fault }
    ensures place { result.place ≡ option_map kind.Json place }
{
    let fault = MessageFault::from(fault);
    match place {
        Some(place) => Refused {
            fault,
            place: Some(MessagePlace::Json(place)),
        },
        None => Refused::without_place(fault),
    }
}

/// The refusal of worlds, interfaces, types and packages.
pub(crate) fn parts_refusal(refused: Refused<ResolveFault, Part>) -> RefusedMessage
    ensures { IsRefusalOf of_resolve kind.Part refused result }
{
    let fault = MessageFault::from(refused.fault);
    match refused.place {
        Some(place) => Refused {
            fault,
            place: Some(MessagePlace::Part(place)),
        },
        None => Refused::without_place(fault),
    }
}

/// The refusal of the main module, whose imports can't be renamed.
pub(crate) fn renaming_refusal(refused: Refused<DedupeFault, ReadPlace>) -> RefusedMessage
    ensures { IsRefusalOf of_dedupe kind.Bytes refused result }
{
    let fault = MessageFault::from(refused.fault);
    match refused.place {
        Some(place) => Refused {
            fault,
            place: Some(MessagePlace::Bytes(place)),
        },
        None => Refused::without_place(fault),
    }
}

/// The refusal of a component that has no world.
pub(crate) fn world_refusal(refused: Refused<WorldFault, WorldPlace>) -> RefusedMessage
    ensures { IsRefusalOf of_world kind.World refused result }
{
    let Refused { fault, place } = refused;
    let fault = MessageFault::from(fault);
    match place {
        Some(place) => Refused {
            fault,
            place: Some(MessagePlace::World(place)),
        },
        None => Refused::without_place(fault),
    }
}

/// The refusal of a component whose world has no plan.
pub(crate) fn plan_refusal(refused: Refused<PlanFault, PlanPlace>) -> RefusedMessage
    ensures { IsRefusalOf of_plan kind.Plan refused result }
{
    let Refused { fault, place } = refused;
    let fault = MessageFault::from(fault);
    match place {
        Some(place) => Refused {
            fault,
            place: Some(MessagePlace::Plan(place)),
        },
        None => Refused::without_place(fault),
    }
}
