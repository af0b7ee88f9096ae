//! The faults of messages: why one has no component's world, or no plan.

ghost use Rattle.std.specs.Prelude.{◌≡◌};
ghost use Rattle.wc_calls.specs.MessageFault.{message_fault_number, message_fault_text};
ghost use Rattle.wc_calls.specs.declared.message_fault.MessageFault.TheVariants.{Memory};

use std::alloc::{AllocError, AllocFailed};
use thiserror::Error;
use wc_dedupe::DedupeFault;
use wc_encoder::EncoderFault;
use wc_json::JsonFault;
use wc_plan::PlanFault;
use wc_resolve::ResolveFault;
use wc_texts::{CARRIED, FaultText, OUT_OF_MEMORY, Pieces, PutFailed, put_carried, put_quoted};
use wc_world::WorldFault;

/// Why a message has no world of a component, or no plan. If several causes apply, the first in this order is named,
/// with these exceptions. The causes of `SeveralWorlds` and `PackageRange` rank with those of `UnknownWorld`. Causes
/// of keys come after `Resolve`; keys of the main module come before keys of adapters, and a key that no export has
/// comes before a repeated key. `Lengths` of adapters ranks with `AdapterTwice`. `Memory` may come instead of any. A
/// `World` may carry a `Memory`, if an allocation failed at that step; no other fault does. No call answers such a
/// fault: its status is `MEMORY`.
#[derive(Debug, Drop, Error)]
pub enum MessageFault {
    /// An allocation failed.
    #[error("out of memory")]
    Memory,
    /// The message is not text, in UTF-8.
    #[error("NotText")]
    NotText,
    /// The message is malformed; the fault has the path to the malformed part.
    #[error("Json: {0}")]
    Json(JsonFault),
    /// No world has this name, which the message gives.
    #[error("UnknownWorld `{0}`")]
    UnknownWorld(String),
    /// The modules have not as many bytes as the message says.
    #[error("Lengths")]
    Lengths,
    /// The worlds, interfaces, types and packages are not well-formed.
    #[error("Resolve: {0}")]
    Resolve(ResolveFault),
    /// Two adapters have this name.
    #[error("AdapterTwice `{0}`")]
    AdapterTwice(String),
    /// The main module's imports could not be renamed.
    #[error("Main module: {0}")]
    Dedupe(DedupeFault),
    /// These parts make no encoder.
    #[error("Encoder: {0}")]
    Encoder(EncoderFault),
    /// The component of the encoder has no world.
    #[error("World: {0}")]
    World(WorldFault),
    /// The component's world has no plan. It carries neither `World` nor `Memory`.
    #[error("Plan: {0}")]
    Plan(PlanFault),
    /// Several worlds have this name, which the message gives.
    #[error("SeveralWorlds `{0}`")]
    SeveralWorlds(String),
    /// The message names its world, and a world has a package that does not exist.
    #[error("PackageRange")]
    PackageRange,
    /// No export of the world has this key.
    #[error("UnknownKey `{0}`")]
    UnknownKey(String),
    /// Several exports of the world have this key, except for their versions.
    #[error("SeveralKeys `{0}`")]
    SeveralKeys(String),
    /// This key of an export is repeated, for one module or for two: as the same text, as two texts of one export
    /// (with its version and without), or as its index.
    #[error("RepeatedKey `{0}`")]
    RepeatedKey(String),
}

impl MessageFault {
    /// The number of the fault: its position in the enum, and 256 times the number of a fault that it carries. Names,
    /// keys and paths are no part of it. It never changes.
    pub fn number(&self) -> u32
        ensures { result ≡ message_fault_number self.now }
    {
        match self {
            MessageFault::Memory => 0,
            MessageFault::NotText => 1,
            MessageFault::Json(fault) => 2 + CARRIED * fault.number(),
            MessageFault::UnknownWorld(_) => 3,
            MessageFault::Lengths => 4,
            MessageFault::Resolve(fault) => 5 + CARRIED * fault.number(),
            MessageFault::AdapterTwice(_) => 6,
            MessageFault::Dedupe(fault) => 7 + CARRIED * fault.number(),
            MessageFault::Encoder(fault) => 8 + CARRIED * fault.number(),
            MessageFault::World(fault) => 9 + CARRIED * fault.number(),
            MessageFault::Plan(fault) => 10 + CARRIED * fault.number(),
            MessageFault::SeveralWorlds(_) => 11,
            MessageFault::PackageRange => 12,
            MessageFault::UnknownKey(_) => 13,
            MessageFault::SeveralKeys(_) => 14,
            MessageFault::RepeatedKey(_) => 15,
        }
    }
}

impl FaultText for MessageFault {
    ghost text = { message_fault_text };

    fn put_pieces<P: Pieces>(&self, out: &mut P) -> Result<(), PutFailed> {
        match self {
            MessageFault::Memory => out.put_piece(OUT_OF_MEMORY),
            MessageFault::NotText => out.put_piece("NotText"),
            MessageFault::Json(fault) => put_carried(out, "Json", fault),
            MessageFault::UnknownWorld(name) => put_quoted(out, "UnknownWorld", name),
            MessageFault::Lengths => out.put_piece("Lengths"),
            MessageFault::Resolve(fault) => put_carried(out, "Resolve", fault),
            MessageFault::AdapterTwice(name) => put_quoted(out, "AdapterTwice", name),
            MessageFault::Dedupe(fault) => put_carried(out, "Main module", fault),
            MessageFault::Encoder(fault) => put_carried(out, "Encoder", fault),
            MessageFault::World(fault) => put_carried(out, "World", fault),
            MessageFault::Plan(fault) => put_carried(out, "Plan", fault),
            MessageFault::SeveralWorlds(name) => put_quoted(out, "SeveralWorlds", name),
            MessageFault::PackageRange => out.put_piece("PackageRange"),
            MessageFault::UnknownKey(key) => put_quoted(out, "UnknownKey", key),
            MessageFault::SeveralKeys(key) => put_quoted(out, "SeveralKeys", key),
            MessageFault::RepeatedKey(key) => put_quoted(out, "RepeatedKey", key),
        }
    }
}

impl From<AllocError> for MessageFault {
    ghost from_gives = { λ _ e. e ≡ Memory };

    fn from(_e: AllocError) -> MessageFault {
        MessageFault::Memory
    }
}

impl<T: Drop> From<AllocFailed<T>> for MessageFault {
    ghost from_gives = { λ _ e. e ≡ Memory };

    fn from(_e: AllocFailed<T>) -> MessageFault {
        MessageFault::Memory
    }
}

impl From<JsonFault> for MessageFault {
    ghost use Rattle.wc_calls.specs.MessageFault.{of_json};

    ghost from_gives = { λ f e. e ≡ of_json f };

    fn from(e: JsonFault) -> MessageFault {
        match e {
            JsonFault::Memory => MessageFault::Memory,
            _ => MessageFault::Json(e),
        }
    }
}

impl From<ResolveFault> for MessageFault {
    ghost use Rattle.wc_calls.specs.MessageFault.{of_resolve};

    ghost from_gives = { λ f e. e ≡ of_resolve f };

    fn from(e: ResolveFault) -> MessageFault {
        match e {
            ResolveFault::Memory => MessageFault::Memory,
            _ => MessageFault::Resolve(e),
        }
    }
}

impl From<DedupeFault> for MessageFault {
    ghost use Rattle.wc_calls.specs.MessageFault.{of_dedupe};

    ghost from_gives = { λ f e. e ≡ of_dedupe f };

    fn from(e: DedupeFault) -> MessageFault {
        match e {
            DedupeFault::Memory => MessageFault::Memory,
            _ => MessageFault::Dedupe(e),
        }
    }
}

impl From<EncoderFault> for MessageFault {
    ghost use Rattle.wc_calls.specs.MessageFault.{of_encoder};

    ghost from_gives = { λ f e. e ≡ of_encoder f };

    fn from(e: EncoderFault) -> MessageFault {
        match e {
            EncoderFault::Memory => MessageFault::Memory,
            _ => MessageFault::Encoder(e),
        }
    }
}

impl From<WorldFault> for MessageFault {
    ghost use Rattle.wc_calls.specs.MessageFault.{of_world};

    ghost from_gives = { λ f e. e ≡ of_world f };

    fn from(e: WorldFault) -> MessageFault {
        match e {
            WorldFault::Memory => MessageFault::Memory,
            _ => MessageFault::World(e),
        }
    }
}

impl From<PlanFault> for MessageFault {
    ghost use Rattle.wc_calls.specs.MessageFault.{of_plan};

    ghost from_gives = { λ f e. e ≡ of_plan f };

    fn from(e: PlanFault) -> MessageFault {
        match e {
            PlanFault::Memory => MessageFault::Memory,
            PlanFault::World(fault) => MessageFault::World(fault),
            _ => MessageFault::Plan(e),
        }
    }
}
