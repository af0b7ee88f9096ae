//! Faults that are that an allocation failed, or carry such a fault, at any depth.

ghost use Rattle.std.specs.Prelude.{◌≡◌};
ghost use Rattle.wc_calls.specs.MemoryFaults.{dedupe_is_memory, encoder_is_memory, gc_is_memory, is_memory, json_is_memory, plan_is_memory, read_is_memory, resolve_is_memory, validate_is_memory, world_is_memory};

use crate::message_fault::MessageFault;
use wc_dedupe::DedupeFault;
use wc_encoder::EncoderFault;
use wc_gc::GcFault;
use wc_json::JsonFault;
use wc_plan::PlanFault;
use wc_read::ReadFault;
use wc_resolve::ResolveFault;
use wc_validate::ValidateFault;
use wc_world::WorldFault;

/// Whether a reader's fault is that an allocation failed.
pub(crate) fn read_is_memory(fault: ReadFault) -> bool
    ensures { result ≡ read_is_memory fault }
{
    match fault {
        ReadFault::Memory => true,
        _ => false,
    }
}

/// Whether a fault of renaming is or carries that an allocation failed.
pub(crate) fn dedupe_is_memory(fault: DedupeFault) -> bool
    ensures { result ≡ dedupe_is_memory fault }
{
    match fault {
        DedupeFault::Memory => true,
        DedupeFault::Read(fault) => read_is_memory(fault),
        _ => false,
    }
}

/// Whether a fault of trimming is or carries that an allocation failed.
pub fn gc_is_memory(fault: &GcFault) -> bool
    ensures { result ≡ gc_is_memory fault.now }
{
    match fault {
        GcFault::Memory => true,
        GcFault::Read(fault) => read_is_memory(*fault),
        _ => false,
    }
}

/// Whether a fault of reading JSON is that an allocation failed.
fn json_is_memory(fault: &JsonFault) -> bool
    ensures { result ≡ json_is_memory fault.now }
{
    match fault {
        JsonFault::Memory => true,
        _ => false,
    }
}

/// Whether a fault of worlds, interfaces, types and packages is that an allocation failed.
fn resolve_is_memory(fault: ResolveFault) -> bool
    ensures { result ≡ resolve_is_memory fault }
{
    match fault {
        ResolveFault::Memory => true,
        _ => false,
    }
}

/// Whether a fault of an encoder's parts is that an allocation failed.
fn encoder_is_memory(fault: EncoderFault) -> bool
    ensures { result ≡ encoder_is_memory fault }
{
    match fault {
        EncoderFault::Memory => true,
        _ => false,
    }
}

/// Whether a fault of a core module is or carries that an allocation failed.
fn validate_is_memory(fault: &ValidateFault) -> bool
    ensures { result ≡ validate_is_memory fault.now }
{
    match fault {
        ValidateFault::Memory => true,
        ValidateFault::Read(fault) => read_is_memory(*fault),
        _ => false,
    }
}

/// Whether a fault of a component's world is or carries that an allocation failed.
fn world_is_memory(fault: &WorldFault) -> bool
    ensures { result ≡ world_is_memory fault.now }
{
    match fault {
        WorldFault::Memory => true,
        WorldFault::Main(fault) => validate_is_memory(fault),
        WorldFault::Adapter(_, fault) => validate_is_memory(fault),
        WorldFault::Trim(_, fault) => gc_is_memory(fault),
        WorldFault::Minimized(_, fault) => validate_is_memory(fault),
        WorldFault::PageSize(_, _, _) => false,
    }
}

/// Whether a fault of a plan is or carries that an allocation failed.
fn plan_is_memory(fault: &PlanFault) -> bool
    ensures { result ≡ plan_is_memory fault.now }
{
    match fault {
        PlanFault::Memory => true,
        PlanFault::World(fault) => world_is_memory(fault),
        _ => false,
    }
}

/// Whether a fault of a message is that an allocation failed, or carries such a fault.
pub(crate) fn is_memory(fault: &MessageFault) -> bool
    ensures { result ≡ is_memory fault.now }
{
    match fault {
        MessageFault::Memory => true,
        MessageFault::Json(fault) => json_is_memory(fault),
        MessageFault::Resolve(fault) => resolve_is_memory(*fault),
        MessageFault::Dedupe(fault) => dedupe_is_memory(*fault),
        MessageFault::Encoder(fault) => encoder_is_memory(*fault),
        MessageFault::World(fault) => world_is_memory(fault),
        MessageFault::Plan(fault) => plan_is_memory(fault),
        _ => false,
    }
}
