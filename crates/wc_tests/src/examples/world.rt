//! Examples of `wc_world`.

ghost use Rattle.std.specs.Prelude.{◌≡◌, ◌↔◌, IfOk, IsTrue, map};
ghost use Rattle.wc_tests.specs.World.{IsSummary, first_bytes, first_live, first_lowered, is_direct, lowered_entry, lowered_view, needed_options};
ghost use Rattle.wc_world.specs.Options.{plain_options};
ghost use Rattle.wc_world.specs.Slots.{IsSlot1Used};
ghost use Rattle.wc_world.specs.Views.{ComponentWorldView};
ghost use Rattle.wc_world.specs.World.{IsWorldOf};
ghost use Rattle.wc_world.specs.WorldViews.{lowering_entry, lowering_view, world_view};

use bitflags::Flags;
use std::alloc::{AllocError, Global};
use wc_encoder::ComponentEncoder;
use wc_maps::Map;
use wc_resolve::{AbiVariant, TypeId};
use wc_world::{ComponentWorld, Lowering, PlainOptions, WorldFault};

/// A few facts of the world of a component.
#[derive(Drop)]
pub(crate) struct Summary {
    /// The bytes of its first adapter, trimmed; none, where it has no adapter.
    pub(crate) trimmed: Vec<u8>,
    /// The functions that core modules import of the first interface that the world imports.
    pub(crate) lowered: Vec<Lowered>,
    /// The types that core modules need of the first interface that they need types of.
    pub(crate) live: Vec<TypeId>,
}

/// An imported function, or the drop of a resource, and how it is met.
#[derive(Drop)]
pub(crate) struct Lowered {
    pub(crate) name: String,
    /// Whether it is there before the main module is.
    pub(crate) is_direct: bool,
    /// The bits of its canonical options.
    pub(crate) options: u8,
}

/// Makes the world of a component, and reads of it what an encoder reads first.
pub(crate) fn read_world(alloc: Global, encoder: &ComponentEncoder) -> Result<Summary, WorldFault>
    ensures { IfOk result (λ s. (w : ComponentWorldView)
        × IsWorldOf plain_options encoder.now w × IsSummary w s) }
{
    let world = ComponentWorld::new(alloc, encoder, &PlainOptions)?;
    Ok(summary_of(alloc, &world)?)
}

fn summary_of(alloc: Global, world: &ComponentWorld<'_>) -> Result<Summary, AllocError>
    ensures { IfOk result (IsSummary (world_view world.now)) }
{
    let trimmed = trimmed_bytes(alloc, world)?;
    let lowered = lowered_functions(alloc, world)?;
    let live = live_types(alloc, world)?;
    Ok(Summary {
        trimmed,
        lowered,
        live,
    })
}

fn trimmed_bytes(alloc: Global, world: &ComponentWorld<'_>) -> Result<Vec<u8>, AllocError>
    ensures { IfOk result (λ bytes. bytes.items ≡ first_bytes (world_view world.now)) }
{
    match world.adapters.first() {
        Some((_name, adapter)) => Vec::from_slice(alloc, adapter.wasm.as_slice()),
        None => Ok(Vec::new(alloc)),
    }
}

fn live_types(alloc: Global, world: &ComponentWorld<'_>) -> Result<Vec<TypeId>, AllocError>
    ensures { IfOk result (λ types. map (λ t. t.0) types.items
        ≡ first_live (world_view world.now)) }
{
    match world.live_type_imports.first() {
        Some((_interface, types)) => Vec::from_slice(alloc, types.as_slice()),
        None => Ok(Vec::new(alloc)),
    }
}

fn lowered_functions(alloc: Global, world: &ComponentWorld<'_>) -> Result<Vec<Lowered>, AllocError>
    ensures { IfOk result (λ all. map lowered_view all.items
        ≡ first_lowered (world_view world.now)) }
{
    match world.import_map.first() {
        Some((_interface, imported)) => all_lowered(alloc, &imported.lowerings),
        None => Ok(Vec::new(alloc)),
    }
}

fn all_lowered(
    alloc: Global,
    lowerings: &Map<(String, AbiVariant), Lowering>,
) -> Result<Vec<Lowered>, AllocError>
    ensures { IfOk result (λ all. map lowered_view all.items
        ≡ map lowered_entry (map lowering_entry lowerings.now.entries)) }
{
    let mut all = Vec::new(alloc);
    for (key, lowering) in lowerings.iter() {
        all.push(one_lowered(alloc, key, lowering)?)?;
    }
    Ok(all)
}

fn one_lowered(
    alloc: Global,
    key: &(String, AbiVariant),
    lowering: &Lowering,
) -> Result<Lowered, AllocError>
    ensures { IfOk result
        (λ l. lowered_view l ≡ lowered_entry (lowering_entry (key.now, lowering.now))) }
{
    let name = String::from_str(alloc, &key.0)?;
    Ok(Lowered {
        name,
        is_direct: is_direct(lowering),
        options: needed_options(lowering),
    })
}

/// A function of which the signature alone is known stands in for one that is lowered later.
fn is_direct(lowering: &Lowering) -> bool
    ensures { result ≡ is_direct (lowering_view lowering.now) }
{
    match lowering {
        Lowering::Direct { .. } => true,
        Lowering::Indirect { .. } => false,
        Lowering::ResourceDrop(_) => true,
    }
}

/// The bits of its options. A drop has none.
fn needed_options(lowering: &Lowering) -> u8
    ensures { result ≡ needed_options (lowering_view lowering.now) }
{
    match lowering {
        Lowering::Direct { options } => options.bits(),
        Lowering::Indirect { options, .. } => options.bits(),
        Lowering::ResourceDrop(_) => 0,
    }
}

/// Whether the tasks of a component can use slot 1 of their context.
pub(crate) fn can_use_slot_1(alloc: Global, encoder: &ComponentEncoder) -> Result<bool, WorldFault>
    ensures { IfOk result (λ answer. (w : ComponentWorldView)
        × IsWorldOf plain_options encoder.now w × (IsTrue answer ↔ IsSlot1Used w)) }
{
    let world = ComponentWorld::new(alloc, encoder, &PlainOptions)?;
    Ok(world.can_use_context_slot_1())
}
