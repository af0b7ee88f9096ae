//! Lowerings of interfaces, kept: an interface that a world imports under several plain names is lowered once.

ghost use Rattle.std.specs.Prelude.{◌≡◌, ◌<◌, IfOk, OnOk, length, map};
ghost use Rattle.wc_world.specs.Lowering.{lowerings_of_interface};
ghost use Rattle.wc_world.specs.WorldViews.{lowering_entry};
ghost use Rattle.wc_world.specs.Private.LoweringContext.{AreKept, ForLowerer};

use crate::import_map::by_keys;
use crate::imported::Lowering;
use crate::lowering::{Lowerings, distinct_keys, push_interface};
use crate::options::ImportOptions;
use std::alloc::{AllocError, Global};
use std::rc::Rc;
use wc_maps::Map;
use wc_resolve::{AbiVariant, InterfaceId, WorldKey};

/// Lowerings by their keys, which all entries of an interface share.
pub(crate) type SharedLowerings = Rc<Map<(String, AbiVariant), Lowering>>;

/// Lowerings by the interfaces that they are of.
pub(crate) type KeptLowerings = Map<InterfaceId, SharedLowerings>;

/// The lowerings of an interface.
fn lowerings_of<O: ImportOptions>(
    alloc: Global,
    context: &Lowerings<'_, O>,
    id: InterfaceId,
) -> Result<SharedLowerings, AllocError>
    requires { id.0 < length context.now.resolve.now.interfaces }
    ensures { ForLowerer O.options_of context.now (λ l. IfOk result (λ found.
        map lowering_entry found.value.entries ≡ lowerings_of_interface l id.0)) }
{
    distinct_keys(context.resolve, id);
    let mut found = Vec::new(alloc);
    push_interface(alloc, context, &mut found, id)?;
    let lowerings = by_keys(alloc, context.seed, found)?;
    Ok(Rc::new(alloc, lowerings)?)
}

/// The lowerings of an interface: the kept ones, if any; otherwise they are made, and kept from now on.
fn lowerings_once<O: ImportOptions>(
    alloc: Global,
    context: &Lowerings<'_, O>,
    kept: &mut KeptLowerings,
    id: InterfaceId,
) -> Result<SharedLowerings, AllocError>
    requires { id.0 < length context.now.resolve.now.interfaces }
    ensures lowerings { ForLowerer O.options_of context.now (λ l. AreKept l kept.old.entries
        → IfOk result (λ found.
        map lowering_entry found.value.entries ≡ lowerings_of_interface l id.0)) }
    ensures kept { ForLowerer O.options_of context.now (λ l. AreKept l kept.old.entries
        → OnOk result (AreKept l kept.new.entries)) }
{
    if let Some(known) = kept.get(&id) {
        return known.clone();
    }
    let found = lowerings_of(alloc, context, id)?;
    let shared = found.clone()?;
    kept.insert(id, shared)?;
    Ok(found)
}

/// The lowerings of an interface that a world imports under this key. A world imports an interface only once under
/// its own id, so lowerings are kept for plain names alone.
pub(crate) fn lowerings_under<O: ImportOptions>(
    alloc: Global,
    context: &Lowerings<'_, O>,
    kept: &mut KeptLowerings,
    key: &WorldKey,
    id: InterfaceId,
) -> Result<SharedLowerings, AllocError>
    requires { id.0 < length context.now.resolve.now.interfaces }
    ensures lowerings { ForLowerer O.options_of context.now (λ l. AreKept l kept.old.entries
        → IfOk result (λ found.
        map lowering_entry found.value.entries ≡ lowerings_of_interface l id.0)) }
    ensures kept { ForLowerer O.options_of context.now (λ l. AreKept l kept.old.entries
        → OnOk result (AreKept l kept.new.entries)) }
{
    match key {
        WorldKey::Interface(_) => lowerings_of(alloc, context, id),
        WorldKey::Name(_) => lowerings_once(alloc, context, kept, id),
    }
}
