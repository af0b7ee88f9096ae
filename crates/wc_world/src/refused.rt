//! Refusals of components, made from the refusals of their modules.

ghost use Rattle.std.specs.Prelude.{◌≡◌, ◌⊎◌, IfOk, Some};
ghost use Rattle.std.specs.Option.{option_map};
ghost use Rattle.wc_world.specs.Places.{IsInAdapter, IsInMain, read_fault_in};
ghost use Rattle.wc_world.specs.Refused.{IsAdapterRefusal, IsGivenRefusal, IsMainRefusal, IsMemoryRefusal, IsNamedRefusal, IsPlaceWith};

use crate::fault::WorldFault;
use crate::places::{ModulePlace, WorldPlace};
use std::alloc::{AllocError, Global};
use wc_encoder::ComponentEncoder;
use wc_gc::{GcFault, TrimPlace};
use wc_read::{ReadFault, module_place};
use wc_texts::Refused;
use wc_validate::{Place, Subject, ValidateFault};

/// A place of validation.
fn in_module(place: Option<Place>) -> Option<ModulePlace>
    ensures { result ≡ option_map ModulePlace.Validation place }
{
    match place {
        Some(place) => Some(ModulePlace::Validation(place)),
        None => None,
    }
}

/// A place of trimming.
fn in_part(place: Option<TrimPlace>) -> Option<ModulePlace>
    ensures { result ≡ option_map ModulePlace.Trim place }
{
    match place {
        Some(place) => Some(ModulePlace::Trim(place)),
        None => None,
    }
}

/// A place in the main module.
fn in_main(place: Option<ModulePlace>) -> Option<WorldPlace>
    ensures { IsPlaceWith IsInMain place result }
{
    match place {
        Some(place) => Some(WorldPlace {
            adapter: None,
            place,
        }),
        None => None,
    }
}

/// A place in the adapter or the library of a name.
fn in_adapter(
    alloc: Global,
    name: &str,
    place: Option<ModulePlace>,
) -> Result<Option<WorldPlace>, AllocError>
    ensures { IfOk result (IsPlaceWith (IsInAdapter name.now) place) }
{
    let Some(place) = place else {
        return Ok(None);
    };
    let adapter = Some(String::from_str(alloc, name)?);
    Ok(Some(WorldPlace { adapter, place }))
}

/// The refusal with this fault, and with this place in the adapter or the library of a name.
fn refusal_in(
    alloc: Global,
    name: &str,
    fault: WorldFault,
    place: Option<ModulePlace>,
) -> Refused<WorldFault, WorldPlace>
    ensures { IsMemoryRefusal result ⊎ ((result.fault ≡ fault)
        × IsPlaceWith (IsInAdapter name.now) place result.place) }
{
    match in_adapter(alloc, name, place) {
        Ok(place) => Refused { fault, place },
        Err(e) => Refused::from(e),
    }
}

/// The fault of reading that a fault of validation carries.
fn read_fault_in(fault: &ValidateFault) -> Option<ReadFault>
    ensures { result ≡ read_fault_in fault.now }
{
    match fault {
        ValidateFault::Read(fault) => Some(*fault),
        _ => None,
    }
}

/// The refusal of an encoder's main module, made from the refusal of its bytes, in which repeated imports may be
/// renamed (`wc_validate::validate_module_explained`). Only the place of a fault of reading changes: it is the offset
/// at which the module as it was passed is malformed (`ComponentEncoder::given_module`). If an allocation for it
/// fails, the refusal is `Memory` without a place.
pub fn as_given(
    alloc: Global,
    encoder: &ComponentEncoder,
    refused: Refused<ValidateFault, Place>,
) -> Refused<ValidateFault, Place>
    ensures { IsGivenRefusal encoder.now refused result }
{
    let Some(fault) = read_fault_in(&refused.fault) else {
        return refused;
    };
    match module_place(alloc, encoder.given_module(), fault) {
        Ok(place) => Refused {
            fault: refused.fault,
            place: Some(Place {
                subject: Subject::Bytes(place),
                types: None,
            }),
        },
        Err(AllocError) => Refused::without_place(ValidateFault::Memory),
    }
}

/// The refusal of a component whose main module was refused ([`as_given`]): `Main` with the fault, and the place in
/// the main module; `None` if the fault has no place.
pub fn main_refusal(refused: Refused<ValidateFault, Place>) -> Refused<WorldFault, WorldPlace>
    ensures { IsMainRefusal refused result }
{
    let Refused { fault, place } = refused;
    Refused {
        fault: WorldFault::Main(fault),
        place: in_main(in_module(place)),
    }
}

/// The refusal of a component whose adapter or library with this name was refused, as the encoder has it
/// (`wc_validate::validate_adapter_module_explained`). It is `Adapter` with the name and the fault, and the place in
/// this module, under its name; `None` if the fault has no place. If an allocation for the name fails, it is `Memory`
/// without a place.
pub fn adapter_refusal(
    alloc: Global,
    name: &str,
    refused: Refused<ValidateFault, Place>,
) -> Refused<WorldFault, WorldPlace>
    ensures { IsAdapterRefusal name.now refused result }
{
    let Refused { fault, place } = refused;
    match String::from_str(alloc, name) {
        Ok(own) => refusal_in(
            alloc,
            name,
            WorldFault::Adapter(own, fault),
            in_module(place),
        ),
        Err(e) => Refused::from(e),
    }
}

/// The refusal of the adapter of a name that can't be trimmed.
pub(crate) fn trim_refusal(
    alloc: Global,
    name: &str,
    refused: Refused<GcFault, TrimPlace>,
) -> Refused<WorldFault, WorldPlace>
    ensures { IsNamedRefusal (λ s. WorldFault.Trim s refused.fault) ModulePlace.Trim name.now
        refused.place result }
{
    let Refused { fault, place } = refused;
    match String::from_str(alloc, name) {
        Ok(own) => refusal_in(alloc, name, WorldFault::Trim(own, fault), in_part(place)),
        Err(e) => Refused::from(e),
    }
}

/// The refusal of the adapter of a name that is not valid once it is trimmed.
pub(crate) fn minimized_refusal(
    alloc: Global,
    name: &str,
    refused: Refused<ValidateFault, Place>,
) -> Refused<WorldFault, WorldPlace>
    ensures { IsNamedRefusal (λ s. WorldFault.Minimized s refused.fault) ModulePlace.Validation
        name.now refused.place result }
{
    let Refused { fault, place } = refused;
    match String::from_str(alloc, name) {
        Ok(own) => refusal_in(
            alloc,
            name,
            WorldFault::Minimized(own, fault),
            in_module(place),
        ),
        Err(e) => Refused::from(e),
    }
}

/// The refusal of the adapter or the library of a name, the memory of which has other pages than the main module's.
pub(crate) fn page_refusal(
    alloc: Global,
    name: &str,
    own: u64,
    main: u64,
) -> Refused<WorldFault, WorldPlace>
    ensures { IsNamedRefusal (λ s. WorldFault.PageSize s own main) (λ p. p) name.now
        (Some (ModulePlace.PageSizes own main)) result }
{
    match String::from_str(alloc, name) {
        Ok(of) => {
            let place = ModulePlace::PageSizes { own, main };
            refusal_in(
                alloc,
                name,
                WorldFault::PageSize(of, own, main),
                Some(place),
            )
        }
        Err(e) => Refused::from(e),
    }
}
