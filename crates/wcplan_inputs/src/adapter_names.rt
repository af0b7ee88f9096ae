//! The names of adapters, for the texts of faults.

ghost use Rattle.std.specs.Prelude.{◌≡◌, IfOk, map, string_bytes};
ghost use Rattle.std.specs.Option.{option_map};
ghost use Rattle.wc_adapters.specs.Adapters.{adapter_entry};
ghost use Rattle.wc_maps.specs.Texts.{first_parts, text_of, text_pair};
ghost use Rattle.wcplan_inputs.specs.AdapterNames.{IsNoAdapter, adapters_text, given_adapters, names_of};
ghost use Rattle.wcplan_inputs.specs.Listing.{IsListedNear};
ghost use Rattle.wcplan_inputs.specs.Nearest.{first_near};

use crate::fault::ProgramFault;
use crate::nearest::is_near;
use std::alloc::{AllocError, Global};
use wc_encoder::{Adapter, ComponentEncoder};
use wc_maps::Map;
use wc_options::{first_parts, name_listing};
use wc_validate::ValidateFault;
use wc_world::WorldFault;

/// The fault of a name that is none of some adapters', of which each comes with its path: with what adapters there are.
pub(crate) fn no_adapter<'a>(
    alloc: Global,
    adapters: &[(&'a str, &'a str)],
    name: &'a str,
) -> ProgramFault<'a>
    ensures { IsNoAdapter (first_parts (map text_pair adapters.now)) name.entry result }
{
    match no_adapter_texts(alloc, adapters, name) {
        Ok((listing, nearest)) => ProgramFault::NoAdapter(name, listing, nearest),
        Err(AllocError) => ProgramFault::Memory,
    }
}

/// Lists the names of adapters, and finds the first that is near a name.
fn no_adapter_texts(
    alloc: Global,
    adapters: &[(&str, &str)],
    name: &str,
) -> Result<(String, Option<String>), AllocError>
    ensures { IfOk result (λ t. IsListedNear (first_parts (map text_pair adapters.now))
        name.now t.0 t.1) }
{
    let names = first_parts(alloc, adapters)?;
    let listing = name_listing(alloc, &names)?;
    let nearest = near_name(alloc, &names, name)?;
    Ok((listing, nearest))
}

/// The first of some names that is near a name.
fn near_name(alloc: Global, names: &[&str], name: &str) -> Result<Option<String>, AllocError>
    ensures { IfOk result (λ r. option_map string_bytes r
        ≡ first_near name.now (map text_of names.now)) }
{
    for one in names {
        if is_near(name, one) {
            return Ok(Some(String::from_str(alloc, one)?));
        }
    }
    Ok(None)
}

/// Lists the adapters of an encoder, where a fault is that the main module imports from a module that is unknown, or
/// whose name is not of the standard scheme; `None` for all other faults.
///
/// # Errors
///
/// `AllocError`: an allocation failed.
pub(crate) fn given_adapters(
    alloc: Global,
    encoder: &ComponentEncoder,
    fault: &WorldFault,
) -> Result<Option<String>, AllocError>
    ensures { IfOk result (λ r. option_map string_bytes r
        ≡ given_adapters encoder.now fault.now) }
{
    match fault {
        WorldFault::Main(ValidateFault::UnknownInterface) => some_adapters(alloc, encoder),
        WorldFault::Main(ValidateFault::BadSyntax) => some_adapters(alloc, encoder),
        _ => Ok(None),
    }
}

/// Lists the adapters of an encoder.
fn some_adapters(alloc: Global, encoder: &ComponentEncoder) -> Result<Option<String>, AllocError>
    ensures { IfOk result (λ r. option_map string_bytes r
        ≡ Some (adapters_text (names_of encoder.now.adapters))) }
{
    let names = adapter_names(alloc, encoder.adapters())?;
    Ok(Some(adapters_text(alloc, &names)?))
}

/// The names of adapters.
fn adapter_names(alloc: Global, adapters: &Map<String, Adapter>) -> Result<Vec<&str>, AllocError>
    ensures { IfOk result (λ v. map text_of v.items
        ≡ names_of (map adapter_entry adapters.now.entries)) }
{
    let mut names = Vec::new(alloc);
    for (name, _adapter) in adapters.iter() {
        names.push(name.as_str())?;
    }
    Ok(names)
}

/// The text that lists adapters, or says that none is given.
fn adapters_text(alloc: Global, names: &[&str]) -> Result<String, AllocError>
    ensures { IfOk result (λ text. string_bytes text ≡ adapters_text (map text_of names.now)) }
{
    if names.is_empty() {
        return String::from_str(alloc, "no adapter is given: `--adapt NAME=FILE` gives one");
    }
    let listing = name_listing(alloc, names)?;
    format!(in alloc; "adapters:{listing}")
}
