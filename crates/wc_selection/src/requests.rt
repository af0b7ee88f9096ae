//! The keys of a world's exports that a request gives.

ghost use Rattle.std.specs.Prelude.{◌≡◌, IfOk, map};
ghost use Rattle.wc_selection.specs.Requests.{given_keys, request_value};
ghost use Rattle.wc_maps.specs.Texts.{text_of};

use std::alloc::{AllocError, Global};

/// The keys that modules have to export, as texts.
#[derive(Clone, Copy, Debug)]
pub struct KeyRequest<'r, 'a> {
    /// Those of the main module, in order. None: all that no adapter has to export.
    pub exports: &'r [&'a str],
    /// Those of adapters, each after the name of its adapter, in order.
    pub adapter_exports: &'r [(&'a str, &'a str)],
}

/// A module that has to export something.
#[derive(Clone, Copy)]
pub enum Exporter<'a> {
    Main,
    /// The adapter of this name.
    Adapter(&'a str),
}

/// The keys that a request gives: those of the main module, and then those of adapters.
pub(crate) fn given_keys<'a>(
    alloc: Global,
    request: &KeyRequest<'_, 'a>,
) -> Result<Vec<&'a str>, AllocError>
    ensures { IfOk result (λ v. map text_of v.items ≡ given_keys (request_value request.now)) }
{
    let mut keys = Vec::new(alloc);
    keys.extend_from_slice(request.exports)?;
    for (_name, key) in request.adapter_exports {
        keys.push(*key)?;
    }
    Ok(keys)
}
