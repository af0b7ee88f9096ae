//! The names of adapters, and those that options are about.

ghost use Rattle.std.specs.Prelude.{IfErr, OnOk, map};
ghost use Rattle.wc_maps.specs.Texts.{first_parts, text_of, text_pair};
ghost use Rattle.wcwhy.specs.AdapterNames.{AreAdaptersNamed, IsNamesCause, IsNoAdapter};

use crate::fault::WhyFault;
use std::alloc::{AllocError, Global};
use wc_maps::{Seed, first_missing, first_repeated};
use wc_options::{first_parts, name_listing};

/// Checks the names of adapters, each with its path, and the exports that are asked of adapters, each after the
/// adapter's name. `seed`: the seed of the sets that are made.
///
/// # Errors
///
/// If several causes apply, the first in this order is named, and for one cause the first in the order of the
/// arguments. `Memory` may come instead of any.
///
/// - `RepeatedAdapter`: two adapters have one name.
/// - `NoAdapter`: an export is asked of an adapter that is not there. It carries what adapters there are.
/// - `Memory`: an allocation failed.
pub(crate) fn check_names<'a>(
    alloc: Global,
    seed: Seed,
    adapters: &[(&'a str, &'a str)],
    exports: &[(&'a str, &'a str)],
) -> Result<(), WhyFault<'a>>
    ensures named { OnOk result (AreAdaptersNamed (first_parts (map text_pair adapters.now))
        (first_parts (map text_pair exports.now))) }
    ensures fault { IfErr result (IsNamesCause (first_parts (map text_pair adapters.now))
        (first_parts (map text_pair exports.now))) }
{
    let names = first_parts(alloc, adapters)?;
    let asked = first_parts(alloc, exports)?;
    check_listed(alloc, seed, &names, &asked)
}

/// Checks the names of adapters, and the names of those that something is asked of.
fn check_listed<'a>(
    alloc: Global,
    seed: Seed,
    names: &[&'a str],
    asked: &[&'a str],
) -> Result<(), WhyFault<'a>>
    ensures named { OnOk result (AreAdaptersNamed (map text_of names.now)
        (map text_of asked.now)) }
    ensures fault { IfErr result (IsNamesCause (map text_of names.now)
        (map text_of asked.now)) }
{
    if let Some(name) = first_repeated(alloc, seed, names)? {
        return Err(WhyFault::RepeatedAdapter(name));
    }
    match first_missing(alloc, seed, asked, names)? {
        Some(name) => Err(no_adapter(alloc, names, name)),
        None => Ok(()),
    }
}

/// The fault of a name that none of the adapters has, with what adapters there are.
fn no_adapter<'a>(alloc: Global, names: &[&str], name: &'a str) -> WhyFault<'a>
    ensures { IsNoAdapter (map text_of names.now) name.entry result }
{
    match name_listing(alloc, names) {
        Ok(listing) => WhyFault::NoAdapter(name, listing),
        Err(AllocError) => WhyFault::Memory,
    }
}
