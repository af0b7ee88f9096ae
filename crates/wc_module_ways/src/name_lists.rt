//! Names, listed under names.

ghost use Rattle.std.specs.Prelude.{IfOk, OnOk, map};
ghost use Rattle.wc_module_ways.specs.Names.{pair_view};
ghost use Rattle.wc_module_ways.specs.NameLists.{AreListed, ListsUnder};

use std::alloc::{AllocError, Global};
use wc_maps::{Map, Seed};

/// Lists of names under names.
pub(crate) type NameLists<'a> = Map<&'a str, Vec<&'a str>>;

/// Lists the second name of each pair under the first, in order. `seed`: the seed of the map.
pub(crate) fn list_names<'a>(
    alloc: Global,
    seed: Seed,
    pairs: &[(&'a str, &'a str)],
) -> Result<NameLists<'a>, AllocError>
    ensures { IfOk result (λ m. AreListed (map pair_view pairs.now) m.entries) }
{
    let mut lists: Map<&str, Vec<&str>> = Map::with_hasher(alloc, seed);
    for (key, name) in pairs {
        list_name(alloc, &mut lists, *key, *name)?;
    }
    Ok(lists)
}

/// Lists a name under a key, after the others of that key.
fn list_name<'a>(
    alloc: Global,
    lists: &mut NameLists<'a>,
    key: &'a str,
    name: &'a str,
) -> Result<(), AllocError>
    ensures { OnOk result (ListsUnder key.now name.now lists.old.entries lists.new.entries) }
{
    if let Some(others) = lists.get_mut(key) {
        others.push(name)?;
        return Ok(());
    }
    let mut first = Vec::new(alloc);
    first.push(name)?;
    lists.insert(key, first)?;
    Ok(())
}
