//! The imports of interfaces that the world imports under several names.

ghost use Rattle.std.specs.Prelude.{◌≡◌, IfOk, OnOk, map, string_bytes};
ghost use Rattle.wc_summary.specs.Entries.{IsChanged, entries_view};
ghost use Rattle.wc_summary.specs.Summary.{main_view, part_view};
ghost use Rattle.wc_world.specs.Views.{ComponentWorldView};
ghost use Rattle.wc_world.specs.WorldViews.{world_view};
ghost use Rattle.wc_ways.specs.Imports.{first_name, with_modules};
ghost use Rattle.wc_ways.specs.Tags.{all_key};
ghost use Rattle.wc_ways.specs.Private.AskedKeys.{IsAskedOf, imported_shown};
ghost use Rattle.wc_ways.specs.Private.SummaryShared.{IsCleared, Shares, SharesAll, SharesFirst, SharesImport, modules_in};

use crate::asked_keys::AskedKeys;
use std::alloc::{AllocError, Global};
use wc_resolve::InterfaceId;
use wc_summary::{AdapterPart, Entries, MainPart, place_of};
use wc_world::{ComponentWorld, ImportedInterface};

/// Notes of each further name of an interface what modules import of it, which is noted of its first.
pub(crate) fn share_entries(
    alloc: Global,
    world: &ComponentWorld<'_>,
    keys: &AskedKeys<'_>,
    entries: &mut Entries<'_>,
) -> Result<(), AllocError>
    requires { IsAskedOf (world_view world.now) all_key keys.now }
    ensures { OnOk result (SharesAll (world_view world.now)
        (entries_view entries.old.entries) (entries_view entries.new.entries)) }
{
    for (name, imported) in world.import_map.iter() {
        share_import(alloc, keys, (name, imported), entries)?;
    }
    Ok(())
}

/// Notes it of a name under which the world imports an interface.
fn share_import(
    alloc: Global,
    keys: &AskedKeys<'_>,
    import: (&Option<String>, &ImportedInterface),
    entries: &mut Entries<'_>,
) -> Result<(), AllocError>
    ensures { (w : ComponentWorldView) → IsAskedOf w all_key keys.now
        → OnOk result (SharesImport w (imported_shown import.entry)
        (entries_view entries.old.entries) (entries_view entries.new.entries)) }
{
    match import.0 {
        Some(name) => match import.1.interface {
            Some(id) => share_under(alloc, keys, id, name, entries),
            None => Ok(()),
        },
        None => Ok(()),
    }
}

/// Notes it of a name of this interface.
fn share_under(
    alloc: Global,
    keys: &AskedKeys<'_>,
    id: InterfaceId,
    name: &str,
    entries: &mut Entries<'_>,
) -> Result<(), AllocError>
    ensures { (w : ComponentWorldView) → IsAskedOf w all_key keys.now
        → OnOk result (SharesFirst (first_name w id.0) name.now
        (entries_view entries.old.entries) (entries_view entries.new.entries)) }
{
    match keys.first_of(id) {
        Some(first) => share_entry(alloc, first, name, entries),
        None => Ok(()),
    }
}

/// Notes of a name what modules import under another one: nothing, if that isn't listed.
fn share_entry(
    alloc: Global,
    from: &str,
    to: &str,
    entries: &mut Entries<'_>,
) -> Result<(), AllocError>
    ensures { OnOk result (Shares from.now to.now
        (entries_view entries.old.entries) (entries_view entries.new.entries)) }
{
    let Some(first) = entries.get(from) else {
        clear_entry(alloc, to, entries);
        return Ok(());
    };
    let main = copied_main(alloc, &first.main)?;
    let adapters = copied_adapters(alloc, &first.adapters)?;
    let place = place_of(alloc, entries, to)?;
    set_modules(entries, place, main, adapters);
    Ok(())
}

/// Notes that no module imports anything under a name, if it is listed.
fn clear_entry(alloc: Global, interface: &str, entries: &mut Entries<'_>)
    ensures { IsCleared interface.now
        (entries_view entries.old.entries) (entries_view entries.new.entries) }
{
    if let Some(place) = entries.get_index_of(interface) {
        let main = MainPart {
            imports: 0,
            by: Vec::new(alloc),
        };
        set_modules(entries, place, main, Vec::new(alloc));
    }
}

/// Notes what modules import of the interface at a place, in place of what was noted.
fn set_modules<'a>(
    entries: &mut Entries<'a>,
    place: usize,
    main: MainPart,
    adapters: Vec<AdapterPart<'a>>,
)
    ensures { IsChanged (with_modules (modules_in main adapters.entry.items)) place
        (entries_view entries.old.entries) (entries_view entries.new.entries) }
{
    if let Some(entry) = entries.get_index_mut(place) {
        entry.main = main;
        entry.adapters = adapters;
    }
}

/// A copy of the imports of the main module.
fn copied_main(alloc: Global, main: &MainPart) -> Result<MainPart, AllocError>
    ensures { IfOk result (λ p. main_view p ≡ main_view main.now) }
{
    let mut by = Vec::new(alloc);
    by.extend_from_slice(&main.by)?;
    Ok(MainPart {
        imports: main.imports,
        by,
    })
}

/// A copy of the imports of adapters.
fn copied_adapters<'a>(
    alloc: Global,
    parts: &[AdapterPart<'a>],
) -> Result<Vec<AdapterPart<'a>>, AllocError>
    ensures { IfOk result (λ v. map part_view v.items ≡ map part_view parts.now) }
{
    let mut copied = Vec::new(alloc);
    for part in parts {
        copied.push(copied_part(alloc, part)?)?;
    }
    Ok(copied)
}

/// A copy of the imports of an adapter.
fn copied_part<'a>(alloc: Global, part: &AdapterPart<'a>) -> Result<AdapterPart<'a>, AllocError>
    ensures { IfOk result (λ p. part_view p ≡ part_view part.now) }
{
    let exports = copied_texts(alloc, &part.exports)?;
    let stays = copied_texts(alloc, &part.stays)?;
    let roots = copied_texts(alloc, &part.roots)?;
    Ok(AdapterPart {
        adapter: part.adapter,
        is_library: part.is_library,
        imports: part.imports,
        exports,
        stays,
        roots,
        functions: part.functions,
        bytes: part.bytes,
    })
}

/// Copies of texts.
fn copied_texts(alloc: Global, texts: &[String]) -> Result<Vec<String>, AllocError>
    ensures { IfOk result (λ v. map string_bytes v.items ≡ map string_bytes texts.now) }
{
    let mut copied = Vec::new(alloc);
    for text in texts {
        copied.push(String::from_str(alloc, text)?)?;
    }
    Ok(copied)
}
