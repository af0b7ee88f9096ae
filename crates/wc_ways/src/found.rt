//! The imports of a component's modules that are asked about.

ghost use Rattle.std.specs.Prelude.{◌≡◌, ℕ, IfOk, List, OnOk, map};
ghost use Rattle.wc_import_paths.specs.MainModules.{main_view};
ghost use Rattle.wc_names.specs.Views.{import_view};
ghost use Rattle.wc_paths.specs.Counts.{counts_value};
ghost use Rattle.wc_read.specs.Imports.{ImportValue, import_value, import_values};
ghost use Rattle.wc_summary.specs.Leads.{as_number};
ghost use Rattle.wc_why.specs.Texts.{text_of};
ghost use Rattle.wc_why.specs.Tree.{tree_import_view};
ghost use Rattle.wc_world.specs.Views.{NamedWorldAdapter};
ghost use Rattle.wc_world.specs.WorldViews.{world_view};
ghost use Rattle.wc_ways.specs.Found.{adapter_found, adapters_found, found_as, found_in, found_under, found_with, imports_found, records_found};
ghost use Rattle.wc_ways.specs.Private.AskedKeys.{IsAskedOf};
ghost use Rattle.wc_ways.specs.Private.Found.{Finds, WhereAsked};
ghost use Rattle.wc_ways.specs.Private.Modules.{AreAdapterModules, AreModulesOf, ArePlaces, IsModuleWith, code_in, codes_in};
ghost use Rattle.wc_ways.specs.Private.Wanted.{wanted_view};

use crate::asked::own_name;
use crate::asked_keys::AskedKeys;
use crate::modules::{AdapterModule, ImportPlaces, Modules, main_rows};
use crate::originals::recorded_at;
use crate::parts::{as_number, number_named};
use crate::wanted::{Wanted, What};
use std::alloc::{AllocError, Global};
use wc_import_paths::ModuleRows;
use wc_names::Import as Recorded;
use wc_paths::{PathItem, import_items};
use wc_read::Import;
use wc_validate::ImportMap;
use wc_why::{Target, TreeImport};
use wc_world::ComponentWorld;

/// The keys that are asked about, for the imports of a part.
#[derive(Clone, Copy)]
struct Asking<'s, 'a> {
    keys: &'s AskedKeys<'a>,
    /// The position of the part.
    part: usize,
    /// Its rows: the items that each item names.
    rows: &'s ModuleRows,
}

/// The imports that are asked about: of the main module, and then of each adapter and library.
pub(crate) fn found_in<'a>(
    alloc: Global,
    world: &'a ComponentWorld<'a>,
    keys: &AskedKeys<'a>,
    modules: &'a Modules<'a>,
) -> Result<Vec<Wanted<'a>>, AllocError>
    requires { AreModulesOf (world_view world.now) modules.now }
    ensures { (key : List ℕ) → IsAskedOf (world_view world.now) key keys.now
        → IfOk result (λ v. map wanted_view v.items ≡ found_in (world_view world.now) key
        (main_view modules.now.main) (codes_in modules.now)) }
{
    let mut wanted = Vec::new(alloc);
    let main = Asking {
        keys,
        part: 0,
        rows: main_rows(&modules.main),
    };
    put_records(main, &world.info.imports, &modules.places, &mut wanted)?;
    put_adapters(alloc, keys, &modules.adapters, &mut wanted)?;
    Ok(wanted)
}

/// Appends the imports of all adapters and libraries that are asked about.
fn put_adapters<'a>(
    alloc: Global,
    keys: &AskedKeys<'a>,
    adapters: &'a [AdapterModule<'a>],
    wanted: &mut Vec<Wanted<'a>>,
) -> Result<(), AllocError>
    ensures { WhereAsked keys.now (λ w key. AreAdapterModules w w.adapters adapters.now
        → OnOk result (Finds wanted.old.items wanted.new.items
        (adapters_found w key (map code_in adapters.now)))) }
{
    for index in 0..adapters.len() {
        put_adapter(alloc, keys, index + 1, &adapters[index], wanted)?;
    }
    Ok(())
}

/// Appends the imports of an adapter or a library that are asked about: the part at this position.
fn put_adapter<'a>(
    alloc: Global,
    keys: &AskedKeys<'a>,
    part: usize,
    adapter: &'a AdapterModule<'a>,
    wanted: &mut Vec<Wanted<'a>>,
) -> Result<(), AllocError>
    ensures { WhereAsked keys.now (λ w key. (y : NamedWorldAdapter) (bytes : List ℕ)
        → IsModuleWith y bytes adapter.now → OnOk result (Finds wanted.old.items wanted.new.items
        (adapter_found w key part y (code_in adapter.now)))) }
{
    let asking = Asking {
        keys,
        part,
        rows: &adapter.rows,
    };
    let records = &adapter.info.imports;
    if adapter.is_library {
        put_records(asking, records, &adapter.places, wanted)
    } else {
        put_imports(alloc, asking, records, &adapter.code.imports, wanted)
    }
}

/// Appends recorded imports that are asked about, in the order of the records.
fn put_records<'a>(
    asking: Asking<'_, 'a>,
    records: &'a ImportMap,
    places: &ImportPlaces<'a>,
    wanted: &mut Vec<Wanted<'a>>,
) -> Result<(), AllocError>
    ensures { let a = asking.entry in WhereAsked a.keys.now (λ w key. (is : List ImportValue)
        → ArePlaces is places.now.entries → OnOk result (Finds wanted.old.items wanted.new.items
        (records_found w key a.part (counts_value a.rows.now.counts) is records.now))) }
{
    for (module, name, recorded) in records.imports() {
        let import = TreeImport { module, name };
        let number = number_named(asking.rows, places, import);
        put_import(asking, import, recorded, number, wanted)?;
    }
    Ok(())
}

/// Appends the imports of a module that are asked about, in the order of the file.
fn put_imports<'a>(
    alloc: Global,
    asking: Asking<'_, 'a>,
    records: &'a ImportMap,
    imports: &'a [Import<'a>],
    wanted: &mut Vec<Wanted<'a>>,
) -> Result<(), AllocError>
    ensures { let a = asking.entry in WhereAsked a.keys.now (λ w key. OnOk result
        (Finds wanted.old.items wanted.new.items (imports_found w key a.part
        (counts_value a.rows.now.counts) (import_values imports.now) records.now))) }
{
    let items = import_items(alloc, imports)?;
    for position in 0..imports.len() {
        put_from_file(asking, records, &imports[position], items[position], wanted)?;
    }
    Ok(())
}

/// Appends an import of a module that is asked about, if it is recorded.
fn put_from_file<'a>(
    asking: Asking<'_, 'a>,
    records: &'a ImportMap,
    import: &'a Import<'a>,
    item: PathItem,
    wanted: &mut Vec<Wanted<'a>>,
) -> Result<(), AllocError>
    ensures { let a = asking.entry in WhereAsked a.keys.now (λ w key. OnOk result
        (Finds wanted.old.items wanted.new.items (found_as w key a.part
        (as_number (counts_value a.rows.now.counts) item) records.now (import_value import.now)))) }
{
    let (module, name) = (import.module, import.name);
    match recorded_at(records, module, name) {
        Some(recorded) => {
            let number = as_number(asking.rows, item);
            put_import(
                asking,
                TreeImport { module, name },
                recorded,
                number,
                wanted,
            )
        }
        None => Ok(()),
    }
}

/// Appends an import for each interface to which it belongs that is asked about, if its item is there.
fn put_import<'a>(
    asking: Asking<'_, 'a>,
    import: TreeImport<'a>,
    recorded: &'a Recorded,
    number: Option<usize>,
    wanted: &mut Vec<Wanted<'a>>,
) -> Result<(), AllocError>
    ensures { let a = asking.entry in WhereAsked a.keys.now (λ w key. OnOk result
        (Finds wanted.old.items wanted.new.items (found_with w key a.part
        import.entry.«module».now import.entry.name.now (import_view recorded.now) number))) }
{
    match number {
        Some(item) => match asking.keys.interfaces(recorded) {
            Some(interfaces) => {
                let name = own_name(import.name, recorded);
                put_under(interfaces, name, import, (asking.part, item), wanted)
            }
            None => Ok(()),
        },
        None => Ok(()),
    }
}

/// Appends an import under each of these interfaces, with its item: the position of the part, and the number there.
fn put_under<'a>(
    interfaces: &[&'a str],
    name: &'a str,
    import: TreeImport<'a>,
    place: (usize, usize),
    wanted: &mut Vec<Wanted<'a>>,
) -> Result<(), AllocError>
    ensures { OnOk result (Finds wanted.old.items wanted.new.items
        (map (found_under name.now (tree_import_view import.entry) place.0 place.1)
        (map text_of interfaces.now))) }
{
    let target = Target {
        part: place.0,
        item: place.1,
        is_asked: true,
    };
    for interface in interfaces {
        wanted.push(Wanted {
            what: What::Import {
                interface,
                name,
                import,
            },
            target,
        })?;
    }
    Ok(())
}
