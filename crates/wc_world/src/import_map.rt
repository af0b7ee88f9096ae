//! The map of a world's imports: how each is met.

ghost use Rattle.std.specs.Prelude.{◌≡◌, ◌<◌, All, IfOk, None, OnOk, Some, length, map};
ghost use Rattle.std.specs.Option.{option_map};
ghost use Rattle.wc_resolve.specs.Dependencies.{id_of_interface};
ghost use Rattle.wc_resolve.specs.Resolve.{external_id, implemented};
ghost use Rattle.wc_resolve.specs.Ranges.{IsItemIn};
ghost use Rattle.wc_resolve.specs.Views.{item_view, key_view, world_entry};
ghost use Rattle.wc_encoder.specs.Distinct.{item_interface};
ghost use Rattle.wc_adapters.specs.Entries.{entries_of};
ghost use Rattle.wc_validate.specs.Validate.{module_record};
ghost use Rattle.wc_world.specs.Lowering.{AreKeysDistinct, IfDistinct, IsImportable, IsLowerable, all_entries, lowered, lowerings_of_interface, own_entry, own_lowerings};
ghost use Rattle.wc_world.specs.WorldViews.{adapters_view, import_map_view, imported_entry, imported_view, lowering_entry};
ghost use Rattle.wc_world.specs.Private.LoweringContext.{AddsEntryOnOk, AddsInterfaceOnOk, AreKept, ForLowerer};

use crate::adapter::WorldAdapter;
use crate::imported::{ImportedInterface, Lowering};
use crate::imported_items::imported_by;
use crate::kept_lowerings::{KeptLowerings, lowerings_under};
use crate::lowering::{KeyedLowering, Lowerings, world_lowerings};
use crate::options::ImportOptions;
use std::alloc::{AllocError, Global};
use std::rc::Rc;
use wc_encoder::ComponentEncoder;
use wc_maps::{Map, Seed};
use wc_resolve::{AbiVariant, InterfaceId, WorldItem, WorldKey};
use wc_validate::ValidatedModule;

/// The entries of imports by their names; under `None` that of the world itself.
type ImportEntries = Map<Option<String>, ImportedInterface>;

/// An interface that a world imports.
#[derive(Clone, Copy)]
pub(crate) struct InterfaceImport<'a> {
    key: &'a WorldKey,
    item: &'a WorldItem,
    id: InterfaceId,
}

/// Lowerings by their keys, in order. `seed` is that of the map.
pub(crate) fn by_keys(
    alloc: Global,
    seed: Seed,
    lowerings: Vec<KeyedLowering>,
) -> Result<Map<(String, AbiVariant), Lowering>, AllocError>
    ensures { AreKeysDistinct (map lowering_entry lowerings.items) → IfOk result (λ found.
        map lowering_entry found.entries ≡ map lowering_entry lowerings.items) }
{
    let mut found = Map::with_hasher(alloc, seed);
    for (key, lowering) in lowerings {
        found.insert(key, lowering)?;
    }
    Ok(found)
}

/// The entry of an interface that the world imports under a key.
pub(crate) fn imported_interface<O: ImportOptions>(
    alloc: Global,
    context: &Lowerings<'_, O>,
    kept: &mut KeptLowerings,
    import: InterfaceImport<'_>,
) -> Result<ImportedInterface, AllocError>
    requires there { import.id.0 < length context.now.resolve.now.interfaces }
    requires item { IsItemIn context.now.resolve.now (item_view import.item.now) }
    ensures lowerings { ForLowerer O.options_of context.now (λ l. AreKept l kept.old.entries
        → IfOk result (λ i.
        (imported_view i).lowerings ≡ lowerings_of_interface l import.entry.id.0)) }
    ensures kept { ForLowerer O.options_of context.now (λ l. AreKept l kept.old.entries
        → OnOk result (AreKept l kept.new.entries)) }
    ensures interface { IfOk result (λ i.
        (imported_view i).interface ≡ Some import.entry.id.0) }
    ensures implements { IfOk result (λ i. (imported_view i).implements
        ≡ implemented context.now.resolve.now
        (key_view import.entry.key.now) (item_view import.entry.item.now)) }
    ensures external { IfOk result (λ i. (imported_view i).external_id
        ≡ external_id (item_view import.entry.item.now)) }
{
    let resolve = context.resolve;
    let lowerings = lowerings_under(alloc, context, kept, import.key, import.id)?;
    let external_id = resolve.external_id_value(alloc, import.key, import.item)?;
    Ok(ImportedInterface {
        lowerings,
        interface: Some(import.id),
        implements: resolve.implements_interface(import.key, import.item),
        external_id,
    })
}

/// The entry of the functions and types that the world itself imports.
pub(crate) fn imported_world<O: ImportOptions>(
    alloc: Global,
    context: &Lowerings<'_, O>,
    items: &Map<WorldKey, WorldItem>,
) -> Result<ImportedInterface, AllocError>
    requires { All (λ e. IsLowerable context.now.resolve.now (item_view e.1)) items.now.entries }
    ensures lowerings { ForLowerer O.options_of context.now (λ l.
        let own = own_lowerings l (entries_of items.now) in AreKeysDistinct own
        → IfOk result (λ i. (imported_view i).lowerings ≡ own)) }
    ensures interface { IfOk result (λ i. (imported_view i).interface ≡ None) }
    ensures implements { IfOk result (λ i. (imported_view i).implements ≡ None) }
    ensures external { IfOk result (λ i. (imported_view i).external_id ≡ None) }
{
    let found = world_lowerings(alloc, context, items)?;
    let by_key = by_keys(alloc, context.seed, found)?;
    let lowerings = Rc::new(alloc, by_key)?;
    Ok(ImportedInterface {
        lowerings,
        interface: None,
        implements: None,
        external_id: None,
    })
}

/// Adds an entry whose name no other has.
fn put_entry(
    entries: &mut ImportEntries,
    name: Option<String>,
    imported: ImportedInterface,
) -> Result<(), AllocError>
    ensures { AddsEntryOnOk result entries.old entries.new (imported_entry (name, imported)) }
{
    entries.insert(name, imported)?;
    Ok(())
}

/// The interface that an item is.
fn interface_of(item: &WorldItem) -> Option<InterfaceId>
    ensures { option_map id_of_interface result ≡ item_interface (item_view item.now) }
{
    match item {
        WorldItem::Interface { id, .. } => Some(*id),
        WorldItem::Function(_) | WorldItem::TypeItem { .. } => None,
    }
}

/// Adds the entry of an interface, under its name.
fn add_interface<O: ImportOptions>(
    alloc: Global,
    context: &Lowerings<'_, O>,
    kept: &mut KeptLowerings,
    entries: &mut ImportEntries,
    import: InterfaceImport<'_>,
) -> Result<(), AllocError>
    requires item { IsImportable context.now.resolve.now
        (world_entry (import.key.now, import.item.now)) }
    requires interface { item_interface (item_view import.item.now) ≡ Some import.id.0 }
    ensures added { ForLowerer O.options_of context.now (λ l. AreKept l kept.old.entries
        → AddsInterfaceOnOk result entries.old entries.new l
        (world_entry (import.entry.key.now, import.entry.item.now))) }
    ensures kept { ForLowerer O.options_of context.now (λ l. AreKept l kept.old.entries
        → OnOk result (AreKept l kept.new.entries)) }
{
    let name = context.resolve.name_world_key(alloc, import.key)?;
    let imported = imported_interface(alloc, context, kept, import)?;
    put_entry(entries, Some(name), imported)
}

/// Adds the entry of the world itself, under no name.
fn add_own<O: ImportOptions>(
    alloc: Global,
    context: &Lowerings<'_, O>,
    entries: &mut ImportEntries,
    items: &Map<WorldKey, WorldItem>,
) -> Result<(), AllocError>
    requires { All (λ e. IsLowerable context.now.resolve.now (item_view e.1)) items.now.entries }
    ensures { ForLowerer O.options_of context.now (λ l.
        AreKeysDistinct (own_lowerings l (entries_of items.now))
        → AddsEntryOnOk result entries.old entries.new (own_entry l (entries_of items.now))) }
{
    let imported = imported_world(alloc, context, items)?;
    put_entry(entries, None, imported)
}

/// How what a world imports is met: an entry for each interface under its name, and one under `None` for all its
/// functions and types, at the position of the first of these.
fn import_entries<O: ImportOptions>(
    alloc: Global,
    context: &Lowerings<'_, O>,
    items: &Map<WorldKey, WorldItem>,
) -> Result<ImportEntries, AllocError>
    requires { All (λ e. IsImportable context.now.resolve.now (world_entry e)) items.now.entries }
    ensures { ForLowerer O.options_of context.now (λ l.
        IfDistinct l (entries_of items.now)
        (IfOk result (λ m. import_map_view m ≡ all_entries l (entries_of items.now)))) }
{
    let mut entries = Map::with_hasher(alloc, context.seed);
    let mut kept = Map::with_hasher(alloc, context.seed);
    let mut has_own = false;
    for (key, item) in items.iter() {
        if let Some(id) = interface_of(item) {
            let import = InterfaceImport { key, item, id };
            add_interface(alloc, context, &mut kept, &mut entries, import)?;
        } else if !has_own {
            add_own(alloc, context, &mut entries, items)?;
            has_own = true;
        }
    }
    Ok(entries)
}

/// How the imports of an encoder's world are met, by what its main module and its adapters import.
pub(crate) fn import_map_of<'a, O: ImportOptions>(
    alloc: Global,
    encoder: &ComponentEncoder,
    options: &O,
    main: &ValidatedModule,
    adapters: &Map<&'a str, WorldAdapter<'a>>,
) -> Result<ImportEntries, AllocError>
    ensures { IfOk result (λ m. import_map_view m ≡ lowered encoder.now
        (O.options_of options.now) (module_record main.now) (adapters_view adapters.now)) }
{
    encoder.well_formedness();
    let metadata = encoder.metadata();
    let resolve = &metadata.resolve;
    resolve.well_formedness();
    let imported = imported_by(alloc, main, adapters)?;
    let context = Lowerings {
        resolve,
        options,
        imported: &imported,
        has_memory: main.imports.imported_memory().is_some(),
        seed: *adapters.hasher(),
    };
    import_entries(alloc, &context, &resolve.world(metadata.world).imports)
}
