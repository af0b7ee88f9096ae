//! The adapters that a component needs, and the settings by which each is trimmed.

ghost use Rattle.std.specs.Prelude.{◌≡◌, ◌++◌, ◌∷◌, [], ℕ, IfOk, List, OnOk, map, option_copied};
ghost use Rattle.std.specs.List.{list_any};
ghost use Rattle.wc_resolve.specs.Views.{item_view, key_view};
ghost use Rattle.wc_resolve.specs.Ranges.{IsItemIn};
ghost use Rattle.wc_adapters.specs.Adapters.{adapter_view};
ghost use Rattle.wc_encoder.specs.Dependencies.{AreItemsIn};
ghost use Rattle.wc_adapters.specs.Entries.{entries_of};
ghost use Rattle.wc_world.specs.Trimming.{HasNames, exports_function, has_function, is_needed, main_page_size, main_realloc, page_size, required_names, trim_page_size_log2};
ghost use Rattle.wc_gc.specs.LiveItems.{names_of};
ghost use Rattle.wc_world.specs.WorldViews.{required_view};

use std::alloc::{AllocError, Global};
use wc_encoder::{Adapter, ComponentEncoder};
use wc_maps::{Map, Set};
use wc_read::{FuncType, MemoryType};
use wc_resolve::{Resolve, WorldItem, WorldKey};
use wc_validate::{ExportMap, ValidatedModule};

/// The greatest exponent of a page's bytes that adapters are trimmed with, and that of a memory that gives none.
const MAX_PAGE_SIZE_LOG2: u32 = 16;

/// The bytes in a page of the main module's memory, where it exports none.
const DEFAULT_PAGE_SIZE: u64 = 65536;

/// Whether an item is a function, or an interface that has one.
pub(crate) fn has_function(resolve: &Resolve, item: &WorldItem) -> bool
    requires { IsItemIn resolve.now (item_view item.now) }
    ensures { result ≡ has_function resolve.now (item_view item.now) }
{
    match item {
        WorldItem::Interface { id, .. } => !resolve.interface(*id).functions.is_empty(),
        WorldItem::Function(_) => true,
        WorldItem::TypeItem { .. } => false,
    }
}

/// The name of the main module's realloc that adapters import, unless they grow memory for themselves.
pub(crate) fn main_realloc<'a>(
    encoder: &ComponentEncoder,
    main: &'a ValidatedModule,
) -> Option<&'a str>
    ensures { option_copied result
        ≡ main_realloc encoder.now.realloc_via_memory_grow main.now.exports }
{
    if encoder.realloc_via_memory_grow() {
        None
    } else {
        main.exports.realloc_to_import_into_adapter()
    }
}

/// The exponent of the pages of the memory that an adapter imports, at most 16; 16, where it imports none.
pub(crate) fn trim_page_size_log2(memory: Option<MemoryType>) -> u32
    ensures { result ≡ trim_page_size_log2 memory }
{
    match memory {
        Some(memory) => memory
            .page_size_log2
            .unwrap_or(MAX_PAGE_SIZE_LOG2)
            .min(MAX_PAGE_SIZE_LOG2),
        None => MAX_PAGE_SIZE_LOG2,
    }
}

/// The bytes in a page of a memory.
pub(crate) fn page_size(memory: &MemoryType) -> u64
    ensures { result ≡ page_size memory.now }
{
    memory.page_size()
}

/// The bytes in a page of the main module's memory; 65536, where it exports none.
pub(crate) fn main_page_size(exports: &ExportMap) -> u64
    ensures { result ≡ main_page_size exports.now }
{
    match exports.memory() {
        Some((_name, memory)) => page_size(&memory),
        None => DEFAULT_PAGE_SIZE,
    }
}

/// Adds a name, unless it is there.
fn add_name(alloc: Global, names: &mut Set<String>, name: &str) -> Result<(), AllocError>
    ensures { (passed : List (List ℕ)) → HasNames names.old.keys passed
        → OnOk result (HasNames names.new.keys (passed ++ name.now ∷ [])) }
{
    names.insert_full(String::from_str(alloc, name)?)?;
    Ok(())
}

/// The names of the exports that are required of an adapter: of the functions that the main module imports, and of the
/// exports that are recorded.
pub(crate) fn required_names(
    alloc: Global,
    required: &Map<String, FuncType>,
    exports: &ExportMap,
) -> Result<Set<String>, AllocError>
    ensures { IfOk result (λ names. names_of names.keys
        ≡ required_names (required_view required.now) exports.now) }
{
    let mut names = Set::with_hasher(alloc, *required.hasher());
    for (name, _ty) in required.iter() {
        add_name(alloc, &mut names, name.as_str())?;
    }
    for (name, _export) in exports.iter() {
        add_name(alloc, &mut names, name)?;
    }
    Ok(names)
}

/// Whether what a world exports under a key is a function, or an interface that has one.
fn exports_function(resolve: &Resolve, exports: &Map<WorldKey, WorldItem>, key: &WorldKey) -> bool
    requires { AreItemsIn resolve.now (entries_of exports.now) }
    ensures { result ≡ exports_function resolve.now (entries_of exports.now) (key_view key.now) }
{
    match exports.get(key) {
        Some(item) => has_function(resolve, item),
        None => false,
    }
}

/// Whether a function is among what a world exports under these keys.
fn exports_any(resolve: &Resolve, exports: &Map<WorldKey, WorldItem>, keys: &Set<WorldKey>) -> bool
    requires { AreItemsIn resolve.now (entries_of exports.now) }
    ensures { result ≡ list_any (exports_function resolve.now (entries_of exports.now))
        (map key_view keys.now.keys) }
{
    for key in keys.iter() {
        if exports_function(resolve, exports, key) {
            return true;
        }
    }
    false
}

/// Whether an adapter is needed: it is a library, or functions are imported from it (`required`), or a function is
/// among the exports that it has to have.
pub(crate) fn is_needed(
    resolve: &Resolve,
    exports: &Map<WorldKey, WorldItem>,
    adapter: &Adapter,
    required: &Map<String, FuncType>,
) -> bool
    requires { AreItemsIn resolve.now (entries_of exports.now) }
    ensures { result ≡ is_needed resolve.now (entries_of exports.now) (adapter_view adapter.now)
        (required_view required.now) }
{
    adapter.library_info.is_some()
        || !required.is_empty()
        || exports_any(resolve, exports, &adapter.required_exports)
}
