//! The calls on encoders, and on items of libraries.

use std::alloc::Global;
use wc_dedupe::ModuleImportMap;
use wc_encoder::{Adapter, ComponentEncoder, Instance, Item, LibraryInfo, MainOrAdapter};
use wc_fixtures::shown_names::{put_id, put_key, put_name};
use wc_fixtures::shown_worlds::put_world;
use wc_lines::input::{Stop, bad_row};
use wc_lines::lines::Lines;
use wc_lines::values::kind_name;
use wc_maps::Set;
use wc_resolve::WorldKey;

/// Bytes in hex, none as `-`.
fn put_hex(out: &mut Lines, bytes: &[u8]) {
    if bytes.is_empty() {
        return out.push('-');
    }
    for byte in bytes {
        out.hex("", *byte);
    }
}

/// A line of a word and keys, where there are keys.
fn put_keys(out: &mut Lines, word: &str, keys: &Set<WorldKey>) {
    if keys.is_empty() {
        return;
    }
    out.push_str(word);
    for key in keys.iter() {
        out.push(' ');
        put_key(out, key);
    }
    out.end();
}

/// Appends `main`, or `adapter NAME`, and a line feed.
pub(crate) fn put_which(out: &mut Lines, which: &MainOrAdapter) {
    match which {
        MainOrAdapter::Main => out.push_str("main"),
        MainOrAdapter::Adapter(name) => {
            out.push_str("adapter ");
            put_name(out, name);
        }
    }
    out.end();
}

/// A line for an item: its alias, its kind and name, and the module that has it.
fn put_item(out: &mut Lines, item: &Item) {
    put_name(out, &item.alias);
    out.push(':');
    out.push_str(kind_name(item.kind));
    out.push(' ');
    put_name(out, &item.name);
    out.push_str(" of ");
    put_which(out, &item.which);
}

fn put_instance(out: &mut Lines, instance: &Instance) {
    match instance {
        Instance::MainOrAdapter(which) => put_which(out, which),
        Instance::Items(items) => {
            out.push_str("items\n");
            for item in items {
                out.push_str("  item ");
                put_item(out, item);
            }
        }
    }
}

fn put_library(out: &mut Lines, info: &LibraryInfo) {
    out.push_str(if info.instantiate_after_shims {
        "  library after-shims\n"
    } else {
        "  library\n"
    });
    for argument in &info.arguments {
        out.push_str("  argument ");
        put_name(out, &argument.0);
        out.push_str(" = ");
        put_instance(out, &argument.1);
    }
}

fn put_adapter(out: &mut Lines, name: &str, adapter: &Adapter) {
    out.push_str("adapter ");
    put_name(out, name);
    out.push(' ');
    put_hex(out, &adapter.wasm);
    out.end();
    put_keys(out, "  exports", &adapter.required_exports);
    if let Some(info) = &adapter.library_info {
        put_library(out, info);
    }
}

/// A line for each renamed import: its module, its name, and what it was called.
fn put_renames(out: &mut Lines, map: &ModuleImportMap) {
    let renames = map.renames();
    for index in 0..renames.len() {
        let rename = renames.at(index);
        out.push_str("renamed ");
        put_name(out, rename.module);
        out.push(' ');
        put_name(out, rename.name);
        out.push_str(" was ");
        put_name(out, rename.original);
        out.end();
    }
}

/// All fields but the `Resolve` and the adapters.
fn put_fields(out: &mut Lines, encoder: &ComponentEncoder) {
    out.push_str("module ");
    put_hex(out, encoder.module());
    out.end();
    if let Some(map) = encoder.module_import_map() {
        put_renames(out, map);
    }
    out.push_str("encode ");
    put_id(out, 'w', encoder.metadata().world.0);
    out.end();
    put_keys(out, "module-exports", encoder.main_module_exports());
    if encoder.reject_legacy_names() {
        out.push_str("reject-legacy-names\n");
    }
    if encoder.realloc_via_memory_grow() {
        out.push_str("realloc-via-memory-grow\n");
    }
    out.push_str("task-hook ");
    put_name(out, encoder.task_hook());
    out.end();
}

/// Appends the part of an encoder that the call names, or `ok`.
pub(crate) fn put_of_encoder(
    call: &str,
    encoder: &ComponentEncoder,
    out: &mut Lines,
) -> Result<(), Stop> {
    encoder.well_formedness();
    let metadata = encoder.metadata();
    match call {
        "encoder" => put_fields(out, encoder),
        "encoder_adapters" => {
            for (name, adapter) in encoder.adapters().iter() {
                put_adapter(out, name, adapter);
            }
        }
        "encoder_world" if metadata.resolve.has_world(metadata.world) => {
            put_world(
                out,
                metadata.world.0,
                metadata.resolve.world(metadata.world),
            );
        }
        "encoder_world" => return Err(bad_row(out, "no such world", call)),
        _ => out.push_str("ok\n"),
    }
    Ok(())
}

/// `item_clone`: the copy of an item, which is asked about, and whether it is of what the item is of.
pub(crate) fn put_item_copy(alloc: Global, item: &Item, out: &mut Lines) -> Result<(), Stop> {
    let copy = item.clone(alloc)?;
    put_item(out, &copy);
    out.flag("", copy.which == item.which);
    out.end();
    Ok(())
}

/// `which_clone`: the copy of what has the item that is asked about, and whether it is `main`.
pub(crate) fn put_which_copy(alloc: Global, item: &Item, out: &mut Lines) -> Result<(), Stop> {
    let copy = item.which.clone(alloc)?;
    put_which(out, &copy);
    out.flag("", copy == MainOrAdapter::Main);
    out.end();
    Ok(())
}
