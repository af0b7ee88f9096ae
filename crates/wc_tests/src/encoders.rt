//! Encoders of rows: a message, which is JSON, and the bytes of its modules.

use std::alloc::{AllocError, Global};
use std::borrow::CowSlice;
use wc_dedupe::ModuleImportMap;
use wc_encoder::{Adapter, ComponentEncoder, EncoderParts, Metadata};
use wc_fixtures::read::{json_text, made};
use wc_json::{AdapterMessage, Document, KeyMessage, Message, WorldName, message_from_json};
use wc_lines::input::{Stop, bad_row, bytes_of, lines_after};
use wc_lines::lines::Lines;
use wc_lines::rows::Row;
use wc_lines::seeds::row_seed;
use wc_maps::{Map, Set};
use wc_resolve::{Resolve, WorldKey};

/// A row, with its questions about an answer.
#[derive(Clone, Copy)]
pub(crate) struct Asked<'a> {
    pub(crate) row: &'a Row<'a>,
}

/// Builds the encoder of a row from the message in its JSON, the main module in the lines `module BYTES`, and the
/// adapters in the lines `adapter NAME BYTES`. The lengths in the message are ignored. If an argument of the call is
/// `deduped`, the repeated imports of the main module are renamed first.
pub(crate) fn encoder_of(
    alloc: Global,
    row: &Row<'_>,
    out: &mut Lines,
) -> Result<ComponentEncoder, Stop> {
    let text = json_text(alloc, &row.input, out)?;
    let message = made(message_from_json(alloc, row_seed(), &text), out)?;
    let main = bytes_of(alloc, &lines_after(alloc, &row.input, "module")?, out)?;
    let others = lines_after(alloc, &row.input, "adapter")?;
    if !row.arguments.iter().any(|word| *word == "deduped") {
        return build(alloc, message, (main, None), &others, out);
    }
    let (deduped, map) = made(ModuleImportMap::new(alloc, CowSlice::Borrowed(&main)), out)?;
    let module = Vec::from_slice(alloc, deduped.as_slice())?;
    build(alloc, message, (module, map), &others, out)
}

/// Builds the encoder of a message, of a main module with the names that its imports had, and of lines of adapters.
fn build(
    alloc: Global,
    message: Message,
    main: (Vec<u8>, Option<ModuleImportMap>),
    others: &[&str],
    out: &mut Lines,
) -> Result<ComponentEncoder, Stop> {
    let Message {
        document,
        world,
        reject_legacy_names,
        realloc_via_memory_grow,
        task_hook,
        exports,
        adapters,
        ..
    } = message;
    let WorldName::Index(world) = world else {
        return Err(bad_row(out, "no index of a world", ""));
    };
    let Document { parts, .. } = document;
    let resolve = made(Resolve::build(alloc, parts), out)?;
    let main_module_exports = match exports {
        Some(keys) => keys_of(alloc, keys)?,
        None => Set::with_hasher(alloc, row_seed()),
    };
    let (module, module_import_map) = main;
    let parts = EncoderParts {
        module,
        module_import_map,
        metadata: Metadata { resolve, world },
        main_module_exports,
        adapters: adapters_of(alloc, adapters, others, out)?,
        reject_legacy_names: reject_legacy_names.unwrap_or(false),
        realloc_via_memory_grow: realloc_via_memory_grow.unwrap_or(false),
        task_hook: task_hook.unwrap_or(String::new(alloc)),
    };
    made(ComponentEncoder::build(alloc, parts), out)
}

fn keys_of(alloc: Global, messages: Vec<KeyMessage>) -> Result<Set<WorldKey>, AllocError> {
    let mut keys = Set::with_hasher(alloc, row_seed());
    for message in messages {
        keys.insert(message.key)?;
    }
    Ok(keys)
}

/// The adapters, each with the bytes in the lines that begin with its name.
fn adapters_of(
    alloc: Global,
    messages: Vec<AdapterMessage>,
    lines: &[&str],
    out: &mut Lines,
) -> Result<Map<String, Adapter>, Stop> {
    let mut adapters = Map::with_hasher(alloc, row_seed());
    for message in messages {
        let lines = lines_after(alloc, lines, &message.name)?;
        let adapter = Adapter {
            wasm: bytes_of(alloc, &lines, out)?,
            required_exports: keys_of(alloc, message.exports)?,
            library_info: message.library_info,
        };
        adapters.insert(message.name, adapter)?;
    }
    Ok(adapters)
}
