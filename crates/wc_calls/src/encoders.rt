//! Encoders out of messages and the bytes of their modules, and the options of lowered functions.

ghost use Rattle.std.specs.Prelude.{◌≡◌, ◌++◌, ◌<◌, IfErr, IfNone, IfOk, IfSome, List, Some, length, map, string_bytes, unwrap_or, ℕ};
ghost use Rattle.std.specs.Option.{option_map};
ghost use Rattle.wc_adapters.specs.Adapters.{adapter_entry, adapter_view, library_view};
ghost use Rattle.wc_encoder.specs.EncoderParts.{given_in};
ghost use Rattle.wc_encoder.specs.WellFormed.{IsWellFormed};
ghost use Rattle.wc_json.specs.Document.{document_view};
ghost use Rattle.wc_json.specs.Messages.{adapter_message_view, exports_view, message_view, world_name_view};
ghost use Rattle.wc_dedupe.specs.Dedupe.{IsDeduped, renames_in};
ghost use Rattle.wc_resolve.specs.ResolveParts.{parts_view};
ghost use Rattle.wc_resolve.specs.Views.{key_view};
ghost use Rattle.wc_resolve.specs.WellFormed.{IsWellFormed as AreFormed};
ghost use Rattle.wc_selection.specs.Keys.{AreKeysApart, named_key};
ghost use Rattle.wc_selection.specs.TaskHook.{no_task_hook};
ghost use Rattle.wc_selection.specs.Worlds.{IsSelected};
ghost use Rattle.wc_calls.specs.Encoders.{AreAdaptersOf, AreChosen, AreExporters, AreOptionsOf, IsEncoderOf, IsMessage, IsPartsOf, IsWorldNamed};
ghost use Rattle.wc_calls.specs.MessageFault.{IsAdaptersCause};
ghost use Rattle.wc_calls.specs.Places.{world_names};
ghost use Rattle.wc_calls.specs.Private.AskedKeys.{IsExportersCause};
ghost use Rattle.wc_calls.specs.Private.OptionTables.{table_options};
ghost use Rattle.wc_calls.specs.Private.Refusals.{AreNoParts, AreWorldsAt, IsMainRefused, IsModulesRefusal, IsNameRefusal, IsNoEncoder, IsPartsRefused, IsTextRefused, IsUnselected, IsWorldNameRefusal};

use crate::asked_keys::{AskedWorld, adapter_keys, asked_of};
use crate::heap::heaped;
use crate::import_options::OptionTable;
use crate::message_fault::MessageFault;
use crate::refusals::{
    MessagePlace, RefusedMessage, parts_refusal, renaming_refusal, text_refusal,
};
use std::alloc::{AllocError, Global};
use std::borrow::CowSlice;
use std::str;
use wc_encoder::{Adapter, ComponentEncoder, EncoderParts, LibraryInfo, Metadata};
use wc_json::{AdapterMessage, Document, Message, WorldName, message_from_json};
use wc_maps::{Map, Seed, Set};
use wc_resolve::{Parts, Resolve, WorldId, WorldKey};
use wc_selection::{KeyIndex, MainModule, RequestFault, no_task_hook, select_world, world_name};
use wc_texts::Refused;

/// The names of the worlds of a document, in order.
fn world_names(alloc: Global, document: &Document) -> Result<Vec<String>, AllocError>
    ensures { IfOk result (λ names. map string_bytes names.items
        ≡ world_names (document_view document.now)) }
{
    let mut names = Vec::new(alloc);
    for index in 0..document.parts.worlds.len() {
        names.push(world_name(alloc, document, index)?)?;
    }
    Ok(names)
}

/// A name of a world, and the names of the worlds of a document.
fn worlds_place(alloc: Global, document: &Document, name: &str) -> Result<MessagePlace, AllocError>
    ensures { IfOk result (λ place. AreWorldsAt (document_view document.now) name.now
        (Some place)) }
{
    let worlds = world_names(alloc, document)?;
    let name = String::from_str(alloc, name)?;
    Ok(MessagePlace::Worlds { name, worlds })
}

/// The refusal of a message whose world is not selected.
fn unselected(
    alloc: Global,
    document: &Document,
    fault: RequestFault<'_>,
) -> Result<RefusedMessage, AllocError>
    ensures { IfOk result (IsUnselected (document_view document.now) fault.entry) }
{
    match fault {
        RequestFault::PackageRange => Ok(Refused {
            fault: MessageFault::PackageRange,
            place: None,
        }),
        RequestFault::UnknownWorld(name) => {
            let place = worlds_place(alloc, document, name)?;
            let fault = MessageFault::UnknownWorld(String::from_str(alloc, name)?);
            Ok(Refused {
                fault,
                place: Some(place),
            })
        }
        RequestFault::SeveralWorlds(name) => {
            let place = worlds_place(alloc, document, name)?;
            let fault = MessageFault::SeveralWorlds(String::from_str(alloc, name)?);
            Ok(Refused {
                fault,
                place: Some(place),
            })
        }
        _ => Ok(Refused {
            fault: MessageFault::Memory,
            place: None,
        }),
    }
}

/// The refusal of a message whose world is not selected, or that an allocation failed.
fn world_refused(alloc: Global, document: &Document, fault: RequestFault<'_>) -> RefusedMessage
    ensures { IsUnselected (document_view document.now) fault.entry result }
{
    match unselected(alloc, document, fault) {
        Ok(refused) => refused,
        Err(e) => Refused::from(e),
    }
}

/// The id of the world of a document that a text names (`select_world`).
fn named_world(alloc: Global, document: &Document, name: &str) -> Result<WorldId, RefusedMessage>
    ensures selected { IfOk result (λ id. IsSelected (document_view document.now) name.now id.0) }
    ensures fault { IfErr result (IsNameRefusal (document_view document.now) name.now) }
{
    match select_world(alloc, document, name) {
        Ok(id) => Ok(id),
        Err(fault) => Err(world_refused(alloc, document, fault)),
    }
}

/// The id of the world of a document that a message names. An index may be out of range.
fn world_of(alloc: Global, document: &Document, name: &WorldName) -> Result<WorldId, RefusedMessage>
    ensures named { IfOk result (λ id.
        IsWorldNamed (document_view document.now) (world_name_view name.now) id.0) }
    ensures fault { IfErr result (IsWorldNameRefusal (document_view document.now)
        (world_name_view name.now)) }
{
    match name {
        WorldName::Index(id) => Ok(*id),
        WorldName::Name(name) => named_world(alloc, document, name.as_str()),
    }
}

/// The first bytes, as many as requested, and the others; `None` if there are fewer.
fn split(bytes: &[u8], count: u32) -> Option<(&[u8], &[u8])>
    ensures cut { IfSome result (λ p. bytes.now ≡ p.0.now ++ p.1.now) }
    ensures size { IfSome result (λ p. length p.0.now ≡ count) }
    ensures fewer { IfNone result (length bytes.now < count) }
{
    let count = count as usize;
    if bytes.len() < count {
        return None;
    }
    Some(bytes.split_at(count))
}

/// The adapter with these bytes, keys and library information.
fn adapter_with(
    alloc: Global,
    wasm: &[u8],
    required_exports: Set<WorldKey>,
    library_info: Option<LibraryInfo>,
) -> Result<Adapter, AllocError>
    ensures wasm { IfOk result (λ a. (adapter_view a).wasm ≡ wasm.now) }
    ensures required { IfOk result (λ a. (adapter_view a).required_exports
        ≡ map key_view required_exports.keys) }
    ensures library { IfOk result (λ a. (adapter_view a).library_info
        ≡ option_map library_view library_info) }
{
    let wasm = Vec::from_slice(alloc, wasm)?;
    Ok(Adapter {
        wasm,
        required_exports,
        library_info,
    })
}

/// The adapters of a message, each with its part of these bytes, one part after another, and with the indexed keys
/// that it must export, found by the texts in the message. The map that is made hashes under `seed`.
fn adapters_of(
    alloc: Global,
    seed: Seed,
    index: &KeyIndex<'_>,
    messages: Vec<AdapterMessage>,
    bytes: &[u8],
) -> Result<Map<String, Adapter>, MessageFault>
    ensures adapters { IfOk result (λ m. AreAdaptersOf index.now
        (map adapter_message_view messages.items) bytes.now (map adapter_entry m.entries)) }
    ensures fault { IfErr result (IsAdaptersCause
        (map adapter_message_view messages.items) bytes.now) }
{
    let mut adapters = Map::with_hasher(alloc, seed);
    let mut rest = bytes;
    for message in messages {
        let Some((wasm, others)) = split(rest, message.length) else {
            return Err(MessageFault::Lengths);
        };
        rest = others;
        if adapters.contains_key(message.name.as_str()) {
            return Err(MessageFault::AdapterTwice(message.name));
        }
        let required = adapter_keys(alloc, index, &message)?;
        let adapter = adapter_with(alloc, wasm, required, message.library_info)?;
        adapters.insert(message.name, adapter)?;
    }
    if !rest.is_empty() {
        return Err(MessageFault::Lengths);
    }
    Ok(adapters)
}

/// The adapters of a message (`adapters_of`), each with the keys among these that it must export. The keys are
/// indexed once for all adapters.
fn adapters_by_keys(
    alloc: Global,
    seed: Seed,
    keys: &[(WorldKey, String)],
    messages: Vec<AdapterMessage>,
    bytes: &[u8],
) -> Result<Map<String, Adapter>, MessageFault>
    requires { AreKeysApart (map named_key keys.now) }
    ensures adapters { IfOk result (λ m. AreAdaptersOf (map named_key keys.now)
        (map adapter_message_view messages.items) bytes.now (map adapter_entry m.entries)) }
    ensures fault { IfErr result (IsAdaptersCause
        (map adapter_message_view messages.items) bytes.now) }
{
    let index = KeyIndex::new(alloc, seed, keys)?;
    adapters_of(alloc, seed, &index, messages, bytes)
}

/// The keys that the main module must export, and the adapters with the keys that they must export.
#[derive(Drop)]
struct Exporters {
    main: Set<WorldKey>,
    adapters: Map<String, Adapter>,
}

/// The keys of a world's exports that the main module must export, and the adapters with their keys. `bytes`: the
/// bytes of the adapters. The maps that are made hash under `seed`.
fn exporters_of(
    alloc: Global,
    seed: Seed,
    world: AskedWorld<'_>,
    adapters: Vec<AdapterMessage>,
    bytes: &[u8],
) -> Result<Exporters, MessageFault>
    ensures exporters { IfOk result (λ e. AreExporters world.entry.resolve.now
        world.entry.world.0 (exports_view world.entry.exports.now)
        (map adapter_message_view adapters.items) bytes.now (map key_view e.main.keys)
        (map adapter_entry e.adapters.entries)) }
    ensures fault { IfErr result (IsExportersCause world.entry.resolve.now world.entry.world.0
        (exports_view world.entry.exports.now) (map adapter_message_view adapters.items)
        bytes.now) }
{
    let asked = asked_of(alloc, seed, world, &adapters)?;
    let adapters = adapters_by_keys(alloc, seed, &asked.keys, adapters, bytes)?;
    Ok(Exporters {
        main: asked.main,
        adapters,
    })
}

/// The name of the task hook. Without one, it is a name that makes no export the task hook (`no_task_hook`).
fn hook_name(alloc: Global, hook: Option<String>) -> Result<String, AllocError>
    ensures { IfOk result (λ name. string_bytes name
        ≡ unwrap_or (option_map string_bytes hook) no_task_hook) }
{
    match hook {
        Some(name) => Ok(name),
        None => no_task_hook(alloc),
    }
}

/// The worlds, interfaces, types and packages of a message.
fn resolve_of(alloc: Global, parts: Parts) -> Result<Resolve, RefusedMessage>
    ensures ok { IfOk result (λ r. r ≡ parts_view parts) }
    ensures formed { IfOk result AreFormed }
    ensures fault { IfErr result (IsPartsRefused (parts_view parts)) }
{
    match Resolve::build_explained(alloc, parts) {
        Ok(resolve) => Ok(resolve),
        Err(refused) => Err(parts_refusal(refused.refusal)),
    }
}

/// The main module of a message, with its repeated imports renamed.
fn main_module(alloc: Global, wasm: &[u8]) -> Result<MainModule, RefusedMessage>
    ensures dedupe { IfOk result (λ m. IsDeduped wasm.now m.wasm.items
        (renames_in m.import_map)) }
    ensures given { IfOk result (λ m. given_in m.given m.wasm.items ≡ wasm.now) }
    ensures fault { IfErr result (IsMainRefused wasm.now) }
{
    match MainModule::new_explained(alloc, CowSlice::Borrowed(wasm)) {
        Ok(main) => Ok(main),
        Err(refused) => Err(renaming_refusal(refused)),
    }
}

/// The bytes of a message's modules.
#[derive(Clone, Copy)]
struct ModuleBytes<'a> {
    main: &'a [u8],
    others: &'a [u8],
}

/// The adapters and the task hook that a message gives.
#[derive(Drop)]
struct GivenModules {
    adapters: Vec<AdapterMessage>,
    hook: Option<String>,
}

/// The parts of an encoder that come from modules: the exporters of keys, the main module, and the name of its task
/// hook.
#[derive(Drop)]
struct ModuleParts {
    exporters: Exporters,
    main: MainModule,
    hook: String,
}

/// The parts of an encoder that are made of modules.
fn module_parts(
    alloc: Global,
    seed: Seed,
    world: AskedWorld<'_>,
    given: GivenModules,
    bytes: ModuleBytes<'_>,
) -> Result<ModuleParts, RefusedMessage>
    ensures exporters { IfOk result (λ p. AreExporters world.entry.resolve.now
        world.entry.world.0 (exports_view world.entry.exports.now)
        (map adapter_message_view given.adapters.items) bytes.entry.others.now
        (map key_view p.exporters.main.keys) (map adapter_entry p.exporters.adapters.entries)) }
    ensures main { IfOk result (λ p. IsDeduped bytes.entry.main.now p.main.wasm.items
        (renames_in p.main.import_map)) }
    ensures given { IfOk result (λ p.
        given_in p.main.given p.main.wasm.items ≡ bytes.entry.main.now) }
    ensures hook { IfOk result (λ p. string_bytes p.hook
        ≡ unwrap_or (option_map string_bytes given.hook) no_task_hook) }
    ensures fault { IfErr result (IsModulesRefusal world.entry.resolve.now world.entry.world.0
        (exports_view world.entry.exports.now) (map adapter_message_view given.adapters.items)
        bytes.entry.main.now bytes.entry.others.now) }
{
    let GivenModules { adapters, hook } = given;
    let hook = hook_name(alloc, hook)?;
    let exporters = exporters_of(alloc, seed, world, adapters, bytes.others)?;
    match main_module(alloc, bytes.main) {
        Ok(main) => Ok(ModuleParts {
            exporters,
            main,
            hook,
        }),
        Err(refused) => Err(refused),
    }
}

/// The encoder of a message, for the world at an index, with the bytes of its modules.
fn encoder_for(
    alloc: Global,
    seed: Seed,
    message: Message,
    world: WorldId,
    bytes: ModuleBytes<'_>,
) -> Result<ComponentEncoder, RefusedMessage>
    ensures parts { (modules : List ℕ)
        → AreChosen (message_view message) modules world.0 bytes.entry.main.now
        bytes.entry.others.now → IfOk result (IsPartsOf (message_view message) modules) }
    ensures formed { IfOk result IsWellFormed }
    ensures fault { (modules : List ℕ)
        → AreChosen (message_view message) modules world.0 bytes.entry.main.now
        bytes.entry.others.now → IfErr result (AreNoParts (message_view message) modules) }
{
    let Message {
        document,
        world: _named,
        reject_legacy_names,
        realloc_via_memory_grow,
        task_hook,
        length: _length,
        exports,
        adapters,
        options: _options,
    } = message;
    let resolve = resolve_of(alloc, document.parts)?;
    let asked = AskedWorld {
        resolve: &resolve,
        world,
        exports: &exports,
    };
    let given = GivenModules {
        adapters,
        hook: task_hook,
    };
    let made = module_parts(alloc, seed, asked, given, bytes)?;
    let rejects = reject_legacy_names.unwrap_or(false);
    let grows = realloc_via_memory_grow.unwrap_or(false);
    let original = made.main.given;
    let parts = EncoderParts {
        module: made.main.wasm,
        module_import_map: made.main.import_map,
        metadata: Metadata { resolve, world },
        main_module_exports: made.exporters.main,
        adapters: made.exporters.adapters,
        reject_legacy_names: rejects,
        realloc_via_memory_grow: grows,
        task_hook: made.hook,
    };
    match ComponentEncoder::build_given(alloc, parts, original) {
        Ok(encoder) => Ok(encoder),
        Err(fault) => Err(Refused::without_place(MessageFault::from(fault))),
    }
}

/// The encoder of a message, with the bytes of its modules one after another, the main module first.
fn encoder_with(
    alloc: Global,
    seed: Seed,
    message: Message,
    modules: &[u8],
) -> Result<ComponentEncoder, RefusedMessage>
    ensures parts { IfOk result (IsPartsOf (message_view message) modules.now) }
    ensures formed { IfOk result IsWellFormed }
    ensures fault { IfErr result (AreNoParts (message_view message) modules.now) }
{
    let world = world_of(alloc, &message.document, &message.world)?;
    let Some((main, others)) = split(modules, message.length) else {
        return Err(Refused::without_place(MessageFault::Lengths));
    };
    encoder_for(alloc, seed, message, world, ModuleBytes { main, others })
}

/// The message of a text.
fn message_of(alloc: Global, seed: Seed, text: &str) -> Result<Message, RefusedMessage>
    ensures ok { IfOk result (λ m. IsMessage text.now (message_view m)) }
    ensures fault { IfErr result (IsTextRefused text.now) }
{
    match message_from_json(alloc, seed, text) {
        Ok(message) => Ok(message),
        Err(fault) => Err(text_refusal(alloc, seed, text, fault)),
    }
}

/// The parts that a component's world is made of.
#[derive(Drop)]
pub(crate) struct WorldInput {
    pub encoder: ComponentEncoder,
    pub options: OptionTable,
}

/// The encoder that the text of a message describes, with the bytes of its modules, and the options of lowered
/// functions. The maps that are made hash under `seed`.
fn input_of(
    alloc: Global,
    seed: Seed,
    message: &[u8],
    modules: &[u8],
) -> Result<WorldInput, RefusedMessage>
    ensures encoder { IfOk result (λ i. IsEncoderOf message.now modules.now i.encoder) }
    ensures options { IfOk result (λ i. AreOptionsOf message.now (table_options i.options)) }
    ensures fault { IfErr result (IsNoEncoder message.now modules.now) }
{
    let Ok(text) = str::from_utf8(message) else {
        return Err(Refused::without_place(MessageFault::NotText));
    };
    let message = message_of(alloc, seed, text)?;
    let options = OptionTable::listed(alloc, seed, &message.options)?;
    let encoder = encoder_with(alloc, seed, message, modules)?;
    Ok(WorldInput { encoder, options })
}

/// The encoder and the options of a message (`input_of`), on the heap.
pub(crate) fn world_input(
    alloc: Global,
    seed: Seed,
    message: &[u8],
    modules: &[u8],
) -> Result<Box<WorldInput>, RefusedMessage>
    ensures encoder { IfOk result (λ i. IsEncoderOf message.now modules.now i.value.encoder) }
    ensures options { IfOk result (λ i. AreOptionsOf message.now
        (table_options i.value.options)) }
    ensures fault { IfErr result (IsNoEncoder message.now modules.now) }
{
    match input_of(alloc, seed, message, modules) {
        Ok(input) => heaped(alloc, input),
        Err(refused) => Err(refused),
    }
}
