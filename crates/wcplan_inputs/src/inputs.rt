//! The inputs of a command: the worlds, the main module and the adapters, from its files.

ghost use Rattle.std.specs.Prelude.{◌≡◌, ◌≢◌, ◌<◌, IfErr, IfOk, None, OnOk, length, map};
ghost use Rattle.std.specs.List.{AllZip};
ghost use Rattle.wc_adapters.specs.Adapters.{adapter_entry};
ghost use Rattle.wc_dedupe.specs.Dedupe.{renames_in};
ghost use Rattle.wc_encoder.specs.EncoderParts.{given_in, given_view};
ghost use Rattle.wc_resolve.specs.Views.{key_view};
ghost use Rattle.wc_selection.specs.KeyNames.{request_keys};
ghost use Rattle.wc_selection.specs.Keys.{AreKeysApart, named_key, texts_of};
ghost use Rattle.wc_selection.specs.ModuleKeys.{required_keys};
ghost use Rattle.wc_selection.specs.Requests.{request_value};
ghost use Rattle.wc_maps.specs.Texts.{AreDistinct, first_parts};
ghost use Rattle.wc_program.specs.Files.{FailsToRead};
ghost use Rattle.wcplan_inputs.specs.Arguments.{command_view};
ghost use Rattle.wcplan_inputs.specs.Asked.{IsAskedThere};
ghost use Rattle.wcplan_inputs.specs.ModuleKeys.{AreNamesThere, adapter_names, request_of};
ghost use Rattle.wcplan_inputs.specs.Inputs.{IsInputCause, AreWorldsIn, IsEncoderOf, IsListed, IsListedCause, IsMainCause, IsMainIn, IsNoExport, IsPartsCause, IsPartsWith};
ghost use Rattle.wcplan_inputs.specs.SharedKeys.{AreUnshared, IsUnsharedAmong};
ghost use Rattle.wcplan_inputs.specs.Private.AdapterFiles.{IsAdapterOf};
ghost use Rattle.wcplan_inputs.specs.Private.Inputs.{AreModulesIn, AreRequested, AreSharedModules, IsUnchecked, scope_in};
ghost use Rattle.wcplan_inputs.specs.Private.Causes.{IsOfMain};
ghost use Rattle.wcplan_inputs.specs.Private.SharedKeys.{exported_scope, file_bytes};

use crate::adapter_files::{AdapterFile, read_adapters, requested_adapters};
use crate::adapter_names::no_adapter;
use crate::arguments::Command;
use crate::asked::check_asked;
use crate::documents::{read_file, read_worlds};
use crate::exporter_fault::ExporterFault;
use crate::fault::{ProgramFault, SelectionFault};
use crate::heap::heaped;
use crate::listing::listing;
use crate::module_keys::{
    adapter_request, check_names, command_keys, key_request, task_hook, text_pairs,
};
use crate::shared_keys::{ExportedWorld, is_open, shared_keys};
use std::alloc::{AllocError, Global};
use std::borrow::CowSlice;
use wc_dedupe::DedupeFault;
use wc_encoder::{Adapter, ComponentEncoder, EncoderParts, Metadata};
use wc_maps::{Map, Seed, Set};
use wc_program::FileStore;
use wc_read::ReadPlace;
use wc_resolve::WorldKey;
use wc_selection::{Exporter, KeyRequest, MainModule, RequestFault, required_keys};
use wc_texts::Refused;

/// The encoder of a command, from its files, on the heap.
pub fn read_encoder<'a, F: FileStore>(
    alloc: Global,
    seed: Seed,
    command: &Command<'a>,
    files: &F,
) -> Result<Box<ComponentEncoder>, ProgramFault<'a>>
    ensures encoder { IfOk result (λ e. IsEncoderOf (command_view command.now)
        (F.held files.now) e.value) }
    ensures fault { IfErr result (IsInputCause (command_view command.now) (F.held files.now)
        (FailsToRead F.read_fails files.now)) }
{
    let chosen = chosen_world(alloc, seed, command, files)?;
    let read = read_parts(alloc, seed, command, chosen, files)?;
    let encoder = ComponentEncoder::build_given(alloc, read.parts, read.given)?;
    Ok(heaped(alloc, encoder)?)
}

/// The worlds of a command with the one that it names, and the keys of this one's exports.
#[derive(Drop)]
struct ChosenWorld {
    metadata: Metadata,
    /// Each with the text by which the command gives it (`command_keys`).
    keys: Vec<(WorldKey, String)>,
}

/// The worlds of a command, from their file. The names of adapters and the keys that it gives are checked.
fn chosen_world<'a, F: FileStore>(
    alloc: Global,
    seed: Seed,
    command: &Command<'a>,
    files: &F,
) -> Result<ChosenWorld, ProgramFault<'a>>
    ensures worlds { IfOk result (λ w. AreWorldsIn (command_view command.now) (F.held files.now)
        w.metadata.resolve w.metadata.world.0) }
    ensures keys { IfOk result (λ w. map named_key w.keys.items
        ≡ request_keys (request_of (command_view command.now)) w.metadata.resolve
        w.metadata.world.0) }
    ensures differ { IfOk result (λ w. AreKeysApart (map named_key w.keys.items)) }
    ensures there { IfOk result (λ w. AreNamesThere (command_view command.now)
        (map named_key w.keys.items)) }
    ensures asked { IfOk result (λ w. IsAskedThere (command_view command.now).why
        w.metadata.resolve w.metadata.world.0) }
    ensures fault { IfErr result (IsInputCause (command_view command.now) (F.held files.now)
        (FailsToRead F.read_fails files.now)) }
{
    let metadata = read_worlds(alloc, seed, command, files)?;
    match checked_keys(alloc, seed, command, &metadata) {
        Ok(keys) => Ok(ChosenWorld { metadata, keys }),
        Err(fault) => Err(fault),
    }
}

/// The keys of the exports of the world of a command. The names of adapters and the keys that it gives are checked.
fn checked_keys<'a>(
    alloc: Global,
    seed: Seed,
    command: &Command<'a>,
    metadata: &Metadata,
) -> Result<Vec<(WorldKey, String)>, ProgramFault<'a>>
    requires { metadata.now.world.0 < length metadata.now.resolve.worlds }
    ensures keys { IfOk result (λ v. map named_key v.items
        ≡ request_keys (request_of (command_view command.now)) metadata.now.resolve
        metadata.now.world.0) }
    ensures differ { IfOk result (λ v. AreKeysApart (map named_key v.items)) }
    ensures there { IfOk result (λ v. AreNamesThere (command_view command.now)
        (map named_key v.items)) }
    ensures asked { OnOk result (IsAskedThere (command_view command.now).why
        metadata.now.resolve metadata.now.world.0) }
    ensures fault { IfErr result (IsUnchecked (command_view command.now) metadata.now.resolve
        metadata.now.world.0) }
{
    let keys = command_keys(alloc, seed, command, &metadata.resolve, metadata.world)?;
    check_listed(alloc, seed, command, &keys)?;
    check_asked(alloc, command.why, &metadata.resolve, metadata.world)?;
    Ok(keys)
}

/// Checks the names of adapters and the keys of a command, as `check_names` does. The fault of an unknown key carries
/// the list of exports, and the fault of an unknown adapter the list of adapters.
fn check_listed<'a>(
    alloc: Global,
    seed: Seed,
    command: &Command<'a>,
    keys: &[(WorldKey, String)],
) -> Result<(), ProgramFault<'a>>
    ensures there { OnOk result (AreNamesThere (command_view command.now)
        (map named_key keys.now)) }
    ensures fault { IfErr result (IsListedCause (command_view command.now)
        (map named_key keys.now)) }
{
    match check_names(alloc, seed, command, keys) {
        Ok(()) => Ok(()),
        Err(fault) => Err(listed_fault(alloc, command, fault, keys)),
    }
}

/// A fault of names; for an unknown key it is the fault of `no_export`, and for an unknown adapter the fault of
/// `no_adapter`.
fn listed_fault<'a>(
    alloc: Global,
    command: &Command<'a>,
    fault: SelectionFault<'a>,
    keys: &[(WorldKey, String)],
) -> ProgramFault<'a>
    ensures { IsListed (command_view command.now) fault.entry (map named_key keys.now) result }
{
    match fault {
        SelectionFault::Request(RequestFault::UnknownKey(key)) => no_export(alloc, key, keys),
        SelectionFault::UnknownAdapter(name) => no_adapter(alloc, &command.adapters, name),
        _ => ProgramFault::from(fault),
    }
}

/// The fault of an unknown key, with the list of exports.
fn no_export<'a>(alloc: Global, key: &'a str, keys: &[(WorldKey, String)]) -> ProgramFault<'a>
    ensures { IsNoExport (texts_of (map named_key keys.now)) key.entry result }
{
    match listing(alloc, keys) {
        Ok(listing) => ProgramFault::NoExport(key, listing),
        Err(AllocError) => ProgramFault::Memory,
    }
}

/// The parts of an encoder, and the main module's bytes in its file, where some imports were renamed.
#[derive(Drop)]
struct ReadParts {
    parts: EncoderParts,
    given: Option<Vec<u8>>,
}

/// The parts of the encoder of a command, with its modules from their files.
fn read_parts<'a, F: FileStore>(
    alloc: Global,
    seed: Seed,
    command: &Command<'a>,
    chosen: ChosenWorld,
    files: &F,
) -> Result<ReadParts, ProgramFault<'a>>
    requires world { chosen.metadata.world.0 < length chosen.metadata.resolve.worlds }
    requires keys { AreKeysApart (map named_key chosen.keys.items) }
    requires names { AreDistinct (adapter_names (command_view command.now)) }
    ensures parts { IfOk result (λ p. IsPartsWith (command_view command.now) (F.held files.now)
        (map named_key chosen.keys.items) (given_view p.given p.parts)) }
    ensures metadata { IfOk result (λ p. p.parts.metadata ≡ chosen.metadata) }
    ensures fault { IfErr result (IsPartsCause (command_view command.now) (F.held files.now)
        (FailsToRead F.read_fails files.now)
        (scope_in (command_view command.now) chosen)
        (map named_key chosen.keys.items)) }
{
    match read_modules(alloc, seed, command, &chosen, files) {
        Ok(modules) => {
            let CommandModules {
                main,
                requested,
                task_hook,
            } = modules;
            let parts = EncoderParts {
                module: main.wasm,
                module_import_map: main.import_map,
                metadata: chosen.metadata,
                main_module_exports: requested.main_exports,
                adapters: requested.adapters,
                reject_legacy_names: command.reject_legacy_names,
                realloc_via_memory_grow: command.realloc_via_memory_grow,
                task_hook,
            };
            let given = main.given;
            Ok(ReadParts { parts, given })
        }
        Err(fault) => Err(fault),
    }
}

/// The modules of a command, with the keys that they must export, and the name of the task hook.
#[derive(Drop)]
struct CommandModules {
    main: MainModule,
    requested: RequestedModules,
    task_hook: String,
}

/// The modules of a command, from their files.
#[tactic(auto, using(crate::proofs::ProgramLemmas::main_parts, crate::proofs::ProgramLemmas::adapters_parts))]
fn read_modules<'a, F: FileStore>(
    alloc: Global,
    seed: Seed,
    command: &Command<'a>,
    chosen: &ChosenWorld,
    files: &F,
) -> Result<CommandModules, ProgramFault<'a>>
    requires world { chosen.now.metadata.world.0 < length chosen.now.metadata.resolve.worlds }
    requires keys { AreKeysApart (map named_key chosen.now.keys.items) }
    requires names { AreDistinct (adapter_names (command_view command.now)) }
    ensures modules { IfOk result (AreModulesIn (command_view command.now) (F.held files.now)
        (scope_in (command_view command.now) chosen.now)
        (map named_key chosen.now.keys.items)) }
    ensures fault { IfErr result (IsPartsCause (command_view command.now) (F.held files.now)
        (FailsToRead F.read_fails files.now)
        (scope_in (command_view command.now) chosen.now)
        (map named_key chosen.now.keys.items)) }
{
    let main = read_main(alloc, command.main, files)?;
    let adapters = read_adapters(alloc, command, files)?;
    let modules = ModuleFiles {
        main: &main.wasm,
        adapters,
    };
    let requested = requested_modules(alloc, seed, command, chosen, modules)?;
    let task_hook = task_hook(alloc, command)?;
    Ok(CommandModules {
        main: Box::into_inner(main),
        requested,
        task_hook,
    })
}

/// The main module in the file of this path, with its repeated imports renamed, on the heap.
#[tactic(auto, using(crate::proofs::ProgramLemmas::unread_main))]
fn read_main<'a, F: FileStore>(
    alloc: Global,
    path: &'a str,
    files: &F,
) -> Result<Box<MainModule>, ProgramFault<'a>>
    ensures main { IfOk result (λ m. IsMainIn (F.held files.now) path.now
        (given_in m.value.given m.value.wasm.items) m.value.wasm.items
        (renames_in m.value.import_map)) }
    ensures fault { IfErr result (IsMainCause (F.held files.now)
        (FailsToRead F.read_fails files.now) path.now) }
{
    let bytes = read_file(path, files)?;
    match MainModule::new_explained(alloc, CowSlice::Owned(bytes)) {
        Ok(main) => Ok(heaped(alloc, main)?),
        Err(refused) => Err(main_fault(refused)),
    }
}

/// The fault of the program for a main module that is refused.
fn main_fault<'a>(refused: Refused<DedupeFault, ReadPlace>) -> ProgramFault<'a>
    ensures { IsOfMain refused result }
{
    match refused.fault {
        DedupeFault::Memory => ProgramFault::Memory,
        _ => ProgramFault::Dedupe(refused),
    }
}

/// The keys that the main module must export, and the adapters with the keys that they must export.
#[derive(Drop)]
struct RequestedModules {
    main_exports: Set<WorldKey>,
    adapters: Map<String, Adapter>,
}

/// The bytes of the main module, and the files of adapters.
#[derive(Drop)]
struct ModuleFiles<'m, 'a> {
    main: &'m [u8],
    adapters: Vec<AdapterFile<'a>>,
}

/// The keys that the modules of a command must export. The maps and sets that are made hash under `seed`.
fn requested_modules(
    alloc: Global,
    seed: Seed,
    command: &Command<'_>,
    chosen: &ChosenWorld,
    files: ModuleFiles<'_, '_>,
) -> Result<RequestedModules, ExporterFault>
    requires world { chosen.now.metadata.world.0 < length chosen.now.metadata.resolve.worlds }
    requires keys { AreKeysApart (map named_key chosen.now.keys.items) }
    requires names { AreDistinct (first_parts (map file_bytes files.adapters.items)) }
    ensures requested { IfOk result (AreRequested (command_view command.now)
        (scope_in (command_view command.now) chosen.now) files.entry.main.now
        (map file_bytes files.entry.adapters.items) (map named_key chosen.now.keys.items)) }
    ensures fault { IfErr result (AreUnshared (command_view command.now)
        (scope_in (command_view command.now) chosen.now) files.entry.main.now
        (map file_bytes files.entry.adapters.items) (map named_key chosen.now.keys.items)) }
{
    let ModuleFiles { main, adapters } = files;
    if is_open(command) {
        let world = exported_world(command, chosen);
        shared_modules(alloc, seed, world, main, adapters)
    } else {
        let request = key_request(command);
        Ok(modules_with(alloc, seed, &request, &chosen.keys, adapters)?)
    }
}

/// The keys that a main module of these bytes, and adapters, must export, if the command names none. The maps and
/// sets that are made hash under `seed`.
fn shared_modules<'x>(
    alloc: Global,
    seed: Seed,
    world: ExportedWorld<'x, 'x>,
    main: &[u8],
    adapters: Vec<AdapterFile<'_>>,
) -> Result<RequestedModules, ExporterFault>
    requires keys { AreKeysApart (map named_key world.keys.now) }
    requires names { AreDistinct (first_parts (map file_bytes adapters.items)) }
    ensures shared { IfOk result (AreSharedModules (exported_scope world.entry) main.now
        (map file_bytes adapters.entry.items) (map named_key world.entry.keys.now)) }
    ensures fault { IfErr result (λ f. f ≢ ExporterFault.Memory → IsUnsharedAmong
        (exported_scope world.entry) main.now (map file_bytes adapters.entry.items)
        (map named_key world.entry.keys.now) f) }
{
    let given = shared_keys(alloc, seed, world, main, &adapters)?;
    let pairs = text_pairs(alloc, &given)?;
    let request = adapter_request(&pairs);
    Ok(modules_with(alloc, seed, &request, world.keys, adapters)?)
}

/// Modules with the keys that they must export by a request. The maps and sets that are made hash under `seed`.
fn modules_with(
    alloc: Global,
    seed: Seed,
    request: &KeyRequest<'_, '_>,
    keys: &[(WorldKey, String)],
    adapters: Vec<AdapterFile<'_>>,
) -> Result<RequestedModules, AllocError>
    requires keys { AreKeysApart (map named_key keys.now) }
    requires names { AreDistinct (first_parts (map file_bytes adapters.items)) }
    ensures exports { IfOk result (λ m. map key_view m.main_exports.keys
        ≡ required_keys (request_value request.now) None (map named_key keys.now)) }
    ensures adapters { IfOk result (λ m. AllZip (IsAdapterOf (request_value request.now)
        (map named_key keys.now)) (map file_bytes adapters.entry.items)
        (map adapter_entry m.adapters.entries)) }
{
    let main_exports = required_keys(alloc, seed, request, Exporter::Main, keys)?;
    let adapters = requested_adapters(alloc, seed, request, keys, adapters)?;
    Ok(RequestedModules {
        main_exports,
        adapters,
    })
}

/// The exports of the world of a command, with the keys by which the command gives them.
fn exported_world<'c>(command: &Command<'_>, chosen: &'c ChosenWorld) -> ExportedWorld<'c, 'c>
    requires { chosen.now.metadata.world.0 < length chosen.now.metadata.resolve.worlds }
    ensures scope { exported_scope result ≡ scope_in (command_view command.now) chosen.now }
    ensures keys { map named_key result.keys.now ≡ map named_key chosen.now.keys.items }
{
    let resolve = &chosen.metadata.resolve;
    ExportedWorld {
        resolve,
        exports: &resolve.world(chosen.metadata.world).exports,
        keys: &chosen.keys,
        rejects_legacy: command.reject_legacy_names,
    }
}
