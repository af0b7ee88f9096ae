//! The files of adapters: their bytes, and the adapters that an encoder is given of them.

ghost use Rattle.std.specs.Prelude.{◌≡◌, IfErr, IfOk, List, OnOk, map, string_eq};
ghost use Rattle.std.specs.List.{AllZip};
ghost use Rattle.indexmap.specs.IndexMap.{insert_entry};
ghost use Rattle.wc_adapters.specs.Adapters.{adapter_entry};
ghost use Rattle.wc_program.specs.Files.{FailsToRead};
ghost use Rattle.wc_selection.specs.AdapterKeys.{AreAdapterKeys};
ghost use Rattle.wc_selection.specs.Keys.{AreKeysApart, NamedKey, named_key};
ghost use Rattle.wc_selection.specs.Requests.{RequestValue, request_value};
ghost use Rattle.wc_maps.specs.Texts.{AreDistinct, first_parts};
ghost use Rattle.wcplan_inputs.specs.Arguments.{command_view};
ghost use Rattle.wcplan_inputs.specs.Inputs.{IsAdaptersCause, IsFileIn};
ghost use Rattle.wcplan_inputs.specs.Private.AdapterFiles.{IsAdapterOf, IsAdded};
ghost use Rattle.wcplan_inputs.specs.Private.SharedKeys.{file_bytes};

use crate::arguments::Command;
use crate::documents::read_file;
use crate::fault::ProgramFault;
use std::alloc::{AllocError, Global};
use wc_encoder::Adapter;
use wc_maps::{Map, Seed};
use wc_program::FileStore;
use wc_resolve::WorldKey;
use wc_selection::{AdapterKeys, KeyRequest};

/// An adapter by its name, with the bytes of its file.
#[derive(Drop)]
pub(crate) struct AdapterFile<'a> {
    pub(crate) name: &'a str,
    pub(crate) wasm: Vec<u8>,
}

/// The adapters of a command, with the bytes of their files, in order.
///
/// # Errors
///
/// - `CannotRead`: an adapter could not be read; they are read in order.
/// - `Memory`: an allocation failed.
pub(crate) fn read_adapters<'a, F: FileStore>(
    alloc: Global,
    command: &Command<'a>,
    files: &F,
) -> Result<Vec<AdapterFile<'a>>, ProgramFault<'a>>
    ensures read { IfOk result (λ v. AllZip (IsFileIn (F.held files.now))
        (command_view command.now).adapters (map file_bytes v.items)) }
    ensures fault { IfErr result (IsAdaptersCause (command_view command.now)
        (FailsToRead F.read_fails files.now)) }
{
    let mut read = Vec::new(alloc);
    for (name, path) in &command.adapters {
        let wasm = read_file(path, files)?;
        read.push(AdapterFile { name, wasm })?;
    }
    Ok(read)
}

/// Adapters with the keys that a request says that they have to export. `seed`: the seed of the maps that are made.
///
/// # Errors
///
/// `AllocError`: an allocation failed.
pub(crate) fn requested_adapters(
    alloc: Global,
    seed: Seed,
    request: &KeyRequest<'_, '_>,
    keys: &[(WorldKey, String)],
    files: Vec<AdapterFile<'_>>,
) -> Result<Map<String, Adapter>, AllocError>
    requires keys { AreKeysApart (map named_key keys.now) }
    requires names { AreDistinct (first_parts (map file_bytes files.items)) }
    ensures { IfOk result (λ m. AllZip (IsAdapterOf (request_value request.now)
        (map named_key keys.now)) (map file_bytes files.entry.items)
        (map adapter_entry m.entries)) }
{
    let given = AdapterKeys::new(alloc, seed, request, keys)?;
    given_adapters(alloc, seed, &given, files)
}

/// Adapters with the keys that they have to export. `seed`: the seed of the map that is made.
fn given_adapters(
    alloc: Global,
    seed: Seed,
    given: &AdapterKeys<'_, '_>,
    files: Vec<AdapterFile<'_>>,
) -> Result<Map<String, Adapter>, AllocError>
    requires { AreDistinct (first_parts (map file_bytes files.items)) }
    ensures { (q : RequestValue) (keys : List NamedKey) → AreAdapterKeys q keys given.now
        → IfOk result (λ m. AllZip (IsAdapterOf q keys) (map file_bytes files.entry.items)
        (map adapter_entry m.entries)) }
{
    let mut adapters = Map::with_hasher(alloc, seed);
    for file in files {
        add_adapter(alloc, given, file, &mut adapters)?;
    }
    Ok(adapters)
}

/// Puts the adapter of a file, with the keys that it has to export, under its name.
fn add_adapter(
    alloc: Global,
    given: &AdapterKeys<'_, '_>,
    file: AdapterFile<'_>,
    adapters: &mut Map<String, Adapter>,
) -> Result<(), AllocError>
    ensures { (q : RequestValue) (keys : List NamedKey) → AreAdapterKeys q keys given.now
        → OnOk result (IsAdded q keys (file_bytes file.entry) adapters.old.entries
        adapters.new.entries) }
{
    let (name, adapter) = requested_adapter(alloc, given, file)?;
    insert_adapter(adapters, name, adapter)?;
    Ok(())
}

/// Puts an adapter under its name, in place of one that is there.
fn insert_adapter(
    adapters: &mut Map<String, Adapter>,
    name: String,
    adapter: Adapter,
) -> Result<(), AllocError>
    ensures { OnOk result (adapters.new.entries
        ≡ insert_entry string_eq adapters.old.entries name adapter) }
{
    adapters.insert(name, adapter)?;
    Ok(())
}

/// An adapter with the keys that it has to export, after its name.
fn requested_adapter(
    alloc: Global,
    given: &AdapterKeys<'_, '_>,
    file: AdapterFile<'_>,
) -> Result<(String, Adapter), AllocError>
    ensures { (q : RequestValue) (keys : List NamedKey) → AreAdapterKeys q keys given.now
        → IfOk result (λ p. IsAdapterOf q keys (file_bytes file.entry) (adapter_entry p)) }
{
    let AdapterFile { name, wasm } = file;
    let required_exports = given.required(alloc, name)?;
    let name = String::from_str(alloc, name)?;
    let adapter = Adapter {
        wasm,
        required_exports,
        library_info: None,
    };
    Ok((name, adapter))
}
