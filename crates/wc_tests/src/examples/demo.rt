//! A component's parts: its world as JSON, and what is said besides in code. The world is
//!
//!     package my:demo;
//!
//!     interface store {
//!       resource file {
//!         size: func() -> u32;
//!         entry: func() -> entry;
//!       }
//!       record entry { name: string, size: u32 }
//!       enum outcome { removed, missing }
//!       open: func(path: string) -> file;
//!       remove: func(path: string) -> outcome;
//!     }
//!
//!     interface names {
//!       use store.{entry};
//!       describe: func(path: string) -> entry;
//!       size: func(path: string) -> u32;
//!     }
//!
//!     world guest {
//!       import store;
//!       export names;
//!     }
//!
//! Its adapter is `old-files`. Modules for it are in the folder examples/ of the repository.

ghost use Rattle.std.specs.Prelude.{◌≡◌, ◌∷◌, [], IfOk, None, codes, map};
ghost use Rattle.wc_adapters.specs.Adapters.{adapter_entry};

use std::alloc::{AllocError, Global};
use thiserror::Error;
use wc_encoder::{Adapter, ComponentEncoder, EncoderFault, EncoderParts, Metadata};
use wc_json::{JsonFault, document_from_json};
use wc_maps::{Map, Seed, Set};
use wc_resolve::{InterfaceId, Resolve, ResolveFault, WorldId, WorldKey};

/// The interface `names`: its index in the list of interfaces.
const NAMES: InterfaceId = InterfaceId(1);

/// The world, as `wasm-tools component wit --json` prints it.
const WORLDS: &str = r#"{
  "worlds": [
    {
      "name": "guest",
      "imports": { "interface-0": { "interface": { "id": 0 } } },
      "exports": { "interface-1": { "interface": { "id": 1 } } },
      "package": 0
    }
  ],
  "interfaces": [
    {
      "name": "store",
      "types": { "file": 0, "entry": 3, "outcome": 4 },
      "functions": {
        "[method]file.size": {
          "name": "[method]file.size", "kind": { "method": 0 },
          "params": [{ "name": "self", "type": 2 }], "result": "u32"
        },
        "[method]file.entry": {
          "name": "[method]file.entry", "kind": { "method": 0 },
          "params": [{ "name": "self", "type": 2 }], "result": 3
        },
        "open": {
          "name": "open", "kind": "freestanding",
          "params": [{ "name": "path", "type": "string" }], "result": 1
        },
        "remove": {
          "name": "remove", "kind": "freestanding",
          "params": [{ "name": "path", "type": "string" }], "result": 4
        }
      },
      "package": 0
    },
    {
      "name": "names",
      "types": { "entry": 5 },
      "functions": {
        "describe": {
          "name": "describe", "kind": "freestanding",
          "params": [{ "name": "path", "type": "string" }], "result": 5
        },
        "size": {
          "name": "size", "kind": "freestanding",
          "params": [{ "name": "path", "type": "string" }], "result": "u32"
        }
      },
      "package": 0
    }
  ],
  "types": [
    { "name": "file", "kind": "resource", "owner": { "interface": 0 } },
    { "name": null, "kind": { "handle": { "own": 0 } }, "owner": null },
    { "name": null, "kind": { "handle": { "borrow": 0 } }, "owner": null },
    {
      "name": "entry",
      "kind": { "record": { "fields": [
        { "name": "name", "type": "string" }, { "name": "size", "type": "u32" }
      ] } },
      "owner": { "interface": 0 }
    },
    {
      "name": "outcome",
      "kind": { "enum": { "cases": [{ "name": "removed" }, { "name": "missing" }] } },
      "owner": { "interface": 0 }
    },
    { "name": "entry", "kind": { "type": 3 }, "owner": { "interface": 1 } }
  ],
  "packages": [
    {
      "name": "my:demo",
      "interfaces": { "store": 0, "names": 1 },
      "worlds": { "guest": 0 }
    }
  ]
}"#;

/// Why there is no encoder.
#[derive(Debug, Drop, Error)]
pub(crate) enum DemoFault {
    /// The text is not that of worlds.
    #[error("Json: {0}")]
    Json(#[from] JsonFault),
    /// The parts are not well-formed.
    #[error("Resolve: {0}")]
    Resolve(#[from] ResolveFault),
    /// The encoder's parts are not.
    #[error("Encoder: {0}")]
    Encoder(#[from] EncoderFault),
}

/// The encoder of a main module and an adapter, for the world of this file. `seed`: the seed of the maps that are made,
/// which a program draws by `Seed::drawn(&rt)`.
pub(crate) fn demo_encoder(
    alloc: Global,
    seed: Seed,
    main: &[u8],
    adapter: &[u8],
) -> Result<ComponentEncoder, DemoFault>
    ensures main { IfOk result (λ e. e.module_bytes ≡ main.now) }
    ensures adapter { IfOk result (λ e. e.adapters ≡ (
      codes "old-files",
      record {
        wasm = adapter.now;
        required_exports = [];
        library_info = None;
      },
    ) ∷ []) }
{
    let resolve = demo_resolve(alloc, seed)?;
    Ok(encoder_of(alloc, seed, main, adapter, resolve)?)
}

/// Reads the world, and has it checked.
fn demo_resolve(alloc: Global, seed: Seed) -> Result<Resolve, DemoFault> {
    let document = document_from_json(alloc, seed, WORLDS)?;
    Ok(Resolve::build(alloc, document.parts)?)
}

fn encoder_of(
    alloc: Global,
    seed: Seed,
    main: &[u8],
    adapter: &[u8],
    resolve: Resolve,
) -> Result<ComponentEncoder, EncoderFault>
    ensures main { IfOk result (λ e. e.module_bytes ≡ main.now) }
    ensures adapter { IfOk result (λ e. e.adapters ≡ (
      codes "old-files",
      record {
        wasm = adapter.now;
        required_exports = [];
        library_info = None;
      },
    ) ∷ []) }
{
    let module = Vec::from_slice(alloc, main)?;
    let main_module_exports = exported_keys(alloc, seed)?;
    let adapters = demo_adapters(alloc, seed, adapter)?;
    let parts = EncoderParts {
        module,
        module_import_map: None,
        metadata: Metadata {
            resolve,
            world: WorldId(0),
        },
        main_module_exports,
        adapters,
        reject_legacy_names: false,
        realloc_via_memory_grow: false,
        task_hook: String::new(alloc),
    };
    ComponentEncoder::build(alloc, parts)
}

/// The keys that the main module has to export: the interface `names`.
fn exported_keys(alloc: Global, seed: Seed) -> Result<Set<WorldKey>, AllocError> {
    let mut keys = Set::with_hasher(alloc, seed);
    keys.insert(WorldKey::Interface(NAMES))?;
    Ok(keys)
}

/// The adapter, under its name.
fn demo_adapters(alloc: Global, seed: Seed, wasm: &[u8]) -> Result<Map<String, Adapter>, AllocError>
    ensures { IfOk result (λ m. map adapter_entry m.entries ≡ (
      codes "old-files",
      record {
        wasm = wasm.now;
        required_exports = [];
        library_info = None;
      },
    ) ∷ []) }
{
    let adapter = Adapter {
        wasm: Vec::from_slice(alloc, wasm)?,
        required_exports: Set::with_hasher(alloc, seed),
        library_info: None,
    };
    let mut adapters = Map::with_hasher(alloc, seed);
    adapters.insert(String::from_str(alloc, "old-files")?, adapter)?;
    Ok(adapters)
}
