//! Exports of a core module to its component.

use wc_read::MemoryType;
use wc_resolve::{AbiVariant, InterfaceId, TypeId, WorldKey};

/// The meaning of a core module's export, by its name.
#[derive(Debug, Drop)]
pub enum Export {
    /// A function that the world exports: its key, its name, and how it is lifted.
    WorldFunc(WorldKey, String, AbiVariant),
    /// The post-return function of a function of the world, of this key.
    WorldFuncPostReturn(WorldKey),
    /// A function of an interface that the world exports: the interface's key and id, the function's name, and how it
    /// is lifted.
    InterfaceFunc(WorldKey, InterfaceId, String, AbiVariant),
    /// The post-return function of a function of an interface: the interface's key, and the function's name.
    InterfaceFuncPostReturn(WorldKey, String),
    /// The destructor of an exported resource.
    ResourceDtor(TypeId),
    /// The memory.
    Memory(MemoryType),
    /// A realloc for all purposes that have none of their own.
    GeneralPurposeRealloc,
    /// A realloc for the parameters of exports.
    GeneralPurposeExportRealloc,
    /// A realloc for the results of imports.
    GeneralPurposeImportRealloc,
    /// A function that is called before all others.
    Initialize,
    /// A realloc for adapters.
    ReallocForAdapter,
    /// The callback of an asynchronous function of the world, of this key.
    WorldFuncCallback(WorldKey),
    /// The callback of an asynchronous function of an interface: the interface's key, and the function's name.
    InterfaceFuncCallback(WorldKey, String),
    /// The table of functions, from which threads are started.
    IndirectFunctionTable,
    /// The task hook: a function that is called as tasks begin and end.
    WasmTaskHook,
}
