//! Imports of a core module from its component.

ghost use Rattle.std.specs.Prelude.{◌≡◌, IfOk};
ghost use Rattle.wc_names.specs.Payloads.{HasPayload, IsPayload};

use std::alloc::{AllocError, Global};
use wc_adapters::{Item, StringEncoding};
use wc_read::{ExportKind, FuncType, MemoryType, ValType};
use wc_resolve::{
    AbiVariant, Function, InterfaceId, Resolve, TypeDefKind, TypeId, WitType, WorldKey,
};

/// The future or stream type that a built-in is for.
#[derive(Debug, PartialEq, Eq, Hash, Drop)]
pub enum PayloadType {
    /// A future or stream type, and the name of a function that has it in a parameter or in its result.
    Typed { id: TypeId, function: String },
    /// A `future` without a payload, of no type of the `Resolve`.
    UnitFuture,
    /// A `stream` without a payload, of no type of the `Resolve`.
    UnitStream,
}

impl PayloadType {
    ghost use Rattle.wc_names.specs.Views.{payload_type_view};

    /// A copy of this type: the same id and function name, or the same type without a payload.
    ///
    /// # Errors
    ///
    /// `AllocError`: an allocation failed.
    pub fn clone(&self, alloc: Global) -> Result<PayloadType, AllocError>
        ensures { IfOk result (λ ty. payload_type_view ty ≡ payload_type_view self.now) }
    {
        match self {
            PayloadType::Typed { id, function } => Ok(PayloadType::Typed {
                id: *id,
                function: String::from_str(alloc, function)?,
            }),
            PayloadType::UnitFuture => Ok(PayloadType::UnitFuture),
            PayloadType::UnitStream => Ok(PayloadType::UnitStream),
        }
    }
}

/// The future or stream that a built-in is for, and the function by which the built-in's name picks it.
#[derive(Debug, PartialEq, Eq, Hash, Drop)]
pub struct PayloadInfo {
    /// The name of the import, without `[async-lower]`.
    pub name: String,
    /// The future or stream type.
    pub ty: PayloadType,
    /// The key of the function's interface, or `name` if it is a function of the world itself.
    pub key: WorldKey,
    /// The function's interface, if it has one.
    pub interface: Option<InterfaceId>,
    /// Whether the function is imported; else it is exported.
    pub imported: bool,
}

impl PayloadInfo {
    ghost use Rattle.wc_names.specs.Views.{payload_view};

    /// A copy of this value: the same name, type, key, interface and flag.
    ///
    /// # Errors
    ///
    /// `AllocError`: an allocation failed.
    pub fn clone(&self, alloc: Global) -> Result<PayloadInfo, AllocError>
        ensures { IfOk result (λ info. payload_view info ≡ payload_view self.now) }
    {
        Ok(PayloadInfo {
            name: String::from_str(alloc, &self.name)?,
            ty: self.ty.clone(alloc)?,
            key: self.key.clone(alloc)?,
            interface: self.interface,
            imported: self.imported,
        })
    }

    /// The type of what the future or stream carries; `None` if it carries nothing.
    ///
    /// The type of `ty`, if it has one, must be a future or a stream of the `Resolve`.
    pub fn payload(&self, resolve: &Resolve) -> Option<WitType>
        requires { HasPayload resolve.now (payload_view self.now).ty }
        ensures { IsPayload resolve.now (payload_view self.now).ty result }
    {
        match &self.ty {
            PayloadType::Typed { id, .. } => match resolve.type_def(*id).kind {
                TypeDefKind::Future(payload) | TypeDefKind::Stream(payload) => payload,
                _ => unreachable!(),
            },
            PayloadType::UnitFuture | PayloadType::UnitStream => None,
        }
    }
}

/// The meaning of a core module's import, by its name: a function, a canonical built-in (component model, "Canonical
/// built-ins"), or an item of another module of the component.
#[derive(Debug, Drop)]
pub enum Import {
    /// A function that the world imports: its key, its name, and how it is lowered.
    WorldFunc(WorldKey, String, AbiVariant),
    /// A function of an interface that the world imports: the interface's key and id, the function's name, and how it
    /// is lowered.
    InterfaceFunc(WorldKey, InterfaceId, String, AbiVariant),
    /// `resource.drop` of an imported resource: the key of its interface, or its own name if it is of the world itself;
    /// the interface, if it has one; and its type.
    ImportedResourceDrop(WorldKey, Option<InterfaceId>, TypeId),
    /// `resource.drop` of an exported resource: the key of its interface, or its own name if it is of the world itself;
    /// and its type.
    ExportedResourceDrop(WorldKey, TypeId),
    /// `resource.new`, as above.
    ExportedResourceNew(WorldKey, TypeId),
    /// `resource.rep`, as above.
    ExportedResourceRep(WorldKey, TypeId),
    /// A function that an adapter exports.
    AdapterExport {
        adapter: String,
        func: String,
        ty: FuncType,
    },
    /// The memory of the main module.
    MainModuleMemory(MemoryType),
    /// Any other export of the main module.
    MainModuleExport {
        name: String,
        kind: ExportKind,
    },
    /// An item that is passed to a library.
    Item(Item),
    /// `task.return` of an exported function: the key of its interface, or its own name if it is of the world itself;
    /// the interface, if it has one; and the function.
    ExportedTaskReturn(WorldKey, Option<InterfaceId>, Function),
    /// `task.cancel`.
    ExportedTaskCancel,
    /// `context.get` of a slot of this type.
    ContextGet {
        ty: ValType,
        slot: u32,
    },
    /// `context.set` of a slot of this type.
    ContextSet {
        ty: ValType,
        slot: u32,
    },
    /// Reads the pointer to a thread's local storage.
    TlsBaseGet {
        ty: ValType,
    },
    /// Writes the pointer to a thread's local storage.
    TlsBaseSet {
        ty: ValType,
    },
    /// `error-context.new`.
    ErrorContextNew {
        encoding: StringEncoding,
    },
    /// `error-context.debug-message`.
    ErrorContextDebugMessage {
        encoding: StringEncoding,
    },
    /// `error-context.drop`.
    ErrorContextDrop,
    /// `backpressure.inc`.
    BackpressureInc,
    /// `backpressure.dec`.
    BackpressureDec,
    /// `waitable-set.new`.
    WaitableSetNew,
    /// `waitable-set.wait`.
    WaitableSetWait,
    /// `waitable-set.poll`.
    WaitableSetPoll,
    /// `waitable-set.drop`.
    WaitableSetDrop,
    /// `waitable.join`.
    WaitableJoin,
    /// `subtask.drop`.
    SubtaskDrop,
    /// `subtask.cancel`; `async_`: without waiting.
    SubtaskCancel {
        async_: bool,
    },
    /// `thread.index`.
    ThreadIndex,
    /// `thread.new-indirect`.
    ThreadNewIndirect,
    /// `thread.resume-later`.
    ThreadResumeLater,
    /// `thread.suspend`.
    ThreadSuspend,
    /// `thread.yield`.
    ThreadYield,
    /// `thread.suspend-then-resume`.
    ThreadSuspendThenResume,
    /// `thread.yield-then-resume`.
    ThreadYieldThenResume,
    /// `thread.suspend-then-promote`.
    ThreadSuspendThenPromote,
    /// `thread.yield-then-promote`.
    ThreadYieldThenPromote,
    /// `stream.new`.
    StreamNew(PayloadInfo),
    /// `stream.read`; `async_`: without waiting.
    StreamRead {
        async_: bool,
        info: PayloadInfo,
    },
    /// `stream.write`; `async_`: without waiting.
    StreamWrite {
        async_: bool,
        info: PayloadInfo,
    },
    /// `stream.forward`.
    StreamForward(PayloadInfo),
    /// `stream.cancel-read`; `async_`: without waiting.
    StreamCancelRead {
        info: PayloadInfo,
        async_: bool,
    },
    /// `stream.cancel-write`; `async_`: without waiting.
    StreamCancelWrite {
        info: PayloadInfo,
        async_: bool,
    },
    /// `stream.drop-readable`.
    StreamDropReadable(PayloadInfo),
    /// `stream.drop-writable`.
    StreamDropWritable(PayloadInfo),
    /// `future.new`.
    FutureNew(PayloadInfo),
    /// `future.read`; `async_`: without waiting.
    FutureRead {
        async_: bool,
        info: PayloadInfo,
    },
    /// `future.write`; `async_`: without waiting.
    FutureWrite {
        async_: bool,
        info: PayloadInfo,
    },
    /// `future.forward`.
    FutureForward(PayloadInfo),
    /// `future.cancel-read`; `async_`: without waiting.
    FutureCancelRead {
        info: PayloadInfo,
        async_: bool,
    },
    /// `future.cancel-write`; `async_`: without waiting.
    FutureCancelWrite {
        info: PayloadInfo,
        async_: bool,
    },
    /// `future.drop-readable`.
    FutureDropReadable(PayloadInfo),
    /// `future.drop-writable`.
    FutureDropWritable(PayloadInfo),
}

/// A function that a world imports: one of its own, or one of an interface that it imports.
#[derive(Clone, Copy, Debug)]
pub struct FunctionImport<'a> {
    /// The key and the id of the function's interface; `None` if it is a function of the world itself.
    pub interface: Option<(&'a WorldKey, InterfaceId)>,
    /// The function's name.
    pub name: &'a str,
    /// How it is lowered.
    pub abi: AbiVariant,
}

impl Import {
    ghost use Rattle.std.specs.Option.{option_map};
    ghost use Rattle.wc_names.specs.Views.{function_import, function_import_view, import_view};
    ghost use Rattle.wc_names.specs.Private.Imports.{IsFunctionImport, IsFutureImport, IsItemImport, IsPlainImport, IsResourceImport, IsStreamImport, IsThreadImport, OwnsNothing};

    /// The function of the world, or of an interface that it imports, that this import is; `None` if it is none, as a
    /// built-in and what another module of the component exports are.
    pub fn function(&self) -> Option<FunctionImport<'_>>
        ensures { option_map function_import_view result ≡ function_import (import_view self.now) }
    {
        match self {
            Import::WorldFunc(_, name, abi) => Some(FunctionImport {
                interface: None,
                name,
                abi: *abi,
            }),
            Import::InterfaceFunc(key, id, name, abi) => Some(FunctionImport {
                interface: Some((key, *id)),
                name,
                abi: *abi,
            }),
            _ => None,
        }
    }

    /// A copy of this import.
    ///
    /// # Errors
    ///
    /// `AllocError`: an allocation failed.
    pub fn clone(&self, alloc: Global) -> Result<Import, AllocError>
        ensures { IfOk result (λ i. import_view i ≡ import_view self.now) }
    {
        match self {
            Import::WorldFunc(..) | Import::InterfaceFunc(..) => self.clone_function(alloc),
            Import::AdapterExport { .. }
            | Import::MainModuleExport { .. }
            | Import::Item(_)
            | Import::ExportedTaskReturn(..) => self.clone_item(alloc),
            Import::ImportedResourceDrop(..)
            | Import::ExportedResourceDrop(..)
            | Import::ExportedResourceNew(..)
            | Import::ExportedResourceRep(..) => self.clone_resource(alloc),
            Import::StreamNew(_)
            | Import::StreamRead { .. }
            | Import::StreamWrite { .. }
            | Import::StreamForward(_)
            | Import::StreamCancelRead { .. }
            | Import::StreamCancelWrite { .. }
            | Import::StreamDropReadable(_)
            | Import::StreamDropWritable(_) => self.clone_stream(alloc),
            Import::FutureNew(_)
            | Import::FutureRead { .. }
            | Import::FutureWrite { .. }
            | Import::FutureForward(_)
            | Import::FutureCancelRead { .. }
            | Import::FutureCancelWrite { .. }
            | Import::FutureDropReadable(_)
            | Import::FutureDropWritable(_) => self.clone_future(alloc),
            _ => Ok(self.copy()),
        }
    }

    /// A copy of a function of the world or of one of its interfaces.
    fn clone_function(&self, alloc: Global) -> Result<Import, AllocError>
        requires { IsFunctionImport (import_view self.now) }
        ensures { IfOk result (λ i. import_view i ≡ import_view self.now) }
    {
        match self {
            Import::WorldFunc(key, name, abi) => Ok(Import::WorldFunc(
                key.clone(alloc)?,
                String::from_str(alloc, name)?,
                *abi,
            )),
            Import::InterfaceFunc(key, id, name, abi) => Ok(Import::InterfaceFunc(
                key.clone(alloc)?,
                *id,
                String::from_str(alloc, name)?,
                *abi,
            )),
            _ => unreachable!(),
        }
    }

    /// A copy of an item of another module or of a library, or of `task.return`.
    fn clone_item(&self, alloc: Global) -> Result<Import, AllocError>
        requires { IsItemImport (import_view self.now) }
        ensures { IfOk result (λ i. import_view i ≡ import_view self.now) }
    {
        match self {
            Import::AdapterExport { adapter, func, ty } => Ok(Import::AdapterExport {
                adapter: String::from_str(alloc, adapter)?,
                func: String::from_str(alloc, func)?,
                ty: ty.clone(alloc)?,
            }),
            Import::MainModuleExport { name, kind } => Ok(Import::MainModuleExport {
                name: String::from_str(alloc, name)?,
                kind: *kind,
            }),
            Import::Item(item) => Ok(Import::Item(item.clone(alloc)?)),
            Import::ExportedTaskReturn(key, interface, function) => Ok(Import::ExportedTaskReturn(
                key.clone(alloc)?,
                *interface,
                function.clone(alloc)?,
            )),
            _ => unreachable!(),
        }
    }

    /// A copy of a built-in of a resource.
    fn clone_resource(&self, alloc: Global) -> Result<Import, AllocError>
        requires { IsResourceImport (import_view self.now) }
        ensures { IfOk result (λ i. import_view i ≡ import_view self.now) }
    {
        match self {
            Import::ImportedResourceDrop(key, interface, id) => {
                Ok(Import::ImportedResourceDrop(key.clone(alloc)?, *interface, *id))
            }
            Import::ExportedResourceDrop(key, id) => {
                Ok(Import::ExportedResourceDrop(key.clone(alloc)?, *id))
            }
            Import::ExportedResourceNew(key, id) => {
                Ok(Import::ExportedResourceNew(key.clone(alloc)?, *id))
            }
            Import::ExportedResourceRep(key, id) => {
                Ok(Import::ExportedResourceRep(key.clone(alloc)?, *id))
            }
            _ => unreachable!(),
        }
    }

    /// A copy of a built-in of a stream.
    fn clone_stream(&self, alloc: Global) -> Result<Import, AllocError>
        requires { IsStreamImport (import_view self.now) }
        ensures { IfOk result (λ i. import_view i ≡ import_view self.now) }
    {
        match self {
            Import::StreamNew(info) => Ok(Import::StreamNew(info.clone(alloc)?)),
            Import::StreamForward(info) => Ok(Import::StreamForward(info.clone(alloc)?)),
            Import::StreamDropReadable(info) => Ok(Import::StreamDropReadable(info.clone(alloc)?)),
            Import::StreamDropWritable(info) => Ok(Import::StreamDropWritable(info.clone(alloc)?)),
            Import::StreamRead { async_, info } => Ok(Import::StreamRead {
                async_: *async_,
                info: info.clone(alloc)?,
            }),
            Import::StreamWrite { async_, info } => Ok(Import::StreamWrite {
                async_: *async_,
                info: info.clone(alloc)?,
            }),
            Import::StreamCancelRead { info, async_ } => Ok(Import::StreamCancelRead {
                info: info.clone(alloc)?,
                async_: *async_,
            }),
            Import::StreamCancelWrite { info, async_ } => Ok(Import::StreamCancelWrite {
                info: info.clone(alloc)?,
                async_: *async_,
            }),
            _ => unreachable!(),
        }
    }

    /// A copy of a built-in of a future.
    fn clone_future(&self, alloc: Global) -> Result<Import, AllocError>
        requires { IsFutureImport (import_view self.now) }
        ensures { IfOk result (λ i. import_view i ≡ import_view self.now) }
    {
        match self {
            Import::FutureNew(info) => Ok(Import::FutureNew(info.clone(alloc)?)),
            Import::FutureForward(info) => Ok(Import::FutureForward(info.clone(alloc)?)),
            Import::FutureDropReadable(info) => Ok(Import::FutureDropReadable(info.clone(alloc)?)),
            Import::FutureDropWritable(info) => Ok(Import::FutureDropWritable(info.clone(alloc)?)),
            Import::FutureRead { async_, info } => Ok(Import::FutureRead {
                async_: *async_,
                info: info.clone(alloc)?,
            }),
            Import::FutureWrite { async_, info } => Ok(Import::FutureWrite {
                async_: *async_,
                info: info.clone(alloc)?,
            }),
            Import::FutureCancelRead { info, async_ } => Ok(Import::FutureCancelRead {
                info: info.clone(alloc)?,
                async_: *async_,
            }),
            Import::FutureCancelWrite { info, async_ } => Ok(Import::FutureCancelWrite {
                info: info.clone(alloc)?,
                async_: *async_,
            }),
            _ => unreachable!(),
        }
    }

    /// A copy of an import that owns nothing: the memory of the main module, or a built-in of neither a resource, a
    /// future nor a stream.
    fn copy(&self) -> Import
        requires { OwnsNothing (import_view self.now) }
        ensures { import_view result ≡ import_view self.now }
    {
        match *self {
            Import::MainModuleMemory(ty) => Import::MainModuleMemory(ty),
            Import::ContextGet { ty, slot } => Import::ContextGet { ty, slot },
            Import::ContextSet { ty, slot } => Import::ContextSet { ty, slot },
            Import::TlsBaseGet { ty } => Import::TlsBaseGet { ty },
            Import::TlsBaseSet { ty } => Import::TlsBaseSet { ty },
            Import::ErrorContextNew { encoding } => Import::ErrorContextNew { encoding },
            Import::ErrorContextDebugMessage { encoding } => Import::ErrorContextDebugMessage {
                encoding,
            },
            Import::SubtaskCancel { async_ } => Import::SubtaskCancel { async_ },
            _ => self.copy_plain(),
        }
    }

    /// A copy of a built-in without parameters.
    fn copy_plain(&self) -> Import
        requires { IsPlainImport (import_view self.now) }
        ensures { import_view result ≡ import_view self.now }
    {
        match *self {
            Import::ExportedTaskCancel => Import::ExportedTaskCancel,
            Import::ErrorContextDrop => Import::ErrorContextDrop,
            Import::BackpressureInc => Import::BackpressureInc,
            Import::BackpressureDec => Import::BackpressureDec,
            Import::WaitableSetNew => Import::WaitableSetNew,
            Import::WaitableSetWait => Import::WaitableSetWait,
            Import::WaitableSetPoll => Import::WaitableSetPoll,
            Import::WaitableSetDrop => Import::WaitableSetDrop,
            Import::WaitableJoin => Import::WaitableJoin,
            Import::SubtaskDrop => Import::SubtaskDrop,
            _ => self.copy_thread(),
        }
    }

    /// A copy of a built-in of threads.
    fn copy_thread(&self) -> Import
        requires { IsThreadImport (import_view self.now) }
        ensures { import_view result ≡ import_view self.now }
    {
        match *self {
            Import::ThreadIndex => Import::ThreadIndex,
            Import::ThreadNewIndirect => Import::ThreadNewIndirect,
            Import::ThreadResumeLater => Import::ThreadResumeLater,
            Import::ThreadSuspend => Import::ThreadSuspend,
            Import::ThreadYield => Import::ThreadYield,
            Import::ThreadSuspendThenResume => Import::ThreadSuspendThenResume,
            Import::ThreadYieldThenResume => Import::ThreadYieldThenResume,
            Import::ThreadSuspendThenPromote => Import::ThreadSuspendThenPromote,
            Import::ThreadYieldThenPromote => Import::ThreadYieldThenPromote,
            _ => unreachable!(),
        }
    }
}
