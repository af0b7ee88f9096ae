//! Functions of interfaces and worlds.

ghost use Rattle.std.specs.Prelude.{◌≡◌, IfOk, string_bytes};
ghost use Rattle.std.specs.Option.{option_copied};
ghost use Rattle.wc_resolve.specs.Resolve.{core_name};

use crate::{InterfaceId, TypeId, WitType, WorldId};
use std::alloc::{AllocError, Global};
use std::rc::RcSlice;

/// The kind of a function, and the resource of which it is a method, a static function or the constructor. Whether the
/// id is of a resource is not checked.
#[derive(Clone, Copy, Debug, PartialEq, Eq)]
pub enum FunctionKind {
    Freestanding,
    AsyncFreestanding,
    Method(TypeId),
    AsyncMethod(TypeId),
    Static(TypeId),
    AsyncStatic(TypeId),
    Constructor(TypeId),
}

/// How a guest imports or exports a function as a core function (component model, Canonical ABI, "canon lower" for
/// imports and "canon lift" for exports).
#[derive(Clone, Copy, Debug, PartialEq, Eq, Hash)]
pub enum AbiVariant {
    /// A synchronous import: the result is available when the call returns.
    GuestImport,
    /// A synchronous export: the result is available when the call returns.
    GuestExport,
    /// An asynchronous import: the call returns a state, and the result may be written to memory later.
    GuestImportAsync,
    /// An asynchronous export with a callback, which is called until the function is done.
    GuestExportAsync,
    /// An asynchronous export without a callback: it waits on a stack of its own until it is done.
    GuestExportAsyncStackful,
}

/// A function: its name, its kind, its parameters in order, each a name and a type, and the type of its result, if it
/// has one. The name is the key under which it is listed, such as `[method]file.read` for a method. Copies of a
/// function share its parameters.
#[derive(Debug, Drop)]
pub struct Function {
    pub name: String,
    pub kind: FunctionKind,
    pub params: RcSlice<(String, WitType)>,
    pub result: Option<WitType>,
}

/// The position of a function in a `Resolve`: in an interface, or among the items that a world imports or exports;
/// with its index there, from 0.
#[derive(Clone, Copy, Debug, PartialEq, Eq)]
pub enum FunctionPlace {
    Interface(InterfaceId, usize),
    Import(WorldId, usize),
    Export(WorldId, usize),
}

impl Function {
    ghost use Rattle.wc_resolve.specs.Views.{function_view};

    /// A copy of this function: the same name, kind, parameters and result.
    ///
    /// # Errors
    ///
    /// `AllocError`: an allocation failed.
    pub fn clone(&self, alloc: Global) -> Result<Function, AllocError>
        ensures { IfOk result (λ f. function_view f ≡ function_view self.now) }
    {
        let name = String::from_str(alloc, &self.name)?;
        let params = self.params.clone()?;
        Ok(Function {
            name,
            kind: self.kind,
            params,
            result: self.result,
        })
    }

    /// The name of the core export for this function: its name, after `interface` and `#` if `interface` is passed
    /// (the name of the interface that has the function): `run`, `my:demo/host#run`.
    ///
    /// # Errors
    ///
    /// `AllocError`: an allocation failed.
    pub fn legacy_core_export_name(
        &self,
        alloc: Global,
        interface: Option<&str>,
    ) -> Result<String, AllocError>
        ensures { IfOk result (λ text. string_bytes text ≡
            core_name (option_copied interface.entry) (function_view self.now).name) }
    {
        let name = self.name.as_str();
        match interface {
            Some(interface) => format!(in alloc; "{interface}#{name}"),
            None => String::from_str(alloc, name),
        }
    }
}
