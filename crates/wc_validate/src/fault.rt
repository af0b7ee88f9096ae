//! Faults of validation: the reasons why core modules are refused.

ghost use Rattle.std.specs.Prelude.{◌≡◌, ◌≤◌, IfOk, Some};
ghost use Rattle.wc_validate.specs.Texts.{name_not_exported, not_exported_text};
ghost use Rattle.wc_validate.specs.declared.fault.ValidateFault.TheVariants.{Memory};
ghost use Rattle.wc_validate.specs.Fault.{validate_fault_number, validate_fault_text};

use std::alloc::{AllocError, AllocFailed, Global};
use std::error::Error as StdError;
use std::fmt;
use thiserror::Error;
use wc_read::ReadFault;
use wc_texts::{
    CARRIED, FaultText, OUT_OF_MEMORY, Pieces, PutFailed, put_carried, put_quoted, show,
};

/// The fault that an adapter lacks a required export, which has this name.
#[derive(Debug, Drop)]
pub struct AdapterModuleDidNotExport(String);

impl AdapterModuleDidNotExport {
    /// The name of what isn't exported.
    pub(crate) fn name(&self) -> &str
        ensures { result.now ≡ name_not_exported self.now }
    {
        self.0.as_str()
    }

    /// A copy of this value.
    ///
    /// # Errors
    ///
    /// `AllocError`: an allocation failed.
    pub fn clone(&self, alloc: Global) -> Result<AdapterModuleDidNotExport, AllocError>
        ensures { IfOk result (λ e. name_not_exported e ≡ name_not_exported self.now) }
    {
        Ok(AdapterModuleDidNotExport(String::from_str(alloc, &self.0)?))
    }
}

/// The fault that an adapter lacks an export with this name.
pub(crate) fn not_exported(alloc: Global, name: &str) -> Result<ValidateFault, AllocError>
    ensures { IfOk result (λ f. (e : AdapterModuleDidNotExport)
        × (f ≡ ValidateFault.AdapterModuleDidNotExport e)
        × (name_not_exported e ≡ name.now)) }
{
    let missing = AdapterModuleDidNotExport(String::from_str(alloc, name)?);
    Ok(ValidateFault::AdapterModuleDidNotExport(missing))
}

impl FaultText for AdapterModuleDidNotExport {
    ghost text = { λ e. not_exported_text (name_not_exported e) };

    fn put_pieces<P: Pieces>(&self, out: &mut P) -> Result<(), PutFailed> {
        put_quoted(out, "adapter module did not export", &self.0)
    }
}

impl fmt::Display for AdapterModuleDidNotExport {
    ghost output = { λ e. Some (not_exported_text (name_not_exported e)) };

    fn fmt<W: fmt::Write>(&self, f: &mut fmt::Formatter<W>) -> fmt::Result {
        show(self, f)
    }
}

impl StdError for AdapterModuleDidNotExport {}

/// Why a core module is refused.
///
/// If several causes apply, the first is named. The module is read first. Then come imports in the order of the
/// module, and for each import the faults in this order, but `SeveralMemoryImports` before `Mixed`. Then come exports
/// in the order of the module, and then missing exports, with the faults in this order. `Memory` may come instead of
/// any.
#[derive(Debug, Drop, Error)]
pub enum ValidateFault {
    /// An allocation failed.
    #[error("out of memory")]
    Memory,
    /// The bytes are neither a module nor a component.
    #[error("Read: {0}")]
    Read(ReadFault),
    /// The bytes begin with a component's header.
    #[error("NotAModule")]
    NotAModule,
    /// An import that has to be a function is none.
    #[error("NotAFunction")]
    NotAFunction,
    /// A function's type is not the one that its name fixes.
    #[error("SignatureMismatch")]
    SignatureMismatch,
    /// The world imports nothing of this name.
    #[error("NoRootImport")]
    NoRootImport,
    /// The world imports something of this name that is no function.
    #[error("RootNotFunction")]
    RootNotFunction,
    /// The name of a module doesn't begin as the standard scheme's names do.
    #[error("BadSyntax")]
    BadSyntax,
    /// The name of a module is about no interface that the world imports or exports.
    #[error("UnknownInterface")]
    UnknownInterface,
    /// A name is none of the built-ins for an exported interface.
    #[error("UnknownIntrinsic")]
    UnknownIntrinsic,
    /// An imported interface has no function, and no built-in, of this name.
    #[error("MissingFunction")]
    MissingFunction,
    /// The function whose `task.return` is imported is not exported.
    #[error("NoSuchExport")]
    NoSuchExport,
    /// A module's name stands for two modules of the component.
    #[error("WholeDiffers")]
    WholeDiffers,
    /// A module's name stands for a module of the component, and for single items too.
    #[error("Mixed")]
    Mixed,
    /// The main module's memory is imported twice.
    #[error("SeveralMemoryImports")]
    SeveralMemoryImports,
    /// Two imports share a module and a name.
    #[error("DuplicateImport")]
    DuplicateImport,
    /// A function of an adapter is imported with two types.
    #[error("AdapterTypesDiffer")]
    AdapterTypesDiffer,
    /// Two memories are exported.
    #[error("SeveralMemoryExports")]
    SeveralMemoryExports,
    /// An asynchronous function is exported without its callback.
    #[error("MissingCallback")]
    MissingCallback,
    /// A function of an interface that has to be exported is not.
    #[error("MissingInterfaceExport")]
    MissingInterfaceExport,
    /// A function of the world that has to be exported is not.
    #[error("MissingWorldExport")]
    MissingWorldExport,
    /// An adapter doesn't export what is imported from it.
    #[error("{0}")]
    AdapterModuleDidNotExport(AdapterModuleDidNotExport),
    /// An adapter exports what is imported from it with another type.
    #[error("AdapterExportType")]
    AdapterExportType,
    /// A function's type names a type of its module by an index, which means nothing in another module: that of a
    /// function which is imported from an adapter, or is imported from it by another module; or the type that a
    /// function of `env` reads or writes.
    #[error("TypedReference")]
    TypedReference,
}

impl ValidateFault {
    /// The number of the fault: its position in the enum, and 256 times the number of a fault that it carries. The
    /// name of a missing export is no part of it. It never changes.
    pub fn number(&self) -> u32
        ensures number { result ≡ validate_fault_number self.now }
        ensures bounded { result ≤ 4609 }
    {
        match self {
            ValidateFault::Memory => 0,
            ValidateFault::Read(fault) => 1 + CARRIED * fault.number(),
            ValidateFault::NotAModule => 2,
            ValidateFault::NotAFunction => 3,
            ValidateFault::SignatureMismatch => 4,
            ValidateFault::NoRootImport => 5,
            ValidateFault::RootNotFunction => 6,
            ValidateFault::BadSyntax => 7,
            ValidateFault::UnknownInterface => 8,
            ValidateFault::UnknownIntrinsic => 9,
            ValidateFault::MissingFunction => 10,
            ValidateFault::NoSuchExport => 11,
            ValidateFault::WholeDiffers => 12,
            ValidateFault::Mixed => 13,
            ValidateFault::SeveralMemoryImports => 14,
            ValidateFault::DuplicateImport => 15,
            ValidateFault::AdapterTypesDiffer => 16,
            ValidateFault::SeveralMemoryExports => 17,
            ValidateFault::MissingCallback => 18,
            ValidateFault::MissingInterfaceExport => 19,
            ValidateFault::MissingWorldExport => 20,
            ValidateFault::AdapterModuleDidNotExport(_) => 21,
            ValidateFault::AdapterExportType => 22,
            ValidateFault::TypedReference => 23,
        }
    }
}

impl FaultText for ValidateFault {
    ghost text = { validate_fault_text };

    fn put_pieces<P: Pieces>(&self, out: &mut P) -> Result<(), PutFailed> {
        match self {
            ValidateFault::Memory => out.put_piece(OUT_OF_MEMORY),
            ValidateFault::Read(fault) => put_carried(out, "Read", fault),
            ValidateFault::NotAModule => out.put_piece("NotAModule"),
            ValidateFault::NotAFunction => out.put_piece("NotAFunction"),
            ValidateFault::SignatureMismatch => out.put_piece("SignatureMismatch"),
            ValidateFault::NoRootImport => out.put_piece("NoRootImport"),
            ValidateFault::RootNotFunction => out.put_piece("RootNotFunction"),
            ValidateFault::BadSyntax => out.put_piece("BadSyntax"),
            ValidateFault::UnknownInterface => out.put_piece("UnknownInterface"),
            ValidateFault::UnknownIntrinsic => out.put_piece("UnknownIntrinsic"),
            ValidateFault::MissingFunction => out.put_piece("MissingFunction"),
            ValidateFault::NoSuchExport => out.put_piece("NoSuchExport"),
            ValidateFault::WholeDiffers => out.put_piece("WholeDiffers"),
            ValidateFault::Mixed => out.put_piece("Mixed"),
            ValidateFault::SeveralMemoryImports => out.put_piece("SeveralMemoryImports"),
            ValidateFault::DuplicateImport => out.put_piece("DuplicateImport"),
            ValidateFault::AdapterTypesDiffer => out.put_piece("AdapterTypesDiffer"),
            ValidateFault::SeveralMemoryExports => out.put_piece("SeveralMemoryExports"),
            ValidateFault::MissingCallback => out.put_piece("MissingCallback"),
            ValidateFault::MissingInterfaceExport => out.put_piece("MissingInterfaceExport"),
            ValidateFault::MissingWorldExport => out.put_piece("MissingWorldExport"),
            ValidateFault::AdapterModuleDidNotExport(missing) => missing.put_pieces(out),
            ValidateFault::AdapterExportType => out.put_piece("AdapterExportType"),
            ValidateFault::TypedReference => out.put_piece("TypedReference"),
        }
    }
}

impl From<AllocError> for ValidateFault {
    ghost from_gives = { λ _ e. e ≡ Memory };

    fn from(_e: AllocError) -> ValidateFault {
        ValidateFault::Memory
    }
}

impl<T: Drop> From<AllocFailed<T>> for ValidateFault {
    ghost from_gives = { λ _ e. e ≡ Memory };

    fn from(_e: AllocFailed<T>) -> ValidateFault {
        ValidateFault::Memory
    }
}

impl From<ReadFault> for ValidateFault {
    ghost use Rattle.wc_validate.specs.Fault.{of_read};

    ghost from_gives = { λ f e. e ≡ of_read f };

    fn from(e: ReadFault) -> ValidateFault {
        match e {
            ReadFault::Memory => ValidateFault::Memory,
            ReadFault::Component => ValidateFault::NotAModule,
            _ => ValidateFault::Read(e),
        }
    }
}
