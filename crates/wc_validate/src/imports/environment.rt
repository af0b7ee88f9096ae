//! Imports from the module `env`.

ghost use Rattle.std.specs.Prelude.{◌≡◌};
ghost use Rattle.wc_names.specs.Environment.{names_value_type};
ghost use Rattle.wc_names.specs.Views.{import_view};
ghost use Rattle.wc_validate.specs.Private.Imports.Functions.{IsOfEnvironment};

use crate::imports::items::ImportedFunction;
use crate::name_fault::NameFault;
use crate::signatures::{kept, names_type};
use wc_names::{Import, NameMangling};

/// The module of the functions by which linkers reach a thread's stack pointer and its local storage.
pub(crate) const ENVIRONMENT: &str = "env";

/// Whether the value that a function of the environment reads or writes is of a type that names another by its index.
fn names_value_type(import: &Import) -> bool
    ensures { result ≡ names_value_type (import_view import.now) }
{
    match import {
        Import::ContextGet { ty, .. } | Import::ContextSet { ty, .. } => names_type(*ty),
        Import::TlsBaseGet { ty } | Import::TlsBaseSet { ty } => names_type(*ty),
        _ => false,
    }
}

/// The function of the environment that a name is of.
pub(crate) fn environment<N: NameMangling>(
    scheme: &N,
    function: ImportedFunction<'_>,
) -> Result<Option<Import>, NameFault>
    ensures { IsOfEnvironment (N.scheme scheme.now) function.entry result }
{
    if function.module_name != ENVIRONMENT {
        return Ok(None);
    }
    let Some(import) = scheme.env_import(function.name, function.ty) else {
        return Ok(None);
    };
    let is_plain = !names_value_type(&import);
    kept(is_plain, import, NameFault::TypedReference)
}
