//! Imports from the root: what the world itself imports, and canonical built-ins of no interface.

ghost use Rattle.std.specs.Prelude.{IfOk};
ghost use Rattle.wc_names.specs.Imports.{root_function};
ghost use Rattle.wc_validate.specs.Private.Imports.Functions.{IsDecidedInRoot, IsOfRootKind, IsRootRefusal};
ghost use Rattle.wc_validate.specs.Private.Imports.Kinds.{other_root_kinds, root_kinds};
ghost use Rattle.wc_validate.specs.NameScope.{HasItsWorld, name_scope_of};

use crate::imports::builtins::root_builtin;
use crate::imports::intrinsics::{imported_intrinsic, lowered_function};
use crate::imports::lookups::is_imported;
use crate::name_fault::NameFault;
use crate::names::{ContextInWorld, Names};
use std::alloc::{AllocError, Global};
use wc_names::{Import, NameMangling, PayloadLookupContext};
use wc_read::FuncType;

/// The function of the world that a name is of.
fn root_function<N: NameMangling>(
    scheme: &N,
    alloc: Global,
    names: &Names<'_>,
    name: &str,
    ty: &FuncType,
) -> Result<Option<Import>, NameFault>
    requires { HasItsWorld (name_scope_of names.now) }
    ensures { IsOfRootKind (N.scheme scheme.now)
        (name_scope_of names.now) root_function name.now ty.now result }
{
    let (function_name, abi) = scheme.world_key_name_and_abi(name);
    let context = ContextInWorld {
        lookup: PayloadLookupContext {
            resolve: names.resolve,
            world: names.world,
            id: None,
            imported: true,
            key: None,
        },
        world_id: names.world_id,
    };
    lowered_function(alloc, &context, function_name, abi, ty)
}

/// Why a name from the root is refused that is nothing.
fn root_unknown<N: NameMangling>(
    scheme: &N,
    alloc: Global,
    names: &Names<'_>,
    name: &str,
) -> Result<NameFault, AllocError>
    ensures { IfOk result (IsRootRefusal (N.scheme scheme.now) (name_scope_of names.now) name.now) }
{
    let (item_name, _abi) = scheme.world_key_name_and_abi(name);
    if is_imported(alloc, names.world, item_name)? {
        return Ok(NameFault::RootNotFunction);
    }
    Ok(NameFault::NoRootImport)
}

/// The import of a name from the root that is no function and no built-in of no interface.
fn root_other<N: NameMangling>(
    scheme: &N,
    alloc: Global,
    names: &Names<'_>,
    name: &str,
    ty: &FuncType,
) -> Result<Import, NameFault>
    requires { HasItsWorld (name_scope_of names.now) }
    ensures { IsDecidedInRoot (N.scheme scheme.now)
        (name_scope_of names.now) other_root_kinds name.now ty.now result }
{
    let context = ContextInWorld {
        lookup: PayloadLookupContext {
            resolve: names.resolve,
            world: names.world,
            id: None,
            imported: true,
            key: None,
        },
        world_id: names.world_id,
    };
    match imported_intrinsic(scheme, alloc, &context, name, ty)? {
        Some(import) => Ok(import),
        None => Err(root_unknown(scheme, alloc, names, name)?),
    }
}

/// The import of a name from the root.
pub(crate) fn root_import<N: NameMangling>(
    scheme: &N,
    alloc: Global,
    names: &Names<'_>,
    name: &str,
    ty: &FuncType,
) -> Result<Import, NameFault>
    requires { HasItsWorld (name_scope_of names.now) }
    ensures { IsDecidedInRoot (N.scheme scheme.now)
        (name_scope_of names.now) root_kinds name.now ty.now result }
{
    match root_builtin(scheme, alloc, name, ty)? {
        Some(builtin) => Ok(builtin),
        None => match root_function(scheme, alloc, names, name, ty)? {
            Some(function) => Ok(function),
            None => root_other(scheme, alloc, names, name, ty),
        },
    }
}
