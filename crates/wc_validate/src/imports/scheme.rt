//! Imports of functions, by the scheme that reads the module's name.

ghost use Rattle.wc_names.specs.Imports.{kinds};
ghost use Rattle.wc_names.specs.Interfaces.{interface_texts};
ghost use Rattle.wc_validate.specs.Private.Imports.Functions.{IsAmong, IsDecidedAmong, IsDecidedByScheme};
ghost use Rattle.wc_validate.specs.Private.Imports.Kinds.{export_root_kinds};
ghost use Rattle.wc_validate.specs.NameScope.{AreInterfacesOf, HasInterfaces, HasItsWorld, lookup_name_scope, name_scope_of};

use crate::imports::environment::environment;
use crate::imports::interface::interface_import;
use crate::imports::intrinsics::exported_intrinsic;
use crate::imports::items::ImportedFunction;
use crate::imports::root::root_import;
use crate::name_fault::NameFault;
use crate::name_scope::{Interfaces, Lookup};
use crate::names::{ContextInWorld, Names};
use crate::prefixes::STANDARD_MARKER;
use std::alloc::Global;
use wc_names::{Import, Legacy, NameMangling, PayloadLookupContext, Standard};
use wc_texts::strip_prefix;

/// The built-in that a name is of from the root of exports.
fn export_root<N: NameMangling>(
    scheme: &N,
    alloc: Global,
    names: &Names<'_>,
    function: ImportedFunction<'_>,
) -> Result<Option<Import>, NameFault>
    requires { HasItsWorld (name_scope_of names.now) }
    ensures { IsAmong (N.scheme scheme.now)
        (name_scope_of names.now) export_root_kinds function.entry result }
{
    let Some(rest) = strip_prefix(
        function.module_name,
        scheme.import_exported_intrinsic_prefix(),
    ) else {
        return Ok(None);
    };
    if rest != scheme.import_root() {
        return Ok(None);
    }
    let context = ContextInWorld {
        lookup: PayloadLookupContext {
            resolve: names.resolve,
            world: names.world,
            id: None,
            imported: false,
            key: None,
        },
        world_id: names.world_id,
    };
    exported_intrinsic(scheme, alloc, &context, function.name, function.ty)
}

/// The import of a function, by a scheme.
fn import_by<N: NameMangling>(
    scheme: &N,
    alloc: Global,
    lookup: Lookup<'_>,
    function: ImportedFunction<'_>,
) -> Result<Import, NameFault>
    requires world { HasItsWorld (lookup_name_scope lookup) }
    requires interfaces { HasInterfaces (interface_texts (N.scheme scheme.now)) lookup }
    ensures { IsDecidedAmong (N.scheme scheme.now)
        (lookup_name_scope lookup.entry) kinds function.entry result }
{
    if function.module_name == scheme.import_root() {
        return root_import(scheme, alloc, lookup.names, function.name, function.ty);
    }
    match environment(scheme, function)? {
        Some(variable) => Ok(variable),
        None => match export_root(scheme, alloc, lookup.names, function)? {
            Some(intrinsic) => Ok(intrinsic),
            None => interface_import(scheme, alloc, lookup, function),
        },
    }
}

/// The import of a function, by the scheme that reads the module's name.
pub(crate) fn scheme_import(
    alloc: Global,
    names: &Names<'_>,
    interfaces: &Interfaces<'_>,
    function: ImportedFunction<'_>,
) -> Result<Import, NameFault>
    requires world { HasItsWorld (name_scope_of names.now) }
    requires interfaces { AreInterfacesOf (name_scope_of names.now) interfaces.now }
    ensures { IsDecidedByScheme (name_scope_of names.now) function.entry result }
{
    let standard = Lookup {
        names,
        interfaces: &interfaces.standard,
    };
    if let Some(rest) = strip_prefix(function.module_name, STANDARD_MARKER) {
        let unmarked = ImportedFunction {
            module_name: rest,
            name: function.name,
            ty: function.ty,
        };
        return import_by(&Standard, alloc, standard, unmarked);
    }
    if names.reject_legacy_names {
        return import_by(&Standard, alloc, standard, function);
    }
    let scheme = Legacy {
        task_hook: names.task_hook,
    };
    let legacy = Lookup {
        names,
        interfaces: &interfaces.legacy,
    };
    import_by(&scheme, alloc, legacy, function)
}
