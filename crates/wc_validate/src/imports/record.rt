//! The imports of a core module, classified and recorded.

ghost use Rattle.std.specs.Prelude.{◌≡◌, ◌<◌, All, IfErr, Option, Some, length, map, option_copied};
ghost use Rattle.wc_read.specs.Types.{func_type_value};
ghost use Rattle.wc_adapters.specs.Adapters.{LibraryView};
ghost use Rattle.wc_validate.specs.Private.Explain.{IsStopIn};
ghost use Rattle.wc_validate.specs.Private.Imports.Contexts.{IsClassifiedIn, IsTypeIn, AreAllRecorded, IsOneRecorded, IsOneRefused};
ghost use Rattle.wc_validate.specs.Private.Externs.{extern_view};
ghost use Rattle.wc_validate.specs.Imports.Record.{extern_type, original_name};
ghost use Rattle.wc_validate.specs.NameScope.{AreInterfacesOf, HasItsWorld, name_scope_of};

use crate::explain::imports::name_refusal;
use crate::externs::Extern;
use crate::imports::arguments::{Arguments, PassedArgument};
use crate::imports::classify::classify;
use crate::imports::items::ImportedItem;
use crate::imports::recorder::Recorder;
use crate::name_fault::NameFault;
use crate::name_scope::Interfaces;
use crate::names::Names;
use crate::refused::{ImportFault, RefusedImport};
use std::alloc::Global;
use wc_dedupe::ModuleImportMap;
use wc_names::Import;
use wc_read::{FuncType, ImportType};

/// The context in which imports are recorded: the scope of names, and the interfaces of its world; what the module is
/// passed, if it is a library; the original names of its imports, if some were renamed; and its types.
#[derive(Drop)]
pub(crate) struct ImportContext<'a> {
    pub(crate) names: Names<'a>,
    pub(crate) interfaces: &'a Interfaces<'a>,
    pub(crate) arguments: Arguments<'a>,
    pub(crate) renames: Option<&'a ModuleImportMap>,
    pub(crate) types: &'a [FuncType],
}

/// The type of an import; that of a function by its index.
fn extern_of<'a>(types: &'a [FuncType], ty: ImportType) -> Extern<'a>
    requires { IsTypeIn (length types.now) ty }
    ensures { extern_type (map func_type_value types.now) ty ≡ Some (extern_view result) }
{
    match ty {
        ImportType::Func(index) => Extern::Func(&types[index as usize]),
        ImportType::Table(ty) => Extern::Table(ty),
        ImportType::Memory(ty) => Extern::Memory(ty),
        ImportType::Global(ty) => Extern::Global(ty),
    }
}

/// The name that an import had before it was renamed.
fn original_name<'a>(renames: Option<&'a ModuleImportMap>, import: &wc_read::Import<'a>) -> &'a str
    ensures { result.now ≡ original_name (option_copied renames.entry) import.now.module.now
        import.now.name.now }
{
    match renames {
        Some(map) => map.original_name(import).unwrap_or(import.name),
        None => import.name,
    }
}

/// The meaning of an import, by its original name.
fn classify_import(
    alloc: Global,
    context: &ImportContext<'_>,
    import: &wc_read::Import<'_>,
) -> Result<Import, NameFault>
    requires world { HasItsWorld (name_scope_of context.now.names) }
    requires interfaces { AreInterfacesOf (name_scope_of context.now.names)
        context.now.interfaces.now }
    requires typed { IsTypeIn (length context.now.types.now) import.now.ty }
    ensures { (library : Option LibraryView) → IsClassifiedIn context.now library
        import.now result }
{
    let name = original_name(context.renames, import);
    let item = ImportedItem {
        module_name: import.module,
        name,
        ty: extern_of(context.types, import.ty),
    };
    classify(alloc, &context.names, context.interfaces, item)
}

/// Records an import: as the library is passed it, or else as what it is.
pub(crate) fn record_one(
    recorder: &mut Recorder,
    alloc: Global,
    context: &ImportContext<'_>,
    import: &wc_read::Import<'_>,
) -> Result<(), ImportFault>
    requires world { HasItsWorld (name_scope_of context.now.names) }
    requires interfaces { AreInterfacesOf (name_scope_of context.now.names)
        context.now.interfaces.now }
    requires typed { IsTypeIn (length context.now.types.now) import.now.ty }
    ensures recorded { IsOneRecorded context.now recorder.old import.now recorder.new result }
    ensures fault { IsOneRefused context.now recorder.old import.now result }
{
    match context
        .arguments
        .passed_argument(import.module, import.name)
    {
        Some(PassedArgument::Whole(which)) => recorder.record_whole(alloc, import.module, which),
        Some(PassedArgument::Item(item)) => {
            let own = Import::Item(item.clone(alloc)?);
            recorder.record_single(alloc, import.module, import.name, own)
        }
        None => match classify_import(alloc, context, import) {
            Ok(own) => recorder.record_single(alloc, import.module, import.name, own),
            Err(cause) => Err(name_refusal(alloc, context, import, cause)?),
        },
    }
}

/// The imports of a module, recorded in their order; or the first that is refused.
pub(crate) fn record_imports(
    alloc: Global,
    context: &ImportContext<'_>,
    imports: &[wc_read::Import<'_>],
) -> Result<Recorder, RefusedImport>
    requires world { HasItsWorld (name_scope_of context.now.names) }
    requires interfaces { AreInterfacesOf (name_scope_of context.now.names)
        context.now.interfaces.now }
    requires typed { All (λ i. IsTypeIn (length context.now.types.now) i.ty) imports.now }
    ensures recorded { AreAllRecorded context.now imports.now result }
    ensures in_range { IfErr result (λ x. x.index < length imports.now) }
    ensures refused { IfErr result (IsStopIn context.now imports.now) }
{
    let mut recorder = Recorder::new(alloc, *context.names.adapters.hasher());
    for (index, import) in imports.iter().enumerate() {
        if let Err(cause) = record_one(&mut recorder, alloc, context, import) {
            return Err(RefusedImport { index, cause });
        }
    }
    Ok(recorder)
}
