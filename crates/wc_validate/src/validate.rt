//! Core modules, validated for an encoder.

ghost use Rattle.std.specs.Prelude.{◌≡◌, [], IfErr, IfOk, None, OnOk, map, option_copied};
ghost use Rattle.wc_read.specs.Modules.{IsModule, module_value};
ghost use Rattle.wc_resolve.specs.Views.{key_view};
ghost use Rattle.wc_validate.specs.Private.Imports.Contexts.{HasLibrary, HasTypedImports};
ghost use Rattle.wc_validate.specs.Exports.Contexts.{IsExportContext};
ghost use Rattle.wc_validate.specs.Exports.Record.{AreExportsAdded};
ghost use Rattle.wc_validate.specs.NameScope.{AreInterfacesOf, name_scope_of};
ghost use Rattle.wc_validate.specs.Private.WorldInterfaces.{AreInterfacesFor, AreInterfacesThere};
ghost use Rattle.wc_validate.specs.Explain.{IsModulePlace, IsPlace, IsPlaceOfImport};
ghost use Rattle.wc_validate.specs.Private.Explain.{ArePlacedAmongExports, IsPlaceIn, IsRefusedForExport};
ghost use Rattle.wc_validate.specs.Refused.{IsRefusedAt};
ghost use Rattle.wc_validate.specs.Validate.{HasNoCause, IsValidateCause, IsCauseOfExports, IsCauseOfImports, IsModuleCause, IsNameScopeOf, IsRecordOf, IsRecordOfExports, IsRecordOfImports, adapter_input_of, library_of, main_input, module_record};
ghost use Rattle.wc_validate.specs.Private.ValidationInputs.{main_input_requiring, validation_input_of, AreExportsRecorded, AreExportsRefused, IsWithoutPlace};

use crate::ValidateFault;
use crate::explain::exports::export_refusal;
use crate::explain::imports::import_refusal;
use crate::exports::classify::ExportContext;
use crate::exports::map::ExportMap;
use crate::exports::record::record_exports;
use crate::imports::arguments::Arguments;
use crate::imports::map::ImportMap;
use crate::imports::record::{ImportContext, record_imports};
use crate::laws::records_exclude_faults;
use crate::name_scope::Interfaces;
use crate::names::Names;
use crate::place::Place;
use crate::refused::{RefusedModule, read_refusal};
use crate::requirements::{RecordedModule, RequiredExports, check_exports};
use std::alloc::{AllocError, Global};
use wc_dedupe::ModuleImportMap;
use wc_encoder::{ComponentEncoder, LibraryInfo};
use wc_maps::{Map, Seed, Set};
use wc_names::{Export, Legacy, NameIndexes, Standard};
use wc_read::{FuncType, Module, read_module_explained};
use wc_resolve::WorldKey;
use wc_texts::Refused;

/// A core module that is validated for an encoder: its imports and its exports.
#[derive(Drop)]
pub struct ValidatedModule {
    /// The module's imports.
    pub imports: ImportMap,
    /// The module's exports.
    pub exports: ExportMap,
}

impl ValidatedModule {
    /// A module that imports and exports nothing. The maps that are made hash under `seed`.
    pub fn new(alloc: Global, seed: Seed) -> ValidatedModule
        ensures imports { result.imports ≡ [] }
        ensures exports { result.exports ≡ [] }
    {
        ValidatedModule {
            imports: ImportMap::new(alloc, seed),
            exports: ExportMap::new(alloc, seed),
        }
    }
}

/// The scope of names of an encoder.
fn names_of(encoder: &ComponentEncoder) -> Names<'_>
    ensures { IsNameScopeOf encoder.now (name_scope_of result) }
{
    encoder.well_formedness();
    let metadata = encoder.metadata();
    Names {
        resolve: &metadata.resolve,
        world: metadata.resolve.world(metadata.world),
        world_id: metadata.world,
        adapters: encoder.adapters(),
        reject_legacy_names: encoder.reject_legacy_names(),
        task_hook: encoder.task_hook(),
    }
}

/// The input of a validation: an encoder, with the interfaces of its world, if they were made for several modules;
/// the items that a library is passed; the original names of renamed imports; and the module's required exports.
#[derive(Clone, Copy)]
pub(crate) struct ValidationInput<'a> {
    pub(crate) encoder: &'a ComponentEncoder,
    pub(crate) interfaces: Option<&'a Interfaces<'a>>,
    pub(crate) library: Option<&'a LibraryInfo>,
    pub(crate) renames: Option<&'a ModuleImportMap>,
    pub(crate) required: RequiredExports<'a>,
}

/// The interfaces of an encoder's world, indexed if more than a few are looked up.
pub(crate) fn interfaces_for(
    alloc: Global,
    encoder: &ComponentEncoder,
    lookups: usize,
) -> Result<Interfaces<'_>, AllocError>
    ensures { IfOk result (AreInterfacesFor encoder.now) }
{
    let names = names_of(encoder);
    let interfaces = Interfaces::new(alloc, &names, lookups)?;
    Ok(interfaces)
}

/// The context in which the imports of a module are recorded, among these interfaces of the encoder's world.
pub(crate) fn import_context<'a>(
    alloc: Global,
    validation_input: ValidationInput<'a>,
    interfaces: &'a Interfaces<'a>,
    module: &'a Module<'_>,
) -> Result<ImportContext<'a>, AllocError>
    requires { AreInterfacesFor validation_input.encoder.now interfaces.now }
    ensures name_scope { IfOk result
        (λ c. IsNameScopeOf validation_input.entry.encoder.now (name_scope_of c.names)) }
    ensures interfaces { IfOk result
        (λ c. AreInterfacesOf (name_scope_of c.names) c.interfaces.now) }
    ensures arguments { IfOk result
        (λ c. HasLibrary c (library_of validation_input.entry.library)) }
    ensures renames { IfOk result
        (λ c. option_copied c.renames ≡ option_copied validation_input.entry.renames) }
    ensures types { IfOk result (λ c. c.types.now ≡ «module».now.types.items) }
{
    let names = names_of(validation_input.encoder);
    let seed = *names.adapters.hasher();
    let arguments = Arguments::new(alloc, seed, validation_input.library)?;
    Ok(ImportContext {
        names,
        interfaces,
        arguments,
        renames: validation_input.renames,
        types: &module.types,
    })
}

/// The imports of a module, recorded, among these interfaces of the encoder's world.
fn imports_among(
    alloc: Global,
    validation_input: ValidationInput<'_>,
    interfaces: &Interfaces<'_>,
    module: &Module<'_>,
) -> Result<ImportMap, RefusedModule>
    requires typed { HasTypedImports «module».now }
    requires interfaces { AreInterfacesFor validation_input.encoder.now interfaces.now }
    ensures recorded { IfOk result (IsRecordOfImports (validation_input_of validation_input.entry)
        (module_value «module».now)) }
    ensures fault { IfErr result
        (λ x. IsCauseOfImports (validation_input_of validation_input.entry)
        (module_value «module».now) x.fault) }
    ensures place { IfErr result (IsRefusedAt
        (IsPlaceOfImport (validation_input_of validation_input.entry)
        (module_value «module».now))) }
{
    let context = import_context(alloc, validation_input, interfaces, module)?;
    match record_imports(alloc, &context, &module.imports) {
        Ok(recorder) => Ok(ImportMap::from_recorder(alloc, recorder)?),
        Err(refused) => Err(import_refusal(alloc, &module.imports, refused)?),
    }
}

/// The imports of a module, recorded.
fn module_imports(
    alloc: Global,
    validation_input: ValidationInput<'_>,
    module: &Module<'_>,
) -> Result<ImportMap, RefusedModule>
    requires typed { HasTypedImports «module».now }
    requires interfaces { AreInterfacesThere validation_input.encoder.now
        validation_input.interfaces }
    ensures recorded { IfOk result (IsRecordOfImports (validation_input_of validation_input.entry)
        (module_value «module».now)) }
    ensures fault { IfErr result
        (λ x. IsCauseOfImports (validation_input_of validation_input.entry)
        (module_value «module».now) x.fault) }
    ensures place { IfErr result (IsRefusedAt
        (IsPlaceOfImport (validation_input_of validation_input.entry)
        (module_value «module».now))) }
{
    if let Some(interfaces) = validation_input.interfaces {
        return imports_among(alloc, validation_input, interfaces, module);
    }
    let interfaces = interfaces_for(alloc, validation_input.encoder, module.imports.len())?;
    imports_among(alloc, validation_input, &interfaces, module)
}

/// The context in which the names of exports are looked up, for an encoder and an export set.
pub(crate) fn export_context<'a>(
    alloc: Global,
    encoder: &'a ComponentEncoder,
    keys: &'a Set<WorldKey>,
) -> Result<ExportContext<'a>, AllocError>
    ensures context { IfOk result IsExportContext }
    ensures name_scope { IfOk result (λ c. IsNameScopeOf encoder.now (name_scope_of c.names)) }
    ensures keys { IfOk result (λ c. c.standard.keys ≡ map key_view keys.now.keys) }
{
    encoder.well_formedness();
    let names = names_of(encoder);
    let metadata = encoder.metadata();
    let resolve = &metadata.resolve;
    let standard = Standard.export_names(alloc, resolve, metadata.world, keys)?;
    let scheme = Legacy {
        task_hook: names.task_hook,
    };
    let legacy = scheme.export_names(alloc, resolve, metadata.world, keys)?;
    Ok(ExportContext {
        names,
        standard,
        legacy,
    })
}

/// The exports of a module, as they are recorded, by what their names are looked up in.
fn recorded_exports(
    alloc: Global,
    context: &ExportContext<'_>,
    module: &Module<'_>,
) -> Result<Map<String, Export>, RefusedModule>
    requires valid { IsModule (module_value «module».now) }
    requires context { IsExportContext context.now }
    ensures recorded { IfOk result (λ names. AreExportsAdded context.now «module».now
        «module».now.exports.items names.entries) }
    ensures refused { IfErr result (IsRefusedForExport context.now «module».now) }
{
    match record_exports(alloc, context, module, &module.exports) {
        Ok(names) => Ok(names),
        Err(refused) => Err(export_refusal(alloc, module, &module.exports, refused)?),
    }
}

/// The exports of a module, recorded, where all that is required is among them; by what their names are looked up in.
fn exports_by(
    alloc: Global,
    context: &ExportContext<'_>,
    module: &Module<'_>,
    required: RequiredExports<'_>,
) -> Result<ExportMap, RefusedModule>
    requires valid { IsModule (module_value «module».now) }
    requires context { IsExportContext context.now }
    requires keys { context.now.standard.keys ≡ map key_view required.keys.now.keys }
    ensures recorded { AreExportsRecorded context.now required.entry
        (module_value «module».now) result }
    ensures fault { AreExportsRefused context.now required.entry
        (module_value «module».now) result }
    ensures place { IfErr result (IsRefusedAt
        (IsPlaceIn context.now required.entry «module».now)) }
{
    context.names.resolve.well_formedness();
    let names = recorded_exports(alloc, context, module)?;
    let exports = RecordedModule {
        module,
        recorded: &names,
    };
    check_exports(alloc, exports, &context.names, required)?;
    Ok(ExportMap::from_names(alloc, names)?)
}

/// The exports of a module, recorded, where all that is required is among them.
fn module_exports(
    alloc: Global,
    validation_input: ValidationInput<'_>,
    module: &Module<'_>,
) -> Result<ExportMap, RefusedModule>
    requires { IsModule (module_value «module».now) }
    ensures recorded { IfOk result (IsRecordOfExports (validation_input_of validation_input.entry)
        (module_value «module».now)) }
    ensures fault { IfErr result
        (λ x. IsCauseOfExports (validation_input_of validation_input.entry)
        (module_value «module».now) x.fault) }
    ensures place { ArePlacedAmongExports (validation_input_of validation_input.entry)
        (module_value «module».now) result }
{
    let context = export_context(
        alloc,
        validation_input.encoder,
        validation_input.required.keys,
    )?;
    exports_by(alloc, &context, module, validation_input.required)
}

/// The record of a module that is read.
fn validate_read(
    alloc: Global,
    validation_input: ValidationInput<'_>,
    module: &Module<'_>,
) -> Result<ValidatedModule, RefusedModule>
    requires typed { HasTypedImports «module».now }
    requires valid { IsModule (module_value «module».now) }
    requires interfaces { AreInterfacesThere validation_input.encoder.now
        validation_input.interfaces }
    ensures imports { IfOk result
        (λ v. IsRecordOfImports (validation_input_of validation_input.entry)
        (module_value «module».now) v.imports) }
    ensures exports { IfOk result
        (λ v. IsRecordOfExports (validation_input_of validation_input.entry)
        (module_value «module».now) v.exports) }
    ensures fault { IfErr result
        (λ x. IsModuleCause (validation_input_of validation_input.entry)
        (module_value «module».now) x.fault) }
    ensures place { IfErr result (IsRefusedAt
        (IsModulePlace (validation_input_of validation_input.entry)
        (module_value «module».now))) }
{
    let imports = module_imports(alloc, validation_input, module)?;
    let exports = module_exports(alloc, validation_input, module)?;
    Ok(ValidatedModule { imports, exports })
}

/// The record of the module that bytes encode.
pub(crate) fn validate_bytes(
    alloc: Global,
    validation_input: ValidationInput<'_>,
    bytes: &[u8],
) -> Result<ValidatedModule, RefusedModule>
    requires { AreInterfacesThere validation_input.encoder.now validation_input.interfaces }
    ensures recorded { IfOk result
        (λ v. IsRecordOf (validation_input_of validation_input.entry) bytes.now
        (module_record v)) }
    ensures fault { IfErr result
        (λ x. IsValidateCause (validation_input_of validation_input.entry) bytes.now x.fault) }
    ensures place { IfErr result (IsRefusedAt
        (IsPlace (validation_input_of validation_input.entry) bytes.now)) }
    ensures no_cause { OnOk result
        (HasNoCause (validation_input_of validation_input.entry) bytes.now) }
{
    records_exclude_faults(validation_input.encoder);
    match read_module_explained(alloc, bytes) {
        Ok(module) => validate_read(alloc, validation_input, &module),
        Err(refused) => Err(read_refusal(refused)),
    }
}

/// The input for the main module of an encoder, where other modules import these functions from it.
fn main_validation_input<'a>(
    encoder: &'a ComponentEncoder,
    import_map: Option<&'a ModuleImportMap>,
    functions: &'a Map<String, FuncType>,
) -> ValidationInput<'a>
    ensures input { validation_input_of result ≡ main_input_requiring encoder.now
        (option_copied import_map.entry) functions.now.entries }
    ensures interfaces { option_copied result.interfaces ≡ None }
{
    let keys = encoder.main_module_exports();
    let required = RequiredExports { keys, functions };
    ValidationInput {
        encoder,
        interfaces: None,
        library: None,
        renames: import_map,
        required,
    }
}

/// The input for an adapter or a library of an encoder.
pub(crate) fn adapter_validation_input<'a>(
    encoder: &'a ComponentEncoder,
    library_info: Option<&'a LibraryInfo>,
    required: RequiredExports<'a>,
) -> ValidationInput<'a>
    ensures input { validation_input_of result ≡ adapter_input_of encoder.now library_info.entry
        required.entry.keys.now.keys required.entry.functions.now.entries }
    ensures interfaces { option_copied result.interfaces ≡ None }
{
    ValidationInput {
        encoder,
        interfaces: None,
        library: library_info,
        renames: None,
        required,
    }
}

/// A result without the place of a refusal.
pub(crate) fn without_place<T: Drop>(answer: Result<T, RefusedModule>) -> Result<T, ValidateFault>
    ensures { IsWithoutPlace answer result }
{
    match answer {
        Ok(value) => Ok(value),
        Err(refused) => Err(refused.fault),
    }
}

/// Validates the main module of an encoder. Each import is recorded under its name, with the meaning of this name, or
/// of its original name if it was renamed. Each export is recorded with its meaning, among the exports of the world
/// that the main module must have (`main_module_exports`); exports without a meaning are left out.
///
/// # Errors
///
/// `Read` and `NotAModule` come before all other faults. Then come faults of imports, then faults of exports, and
/// then missing exports. If several imports have a fault, the first import is named; if one import has several
/// faults, the first in this order. `Memory` may come instead of any.
///
/// - `Read`: the bytes are no module.
/// - `NotAModule`: they are a component.
/// - `NotAFunction`: an import is neither a function nor one of the main module's other items.
/// - `TypedReference`: the type of an adapter's function, or of a function of `env`, names a type of the module by an
///   index.
/// - `SignatureMismatch`: a function's type is not the one that its name fixes; of an export too.
/// - `NoRootImport`: the world imports nothing with this name.
/// - `RootNotFunction`: the world's import with this name is no function.
/// - `BadSyntax`: the module's name doesn't begin as the standard scheme's names do.
/// - `UnknownInterface`: the module's name is about no interface that the world imports or exports.
/// - `UnknownIntrinsic`: the name is none of the built-ins for an exported interface.
/// - `MissingFunction`: an imported interface has no function, and no built-in, of the name.
/// - `NoSuchExport`: the function whose `task.return` is imported is not exported.
/// - `SeveralMemoryImports`: the main module's memory was imported before.
/// - `DuplicateImport`: module and name were imported before.
/// - `AdapterTypesDiffer`: the adapter's function was imported with another type before.
/// - `SeveralMemoryExports`: two memories are recorded among the exports.
/// - `MissingCallback`: a function that is lifted with a callback is exported, and its callback is not.
/// - `MissingInterfaceExport`: a required function of an interface is not exported.
/// - `MissingWorldExport`: a required function of the world is not exported. If both of these apply, the one for the
///   first such key of the export set is named.
/// - `Memory`: an allocation failed.
pub fn validate_module(
    alloc: Global,
    encoder: &ComponentEncoder,
    bytes: &[u8],
    import_map: Option<&ModuleImportMap>,
) -> Result<ValidatedModule, ValidateFault>
    ensures recorded { IfOk result (λ v. IsRecordOf (main_input encoder.now
        (option_copied import_map.entry)) bytes.now (module_record v)) }
    ensures fault { IfErr result (IsValidateCause (main_input encoder.now
        (option_copied import_map.entry)) bytes.now) }
    // Without a fault there is no cause.
    ensures no_cause { OnOk result (HasNoCause (main_input encoder.now
        (option_copied import_map.entry)) bytes.now) }
{
    without_place(validate_module_explained(alloc, encoder, bytes, import_map))
}

/// Like [`validate_module`]; if a module is refused, the result also says what its fault is about, at the point where
/// validation stops:
///
/// - `Read` and `NotAModule` are about the offset at which the bytes are malformed;
/// - a fault of an import is about the first that is refused;
/// - `SignatureMismatch` of an export is about the first export whose type is not the one that its name fixes;
/// - `SeveralMemoryExports` is about the second memory that is recorded;
/// - `MissingCallback` is about the callback of the first export that needs one which is not recorded;
/// - `MissingInterfaceExport` and `MissingWorldExport` are about the first missing function of the first key of the
///   export set that lacks one.
///
/// For `SignatureMismatch` the result has the type that the name fixes and the found type. For `AdapterTypesDiffer`
/// it has the type of the function's first import and the found type. For other faults it has no types.
///
/// # Errors
///
/// The faults of [`validate_module`]. `Memory` has no place, and also comes if an allocation for the place of another
/// fault fails.
pub fn validate_module_explained(
    alloc: Global,
    encoder: &ComponentEncoder,
    bytes: &[u8],
    import_map: Option<&ModuleImportMap>,
) -> Result<ValidatedModule, Refused<ValidateFault, Place>>
    ensures recorded { IfOk result (λ v. IsRecordOf (main_input encoder.now
        (option_copied import_map.entry)) bytes.now (module_record v)) }
    ensures fault { IfErr result (λ x. IsValidateCause (main_input encoder.now
        (option_copied import_map.entry)) bytes.now x.fault) }
    ensures place { IfErr result (IsRefusedAt (IsPlace (main_input encoder.now
        (option_copied import_map.entry)) bytes.now)) }
    // Without a fault there is no cause.
    ensures no_cause { OnOk result (HasNoCause (main_input encoder.now
        (option_copied import_map.entry)) bytes.now) }
{
    let functions = Map::with_hasher(alloc, *encoder.adapters().hasher());
    let validation_input = main_validation_input(encoder, import_map, &functions);
    validate_bytes(alloc, validation_input, bytes)
}

/// Validates an adapter or a library for an encoder. Each import is recorded as the item that the library is passed
/// for it, or otherwise with its meaning. Each export is recorded with its meaning, among the exports of the world
/// that this module must have (`exports`; a key that the world doesn't export is skipped). Exports without a meaning
/// are left out.
///
/// # Errors
///
/// The faults of [`validate_module`], in its order. Two more come after the faults of names, for the items that a
/// library is passed:
///
/// - `WholeDiffers`: the module's name already means another module of the component.
/// - `Mixed`: the module's name means a module of the component, and single items too. No library has such arguments,
///   since only the first argument with a name counts.
///
/// Last come the functions that other modules import from this one (`required_by_import`), for the first of them that
/// is not exported as required:
///
/// - `TypedReference`: the type with which it is imported names a type of that module by an index.
/// - `AdapterModuleDidNotExport`: no function of the name is exported.
/// - `AdapterExportType`: it is exported with another type.
pub fn validate_adapter_module<'a>(
    alloc: Global,
    encoder: &'a ComponentEncoder,
    bytes: &[u8],
    required_by_import: &'a Map<String, FuncType>,
    exports: &'a Set<WorldKey>,
    library_info: Option<&'a LibraryInfo>,
) -> Result<ValidatedModule, ValidateFault>
    ensures recorded { IfOk result (λ v. IsRecordOf (adapter_input_of encoder.now library_info.entry
        exports.now.keys required_by_import.now.entries)
        bytes.now (module_record v)) }
    ensures fault { IfErr result (IsValidateCause (adapter_input_of encoder.now library_info.entry
        exports.now.keys required_by_import.now.entries)
        bytes.now) }
    // Without a fault there is no cause.
    ensures no_cause { OnOk result (HasNoCause (adapter_input_of encoder.now library_info.entry
        exports.now.keys required_by_import.now.entries)
        bytes.now) }
{
    without_place(validate_adapter_module_explained(
        alloc,
        encoder,
        bytes,
        required_by_import,
        exports,
        library_info,
    ))
}

/// Like [`validate_adapter_module`]; if a module is refused, the result also says what its fault is about, as
/// [`validate_module_explained`] does. For functions that other modules import from this one, `TypedReference`,
/// `AdapterModuleDidNotExport` and `AdapterExportType` are about the first that is not exported as required. The
/// place is the export with its name, with the required type and the found type. If no function with its name is
/// exported, the place says that it is missing.
///
/// # Errors
///
/// The faults of [`validate_adapter_module`], and `Memory` as in [`validate_module_explained`].
pub fn validate_adapter_module_explained<'a>(
    alloc: Global,
    encoder: &'a ComponentEncoder,
    bytes: &[u8],
    required_by_import: &'a Map<String, FuncType>,
    exports: &'a Set<WorldKey>,
    library_info: Option<&'a LibraryInfo>,
) -> Result<ValidatedModule, Refused<ValidateFault, Place>>
    ensures recorded { IfOk result (λ v. IsRecordOf (adapter_input_of encoder.now library_info.entry
        exports.now.keys required_by_import.now.entries) bytes.now (module_record v)) }
    ensures fault { IfErr result (λ x. IsValidateCause (adapter_input_of encoder.now
        library_info.entry exports.now.keys required_by_import.now.entries) bytes.now x.fault) }
    ensures place { IfErr result (IsRefusedAt (IsPlace (adapter_input_of encoder.now
        library_info.entry exports.now.keys required_by_import.now.entries) bytes.now)) }
    // Without a fault there is no cause.
    ensures no_cause { OnOk result (HasNoCause (adapter_input_of encoder.now library_info.entry
        exports.now.keys required_by_import.now.entries) bytes.now) }
{
    let required = RequiredExports {
        keys: exports,
        functions: required_by_import,
    };
    let validation_input = adapter_validation_input(encoder, library_info, required);
    validate_bytes(alloc, validation_input, bytes)
}
