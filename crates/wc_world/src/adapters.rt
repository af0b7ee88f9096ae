//! The adapters and libraries that a component has.

ghost use Rattle.std.specs.Prelude.{◌≡◌, ◌⊎◌, IfErr, IfOk, None, OnOk};
ghost use Rattle.wc_adapters.specs.Adapters.{adapter_view as input_view};
ghost use Rattle.wc_gc.specs.LiveItems.{names_of};
ghost use Rattle.wc_validate.specs.Imports.Map.{required_in};
ghost use Rattle.wc_validate.specs.Validate.{IsRecordOf, ModuleRecord, module_record};
ghost use Rattle.wc_world.specs.Trimming.{is_adapter_needed, required_names};
ghost use Rattle.wc_world.specs.Private.Adapters.{IsAdapterOfInput, IsInputRecord, IsInputTrimmedOrLibrary, IsInputTrimmedText, IsNeeded, IsTrimmedInput, main_of, named_adapter, required_of, validated_as};
ghost use Rattle.wc_world.specs.Private.Refused.{IsFirstRefusal, IsInputRefusal, IsModuleRefusal, IsNeededStopAt};
ghost use Rattle.wc_world.specs.Refused.{IsMemoryRefusal};
ghost use Rattle.wc_world.specs.Views.{WorldAdapterView};
ghost use Rattle.wc_world.specs.World.{AddsAdapterOnOk, AreAdapters, HasMainPages};
ghost use Rattle.wc_world.specs.WorldViews.{adapter_view, adapters_view};

use crate::adapter::WorldAdapter;
use crate::fault::WorldFault;
use crate::places::WorldPlace;
use crate::refused::{adapter_refusal, minimized_refusal, page_refusal, trim_refusal};
use crate::restricted::trimmed_is_restricted;
use crate::trimming::{
    is_needed, main_page_size, main_realloc, page_size, required_names, trim_page_size_log2,
};
use std::alloc::Global;
use std::borrow::CowSlice;
use wc_encoder::{Adapter, ComponentEncoder, LibraryInfo};
use wc_gc::run_explained;
use wc_maps::{Map, Set};
use wc_read::FuncType;
use wc_texts::Refused;
use wc_validate::{Place, ValidateFault, ValidatedModule, WorldInterfaces};
use wc_write::laws::slices_are_bytes;

/// An encoder, the interfaces of its world, and the imports and exports of its main module.
#[derive(Clone, Copy)]
struct MainContext<'a, 'b> {
    encoder: &'a ComponentEncoder,
    interfaces: &'b WorldInterfaces<'a>,
    main: &'b ValidatedModule,
}

/// An adapter or a library, and the main module for which it is trimmed.
#[derive(Clone, Copy)]
struct AdapterInput<'a, 'b> {
    encoder: &'a ComponentEncoder,
    interfaces: &'b WorldInterfaces<'a>,
    main: &'b ValidatedModule,
    /// The functions that the main module imports from it.
    required: &'b Map<String, FuncType>,
    name: &'a str,
    adapter: &'a Adapter,
}

/// The imports and exports of bytes, validated as an adapter, or as a library that is instantiated so.
fn validated(
    alloc: Global,
    input: &AdapterInput<'_, '_>,
    bytes: &[u8],
    library: Option<&LibraryInfo>,
) -> Result<ValidatedModule, Refused<ValidateFault, Place>>
    requires { input.now.interfaces.now ≡ input.now.encoder.now }
    ensures recorded { IfOk result (λ v. IsRecordOf (validated_as input.now library.entry)
        bytes.now (module_record v)) }
    ensures refusal { IfErr result (IsModuleRefusal (validated_as input.now library.entry)
        bytes.now) }
{
    let exports = &input.adapter.required_exports;
    let required = input.required;
    input
        .interfaces
        .validate_adapter_module_explained(alloc, bytes, required, exports, library)
}

/// The imports and exports of an adapter or a library, as the encoder has it.
fn input_record(
    alloc: Global,
    input: &AdapterInput<'_, '_>,
) -> Result<ValidatedModule, Refused<WorldFault, WorldPlace>>
    requires { IsNeeded input.now }
    ensures recorded { IfOk result (λ v. IsInputRecord input.now
        input.now.adapter.now.wasm.items (module_record v)) }
    ensures refusal { IfErr result (IsInputRefusal input.now) }
{
    let adapter = input.adapter;
    match validated(alloc, input, &adapter.wasm, adapter.library_info.as_ref()) {
        Ok(record) => Ok(record),
        Err(refused) => Err(adapter_refusal(alloc, input.name, refused)),
    }
}

/// The bytes that an adapter is trimmed to, of which exports of these names are required.
fn trim_to(
    alloc: Global,
    input: &AdapterInput<'_, '_>,
    first: &ValidatedModule,
    names: &Set<String>,
) -> Result<Vec<u8>, Refused<WorldFault, WorldPlace>>
    requires needed { IsNeeded input.now }
    requires trims { input.now.adapter.now.library_info ≡ None }
    requires original { IsInputRecord input.now input.now.adapter.now.wasm.items
        (module_record first.now) }
    requires names { names_of names.now.keys
        ≡ required_names (required_of input.now) first.now.exports }
    ensures trimmed { IfOk result
        (λ v. IsInputTrimmedText input.now (module_record first.now) v.items) }
    ensures refusal { IfErr result (IsInputRefusal input.now) }
{
    let realloc = main_realloc(input.encoder, input.main);
    let page_size_log2 = trim_page_size_log2(first.imports.imported_memory());
    let wasm: &[u8] = &input.adapter.wasm;
    slices_are_bytes(wasm);
    match run_explained(alloc, wasm, names, realloc, page_size_log2) {
        Ok(bytes) => Ok(bytes),
        Err(refused) => Err(trim_refusal(alloc, input.name, refused)),
    }
}

/// The bytes that an adapter is trimmed to, by what is recorded of those that the encoder has.
fn trimmed_bytes(
    alloc: Global,
    input: &AdapterInput<'_, '_>,
    first: &ValidatedModule,
) -> Result<Vec<u8>, Refused<WorldFault, WorldPlace>>
    requires needed { IsNeeded input.now }
    requires trims { input.now.adapter.now.library_info ≡ None }
    requires original { IsInputRecord input.now input.now.adapter.now.wasm.items
        (module_record first.now) }
    ensures trimmed { IfOk result
        (λ v. IsInputTrimmedText input.now (module_record first.now) v.items) }
    ensures refusal { IfErr result (IsInputRefusal input.now) }
{
    let names = required_names(alloc, input.required, &first.exports)?;
    trim_to(alloc, input, first, &names)
}

/// The imports and exports of the bytes that an adapter is trimmed to.
fn trimmed_record(
    alloc: Global,
    input: &AdapterInput<'_, '_>,
    bytes: &[u8],
) -> Result<ValidatedModule, Refused<WorldFault, WorldPlace>>
    requires needed { IsNeeded input.now }
    requires trims { input.now.adapter.now.library_info ≡ None }
    ensures recorded { IfOk result (λ v. IsInputRecord input.now bytes.now (module_record v)) }
    ensures refusal { (first : ModuleRecord) → IsInputTrimmedText input.now first bytes.now
        → IfErr result (IsInputRefusal input.now) }
{
    trimmed_is_restricted(input.encoder);
    match validated(alloc, input, bytes, None) {
        Ok(record) => Ok(record),
        Err(refused) => Err(minimized_refusal(alloc, input.name, refused)),
    }
}

/// An adapter, trimmed.
fn trim_adapter<'a>(
    alloc: Global,
    input: &AdapterInput<'a, '_>,
    first: &ValidatedModule,
) -> Result<WorldAdapter<'a>, Refused<WorldFault, WorldPlace>>
    requires needed { IsNeeded input.now }
    requires trims { input.now.adapter.now.library_info ≡ None }
    requires original { IsInputRecord input.now input.now.adapter.now.wasm.items
        (module_record first.now) }
    ensures is_adapter { IfOk result (λ a. IsTrimmedInput input.now (adapter_view a)) }
    ensures library { IfOk result (λ a. a.library_info ≡ None) }
    ensures refusal { IfErr result (IsInputRefusal input.now) }
{
    trimmed_is_restricted(input.encoder);
    let bytes = trimmed_bytes(alloc, input, first)?;
    let info = trimmed_record(alloc, input, &bytes)?;
    Ok(WorldAdapter {
        wasm: CowSlice::Owned(bytes),
        info,
        library_info: None,
    })
}

/// An adapter or a library as a component has it, but for its pages.
fn trimmed_or_library<'a>(
    alloc: Global,
    input: &AdapterInput<'a, '_>,
) -> Result<WorldAdapter<'a>, Refused<WorldFault, WorldPlace>>
    requires { IsNeeded input.now }
    ensures is_adapter { IfOk result (λ a. IsInputTrimmedOrLibrary input.now (adapter_view a)) }
    ensures library { IfOk result (λ a. (adapter_view a).library_info
        ≡ (named_adapter input.now).1.library_info) }
    ensures refusal { IfErr result (IsInputRefusal input.now) }
{
    let first = input_record(alloc, input)?;
    match &input.adapter.library_info {
        Some(library) => Ok(WorldAdapter {
            wasm: CowSlice::Borrowed(&input.adapter.wasm),
            info: first,
            library_info: Some(library),
        }),
        None => trim_adapter(alloc, input, &first),
    }
}

/// Checks that the memory that a module imports has pages of as many bytes as the main module's memory.
fn check_pages(
    alloc: Global,
    input: &AdapterInput<'_, '_>,
    info: &ValidatedModule,
) -> Result<(), Refused<WorldFault, WorldPlace>>
    ensures paged { OnOk result (HasMainPages (main_of input.now) (module_record info.now)) }
    ensures refusal { (a : WorldAdapterView) → a.info ≡ module_record info.now
        → IsInputTrimmedOrLibrary input.now a → IfErr result (IsInputRefusal input.now) }
{
    let Some(memory) = info.imports.imported_memory() else {
        return Ok(());
    };
    let own = page_size(&memory);
    let main = main_page_size(&input.main.exports);
    if own == main {
        return Ok(());
    }
    Err(page_refusal(alloc, input.name, own, main))
}

/// An adapter or a library as a component has it.
fn one_adapter<'a>(
    alloc: Global,
    input: &AdapterInput<'a, '_>,
) -> Result<WorldAdapter<'a>, Refused<WorldFault, WorldPlace>>
    requires { IsNeeded input.now }
    ensures is_adapter { IfOk result (λ a. IsAdapterOfInput input.now (adapter_view a)) }
    ensures refusal { IfErr result (IsInputRefusal input.now) }
{
    let adapter = trimmed_or_library(alloc, input)?;
    check_pages(alloc, input, &adapter.info)?;
    Ok(adapter)
}

/// Whether a component has an adapter or a library.
fn is_input_needed(input: &AdapterInput<'_, '_>) -> bool
    requires { required_of input.now ≡ required_in input.now.main.now.imports input.now.name.now }
    ensures { result ≡ is_adapter_needed input.now.encoder.now (main_of input.now)
        (named_adapter input.now) }
{
    let encoder = input.encoder;
    encoder.well_formedness();
    let metadata = encoder.metadata();
    let resolve = &metadata.resolve;
    resolve.well_formedness();
    let exports = &resolve.world(metadata.world).exports;
    is_needed(resolve, exports, input.adapter, input.required)
}

/// Adds an adapter or a library, by what the main module imports from it, if a component has it.
fn add_input<'a>(
    alloc: Global,
    input: &AdapterInput<'a, '_>,
    found: &mut Map<&'a str, WorldAdapter<'a>>,
) -> Result<(), Refused<WorldFault, WorldPlace>>
    requires required { required_of input.now
        ≡ required_in input.now.main.now.imports input.now.name.now }
    requires same { input.now.interfaces.now ≡ input.now.encoder.now }
    ensures is_adapter { AddsAdapterOnOk result input.now.encoder.now (main_of input.now)
        (named_adapter input.now) (adapters_view found.old) (adapters_view found.new) }
    ensures refusal { IfErr result (λ x. IsMemoryRefusal x ⊎ IsNeededStopAt
        input.now.encoder.now (main_of input.now) (named_adapter input.now) x) }
{
    if !is_input_needed(input) {
        return Ok(());
    }
    let world_adapter = one_adapter(alloc, input)?;
    found.insert(input.name, world_adapter)?;
    Ok(())
}

/// Adds an adapter or a library, if a component has it.
fn add_adapter<'a>(
    alloc: Global,
    context: MainContext<'a, '_>,
    name: &'a str,
    adapter: &'a Adapter,
    found: &mut Map<&'a str, WorldAdapter<'a>>,
) -> Result<(), Refused<WorldFault, WorldPlace>>
    requires { context.interfaces.now ≡ context.encoder.now }
    ensures is_adapter { let c = context.entry in AddsAdapterOnOk result c.encoder.now
        (module_record c.main.now) (name.now, input_view adapter.now)
        (adapters_view found.old) (adapters_view found.new) }
    ensures refusal { let c = context.entry in IfErr result (λ x. IsMemoryRefusal x
        ⊎ IsNeededStopAt c.encoder.now (module_record c.main.now)
        (name.now, input_view adapter.now) x) }
{
    let main = context.main;
    let required = main.imports.required_from_adapter(alloc, name)?;
    let input = AdapterInput {
        encoder: context.encoder,
        interfaces: context.interfaces,
        main,
        required: &required,
        name,
        adapter,
    };
    add_input(alloc, &input, found)
}

/// The adapters and libraries that a component has, in order, by what its main module imports.
fn adapters_by<'a>(
    alloc: Global,
    context: MainContext<'a, '_>,
) -> Result<Map<&'a str, WorldAdapter<'a>>, Refused<WorldFault, WorldPlace>>
    requires { context.interfaces.now ≡ context.encoder.now }
    ensures is_adapter { let c = context.entry in IfOk result
        (λ found. AreAdapters c.encoder.now (module_record c.main.now) (adapters_view found)) }
    ensures refusal { let c = context.entry in IfErr result (λ x. IsMemoryRefusal x
        ⊎ IsFirstRefusal c.encoder.now (module_record c.main.now) x) }
{
    let adapters = context.encoder.adapters();
    let mut found = Map::with_hasher(alloc, *adapters.hasher());
    for (name, adapter) in adapters.iter() {
        add_adapter(alloc, context, name, adapter, &mut found)?;
    }
    Ok(found)
}

/// The adapters and libraries that a component has, in order, by what its main module imports.
pub(crate) fn adapters_of<'a>(
    alloc: Global,
    encoder: &'a ComponentEncoder,
    main: &ValidatedModule,
) -> Result<Map<&'a str, WorldAdapter<'a>>, Refused<WorldFault, WorldPlace>>
    ensures is_adapter { IfOk result (λ found. AreAdapters encoder.now (module_record main.now)
        (adapters_view found)) }
    ensures refusal { IfErr result (λ x. IsMemoryRefusal x
        ⊎ IsFirstRefusal encoder.now (module_record main.now) x) }
{
    let interfaces = WorldInterfaces::new(alloc, encoder, encoder.adapters().len())?;
    let context = MainContext {
        encoder,
        interfaces: &interfaces,
        main,
    };
    adapters_by(alloc, context)
}
