//! The calls of `wc_calls` and of `wc_component_calls` as a static library for programs in other languages.
//!
//! Each function takes numbers and slices, and is one call. A slice is passed as a pointer and a length, a slice of
//! slices as a pointer to such pairs and their number; for `alloc` nothing is passed. The answer is a struct by
//! value.
//!
//! A function requires of its arguments only what their types say. A pointer with a length points to this many bytes,
//! only the call uses the bytes of `out` while it runs, and no pointer is null, even if the length is 0. Calls may
//! run on several threads at once. A null pointer of an empty slice is tested (`checks/c/fuzz_calls.c`), but the
//! proof does not cover it.
//!
//! `seed0` and `seed1` are the seed of the maps that a call makes (`wc_maps::Seed`). No answer depends on them. If
//! they are random, nobody can choose names that make a call slow. All calls of a process may have the same seed.
//!
//! Memory comes from three functions that the program must define: `rattle_alloc`, `rattle_realloc` and
//! `rattle_dealloc`. A call frees all its memory before it returns.
#![tactic(auto)]

ghost use Rattle.std.specs.Prelude.{◌≡◌, ◌≢◌, ◌≤◌, ◌⊎◌, ℕ, List, []};
ghost use Rattle.std.specs.List.{All};
ghost use Rattle.std.specs.Option.{option_map};
ghost use Rattle.std.specs.Str.{IsUtf8};
ghost use Rattle.wc_read.specs.Sections.{IsComponent};
ghost use Rattle.wc_dedupe.specs.Dedupe.{IsDeduped};
ghost use Rattle.wc_gc.specs.LiveItems.{trim_input_for_names};
ghost use Rattle.wc_gc.specs.TrimmedText.{IsTrimmed};
ghost use Rattle.wc_calls.specs.Answers.{AreOthersOfFaultZero, AreOthersOfTextZero, AreOthersZero, IsPut, IsTooLong, done, failed, too_small, same, bad_argument, no_such_fault, out_of_memory};
ghost use Rattle.wc_calls.specs.ComponentPlans.{IsPlanAnswer};
ghost use Rattle.wc_calls.specs.ComponentWorlds.{IsFaultOf, IsWorldAnswer};
ghost use Rattle.wc_calls.specs.Renaming.{IsRenamed, IsRenamingFault};
ghost use Rattle.wc_calls.specs.ExportNames.{texts};
ghost use Rattle.wc_calls.specs.FaultTexts.{IsFaultText};
ghost use Rattle.wc_calls.specs.ImportChains.{IsWhyFault, IsWhyText};
ghost use Rattle.wc_calls.specs.ModulePaths.{ArePathArguments, IsPathsAnswer, IsPathsFault};
ghost use Rattle.wc_calls.specs.PlannedWorlds.{IsPlannedWorldAnswer};
ghost use Rattle.wc_calls.specs.Scanning.{IsScanFault, IsScanText};
ghost use Rattle.wc_calls.specs.Trimming.{AreArguments, IsTrimmingFault};
ghost use Rattle.wc_calls.specs.ValidatedModules.{IsNoneAskedOf, IsRecordAnswer, IsRecordFaultOf};
ghost use Rattle.wc_calls.specs.Validation.{IsNoModuleOf, IsValidOf, IsValidationFaultOf};
ghost use Rattle.wc_component_calls.specs.ImportsCall.{AreComponentImports, IsImportsFault};
ghost use Rattle.wc_component_calls.specs.PathsCall.{IsComponentPaths, IsPathsFault as IsComponentPathsFault};
ghost use Rattle.nuigatre.specs.Arguments.{optional_name, settings_of};

mod call_example;

use std::alloc::Global;
use wc_calls::{
    Answer, dedupe, fault_text, paths, plan, planned_world, scan, trim, validate, validated_module,
    why, world,
};
use wc_component_calls::{component_imports, component_paths};
use wc_maps::Seed;

/// Renames the imports of a module so that no two share a module and a name: `wc_calls::dedupe`.
#[unsafe(no_mangle)]
pub extern "C" fn nuigatre_dedupe(alloc: Global, wasm: &[u8], out: &mut [u8]) -> Answer
    ensures done { result.status ≡ done
        → IsPut (IsRenamed wasm.now result.module_length) result.length out.old out.new }
    ensures too_small { result.status ≡ too_small
        → IsTooLong (IsRenamed wasm.now result.module_length) result.length out.old }
    ensures same { result.status ≡ same → IsDeduped wasm.now wasm.now [] }
    ensures fault { result.status ≡ failed → IsRenamingFault wasm.now result out.old out.new }
    ensures component { IsComponent wasm.now → result.status ≡ same }
    ensures unchanged { result.status ≢ done → result.status ≢ failed → out.new ≡ out.old }
    ensures statuses { (result.status ≤ 5) × (result.status ≢ bad_argument) }
    ensures position { result.position ≡ 0 }
    ensures others { AreOthersOfTextZero result }
{
    dedupe(alloc, wasm, out)
}

/// Trims an adapter to the items that its exports with these names reach: `wc_calls::trim`. If `has_realloc`, the
/// main module exports a realloc as `realloc`; otherwise `realloc` is ignored.
#[unsafe(no_mangle)]
pub extern "C" fn nuigatre_trim(
    alloc: Global,
    seed0: u64,
    seed1: u64,
    wasm: &[u8],
    required: &[&[u8]],
    has_realloc: bool,
    realloc: &[u8],
    page_size_log2: u32,
    out: &mut [u8],
) -> Answer
    ensures done { result.status ≡ done
        → IsPut (IsTrimmed (settings_of has_realloc realloc.now page_size_log2)
        (trim_input_for_names wasm.now (texts required.now))) result.length out.old out.new }
    ensures too_small { result.status ≡ too_small
        → IsTooLong (IsTrimmed (settings_of has_realloc realloc.now page_size_log2)
        (trim_input_for_names wasm.now (texts required.now))) result.length out.old }
    ensures fault { result.status ≡ failed
        → IsTrimmingFault (settings_of has_realloc realloc.now page_size_log2) wasm.now
        (texts required.now) result out.old out.new }
    ensures module_length { result.status ≢ failed → result.module_length ≡ result.length }
    ensures bad_argument { result.status ≡ bad_argument
        → ¬ (AreArguments (settings_of has_realloc realloc.now page_size_log2)
        (texts required.now)) }
    ensures arguments { result.status ≢ bad_argument
        → AreArguments (settings_of has_realloc realloc.now page_size_log2)
        (texts required.now) }
    ensures unchanged { result.status ≢ done → result.status ≢ failed → out.new ≡ out.old }
    ensures statuses { (result.status ≤ 5) × (result.status ≢ same) }
    ensures others { AreOthersOfTextZero result }
{
    let seed = Seed::new(seed0, seed1);
    let realloc = optional_name(has_realloc, realloc);
    trim(alloc, seed, wasm, required, realloc, page_size_log2, out)
}

/// Says why an adapter has its imports, if its exports with these names are required: `wc_calls::why`.
#[unsafe(no_mangle)]
pub extern "C" fn nuigatre_why(
    alloc: Global,
    seed0: u64,
    seed1: u64,
    wasm: &[u8],
    required: &[&[u8]],
    out: &mut [u8],
) -> Answer
    ensures done { result.status ≡ done
        → IsPut (IsWhyText (trim_input_for_names wasm.now (texts required.now)))
        result.length out.old out.new }
    ensures too_small { result.status ≡ too_small
        → IsTooLong (IsWhyText (trim_input_for_names wasm.now (texts required.now)))
        result.length out.old }
    ensures fault { result.status ≡ failed
        → IsWhyFault wasm.now (texts required.now) result out.old out.new }
    ensures module_length { result.module_length ≡ 0 }
    ensures bad_argument { result.status ≡ bad_argument → ¬ (All IsUtf8 (texts required.now)) }
    ensures arguments { result.status ≢ bad_argument → All IsUtf8 (texts required.now) }
    ensures unchanged { result.status ≢ done → result.status ≢ failed → out.new ≡ out.old }
    ensures statuses { (result.status ≤ 5) × (result.status ≢ same) }
    ensures others { AreOthersOfTextZero result }
{
    let seed = Seed::new(seed0, seed1);
    why(alloc, seed, wasm, required, out)
}

/// Makes the world of a component, which the message describes in JSON: `wc_calls::world`.
#[unsafe(no_mangle)]
pub extern "C" fn nuigatre_world(
    alloc: Global,
    seed0: u64,
    seed1: u64,
    message: &[u8],
    modules: &[u8],
    out: &mut [u8],
) -> Answer
    ensures done { result.status ≡ done → IsPut (IsWorldAnswer message.now modules.now
        result.module_length) result.length out.old out.new }
    ensures too_small { result.status ≡ too_small → IsTooLong
        (IsWorldAnswer message.now modules.now result.module_length) result.length out.old }
    ensures fault { result.status ≡ failed → IsFaultOf message.now modules.now
        result out.old out.new }
    ensures unchanged { result.status ≢ done → result.status ≢ failed → out.new ≡ out.old }
    ensures statuses { (result.status ≤ 5) × (result.status ≢ same)
        × (result.status ≢ bad_argument) }
    ensures others { AreOthersOfTextZero result }
{
    let seed = Seed::new(seed0, seed1);
    world(alloc, seed, message, modules, out)
}

/// Makes the plan of a component, which the message describes in JSON: `wc_calls::plan`.
#[unsafe(no_mangle)]
pub extern "C" fn nuigatre_plan(
    alloc: Global,
    seed0: u64,
    seed1: u64,
    message: &[u8],
    modules: &[u8],
    out: &mut [u8],
) -> Answer
    ensures done { result.status ≡ done
        → IsPut (IsPlanAnswer message.now modules.now) result.length out.old out.new }
    ensures too_small { result.status ≡ too_small
        → IsTooLong (IsPlanAnswer message.now modules.now) result.length out.old }
    ensures fault { result.status ≡ failed → IsFaultOf message.now modules.now
        result out.old out.new }
    ensures module_length { result.module_length ≡ 0 }
    ensures unchanged { result.status ≢ done → result.status ≢ failed → out.new ≡ out.old }
    ensures statuses { (result.status ≤ 5) × (result.status ≢ same)
        × (result.status ≢ bad_argument) }
    ensures others { AreOthersOfTextZero result }
{
    let seed = Seed::new(seed0, seed1);
    plan(alloc, seed, message, modules, out)
}

/// Makes the world of a component and its plan, which the message describes in JSON, once: `wc_calls::planned_world`.
#[unsafe(no_mangle)]
pub extern "C" fn nuigatre_planned_world(
    alloc: Global,
    seed0: u64,
    seed1: u64,
    message: &[u8],
    modules: &[u8],
    out: &mut [u8],
) -> Answer
    ensures done { result.status ≡ done → IsPut (IsPlannedWorldAnswer message.now modules.now
        result.module_length) result.length out.old out.new }
    ensures too_small { result.status ≡ too_small → IsTooLong
        (IsPlannedWorldAnswer message.now modules.now result.module_length)
        result.length out.old }
    ensures fault { result.status ≡ failed → IsFaultOf message.now modules.now
        result out.old out.new }
    ensures unchanged { result.status ≢ done → result.status ≢ failed → out.new ≡ out.old }
    ensures statuses { (result.status ≤ 5) × (result.status ≢ same)
        × (result.status ≢ bad_argument) }
    ensures others { AreOthersOfTextZero result }
{
    let seed = Seed::new(seed0, seed1);
    planned_world(alloc, seed, message, modules, out)
}

/// Validates one module of a component, which the message describes in JSON: `wc_calls::validate`. If `has_adapter`,
/// it is the adapter or the library with the name `adapter`; otherwise it is the main module, and `adapter` is
/// ignored.
#[unsafe(no_mangle)]
pub extern "C" fn nuigatre_validate(
    alloc: Global,
    seed0: u64,
    seed1: u64,
    message: &[u8],
    modules: &[u8],
    has_adapter: bool,
    adapter: &[u8],
    out: &mut [u8],
) -> Answer
    ensures done { result.status ≡ done → IsValidOf message.now modules.now
        (optional_name has_adapter adapter.now) }
    ensures bad_argument { result.status ≡ bad_argument → IsNoModuleOf message.now modules.now
        (optional_name has_adapter adapter.now) }
    ensures fault { result.status ≡ failed → IsValidationFaultOf message.now modules.now
        (optional_name has_adapter adapter.now) result out.old out.new }
    ensures unchanged { result.status ≢ failed → out.new ≡ out.old }
    ensures statuses { (result.status ≤ 5) × (result.status ≢ same)
        × (result.status ≢ too_small) }
    ensures others { AreOthersOfFaultZero result }
{
    let seed = Seed::new(seed0, seed1);
    let adapter = optional_name(has_adapter, adapter);
    validate(alloc, seed, message, modules, adapter, out)
}

/// Validates one module of a component, which the message describes in JSON, and gives what is recorded of it:
/// `wc_calls::validated_module`. If `has_adapter`, it is the adapter or the library with the name `adapter`;
/// otherwise it is the main module, and `adapter` and `required` are ignored.
#[unsafe(no_mangle)]
pub extern "C" fn nuigatre_validated_module(
    alloc: Global,
    seed0: u64,
    seed1: u64,
    message: &[u8],
    modules: &[u8],
    has_adapter: bool,
    adapter: &[u8],
    required: &[u8],
    out: &mut [u8],
) -> Answer
    ensures done { result.status ≡ done → IsPut (IsRecordAnswer message.now modules.now
        (optional_name has_adapter adapter.now) required.now) result.length out.old out.new }
    ensures too_small { result.status ≡ too_small
        → IsTooLong (IsRecordAnswer message.now modules.now
        (optional_name has_adapter adapter.now) required.now) result.length out.old }
    ensures bad_argument { result.status ≡ bad_argument → IsNoneAskedOf message.now modules.now
        (optional_name has_adapter adapter.now) required.now }
    ensures fault { result.status ≡ failed → IsRecordFaultOf message.now modules.now
        (optional_name has_adapter adapter.now) required.now result out.old out.new }
    ensures module_length { result.module_length ≡ 0 }
    ensures unchanged { result.status ≢ done → result.status ≢ failed → out.new ≡ out.old }
    ensures statuses { (result.status ≤ 5) × (result.status ≢ same) }
    ensures others { AreOthersOfTextZero result }
{
    let seed = Seed::new(seed0, seed1);
    let adapter = optional_name(has_adapter, adapter);
    validated_module(alloc, seed, message, modules, adapter, required, out)
}

/// Lists the imports and exports of a module with their types, and the names of its functions: `wc_calls::scan`.
#[unsafe(no_mangle)]
pub extern "C" fn nuigatre_scan(alloc: Global, wasm: &[u8], out: &mut [u8]) -> Answer
    ensures done { result.status ≡ done
        → IsPut (IsScanText wasm.now) result.length out.old out.new }
    ensures too_small { result.status ≡ too_small
        → IsTooLong (IsScanText wasm.now) result.length out.old }
    ensures fault { result.status ≡ failed → IsScanFault wasm.now result out.old out.new }
    ensures module_length { result.module_length ≡ 0 }
    ensures unchanged { result.status ≢ done → result.status ≢ failed → out.new ≡ out.old }
    ensures statuses { (result.status ≤ 5) × (result.status ≢ same)
        × (result.status ≢ bad_argument) }
    ensures position { result.position ≡ 0 }
    ensures others { AreOthersOfTextZero result }
{
    scan(alloc, wasm, out)
}

/// Gives the paths to the imports of any module, main modules too, from its exports with these names (from all, if
/// `exports` is empty) and from its start function. `imports` has the keys of the requested imports:
/// `wc_calls::paths`.
#[unsafe(no_mangle)]
pub extern "C" fn nuigatre_paths(
    alloc: Global,
    seed0: u64,
    seed1: u64,
    wasm: &[u8],
    exports: &[&[u8]],
    imports: &[&[u8]],
    out: &mut [u8],
) -> Answer
    ensures done { result.status ≡ done
        → IsPut (IsPathsAnswer wasm.now (texts exports.now) (texts imports.now))
        result.length out.old out.new }
    ensures too_small { result.status ≡ too_small
        → IsTooLong (IsPathsAnswer wasm.now (texts exports.now) (texts imports.now))
        result.length out.old }
    ensures fault { result.status ≡ failed
        → IsPathsFault wasm.now (texts exports.now) result out.old out.new }
    ensures module_length { result.module_length ≡ 0 }
    ensures bad_argument { result.status ≡ bad_argument
        → ¬ (ArePathArguments (texts exports.now) (texts imports.now)) }
    ensures arguments { result.status ≢ bad_argument
        → ArePathArguments (texts exports.now) (texts imports.now) }
    ensures unchanged { result.status ≢ done → result.status ≢ failed → out.new ≡ out.old }
    ensures statuses { (result.status ≤ 5) × (result.status ≢ same) }
    ensures others { AreOthersOfTextZero result }
{
    let seed = Seed::new(seed0, seed1);
    paths(alloc, seed, wasm, exports, imports, out)
}

/// Says why a component, which the message describes in JSON, has the imports that a key requests, by the paths to
/// them: `wc_component_calls::component_paths`.
#[unsafe(no_mangle)]
pub extern "C" fn nuigatre_component_paths(
    alloc: Global,
    seed0: u64,
    seed1: u64,
    message: &[u8],
    modules: &[u8],
    key: &[u8],
    out: &mut [u8],
) -> Answer
    ensures done { result.status ≡ done
        → IsPut (IsComponentPaths message.now modules.now key.now) result.length
        out.old out.new }
    ensures too_small { result.status ≡ too_small
        → IsTooLong (IsComponentPaths message.now modules.now key.now) result.length out.old }
    ensures fault { result.status ≡ failed → IsComponentPathsFault message.now modules.now key.now
        result out.old out.new }
    ensures module_length { result.module_length ≡ 0 }
    ensures bad_argument { result.status ≡ bad_argument → ¬ (IsUtf8 key.now) }
    ensures arguments { result.status ≢ bad_argument → IsUtf8 key.now }
    ensures unchanged { result.status ≢ done → result.status ≢ failed → out.new ≡ out.old }
    ensures statuses { (result.status ≤ 5) × (result.status ≢ same) }
    ensures others { AreOthersOfTextZero result }
{
    let seed = Seed::new(seed0, seed1);
    component_paths(alloc, seed, message, modules, key, out)
}

/// Lists the imports of a component, which the message describes in JSON, from each interface, and the items that
/// must be removed to drop them: `wc_component_calls::component_imports`.
#[unsafe(no_mangle)]
pub extern "C" fn nuigatre_component_imports(
    alloc: Global,
    seed0: u64,
    seed1: u64,
    message: &[u8],
    modules: &[u8],
    out: &mut [u8],
) -> Answer
    ensures done { result.status ≡ done
        → IsPut (AreComponentImports message.now modules.now) result.length out.old out.new }
    ensures too_small { result.status ≡ too_small
        → IsTooLong (AreComponentImports message.now modules.now) result.length out.old }
    ensures fault { result.status ≡ failed → IsImportsFault message.now modules.now
        result out.old out.new }
    ensures module_length { result.module_length ≡ 0 }
    ensures unchanged { result.status ≢ done → result.status ≢ failed → out.new ≡ out.old }
    ensures statuses { (result.status ≤ 5) × (result.status ≢ same)
        × (result.status ≢ bad_argument) }
    ensures others { AreOthersOfTextZero result }
{
    let seed = Seed::new(seed0, seed1);
    component_imports(alloc, seed, message, modules, out)
}

/// Writes the text of a fault of `nuigatre_dedupe` (`call` is 0), `nuigatre_trim` (1), `nuigatre_why` (2),
/// `nuigatre_scan` (3) or `nuigatre_paths` (4), found by the number that the call answers: `wc_calls::fault_text`.
#[unsafe(no_mangle)]
pub extern "C" fn nuigatre_fault_text(
    alloc: Global,
    call: u32,
    number: u32,
    out: &mut [u8],
) -> Answer
    ensures done { result.status ≡ done
        → IsPut (IsFaultText call number) result.length out.old out.new }
    ensures too_small { result.status ≡ too_small
        → IsTooLong (IsFaultText call number) result.length out.old }
    ensures unknown { result.status ≡ no_such_fault
        → (text : List ℕ) → ¬ (IsFaultText call number text) }
    ensures unchanged { result.status ≢ done → out.new ≡ out.old }
    ensures statuses { (result.status ≡ done) ⊎ (result.status ≡ too_small)
        ⊎ (result.status ≡ out_of_memory) ⊎ (result.status ≡ no_such_fault) }
    ensures no_module { result.module_length ≡ 0 }
    ensures others { AreOthersZero result }
{
    fault_text(alloc, call, number, out)
}

/// The form of the calls, messages and answers.
const ABI: u32 = 9;

/// The version of the form of these calls, their messages and answers. It increases with each change that a caller
/// can see.
#[unsafe(no_mangle)]
pub extern "C" fn nuigatre_abi() -> u32
    ensures { result ≡ 9 }
{
    ABI
}

/// The name, if present.
fn optional_name(has_name: bool, name: &[u8]) -> Option<&[u8]>
    ensures { option_map (λ n. n.now) result ≡ optional_name has_name name.now }
{
    if has_name { Some(name) } else { None }
}
