//! Plans, function by function.

ghost use Rattle.std.specs.Prelude.{◌≡◌, ◌+◌, ◌++◌, ◌∷◌, ◌⊎◌, [], All, IfErr, IfOk, None, OnOk, Some, cond, if◌then◌else◌, is_some, string_bytes};
ghost use Rattle.std.specs.List.{cons_option};
ghost use Rattle.std.specs.Option.{option_copied, option_map};
ghost use Rattle.wc_names.specs.Views.{import_view};
ghost use Rattle.wc_validate.specs.Validate.{module_record};
ghost use Rattle.wc_world.specs.Options.{realloc_flag};
ghost use Rattle.wc_world.specs.WorldViews.{lowering_view, world_view};
ghost use Rattle.wc_plan.specs.Calls.{all_wanted, wanted_by};
ghost use Rattle.wc_world.specs.Nameable.{IsNameable, AreModuleNameable, AreNameable};
ghost use Rattle.wc_plan.specs.Plans.{has_memory, import_realloc, needs, plan_of, use_of};
ghost use Rattle.wc_plan.specs.PlanViews.{call_view, owner_view, plan_view, use_view};
ghost use Rattle.wc_plan.specs.Fault.{HasNoFault, IsMemoryRefusal, IsPlanRefusal, IsServable, place_view};
ghost use Rattle.wc_plan.specs.Views.{OwnerView};
ghost use Rattle.wc_plan.specs.Planner.{IsCallRefusal, IsContext, IsCounted, IsPlanFault, IsPlanned, Plans, RefusesPlan, owner_in, wanted_by_adapters, wanted_call, wanted_import, world_in};

use crate::calls::{Call, call_of};
use crate::fault::{PlanFault, PlanPlace};
use crate::lowerings::{has_memory_option, has_realloc_option, is_indirect, lowering_of};
use crate::{Owner, Plan, Use};
use std::alloc::{AllocError, AllocFailed, Global};
use wc_maps::Set;
use wc_names::Import;
use wc_texts::Refused;
use wc_validate::{ExportMap, ValidatedModule};
use wc_world::{ComponentWorld, Lowering};

/// The world that a plan is made of, and whether its main module has a memory.
#[derive(Clone, Copy)]
struct Context<'a, 'w> {
    world: &'a ComponentWorld<'w>,
    has_memory: bool,
}

/// A module whose imports are planned.
#[derive(Clone, Copy)]
struct Importer<'a> {
    /// The name of an adapter; `None` for the main module.
    owner: Option<&'a str>,
    exports: &'a ExportMap,
}

/// A plan, as far as it is made.
#[derive(Drop)]
struct Planner<'a> {
    /// The functions that were found, with the owners of their modules.
    seen: Set<(Option<&'a str>, Call)>,
    uses: Vec<Use>,
    /// The position of the next function that stands in for another.
    slots: u64,
}

/// Whether the main module imports its memory, or exports one.
fn has_memory(main: &ValidatedModule) -> bool
    ensures { result ≡ has_memory (module_record main.now) }
{
    main.imports.imported_memory().is_some() || main.exports.memory().is_some()
}

/// The adapter of this name; without a name, the main module.
fn owner_of(alloc: Global, name: Option<&str>) -> Result<Owner, AllocError>
    ensures { IfOk result (λ o. owner_view o ≡ owner_in name.entry) }
{
    match name {
        Some(name) => Ok(Owner::Adapter(String::from_str(alloc, name)?)),
        None => Ok(Owner::Main),
    }
}

/// A copy of an interface's name, of its function's name and of the variant.
fn copy_of(alloc: Global, call: &Call) -> Result<Call, AllocError>
    ensures { (owner : OwnerView) → IfOk result (λ c. call_view owner c
        ≡ call_view owner call.now) }
{
    let interface = match &call.0 {
        Some(interface) => Some(String::from_str(alloc, interface)?),
        None => None,
    };
    let name = String::from_str(alloc, &call.1.0)?;
    Ok((interface, (name, call.1.1)))
}

/// The realloc that a lowered function needs, among the exports of its module.
fn realloc_for(
    alloc: Global,
    exports: &ExportMap,
    lowering: &Lowering,
) -> Result<Option<String>, AllocError>
    ensures { IfOk result (λ r. option_map string_bytes r
        ≡ cond (needs realloc_flag (lowering_view lowering.now))
        (import_realloc exports.now) None) }
{
    if !has_realloc_option(lowering) {
        return Ok(None);
    }
    match exports.import_realloc_for(None, "") {
        Some(name) => Ok(Some(String::from_str(alloc, name)?)),
        None => Ok(None),
    }
}

/// A copy of the name of an adapter, if there is one.
fn name_of(alloc: Global, name: Option<&str>) -> Result<Option<String>, AllocError>
    ensures { IfOk result (λ n. option_map string_bytes n ≡ option_copied name.entry) }
{
    match name {
        Some(name) => Ok(Some(String::from_str(alloc, name)?)),
        None => Ok(None),
    }
}

/// The refusal of a function of a module for this fault.
fn refusal(
    alloc: Global,
    importer: Importer<'_>,
    call: Call,
    fault: PlanFault,
) -> Refused<PlanFault, PlanPlace>
    ensures { IsMemoryRefusal result ⊎ ((result.fault ≡ fault) × (option_map place_view
        result.place ≡ Some (wanted_call importer.entry call).0)) }
{
    let (interface, (name, abi)) = call;
    match name_of(alloc, importer.owner) {
        Ok(adapter) => Refused {
            fault,
            place: Some(PlanPlace {
                adapter,
                interface,
                name,
                abi,
            }),
        },
        Err(e) => Refused::from(e),
    }
}

/// The use of a function, after so many that others stand in for.
fn use_of(
    alloc: Global,
    context: Context<'_, '_>,
    importer: Importer<'_>,
    slots: u64,
    call: Call,
) -> Result<Use, Refused<PlanFault, PlanPlace>>
    requires { IsContext context }
    ensures made { IfOk result (λ u. use_view u
        ≡ use_of (world_in context.entry) slots (wanted_call importer.entry call)) }
    ensures servable { OnOk result (IsServable (world_in context.entry)
        (wanted_call importer.entry call)) }
    ensures fault { IfErr result (IsCallRefusal (world_in context.entry)
        (wanted_call importer.entry call)) }
{
    let Some(lowering) = lowering_of(&context.world.import_map, &call) else {
        let fault = PlanFault::NoLowering(String::from_str(alloc, &call.1.0)?);
        return Err(refusal(alloc, importer, call, fault));
    };
    if has_memory_option(lowering) && !context.has_memory {
        let fault = PlanFault::NoMemory(String::from_str(alloc, &call.1.0)?);
        return Err(refusal(alloc, importer, call, fault));
    }
    let realloc = realloc_for(alloc, importer.exports, lowering)?;
    if has_realloc_option(lowering) && realloc.is_none() {
        let fault = PlanFault::NoRealloc(String::from_str(alloc, &call.1.0)?);
        return Err(refusal(alloc, importer, call, fault));
    }
    let (interface, (name, abi)) = call;
    let slot = if is_indirect(lowering) {
        Some(slots)
    } else {
        None
    };
    Ok(Use {
        module: owner_of(alloc, importer.owner)?,
        interface,
        name,
        abi,
        slot,
        realloc,
    })
}

/// Adds a use, and counts its slot.
fn push_use(planner: &mut Planner<'_>, one: Use) -> Result<(), AllocFailed<Use>>
    requires { IsCounted planner.old }
    ensures uses { OnOk result (planner.new.uses.items ≡ planner.old.uses.items ++ one ∷ []) }
    ensures slots { OnOk result (planner.new.slots
        ≡ planner.old.slots + (if is_some one.slot then 1 else 0)) }
    ensures seen { OnOk result (planner.new.seen.keys ≡ planner.old.seen.keys) }
{
    let has_slot = one.slot.is_some();
    planner.uses.push(one)?;
    if has_slot {
        planner.slots += 1;
    }
    Ok(())
}

/// Adds the use of a function, unless it was added before.
fn add_call<'a>(
    alloc: Global,
    context: Context<'_, '_>,
    importer: Importer<'a>,
    planner: &mut Planner<'a>,
    call: Call,
) -> Result<(), Refused<PlanFault, PlanPlace>>
    requires world { IsContext context }
    requires counted { IsCounted planner.old }
    ensures counted { OnOk result (IsCounted planner.new) }
    ensures made { Plans (world_in context.entry)
        (λ rest. wanted_call importer.entry call ∷ rest) planner.old planner.new result }
    ensures fault { RefusesPlan (world_in context.entry)
        (λ rest. wanted_call importer.entry call ∷ rest) planner.old result }
{
    let copy = copy_of(alloc, &call)?;
    let is_new = planner.seen.insert((importer.owner, copy))?;
    if !is_new {
        return Ok(());
    }
    let one = use_of(alloc, context, importer, planner.slots, call)?;
    push_use(planner, one)?;
    Ok(())
}

/// Adds what an import needs, if it is a function that was not found before.
fn add_import<'a>(
    alloc: Global,
    context: Context<'_, '_>,
    importer: Importer<'a>,
    planner: &mut Planner<'a>,
    import: &Import,
) -> Result<(), Refused<PlanFault, PlanPlace>>
    requires nameable { IsNameable (world_in context).encoder.resolve
        (import_view import.now) }
    requires world { IsContext context }
    requires counted { IsCounted planner.old }
    ensures counted { OnOk result (IsCounted planner.new) }
    ensures made { let w = world_in context.entry in Plans w (cons_option
        (wanted_import w.encoder.resolve importer.entry (import_view import.now)))
        planner.old planner.new result }
    ensures fault { let w = world_in context.entry in RefusesPlan w (cons_option
        (wanted_import w.encoder.resolve importer.entry (import_view import.now)))
        planner.old result }
{
    let metadata = context.world.encoder.metadata();
    match call_of(alloc, &metadata.resolve, import)? {
        Some(call) => add_call(alloc, context, importer, planner, call),
        None => Ok(()),
    }
}

/// Adds the uses of a module's imports.
fn add_module<'a>(
    alloc: Global,
    context: Context<'_, '_>,
    owner: Option<&'a str>,
    info: &'a ValidatedModule,
    planner: &mut Planner<'a>,
) -> Result<(), Refused<PlanFault, PlanPlace>>
    requires nameable { AreModuleNameable (world_in context).encoder.resolve
        (module_record info.now) }
    requires world { IsContext context }
    requires counted { IsCounted planner.old }
    ensures counted { OnOk result (IsCounted planner.new) }
    ensures made { let w = world_in context.entry in Plans w
        (λ rest. wanted_by w.encoder.resolve (owner_in owner.entry) (module_record info.now)
        ++ rest) planner.old planner.new result }
    ensures fault { let w = world_in context.entry in RefusesPlan w
        (λ rest. wanted_by w.encoder.resolve (owner_in owner.entry) (module_record info.now)
        ++ rest) planner.old result }
{
    let importer = Importer {
        owner,
        exports: &info.exports,
    };
    for (_module, _name, import) in info.imports.imports() {
        add_import(alloc, context, importer, planner, import)?;
    }
    Ok(())
}

/// Adds the uses of the adapters' imports.
fn add_adapters<'a>(
    alloc: Global,
    context: Context<'a, '_>,
    planner: &mut Planner<'a>,
) -> Result<(), Refused<PlanFault, PlanPlace>>
    requires nameable { All (λ a. AreModuleNameable (world_in context).encoder.resolve
        a.1.info) (world_in context).adapters }
    requires world { IsContext context }
    requires counted { IsCounted planner.old }
    ensures made { let w = world_in context.entry in Plans w
        (λ rest. wanted_by_adapters w ++ rest) planner.old planner.new result }
    ensures fault { let w = world_in context.entry in RefusesPlan w
        (λ rest. wanted_by_adapters w ++ rest) planner.old result }
{
    for (name, adapter) in context.world.adapters.iter() {
        add_module(alloc, context, Some(name), &adapter.info, planner)?;
    }
    Ok(())
}

/// Adds the uses of the imports of the main module and of the adapters.
fn add_modules<'a>(
    alloc: Global,
    context: Context<'a, '_>,
    planner: &mut Planner<'a>,
) -> Result<(), Refused<PlanFault, PlanPlace>>
    requires nameable { AreNameable (world_in context) }
    requires world { IsContext context }
    requires counted { IsCounted planner.old }
    ensures made { IsPlanned (world_in context.entry) (all_wanted (world_in context.entry))
        planner.old → OnOk result (IsPlanned (world_in context.entry) [] planner.new) }
    ensures fault { IsPlanned (world_in context.entry) (all_wanted (world_in context.entry))
        planner.old → IfErr result (IsPlanRefusal (world_in context.entry)) }
{
    add_module(alloc, context, None, &context.world.info, planner)?;
    add_adapters(alloc, context, planner)
}

/// The uses of all functions that the main module and the adapters of a component's world import: first the uses of
/// the main module, and then the uses of each adapter, in order. If a module imports a function of one interface
/// twice, and calls it in one way, it is listed once.
///
/// The interfaces of these functions must be in range and have names (`Resolve::name_world_key`). In a world that
/// `ComponentWorld::new` makes, they are and do.
///
/// # Errors
///
/// The fault of the first function that has one; if this function has several, the first in this order. `Memory` may
/// come instead of any.
///
/// - `NoLowering`: the world has no lowering for it.
/// - `NoMemory`: its options have a memory, and the main module neither imports nor exports one.
/// - `NoRealloc`: its options have a realloc, and its module exports none for the results of imports.
/// - `Memory`: an allocation failed.
pub fn plan(alloc: Global, world: &ComponentWorld<'_>) -> Result<Plan, PlanFault>
    requires { AreNameable (world_view world.now) }
    ensures plan { IfOk result (λ p. plan_view p ≡ plan_of (world_view world.now)) }
    ensures servable { OnOk result (HasNoFault (world_view world.now)) }
    ensures fault { IfErr result (IsPlanFault (world_view world.now)) }
{
    match plan_explained(alloc, world) {
        Ok(plan) => Ok(plan),
        Err(refused) => Err(refused.fault),
    }
}

/// Like [`plan`]; if the call fails, the result also says which function of which module its fault is about. It
/// requires the same as `plan`.
///
/// # Errors
///
/// The faults of `plan`. Only `Memory` is about no function. If an allocation for the function of a fault fails, the
/// fault is `Memory`.
pub fn plan_explained(
    alloc: Global,
    world: &ComponentWorld<'_>,
) -> Result<Plan, Refused<PlanFault, PlanPlace>>
    requires { AreNameable (world_view world.now) }
    ensures plan { IfOk result (λ p. plan_view p ≡ plan_of (world_view world.now)) }
    ensures servable { OnOk result (HasNoFault (world_view world.now)) }
    ensures fault { IfErr result (λ x. IsPlanFault (world_view world.now) x.fault) }
    ensures place { IfErr result (IsPlanRefusal (world_view world.now)) }
{
    let mut planner = Planner {
        seen: Set::with_hasher(alloc, *world.import_map.hasher()),
        uses: Vec::new(alloc),
        slots: 0,
    };
    let has_memory = has_memory(&world.info);
    add_modules(alloc, Context { world, has_memory }, &mut planner)?;
    Ok(Plan { uses: planner.uses })
}
