//! The check that parts are well-formed: one file for each rule, in the order of the faults.

ghost use Rattle.std.specs.Prelude.{IfErr, IfOk, MatchOption, false, map, true};
ghost use Rattle.wc_resolve.specs.ResolveParts.{parts_view};
ghost use Rattle.wc_resolve.specs.Contents.{AreTextFlags};
ghost use Rattle.wc_resolve.specs.Fault.{IsOrderCause};
ghost use Rattle.wc_resolve.specs.Flat.{AreFlattened, lists};
ghost use Rattle.wc_resolve.specs.Futures.{AreFuturesEntries, entry_view};
ghost use Rattle.wc_resolve.specs.Explain.{AreFlagsFor, DoAllFollow, IsBreach};
ghost use Rattle.wc_resolve.specs.Refusals.{AreChecked, IsRefusal, IsRuleBroken};
ghost use Rattle.wc_resolve.specs.Validate.{AreFuturesTables, AreTables, IsOrder};
ghost use Rattle.wc_resolve.specs.Ranges.{AreIdsInRange};
ghost use Rattle.wc_resolve.specs.Resources.{AreResourceFlags};

pub(crate) mod cases;
mod first;
pub(crate) mod keys;
pub(crate) mod naming;
pub(crate) mod order;
pub(crate) mod package_names;
pub(crate) mod ranges;
pub(crate) mod resources;
mod rules;
pub(crate) mod spelling;
mod type_test;

use crate::contents::find_texts;
use crate::flattening::flatten_all;
use crate::futures::{FuturesEntry, futures_entries};
use crate::long_functions::{LongFunction, long_functions};
use crate::shortcuts::{Shortcut, shortcuts_along};
use crate::{PackageName, Part, Parts, ResolveFault, WasmType};
use first::{first_interface, first_package, first_type, first_world};
use order::{OrderFault, children_first};
use package_names::distinct_package_names;
use resources::find_resources;
use std::alloc::{AllocError, Global};
use wc_maps::Set;
use wc_texts::Refused;

/// The tables that the check of parts makes on its way.
#[derive(Drop)]
pub(crate) struct Checked {
    /// The indices of all types, each after the types that it refers to.
    order: Vec<usize>,
    /// For each type whether it is a resource, or an alias of one.
    resources: Vec<bool>,
    /// The names of the packages, in order.
    package_names: Set<PackageName>,
}

/// The tables of futures and streams, and of functions.
#[derive(Drop)]
pub(crate) struct FuturesTables {
    /// For each type its futures and streams.
    pub(crate) entries: Vec<FuturesEntry>,
    /// For each type a shortcut to one below it, if it has one.
    pub(crate) shortcuts: Vec<Option<Shortcut>>,
    /// The functions that have more than a few parameters, in the order of their places.
    pub(crate) long_functions: Vec<LongFunction>,
}

/// The tables that a `Resolve` keeps beside its parts.
#[derive(Drop)]
pub(crate) struct Tables {
    /// The indices of all types, each after the types that it refers to.
    pub(crate) order: Vec<usize>,
    /// For each type whether it is a resource, or an alias of one.
    pub(crate) resources: Vec<bool>,
    /// For each type its flat types, as many as are kept (`KEPT_FLAT_TYPES`).
    pub(crate) flats: Vec<Vec<WasmType>>,
    /// The futures and streams of types and functions.
    pub(crate) futures: FuturesTables,
    /// For each type whether it holds a string.
    pub(crate) strings: Vec<bool>,
    /// For each type whether it holds a string or a list.
    pub(crate) texts: Vec<bool>,
    /// The names of the packages, in order.
    pub(crate) package_names: Set<PackageName>,
}

/// The first part that breaks the rule of a fault.
fn first_breach(
    alloc: Global,
    parts: &Parts,
    fault: ResolveFault,
    resource_flags: &[bool],
) -> Result<Option<Part>, AllocError>
    requires { AreFlagsFor (parts_view parts.now) fault resource_flags.now }
    ensures { let r = parts_view parts.now in
        IfOk result (λ o. MatchOption o (DoAllFollow r fault) (IsBreach r fault)) }
{
    if let Some(index) = first_world(parts, fault, resource_flags, &parts.worlds) {
        return Ok(Some(Part::World(index)));
    }
    if let Some(index) = first_interface(parts, fault, resource_flags, &parts.interfaces) {
        return Ok(Some(Part::Interface(index)));
    }
    if let Some(index) = first_type(alloc, parts, fault, resource_flags, &parts.types)? {
        return Ok(Some(Part::TypeDef(index)));
    }
    match first_package(parts, fault, &parts.packages) {
        Some(index) => Ok(Some(Part::Package(index))),
        None => Ok(None),
    }
}

/// Checks the rule of one fault, for all parts. Only the rule of `ByValueResource` reads the flags of resources.
fn check_rule(
    alloc: Global,
    parts: &Parts,
    fault: ResolveFault,
    resource_flags: &[bool],
) -> Result<(), Refused<ResolveFault, Part>>
    requires { AreFlagsFor (parts_view parts.now) fault resource_flags.now }
    ensures kept { IfOk result (λ _. DoAllFollow (parts_view parts.now) fault) }
    ensures refusal { IfErr result (IsRuleBroken (parts_view parts.now) fault) }
{
    match first_breach(alloc, parts, fault, resource_flags)? {
        Some(part) => Err(Refused {
            fault,
            place: Some(part),
        }),
        None => Ok(()),
    }
}

/// The indices of all types, each after the types that it refers to.
pub(crate) fn order_of(alloc: Global, parts: &Parts) -> Result<Vec<usize>, OrderFault>
    requires { AreIdsInRange (parts_view parts.now) }
    ensures order { IfOk result (λ order. IsOrder (parts_view parts.now).types order.items) }
    ensures fault { IfErr result (IsOrderCause (parts_view parts.now).types) }
{
    children_first(alloc, &parts.types)
}

/// For each type whether it is a resource, or an alias of one.
pub(crate) fn resource_flags_of(
    alloc: Global,
    parts: &Parts,
    order: &[usize],
) -> Result<Vec<bool>, AllocError>
    requires { IsOrder (parts_view parts.now).types order.now }
    ensures { IfOk result (λ resource_flags. AreResourceFlags (parts_view parts.now).types
        resource_flags.items) }
{
    find_resources(alloc, &parts.types, order)
}

/// The flat types of all types.
fn flatten_parts(
    alloc: Global,
    parts: &Parts,
    order: &[usize],
) -> Result<Vec<Vec<WasmType>>, AllocError>
    requires { IsOrder (parts_view parts.now).types order.now }
    ensures { IfOk result
        (λ flats. AreFlattened (parts_view parts.now).types (lists flats.items)) }
{
    flatten_all(alloc, &parts.types, order)
}

/// For each type its futures and streams.
fn futures_of_parts(
    alloc: Global,
    parts: &Parts,
    order: &[usize],
) -> Result<Vec<FuturesEntry>, AllocError>
    requires { IsOrder (parts_view parts.now).types order.now }
    ensures { IfOk result
        (λ v. AreFuturesEntries (parts_view parts.now).types (map entry_view v.items)) }
{
    futures_entries(alloc, &parts.types, order)
}

/// Makes the tables of futures and streams, and of functions.
fn futures_tables(
    alloc: Global,
    parts: &Parts,
    flats: &[Vec<WasmType>],
    order: &[usize],
) -> Result<FuturesTables, AllocError>
    requires ranges { AreIdsInRange (parts_view parts.now) }
    requires flats { AreFlattened (parts_view parts.now).types (lists flats.now) }
    requires order { IsOrder (parts_view parts.now).types order.now }
    ensures { IfOk result (AreFuturesTables (parts_view parts.now)) }
{
    let entries = futures_of_parts(alloc, parts, order)?;
    let shortcuts = shortcuts_along(alloc, &entries, order)?;
    let long_functions = long_functions(alloc, parts, &entries, flats)?;
    Ok(FuturesTables {
        entries,
        shortcuts,
        long_functions,
    })
}

/// For each type whether it holds a string.
fn strings_of_parts(alloc: Global, parts: &Parts, order: &[usize]) -> Result<Vec<bool>, AllocError>
    requires { IsOrder (parts_view parts.now).types order.now }
    ensures { IfOk result
        (λ flags. AreTextFlags false (parts_view parts.now).types flags.items) }
{
    find_texts(alloc, &parts.types, order, false)
}

/// For each type whether it holds a string or a list.
fn texts_of_parts(alloc: Global, parts: &Parts, order: &[usize]) -> Result<Vec<bool>, AllocError>
    requires { IsOrder (parts_view parts.now).types order.now }
    ensures { IfOk result
        (λ flags. AreTextFlags true (parts_view parts.now).types flags.items) }
{
    find_texts(alloc, &parts.types, order, true)
}

/// Checks that the parts are well-formed.
///
/// # Errors
///
/// The first fault of `Resolve::build`, and the part that it is about.
pub(crate) fn well_formed(
    alloc: Global,
    parts: &Parts,
) -> Result<Checked, Refused<ResolveFault, Part>>
    ensures checked { IfOk result (AreChecked (parts_view parts.now)) }
    ensures refusal { IfErr result (IsRefusal (parts_view parts.now)) }
{
    check_rule(alloc, parts, ResolveFault::IdRange, &[])?;
    let order = order_of(alloc, parts)?;
    check_rule(alloc, parts, ResolveFault::Unnamed, &[])?;
    check_rule(alloc, parts, ResolveFault::KeyMismatch, &[])?;
    let package_names = distinct_package_names(alloc, parts)?;
    check_rule(alloc, parts, ResolveFault::BadCharacter, &[])?;
    let resources = resource_flags_of(alloc, parts, &order)?;
    check_rule(alloc, parts, ResolveFault::ByValueResource, &resources)?;
    check_rule(alloc, parts, ResolveFault::Empty, &[])?;
    Ok(Checked {
        order,
        resources,
        package_names,
    })
}

/// Checks that the parts are well-formed, and makes the tables that are kept beside them.
///
/// # Errors
///
/// The first fault of `Resolve::build`, and the part that it is about.
pub(crate) fn check(alloc: Global, parts: &Parts) -> Result<Tables, Refused<ResolveFault, Part>>
    ensures kept { IfOk result (AreTables (parts_view parts.now)) }
    ensures refusal { IfErr result (IsRefusal (parts_view parts.now)) }
{
    let checked = well_formed(alloc, parts)?;
    let flats = flatten_parts(alloc, parts, &checked.order)?;
    let futures = futures_tables(alloc, parts, &flats, &checked.order)?;
    let strings = strings_of_parts(alloc, parts, &checked.order)?;
    let texts = texts_of_parts(alloc, parts, &checked.order)?;
    Ok(Tables {
        order: checked.order,
        resources: checked.resources,
        flats,
        futures,
        strings,
        texts,
        package_names: checked.package_names,
    })
}
