//! Types that later exports may pass over, since nothing is left to add of what they lead to.

ghost use Rattle.std.specs.Prelude.{◌≡◌, ◌<◌, ℕ, Contains, IfSome, OnOk, Option, String, length, true};
ghost use Rattle.std.specs.List.{list_all};
ghost use Rattle.std.specs.declared.alloc.Global.{Global};
ghost use Rattle.wc_resolve.specs.Dependencies.{interface_owning};
ghost use Rattle.wc_resolve.specs.Views.{kind_view};
ghost use Rattle.wc_resolve.specs.declared.types.WitType.{WitType};
ghost use Rattle.wc_world.specs.Private.Marks.{known_to};
ghost use Rattle.wc_world.specs.Private.Settled.{AreSettled, is_among, is_owner_within, is_payload_among, is_settled_for, refers_only_to};
ghost use Rattle.wc_world.specs.Used.{used_view};

use crate::live::{LiveContext, interface_owning};
use crate::marks::{KnownTo, Mark, Reach, is_within, mark, mark_of};
use std::alloc::AllocError;
use wc_resolve::{InterfaceId, KnownTypes, LiveTypes, Resolve, TypeDefKind, TypeId, WitType};

/// Whether a type is primitive, or one of some types.
fn is_among<K: KnownTypes>(types: &K, ty: WitType) -> bool
    ensures { result ≡ is_among (K.known_of types.now) ty }
{
    match ty {
        WitType::Id(id) => types.has(id),
        _ => true,
    }
}

/// Whether the type of a payload is, if it has one.
fn is_payload_among<K: KnownTypes>(types: &K, payload: Option<WitType>) -> bool
    ensures { result ≡ is_payload_among (K.known_of types.now) payload }
{
    match payload {
        Some(ty) => is_among(types, ty),
        None => true,
    }
}

/// Whether all of some types are.
fn are_among<K: KnownTypes>(types: &K, items: &[WitType]) -> bool
    ensures { result ≡ list_all (is_among (K.known_of types.now)) items.now }
{
    items.iter().all(|ty| is_among(types, *ty))
}

/// Whether the types of fields are.
fn are_fields_among<K: KnownTypes>(types: &K, fields: &[(String, WitType)]) -> bool
    ensures { result ≡ list_all (λ (f : String Global × WitType). is_among
        (K.known_of types.now) f.1) fields.now }
{
    fields.iter().all(|field| is_among(types, field.1))
}

/// Whether the types of the payloads of cases are.
fn are_cases_among<K: KnownTypes>(types: &K, cases: &[(String, Option<WitType>)]) -> bool
    ensures { result ≡ list_all (λ (c : String Global × Option WitType). is_payload_among
        (K.known_of types.now) c.1) cases.now }
{
    cases.iter().all(|case| is_payload_among(types, case.1))
}

/// Whether a definition refers to primitive types and to some types alone.
fn refers_only_to<K: KnownTypes>(types: &K, kind: &TypeDefKind) -> bool
    ensures { result ≡ refers_only_to (K.known_of types.now) (kind_view kind.now) }
{
    match kind {
        TypeDefKind::Record(fields) => are_fields_among(types, fields),
        TypeDefKind::Tuple(items) => are_among(types, items),
        TypeDefKind::Variant(cases) => are_cases_among(types, cases),
        TypeDefKind::Handle(handle) => is_among(types, WitType::Id(handle.resource())),
        TypeDefKind::Option(ty) => is_among(types, *ty),
        TypeDefKind::List(ty) => is_among(types, *ty),
        TypeDefKind::Alias(ty) => is_among(types, *ty),
        TypeDefKind::Result { ok, err } => {
            is_payload_among(types, *ok) && is_payload_among(types, *err)
        }
        TypeDefKind::Future(ty) => is_payload_among(types, *ty),
        TypeDefKind::Stream(ty) => is_payload_among(types, *ty),
        TypeDefKind::Resource | TypeDefKind::Flags(_) | TypeDefKind::Enum(_) => true,
    }
}

/// Whether no interface owns a type, or one that is within a reach.
fn is_owner_within(resolve: &Resolve, known: &KnownTo<'_>, ty: TypeId) -> bool
    requires { ty.0 < length resolve.now.types }
    ensures { result ≡ is_owner_within (used_view known.now.used.now) known.now.reach
        (interface_owning resolve.now ty.0) }
{
    match interface_owning(resolve, ty) {
        Some(owner) => is_within(known.used, known.reach, owner),
        None => true,
    }
}

/// Whether a type can be settled for all of a reach: nothing is left to add of it, nor of what it refers to.
fn is_settled_for(resolve: &Resolve, known: &KnownTo<'_>, ty: TypeId) -> bool
    requires { ty.0 < length resolve.now.types }
    ensures { let k = known.now in result ≡ is_settled_for resolve.now (used_view k.used.now)
        (known_to (used_view k.used.now) k.live.now k.settled.now k.reach) k.reach ty.0 }
{
    is_owner_within(resolve, known, ty) && refers_only_to(known, &resolve.type_def(ty).kind)
}

/// The reach of what a type refers to, of which it is that of the most exports that is found in one pass.
fn joined_type(known: &KnownTo<'_>, reach: Reach, ty: WitType) -> Reach {
    match ty {
        WitType::Id(id) => known.joined(reach, id),
        _ => reach,
    }
}

/// That of a payload.
fn joined_payload(known: &KnownTo<'_>, reach: Reach, payload: Option<WitType>) -> Reach {
    match payload {
        Some(ty) => joined_type(known, reach, ty),
        None => reach,
    }
}

/// That of some types.
fn joined_items(known: &KnownTo<'_>, reach: Reach, items: &[WitType]) -> Reach {
    let mut all = reach;
    for ty in items {
        all = joined_type(known, all, *ty);
    }
    all
}

/// That of the types of fields.
fn joined_fields(known: &KnownTo<'_>, reach: Reach, fields: &[(String, WitType)]) -> Reach {
    let mut all = reach;
    for field in fields {
        all = joined_type(known, all, field.1);
    }
    all
}

/// That of the payloads of cases.
fn joined_cases(known: &KnownTo<'_>, reach: Reach, cases: &[(String, Option<WitType>)]) -> Reach {
    let mut all = reach;
    for case in cases {
        all = joined_payload(known, all, case.1);
    }
    all
}

/// That of all that a definition refers to, and of a reach to begin with.
fn joined_kind(known: &KnownTo<'_>, reach: Reach, kind: &TypeDefKind) -> Reach {
    match kind {
        TypeDefKind::Record(fields) => joined_fields(known, reach, fields),
        TypeDefKind::Tuple(items) => joined_items(known, reach, items),
        TypeDefKind::Variant(cases) => joined_cases(known, reach, cases),
        TypeDefKind::Handle(handle) => known.joined(reach, handle.resource()),
        TypeDefKind::Option(ty) => joined_type(known, reach, *ty),
        TypeDefKind::List(ty) => joined_type(known, reach, *ty),
        TypeDefKind::Alias(ty) => joined_type(known, reach, *ty),
        TypeDefKind::Result { ok, err } => {
            joined_payload(known, joined_payload(known, reach, *ok), *err)
        }
        TypeDefKind::Future(ty) => joined_payload(known, reach, *ty),
        TypeDefKind::Stream(ty) => joined_payload(known, reach, *ty),
        TypeDefKind::Resource | TypeDefKind::Flags(_) | TypeDefKind::Enum(_) => reach,
    }
}

/// A reach for which a type can be settled, once an exported interface has visited it: by its owner and by what it
/// refers to, or else that of the interface, if one of the two can be.
fn reach_of(
    context: &LiveContext<'_>,
    live: &LiveTypes,
    settled: &[Mark],
    id: InterfaceId,
    ty: TypeId,
) -> Option<Reach>
    requires { ty.0 < length context.now.resolve.now.types }
    ensures { let sets = used_view context.now.used.now in IfSome result (λ reach. is_settled_for
        context.now.resolve.now sets (known_to sets live.now settled.now reach) reach ty.0 ≡ true) }
{
    let resolve = context.resolve;
    let owner = KnownTo {
        used: context.used,
        live,
        settled,
        reach: interface_owning(resolve, ty),
    };
    let reach = joined_kind(&owner, owner.reach, &resolve.type_def(ty).kind);
    if is_settled_for(resolve, &KnownTo { reach, ..owner }, ty) {
        return Some(reach);
    }
    let own = Some(id);
    if is_settled_for(
        resolve,
        &KnownTo {
            reach: own,
            ..owner
        },
        ty,
    ) {
        return Some(own);
    }
    None
}

/// Settles a type that an exported interface has visited, unless it is live, or settled already.
fn settle(
    context: &LiveContext<'_>,
    live: &LiveTypes,
    id: InterfaceId,
    ty: TypeId,
    settled: &mut Vec<Mark>,
) -> Result<(), AllocError>
    requires there { ty.0 < length context.now.resolve.now.types }
    requires settled { AreSettled context.now.resolve.now (used_view context.now.used.now)
        live.now settled.old.items }
    ensures { OnOk result (AreSettled context.now.resolve.now (used_view context.now.used.now)
        live.now settled.new.items) }
{
    if live.contains(ty) || mark_of(settled, ty).is_some() {
        return Ok(());
    }
    match reach_of(context, live, settled, id, ty) {
        Some(reach) => mark(settled, ty, reach),
        None => Ok(()),
    }
}

/// Settles those of some types that an exported interface has visited, each after the types that it refers to.
pub(crate) fn settle_all(
    context: &LiveContext<'_>,
    live: &LiveTypes,
    id: InterfaceId,
    types: &LiveTypes,
    settled: &mut Vec<Mark>,
) -> Result<(), AllocError>
    requires there { (t : ℕ) → Contains types.now t → t < length context.now.resolve.now.types }
    requires settled { AreSettled context.now.resolve.now (used_view context.now.used.now)
        live.now settled.old.items }
    ensures { OnOk result (AreSettled context.now.resolve.now (used_view context.now.used.now)
        live.now settled.new.items) }
{
    for ty in types.iter() {
        settle(context, live, id, ty, settled)?;
    }
    Ok(())
}
