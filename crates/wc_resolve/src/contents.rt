//! The types that contain strings, and the types that contain strings or lists.
//!
//! They are found once for all types, each from the types that it refers to.

ghost use Rattle.std.specs.Prelude.{◌≡◌, ◌<◌, ◌||◌, ◌&&◌, IfOk, false, length, map};
ghost use Rattle.std.specs.List.{list_any};
ghost use Rattle.std.specs.Option.{option_map_or};
ghost use Rattle.wc_resolve.specs.Contents.{AreTextFlags, has_text, is_list, text_flag, text_rule};
ghost use Rattle.wc_resolve.specs.Futures.{carried_types};
ghost use Rattle.wc_resolve.specs.Validate.{IsOrder};
ghost use Rattle.wc_resolve.specs.Views.{kind_view, type_view};
ghost use Rattle.wc_resolve.specs.Kinds.{kind_at};

use crate::{TypeDef, TypeDefKind, WitType};
use std::alloc::{AllocError, Global};

/// Whether a type has text, by the flags of defined types.
pub(crate) fn type_has_text(flags: &[bool], ty: WitType) -> bool
    ensures { result ≡ has_text (text_flag flags.now) ty }
{
    match ty {
        WitType::String => true,
        WitType::Id(id) => match flags.get(id.0 as usize) {
            Some(flag) => *flag,
            None => false,
        },
        _ => false,
    }
}

/// Whether there is a type, and it has text.
fn optional_has_text(flags: &[bool], ty: Option<WitType>) -> bool
    ensures { result ≡ option_map_or (has_text (text_flag flags.now)) ty false }
{
    match ty {
        Some(ty) => type_has_text(flags, ty),
        None => false,
    }
}

/// Whether a field has text.
fn fields_have_text(flags: &[bool], fields: &[(String, WitType)]) -> bool
    ensures { result ≡ list_any (λ f. has_text (text_flag flags.now) f.1) fields.now }
{
    fields.iter().any(|field| type_has_text(flags, field.1))
}

/// Whether one of some types has text.
fn types_have_text(flags: &[bool], types: &[WitType]) -> bool
    ensures { result ≡ list_any (has_text (text_flag flags.now)) types.now }
{
    types.iter().any(|ty| type_has_text(flags, *ty))
}

/// Whether the payload of a case has text.
fn cases_have_text(flags: &[bool], cases: &[(String, Option<WitType>)]) -> bool
    ensures { result ≡ list_any (λ c. option_map_or (has_text (text_flag flags.now)) c.1 false)
        cases.now }
{
    cases.iter().any(|case| optional_has_text(flags, case.1))
}

/// Whether one of the types that a type contains by value, or an alias's target, has text.
fn contents_have_text(flags: &[bool], kind: &TypeDefKind) -> bool
    ensures { result ≡ list_any (has_text (text_flag flags.now))
        (carried_types (kind_view kind.now)) }
{
    match kind {
        TypeDefKind::Record(fields) => fields_have_text(flags, fields),
        TypeDefKind::Tuple(types) => types_have_text(flags, types),
        TypeDefKind::Variant(cases) => cases_have_text(flags, cases),
        TypeDefKind::Option(ty) | TypeDefKind::List(ty) | TypeDefKind::Alias(ty) => {
            type_has_text(flags, *ty)
        }
        TypeDefKind::Result { ok, err } => {
            optional_has_text(flags, *ok) || optional_has_text(flags, *err)
        }
        TypeDefKind::Future(ty) | TypeDefKind::Stream(ty) => optional_has_text(flags, *ty),
        TypeDefKind::Resource
        | TypeDefKind::Handle(_)
        | TypeDefKind::Flags(_)
        | TypeDefKind::Enum(_) => false,
    }
}

/// Whether a defined type has text, and whether lists are text too.
fn kind_has_text(flags: &[bool], kind: &TypeDefKind, lists: bool) -> bool
    ensures { result ≡ ((lists && is_list (kind_view kind.now))
        || list_any (has_text (text_flag flags.now)) (carried_types (kind_view kind.now))) }
{
    if lists && matches!(kind, TypeDefKind::List(_)) {
        return true;
    }
    contents_have_text(flags, kind)
}

/// Whether the type at an index has text, by the flags of the types that it refers to.
fn has_text_at(flags: &[bool], types: &[TypeDef], index: usize, lists: bool) -> bool
    requires { index < length types.now }
    ensures { result ≡ text_rule lists (text_flag flags.now) index
        (kind_at (map type_view types.now) index) }
{
    kind_has_text(flags, &types[index].kind, lists)
}

/// For each type whether it contains text, and whether it does if lists count as text. In `order` each type is after
/// the types that it refers to.
pub(crate) fn find_texts(
    alloc: Global,
    types: &[TypeDef],
    order: &[usize],
    lists: bool,
) -> Result<Vec<bool>, AllocError>
    requires { IsOrder (map type_view types.now) order.now }
    ensures { IfOk result (λ flags. AreTextFlags lists (map type_view types.now) flags.items) }
{
    let mut flags = vec![in alloc; false; types.len()]?;
    for index in order {
        flags[*index] = has_text_at(&flags, types, *index, lists);
    }
    Ok(flags)
}
