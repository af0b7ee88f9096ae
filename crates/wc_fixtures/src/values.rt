//! Records of futures and streams: copies, equality and what they carry.

ghost use Rattle.std.specs.Prelude.{IsTrue, ℕ, List};
ghost use Rattle.wc_names.specs.Payloads.{HasPayload};
ghost use Rattle.wc_names.specs.Views.{payload_type_view, typed};

use crate::contexts::{cut_after, side_of};
use crate::read::{cut, id_of, key_of, name_of};
use crate::resolve_calls::put_answer;
use crate::scheme_calls::Script;
use std::alloc::{AllocError, Global};
use std::hash::{DefaultHasher, Hash, Hasher};
use wc_lines::input::{Stop, bad_row};
use wc_lines::lines::Lines;
use wc_names::{PayloadInfo, PayloadType};
use wc_resolve::{InterfaceId, Resolve, TypeDefKind, TypeId, WorldKey};

/// `unit-future`, `unit-stream` or `typed TYPE-ID FUNCTION`.
fn payload_type(alloc: Global, line: &str, out: &mut Lines) -> Result<PayloadType, Stop> {
    match line {
        "unit-future" => return Ok(PayloadType::UnitFuture),
        "unit-stream" => return Ok(PayloadType::UnitStream),
        _ => {}
    }
    let (Some(id), function) = cut_after(line, "typed") else {
        return Err(bad_row(out, "no future or stream", line));
    };
    let id = TypeId(id_of(out, 't', id)?);
    let function = name_of(alloc, function, out)?;
    Ok(PayloadType::Typed { id, function })
}

/// `imports KEY NAME TYPE` or `exports KEY NAME TYPE`, where before the key may be `of INTERFACE`.
fn payload_info(alloc: Global, line: &str, out: &mut Lines) -> Result<PayloadInfo, Stop> {
    let (imported, rest) = side_of(line, out)?;
    let (interface, rest) = cut_after(rest, "of");
    let (key, rest) = cut(rest);
    let (name, ty) = cut(rest);
    let interface = match interface {
        Some(word) => Some(InterfaceId(id_of(out, 'i', word)?)),
        None => None,
    };
    Ok(PayloadInfo {
        name: name_of(alloc, name, out)?,
        ty: payload_type(alloc, ty, out)?,
        key: key_of(alloc, key, out)?,
        interface,
        imported,
    })
}

fn hash_of(info: &PayloadInfo) -> u64 {
    let mut state = DefaultHasher::new();
    info.hash(&mut state);
    state.finish()
}

/// A copy, whether it is equal to the first, and whether both are hashed alike.
fn put_copy(
    alloc: Global,
    info: &PayloadInfo,
    first: &PayloadInfo,
    out: &mut Lines,
) -> Result<(), AllocError> {
    let copy = info.clone(alloc)?;
    writeln!(out, "{copy:?}");
    put_answer(out, copy == *first);
    put_answer(out, hash_of(&copy) == hash_of(first));
    Ok(())
}

/// A copy of each, compared with the first.
pub(crate) fn put_copies(alloc: Global, input: &[&str], out: &mut Lines) -> Result<(), Stop> {
    let Some(first) = input.first() else {
        return Ok(());
    };
    let first = payload_info(alloc, first, out)?;
    for line in input {
        let info = payload_info(alloc, line, out)?;
        put_copy(alloc, &info, &first, out)?;
    }
    Ok(())
}

/// Whether the type is a future or a stream.
fn is_async_value(resolve: &Resolve, id: TypeId) -> bool
    ensures { IsTrue result
        → (function : List ℕ) → HasPayload resolve.now (typed id.0 function) }
{
    if !resolve.has_type(id) {
        return false;
    }
    match resolve.type_def(id).kind {
        TypeDefKind::Future(_) | TypeDefKind::Stream(_) => true,
        _ => false,
    }
}

/// Whether the type, if there is one, is a future or a stream of the `Resolve`.
fn has_payload(resolve: &Resolve, ty: &PayloadType) -> bool
    ensures { IsTrue result → HasPayload resolve.now (payload_type_view ty.now) }
{
    match ty {
        PayloadType::Typed { id, .. } => is_async_value(resolve, *id),
        PayloadType::UnitFuture | PayloadType::UnitStream => true,
    }
}

/// `typed TYPE-ID FUNCTION`, `unit-future` or `unit-stream`: what it carries.
pub(crate) fn payload_line(script: &Script<'_>, line: &str, out: &mut Lines) -> Result<(), Stop> {
    let Script { alloc, resolve, .. } = *script;
    let info = PayloadInfo {
        name: String::new(alloc),
        ty: payload_type(alloc, line, out)?,
        key: WorldKey::Name(String::new(alloc)),
        interface: None,
        imported: true,
    };
    if !has_payload(resolve, &info.ty) {
        return Err(bad_row(out, "no future or stream", line));
    }
    let payload = info.payload(resolve);
    writeln!(out, "{payload:?}");
    Ok(())
}
