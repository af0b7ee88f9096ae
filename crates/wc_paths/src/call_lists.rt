//! Functions that call through tables, listed by what they call.

ghost use Rattle.std.specs.Prelude.{◌≡◌, OnOk};
ghost use Rattle.wc_read.specs.BodyOperators.{body_in};
ghost use Rattle.wc_read.specs.Operators.{immediates_value, instr_values};
ghost use Rattle.wc_paths.specs.CallLists.{CallLists, is_call_key};
ghost use Rattle.wc_paths.specs.Private.CallLists.{ListsUnder, call_key, has_call, have_call, is_last, key_by, with_last};

use std::alloc::{AllocError, Global};
use wc_maps::Map;
use wc_read::{Immediates, Index, IndexKind, Instr, ReadFault, Space, read_body};

/// A table, and the index of the first type that is equal to the one that is called.
pub(crate) type CallKey = (usize, usize);

/// Functions by what they call.
pub(crate) type CallLists = Map<CallKey, Vec<usize>>;

/// Lists a function, by its index, under each call through a table in its body. `firsts`: for each type the index of
/// the first type that is equal to it.
pub(crate) fn list_body(
    alloc: Global,
    firsts: &[usize],
    bytes: &[u8],
    function: usize,
    lists: &mut CallLists,
) -> Result<(), AllocError>
    ensures { OnOk result (ListsUnder (λ q. has_call firsts.now q (body_in bytes.now)) function
        lists.old.entries lists.new.entries) }
{
    match read_body(alloc, bytes) {
        Ok(body) => list_calls(alloc, firsts, &body.operators, function, lists),
        Err(fault) => match fault {
            ReadFault::Memory => Err(AllocError),
            _ => Ok(()),
        },
    }
}

/// Lists a function under what these operators of it call through tables.
fn list_calls(
    alloc: Global,
    firsts: &[usize],
    operators: &[Instr<'_>],
    function: usize,
    lists: &mut CallLists,
) -> Result<(), AllocError>
    ensures { OnOk result (ListsUnder (λ q. have_call firsts.now q (instr_values operators.now))
        function lists.old.entries lists.new.entries) }
{
    for operator in operators {
        if let Some(key) = call_key(firsts, operator) {
            list_once(alloc, lists, key, function)?;
        }
    }
    Ok(())
}

/// The key of a call through a table: the type and the table that `call_indirect` and `return_call_indirect` name; no
/// other operator names both.
fn call_key(firsts: &[usize], operator: &Instr<'_>) -> Option<CallKey>
    ensures { result ≡ call_key firsts.now (immediates_value operator.now.immediates) }
{
    match &operator.immediates {
        Immediates::Indices(first, second) => key_by(firsts, *first, *second),
        _ => None,
    }
}

/// The key of a type and a table.
fn key_by(firsts: &[usize], ty: Index, table: Index) -> Option<CallKey>
    ensures { result ≡ key_by firsts.now ty.kind ty.number table.kind table.number }
{
    match (ty.kind, table.kind) {
        (IndexKind::In(Space::Types), IndexKind::In(Space::Tables)) => {
            match firsts.get(ty.number as usize) {
                Some(first) => Some((table.number as usize, *first)),
                None => None,
            }
        }
        _ => None,
    }
}

/// Lists a function last under a key, unless it is the last already.
fn list_once(
    alloc: Global,
    lists: &mut CallLists,
    key: CallKey,
    function: usize,
) -> Result<(), AllocError>
    ensures { OnOk result (ListsUnder (is_call_key key) function lists.old.entries
        lists.new.entries) }
{
    if let Some(functions) = lists.get_mut(&key) {
        put_once(functions, function)?;
        return Ok(());
    }
    let mut functions = Vec::new(alloc);
    functions.push(function)?;
    lists.insert(key, functions)?;
    Ok(())
}

/// Appends a function, unless it is the last already.
fn put_once(functions: &mut Vec<usize>, function: usize) -> Result<(), AllocError>
    ensures { OnOk result (functions.new.items ≡ with_last function functions.old.items) }
{
    if is_last(functions, function) {
        return Ok(());
    }
    functions.push(function)?;
    Ok(())
}

/// Whether a function is the last.
fn is_last(functions: &[usize], function: usize) -> bool
    ensures { result ≡ is_last functions.now function }
{
    match functions.last() {
        Some(last) => *last == function,
        None => false,
    }
}
