//! The items that the body of a function names.

ghost use Rattle.std.specs.Prelude.{◌≡◌, ◌≤◌, ◌++◌, is_some, IfOk, OnOk};
ghost use Rattle.wc_read.specs.BodyOperators.{KeepsLocals, body_in, body_of, bytes_left, locals_read, operators_left};
ghost use Rattle.wc_read.specs.Bodies.{local_types};
ghost use Rattle.wc_read.specs.Entries.{val_type_refs};
ghost use Rattle.std.specs.Option.{option_map};
ghost use Rattle.wc_paths.specs.Items.{body_items, space_items};
ghost use Rattle.wc_paths.specs.Private.BodyNames.{ArePut, items_left};

use crate::items::{PathItem, put_locals, put_operator};
use std::alloc::{AllocError, Global};
use wc_read::{Operators, ReadFault};

/// Appends the items that a body names, and answers whether it is code. No operator is kept.
pub(crate) fn put_body(
    names: &mut Vec<PathItem>,
    alloc: Global,
    bytes: &[u8],
) -> Result<bool, AllocError>
    ensures names { OnOk result (names.new.items
        ≡ names.old.items ++ body_items (body_in bytes.now)) }
    ensures code { IfOk result (λ code. code ≡ is_some (body_in bytes.now)) }
{
    match Operators::new(alloc, bytes) {
        Ok(operators) => put_operators(names, alloc, operators),
        Err(_) => Ok(false),
    }
}

/// Appends the items that the locals and the operators of a body name, and answers whether it is code.
fn put_operators(
    names: &mut Vec<PathItem>,
    alloc: Global,
    operators: Operators<'_>,
) -> Result<bool, AllocError>
    requires { KeepsLocals operators }
    ensures names { OnOk result (names.new.items ≡ names.old.items ++ body_items
        (option_map (body_of (locals_read operators.entry)) (operators_left operators.entry))) }
    ensures code { IfOk result (λ code. code ≡ is_some (operators_left operators.entry)) }
{
    let mut operators = operators;
    let begun = names.len();
    put_locals_of(names, alloc, &operators)?;
    let is_code = put_left(names, alloc, &mut operators)?;
    if is_code {
        Ok(true)
    } else {
        names.truncate(begun);
        Ok(false)
    }
}

/// Appends the types that the locals of a body name.
fn put_locals_of(
    names: &mut Vec<PathItem>,
    alloc: Global,
    operators: &Operators<'_>,
) -> Result<(), AllocError>
    requires { KeepsLocals operators.now }
    ensures { OnOk result (names.new.items ≡ names.old.items
        ++ space_items (val_type_refs (local_types (locals_read operators.now)))) }
{
    match operators.shortest_locals() {
        Some(_) => Ok(()),
        None => {
            let locals = operators.locals(alloc)?;
            put_locals(names, &locals)
        }
    }
}

/// Appends the items that the operators name that are left of a body, and answers whether all of them are read.
fn put_left(
    names: &mut Vec<PathItem>,
    alloc: Global,
    operators: &mut Operators<'_>,
) -> Result<bool, AllocError>
    ensures { IfOk result (λ is_code. ArePut names.old.items names.new.items
        (items_left operators.old) is_code) }
{
    loop {
        pass_run(operators);
        match operators.next(alloc) {
            Ok(Some(operator)) => put_operator(names, &operator)?,
            Ok(None) => return Ok(true),
            Err(ReadFault::Memory) => return Err(AllocError),
            Err(_) => return Ok(false),
        }
    }
}

/// Goes past operators that name nothing, if the next ones are such.
fn pass_run(operators: &mut Operators<'_>)
    ensures left { items_left operators.new ≡ items_left operators.old }
    ensures shorter { bytes_left operators.new ≤ bytes_left operators.old }
{
    if operators.begins_run() {
        operators.pass(false);
    }
}
