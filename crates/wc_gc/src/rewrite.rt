//! Code under new indices.

ghost use Rattle.std.specs.Prelude.{◌≡◌, ◌++◌, map, is_some, true, IfOk, IfSome, OnOk, ◌<◌, ◌≤◌};
ghost use Rattle.std.specs.List.{flat_map};
ghost use Rattle.std.specs.Option.{option_map};
ghost use Rattle.wc_read.specs.Operators.{WithIndex, instr_value};
ghost use Rattle.wc_read.specs.InitOperators.{init_left};
ghost use Rattle.wc_read.specs.Renumbering.{Renumbering, renumber_instr};
ghost use Rattle.wc_read.specs.BodyOperators.{body_in, body_of, bytes_left, init_in, KeepsLocals, locals_read, next_and_left, operators_left};
ghost use Rattle.wc_write.specs.Bodies.{locals_text, body_text};
ghost use Rattle.wc_write.specs.Text.{vector_text};
ghost use Rattle.wc_gc.specs.Image.{renumber_locals};
ghost use Rattle.wc_gc.specs.NewBodies.{calls_of, old_body_written};
ghost use Rattle.wc_gc.specs.NewIndices.{new_of};
ghost use Rattle.wc_gc.specs.Private.BodyCuts.{stretch_text, text_left};
ghost use Rattle.wc_gc.specs.Private.Rewrite.{WritesRun};
ghost use Rattle.wc_gc.specs.AddedCode.{call};
ghost use Rattle.wc_write.specs.Operators.{instr_text};

use crate::body_cuts::Stretch;
use crate::machine_operators::{MachineOperator, instr_of};
use crate::new_bodies::OldBody;
use crate::new_indices::NewIndices;
use crate::search::next_of_init;
use std::alloc::{AllocError, Global};
use wc_read::{
    Immediates, Index, IndexKind, InitOperators, Instr, Opcode, Operators, ReadFault, Space,
    init_index, is_init,
};
use wc_write::{append_index_operator, append_locals, append_operator};

/// The code of `end`.
const END: u8 = 0x0b;

/// Appends a body of the adapter.
pub fn append_old_body(out: &mut Vec<u8>, body: &OldBody<'_, '_>) -> Result<(), AllocError>
    ensures { OnOk result (out.new.items
        ≡ out.old.items ++ body_text (old_body_written body.now)) }
{
    let alloc = *out.allocator();
    let new = body.bodies.new;
    let mut operators = operators_of(alloc, body.bytes);
    append_old_locals(out, &operators, new)?;
    append_call(out, body.first_call())?;
    let stretches = body.bodies.cuts.cut(body.index as usize);
    if stretches.is_empty() {
        append_operators(out, alloc, &mut operators, new)
    } else {
        append_stretches(out, stretches, new)
    }
}

/// Appends the operators of stretches under new indices.
#[inline(never)]
fn append_stretches(
    out: &mut Vec<u8>,
    stretches: &[Stretch<'_>],
    new: &NewIndices,
) -> Result<(), AllocError>
    ensures { OnOk result (out.new.items ≡ out.old.items
        ++ flat_map (stretch_text (new_of new.now)) stretches.now) }
{
    for stretch in stretches {
        append_stretch(out, stretch, new)?;
    }
    Ok(())
}

/// Appends the bytes of a stretch, and the operator after them under new indices.
#[inline(always)]
fn append_stretch(
    out: &mut Vec<u8>,
    stretch: &Stretch<'_>,
    new: &NewIndices,
) -> Result<(), AllocError>
    ensures { OnOk result (out.new.items ≡ out.old.items
        ++ stretch_text (new_of new.now) stretch.now) }
{
    append_passed(out, stretch.run)?;
    if stretch.named {
        let index = Index {
            kind: IndexKind::In(stretch.space),
            number: stretch.number,
        };
        append_index(out, Opcode::Byte(stretch.code), new.index(index))
    } else {
        Ok(())
    }
}

/// Appends the bytes of a stretch, if it has any.
#[inline(always)]
fn append_passed(out: &mut Vec<u8>, run: &[u8]) -> Result<(), AllocError>
    ensures { OnOk result (out.new.items ≡ out.old.items ++ run.now) }
{
    if run.is_empty() {
        return Ok(());
    }
    out.extend_from_slice(run)?;
    Ok(())
}

/// Appends the locals of a body under new indices, by one copy where no fewer bytes spell them.
fn append_old_locals(
    out: &mut Vec<u8>,
    operators: &Operators<'_>,
    new: &NewIndices,
) -> Result<(), AllocError>
    requires { KeepsLocals operators.now }
    ensures { OnOk result (out.new.items ≡ out.old.items ++ vector_text locals_text
        (map (renumber_locals (new_of new.now)) (locals_read operators.now))) }
{
    match operators.shortest_locals() {
        Some(bytes) => {
            out.extend_from_slice(bytes)?;
            Ok(())
        }
        None => {
            let alloc = *out.allocator();
            append_locals(out, &new.locals(operators.locals(alloc)?))
        }
    }
}

/// Appends the operators that are left, under new indices.
fn append_operators(
    out: &mut Vec<u8>,
    alloc: Global,
    operators: &mut Operators<'_>,
    new: &NewIndices,
) -> Result<(), AllocError>
    requires { is_some (operators_left operators.old) ≡ true }
    ensures { OnOk result (out.new.items ≡ out.old.items
        ++ text_left (new_of new.now) (operators_left operators.old)) }
{
    while let Some(operator) = next_after_run(out, operators, alloc)? {
        append_renumbered(out, operator, new)?;
    }
    Ok(())
}

/// Appends operators that are the same under all indices under which memory 0 is memory 0, and answers the next one.
#[inline(always)]
fn next_after_run<'a>(
    out: &mut Vec<u8>,
    operators: &mut Operators<'a>,
    alloc: Global,
) -> Result<Option<Instr<'a>>, AllocError>
    requires { is_some (operators_left operators.old) ≡ true }
    ensures written { IfOk result (λ i. WritesRun out.old.items (operators_left operators.old)
        out.new.items (next_and_left (option_map instr_value i) (operators_left operators.new))) }
    ensures some { IfOk result (λ i. is_some
        (next_and_left (option_map instr_value i) (operators_left operators.new)) ≡ true) }
    ensures shorter { IfOk result (λ i.
        IfSome i (λ _. bytes_left operators.new < bytes_left operators.old)) }
{
    append_run(out, operators)?;
    next_of(operators, alloc)
}

/// Appends operators that are the same under such indices, all by one copy.
#[inline(always)]
fn append_run(out: &mut Vec<u8>, operators: &mut Operators<'_>) -> Result<(), AllocError>
    requires { is_some (operators_left operators.old) ≡ true }
    ensures written { OnOk result (WritesRun out.old.items (operators_left operators.old)
        out.new.items (operators_left operators.new)) }
    ensures some { is_some (operators_left operators.new) ≡ true }
    ensures not_longer { bytes_left operators.new ≤ bytes_left operators.old }
{
    if operators.begins_run() {
        out.extend_from_slice(operators.pass(true))?;
    }
    Ok(())
}

/// Appends an operator under new indices.
#[inline(always)]
fn append_renumbered(
    out: &mut Vec<u8>,
    operator: Instr<'_>,
    new: &NewIndices,
) -> Result<(), AllocError>
    ensures { OnOk result (out.new.items ≡ out.old.items
        ++ instr_text (renumber_instr (new_of new.now) (instr_value operator.entry))) }
{
    if names_no_item(&operator) {
        return append_operator(out, &operator);
    }
    match &operator.immediates {
        Immediates::Index(index) => append_index(out, operator.opcode, new.index(*index)),
        _ => append_operator(out, &new.operator(operator)),
    }
}

/// Appends an operator that has one index.
#[inline(always)]
fn append_index(out: &mut Vec<u8>, opcode: Opcode, index: Index) -> Result<(), AllocError>
    ensures { OnOk result (out.new.items ≡ out.old.items
        ++ instr_text (record { opcode = opcode; immediates = WithIndex index })) }
{
    append_index_operator(out, opcode, index)
}

/// Whether an operator is one of the frequent ones that name no item, and so are the same under all indices.
#[inline(always)]
fn names_no_item(operator: &Instr<'_>) -> bool
    ensures { result ≡ true → (new : Renumbering) →
        renumber_instr new (instr_value operator.now) ≡ instr_value operator.now }
{
    match &operator.immediates {
        Immediates::None | Immediates::I32(_) => true,
        Immediates::Index(index) => !matches!(index.kind, IndexKind::In(_)),
        _ => false,
    }
}

/// Appends a call, where there is a function to be called.
fn append_call(out: &mut Vec<u8>, call: Option<u32>) -> Result<(), AllocError>
    ensures { OnOk result (out.new.items ≡ out.old.items ++ flat_map instr_text (calls_of call)) }
{
    match call {
        Some(func) => append_operator(out, &call_of(func)),
        None => Ok(()),
    }
}

/// The call of a function.
fn call_of<'a>(func: u32) -> Instr<'a>
    ensures { instr_value result ≡ call func }
{
    instr_of(MachineOperator::Call(func))
}

/// The operators of a body that is code.
#[inline(always)]
fn operators_of(alloc: Global, bytes: &[u8]) -> Operators<'_>
    requires { is_some (body_in bytes.now) ≡ true }
    ensures body { body_in bytes.now
        ≡ option_map (body_of (locals_read result)) (operators_left result) }
    ensures keeps_locals { KeepsLocals result }
{
    match Operators::new(alloc, bytes) {
        Ok(operators) => operators,
        Err(_) => unreachable!(),
    }
}

/// The next operator of a body that is code.
fn next_of<'a>(
    operators: &mut Operators<'a>,
    alloc: Global,
) -> Result<Option<Instr<'a>>, AllocError>
    requires { is_some (operators_left operators.old) ≡ true }
    ensures found { IfOk result (λ i. operators_left operators.old
        ≡ next_and_left (option_map instr_value i) (operators_left operators.new)) }
    ensures locals { locals_read operators.new ≡ locals_read operators.old }
    ensures shorter { IfOk result (λ i.
        IfSome i (λ _. bytes_left operators.new < bytes_left operators.old)) }
{
    if operators.is_done() {
        return Ok(None);
    }
    match operators.next(alloc) {
        Ok(next) => Ok(next),
        Err(ReadFault::Memory) => Err(AllocError),
        Err(_) => unreachable!(),
    }
}

/// Appends the initialiser that bytes spell, under new indices; nothing, where they spell none. Most that name an item
/// have one operator.
pub fn append_init(out: &mut Vec<u8>, bytes: &[u8], new: &NewIndices) -> Result<(), AllocError>
    ensures { OnOk result (out.new.items ≡ out.old.items
        ++ text_left (new_of new.now) (init_in bytes.now)) }
{
    match init_index(bytes) {
        Some(named) => {
            append_index(out, Opcode::Byte(named.code), new.index(named.index))?;
            out.push(END)?;
            Ok(())
        }
        None => append_any_init(out, bytes, new),
    }
}

/// Appends an initialiser of any operators, under new indices; nothing, where the bytes spell none.
#[inline(never)]
fn append_any_init(out: &mut Vec<u8>, bytes: &[u8], new: &NewIndices) -> Result<(), AllocError>
    ensures { OnOk result (out.new.items ≡ out.old.items
        ++ text_left (new_of new.now) (init_in bytes.now)) }
{
    let alloc = *out.allocator();
    if is_init(alloc, bytes)? {
        let mut operators = InitOperators::new(bytes);
        append_init_operators(out, alloc, &mut operators, new)
    } else {
        Ok(())
    }
}

/// Appends the operators that are left of an initialiser, under new indices.
fn append_init_operators(
    out: &mut Vec<u8>,
    alloc: Global,
    operators: &mut InitOperators<'_>,
    new: &NewIndices,
) -> Result<(), AllocError>
    requires { is_some (init_left operators.old) ≡ true }
    ensures { OnOk result (out.new.items ≡ out.old.items
        ++ text_left (new_of new.now) (init_left operators.old)) }
{
    while let Some(operator) = next_of_init(operators, alloc)? {
        append_renumbered(out, operator, new)?;
    }
    Ok(())
}
