//! The values that initialisers leave, by their types.

ghost use Rattle.std.specs.Prelude.{◌≡◌, ◌⊎◌, ◌↔◌, ◌<◌, ◌-◌, ◌^◌, Some, IfOk, IfErr, IsTrue};
ghost use Rattle.wc_read.specs.Fault.{IfRefused};
ghost use Rattle.wc_read.specs.Reading.Reader.{Gives};
ghost use Rattle.wc_read.specs.Types.{has_type_index};
ghost use Rattle.wc_read.specs.Causes.{init_has_types, null_has_type};
ghost use Rattle.wc_read.specs.Items.{global_value, global_values};
ghost use Rattle.wc_read.specs.Operators.{immediates_value, instr_value};
ghost use Rattle.wc_read.specs.InitOperators.{index_instr};
ghost use Rattle.wc_read.specs.InitTypes.{types_of, class_of, is_non_null, class_named, number_named, global_value_class, given_by, IsTyped, IsTypedGlobal, AreTyped};
ghost use Rattle.wc_read.specs.Reading.InitTypes.{scope_value, is_same, next_depth, step_of, step_at};

use crate::fault::ReadFault;
use crate::init_operators::{InitIndex, InitOperators, init_index};
use crate::inits::{Constant, ValueClass, constant_of, is_end};
use crate::items::{self, Def};
use crate::operators::{Immediates, Instr, Opcode};
use crate::reader::Reader;
use crate::types::ValType;
use std::alloc::{AllocError, Global};

/// The items that an initialiser may name (WebAssembly core specification, 3.3.10).
#[derive(Drop)]
pub struct Scope<'a> {
    /// How many types there are.
    pub types: usize,
    /// How many functions there are.
    pub functions: usize,
    /// The globals that it may name: of the initialiser of a global those before it, of that of a segment all.
    pub globals: &'a [items::Global<'a>],
}

/// The effect of an operator of an initialiser.
#[derive(Clone, Copy, Debug, PartialEq, Eq)]
enum InitStep {
    /// It ends it.
    End,
    /// It leaves so many values of the type.
    Leaves(usize),
    /// It is not constant, or not of the type.
    Fails,
}

/// Whether the initialiser of each local global leaves one value of the global's type (WebAssembly core
/// specification, 3.3.10): constants, nulls of a type with an index below `types`, functions by an index below
/// `functions`, immutable globals before its own, and sums, differences and products of integers.
///
/// The fault is `Memory` alone.
pub fn are_typed(
    alloc: Global,
    types: usize,
    functions: usize,
    globals: &[items::Global<'_>],
) -> Result<bool, ReadFault>
    ensures found { IfOk result
        (λ b. IsTrue b ↔ AreTyped types functions (global_values globals.now)) }
    ensures refused { IfErr result (λ f. f ≡ ReadFault.Memory) }
{
    for index in 0..globals.len() {
        let scope = Scope {
            types,
            functions,
            globals: &globals[..index],
        };
        if !is_typed(alloc, &scope, &globals[index])? {
            return Ok(false);
        }
    }
    Ok(true)
}

/// The fault of initialisers that leave something else: `BadIndex`, where one of them has a null of a type whose index
/// is not below `types`, else `BadInitialiser`.
pub fn init_fault(alloc: Global, types: usize, globals: &[items::Global<'_>]) -> ReadFault
    ensures { (result ≡ ReadFault.BadIndex) ⊎ (result ≡ ReadFault.BadInitialiser) }
{
    for global in globals {
        match global.def {
            Def::Local(init) => match init_has_types(alloc, types, init) {
                Ok(false) => return ReadFault::BadIndex,
                _ => {}
            },
            Def::Import(_, _) => {}
        }
    }
    ReadFault::BadInitialiser
}

/// Whether each null of an initialiser is of a type with an index below `types`, or with none.
pub fn init_has_types(alloc: Global, types: usize, init: &[u8]) -> Result<bool, AllocError>
    ensures { IfOk result (λ b. b ≡ init_has_types types init.now) }
{
    let mut operators = InitOperators::new(init);
    let mut all = true;
    loop {
        match operators.next(alloc) {
            Ok(Some(operator)) => all = all && null_has_type(types, &operator.immediates),
            Ok(None) => return Ok(all),
            Err(ReadFault::Memory) => return Err(AllocError),
            Err(_) => return Ok(true),
        }
    }
}

/// Whether the type that a null is of has no index, or one below `types`.
fn null_has_type(types: usize, immediates: &Immediates<'_>) -> bool
    ensures { result ≡ null_has_type types (immediates_value immediates.now) }
{
    match immediates {
        Immediates::RefType(ty) => has_type_index(types, *ty),
        _ => true,
    }
}

fn is_typed(alloc: Global, scope: &Scope<'_>, global: &items::Global<'_>) -> Result<bool, ReadFault>
    ensures found { IfOk result (λ b.
        IsTrue b ↔ IsTypedGlobal (scope_value scope.now) (global_value global.now)) }
    ensures refused { IfErr result (λ f. f ≡ ReadFault.Memory) }
{
    match global.def {
        Def::Import(_, _) => Ok(true),
        Def::Local(init) => is_typed_init(alloc, scope, global.ty.content_type, init),
    }
}

/// Whether bytes are an initialiser that leaves one value of a type (WebAssembly core specification, 3.3.10), or of
/// another type of the same class: all references to functions are one class, all references to values of the host
/// another.
///
/// # Errors
///
/// `Memory`: an allocation failed.
pub fn is_typed_init(
    alloc: Global,
    scope: &Scope<'_>,
    ty: ValType,
    init: &[u8],
) -> Result<bool, ReadFault>
    ensures found { IfOk result (λ b. IsTrue b ↔ IsTyped (scope_value scope.now) ty init.now) }
    ensures refused { IfErr result (λ f. f ≡ ReadFault.Memory) }
{
    match leaves_one(alloc, scope, ty, init) {
        Ok(typed) => Ok(typed),
        Err(fault) => match fault {
            ReadFault::Memory => Err(fault),
            _ => Ok(false),
        },
    }
}

/// Whether an initialiser leaves one value of a type. Most that name an item have one operator.
fn leaves_one(alloc: Global, scope: &Scope<'_>, ty: ValType, init: &[u8]) -> Result<bool, ReadFault>
    ensures found { IfOk result (λ b. IsTrue b ↔ IsTyped (scope_value scope.now) ty init.now) }
    ensures refused { IfRefused result (¬ (IsTyped (scope_value scope.now) ty init.now)) }
{
    match init_index(init) {
        Some(named) => Ok(is_one(scope, ty, named)),
        None => leaves_one_of_any(alloc, scope, ty, init),
    }
}

/// Whether an operator leaves one value of a type by itself.
fn is_one(scope: &Scope<'_>, ty: ValType, named: InitIndex) -> bool
    ensures { IsTrue result
        ↔ (next_depth (scope_value scope.now) ty 0 (index_instr named) ≡ Some 1) }
{
    let operator = Instr {
        opcode: Opcode::Byte(named.code),
        immediates: Immediates::Index(named.index),
    };
    match next_depth(scope, ty, 0, &operator) {
        Some(depth) => depth == 1,
        None => false,
    }
}

/// Whether an initialiser of any operators leaves one value of a type. There is a byte at least to each operator.
#[inline(never)]
fn leaves_one_of_any(
    alloc: Global,
    scope: &Scope<'_>,
    ty: ValType,
    init: &[u8],
) -> Result<bool, ReadFault>
    ensures found { IfOk result (λ b. IsTrue b ↔ IsTyped (scope_value scope.now) ty init.now) }
    ensures refused { IfRefused result (¬ (IsTyped (scope_value scope.now) ty init.now)) }
{
    let mut reader = Reader::new(init);
    let mut depth = 0;
    for _ in 0..init.len() {
        match next_step(&mut reader, alloc, scope, ty, depth)? {
            InitStep::End => return Ok(depth == 1 && reader.rest.is_empty()),
            InitStep::Leaves(next) => depth = next,
            InitStep::Fails => return Ok(false),
        }
    }
    Ok(false)
}

/// Goes past an operator. Most are of a frequent shape.
#[inline(always)]
#[tactic(auto, unfolding(crate::specs::Reading::InitTypes::step_at))]
fn next_step(
    reader: &mut Reader<'_>,
    alloc: Global,
    scope: &Scope<'_>,
    ty: ValType,
    depth: usize,
) -> Result<InitStep, ReadFault>
    requires { depth < 2 ^ 64 - 1 }
    ensures { Gives (λ s. s) result reader.new.rest.now
        (step_at (scope_value scope.now) ty depth reader.old.rest.now) }
{
    match reader.frequent() {
        Ok(Some(operator)) => Ok(step_of(scope, ty, depth, &operator)),
        Ok(None) => rarer_step(reader, alloc, scope, ty, depth),
        Err(fault) => Err(fault),
    }
}

/// Goes past an operator of any shape.
#[inline(never)]
#[tactic(auto, unfolding(crate::specs::Reading::InitTypes::step_at))]
fn rarer_step(
    reader: &mut Reader<'_>,
    alloc: Global,
    scope: &Scope<'_>,
    ty: ValType,
    depth: usize,
) -> Result<InitStep, ReadFault>
    requires { depth < 2 ^ 64 - 1 }
    ensures { Gives (λ s. s) result reader.new.rest.now
        (step_at (scope_value scope.now) ty depth reader.old.rest.now) }
{
    let operator = reader.operator(alloc)?;
    Ok(step_of(scope, ty, depth, &operator))
}

#[inline(always)]
fn step_of(scope: &Scope<'_>, ty: ValType, depth: usize, operator: &Instr<'_>) -> InitStep
    requires { depth < 2 ^ 64 - 1 }
    ensures { result ≡ step_of (scope_value scope.now) ty depth (instr_value operator.now) }
{
    if is_end(operator.opcode) {
        return InitStep::End;
    }
    match next_depth(scope, ty, depth, operator) {
        Some(next) => InitStep::Leaves(next),
        None => InitStep::Fails,
    }
}

/// How many values of a type there are after an operator.
#[inline(always)]
#[tactic(auto, unfolding(crate::specs::Reading::InitTypes::next_depth))]
fn next_depth(scope: &Scope<'_>, ty: ValType, depth: usize, operator: &Instr<'_>) -> Option<usize>
    requires { depth < 2 ^ 64 - 1 }
    ensures { result ≡ next_depth (scope_value scope.now) ty depth (instr_value operator.now) }
{
    let constant = constant_of(operator.opcode)?;
    if let Constant::Integer(of) = constant {
        if is_same(class_of(of), class_of(ty)) && depth >= 2 {
            return Some(depth - 1);
        }
        return None;
    }
    let given = given_by(scope, ty, &operator.immediates, constant)?;
    if is_same(given, class_of(ty)) {
        Some(depth + 1)
    } else {
        None
    }
}

/// The class of the value that a constant operator gives by itself, for a global of type `wanted`.
fn given_by(
    scope: &Scope<'_>,
    wanted: ValType,
    immediates: &Immediates<'_>,
    constant: Constant,
) -> Option<ValueClass>
    ensures { result
        ≡ given_by (scope_value scope.now) wanted (immediates_value immediates.now) constant }
{
    match constant {
        Constant::Value(ty) => Some(class_of(ty)),
        Constant::Null => {
            if is_non_null(wanted) {
                None
            } else {
                class_named(scope.types, immediates)
            }
        }
        Constant::Func => {
            let index = number_named(immediates)?;
            if (index as usize) < scope.functions {
                Some(ValueClass::Func)
            } else {
                None
            }
        }
        Constant::Global => {
            let index = number_named(immediates)?;
            global_value_class(scope.globals, index)
        }
        Constant::Integer(_) => None,
    }
}

/// The class of what an immutable global holds.
fn global_value_class(globals: &[items::Global<'_>], index: u32) -> Option<ValueClass>
    ensures { result ≡ global_value_class (types_of (global_values globals.now)) index }
{
    let global = globals.get(index as usize)?;
    if global.ty.mutable {
        None
    } else {
        Some(class_of(global.ty.content_type))
    }
}

/// The class of a null, unless its type has an index that is not below `types`.
fn class_named(types: usize, immediates: &Immediates<'_>) -> Option<ValueClass>
    ensures { result ≡ class_named types (immediates_value immediates.now) }
{
    match immediates {
        Immediates::RefType(ty) => {
            if has_type_index(types, *ty) {
                Some(class_of(*ty))
            } else {
                None
            }
        }
        _ => None,
    }
}

/// Whether a value type has no index of a type, or one below `types`.
pub fn has_type_index(types: usize, ty: ValType) -> bool
    ensures { result ≡ has_type_index types ty }
{
    match ty {
        ValType::TypeRef { index, .. } => (index as usize) < types,
        _ => true,
    }
}

fn class_of(ty: ValType) -> ValueClass
    ensures { result ≡ class_of ty }
{
    match ty {
        ValType::I32 => ValueClass::I32,
        ValType::I64 => ValueClass::I64,
        ValType::F32 => ValueClass::F32,
        ValType::F64 => ValueClass::F64,
        ValType::V128 => ValueClass::V128,
        ValType::FuncRef | ValType::FuncRefNonNull | ValType::TypeRef { .. } => ValueClass::Func,
        ValType::ExternRef | ValType::ExternRefNonNull => ValueClass::Extern,
    }
}

/// Whether a type is a reference type without null.
fn is_non_null(ty: ValType) -> bool
    ensures { result ≡ is_non_null ty }
{
    match ty {
        ValType::FuncRefNonNull | ValType::ExternRefNonNull => true,
        ValType::TypeRef { nullable, .. } => !nullable,
        _ => false,
    }
}

fn number_named(immediates: &Immediates<'_>) -> Option<u32>
    ensures { result ≡ number_named (immediates_value immediates.now) }
{
    match immediates {
        Immediates::Index(index) => Some(index.number),
        _ => None,
    }
}

fn is_same(a: ValueClass, b: ValueClass) -> bool
    ensures { result ≡ is_same a b }
{
    a == b
}
