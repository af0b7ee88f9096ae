//! Initialisers of globals.

ghost use Rattle.std.specs.Prelude.{◌≡◌, ◌≢◌, ◌||◌, Some, None, IfOk, IfErr, IfSome};
ghost use Rattle.wc_read.specs.Fault.{IfRefused, SpellsNothing};
ghost use Rattle.wc_read.specs.Reading.Reader.{Gives};
ghost use Rattle.wc_read.specs.Operators.{instr_value, instr_values};
ghost use Rattle.wc_read.specs.Inits.{constant_byte, constant_of, is_constant, init_value, SpellsInit};
ghost use Rattle.wc_read.specs.Reading.Inits.{is_end, init_instr_at, init_end_at, init_at, init_bytes_at};

use crate::fault::ReadFault;
use crate::init_operators::space_named;
use crate::operators::{END, Instr, Opcode};
use crate::reader::Reader;
use crate::types::ValType;
use std::alloc::Global;

/// An initialiser (WebAssembly core specification, 3.3.10 and 5.4.9): its operators, the end of it as the last of them.
#[derive(Debug, PartialEq, Eq, Drop)]
pub struct Init<'a> {
    pub operators: Vec<Instr<'a>>,
}

/// The class of a value type, which decides whether an initialiser fits a global: of a reference type only whether it
/// refers to functions or to values of the host.
#[derive(Clone, Copy, Debug, PartialEq, Eq)]
pub enum ValueClass {
    I32,
    I64,
    F32,
    F64,
    V128,
    /// Functions.
    Func,
    /// Values of the host.
    Extern,
}

/// The result of a constant operator.
#[derive(Clone, Copy, Debug, PartialEq, Eq)]
pub enum Constant {
    /// A value of the type.
    Value(ValType),
    /// A null of the type that it names.
    Null,
    /// A reference of the function that it names.
    Func,
    /// The value of the global that it names.
    Global,
    /// An integer of the type, out of two.
    Integer(ValType),
}

/// Reads an initialiser (WebAssembly core specification, 3.3.10 and 5.4.9): constant operators, and their end as
/// the last byte. What they leave is not checked.
///
/// # Errors
///
/// - `Truncated`: the bytes end before the `end` of the initialiser.
/// - `BadNumber`: a number does not fit its bits in LEB128, or an operator that is not constant has immediates that are
///   `BadNumber` in a body.
/// - `BadType`: a byte of an immediate is no value type, or the index of a type in a reference is negative.
/// - `UnknownOperator`: an opcode is not assigned, or the byte of a fence is not 0.
/// - `BadInitialiser`: an operator is not constant, or bytes follow the `end`.
/// - `Memory`: an allocation failed.
pub fn read_init(alloc: Global, slice: &[u8]) -> Result<Init<'_>, ReadFault>
    // What is read is spelled so, by all of the bytes.
    ensures found { IfOk result (λ i. SpellsInit slice.now (init_value i)) }
    // Unless memory runs out, what is spelled is read.
    ensures refused { IfRefused result (SpellsNothing SpellsInit slice.now) }
    ensures no_component { IfErr result (λ f. f ≢ ReadFault.Component) }
{
    let mut reader = Reader::new(slice);
    let operators = reader.init_operators(alloc)?;
    if !reader.rest.is_empty() {
        return Err(ReadFault::BadInitialiser);
    }
    Ok(Init { operators })
}

impl<'a> Reader<'a> {
    /// The bytes of an initialiser. Most that name an item have one operator.
    pub fn init(&mut self, alloc: Global) -> Result<&'a [u8], ReadFault>
        ensures { Gives (λ b. b.now) result self.new.rest.now (init_bytes_at self.old.rest.now) }
    {
        match self.one_index_init() {
            Some(init) => Ok(init),
            None => self.any_init(alloc),
        }
    }

    /// The bytes of an initialiser with one operator that names an item, and the `end`; if another initialiser is
    /// next, nothing is read.
    #[inline(always)]
    fn one_index_init(&mut self) -> Option<&'a [u8]>
        ensures read { IfSome result (λ b. init_bytes_at self.old.rest.now
            ≡ Some (b.now, self.new.rest.now)) }
        ensures unread { result ≡ None → self.new.rest.now ≡ self.old.rest.now }
    {
        let input = self.rest;
        let (first, rest) = input.split_first()?;
        space_named(*first)?;
        let mut reader = Reader::new(rest);
        let Ok(_) = reader.u32() else {
            return None;
        };
        let (last, after) = reader.rest.split_first()?;
        if *last != END {
            return None;
        }
        let (init, _) = input.split_at(input.len() - after.len());
        self.rest = after;
        Some(init)
    }

    /// The bytes of an initialiser of any operators.
    #[inline(never)]
    fn any_init(&mut self, alloc: Global) -> Result<&'a [u8], ReadFault>
        ensures { Gives (λ b. b.now) result self.new.rest.now (init_bytes_at self.old.rest.now) }
    {
        let input = self.rest;
        loop {
            if self.init_end(alloc)? {
                let (init, _) = input.split_at(input.len() - self.rest.len());
                return Ok(init);
            }
        }
    }

    /// Goes past an operator, and says whether it is the end.
    #[tactic(auto, unfolding(crate::specs::Reading::Inits::init_end_at))]
    fn init_end(&mut self, alloc: Global) -> Result<bool, ReadFault>
        ensures { Gives (λ b. b) result self.new.rest.now (init_end_at self.old.rest.now) }
    {
        let operator = self.init_operator(alloc)?;
        Ok(is_end(operator.opcode))
    }

    /// The operators of an initialiser.
    fn init_operators(&mut self, alloc: Global) -> Result<Vec<Instr<'a>>, ReadFault>
        ensures { Gives (λ v. instr_values v.items) result self.new.rest.now
            (init_at self.old.rest.now) }
    {
        let mut operators = Vec::new(alloc);
        loop {
            let operator = self.init_operator(alloc)?;
            let last = is_end(operator.opcode);
            operators.push(operator)?;
            if last {
                return Ok(operators);
            }
        }
    }

    /// An operator of an initialiser. Most are of a frequent shape.
    #[inline(always)]
    #[tactic(auto, unfolding(crate::specs::Reading::Inits::init_instr_at))]
    pub fn init_operator(&mut self, alloc: Global) -> Result<Instr<'a>, ReadFault>
        ensures { Gives (λ i. instr_value i) result self.new.rest.now
            (init_instr_at self.old.rest.now) }
    {
        match self.frequent() {
            Ok(Some(operator)) => {
                if is_init_opcode(operator.opcode) {
                    Ok(operator)
                } else {
                    Err(ReadFault::BadInitialiser)
                }
            }
            Ok(None) => self.rarer_init_operator(alloc),
            Err(fault) => Err(fault),
        }
    }

    /// An operator of an initialiser, of any shape.
    #[inline(never)]
    #[tactic(auto, unfolding(crate::specs::Reading::Inits::init_instr_at))]
    fn rarer_init_operator(&mut self, alloc: Global) -> Result<Instr<'a>, ReadFault>
        ensures { Gives (λ i. instr_value i) result self.new.rest.now
            (init_instr_at self.old.rest.now) }
    {
        let operator = self.operator(alloc)?;
        if is_init_opcode(operator.opcode) {
            Ok(operator)
        } else {
            Err(ReadFault::BadInitialiser)
        }
    }
}

/// Whether an operator may be in an initialiser: it is constant, or the `end`.
#[inline(always)]
fn is_init_opcode(opcode: Opcode) -> bool
    ensures { result ≡ (is_end opcode || is_constant opcode) }
{
    is_end(opcode) || is_constant(opcode)
}

#[inline(always)]
pub fn is_end(opcode: Opcode) -> bool
    ensures { result ≡ is_end opcode }
{
    matches!(opcode, Opcode::Byte(END))
}

#[inline(always)]
fn is_constant(opcode: Opcode) -> bool
    ensures { result ≡ is_constant opcode }
{
    constant_of(opcode).is_some()
}

/// The constant operators (3.3.10).
#[inline(always)]
pub fn constant_of(opcode: Opcode) -> Option<Constant>
    ensures { result ≡ constant_of opcode }
{
    match opcode {
        Opcode::Byte(code) => constant_byte(code),
        // v128.const
        Opcode::Vector(12) => Some(Constant::Value(ValType::V128)),
        _ => None,
    }
}

#[inline(always)]
#[tactic(auto, unfolding(crate::specs::Inits::constant_byte))]
fn constant_byte(code: u8) -> Option<Constant>
    ensures { result ≡ constant_byte code }
{
    match code {
        // i32.const
        0x41 => Some(Constant::Value(ValType::I32)),
        // i64.const
        0x42 => Some(Constant::Value(ValType::I64)),
        // f32.const
        0x43 => Some(Constant::Value(ValType::F32)),
        // f64.const
        0x44 => Some(Constant::Value(ValType::F64)),
        // ref.null
        0xd0 => Some(Constant::Null),
        // ref.func
        0xd2 => Some(Constant::Func),
        // global.get
        0x23 => Some(Constant::Global),
        // i32.add, i32.sub, i32.mul
        0x6a..=0x6c => Some(Constant::Integer(ValType::I32)),
        // i64.add, i64.sub, i64.mul
        0x7c..=0x7e => Some(Constant::Integer(ValType::I64)),
        _ => None,
    }
}
