//! Operators, and the one table that says which immediates each of them has (WebAssembly core specification, 5.4
//! "Instructions").

ghost use Rattle.std.specs.Prelude.{◌≡◌};
ghost use Rattle.wc_read.specs.Operators.{byte_form, misc_form, vector_form, atomic_form, form_of};

use crate::types::ValType;

/// An operator's code (5.4): one byte, or a number after a prefix.
#[derive(Clone, Copy, Debug, PartialEq, Eq)]
pub enum Opcode {
    /// One byte, none of the prefixes.
    Byte(u8),
    /// After `fc`: tables and memories in bulk, saturating conversions (5.4.5 to 5.4.7).
    Misc(u32),
    /// After `fd`: vectors (5.4.8).
    Vector(u32),
    /// After `fe`: atomic accesses (proposal threads).
    Atomic(u32),
}

/// A space of indices that a module's items have (2.5.1), as far as references go.
#[derive(Clone, Copy, Debug, PartialEq, Eq)]
pub enum Space {
    Types,
    Funcs,
    Tables,
    Memories,
    Globals,
}

/// The kind of an index: it counts items of a space, segments, or locals or labels of the body (2.5.1).
#[derive(Clone, Copy, Debug, PartialEq, Eq)]
pub enum IndexKind {
    /// Items of a space of the module.
    In(Space),
    /// Element segments.
    Elem,
    /// Data segments.
    Data,
    /// Locals, parameters first.
    Local,
    /// Labels, the inmost block's first.
    Label,
}

/// An index that an operator names (2.5.1): what it counts, and the number, from 0.
#[derive(Clone, Copy, Debug, PartialEq, Eq)]
pub struct Index {
    pub kind: IndexKind,
    pub number: u32,
}

/// A block's type (5.4.1): nothing, one result, or a function type by its index.
#[derive(Clone, Copy, Debug, PartialEq, Eq)]
pub enum BlockType {
    Empty,
    Value(ValType),
    FuncType(u32),
}

/// A memory argument (5.4.6): the exponent of the alignment, below 64; the memory's index; the offset in bytes. A
/// memory 0 that is named and one that is left out are the same.
#[derive(Clone, Copy, Debug, PartialEq, Eq)]
pub struct MemArg {
    pub align: u32,
    pub memory: u32,
    pub offset: u64,
}

/// The immediates of an operator, which come after its code (5.4), in one of the shapes of `Form`.
#[derive(Debug, PartialEq, Eq, Drop)]
pub enum Immediates<'a> {
    None,
    Block(BlockType),
    Index(Index),
    /// Two indices, in the order in which they are spelled.
    Indices(Index, Index),
    /// The labels of a `br_table`, and the one for all other numbers.
    Labels(Vec<u32>, u32),
    /// The types of a `select`.
    ValTypes(Vec<ValType>),
    /// The type of a `ref.null`: `FuncRef`, `ExternRef`, or a `TypeRef` with null.
    RefType(ValType),
    MemArg(MemArg),
    /// An address, and a lane of a vector.
    MemArgLane(MemArg, u8),
    /// The constant of an `i32.const` (5.4.7).
    I32(i32),
    /// The constant of an `i64.const` (5.4.7).
    I64(i64),
    /// A constant of four, eight or sixteen bytes, or the sixteen lanes of a shuffle.
    Bytes(&'a [u8]),
    Lane(u8),
}

/// An operator (5.4): its code, and what is after it.
#[derive(Debug, PartialEq, Eq, Drop)]
pub struct Instr<'a> {
    pub opcode: Opcode,
    pub immediates: Immediates<'a>,
}

/// The items of the module that an operator names (5.4), by their spaces and indices, in the order in which it names
/// them. Locals, labels and segments are no such items. Where there is one item it is `first`.
#[derive(Clone, Copy, Debug, PartialEq, Eq)]
pub struct Refs {
    pub first: Option<(Space, u32)>,
    pub second: Option<(Space, u32)>,
}

/// The shape of an operator's immediates (5.4): which of `Immediates` they are, and what it has. A number has 32 bits,
/// but the offset of a memory argument 64.
#[derive(Clone, Copy, Debug, PartialEq, Eq)]
pub enum Form {
    None,
    /// A block's type.
    Block,
    /// An index.
    Index(IndexKind),
    /// Two indices.
    Indices(IndexKind, IndexKind),
    /// A vector of labels, and one label after it.
    Labels,
    /// A vector of value types.
    ValTypes,
    /// A reference type with null, without the byte that begins one.
    RefType,
    /// A memory argument.
    MemArg,
    /// A memory argument, and a byte for the lane.
    MemArgLane,
    /// A signed number of 32 bits.
    I32,
    /// A signed number of 64 bits.
    I64,
    /// So many bytes: 4, 8 or 16.
    Bytes(usize),
    /// A byte for the lane.
    Lane,
    /// One byte 0, after which the immediates are `Immediates::None`.
    Zero,
}

/// The code of `end`.
pub const END: u8 = 0x0b;

const TYPE: IndexKind = IndexKind::In(Space::Types);

const FUNC: IndexKind = IndexKind::In(Space::Funcs);

const TABLE: IndexKind = IndexKind::In(Space::Tables);

const MEMORY: IndexKind = IndexKind::In(Space::Memories);

const GLOBAL: IndexKind = IndexKind::In(Space::Globals);

/// The operator table (5.4): the shape of the immediates that are after a code; `None` for a code that is no
/// operator's, a prefix as a `Byte` among them.
#[inline(always)]
pub fn form_of(opcode: Opcode) -> Option<Form>
    ensures { result ≡ form_of opcode }
{
    match opcode {
        Opcode::Byte(code) => byte_form(code),
        Opcode::Misc(code) => misc_form(code),
        Opcode::Vector(code) => vector_form(code),
        Opcode::Atomic(code) => atomic_form(code),
    }
}

/// Frequent codes that follow each other are separate: one pattern for both is compiled to a chain of tests, and not
/// to an entry each in a table of jumps.
#[inline(always)]
#[tactic(auto, unfolding(crate::specs::Operators::byte_form))]
pub fn byte_form(code: u8) -> Option<Form>
    ensures { result ≡ byte_form code }
{
    match code {
        // unreachable, else, end, return, drop
        0x00 | 0x05 | 0x0b | 0x0f | 0x1a => Some(Form::None),
        // nop, select
        0x01 | 0x1b => Some(Form::None),
        // block
        0x02 => Some(Form::Block),
        // loop
        0x03 => Some(Form::Block),
        // if
        0x04 => Some(Form::Block),
        // br
        0x0c => Some(Form::Index(IndexKind::Label)),
        // br_if, br_on_null, br_on_non_null
        0x0d | 0xd5 | 0xd6 => Some(Form::Index(IndexKind::Label)),
        // br_table
        0x0e => Some(Form::Labels),
        // call, return_call, ref.func
        0x10 | 0x12 | 0xd2 => Some(Form::Index(FUNC)),
        // call_indirect, return_call_indirect
        0x11 | 0x13 => Some(Form::Indices(TYPE, TABLE)),
        // call_ref, return_call_ref
        0x14 | 0x15 => Some(Form::Index(TYPE)),
        // select, with the types of its values
        0x1c => Some(Form::ValTypes),
        // local.get
        0x20 => Some(Form::Index(IndexKind::Local)),
        // local.set
        0x21 => Some(Form::Index(IndexKind::Local)),
        // local.tee
        0x22 => Some(Form::Index(IndexKind::Local)),
        // global.get
        0x23 => Some(Form::Index(GLOBAL)),
        // global.set
        0x24 => Some(Form::Index(GLOBAL)),
        // table.get, table.set
        0x25 | 0x26 => Some(Form::Index(TABLE)),
        // i32.load to i64.store32
        0x28..=0x3e => Some(Form::MemArg),
        // memory.size, memory.grow
        0x3f | 0x40 => Some(Form::Index(MEMORY)),
        // i32.const
        0x41 => Some(Form::I32),
        // i64.const
        0x42 => Some(Form::I64),
        // f32.const
        0x43 => Some(Form::Bytes(4)),
        // f64.const
        0x44 => Some(Form::Bytes(8)),
        // i32.eqz to i64.extend32_s, ref.is_null, ref.as_non_null
        0x45..=0xc4 | 0xd1 | 0xd4 => Some(Form::None),
        // ref.null
        0xd0 => Some(Form::RefType),
        _ => None,
    }
}

#[tactic(auto, unfolding(crate::specs::Operators::misc_form))]
fn misc_form(code: u32) -> Option<Form>
    ensures { result ≡ misc_form code }
{
    match code {
        // i32.trunc_sat_f32_s to i64.trunc_sat_f64_u
        0..=7 => Some(Form::None),
        // memory.init
        8 => Some(Form::Indices(IndexKind::Data, MEMORY)),
        // data.drop
        9 => Some(Form::Index(IndexKind::Data)),
        // memory.copy
        10 => Some(Form::Indices(MEMORY, MEMORY)),
        // memory.fill
        11 => Some(Form::Index(MEMORY)),
        // table.init
        12 => Some(Form::Indices(IndexKind::Elem, TABLE)),
        // elem.drop
        13 => Some(Form::Index(IndexKind::Elem)),
        // table.copy
        14 => Some(Form::Indices(TABLE, TABLE)),
        // table.grow, table.size, table.fill
        15..=17 => Some(Form::Index(TABLE)),
        _ => None,
    }
}

#[tactic(auto, unfolding(crate::specs::Operators::vector_form))]
fn vector_form(code: u32) -> Option<Form>
    ensures { result ≡ vector_form code }
{
    match code {
        // v128.load to v128.store, v128.load32_zero, v128.load64_zero
        0..=11 | 92 | 93 => Some(Form::MemArg),
        // v128.const, i8x16.shuffle
        12 | 13 => Some(Form::Bytes(16)),
        // i8x16.extract_lane_s to f64x2.replace_lane
        21..=34 => Some(Form::Lane),
        // v128.load8_lane to v128.store64_lane
        84..=91 => Some(Form::MemArgLane),
        // i8x16.swizzle to i32x4.relaxed_dot_i8x16_i7x16_add_s, and numbers between that are not assigned
        _ => {
            if code <= 0x113 {
                Some(Form::None)
            } else {
                None
            }
        }
    }
}

#[tactic(auto, unfolding(crate::specs::Operators::atomic_form))]
fn atomic_form(code: u32) -> Option<Form>
    ensures { result ≡ atomic_form code }
{
    match code {
        // memory.atomic.notify, memory.atomic.wait32, memory.atomic.wait64;
        // i32.atomic.load to i64.atomic.rmw32.cmpxchg_u
        0..=2 | 0x10..=0x4e => Some(Form::MemArg),
        // atomic.fence
        3 => Some(Form::Zero),
        _ => None,
    }
}
