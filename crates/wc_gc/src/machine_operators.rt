//! The operators in which the code that trimming adds is written.

ghost use Rattle.std.specs.Prelude.{◌≡◌};
ghost use Rattle.wc_read.specs.Operators.{WithIndex, index_of, instr_value};
ghost use Rattle.wc_gc.specs.AddedCode.{plain, with};
ghost use Rattle.wc_gc.specs.Private.MachineOperators.{instr_of};

use wc_read::{BlockType, Immediates, Index, IndexKind, Instr, Opcode, Space};

/// An operator of the small machine (WebAssembly core specification, 5.4), with an index or a constant.
#[derive(Clone, Copy)]
pub enum MachineOperator {
    Unreachable,
    /// `if` with no result.
    If,
    End,
    /// `call` of a function.
    Call(u32),
    LocalGet(u32),
    LocalTee(u32),
    GlobalGet(u32),
    GlobalSet(u32),
    /// `memory.grow` of a memory.
    MemoryGrow(u32),
    I32Const(i32),
    I32Eq,
    I32Ne,
    I32Add,
    I32Shl,
}

/// The operator as one of a body.
pub fn instr_of(operator: MachineOperator) -> Instr<'static>
    ensures { instr_value result ≡ instr_of operator }
{
    match operator {
        MachineOperator::Unreachable => plain(0x00),
        MachineOperator::If => Instr {
            opcode: Opcode::Byte(0x04),
            immediates: Immediates::Block(BlockType::Empty),
        },
        MachineOperator::End => plain(0x0b),
        MachineOperator::Call(func) => indexed(0x10, IndexKind::In(Space::Funcs), func),
        MachineOperator::LocalGet(local) => indexed(0x20, IndexKind::Local, local),
        MachineOperator::LocalTee(local) => indexed(0x22, IndexKind::Local, local),
        MachineOperator::GlobalGet(global) => indexed(0x23, IndexKind::In(Space::Globals), global),
        MachineOperator::GlobalSet(global) => indexed(0x24, IndexKind::In(Space::Globals), global),
        MachineOperator::MemoryGrow(memory) => {
            indexed(0x40, IndexKind::In(Space::Memories), memory)
        }
        MachineOperator::I32Const(number) => Instr {
            opcode: Opcode::Byte(0x41),
            immediates: Immediates::I32(number),
        },
        MachineOperator::I32Eq => plain(0x46),
        MachineOperator::I32Ne => plain(0x47),
        MachineOperator::I32Add => plain(0x6a),
        MachineOperator::I32Shl => plain(0x74),
    }
}

/// An operator with no immediates.
fn plain(code: u8) -> Instr<'static>
    ensures { instr_value result ≡ plain code }
{
    Instr {
        opcode: Opcode::Byte(code),
        immediates: Immediates::None,
    }
}

/// An operator that names an index.
fn indexed(code: u8, kind: IndexKind, number: u32) -> Instr<'static>
    ensures { instr_value result ≡ with code (WithIndex (index_of kind number)) }
{
    Instr {
        opcode: Opcode::Byte(code),
        immediates: Immediates::Index(Index { kind, number }),
    }
}
