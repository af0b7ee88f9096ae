//! The table of operators' codes by which operators are passed over.

ghost use Rattle.std.specs.Prelude.{◌≡◌};
ghost use Rattle.wc_read.specs.PassKinds.{begins_run, is_ever, pass_kind, short_size};

/// How an operator is passed over. Each kind has one shape of immediates (WebAssembly core specification, 5.4), and one
/// effect on the blocks that are open.
#[derive(Clone, Copy, Debug, PartialEq, Eq)]
pub enum PassKind {
    /// It never is.
    Never,
    /// It is its code alone.
    CodeOnly,
    /// A local or a label.
    Index,
    /// A signed constant of 32 bits.
    I32,
    /// A signed constant of 64 bits.
    I64,
    /// Four bytes.
    FourBytes,
    /// Eight bytes.
    EightBytes,
    /// A memory argument.
    MemArg,
    /// A memory.
    Memory,
    /// Labels, and one label after them.
    Labels,
    /// It opens a block in which no `else` may occur: `block` and `loop`.
    Block,
    /// It opens a block in which one may: `if`.
    If,
    Else,
    End,
}

/// How an operator of this code is passed over.
#[inline(always)]
pub fn pass_kind(code: u8) -> PassKind
    ensures { result ≡ pass_kind code }
{
    PASS_KINDS[code as usize]
}

/// One entry for each code.
static PASS_KINDS: [PassKind; 256] = [
    // 00
    PassKind::CodeOnly,
    PassKind::CodeOnly,
    PassKind::Block,
    PassKind::Block,
    PassKind::If,
    PassKind::Else,
    PassKind::Never,
    PassKind::Never,
    PassKind::Never,
    PassKind::Never,
    PassKind::Never,
    PassKind::End,
    PassKind::Index,
    PassKind::Index,
    PassKind::Labels,
    PassKind::CodeOnly,
    // 10
    PassKind::Never,
    PassKind::Never,
    PassKind::Never,
    PassKind::Never,
    PassKind::Never,
    PassKind::Never,
    PassKind::Never,
    PassKind::Never,
    PassKind::Never,
    PassKind::Never,
    PassKind::CodeOnly,
    PassKind::CodeOnly,
    PassKind::Never,
    PassKind::Never,
    PassKind::Never,
    PassKind::Never,
    // 20
    PassKind::Index,
    PassKind::Index,
    PassKind::Index,
    PassKind::Never,
    PassKind::Never,
    PassKind::Never,
    PassKind::Never,
    PassKind::Never,
    PassKind::MemArg,
    PassKind::MemArg,
    PassKind::MemArg,
    PassKind::MemArg,
    PassKind::MemArg,
    PassKind::MemArg,
    PassKind::MemArg,
    PassKind::MemArg,
    // 30
    PassKind::MemArg,
    PassKind::MemArg,
    PassKind::MemArg,
    PassKind::MemArg,
    PassKind::MemArg,
    PassKind::MemArg,
    PassKind::MemArg,
    PassKind::MemArg,
    PassKind::MemArg,
    PassKind::MemArg,
    PassKind::MemArg,
    PassKind::MemArg,
    PassKind::MemArg,
    PassKind::MemArg,
    PassKind::MemArg,
    PassKind::Memory,
    // 40
    PassKind::Memory,
    PassKind::I32,
    PassKind::I64,
    PassKind::FourBytes,
    PassKind::EightBytes,
    PassKind::CodeOnly,
    PassKind::CodeOnly,
    PassKind::CodeOnly,
    PassKind::CodeOnly,
    PassKind::CodeOnly,
    PassKind::CodeOnly,
    PassKind::CodeOnly,
    PassKind::CodeOnly,
    PassKind::CodeOnly,
    PassKind::CodeOnly,
    PassKind::CodeOnly,
    // 50
    PassKind::CodeOnly,
    PassKind::CodeOnly,
    PassKind::CodeOnly,
    PassKind::CodeOnly,
    PassKind::CodeOnly,
    PassKind::CodeOnly,
    PassKind::CodeOnly,
    PassKind::CodeOnly,
    PassKind::CodeOnly,
    PassKind::CodeOnly,
    PassKind::CodeOnly,
    PassKind::CodeOnly,
    PassKind::CodeOnly,
    PassKind::CodeOnly,
    PassKind::CodeOnly,
    PassKind::CodeOnly,
    // 60
    PassKind::CodeOnly,
    PassKind::CodeOnly,
    PassKind::CodeOnly,
    PassKind::CodeOnly,
    PassKind::CodeOnly,
    PassKind::CodeOnly,
    PassKind::CodeOnly,
    PassKind::CodeOnly,
    PassKind::CodeOnly,
    PassKind::CodeOnly,
    PassKind::CodeOnly,
    PassKind::CodeOnly,
    PassKind::CodeOnly,
    PassKind::CodeOnly,
    PassKind::CodeOnly,
    PassKind::CodeOnly,
    // 70
    PassKind::CodeOnly,
    PassKind::CodeOnly,
    PassKind::CodeOnly,
    PassKind::CodeOnly,
    PassKind::CodeOnly,
    PassKind::CodeOnly,
    PassKind::CodeOnly,
    PassKind::CodeOnly,
    PassKind::CodeOnly,
    PassKind::CodeOnly,
    PassKind::CodeOnly,
    PassKind::CodeOnly,
    PassKind::CodeOnly,
    PassKind::CodeOnly,
    PassKind::CodeOnly,
    PassKind::CodeOnly,
    // 80
    PassKind::CodeOnly,
    PassKind::CodeOnly,
    PassKind::CodeOnly,
    PassKind::CodeOnly,
    PassKind::CodeOnly,
    PassKind::CodeOnly,
    PassKind::CodeOnly,
    PassKind::CodeOnly,
    PassKind::CodeOnly,
    PassKind::CodeOnly,
    PassKind::CodeOnly,
    PassKind::CodeOnly,
    PassKind::CodeOnly,
    PassKind::CodeOnly,
    PassKind::CodeOnly,
    PassKind::CodeOnly,
    // 90
    PassKind::CodeOnly,
    PassKind::CodeOnly,
    PassKind::CodeOnly,
    PassKind::CodeOnly,
    PassKind::CodeOnly,
    PassKind::CodeOnly,
    PassKind::CodeOnly,
    PassKind::CodeOnly,
    PassKind::CodeOnly,
    PassKind::CodeOnly,
    PassKind::CodeOnly,
    PassKind::CodeOnly,
    PassKind::CodeOnly,
    PassKind::CodeOnly,
    PassKind::CodeOnly,
    PassKind::CodeOnly,
    // a0
    PassKind::CodeOnly,
    PassKind::CodeOnly,
    PassKind::CodeOnly,
    PassKind::CodeOnly,
    PassKind::CodeOnly,
    PassKind::CodeOnly,
    PassKind::CodeOnly,
    PassKind::CodeOnly,
    PassKind::CodeOnly,
    PassKind::CodeOnly,
    PassKind::CodeOnly,
    PassKind::CodeOnly,
    PassKind::CodeOnly,
    PassKind::CodeOnly,
    PassKind::CodeOnly,
    PassKind::CodeOnly,
    // b0
    PassKind::CodeOnly,
    PassKind::CodeOnly,
    PassKind::CodeOnly,
    PassKind::CodeOnly,
    PassKind::CodeOnly,
    PassKind::CodeOnly,
    PassKind::CodeOnly,
    PassKind::CodeOnly,
    PassKind::CodeOnly,
    PassKind::CodeOnly,
    PassKind::CodeOnly,
    PassKind::CodeOnly,
    PassKind::CodeOnly,
    PassKind::CodeOnly,
    PassKind::CodeOnly,
    PassKind::CodeOnly,
    // c0
    PassKind::CodeOnly,
    PassKind::CodeOnly,
    PassKind::CodeOnly,
    PassKind::CodeOnly,
    PassKind::CodeOnly,
    PassKind::Never,
    PassKind::Never,
    PassKind::Never,
    PassKind::Never,
    PassKind::Never,
    PassKind::Never,
    PassKind::Never,
    PassKind::Never,
    PassKind::Never,
    PassKind::Never,
    PassKind::Never,
    // d0
    PassKind::Never,
    PassKind::CodeOnly,
    PassKind::Never,
    PassKind::Never,
    PassKind::CodeOnly,
    PassKind::Index,
    PassKind::Index,
    PassKind::Never,
    PassKind::Never,
    PassKind::Never,
    PassKind::Never,
    PassKind::Never,
    PassKind::Never,
    PassKind::Never,
    PassKind::Never,
    PassKind::Never,
    // e0
    PassKind::Never,
    PassKind::Never,
    PassKind::Never,
    PassKind::Never,
    PassKind::Never,
    PassKind::Never,
    PassKind::Never,
    PassKind::Never,
    PassKind::Never,
    PassKind::Never,
    PassKind::Never,
    PassKind::Never,
    PassKind::Never,
    PassKind::Never,
    PassKind::Never,
    PassKind::Never,
    // f0
    PassKind::Never,
    PassKind::Never,
    PassKind::Never,
    PassKind::Never,
    PassKind::Never,
    PassKind::Never,
    PassKind::Never,
    PassKind::Never,
    PassKind::Never,
    PassKind::Never,
    PassKind::Never,
    PassKind::Never,
    PassKind::Never,
    PassKind::Never,
    PassKind::Never,
    PassKind::Never,
];

/// How many bytes an operator of this code has, where it is its code alone, or its code and a number of one byte; 0 for
/// all others.
#[inline(always)]
pub fn short_size(code: u8) -> u8
    ensures { result ≡ short_size code }
{
    SHORT_SIZES[code as usize]
}

/// One entry for each code.
static SHORT_SIZES: [u8; 256] = [
    1, 1, 0, 0, 0, 0, 0, 0, 0, 0, 0, 0, 2, 2, 0, 1, // 00
    0, 0, 0, 0, 0, 0, 0, 0, 0, 0, 1, 1, 0, 0, 0, 0, // 10
    2, 2, 2, 0, 0, 0, 0, 0, 0, 0, 0, 0, 0, 0, 0, 0, // 20
    0, 0, 0, 0, 0, 0, 0, 0, 0, 0, 0, 0, 0, 0, 0, 0, // 30
    0, 2, 2, 0, 0, 1, 1, 1, 1, 1, 1, 1, 1, 1, 1, 1, // 40
    1, 1, 1, 1, 1, 1, 1, 1, 1, 1, 1, 1, 1, 1, 1, 1, // 50
    1, 1, 1, 1, 1, 1, 1, 1, 1, 1, 1, 1, 1, 1, 1, 1, // 60
    1, 1, 1, 1, 1, 1, 1, 1, 1, 1, 1, 1, 1, 1, 1, 1, // 70
    1, 1, 1, 1, 1, 1, 1, 1, 1, 1, 1, 1, 1, 1, 1, 1, // 80
    1, 1, 1, 1, 1, 1, 1, 1, 1, 1, 1, 1, 1, 1, 1, 1, // 90
    1, 1, 1, 1, 1, 1, 1, 1, 1, 1, 1, 1, 1, 1, 1, 1, // a0
    1, 1, 1, 1, 1, 1, 1, 1, 1, 1, 1, 1, 1, 1, 1, 1, // b0
    1, 1, 1, 1, 1, 0, 0, 0, 0, 0, 0, 0, 0, 0, 0, 0, // c0
    0, 1, 0, 0, 1, 2, 2, 0, 0, 0, 0, 0, 0, 0, 0, 0, // d0
    0, 0, 0, 0, 0, 0, 0, 0, 0, 0, 0, 0, 0, 0, 0, 0, // e0
    0, 0, 0, 0, 0, 0, 0, 0, 0, 0, 0, 0, 0, 0, 0, 0, // f0
];

/// Whether bytes begin with the code of an operator that is ever passed over.
#[inline(always)]
pub fn begins_run(input: &[u8]) -> bool
    ensures { result ≡ begins_run input.now }
{
    match input.split_first() {
        Some((first, _)) => is_ever(pass_kind(*first)),
        None => false,
    }
}

/// Whether operators of this kind are ever passed over.
#[inline(always)]
fn is_ever(kind: PassKind) -> bool
    ensures { result ≡ is_ever kind }
{
    !matches!(kind, PassKind::Never)
}
