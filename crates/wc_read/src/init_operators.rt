//! The operators of an initialiser, one after another.

ghost use Rattle.std.specs.Prelude.{◌≡◌, ◌≢◌, ◌<◌, [], ◌∷◌, true, Some, None, is_some, IfOk, IfErr, IfSome};
ghost use Rattle.std.specs.Option.{option_map};
ghost use Rattle.wc_read.specs.Fault.{IfRefused};
ghost use Rattle.wc_read.specs.Inits.{end_value};
ghost use Rattle.wc_read.specs.Operators.{end_code, instr_value};
ghost use Rattle.wc_read.specs.BodyOperators.{init_in, next_and_left};
ghost use Rattle.wc_read.specs.InitOperators.{NamesSpace, index_instr, init_bytes_left, init_left};

use crate::fault::ReadFault;
use crate::inits::is_end;
use crate::operators::{END, Index, IndexKind, Instr, Space};
use crate::reader::Reader;
use std::alloc::{AllocError, Global};

/// The operators of an initialiser (WebAssembly core specification, 3.3.10 and 5.4.9), read one after another. None of
/// them is kept.
#[derive(Drop)]
pub struct InitOperators<'a> {
    reader: Reader<'a>,
    /// Whether the end was read.
    has_ended: bool,
}

impl<'a> InitOperators<'a> {
    /// The operators of the initialiser that bytes spell. None is read here.
    #[inline(always)]
    #[tactic(auto, unfolding(crate::specs::InitOperators::init_left))]
    pub fn new(slice: &'a [u8]) -> InitOperators<'a>
        ensures { init_left result ≡ init_in slice.now }
    {
        InitOperators {
            reader: Reader::new(slice),
            has_ended: false,
        }
    }

    /// The next operator, the `end` as the last of them; `None` after it.
    ///
    /// # Errors
    ///
    /// Those of `read_init`. After a fault, what is left is not said.
    #[inline(always)]
    pub fn next(&mut self, alloc: Global) -> Result<Option<Instr<'a>>, ReadFault>
        ensures found { IfOk result (λ i. init_left self.old
            ≡ next_and_left (option_map instr_value i) (init_left self.new)) }
        // Each operator has a byte at least.
        ensures shorter { IfOk result (λ i.
            IfSome i (λ _. init_bytes_left self.new < init_bytes_left self.old)) }
        // Unless memory runs out, the operators of an initialiser are read.
        ensures refused { IfRefused result (init_left self.old ≡ None) }
        ensures no_component { IfErr result (λ f. f ≢ ReadFault.Component) }
    {
        if self.has_ended {
            if self.reader.rest.is_empty() {
                return Ok(None);
            }
            return Err(ReadFault::BadInitialiser);
        }
        let operator = self.reader.init_operator(alloc)?;
        self.has_ended = is_end(operator.opcode);
        Ok(Some(operator))
    }
}

/// Whether bytes spell an initialiser (3.3.10 and 5.4.9). What its operators leave is not looked at.
///
/// # Errors
///
/// `AllocError`: an allocation failed.
pub fn is_init(alloc: Global, slice: &[u8]) -> Result<bool, AllocError>
    ensures { IfOk result (λ b. b ≡ is_some (init_in slice.now)) }
{
    let mut reader = Reader::new(slice);
    match reader.init(alloc) {
        Ok(_) => Ok(reader.rest.is_empty()),
        Err(fault) => match fault {
            ReadFault::Memory => Err(AllocError),
            _ => Ok(false),
        },
    }
}

/// The code of `global.get`.
const GLOBAL_GET: u8 = 0x23;

/// The code of `ref.func`.
const REF_FUNC: u8 = 0xd2;

/// An initialiser of one operator that names an item, and the `end` (3.3.10): `global.get` or `ref.func`.
#[derive(Clone, Copy, Debug, PartialEq, Eq)]
pub struct InitIndex {
    /// The code of the operator.
    pub code: u8,
    /// The index of the item that it names.
    pub index: Index,
}

/// The operator of such an initialiser; `None` where bytes spell another one, or none. It takes no memory.
#[inline(always)]
pub fn init_index(slice: &[u8]) -> Option<InitIndex>
    ensures { IfSome result (λ i. init_in slice.now ≡ Some (index_instr i ∷ end_value ∷ [])) }
{
    let (first, rest) = slice.split_first()?;
    let space = space_named(*first)?;
    let mut reader = Reader::new(rest);
    let Ok(number) = reader.u32() else {
        return None;
    };
    if !is_end_alone(reader.rest) {
        return None;
    }
    Some(InitIndex {
        code: *first,
        index: Index {
            kind: IndexKind::In(space),
            number,
        },
    })
}

/// The space that a constant operator of this code names an item of.
#[inline(always)]
#[tactic(auto, unfolding(crate::specs::Operators::byte_form, crate::specs::Inits::constant_byte))]
pub(crate) fn space_named(code: u8) -> Option<Space>
    ensures { IfSome result (NamesSpace code) }
{
    if code == GLOBAL_GET {
        return Some(Space::Globals);
    }
    if code == REF_FUNC {
        return Some(Space::Funcs);
    }
    None
}

/// Whether bytes are an `end`, and no more.
#[inline(always)]
fn is_end_alone(bytes: &[u8]) -> bool
    ensures { result ≡ true → bytes.now ≡ end_code ∷ [] }
{
    match bytes.split_first() {
        Some((first, rest)) => *first == END && rest.is_empty(),
        None => false,
    }
}
