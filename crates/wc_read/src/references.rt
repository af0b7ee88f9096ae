//! The references of an operator.

ghost use Rattle.std.specs.Prelude.{◌≡◌};
ghost use Rattle.wc_read.specs.Operators.{immediates_value};
ghost use Rattle.wc_read.specs.References.{reference, two_refs, refs_of, is_segment, names_segment, type_reference, type_refs_of, type_refs_left};
ghost use Rattle.wc_read.specs.Types.{type_indices};

use crate::operators::{BlockType, Immediates, Index, IndexKind, Instr, Refs, Space};
use crate::types::ValType;

/// The types, functions, tables, memories and globals that an operator names by index, in the order in which it names
/// them (5.4). One index is the first; if an operator has two indices and only the second names such an item, that is
/// the first. Locals, labels and segments don't count. An access of memory names its memory, which is 0 if it is left
/// out.
pub fn refs(instr: &Instr<'_>) -> Refs
    ensures { result ≡ refs_of (immediates_value instr.now.immediates) }
{
    match &instr.immediates {
        Immediates::Block(BlockType::FuncType(number)) => one(Some((Space::Types, *number))),
        Immediates::Block(BlockType::Value(ty)) => one(type_reference(*ty)),
        Immediates::RefType(ty) => one(type_reference(*ty)),
        Immediates::Index(index) => one(reference(*index)),
        Immediates::Indices(first, second) => two(*first, *second),
        Immediates::MemArg(address) => one(Some((Space::Memories, address.memory))),
        Immediates::MemArgLane(address, _) => one(Some((Space::Memories, address.memory))),
        _ => one(None),
    }
}

fn one(first: Option<(Space, u32)>) -> Refs
    ensures { result ≡ record { first = first; second = None } }
{
    Refs {
        first,
        second: None,
    }
}

fn two(first: Index, second: Index) -> Refs
    ensures { result ≡ two_refs (reference first) (reference second) }
{
    match reference(first) {
        None => one(reference(second)),
        named => Refs {
            first: named,
            second: reference(second),
        },
    }
}

fn reference(index: Index) -> Option<(Space, u32)>
    ensures { result ≡ reference index }
{
    match index.kind {
        IndexKind::In(space) => Some((space, index.number)),
        _ => None,
    }
}

/// The type that a value type names by its index.
fn type_reference(ty: ValType) -> Option<(Space, u32)>
    ensures { result ≡ type_reference ty }
{
    match ty {
        ValType::TypeRef { index, .. } => Some((Space::Types, index)),
        _ => None,
    }
}

/// An iterator over the indices of types in value types, in their order. It takes no memory.
#[derive(Drop)]
pub struct TypeRefs<'a> {
    types: &'a [ValType],
}

impl<'a> TypeRefs<'a> {
    /// The indices in these value types.
    fn of(types: &'a [ValType]) -> TypeRefs<'a>
        ensures { type_refs_left result ≡ type_indices types.now }
    {
        TypeRefs { types }
    }
}

impl<'a> Iterator for TypeRefs<'a> {
    type Item = u32;

    ghost use Rattle.std.specs.Iterator.{YieldsFirst, item_count};
    ghost use Rattle.wc_read.specs.References.{type_refs_left};

    ghost next_gives = { YieldsFirst type_refs_left };

    ghost remaining = { item_count type_refs_left };

    fn next(&mut self) -> Option<u32> {
        loop {
            let (first, others) = self.types.split_first()?;
            self.types = others;
            if let ValType::TypeRef { index, .. } = *first {
                return Some(index);
            }
        }
    }
}

/// The types named by the value types of a `select` (5.4.3), in order; for any other operator none. `refs` gives none
/// of these types.
pub fn type_refs<'a>(instr: &'a Instr<'_>) -> TypeRefs<'a>
    ensures { type_refs_left result ≡ type_refs_of (immediates_value instr.now.immediates) }
{
    match &instr.immediates {
        Immediates::ValTypes(types) => TypeRefs::of(types),
        _ => TypeRefs::of(&[]),
    }
}

/// Whether an operator names a segment, of elements or of data, by its index (5.4.5 and 5.4.6).
pub fn names_segment(instr: &Instr<'_>) -> bool
    ensures { result ≡ names_segment (immediates_value instr.now.immediates) }
{
    match &instr.immediates {
        Immediates::Index(index) => is_segment(index.kind),
        Immediates::Indices(first, second) => is_segment(first.kind) || is_segment(second.kind),
        _ => false,
    }
}

fn is_segment(kind: IndexKind) -> bool
    ensures { result ≡ is_segment kind }
{
    matches!(kind, IndexKind::Elem | IndexKind::Data)
}
