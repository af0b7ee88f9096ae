//! The functions that a caller requires of an adapter, by their names and types.

ghost use Rattle.std.specs.Prelude.{◌≡◌, ◌≢◌, IfErr, IfOk, OnOk, map};
ghost use Rattle.std.specs.List.{AllPairs};
ghost use Rattle.wc_read.specs.Fault.{SpellsNothing};
ghost use Rattle.wc_read.specs.Formats.{SpellsVector};
ghost use Rattle.wc_validate.specs.Imports.Map.{required_entry};
ghost use Rattle.wc_calls.specs.RequiredFunctions.{AreRequired, IsNotRequired, SpellsFunction, names_in};
ghost use Rattle.wc_calls.specs.Private.RequiredFunctions.{function_view};
ghost use Rattle.wc_calls.specs.declared.required_functions.RequiredFault.TheVariants.{Memory, Unread};

use std::alloc::{AllocError, AllocFailed, Global};
use wc_maps::{Map, Seed};
use wc_read::{FuncType, ReadFault, Reader, Spelled};

/// Why bytes are no required functions.
#[derive(Clone, Copy, Debug, PartialEq, Eq)]
pub(crate) enum RequiredFault {
    /// They are no functions, or two of a name.
    Unread,
    /// An allocation failed.
    Memory,
}

impl From<AllocError> for RequiredFault {
    ghost from_gives = { λ _ e. e ≡ Memory };

    fn from(_e: AllocError) -> RequiredFault {
        RequiredFault::Memory
    }
}

impl<T: Drop> From<AllocFailed<T>> for RequiredFault {
    ghost from_gives = { λ _ e. e ≡ Memory };

    fn from(_e: AllocFailed<T>) -> RequiredFault {
        RequiredFault::Memory
    }
}

/// A function by its name and its type.
#[derive(Drop)]
struct NamedFunction<'a> {
    name: &'a str,
    ty: FuncType,
}

impl<'a> Spelled<'a> for NamedFunction<'a> {
    ghost use Rattle.std.specs.Prelude.{List, ℕ};
    ghost use Rattle.wc_read.specs.Types.{FuncTypeValue};
    ghost use Rattle.wc_calls.specs.Private.RequiredFunctions.{function_at, function_view};

    ghost Value = { List ℕ × FuncTypeValue };

    ghost view = { function_view };

    ghost read = { function_at };

    #[tactic(auto, unfolding(crate::specs::Private::RequiredFunctions::function_at))]
    fn read_from(alloc: Global, reader: &mut Reader<'a>) -> Result<NamedFunction<'a>, ReadFault> {
        let name = reader.name()?;
        let ty = FuncType::read_from(alloc, reader)?;
        Ok(NamedFunction { name, ty })
    }
}

/// The fault of bytes that could not be read.
fn fault_of_reading(fault: ReadFault) -> RequiredFault
    ensures { result ≡ Unread → fault ≢ ReadFault.Memory }
{
    match fault {
        ReadFault::Memory => RequiredFault::Memory,
        _ => RequiredFault::Unread,
    }
}

/// The functions that bytes are, which are all of a vector.
fn read_functions(alloc: Global, bytes: &[u8]) -> Result<Vec<NamedFunction<'_>>, RequiredFault>
    ensures read { IfOk result (λ v. SpellsVector SpellsFunction bytes.now
        (map function_view v.items)) }
    ensures unread { IfErr result (λ f. f ≡ Unread
        → SpellsNothing (SpellsVector SpellsFunction) bytes.now) }
{
    let mut reader = Reader::new(bytes);
    match reader.vector::<NamedFunction>(alloc) {
        Ok(functions) => {
            if reader.rest.is_empty() {
                Ok(functions)
            } else {
                Err(RequiredFault::Unread)
            }
        }
        Err(fault) => Err(fault_of_reading(fault)),
    }
}

/// The types of functions by their names. `seed`: the seed of the map that is made.
fn types_by_name(
    alloc: Global,
    seed: Seed,
    functions: &[NamedFunction<'_>],
) -> Result<Map<String, FuncType>, RequiredFault>
    ensures types { IfOk result (λ m. map required_entry m.entries
        ≡ map function_view functions.now) }
    ensures distinct { OnOk result (AllPairs (λ m n. m ≢ n)
        (names_in (map function_view functions.now))) }
    ensures repeated { IfErr result (λ f. f ≡ Unread
        → ¬ (AllPairs (λ m n. m ≢ n) (names_in (map function_view functions.now)))) }
{
    let mut types = Map::with_hasher(alloc, seed);
    for function in functions {
        if types.contains_key(function.name) {
            return Err(RequiredFault::Unread);
        }
        let name = String::from_str(alloc, function.name)?;
        types.insert(name, function.ty.clone(alloc)?)?;
    }
    Ok(types)
}

/// The functions that bytes are, each with its type under its name. `seed`: the seed of the map that is made.
pub(crate) fn required_functions(
    alloc: Global,
    seed: Seed,
    bytes: &[u8],
) -> Result<Map<String, FuncType>, RequiredFault>
    ensures required { IfOk result (λ m. AreRequired bytes.now (map required_entry m.entries)) }
    ensures unread { IfErr result (λ f. f ≡ Unread → IsNotRequired bytes.now) }
{
    match read_functions(alloc, bytes) {
        Ok(functions) => types_by_name(alloc, seed, &functions),
        Err(fault) => Err(fault),
    }
}
