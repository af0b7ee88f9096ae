//! The names that imports get, one after another.

ghost use Rattle.std.specs.Prelude.{◌≡◌, ◌≢◌, ◌^◌, ◌<◌, ◌≤◌, false, List, length, Some, IfOk, slice_get, string_bytes};
ghost use Rattle.std.specs.List.{Contains};
ghost use Rattle.std.specs.Option.{option_map};
ghost use Rattle.wc_dedupe.specs.Private.Numbers.{AreNumbers, Gives, GivesNumber, LacksNumbered, Takes};
ghost use Rattle.wc_dedupe.specs.Private.NamePositions.{names_of, Ascend};
ghost use Rattle.wc_dedupe.specs.Renaming.{ImportName, name_with_number};

use std::alloc::{AllocError, Global};

/// The room for a number of up to six digits after a name.
const NUMBER_ROOM: usize = " [v999999]".len();

/// The least number after a name.
const FIRST_NUMBER: u64 = 2;

/// All original names in ascending order, without repeats.
#[derive(Clone, Copy)]
pub(crate) struct Known<'n, 'a> {
    pub(crate) names: &'n [(&'a str, &'a str)],
    /// Whether some end as a name with a number does. If none does, no name with a number is one of them.
    pub(crate) some_numbered: bool,
}

impl<'n, 'a> Known<'n, 'a> {
    /// Known names, with whether some end as a name with a number does.
    pub(crate) fn new(names: &'n [(&'a str, &'a str)]) -> Known<'n, 'a>
        ensures names { result.names.now ≡ names.now }
        ensures lacks { result.some_numbered ≡ false → LacksNumbered (names_of names.now) }
    {
        Known {
            names,
            some_numbered: are_some_numbered(names),
        }
    }
}

/// Whether some names end as a name with a number does.
fn are_some_numbered(names: &[(&str, &str)]) -> bool
    ensures { result ≡ false → LacksNumbered (names_of names.now) }
{
    for name in names {
        if name.1.ends_with("]") {
            return true;
        }
    }
    false
}

/// Gives the next import a name. `position` is the index of its original name among the known names. `numbers` has 0
/// for each known name while no import has it. Otherwise it has a number from 2 on: for each smaller number from 2
/// on, an import already has the name with that number after it. `given` imports have names. The result is the new
/// name, or `None` if the import keeps the original one. After an error, `numbers` may have any content.
pub(crate) fn give(
    alloc: Global,
    known: Known<'_, '_>,
    numbers: &mut [u64],
    position: usize,
    given: usize,
) -> Result<Option<String>, AllocError>
    requires ascend { Ascend known.names.now }
    requires lacks { known.some_numbered ≡ false → LacksNumbered (names_of known.names.now) }
    requires position { position < length known.names.now }
    requires given { (ns : List ImportName) × (length ns ≡ given)
        × AreNumbers (names_of known.names.now) ns numbers.old }
    requires few { given < 2 ^ 63 }
    ensures { IfOk result (λ name. Gives (names_of known.entry.names.now) numbers.old
        numbers.new position (option_map string_bytes name)) }
{
    if numbers[position] == 0 {
        numbers[position] = FIRST_NUMBER;
        return Ok(None);
    }
    let name = give_number(alloc, known, numbers, position, given)?;
    Ok(Some(name))
}

/// Gives the next import the name at `position` with the least number with which no import has it.
fn give_number(
    alloc: Global,
    known: Known<'_, '_>,
    numbers: &mut [u64],
    position: usize,
    given: usize,
) -> Result<String, AllocError>
    requires ascend { Ascend known.names.now }
    requires lacks { known.some_numbered ≡ false → LacksNumbered (names_of known.names.now) }
    requires position { position < length known.names.now }
    requires given { (ns : List ImportName) × (length ns ≡ given)
        × AreNumbers (names_of known.names.now) ns numbers.old }
    requires few { given < 2 ^ 63 }
    requires taken { slice_get numbers.old position ≢ Some 0 }
    ensures { IfOk result (λ name. GivesNumber (names_of known.entry.names.now) numbers.old
        numbers.new position (string_bytes name)) }
{
    let original = known.names[position];
    let limit = given as u64 + 3;
    for number in numbers[position]..limit {
        let name = name_with_number(alloc, original.1, number)?;
        if take_numbered(known, numbers, original.0, name.as_str()) {
            numbers[position] = number + 1;
            return Ok(name);
        }
    }
    unreachable!()
}

/// Whether no import has this name with a number yet, as `take` tells: it is looked for only if some original names end
/// as one with a number does.
fn take_numbered(known: Known<'_, '_>, numbers: &mut [u64], module: &str, name: &str) -> bool
    requires ascend { Ascend known.names.now }
    requires lacks { known.some_numbered ≡ false → ¬ Contains (names_of known.names.now)
        (record { module_name = «module».now; name = name.now }) }
    requires numbers { length known.names.now ≤ length numbers.old }
    ensures { Takes (names_of known.entry.names.now) numbers.old numbers.new
        (record { module_name = «module».now; name = name.now }) result }
{
    if known.some_numbered {
        take(known.names, numbers, module, name)
    } else {
        true
    }
}

/// Whether no import has this name with a number yet. If it is an original name, too, it is an import's from now on.
fn take(names: &[(&str, &str)], numbers: &mut [u64], module: &str, name: &str) -> bool
    requires ascend { Ascend names.now }
    requires numbers { length names.now ≤ length numbers.old }
    ensures { Takes (names_of names.now) numbers.old numbers.new
        (record { module_name = «module».now; name = name.now }) result }
{
    let Ok(position) = names.binary_search(&(module, name)) else {
        return true;
    };
    if numbers[position] != 0 {
        return false;
    }
    numbers[position] = FIRST_NUMBER;
    true
}

/// `original` with a number after it.
fn name_with_number(alloc: Global, original: &str, number: u64) -> Result<String, AllocError>
    ensures { IfOk result (λ t. string_bytes t ≡ name_with_number original.now number) }
{
    let mut name = String::with_capacity(alloc, original.len() + NUMBER_ROOM)?;
    write!(name, "{original} [v{number}]")?;
    Ok(name)
}
