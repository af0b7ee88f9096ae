//! Texts that names are put together of.

ghost use Rattle.std.specs.Prelude.{◌≡◌, ◌++◌, ◌<◌, ℕ, List, MatchOption, option_copied};
ghost use Rattle.wc_read.specs.declared.types.ValType.{ValType};
ghost use Rattle.wc_names.specs.Builtins.{pointer_suffixes, slot_prefixes};
ghost use Rattle.wc_names.specs.Finds.{Finds};
ghost use Rattle.wc_names.specs.Texts.{IsChoice, IsSlot, IsSplitAtFirst, Lacks, SpellsNumber, HasNoSlot, HasSlot};

use wc_read::ValType;
use wc_texts::strip_prefix;

/// The part of a name before a suffix, if the name ends with it.
pub(crate) fn before<'a>(name: &'a str, last: &str) -> Option<&'a str>
    ensures { Finds (option_copied result) (λ (rest : List ℕ). name.now ≡ rest ++ last.now) }
{
    name.strip_suffix(last)
}

/// The part of a name between a prefix and a suffix, if the name has both.
pub(crate) fn between<'a>(name: &'a str, first: &str, last: &str) -> Option<&'a str>
    ensures { Finds (option_copied result)
        (λ (rest : List ℕ). name.now ≡ first.now ++ (rest ++ last.now)) }
{
    match strip_prefix(name, first) {
        Some(rest) => before(rest, last),
        None => None,
    }
}

/// The text before the first such character, and the text after it.
pub(crate) fn split_at_first(text: &str, at: char) -> Option<(&str, &str)>
    requires { at < 128 }
    ensures { MatchOption result (Lacks at text.now)
        (λ parts. IsSplitAtFirst at text.now parts.0.now parts.1.now) }
{
    text.split_once(at)
}

/// The number of 32 bits that a text spells.
pub(crate) fn number(text: &str) -> Option<u32>
    ensures { Finds result (λ (n : ℕ). SpellsNumber n text.now) }
{
    text.parse::<u32>().ok()
}

/// The pointer type whose suffix is between a beginning and an end.
pub(crate) fn pointer_type(name: &str, first: &str, last: &str) -> Option<ValType>
    ensures { Finds result
        (λ (t : ValType). IsChoice first.now (pointer_suffixes t) last.now name.now) }
{
    match between(name, first, last) {
        Some(suffix) => {
            if suffix == "" {
                return Some(ValType::I32);
            }
            if suffix == "-i32" {
                return Some(ValType::I32);
            }
            if suffix == "-i64" {
                return Some(ValType::I64);
            }
            None
        }
        None => None,
    }
}

/// The number after a beginning, with this type.
fn number_after(text: &str, first: &str, ty: ValType) -> Option<(ValType, u32)>
    ensures { MatchOption result (HasNoSlot text.now first.now)
        (HasSlot ty text.now first.now) }
{
    match strip_prefix(text, first) {
        Some(digits) => match number(digits) {
            Some(slot) => Some((ty, slot)),
            None => None,
        },
        None => None,
    }
}

/// The type and the number that are between a beginning and an end.
pub(crate) fn slot(name: &str, first: &str, last: &str) -> Option<(ValType, u32)>
    ensures { Finds result (λ (slot : ValType × ℕ).
        IsSlot first.now (slot_prefixes slot.0) slot.1 last.now name.now) }
{
    match between(name, first, last) {
        Some(text) => match number_after(text, "i64-", ValType::I64) {
            Some(found) => Some(found),
            None => match number_after(text, "i32-", ValType::I32) {
                Some(found) => Some(found),
                None => number_after(text, "", ValType::I32),
            },
        },
        None => None,
    }
}
