//! The trait of what is read from JSON values, and its impls for truth values, texts, values that may
//! be null, and lists; and a value read from a text.

ghost use Rattle.std.specs.Prelude.{◌≡◌, IfErr, IfOk, None, Ok};
ghost use Rattle.json.specs.Json.{Json, document, null};
ghost use Rattle.json.specs.Value.{value_view};
ghost use Rattle.wc_json.specs.Fault.{NeedsNoMemory, Reading, Reads};
ghost use Rattle.wc_json.specs.FromJson.{HasItems, IsCauseOf, IsReadFrom, IsText, list, nullable, text, truth};
ghost use Rattle.wc_json.specs.declared.fault.JsonFault.TheVariants.{Memory};

use crate::paths::{at_index, fault_here};
use crate::{JsonFault, Problem};
use json::{Scratch, Value};
use std::alloc::Global;
use std::rc::RcSlice;
use wc_maps::Seed;

/// A type whose values are read from JSON values.
pub trait FromJson: Drop {
    // The view that contracts have of a value of this type.
    ghost View: { Type 0 };

    ghost view: { Self → View };

    // The view that a JSON value is read as, or the first fault in it.
    ghost reading: { Json → Reading View };

    /// Reads a value. `seed`: the seed of the maps that are made.
    ///
    /// # Errors
    ///
    /// - `Wrong`: the first fault, by its path from this value.
    /// - `Memory`: an allocation failed.
    fn from_json(alloc: Global, seed: Seed, value: &Value<'_>) -> Result<Self, JsonFault>
        ensures reads { Reads view result (reading (value_view value.now)) };
}

impl FromJson for bool {
    ghost use Rattle.std.specs.Prelude.{Bool};
    ghost use Rattle.wc_json.specs.FromJson.{truth};

    ghost View = { Bool };

    ghost view = { λ b. b };

    ghost reading = { truth };

    fn from_json(alloc: Global, _seed: Seed, value: &Value<'_>) -> Result<bool, JsonFault>
        ensures reads { Reads (λ b. b) result (truth (value_view value.now)) }
        ensures no_memory { NeedsNoMemory result }
    {
        match value.as_bool() {
            Some(truth) => Ok(truth),
            None => Err(fault_here(alloc, Problem::NotABool)),
        }
    }
}

impl FromJson for String {
    ghost use Rattle.std.specs.Prelude.{List, ℕ, string_bytes};
    ghost use Rattle.wc_json.specs.FromJson.{text};

    ghost View = { List ℕ };

    ghost view = { string_bytes };

    ghost reading = { text };

    fn from_json(alloc: Global, _seed: Seed, value: &Value<'_>) -> Result<String, JsonFault>
        ensures reads { Reads string_bytes result (text (value_view value.now)) }
        ensures memory { IfErr result (λ f. f ≡ Memory → IsText (value_view value.now)) }
    {
        match value.as_str() {
            Some(text) => Ok(String::from_str(alloc, text)?),
            None => Err(fault_here(alloc, Problem::NotAText)),
        }
    }
}

/// A value, or `None` for null.
impl<T: FromJson> FromJson for Option<T> {
    ghost use Rattle.std.specs.Prelude.{Option};
    ghost use Rattle.std.specs.Option.{option_map};
    ghost use Rattle.wc_json.specs.FromJson.{nullable};

    ghost View = { Option T.View };

    ghost view = { option_map T.view };

    ghost reading = { nullable T.reading };

    fn from_json(alloc: Global, seed: Seed, value: &Value<'_>) -> Result<Option<T>, JsonFault>
        ensures reads { Reads (option_map T.view) result
            (nullable T.reading (value_view value.now)) }
        ensures of_null { value_view value.now ≡ null → result ≡ Ok None }
    {
        if value.is_null() {
            return Ok(None);
        }
        Ok(Some(T::from_json(alloc, seed, value)?))
    }
}

/// A list, in order.
impl<T: FromJson> FromJson for Vec<T> {
    ghost use Rattle.std.specs.Prelude.{List, map};
    ghost use Rattle.wc_json.specs.FromJson.{list};

    ghost View = { List T.View };

    ghost view = { λ v. map T.view v.items };

    ghost reading = { list T.reading };

    fn from_json(alloc: Global, seed: Seed, value: &Value<'_>) -> Result<Vec<T>, JsonFault>
        ensures reads { Reads (λ v. map T.view v.items) result
            (list T.reading (value_view value.now)) }
        ensures memory { IfErr result (λ f. f ≡ Memory → HasItems (value_view value.now)) }
    {
        let Value::Array(items) = value else {
            return Err(fault_here(alloc, Problem::NotAList));
        };
        let mut list = Vec::with_capacity(alloc, items.len())?;
        for item in items {
            let index = list.len();
            list.push(at_index(alloc, index, T::from_json(alloc, seed, item))?)?;
        }
        Ok(list)
    }
}

/// A list, in order, which copies share.
impl<T: FromJson> FromJson for RcSlice<T> {
    ghost use Rattle.std.specs.Prelude.{List, map};
    ghost use Rattle.std.specs.Rc.{rc_slice_items};
    ghost use Rattle.wc_json.specs.FromJson.{list};

    ghost View = { List T.View };

    ghost view = { λ v. map T.view (rc_slice_items v) };

    ghost reading = { list T.reading };

    fn from_json(alloc: Global, seed: Seed, value: &Value<'_>) -> Result<RcSlice<T>, JsonFault> {
        let items: Vec<T> = Vec::from_json(alloc, seed, value)?;
        Ok(RcSlice::from_vec(items)?)
    }
}

/// Reads a value from a text. Reading ends on any text, and needs no more of the stack than 128 nested
/// values do. `seed`: the seed of the maps that are made.
///
/// # Errors
///
/// - `NotJson`: the text is not JSON (RFC 8259), or it nests deeper than 128.
/// - `RepeatedMember`: an object has two members of one name, also one that would be passed over.
/// - `Wrong`: the first value that isn't what it has to be; the path leads to it.
/// - `Memory`: an allocation failed. It may come in place of any other.
pub fn value_from_json<T: FromJson>(alloc: Global, seed: Seed, text: &str) -> Result<T, JsonFault>
    ensures ok { IfOk result (λ value. IsReadFrom T.view T.reading (document text.now) value) }
    ensures fault { IfErr result (IsCauseOf T.reading (document text.now)) }
{
    let mut scratch = Scratch::new(alloc);
    let value = Value::parse_strict(alloc, text, &mut scratch)?;
    T::from_json(alloc, seed, &value)
}
