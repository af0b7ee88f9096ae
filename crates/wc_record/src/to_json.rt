//! The trait of values that are written as JSON.
//!
//! Its impls are for numbers, texts, optional values, shared values, and lists.

ghost use Rattle.std.specs.Prelude.{OnOk, [], map, ◌∷◌};
ghost use Rattle.json.specs.Json.{Json};
ghost use Rattle.json.specs.Token.{begin_array, end_array};
ghost use Rattle.wc_texts.specs.Shapes.{array_of};
ghost use Rattle.wc_record.specs.Objects.{Puts, PutsJson};

use json::Writer;
use std::alloc::AllocError;
use std::rc::Rc;

/// A type whose values are written as JSON values.
pub(crate) trait ToJson {
    // The view that contracts have of a value of this type.
    ghost View: { Type 0 };

    ghost view: { Self → View };

    // The JSON value that it is written as.
    ghost json: { View → Json };

    /// Writes the value after the text so far.
    ///
    /// # Errors
    ///
    /// `AllocError`: an allocation failed. Any part of the value may then have been written.
    fn write(&self, out: &mut Writer) -> Result<(), AllocError>
        ensures { OnOk result (PutsJson out.old out.new (json (view self.now))) };
}

impl ToJson for bool {
    ghost use Rattle.std.specs.Prelude.{Bool};
    ghost use Rattle.json.specs.Json.{boolean};

    ghost View = { Bool };

    ghost view = { λ b. b };

    ghost json = { boolean };

    fn write(&self, out: &mut Writer) -> Result<(), AllocError> {
        out.boolean(*self)
    }
}

impl ToJson for u8 {
    ghost use Rattle.std.specs.Prelude.{ℕ};
    ghost use Rattle.wc_texts.specs.Shapes.{number_json};

    ghost View = { ℕ };

    ghost view = { λ n. n };

    ghost json = { number_json };

    fn write(&self, out: &mut Writer) -> Result<(), AllocError> {
        out.u64(*self as u64)
    }
}

impl ToJson for u32 {
    ghost use Rattle.std.specs.Prelude.{ℕ};
    ghost use Rattle.wc_texts.specs.Shapes.{number_json};

    ghost View = { ℕ };

    ghost view = { λ n. n };

    ghost json = { number_json };

    fn write(&self, out: &mut Writer) -> Result<(), AllocError> {
        out.u64(*self as u64)
    }
}

impl ToJson for u64 {
    ghost use Rattle.std.specs.Prelude.{ℕ};
    ghost use Rattle.wc_texts.specs.Shapes.{number_json};

    ghost View = { ℕ };

    ghost view = { λ n. n };

    ghost json = { number_json };

    fn write(&self, out: &mut Writer) -> Result<(), AllocError> {
        out.u64(*self)
    }
}

impl ToJson for usize {
    ghost use Rattle.std.specs.Prelude.{ℕ};
    ghost use Rattle.wc_texts.specs.Shapes.{number_json};

    ghost View = { ℕ };

    ghost view = { λ n. n };

    ghost json = { number_json };

    fn write(&self, out: &mut Writer) -> Result<(), AllocError> {
        out.u64(*self as u64)
    }
}

impl<'a> ToJson for &'a str {
    ghost use Rattle.std.specs.Prelude.{List, ℕ};
    ghost use Rattle.json.specs.Json.{string};

    ghost View = { List ℕ };

    ghost view = { λ s. s.now };

    ghost json = { string };

    fn write(&self, out: &mut Writer) -> Result<(), AllocError> {
        out.string(*self)
    }
}

impl ToJson for String {
    ghost use Rattle.std.specs.Prelude.{List, ℕ, string_bytes};
    ghost use Rattle.json.specs.Json.{string};

    ghost View = { List ℕ };

    ghost view = { string_bytes };

    ghost json = { string };

    fn write(&self, out: &mut Writer) -> Result<(), AllocError> {
        out.string(self.as_str())
    }
}

/// The value, or null for none.
impl<T: ToJson> ToJson for Option<T> {
    ghost use Rattle.std.specs.Prelude.{Option};
    ghost use Rattle.std.specs.Option.{option_map};
    ghost use Rattle.wc_texts.specs.Shapes.{nullable_json};

    ghost View = { Option T.View };

    ghost view = { option_map T.view };

    ghost json = { nullable_json T.json };

    fn write(&self, out: &mut Writer) -> Result<(), AllocError> {
        match self {
            Some(value) => value.write(out),
            None => out.null(),
        }
    }
}

/// The value that is shared.
impl<T: ToJson> ToJson for Rc<T> {
    ghost View = { T.View };

    ghost view = { λ shared. T.view shared.value };

    ghost json = { T.json };

    fn write(&self, out: &mut Writer) -> Result<(), AllocError> {
        self.as_ref().write(out)
    }
}

/// Opens a list.
pub(crate) fn begin_array(out: &mut Writer) -> Result<(), AllocError>
    ensures { OnOk result (Puts out.old out.new (begin_array ∷ [])) }
{
    out.begin_array()
}

/// Closes a list.
pub(crate) fn end_array(out: &mut Writer) -> Result<(), AllocError>
    ensures { OnOk result (Puts out.old out.new (end_array ∷ [])) }
{
    out.end_array()
}

/// Writes values in order, as a list.
pub(crate) fn put_list<T: ToJson>(out: &mut Writer, items: &[T]) -> Result<(), AllocError>
    ensures { OnOk result (PutsJson out.old out.new
        (array_of (map T.json (map T.view items.now)))) }
{
    begin_array(out)?;
    for item in items {
        item.write(out)?;
    }
    end_array(out)
}

/// The values in order.
impl<T: ToJson> ToJson for Vec<T> {
    ghost use Rattle.std.specs.Prelude.{List, map};
    ghost use Rattle.wc_texts.specs.Shapes.{array_of};

    ghost View = { List T.View };

    ghost view = { λ v. map T.view v.items };

    ghost json = { λ values. array_of (map T.json values) };

    fn write(&self, out: &mut Writer) -> Result<(), AllocError> {
        put_list(out, self)
    }
}
