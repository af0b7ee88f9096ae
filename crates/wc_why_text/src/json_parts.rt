//! Parts of JSON.

ghost use Rattle.std.specs.Prelude.{◌≡◌, ◌∷◌, [], OnOk};
ghost use Rattle.std.specs.Option.{option_map};
ghost use Rattle.json.specs.Token.{begin_object, end_object, key, null, string};
ghost use Rattle.json.specs.Tree.{json_tokens};
ghost use Rattle.wc_texts.specs.Shapes.{number_json};
ghost use Rattle.wc_why.specs.Texts.{text_of};
ghost use Rattle.wc_why_text.specs.JsonParts.{fills_json, kind_json, text_or_null};
ghost use Rattle.wc_why_text.specs.Private.Tokens.{Puts};

use json::Writer;
use std::alloc::AllocError;

/// Writes an object that says of what kind something is, and has no other member: the member `kind`.
///
/// # Errors
///
/// `AllocError`: an allocation failed.
pub fn put_kind(out: &mut Writer, kind: &str) -> Result<(), AllocError>
    ensures { OnOk result (Puts out.old out.new (json_tokens (kind_json kind.now))) }
{
    begin_object(out)?;
    put_text(out, "kind", kind)?;
    end_object(out)
}

/// Writes what a segment fills, as an object: `kind`, which is `fills`, `space`, and the `index` of the table or memory.
///
/// # Errors
///
/// `AllocError`: an allocation failed.
pub(crate) fn put_fills(out: &mut Writer, space: &str, index: u32) -> Result<(), AllocError>
    ensures { OnOk result (Puts out.old out.new (json_tokens (fills_json space.now index))) }
{
    begin_object(out)?;
    put_text(out, "kind", "fills")?;
    put_text(out, "space", space)?;
    put_number(out, "index", index as usize)?;
    end_object(out)
}

/// Writes a member that is a text, or null for none.
pub fn put_text_or_null(out: &mut Writer, name: &str, text: Option<&str>) -> Result<(), AllocError>
    ensures { OnOk result (Puts out.old out.new
        (key name.now ∷ json_tokens (text_or_null (option_map text_of text.entry)))) }
{
    match text {
        Some(text) => put_text(out, name, text),
        None => put_null(out, name),
    }
}

/// Writes a member that is a text.
pub fn put_text(out: &mut Writer, name: &str, text: &str) -> Result<(), AllocError>
    ensures { OnOk result (Puts out.old out.new (key name.now ∷ string text.now ∷ [])) }
{
    out.key(name)?;
    out.string(text)
}

/// Writes a member that is a number.
pub fn put_number(out: &mut Writer, name: &str, number: usize) -> Result<(), AllocError>
    ensures { OnOk result (Puts out.old out.new
        (key name.now ∷ json_tokens (number_json number))) }
{
    out.key(name)?;
    out.u64(number as u64)
}

/// Writes a member that is null.
pub fn put_null(out: &mut Writer, name: &str) -> Result<(), AllocError>
    ensures { OnOk result (Puts out.old out.new (key name.now ∷ null ∷ [])) }
{
    out.key(name)?;
    out.null()
}

/// Writes `{`: the writer's call, with a contract in this crate's words.
pub fn begin_object(out: &mut Writer) -> Result<(), AllocError>
    ensures { OnOk result (Puts out.old out.new (begin_object ∷ [])) }
{
    out.begin_object()
}

/// Writes `}`: the writer's call, with a contract in this crate's words.
pub fn end_object(out: &mut Writer) -> Result<(), AllocError>
    ensures { OnOk result (Puts out.old out.new (end_object ∷ [])) }
{
    out.end_object()
}
