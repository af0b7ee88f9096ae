//! The places of faults, as JSON.

ghost use Rattle.std.specs.Prelude.{◌∷◌, OnOk, Some, codes};
ghost use Rattle.std.specs.Option.{option_map};
ghost use Rattle.json.specs.Json.{null};
ghost use Rattle.json.specs.Token.{key};
ghost use Rattle.json.specs.Tree.{json_tokens};
ghost use Rattle.wc_gc.specs.declared.trim_place.TrimPlace.TheVariants.{Body, Bytes, Section};
ghost use Rattle.wc_import_paths.specs.Patterns.{pattern_view};
ghost use Rattle.wc_texts.specs.Shapes.{nullable_json, number_json};
ghost use Rattle.wc_why.specs.Texts.{text_of};
ghost use Rattle.wc_why_text.specs.Private.Tokens.{Puts};
ghost use Rattle.wcwhy.specs.Places.{asked_json, file_place_json, missing_json, module_place_json, pattern_json, place_json, trim_place_json, unplaced_json};

use crate::fault::WhyFault;
use json::Writer;
use std::alloc::AllocError;
use wc_gc::{GcFault, TrimPlace};
use wc_import_paths::ImportPattern;
use wc_read::ReadPlace;
use wc_why_text::{begin_object, end_object, put_null, put_number, put_text, put_text_or_null};

/// Writes the place of a fault: an object whose first member is `kind`, or null.
pub(crate) fn put_place(out: &mut Writer, fault: &WhyFault<'_>) -> Result<(), AllocError>
    ensures { OnOk result (Puts out.old out.new (json_tokens (place_json fault.now))) }
{
    match fault {
        WhyFault::Source(fault, place, _) => put_module_place(out, None, fault, place),
        WhyFault::Adapter(name, fault, place, _) => {
            put_module_place(out, Some(name.as_str()), fault, place)
        }
        WhyFault::NoImport(pattern, _) => put_pattern(out, pattern),
        WhyFault::NoFunction(name, _) => put_asked(out, "func", name),
        WhyFault::NoNames(name, _) => put_asked(out, "func", name),
        WhyFault::File(_, byte) => put_file_place(out, *byte),
        WhyFault::Core { fault, place, .. } => put_module_place(out, None, fault, place),
        _ => put_nothing(out),
    }
}

/// Writes the byte where a section of a component's file begins, or null for none.
fn put_file_place(out: &mut Writer, byte: Option<usize>) -> Result<(), AllocError>
    ensures { OnOk result (Puts out.old out.new (json_tokens (file_place_json byte))) }
{
    match byte {
        Some(offset) => put_bytes(
            out,
            None,
            ReadPlace {
                offset,
                section: None,
            },
        ),
        None => put_nothing(out),
    }
}

/// Writes where a module can't be followed, or which export is missing.
fn put_module_place(
    out: &mut Writer,
    adapter: Option<&str>,
    fault: &GcFault,
    place: &Option<TrimPlace>,
) -> Result<(), AllocError>
    ensures { OnOk result (Puts out.old out.new (json_tokens
        (module_place_json (option_map text_of adapter.entry) fault.now place.now))) }
{
    match place {
        Some(place) => put_trim_place(out, adapter, *place),
        None => put_unplaced(out, adapter, fault),
    }
}

/// Writes a byte, a section or the body of a function.
fn put_trim_place(
    out: &mut Writer,
    adapter: Option<&str>,
    place: TrimPlace,
) -> Result<(), AllocError>
    ensures { OnOk result (Puts out.old out.new (json_tokens
        (trim_place_json (option_map text_of adapter.entry) place))) }
{
    match place {
        TrimPlace::Bytes(place) => put_bytes(out, adapter, place),
        TrimPlace::Section { id } => put_section(out, adapter, id),
        TrimPlace::Body { function, operator } => put_body(out, adapter, function, operator),
    }
}

/// Writes the byte from which bytes are no module.
fn put_bytes(out: &mut Writer, adapter: Option<&str>, place: ReadPlace) -> Result<(), AllocError>
    ensures { OnOk result (Puts out.old out.new (json_tokens
        (trim_place_json (option_map text_of adapter.entry) (Bytes place)))) }
{
    begin_object(out)?;
    put_text(out, "kind", "bytes")?;
    put_text_or_null(out, "adapter", adapter)?;
    put_number(out, "offset", place.offset)?;
    put_section_id(out, place.section)?;
    end_object(out)
}

/// Writes a section by its id.
fn put_section(out: &mut Writer, adapter: Option<&str>, id: u8) -> Result<(), AllocError>
    ensures { OnOk result (Puts out.old out.new (json_tokens
        (trim_place_json (option_map text_of adapter.entry) (Section id)))) }
{
    begin_object(out)?;
    put_text(out, "kind", "section")?;
    put_text_or_null(out, "adapter", adapter)?;
    put_number(out, "id", id as usize)?;
    end_object(out)
}

/// Writes the body of a function, and an operator in it.
fn put_body(
    out: &mut Writer,
    adapter: Option<&str>,
    function: u32,
    operator: Option<usize>,
) -> Result<(), AllocError>
    ensures { OnOk result (Puts out.old out.new (json_tokens
        (trim_place_json (option_map text_of adapter.entry) (Body function operator)))) }
{
    begin_object(out)?;
    put_text(out, "kind", "body")?;
    put_text_or_null(out, "adapter", adapter)?;
    put_number(out, "function", function as usize)?;
    put_operator(out, operator)?;
    end_object(out)
}

/// Writes the export that is missing, if a fault is about one.
fn put_unplaced(out: &mut Writer, adapter: Option<&str>, fault: &GcFault) -> Result<(), AllocError>
    ensures { OnOk result (Puts out.old out.new (json_tokens
        (unplaced_json (option_map text_of adapter.entry) fault.now))) }
{
    match fault {
        GcFault::MissingExport(name) => put_missing(out, adapter, name),
        _ => put_nothing(out),
    }
}

/// Writes an export that is missing.
fn put_missing(out: &mut Writer, adapter: Option<&str>, name: &str) -> Result<(), AllocError>
    ensures { OnOk result (Puts out.old out.new (json_tokens
        (missing_json (option_map text_of adapter.entry) name.now))) }
{
    begin_object(out)?;
    put_text(out, "kind", "missing-export")?;
    put_text_or_null(out, "adapter", adapter)?;
    put_text(out, "name", name)?;
    put_null(out, "types")?;
    end_object(out)
}

/// Writes which imports an option asks for.
fn put_pattern(out: &mut Writer, pattern: &ImportPattern<'_>) -> Result<(), AllocError>
    ensures { OnOk result (Puts out.old out.new (json_tokens
        (pattern_json (pattern_view pattern.now)))) }
{
    match pattern.name {
        Some(name) => put_named(out, pattern.key, name),
        None => put_asked(out, "key", pattern.key),
    }
}

/// Writes which imports of a name an option asks for.
fn put_named(out: &mut Writer, key: &str, name: &str) -> Result<(), AllocError>
    ensures { OnOk result (Puts out.old out.new (json_tokens
        (pattern_json (key.now, Some name.now)))) }
{
    begin_object(out)?;
    put_text(out, "kind", "key")?;
    put_text(out, "key", key)?;
    put_text(out, "name", name)?;
    end_object(out)
}

/// Writes what an option asks for, in a member that is called as the kind.
fn put_asked(out: &mut Writer, kind: &str, text: &str) -> Result<(), AllocError>
    ensures { OnOk result (Puts out.old out.new (json_tokens (asked_json kind.now text.now))) }
{
    begin_object(out)?;
    put_text(out, "kind", kind)?;
    put_text(out, kind, text)?;
    end_object(out)
}

/// Writes the id of the section that a byte is in, or null for none.
fn put_section_id(out: &mut Writer, id: Option<u8>) -> Result<(), AllocError>
    ensures { OnOk result (Puts out.old out.new
        (key (codes "section") ∷ json_tokens (nullable_json number_json id))) }
{
    match id {
        Some(id) => put_number(out, "section", id as usize),
        None => put_null(out, "section"),
    }
}

/// Writes an operator of a body by its number, or null for none.
fn put_operator(out: &mut Writer, operator: Option<usize>) -> Result<(), AllocError>
    ensures { OnOk result (Puts out.old out.new
        (key (codes "operator") ∷ json_tokens (nullable_json number_json operator))) }
{
    match operator {
        Some(operator) => put_number(out, "operator", operator),
        None => put_null(out, "operator"),
    }
}

/// Writes null.
fn put_nothing(out: &mut Writer) -> Result<(), AllocError>
    ensures { OnOk result (Puts out.old out.new (json_tokens null)) }
{
    out.null()
}
