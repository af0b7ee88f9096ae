//! The imports of each interface by a component, as JSON.

ghost use Rattle.std.specs.Prelude.{◌≡◌, ◌++◌, ◌∷◌, IfOk, OnOk, codes, map, string_bytes};
ghost use Rattle.std.specs.List.{flat_map};
ghost use Rattle.json.specs.Json.{string};
ghost use Rattle.json.specs.Lex.{tokens};
ghost use Rattle.json.specs.Print.{print};
ghost use Rattle.json.specs.Token.{key};
ghost use Rattle.json.specs.Tree.{json_tokens};
ghost use Rattle.wc_texts.specs.Shapes.{array_of};
ghost use Rattle.wc_read.specs.Names.{name_entries};
ghost use Rattle.wc_why_text.specs.Private.Tokens.{Puts};
ghost use Rattle.wc_summary.specs.Summary.{entry_view, main_view, part_view, parts_view};
ghost use Rattle.wc_summary.specs.Private.Entries.{entry_shown};
ghost use Rattle.wc_summary.specs.SummaryJson.{adapter_json, entries_json, entry_json, function_json, main_json, main_values, modules_json};

use crate::summary::{AdapterPart, Entries, Entry, MainPart};
use crate::summary_lines::function_name;
use json::Writer;
use std::alloc::{AllocError, Global};
use wc_maps::OrderedMap;
use wc_why_text::{begin_object, end_object, put_number, put_text, put_text_or_null};

/// The interfaces as JSON, in a line.
pub fn json_of(
    alloc: Global,
    names: &OrderedMap<u32, &str>,
    entries: &Entries<'_>,
) -> Result<Vec<u8>, AllocError>
    ensures { let written = json_tokens (entries_json (name_entries names.now)
        (map entry_view entries.now.entries)) in
        IfOk result (λ v. (v.items ≡ print written ++ codes "\n")
        × (tokens (print written) ≡ written)) }
{
    let mut out = Writer::new(Vec::new(alloc));
    put_entries(&mut out, names, entries)?;
    let mut text = out.into_inner();
    text.push(b'\n')?;
    Ok(text)
}

/// Writes the interfaces, in an object.
fn put_entries(
    out: &mut Writer,
    names: &OrderedMap<u32, &str>,
    entries: &Entries<'_>,
) -> Result<(), AllocError>
    ensures { OnOk result (Puts out.old out.new (json_tokens
        (entries_json (name_entries names.now) (map entry_view entries.now.entries)))) }
{
    begin_object(out)?;
    put_list(out, names, entries)?;
    end_object(out)
}

/// Writes the member that lists the interfaces.
fn put_list(
    out: &mut Writer,
    names: &OrderedMap<u32, &str>,
    entries: &Entries<'_>,
) -> Result<(), AllocError>
    ensures { OnOk result (Puts out.old out.new (key (codes "imports") ∷ json_tokens (array_of
        (map (entry_json (name_entries names.now)) (map entry_view entries.now.entries))))) }
{
    out.key("imports")?;
    out.begin_array()?;
    for (interface, entry) in entries.iter() {
        put_entry(out, names, (interface, entry))?;
    }
    out.end_array()
}

/// Writes an interface.
fn put_entry(
    out: &mut Writer,
    names: &OrderedMap<u32, &str>,
    entry: (&String, &Entry<'_>),
) -> Result<(), AllocError>
    ensures { OnOk result (Puts out.old out.new
        (json_tokens (entry_json (name_entries names.now) (entry_shown entry.entry)))) }
{
    begin_object(out)?;
    put_text(out, "interface", entry.0)?;
    put_text(out, "kind", entry.1.kind().name())?;
    put_modules(out, names, entry.1)?;
    end_object(out)
}

/// Writes the member that lists the modules that import something of an interface.
fn put_modules(
    out: &mut Writer,
    names: &OrderedMap<u32, &str>,
    entry: &Entry<'_>,
) -> Result<(), AllocError>
    ensures { OnOk result (Puts out.old out.new (key (codes "modules") ∷ json_tokens (array_of
        (modules_json (name_entries names.now) (parts_view entry.now))))) }
{
    out.key("modules")?;
    out.begin_array()?;
    put_main_if(out, names, &entry.main)?;
    put_adapters(out, &entry.adapters)?;
    out.end_array()
}

/// Writes what the main module imports, if it imports something.
fn put_main_if(
    out: &mut Writer,
    names: &OrderedMap<u32, &str>,
    part: &MainPart,
) -> Result<(), AllocError>
    ensures { OnOk result (Puts out.old out.new (flat_map json_tokens
        (main_values (name_entries names.now) (main_view part.now)))) }
{
    if part.imports > 0 {
        put_main(out, names, part)
    } else {
        Ok(())
    }
}

/// Writes what adapters import, one after another.
fn put_adapters(out: &mut Writer, parts: &[AdapterPart<'_>]) -> Result<(), AllocError>
    ensures { OnOk result (Puts out.old out.new (flat_map json_tokens
        (map adapter_json (map part_view parts.now)))) }
{
    for part in parts {
        put_adapter(out, part)?;
    }
    Ok(())
}

/// Writes what the main module imports.
fn put_main(
    out: &mut Writer,
    names: &OrderedMap<u32, &str>,
    part: &MainPart,
) -> Result<(), AllocError>
    ensures { OnOk result (Puts out.old out.new
        (json_tokens (main_json (name_entries names.now) (main_view part.now)))) }
{
    begin_object(out)?;
    put_text_or_null(out, "adapter", None)?;
    put_number(out, "imports", part.imports)?;
    put_functions(out, names, &part.by)?;
    end_object(out)
}

/// Writes the member that lists functions.
fn put_functions(
    out: &mut Writer,
    names: &OrderedMap<u32, &str>,
    indices: &[u32],
) -> Result<(), AllocError>
    ensures { OnOk result (Puts out.old out.new (key (codes "by") ∷ json_tokens (array_of
        (map (function_json (name_entries names.now)) indices.now)))) }
{
    out.key("by")?;
    out.begin_array()?;
    for index in indices {
        put_function(out, names, *index)?;
    }
    out.end_array()
}

/// Writes a function.
fn put_function(
    out: &mut Writer,
    names: &OrderedMap<u32, &str>,
    index: u32,
) -> Result<(), AllocError>
    ensures { OnOk result (Puts out.old out.new
        (json_tokens (function_json (name_entries names.now) index))) }
{
    begin_object(out)?;
    put_number(out, "index", index as usize)?;
    put_text_or_null(out, "name", function_name(names, index))?;
    end_object(out)
}

/// Writes what an adapter imports.
fn put_adapter(out: &mut Writer, part: &AdapterPart<'_>) -> Result<(), AllocError>
    ensures { OnOk result (Puts out.old out.new (json_tokens (adapter_json (part_view part.now)))) }
{
    begin_object(out)?;
    put_text(out, "adapter", part.adapter)?;
    put_number(out, "imports", part.imports)?;
    put_names(out, "exports", &part.exports)?;
    put_stays(out, &part.stays, &part.roots)?;
    put_number(out, "functions", part.functions)?;
    put_number(out, "bytes", part.bytes)?;
    end_object(out)
}

/// Writes a member that is a list of names.
fn put_names(out: &mut Writer, member: &str, names: &[String]) -> Result<(), AllocError>
    ensures { OnOk result (Puts out.old out.new (key member.now ∷ json_tokens (array_of
        (map string (map string_bytes names.now))))) }
{
    out.key(member)?;
    out.begin_array()?;
    for name in names {
        out.string(name)?;
    }
    out.end_array()
}

/// Writes the member that lists exports that stay, and where else paths begin.
fn put_stays(out: &mut Writer, stays: &[String], roots: &[String]) -> Result<(), AllocError>
    ensures { OnOk result (Puts out.old out.new (key (codes "stays") ∷ json_tokens (array_of
        (map string (map string_bytes stays.now) ++ map string (map string_bytes roots.now))))) }
{
    out.key("stays")?;
    out.begin_array()?;
    put_texts(out, stays)?;
    put_texts(out, roots)?;
    out.end_array()
}

/// Writes texts, one after another.
fn put_texts(out: &mut Writer, texts: &[String]) -> Result<(), AllocError>
    ensures { OnOk result (Puts out.old out.new (flat_map json_tokens
        (map string (map string_bytes texts.now)))) }
{
    for text in texts {
        out.string(text)?;
    }
    Ok(())
}
