//! The imports of each interface by a component, as lines.

ghost use Rattle.std.specs.Prelude.{◌≡◌, ◌++◌, IfOk, OnOk, map, string_bytes};
ghost use Rattle.std.specs.List.{flat_map};
ghost use Rattle.std.specs.Option.{option_map};
ghost use Rattle.wc_read.specs.Names.{name_entries};
ghost use Rattle.wc_why.specs.Texts.{text_of};
ghost use Rattle.wc_summary.specs.Names.{function_name};
ghost use Rattle.wc_summary.specs.Summary.{entry_view, main_view, part_view, parts_view, user_view};
ghost use Rattle.wc_summary.specs.Private.Entries.{entry_shown};
ghost use Rattle.wc_summary.specs.SummaryLines.{adapter_text, always_text, count_text, effect_text, entry_line, entry_lines, entry_parts, function_text, gone_text, main_parts, main_text, more_text, named_function, only_text, separated, types_parts, types_text, words_text};

use crate::summary::{AdapterPart, Entries, Entry, MainPart, stays};
use std::alloc::{AllocError, Global};
use wc_maps::OrderedMap;
use wc_read::Space;
use wc_why_text::{item_text, rust_name, word};

/// At most how many functions of the main module are named.
const MOST_FUNCTIONS: usize = 3;

/// A line for each interface.
pub fn lines_of(
    alloc: Global,
    names: &OrderedMap<u32, &str>,
    entries: &Entries<'_>,
) -> Result<String, AllocError>
    ensures { IfOk result (λ s. string_bytes s
        ≡ entry_lines (name_entries names.now) (map entry_view entries.now.entries)) }
{
    let mut text = String::new(alloc);
    for (interface, entry) in entries.iter() {
        push_line(alloc, names, (interface, entry), &mut text)?;
    }
    Ok(text)
}

/// Appends the line of an interface.
fn push_line(
    alloc: Global,
    names: &OrderedMap<u32, &str>,
    entry: (&String, &Entry<'_>),
    text: &mut String,
) -> Result<(), AllocError>
    ensures { OnOk result (string_bytes text.new ≡ string_bytes text.old
        ++ entry_line (name_entries names.now) (entry_shown entry.entry)) }
{
    let interface = word(alloc, entry.0)?;
    let parts = entry_parts(alloc, names, entry.1)?;
    let all = separated(alloc, ": ", "; ", &parts)?;
    let line = format!(in alloc; "{interface}{all}\n")?;
    text.push_str(&line)
}

/// The parts of the line of an interface.
fn entry_parts(
    alloc: Global,
    names: &OrderedMap<u32, &str>,
    entry: &Entry<'_>,
) -> Result<Vec<String>, AllocError>
    ensures { IfOk result (λ v. map string_bytes v.items
        ≡ entry_parts (name_entries names.now) (parts_view entry.now)) }
{
    let mut parts = Vec::new(alloc);
    push_main(alloc, names, &entry.main, &mut parts)?;
    push_adapters(alloc, &entry.adapters, &mut parts)?;
    push_types(alloc, &entry.types, &mut parts)?;
    Ok(parts)
}

/// Appends what the main module imports, if it imports something.
fn push_main(
    alloc: Global,
    names: &OrderedMap<u32, &str>,
    part: &MainPart,
    parts: &mut Vec<String>,
) -> Result<(), AllocError>
    ensures { OnOk result (map string_bytes parts.new.items ≡ map string_bytes parts.old.items
        ++ main_parts (name_entries names.now) (main_view part.now)) }
{
    if part.imports > 0 {
        let text = main_text(alloc, names, part)?;
        parts.push(text)?;
    }
    Ok(())
}

/// Appends what each adapter imports.
fn push_adapters(
    alloc: Global,
    adapters: &[AdapterPart<'_>],
    parts: &mut Vec<String>,
) -> Result<(), AllocError>
    ensures { OnOk result (map string_bytes parts.new.items
        ≡ map string_bytes parts.old.items ++ map adapter_text (map part_view adapters.now)) }
{
    for part in adapters {
        let text = adapter_text(alloc, part)?;
        parts.push(text)?;
    }
    Ok(())
}

/// Appends that an interface is imported for its types, if it is.
fn push_types(
    alloc: Global,
    types: &Option<Option<String>>,
    parts: &mut Vec<String>,
) -> Result<(), AllocError>
    ensures { OnOk result (map string_bytes parts.new.items
        ≡ map string_bytes parts.old.items ++ types_parts (option_map user_view types.now)) }
{
    match types {
        Some(user) => {
            let text = types_text(alloc, user)?;
            parts.push(text)?;
            Ok(())
        }
        None => Ok(()),
    }
}

/// That an interface is imported for its types, and which one uses them.
fn types_text(alloc: Global, user: &Option<String>) -> Result<String, AllocError>
    ensures { IfOk result (λ s. string_bytes s ≡ types_text (user_view user.now)) }
{
    match user {
        Some(user) => {
            let user = word(alloc, user)?;
            format!(in alloc; "types, used by {user}")
        }
        None => String::from_str(alloc, "types"),
    }
}

/// How many imports there are.
fn count_text(alloc: Global, count: usize) -> Result<String, AllocError>
    ensures { IfOk result (λ s. string_bytes s ≡ count_text count) }
{
    if count == 1 {
        String::from_str(alloc, "1 import of ")
    } else {
        format!(in alloc; "{count} imports of ")
    }
}

/// The text of the main module's part.
fn main_text(
    alloc: Global,
    names: &OrderedMap<u32, &str>,
    part: &MainPart,
) -> Result<String, AllocError>
    ensures { IfOk result (λ s. string_bytes s
        ≡ main_text (name_entries names.now) (main_view part.now)) }
{
    let count = count_text(alloc, part.imports)?;
    let first = usize::min(part.by.len(), MOST_FUNCTIONS);
    let functions = function_texts(alloc, names, &part.by[..first])?;
    let by = separated(alloc, " by ", ", ", &functions)?;
    let more = more_text(alloc, part.by.len())?;
    format!(in alloc; "{count}main{by}{more}")
}

/// How many functions there are more.
fn more_text(alloc: Global, count: usize) -> Result<String, AllocError>
    ensures { IfOk result (λ s. string_bytes s ≡ more_text count) }
{
    if count > MOST_FUNCTIONS {
        let more = count - MOST_FUNCTIONS;
        format!(in alloc; " and {more} more")
    } else {
        Ok(String::new(alloc))
    }
}

/// Functions, each by its index and its name.
fn function_texts(
    alloc: Global,
    names: &OrderedMap<u32, &str>,
    indices: &[u32],
) -> Result<Vec<String>, AllocError>
    ensures { IfOk result (λ v. map string_bytes v.items
        ≡ map (function_text (name_entries names.now)) indices.now) }
{
    let mut texts = Vec::new(alloc);
    for index in indices {
        let text = function_text(alloc, names, *index)?;
        texts.push(text)?;
    }
    Ok(texts)
}

/// A function, by its index and its name, if it has one.
fn function_text(
    alloc: Global,
    names: &OrderedMap<u32, &str>,
    index: u32,
) -> Result<String, AllocError>
    ensures { IfOk result (λ s. string_bytes s ≡ function_text (name_entries names.now) index) }
{
    named_function(alloc, index, function_name(names, index))
}

/// A function, by its index and this name, if it has one.
fn named_function(alloc: Global, index: u32, name: Option<&str>) -> Result<String, AllocError>
    ensures { IfOk result (λ s. string_bytes s
        ≡ named_function index (option_map text_of name.entry)) }
{
    match name {
        Some(name) => {
            let name = rust_name(alloc, name)?;
            item_text(alloc, Space::Funcs, index as usize, Some(&name))
        }
        None => item_text(alloc, Space::Funcs, index as usize, None),
    }
}

/// The name of a function, if it has one.
pub(crate) fn function_name<'r>(names: &OrderedMap<u32, &'r str>, index: u32) -> Option<&'r str>
    ensures { option_map text_of result ≡ function_name (name_entries names.now) index }
{
    names.get(&index).copied()
}

/// The text of an adapter's part.
fn adapter_text(alloc: Global, part: &AdapterPart<'_>) -> Result<String, AllocError>
    ensures { IfOk result (λ s. string_bytes s ≡ adapter_text (part_view part.now)) }
{
    let count = count_text(alloc, part.imports)?;
    let name = word(alloc, part.adapter)?;
    let effect = effect_text(alloc, part)?;
    format!(in alloc; "{count}adapter {name}{effect}")
}

/// That the imports of an adapter are always needed, and for what; or which exports need them, and how many bytes.
fn effect_text(alloc: Global, part: &AdapterPart<'_>) -> Result<String, AllocError>
    ensures { IfOk result (λ s. string_bytes s ≡ effect_text (part_view part.now)) }
{
    if part.is_library {
        String::from_str(alloc, ", always needed")
    } else if stays(part) {
        always_text(alloc, &part.stays, &part.roots)
    } else {
        only_text(alloc, part.bytes, &part.exports)
    }
}

/// That imports are always needed, for which exports, and where else paths to them begin.
fn always_text(alloc: Global, stays: &[String], roots: &[String]) -> Result<String, AllocError>
    ensures { IfOk result (λ s. string_bytes s
        ≡ always_text (map string_bytes stays.now) (map string_bytes roots.now)) }
{
    let exports = words_text(alloc, stays)?;
    let others = each_after(alloc, " ", roots)?;
    format!(in alloc; ", always needed for{exports}{others}")
}

/// Which exports need imports, and how many bytes.
fn only_text(alloc: Global, bytes: usize, exports: &[String]) -> Result<String, AllocError>
    ensures { IfOk result (λ s. string_bytes s ≡ only_text bytes (map string_bytes exports.now)) }
{
    let gone = gone_text(alloc, bytes)?;
    let exports = words_text(alloc, exports)?;
    format!(in alloc; "{gone}{exports}")
}

/// How many bytes are needed for the exports that follow alone.
fn gone_text(alloc: Global, bytes: usize) -> Result<String, AllocError>
    ensures { IfOk result (λ s. string_bytes s ≡ gone_text bytes) }
{
    format!(in alloc; ", {bytes} bytes, needed only for")
}

/// Words, each after a blank.
fn words_text(alloc: Global, names: &[String]) -> Result<String, AllocError>
    ensures { IfOk result (λ s. string_bytes s ≡ words_text (map string_bytes names.now)) }
{
    let mut text = String::new(alloc);
    for name in names {
        let name = word(alloc, name)?;
        text.push_str(" ")?;
        text.push_str(&name)?;
    }
    Ok(text)
}

/// Texts, each after a text: the first after one, the others after another.
fn separated(alloc: Global, first: &str, next: &str, texts: &[String]) -> Result<String, AllocError>
    ensures { IfOk result (λ s. string_bytes s
        ≡ separated first.now next.now (map string_bytes texts.now)) }
{
    match texts {
        [text, rest @ ..] => {
            let others = each_after(alloc, next, rest)?;
            format!(in alloc; "{first}{text}{others}")
        }
        [] => Ok(String::new(alloc)),
    }
}

/// Texts, each after another text.
fn each_after(alloc: Global, before: &str, texts: &[String]) -> Result<String, AllocError>
    ensures { IfOk result (λ s. string_bytes s
        ≡ flat_map (λ u. before.now ++ u) (map string_bytes texts.now)) }
{
    let mut all = String::new(alloc);
    for text in texts {
        all.push_str(before)?;
        all.push_str(text)?;
    }
    Ok(all)
}
