//! Examples of calling each library, and the rows' call of them: `example NAME ARGUMENT..`.

mod dedupe;
mod demo;
mod encoder;
mod gc;
mod names;
mod plan;
mod read;
mod resolve;
mod validate;
mod wctrim;
mod world;
mod write;

use crate::examples::world::Summary;
use std::alloc::Global;
use std::str;
use wc_encoder::ComponentEncoder;
use wc_fixtures::read::made;
use wc_lines::input::{Stop, bad_row, bytes_of, number_of};
use wc_lines::lines::Lines;
use wc_lines::names::names_from;
use wc_lines::put_last::{PutAbout, put_last_about};
use wc_lines::rows::Row;
use wc_lines::seeds::row_seed;
use wc_lines::values::{put_bytes_lines, put_fault};
use wc_maps::Map;
use wc_plan::PlanFault;
use wc_read::read_imports;
use wc_resolve::{Parts, Resolve, ResolveFault, World, WorldId};
use wctrim_command::ToolFault;

/// `example NAME ARGUMENT..`: the answer of an example.
pub(crate) fn answer_example(alloc: Global, row: &Row<'_>, out: &mut Lines) -> Result<(), Stop> {
    match row.argument(0) {
        "exports_memory" | "import_section" | "reaches_memory" | "trim_unedited" => {
            answer_of_bytes(alloc, row, out)
        }
        "original_name" => answer_original_name(alloc, row, out),
        "interface_id" => {
            let (namespace, name) = (row.argument(1), row.argument(2));
            match resolve::interface_id(alloc, row_seed(), namespace, name, row.argument(3)) {
                Ok(id) => put_name(out, &id),
                Err(fault) => put_fault(out, fault),
            }
            Ok(())
        }
        "dropped_resource" => {
            match names::dropped_resource(row.argument(1)) {
                Some(resource) => writeln!(out, "{resource:?}"),
                None => out.push_str("none\n"),
            }
            Ok(())
        }
        "printed_lines" => answer_printed_lines(alloc, row, out),
        "trim_both" => answer_trim_both(alloc, row, out),
        "encoder_for" => answer_empty(alloc, row, &Asked::Fields, out),
        "imported_memory" => answer_empty(alloc, row, &Asked::ImportedMemory, out),
        "can_use_slot_1" => answer_empty(alloc, row, &Asked::CanUseSlot1, out),
        "summary" => answer_demo(alloc, row, &Asked::Summary, out),
        "printed_plan" => answer_demo(alloc, row, &Asked::PrintedPlan, out),
        _ => Err(bad_row(out, "no example", row.argument(0))),
    }
}

/// A name in quotes, or `none`.
fn put_name(out: &mut Lines, name: &Option<String>) {
    match name {
        Some(name) => writeln!(out, "{name:?}"),
        None => out.push_str("none\n"),
    }
}

/// An example on the bytes of a module: `exports_memory`, `import_section`, `reaches_memory NAME..` or `trim_unedited
/// NAME..`.
fn answer_of_bytes(alloc: Global, row: &Row<'_>, out: &mut Lines) -> Result<(), Stop> {
    let bytes = bytes_of(alloc, &row.input, out)?;
    let required = names_from(alloc, row, 1)?;
    match row.argument(0) {
        "exports_memory" => match read::exports_memory(alloc, &bytes) {
            Ok(answer) => writeln!(out, "{answer}"),
            Err(fault) => put_fault(out, fault),
        },
        "import_section" => match write::import_section(alloc, &bytes) {
            Ok(section) => put_bytes_lines(out, "bytes", &section),
            Err(fault) => put_fault(out, fault),
        },
        "reaches_memory" => match gc::reaches_memory(alloc, &bytes, &required) {
            Ok(answer) => writeln!(out, "{answer}"),
            Err(fault) => put_fault(out, fault),
        },
        _ if required.is_empty() => return Err(bad_row(out, "no names", row.call)),
        _ => match gc::trim_unedited(alloc, &bytes, &required) {
            Ok(trimmed) => put_bytes_lines(out, "bytes", &trimmed),
            Err(fault) => put_fault(out, fault),
        },
    }
    Ok(())
}

/// The last line of input is the content of a section of imports, whose first import is used; the lines before it are
/// the module.
fn answer_original_name(alloc: Global, row: &Row<'_>, out: &mut Lines) -> Result<(), Stop> {
    let Some((last, lines)) = row.input.as_slice().split_last() else {
        return Err(bad_row(out, "no import", ""));
    };
    let bytes = bytes_of(alloc, lines, out)?;
    let content = bytes_of(alloc, &[*last], out)?;
    let imports = made(read_imports(alloc, &content), out)?;
    let Some(import) = imports.first() else {
        return Err(bad_row(out, "no import", last));
    };
    match dedupe::original_name(alloc, &bytes, import) {
        Ok(name) => put_name(out, &name),
        Err(fault) => put_fault(out, fault),
    }
    Ok(())
}

/// A `Resolve` of one world, which imports and exports nothing.
fn empty_world(alloc: Global) -> Result<Resolve, ResolveFault> {
    let world = World {
        name: String::from_str(alloc, "empty")?,
        imports: Map::with_hasher(alloc, row_seed()),
        exports: Map::with_hasher(alloc, row_seed()),
    };
    let parts = Parts {
        worlds: vec![in alloc; world]?,
        interfaces: Vec::new(alloc),
        types: Vec::new(alloc),
        packages: Vec::new(alloc),
    };
    Resolve::build(alloc, parts)
}

/// A request for facts about an encoder.
#[derive(Clone, Copy)]
enum Asked {
    /// Its module and its world.
    Fields,
    ImportedMemory,
    CanUseSlot1,
    Summary,
    PrintedPlan,
}

impl PutAbout<Asked> for ComponentEncoder {
    fn put_about(&self, alloc: Global, asked: &Asked, out: &mut Lines) {
        match asked {
            Asked::Fields => {
                put_bytes_lines(out, "module", self.module());
                out.number_line("world ", self.metadata().world.0 as u64);
            }
            Asked::ImportedMemory => match validate::imported_memory(alloc, self, self.module()) {
                Ok(memory) => writeln!(out, "{memory:?}"),
                Err(fault) => put_fault(out, fault),
            },
            Asked::CanUseSlot1 => match world::can_use_slot_1(alloc, self) {
                Ok(answer) => writeln!(out, "{answer}"),
                Err(fault) => put_fault(out, fault),
            },
            Asked::Summary => match world::read_world(alloc, self) {
                Ok(summary) => put_parts(&summary, out),
                Err(fault) => put_fault(out, fault),
            },
            Asked::PrintedPlan => match plan::printed_plan(alloc, self) {
                Ok(lines) => put_lines(out, &lines),
                // The lines are put into memory, which ran out.
                Err(PlanFault::Output) => out.lack_memory(),
                Err(fault) => put_fault(out, fault),
            },
        }
    }
}

/// `example printed_lines ARGUMENT..`.
fn answer_printed_lines(alloc: Global, row: &Row<'_>, out: &mut Lines) -> Result<(), Stop> {
    let mut arguments = Vec::new(alloc);
    for argument in row.arguments.iter().skip(1) {
        arguments.push(String::from_str(alloc, argument)?)?;
    }
    let input = bytes_of(alloc, &row.input, out)?;
    match wctrim::printed_lines(alloc, row_seed(), &arguments, &input) {
        Ok(Some(lines)) => put_lines(out, &lines),
        Ok(None) => out.push_str("usage\n"),
        // The lines are put into memory, which ran out.
        Err(ToolFault::Output) => return Err(Stop::Memory),
        Err(fault) => put_fault(out, fault),
    }
    Ok(())
}

/// `example trim_both NAME..`, with a line `and` between two modules.
fn answer_trim_both(alloc: Global, row: &Row<'_>, out: &mut Lines) -> Result<(), Stop> {
    let first = bytes_beside(alloc, row, "and", false, out)?;
    let second = bytes_beside(alloc, row, "and", true, out)?;
    let required = names_from(alloc, row, 1)?;
    if required.is_empty() {
        return Err(bad_row(out, "no names", row.call));
    }
    match gc::trim_both(alloc, &first, &second, &required) {
        Ok((first, second)) => {
            out.push_str("first\n");
            put_bytes_lines(out, "bytes", &first);
            out.push_str("second\n");
            put_bytes_lines(out, "bytes", &second);
        }
        Err(fault) => put_fault(out, fault),
    }
    Ok(())
}

/// `example encoder_for WORLD`, `example imported_memory`, `example can_use_slot_1`: on the module, as the main
/// module of a world that imports and exports nothing.
fn answer_empty(alloc: Global, row: &Row<'_>, asked: &Asked, out: &mut Lines) -> Result<(), Stop> {
    let world = match asked {
        Asked::Fields => number_of(out, "no number", row.argument(1))?,
        _ => 0,
    };
    let module = bytes_of(alloc, &row.input, out)?;
    let resolve = made(empty_world(alloc), out)?;
    match encoder::encoder_for(alloc, row_seed(), module, resolve, WorldId(world)) {
        Ok(encoder) => put_last_about(alloc, asked, encoder, out),
        Err(fault) => put_fault(out, fault),
    }
    Ok(())
}

/// `example summary`, `example printed_plan`: on the component of a main module and an adapter. A line `adapter`
/// separates their bytes.
fn answer_demo(alloc: Global, row: &Row<'_>, asked: &Asked, out: &mut Lines) -> Result<(), Stop> {
    let main = bytes_beside(alloc, row, "adapter", false, out)?;
    let adapter = bytes_beside(alloc, row, "adapter", true, out)?;
    match demo::demo_encoder(alloc, row_seed(), &main, &adapter) {
        Ok(encoder) => put_last_about(alloc, asked, encoder, out),
        Err(fault) => put_fault(out, fault),
    }
    Ok(())
}

/// The bytes of the lines before the line that separates two modules, or of those after it.
fn bytes_beside(
    alloc: Global,
    row: &Row<'_>,
    separator: &str,
    is_after: bool,
    out: &mut Lines,
) -> Result<Vec<u8>, Stop> {
    let mut bytes = Vec::new(alloc);
    let mut is_past = false;
    for line in &row.input {
        if *line == separator {
            is_past = true;
        } else if is_past == is_after {
            let part = bytes_of(alloc, &[*line], out)?;
            bytes.extend_from_slice(&part)?;
        }
    }
    Ok(bytes)
}

fn put_parts(summary: &Summary, out: &mut Lines) {
    put_bytes_lines(out, "trimmed", &summary.trimmed);
    for lowered in &summary.lowered {
        let name = lowered.name.as_str();
        let when = if lowered.is_direct {
            "direct"
        } else {
            "indirect"
        };
        let options = lowered.options;
        writeln!(out, "lowered {name:?} {when} {options}");
    }
    for id in &summary.live {
        let index = id.0;
        writeln!(out, "live {index}");
    }
}

/// A line for each line that was printed.
fn put_lines(out: &mut Lines, bytes: &[u8]) {
    let Ok(text) = str::from_utf8(bytes) else {
        return put_bytes_lines(out, "printed", bytes);
    };
    for line in text.lines() {
        writeln!(out, "line {line:?}");
    }
}
