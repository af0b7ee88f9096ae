//! The calls of `wc_world`.

use crate::encoders::{Asked, encoder_of};
use crate::export_calls::put_answers;
use bitflags::Flags;
use std::alloc::{AllocError, Global};
use std::borrow::CowSlice;
use wc_fixtures::read::{asked_of, resolve_of};
use wc_fixtures::shown_names::put_name;
use wc_fixtures::signature_calls::abi_of;
use wc_gc::GcFault;
use wc_lines::input::{Stop, bad_row, end_answer};
use wc_lines::lines::Lines;
use wc_lines::put_last::{PutAbout, put_last_about, put_last_fault};
use wc_lines::rows::Row;
use wc_lines::values::put_bytes_lines;
use wc_maps::Set;
use wc_resolve::Function;
use wc_validate::ValidateFault;
use wc_world::{
    ComponentWorld, ImportOptions, PlainOptions, RequiredOptions, WorldAdapter, WorldFault,
    required_exports,
};

/// An adapter's name, after what it is.
fn put_adapter_name(name: &str, adapter: &WorldAdapter<'_>, out: &mut Lines) {
    out.push_str(if adapter.library_info.is_some() {
        "library "
    } else {
        "adapter "
    });
    put_name(out, name);
    out.push('\n');
}

/// The adapters and libraries, each with its bytes, and whether they are borrowed.
fn put_adapter_bytes(world: &ComponentWorld<'_>, out: &mut Lines) {
    for (name, adapter) in world.adapters.iter() {
        put_adapter_name(name, adapter, out);
        let word = match &adapter.wasm {
            CowSlice::Borrowed(_) => "borrowed",
            CowSlice::Owned(_) => "owned",
        };
        put_bytes_lines(out, word, adapter.wasm.as_slice());
    }
}

/// The adapters and libraries, each with the answers to the questions of a row about its exports.
fn put_adapter_answers(
    alloc: Global,
    world: &ComponentWorld<'_>,
    row: &Row<'_>,
    out: &mut Lines,
) -> Result<(), Stop> {
    for (name, adapter) in world.adapters.iter() {
        put_adapter_name(name, adapter, out);
        put_answers(alloc, &adapter.info.exports, &row.input, out)?;
    }
    Ok(())
}

/// The adapters, each with the names of the exports for which it was trimmed.
fn put_required_exports(
    alloc: Global,
    world: &ComponentWorld<'_>,
    out: &mut Lines,
) -> Result<(), Stop> {
    for (name, adapter) in world.adapters.iter() {
        if adapter.library_info.is_none() {
            put_adapter_name(name, adapter, out);
            let names = required_exports(alloc, &world.info, name, &adapter.info)?;
            put_names(&names, out);
        }
    }
    Ok(())
}

fn put_names(names: &Set<String>, out: &mut Lines) {
    for name in names.iter() {
        out.push_str("  ");
        put_name(out, name);
        out.end();
    }
}

/// Puts the part of a world that is asked for by its name.
fn put_part(
    alloc: Global,
    world: &ComponentWorld<'_>,
    row: &Row<'_>,
    part: &str,
    out: &mut Lines,
) -> Result<(), Stop> {
    match part {
        "ask" => put_adapter_answers(alloc, world, row, out)?,
        "required" => put_required_exports(alloc, world, out)?,
        "bytes" => put_adapter_bytes(world, out),
        "slot-1" => {
            let can_use = world.can_use_context_slot_1();
            writeln!(out, "slot-1 {can_use}");
        }
        _ => return Err(bad_row(out, "no part of a world", part)),
    }
    Ok(())
}

impl<'a, 'b> PutAbout<Asked<'a>> for Result<ComponentWorld<'b>, WorldFault> {
    /// Puts the parts of a component's world that are asked for, or why it has none.
    fn put_about(&self, alloc: Global, asked: &Asked<'a>, out: &mut Lines) {
        match self {
            Ok(world) => {
                for part in &asked.row.arguments {
                    let put = put_part(alloc, world, asked.row, part, out);
                    let _ = end_answer(put.map(|_| true), out);
                }
            }
            Err(fault) => writeln!(out, "fault {fault}"),
        }
    }
}

/// A fault that carries an adapter's name, for rows of texts.
fn adapter_fault(alloc: Global, number: u32) -> Result<WorldFault, AllocError> {
    let name = String::from_str(alloc, "old")?;
    Ok(match number {
        0 => WorldFault::Adapter(name, ValidateFault::NotAFunction),
        1 => WorldFault::Trim(name, GcFault::LiveBody),
        2 => WorldFault::Minimized(name, ValidateFault::DuplicateImport),
        _ => WorldFault::PageSize(name, 1, 65536),
    })
}

/// The text of each fault, in the order of `WorldFault`.
pub(crate) fn put_world_faults(alloc: Global, out: &mut Lines) -> Result<(), AllocError> {
    put_last_fault(alloc, WorldFault::Memory, out);
    put_last_fault(alloc, WorldFault::Main(ValidateFault::NotAModule), out);
    for number in 0..4 {
        put_last_fault(alloc, adapter_fault(alloc, number)?, out);
    }
    Ok(())
}

/// `plain_options ABI`: the bits of the options that a function, which is asked about, needs where it is lowered;
/// `export_options ABI`: where it is lifted.
pub(crate) fn put_options(alloc: Global, row: &Row<'_>, out: &mut Lines) -> Result<(), Stop> {
    let resolve = resolve_of(alloc, &row.input, out)?;
    let abi = abi_of(row.argument(0), out)?;
    let function: Function = asked_of(alloc, row, out)?;
    if !resolve.has_function(&function) {
        return Err(bad_row(out, "a function that is not usable", row.call));
    }
    let required = if row.call == "export_options" {
        RequiredOptions::for_export(alloc, &resolve, &function, abi)?
    } else {
        PlainOptions.for_import(alloc, &resolve, &function, abi)?
    };
    out.number_line("", required.bits() as u64);
    Ok(())
}

/// `component_world PART..`, by plain options.
pub(crate) fn put_world(alloc: Global, row: &Row<'_>, out: &mut Lines) -> Result<(), Stop> {
    let encoder = encoder_of(alloc, row, out)?;
    let world = ComponentWorld::new(alloc, &encoder, &PlainOptions);
    put_last_about(alloc, &Asked { row }, world, out);
    Ok(())
}
