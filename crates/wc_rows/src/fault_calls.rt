//! The texts of faults.

use std::alloc::Global;
use wc_dedupe::DedupeFault;
use wc_gc::GcFault;
use wc_lines::lines::Lines;
use wc_lines::rows::Row;
use wc_lines::values::put_fault_text;
use wc_read::ReadFault;
use wc_texts::PutFailed;
use wc_write::WriteFault;
use wctrim_command::ToolFault;

/// Each with its number before it.
pub(crate) fn put_read_faults(alloc: Global, out: &mut Lines) {
    for fault in ReadFault::ALL {
        out.number("", fault.number() as u64);
        out.push_str(" ");
        put_fault_text(alloc, &fault, out);
    }
}

/// Those of writers, and that of sinks, which no other fault carries.
pub(crate) fn put_write_faults(alloc: Global, out: &mut Lines) {
    for fault in WriteFault::ALL {
        put_fault_text(alloc, &fault, out);
    }
    writeln!(out, "{}", PutFailed);
}

pub(crate) fn put_dedupe_faults(alloc: Global, out: &mut Lines) {
    put_fault_text(alloc, &DedupeFault::Memory, out);
    put_fault_text(alloc, &DedupeFault::TooLarge, out);
    for fault in ReadFault::ALL {
        put_fault_text(alloc, &DedupeFault::Read(fault), out);
    }
}

/// How many faults of trimming there are that carry no fault of the reader.
const GC_FAULTS: u32 = 14;

/// A name that is longer than other texts of faults.
const LONG_NAME: &str =
    "a name of an export that has more letters than all of the other texts of faults have";

/// The names of missing exports.
const NAMES: [&str; 4] = ["x", "", LONG_NAME, "`é`"];

/// The faults of trimming that carry no fault of the reader, by numbers from 0 to 13.
fn gc_fault(alloc: Global, number: u32, out: &mut Lines) -> GcFault {
    if number < 1 || number > 4 {
        return plain_gc_fault(number);
    }
    match String::from_str(alloc, NAMES[number as usize - 1]) {
        Ok(name) => GcFault::MissingExport(name),
        Err(_) => {
            out.lack_memory();
            GcFault::Memory
        }
    }
}

/// Those that carry nothing.
fn plain_gc_fault(number: u32) -> GcFault {
    match number {
        0 => GcFault::Memory,
        5 => GcFault::UnsupportedSection,
        6 => GcFault::LiveBody,
        7 => GcFault::SeveralNamed,
        8 => GcFault::LiveTable,
        9 => GcFault::SeveralMemories,
        10 => GcFault::LocalMemory,
        11 => GcFault::ReallocType,
        12 => GcFault::ReallocMemory,
        _ => GcFault::TooLarge,
    }
}

pub(crate) fn put_gc_faults(alloc: Global, out: &mut Lines) {
    for number in 0..GC_FAULTS {
        let fault = gc_fault(alloc, number, out);
        put_fault_text(alloc, &fault, out);
    }
    for fault in ReadFault::ALL {
        put_fault_text(alloc, &GcFault::Read(fault), out);
    }
}

pub(crate) fn put_wctrim_faults(alloc: Global, out: &mut Lines) {
    put_fault_text(alloc, &ToolFault::Memory, out);
    put_fault_text(alloc, &ToolFault::Output, out);
    put_fault_text(alloc, &ToolFault::Dedupe(DedupeFault::Memory), out);
    put_fault_text(alloc, &ToolFault::Dedupe(DedupeFault::TooLarge), out);
    for number in 0..GC_FAULTS {
        let fault = ToolFault::Trim(gc_fault(alloc, number, out));
        put_fault_text(alloc, &fault, out);
    }
    put_wctrim_reads(alloc, out);
}

/// Those that carry a fault of the reader, or a fault that carries one.
fn put_wctrim_reads(alloc: Global, out: &mut Lines) {
    for fault in ReadFault::ALL {
        put_fault_text(alloc, &ToolFault::Read(fault), out);
        put_fault_text(alloc, &ToolFault::Dedupe(DedupeFault::Read(fault)), out);
        put_fault_text(alloc, &ToolFault::Trim(GcFault::Read(fault)), out);
    }
}
