//! The call of `wc_segments`.

use std::alloc::Global;
use wc_lines::lines::Lines;
use wc_lines::values::{put_bytes, put_bytes_line, put_fault, put_val_type};
use wc_read::{ReadFault, read_module};
use wc_segments::{
    DataSegment, ElementSegment, Elements, Expression, SegmentMode, SegmentSection, Segments,
    read_segments,
};
use wc_texts::Refused;

/// `segments`: a line for each element segment of a module and for each data segment; or the fault and its section.
pub(crate) fn put_segments_of(alloc: Global, bytes: &[u8], out: &mut Lines) {
    match read_module(alloc, bytes) {
        Ok(module) => match read_segments(alloc, bytes, &module) {
            Ok(segments) => put_segments(out, &segments),
            Err(refused) => put_refused_section(out, &refused),
        },
        Err(fault) => put_fault(out, fault),
    }
}

fn put_segments(out: &mut Lines, segments: &Segments<'_>) {
    for (index, segment) in segments.elements.iter().enumerate() {
        put_element_segment(out, index, segment);
    }
    for (index, segment) in segments.data.iter().enumerate() {
        put_data_segment(out, index, segment);
    }
}

fn put_refused_section(out: &mut Lines, refused: &Refused<ReadFault, SegmentSection>) {
    put_fault(out, refused.fault);
    match refused.place {
        Some(section) => {
            out.push_str("section ");
            out.push_str(section.name());
            out.end();
        }
        None => {}
    }
}

/// `elem INDEX MODE TYPE functions INDEX..`, or `expressions` with their bytes.
fn put_element_segment(out: &mut Lines, index: usize, segment: &ElementSegment<'_>) {
    out.number("elem ", index as u64);
    put_mode(out, &segment.mode);
    out.push_str(" ");
    put_val_type(out, segment.ty);
    match &segment.elements {
        Elements::Functions(functions) => put_functions(out, functions),
        Elements::Expressions(expressions) => put_expressions(out, expressions),
    }
    out.end();
}

fn put_mode(out: &mut Lines, mode: &SegmentMode<'_>) {
    match mode {
        SegmentMode::Passive => out.push_str(" passive"),
        SegmentMode::Declarative => out.push_str(" declarative"),
        SegmentMode::Active { index, offset } => {
            out.number(" active ", *index as u64);
            out.push_str(" offset");
            put_bytes(out, offset);
        }
    }
}

fn put_functions(out: &mut Lines, functions: &[u32]) {
    out.push_str(" functions");
    for function in functions {
        out.number(" ", *function as u64);
    }
}

fn put_expressions(out: &mut Lines, expressions: &[Expression<'_>]) {
    out.push_str(" expressions");
    let mut is_first = true;
    for expression in expressions {
        if !is_first {
            out.push_str(",");
        }
        put_bytes(out, expression.bytes);
        is_first = false;
    }
}

/// `data INDEX MODE bytes BYTES`.
fn put_data_segment(out: &mut Lines, index: usize, segment: &DataSegment<'_>) {
    out.number("data ", index as u64);
    put_mode(out, &segment.mode);
    put_bytes_line(out, " bytes", segment.bytes);
}
