//! Lines for bodies, initialisers and their operators.

use wc_lines::lines::Lines;
use wc_lines::values::{put_bytes, put_val_type, put_val_types};
use wc_read::{
    BlockType, Body, Form, Immediates, Index, IndexKind, Instr, MemArg, Opcode, Refs, Space,
    TypeRefs,
};

/// The word of an index space in rows, as `func`.
pub fn space_word(space: Space) -> &'static str {
    match space {
        Space::Types => "type",
        Space::Funcs => "func",
        Space::Tables => "table",
        Space::Memories => "memory",
        Space::Globals => "global",
    }
}

fn kind_name(kind: IndexKind) -> &'static str {
    match kind {
        IndexKind::In(space) => space_word(space),
        IndexKind::Elem => "elem",
        IndexKind::Data => "data",
        IndexKind::Local => "local",
        IndexKind::Label => "label",
    }
}

/// An operator's code: two hex digits, and the number after a prefix in decimal.
pub fn put_opcode(out: &mut Lines, opcode: Opcode) {
    match opcode {
        Opcode::Byte(code) => out.hex("", code),
        Opcode::Misc(code) => out.number("fc ", code as u64),
        Opcode::Vector(code) => out.number("fd ", code as u64),
        Opcode::Atomic(code) => out.number("fe ", code as u64),
    }
}

/// Appends ` block` and `empty`, a value's type or the index of a type.
fn put_block_type(out: &mut Lines, ty: &BlockType) {
    match ty {
        BlockType::Empty => out.push_str(" block empty"),
        BlockType::Value(ty) => {
            out.push_str(" block ");
            put_val_type(out, *ty);
        }
        BlockType::FuncType(index) => out.number(" block type ", *index as u64),
    }
}

/// Appends the kind and the number of an index.
fn put_index(out: &mut Lines, index: &Index) {
    out.push_str(" ");
    out.push_str(kind_name(index.kind));
    out.number(" ", index.number as u64);
}

fn put_labels(out: &mut Lines, labels: &[u32], default: u32) {
    out.push_str(" labels");
    for label in labels {
        out.number(" ", *label as u64);
    }
    out.number(" default ", default as u64);
}

fn put_address(out: &mut Lines, address: &MemArg) {
    out.number(" align ", address.align as u64);
    out.number(" memory ", address.memory as u64);
    out.number(" offset ", address.offset);
}

/// Puts the immediates after an operator's code, with a space at the front.
fn put_immediates(out: &mut Lines, immediates: &Immediates<'_>) {
    match immediates {
        Immediates::None => {}
        Immediates::Block(ty) => put_block_type(out, ty),
        Immediates::Index(index) => put_index(out, index),
        Immediates::Indices(first, second) => {
            put_index(out, first);
            put_index(out, second);
        }
        Immediates::Labels(labels, default) => put_labels(out, labels, *default),
        Immediates::ValTypes(types) => {
            out.push_str(" types");
            put_val_types(out, types);
        }
        Immediates::RefType(ty) => {
            out.push_str(" reference ");
            put_val_type(out, *ty);
        }
        Immediates::MemArg(address) => put_address(out, address),
        Immediates::MemArgLane(address, lane) => {
            put_address(out, address);
            out.number(" lane ", *lane as u64);
        }
        Immediates::I32(number) => write!(out, " i32 {number}"),
        Immediates::I64(number) => write!(out, " i64 {number}"),
        Immediates::Bytes(bytes) => {
            out.push_str(" bytes");
            put_bytes(out, bytes);
        }
        Immediates::Lane(lane) => out.number(" lane ", *lane as u64),
    }
}

/// A line for each operator: its code and its immediates.
pub fn put_operators(out: &mut Lines, operators: &[Instr<'_>]) {
    for operator in operators {
        out.push_str("operator ");
        put_opcode(out, operator.opcode);
        put_immediates(out, &operator.immediates);
        out.push_str("\n");
    }
}

/// A line for each run of locals, then one for each operator.
pub fn put_body(out: &mut Lines, body: &Body<'_>) {
    for run in &body.locals {
        out.number("locals ", run.count as u64);
        out.push_str(" ");
        put_val_type(out, run.ty);
        out.push_str("\n");
    }
    put_operators(out, &body.operators);
}

fn put_reference(out: &mut Lines, word: &str, reference: Option<(Space, u32)>) {
    out.push_str(word);
    match reference {
        Some((space, number)) => {
            out.push_str(space_word(space));
            out.number(" ", number as u64);
        }
        None => out.push_str("none"),
    }
    out.end();
}

/// Appends the items that an operator names, two at most.
pub fn put_refs(out: &mut Lines, refs: &Refs) {
    put_reference(out, "first ", refs.first);
    put_reference(out, "second ", refs.second);
}

/// Appends a line for each type that an operator lists.
pub fn put_type_refs(out: &mut Lines, types: TypeRefs<'_>) {
    for number in types {
        out.number("type ", number as u64);
        out.end();
    }
}

/// The shape of an operator's immediates.
pub fn put_form(out: &mut Lines, form: Form) {
    match form {
        Form::None => out.push_str("nothing"),
        Form::Block => out.push_str("block"),
        Form::Index(kind) => {
            out.push_str("index ");
            out.push_str(kind_name(kind));
        }
        Form::Indices(first, second) => {
            out.push_str("indices ");
            out.push_str(kind_name(first));
            out.push_str(" ");
            out.push_str(kind_name(second));
        }
        Form::Labels => out.push_str("labels"),
        Form::ValTypes => out.push_str("types"),
        Form::RefType => out.push_str("reference"),
        Form::MemArg => out.push_str("address"),
        Form::MemArgLane => out.push_str("address lane"),
        Form::I32 => out.push_str("i32"),
        Form::I64 => out.push_str("i64"),
        Form::Bytes(count) => out.number("bytes ", count as u64),
        Form::Lane => out.push_str("lane"),
        Form::Zero => out.push_str("zero"),
    }
}
