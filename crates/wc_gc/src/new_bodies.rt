//! Bodies of functions and initialisers of globals that are to be written.

ghost use Rattle.std.specs.Prelude.{◌≡◌, ◌≤◌, is_some, true};
ghost use Rattle.wc_read.specs.BodyOperators.{body_in};
ghost use Rattle.wc_gc.specs.Private.KeptBodies.{IsCutAt};

use crate::added_code::{append_growing_body, append_stack_body};
use crate::body_cuts::BodyCuts;
use crate::new_indices::NewIndices;
use crate::rewrite::{append_init, append_old_body};
use std::alloc::AllocError;
use wc_write::{BodyText, InitText};

/// The body of a function, to be written.
#[derive(Clone, Copy)]
pub enum NewBody<'a, 'n> {
    /// That of a function of the adapter.
    Old(OldBody<'a, 'n>),
    /// A realloc that grows memory 0.
    Growing(GrowingBody),
    /// The allocation of a stack.
    Stack(StackBody),
}

impl<'a, 'n> BodyText for NewBody<'a, 'n> {
    ghost use Rattle.wc_gc.specs.NewBodies.{body_written};

    ghost body = { body_written };

    fn put(&self, out: &mut Vec<u8>) -> Result<(), AllocError> {
        match self {
            NewBody::Old(body) => append_old_body(out, body),
            NewBody::Growing(body) => append_growing_body(out, body.page_size_log2),
            NewBody::Stack(body) => append_stack_body(out, body.realloc, body.stack, body.state),
        }
    }
}

/// A realloc that grows memory 0, whose pages have 2 to the power of a number bytes.
#[derive(Clone, Copy)]
pub struct GrowingBody {
    pub page_size_log2: u32,
    ghost paged: { page_size_log2 ≤ 16 },
}

/// The allocation of a stack, by new indices.
#[derive(Clone, Copy)]
pub struct StackBody {
    /// The realloc that is called.
    pub realloc: u32,
    /// The stack pointer.
    pub stack: u32,
    /// The state of the allocation.
    pub state: Option<u32>,
}

/// The tables by which the bodies of the adapter's live functions are written.
#[derive(Clone, Copy)]
pub struct OldBodies<'a, 'n> {
    /// The bodies, as they were cut.
    pub cuts: &'n BodyCuts<'a>,
    pub new: &'n NewIndices,
    /// The new index of a function that exported ones call first.
    pub call: Option<u32>,
}

/// The body of a live function of the adapter, for writing under new indices. It is written by its stretches, if it
/// has any; otherwise its operators are read and written one after another, and none of them is kept.
#[derive(Clone, Copy)]
pub struct OldBody<'a, 'n> {
    /// Bytes that encode a body.
    pub bytes: &'a [u8],
    pub bodies: &'n OldBodies<'a, 'n>,
    /// The index of the function.
    pub index: u32,
    /// Whether an export names the function.
    pub exported: bool,
    ghost is_code: { is_some (body_in bytes.now) ≡ true },
    ghost cut: { IsCutAt bodies.now.cuts.now index (body_in bytes.now) },
}

impl<'a, 'n> OldBody<'a, 'n> {
    ghost use Rattle.wc_gc.specs.NewBodies.{first_call};

    /// The new index of a function that is called first, if there is one.
    #[inline(always)]
    pub fn first_call(&self) -> Option<u32>
        ensures { result ≡ first_call self.now }
    {
        if self.exported {
            self.bodies.call
        } else {
            None
        }
    }
}

/// The initialiser of a live global of the adapter, to be written under new indices.
#[derive(Clone, Copy)]
pub struct NewInit<'a, 'n> {
    /// Bytes that encode an initialiser; if they encode none, nothing is written.
    pub bytes: &'a [u8],
    pub new: &'n NewIndices,
}

impl<'a, 'n> InitText for NewInit<'a, 'n> {
    ghost use Rattle.wc_gc.specs.NewBodies.{init_written};

    ghost init = { init_written };

    fn put(&self, out: &mut Vec<u8>) -> Result<(), AllocError> {
        append_init(out, self.bytes, self.new)
    }
}
