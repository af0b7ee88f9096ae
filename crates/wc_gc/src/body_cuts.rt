//! Bodies of functions, cut at the operators that name an item by one index, so that they are written under new indices
//! without being read again.

ghost use Rattle.std.specs.Prelude.{◌≡◌, ◌<◌, ◌≤◌, ◌+◌, ◌^◌, ◌++◌, [], ◌∷◌, true, length, replicate, IfOk, OnOk, IsTrue};
ghost use Rattle.wc_read.specs.Operators.{instr_value};
ghost use Rattle.wc_gc.specs.Private.BodyCuts.{Adds, AreWithin, ReadFuncs, stretches_in};

use std::alloc::{AllocError, Global};
use wc_read::{Immediates, IndexKind, Instr, Opcode, Space};

/// A body with fewer bytes is read again.
const LEAST: usize = 32;

/// How many bytes of bodies each stretch past the spare ones requires. It takes 24 bytes of memory.
const BYTES_OF_STRETCH: usize = 48;

/// How many spare stretches there may be for each function of the adapter. They take no more memory than the function
/// itself, which is dropped before the text is written.
const SPARE: usize = 2;

/// A stretch of a body: bytes that are the same under all indices under which memory 0 is memory 0, and the operator
/// after them, which names one item and has no other immediates.
#[derive(Clone, Copy)]
pub struct Stretch<'a> {
    /// The text of the operators before the one that is named.
    pub run: &'a [u8],
    /// The index of the item that the operator names.
    pub number: u32,
    /// The operator's code.
    pub code: u8,
    /// The item's space.
    pub space: Space,
    /// Whether there is an operator after the bytes; there is none after a body's last.
    pub named: bool,
}

/// The stretches of a body that is read.
#[derive(Drop)]
pub struct BodyCut<'a> {
    pub stretches: Vec<Stretch<'a>>,
    /// The bytes that were passed after the last of them.
    pub run: &'a [u8],
    /// Whether all stretches are kept: a body is read again if another operator names an item, or if the stretches
    /// would take too much memory.
    pub is_kept: bool,
    /// How many bytes there are for stretches of this body that are still to come.
    room: usize,
    /// How many bytes are left for the stretches of the next body, if this one is not kept.
    spare: usize,
}

impl<'a> BodyCut<'a> {
    /// No body yet, for an adapter with this number of functions.
    pub fn new(alloc: Global, funcs: usize) -> BodyCut<'a> {
        BodyCut {
            stretches: Vec::new(alloc),
            run: "".as_bytes(),
            is_kept: false,
            room: 0,
            spare: funcs.saturating_mul(SPARE * BYTES_OF_STRETCH),
        }
    }

    /// Begins a body of `size` bytes.
    #[inline(always)]
    pub fn begin(&mut self, size: usize)
        ensures { self.new.is_kept ≡ true →
            (self.new.stretches.items ≡ []) × (self.new.run.now ≡ []) }
    {
        self.is_kept = size >= LEAST;
        if self.is_kept {
            self.stretches.clear();
            self.run = "".as_bytes();
            self.room = self.spare;
        }
    }

    /// Adds the bytes that were passed, and the operator after them.
    #[inline(always)]
    pub fn push(&mut self, operator: &Instr<'_>) -> Result<(), AllocError>
        ensures { OnOk result (Adds self.old self.new (instr_value operator.now ∷ [])) }
    {
        if !self.is_kept {
            return Ok(());
        }
        match operator.opcode {
            Opcode::Byte(code) => match &operator.immediates {
                Immediates::Index(index) => match index.kind {
                    IndexKind::In(space) => self.add(Stretch {
                        run: self.run,
                        number: index.number,
                        code,
                        space,
                        named: true,
                    }),
                    _ => {
                        self.is_kept = false;
                        Ok(())
                    }
                },
                _ => {
                    self.is_kept = false;
                    Ok(())
                }
            },
            _ => {
                self.is_kept = false;
                Ok(())
            }
        }
    }

    /// Adds the bytes that were passed last.
    #[inline(always)]
    pub fn end(&mut self) -> Result<(), AllocError>
        ensures { OnOk result (Adds self.old self.new []) }
    {
        self.add(Stretch {
            run: self.run,
            number: 0,
            code: 0,
            space: Space::Types,
            named: false,
        })
    }

    /// Adds a stretch, if all stretches before it are kept and it fits.
    #[inline(always)]
    fn add(&mut self, stretch: Stretch<'a>) -> Result<(), AllocError>
        ensures { OnOk result (self.new.is_kept ≡ true → (self.old.is_kept ≡ true)
            × (self.new.run.now ≡ [])
            × (self.new.stretches.items ≡ self.old.stretches.items ++ stretch.entry ∷ [])) }
    {
        if !self.is_kept {
            return Ok(());
        }
        let room = self.room.saturating_add(stretch.run.len());
        if room < BYTES_OF_STRETCH {
            self.is_kept = false;
            return Ok(());
        }
        self.room = room - BYTES_OF_STRETCH;
        self.stretches.push(stretch)?;
        self.run = "".as_bytes();
        Ok(())
    }
}

/// The bodies of an adapter that were read, cut into stretches.
#[derive(Drop)]
pub struct BodyCuts<'a> {
    /// The body that is read.
    pub current: BodyCut<'a>,
    stretches: Vec<Stretch<'a>>,
    /// For each function where its stretches begin, and how many there are: none for a body that is read again.
    spans: Vec<(u32, u32)>,
    ghost within: { AreWithin stretches.items spans.items },
}

impl<'a> BodyCuts<'a> {
    ghost use Rattle.wc_gc.specs.Private.KeptBodies.{AreBodiesCut, KeepsBody, KeepsCuts, stretches_at};

    /// No stretches yet, for the first `places` functions. Bodies of other functions are not kept.
    pub fn new(alloc: Global, places: usize) -> Result<BodyCuts<'a>, AllocError>
        ensures { IfOk result (λ c. (funcs : ReadFuncs) → AreBodiesCut funcs c) }
    {
        Ok(BodyCuts {
            current: BodyCut::new(alloc, places),
            stretches: Vec::new(alloc),
            spans: no_spans(alloc, places)?,
        })
    }

    /// Keeps the stretches of the body that was read, which is that of the function of an index, if they are all there.
    #[inline(always)]
    pub fn keep(&mut self, index: usize) -> Result<(), AllocError>
        ensures { OnOk result (KeepsBody index self.old self.new) }
    {
        if self.current.is_kept {
            self.keep_stretches(index)
        } else {
            Ok(())
        }
    }

    /// Keeps its stretches, once.
    #[inline(never)]
    fn keep_stretches(&mut self, index: usize) -> Result<(), AllocError>
        requires { self.old.current.is_kept ≡ true }
        ensures { OnOk result (KeepsBody index self.old self.new) }
    {
        if index >= self.spans.len() {
            return Ok(());
        }
        let from = self.stretches.len();
        let count = self.current.stretches.len();
        if !fits(from, count) {
            return Ok(());
        }
        self.stretches.extend_from_slice(&self.current.stretches)?;
        self.spans[index] = (from as u32, count as u32);
        self.current.is_kept = false;
        self.current.spare = self.current.room;
        Ok(())
    }

    /// Lets go of the memory that served the bodies while they were read.
    pub fn finish(&mut self, alloc: Global)
        ensures { (funcs : ReadFuncs) → KeepsCuts funcs self.old self.new }
    {
        self.current = BodyCut::new(alloc, 0);
    }

    /// The index at which the stretches of the body of a function begin, and how many they are.
    fn span(&self, index: usize) -> (usize, usize)
        ensures within { result.0 + result.1 ≤ length self.now.stretches.items }
        ensures at { stretches_in self.now.stretches.items result ≡ stretches_at self.now index }
    {
        match self.spans.get(index) {
            Some(span) => (span.0 as usize, span.1 as usize),
            None => (0, 0),
        }
    }

    /// The stretches of the body of a function; none, if the body must be read again.
    pub fn cut(&self, index: usize) -> &[Stretch<'a>]
        ensures { result.now ≡ stretches_at self.now index }
    {
        let (from, count) = self.span(index);
        let (_, after) = self.stretches.split_at(from);
        let (stretches, _) = after.split_at(count);
        stretches
    }
}

/// No stretches, for this number of functions.
fn no_spans(alloc: Global, count: usize) -> Result<Vec<(u32, u32)>, AllocError>
    ensures { IfOk result (λ v. v.items ≡ replicate count (0, 0)) }
{
    let mut spans = Vec::new(alloc);
    spans.resize(count, (0, 0))?;
    Ok(spans)
}

/// Whether stretches end before the 2^32th.
fn fits(from: usize, count: usize) -> bool
    ensures { IsTrue result → from + count < 2 ^ 32 }
{
    let most = u32::MAX as usize;
    from <= most && count <= most - from
}
