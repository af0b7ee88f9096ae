//! The operators of a body, one after another.

ghost use Rattle.std.specs.Prelude.{◌≡◌, ◌≢◌, ◌<◌, ◌≤◌, ◌↔◌, ◌++◌, ℕ, List, [], Some, None, is_some, false, IsTrue, IfOk, IfErr, IfSome};
ghost use Rattle.std.specs.Option.{option_map};
ghost use Rattle.wc_read.specs.Fault.{IfRefused};
ghost use Rattle.wc_read.specs.Operators.{InstrValue, instr_value};
ghost use Rattle.wc_read.specs.Bodies.{local_types};
ghost use Rattle.wc_read.specs.Types.{type_indices};
ghost use Rattle.wc_read.specs.Text.{vector_text, locals_text};
ghost use Rattle.wc_read.specs.Passing.{IsRunText, may_pass, run_and_left};
ghost use Rattle.wc_read.specs.BodyOperators.{body_in, body_of, body_operators, bytes_left, KeepsLocals, locals_bytes, locals_read, next_and_left, operators_left};

use crate::blocks::Blocks;
use crate::bodies::Locals;
use crate::fault::ReadFault;
use crate::nesting::{step, token_of};
use crate::operators::Instr;
use crate::pass_kinds::begins_run;
use crate::passing::pass_operators;
use crate::reader::Reader;
use std::alloc::{AllocError, Global};

/// The operators of a function's body (WebAssembly core specification, 5.5.13), read one after another. None of them is
/// kept, and a body takes memory only where 64 of its blocks are open at once.
#[derive(Drop)]
pub struct Operators<'a> {
    /// The bytes of the body's locals in runs, which were read already.
    locals: &'a [u8],
    /// Whether these bytes are the fewest, and no type of locals names a type of the module.
    is_shortest: bool,
    reader: Reader<'a>,
    blocks: Blocks,
}

impl<'a> Operators<'a> {
    /// The operators of the body that bytes spell. Its locals are read here. It takes no memory.
    ///
    /// # Errors
    ///
    /// - `Truncated`, `BadNumber`, `BadType`: the bytes end inside the locals, or a count or a type of locals is none.
    /// - `TooLarge`: there are 2^32 locals or more.
    #[inline(always)]
    pub fn new(alloc: Global, slice: &'a [u8]) -> Result<Operators<'a>, ReadFault>
        ensures found { IfOk result
            (λ o. operators_left o ≡ body_operators (body_in slice.now)) }
        ensures body { IfOk result
            (λ o. body_in slice.now ≡ option_map (body_of (locals_read o)) (operators_left o)) }
        ensures keeps_locals { IfOk result KeepsLocals }
        // The bytes of the locals are the first.
        ensures front { IfOk result (λ o. (left : List ℕ) × (slice.now ≡ locals_bytes o ++ left)) }
        // The locals of a body are read.
        ensures refused { IfRefused result (body_in slice.now ≡ None) }
        ensures no_component { IfErr result (λ f. f ≢ ReadFault.Component) }
        ensures no_memory { IfErr result (λ f. f ≢ ReadFault.Memory) }
    {
        let mut reader = Reader::new(slice);
        let is_shortest = reader.pass_locals()?;
        let (locals, _) = slice.split_at(slice.len() - reader.rest.len());
        Ok(Operators {
            locals,
            is_shortest,
            reader,
            blocks: Blocks::of_body(alloc),
        })
    }

    /// Whether the body has ended: no operator is left, and no block is open.
    #[inline(always)]
    pub fn is_done(&self) -> bool
        ensures { IsTrue result ↔ (operators_left self.now ≡ Some []) }
    {
        self.reader.rest.is_empty() && self.blocks.is_empty()
    }

    /// The bytes of the body's locals, exactly where no fewer bytes spell them and none of their types is an index of a
    /// type; asked before its operators are read.
    pub fn shortest_locals(&self) -> Option<&'a [u8]>
        requires { KeepsLocals self.now }
        ensures text { IfSome result (λ b.
            b.now ≡ vector_text locals_text (locals_read self.now)) }
        ensures no_types { IfSome result (λ _.
            type_indices (local_types (locals_read self.now)) ≡ []) }
        ensures bytes { IfSome result (λ b. b.now ≡ locals_bytes self.now) }
        ensures none { is_some result ≡ false →
            type_indices (local_types (locals_read self.now)) ≡ [] →
            locals_bytes self.now ≢ vector_text locals_text (locals_read self.now) }
    {
        if self.is_shortest {
            Some(self.locals)
        } else {
            None
        }
    }

    /// The locals of the body, in runs; asked before its operators are read.
    pub fn locals(&self, alloc: Global) -> Result<Vec<Locals>, AllocError>
        requires { KeepsLocals self.now }
        ensures { IfOk result (λ v. v.items ≡ locals_read self.now) }
    {
        match Reader::new(self.locals).vector::<Locals>(alloc) {
            Ok(locals) => Ok(locals),
            Err(ReadFault::Memory) => Err(AllocError),
            Err(_) => unreachable!(),
        }
    }

    /// Whether `pass` may go past the next operator, by its code. Where it may not, a call of `pass` is spared.
    #[inline(always)]
    pub fn begins_run(&self) -> bool
        ensures { result ≡ may_pass self.now }
    {
        begins_run(self.reader.rest)
    }

    /// Goes past operators, and answers their bytes. They name no segment and no item, but memory 0 where `memory` is
    /// true, and no fewer bytes spell them. It takes no memory and has no faults: all other operators are left to
    /// `next`, and so are some of these, such as those of rare shapes.
    #[inline(always)]
    pub fn pass(&mut self, memory: bool) -> &'a [u8]
        ensures passed { (run : List InstrValue) × IsRunText memory result.now run
            × (operators_left self.old ≡ run_and_left run (operators_left self.new)) }
        ensures locals { locals_read self.new ≡ locals_read self.old }
        ensures not_longer { bytes_left self.new ≤ bytes_left self.old }
    {
        let input = self.reader.rest;
        let rest = pass_operators(&mut self.blocks, input, memory);
        self.reader.rest = rest;
        let (passed, _) = input.split_at(input.len() - rest.len());
        passed
    }

    /// The next operator; `None` after the end of the body, the last of them.
    ///
    /// # Errors
    ///
    /// Those of `read_body` for operators and their nesting. After a fault, what is left is not said.
    #[inline(always)]
    pub fn next(&mut self, alloc: Global) -> Result<Option<Instr<'a>>, ReadFault>
        ensures found { IfOk result (λ i. operators_left self.old
            ≡ next_and_left (option_map instr_value i) (operators_left self.new)) }
        ensures locals { locals_read self.new ≡ locals_read self.old }
        // Each operator has a byte at least.
        ensures shorter { IfOk result (λ i.
            IfSome i (λ _. bytes_left self.new < bytes_left self.old)) }
        // Unless memory runs out, the operators of a body are read.
        ensures refused { IfRefused result (operators_left self.old ≡ None) }
        ensures no_component { IfErr result (λ f. f ≢ ReadFault.Component) }
    {
        match self.reader.frequent()? {
            Some(operator) => {
                if !step(&mut self.blocks, token_of(operator.opcode))? {
                    return Err(ReadFault::BadNesting);
                }
                Ok(Some(operator))
            }
            None => self.next_of_any(alloc),
        }
    }

    /// The next operator, of any shape; `None` after the end of the body.
    #[inline(never)]
    fn next_of_any(&mut self, alloc: Global) -> Result<Option<Instr<'a>>, ReadFault>
        ensures found { IfOk result (λ i. operators_left self.old
            ≡ next_and_left (option_map instr_value i) (operators_left self.new)) }
        ensures locals { locals_read self.new ≡ locals_read self.old }
        ensures shorter { IfOk result (λ i.
            IfSome i (λ _. bytes_left self.new < bytes_left self.old)) }
        ensures refused { IfRefused result (operators_left self.old ≡ None) }
        ensures no_component { IfErr result (λ f. f ≢ ReadFault.Component) }
    {
        if self.reader.rest.is_empty() {
            if self.blocks.is_empty() {
                return Ok(None);
            }
            return Err(ReadFault::BadNesting);
        }
        let operator = self.reader.operator(alloc)?;
        if !step(&mut self.blocks, token_of(operator.opcode))? {
            return Err(ReadFault::BadNesting);
        }
        Ok(Some(operator))
    }
}
