//! The locals of a body, passed over in runs.

ghost use Rattle.std.specs.Prelude.{◌≡◌, ◌&&◌, true, Ok, IfSome};
ghost use Rattle.wc_read.specs.Private.LocalRuns.{ReadsNumber, ReadsLocals, PassesLocals, IsPlainValType, IsShortRun, is_plain_text};

use crate::codes::MORE_BYTES;
use crate::fault::ReadFault;
use crate::reader::Reader;
use crate::text_sizes::{are_bytes, is_shortest};
use crate::types::ValType;

impl<'a> Reader<'a> {
    /// Goes past the runs of a body's locals (5.5.13), and returns whether their bytes are their text, and no type of
    /// them names another. Most bodies have short runs alone.
    pub fn pass_locals(&mut self) -> Result<bool, ReadFault>
        ensures { PassesLocals result self.old.rest.now self.new.rest.now }
    {
        match after_short_runs(self.rest) {
            Some(rest) => {
                self.rest = rest;
                Ok(true)
            }
            None => self.pass_any_locals(),
        }
    }

    /// Goes past runs of any kind, and returns whether their bytes are their text, and no type of them names another.
    #[inline(never)]
    fn pass_any_locals(&mut self) -> Result<bool, ReadFault>
        ensures { PassesLocals result self.old.rest.now self.new.rest.now }
    {
        let (count, is_count_text) = self.u32_and_is_text()?;
        let mut is_text = is_count_text;
        let mut total: u32 = 0;
        for _ in 0..count {
            let (locals, is_run_text) = self.pass_locals_run()?;
            is_text = both(is_text, is_run_text);
            match total.checked_add(locals) {
                Some(sum) => total = sum,
                None => return Err(ReadFault::TooLarge),
            }
        }
        Ok(is_text)
    }

    /// Goes past a run of locals, and returns how many they are, and whether its bytes are its text and its type names
    /// none.
    #[inline(always)]
    #[tactic(auto, unfolding(crate::specs::Reading::Bodies::locals_at))]
    fn pass_locals_run(&mut self) -> Result<(u32, bool), ReadFault>
        ensures { ReadsLocals result self.old.rest.now self.new.rest.now }
    {
        let (count, is_text) = self.u32_and_is_text()?;
        let input = self.rest;
        let ty = self.val_type()?;
        let is_type_text = is_plain_text(ty, input.len() - self.rest.len());
        Ok((count, both(is_text, is_type_text)))
    }

    /// A number, and whether its bytes are its text.
    #[inline(always)]
    fn u32_and_is_text(&mut self) -> Result<(u32, bool), ReadFault>
        ensures { ReadsNumber result self.old.rest.now self.new.rest.now }
    {
        let input = self.rest;
        are_bytes(input);
        let number = self.u32()?;
        let is_text = is_shortest(u64::from(number), input.len() - self.rest.len());
        Ok((number, is_text))
    }
}

/// The bytes after the runs of a body's locals, where their count, and the count and the type of each, is one byte.
#[inline(always)]
fn after_short_runs(input: &[u8]) -> Option<&[u8]>
    ensures { IfSome result (λ rest. PassesLocals (Ok true) input.now rest.now) }
{
    let (count, runs) = input.split_first()?;
    if *count >= MORE_BYTES {
        return None;
    }
    let mut rest = runs;
    for _ in 0..*count {
        rest = after_short_run(rest)?;
    }
    Some(rest)
}

/// The bytes after a run of locals, where its count and its type is one byte.
#[inline(always)]
fn after_short_run(input: &[u8]) -> Option<&[u8]>
    ensures { IfSome result (λ rest. IsShortRun input.now rest.now) }
{
    let (count, others) = input.split_first()?;
    let (first, rest) = others.split_first()?;
    if *count < MORE_BYTES && is_val_type(*first) {
        Some(rest)
    } else {
        None
    }
}

/// Whether a byte is a value type by itself.
#[inline(always)]
fn is_val_type(byte: u8) -> bool
    ensures { result ≡ true → IsPlainValType byte }
{
    match byte {
        0x7f => true,
        0x7e => true,
        0x7d => true,
        0x7c => true,
        0x7b => true,
        0x70 => true,
        0x6f => true,
        _ => false,
    }
}

/// Whether a value type that so many bytes spell is spelled by its text, and names no type.
#[inline(always)]
fn is_plain_text(ty: ValType, size: usize) -> bool
    ensures { result ≡ is_plain_text ty size }
{
    match ty {
        ValType::TypeRef { .. } => false,
        ValType::FuncRefNonNull | ValType::ExternRefNonNull => size == 2,
        _ => size == 1,
    }
}

/// Whether both are true, by no branch.
#[inline(always)]
fn both(a: bool, b: bool) -> bool
    ensures { result ≡ (a && b) }
{
    a && b
}
