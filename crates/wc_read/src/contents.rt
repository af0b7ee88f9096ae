//! The contents of sections.

ghost use Rattle.std.specs.Prelude.{◌≡◌, ◌≤◌, ℕ, List, Some, map, IfSome};
ghost use Rattle.wc_read.specs.Reading.Reader.{Gives, GivesWithoutMemory, number_at, vector_at, Answers, AnswersWithoutMemory, read_all};
ghost use Rattle.wc_read.specs.Types.{FuncTypeValue, func_type_value};
ghost use Rattle.wc_read.specs.Reading.Contents.{func_type_at, size_prefixed_at};
ghost use Rattle.wc_read.specs.Private.ShortTypes.{HasRead};

use crate::codes::FUNC_TYPE;
use crate::fault::ReadFault;
use crate::reader::{Reader, Spelled};
use crate::short_types::{SHORT, ShortTypes};
use crate::types::{FuncType, ValType};
use std::alloc::Global;

impl<'a> Reader<'a> {
    #[tactic(auto, unfolding(crate::specs::Reading::Contents::size_prefixed_at))]
    fn size_prefixed(&mut self) -> Result<&'a [u8], ReadFault>
        ensures { GivesWithoutMemory (λ x. x.now) result self.new.rest.now
            (size_prefixed_at self.old.rest.now) }
    {
        let size = self.u32()?;
        self.bytes(size as usize)
    }

    /// A function type. Most have few types.
    fn func_type(&mut self, alloc: Global) -> Result<FuncType, ReadFault>
        ensures { Gives (λ f. func_type_value f) result self.new.rest.now
            (func_type_at self.old.rest.now) }
    {
        let mut reader = Reader::new(self.rest);
        match reader.short_func_type() {
            Some(ty) => {
                self.rest = reader.rest;
                Ok(ty)
            }
            None => self.long_func_type(alloc),
        }
    }

    /// A function type with few types, if one is next.
    fn short_func_type(&mut self) -> Option<FuncType>
        ensures { IfSome result (λ f. func_type_at self.old.rest.now
            ≡ Some (func_type_value f, self.new.rest.now)) }
    {
        let (code, rest) = self.rest.split_first()?;
        if *code != FUNC_TYPE {
            return None;
        }
        self.rest = rest;
        let mut types = [ValType::I32; SHORT];
        let params = self.short_val_types(&mut types, 0)?;
        let results = self.short_val_types(&mut types, params)?;
        Some(FuncType::of_short(ShortTypes {
            types,
            params,
            results,
        }))
    }

    /// How many value types there are in a vector, which are put into the places from one on, if there is room.
    fn short_val_types(&mut self, types: &mut [ValType; SHORT], from: usize) -> Option<usize>
        requires { from ≤ 4 }
        ensures { IfSome result (HasRead from self.old.rest.now self.new.rest.now
            types.old types.new) }
    {
        let Ok(count) = self.u32() else {
            return None;
        };
        let count = count as usize;
        if count > SHORT - from {
            return None;
        }
        for index in 0..count {
            let Ok(ty) = self.val_type() else {
                return None;
            };
            types[from + index] = ty;
        }
        Some(count)
    }

    /// A function type with any types.
    #[inline(never)]
    #[tactic(auto, unfolding(crate::specs::Reading::Contents::func_type_at))]
    fn long_func_type(&mut self, alloc: Global) -> Result<FuncType, ReadFault>
        ensures { Gives (λ f. func_type_value f) result self.new.rest.now
            (func_type_at self.old.rest.now) }
    {
        if self.byte()? != FUNC_TYPE {
            return Err(ReadFault::BadType);
        }
        let params = self.val_types(alloc)?;
        let results = self.val_types(alloc)?;
        Ok(FuncType::shared(alloc, params, results)?)
    }
}

impl<'a> Spelled<'a> for FuncType {
    ghost Value = { FuncTypeValue };

    ghost view = { λ f. func_type_value f };

    ghost read = { func_type_at };

    fn read_from(alloc: Global, reader: &mut Reader<'a>) -> Result<FuncType, ReadFault> {
        reader.func_type(alloc)
    }
}

impl<'a> Spelled<'a> for &'a [u8] {
    ghost Value = { List ℕ };

    ghost view = { λ b. b.now };

    ghost read = { size_prefixed_at };

    fn read_from(_alloc: Global, reader: &mut Reader<'a>) -> Result<&'a [u8], ReadFault> {
        reader.size_prefixed()
    }
}

/// The items of a section that holds a vector, up to the end of its content.
#[tactic(auto, unfolding(crate::specs::Reading::Reader::read_all))]
pub fn items<'a, T: Spelled<'a> + Drop>(
    alloc: Global,
    content: &'a [u8],
) -> Result<Vec<T>, ReadFault>
    ensures { Answers (λ v. map T.view v.items) result (read_all (vector_at T.read) content.now) }
{
    let mut reader = Reader::new(content);
    let items = reader.vector::<T>(alloc)?;
    if !reader.rest.is_empty() {
        return Err(ReadFault::SectionSize);
    }
    Ok(items)
}

/// The function that a start section names (5.5.11).
#[tactic(auto, unfolding(crate::specs::Reading::Reader::read_all))]
pub fn start(content: &[u8]) -> Result<u32, ReadFault>
    ensures { AnswersWithoutMemory (λ n. n) result (read_all (number_at 32) content.now) }
{
    let mut reader = Reader::new(content);
    let index = reader.u32()?;
    if !reader.rest.is_empty() {
        return Err(ReadFault::SectionSize);
    }
    Ok(index)
}
