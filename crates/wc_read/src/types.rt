//! The types of core modules (WebAssembly core specification, 2.3 "Types" and 2.5.11 "Imports"), and the reading of
//! value types and of types of globals.

ghost use Rattle.std.specs.Prelude.{◌≡◌, ◌≢◌, ◌-◌, ◌^◌, ◌<◌, ◌≤◌};
ghost use Rattle.wc_read.specs.Limits.{page_size_log2_of};
ghost use Rattle.wc_read.specs.Reading.Reader.{Gives, GivesWithoutMemory, vector_at};
ghost use Rattle.wc_read.specs.Types.{func_ref, extern_ref, is_reference};
ghost use Rattle.wc_read.specs.Reading.Types.{type_index_at, reference_at, val_type_at, mutable_at, global_at};
ghost use Rattle.wc_read.specs.declared.types.ValType.{ValType as val_type};

use crate::codes::{NON_NULLABLE, NULLABLE};
use crate::fault::ReadFault;
use crate::reader::{Reader, Spelled};
use crate::short_types::ShortTypes;
use std::alloc::{AllocError, Global};
use std::fmt::{self, Debug, Formatter};
use std::rc::Rc;

/// A value type (2.3.1 to 2.3.4, and the proposal of typed function references): a number of 32 or 64 bits, a
/// vector of 128 bits, or a reference. References to functions are of any type or of one, by its index among the
/// module's types; null is among them or not.
#[derive(Clone, Copy, Debug, PartialEq, Eq)]
pub enum ValType {
    I32,
    I64,
    F32,
    F64,
    V128,
    /// A function of any type, or null.
    FuncRef,
    /// A value of the host, or null.
    ExternRef,
    /// A function of any type.
    FuncRefNonNull,
    /// A value of the host.
    ExternRefNonNull,
    /// A function of a type, by its index; null too where `nullable`.
    TypeRef { nullable: bool, index: u32 },
}

/// A memory type (2.3.8, and the proposals memory64, threads and custom page sizes). `initial` and `maximum` count
/// pages, of 2 to `page_size_log2` bytes each, or of 65536 where no exponent is given.
///
/// In a module that was read, no maximum is below the minimum, a shared memory has a maximum, and minimum and maximum
/// of a memory that is not 64-bit have 2^32 bytes at most.
#[derive(Clone, Copy, Debug, PartialEq, Eq)]
pub struct MemoryType {
    /// Whether addresses have 64 bits; else they have 32.
    pub memory64: bool,
    /// Whether threads share it.
    pub shared: bool,
    /// The minimum, in pages.
    pub initial: u64,
    /// The maximum, in pages; `None` where there is none.
    pub maximum: Option<u64>,
    /// The exponent of a page's bytes, 0 or 16 in a module that was read; `None` means 16.
    pub page_size_log2: Option<u32>,
}

/// The exponent of a page's bytes, where a memory type gives none.
pub const DEFAULT_PAGE_SIZE_LOG2: u32 = 16;

impl MemoryType {
    /// The bytes in a page (proposal custom page sizes): 2 to the exponent, 65536 where none is given. An exponent past
    /// 63, which no module spells, gives `u64::MAX`.
    pub fn page_size(&self) -> u64
        ensures page_size_log2 { page_size_log2_of self.now.page_size_log2 < 64
            → result ≡ 2 ^ page_size_log2_of self.now.page_size_log2 }
        ensures past { 64 ≤ page_size_log2_of self.now.page_size_log2 → result ≡ 2 ^ 64 - 1 }
    {
        let page_size_log2 = self.page_size_log2.unwrap_or(DEFAULT_PAGE_SIZE_LOG2);
        if page_size_log2 < u64::BITS {
            1 << page_size_log2
        } else {
            u64::MAX
        }
    }
}

/// A table type (2.3.9, and the proposal memory64). `initial` and `maximum` count elements.
///
/// In a module that was read, no maximum is below the minimum, and both are below 2^32 where the table is not 64-bit.
#[derive(Clone, Copy, Debug, PartialEq, Eq)]
pub struct TableType {
    /// The type of the elements: a reference type in a module that was read.
    pub element_type: ValType,
    /// Whether indices of elements have 64 bits; else they have 32.
    pub table64: bool,
    /// The minimum, in elements.
    pub initial: u64,
    /// The maximum, in elements; `None` where there is none.
    pub maximum: Option<u64>,
}

/// A global type (2.3.10): the type of the global's value, and whether it can be written.
#[derive(Clone, Copy, Debug, PartialEq, Eq)]
pub struct GlobalType {
    pub content_type: ValType,
    pub mutable: bool,
}

/// The type of an import (2.3.11 and 2.5.11): of a function the index of its type among the module's types, of another
/// item its own type.
#[derive(Clone, Copy, Debug, PartialEq, Eq)]
pub enum ImportType {
    Func(u32),
    Table(TableType),
    Memory(MemoryType),
    Global(GlobalType),
}

/// An import (2.5.11). Both names are slices of the bytes that it was read from.
#[derive(Clone, Copy, Debug, PartialEq, Eq)]
pub struct Import<'a> {
    /// The name of the module that it comes from.
    pub module: &'a str,
    /// The name of the import in that module.
    pub name: &'a str,
    pub ty: ImportType,
}

/// A function type (2.3.6): a function's parameters and results. Copies of a type that was read share them.
#[derive(Drop)]
pub struct FuncType {
    types: FuncTypes,
}

/// The types of parameters and results. Most are few, which take no memory of their own.
#[derive(Drop)]
enum FuncTypes {
    Short(ShortTypes),
    /// More than `Short` holds.
    Long(LongTypes),
    /// More than `Short` holds, for a type and its copies.
    Shared(Rc<LongTypes>),
}

/// The types of any parameters and results.
#[derive(Drop)]
struct LongTypes {
    params: Vec<ValType>,
    results: Vec<ValType>,
}

impl FuncType {
    ghost use Rattle.std.specs.Prelude.{IfOk};
    ghost use Rattle.wc_read.specs.Types.{func_type_value};

    /// The type of functions with these parameters and results (2.3.6).
    pub fn new(params: Vec<ValType>, results: Vec<ValType>) -> FuncType
        ensures params { (func_type_value result).params ≡ params.items }
        ensures results { (func_type_value result).results ≡ results.items }
    {
        match ShortTypes::of(&params, &results) {
            Some(types) => FuncType::of_short(types),
            None => FuncType {
                types: FuncTypes::Long(LongTypes { params, results }),
            },
        }
    }

    /// The type of functions with these parameters and results (2.3.6). Copies of it share them.
    ///
    /// # Errors
    ///
    /// `AllocError`: an allocation failed.
    pub(crate) fn shared(
        alloc: Global,
        params: Vec<ValType>,
        results: Vec<ValType>,
    ) -> Result<FuncType, AllocError>
        ensures params { IfOk result (λ f. (func_type_value f).params ≡ params.items) }
        ensures results { IfOk result (λ f. (func_type_value f).results ≡ results.items) }
    {
        let types = Rc::new(alloc, LongTypes { params, results })?;
        Ok(FuncType {
            types: FuncTypes::Shared(types),
        })
    }

    /// The type of functions with few parameters and results.
    pub(crate) fn of_short(types: ShortTypes) -> FuncType
        ensures { result.types ≡ FuncTypes.Short types }
    {
        FuncType {
            types: FuncTypes::Short(types),
        }
    }

    /// The types of the parameters, in order (2.3.6).
    pub fn params(&self) -> &[ValType]
        ensures { result.now ≡ (func_type_value self.now).params }
    {
        match &self.types {
            FuncTypes::Short(types) => types.params(),
            FuncTypes::Long(types) => types.params.as_slice(),
            FuncTypes::Shared(types) => types.params.as_slice(),
        }
    }

    /// The types of the results, in order (2.3.6).
    pub fn results(&self) -> &[ValType]
        ensures { result.now ≡ (func_type_value self.now).results }
    {
        match &self.types {
            FuncTypes::Short(types) => types.results(),
            FuncTypes::Long(types) => types.results.as_slice(),
            FuncTypes::Shared(types) => types.results.as_slice(),
        }
    }

    /// A copy of this function type.
    ///
    /// # Errors
    ///
    /// `AllocError`: an allocation failed.
    pub fn clone(&self, alloc: Global) -> Result<FuncType, AllocError>
        ensures { IfOk result (λ f. func_type_value f ≡ func_type_value self.now) }
    {
        match &self.types {
            FuncTypes::Short(types) => Ok(FuncType::of_short(*types)),
            FuncTypes::Long(types) => {
                let params = Vec::from_slice(alloc, &types.params)?;
                let results = Vec::from_slice(alloc, &types.results)?;
                FuncType::shared(alloc, params, results)
            }
            FuncTypes::Shared(types) => Ok(FuncType {
                types: FuncTypes::Shared(types.clone()?),
            }),
        }
    }
}

impl PartialEq for FuncType {
    ghost use Rattle.std.specs.Cmp.{and_per, on_per};
    ghost use Rattle.std.specs.Ordering.{eq_of_both, on};
    ghost use Rattle.std.specs.Cmp.Lexicographic.{lists_per, pointwise};
    ghost use Rattle.wc_read.specs.Types.{params_of, results_of};
    ghost use Rattle.wc_read.specs.contracts.types.ValTypePartialEq.TheImpl.{eq-value as val_eq};
    ghost use Rattle.wc_read.specs.contracts.types.ValTypePartialEq.TheImpl.Laws.{laws-law};

    ghost eq = { eq_of_both (on params_of (pointwise val_eq.it)) (on results_of (pointwise val_eq.it)) };

    ghost laws = { and_per (on_per params_of (lists_per laws-law)) (on_per results_of (lists_per laws-law)) };

    fn eq(&self, other: &FuncType) -> bool {
        self.params() == other.params() && self.results() == other.results()
    }
}

impl Eq for FuncType {
    ghost use Rattle.std.specs.Cmp.{and_equiv, on_equiv};
    ghost use Rattle.std.specs.Cmp.Lexicographic.{lists_equiv};
    ghost use Rattle.wc_read.specs.Types.{params_of, results_of};
    ghost use Rattle.wc_read.specs.contracts.types.ValTypeEq.TheImpl.Laws.{laws-law};

    ghost laws = { and_equiv (on_equiv params_of (lists_equiv laws-law)) (on_equiv results_of (lists_equiv laws-law)) };
}

impl Debug for FuncType {
    fn fmt<W: fmt::Write>(&self, f: &mut Formatter<W>) -> fmt::Result {
        f.debug_struct("FuncType")
            .field("params", &self.params())
            .field("results", &self.results())
            .finish()
    }
}

/// Whether a type is a reference type.
pub fn is_reference(ty: ValType) -> bool
    ensures { result ≡ is_reference ty }
{
    match ty {
        ValType::I32 | ValType::I64 | ValType::F32 | ValType::F64 | ValType::V128 => false,
        ValType::FuncRef
        | ValType::ExternRef
        | ValType::FuncRefNonNull
        | ValType::ExternRefNonNull
        | ValType::TypeRef { .. } => true,
    }
}

/// References to functions of any type.
fn func_ref(nullable: bool) -> ValType
    ensures { result ≡ func_ref nullable }
{
    if nullable {
        ValType::FuncRef
    } else {
        ValType::FuncRefNonNull
    }
}

/// References to values of the host.
fn extern_ref(nullable: bool) -> ValType
    ensures { result ≡ extern_ref nullable }
{
    if nullable {
        ValType::ExternRef
    } else {
        ValType::ExternRefNonNull
    }
}

impl<'a> Reader<'a> {
    /// A value type.
    #[tactic(auto, unfolding(crate::specs::Reading::Types::val_type_at))]
    pub fn val_type(&mut self) -> Result<ValType, ReadFault>
        ensures { GivesWithoutMemory (λ x. x) result self.new.rest.now
            (val_type_at self.old.rest.now) }
    {
        match self.byte()? {
            0x7f => Ok(ValType::I32),
            0x7e => Ok(ValType::I64),
            0x7d => Ok(ValType::F32),
            0x7c => Ok(ValType::F64),
            0x7b => Ok(ValType::V128),
            0x70 => Ok(ValType::FuncRef),
            0x6f => Ok(ValType::ExternRef),
            NULLABLE => self.reference(true),
            NON_NULLABLE => self.reference(false),
            _ => Err(ReadFault::BadType),
        }
    }

    /// The rest of a reference type: its heap type, after the byte that says whether null is among its values.
    #[inline(never)]
    #[tactic(auto, unfolding(crate::specs::Reading::Types::reference_at))]
    pub fn reference(&mut self, nullable: bool) -> Result<ValType, ReadFault>
        ensures { GivesWithoutMemory (λ x. x) result self.new.rest.now
            (reference_at nullable self.old.rest.now) }
    {
        match Reader::new(self.rest).byte()? {
            0x70 => {
                self.byte()?;
                Ok(func_ref(nullable))
            }
            0x6f => {
                self.byte()?;
                Ok(extern_ref(nullable))
            }
            _ => {
                let index = self.type_index(ReadFault::BadType)?;
                Ok(ValType::TypeRef { nullable, index })
            }
        }
    }

    /// The index of a type, as a signed number of 33 bits; the fault `negative` where it is below 0.
    #[tactic(auto, unfolding(crate::specs::Reading::Types::type_index_at))]
    pub fn type_index(&mut self, negative: ReadFault) -> Result<u32, ReadFault>
        requires no_memory { negative ≢ ReadFault.Memory }
        requires no_component { negative ≢ ReadFault.Component }
        ensures { GivesWithoutMemory (λ x. x) result self.new.rest.now
            (type_index_at self.old.rest.now) }
    {
        let index = self.signed(33)?;
        if index < 0 {
            return Err(negative);
        }
        Ok(index as u32)
    }

    /// Whether a global is mutable.
    #[tactic(auto, unfolding(crate::specs::Reading::Types::mutable_at))]
    fn mutable(&mut self) -> Result<bool, ReadFault>
        ensures { GivesWithoutMemory (λ x. x) result self.new.rest.now
            (mutable_at self.old.rest.now) }
    {
        match self.byte()? {
            0 => Ok(false),
            1 => Ok(true),
            _ => Err(ReadFault::BadType),
        }
    }

    /// A global type.
    #[tactic(auto, unfolding(crate::specs::Reading::Types::global_at))]
    pub fn global(&mut self) -> Result<GlobalType, ReadFault>
        ensures { GivesWithoutMemory (λ x. x) result self.new.rest.now
            (global_at self.old.rest.now) }
    {
        let content_type = self.val_type()?;
        let mutable = self.mutable()?;
        Ok(GlobalType {
            content_type,
            mutable,
        })
    }

    /// A vector of value types.
    pub fn val_types(&mut self, alloc: Global) -> Result<Vec<ValType>, ReadFault>
        ensures { Gives (λ v. v.items) result self.new.rest.now
            (vector_at val_type_at self.old.rest.now) }
    {
        self.vector::<ValType>(alloc)
    }
}

impl<'a> Spelled<'a> for ValType {
    ghost Value = { val_type };

    ghost view = { λ t. t };

    ghost read = { val_type_at };

    fn read_from(_alloc: Global, reader: &mut Reader<'a>) -> Result<ValType, ReadFault> {
        reader.val_type()
    }
}
