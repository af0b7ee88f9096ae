//! The new indices of live items and of what is added, and operators under them.

ghost use Rattle.std.specs.Prelude.{◌≡◌, ◌+◌, ◌<◌, ◌^◌, ◌↔◌, map, IsTrue, IsSome, IfSome, IfOk, None};
ghost use Rattle.wc_read.specs.Operators.{immediates_value, instr_value};
ghost use Rattle.wc_read.specs.Renumbering.{renumber_block, renumber_func_type, renumber_global_type, renumber_immediates, renumber_index, renumber_instr, renumber_mem_arg, renumber_table_type, renumber_val_type};
ghost use Rattle.wc_read.specs.Types.{func_type_value};
ghost use Rattle.wc_gc.specs.Image.{renumber_locals};
ghost use Rattle.wc_gc.specs.Live.{has_item};
ghost use Rattle.wc_read.specs.declared.operators.Space.TheVariants.{Funcs, Types};
ghost use Rattle.wc_gc.specs.Counts.{AreDisjoint};
ghost use Rattle.wc_gc.specs.Ranks.{has_number, rank_of};
ghost use Rattle.wc_gc.specs.Private.PlainTypes.{names_no_type, names_no_types};
ghost use Rattle.std.specs.List.{list_all};

use crate::func_groups::FuncGroups;
use crate::live::{LiveSet, LiveSets};
use crate::ranks::Ranks;
use std::alloc::{AllocError, Global};
use wc_read::{
    BlockType, FuncType, GlobalType, Immediates, Index, IndexKind, Instr, Locals, MemArg, Space,
    TableType, ValType,
};

/// How many live items are below each index. Functions are in two groups.
#[derive(Debug, Drop)]
pub struct SpaceRanks {
    types: Ranks,
    imports: Ranks,
    defined: Ranks,
    tables: Ranks,
    memories: Ranks,
    globals: Ranks,
}

impl SpaceRanks {
    ghost use Rattle.wc_gc.specs.NewIndices.{AreRanksOf};

    /// Those of live items.
    pub fn new<L: LiveSet>(
        alloc: Global,
        live: &LiveSets<L>,
        groups: &FuncGroups<L>,
    ) -> Result<SpaceRanks, AllocError>
        ensures { IfOk result (AreRanksOf (has_item L.has live.now)
            (L.has groups.now.imports) (L.has groups.now.defined)) }
    {
        Ok(SpaceRanks {
            types: live.types.ranks(alloc)?,
            imports: groups.imports.ranks(alloc)?,
            defined: groups.defined.ranks(alloc)?,
            tables: live.tables.ranks(alloc)?,
            memories: live.memories.ranks(alloc)?,
            globals: live.globals.ranks(alloc)?,
        })
    }
}

/// How many types and functions an adapter has, and how many are added.
#[derive(Clone, Copy, Debug)]
pub struct Counts {
    pub types: u32,
    pub funcs: u32,
    pub added_types: u32,
    /// Functions that are added as imports.
    pub added_imports: u32,
    /// Functions that are added with code.
    pub added_funcs: u32,
}

/// The new index of each live item: how many items come before it. Functions are in this order: live imports, those
/// that are added, live defined functions, those that are added; types: live ones, those that are added. What is added
/// has the indices after the adapter's own, imports first.
#[derive(Debug, Drop)]
pub struct NewIndices {
    ranks: SpaceRanks,
    counts: Counts,
    /// How many types are live.
    live_types: u32,
    /// How many functions are live and imported.
    live_imports: u32,
    /// How many are live and defined.
    live_defined: u32,
    ghost types_counted: { live_types ≡ rank_of ranks.types counts.types },
    ghost imports_counted: { live_imports ≡ rank_of ranks.imports counts.funcs },
    ghost defined_counted: { live_defined ≡ rank_of ranks.defined counts.funcs },
    ghost disjoint: { AreDisjoint (has_number ranks.imports) (has_number ranks.defined) },
    ghost types_fit: { live_types + counts.added_types < 2 ^ 32 },
    ghost funcs_fit: { live_imports + live_defined + (counts.added_imports + counts.added_funcs)
        < 2 ^ 32 },
}

impl NewIndices {
    ghost use Rattle.wc_gc.specs.NewIndices.{HasRoom, new_added_func, new_func_index, new_of, new_old_func, new_type};

    /// Those of ranks; none, where there are 2^32 types or functions.
    pub fn new(ranks: SpaceRanks, counts: Counts) -> Option<NewIndices>
        requires { AreDisjoint (has_number ranks.imports) (has_number ranks.defined) }
        ensures some { IfSome result (λ n. (n.ranks ≡ ranks) × (n.counts ≡ counts)) }
        ensures none { result ≡ None → ¬ (HasRoom ranks counts) }
        ensures fits { IsSome result → HasRoom ranks counts }
    {
        let live_types = ranks.types.rank(counts.types);
        let live_imports = ranks.imports.rank(counts.funcs);
        let live_defined = ranks.defined.rank(counts.funcs);
        if !fits(live_types, 0, counts.added_types, 0)
            || !fits(
                live_imports,
                live_defined,
                counts.added_imports,
                counts.added_funcs,
            )
        {
            return None;
        }
        Some(NewIndices {
            ranks,
            counts,
            live_types,
            live_imports,
            live_defined,
        })
    }

    /// The new index of an item.
    #[tactic(auto, unfolding(crate::specs::NewIndices::new_of))]
    pub fn of(&self, space: Space, index: u32) -> u32
        ensures { result ≡ new_of self.now space index }
    {
        match space {
            Space::Types => self.ty(index),
            Space::Funcs => self.func(index),
            Space::Tables => self.ranks.tables.rank(index),
            Space::Memories => self.ranks.memories.rank(index),
            Space::Globals => self.ranks.globals.rank(index),
        }
    }

    fn ty(&self, index: u32) -> u32
        ensures { result ≡ new_type self.now index }
    {
        if index < self.counts.types {
            return self.ranks.types.rank(index);
        }
        self.added_type(index - self.counts.types)
    }

    /// The new index of a type that is added.
    #[tactic(auto, using(crate::proofs::NewIndexLemmas::added_type_is))]
    pub fn added_type(&self, position: u32) -> u32
        requires { self.now.live_types + position < 2 ^ 32 }
        ensures value { result ≡ self.now.live_types + position }
        ensures index { result ≡ new_of self.now Types (self.now.counts.types + position) }
    {
        self.live_types + position
    }

    fn func(&self, index: u32) -> u32
        ensures { result ≡ new_func_index self.now index }
    {
        if index < self.counts.funcs {
            return self.old_func(index);
        }
        self.added_func(index - self.counts.funcs)
    }

    fn old_func(&self, index: u32) -> u32
        requires { index < self.now.counts.funcs }
        ensures { result ≡ new_old_func self.now index }
    {
        if let Some(rank) = self.ranks.imports.rank_if(index) {
            return rank;
        }
        self.live_imports + self.counts.added_imports + self.ranks.defined.rank(index)
    }

    /// The new index of a function that is added.
    pub fn added_func(&self, position: u32) -> u32
        requires { self.now.live_imports + self.now.live_defined + position < 2 ^ 32 }
        ensures value { result ≡ new_added_func self.now position }
        ensures index { result ≡ new_of self.now Funcs (self.now.counts.funcs + position) }
    {
        if position < self.counts.added_imports {
            return self.live_imports + position;
        }
        self.live_imports + self.live_defined + position
    }

    /// An operator under the new indices.
    pub fn operator<'a>(&self, operator: Instr<'a>) -> Instr<'a>
        ensures { instr_value result
            ≡ renumber_instr (new_of self.now) (instr_value operator.entry) }
    {
        let immediates = self.immediates(operator.immediates);
        Instr {
            opcode: operator.opcode,
            immediates,
        }
    }

    fn immediates<'a>(&self, immediates: Immediates<'a>) -> Immediates<'a>
        ensures { immediates_value result
            ≡ renumber_immediates (new_of self.now) (immediates_value immediates.entry) }
    {
        match immediates {
            Immediates::Block(ty) => Immediates::Block(self.block_type(ty)),
            Immediates::Index(index) => Immediates::Index(self.index(index)),
            Immediates::Indices(first, second) => {
                Immediates::Indices(self.index(first), self.index(second))
            }
            Immediates::ValTypes(types) => Immediates::ValTypes(self.val_types(types)),
            Immediates::RefType(ty) => Immediates::RefType(self.val_type(ty)),
            Immediates::MemArg(address) => Immediates::MemArg(self.mem_arg(address)),
            Immediates::MemArgLane(address, lane) => {
                Immediates::MemArgLane(self.mem_arg(address), lane)
            }
            others => others,
        }
    }

    fn block_type(&self, ty: BlockType) -> BlockType
        ensures { result ≡ renumber_block (new_of self.now) ty }
    {
        match ty {
            BlockType::Empty => BlockType::Empty,
            BlockType::Value(ty) => BlockType::Value(self.val_type(ty)),
            BlockType::FuncType(index) => BlockType::FuncType(self.of(Space::Types, index)),
        }
    }

    /// A value type, and the type that it names under its new index.
    pub fn val_type(&self, ty: ValType) -> ValType
        ensures { result ≡ renumber_val_type (new_of self.now) ty }
    {
        match ty {
            ValType::TypeRef { nullable, index } => ValType::TypeRef {
                nullable,
                index: self.of(Space::Types, index),
            },
            others => others,
        }
    }

    fn val_types(&self, types: Vec<ValType>) -> Vec<ValType>
        ensures { result.items ≡ map (renumber_val_type (new_of self.now)) types.items }
    {
        let mut types = types;
        self.renumber(&mut types);
        types
    }

    /// Puts each value type's new index in place of its old one.
    fn renumber(&self, types: &mut [ValType])
        ensures { types.new ≡ map (renumber_val_type (new_of self.now)) types.old }
    {
        for ty in types.iter_mut() {
            *ty = self.val_type(*ty);
        }
    }

    /// Locals under the new indices.
    pub fn locals(&self, locals: Vec<Locals>) -> Vec<Locals>
        ensures { result.items ≡ map (renumber_locals (new_of self.now)) locals.items }
    {
        let mut locals = locals;
        self.renumber_runs(&mut locals);
        locals
    }

    /// Puts each run's new type in place of its old one.
    fn renumber_runs(&self, runs: &mut [Locals])
        ensures { runs.new ≡ map (renumber_locals (new_of self.now)) runs.old }
    {
        for run in runs.iter_mut() {
            *run = self.run(*run);
        }
    }

    fn run(&self, run: Locals) -> Locals
        ensures { result ≡ renumber_locals (new_of self.now) run }
    {
        Locals {
            count: run.count,
            ty: self.val_type(run.ty),
        }
    }

    /// A function type under the new indices, in new memory. Most name no types, and are copied.
    pub fn func_type(&self, alloc: Global, ty: &FuncType) -> Result<FuncType, AllocError>
        ensures { IfOk result (λ f. func_type_value f
            ≡ renumber_func_type (new_of self.now) (func_type_value ty.now)) }
    {
        if names_no_types(ty) {
            return ty.clone(alloc);
        }
        let params = self.val_types(Vec::from_slice(alloc, ty.params())?);
        let results = self.val_types(Vec::from_slice(alloc, ty.results())?);
        Ok(FuncType::new(params, results))
    }

    /// A table type under the new indices.
    pub fn table_type(&self, ty: TableType) -> TableType
        ensures { result ≡ renumber_table_type (new_of self.now) ty }
    {
        TableType {
            element_type: self.val_type(ty.element_type),
            table64: ty.table64,
            initial: ty.initial,
            maximum: ty.maximum,
        }
    }

    /// A global type under the new indices.
    pub fn global_type(&self, ty: GlobalType) -> GlobalType
        ensures { result ≡ renumber_global_type (new_of self.now) ty }
    {
        GlobalType {
            content_type: self.val_type(ty.content_type),
            mutable: ty.mutable,
        }
    }

    /// An index that an operator names, under the new indices.
    pub fn index(&self, index: Index) -> Index
        ensures { result ≡ renumber_index (new_of self.now) index }
    {
        match index.kind {
            IndexKind::In(space) => Index {
                kind: index.kind,
                number: self.of(space, index.number),
            },
            _ => index,
        }
    }

    fn mem_arg(&self, address: MemArg) -> MemArg
        ensures { result ≡ renumber_mem_arg (new_of self.now) address }
    {
        MemArg {
            align: address.align,
            memory: self.of(Space::Memories, address.memory),
            offset: address.offset,
        }
    }
}

/// Whether the parameters and results of a function type name no types.
fn names_no_types(ty: &FuncType) -> bool
    ensures { result ≡ names_no_types (func_type_value ty.now) }
{
    name_no_types(ty.params()) && name_no_types(ty.results())
}

/// Whether value types name no types.
fn name_no_types(types: &[ValType]) -> bool
    ensures { result ≡ list_all names_no_type types.now }
{
    types.iter().all(|ty| names_no_type(*ty))
}

/// Whether a value type names no type.
fn names_no_type(ty: ValType) -> bool
    ensures { result ≡ names_no_type ty }
{
    match ty {
        ValType::TypeRef { .. } => false,
        _ => true,
    }
}

/// Whether four counts add up to a number of 32 bits.
fn fits(a: u32, b: u32, c: u32, d: u32) -> bool
    ensures { IsTrue result ↔ (a + b + (c + d) < 2 ^ 32) }
{
    u64::from(a) + u64::from(b) + (u64::from(c) + u64::from(d)) <= u64::from(u32::MAX)
}
