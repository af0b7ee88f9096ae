//! The search for the items that exports reach.

ghost use Rattle.std.specs.Prelude.{◌≡◌, ◌⊎◌, ◌&&◌, not, [], ◌∷◌, All, true, false, is_some, IsTrue, None, IsOk, IfOk, IfErr, IfSome, OnOk, ◌↔◌, ◌<◌, ◌≤◌};
ghost use Rattle.std.specs.List.{list_all};
ghost use Rattle.std.specs.Option.{option_map, option_to_list};
ghost use Rattle.wc_read.specs.Bodies.{local_types};
ghost use Rattle.wc_read.specs.Operators.{instr_value};
ghost use Rattle.wc_read.specs.declared.operators.Space.TheVariants.{Funcs, Memories};
ghost use Rattle.wc_read.specs.References.{is_segment, reference, type_reference, type_refs_of};
ghost use Rattle.wc_read.specs.Types.{func_type_value};
ghost use Rattle.wc_read.specs.InitOperators.{init_bytes_left, init_left};
ghost use Rattle.wc_read.specs.BodyOperators.{body_in, body_of, bytes_left, init_in, KeepsLocals, locals_read, next_and_left, operators_left};
ghost use Rattle.wc_read.specs.Decoded.{ItemIndex, decoded_module, func_code, global_code, is_in};
ghost use Rattle.wc_read.specs.Entries.{body_refs, func_refs, func_type_refs, global_refs, init_refs, instr_refs, present, refs_in, refs_list, type_items, val_type_refs};
ghost use Rattle.wc_graph.specs.Reached.{IsReachedFrom};
ghost use Rattle.wc_gc.specs.Private.BodyCuts.{IsCutIfKept, IsFuncCutIfKept, Passes};
ghost use Rattle.wc_gc.specs.Private.KeptBodies.{KeepsCuts};
ghost use Rattle.wc_gc.specs.Private.Search.{FindsItems, IsConsistent, PassesKnown, finds};
ghost use Rattle.wc_gc.specs.InRange.{is_body_in_range, is_def_in_range, is_item_in_range, is_operator_in_range};
ghost use Rattle.wc_gc.specs.LiveItems.{IsCount};
ghost use Rattle.wc_gc.specs.Private.TrimPlace.{IsStop};

use crate::body_cuts::{BodyCut, BodyCuts};
use crate::fault::GcFault;
use crate::live::{LiveSet, LiveSets};
use std::alloc::{AllocError, Global};
use wc_read::{
    Def, Func, FuncType, Global as ModuleGlobal, Immediates, Index, IndexKind, InitOperators,
    Instr, Locals, Module, Operators, ReadFault, Refs, Space, TableType, ValType, init_index,
    is_init, names_segment, refs,
};

/// The items found so far: as sets, and in the order in which they were found.
#[derive(Drop)]
pub struct Search<L> {
    pub live: LiveSets<L>,
    pub order: Vec<(Space, u32)>,
}

/// Why a search for live items stopped.
#[derive(Clone, Copy)]
pub enum Stop {
    /// An allocation failed.
    Memory,
    /// The body of the function of this index is no code, or names a segment or an index that is out of range.
    Body(u32),
}

impl From<AllocError> for Stop {
    ghost use Rattle.wc_gc.specs.declared.search.Stop.TheVariants.{Memory};

    ghost from_gives = { λ _ s. s ≡ Memory };

    fn from(_e: AllocError) -> Stop {
        Stop::Memory
    }
}

impl<L: LiveSet> Search<L> {
    /// A search that has found nothing.
    pub fn new(alloc: Global) -> Search<L>
        ensures consistent { IsConsistent L.has result }
        ensures none { result.order.items ≡ [] }
    {
        Search {
            live: LiveSets::new(alloc),
            order: Vec::new(alloc),
        }
    }

    /// Finds an item.
    pub fn reach(&mut self, item: (Space, u32)) -> Result<(), AllocError>
        ensures { OnOk result (FindsItems L.has self.old self.new (item ∷ [])) }
    {
        if self.live.insert(item)? {
            self.order.push(item)?;
        }
        Ok(())
    }

    /// Finds an item, at once if it was found before.
    #[inline(always)]
    fn reach_again(&mut self, item: (Space, u32)) -> Result<(), AllocError>
        ensures { OnOk result (FindsItems L.has self.old self.new (item ∷ [])) }
    {
        if self.live.contains(item) {
            Ok(())
        } else {
            self.reach(item)
        }
    }

    /// Finds an item if the adapter has it, and returns whether it has.
    fn reach_present(
        &mut self,
        adapter: &Module<'_>,
        item: (Space, u32),
    ) -> Result<bool, AllocError>
        ensures found { OnOk result
            (FindsItems L.has self.old self.new (present (decoded_module adapter.now)
            (item ∷ []))) }
        ensures there { IfOk result (λ there. there ≡ is_in (decoded_module adapter.now) item) }
    {
        let there = has_item(adapter, item);
        if there {
            self.reach_again(item)?;
        }
        Ok(there)
    }

    /// Finds a function if the adapter has it, and returns whether it has: most operators that name an item are
    /// calls.
    #[inline(always)]
    fn reach_called(&mut self, adapter: &Module<'_>, number: u32) -> Result<bool, AllocError>
        ensures found { OnOk result (FindsItems L.has self.old self.new
            (present (decoded_module adapter.now) ((Funcs, number) ∷ []))) }
        ensures there { IfOk result
            (λ there. there ≡ is_in (decoded_module adapter.now) (Funcs, number)) }
    {
        let item = (Space::Funcs, number);
        let there = has_item(adapter, item);
        if there {
            self.reach_again(item)?;
        }
        Ok(there)
    }

    /// Finds an item that an operator names, and answers whether the adapter has it.
    fn reach_named(
        &mut self,
        adapter: &Module<'_>,
        item: Option<(Space, u32)>,
    ) -> Result<bool, AllocError>
        ensures found { OnOk result (FindsItems L.has self.old self.new
            (present (decoded_module adapter.now) (option_to_list item))) }
        ensures there { IfOk result (λ there. there
            ≡ list_all (is_in (decoded_module adapter.now)) (option_to_list item)) }
    {
        match item {
            Some(item) => self.reach_present(adapter, item),
            None => Ok(true),
        }
    }

    /// Finds the type that a value type names, and answers whether the adapter has it.
    fn reach_type(&mut self, adapter: &Module<'_>, ty: ValType) -> Result<bool, AllocError>
        ensures found { OnOk result (FindsItems L.has self.old self.new
            (present (decoded_module adapter.now) (option_to_list (type_reference ty)))) }
        ensures there { IfOk result (λ there. there ≡ list_all
            (is_in (decoded_module adapter.now)) (option_to_list (type_reference ty))) }
    {
        match ty {
            ValType::TypeRef { index, .. } => self.reach_present(adapter, (Space::Types, index)),
            _ => Ok(true),
        }
    }

    /// Finds the types that value types name, and answers whether the adapter has them all.
    fn reach_types(&mut self, adapter: &Module<'_>, types: &[ValType]) -> Result<bool, AllocError>
        ensures found { OnOk result (FindsItems L.has self.old self.new
            (present (decoded_module adapter.now) (val_type_refs types.now))) }
        ensures there { IfOk result (λ there. there
            ≡ list_all (is_in (decoded_module adapter.now)) (val_type_refs types.now)) }
    {
        let mut there = true;
        for ty in types {
            there &= self.reach_type(adapter, *ty)?;
        }
        Ok(there)
    }

    /// Finds the types that the types of a `select` name, and answers whether the adapter has them all.
    #[inline(always)]
    fn reach_select(&mut self, adapter: &Module<'_>, instr: &Instr<'_>) -> Result<bool, AllocError>
        ensures found { OnOk result (FindsItems L.has self.old self.new (present
            (decoded_module adapter.now)
            (type_items (type_refs_of (instr_value instr.now).immediates)))) }
        ensures there { IfOk result (λ there. there
            ≡ list_all (is_in (decoded_module adapter.now))
            (type_items (type_refs_of (instr_value instr.now).immediates))) }
    {
        match &instr.immediates {
            Immediates::ValTypes(types) => self.reach_types(adapter, types),
            _ => Ok(true),
        }
    }

    /// Finds the items that references name, and answers whether the adapter has them all.
    fn reach_refs(&mut self, adapter: &Module<'_>, named: Refs) -> Result<bool, AllocError>
        ensures found { OnOk result (FindsItems L.has self.old self.new
            (present (decoded_module adapter.now) (refs_list named))) }
        ensures there { IfOk result (λ there. there
            ≡ list_all (is_in (decoded_module adapter.now)) (refs_list named)) }
    {
        let first = self.reach_named(adapter, named.first)?;
        let second = self.reach_named(adapter, named.second)?;
        Ok(first && second)
    }

    /// Finds the items that an operator names, and answers whether it names items of the adapter
    /// alone.
    pub fn reach_operator(
        &mut self,
        adapter: &Module<'_>,
        instr: &Instr<'_>,
    ) -> Result<bool, AllocError>
        ensures found { OnOk result (FindsItems L.has self.old self.new
            (present (decoded_module adapter.now) (instr_refs (instr_value instr.now)))) }
        ensures in_range { IfOk result (λ in_range. in_range
            ≡ is_operator_in_range (decoded_module adapter.now) (instr_value instr.now)) }
    {
        match &instr.immediates {
            Immediates::Index(index) => self.reach_index(adapter, *index),
            _ => self.reach_others(adapter, instr),
        }
    }

    /// Finds the item that an index names. Returns whether the index names an item of the adapter, or neither an item
    /// nor a segment.
    #[inline(always)]
    fn reach_index(&mut self, adapter: &Module<'_>, index: Index) -> Result<bool, AllocError>
        ensures found { OnOk result (FindsItems L.has self.old self.new
            (present (decoded_module adapter.now) (option_to_list (reference index)))) }
        ensures in_range { IfOk result (λ in_range. in_range ≡ (list_all
            (is_in (decoded_module adapter.now)) (option_to_list (reference index))
            && not (is_segment index.kind))) }
    {
        match index.kind {
            IndexKind::In(Space::Funcs) => self.reach_called(adapter, index.number),
            IndexKind::In(space) => self.reach_present(adapter, (space, index.number)),
            IndexKind::Elem => Ok(false),
            IndexKind::Data => Ok(false),
            IndexKind::Local => Ok(true),
            IndexKind::Label => Ok(true),
        }
    }

    /// Finds the items that an operator of any shape names, as `reach_operator` does.
    #[inline(never)]
    fn reach_others(&mut self, adapter: &Module<'_>, instr: &Instr<'_>) -> Result<bool, AllocError>
        ensures found { OnOk result (FindsItems L.has self.old self.new
            (present (decoded_module adapter.now) (instr_refs (instr_value instr.now)))) }
        ensures in_range { IfOk result (λ in_range. in_range
            ≡ is_operator_in_range (decoded_module adapter.now) (instr_value instr.now)) }
    {
        let types = self.reach_select(adapter, instr)?;
        let items = self.reach_refs(adapter, refs(instr))?;
        Ok(types && items && !names_segment(instr))
    }

    /// The next operator of a body that may name an item that was not found. Operators that name nothing are skipped,
    /// and once memory 0 is found, so are operators that name only memory 0. The skipped bytes are the run of the
    /// cut.
    #[inline(always)]
    fn next_unknown<'a>(
        &self,
        alloc: Global,
        adapter: &Module<'_>,
        operators: &mut Operators<'a>,
        cut: &mut BodyCut<'a>,
    ) -> Result<Option<Instr<'a>>, GcFault>
        ensures found { IfOk result (λ i. PassesKnown L.has (decoded_module adapter.now) self.now
            (operators_left operators.old)
            (next_and_left (option_map instr_value i) (operators_left operators.new))) }
        ensures cut { IfOk result (λ i. Passes cut.old cut.new (operators_left operators.old)
            (next_and_left (option_map instr_value i) (operators_left operators.new))) }
        ensures shorter { IfOk result (λ i.
            IfSome i (λ _. bytes_left operators.new < bytes_left operators.old)) }
        ensures fault { IfErr result (λ f. (f ≡ GcFault.Memory)
            ⊎ ((f ≡ GcFault.LiveBody) × (operators_left operators.old ≡ None))) }
    {
        self.pass_known(adapter, operators, cut);
        if operators.is_done() {
            return Ok(None);
        }
        match operators.next(alloc) {
            Ok(next) => Ok(next),
            Err(ReadFault::Memory) => Err(GcFault::Memory),
            Err(_) => Err(GcFault::LiveBody),
        }
    }

    /// Goes past operators that name no item that was not found.
    #[inline(always)]
    fn pass_known<'a>(
        &self,
        adapter: &Module<'_>,
        operators: &mut Operators<'a>,
        cut: &mut BodyCut<'a>,
    )
        ensures passed { PassesKnown L.has (decoded_module adapter.now) self.now
            (operators_left operators.old) (operators_left operators.new) }
        ensures cut { Passes cut.old cut.new
            (operators_left operators.old) (operators_left operators.new) }
        ensures not_longer { bytes_left operators.new ≤ bytes_left operators.old }
    {
        if operators.begins_run() {
            cut.run = operators.pass(self.has_memory(adapter));
        }
    }

    /// Whether memory 0 is the adapter's and was found.
    #[inline(always)]
    fn has_memory(&self, adapter: &Module<'_>) -> bool
        ensures { result ≡ true → (finds L.has self.now (Memories, 0) ≡ true)
            × (is_in (decoded_module adapter.now) (Memories, 0) ≡ true) }
    {
        let memory = (Space::Memories, 0);
        self.live.contains(memory) && has_item(adapter, memory)
    }

    /// Finds the types that the locals of a body name, and answers whether the adapter has them all.
    #[inline(always)]
    fn reach_locals(
        &mut self,
        alloc: Global,
        adapter: &Module<'_>,
        operators: &Operators<'_>,
    ) -> Result<bool, AllocError>
        requires { KeepsLocals operators.now }
        ensures found { OnOk result (FindsItems L.has self.old self.new
            (present (decoded_module adapter.now)
            (val_type_refs (local_types (locals_read operators.now))))) }
        ensures there { IfOk result (λ there. there ≡ list_all
            (is_in (decoded_module adapter.now))
            (val_type_refs (local_types (locals_read operators.now)))) }
    {
        match operators.shortest_locals() {
            Some(_) => Ok(true),
            None => {
                let locals = operators.locals(alloc)?;
                self.reach_runs(adapter, &locals)
            }
        }
    }

    /// Finds the types that runs of locals name, and answers whether the adapter has them all.
    fn reach_runs(&mut self, adapter: &Module<'_>, runs: &[Locals]) -> Result<bool, AllocError>
        ensures found { OnOk result (FindsItems L.has self.old self.new
            (present (decoded_module adapter.now) (val_type_refs (local_types runs.now)))) }
        ensures there { IfOk result (λ there. there ≡ list_all
            (is_in (decoded_module adapter.now)) (val_type_refs (local_types runs.now))) }
    {
        let mut there = true;
        for run in runs {
            there &= self.reach_type(adapter, run.ty)?;
        }
        Ok(there)
    }

    /// Finds the items that a body names, and cuts it.
    #[inline(always)]
    fn reach_body<'a>(
        &mut self,
        alloc: Global,
        adapter: &Module<'_>,
        bytes: &'a [u8],
        cut: &mut BodyCut<'a>,
    ) -> Result<(), GcFault>
        ensures found { OnOk result (FindsItems L.has self.old self.new
            (present (decoded_module adapter.now) (body_refs (body_in bytes.now)))) }
        ensures in_range { IsOk result →
            is_body_in_range (decoded_module adapter.now) (body_in bytes.now) ≡ true }
        ensures cut { IsOk result → IsCutIfKept cut.new (body_in bytes.now) }
        ensures fault { IfErr result (λ f. (f ≡ GcFault.Memory) ⊎ ((f ≡ GcFault.LiveBody)
            × (is_body_in_range (decoded_module adapter.now) (body_in bytes.now) ≡ false))) }
    {
        let mut operators = operators_of(alloc, bytes)?;
        if !self.reach_locals(alloc, adapter, &operators)? {
            return Err(GcFault::LiveBody);
        }
        cut.begin(bytes.len());
        while let Some(instr) = self.next_unknown(alloc, adapter, &mut operators, cut)? {
            cut.push(&instr)?;
            let is_operator_in_range = self.reach_operator(adapter, &instr)?;
            drop(instr);
            if !is_operator_in_range {
                return Err(GcFault::LiveBody);
            }
        }
        cut.end()?;
        Ok(())
    }

    /// Finds the items that an initialiser names; none, if the bytes encode no initialiser. Most initialisers that
    /// name an item have one operator.
    fn reach_init(
        &mut self,
        alloc: Global,
        adapter: &Module<'_>,
        bytes: &[u8],
    ) -> Result<(), AllocError>
        ensures { OnOk result (FindsItems L.has self.old self.new
            (present (decoded_module adapter.now) (init_refs (init_in bytes.now)))) }
    {
        match init_index(bytes) {
            Some(named) => {
                self.reach_index(adapter, named.index)?;
                Ok(())
            }
            None => self.reach_any_init(alloc, adapter, bytes),
        }
    }

    /// Finds the items that an initialiser of any operators names; none, if the bytes encode no initialiser.
    #[inline(never)]
    fn reach_any_init(
        &mut self,
        alloc: Global,
        adapter: &Module<'_>,
        bytes: &[u8],
    ) -> Result<(), AllocError>
        ensures { OnOk result (FindsItems L.has self.old self.new
            (present (decoded_module adapter.now) (init_refs (init_in bytes.now)))) }
    {
        if is_init(alloc, bytes)? {
            let mut operators = InitOperators::new(bytes);
            self.reach_init_operators(alloc, adapter, &mut operators)
        } else {
            Ok(())
        }
    }

    /// Finds the items that the operators name that are left of an initialiser.
    fn reach_init_operators(
        &mut self,
        alloc: Global,
        adapter: &Module<'_>,
        operators: &mut InitOperators<'_>,
    ) -> Result<(), AllocError>
        requires { is_some (init_left operators.old) ≡ true }
        ensures { OnOk result (FindsItems L.has self.old self.new
            (present (decoded_module adapter.now) (init_refs (init_left operators.old)))) }
    {
        while let Some(operator) = next_of_init(operators, alloc)? {
            self.reach_operator(adapter, &operator)?;
        }
        Ok(())
    }
}

impl<L: LiveSet> Search<L> {
    /// Finds the items that a function names, and cuts its body.
    #[inline(always)]
    fn reach_func<'a>(
        &mut self,
        alloc: Global,
        adapter: &Module<'_>,
        func: Func<'a>,
        cut: &mut BodyCut<'a>,
    ) -> Result<(), GcFault>
        ensures found { OnOk result (FindsItems L.has self.old self.new (present
            (decoded_module adapter.now) (func_refs (func_code func.entry)))) }
        ensures in_range { IsOk result →
            is_def_in_range (decoded_module adapter.now) (func_code func.entry).def ≡ true }
        ensures cut { IsOk result → IsFuncCutIfKept cut.new func.entry }
        ensures fault { IfErr result (λ f. (f ≡ GcFault.Memory) ⊎ ((f ≡ GcFault.LiveBody)
            × (is_def_in_range (decoded_module adapter.now) (func_code func.entry).def ≡ false))) }
    {
        self.reach_present(adapter, (Space::Types, func.ty))?;
        match func.def {
            Def::Import(_, _) => Ok(()),
            Def::Local(bytes) => self.reach_body(alloc, adapter, bytes, cut),
        }
    }

    /// Finds the items that the function of an index names, and keeps its body as it was cut.
    #[inline(always)]
    fn reach_func_at<'a>(
        &mut self,
        alloc: Global,
        adapter: &Module<'a>,
        index: usize,
        cuts: &mut BodyCuts<'a>,
    ) -> Result<(), GcFault>
        ensures found { OnOk result (FindsItems L.has self.old self.new
            (refs_in (decoded_module adapter.now) (Funcs, index))) }
        ensures in_range { IsOk result →
            is_item_in_range (decoded_module adapter.now) (Funcs, index) ≡ true }
        ensures cut { OnOk result (KeepsCuts adapter.now.funcs.items cuts.old cuts.new) }
        ensures fault { IfErr result (λ f. (f ≡ GcFault.Memory) ⊎ ((f ≡ GcFault.LiveBody)
            × (is_item_in_range (decoded_module adapter.now) (Funcs, index) ≡ false))) }
    {
        match adapter.funcs.get(index) {
            Some(func) => {
                self.reach_func(alloc, adapter, *func, &mut cuts.current)?;
                cuts.keep(index)?;
                Ok(())
            }
            None => Ok(()),
        }
    }

    /// Finds the types that the parameters and results of a function type name.
    fn reach_func_type(&mut self, adapter: &Module<'_>, ty: &FuncType) -> Result<(), AllocError>
        ensures { OnOk result (FindsItems L.has self.old self.new (present
            (decoded_module adapter.now) (func_type_refs (func_type_value ty.now)))) }
    {
        self.reach_types(adapter, ty.params())?;
        self.reach_types(adapter, ty.results())?;
        Ok(())
    }

    /// Finds the type that the elements of a table name.
    fn reach_table(&mut self, adapter: &Module<'_>, ty: TableType) -> Result<(), AllocError>
        ensures { OnOk result (FindsItems L.has self.old self.new (present
            (decoded_module adapter.now) (val_type_refs (ty.element_type ∷ [])))) }
    {
        self.reach_type(adapter, ty.element_type)?;
        Ok(())
    }

    /// Finds the items that a global names: by its type, and by its initialiser.
    fn reach_global(
        &mut self,
        alloc: Global,
        adapter: &Module<'_>,
        global: ModuleGlobal<'_>,
    ) -> Result<(), AllocError>
        ensures { OnOk result (FindsItems L.has self.old self.new (present
            (decoded_module adapter.now) (global_refs (global_code global.entry)))) }
    {
        self.reach_type(adapter, global.ty.content_type)?;
        match global.def {
            Def::Import(_, _) => Ok(()),
            Def::Local(bytes) => self.reach_init(alloc, adapter, bytes),
        }
    }

    /// Finds the items that an item names, and keeps the body of a function as it was cut.
    #[inline(always)]
    fn reach_and_cut<'a>(
        &mut self,
        alloc: Global,
        adapter: &Module<'a>,
        item: (Space, u32),
        cuts: &mut BodyCuts<'a>,
    ) -> Result<(), GcFault>
        ensures found { OnOk result
            (FindsItems L.has self.old self.new (refs_in (decoded_module adapter.now) item)) }
        ensures in_range { IsOk result → is_item_in_range (decoded_module adapter.now) item ≡ true }
        ensures cut { OnOk result (KeepsCuts adapter.now.funcs.items cuts.old cuts.new) }
        ensures fault { IfErr result (λ f. (f ≡ GcFault.Memory) ⊎ ((f ≡ GcFault.LiveBody)
            × (is_item_in_range (decoded_module adapter.now) item ≡ false))) }
    {
        let index = item.1 as usize;
        match item.0 {
            Space::Types => match adapter.types.get(index) {
                Some(ty) => Ok(self.reach_func_type(adapter, ty)?),
                None => Ok(()),
            },
            Space::Funcs => self.reach_func_at(alloc, adapter, index, cuts),
            Space::Tables => match adapter.tables.get(index) {
                Some(table) => Ok(self.reach_table(adapter, table.ty)?),
                None => Ok(()),
            },
            Space::Globals => match adapter.globals.get(index) {
                Some(global) => Ok(self.reach_global(alloc, adapter, *global)?),
                None => Ok(()),
            },
            Space::Memories => Ok(()),
        }
    }

    /// Finds the items that an item names.
    pub fn reach_from(
        &mut self,
        alloc: Global,
        adapter: &Module<'_>,
        item: (Space, u32),
    ) -> Result<(), GcFault>
        ensures found { OnOk result
            (FindsItems L.has self.old self.new (refs_in (decoded_module adapter.now) item)) }
        ensures in_range { IsOk result → is_item_in_range (decoded_module adapter.now) item ≡ true }
        ensures fault { IfErr result (λ f. (f ≡ GcFault.Memory) ⊎ ((f ≡ GcFault.LiveBody)
            × (is_item_in_range (decoded_module adapter.now) item ≡ false))) }
    {
        let mut cuts = BodyCuts::new(alloc, 0)?;
        self.reach_and_cut(alloc, adapter, item, &mut cuts)
    }

    /// Finds the items that roots reach, keeps the stretches of bodies, and returns how many items were visited.
    pub fn reach_all<'a>(
        &mut self,
        alloc: Global,
        adapter: &Module<'a>,
        roots: &[(Space, u32)],
        cuts: &mut BodyCuts<'a>,
    ) -> Result<u64, Stop>
        requires consistent { IsConsistent L.has self.old }
        requires none { self.old.order.items ≡ [] }
        requires there { All (λ x. IsTrue (is_in (decoded_module adapter.now) x)) roots.now }
        ensures reached { IsOk result → (x : ItemIndex) → IsTrue (finds L.has self.new x)
            ↔ IsReachedFrom (refs_in (decoded_module adapter.now)) roots.now x }
        ensures counted { IfOk result
            (IsCount (IsReachedFrom (refs_in (decoded_module adapter.now)) roots.now)) }
        ensures in_range { IsOk result → (x : ItemIndex) →
            IsReachedFrom (refs_in (decoded_module adapter.now)) roots.now x →
            is_item_in_range (decoded_module adapter.now) x ≡ true }
        ensures cut { OnOk result (KeepsCuts adapter.now.funcs.items cuts.old cuts.new) }
        ensures stop { IfErr result (IsStop (decoded_module adapter.now) roots.now) }
    {
        for root in roots {
            self.reach(*root)?;
        }
        let mut next: usize = 0;
        while next < self.order.len() {
            let item = self.order[next];
            match self.reach_and_cut(alloc, adapter, item, cuts) {
                Ok(()) => next += 1,
                Err(fault) => match fault {
                    GcFault::LiveBody => return Err(Stop::Body(item.1)),
                    // An allocation failed.
                    _ => return Err(Stop::Memory),
                },
            }
        }
        Ok(next as u64)
    }
}

/// The operators of a body.
#[inline(always)]
fn operators_of(alloc: Global, bytes: &[u8]) -> Result<Operators<'_>, GcFault>
    ensures body { IfOk result (λ o. body_in bytes.now
        ≡ option_map (body_of (locals_read o)) (operators_left o)) }
    ensures keeps_locals { IfOk result KeepsLocals }
    ensures fault { IfErr result (λ f. (f ≡ GcFault.LiveBody) × (body_in bytes.now ≡ None)) }
{
    match Operators::new(alloc, bytes) {
        Ok(operators) => Ok(operators),
        Err(_) => Err(GcFault::LiveBody),
    }
}

/// The next operator of an initialiser.
#[inline(always)]
pub fn next_of_init<'a>(
    operators: &mut InitOperators<'a>,
    alloc: Global,
) -> Result<Option<Instr<'a>>, AllocError>
    requires { is_some (init_left operators.old) ≡ true }
    ensures found { IfOk result (λ i. init_left operators.old
        ≡ next_and_left (option_map instr_value i) (init_left operators.new)) }
    ensures shorter { IfOk result (λ i.
        IfSome i (λ _. init_bytes_left operators.new < init_bytes_left operators.old)) }
{
    match operators.next(alloc) {
        Ok(next) => Ok(next),
        Err(ReadFault::Memory) => Err(AllocError),
        Err(_) => unreachable!(),
    }
}

/// Whether the adapter has an item.
#[tactic(auto, unfolding(wc_read::specs::Decoded::decoded_module))]
fn has_item(adapter: &Module<'_>, item: (Space, u32)) -> bool
    ensures { result ≡ is_in (decoded_module adapter.now) item }
{
    let size = match item.0 {
        Space::Types => adapter.types.len(),
        Space::Funcs => adapter.funcs.len(),
        Space::Tables => adapter.tables.len(),
        Space::Memories => adapter.memories.len(),
        Space::Globals => adapter.globals.len(),
    };
    (item.1 as usize) < size
}
