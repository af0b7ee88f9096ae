//! The functions of an adapter that are edited, and those that are added, under new indices.

ghost use Rattle.std.specs.Prelude.{◌≡◌, ◌+◌, ◌++◌, true, Some, length, OnOk, is_some};
ghost use Rattle.std.specs.Option.{option_map};
ghost use Rattle.wc_read.specs.BodyOperators.{body_in};
ghost use Rattle.wc_read.specs.Items.{def_value, item_value};
ghost use Rattle.wc_read.specs.declared.operators.Space.TheVariants.{Funcs, Globals, Memories, Types};
ghost use Rattle.wc_read.specs.Items.{def_seen};
ghost use Rattle.wc_gc.specs.AddedCode.{growing_body, stack_body};
ghost use Rattle.wc_read.specs.Decoded.{func_code, is_code};
ghost use Rattle.wc_gc.specs.Edit.{added_types, called_realloc, edited_body, memory_of, one_if, only_if, replaced, stack_of, start_of, start_type, state_of};
ghost use Rattle.wc_gc.specs.Found.{found_view};
ghost use Rattle.wc_gc.specs.Image.{new_body};
ghost use Rattle.wc_gc.specs.Private.KeptBodies.{IsCutAt, IsFuncCutAt};
ghost use Rattle.wc_gc.specs.NewBodies.{body_written, call_added};
ghost use Rattle.wc_gc.specs.NewIndices.{new_of};

use crate::found::{Found, MAIN_MODULE, imports_realloc};
use crate::live::{LiveSet, LiveSets};
use crate::new_bodies::{GrowingBody, NewBody, OldBodies, OldBody, StackBody};
use crate::new_indices::NewIndices;
use crate::parts::Parts;
use crate::settings::Settings;
use std::alloc::AllocError;
use wc_read::{Def, Export, Func, Item, Module, Space};

/// A function of the image.
pub type NewFunc<'a, 'n> = Item<'a, u32, NewBody<'a, 'n>>;

/// An adapter to be edited, the exports that are kept of it, and the items that these reach.
#[derive(Drop)]
pub struct EditSource<'m, 'a, L: LiveSet> {
    pub adapter: &'m Module<'a>,
    pub exports: &'m [Export<'a>],
    pub live: &'m LiveSets<L>,
}

/// The settings, parts and live items by which functions are edited and added.
#[derive(Clone, Copy)]
pub struct Edit<'a, 'n> {
    pub settings: Settings<'a>,
    pub parts: Parts,
    pub found: &'n Found,
    pub new: &'n NewIndices,
    pub bodies: &'n OldBodies<'a, 'n>,
    ghost types: { new.now.counts.added_types
        ≡ length (added_types parts (found_view found.now)) },
    ghost imports: { new.now.counts.added_imports ≡ one_if parts.import_realloc },
    ghost funcs: { new.now.counts.added_funcs
        ≡ one_if parts.lazy + (one_if parts.growing + one_if parts.start) },
    ghost memory: { new_of new.now Memories (memory_of (found_view found.now)) ≡ 0 },
    ghost same: { bodies.now.new.now ≡ new.now },
    ghost called: { bodies.now.call
        ≡ call_added (new_of new.now) new.now.counts.funcs parts true },
}

impl<'a, 'n> Edit<'a, 'n> {
    ghost use Rattle.wc_gc.specs.Private.Edit.{found_of, funcs_added, funcs_of, growing_of, imports_added, lazy_of, new_edited, new_funcs, new_indices, settings_of, start_func_of, types_of, written_funcs};

    /// A function of the adapter, by its index.
    pub fn edited_func(self, func: &Func<'a>, index: u32, exported: bool) -> NewFunc<'a, 'n>
        requires code { is_code (func_code func.now).def ≡ true }
        requires cut { IsFuncCutAt self.bodies.now.cuts.now index func.now }
        ensures { item_value body_written result
            ≡ new_edited self.entry exported (func_code func.now) }
    {
        let ty = self.new.of(Space::Types, func.ty);
        let def = match func.def {
            Def::Import(module, name) => {
                if imports_realloc(func.def) {
                    self.replaced()
                } else {
                    Def::Import(module, name)
                }
            }
            Def::Local(bytes) => Def::Local(self.edited_body(bytes, index, exported)),
        };
        Item { ty, def }
    }

    /// The definition that an imported realloc gets.
    fn replaced(self) -> Def<'a, NewBody<'a, 'n>>
        ensures { def_value body_written result ≡ def_seen (new_body (new_indices self.entry))
            (replaced (settings_of self.entry) (found_of self.entry)) }
    {
        match self.settings.realloc {
            Some(name) => Def::Import(MAIN_MODULE, name),
            None => Def::Local(self.growing_body()),
        }
    }

    /// The body of the function of an index.
    fn edited_body(self, bytes: &'a [u8], index: u32, exported: bool) -> NewBody<'a, 'n>
        requires code { is_some (body_in bytes.now) ≡ true }
        requires cut { IsCutAt self.bodies.now.cuts.now index (body_in bytes.now) }
        ensures { body_written result ≡ new_body (new_indices self.entry)
            (edited_body (funcs_of self.entry) self.entry.parts exported (body_in bytes.now)) }
    {
        NewBody::Old(OldBody {
            bytes,
            bodies: self.bodies,
            index,
            exported,
        })
    }

    /// The body of a realloc that grows memory.
    fn growing_body(self) -> NewBody<'a, 'n>
        ensures { body_written result ≡ new_body (new_indices self.entry) (Some (growing_body
            (settings_of self.entry).page_size_log2 (memory_of (found_of self.entry)))) }
    {
        NewBody::Growing(GrowingBody {
            page_size_log2: self.settings.page_size_log2,
        })
    }

    /// The body that allocates a stack.
    fn stack_body(self) -> NewBody<'a, 'n>
        ensures { let e = self.entry in body_written result ≡ new_body (new_indices e)
            (Some (stack_body (called_realloc (funcs_of e) e.parts (found_of e))
            (stack_of (found_of e)) (state_of (found_of e)))) }
    {
        NewBody::Stack(StackBody {
            realloc: self.called_realloc(),
            stack: self.stack(),
            state: self.state(),
        })
    }

    /// The realloc that allocates a stack.
    fn called_realloc(self) -> u32
        ensures { result ≡ new_indices self.entry Funcs
            (called_realloc (funcs_of self.entry) self.entry.parts (found_of self.entry)) }
    {
        if self.parts.growing {
            return self.new.added_func(self.parts.growing_position());
        }
        match self.found.reallocs.last() {
            Some(func) => self.new.of(Space::Funcs, *func),
            None => self.new.added_func(0),
        }
    }

    /// The stack pointer.
    fn stack(self) -> u32
        ensures { result ≡ new_indices self.entry Globals (stack_of (found_of self.entry)) }
    {
        match self.found.stacks.first() {
            Some(stack) => self.new.of(Space::Globals, *stack),
            None => self.new.of(Space::Globals, 0),
        }
    }

    /// The state of the stack's allocation.
    fn state(self) -> Option<u32>
        ensures { result
            ≡ option_map (new_indices self.entry Globals) (state_of (found_of self.entry)) }
    {
        match self.found.states.first() {
            Some(state) => Some(self.new.of(Space::Globals, *state)),
            None => None,
        }
    }

    /// The type of the start function.
    fn start_type(self) -> u32
        requires { self.parts.start ≡ true }
        ensures { result ≡ new_indices self.entry Types
            (start_type (types_of self.entry) self.entry.parts (found_of self.entry)) }
    {
        match self.found.empties.last() {
            Some(ty) => self.new.of(Space::Types, *ty),
            None => self.new.added_type(self.parts.start_position()),
        }
    }

    /// Appends the import that is added.
    pub fn append_import(self, funcs: &mut Vec<NewFunc<'a, 'n>>) -> Result<(), AllocError>
        ensures { OnOk result (written_funcs funcs.new.items ≡ written_funcs funcs.old.items
            ++ new_funcs self.entry (imports_added self.entry)) }
    {
        if !self.parts.import_realloc {
            return Ok(());
        }
        let name = self.settings.realloc.unwrap_or("");
        funcs.push(Item {
            ty: self.new.added_type(0),
            def: Def::Import(MAIN_MODULE, name),
        })?;
        Ok(())
    }

    /// Appends the functions that are added.
    pub fn append_added(self, funcs: &mut Vec<NewFunc<'a, 'n>>) -> Result<(), AllocError>
        ensures { OnOk result (written_funcs funcs.new.items ≡ written_funcs funcs.old.items
            ++ new_funcs self.entry (funcs_added self.entry)) }
    {
        self.append_lazy(funcs)?;
        self.append_growing(funcs)?;
        self.append_start(funcs)
    }

    fn append_lazy(self, funcs: &mut Vec<NewFunc<'a, 'n>>) -> Result<(), AllocError>
        ensures { OnOk result (written_funcs funcs.new.items ≡ written_funcs funcs.old.items
            ++ new_funcs self.entry (only_if self.entry.parts.lazy (lazy_of self.entry))) }
    {
        if !self.parts.lazy {
            return Ok(());
        }
        funcs.push(Item {
            ty: self.new.added_type(self.parts.lazy_position()),
            def: Def::Local(self.stack_body()),
        })?;
        Ok(())
    }

    fn append_growing(self, funcs: &mut Vec<NewFunc<'a, 'n>>) -> Result<(), AllocError>
        ensures { OnOk result (written_funcs funcs.new.items ≡ written_funcs funcs.old.items
            ++ new_funcs self.entry (only_if self.entry.parts.growing (growing_of self.entry))) }
    {
        if !self.parts.growing {
            return Ok(());
        }
        funcs.push(Item {
            ty: self.new.added_type(self.parts.growing_position()),
            def: Def::Local(self.growing_body()),
        })?;
        Ok(())
    }

    fn append_start(self, funcs: &mut Vec<NewFunc<'a, 'n>>) -> Result<(), AllocError>
        ensures { OnOk result (written_funcs funcs.new.items ≡ written_funcs funcs.old.items
            ++ new_funcs self.entry (only_if self.entry.parts.start (start_func_of self.entry))) }
    {
        if !self.parts.start {
            return Ok(());
        }
        funcs.push(Item {
            ty: self.start_type(),
            def: Def::Local(self.stack_body()),
        })?;
        Ok(())
    }

    /// The start function, if there is one.
    pub fn start(self) -> Option<u32>
        ensures { result ≡ option_map (new_indices self.entry Funcs)
            (start_of (funcs_of self.entry) self.entry.parts) }
    {
        if self.parts.start {
            return Some(self.new.added_func(self.parts.start_position()));
        }
        None
    }
}

/// The lazy code, if exported functions begin with a call of it.
pub fn lazy_call(new: &NewIndices, parts: Parts) -> Option<u32>
    requires { new.now.counts.added_funcs
        ≡ one_if parts.lazy + (one_if parts.growing + one_if parts.start) }
    ensures { result ≡ call_added (new_of new.now) new.now.counts.funcs parts true }
{
    if parts.lazy {
        return Some(new.added_func(parts.lazy_position()));
    }
    None
}
