//! Live types: the types that items of worlds need.

ghost use Rattle.std.specs.Prelude.{◌≡◌, ◌<◌, ◌↔◌, ◌++◌, ℕ, [], ◌∷◌, Contains, IsTrue, OnErr, OnOk, length};
ghost use Rattle.std.specs.Iterator.Adapters.{copied_source};
ghost use Rattle.std.specs.Slice.Iter.{iter_rest};
ghost use Rattle.wc_resolve.specs.Live.{AddsListings, AddsPartly, Keeps, with_live};
ghost use Rattle.wc_resolve.specs.Roots.{function_roots, indices, item_roots, type_roots};
ghost use Rattle.wc_resolve.specs.Ranges.{IsFunctionIn, IsItemIn, IsTypeIn};
ghost use Rattle.wc_resolve.specs.Views.{function_view, item_view};

use crate::marks::{is_marked, make_room, unmark};
use crate::roots::{roots_of_function, roots_of_id, roots_of_item, roots_of_type};
use crate::walk::{TypeStep, enter_all, referenced_ids};
use crate::{Function, Resolve, TypeId, WitType, WorldItem};
use std::alloc::{AllocError, Global};
use std::iter::Copied;
use std::marker::Model;
use std::slice::Iter;

/// Types that are known: a test of each, for a walk that passes over them.
pub trait KnownTypes {
    ghost use Rattle.std.specs.Prelude.{ℕ, List};

    // The indices of the types that are known.
    ghost known_of: { Self → List ℕ };

    /// Whether a type is known.
    fn has(&self, id: TypeId) -> bool
        ensures { IsTrue result ↔ Contains (known_of self.now) id.0 };
}

/// No known types.
#[derive(Clone, Copy)]
struct NoTypes;

impl KnownTypes for NoTypes {
    ghost use Rattle.std.specs.Prelude.{[]};

    ghost known_of = { λ _. [] };

    fn has(&self, _id: TypeId) -> bool {
        false
    }
}

/// Whether a type is known or live.
fn is_there<K: KnownTypes>(known: &K, live: &LiveTypes, id: TypeId) -> bool
    ensures { IsTrue result ↔ Contains (K.known_of known.now ++ live.now) id.0 }
{
    known.has(id) || live.contains(id)
}

/// Adds a type, unless it is known or live.
fn leave<K: KnownTypes>(known: &K, live: &mut LiveTypes, id: TypeId) -> Result<(), AllocError>
    ensures added { OnOk result (K.known_of known.now ++ live.new
        ≡ with_live (K.known_of known.now ++ live.old) id.0) }
    ensures kept { Keeps live.old live.new }
    ensures err { OnErr result (live.new ≡ live.old) }
{
    if is_there(known, live, id) {
        return Ok(());
    }
    live.push(id)?;
    Ok(())
}

/// Adds the listings of types, without repeats, and without the types that are known.
fn add<K: KnownTypes>(
    resolve: &Resolve,
    known: &K,
    roots: Vec<TypeId>,
    live: &mut LiveTypes,
) -> Result<(), AllocError>
    requires { (x : ℕ) → Contains (indices roots.items) x → x < length resolve.now.types }
    ensures added { let known = K.known_of known.now in OnOk result (AddsListings resolve.now
        (known ++ live.old) (known ++ live.new) (indices roots.items)) }
    ensures begun { let known = K.known_of known.now in OnErr result (AddsPartly resolve.now
        (known ++ live.old) (known ++ live.new) (indices roots.items)) }
    ensures kept { Keeps live.old live.new }
{
    resolve.well_formedness();
    resolve.listings_unique();
    let alloc = live.allocator();
    let mut steps = Vec::new(alloc);
    enter_all(roots, &mut steps)?;
    'steps: while let Some(step) = steps.pop() {
        match step {
            TypeStep::Leave(id) => {
                leave(known, live, id)?;
            }
            TypeStep::Enter(id) => {
                if !is_there(known, live, id) {
                    steps.push(TypeStep::Leave(id))?;
                    let ids = referenced_ids(alloc, &resolve.type_def(id).kind)?;
                    enter_all(ids, &mut steps)?;
                }
            }
        }
    }
    Ok(())
}

/// Types that are in use, in the order in which they were added: each after the types that it refers to.
///
/// The *listing* of a type has the listings of the types that it refers to, in order, and then the type itself. A
/// type refers to the types that it contains by value, a handle's resource, or an alias's target. A call that adds a
/// type appends its listing without repeats: the types that are not in the list yet. Types in the list stay at the
/// front, unchanged. This holds if all types were added from one `Resolve`; if they are from several, only the types
/// in the list are sure to stay.
///
/// Besides the types in order, a list has one byte for each index up to the largest that was added. Looking up a
/// type, and appending one, takes one access, whatever the ids are. A call that adds types takes time linear in the
/// references of the types that it adds and appends, and in the bytes for larger indices.
///
/// ```ignore
/// let mut live = LiveTypes::new(alloc);
/// live.add_func(&resolve, &function)?;
/// for id in live.iter() {
///     // Types to which this one refers came before.
///     let def = resolve.type_def(id);
/// }
/// ```
#[derive(Drop)]
pub struct LiveTypes {
    types: Vec<TypeId>,
    /// For each index up to the largest that was added, whether its type is in the list.
    there: Vec<bool>,
}

impl Model for LiveTypes {
    ghost use Rattle.std.specs.Prelude.{ℕ, List};
    ghost use Rattle.wc_resolve.specs.Marks.{AreMarks};
    ghost use Rattle.wc_resolve.specs.Roots.{indices};

    ghost Value = { List ℕ };

    ghost view = { λ live. indices live.types.items };

    ghost invariant = { λ live. AreMarks live.there.items (indices live.types.items) };
}

impl KnownTypes for LiveTypes {
    ghost known_of = { λ types. types };

    fn has(&self, id: TypeId) -> bool {
        self.contains(id)
    }
}

impl LiveTypes {
    /// The empty list. Later calls allocate with `alloc`.
    pub fn new(alloc: Global) -> LiveTypes
        ensures { result ≡ [] }
    {
        let types = Vec::new(alloc);
        let there = Vec::new(alloc);
        LiveTypes { types, there }
    }

    /// Whether the list has this type.
    pub fn contains(&self, id: TypeId) -> bool
        ensures { IsTrue result ↔ Contains self.now id.0 }
    {
        is_marked(&self.there, id)
    }

    /// The types in order.
    pub fn iter(&self) -> Copied<Iter<'_, TypeId>>
        ensures { indices (iter_rest (copied_source result)) ≡ self.now }
    {
        self.types.iter().copied()
    }

    /// Removes all types, in time linear in how many there are. What was allocated is kept for later calls.
    pub fn clear(&mut self)
        ensures { self.new ≡ [] }
    {
        unmark(&mut self.there, &self.types);
        self.types.clear();
    }

    /// The allocator that the list was made with.
    fn allocator(&self) -> Global {
        *self.types.allocator()
    }

    /// Appends a type.
    fn push(&mut self, id: TypeId) -> Result<(), AllocError>
        ensures ok { OnOk result (self.new ≡ self.old ++ id.0 ∷ []) }
        ensures err { OnErr result (self.new ≡ self.old) }
    {
        make_room(&mut self.there, id)?;
        self.types.push(id)?;
        self.there[id.0 as usize] = true;
        Ok(())
    }

    /// Adds a type after the types that it refers to. The id must be in range (`has_type`).
    ///
    /// # Errors
    ///
    /// `AllocError`: an allocation failed. The types that were added until then stay.
    pub fn add_type_id(&mut self, resolve: &Resolve, id: TypeId) -> Result<(), AllocError>
        requires { id.0 < length resolve.now.types }
        ensures added { OnOk result (AddsListings resolve.now self.old self.new (id.0 ∷ [])) }
        ensures begun { OnErr result (AddsPartly resolve.now self.old self.new (id.0 ∷ [])) }
        ensures kept { Keeps self.old self.new }
    {
        let roots = roots_of_id(self.allocator(), id)?;
        add(resolve, &NoTypes, roots, self)
    }

    /// Adds a defined type as `add_type_id` does; a primitive type adds nothing. The id must be in range (`has_type`).
    ///
    /// # Errors
    ///
    /// `AllocError`: an allocation failed. The types that were added until then stay.
    pub fn add_type(&mut self, resolve: &Resolve, ty: WitType) -> Result<(), AllocError>
        requires { IsTypeIn (length resolve.now.types) ty }
        ensures added { OnOk result (AddsListings resolve.now self.old self.new (type_roots ty)) }
        ensures begun { OnErr result (AddsPartly resolve.now self.old self.new (type_roots ty)) }
        ensures kept { Keeps self.old self.new }
    {
        let roots = roots_of_type(self.allocator(), ty)?;
        add(resolve, &NoTypes, roots, self)
    }

    /// Adds the types of a function: the resource of a static function, then the parameters, then the result. The ids
    /// of the function must be in range (`has_function`).
    ///
    /// # Errors
    ///
    /// `AllocError`: an allocation failed. The types that were added until then stay.
    pub fn add_func(&mut self, resolve: &Resolve, function: &Function) -> Result<(), AllocError>
        requires { IsFunctionIn (length resolve.now.types) (function_view function.now) }
        ensures added { OnOk result (AddsListings resolve.now self.old self.new
            (function_roots (function_view function.now))) }
        ensures begun { OnErr result (AddsPartly resolve.now self.old self.new
            (function_roots (function_view function.now))) }
        ensures kept { Keeps self.old self.new }
    {
        let roots = roots_of_function(self.allocator(), function)?;
        add(resolve, &NoTypes, roots, self)
    }

    /// Adds the types of an item of a world: of an interface its types and then the types of its functions, of a
    /// function as `add_func` does, of a type as `add_type_id` does. The ids of the item must be in range
    /// (`has_interface`, `has_type`, `has_function`).
    ///
    /// # Errors
    ///
    /// `AllocError`: an allocation failed. The types that were added until then stay.
    pub fn add_world_item(&mut self, resolve: &Resolve, item: &WorldItem) -> Result<(), AllocError>
        requires { IsItemIn resolve.now (item_view item.now) }
        ensures added { OnOk result (AddsListings resolve.now self.old self.new
            (item_roots resolve.now (item_view item.now))) }
        ensures begun { OnErr result (AddsPartly resolve.now self.old self.new
            (item_roots resolve.now (item_view item.now))) }
        ensures kept { Keeps self.old self.new }
    {
        resolve.well_formedness();
        let roots = roots_of_item(self.allocator(), resolve, item)?;
        add(resolve, &NoTypes, roots, self)
    }

    /// Adds the types of an item of a world as `add_world_item` does, except known types: the types of the item are
    /// appended without repeats to the known types and this list after them. All types to which known types refer
    /// must be known too, as in each list that was made from this `Resolve`; so the types below known types are not
    /// visited.
    ///
    /// # Errors
    ///
    /// `AllocError`: an allocation failed. The types that were added until then stay.
    pub fn add_world_item_beside<K: KnownTypes>(
        &mut self,
        known: &K,
        resolve: &Resolve,
        item: &WorldItem,
    ) -> Result<(), AllocError>
        requires { IsItemIn resolve.now (item_view item.now) }
        ensures added { let known = K.known_of known.now in OnOk result (AddsListings resolve.now
            (known ++ self.old) (known ++ self.new) (item_roots resolve.now (item_view item.now))) }
        ensures begun { let known = K.known_of known.now in OnErr result (AddsPartly resolve.now
            (known ++ self.old) (known ++ self.new) (item_roots resolve.now (item_view item.now))) }
        ensures kept { Keeps self.old self.new }
    {
        resolve.well_formedness();
        let roots = roots_of_item(self.allocator(), resolve, item)?;
        add(resolve, known, roots, self)
    }
}
