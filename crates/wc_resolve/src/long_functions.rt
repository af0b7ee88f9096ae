//! Functions by their positions, and the caches of functions with more than a few parameters.
//!
//! A cache has the types that the futures and streams are of, how many there are up to and with each, and the flat
//! types of the parameters.

ghost use Rattle.std.specs.Prelude.{◌≡◌, ◌<◌, ◌^◌, All, IfOk, IfSome, Some, length, map, slice_get};
ghost use Rattle.std.specs.Option.{option_and_then, option_map};
ghost use Rattle.wc_resolve.specs.Flat.{AreFlattened, flat_of, lists};
ghost use Rattle.wc_resolve.specs.Futures.{AreFuturesEntries, entry_view, function_futures};
ghost use Rattle.wc_resolve.specs.Kinds.{ResolveView};
ghost use Rattle.wc_resolve.specs.LongFunctions.{IsLongFunction, function_at_place, function_of_interface, function_of_items};
ghost use Rattle.wc_resolve.specs.Ranges.{AreIdsInRange, IsFunctionIn};
ghost use Rattle.wc_resolve.specs.ResolveParts.{parts_view};
ghost use Rattle.wc_resolve.specs.Roots.{id_index};
ghost use Rattle.wc_resolve.specs.Signature.{flatten_functype, signature_view};
ghost use Rattle.wc_resolve.specs.Views.{function_entry, function_view, world_entry};

use crate::flattening::flat_fields;
use crate::futures::{FuturesEntry, count_before, ends_for, ends_passed, nth, parts_for};
use crate::roots::push_passed;
use crate::signature::{signature_by, signature_of};
use crate::{
    AbiVariant, Function, FunctionPlace, InterfaceId, Parts, Resolve, TypeId, WasmSignature,
    WasmType, WorldId, WorldItem, WorldKey,
};
use std::alloc::{AllocError, Global};
use wc_maps::Map;

/// The greatest number of parameters of a function that has no cache: they are walked.
const FEW_PARAMETERS: usize = 16;

/// The cache of a function with many parameters: its futures and streams, and the flat types of its parameters.
#[derive(Drop)]
pub(crate) struct LongFunction {
    /// The position of the function.
    pub(crate) place: FunctionPlace,
    /// The types whose futures and streams these are, one type's after another's; each has some.
    pub(crate) parts: Vec<TypeId>,
    /// How many there are up to each of `parts` and with it, at most `u64::MAX`.
    pub(crate) ends: Vec<u64>,
    /// The flat types of the parameters, as many as are kept (`KEPT_FLAT_TYPES`).
    pub(crate) flats: Vec<WasmType>,
}

/// The function of an interface at an index.
fn function_of_interface(functions: &Map<String, Function>, index: usize) -> Option<&Function>
    ensures { option_map (λ f. function_view f.now) result ≡
        function_of_interface (map function_entry functions.now.entries) index }
{
    match functions.get_index(index) {
        Some((_name, function)) => Some(function),
        None => None,
    }
}

/// The function that the item at an index is, if it is one.
fn function_of_items(items: &Map<WorldKey, WorldItem>, index: usize) -> Option<&Function>
    ensures { option_map (λ f. function_view f.now) result ≡
        function_of_items (map world_entry items.now.entries) index }
{
    match items.get_index(index) {
        Some((_key, item)) => match item {
            WorldItem::Function(function) => Some(function),
            WorldItem::Interface { .. } | WorldItem::TypeItem { .. } => None,
        },
        None => None,
    }
}

/// The function at a place, if there is one.
pub(crate) fn function_of(parts: &Parts, place: FunctionPlace) -> Option<&Function>
    ensures { option_map (λ f. function_view f.now) result ≡
        function_at_place (parts_view parts.now) place }
{
    match place {
        FunctionPlace::Interface(id, index) => match parts.interfaces.get(id.0 as usize) {
            Some(interface) => function_of_interface(&interface.functions, index),
            None => None,
        },
        FunctionPlace::Import(id, index) => match parts.worlds.get(id.0 as usize) {
            Some(world) => function_of_items(&world.imports, index),
            None => None,
        },
        FunctionPlace::Export(id, index) => match parts.worlds.get(id.0 as usize) {
            Some(world) => function_of_items(&world.exports, index),
            None => None,
        },
    }
}

/// Appends the place of a function, if it has more than a few parameters.
fn push_long_place(
    places: &mut Vec<FunctionPlace>,
    place: FunctionPlace,
    function: &Function,
) -> Result<(), AllocError> {
    if function.params.len() > FEW_PARAMETERS {
        places.push(place)?;
    }
    Ok(())
}

/// Appends the places of an interface's functions that have more than a few parameters.
fn push_interface_places(
    places: &mut Vec<FunctionPlace>,
    id: InterfaceId,
    functions: &Map<String, Function>,
) -> Result<(), AllocError> {
    for index in 0..functions.len() {
        if let Some(function) = function_of_interface(functions, index) {
            push_long_place(places, FunctionPlace::Interface(id, index), function)?;
        }
    }
    Ok(())
}

/// The place of an item that a world imports or exports.
fn item_place(id: WorldId, imported: bool, index: usize) -> FunctionPlace {
    if imported {
        FunctionPlace::Import(id, index)
    } else {
        FunctionPlace::Export(id, index)
    }
}

/// Appends the places of the functions among a world's items that have more than a few parameters.
fn push_item_places(
    places: &mut Vec<FunctionPlace>,
    id: WorldId,
    imported: bool,
    items: &Map<WorldKey, WorldItem>,
) -> Result<(), AllocError> {
    for index in 0..items.len() {
        if let Some(function) = function_of_items(items, index) {
            push_long_place(places, item_place(id, imported, index), function)?;
        }
    }
    Ok(())
}

/// Appends the places of all interfaces' functions that have more than a few parameters, in order.
fn push_places_of_interfaces(
    places: &mut Vec<FunctionPlace>,
    parts: &Parts,
) -> Result<(), AllocError> {
    let mut next = 0u32;
    for interface in &parts.interfaces {
        push_interface_places(places, InterfaceId(next), &interface.functions)?;
        next = next.saturating_add(1);
    }
    Ok(())
}

/// Appends the places of the functions with more than a few parameters that worlds import or export, in order.
fn push_places_of_worlds(
    places: &mut Vec<FunctionPlace>,
    parts: &Parts,
    imported: bool,
) -> Result<(), AllocError> {
    let mut next = 0u32;
    for world in &parts.worlds {
        let items = if imported {
            &world.imports
        } else {
            &world.exports
        };
        push_item_places(places, WorldId(next), imported, items)?;
        next = next.saturating_add(1);
    }
    Ok(())
}

/// The places of the functions that have more than a few parameters, in order.
fn long_places(alloc: Global, parts: &Parts) -> Result<Vec<FunctionPlace>, AllocError> {
    let mut places = Vec::new(alloc);
    push_places_of_interfaces(&mut places, parts)?;
    push_places_of_worlds(&mut places, parts, true)?;
    push_places_of_worlds(&mut places, parts, false)?;
    Ok(places)
}

/// Makes the cache of the function at a place.
fn long_function(
    alloc: Global,
    entries: &[FuturesEntry],
    flats: &[Vec<WasmType>],
    place: FunctionPlace,
    function: &Function,
) -> Result<LongFunction, AllocError>
    ensures { IfOk result (λ e. (r : ResolveView) →
        AreFuturesEntries r.types (map entry_view entries.now) →
        AreFlattened r.types (lists flats.now) →
        IsFunctionIn (length r.types) (function_view function.now) →
        function_at_place r place ≡ Some (function_view function.now) → IsLongFunction r e) }
{
    let mut roots = Vec::new(alloc);
    push_passed(&mut roots, function)?;
    let parts = parts_for(alloc, entries, &roots)?;
    let ends = ends_for(alloc, entries, &roots)?;
    let own_flats = flat_fields(alloc, flats, &function.params)?;
    Ok(LongFunction {
        place,
        parts,
        ends,
        flats: own_flats,
    })
}

/// Makes the cache of the function at a place, if there is one.
fn long_function_at(
    alloc: Global,
    parts: &Parts,
    entries: &[FuturesEntry],
    flats: &[Vec<WasmType>],
    place: FunctionPlace,
) -> Result<Option<LongFunction>, AllocError>
    requires ranges { AreIdsInRange (parts_view parts.now) }
    requires entries { AreFuturesEntries (parts_view parts.now).types (map entry_view entries.now) }
    requires flats { AreFlattened (parts_view parts.now).types (lists flats.now) }
    ensures { IfOk result (λ e. IfSome e (IsLongFunction (parts_view parts.now))) }
{
    match function_of(parts, place) {
        Some(function) => Ok(Some(long_function(alloc, entries, flats, place, function)?)),
        None => Ok(None),
    }
}

/// Makes the caches of the functions at these places.
fn functions_at(
    alloc: Global,
    parts: &Parts,
    entries: &[FuturesEntry],
    flats: &[Vec<WasmType>],
    places: &[FunctionPlace],
) -> Result<Vec<LongFunction>, AllocError>
    requires ranges { AreIdsInRange (parts_view parts.now) }
    requires entries { AreFuturesEntries (parts_view parts.now).types (map entry_view entries.now) }
    requires flats { AreFlattened (parts_view parts.now).types (lists flats.now) }
    ensures { IfOk result (λ v. All (IsLongFunction (parts_view parts.now)) v.items) }
{
    let mut kept = Vec::new(alloc);
    for place in places {
        if let Some(function) = long_function_at(alloc, parts, entries, flats, *place)? {
            kept.push(function)?;
        }
    }
    Ok(kept)
}

/// Makes the caches of the functions that have more than a few parameters, in the order of their places.
pub(crate) fn long_functions(
    alloc: Global,
    parts: &Parts,
    entries: &[FuturesEntry],
    flats: &[Vec<WasmType>],
) -> Result<Vec<LongFunction>, AllocError>
    requires ranges { AreIdsInRange (parts_view parts.now) }
    requires entries { AreFuturesEntries (parts_view parts.now).types (map entry_view entries.now) }
    requires flats { AreFlattened (parts_view parts.now).types (lists flats.now) }
    ensures { IfOk result (λ v. All (IsLongFunction (parts_view parts.now)) v.items) }
{
    let places = long_places(alloc, parts)?;
    functions_at(alloc, parts, entries, flats, &places)
}

/// The rank of a place in the order of places: the kind of its owner, the owner's id, and the index there.
fn rank(place: FunctionPlace) -> (u8, u32, usize) {
    match place {
        FunctionPlace::Interface(id, index) => (0, id.0, index),
        FunctionPlace::Import(id, index) => (1, id.0, index),
        FunctionPlace::Export(id, index) => (2, id.0, index),
    }
}

/// Whether a place is before another one.
fn is_before(place: FunctionPlace, other: FunctionPlace) -> bool {
    let (kind, id, index) = rank(place);
    let (other_kind, other_id, other_index) = rank(other);
    if kind != other_kind {
        return kind < other_kind;
    }
    if id != other_id {
        return id < other_id;
    }
    index < other_index
}

/// How many functions are before a place, found by halving.
fn functions_before(kept: &[LongFunction], place: FunctionPlace) -> usize {
    let mut low = 0;
    let mut high = kept.len();
    while low < high {
        let middle = low + (high - low) / 2;
        if is_before(kept[middle].place, place) {
            low = middle + 1;
        } else {
            high = middle;
        }
    }
    low
}

/// The cache of a function, if the function is at this place.
fn if_at(kept: &LongFunction, place: FunctionPlace) -> Option<&LongFunction>
    ensures kept { (r : ResolveView) → IsLongFunction r kept.now →
        IfSome result (λ e. IsLongFunction r e.now) }
    ensures place { IfSome result (λ e. e.now.place ≡ place) }
{
    if kept.place == place {
        Some(kept)
    } else {
        None
    }
}

/// Finds the cache of the function at a place, if there is one.
fn find(kept: &[LongFunction], place: FunctionPlace) -> Option<&LongFunction>
    ensures kept { (r : ResolveView) → All (IsLongFunction r) kept.now →
        IfSome result (λ e. IsLongFunction r e.now) }
    ensures place { IfSome result (λ e. e.now.place ≡ place) }
{
    let index = functions_before(kept, place);
    if index < kept.len() {
        if_at(&kept[index], place)
    } else {
        None
    }
}

/// The future or stream at index `n` of a function, by its cache.
fn nth_of_kept(resolve: &Resolve, kept: &LongFunction, n: u64) -> Option<TypeId>
    requires kept { IsLongFunction resolve.now kept.now }
    requires small { n < 2 ^ 32 }
    ensures { option_map id_index result ≡ option_and_then
        (λ f. slice_get (function_futures resolve.now f) n)
        (function_at_place resolve.now kept.now.place) }
{
    let index = ends_passed(&kept.ends, n);
    if index < kept.parts.len() {
        let left = n - count_before(&kept.ends, index);
        Some(nth(resolve, kept.parts[index], left))
    } else {
        None
    }
}

impl Resolve {
    /// The future or stream at an index, from 0, in the list of `Function::find_futures_and_streams` for the function
    /// at a place; `None` if the list ends before it, or if no function is there. The list is not made. The result is
    /// that of `Function::nth_future_or_stream`, but a function with many parameters is not walked.
    pub fn nth_future_or_stream_at(&self, place: FunctionPlace, n: u32) -> Option<TypeId>
        ensures { option_map id_index result ≡ option_and_then
            (λ f. slice_get (function_futures self.now f) n) (function_at_place self.now place) }
    {
        match find(self.long_functions(), place) {
            Some(kept) => nth_of_kept(self, kept, u64::from(n)),
            None => self.nth_by_walk(place, n),
        }
    }

    /// The core signature of the function at a place, as `wasm_signature` makes it; `None` if no function is there. A
    /// function with many parameters is not walked.
    ///
    /// # Errors
    ///
    /// `AllocError`: an allocation failed.
    pub fn wasm_signature_at(
        &self,
        alloc: Global,
        abi: AbiVariant,
        place: FunctionPlace,
    ) -> Result<Option<WasmSignature>, AllocError>
        ensures { IfOk result (λ s. option_map signature_view s ≡ option_map
            (flatten_functype (flat_of self.now.types) abi) (function_at_place self.now place)) }
    {
        match self.function_at(place) {
            Some(function) => Ok(Some(self.signature_at(alloc, abi, place, function)?)),
            None => Ok(None),
        }
    }

    /// The core signature of the function at a place, by its cache, if there is one.
    fn signature_at(
        &self,
        alloc: Global,
        abi: AbiVariant,
        place: FunctionPlace,
        function: &Function,
    ) -> Result<WasmSignature, AllocError>
        requires { function_at_place self.now place ≡ Some (function_view function.now) }
        ensures { IfOk result (λ s. signature_view s ≡
            flatten_functype (flat_of self.now.types) abi (function_view function.now)) }
    {
        self.well_formedness();
        match find(self.long_functions(), place) {
            Some(kept) => signature_by(alloc, self.flats(), abi, function, &kept.flats),
            None => signature_of(alloc, self.flats(), abi, function),
        }
    }

    /// The future or stream at an index of the function at a place, whose parameters are walked.
    fn nth_by_walk(&self, place: FunctionPlace, n: u32) -> Option<TypeId>
        ensures { option_map id_index result ≡ option_and_then
            (λ f. slice_get (function_futures self.now f) n) (function_at_place self.now place) }
    {
        self.well_formedness();
        match self.function_at(place) {
            Some(function) => function.nth_future_or_stream(self, n),
            None => None,
        }
    }
}
