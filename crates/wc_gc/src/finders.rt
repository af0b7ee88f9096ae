//! Searches that note by which item each item was found.

ghost use Rattle.std.specs.Prelude.{◌≡◌, ◌<◌, ◌++◌, ◌↔◌, ℕ, List, length, All, Contains, IsTrue, MatchOption, true, slice_index, IsOk, IfOk, IfErr, OnOk};
ghost use Rattle.wc_gc.specs.Bits.{bit_of};
ghost use Rattle.wc_read.specs.Decoded.{ItemIndex, decoded_module, is_in};
ghost use Rattle.wc_read.specs.Entries.{refs_in};
ghost use Rattle.wc_gc.specs.InRange.{is_item_in_range};
ghost use Rattle.wc_gc.specs.Exports.{AreNamed, export_entries};
ghost use Rattle.wc_gc.specs.LiveChains.{item_named, items_named};
ghost use Rattle.wc_gc.specs.LiveItems.{names_of};
ghost use Rattle.wc_graph.specs.Reached.{IsReachedFrom};
ghost use Rattle.wc_gc.specs.Private.TrimPlace.{HasFound, IsStop};
ghost use Rattle.wc_graph.specs.Finders.{AreFound};
ghost use Rattle.wc_gc.specs.Private.Roots.{AreNamedRoots, FindsRoot};
ghost use Rattle.wc_gc.specs.Private.Search.{IsConsistent};

use crate::fault::GcFault;
use crate::live::BitVec;
use crate::live_items::exported_item;
use crate::search::{Search, Stop};
use std::alloc::{AllocError, Global};
use wc_maps::{Map, Set};
use wc_read::{Export, Module, Space};

/// Items of exports, as they were found, and for each the first of the names that it is exported by.
#[derive(Drop)]
pub struct Roots<'a> {
    pub search: Search<BitVec>,
    pub exports: Vec<&'a str>,
}

/// Items in the order in which a search found them, and for each the position of its finder. An item that the search
/// began with has its own.
#[derive(Drop)]
pub struct Finders {
    pub order: Vec<(Space, u32)>,
    pub finder: Vec<usize>,
}

/// Finds the items of exports, in the order of their names.
pub fn find_roots<'a>(
    alloc: Global,
    named: &Map<&str, Export<'_>>,
    required: &'a Set<String>,
) -> Result<Roots<'a>, AllocError>
    requires { AreNamed named.now.entries }
    ensures found { IfOk result (λ r. HasFound
        (items_named (export_entries named.now.entries) (names_of required.now.keys)) r.search) }
    ensures named { IfOk result (AreNamedRoots (names_of required.now.keys)
        (export_entries named.now.entries)) }
{
    let mut roots = Roots {
        search: Search::<BitVec>::new(alloc),
        exports: Vec::new(alloc),
    };
    for name in required {
        find_named(&mut roots, named, name.as_str())?;
    }
    Ok(roots)
}

/// Finds the item that is exported by a name, if there is one.
fn find_named<'a>(
    roots: &mut Roots<'a>,
    named: &Map<&str, Export<'_>>,
    name: &'a str,
) -> Result<(), AllocError>
    requires { AreNamed named.now.entries }
    ensures { OnOk result (MatchOption
        (item_named (export_entries named.now.entries) name.entry.now)
        (roots.new ≡ roots.old) (λ x. FindsRoot roots.old roots.new x name.entry)) }
{
    match item_named(named, name) {
        Some(item) => find_root(roots, item, name),
        None => Ok(()),
    }
}

/// The item that is exported by a name.
fn item_named(named: &Map<&str, Export<'_>>, name: &str) -> Option<(Space, u32)>
    requires { AreNamed named.now.entries }
    ensures { result ≡ item_named (export_entries named.now.entries) name.now }
{
    match named.get(name) {
        Some(export) => Some(exported_item(export)),
        None => None,
    }
}

/// Finds an item that is exported by a name.
fn find_root<'a>(roots: &mut Roots<'a>, item: (Space, u32), name: &'a str) -> Result<(), AllocError>
    ensures { OnOk result (FindsRoot roots.old roots.new item name.entry) }
{
    if roots.search.live.insert(item)? {
        roots.search.order.push(item)?;
        roots.exports.push(name)?;
    }
    Ok(())
}

/// Finds what the items of a search reach, and for each item its finder.
pub fn find_all(alloc: Global, adapter: &Module<'_>, roots: Search<BitVec>) -> Result<Finders, Stop>
    requires consistent { IsConsistent (λ b. bit_of b.words.items) roots }
    requires there { All (λ x. IsTrue (is_in (decoded_module adapter.now) x)) roots.order.items }
    ensures found { IfOk result (λ f. AreFound (refs_in (decoded_module adapter.now))
        roots.order.items f.order.items f.finder.items) }
    ensures begins { IfOk result (λ f. (more : List ItemIndex)
        × (f.order.items ≡ roots.order.items ++ more)) }
    ensures reached { IfOk result (λ f. (x : ItemIndex) → Contains f.order.items x
        ↔ IsReachedFrom (refs_in (decoded_module adapter.now)) roots.order.items x) }
    ensures own { IfOk result (λ f. (k : ℕ) → k < length f.order.items
        → slice_index f.finder.items k ≡ k → k < length roots.order.items) }
    ensures in_range { IsOk result → (x : ItemIndex) →
        IsReachedFrom (refs_in (decoded_module adapter.now)) roots.order.items x →
        is_item_in_range (decoded_module adapter.now) x ≡ true }
    ensures stop { IfErr result (IsStop (decoded_module adapter.now) roots.order.items) }
{
    let mut search = roots;
    let mut finder = own_positions(alloc, search.order.len())?;
    let mut next: usize = 0;
    while next < search.order.len() {
        let item = search.order[next];
        match search.reach_from(alloc, adapter, item) {
            Ok(()) => {
                finder.resize(search.order.len(), next)?;
                next += 1;
            }
            Err(fault) => match fault {
                GcFault::LiveBody => return Err(Stop::Body(item.1)),
                // An allocation failed.
                _ => return Err(Stop::Memory),
            },
        }
    }
    Ok(Finders {
        order: search.order,
        finder,
    })
}

/// For each of so many items its own position.
fn own_positions(alloc: Global, count: usize) -> Result<Vec<usize>, AllocError>
    ensures each { IfOk result (λ v. length v.items ≡ count) }
    ensures own { IfOk result (λ v. (k : ℕ) → k < count → slice_index v.items k ≡ k) }
{
    let mut positions = Vec::new(alloc);
    for position in 0..count {
        positions.push(position)?;
    }
    Ok(positions)
}
