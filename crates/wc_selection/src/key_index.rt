//! The keys of a world's exports by their texts, for many modules: each text is looked up, and no module goes over all
//! keys.

ghost use Rattle.std.specs.Prelude.{◌≡◌, ◌<◌, ◌++◌, All, IfOk, List, OnOk, length, map, ℕ};
ghost use Rattle.wc_resolve.specs.Views.{key_view};
ghost use Rattle.wc_selection.specs.AdapterKeys.{AreAdapterKeys};
ghost use Rattle.wc_selection.specs.KeyIndex.{AreApart, ArePositions, AreSorted, key_at, keys_under, listed_positions, viewed_key};
ghost use Rattle.wc_selection.specs.Keys.{AreKeysApart, NamedKey, named_key};
ghost use Rattle.wc_selection.specs.ModuleKeys.{required_keys};
ghost use Rattle.wc_selection.specs.RequiredTexts.{texts_under};
ghost use Rattle.wc_selection.specs.Requests.{RequestValue, request_value};
ghost use Rattle.wc_selection.specs.TextLists.{ListsMore, listed};
ghost use Rattle.wc_maps.specs.Texts.{text_of, text_pair};

use crate::requests::KeyRequest;
use std::alloc::{AllocError, Global};
use std::marker::Model;
use wc_maps::{Map, Seed, Set};
use wc_resolve::WorldKey;

/// Lists a value under a text, after the others of that text.
fn list_under<'k, V: Drop>(
    alloc: Global,
    lists: &mut Map<&'k str, Vec<V>>,
    text: &'k str,
    value: V,
) -> Result<(), AllocError>
    ensures { OnOk result (ListsMore lists.old.entries lists.new.entries text.now value) }
{
    if let Some(others) = lists.get_mut(text) {
        others.push(value)?;
        return Ok(());
    }
    let mut first = Vec::new(alloc);
    first.push(value)?;
    lists.insert(text, first)?;
    Ok(())
}

/// The positions of keys under their texts. The map hashes under `seed`.
fn positions_by_text<'k>(
    alloc: Global,
    seed: Seed,
    keys: &'k [(WorldKey, String)],
) -> Result<Map<&'k str, Vec<usize>>, AllocError>
    ensures { IfOk result (λ m. ArePositions (map named_key keys.now) m.entries) }
{
    let mut positions: Map<&str, Vec<usize>> = Map::with_hasher(alloc, seed);
    for position in 0..keys.len() {
        list_under(alloc, &mut positions, keys[position].1.as_str(), position)?;
    }
    Ok(positions)
}

/// Adds the positions that are listed under a text.
fn add_listed(
    positions: &Map<&str, Vec<usize>>,
    text: &str,
    found: &mut Vec<usize>,
) -> Result<(), AllocError>
    ensures { OnOk result (found.new.items
        ≡ found.old.items ++ listed positions.now.entries text.now) }
{
    match positions.get(text) {
        Some(list) => found.extend_from_slice(list),
        None => Ok(()),
    }
}

/// The positions that are listed under these texts, text by text.
fn listed_positions(
    alloc: Global,
    positions: &Map<&str, Vec<usize>>,
    texts: &[&str],
) -> Result<Vec<usize>, AllocError>
    ensures { IfOk result (λ v. v.items
        ≡ listed_positions positions.now.entries (map text_of texts.now)) }
{
    let mut found = Vec::new(alloc);
    for text in texts {
        add_listed(positions, *text, &mut found)?;
    }
    Ok(found)
}

/// The positions that are listed under these texts, ascending, each once.
fn sorted_positions(
    alloc: Global,
    positions: &Map<&str, Vec<usize>>,
    texts: &[&str],
) -> Result<Vec<usize>, AllocError>
    ensures { IfOk result (λ v. AreSorted
        (listed_positions positions.now.entries (map text_of texts.now)) v.items) }
{
    let mut found = listed_positions(alloc, positions, texts)?;
    found.sort_unstable();
    found.dedup();
    Ok(found)
}

/// The keys at these positions.
fn keys_at<'k>(
    alloc: Global,
    keys: &'k [(WorldKey, String)],
    positions: &[usize],
) -> Result<Vec<&'k WorldKey>, AllocError>
    requires { All (λ p. p < length keys.now) positions.now }
    ensures { IfOk result (λ v. map viewed_key v.items
        ≡ map (key_at (map named_key keys.now)) positions.now) }
{
    let mut found = Vec::with_capacity(alloc, positions.len())?;
    for position in positions {
        found.push(&keys[*position].0)?;
    }
    Ok(found)
}

/// Keys as a set. `seed`: its seed.
fn key_set(alloc: Global, seed: Seed, keys: &[&WorldKey]) -> Result<Set<WorldKey>, AllocError>
    requires { AreApart (map viewed_key keys.now) }
    ensures { IfOk result (λ set. map key_view set.keys ≡ map viewed_key keys.now) }
{
    let mut set = Set::with_hasher(alloc, seed);
    for key in keys {
        set.insert((*key).clone(alloc)?)?;
    }
    Ok(set)
}

/// The keys of a world's exports, to look up their texts.
#[derive(Drop)]
pub struct KeyIndex<'k> {
    keys: &'k [(WorldKey, String)],
    /// The positions of the keys that have a text, in order.
    positions: Map<&'k str, Vec<usize>>,
}

impl<'k> Model for KeyIndex<'k> {
    ghost use Rattle.std.specs.Prelude.{List, map};
    ghost use Rattle.wc_selection.specs.Keys.{NamedKey, named_key};
    ghost use Rattle.wc_selection.specs.KeyIndex.{IsKeyIndex};

    ghost Value = { List NamedKey };

    ghost view = { λ i. map named_key i.keys.now };

    ghost invariant = { λ i. IsKeyIndex (map named_key i.keys.now) i.positions.entries };
}

impl<'k> KeyIndex<'k> {
    /// The index of these keys by their texts. Its map, and the sets that it gives, hash under `seed`.
    ///
    /// No key may occur twice, as in the result of `request_keys`.
    ///
    /// # Errors
    ///
    /// `AllocError`: an allocation failed.
    pub fn new(
        alloc: Global,
        seed: Seed,
        keys: &'k [(WorldKey, String)],
    ) -> Result<KeyIndex<'k>, AllocError>
        requires { AreKeysApart (map named_key keys.now) }
        ensures { IfOk result (λ index. index ≡ map named_key keys.now) }
    {
        let positions = positions_by_text(alloc, seed, keys)?;
        Ok(KeyIndex { keys, positions })
    }

    /// The keys that have one of these texts, in the order of the keys.
    ///
    /// # Errors
    ///
    /// `AllocError`: an allocation failed.
    pub fn keys_under(&self, alloc: Global, texts: &[&str]) -> Result<Set<WorldKey>, AllocError>
        ensures { IfOk result (λ set. map key_view set.keys
            ≡ keys_under (map text_of texts.now) self.now) }
    {
        let positions = sorted_positions(alloc, &self.positions, texts)?;
        let keys = keys_at(alloc, self.keys, &positions)?;
        key_set(alloc, *self.positions.hasher(), &keys)
    }
}

/// The second texts of pairs under their first ones. The map hashes under `seed`.
fn texts_by_name<'a>(
    alloc: Global,
    seed: Seed,
    pairs: &[(&'a str, &'a str)],
) -> Result<Map<&'a str, Vec<&'a str>>, AllocError>
    ensures { IfOk result (λ m. (name : List ℕ) → map text_of (listed m.entries name)
        ≡ texts_under name (map text_pair pairs.now)) }
{
    let mut texts: Map<&str, Vec<&str>> = Map::with_hasher(alloc, seed);
    for (name, text) in pairs {
        list_under(alloc, &mut texts, *name, *text)?;
    }
    Ok(texts)
}

/// The keys that adapters must export by a request.
#[derive(Drop)]
pub struct AdapterKeys<'k, 'a> {
    index: KeyIndex<'k>,
    /// The texts of the keys of each adapter, under its name.
    texts: Map<&'a str, Vec<&'a str>>,
}

impl<'k, 'a> AdapterKeys<'k, 'a> {
    /// The keys of a request for adapters, among these keys of a world's exports. The maps, and the sets that they
    /// give, hash under `seed`.
    ///
    /// No key may occur twice, as in the result of `request_keys`.
    ///
    /// # Errors
    ///
    /// `AllocError`: an allocation failed.
    pub fn new(
        alloc: Global,
        seed: Seed,
        request: &KeyRequest<'_, 'a>,
        keys: &'k [(WorldKey, String)],
    ) -> Result<AdapterKeys<'k, 'a>, AllocError>
        requires { AreKeysApart (map named_key keys.now) }
        ensures { IfOk result
            (AreAdapterKeys (request_value request.now) (map named_key keys.now)) }
    {
        let index = KeyIndex::new(alloc, seed, keys)?;
        let texts = texts_by_name(alloc, seed, request.adapter_exports)?;
        Ok(AdapterKeys { index, texts })
    }

    /// The keys that the adapter with this name must export, in the order of the keys, as `required_keys` gives them.
    /// The time depends only on the texts of this adapter.
    ///
    /// # Errors
    ///
    /// `AllocError`: an allocation failed.
    pub fn required(&self, alloc: Global, name: &str) -> Result<Set<WorldKey>, AllocError>
        ensures { (q : RequestValue) (keys : List NamedKey) → AreAdapterKeys q keys self.now
            → IfOk result (λ set. map key_view set.keys ≡ required_keys q (Some name.now) keys) }
    {
        match self.texts.get(name) {
            Some(texts) => self.index.keys_under(alloc, texts),
            None => self.index.keys_under(alloc, &[]),
        }
    }
}
