//! The adapters of a component, and what is required of each.

ghost use Rattle.std.specs.Prelude.{◌≡◌, [], ◌++◌, IfErr, IfOk, List, OnOk, map};
ghost use Rattle.std.specs.Option.{option_map, option_to_list};
ghost use Rattle.wc_why.specs.Texts.{text_of};
ghost use Rattle.wc_module_ways.specs.Adapters.{AreAdapters, IsAdapterFor, adapter_view, given_view};
ghost use Rattle.wc_module_ways.specs.Names.{NamePair};
ghost use Rattle.wc_module_ways.specs.Refusals.{IsAdapterUnread, IsAdaptersRefusal, IsGivenRefusal};
ghost use Rattle.wc_module_ways.specs.NameLists.{AreListed, listed};

use crate::adapter::AdapterModule;
use crate::name_lists::NameLists;
use crate::refusals::{ModulesRefusal, of_adapter};
use crate::required::{always_names, is_needed, required_names};
use std::alloc::{AllocError, Global};
use wc_import_paths::{ModuleRows, Refusal, read_code};
use wc_maps::{Seed, Set};
use wc_read::Module;

/// Wanted functions and exports of adapters, under the adapters' names.
#[derive(Clone, Copy)]
pub(crate) struct Wanted<'w, 'r> {
    /// The functions that the main module imports.
    pub(crate) imported: &'w NameLists<'r>,
    /// The exports that are asked for.
    pub(crate) asked: &'w NameLists<'r>,
}

/// The adapters, of those with these names and bytes, that a component needs, in order. `seed`: the seed of sets.
pub(crate) fn read_adapters<'r>(
    alloc: Global,
    seed: Seed,
    given: &[(&'r str, &'r [u8])],
    wanted: Wanted<'_, 'r>,
) -> Result<Vec<AdapterModule<'r>>, ModulesRefusal<'r>>
    ensures adapters { (imported asked : List NamePair) →
        AreListed imported wanted.entry.imported.now.entries →
        AreListed asked wanted.entry.asked.now.entries →
        IfOk result (λ v. AreAdapters imported asked (map given_view given.now)
        (map adapter_view v.items)) }
    ensures refused { IfErr result (IsAdaptersRefusal (map given_view given.now)) }
{
    let mut adapters = Vec::new(alloc);
    for index in 0..given.len() {
        let adapter = read_given(alloc, seed, given[index], wanted)?;
        push_some(adapter, &mut adapters)?;
    }
    Ok(adapters)
}

/// Appends an adapter, if there is one.
fn push_some<'r>(
    adapter: Option<AdapterModule<'r>>,
    adapters: &mut Vec<AdapterModule<'r>>,
) -> Result<(), AllocError>
    ensures { OnOk result (map adapter_view adapters.new.items ≡ map adapter_view adapters.old.items
        ++ option_to_list (option_map adapter_view adapter.entry)) }
{
    match adapter {
        Some(adapter) => {
            adapters.push(adapter)?;
            Ok(())
        }
        None => Ok(()),
    }
}

/// The adapter with this name and these bytes, if a component needs it.
fn read_given<'r>(
    alloc: Global,
    seed: Seed,
    given: (&'r str, &'r [u8]),
    wanted: Wanted<'_, 'r>,
) -> Result<Option<AdapterModule<'r>>, ModulesRefusal<'r>>
    ensures adapter { (imported asked : List NamePair) →
        AreListed imported wanted.entry.imported.now.entries →
        AreListed asked wanted.entry.asked.now.entries →
        IfOk result (λ o. IsAdapterFor imported asked (given_view given.entry)
        (option_map adapter_view o)) }
    ensures refused { IfErr result (IsGivenRefusal (given_view given.entry)) }
{
    match read_adapter(alloc, seed, given, wanted) {
        Ok(adapter) => Ok(adapter),
        Err(refused) => Err(of_adapter(given.0, given.1, refused)),
    }
}

/// The adapter with this name and these bytes, if a component needs it; or why the bytes are no module.
fn read_adapter<'r>(
    alloc: Global,
    seed: Seed,
    given: (&'r str, &'r [u8]),
    wanted: Wanted<'_, 'r>,
) -> Result<Option<AdapterModule<'r>>, Refusal>
    ensures adapter { (imported asked : List NamePair) →
        AreListed imported wanted.entry.imported.now.entries →
        AreListed asked wanted.entry.asked.now.entries →
        IfOk result (λ o. IsAdapterFor imported asked (given_view given.entry)
        (option_map adapter_view o)) }
    ensures refused { IfErr result (λ r. IsAdapterUnread given.entry.1.now r.fault r.place) }
{
    let (name, bytes) = given;
    let code = read_code(alloc, bytes)?;
    let imported = names_at(wanted.imported, name, &[]);
    let asked = names_at(wanted.asked, name, &[]);
    if !is_needed(imported, &code, asked) {
        return Ok(None);
    }
    let required = required_names(alloc, seed, imported, &code, asked)?;
    let always = always_names(alloc, &code, asked)?;
    let rows = ModuleRows::bare(alloc, &code)?;
    Ok(Some(AdapterModule {
        name,
        bytes,
        code,
        rows,
        required,
        always,
    }))
}

/// The names that are listed under a key; else none.
pub(crate) fn names_at<'l, 'a>(
    lists: &'l NameLists<'a>,
    key: &str,
    none: &'l [&'a str],
) -> &'l [&'a str]
    requires { none.now ≡ [] }
    ensures { map text_of result.now ≡ listed lists.now.entries key.now }
{
    match lists.get(key) {
        Some(names) => names.as_slice(),
        None => none,
    }
}
