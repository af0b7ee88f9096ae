//! The arguments that a library is passed for its imports, in hashed maps.

ghost use Rattle.std.specs.Prelude.{◌≡◌, IfOk, map};
ghost use Rattle.std.specs.Option.{option_map};
ghost use Rattle.wc_adapters.specs.Adapters.{argument_view, instance_view, library_item_view, library_view};
ghost use Rattle.wc_validate.specs.Private.Imports.Arguments.{AreMatched, HasArgumentsOf, IsArgumentOf, IsItemIndexOf, passed_entry, module_entry, IsItemAdded, IsModuleAdded, alias_entries, passed_by, item_among};

use std::alloc::{AllocError, Global};
use wc_encoder::{Instance, Item, LibraryInfo, MainOrAdapter};
use wc_maps::{Map, Seed};

/// An argument of a library under a module's name: all of a module, or items by their aliases.
#[derive(Drop)]
pub(crate) enum Argument<'a> {
    Whole(&'a MainOrAdapter),
    Items(Map<&'a str, &'a Item>),
}

/// The argument of a library for one import: all of a module, or an item.
#[derive(Clone, Copy)]
pub(crate) enum PassedArgument<'a> {
    Whole(&'a MainOrAdapter),
    Item(&'a Item),
}

/// The arguments of a library, by the names of the modules that it imports from.
#[derive(Drop)]
pub(crate) struct Arguments<'a> {
    modules: Map<&'a str, Argument<'a>>,
}

/// Adds an item under an alias, if there is none of that alias.
fn add_item<'a>(
    index: &mut Map<&'a str, &'a Item>,
    alias: &'a str,
    item: &'a Item,
) -> Result<(), AllocError>
    ensures { IsItemAdded index.old.entries index.new.entries alias.now item.now result }
{
    if index.contains_key(alias) {
        return Ok(());
    }
    index.insert(alias, item)?;
    Ok(())
}

/// The items by their aliases: of each alias the first.
fn items_by_alias<'a>(
    alloc: Global,
    seed: Seed,
    items: &'a [Item],
) -> Result<Map<&'a str, &'a Item>, AllocError>
    ensures { IfOk result (λ index. IsItemIndexOf index.entries (alias_entries items.now)) }
{
    let mut index = Map::with_hasher(alloc, seed);
    for item in items {
        add_item(&mut index, item.alias.as_str(), item)?;
    }
    Ok(index)
}

/// Makes an argument of an instance.
fn argument_of<'a>(
    alloc: Global,
    seed: Seed,
    instance: &'a Instance,
) -> Result<Argument<'a>, AllocError>
    ensures { IfOk result (λ a. IsArgumentOf a (instance_view instance.now)) }
{
    match instance {
        Instance::MainOrAdapter(which) => Ok(Argument::Whole(which)),
        Instance::Items(items) => Ok(Argument::Items(items_by_alias(alloc, seed, items)?)),
    }
}

/// Adds an argument under a name, if there is none of that name.
fn add_argument<'a>(
    alloc: Global,
    index: &mut Map<&'a str, Argument<'a>>,
    name: &'a str,
    instance: &'a Instance,
) -> Result<(), AllocError>
    ensures { IsModuleAdded index.old.entries index.new.entries name.now instance.now result }
{
    if index.contains_key(name) {
        return Ok(());
    }
    let argument = argument_of(alloc, *index.hasher(), instance)?;
    index.insert(name, argument)?;
    Ok(())
}

/// Indexes arguments by their names: of each name the first.
fn arguments_by_module<'a>(
    alloc: Global,
    seed: Seed,
    arguments: &'a [(String, Instance)],
) -> Result<Map<&'a str, Argument<'a>>, AllocError>
    ensures { IfOk result (λ index. AreMatched (map module_entry index.entries)
        (map argument_view arguments.now)) }
{
    let mut index = Map::with_hasher(alloc, seed);
    for argument in arguments {
        add_argument(alloc, &mut index, argument.0.as_str(), &argument.1)?;
    }
    Ok(index)
}

/// The item of an alias.
fn item_called<'a>(items: &Map<&'a str, &'a Item>, alias: &str) -> Option<&'a Item>
    ensures { option_map (λ i. library_item_view i.now) result
        ≡ item_among items.now.entries alias.now }
{
    items.get(alias).copied()
}

impl<'a> Arguments<'a> {
    /// Indexes the arguments of a module; none if it is no library.
    pub(crate) fn new(
        alloc: Global,
        seed: Seed,
        library: Option<&'a LibraryInfo>,
    ) -> Result<Arguments<'a>, AllocError>
        ensures { IfOk result (λ a. HasArgumentsOf a
            (option_map (λ l. library_view l.now) library.entry)) }
    {
        match library {
            Some(library) => Ok(Arguments {
                modules: arguments_by_module(alloc, seed, &library.arguments)?,
            }),
            None => Ok(Arguments {
                modules: Map::with_hasher(alloc, seed),
            }),
        }
    }

    /// The argument of a library for an import.
    pub(crate) fn passed_argument(
        &self,
        module_name: &str,
        name: &str,
    ) -> Option<PassedArgument<'a>>
        ensures { option_map (passed_entry module_name.now name.now) result
            ≡ passed_by self.now module_name.now name.now }
    {
        match self.modules.get(module_name) {
            Some(Argument::Whole(which)) => Some(PassedArgument::Whole(which)),
            Some(Argument::Items(items)) => match item_called(items, name) {
                Some(item) => Some(PassedArgument::Item(item)),
                None => None,
            },
            None => None,
        }
    }
}
