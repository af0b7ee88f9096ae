//! Positions of the first imports of functions of adapters, module by module.

ghost use Rattle.std.specs.Prelude.{◌≡◌, [], IfOk, map};
ghost use Rattle.wc_validate.specs.Imports.FirstFunctions.{HasFirstFunctions, IsModuleNoted};
ghost use Rattle.wc_texts.specs.Names.{named_view};
ghost use Rattle.wc_validate.specs.Imports.Instances.{instance_entry};
ghost use Rattle.wc_validate.specs.Private.Imports.AdapterFunctions.{position_of, ArePositionsAdded, first_positions};

use crate::first_by_key::keep_name;
use crate::imports::instances::ImportInstance;
use crate::imports::map::adapter_function;
use std::alloc::{AllocError, Global};
use wc_maps::{Map, Seed};
use wc_names::Import;

/// Of each module that has functions of adapters, the position of the first import of each of them, in the order of
/// these imports.
#[derive(Drop)]
pub(crate) struct FirstFunctions {
    pub(crate) modules: Map<String, Map<String, usize>>,
}

/// Keeps the position of the function of an adapter that an import is, if it is one and none of its name is there.
fn keep_function(
    alloc: Global,
    positions: &mut Map<String, usize>,
    import: &Import,
    position: usize,
) -> Result<(), AllocError>
    ensures { ArePositionsAdded positions.old.entries positions.new.entries
        (position_of position import.now) result }
{
    match adapter_function(import) {
        Some((name, _)) => keep_name(alloc, positions, name, position),
        None => Ok(()),
    }
}

/// The positions of the first import of each function of an adapter, among imports of one module.
fn functions_among(
    alloc: Global,
    names: &Map<String, Import>,
) -> Result<Map<String, usize>, AllocError>
    ensures { IfOk result (λ p. map named_view p.entries ≡ first_positions names.now.entries) }
{
    let mut positions = Map::with_hasher(alloc, *names.hasher());
    let mut position: usize = 0;
    for (_name, import) in names.iter() {
        keep_function(alloc, &mut positions, import, position)?;
        position += 1;
    }
    Ok(positions)
}

impl FirstFunctions {
    /// No positions.
    pub(crate) fn new(alloc: Global, seed: Seed) -> FirstFunctions
        ensures { HasFirstFunctions result [] }
    {
        FirstFunctions {
            modules: Map::with_hasher(alloc, seed),
        }
    }

    /// Adds the positions of a module that has none yet, if it has functions of adapters.
    fn add_module(
        &mut self,
        alloc: Global,
        name: &str,
        instance: &ImportInstance,
    ) -> Result<(), AllocError>
        ensures { IsModuleNoted self.old self.new name.now instance.now result }
    {
        let ImportInstance::Names(names) = instance else {
            return Ok(());
        };
        let positions = functions_among(alloc, names)?;
        if positions.is_empty() {
            return Ok(());
        }
        self.modules
            .insert(String::from_str(alloc, name)?, positions)?;
        Ok(())
    }

    /// The positions of the first imports among these.
    pub(crate) fn among(
        alloc: Global,
        instances: &Map<String, ImportInstance>,
    ) -> Result<FirstFunctions, AllocError>
        ensures { IfOk result (λ first. HasFirstFunctions first
            (map instance_entry instances.now.entries)) }
    {
        let mut first = FirstFunctions::new(alloc, *instances.hasher());
        for (name, instance) in instances.iter() {
            first.add_module(alloc, name, instance)?;
        }
        Ok(first)
    }
}
