//! The records of a core module's imports, module by module.

ghost use Rattle.std.specs.Prelude.{◌≡◌, IfErr, IfOk, OnOk, map};
ghost use Rattle.wc_adapters.specs.Adapters.{which_view};
ghost use Rattle.wc_validate.specs.Imports.Entries.{all_of};
ghost use Rattle.wc_validate.specs.Imports.Instances.{IsFree, IsInstanceFault, IsPutFault, instance_entry, instance_view, IsPutAs, IsPutWhole, IsRecordedAs, IsRefusedWhole};
ghost use Rattle.wc_validate.specs.Private.Imports.AdapterFunctions.{IsOneEntry};

use crate::ValidateFault;
use std::alloc::{AllocError, Global};
use wc_encoder::MainOrAdapter;
use wc_maps::{Map, Seed};
use wc_names::Import;

/// The record of the imports from one module: a module of the component, all of it, or single imports by their names.
#[derive(Drop)]
pub enum ImportInstance {
    Whole(MainOrAdapter),
    Names(Map<String, Import>),
}

/// A map of one entry.
pub(crate) fn one_entry<V: Drop>(
    alloc: Global,
    seed: Seed,
    name: &str,
    value: V,
) -> Result<Map<String, V>, AllocError>
    ensures { IfOk result (λ names. IsOneEntry name.now value names.entries) }
{
    let mut names = Map::with_hasher(alloc, seed);
    names.insert(String::from_str(alloc, name)?, value)?;
    Ok(names)
}

/// Records an import after the others of its module.
///
/// # Errors
///
/// - `Mixed`: all of another module is recorded for this one.
/// - `DuplicateImport`: the name is recorded already.
/// - `Memory`: an allocation failed.
pub(crate) fn put_import(
    alloc: Global,
    instances: &mut Map<String, ImportInstance>,
    module_name: &str,
    name: &str,
    import: Import,
) -> Result<(), ValidateFault>
    ensures put { OnOk result (IsPutAs instances.old.entries instances.new.entries module_name.now
        name.now import) }
    ensures free { OnOk result (IsFree (map instance_entry instances.old.entries) module_name.now
        name.now) }
    ensures fault { IfErr result (IsPutFault (map instance_entry instances.old.entries)
        module_name.now name.now) }
{
    if let Some(instance) = instances.get_mut(module_name) {
        return match instance {
            ImportInstance::Whole(_) => Err(ValidateFault::Mixed),
            ImportInstance::Names(names) => {
                if names.contains_key(name) {
                    return Err(ValidateFault::DuplicateImport);
                }
                names.insert(String::from_str(alloc, name)?, import)?;
                Ok(())
            }
        };
    }
    let names = one_entry(alloc, *instances.hasher(), name, import)?;
    instances.insert(
        String::from_str(alloc, module_name)?,
        ImportInstance::Names(names),
    )?;
    Ok(())
}

/// Records an import as the entry after these.
///
/// # Errors
///
/// - `Mixed`: all of another module is recorded for its module.
/// - `DuplicateImport`: its name is recorded already.
/// - `Memory`: an allocation failed.
pub(crate) fn record_import(
    alloc: Global,
    instances: &mut Map<String, ImportInstance>,
    module_name: &str,
    name: &str,
    import: Import,
) -> Result<(), ValidateFault>
    ensures recorded { IsRecordedAs instances.old.entries instances.new.entries module_name.now
        name.now import result }
    ensures free { OnOk result (IsFree (map instance_entry instances.old.entries) module_name.now
        name.now) }
    ensures fault { IfErr result (IsPutFault (map instance_entry instances.old.entries)
        module_name.now name.now) }
{
    put_import(alloc, instances, module_name, name, import)
}

/// Whether all of this module of the component is recorded of a module.
///
/// # Errors
///
/// - `WholeDiffers`: all of another one is.
/// - `Mixed`: single imports are.
fn check_whole(instance: &ImportInstance, which: &MainOrAdapter) -> Result<(), ValidateFault>
    ensures same { OnOk result (instance_view instance.now ≡ all_of (which_view which.now)) }
    ensures fault { IfErr result (IsInstanceFault (instance_view instance.now)
        (which_view which.now)) }
{
    match instance {
        ImportInstance::Whole(other) => {
            if other == which {
                Ok(())
            } else {
                Err(ValidateFault::WholeDiffers)
            }
        }
        ImportInstance::Names(_) => Err(ValidateFault::Mixed),
    }
}

/// Records that all of a module of the component is imported from a module.
///
/// # Errors
///
/// - `WholeDiffers`: all of another one is recorded for the module.
/// - `Mixed`: single imports of the module are recorded.
/// - `Memory`: an allocation failed.
pub(crate) fn put_whole(
    alloc: Global,
    instances: &mut Map<String, ImportInstance>,
    module_name: &str,
    which: &MainOrAdapter,
) -> Result<(), ValidateFault>
    ensures put { OnOk result (IsPutWhole instances.old.entries instances.new.entries
        module_name.now which.now) }
    ensures fault { IfErr result (IsRefusedWhole instances.old.entries module_name.now which.now) }
{
    if let Some(instance) = instances.get(module_name) {
        return check_whole(instance, which);
    }
    let instance = ImportInstance::Whole(which.clone(alloc)?);
    instances.insert(String::from_str(alloc, module_name)?, instance)?;
    Ok(())
}
