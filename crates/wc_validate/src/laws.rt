//! Laws of what is recorded of modules, and of why they are refused: contracts of functions that do nothing when they
//! run.

ghost use Rattle.wc_validate.specs.Laws.{EntriesInRange, EntriesUnique, PlacesAreCauses, RecordedExportsInRange, RecordsAreImports, RecordsExcludeFaults, RecordsInRange, RecordsUnique, SignaturesFixed};
ghost use Rattle.wc_validate.specs.MemoryTypes.{RecordedMemoriesValid};
ghost use Rattle.wc_validate.specs.Restriction.{RestrictionsRecorded, RestrictionsValid};

use wc_encoder::ComponentEncoder;
use wc_names::laws::{exports_in_range, exports_unique, meanings_in_range, meanings_unique};
use wc_read::laws::modules_unique;
use wc_resolve::Resolve;

/// Of a module there is one record at most, of its imports and of its exports, for one validation input: an encoder,
/// what a library is passed, original names, and what the module has to export. It does nothing when it runs.
pub fn records_unique(encoder: &ComponentEncoder)
    ensures { RecordsUnique encoder.now }
{
    let metadata = encoder.metadata();
    meanings_unique(&metadata.resolve);
    exports_unique();
    modules_unique();
}

/// A module that is recorded has no cause of a fault but `Memory`: where `validate_module` or `validate_adapter_module`
/// succeeds, no other fault could have been answered. It does nothing when it runs.
pub fn records_exclude_faults(encoder: &ComponentEncoder)
    ensures { RecordsExcludeFaults encoder.now }
{
    let metadata = encoder.metadata();
    meanings_unique(&metadata.resolve);
    exports_unique();
    modules_unique();
}

/// An import is recorded as one thing at most. It does nothing when it runs.
pub fn entries_unique(resolve: &Resolve)
    ensures { EntriesUnique resolve.now }
{
    meanings_unique(resolve);
}

/// An import that is recorded by its name, and not by an argument of a library, and whose name fixes a signature, has
/// exactly that one. It does nothing when it runs.
pub fn signatures_fixed(resolve: &Resolve)
    ensures { SignaturesFixed resolve.now }
{
    meanings_unique(resolve);
}

/// A recorded import names only items that are there (`wc_names::laws::meanings_in_range`). It does nothing when it
/// runs.
pub fn entries_in_range(resolve: &Resolve)
    ensures { EntriesInRange resolve.now }
{
    meanings_in_range(resolve);
}

/// All that is recorded of a module are its imports, each by its own entry. It does nothing when it runs.
pub fn records_are_imports(encoder: &ComponentEncoder)
    ensures { RecordsAreImports encoder.now }
{
    // The law holds of any encoder by the definitions alone; as the other laws of records it is called with one.
    let _ = encoder;
}

/// The recorded imports of a module name only items that are there (`wc_names::laws::meanings_in_range`). It does
/// nothing when it runs.
pub fn records_in_range(encoder: &ComponentEncoder)
    ensures { RecordsInRange encoder.now }
{
    let metadata = encoder.metadata();
    meanings_in_range(&metadata.resolve);
}

/// The recorded exports of a module are for items that are there (`wc_names::laws::exports_in_range`). It does nothing
/// when it runs.
pub fn recorded_exports_in_range(encoder: &ComponentEncoder)
    ensures { RecordedExportsInRange encoder.now }
{
    let metadata = encoder.metadata();
    exports_in_range(&metadata.resolve);
}

/// The memory that a module is recorded to import has a type as modules have them: the exponent of its pages is 16 at
/// most. It does nothing when it runs.
pub fn recorded_memories_valid()
    ensures { RecordedMemoriesValid }
{}

/// A module that has imports of another, each at most once, besides functions of the main module, and at least those of
/// its exports that are recorded or required, is refused only where two of its imports have one name of the main
/// module, if the other module is valid for the same validation input. It does nothing when it runs.
pub fn restrictions_valid(encoder: &ComponentEncoder)
    ensures { RestrictionsValid encoder.now }
{
    let metadata = encoder.metadata();
    meanings_unique(&metadata.resolve);
    exports_unique();
}

/// The record of a module that restricts a valid one, and is valid too: of its imports the records of those that it has
/// of the other, and functions of the main module; and the same exports. It does nothing when it runs.
pub fn restrictions_recorded(encoder: &ComponentEncoder)
    ensures { RestrictionsRecorded encoder.now }
{
    let metadata = encoder.metadata();
    meanings_unique(&metadata.resolve);
    exports_unique();
}

/// A fault that has a place in a module has a cause there: it is one of those that `validate_module` or
/// `validate_adapter_module` may answer for the same validation input. It does nothing when it runs.
pub fn places_are_causes()
    ensures { PlacesAreCauses }
{}
