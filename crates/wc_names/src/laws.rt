//! Laws of names: contracts of functions that do nothing when they run.

ghost use Rattle.std.specs.Prelude.{◌≡◌, IsTrue};
ghost use Rattle.wc_names.specs.Laws.{BuiltinsUnique, ExportSignaturesPlain, ExportsAlike, ExportsInRange, ExportsUnique, FunctionNamesUnique, InterfacesUnique, MeaningsAlike, MeaningsInRange, MeaningsUnique, NumbersParsed, SignaturesPlain};

use crate::{PayloadInfo, PayloadType};
use std::hash::Hash;
use wc_resolve::Resolve;

/// An import of a core module means one thing at most, whatever the world, the adapters and the flags are: of each kind
/// of names it is at most one, and the first kind that it is of counts. It does nothing when it runs.
pub fn meanings_unique(resolve: &Resolve)
    ensures { MeaningsUnique resolve.now }
{
    resolve.well_formedness();
}

/// An import of a core module, in a world of the `Resolve`, names only items that are there: its function is usable
/// (`Resolve::has_function`) and under the key, or of the interface, that the import has; its interface is in range;
/// its type is a resource; its payload's type is a future or a stream (`PayloadInfo::payload`). It does nothing when
/// it runs.
pub fn meanings_in_range(resolve: &Resolve)
    ensures { MeaningsInRange resolve.now }
{
    resolve.well_formedness();
}

/// An export of a core module means one thing at most for an export set, whatever the world and the flags are: of each
/// kind of names it is at most one, and the first kind that it is of counts. It does nothing when it runs.
pub fn exports_unique()
    ensures { ExportsUnique }
{}

/// An export of a core module, in a world of the `Resolve`, is for an item that is there: its function is usable
/// (`Resolve::has_function`) and exported under the key that the export has, or of the interface that is; its type is a
/// resource. It does nothing when it runs.
pub fn exports_in_range(resolve: &Resolve)
    ensures { ExportsInRange resolve.now }
{
    resolve.well_formedness();
}

/// The meaning of a core module's import does not depend on the indices by which its type names types of the module:
/// where it means something, it means that with other indices too. A signature that a name fixes names no types. It
/// does nothing when it runs.
pub fn meanings_alike()
    ensures meaning { MeaningsAlike }
    ensures signature { SignaturesPlain }
{}

/// The meaning of an export for an export set does not depend on such indices either. It does nothing when it runs.
pub fn exports_alike()
    ensures meaning { ExportsAlike }
    ensures signature { ExportSignaturesPlain }
{}

/// A module's text is about one interface at most, by either scheme. It does nothing when it runs.
pub fn interfaces_unique(resolve: &Resolve)
    ensures { InterfacesUnique resolve.now }
{
    resolve.well_formedness();
}

/// A name is that of one canonical built-in at most, slots by all spellings of their numbers included. It does nothing
/// when it runs.
pub fn builtins_unique()
    ensures { BuiltinsUnique }
{}

/// A name of an imported function is that of one function, and says in one way how it is lowered. It does nothing when
/// it runs.
pub fn function_names_unique()
    ensures { FunctionNamesUnique }
{}

/// The texts of a slot's number are those that `parse` reads as it: a plus may come first, and then zeros. It does
/// nothing when it runs.
pub fn numbers_parsed()
    ensures { NumbersParsed }
{}

/// Payloads that are equal are hashed alike: both write the same input to a hasher. It does nothing when it runs.
pub fn payloads_hash_alike(left: &PayloadInfo, right: &PayloadInfo)
    ensures { IsTrue (⟦<PayloadInfo as PartialEq>⟧.eq left.now right.now)
        → ⟦<PayloadInfo as Hash>⟧.hash_input left.now
        ≡ ⟦<PayloadInfo as Hash>⟧.hash_input right.now }
{}

/// Types of payloads that are equal are hashed alike: both write the same input to a hasher. It does nothing when it
/// runs.
pub fn payload_types_hash_alike(left: &PayloadType, right: &PayloadType)
    ensures { IsTrue (⟦<PayloadType as PartialEq>⟧.eq left.now right.now)
        → ⟦<PayloadType as Hash>⟧.hash_input left.now
        ≡ ⟦<PayloadType as Hash>⟧.hash_input right.now }
{}
