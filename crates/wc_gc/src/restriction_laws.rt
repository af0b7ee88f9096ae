//! A law about the imports and exports of a trimmed adapter, compared with the adapter itself.

ghost use Rattle.wc_gc.specs.RestrictionLaws.{TrimmedIsRestriction};

/// Take the module that the bytes of a trimmed adapter encode. Each of its imports is an import of the adapter, with
/// the same module, name and type, or a function that the main module exports as its realloc. No two of them are the
/// same import of the adapter, and these are all imports that its kept exports reach, except reallocs.
///
/// Each of its exports is an export of the adapter with the same name, kind and type, and these are the required
/// ones.
///
/// Types count as the same if they differ only in the indices of types in them, which mean nothing in another module.
pub fn trimmed_restricts()
    ensures { TrimmedIsRestriction }
{}
