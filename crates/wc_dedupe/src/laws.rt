//! Laws of the renaming of a list of imports, each taken as its module and its name.

ghost use Rattle.wc_dedupe.specs.Laws.{NamesDistinct, NamesDetermined, NamesKept, NamesGiveOriginals};

/// After a renaming no two imports share a module and a name.
pub fn names_distinct()
    ensures { NamesDistinct }
{}

/// A list of imports has at most one renaming.
pub fn names_determined()
    ensures { NamesDetermined }
{}

/// A renaming changes no name exactly where no two imports share a module and a name before it.
pub fn names_kept()
    ensures { NamesKept }
{}

/// The list of renames has, for the new name of each renamed import, its original name, and for an import that kept
/// its name nothing.
pub fn names_give_originals()
    ensures { NamesGiveOriginals }
{}
