//! Laws about the items that trimming keeps, and the items that it leaves unchanged, over its definitions.

ghost use Rattle.wc_gc.specs.Chains.{KeptExportsAreRequired, KeptItemsHaveChains};
ghost use Rattle.wc_gc.specs.UntouchedLaws.{CallsKeepCode, EditsNothing, LiveUnfold, UneditedUnfold, UntouchedUnfold};

/// The kept exports are the exports with required names. An item is kept exactly if a chain leads to it from the item
/// of such an export: a list of items each of which the one before names.
pub fn kept_items_have_chains()
    ensures exports { KeptExportsAreRequired }
    ensures items { KeptItemsHaveChains }
{}

/// Let items of an adapter name only items among them, and let none of them be an imported realloc that is reached or
/// a function that begins with a call of the lazy code. Then each of them unfolds in the edited adapter as it did
/// before, at every depth.
///
/// So does an item from which no list of references, each in the item before, leads to such an import or function, or
/// to an index out of range. If no live body is faulty, so does a live item from which no list leads to such an
/// import or function.
pub fn untouched()
    ensures sets { UntouchedUnfold }
    ensures references { UneditedUnfold }
    ensures live { LiveUnfold }
{}

/// If nothing is added to an adapter, and none of its imported reallocs is reached, editing changes nothing except
/// the dropped exports and a start function.
pub fn nothing_is_edited()
    ensures { EditsNothing }
{}

/// A function that begins with a call once the adapter was edited has its old type and locals, and its old code after
/// that call, which is of the lazy code.
pub fn calls_keep_code()
    ensures { CallsKeepCode }
{}
