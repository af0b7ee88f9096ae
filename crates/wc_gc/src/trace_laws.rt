//! Laws of what leaves no trace in a trimmed adapter, over the definitions of trimming: what its required exports do
//! not reach, and an earlier trimming.

ghost use Rattle.wc_gc.specs.TraceLaws.{CausesAreOfCut, CutIsReached, ImageIsOfCut, NoTrace, TrimTwice};

/// An adapter and its cut, edited in the same way, have one image: a cut has the kept exports and the items that they
/// reach, each index replaced by the number of reached items of its space before it.
///
/// All items of a cut are reached. An adapter and its cut have the same causes of faults, except those that liveness
/// finds.
pub fn image_is_of_cut()
    ensures image { ImageIsOfCut }
    ensures reached { CutIsReached }
    ensures causes { CausesAreOfCut }
{}

/// Two adapters with one cut, in which liveness finds no fault, are trimmed to the same text under the same settings,
/// or have the same fault. No other part of them matters.
pub fn no_trace()
    ensures { NoTrace }
{}

/// The text of a trimmed adapter is trimmed to itself, for the same exports and settings, if no part was added to the
/// adapter and no realloc among its imports is reached.
pub fn trim_twice()
    ensures { TrimTwice }
{}
