//! Laws of closed lists, with no code: each function's contract is the law.

ghost use Rattle.cl_contest_laws.specs.Laws.{ContestLaw, GoodLaw, NeverEndsLaw, StartsWellLaw};

/// Of every run: its end is alike an end of the list, ranks that are stuck in it are stuck in one of the list, and so are
/// ranks that need buffers; and each rank asks within the patterns all the way.
pub fn contest_law()
    ensures { ContestLaw }
{}

/// Of runs that never end, where the list is a graph.
pub fn never_ends_law()
    ensures { NeverEndsLaw }
{}

/// Each cluster that a run leads to has what the proof about such lists needs, if only ranks that may receive from any source
/// have such a receive waiting.
pub fn good_law()
    ensures { GoodLaw }
{}

/// Such a list may begin at any cluster that a run leads to, if each rank of the image has one hart.
pub fn starts_well_law()
    ensures { StartsWellLaw }
{}
