//! Laws of the motions, with no code: each function's contract is the law.

ghost use Rattle.rvmc_motions.specs.Laws.{HistoryLaw, IdleLaw, OnePlaceLaw, PassesNoneLaw, StaysLaw};

/// A motion leads to one place alone, and ends there for one cause.
pub fn one_place_law()
    ensures { OnePlaceLaw }
{}

/// Each record has a history, and one alone up to its end: so what is told of every history is told of something.
pub fn history_law()
    ensures { HistoryLaw }
{}

/// A motion forwards never leads back, and one backwards never on; and none stays, unless at the record's end or its
/// start.
pub fn stays_law()
    ensures { StaysLaw }
{}

/// Of what `forwards` and `backwards` promise alone: a motion doesn't end at the place where it stands; none steps over a
/// breakpoint, or another place that ends it; and backwards it ends at the last such place, and not at the first.
pub fn passes_none_law()
    ensures { PassesNoneLaw }
{}

/// The idle turn of a stopped hart meets no breakpoint, and ends no step.
pub fn idle_law()
    ensures { IdleLaw }
{}
