//! Worked rows: what a journal that fits the ranks' traces is, and what none is.

ghost use Rattle.cl_threads.specs.Worked.{LastMissing, OtherClock, OtherRank, TiedRow};

/// Two ranks whose calls are all in the journal, between each other's.
pub fn ties_two_ranks()
    ensures { TiedRow }
{}

/// A rank's last call may not be missing in the journal.
pub fn misses_no_last_entry()
    ensures { LastMissing }
{}

/// An entry has the clock that its rank had before the call.
pub fn enters_the_clock()
    ensures { OtherClock }
{}

/// A call may not be entered under another rank's number.
pub fn enters_the_rank()
    ensures { OtherRank }
{}
