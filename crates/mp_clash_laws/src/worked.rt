//! Worked rows: calls that may be exchanged, and calls that clash.

ghost use Rattle.mp_clash_laws.specs.Rows.{WorkedClashes};

/// Two sends to a rank clash only where it may ask for any source. A receive that is posted before its message collects
/// it later. A synchronous send and its receive clash. A poll isn't told of a send to another rank.
pub fn worked_clashes()
    ensures { WorkedClashes }
{}
