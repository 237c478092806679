//! Worked rows: messages that arrive in another order than they were sent.

ghost use Rattle.mp_way_laws.specs.Rows.{WorkedWays};

/// A message on its way isn't found. A later one of another source may arrive first, which a receive of any source
/// notices and one that names its source doesn't. A receive whose message is on its way waits for it. A synchronous
/// send is complete once its message has arrived at its receive.
pub fn worked_ways()
    ensures { WorkedWays }
{}
