//! Worked rows: a message that overtakes another one, and a receive that doesn't notice.

ghost use Rattle.cl_way_laws.specs.Rows.{WorkedWays};

/// A message that was sent because of another one may arrive first, and a receive of any source gets it. A receive that
/// names its source waits for its own. While a message is on its way, it is no end.
pub fn worked_ways()
    ensures { WorkedWays }
{}
