//! Worked rows: boxes, places of plans, and turns that a closed set can't leave out.

ghost use Rattle.cl_order_laws.specs.Race.{WorkedRace};
ghost use Rattle.cl_order_laws.specs.Rows.{WorkedOrders};

/// A full box isn't alike an empty one, and its history is forgotten; a plan of two harts comes back to its place; and
/// no closed set leaves out a look that misses, or a rank that waits.
pub fn worked_orders()
    ensures { WorkedOrders }
{}

/// Two ranks send to a third that receives from any source: a closed list has two ends, and any run that ends receives
/// the one message or the other. Where turns of sure ranks are made at once five of its nine nodes are enough.
pub fn worked_race()
    ensures { WorkedRace }
{}
