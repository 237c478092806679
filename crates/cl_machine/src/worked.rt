//! Worked rows: what runs of small clusters are, and what no run is.

ghost use Rattle.cl_machine.specs.LoadedRun.{LoadedRow};
ghost use Rattle.cl_machine.specs.Worked.{EarlyRow, JoinedRow, NothingSent, RealCallsRow, RealEndRow, ReceivesFirst};
ghost use Rattle.cl_machine.specs.Worked.{SendsFirst, SharedRow, StampTooLow};

/// Two ranks that share a box: a hub call, a look that misses, a partition made ready, taken and seen taken,
/// a hub call.
pub fn shares_a_box()
    ensures { SharedRow }
{}

/// Two ranks of several harts, at a SEND, a PREADY, a WAIT and a RECV, meet what the row of a shared box asks of its
/// ranks.
pub fn shares_a_box_by_real_calls()
    ensures { RealCallsRow }
{}

/// Their run leaves the partition and the message in the receiver's memory.
pub fn moves_a_partition_and_a_message()
    ensures { RealEndRow }
{}

/// What the law of the order asks of a box can be met.
pub fn joins_a_box()
    ensures { JoinedRow }
{}

/// A partition that wasn't made ready can't be taken.
pub fn takes_nothing_early()
    ensures { EarlyRow }
{}

/// SEND, then RECV: the message is got at once.
pub fn sends_first()
    ensures { SendsFirst }
{}

/// RECV, then SEND: the receive is posted, and its message collected.
pub fn receives_first()
    ensures { ReceivesFirst }
{}

/// A message is got only after it was sent.
pub fn gets_nothing_unsent()
    ensures { NothingSent }
{}

/// A hub call's stamp is above the hub's clock too, and not just its rank's.
pub fn stamps_above_both_clocks()
    ensures { StampTooLow }
{}

/// An image that loads has a run: its only hart does an instruction, calls EXIT, and idles. So what the laws of runs and
/// of images ask for can be met.
pub fn loads_and_ends()
    ensures { LoadedRow }
{}
