//! Worked rows: hubs that are alike, and hubs that aren't.

ghost use Rattle.mp_alike_laws.specs.Rows.{WorkedHubs};

/// Sends to two ranks may be exchanged. Sends to one rank may not, nor claims, and what was collected and which of two
/// synchronous sends is complete are kept.
pub fn worked_hubs()
    ensures { WorkedHubs }
{}
