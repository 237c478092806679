//! Worked rows: messages that were collected, and what isn't over.

ghost use Rattle.mp_source_laws.specs.Rows.{WorkedHubs};

/// Hubs that differ in collected messages alone are alike: in their order, and in who sent them. A message that is still
/// held isn't forgotten, nor is which of two synchronous sends is complete.
pub fn worked_hubs()
    ensures { WorkedHubs }
{}
