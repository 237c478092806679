//! What holds of the definitions alone, with no code: each function's contract is the law.
ghost use Rattle.part_box.specs.Laws.{GateLaw, ReceiverLooksLaw, SenderLooksLaw, SettledLaw};

/// A gate shows the stamp of the thing in the box to the receiver alone, or that of the last take to the sender alone.
pub fn gate_law()
    ensures { GateLaw }
{}

/// A look changes what its key knows of the gate, and nothing else.
pub fn look_law()
    ensures sender { SenderLooksLaw }
    ensures receiver { ReceiverLooksLaw }
{}

/// What was got from a box is what was made ready there, one thing at a time, each under a later stamp; and what a gate
/// showed is so.
pub fn settled_law()
    ensures { SettledLaw }
{}
