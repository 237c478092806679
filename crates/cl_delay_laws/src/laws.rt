//! Laws of messages that take their time, with no code: each function's contract is the law.

ghost use Rattle.cl_delay_laws.specs.Laws.{DelayLaw};

/// If all that ranks ask for is what a message on its way keeps them waiting for at most, each run of the network is a run of
/// the machine, but for polls of what is on its way, and for polls of what has come that some ranks still have to make.
pub fn delay_law()
    ensures { DelayLaw }
{}
