//! Laws of the hub's meaning, with no code: each function's contract is the law.

ghost use Rattle.mp_wait_laws.specs.Laws.{VainLaw, WaitsLaw};

/// A rank that isn't answered yet waits on whatever ranks call that couldn't bring what it asks for, and its own vain
/// calls leave the hub as it was.
pub fn waits_law()
    ensures { WaitsLaw }
{}

/// A call is answered NotYet exactly where `HubState::asks_in_vain` says so.
pub fn vain_law()
    ensures { VainLaw }
{}
