//! Laws of claimed messages, over the definitions alone: functions with empty bodies, whose contracts are the laws.

ghost use Rattle.mp_probe.specs.Laws.{ClaimsLaw};

/// A claimed message is received by the rank that claimed it, under its handle, and once; no other message is concerned.
pub fn claims_law()
    ensures { ClaimsLaw }
{}
