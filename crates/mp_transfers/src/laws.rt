//! Laws of links, over the definitions alone: functions with empty bodies, whose contracts are the laws.

ghost use Rattle.mp_transfers.specs.Laws.{LinkLaw};

/// A transfer is given the lowest link that goes its way and that no side has, and none only where each is taken.
pub fn link_law()
    ensures { LinkLaw }
{}
