//! Laws of a rank alone, over the definitions alone: functions with empty bodies, whose contracts are the laws.

ghost use Rattle.cl_deeds.specs.Laws.{OneRankLaw, RisingLaw};

/// The stamps of a rank alone strictly rise, from above its clock.
pub fn rising_law()
    ensures { RisingLaw }
{}

/// A rank and what it met lead to one rank.
pub fn one_rank_law()
    ensures { OneRankLaw }
{}
