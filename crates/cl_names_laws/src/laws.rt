//! Laws of the rank, over the definitions alone: functions with empty bodies, whose contracts are the laws.

ghost use Rattle.cl_names_laws.specs.Laws.{NamesLaw};

/// A rank that has other numbers for its posts asks for them by these, and whatever it is told leaves it the same but
/// for these.
pub fn names_law()
    ensures { NamesLaw }
{}
