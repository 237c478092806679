//! Laws of the texts of places.

ghost use Rattle.rvmc_places.specs.Laws.{OneLineLaw};

/// Two places with one text have one line, or neither has one.
pub fn one_line_law()
    ensures { OneLineLaw }
{}
