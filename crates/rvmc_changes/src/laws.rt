//! Laws of changes. The functions do nothing; their contracts are the laws.

ghost use Rattle.rvmc_changes.specs.Laws.{PlacesLaw, ShownLaw, WalkLaw};

/// The first n changes of a run, done to what is seen at its start, give what is seen behind its first n steps; and
/// undone from there, the last first, they give what is seen at the start.
pub fn places_law()
    ensures { PlacesLaw }
{}

/// So the changes from one place of a record on lead to what the debugger shows at each place behind it: its harts, the
/// bytes of its memory and its output.
pub fn shown_law()
    ensures { ShownLaw }
{}

/// Those of a walk lead from its start to what the debugger shows at each place of the walk, and back.
pub fn walk_law()
    ensures { WalkLaw }
{}
