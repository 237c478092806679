//! What holds of the definitions alone.

ghost use Rattle.cl_debug.specs.Laws.{BackLaw, GoesOnLaw, OneStopLaw, OwnBreakLaw};
ghost use Rattle.cl_debug.specs.Spacing.{SpacingRows};

/// A run from a place stops at one place alone: so what `run` promises leaves no choice.
pub fn one_stop_law()
    ensures { OneStopLaw }
{}

/// A break stops the hart of its rank and number alone, though another rank's hart stands at the same pc.
pub fn own_break_law()
    ensures { OwnBreakLaw }
{}

/// States of a record of 0 or 65,535 steps are kept 1,024 apart, and of one of 65,536 steps 2,048.
pub fn spacing_rows()
    ensures { SpacingRows }
{}

/// A step, and then one back, lead to where the debugger was. A run goes on, and never back. Neither changes the record
/// or the breaks.
pub fn moves_law()
    ensures back { BackLaw }
    ensures run { GoesOnLaw }
{}
