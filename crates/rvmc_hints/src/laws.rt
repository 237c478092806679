//! The law of what a hint leaves on standard error, with no code: the function's contract is the law.

ghost use Rattle.rvmc_hints.specs.Laws.{HintLaw};

/// Where a hint is all that is told, there is nothing but one line, or a beginning of one, and it begins with `hint: `.
pub fn hint_law()
    ensures { HintLaw }
{}
