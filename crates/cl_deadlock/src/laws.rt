//! A law of verdicts, over the definitions alone: a function with an empty body, whose contract is the law.

ghost use Rattle.cl_deadlock.specs.Laws.{OneVerdictLaw};

/// A state that was reached from an image has one verdict: whatever is told of deadlock there is the same.
pub fn one_verdict_law()
    ensures { OneVerdictLaw }
{}
