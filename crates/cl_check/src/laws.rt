//! What holds of verdicts by their definition alone.

ghost use Rattle.cl_check.specs.Laws.{MergedIsGoodLaw, OneVerdictLaw};

/// A list of steps has at most one verdict. So anybody who decides it from the machine's definition alone agrees with
/// `check`.
pub fn one_verdict_law()
    ensures { OneVerdictLaw }
{}

/// The events of a record whose merge is a run, in order of their stamps, are good: so a check of
/// them never finds a bad step.
pub fn merged_is_good_law()
    ensures { MergedIsGoodLaw }
{}
