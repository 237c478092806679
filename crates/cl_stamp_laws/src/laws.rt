//! Laws of runs and merges, over the definitions alone.

ghost use Rattle.cl_stamp_laws.specs.Laws.{AppendLaw, GateNeededLaw, JoinedLaw, MergeExistsLaw, MergedLaw, ReorderLaw};

/// A run of a list and one step more is a run of the list, and then the step.
pub fn append_law()
    ensures { AppendLaw }
{}

/// Where the steps of each of finitely many ranks rise, there is a merge of them.
pub fn merge_exists_law()
    ensures { MergeExistsLaw }
{}

/// Every run from the loaded cluster of an image comes apart into ranks, a journal and boxes that join, for each rank
/// alone keeps the gate rule.
pub fn joined_law()
    ensures { JoinedLaw }
{}

/// The steps of ranks that ran apart, put in order of their stamps, are a run that ends where they ended.
pub fn merged_law()
    ensures { MergedLaw }
{}

/// The steps of a run, put in order of their stamps, are a run with the same end.
pub fn reorder_law()
    ensures { ReorderLaw }
{}

/// Without the gate rule a box's events need not be such in the order of their stamps.
pub fn gate_needed_law()
    ensures { GateNeededLaw }
{}
