//! Laws of the cluster, over the definitions alone: functions with empty bodies, whose contracts are the laws.

ghost use Rattle.cl_machine.specs.Laws.{OrderLaw};
ghost use Rattle.cl_machine.specs.Laws.{OneEnd, StepByStep, TableLaw};
ghost use Rattle.cl_machine.specs.Laws.{OneMerge};

/// The table of steps and the product of parts are the same step.
pub fn table_law()
    ensures { TableLaw }
{}

/// A list of steps leads to one cluster at most.
pub fn one_end_law()
    ensures { OneEnd }
{}

/// Whether a list of steps is a run in order may be decided step by step.
pub fn step_by_step_law()
    ensures { StepByStep }
{}

/// The events of all ranks have one merge at most.
pub fn one_merge_law()
    ensures { OneMerge }
{}

/// The events of ranks that ran apart, put in order of their stamps, are one run from the loaded cluster. It ends in
/// the ranks, the journal and the boxes that they left.
pub fn order_law()
    ensures { OrderLaw }
{}
