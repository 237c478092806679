//! Why there was no step, or not all of them.

/// Why a step wasn't done. Where memory was refused the cluster is as it was; else the state may be anything.
#[derive(Clone, Copy, Drop)]
pub enum StepFault {
    /// 1: the machine has no such step from here.
    NotAStep,
    /// 2: memory was refused, for what the step makes.
    Memory,
}

/// Why steps weren't all done. The state may then be anything.
#[derive(Clone, Copy, Drop)]
pub enum WalkFault {
    /// 1: the machine has no such step where the steps before it lead. Carries its place, from 0.
    Step(u64),
    /// 2: memory was refused, for what a step makes.
    Memory,
}
