//! The laws that a search which leaves schedules out stands on, with no code: each function's contract is the law.

ghost use Rattle.cl_reduction_laws.specs.Laws.{ClusterMachineLaw};

/// Clusters whose ranks have one hart each, and keep to patterns, are a machine of which `schedule_law` speaks.
pub fn cluster_machine_law()
    ensures { ClusterMachineLaw }
{}
