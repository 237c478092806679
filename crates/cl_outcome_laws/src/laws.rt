//! Laws of the cluster, over the definitions alone: functions with empty bodies, whose contracts are the laws.

ghost use Rattle.cl_outcome_laws.specs.Laws.{CompanyLaw, UnendingLaw};

/// A closed list has every company of stuck ranks that any run reaches, whether or not the run has ended.
pub fn company_law()
    ensures { CompanyLaw }
{}

/// From nodes that no edge leaves and of which none is an end no run ends; and where turns lead from each node to an
/// end, some do from wherever a run leads.
pub fn unending_law()
    ensures { UnendingLaw }
{}
