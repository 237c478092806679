//! Laws of patient runs, with no code: each function's contract is the law.

ghost use Rattle.cl_patient_laws.specs.Laws.{EndLaw, PatientLaw};

/// Whether patient turns lead from the nodes of a finished search to an end is told by its moves, and so it is of every cluster
/// to which a run leads.
pub fn patient_law()
    ensures { PatientLaw }
{}

/// An end is one of patient runs too.
pub fn end_law()
    ensures { EndLaw }
{}
