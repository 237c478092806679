//! Laws of searches: functions with empty bodies, whose contracts are the laws.

ghost use Rattle.rvmc_explore.specs.BesideLaw.{BesideLaw};
ghost use Rattle.rvmc_explore.specs.OneList.{OneListLaw};
ghost use Rattle.rvmc_explore.specs.SplitLaw.{SplitLaw};
ghost use Rattle.rvmc_explore.specs.StatusLaw.{StatusLaw};
ghost use Rattle.rvmc_explore.specs.WorkedPatient.{WorkedPatient};

/// Where each start of a split was told whole, each run that follows the order of harts and ends where nobody goes on ends
/// in a cluster that is alike an end that was told of one of the starts.
pub fn split_law()
    ensures { SplitLaw }
{}

/// Status 0: whatever run follows the order of harts, of any length, it can still come to an end, and no ranks are stuck in it.
/// Status 8: some run comes to where it can't end any more, and still no ranks are stuck in any. With either, no ranks need
/// buffers in any run, unless sends were to buffer or ranks have several harts. Unless a status is 4, it is the same for all
/// searches of an image and an order of which either all take every send as buffered or none does, whatever their bounds.
pub fn status_law()
    ensures { StatusLaw }
{}

/// If no state is left, there is only one answer for an image and an order: each text tells of the state to which its outcome's
/// turns lead by the order, and no run by the order ends without its text. So any two searches tell the same ends, with the same
/// status where both know the same of ranks that need buffers; and the record of a number leads to its text.
pub fn one_list_law()
    ensures { OneListLaw }
{}

/// Rows of nodes that hang if standard sends wait, and of nodes that don't.
pub fn patient_rows()
    ensures { WorkedPatient }
{}

/// Where ranks are stuck while others run on, a rank that isn't among them can go on, so it is no end. If no state is left, the
/// others run on for ever: wherever a run by the order leads from there, the ranks that are stuck are as they were, and somebody
/// can go on. So the search says that some runs go on for ever.
pub fn beside_law()
    ensures { BesideLaw }
{}
