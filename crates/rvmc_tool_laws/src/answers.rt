//! Laws of answers. The functions do nothing; their contracts are the laws.

ghost use Rattle.rvmc_tool_laws.specs.Answers.{RecordedIsGoodLaw, StopsFitLaw, VerdictIsTrueLaw};

/// A report of `run` tells of each rank a cause to stop that fits what it tells of its harts and its turns.
pub fn stops_fit()
    ensures { StopsFitLaw }
{}

/// What `run --record` or `one --record` leaves is good by `check`, unless it leaves nothing for a fault of the input.
pub fn recorded_is_good()
    ensures { RecordedIsGoodLaw }
{}

/// The verdict that `why` tells of a record's place, and `--why` of a run's end, is right of the machine's cluster there:
/// whatever turns are taken from it on, no hart goes on of the ranks in a deadlock, of which those that wait are named.
pub fn verdict_is_true()
    ensures { VerdictIsTrueLaw }
{}
