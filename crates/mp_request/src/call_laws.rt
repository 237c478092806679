//! What calls make of requests, in the standard's words (MPI 4.1, chapters 3.7 and 3.9).

ghost use Rattle.mp_request.specs.CallLaws.{NothingLaw, RoundLaw, StartLaw, StatesLaw, TestLaw};

/// The null request is never open, and neither its start nor its completion changes anything; a handle that names
/// nothing has no state.
pub fn nothing_law()
    ensures { NothingLaw }
{}

/// An ordinary request is active from the call that opened it; a persistent one is inactive or active.
pub fn states_law()
    ensures { StatesLaw }
{}

/// A started request is active and transfers what it did; a persistent one that is started and completed is what it
/// was. No other handle names anything else.
pub fn start_law()
    ensures started { StartLaw }
    ensures round { RoundLaw }
{}

/// Handles may be tested together exactly where each is null or names an open request that isn't partitioned, and none
/// of an active request stands twice.
pub fn test_law()
    ensures { TestLaw }
{}
