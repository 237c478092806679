//! Worked rows: runs into deadlock, and runs that only look like one.

ghost use Rattle.cl_deadlock_laws.specs.Worked.{AnySource, FromItself, NobodyLeft, NoneReady, NoneTakes, OneAlone, OneRuns, ReceiveFirst, SendFirst};
ghost use Rattle.cl_deadlock_laws.specs.Worked.{SentBefore, WaitForSecond};

/// Two ranks that each receive from the other first are stuck.
pub fn each_receives_first()
    ensures { ReceiveFirst }
{}

/// Two ranks that each send synchronously to the other first are stuck.
pub fn each_sends_first()
    ensures { SendFirst }
{}

/// A rank that receives from any source is stuck where the others have ended.
pub fn waits_for_nobody()
    ensures { NobodyLeft }
{}

/// A rank that waits for one that isn't stuck isn't stuck.
pub fn waits_for_one_outside()
    ensures { OneAlone }
{}

/// Two ranks of which one still runs aren't stuck.
pub fn waits_for_one_that_runs()
    ensures { OneRuns }
{}

/// Where a PREADY is missing both ranks are stuck: the sender waits for its own partition, the receiver for the sender.
pub fn waits_for_its_own_partition()
    ensures { NoneReady }
{}

/// A sender is stuck that waits for its partition to be taken, where the receiver has ended.
pub fn waits_to_be_taken_from()
    ensures { NoneTakes }
{}

/// A rank that receives from any source waits for every other.
pub fn waits_for_any_source()
    ensures { AnySource }
{}

/// A rank whose message is there isn't stuck.
pub fn waits_for_what_is_there()
    ensures { SentBefore }
{}

/// A rank that receives from itself is stuck, whatever the other does.
pub fn waits_for_itself()
    ensures { FromItself }
{}

/// A rank that waits for two receives is stuck where nobody is left who could send the second message.
pub fn waits_for_the_second_of_two()
    ensures { WaitForSecond }
{}
