//! Worked rows: ranks that need buffers, ranks that don't, and sends for which no rank rests.

ghost use Rattle.cl_rest_laws.specs.Worked.{BothWait, ClaimReceived, Claimed, IsRefused, OneAlone, OneGoesOn, OneOfTwo, OnlySendLeft};
ghost use Rattle.cl_rest_laws.specs.Worked.{ReceivePosted, ReceiveWaits, Received, ReceivedAtWait, SaysBuffered, SaysBufferedAtWait, SaysOther};
ghost use Rattle.cl_rest_laws.specs.Worked.{SendFirst, StuckAnyway, SyncAtWait, ToEnded, ToItself, Unreceived, UnreceivedAtWait};
ghost use Rattle.cl_rest_laws.specs.Worked.{WaitsInSsend};

/// Two ranks that each send to the other first need buffers.
pub fn each_sends_first()
    ensures { SendFirst }
{}

/// Once one of them went on they no longer need buffers. So a search that lets a resting rank go first may miss ranks that
/// need buffers.
pub fn one_goes_on()
    ensures { OneGoesOn }
{}

/// One of them alone doesn't need buffers, for the other could receive.
pub fn sends_to_one_outside()
    ensures { OneAlone }
{}

/// A rank that sends to itself needs buffers, whatever the other does.
pub fn sends_to_itself()
    ensures { ToItself }
{}

/// A rank that sends to one that has ended needs buffers, together with that one.
pub fn sends_to_one_that_ended()
    ensures { ToEnded }
{}

/// A rank rests behind a send that nobody received.
pub fn message_is_left()
    ensures { Unreceived }
{}

/// It doesn't rest once its message was received.
pub fn message_was_received()
    ensures { Received }
{}

/// A rank rests while a matched probe alone has its message.
pub fn message_was_claimed()
    ensures { Claimed }
{}

/// It doesn't rest once the message that was claimed was received.
pub fn claimed_message_was_received()
    ensures { ClaimReceived }
{}

/// A rank doesn't rest behind a send for which a receive waits.
pub fn receive_waits()
    ensures { ReceiveWaits }
{}

/// A rank doesn't rest behind a send whose receive was posted before.
pub fn receive_was_posted()
    ensures { ReceivePosted }
{}

/// A rank doesn't rest behind a send that says that it is buffered.
pub fn says_that_it_is_buffered()
    ensures { SaysBuffered }
{}

/// Another word in a5 doesn't say so.
pub fn says_something_else()
    ensures { SaysOther }
{}

/// A rank that waits in a synchronous send is stuck, and doesn't rest.
pub fn waits_in_synchronous_send()
    ensures { WaitsInSsend }
{}

/// A rank doesn't rest behind a send that was refused, though nobody received the message that it sent before.
pub fn send_was_refused()
    ensures { IsRefused }
{}

/// A rank rests before the WAIT for an ISEND that nobody received.
pub fn waits_for_what_is_left()
    ensures { UnreceivedAtWait }
{}

/// It doesn't rest once the message was received.
pub fn waits_for_what_was_received()
    ensures { ReceivedAtWait }
{}

/// Two ranks that each wait for an ISEND to the other need buffers.
pub fn each_waits_for_its_send()
    ensures { BothWait }
{}

/// A rank doesn't rest before a WAIT that says that its message is buffered.
pub fn wait_says_that_it_is_buffered()
    ensures { SaysBufferedAtWait }
{}

/// A rank rests before the WAITALL of two ISENDs while one of the messages isn't received.
pub fn waits_for_one_of_two()
    ensures { OneOfTwo }
{}

/// A rank that waits for a synchronous ISSEND doesn't rest.
pub fn waits_for_synchronous_send()
    ensures { SyncAtWait }
{}

/// Ranks don't need buffers that wait for a message that never comes, although one also waits for its own send.
pub fn stuck_with_buffers_too()
    ensures { StuckAnyway }
{}

/// They do if the message came, so that only the send is left to wait for.
pub fn only_send_is_left()
    ensures { OnlySendLeft }
{}
