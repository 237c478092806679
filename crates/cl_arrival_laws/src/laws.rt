//! What is taken from a box is what was made ready there, in the phase of the same number.

ghost use Rattle.cl_arrival_laws.specs.Laws.{ArrivalLaw, ArrivedLaw, PrefixLaw, ReadyLaw, TakeLaw, WriteLaw};

/// In every run of an image, what was taken from a box is a beginning of what was made ready there, stamps included.
pub fn prefix_law()
    ensures { PrefixLaw }
{}

/// What a receiver takes from a box as the k-th, from 0, it takes in its phase k.
pub fn take_law()
    ensures { TakeLaw }
{}

/// What a sender makes ready in a box as the k-th, from 0, it makes in its phase k.
pub fn ready_law()
    ensures { ReadyLaw }
{}

/// Before PARRIVED reports a partition in a receiver's phase k, from 0, or TEST or WAIT completes the receive, each byte
/// of it lies in a box that was taken k + 1 times, however sender and receiver cut the total.
pub fn arrived_law()
    ensures { ArrivedLaw }
{}

/// In every run of an image, before PARRIVED reports a partition in a receiver's phase k, or TEST or WAIT completes the
/// receive, the Takes of that phase wrote to its place what the sender made ready in its phase k, however the two cut
/// the total.
pub fn arrival_law()
    ensures { ArrivalLaw }
{}

/// A Take of a box writes its bytes to its place in the buffer of a partitioned receive on the link.
pub fn write_law()
    ensures { WriteLaw }
{}
