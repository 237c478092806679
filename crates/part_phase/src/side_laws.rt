//! What a side keeps through its phases, and when nothing more is to be done in one (MPI 4.1, chapter 4.2).

ghost use Rattle.part_phase.specs.SideLaws.{BoundsLaw, ChangedLaw, FoundLaw, FreeSideLaw, ReceivingLaw, RecvShapeLaw};
ghost use Rattle.part_phase.specs.SideLaws.{SendShapeLaw, SendingLaw};

/// A side has the shape of its transfer for good, and a receiver's side the sender's cut once that is known.
pub fn shape_law()
    ensures sending { SendShapeLaw }
    ensures receiving { RecvShapeLaw }
{}

/// A phase that is going on goes on. Partitions are freed from the lowest on, and those that are ready stay so until
/// the last; a phase in which no box is next has all of them, and between phases none is waited for.
pub fn phase_law()
    ensures sending { SendingLaw }
    ensures receiving { ReceivingLaw }
{}

/// A side is of one box a partition at most, and none of its partitions is wider than a box.
pub fn bounds_law()
    ensures { BoundsLaw }
{}

/// The side of a link is found by its number, and as what it is. What is done to a sender's side isn't done to a
/// receiver's. A side may be given to a transfer once.
pub fn one_side_law()
    ensures found { FoundLaw }
    ensures changed { ChangedLaw }
    ensures free { FreeSideLaw }
{}
