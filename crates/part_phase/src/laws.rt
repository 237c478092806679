//! What holds of phases, in the standard's words (MPI 4.1, chapter 4.2).

ghost use Rattle.part_phase.specs.Laws.{ArrivedLaw, AwaitedLaw, BegunReceivingLaw, BegunSendingLaw, CutLaw};
ghost use Rattle.part_phase.specs.Laws.{FirstSidesLaw, OneSideLaw, ReadiedLaw};
ghost use Rattle.part_phase.specs.Laws.{LastFreedLaw, LastTakenLaw, NextBoxLaw, NextToFreeLaw, OneTakenLaw};

/// A partition that waits for no box in a phase has arrived: each byte of it lies in a box that was taken. One that
/// waits for a box hasn't.
pub fn arrival_law()
    ensures cut { CutLaw }
    ensures arrived { ArrivedLaw }
    ensures awaited { AwaitedLaw }
{}

/// The next box is the lowest that isn't taken. The last one that is taken ends a phase, and no other does.
pub fn taking_law()
    ensures next { NextBoxLaw }
    ensures last { LastTakenLaw }
    ensures one { OneTakenLaw }
{}

/// In a phase that begins no partition is ready or freed, and no box is taken.
pub fn beginning_law()
    ensures sending { BegunSendingLaw }
    ensures receiving { BegunReceivingLaw }
{}

/// The last partition that is freed ends a phase.
pub fn freeing_law()
    ensures next { NextToFreeLaw }
    ensures last { LastFreedLaw }
{}

/// A rank has one side of each link that it is an end of, as the link goes, and none of any other. What is done to the
/// side of one link leaves all others, and what is done to one partition leaves all others.
pub fn sides_law()
    ensures first { FirstSidesLaw }
    ensures one { OneSideLaw }
    ensures readied { ReadiedLaw }
{}
