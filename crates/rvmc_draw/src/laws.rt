//! Laws of a picture's data. The functions do nothing; their contracts are the laws.

ghost use Rattle.rvmc_draw.specs.Laws.{ArrowLaw, BoardLaw, BoxLaw, CouldLaw, GotLaw, LanesLaw, LostLaw, MessagesLaw, PartitionsLaw};
ghost use Rattle.rvmc_draw.specs.Laws.{UntakenLaw};
ghost use Rattle.rvmc_draw.specs.Waits.{BarsLaw, WaitingLaw};

/// The posts that are kept are those that the steps made, with the partners that MPI's rule gives them (MPI 4.1, chapter
/// 3.5), each with the step that made it.
pub fn board_law()
    ensures { BoardLaw }
{}

/// An arrow joins the step that made a send and the step that got, or claimed, the post whose partner that send is: the
/// two are found by the numbers of their posts.
pub fn arrow_law()
    ensures { ArrowLaw }
{}

/// A send is known to be got exactly where some step got its message, as the partner of a post that it got. So of a message
/// whose arrow has an open head no step got anything.
pub fn got_law()
    ensures { GotLaw }
{}

/// The dotted lines to a receive of any source come from the first message of each other source that it accepts and that
/// nobody had before it, and from no other.
pub fn could_law()
    ensures { CouldLaw }
{}

/// Each message that a step got has its arrow, from the step of its send to that step, and no other step has one: not the
/// claim of the message, nor a receive that was posted and got nothing yet.
pub fn messages_law()
    ensures { MessagesLaw }
{}

/// The arrows with an open head are those of sends that are shown and whose messages nobody got.
pub fn lost_law()
    ensures { LostLaw }
{}

/// An arrow of a partition joins the step that took it and the step that made it ready last before: of the same link and
/// place, and in the phase that the latter began (MPI 4.1, chapter 4.2).
pub fn partitions_law()
    ensures { PartitionsLaw }
{}

/// The partitions that are told as never taken are those that a step made ready and that no later step took.
pub fn untaken_law()
    ensures { UntakenLaw }
{}

/// A box is one partition of one link.
pub fn box_law()
    ensures { BoxLaw }
{}

/// A hart's bar is begun exactly where it waits: at its first look in vain since it went on.
pub fn waiting_law()
    ensures { WaitingLaw }
{}

/// A bar ends exactly at the step of its hart that went on, behind looks in vain.
pub fn bars_law()
    ensures { BarsLaw }
{}

/// The lanes are in the order of ranks and of their harts.
pub fn lanes_law()
    ensures { LanesLaw }
{}
