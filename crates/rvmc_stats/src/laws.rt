//! Laws of the tables. The functions do nothing; their contracts are the laws.

ghost use Rattle.rvmc_stats.specs.Laws.{FallingLaw, FirstLaw, KindsLaw, OwnRankLaw, PlainLaw, RefusedLaw};
ghost use Rattle.rvmc_stats.specs.Laws.{WaitingLaw, WholeMessageLaw};

/// Each turn of a rank is of one kind: the columns of its row come to all its turns.
pub fn kinds_law()
    ensures { KindsLaw }
{}

/// A turn is counted for its own rank, and for no other.
pub fn own_rank_law()
    ensures { OwnRankLaw }
{}

/// A refused call brings no message.
pub fn refused_law()
    ensures { RefusedLaw }
{}

/// A message counts with all its bytes, however many of them its buffer took.
pub fn whole_message_law()
    ensures { WholeMessageLaw }
{}

/// A call whose hart waits is counted as one that waits, and with no code.
pub fn waiting_law()
    ensures { WaitingLaw }
{}

/// An instruction is no call.
pub fn plain_law()
    ensures { PlainLaw }
{}

/// Of the places with most turns none has more than the one before it.
pub fn falling_law()
    ensures { FallingLaw }
{}

/// No place has more turns than the first of them.
pub fn first_law()
    ensures { FirstLaw }
{}
