//! Laws of the hub's meaning, with no code: each function's contract is the law.

ghost use Rattle.mp_hub.specs.Finished.{FinishedLaw, TogetherLaw};
ghost use Rattle.mp_hub.specs.Laws.{BoardLaw, CountLaw, SentLaw};
ghost use Rattle.mp_hub.specs.Links.{LinksLaw};
ghost use Rattle.mp_hub.specs.Losses.{LossLaw};
ghost use Rattle.mp_hub.specs.Posts.{PostsLaw};
ghost use Rattle.mp_hub.specs.RankRows.{WorkedRanks};
ghost use Rattle.mp_hub.specs.Replies.{OwnersLaw, RepliesLaw};
ghost use Rattle.mp_hub.specs.Rows.{WorkedCalls};
ghost use Rattle.mp_hub.specs.Transfers.{CutLaw, PairsLaw};

/// After any calls the hub's posts stand with the pairs that the list of them has, and are no more than the calls.
pub fn board_law()
    ensures { BoardLaw }
{}

/// The hub's posts are those of its calls, in their order: each send that was posted, each receive, and each claim that
/// holds a message. Each was told its number.
pub fn posts_law()
    ensures { PostsLaw }
{}

/// Nothing is lost: a message that is there is given to the one who asks for it, and once.
pub fn loss_law()
    ensures { LossLaw }
{}

/// A rank is told that its send is complete exactly where it is: a standard send at once, a synchronous one once a
/// receive has its message, also by way of a claim.
pub fn finished_law()
    ensures { FinishedLaw }
{}

/// Posts of a rank that are all ready, each named once, complete together: receives and received claims with a message
/// that wasn't got, and sends that are complete. (MPI 4.1, chapter 3.7.5.)
pub fn together_law()
    ensures { TogetherLaw }
{}

/// A rank may ask for its own posts alone, and for a message once: anything else is refused, and what is refused
/// changes nothing.
pub fn owners_law()
    ensures { OwnersLaw }
{}

/// Each reply is of the form that its request asks for, or a code with which that request may be refused.
pub fn replies_law()
    ensures { RepliesLaw }
{}

/// What is got is what was sent: envelope and bytes of each message that the hub gives, and each envelope that it
/// shows, are those of the very send that is paired with the post, whatever was collected since.
pub fn sent_law()
    ensures { SentLaw }
{}

/// A reply brings no more messages than its request may bring: none, one, or one for each post of several.
pub fn count_law()
    ensures { CountLaw }
{}

/// The i-th sender and the i-th receiver of a transfer have one link and one total, and no other side has that link.
/// A transfer is a communicator, a source, a destination and a tag, and an initialisation that was refused isn't
/// counted. (MPI 4.1, chapter 4.2.)
pub fn pairs_law()
    ensures { PairsLaw }
{}

/// A link that is told joins the caller to its peer, in the direction that was asked for; it has one side of each
/// direction at most, both of one transfer; and none is refused while there is one left between the two ranks.
pub fn links_law()
    ensures { LinksLaw }
{}

/// A link's receiver, and no other rank, is told how the sender cut the transfer: as the very initialisation says that
/// was answered with the link, and not yet where there was none.
pub fn cut_law()
    ensures { CutLaw }
{}

/// Some calls with the replies that the definitions give, computed.
pub fn worked_calls()
    ensures { WorkedCalls }
{}

/// Calls of several communicators and of three ranks with the replies that the definitions give, computed.
pub fn worked_ranks()
    ensures { WorkedRanks }
{}
