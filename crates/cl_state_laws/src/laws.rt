//! Laws of a told rank.

ghost use Rattle.cl_state.specs.Laws.{ToldLaw};
ghost use Rattle.cl_state.specs.Moves.{KnownLaw, MovedLaw};
ghost use Rattle.cl_state_laws.specs.Leaves.{BytesLaw, DelayLaw, HartLaw};
ghost use Rattle.cl_state_laws.specs.Members.{MembersLaw};
ghost use Rattle.cl_state_laws.specs.Registers.{RegistersLaw};
ghost use Rattle.cl_state_laws.specs.VainLaws.{VainLaw};
ghost use Rattle.cl_state_laws.specs.WakeLaws.{WakeLaw};
ghost use Rattle.cl_state_laws.specs.Laws.{HubRefusalLaw, MissLaw, NotYetLaw, PostsLaw, RefusalLaw, ReturnLaw};

/// A told rank has the event's stamp as its clock, and keeps what the image fixes and its number of harts.
pub fn told_law()
    ensures { ToldLaw }
{}

/// Each hart has 32 registers: where an image is loaded, after each turn, and so in every state that turns lead to.
pub fn registers_law()
    ensures { RegistersLaw }
{}

/// A call that ends changes a0, a1 and the pc, and no other register, of each hart of a rank that turns lead to.
pub fn return_law()
    ensures { ReturnLaw }
{}

/// A call that a check refuses asks nobody. It changes a0, a1, the pc and the clock, and nothing else of the rank.
pub fn refusal_law()
    ensures { RefusalLaw }
{}

/// A call that the hub refuses changes no more than one that a check refuses.
pub fn hub_refusal_law()
    ensures { HubRefusalLaw }
{}

/// A call that the hub can't complete yet changes no memory, request,
/// phase or output: flag 0 of TEST and TESTALL, or a hart that waits.
pub fn not_yet_law()
    ensures { NotYetLaw }
{}

/// Where the hub is asked for several posts they are at most 255.
pub fn posts_law()
    ensures { PostsLaw }
{}

/// A look at a box in vain changes nothing of the rank but the clock and
/// the hart: flag 0 of TEST and PARRIVED, or a hart that waits.
pub fn miss_law()
    ensures { MissLaw }
{}

/// What a turn does to the phases of its rank, by what was asked and answered: at most one link's changes, which
/// begins, has its shape or its cut, or has one partition ready, freed or taken.
pub fn phases_law()
    ensures { MovedLaw }
{}

/// What is known of the phase that a turn asks about: a partition is made ready once in a phase; TEST and WAIT ask
/// after the lowest partition that isn't freed, and after boxes that aren't taken; a shape is inside the limits.
pub fn questions_law()
    ensures { KnownLaw }
{}

/// A call leaves its hart returned, waiting, ended or as it was, with every other register; and every other hart as it
/// was.
pub fn hart_law()
    ensures { HartLaw }
{}

/// What the hub can't complete yet leaves a hart that waits with all its registers and its pc, or ends with flag 0.
pub fn delay_law()
    ensures { DelayLaw }
{}

/// Every byte of the memory that a call may not write is as it was: it may write what it receives, what it takes from a
/// box, and its statuses.
pub fn bytes_law()
    ensures { BytesLaw }
{}

/// A turn in vain changes nothing of its rank but the clock: of a hart that is stopped, or of one that waits and is told
/// that nothing is there. What is asked doesn't depend on the clock.
pub fn vain_law()
    ensures { VainLaw }
{}

/// A rank sends in communicators of which it is a member, and no others: the check of the call that opens a send holds
/// for each start of it.
pub fn members_law()
    ensures { MembersLaw }
{}

/// A hart that makes its call anew asks and is told what one that makes it for the first time is. So a rank that waits in
/// vain is as it was before it waited.
pub fn wake_law()
    ensures { WakeLaw }
{}
