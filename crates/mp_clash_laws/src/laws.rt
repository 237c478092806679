//! Laws of clashes, with no code: each function's contract is the law.

ghost use Rattle.mp_clash_laws.specs.Laws.{PostsLaw, RefusedLaw, VainLookLaw};

/// Sends and receives of two ranks that make no race may be exchanged.
pub fn posts_law()
    ensures { PostsLaw }
{}

/// A call that is refused stays so behind a send or a receive of another rank, and changes nothing.
pub fn refused_law()
    ensures { RefusedLaw }
{}

/// An unsuccessful poll changes nothing, and stays unsuccessful behind a send or a receive of another rank that brings it
/// nothing.
pub fn vain_look_law()
    ensures { VainLookLaw }
{}
