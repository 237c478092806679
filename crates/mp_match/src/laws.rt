//! Laws of the definitions, with no code: each function's contract is the law.

ghost use Rattle.mp_match.specs.Matches.{PairingLaws};
ghost use Rattle.mp_match.specs.Order.{OrderLaws};

/// The pairs of every list of posts, and so of each prefix of one, keep the order laws: nothing overtakes.
/// (MPI 4.1, chapter 3.5.)
pub fn order_laws()
    ensures { OrderLaws }
{}

/// The pairs of every list of posts are of just these posts. Whatever is paired is a send, and a receive or a claim
/// that it matches; no receive without a partner matches a send without one; and a claim's message came before it.
/// (MPI 4.1, chapters 3.2.4 and 3.8.2.)
pub fn pairing_laws()
    ensures { PairingLaws }
{}
