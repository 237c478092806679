//! Laws of what a rank is told of its posts, with no code: each function's contract is the law.

ghost use Rattle.cl_post_laws.specs.Laws.{PostLaw};

/// A rank that is told of a post by another number goes on the same, by that number. It names posts that it was told of
/// alone, and asks about those alone, but never about a standard send. And a receive that is posted first leaves the
/// same, once its message came, as one that is given it at once.
pub fn post_law()
    ensures { PostLaw }
{}
