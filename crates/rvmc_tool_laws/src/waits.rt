//! Laws of what is told. The functions do nothing; their contracts are the laws.

ghost use Rattle.rvmc_tool_laws.specs.Waits.{NamedLaw, NearestLaw};

/// An address is told by the symbol that is at it or nearest before it, and of several at one address by the first; by
/// none where all are behind it.
pub fn nearest_law()
    ensures { NearestLaw }
{}

/// Whom the text names for what a hart waits for are the ranks that could bring it, and no other could.
pub fn named_law()
    ensures { NamedLaw }
{}
