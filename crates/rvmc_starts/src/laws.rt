//! Laws of the definitions, with no code: each function's contract is the law.

ghost use Rattle.rvmc_starts.specs.Laws.{PartsReadOnceLaw, StartsReadBackLaw};

/// What is written of a start is read as that start.
pub fn starts_read_back()
    ensures { StartsReadBackLaw }
{}

/// Where the texts of two parts stand first in the same bytes they are the same part, and the same stands behind them.
pub fn parts_read_once()
    ensures { PartsReadOnceLaw }
{}
