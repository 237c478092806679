//! Laws of the texts, with no code: each function's contract is the law.

ghost use Rattle.rvmc_protocol.specs.Replies.Parts.{PartLaw};
ghost use Rattle.rvmc_protocol.specs.Replies.Laws.{DigitsLaw};

/// The digits that are written of bytes and of a register are read as these.
pub fn digits_law()
    ensures { DigitsLaw }
{}

/// A part begins where the one before it ended, and the last one ends with the text.
pub fn part_law()
    ensures { PartLaw }
{}
