//! Worked rows: which deeds at one box keep the gate rule.

ghost use Rattle.cl_box_laws.specs.Worked.{KeptRow, TwiceRow, UnmadeRow};

/// A partition that is made ready, seen taken, and made ready again.
pub fn makes_what_was_seen_taken()
    ensures { KeptRow }
{}

/// Made ready twice, without a look at its gate between, is against the rule.
pub fn makes_nothing_twice()
    ensures { TwiceRow }
{}

/// Seen taken before it was made ready, too.
pub fn sees_nothing_unmade()
    ensures { UnmadeRow }
{}
