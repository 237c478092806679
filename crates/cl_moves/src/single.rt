//! One turn: whose it is, and its stamp.

ghost use Rattle.std.specs.Prelude.{◌≡◌, ◌<◌, ◌+◌, ◌^◌, max};
ghost use Rattle.cl_trace.specs.Traces.{kind_of_bare};
ghost use Rattle.cl_moves.specs.Moves.{turn_at};

use cl_machine::Step;
use cl_trace::Bare;
use mp_types::Stamp;

/// Whose turn it is, and the clock of its rank before it.
#[derive(Clone, Copy, Drop)]
pub struct Whose {
    pub rank: u8,
    pub hart: u8,
    pub clock: Stamp,
}

impl Whose {
    /// The stamp of a turn that meets what has this stamp.
    pub(crate) fn met(self, other: Stamp) -> Stamp
        requires clock { self.clock < 2 ^ 62 }
        requires other { other < 2 ^ 62 }
        ensures { result ≡ max self.clock other + 1 }
    {
        self.clock.max(other) + 1
    }

    /// The turn of this kind that meets nobody.
    pub(crate) fn next(self, kind: Bare) -> Step
        requires { self.clock < 2 ^ 62 }
        ensures { result ≡ turn_at self (self.clock + 1) (kind_of_bare kind) }
    {
        Step::bare(self.rank, self.hart, self.clock + 1, kind)
    }
}
