//! Why a search isn't gone on with.

ghost use Rattle.std.specs.Prelude.{◌≡◌};
ghost use Rattle.cl_moves.specs.declared.faults.MoveFault.TheVariants as faults;
ghost use Rattle.cl_explore.specs.declared.halt.Halt.TheVariants as halts;

use cl_moves::MoveFault;
use std::alloc::{AllocError, AllocFailed};

/// Why a search isn't gone on with.
#[derive(Clone, Copy, Drop)]
pub(crate) enum Halt {
    /// A turn couldn't be taken, or memory was refused.
    Fault(MoveFault),
    /// A rank asked something that is none of the patterns, or not all ranks may be let go where none goes first.
    Outside,
    /// Ranks need buffers at a node that was visited.
    Needed,
}

impl From<MoveFault> for Halt {
    ghost from_gives = { λ fault halt. halt ≡ halts.Fault fault };

    fn from(fault: MoveFault) -> Halt {
        Halt::Fault(fault)
    }
}

impl From<AllocError> for Halt {
    ghost from_gives = { λ _ halt. halt ≡ halts.Fault faults.Memory };

    fn from(_e: AllocError) -> Halt {
        Halt::Fault(MoveFault::Memory)
    }
}

impl<T: Drop> From<AllocFailed<T>> for Halt {
    ghost from_gives = { λ _ halt. halt ≡ halts.Fault faults.Memory };

    fn from(_e: AllocFailed<T>) -> Halt {
        Halt::Fault(MoveFault::Memory)
    }
}
