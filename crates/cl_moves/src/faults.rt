//! Why turns weren't told.

ghost use Rattle.std.specs.Prelude.{◌≡◌};
ghost use Rattle.cl_moves.specs.declared.faults.MoveFault.TheVariants as faults;

use std::alloc::{AllocError, AllocFailed};

/// Why turns weren't told.
#[derive(Clone, Copy, Drop)]
pub enum MoveFault {
    /// 1: a clock has come to its end, so that the turn would have no stamp.
    Clock,
    /// 2: memory was refused.
    Memory,
}

impl From<AllocError> for MoveFault {
    ghost from_gives = { λ _ fault. fault ≡ faults.Memory };

    fn from(_e: AllocError) -> MoveFault {
        MoveFault::Memory
    }
}

impl<T: Drop> From<AllocFailed<T>> for MoveFault {
    ghost from_gives = { λ _ fault. fault ≡ faults.Memory };

    fn from(_e: AllocFailed<T>) -> MoveFault {
        MoveFault::Memory
    }
}
