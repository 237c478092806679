//! What a debugger refuses.

ghost use Rattle.std.specs.Prelude.{◌≡◌};
ghost use Rattle.cl_debug.specs.declared.faults.DebugFault.TheVariants as faults;

use std::alloc::{AllocError, AllocFailed};
use thiserror::Error;

/// Why a debugger didn't do what it was asked for. It is printed as its name and its numbers.
#[derive(Clone, Copy, Debug, Drop, Error)]
pub enum DebugFault {
    /// 1: the place is behind the end. Carries the number of steps.
    #[error("PastEnd {0}")]
    PastEnd(u64),
    /// 2: the image has no such rank.
    #[error("NoRank")]
    NoRank,
    /// 3: the image has no such hart.
    #[error("NoHart")]
    NoHart,
    /// 4: some of the bytes are outside the memory.
    #[error("Range")]
    Range,
    /// 5: memory was refused.
    #[error("Memory")]
    Memory,
    /// 6: the steps are no run of the image: the machine has no such step where the steps before it lead. Carries its
    /// number, from 0.
    #[error("NotARun {0}")]
    NotARun(u64),
    /// 7: the image has no symbol of this name. The debugger's own calls take addresses: it is told by those that look
    /// a name up by `Debugger::symbol`.
    #[error("NoSymbol")]
    NoSymbol,
}

impl From<AllocError> for DebugFault {
    ghost from_gives = { λ _ fault. fault ≡ faults.Memory };

    fn from(_e: AllocError) -> DebugFault {
        DebugFault::Memory
    }
}

impl<T: Drop> From<AllocFailed<T>> for DebugFault {
    ghost from_gives = { λ _ fault. fault ≡ faults.Memory };

    fn from(_e: AllocFailed<T>) -> DebugFault {
        DebugFault::Memory
    }
}
