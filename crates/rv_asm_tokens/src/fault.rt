//! Why a source has no image.

ghost use Rattle.std.specs.Prelude.{◌≡◌};
ghost use Rattle.rv_asm_tokens.specs.declared.fault.AsmFaultKind.TheVariants as kinds;

use std::alloc::{AllocError, AllocFailed};
use thiserror::Error;

/// What is wrong. It prints as its name, with its number behind a space.
#[derive(Clone, Copy, Debug, Error)]
pub enum AsmFaultKind {
    /// 1: a character, a number or a string that is no token.
    #[error("Token")]
    Token,
    /// 2: a statement that begins with no mnemonic.
    #[error("Mnemonic")]
    Mnemonic,
    /// 3: an instruction's operands, by their count or kind.
    #[error("Operand")]
    Operand,
    /// 4: a value that does not fit where it stands: an immediate, an offset, a shift amount or a data number.
    #[error("Range {0}")]
    Range(i128),
    /// 5: a label that a line before, or the same line, has defined.
    #[error("LabelTwice")]
    LabelTwice,
    /// 6: a label that no line defines.
    #[error("LabelMissing")]
    LabelMissing,
    /// 7: a directive that is unknown, wrong, or not in its part; at line 0 a text part with nothing in it.
    #[error("Directive")]
    Directive,
    /// 8: a part, or the number of communicators, links or symbols, grows past its limit; at line 0 the memory is too
    /// small.
    #[error("Limit")]
    Limit,
    /// 9: the system refused memory.
    #[error("Memory")]
    Memory,
}

/// The first fault of a source, and the line where it stands: from 1, or 0 for a fault of the whole source.
#[derive(Clone, Copy, Debug, Error)]
#[error("line {line}: {kind}")]
pub struct AsmFault {
    /// The line's number.
    pub line: u64,
    /// What is wrong there.
    pub kind: AsmFaultKind,
}

impl From<AllocError> for AsmFaultKind {
    ghost from_gives = { λ _ e. e ≡ kinds.Memory };

    fn from(_e: AllocError) -> AsmFaultKind {
        AsmFaultKind::Memory
    }
}

impl<T: Drop> From<AllocFailed<T>> for AsmFaultKind {
    ghost from_gives = { λ _ e. e ≡ kinds.Memory };

    fn from(_e: AllocFailed<T>) -> AsmFaultKind {
        AsmFaultKind::Memory
    }
}
