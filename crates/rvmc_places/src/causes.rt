//! Why a hart trapped, as text.

ghost use Rattle.std.specs.Prelude.{◌≡◌, ◌++◌, OnOk};
ghost use Rattle.rvmc_places.specs.Causes.{cause_name as cause_name_of, has_overflowed, is_overflow, is_stack_full, trap_name};
ghost use Rattle.rvmc_places.specs.Causes.{trap_text, trapped_text};

use rv_decode::Reg;
use rv_hart::{Hart, Mode};
use rv_memory::{Cause, RankMemory};
use std::alloc::AllocError;
use std::io::Write;

/// The name of a trap's cause.
fn cause_name(cause: Cause) -> &'static str
    ensures { result.now ≡ cause_name_of cause }
{
    match cause {
        Cause::InstructionMisaligned => "jump to a misaligned address",
        Cause::InstructionAccess => "jump out of the text",
        Cause::IllegalInstruction => "illegal instruction",
        Cause::Breakpoint => "breakpoint",
        Cause::LoadMisaligned => "misaligned load",
        Cause::LoadAccess => "load outside memory",
        Cause::StoreMisaligned => "misaligned store",
        Cause::StoreAccess => "store outside memory or into the text",
    }
}

/// Whether the stack pointer is in the text, or below address 0.
fn is_stack_full(memory: &RankMemory, hart: &Hart) -> bool
    ensures { result ≡ is_stack_full memory.now hart.now }
{
    let pointer = hart.get(Reg::new(2));
    memory.text_word(pointer).is_some() || pointer >= 1 << 63
}

/// Whether a store fails because the stack is full, of a hart that traps by this cause.
fn is_overflow(memory: &RankMemory, hart: &Hart, cause: Cause) -> bool
    ensures { result ≡ is_overflow memory.now hart.now cause }
{
    match cause {
        Cause::StoreAccess => is_stack_full(memory, hart),
        _ => false,
    }
}

/// Whether a hart has trapped because its stack is full.
pub fn has_overflowed(memory: &RankMemory, hart: &Hart) -> bool
    ensures { result ≡ has_overflowed memory.now hart.now hart.now.mode }
{
    match hart.mode() {
        Mode::Trapped(cause, _) => is_overflow(memory, hart, cause),
        _ => false,
    }
}

/// The name of a trap's cause, or that the stack is full.
fn trap_name(overflow: bool, cause: Cause) -> &'static str
    ensures { result.now ≡ trap_name overflow cause }
{
    if overflow {
        "stack overflow"
    } else {
        cause_name(cause)
    }
}

/// Adds the number and the name of the cause of a trap, as `trapped 7 (stack overflow)`. The only error is want of memory.
pub fn put_trapped(text: &mut Vec<u8>, overflow: bool, cause: Cause) -> Result<(), AllocError>
    ensures { OnOk result (text.new.items ≡ text.old.items ++ trapped_text overflow cause) }
{
    let number = cause.number();
    let name = trap_name(overflow, cause);
    match write!(text, "trapped {number} ({name})") {
        Ok(()) => Ok(()),
        Err(_) => Err(AllocError),
    }
}

/// Adds why a hart trapped, before its place, as `trapped 7 (stack overflow) at `. The only error is want of memory.
pub fn put_trap(
    text: &mut Vec<u8>,
    memory: &RankMemory,
    hart: &Hart,
    cause: Cause,
) -> Result<(), AllocError>
    ensures { OnOk result (text.new.items ≡ text.old.items ++ trap_text memory.now hart.now cause) }
{
    put_trapped(text, is_overflow(memory, hart, cause), cause)?;
    text.extend_from_slice(b" at ")
}
