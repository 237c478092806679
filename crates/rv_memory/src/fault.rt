//! Why an instruction traps, and why bytes aren't read or written.
ghost use Rattle.std.specs.Prelude.{◌≡◌};
ghost use Rattle.rv_memory.specs.Fault.{cause_number};

/// Why a hart traps.
#[derive(Clone, Copy, Drop)]
pub enum Cause {
    /// 0: a jump or a branch that is taken goes to an address that isn't a multiple of 4.
    InstructionMisaligned,
    /// 1: the four bytes at the pc aren't all text.
    InstructionAccess,
    /// 2: the word at the pc stands for no instruction.
    IllegalInstruction,
    /// 3: an EBREAK.
    Breakpoint,
    /// 4: a load's address isn't a multiple of its width.
    LoadMisaligned,
    /// 5: the bytes of an aligned load aren't all in the memory.
    LoadAccess,
    /// 6: a store's address isn't a multiple of its width.
    StoreMisaligned,
    /// 7: the bytes of an aligned store aren't all in the memory, or are text.
    StoreAccess,
}

impl Cause {
    /// The cause's number, 0 to 7, as in the register `mcause` (RISC-V Privileged ISA, Machine Cause Register).
    pub fn number(self) -> u8
        ensures { result ≡ cause_number self }
    {
        match self {
            Cause::InstructionMisaligned => 0,
            Cause::InstructionAccess => 1,
            Cause::IllegalInstruction => 2,
            Cause::Breakpoint => 3,
            Cause::LoadMisaligned => 4,
            Cause::LoadAccess => 5,
            Cause::StoreMisaligned => 6,
            Cause::StoreAccess => 7,
        }
    }
}

/// Why a store isn't done.
#[derive(Clone, Copy, Drop)]
pub enum StoreFault {
    /// 1: the store traps.
    Trap(Cause),
    /// 2: the page that the store needs isn't there, and there is no memory for it.
    Memory,
}

/// Why bytes aren't read or written.
#[derive(Clone, Copy, Drop)]
pub enum BytesFault {
    /// 1: some of them are outside the memory, or would be written over the text.
    Range,
    /// 2: there is no memory for the copy, or for pages.
    Memory,
}
