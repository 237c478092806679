//! A hart: its registers, its pc and its mode.
ghost use Rattle.std.specs.Prelude.{◌≡◌, ◌↔◌, IsTrue};

use rv_decode::Reg;
use rv_memory::Cause;
use std::marker::Model;

/// What a waiting hart waits for.
#[derive(Clone, Copy, Drop)]
pub enum Wait {
    /// The end of the post of this number, which it made.
    Post(u64),
    /// Nothing that is kept: its call is made anew, arguments and all.
    Again,
}

/// What a hart does with its next turn.
#[derive(Clone, Copy, Drop)]
pub enum Mode {
    /// It does the instruction at its pc.
    Running,
    /// It asks again whether the call at its pc is complete.
    Waiting(Wait),
    /// It is stopped: it ended with this code.
    Ended(u64),
    /// It is stopped: it trapped for this cause, at this pc.
    Trapped(Cause, u64),
}

impl Mode {
    ghost use Rattle.std.specs.Prelude.{◌≡◌};
    ghost use Rattle.rv_hart.specs.State.{is_stopped};

    /// Whether a hart in this mode is stopped for good: it ended or trapped.
    #[inline(always)]
    pub fn is_stopped(self) -> bool
        ensures { result ≡ is_stopped self }
    {
        match self {
            Mode::Ended(_) | Mode::Trapped(_, _) => true,
            Mode::Running | Mode::Waiting(_) => false,
        }
    }
}

/// What a step was.
#[derive(Clone, Copy, Drop)]
pub enum Did {
    /// An instruction with its whole effect.
    Plain,
    /// An ECALL, of which the step does nothing: hart and memory are as before.
    Call,
    /// An EBREAK: the hart is Trapped(Breakpoint, pc).
    Break,
    /// A trap: the hart is Trapped(cause, pc), and nothing else changes.
    Trap(Cause),
}

/// A hart: 32 registers of 64 bits, of which x0 is 0, a pc and a mode.
#[derive(Clone, Copy, Drop)]
pub struct Hart {
    regs: [u64; 32],
    pc: u64,
    mode: Mode,
}

impl Model for Hart {
    ghost use Rattle.std.specs.Prelude.{◌≡◌, slice_index};
    ghost use Rattle.rv_hart.specs.State.{State};

    ghost Value = { State };

    ghost view = { λ h. record { regs = h.regs; pc = h.pc; mode = h.mode } };

    ghost inverse = { λ s. record { regs = s.regs; pc = s.pc; mode = s.mode } };

    ghost invariant = { λ h. slice_index h.regs 0 ≡ 0 };
}

#[tactic(auto, using(crate::proofs::SameRegisters::same_registers))]
fn are_same_registers(registers: &[u64; 32], others: &[u64; 32]) -> bool
    ensures { IsTrue result ↔ (registers.now ≡ others.now) }
{
    registers == others
}

impl Hart {
    ghost use Rattle.std.specs.Prelude.{◌≡◌, ◌*◌, ◌≤◌, ◌↔◌, IsTrue};
    ghost use Rattle.rv_hart.specs.State.{read, write, at_pc, in_mode, start_state};

    /// A hart as its rank is loaded: Running at the program's entry, all registers 0 but x2 = memory size - 4,096 times
    /// the hart's number, x10 = the hart's number and x11 = the rank's. 4,096 times the hart's number is at most the
    /// memory size.
    pub fn start(entry: u64, memory_size: u64, hart: u8, rank: u8) -> Hart
        requires { 4096 * hart ≤ memory_size }
        ensures { result ≡ start_state entry memory_size hart rank }
    {
        let mut regs = [0; 32];
        regs[2] = memory_size - 4096 * u64::from(hart);
        regs[10] = u64::from(hart);
        regs[11] = u64::from(rank);
        Hart {
            regs,
            pc: entry,
            mode: Mode::Running,
        }
    }

    /// The address of the hart's instruction.
    #[inline(always)]
    pub fn pc(&self) -> u64
        ensures { result ≡ self.now.pc }
    {
        self.pc
    }

    /// What the hart does with its next turn.
    #[inline(always)]
    pub fn mode(&self) -> Mode
        ensures { result ≡ self.now.mode }
    {
        self.mode
    }

    /// What a register reads; x0 reads 0.
    #[inline(always)]
    pub fn get(&self, register: Reg) -> u64
        ensures { result ≡ read self.now register }
    {
        self.regs[register.number() as usize]
    }

    /// Writes a register; a write to x0 is dropped.
    #[inline(always)]
    pub fn set(&mut self, register: Reg, value: u64)
        ensures { self.new ≡ write self.old register value }
    {
        let number = register.number() as usize;
        if number != 0 {
            self.regs[number] = value;
        }
    }

    /// Goes to another instruction.
    #[inline(always)]
    pub fn set_pc(&mut self, pc: u64)
        ensures { self.new ≡ at_pc self.old pc }
    {
        self.pc = pc;
    }

    /// Whether both are at the same instruction with the same in all registers, whatever their modes.
    pub fn is_same_but_mode(&self, other: &Hart) -> bool
        ensures { IsTrue result ↔ ((self.now.pc ≡ other.now.pc) × (self.now.regs ≡ other.now.regs)) }
    {
        self.pc == other.pc && are_same_registers(&self.regs, &other.regs)
    }

    /// Changes to another mode.
    #[inline(always)]
    pub fn set_mode(&mut self, mode: Mode)
        ensures { self.new ≡ in_mode self.old mode }
    {
        self.mode = mode;
    }
}
