//! Whether a function keeps a frame pointer.

ghost use Rattle.std.specs.Prelude.{◌≡◌, ◌+◌, ◌*◌, ◌^◌, ◌<◌, None};
ghost use Rattle.std.specs.Option.{option_copied};
ghost use Rattle.rvmc_places.specs.Pointers.{behind_jump, from_callers, from_own, from_restored, is_addi, is_ld, is_sd};
ghost use Rattle.rvmc_places.specs.Pointers.{is_set, keeps_by, keeps_from, kept_pointer, pointer_after, pointer_at};
ghost use Rattle.rvmc_places.specs.Pointers.{pointer_behind, set_or};
ghost use Rattle.rvmc_places.specs.Ways.{instruction_at};
ghost use Rattle.rvmc_places.specs.declared.pointers.Pointer.TheVariants.{Callers};

use crate::near::nearest_label;
use crate::ways::{instruction_at, offset};
use rv_decode::{ImmOp, Instr, LoadOp, Reg, StoreOp};
use rv_image_types::Symbol;
use rv_memory::RankMemory;

/// Whether a function keeps a frame pointer.
#[derive(Clone, Copy, Drop)]
pub enum Keeps {
    /// It has no label.
    Unknown,
    /// It does, and has stored its return address below it.
    Stored,
    /// It does, and has its return address in ra alone.
    Leaf,
    /// It doesn't.
    Without,
}

/// What s0 is.
#[derive(Clone, Copy, Drop)]
pub(crate) enum Pointer {
    /// The caller's, and stored at this offset from sp, or nowhere.
    Callers(Option<u64>),
    /// The function's own: the address behind its frame. Whether no return address is stored there.
    Own(bool),
    /// The caller's once more, before the function returns.
    Restored(bool),
}

/// Whether a store is SD.
fn is_sd(op: StoreOp) -> bool
    ensures { result ≡ is_sd op }
{
    matches!(op, StoreOp::Sd)
}

/// Whether an operation is ADDI.
fn is_addi(op: ImmOp) -> bool
    ensures { result ≡ is_addi op }
{
    matches!(op, ImmOp::Addi)
}

/// Whether a load is LD.
fn is_ld(op: LoadOp) -> bool
    ensures { result ≡ is_ld op }
{
    matches!(op, LoadOp::Ld)
}

/// Whether s0 is set to the address behind the frame, by where s0 was stored; and whether no return address is stored.
fn is_set(stored: Option<u64>, pointer: u64) -> Option<bool>
    ensures { result ≡ is_set stored pointer }
{
    let stored = stored?;
    if pointer.checked_sub(16) == Some(stored) {
        return Some(false);
    }
    if pointer.checked_sub(8) == Some(stored) {
        return Some(true);
    }
    None
}

/// What s0 is where it may be set.
fn set_or(set: Option<bool>, stored: Option<u64>) -> Pointer
    ensures { result ≡ set_or set stored }
{
    match set {
        None => Pointer::Callers(stored),
        Some(leaf) => Pointer::Own(leaf),
    }
}

/// What s0 is behind an instruction, where it was the caller's.
fn from_callers(instruction: &Instr, stored: Option<u64>) -> Pointer
    ensures { result ≡ from_callers instruction.now stored }
{
    match *instruction {
        Instr::Store { op, rs1, rs2, off } => {
            if is_sd(op) && rs1.number() == 2 && rs2.number() == 8 {
                return Pointer::Callers(Some(offset(0, off)));
            }
            Pointer::Callers(stored)
        }
        Instr::Imm { op, rd, rs1, imm } => {
            if is_addi(op) && rd.number() == 8 && rs1.number() == 2 {
                return set_or(is_set(stored, offset(0, imm)), stored);
            }
            Pointer::Callers(stored)
        }
        _ => Pointer::Callers(stored),
    }
}

/// Where it was the function's own.
fn from_own(instruction: &Instr, leaf: bool) -> Pointer
    ensures { result ≡ from_own instruction.now leaf }
{
    match *instruction {
        Instr::Load { op, rd, rs1, .. } => {
            if is_ld(op) && rd.number() == 8 && rs1.number() == 2 {
                return Pointer::Restored(leaf);
            }
            Pointer::Own(leaf)
        }
        _ => Pointer::Own(leaf),
    }
}

/// Where it was restored, by the register in which a jump puts the address behind it.
fn behind_jump(rd: Reg, leaf: bool) -> Pointer
    ensures { result ≡ behind_jump rd leaf }
{
    if rd.number() == 0 {
        return Pointer::Own(leaf);
    }
    Pointer::Restored(leaf)
}

/// Where it was restored.
fn from_restored(instruction: &Instr, leaf: bool) -> Pointer
    ensures { result ≡ from_restored instruction.now leaf }
{
    match *instruction {
        Instr::Jal { rd, .. } => behind_jump(rd, leaf),
        Instr::Jalr { rd, .. } => behind_jump(rd, leaf),
        _ => Pointer::Restored(leaf),
    }
}

/// What s0 is behind an instruction.
fn pointer_after(instruction: &Instr, pointer: Pointer) -> Pointer
    ensures { result ≡ pointer_after instruction.now pointer }
{
    match pointer {
        Pointer::Callers(stored) => from_callers(instruction, stored),
        Pointer::Own(leaf) => from_own(instruction, leaf),
        Pointer::Restored(leaf) => from_restored(instruction, leaf),
    }
}

/// Behind that at an address.
fn pointer_behind(memory: &RankMemory, at: u64, pointer: Pointer) -> Pointer
    ensures { result ≡ pointer_behind (instruction_at memory.now at) pointer }
{
    match instruction_at(memory, at) {
        None => pointer,
        Some(instruction) => pointer_after(&instruction, pointer),
    }
}

/// Behind so many from an address on.
fn pointer_at(memory: &RankMemory, at: u64, count: u64) -> Pointer
    requires { at + 4 * count < 2 ^ 64 }
    ensures { result ≡ pointer_at memory.now at count (Callers None) }
{
    let mut pointer = Pointer::Callers(None);
    let mut next = at;
    for _number in 0..count {
        pointer = pointer_behind(memory, next, pointer);
        next += 4;
    }
    pointer
}

/// Whether a function keeps a frame pointer where s0 is this.
fn keeps_by(pointer: Pointer) -> Keeps
    ensures { result ≡ keeps_by pointer }
{
    match pointer {
        Pointer::Own(leaf) => {
            if leaf {
                return Keeps::Leaf;
            }
            Keeps::Stored
        }
        Pointer::Callers(_) => Keeps::Without,
        Pointer::Restored(_) => Keeps::Without,
    }
}

/// Whether it does at a place, by the instructions from its label on.
fn keeps_from(memory: &RankMemory, at: u64, label: Option<&Symbol>) -> Keeps
    ensures { result ≡ keeps_from memory.now at (option_copied label.entry) }
{
    let Some(label) = label else {
        return Keeps::Unknown;
    };
    if memory.text_word(at).is_none() {
        return Keeps::Without;
    }
    let begin = u64::from(label.address);
    keeps_by(pointer_at(memory, begin, at.saturating_sub(begin) / 4))
}

/// Whether the function of a place keeps a frame pointer there.
pub(crate) fn kept_pointer(symbols: &[Symbol], memory: &RankMemory, at: u64) -> Keeps
    ensures { result ≡ kept_pointer symbols.now memory.now at }
{
    keeps_from(memory, at, nearest_label(symbols, at))
}
