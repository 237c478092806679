//! One step of a hart.
ghost use Rattle.std.specs.Prelude.{◌≡◌, ◌+◌, ◌≤◌, IsOk, IfOk, OnOk, OnErr};
ghost use Rattle.rv_decode.specs.WordOf.{Fits};
ghost use Rattle.rv_decode.specs.declared.instruction.Instr.TheVariants.{Branch, Load, Store};
ghost use Rattle.rv_hart.specs.Effect.{After, after, gives, jumps, after_branch, next as next_of};
ghost use Rattle.rv_hart.specs.Relation.{IsStep};
ghost use Rattle.rv_hart.specs.Effect.{offset as offset_of};
ghost use Rattle.rv_hart.specs.State.{at_pc, in_mode};
ghost use Rattle.rv_hart.specs.Stepped.{stepped};
ghost use Rattle.rv_hart.specs.declared.state.Mode.TheVariants.{Running, Trapped};
ghost use Rattle.rv_hart.specs.Stores.{IsThere, stored_by, store_range as store_range_of};
ghost use Rattle.rv_memory.specs.Memory.{Memory};
ghost use Rattle.rv_memory.specs.MorePages.{missing_pages};

use crate::results;
use crate::state::{Did, Hart, Mode};
use crate::stores::store_range;
use rv_decode::{BranchOp, Instr, LoadOp, Reg, StoreOp, decode};
use rv_memory::{Cause, RankMemory, SparePages, StoreFault};
use std::alloc::AllocError;

#[inline(always)]
fn next(hart: &Hart) -> u64
    ensures { result ≡ next_of hart.now }
{
    hart.pc().wrapping_add(4)
}

#[inline(always)]
fn offset(base: u64, off: i32) -> u64
    ensures { result ≡ offset_of base off }
{
    results::add_signed(base, off)
}

/// Stops at a trap.
#[inline(always)]
fn trap(hart: &mut Hart, cause: Cause) -> Did
    ensures state { hart.new ≡ in_mode hart.old (Trapped cause hart.old.pc) }
    ensures did { result ≡ Did.Trap cause }
{
    let pc = hart.pc();
    hart.set_mode(Mode::Trapped(cause, pc));
    Did::Trap(cause)
}

/// Goes on to the next instruction.
#[inline(always)]
fn pass(hart: &mut Hart) -> Did
    ensures state { hart.new ≡ at_pc hart.old (next_of hart.old) }
    ensures did { result ≡ Did.Plain }
{
    let next = next(hart);
    hart.set_pc(next);
    Did::Plain
}

/// Writes rd, and goes on to the next instruction.
#[inline(always)]
#[tactic(auto, unfolding(crate::specs::Effect::gives))]
fn give(hart: &mut Hart, rd: Reg, value: u64) -> Did
    ensures { (m : Memory) → record { did = result; state = hart.new; memory = m } ≡ gives rd value hart.old m }
{
    hart.set(rd, value);
    pass(hart)
}

/// Jumps, with the next instruction's address in rd.
#[inline(always)]
#[tactic(auto, unfolding(crate::specs::Effect::jumps))]
fn jump(hart: &mut Hart, rd: Reg, target: u64) -> Did
    ensures { (m : Memory) → record { did = result; state = hart.new; memory = m } ≡ jumps rd target hart.old m }
{
    let link = next(hart);
    if target % 4 != 0 {
        return trap(hart, Cause::InstructionMisaligned);
    }
    hart.set(rd, link);
    hart.set_pc(target);
    Did::Plain
}

/// Takes a branch to a target.
#[inline(always)]
#[tactic(auto, unfolding(crate::specs::Effect::after_branch))]
fn branch(hart: &mut Hart, target: u64) -> Did
    ensures { (m : Memory) → record { did = result; state = hart.new; memory = m } ≡ after_branch target hart.old m }
{
    if target % 4 != 0 {
        return trap(hart, Cause::InstructionMisaligned);
    }
    hart.set_pc(target);
    Did::Plain
}

/// Takes a branch, or goes on to the next instruction.
#[inline(always)]
fn branch_by(hart: &mut Hart, op: BranchOp, rs1: Reg, rs2: Reg, off: i32) -> Did
    ensures { (m : Memory) → record { did = result; state = hart.new; memory = m }
        ≡ after (Branch op rs1 rs2 off) hart.old m }
{
    if results::is_taken(op, hart.get(rs1), hart.get(rs2)) {
        let target = offset(hart.pc(), off);
        branch(hart, target)
    } else {
        pass(hart)
    }
}

#[inline(always)]
fn load(hart: &mut Hart, memory: &RankMemory, op: LoadOp, rd: Reg, rs1: Reg, off: i32) -> Did
    ensures { record { did = result; state = hart.new; memory = memory.now }
        ≡ after (Load op rd rs1 off) hart.old memory.now }
{
    let address = offset(hart.get(rs1), off);
    match memory.load(address, results::load_width(op)) {
        Ok(value) => give(hart, rd, results::loaded(op, value)),
        Err(cause) => trap(hart, cause),
    }
}

#[inline(always)]
fn store(
    hart: &mut Hart,
    memory: &mut RankMemory,
    op: StoreOp,
    rs1: Reg,
    rs2: Reg,
    off: i32,
) -> Result<Did, AllocError>
    ensures takes_no_memory { IsThere memory.old (stored_by (Store op rs1 rs2 off) hart.old memory.old) → IsOk result }
    ensures hart { OnErr result (hart.new ≡ hart.old) }
    ensures memory { OnErr result (memory.new ≡ memory.old) }
    ensures effect { IfOk result
        (λ did. record { did = did; state = hart.new; memory = memory.new }
        ≡ after (Store op rs1 rs2 off) hart.old memory.old) }
{
    let address = offset(hart.get(rs1), off);
    match memory.store(address, results::store_width(op), hart.get(rs2)) {
        Ok(()) => Ok(pass(hart)),
        Err(StoreFault::Trap(cause)) => Ok(trap(hart, cause)),
        Err(StoreFault::Memory) => Err(AllocError),
    }
}

/// Stops at an EBREAK.
#[inline(always)]
fn stop_at_ebreak(hart: &mut Hart) -> Did
    ensures state { hart.new ≡ in_mode hart.old (Trapped Cause.Breakpoint hart.old.pc) }
    ensures did { result ≡ Did.Break }
{
    let pc = hart.pc();
    hart.set_mode(Mode::Trapped(Cause::Breakpoint, pc));
    Did::Break
}

#[inline(always)]
fn execute(hart: &mut Hart, memory: &mut RankMemory, instr: &Instr) -> Result<Did, AllocError>
    requires { Fits instr.now }
    ensures takes_no_memory { IsThere memory.old (stored_by instr.now hart.old memory.old) → IsOk result }
    ensures hart { OnErr result (hart.new ≡ hart.old) }
    ensures memory { OnErr result (memory.new ≡ memory.old) }
    ensures effect { IfOk result
        (λ did. record { did = did; state = hart.new; memory = memory.new } ≡ after instr.now hart.old memory.old) }
{
    match *instr {
        Instr::Upper { op, rd, imm } => {
            let value = results::upper(op, hart.pc(), imm);
            Ok(give(hart, rd, value))
        }
        Instr::Jal { rd, off } => {
            let target = offset(hart.pc(), off);
            Ok(jump(hart, rd, target))
        }
        Instr::Jalr { rd, rs1, off } => {
            let target = offset(hart.get(rs1), off);
            Ok(jump(hart, rd, target - target % 2))
        }
        Instr::Branch { op, rs1, rs2, off } => Ok(branch_by(hart, op, rs1, rs2, off)),
        Instr::Load { op, rd, rs1, off } => Ok(load(hart, memory, op, rd, rs1, off)),
        Instr::Store { op, rs1, rs2, off } => store(hart, memory, op, rs1, rs2, off),
        Instr::Imm { op, rd, rs1, imm } => {
            let value = results::imm(op, hart.get(rs1), imm);
            Ok(give(hart, rd, value))
        }
        Instr::Shift {
            op,
            rd,
            rs1,
            amount,
        } => {
            let value = results::shift(op, hart.get(rs1), amount);
            Ok(give(hart, rd, value))
        }
        Instr::Arith { op, rd, rs1, rs2 } => {
            let value = results::arith(op, hart.get(rs1), hart.get(rs2));
            Ok(give(hart, rd, value))
        }
        Instr::Fence => Ok(pass(hart)),
        Instr::Ecall => Ok(Did::Call),
        Instr::Ebreak => Ok(stop_at_ebreak(hart)),
    }
}

/// One step whose word is fetched and decoded. It stands by itself, so that what each step does of its own stays small.
#[inline(never)]
#[tactic(auto, unfolding(crate::specs::Stepped::stepped, crate::specs::Stores::store_range))]
fn step_word(hart: &mut Hart, memory: &mut RankMemory) -> Result<Did, AllocError>
    requires { hart.old.mode ≡ Running }
    ensures effect { IfOk result
        (λ did. record { did = did; state = hart.new; memory = memory.new } ≡ stepped hart.old memory.old) }
    ensures hart { OnErr result (hart.new ≡ hart.old) }
    ensures memory { OnErr result (memory.new ≡ memory.old) }
    ensures takes_no_memory { IsThere memory.old (store_range_of hart.old memory.old) → IsOk result }
{
    let Some(word) = memory.text_word(hart.pc()) else {
        return Ok(trap(hart, Cause::InstructionAccess));
    };
    let Some(instr) = decode(word) else {
        return Ok(trap(hart, Cause::IllegalInstruction));
    };
    execute(hart, memory, &instr)
}

/// One step of a running hart: the instruction whose word stands at the pc, with its whole effect, or the trap. An
/// ECALL is answered as `Call` and left to the caller. What the step leaves is what the table's relation allows, and
/// the relation allows nothing else. The only error is want of memory for the page of a store, and leaves hart and
/// memory as they were.
#[inline(always)]
pub fn step(hart: &mut Hart, memory: &mut RankMemory) -> Result<Did, AllocError>
    requires { hart.old.mode ≡ Running }
    ensures takes_no_memory { IsThere memory.old (store_range_of hart.old memory.old) → IsOk result }
    ensures hart { OnErr result (hart.new ≡ hart.old) }
    ensures memory { OnErr result (memory.new ≡ memory.old) }
    ensures effect { IfOk result
        (λ did. record { did = did; state = hart.new; memory = memory.new } ≡ stepped hart.old memory.old) }
    ensures table { IfOk result
        (λ did. IsStep hart.old memory.old record { did = did; state = hart.new; memory = memory.new }) }
    ensures only { IfOk result
        (λ did. (end : After) → IsStep hart.old memory.old end
        → end ≡ record { did = did; state = hart.new; memory = memory.new }) }
{
    match memory.instruction(hart.pc()) {
        Some(instr) => execute(hart, memory, &instr),
        None => step_word(hart, memory),
    }
}

/// The same step, with spare pages for what it stores. Takes no memory: the error is that there are fewer spare pages
/// than pages are missing, and leaves all as it was.
pub fn step_with(
    hart: &mut Hart,
    memory: &mut RankMemory,
    spares: &mut SparePages,
) -> Result<Did, AllocError>
    requires { hart.old.mode ≡ Running }
    ensures enough { let range = store_range_of hart.old memory.old in
        missing_pages memory.old.pages range.address range.count ≤ spares.old → IsOk result }
    ensures taken { let range = store_range_of hart.old memory.old in
        OnOk result (spares.new + missing_pages memory.old.pages range.address range.count ≡ spares.old) }
    ensures effect { IfOk result
        (λ did. record { did = did; state = hart.new; memory = memory.new } ≡ stepped hart.old memory.old) }
    ensures hart { OnErr result (hart.new ≡ hart.old) }
    ensures memory { OnErr result (memory.new ≡ memory.old) }
    ensures kept { OnErr result (spares.new ≡ spares.old) }
{
    let range = store_range(hart, memory);
    if !memory.place(spares, range.address, range.count) {
        return Err(AllocError);
    }
    step(hart, memory)
}
