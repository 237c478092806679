//! The ways out of a function, by which its frame is found where it keeps no frame pointer.

ghost use Rattle.std.specs.Prelude.{◌≡◌, ◌^◌, ◌<◌, IfSome, Some};
ghost use Rattle.rv_decode.specs.Table.{amount_bits};
ghost use Rattle.rv_decode.specs.WordOf.{Fits};
ghost use Rattle.rv_hart.specs.Effect.{next as next_of, offset as offset_of};
ghost use Rattle.rvmc_places.specs.Ways as ways;
ghost use Rattle.rvmc_places.specs.Ways.{called_at, instruction_at, is_call, is_followed, restored, way_out};

use crate::frames::Frame;
use rv_decode::{ArithOp, ImmOp, Instr, LoadOp, Reg, ShiftOp, StoreOp, UpperOp, decode};
use rv_hart::Hart;
use rv_memory::RankMemory;

/// The most instructions of a way.
const MOST: usize = 512;

/// How many ways are tried: 8 binary digits say at which branches one jumps.
const WAYS: u16 = 256;

/// A place on a way: the hart as it would be there, what the way itself has stored of ra and s0, and at which branches it
/// jumps.
#[derive(Drop)]
pub(crate) struct Spot {
    pub hart: Hart,
    pub ra: Option<u64>,
    pub s0: Option<u64>,
    pub jumps: u8,
}

/// What one instruction of a way leads to.
#[derive(Drop)]
pub(crate) enum Progress {
    /// The next place.
    On(Spot),
    /// The function's return.
    Out(Hart),
    /// Nothing that is known.
    Lost,
}

/// The instruction at an address of the text.
pub(crate) fn instruction_at(memory: &RankMemory, at: u64) -> Option<Instr>
    ensures value { result ≡ instruction_at memory.now at }
    ensures fits { IfSome result Fits }
{
    decode(memory.text_word(at)?)
}

/// The address of the next instruction.
fn next(spot: &Spot) -> u64
    ensures { result ≡ next_of spot.now.hart }
{
    spot.hart.pc().wrapping_add(4)
}

/// The address of a signed offset from a number.
pub(crate) fn offset(base: u64, off: i32) -> u64
    ensures { result ≡ offset_of base off }
{
    base.wrapping_add_signed(i64::from(off))
}

/// At another instruction.
fn goes_to(pc: u64, spot: Spot) -> Progress
    ensures { result ≡ ways.goes_to pc spot }
{
    let mut spot = spot;
    spot.hart.set_pc(pc);
    Progress::On(spot)
}

/// At the next one.
fn goes_on(spot: Spot) -> Progress
    ensures { result ≡ ways.goes_on spot }
{
    let pc = next(&spot);
    goes_to(pc, spot)
}

/// With a value in a register.
fn gives(rd: Reg, value: u64, spot: Spot) -> Progress
    ensures { result ≡ ways.gives rd value spot }
{
    let mut spot = spot;
    spot.hart.set(rd, value);
    goes_on(spot)
}

/// With a value in a register that isn't followed.
fn leaves(rd: Reg, spot: Spot) -> Progress
    ensures { result ≡ ways.leaves rd spot }
{
    if rd.number() == 2 {
        return Progress::Lost;
    }
    goes_on(spot)
}

/// A call whose return address is in t0.
fn calls_by_t0(target: u64, spot: Spot) -> Progress
    ensures { result ≡ ways.calls_by_t0 target spot }
{
    let mut spot = spot;
    let link = next(&spot);
    spot.hart.set(Reg::new(5), link);
    goes_to(target, spot)
}

/// JAL.
fn jal(rd: Reg, target: u64, spot: Spot) -> Progress
    ensures { result ≡ ways.jal rd target spot }
{
    match rd.number() {
        0 => goes_to(target, spot),
        1 => goes_on(spot),
        5 => calls_by_t0(target, spot),
        _ => Progress::Lost,
    }
}

/// JALR.
fn jalr(rd: Reg, rs1: Reg, off: i32, spot: Spot) -> Progress
    ensures { result ≡ ways.jalr rd rs1 off spot }
{
    match (rd.number(), rs1.number()) {
        (1, _) => goes_on(spot),
        (0, 1) => Progress::Out(spot.hart),
        (0, 5) => {
            let target = offset(spot.hart.get(Reg::new(5)), off);
            goes_to(target, spot)
        }
        (0, _) => goes_on(spot),
        _ => Progress::Lost,
    }
}

/// A branch.
fn branch(target: u64, spot: Spot) -> Progress
    ensures { result ≡ ways.branch target spot }
{
    let mut spot = spot;
    let jumps = spot.jumps % 2;
    spot.jumps = spot.jumps / 2 + jumps * 128;
    if jumps == 1 {
        goes_to(target, spot)
    } else {
        goes_on(spot)
    }
}

/// What a load restores.
fn restored(stored: Option<u64>, memory: &RankMemory, address: u64) -> Option<u64>
    ensures { result ≡ restored stored memory.now address }
{
    if stored.is_some() {
        return stored;
    }
    if !memory.in_range(address, 8, false) {
        return None;
    }
    Some(memory.word(address))
}

/// A return address that is restored.
fn restores_ra(value: Option<u64>, spot: Spot) -> Progress
    ensures { result ≡ ways.restores_ra value spot }
{
    let Some(value) = value else {
        return Progress::Lost;
    };
    let mut spot = spot;
    spot.ra = None;
    gives(Reg::new(1), value, spot)
}

/// The register s0 that is restored.
fn restores_s0(value: Option<u64>, spot: Spot) -> Progress
    ensures { result ≡ ways.restores_s0 value spot }
{
    let Some(value) = value else {
        return Progress::Lost;
    };
    let mut spot = spot;
    spot.s0 = None;
    gives(Reg::new(8), value, spot)
}

/// LD from the stack.
fn pops(memory: &RankMemory, rd: Reg, address: u64, spot: Spot) -> Progress
    ensures { result ≡ ways.pops memory.now rd address spot }
{
    match rd.number() {
        1 => {
            let value = restored(spot.ra, memory, address);
            restores_ra(value, spot)
        }
        8 => {
            let value = restored(spot.s0, memory, address);
            restores_s0(value, spot)
        }
        _ => leaves(rd, spot),
    }
}

/// SD to the stack.
fn pushes(rs2: Reg, spot: Spot) -> Progress
    ensures { result ≡ ways.pushes rs2 spot }
{
    let mut spot = spot;
    let stored = Some(spot.hart.get(rs2));
    match rs2.number() {
        1 => spot.ra = stored,
        8 => spot.s0 = stored,
        _ => {}
    }
    goes_on(spot)
}

/// Whether sp is followed where this register is added to it.
fn is_followed(rs: Reg) -> bool
    ensures { result ≡ is_followed rs }
{
    matches!(rs.number(), 2 | 5 | 6 | 8)
}

/// A sum.
fn adds(followed: bool, rd: Reg, value: u64, spot: Spot) -> Progress
    ensures { result ≡ ways.adds followed rd value spot }
{
    if rd.number() == 2 && !followed {
        return Progress::Lost;
    }
    gives(rd, value, spot)
}

/// A load.
fn loads(memory: &RankMemory, op: LoadOp, rd: Reg, rs1: Reg, off: i32, spot: Spot) -> Progress
    ensures { result ≡ ways.loads memory.now op rd rs1 off spot }
{
    match op {
        LoadOp::Ld if rs1.number() == 2 => {
            let address = offset(spot.hart.get(Reg::new(2)), off);
            pops(memory, rd, address, spot)
        }
        _ => leaves(rd, spot),
    }
}

/// A store.
fn stores(op: StoreOp, rs1: Reg, rs2: Reg, spot: Spot) -> Progress
    ensures { result ≡ ways.stores op rs1 rs2 spot }
{
    match op {
        StoreOp::Sd if rs1.number() == 2 => pushes(rs2, spot),
        _ => goes_on(spot),
    }
}

/// An upper immediate.
fn uppers(op: UpperOp, rd: Reg, imm: i32, spot: Spot) -> Progress
    ensures { result ≡ ways.uppers op rd imm spot }
{
    match op {
        UpperOp::Lui => gives(rd, (imm as i64).cast_unsigned(), spot),
        UpperOp::Auipc => leaves(rd, spot),
    }
}

/// An operation on a register and an immediate.
fn imms(op: ImmOp, rd: Reg, rs1: Reg, imm: i32, spot: Spot) -> Progress
    ensures { result ≡ ways.imms op rd rs1 imm spot }
{
    match op {
        ImmOp::Addi => {
            let value = offset(spot.hart.get(rs1), imm);
            adds(is_followed(rs1), rd, value, spot)
        }
        _ => leaves(rd, spot),
    }
}

/// A shift.
fn shifts(op: ShiftOp, rd: Reg, rs1: Reg, amount: u8, spot: Spot) -> Progress
    requires { amount < 2 ^ amount_bits op }
    ensures { result ≡ ways.shifts op rd rs1 amount spot }
{
    match op {
        ShiftOp::Slli => {
            let value = spot.hart.get(rs1) << amount;
            adds(false, rd, value, spot)
        }
        _ => leaves(rd, spot),
    }
}

/// An operation on two registers.
fn ariths(op: ArithOp, rd: Reg, rs1: Reg, rs2: Reg, spot: Spot) -> Progress
    ensures { result ≡ ways.ariths op rd rs1 rs2 spot }
{
    match op {
        ArithOp::Add => {
            let value = spot.hart.get(rs1).wrapping_add(spot.hart.get(rs2));
            let followed = is_followed(rs1) && is_followed(rs2);
            adds(followed, rd, value, spot)
        }
        _ => leaves(rd, spot),
    }
}

/// One instruction.
fn followed(memory: &RankMemory, instruction: Instr, spot: Spot) -> Progress
    requires { Fits instruction }
    ensures { result ≡ ways.followed memory.now instruction spot }
{
    match instruction {
        Instr::Jal { rd, off } => {
            let target = offset(spot.hart.pc(), off);
            jal(rd, target, spot)
        }
        Instr::Jalr { rd, rs1, off } => jalr(rd, rs1, off, spot),
        Instr::Branch { off, .. } => {
            let target = offset(spot.hart.pc(), off);
            branch(target, spot)
        }
        Instr::Load { op, rd, rs1, off } => loads(memory, op, rd, rs1, off, spot),
        Instr::Store { op, rs1, rs2, .. } => stores(op, rs1, rs2, spot),
        Instr::Upper { op, rd, imm } => uppers(op, rd, imm, spot),
        Instr::Imm { op, rd, rs1, imm } => imms(op, rd, rs1, imm, spot),
        Instr::Shift {
            op,
            rd,
            rs1,
            amount,
        } => shifts(op, rd, rs1, amount, spot),
        Instr::Arith { op, rd, rs1, rs2 } => ariths(op, rd, rs1, rs2, spot),
        Instr::Fence | Instr::Ecall | Instr::Ebreak => goes_on(spot),
    }
}

/// The instruction at a place of a way.
#[tactic(auto, unfolding(crate::specs::Ways::advanced))]
fn advanced(memory: &RankMemory, spot: Spot) -> Progress
    ensures { result ≡ ways.advanced memory.now spot }
{
    match instruction_at(memory, spot.hart.pc()) {
        None => Progress::Lost,
        Some(instruction) => followed(memory, instruction, spot),
    }
}

/// Whether an instruction is a call.
fn is_call(instruction: &Instr) -> bool
    ensures { result ≡ is_call (Some instruction.now) }
{
    match *instruction {
        Instr::Jal { rd, .. } => rd.number() == 1,
        Instr::Jalr { rd, .. } => rd.number() == 1,
        _ => false,
    }
}

/// Whether the instruction at an address is one.
fn calls(memory: &RankMemory, at: u64) -> bool
    ensures { result ≡ is_call (instruction_at memory.now at) }
{
    match instruction_at(memory, at) {
        None => false,
        Some(instruction) => is_call(&instruction),
    }
}

/// Where the function of a frame was called.
pub(crate) fn called_at(frame: Frame) -> u64
    ensures { result ≡ called_at frame }
{
    frame.back.saturating_sub(4)
}

/// The frame at the end of a way, which leads behind a call.
pub(crate) fn led(memory: &RankMemory, hart: &Hart) -> Option<Frame>
    ensures { result ≡ ways.led memory.now hart.now }
{
    let frame = Frame {
        pointer: hart.get(Reg::new(2)),
        back: hart.get(Reg::new(1)),
        above: hart.get(Reg::new(8)),
    };
    if !calls(memory, called_at(frame)) {
        return None;
    }
    Some(frame)
}

/// Where a way leads, by its number.
fn way(memory: &RankMemory, hart: &Hart, number: u8) -> Option<Frame>
    ensures { result ≡ ways.way memory.now hart.now number }
{
    let mut next = Progress::On(Spot {
        hart: *hart,
        ra: None,
        s0: None,
        jumps: number,
    });
    for _step in 0..MOST {
        match next {
            Progress::Lost => return None,
            Progress::Out(hart) => return led(memory, &hart),
            Progress::On(spot) => next = advanced(memory, spot),
        }
    }
    match next {
        Progress::Out(hart) => led(memory, &hart),
        Progress::On(_) => None,
        Progress::Lost => None,
    }
}

/// Where the first way leads that leads out of the function that a hart is in.
pub(crate) fn way_out(memory: &RankMemory, hart: &Hart) -> Option<Frame>
    ensures { result ≡ way_out memory.now hart.now }
{
    for number in 0..WAYS {
        let found = way(memory, hart, number as u8);
        if found.is_some() {
            return found;
        }
    }
    None
}
