//! From instructions to words.
ghost use Rattle.std.specs.Prelude.{◌≡◌, ℕ, ◌⊎◌, ◌<◌, ◌+◌, ◌*◌, ◌^◌, ◌↔◌, IsTrue, Some, pos, ◌≤ℤ◌, int_rem};
ghost use Rattle.rv_decode.specs.Decoded.{decoded};
ghost use Rattle.rv_decode.specs.Fields.{bits, imm_i, imm_s, imm_b, imm_u, imm_j};
ghost use Rattle.rv_decode.specs.Table.{amount_bits, written_word};
ghost use Rattle.rv_decode.specs.WordOf.{IsWordOf, HasFunct3, HasFunct7, Fits, IsSigned};
ghost use Rattle.rv_decode.specs.Table.{r_type as r_word, i_type as i_word, s_type as s_word, b_type as b_word};
ghost use Rattle.rv_decode.specs.Table.{u_type as u_word, j_type as j_word, shift_type as shift_word};
ghost use Rattle.rv_decode.specs.declared.instruction.Instr.TheVariants.{Shift, Fence};

use crate::instruction::{Instr, ShiftOp};
use crate::register::Reg;

impl Instr {
    /// Whether the format holds the instruction's immediate, offset or amount, so that a word stands for it: `imm` of
    /// `Upper` a multiple of 4096; `off` of `Jal` even, -2^20 to 2^20 - 2; `off` of `Branch` even, -4096 to 4094; the
    /// other immediates and offsets -2048 to 2047; `amount` below 64, that of a W shift below 32.
    pub fn fits(&self) -> bool
        ensures { IsTrue result ↔ Fits self.now }
    {
        match *self {
            Instr::Upper { imm, .. } => imm % 4096 == 0,
            Instr::Jal { off, .. } => -0x10_0000 <= off && off < 0x10_0000 && off % 2 == 0,
            Instr::Branch { off, .. } => -0x1000 <= off && off < 0x1000 && off % 2 == 0,
            Instr::Jalr { off, .. } | Instr::Load { off, .. } | Instr::Store { off, .. } => {
                -0x800 <= off && off < 0x800
            }
            Instr::Imm { imm, .. } => -0x800 <= imm && imm < 0x800,
            Instr::Shift { op, amount, .. } => shift_fits(op, amount),
            Instr::Arith { .. } | Instr::Fence | Instr::Ecall | Instr::Ebreak => true,
        }
    }
}

fn shift_fits(op: ShiftOp, amount: u8) -> bool
    ensures { IsTrue result ↔ (amount < 2 ^ amount_bits op) }
{
    match op {
        ShiftOp::Slli | ShiftOp::Srli | ShiftOp::Srai => amount < 64,
        ShiftOp::Slliw | ShiftOp::Srliw | ShiftOp::Sraiw => amount < 32,
    }
}

fn number(register: Reg) -> u32
    ensures value { result ≡ register }
    ensures bound { result < 32 }
{
    u32::from(register.number())
}

// The formats, from bit 31 down (2.2 and 2.3).

fn r_type(row: (u32, u32, u32), rd: Reg, rs1: Reg, rs2: Reg) -> u32
    requires opcode { row.0 < 2 ^ 7 }
    requires funct3 { row.1 < 2 ^ 3 }
    requires funct7 { row.2 < 2 ^ 7 }
    ensures word { result ≡ r_word row rd rs1 rs2 }
    ensures row { HasFunct7 result row }
    ensures rd { rd ≡ bits result 11 7 }
    ensures rs1 { rs1 ≡ bits result 19 15 }
    ensures rs2 { rs2 ≡ bits result 24 20 }
{
    let (opcode, funct3, funct7) = row;
    funct7 * 0x200_0000
        + number(rs2) * 0x10_0000
        + number(rs1) * 0x8000
        + funct3 * 0x1000
        + number(rd) * 0x80
        + opcode
}

fn i_type(row: (u32, u32), rd: Reg, rs1: Reg, imm: i32) -> u32
    requires opcode { row.0 < 2 ^ 7 }
    requires funct3 { row.1 < 2 ^ 3 }
    requires imm { IsSigned 12 imm }
    ensures word { result ≡ i_word row rd rs1 imm }
    ensures row { HasFunct3 result row }
    ensures rd { rd ≡ bits result 11 7 }
    ensures rs1 { rs1 ≡ bits result 19 15 }
    ensures imm { imm ≡ imm_i result }
{
    let (opcode, funct3) = row;
    imm.cast_unsigned() % 0x1000 * 0x10_0000
        + number(rs1) * 0x8000
        + funct3 * 0x1000
        + number(rd) * 0x80
        + opcode
}

fn s_type(row: (u32, u32), rs1: Reg, rs2: Reg, off: i32) -> u32
    requires opcode { row.0 < 2 ^ 7 }
    requires funct3 { row.1 < 2 ^ 3 }
    requires off { IsSigned 12 off }
    ensures word { result ≡ s_word row rs1 rs2 off }
    ensures row { HasFunct3 result row }
    ensures rs1 { rs1 ≡ bits result 19 15 }
    ensures rs2 { rs2 ≡ bits result 24 20 }
    ensures off { off ≡ imm_s result }
{
    let (opcode, funct3) = row;
    let bits = off.cast_unsigned();
    bits / 0x20 % 0x80 * 0x200_0000
        + number(rs2) * 0x10_0000
        + number(rs1) * 0x8000
        + funct3 * 0x1000
        + bits % 0x20 * 0x80
        + opcode
}

fn b_type(row: (u32, u32), rs1: Reg, rs2: Reg, off: i32) -> u32
    requires opcode { row.0 < 2 ^ 7 }
    requires funct3 { row.1 < 2 ^ 3 }
    requires off { IsSigned 13 off }
    requires even { int_rem off (pos 2) ≡ pos 0 }
    ensures word { result ≡ b_word row rs1 rs2 off }
    ensures row { HasFunct3 result row }
    ensures rs1 { rs1 ≡ bits result 19 15 }
    ensures rs2 { rs2 ≡ bits result 24 20 }
    ensures off { off ≡ imm_b result }
{
    let (opcode, funct3) = row;
    let bits = off.cast_unsigned();
    bits / 0x1000 % 2 * 0x8000_0000
        + bits / 0x20 % 0x40 * 0x200_0000
        + number(rs2) * 0x10_0000
        + number(rs1) * 0x8000
        + funct3 * 0x1000
        + bits / 2 % 0x10 * 0x100
        + bits / 0x800 % 2 * 0x80
        + opcode
}

fn u_type(opcode: u32, rd: Reg, imm: i32) -> u32
    requires opcode { opcode < 2 ^ 7 }
    requires imm { int_rem imm (pos 4096) ≡ pos 0 }
    ensures word { result ≡ u_word opcode rd imm }
    ensures opcode { bits result 6 0 ≡ opcode }
    ensures rd { rd ≡ bits result 11 7 }
    ensures imm { imm ≡ imm_u result }
{
    imm.cast_unsigned() / 0x1000 * 0x1000 + number(rd) * 0x80 + opcode
}

fn j_type(opcode: u32, rd: Reg, off: i32) -> u32
    requires opcode { opcode < 2 ^ 7 }
    requires off { IsSigned 21 off }
    requires even { int_rem off (pos 2) ≡ pos 0 }
    ensures word { result ≡ j_word opcode rd off }
    ensures opcode { bits result 6 0 ≡ opcode }
    ensures rd { rd ≡ bits result 11 7 }
    ensures off { off ≡ imm_j result }
{
    let bits = off.cast_unsigned();
    bits / 0x10_0000 % 2 * 0x8000_0000
        + bits / 2 % 0x400 * 0x20_0000
        + bits / 0x800 % 2 * 0x10_0000
        + bits / 0x1000 % 0x100 * 0x1000
        + number(rd) * 0x80
        + opcode
}

fn shift_type(op: ShiftOp, rd: Reg, rs1: Reg, amount: u8) -> u32
    requires { amount < 2 ^ amount_bits op }
    ensures word { result ≡ shift_word op rd rs1 amount }
    ensures stands_for { IsWordOf result (Shift op rd rs1 amount) }
{
    let (opcode, funct3, above) = op.row();
    above * op.above_amount()
        + u32::from(amount) * 0x10_0000
        + number(rs1) * 0x8000
        + funct3 * 0x1000
        + number(rd) * 0x80
        + opcode
}

#[tactic(auto, unfolding(crate::specs::Table::written_word))]
fn word_of(instr: &Instr) -> u32
    requires { Fits instr.now }
    ensures written { result ≡ written_word instr.now }
    ensures word { IsWordOf result instr.now }
{
    match *instr {
        Instr::Upper { op, rd, imm } => u_type(op.row(), rd, imm),
        Instr::Jal { rd, off } => j_type(0x6f, rd, off),
        Instr::Jalr { rd, rs1, off } => i_type((0x67, 0), rd, rs1, off),
        Instr::Branch { op, rs1, rs2, off } => b_type(op.row(), rs1, rs2, off),
        Instr::Load { op, rd, rs1, off } => i_type(op.row(), rd, rs1, off),
        Instr::Store { op, rs1, rs2, off } => s_type(op.row(), rs1, rs2, off),
        Instr::Imm { op, rd, rs1, imm } => i_type(op.row(), rd, rs1, imm),
        Instr::Shift {
            op,
            rd,
            rs1,
            amount,
        } => shift_type(op, rd, rs1, amount),
        Instr::Arith { op, rd, rs1, rs2 } => r_type(op.row(), rd, rs1, rs2),
        Instr::Fence => 0x0ff0_000f,
        Instr::Ecall => 0x0000_0073,
        Instr::Ebreak => 0x0010_0073,
    }
}

/// The word of an instruction that fits; of `Fence`, whose words are many, the one of `fence iorw, iorw`.
pub fn encode(instr: &Instr) -> u32
    requires { Fits instr.now }
    ensures written { result ≡ written_word instr.now }
    ensures word { IsWordOf result instr.now }
    ensures only_word { (w : ℕ) → w < 2 ^ 32 → IsWordOf w instr.now → (instr.now ≡ Fence) ⊎ (w ≡ result) }
    ensures decoded_back { decoded result ≡ Some instr.now }
{
    word_of(instr)
}
