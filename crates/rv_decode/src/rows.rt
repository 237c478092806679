//! The fixed columns of the instruction table, for encoding.
ghost use Rattle.std.specs.Prelude.{◌≡◌, ◌<◌, ◌+◌, ◌^◌};
ghost use Rattle.rv_decode.specs.Table.{upper_row, branch_row, load_row, store_row, imm_row, shift_row, arith_row};
ghost use Rattle.rv_decode.specs.Table.{amount_bits};

use crate::instruction::{ArithOp, BranchOp, ImmOp, LoadOp, ShiftOp, StoreOp, UpperOp};

impl UpperOp {
    // opcode
    pub(crate) fn row(self) -> u32
        ensures row { result ≡ upper_row self }
        ensures opcode { result < 2 ^ 7 }
    {
        match self {
            UpperOp::Lui => 0x37,
            UpperOp::Auipc => 0x17,
        }
    }
}

impl BranchOp {
    // opcode and funct3
    pub(crate) fn row(self) -> (u32, u32)
        ensures row { result ≡ branch_row self }
        ensures opcode { result.0 < 2 ^ 7 }
        ensures funct3 { result.1 < 2 ^ 3 }
    {
        match self {
            BranchOp::Beq => (0x63, 0),
            BranchOp::Bne => (0x63, 1),
            BranchOp::Blt => (0x63, 4),
            BranchOp::Bge => (0x63, 5),
            BranchOp::Bltu => (0x63, 6),
            BranchOp::Bgeu => (0x63, 7),
        }
    }
}

impl LoadOp {
    // opcode and funct3
    pub(crate) fn row(self) -> (u32, u32)
        ensures row { result ≡ load_row self }
        ensures opcode { result.0 < 2 ^ 7 }
        ensures funct3 { result.1 < 2 ^ 3 }
    {
        match self {
            LoadOp::Lb => (0x03, 0),
            LoadOp::Lh => (0x03, 1),
            LoadOp::Lw => (0x03, 2),
            LoadOp::Ld => (0x03, 3),
            LoadOp::Lbu => (0x03, 4),
            LoadOp::Lhu => (0x03, 5),
            LoadOp::Lwu => (0x03, 6),
        }
    }
}

impl StoreOp {
    // opcode and funct3
    pub(crate) fn row(self) -> (u32, u32)
        ensures row { result ≡ store_row self }
        ensures opcode { result.0 < 2 ^ 7 }
        ensures funct3 { result.1 < 2 ^ 3 }
    {
        match self {
            StoreOp::Sb => (0x23, 0),
            StoreOp::Sh => (0x23, 1),
            StoreOp::Sw => (0x23, 2),
            StoreOp::Sd => (0x23, 3),
        }
    }
}

impl ImmOp {
    // opcode and funct3
    pub(crate) fn row(self) -> (u32, u32)
        ensures row { result ≡ imm_row self }
        ensures opcode { result.0 < 2 ^ 7 }
        ensures funct3 { result.1 < 2 ^ 3 }
    {
        match self {
            ImmOp::Addi => (0x13, 0),
            ImmOp::Slti => (0x13, 2),
            ImmOp::Sltiu => (0x13, 3),
            ImmOp::Xori => (0x13, 4),
            ImmOp::Ori => (0x13, 6),
            ImmOp::Andi => (0x13, 7),
            ImmOp::Addiw => (0x1b, 0),
        }
    }
}

impl ShiftOp {
    // opcode, funct3 and the bits above the amount
    pub(crate) fn row(self) -> (u32, u32, u32)
        ensures row { result ≡ shift_row self }
        ensures opcode { result.0 < 2 ^ 7 }
        ensures funct3 { result.1 < 2 ^ 3 }
        ensures funct7 { result.2 < 2 ^ 7 }
    {
        match self {
            ShiftOp::Slli => (0x13, 1, 0x00),
            ShiftOp::Srli => (0x13, 5, 0x00),
            ShiftOp::Srai => (0x13, 5, 0x10),
            ShiftOp::Slliw => (0x1b, 1, 0x00),
            ShiftOp::Srliw => (0x1b, 5, 0x00),
            ShiftOp::Sraiw => (0x1b, 5, 0x20),
        }
    }

    // the value of the lowest bit above the amount
    pub(crate) fn above_amount(self) -> u32
        ensures { result ≡ 2 ^ (20 + amount_bits self) }
    {
        match self {
            ShiftOp::Slli | ShiftOp::Srli | ShiftOp::Srai => 0x400_0000,
            ShiftOp::Slliw | ShiftOp::Srliw | ShiftOp::Sraiw => 0x200_0000,
        }
    }
}

impl ArithOp {
    // opcode, funct3 and funct7
    pub(crate) fn row(self) -> (u32, u32, u32)
        ensures row { result ≡ arith_row self }
        ensures opcode { result.0 < 2 ^ 7 }
        ensures funct3 { result.1 < 2 ^ 3 }
        ensures funct7 { result.2 < 2 ^ 7 }
    {
        match self {
            ArithOp::Add => (0x33, 0, 0x00),
            ArithOp::Sub => (0x33, 0, 0x20),
            ArithOp::Sll => (0x33, 1, 0x00),
            ArithOp::Slt => (0x33, 2, 0x00),
            ArithOp::Sltu => (0x33, 3, 0x00),
            ArithOp::Xor => (0x33, 4, 0x00),
            ArithOp::Srl => (0x33, 5, 0x00),
            ArithOp::Sra => (0x33, 5, 0x20),
            ArithOp::Or => (0x33, 6, 0x00),
            ArithOp::And => (0x33, 7, 0x00),
            ArithOp::Addw => (0x3b, 0, 0x00),
            ArithOp::Subw => (0x3b, 0, 0x20),
            ArithOp::Sllw => (0x3b, 1, 0x00),
            ArithOp::Srlw => (0x3b, 5, 0x00),
            ArithOp::Sraw => (0x3b, 5, 0x20),
            ArithOp::Mul => (0x33, 0, 0x01),
            ArithOp::Mulh => (0x33, 1, 0x01),
            ArithOp::Mulhsu => (0x33, 2, 0x01),
            ArithOp::Mulhu => (0x33, 3, 0x01),
            ArithOp::Div => (0x33, 4, 0x01),
            ArithOp::Divu => (0x33, 5, 0x01),
            ArithOp::Rem => (0x33, 6, 0x01),
            ArithOp::Remu => (0x33, 7, 0x01),
            ArithOp::Mulw => (0x3b, 0, 0x01),
            ArithOp::Divw => (0x3b, 4, 0x01),
            ArithOp::Divuw => (0x3b, 5, 0x01),
            ArithOp::Remw => (0x3b, 6, 0x01),
            ArithOp::Remuw => (0x3b, 7, 0x01),
        }
    }
}
