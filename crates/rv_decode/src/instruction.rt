//! The instructions of RV64I and M (RISC-V Unprivileged ISA 20191213, chapters 2, 5 and 7).
use crate::register::Reg;

/// Instructions with an upper immediate (2.4).
#[derive(Clone, Copy, Drop)]
pub enum UpperOp {
    Lui,
    Auipc,
}

/// Conditional branches (2.5).
#[derive(Clone, Copy, Drop)]
pub enum BranchOp {
    Beq,
    Bne,
    Blt,
    Bge,
    Bltu,
    Bgeu,
}

/// Loads (2.6 and 5.3).
#[derive(Clone, Copy, Drop)]
pub enum LoadOp {
    Lb,
    Lh,
    Lw,
    Ld,
    Lbu,
    Lhu,
    Lwu,
}

/// Stores (2.6 and 5.3).
#[derive(Clone, Copy, Drop)]
pub enum StoreOp {
    Sb,
    Sh,
    Sw,
    Sd,
}

/// Operations on a register and an immediate (2.4 and 5.2).
#[derive(Clone, Copy, Drop)]
pub enum ImmOp {
    Addi,
    Slti,
    Sltiu,
    Xori,
    Ori,
    Andi,
    Addiw,
}

/// Shifts of a register by an amount in the word (5.2). Those that end in w shift 32 bits.
#[derive(Clone, Copy, Drop)]
pub enum ShiftOp {
    Slli,
    Srli,
    Srai,
    Slliw,
    Srliw,
    Sraiw,
}

/// Operations on two registers (2.4, 5.2 and chapter 7). Those that end in w take 32 bits of each.
#[derive(Clone, Copy, Drop)]
pub enum ArithOp {
    Add,
    Sub,
    Sll,
    Slt,
    Sltu,
    Xor,
    Srl,
    Sra,
    Or,
    And,
    Addw,
    Subw,
    Sllw,
    Srlw,
    Sraw,
    Mul,
    Mulh,
    Mulhsu,
    Mulhu,
    Div,
    Divu,
    Rem,
    Remu,
    Mulw,
    Divw,
    Divuw,
    Remw,
    Remuw,
}

/// One instruction. Immediates and offsets are the signed numbers that the instruction adds or compares, in bytes where
/// they are offsets; the one of `Upper` is a multiple of 4096 (`lui x5, 0xa7` has 0xa7000). An instruction need not fit
/// its word: see `Instr::fits`.
#[derive(Clone, Copy, Drop)]
pub enum Instr {
    /// `op rd, imm / 4096`
    Upper {
        op: UpperOp,
        rd: Reg,
        imm: i32,
    },
    /// `jal rd, off`
    Jal {
        rd: Reg,
        off: i32,
    },
    /// `jalr rd, off(rs1)`
    Jalr {
        rd: Reg,
        rs1: Reg,
        off: i32,
    },
    /// `op rs1, rs2, off`
    Branch {
        op: BranchOp,
        rs1: Reg,
        rs2: Reg,
        off: i32,
    },
    /// `op rd, off(rs1)`
    Load {
        op: LoadOp,
        rd: Reg,
        rs1: Reg,
        off: i32,
    },
    /// `op rs2, off(rs1)`
    Store {
        op: StoreOp,
        rs1: Reg,
        rs2: Reg,
        off: i32,
    },
    /// `op rd, rs1, imm`
    Imm {
        op: ImmOp,
        rd: Reg,
        rs1: Reg,
        imm: i32,
    },
    /// `op rd, rs1, amount`
    Shift {
        op: ShiftOp,
        rd: Reg,
        rs1: Reg,
        amount: u8,
    },
    /// `op rd, rs1, rs2`
    Arith {
        op: ArithOp,
        rd: Reg,
        rs1: Reg,
        rs2: Reg,
    },
    /// `fence`: orders memory accesses; all its words are one instruction here.
    Fence,
    /// `ecall`
    Ecall,
    /// `ebreak`
    Ebreak,
}
