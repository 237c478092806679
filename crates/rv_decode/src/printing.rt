//! The text of an instruction.
ghost use Rattle.std.specs.Prelude.{◌≡◌, IfOk, Some, drop, string_bytes};
ghost use Rattle.rv_decode.specs.Written.{operand_texts, written};
ghost use Rattle.rv_decode.specs.Text.{instr_text, operands_text, register_text, upper_name, branch_name, load_name};
ghost use Rattle.rv_decode.specs.Text.{store_name, imm_name, shift_name, arith_name};

use crate::instruction::{ArithOp, BranchOp, ImmOp, Instr, LoadOp, ShiftOp, StoreOp, UpperOp};
use crate::register::Reg;
use std::alloc::{AllocError, Global};
use std::fmt;

impl UpperOp {
    fn mnemonic(self) -> &'static str
        ensures { result.now ≡ upper_name self }
    {
        match self {
            UpperOp::Lui => "lui",
            UpperOp::Auipc => "auipc",
        }
    }
}

impl BranchOp {
    fn mnemonic(self) -> &'static str
        ensures { result.now ≡ branch_name self }
    {
        match self {
            BranchOp::Beq => "beq",
            BranchOp::Bne => "bne",
            BranchOp::Blt => "blt",
            BranchOp::Bge => "bge",
            BranchOp::Bltu => "bltu",
            BranchOp::Bgeu => "bgeu",
        }
    }
}

impl LoadOp {
    fn mnemonic(self) -> &'static str
        ensures { result.now ≡ load_name self }
    {
        match self {
            LoadOp::Lb => "lb",
            LoadOp::Lh => "lh",
            LoadOp::Lw => "lw",
            LoadOp::Ld => "ld",
            LoadOp::Lbu => "lbu",
            LoadOp::Lhu => "lhu",
            LoadOp::Lwu => "lwu",
        }
    }
}

impl StoreOp {
    fn mnemonic(self) -> &'static str
        ensures { result.now ≡ store_name self }
    {
        match self {
            StoreOp::Sb => "sb",
            StoreOp::Sh => "sh",
            StoreOp::Sw => "sw",
            StoreOp::Sd => "sd",
        }
    }
}

impl ImmOp {
    fn mnemonic(self) -> &'static str
        ensures { result.now ≡ imm_name self }
    {
        match self {
            ImmOp::Addi => "addi",
            ImmOp::Slti => "slti",
            ImmOp::Sltiu => "sltiu",
            ImmOp::Xori => "xori",
            ImmOp::Ori => "ori",
            ImmOp::Andi => "andi",
            ImmOp::Addiw => "addiw",
        }
    }
}

impl ShiftOp {
    fn mnemonic(self) -> &'static str
        ensures { result.now ≡ shift_name self }
    {
        match self {
            ShiftOp::Slli => "slli",
            ShiftOp::Srli => "srli",
            ShiftOp::Srai => "srai",
            ShiftOp::Slliw => "slliw",
            ShiftOp::Srliw => "srliw",
            ShiftOp::Sraiw => "sraiw",
        }
    }
}

impl ArithOp {
    fn mnemonic(self) -> &'static str
        ensures { result.now ≡ arith_name self }
    {
        match self {
            ArithOp::Add => "add",
            ArithOp::Sub => "sub",
            ArithOp::Sll => "sll",
            ArithOp::Slt => "slt",
            ArithOp::Sltu => "sltu",
            ArithOp::Xor => "xor",
            ArithOp::Srl => "srl",
            ArithOp::Sra => "sra",
            ArithOp::Or => "or",
            ArithOp::And => "and",
            ArithOp::Addw => "addw",
            ArithOp::Subw => "subw",
            ArithOp::Sllw => "sllw",
            ArithOp::Srlw => "srlw",
            ArithOp::Sraw => "sraw",
            ArithOp::Mul => "mul",
            ArithOp::Mulh => "mulh",
            ArithOp::Mulhsu => "mulhsu",
            ArithOp::Mulhu => "mulhu",
            ArithOp::Div => "div",
            ArithOp::Divu => "divu",
            ArithOp::Rem => "rem",
            ArithOp::Remu => "remu",
            ArithOp::Mulw => "mulw",
            ArithOp::Divw => "divw",
            ArithOp::Divuw => "divuw",
            ArithOp::Remw => "remw",
            ArithOp::Remuw => "remuw",
        }
    }
}

impl fmt::Display for Reg {
    ghost output = { λ r. Some (register_text r) };

    fn fmt<W: fmt::Write>(&self, f: &mut fmt::Formatter<W>) -> fmt::Result {
        let number = self.number();
        write!(f, "x{number}")
    }
}

/// What stands behind a mnemonic.
#[derive(Clone, Copy)]
enum Operands {
    Nothing,
    /// `x5, 0xa7`
    Upper(Reg, u32),
    /// `x1, -4`
    Target(Reg, i32),
    /// `x5, -8(x2)`
    Address(Reg, i32, Reg),
    /// `x5, x0, -1`
    Number(Reg, Reg, i32),
    /// `x5, x6, x7`
    Registers(Reg, Reg, Reg),
}

impl fmt::Display for Operands {
    ghost output = { λ operands. Some (operands_text (operand_texts operands)) };

    fn fmt<W: fmt::Write>(&self, f: &mut fmt::Formatter<W>) -> fmt::Result {
        let rest = Rest(*self);
        match *self {
            Operands::Nothing => Ok(()),
            Operands::Upper(first, _)
            | Operands::Target(first, _)
            | Operands::Address(first, _, _)
            | Operands::Number(first, _, _)
            | Operands::Registers(first, _, _) => write!(f, "{first}, {rest}"),
        }
    }
}

/// What stands behind the first operand and its comma.
#[derive(Clone, Copy)]
struct Rest(Operands);

impl fmt::Display for Rest {
    ghost output = { λ rest. Some (operands_text (drop 1 (operand_texts rest.0))) };

    fn fmt<W: fmt::Write>(&self, f: &mut fmt::Formatter<W>) -> fmt::Result {
        match self.0 {
            Operands::Nothing => Ok(()),
            Operands::Upper(_, field) => write!(f, "0x{field:x}"),
            Operands::Target(_, off) => write!(f, "{off}"),
            Operands::Address(_, off, rs1) => write!(f, "{off}({rs1})"),
            Operands::Number(_, rs1, number) => write!(f, "{rs1}, {number}"),
            Operands::Registers(_, rs1, rs2) => write!(f, "{rs1}, {rs2}"),
        }
    }
}

/// A mnemonic and its operands.
#[derive(Clone, Copy)]
struct Statement(&'static str, Operands);

impl Instr {
    /// The mnemonic and the operands that an instruction is written with.
    fn statement(&self) -> Statement
        ensures { written result ≡ instr_text self.now }
    {
        match *self {
            Instr::Upper { op, rd, imm } => {
                let field = imm.cast_unsigned() / 0x1000;
                Statement(op.mnemonic(), Operands::Upper(rd, field))
            }
            Instr::Jal { rd, off } => Statement("jal", Operands::Target(rd, off)),
            Instr::Jalr { rd, rs1, off } => Statement("jalr", Operands::Address(rd, off, rs1)),
            Instr::Branch { op, rs1, rs2, off } => {
                Statement(op.mnemonic(), Operands::Number(rs1, rs2, off))
            }
            Instr::Load { op, rd, rs1, off } => {
                Statement(op.mnemonic(), Operands::Address(rd, off, rs1))
            }
            Instr::Store { op, rs1, rs2, off } => {
                Statement(op.mnemonic(), Operands::Address(rs2, off, rs1))
            }
            Instr::Imm { op, rd, rs1, imm } => {
                Statement(op.mnemonic(), Operands::Number(rd, rs1, imm))
            }
            Instr::Shift {
                op,
                rd,
                rs1,
                amount,
            } => Statement(op.mnemonic(), Operands::Number(rd, rs1, i32::from(amount))),
            Instr::Arith { op, rd, rs1, rs2 } => {
                Statement(op.mnemonic(), Operands::Registers(rd, rs1, rs2))
            }
            Instr::Fence => Statement("fence", Operands::Nothing),
            Instr::Ecall => Statement("ecall", Operands::Nothing),
            Instr::Ebreak => Statement("ebreak", Operands::Nothing),
        }
    }
}

impl fmt::Display for Instr {
    ghost output = { λ i. Some (instr_text i) };

    fn fmt<W: fmt::Write>(&self, f: &mut fmt::Formatter<W>) -> fmt::Result {
        let Statement(name, operands) = self.statement();
        match operands {
            Operands::Nothing => write!(f, "{name}"),
            _ => write!(f, "{name} {operands}"),
        }
    }
}

/// The instruction's text in a new string, as the assembler reads it: `addi x5, x0, -1`, `lui x5, 0xa7`,
/// `sd x5, -8(x2)`, `beq x5, x6, 8` (targets are offsets in bytes). The only error is want of memory.
pub fn print_instr(alloc: Global, instr: &Instr) -> Result<String, AllocError>
    ensures text { IfOk result (λ text. string_bytes text ≡ instr_text instr.now) }
{
    instr.to_string(alloc)
}
