//! Instruction words of RV64I and M: which instruction a word stands for, the word and the text of an instruction.
//! The table is specs/Table.antt (RISC-V Unprivileged ISA 20191213, chapter 24).
#![tactic(auto)]

pub mod decoding;
pub mod encoding;
pub mod instruction;
pub mod printing;
pub mod register;
mod rows;

pub use decoding::decode;
pub use encoding::encode;
pub use instruction::{ArithOp, BranchOp, ImmOp, Instr, LoadOp, ShiftOp, StoreOp, UpperOp};
pub use printing::print_instr;
pub use register::Reg;
