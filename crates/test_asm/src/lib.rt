//! What the crates of the assembler answer in cases that are easily got wrong. Each clause follows from the contracts
//! of the crate that its module speaks of.
#![tactic(auto)]

pub mod asm;
pub mod asm_statements;
pub mod asm_tokens;
