//! Assembler source to the image that every rank loads.
#![tactic(auto)]

mod assembling;
pub mod laws;
mod symbols;

pub use assembling::assemble;
pub use rv_asm_tokens::{AsmFault, AsmFaultKind};
