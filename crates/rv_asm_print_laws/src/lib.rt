//! Printed instructions, assembled again: the laws by which `rv_decode::print_instr` and the assembler meet.
#![tactic(auto)]

pub mod laws;
mod range;
