//! What words, memory, steps and images come to where a wrong body would answer otherwise. Each function calls a public
//! one, and its contract is proved from that one's contract alone; a law is about the definitions that the contracts
//! cite. Values from outside stand in `tests/checks/rows.words` and its like.
#![tactic(auto)]

pub mod decode;
pub mod hart;
pub mod image;
pub mod memory;
