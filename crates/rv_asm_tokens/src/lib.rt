//! The tokens of a line of assembler source, and the faults of a source.
#![tactic(auto)]

mod digits;
mod escapes;
mod fault;
pub mod laws;
mod number;
mod scanning;
mod token;
mod tokens;

pub use escapes::text_bytes;
pub use fault::{AsmFault, AsmFaultKind};
pub use number::{Number, ZERO, value_of};
pub use token::Token;
pub use tokens::Tokens;
