//! The statements of assembler source: registers, operands, mnemonics and directives.
#![tactic(auto)]

mod data_lists;
mod directive_forms;
mod directive_rows;
mod directives;
mod few;
mod filled;
pub mod laws;
mod limited;
mod mnemonics;
mod names;
mod operand_list;
mod registers;
mod rows;
mod shapes;
mod statements;
mod values;

pub use data_lists::{Bytes, Integers, Items};
pub use directive_forms::directive;
pub use directive_rows::{DirectiveRow, Form};
pub use directives::{Alignment, Directive, HartCount, MemorySize, RankCount, Width, ZeroCount};
pub use filled::{Filled, Target};
pub use limited::Limited;
pub use mnemonics::{Use, instruction};
pub use operand_list::{Operand, Operands, OperandsLeft};
pub use registers::register;
pub use rows::{Amount, Row, Shape, Slot, Template};
pub use statements::{Statement, long_data, parse_statement};
pub use values::{Integer, Label};
