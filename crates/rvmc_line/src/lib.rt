//! The plain types of the command line: what it asks for, and why there is none.
#![tactic(auto)]

mod line;
mod texts;

pub use line::{CommandLine, ImageCommand, ParseFault, RecordCommand, Written};
pub use texts::{SourceSize, SourceSizes};
