//! How an answer ends, and what stands on standard output.

ghost use Rattle.std.specs.Prelude.{◌≡◌};
ghost use Rattle.rvmc_answers.specs.Ends.{end_status};
ghost use Rattle.rvmc_answers.specs.Outputs.{output_bytes};
ghost use Rattle.rvmc_answers.specs.declared.answers.End.TheVariants.{Status};

use crate::outputs::Output;
use rvmc_inspect::faults::Fault;

/// How an answer ends: with a status, or cut short by a fault, whose line then stands on standard error and whose
/// status is the answer's.
#[derive(Clone, Copy, Drop)]
pub enum End {
    Status(u8),
    Cut(Fault),
}

impl End {
    /// The status that the program ends with.
    pub fn status(self) -> u8
        ensures { result ≡ end_status self }
    {
        match self {
            End::Status(status) => status,
            End::Cut(fault) => fault.status(),
        }
    }
}

/// What stands on standard output, and how it ends. What is told of a record may be cut short.
#[derive(Drop)]
pub struct Answer {
    pub output: Output,
    pub end: End,
}

impl Answer {
    /// All is done, and this is the text.
    pub fn done(text: Vec<u8>) -> Answer
        ensures text { output_bytes result.output ≡ text.items }
        ensures end { result.end ≡ Status 0 }
    {
        let output = Output::Text(text);
        let end = End::Status(0);
        Answer { output, end }
    }
}
