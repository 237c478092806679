//! What stands on standard output.

ghost use Rattle.std.specs.Prelude.{◌≡◌, ◌&&◌};
ghost use Rattle.rvmc_answers.specs.Outputs.{ends_by_budget, hides_a_wait, output_bytes};

use cl_text::RecordText;

/// The bytes for standard output: all of them at hand, or a record that is about to be written, whose text never stands
/// in memory as a whole.
#[derive(Drop)]
pub enum Output {
    Text(Vec<u8>),
    /// A report that says that a hart waits where a budget cut the run short, and not for what.
    Waiting(Vec<u8>),
    /// What else is told of a run that a budget cut short.
    Spent(Vec<u8>),
    Record(RecordText),
    /// The record of such a run.
    SpentRecord(RecordText),
}

/// A report alone, of a run that a budget cut short or of another, at whose end a hart waits or none does.
pub fn reported(text: Vec<u8>, spent: bool, waits: bool) -> Output
    ensures text { output_bytes result ≡ text.items }
    ensures waits { hides_a_wait result ≡ (spent && waits) }
    ensures budget { ends_by_budget result ≡ spent }
{
    match (spent, waits) {
        (true, true) => Output::Waiting(text),
        (true, false) => Output::Spent(text),
        (false, _) => Output::Text(text),
    }
}
