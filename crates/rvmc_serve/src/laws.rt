//! Laws of the definitions, with no code: each function's contract is the law.

ghost use Rattle.rvmc_serve.specs.Laws.{AnswersLaw, LineLaw, LinesLaw, QuietLaw};

/// What stands on the output is what the session of the record's rank answers to the messages behind the record, in their
/// order.
pub fn answers_law()
    ensures { AnswersLaw }
{}

/// A record behind which nothing stands is answered by nothing.
pub fn quiet_law()
    ensures { QuietLaw }
{}

/// What is written behind a record is the answers to the lines behind it, in their order.
pub fn lines_law()
    ensures { LinesLaw }
{}

/// A line's answer is what `debug` prints for its words, from where the line before left off.
pub fn line_law()
    ensures { LineLaw }
{}
