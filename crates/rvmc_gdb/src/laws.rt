//! Laws of the definitions, with no code: each function's contract is the law.

ghost use Rattle.rvmc_gdb.specs.Laws.{AgreeLaw, HeardLaw, LeftLaw, OneAnswerLaw, PiecesLaw, RecordStaysLaw};

/// What is written is what is answered to the messages of the stream, in their order: what is no packet gets no answer.
pub fn heard_law()
    ensures { HeardLaw }
{}

/// In which pieces the bytes of the stream come makes no difference.
pub fn pieces_law()
    ensures { PiecesLaw }
{}

/// Once the client has left nothing is written.
pub fn left_law()
    ensures { LeftLaw }
{}

/// A register that is told alone is told so among all registers too.
pub fn agree_law()
    ensures { AgreeLaw }
{}

/// A motion is answered by one text, told at one place: that to which the motion leads.
pub fn one_answer_law()
    ensures { OneAnswerLaw }
{}

/// Whatever is asked, the record stays as it is, and the rank that is shown is there.
pub fn record_stays_law()
    ensures { RecordStaysLaw }
{}
