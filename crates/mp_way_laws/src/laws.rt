//! Laws of messages on their way, with no code: each function's contract is the law.

ghost use Rattle.mp_way_laws.specs.Laws.{WayLaw};
ghost use Rattle.mp_way_laws.specs.Answers.{AnswerLaw};

/// Where calls name their sources, it doesn't matter how long messages take: what has a partner has the same one that
/// it would have if each message arrived as soon as it is sent.
pub fn way_law()
    ensures { WayLaw }
{}

/// Where calls name their sources, a call gets the reply that it would get if each message arrived as soon as it is
/// sent, or it finds nothing yet and changes nothing. Only two are posted first and complete later: a receive whose
/// message is on its way, and a synchronous send whose receive was posted.
pub fn answer_law()
    ensures { AnswerLaw }
{}
