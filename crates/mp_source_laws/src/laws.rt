//! Laws of the hub's meaning, with no code: each function's contract is the law.

ghost use Rattle.mp_source_laws.specs.Laws.{AnswersLaw, LikenessLaw};

/// A hub is alike itself, and likeness goes both ways and on.
pub fn likeness_law()
    ensures { LikenessLaw }
{}

/// Alike hubs give the same replies, and stay alike by the same names, where only those ask for any source who may.
pub fn answers_law()
    ensures { AnswersLaw }
{}
