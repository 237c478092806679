//! Laws of alike clusters, with no code: each function's contract is the law.

ghost use Rattle.cl_source_laws.specs.Laws.{GoAlikeLaw, LikenessLaw};

/// A cluster with sound boxes is alike itself, and likeness goes both ways and on.
pub fn likeness_law()
    ensures { LikenessLaw }
{}

/// Alike clusters go alike, where only those ask for any source who may.
pub fn go_alike_law()
    ensures { GoAlikeLaw }
{}
