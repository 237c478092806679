//! What holds of the definitions alone.

ghost use Rattle.cl_replay.specs.Laws.{RunLaw};

/// Steps that are a run of the image, up to the first n of them, don't break before: so no replay
/// of them is refused at a step.
pub fn run_law()
    ensures { RunLaw }
{}
