//! What holds of the definitions alone.

ghost use Rattle.cl_replay_laws.specs.Records.{MergedReplaysLaw};

/// The events of a record whose merge is a run, in order of their stamps, replay to the record: a
/// replay of them is refused at no step, and the whole list leads to the record's ranks, to the
/// calls and the clock of its journal, and to its boxes.
pub fn merged_replays_law()
    ensures { MergedReplaysLaw }
{}
