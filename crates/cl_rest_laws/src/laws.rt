//! Laws of ranks that rest, over the definitions alone: functions with empty bodies, whose contracts are the laws.

ghost use Rattle.cl_rest_laws.specs.Laws.{BufferingLaw, EndLaw, RestLaw};
ghost use Rattle.cl_rest_laws.specs.UnpairedLaw.{UnpairedLaw};

/// Alike hubs have equally many sends of each kind that nobody received.
pub fn unpaired_law()
    ensures { UnpairedLaw }
{}

/// A rank rests for its standard send until it goes on or the other rank receives, and comes to rest by no other rank's
/// turn.
pub fn rest_law()
    ensures { RestLaw }
{}

/// Ranks that need buffers are stuck for good if each standard send waits for its receive.
pub fn buffering_law()
    ensures { BufferingLaw }
{}

/// Where each standard send waits or goes on, in any choice, an end is one at which nobody goes on anyway, or all ranks together
/// need buffers.
pub fn end_law()
    ensures { EndLaw }
{}
