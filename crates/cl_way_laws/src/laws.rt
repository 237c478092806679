//! Laws of programs that only wait for named ranks, with no code: each function's contract is the law.

ghost use Rattle.cl_way_laws.specs.Laws.{WayClusterLaw};

/// Of every run with messages on their way: it is a run of the machine on which they arrive as soon as they are sent,
/// but for unsuccessful polls, and for polls of what has come that are still to be made. So what a search says of ends,
/// of stuck ranks and of ranks that need buffers is so on the way, too.
pub fn way_cluster_law()
    ensures { WayClusterLaw }
{}
