//! Where a search comes to an end.

ghost use Rattle.std.specs.Prelude.{◌≡◌, ◌⊎◌, ◌<◌, ◌≤◌, ◌-◌, None, IsFalse, IsTrue};
ghost use Rattle.cl_explore.specs.Ends.{AreEnough, HasLonger, IsLonger};

use crate::kept::KeptNode;

/// Of how many nodes the moves are made at most of which one led to a new node by more turns of a rank's own than it was let
/// take at once: a rank that counts would lead to new nodes without end.
const DEEP_NODES: usize = 16;

/// Where a search comes to an end: once it has made the moves of so many nodes, or, where `enough` says so, so many are left;
/// and which pass this is, from 1, since a search may begin again in another way.
#[derive(Clone, Copy, Drop)]
pub(crate) struct Bounds {
    pub states: usize,
    pub enough: Option<usize>,
    pub pass: u64,
}

impl Bounds {
    /// The same in the next pass.
    pub(crate) fn next(self) -> Bounds
        ensures states { result.states ≡ self.states }
        ensures enough { result.enough ≡ self.enough }
    {
        Bounds {
            states: self.states,
            enough: self.enough,
            pass: self.pass.saturating_add(1),
        }
    }
}

/// Whether a search goes on that made the moves of so many of these nodes.
pub(crate) fn goes_on(enough: Option<usize>, done: usize, nodes: usize) -> bool
    ensures more { IsTrue result → done < nodes }
    ensures end { IsFalse result → (nodes ≤ done) ⊎ AreEnough enough (nodes - done) }
{
    if done >= nodes {
        return false;
    }
    match enough {
        None => true,
        Some(least) => nodes - done < least,
    }
}

/// Whether a node was reached by more turns than so many.
fn is_longer(kept: &KeptNode, most: u64) -> bool
    ensures { IsTrue result → IsLonger most kept.now }
{
    kept.turns.are_more_than(most)
}

/// Whether one of the nodes was.
fn has_longer(nodes: &[KeptNode], most: u64) -> bool
    ensures { IsTrue result → HasLonger most nodes.now }
{
    for place in 0..nodes.len() {
        if is_longer(&nodes[place], most) {
            return true;
        }
    }
    false
}

/// Whether the moves of as many deep nodes were made as are allowed.
pub(crate) fn is_deep(deep: usize, nodes: &[KeptNode], most: u64) -> bool
    ensures { IsTrue result → HasLonger most nodes.now }
{
    deep >= DEEP_NODES && has_longer(nodes, most)
}
