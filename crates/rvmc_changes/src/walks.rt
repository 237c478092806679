//! A walk through a record.

use crate::starts::RankStart;
use cl_replay::ClusterState;

/// A walk that has begun.
#[derive(Drop)]
pub struct Walk {
    /// What is seen of each rank where it starts.
    pub start: Vec<RankStart>,
    /// The cluster where it has come to.
    pub state: ClusterState,
}
