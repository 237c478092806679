//! What the image fixes of a rank.

ghost use Rattle.std.specs.Prelude.{◌≡◌, ◌<◌, [], length, get_or, vec_len, IsTrue, is_some, Some};
ghost use Rattle.cl_calls.specs.Site.{members as members_of, member as member_of, position_of};
ghost use Rattle.cl_calls.specs.Checks.{is_comm as is_comm_of, is_peer as is_peer_of};

mod copies;

use crate::calls::{ANY, NO_RANK};
use crate::needs::Peer;
use rv_image_types::{ImageVersion, Links, Members};
use std::marker::Model;

/// All communicators of a rank's image, at most 8 of them; number 0 is all ranks in order.
/// Contracts see a list of lists of ranks.
#[derive(Drop)]
pub struct Communicators {
    lists: Vec<Members>,
}

impl Model for Communicators {
    ghost use Rattle.std.specs.Prelude.{List, ℕ, ◌≤◌, vec_len};
    ghost use Rattle.rv_image_types.specs.Limits.{comm_numbers};

    ghost Value = { List (List ℕ) };

    ghost view = { λ comms. comms.lists.items };

    ghost invariant = { λ comms. vec_len comms.lists ≤ comm_numbers };
}

/// What the image fixes of a rank. No event changes it.
#[derive(Drop)]
pub struct Site {
    /// The rank's number.
    pub number: u8,
    /// How many ranks the cluster has.
    pub ranks: u8,
    /// The members of each communicator, as ranks of the cluster.
    pub comms: Communicators,
    pub links: Links,
    /// The image's version, which decides the width of boxes.
    pub version: ImageVersion,
}

impl Communicators {
    ghost use Rattle.std.specs.Prelude.{◌≤◌};
    ghost use Rattle.rv_image_types.specs.Limits.{comm_numbers};

    /// The vector's communicators, from number 0 on. Takes no memory.
    pub fn from_vec(lists: Vec<Members>) -> Communicators
        requires { vec_len lists ≤ comm_numbers }
        ensures { result ≡ lists.items }
    {
        Communicators { lists }
    }

    /// The members of a communicator; one that isn't there has none.
    pub fn members(&self, comm: u64) -> &[u8]
        ensures { result.now ≡ get_or self.now comm [] }
    {
        if comm < self.lists.len() as u64 {
            self.lists[comm as usize].as_slice()
        } else {
            &[]
        }
    }

    /// A communicator's number, of one that has members.
    fn number(&self, comm: u64) -> u8
        requires { 0 < length (get_or self.now comm []) }
        ensures { result ≡ comm }
    {
        // ghost: brings into scope that there are at most 8 lists; no effect at run time
        let _ = &self.lists;
        comm as u8
    }
}

/// The position of a rank among members, if it is one.
pub fn position(rank: u8, ranks: &[u8]) -> Option<u64>
    ensures { result ≡ position_of rank ranks.now }
{
    for i in 0..ranks.len() {
        if ranks[i] == rank {
            return Some(i as u64);
        }
    }
    None
}

impl Site {
    /// The members of a communicator; one that isn't there has none.
    pub fn members(&self, comm: u64) -> &[u8]
        ensures { result.now ≡ members_of self.now comm }
    {
        self.comms.members(comm)
    }

    /// Whether the rank is a member of the communicator, where one is asked for.
    pub fn is_comm(&self, comm: Option<u64>) -> bool
        ensures { result ≡ is_comm_of self.now comm }
    {
        match comm {
            None => true,
            Some(comm) => match position(self.number, self.members(comm)) {
                Some(_) => true,
                None => false,
            },
        }
    }

    /// The number of a communicator of which the rank is a member.
    #[tactic(auto, using(crate::proofs::Members::has_members))]
    pub fn comm_number(&self, comm: u64) -> u8
        requires { IsTrue (is_comm_of self.now (Some comm)) }
        ensures { result ≡ comm }
    {
        self.comms.number(comm)
    }

    /// Whether a rank argument is a position of the communicator, or what may stand for one.
    pub fn is_peer(&self, comm: Option<u64>, peer: Option<Peer>) -> bool
        ensures { result ≡ is_peer_of self.now comm peer }
    {
        let (Some(comm), Some(peer)) = (comm, peer) else {
            return true;
        };
        peer.rank < self.members(comm).len() as u64
            || (peer.any && peer.rank == ANY)
            || (peer.null && peer.rank == NO_RANK)
    }

    /// The rank at a position of the communicator.
    pub fn member(&self, comm: u64, position: u64) -> u8
        requires { position < length (members_of self.now comm) }
        ensures { result ≡ member_of self.now comm position }
    {
        self.members(comm)[position as usize]
    }
}
