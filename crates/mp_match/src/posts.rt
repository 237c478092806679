//! Posts, as plain values.

use mp_types::Envelope;

/// A send. Ranks are ranks of the cluster.
#[derive(Clone, Copy)]
pub struct Sent {
    /// Whether the send is synchronous: complete only once a receive has its message (MPI 4.1, chapter 3.4).
    pub sync: bool,
    /// The rank that is to receive.
    pub dest: u8,
    pub envelope: Envelope,
}

/// What a receive, a probe or a claim selects (MPI 4.1, chapter 3.2.4). A source or tag of None is any. Selections are
/// ordered by their ranks first, then by their communicators.
#[derive(Clone, Copy, PartialEq, Eq, PartialOrd, Ord)]
pub struct Selection {
    /// The rank that asks.
    pub rank: u8,
    pub comm: u8,
    pub source: Option<u8>,
    pub tag: Option<u16>,
}

/// A send, a receive or a successful claim.
#[derive(Clone, Copy)]
pub enum Post {
    Send(Sent),
    Receive(Selection),
    Claim(Selection),
}

/// A post with the place of its partner, which is the partner's number less 1.
#[derive(Clone, Copy)]
pub struct Line {
    pub post: Post,
    pub partner: Option<u64>,
}
