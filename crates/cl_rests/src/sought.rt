//! Messages that are looked for.

ghost use Rattle.std.specs.Prelude.{◌≡◌, Some};
ghost use Rattle.std.specs.List.{list_any};
ghost use Rattle.mp_hub.specs.Claimed.{waits_for_receive as waits_for_receive_of};
ghost use Rattle.mp_match.specs.Board.{claim_at};
ghost use Rattle.mp_probe.specs.Claims.{is_waiting as is_waiting_of};
ghost use Rattle.cl_deadlock_laws.specs.Stuck.{is_among as is_among_of};
ghost use Rattle.cl_rest_laws.specs.Rests.{is_open_post as is_open_post_of, is_sent_with};
ghost use Rattle.cl_rest_laws.specs.Unreceived.{lacks_receive as lacks_receive_of, is_unreceived};
ghost use Rattle.cl_rests.specs.Sought.{is_sought, is_sought_by, is_sought_standard};

use cl_calls::{Sending, Site};
use mp_alike::WholeHub;
use mp_match::{Line, Post, Sent};
use mp_probe::Waiting;

/// What is looked for in a hub: messages from a rank to one of these, or to any if none are given, that nobody received.
#[derive(Clone, Copy, Drop)]
pub(crate) struct Sought<'a> {
    pub hub: &'a WholeHub,
    pub from: u8,
    pub to: Option<&'a [u8]>,
}

/// Whether the rank is one of these.
fn is_among(among: &[u8], rank: u8) -> bool
    ensures { result ≡ is_among_of among.now rank }
{
    among.iter().any(|other| *other == rank)
}

/// Whether a rank sends the message by a SEND with these arguments.
fn is_sent(site: &Site, rank: u8, sending: &Sending, sent: &Sent) -> bool
    ensures { result ≡ is_sent_with site.now rank sending.now sent.now }
{
    let members = site.members(sending.comm);
    if sending.dest >= members.len() as u64 {
        return false;
    }
    !sent.sync
        && sent.envelope.source == rank
        && sent.dest == members[sending.dest as usize]
        && u64::from(sent.envelope.tag) == sending.tag
        && u64::from(sent.envelope.comm) == sending.comm
}

/// Whether the claimed message with this handle waits for its receive.
fn is_waiting(claims: &[Waiting], message: u64) -> bool
    ensures { result ≡ is_waiting_of claims.now message }
{
    claims.iter().any(|waiting| waiting.message == message)
}

/// Whether the post at this place is a matched probe whose message waits for its receive.
fn waits_for_receive(hub: &WholeHub, place: u64) -> bool
    ensures { result ≡ waits_for_receive_of hub.now (claim_at hub.now.board (Some place)) }
{
    let Some(line) = hub.board().lines().get(place as usize) else {
        return false;
    };
    match line.post {
        Post::Claim(_) => is_waiting(hub.claims(), place + 1),
        _ => false,
    }
}

/// Whether nobody received the message of the send on this line.
fn lacks_receive(hub: &WholeHub, line: &Line) -> bool
    ensures { result ≡ lacks_receive_of hub.now line.now }
{
    match line.partner {
        None => true,
        Some(place) => waits_for_receive(hub, place),
    }
}

impl Sought<'_> {
    /// Whether the message is one to these ranks.
    fn is_to(&self, sent: &Sent) -> bool
        ensures { result ≡ is_sought self.now sent.now }
    {
        match self.to {
            None => true,
            Some(ranks) => is_among(ranks, sent.dest),
        }
    }

    /// Whether the line is a message that is looked for, and sent by a SEND with these arguments.
    fn finds_sent(&self, site: &Site, sending: &Sending, line: &Line) -> bool
        ensures { result ≡ is_unreceived (is_sought_by self.now site.now sending.now) self.now.hub.now line.now }
    {
        match line.post {
            Post::Send(sent) => {
                is_sent(site, self.from, sending, &sent)
                    && self.is_to(&sent)
                    && lacks_receive(self.hub, line)
            }
            _ => false,
        }
    }

    /// Whether one of the hub's posts is.
    pub(crate) fn finds_any_sent(&self, site: &Site, sending: &Sending) -> bool
        ensures { result ≡ list_any (is_unreceived (is_sought_by self.now site.now sending.now) self.now.hub.now)
            self.now.hub.now.board.lines }
    {
        self.hub
            .board()
            .lines()
            .iter()
            .any(|line| self.finds_sent(site, sending, line))
    }

    /// Whether the line is a message that is looked for, and sent in standard mode.
    fn finds_standard(&self, line: &Line) -> bool
        ensures { result ≡ is_unreceived (is_sought_standard self.now) self.now.hub.now line.now }
    {
        match line.post {
            Post::Send(sent) => {
                sent.envelope.source == self.from
                    && !sent.sync
                    && self.is_to(&sent)
                    && lacks_receive(self.hub, line)
            }
            _ => false,
        }
    }

    /// Whether the line of this post is, if there is a post.
    pub(crate) fn finds_post(&self, post: Option<u64>) -> bool
        ensures { result ≡ is_open_post_of (is_sought self.now) self.now.hub.now self.now.from post }
    {
        let Some(number) = post else { return false };
        match self.hub.board().line(number) {
            None => false,
            Some(line) => self.finds_standard(&line),
        }
    }
}
