//! The queues and their twin are asked the same.

ghost use Rattle.std.specs.Prelude.{◌≤◌, ◌<◌};

use crate::plain::PlainQueues;
use mp_match::{Queues, Selection, Sent};
use mp_types::{Bytes, Envelope, Message};
use std::alloc::{AllocError, Global};

/// What both are asked.
#[derive(Clone, Copy)]
enum Ask {
    Send(Sent, u8),
    Receive(Selection),
    Claim(Selection),
    Probe(Selection),
    Collect(u64),
    Finished(u64),
}

/// What both tell; Posted whether it is complete.
#[derive(PartialEq, Eq, Drop)]
enum Told {
    Posted(bool),
    Seen(Option<Envelope>),
    Got(Option<Message>),
    Finished(bool),
    Refused,
}

/// The fixed list of numbers, one from the other (Numerical Recipes, chapter 7.1). The high bits are used.
#[derive(Drop)]
struct Numbers {
    last: u32,
}

impl Numbers {
    /// A number below the limit.
    fn below(&mut self, limit: u32) -> u32
        requires { 1 ≤ limit }
        ensures { result < limit }
    {
        self.last = self
            .last
            .wrapping_mul(1_664_525)
            .wrapping_add(1_013_904_223);
        (self.last >> 8) % limit
    }

    fn selection(&mut self) -> Selection {
        Selection {
            rank: self.below(3) as u8,
            comm: self.below(2) as u8,
            source: if self.below(2) == 0 {
                None
            } else {
                Some(self.below(3) as u8)
            },
            tag: if self.below(2) == 0 {
                None
            } else {
                Some(self.below(4) as u16)
            },
        }
    }

    fn sent(&mut self) -> Sent {
        Sent {
            sync: self.below(2) == 0,
            dest: self.below(3) as u8,
            envelope: Envelope {
                comm: self.below(2) as u8,
                source: self.below(3) as u8,
                tag: self.below(4) as u16,
                count: 1,
            },
        }
    }

    /// One of the posts so far, or the number that comes next, which is none's yet.
    fn post(&mut self, posts: u64) -> u64 {
        1 + u64::from(self.below(10_000)) % (posts.min(10_000) + 1)
    }

    fn ask(&mut self, posts: u64) -> Ask {
        match self.below(12) {
            0 | 1 | 2 => Ask::Send(self.sent(), self.below(256) as u8),
            3 | 4 => Ask::Receive(self.selection()),
            5 | 6 => Ask::Claim(self.selection()),
            7 => Ask::Probe(self.selection()),
            8 | 9 | 10 => Ask::Collect(self.post(posts)),
            _ => Ask::Finished(self.post(posts)),
        }
    }
}

fn answered(alloc: Global, queues: &mut Queues, ask: Ask) -> Result<Told, AllocError> {
    if queues.posts() == u64::MAX {
        return Ok(Told::Refused);
    }
    Ok(match ask {
        Ask::Send(sent, byte) => match queues.post_send(sent, Bytes::from_slice(alloc, &[byte])?) {
            Ok(done) => Told::Posted(done),
            Err(_) => Told::Refused,
        },
        Ask::Receive(selection) => {
            queues.post_recv(selection)?;
            Told::Posted(false)
        }
        Ask::Claim(selection) => Told::Seen(queues.claim(selection)?),
        Ask::Probe(selection) => Told::Seen(queues.probe(selection)),
        Ask::Collect(post) => Told::Got(queues.collect(post)),
        Ask::Finished(post) => Told::Finished(queues.finished(post)),
    })
}

fn plainly_answered(alloc: Global, lists: &mut PlainQueues, ask: Ask) -> Result<Told, AllocError> {
    Ok(match ask {
        Ask::Send(sent, byte) => {
            Told::Posted(lists.post_send(sent, Bytes::from_slice(alloc, &[byte])?)?)
        }
        Ask::Receive(selection) => {
            lists.post_recv(selection)?;
            Told::Posted(false)
        }
        Ask::Claim(selection) => Told::Seen(lists.claim(selection)?),
        Ask::Probe(selection) => Told::Seen(lists.probe(selection)),
        Ask::Collect(post) => Told::Got(lists.collect(post)),
        Ask::Finished(post) => Told::Finished(lists.finished(post)),
    })
}

/// Asks both until there are so many posts, or for long enough; the answer is how many there are, and how often the two
/// told different things.
fn compare(alloc: Global, posts: u64) -> Result<(u64, u64), AllocError> {
    let mut queues = Queues::new(alloc);
    let mut lists = PlainQueues::new(alloc);
    let mut numbers = Numbers { last: 1 };
    let mut different = 0u64;
    for _ in 0..100_000 {
        if queues.posts() >= posts {
            break;
        }
        let ask = numbers.ask(queues.posts());
        if answered(alloc, &mut queues, ask)? != plainly_answered(alloc, &mut lists, ask)? {
            different = different.saturating_add(1);
        }
    }
    Ok((queues.posts(), different))
}

/// Both answer 10,000 posts, and what is asked between them, alike.
#[test]
fn ten_thousand_posts_are_answered_alike(rt: HostRuntime) {
    let (posts, different) = compare(rt.alloc(), 10_000).unwrap_or((0, 0));
    assert_eq!(rt; posts, 10_000);
    assert_eq!(rt; different, 0);
}

/// A receive of rank 1 in communicator 0.
fn receive(source: Option<u8>, tag: Option<u16>) -> Selection {
    Selection {
        rank: 1,
        comm: 0,
        source,
        tag,
    }
}

/// How many receives were compared before any send, and then by each of five. Behind 996 receives of other tags one of
/// each of four kinds waits, and each send takes the earliest.
fn compared_of(alloc: Global) -> Result<[u64; 6], AllocError> {
    let mut queues = Queues::new(alloc);
    let mut compared = [queues.compared(), 0, 0, 0, 0, 0];
    for tag in 8..1004 {
        let ask = Ask::Receive(receive(Some(0), Some(tag)));
        let _ = answered(alloc, &mut queues, ask)?;
    }
    for (source, tag) in [
        (None, None),
        (Some(0), None),
        (None, Some(7)),
        (Some(0), Some(7)),
    ] {
        let _ = answered(alloc, &mut queues, Ask::Receive(receive(source, tag)))?;
    }
    let envelope = Envelope {
        comm: 0,
        source: 0,
        tag: 7,
        count: 1,
    };
    for at in 1..6 {
        let sent = Sent {
            sync: false,
            dest: 1,
            envelope,
        };
        let _ = answered(alloc, &mut queues, Ask::Send(sent, 0))?;
        compared[at] = queues.compared();
    }
    Ok(compared)
}

/// A search from the front would compare 997 and more.
#[test]
fn a_send_among_a_thousand_receives_compares_four_at_most(rt: HostRuntime) {
    let compared = compared_of(rt.alloc()).unwrap_or([u64::MAX; 6]);
    assert_eq!(rt; compared, [0, 4, 3, 2, 1, 0]);
}
