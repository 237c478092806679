//! The twin of the queues: all posts in one list, searched from the front.

use mp_match::{Line, Post, Selection, Sent};
use mp_types::{Bytes, Envelope, Message};
use std::alloc::{AllocError, Global};

fn does_accept(selection: Selection, sent: Sent) -> bool {
    let source = match selection.source {
        None => true,
        Some(source) => sent.envelope.source == source,
    };
    let tag = match selection.tag {
        None => true,
        Some(tag) => sent.envelope.tag == tag,
    };
    sent.dest == selection.rank && sent.envelope.comm == selection.comm && source && tag
}

fn does_fit(new: Post, line: Line) -> bool {
    match line.partner {
        Some(_) => false,
        None => match (new, line.post) {
            (Post::Send(sent), Post::Receive(selection)) => does_accept(selection, sent),
            (Post::Receive(selection), Post::Send(sent)) => does_accept(selection, sent),
            (Post::Claim(selection), Post::Send(sent)) => does_accept(selection, sent),
            _ => false,
        },
    }
}

/// All posts and the bytes that are held, a place each.
#[derive(Drop)]
pub struct PlainQueues {
    lines: Vec<Line>,
    bodies: Vec<Option<Bytes>>,
}

impl PlainQueues {
    pub fn new(alloc: Global) -> PlainQueues {
        PlainQueues {
            lines: Vec::new(alloc),
            bodies: Vec::new(alloc),
        }
    }

    // The place of the first post that the new one may have.
    fn partner_for(&self, new: Post) -> Option<usize> {
        self.lines.iter().position(|line| does_fit(new, *line))
    }

    fn add(&mut self, new: Post, body: Option<Bytes>) -> Result<Option<usize>, AllocError> {
        let partner = self.partner_for(new);
        if let Some(at) = partner {
            let place = self.lines.len() as u64;
            if let Some(line) = self.lines.get_mut(at) {
                line.partner = Some(place);
            }
        }
        let line = Line {
            post: new,
            partner: partner.map(|at| at as u64),
        };
        self.lines.push(line)?;
        self.bodies.push(body)?;
        Ok(partner)
    }

    fn line(&self, post: u64) -> Option<Line> {
        self.lines.get(post.checked_sub(1)? as usize).copied()
    }

    fn envelope_at(&self, place: usize) -> Option<Envelope> {
        match self.lines.get(place)?.post {
            Post::Send(sent) => Some(sent.envelope),
            _ => None,
        }
    }

    /// Whether the send is complete.
    pub fn post_send(&mut self, sent: Sent, bytes: Bytes) -> Result<bool, AllocError> {
        let partner = self.add(Post::Send(sent), Some(bytes))?;
        Ok(!sent.sync || partner.is_some())
    }

    pub fn post_recv(&mut self, selection: Selection) -> Result<(), AllocError> {
        self.add(Post::Receive(selection), None)?;
        Ok(())
    }

    pub fn probe(&self, selection: Selection) -> Option<Envelope> {
        self.envelope_at(self.partner_for(Post::Receive(selection))?)
    }

    pub fn claim(&mut self, selection: Selection) -> Result<Option<Envelope>, AllocError> {
        if self.probe(selection).is_none() {
            return Ok(None);
        }
        match self.add(Post::Claim(selection), None)? {
            None => Ok(None),
            Some(at) => Ok(self.envelope_at(at)),
        }
    }

    pub fn collect(&mut self, post: u64) -> Option<Message> {
        let place = self.line(post)?.partner? as usize;
        let envelope = self.envelope_at(place)?;
        let bytes = self.bodies.get_mut(place)?.take()?;
        Some(Message { envelope, bytes })
    }

    // Whether the message of the send of this number is held.
    fn holds(&self, post: u64) -> bool {
        match post.checked_sub(1) {
            None => false,
            Some(place) => matches!(self.bodies.get(place as usize), Some(Some(_))),
        }
    }

    pub fn finished(&self, post: u64) -> bool {
        let Some(line) = self.line(post) else {
            return false;
        };
        let standard = matches!(line.post, Post::Send(sent) if !sent.sync);
        let received = match line.partner {
            None => false,
            Some(place) => match self.lines.get(place as usize) {
                None => false,
                Some(other) => match other.post {
                    Post::Send(_) => false,
                    Post::Receive(_) => true,
                    Post::Claim(_) => !self.holds(post),
                },
            },
        };
        standard || received
    }
}
