//! All of a rank's phases.

ghost use Rattle.std.specs.Prelude.{◌≡◌, ◌≤◌, ◌↔◌, [], length, slice_get, set, get_or, IfOk, IsOk, IsTrue, not};
ghost use Rattle.part_phase.specs.Phases.{IsPhase, begun, changed_at, first_phase, first_phases};
ghost use Rattle.part_phase.specs.Phases.{is_unshaped_receiving, is_unshaped_sending, on_receiving, on_sending};
ghost use Rattle.part_phase.specs.Phases.{receiving_at, sending_at};
ghost use Rattle.part_phase.specs.Receiving.{IsRecvPhase, cut_into, one_taken, shaped_receiving};
ghost use Rattle.part_phase.specs.Sending.{IsSendPhase, all_freed, one_freed, readied, shaped_sending};

use crate::receiving::RecvPhase;
use crate::same::are_same;
use crate::sending::SendPhase;
use rv_image_types::{Link, Links};
use std::alloc::{AllocError, Global};
use std::marker::Model;

/// The side that a rank has of a link.
#[derive(Clone, Copy, Drop)]
pub enum Phase {
    /// None: the link joins two other ranks.
    Apart,
    /// The sender's.
    Sending(SendPhase),
    /// The receiver's.
    Receiving(RecvPhase),
}

/// All of a rank's phases, one a link of the image. Contracts see the list of them.
#[derive(Drop)]
pub struct Phases {
    list: Vec<Phase>,
}

impl Model for Phases {
    ghost use Rattle.std.specs.Prelude.{List, All};
    ghost use Rattle.part_phase.specs.Phases.{IsPhase};
    ghost use Rattle.part_phase.specs.declared.phases.Phase.{Phase};

    ghost Value = { List Phase };

    ghost view = { λ phases. phases.list.items };

    ghost invariant = { λ phases. All IsPhase phases.list.items };
}

impl Phase {
    // The side that a rank has of a link, before any transfer has it.
    fn first(rank: u8, link: Link) -> Phase
        ensures first { result ≡ first_phase rank link }
        ensures kept { IsPhase result }
    {
        if link.from == rank {
            Phase::Sending(SendPhase::unshaped())
        } else if link.to == rank {
            Phase::Receiving(RecvPhase::unshaped())
        } else {
            Phase::Apart
        }
    }

    // A phase begins, unless one is going on.
    fn begun(self) -> Phase
        ensures begun { result ≡ begun self }
        ensures kept { IsPhase self → IsPhase result }
    {
        match self {
            Phase::Apart => Phase::Apart,
            Phase::Sending(phase) => Phase::Sending(phase.begun()),
            Phase::Receiving(phase) => Phase::Receiving(phase.begun()),
        }
    }

    // The sender's side is another, where it is the sender's.
    fn with_sending(self, phase: SendPhase) -> Phase
        ensures changed { result ≡ on_sending (λ _. phase) self }
        ensures kept { IsPhase self → IsSendPhase phase → IsPhase result }
    {
        match self {
            Phase::Sending(_) => Phase::Sending(phase),
            Phase::Apart | Phase::Receiving(_) => self,
        }
    }

    // The receiver's side is another, where it is the receiver's.
    fn with_receiving(self, phase: RecvPhase) -> Phase
        ensures changed { result ≡ on_receiving (λ _. phase) self }
        ensures kept { IsPhase self → IsRecvPhase phase → IsPhase result }
    {
        match self {
            Phase::Receiving(_) => Phase::Receiving(phase),
            Phase::Apart | Phase::Sending(_) => self,
        }
    }
}

impl Phases {
    /// A rank's sides of all links, before any transfer has one.
    pub fn of(alloc: Global, links: &Links, rank: u8) -> Result<Phases, AllocError>
        ensures { IfOk result (λ phases. phases ≡ first_phases links.now rank) }
    {
        let all = links.as_slice();
        let mut list = Vec::with_capacity(alloc, all.len())?;
        for link in all {
            list.push(Phase::first(rank, *link))?;
        }
        Ok(Phases { list })
    }

    /// The same sides in memory of their own. A copy of no sides takes no memory.
    pub fn try_copy(&self, alloc: Global) -> Result<Phases, AllocError>
        ensures copy { IfOk result (λ copy. copy ≡ self.now) }
        ensures free { self.now ≡ [] → IsOk result }
    {
        let mut list = Vec::with_capacity(alloc, self.list.len())?;
        list.extend_from_slice(self.list.as_slice())?;
        Ok(Phases { list })
    }

    /// Whether both have the same side of each link, just as far.
    pub fn is_same(&self, other: &Phases) -> bool
        ensures { IsTrue result ↔ (self.now ≡ other.now) }
    {
        are_same(self.list.as_slice(), other.list.as_slice())
    }

    /// The sender's side of a link. Where the rank hasn't it, one without a shape.
    pub fn sending(&self, link: u8) -> SendPhase
        ensures phase { result ≡ sending_at self.now link }
        ensures limits { IsSendPhase result }
    {
        match self.at(link) {
            Phase::Sending(phase) => phase,
            Phase::Apart | Phase::Receiving(_) => SendPhase::unshaped(),
        }
    }

    /// The receiver's side of a link. Where the rank hasn't it, one without a shape.
    pub fn receiving(&self, link: u8) -> RecvPhase
        ensures phase { result ≡ receiving_at self.now link }
        ensures limits { IsRecvPhase result }
    {
        match self.at(link) {
            Phase::Receiving(phase) => phase,
            Phase::Apart | Phase::Sending(_) => RecvPhase::unshaped(),
        }
    }

    /// Whether the rank has the sender's side of a link, and no transfer has it.
    pub fn has_unshaped_sending(&self, link: u8) -> bool
        ensures { result ≡ is_unshaped_sending (slice_get self.now link) }
    {
        match self.at(link) {
            Phase::Sending(phase) => phase.parts == 0,
            Phase::Apart | Phase::Receiving(_) => false,
        }
    }

    /// Whether the rank has the receiver's side of a link, and no transfer has it.
    pub fn has_unshaped_receiving(&self, link: u8) -> bool
        ensures { result ≡ is_unshaped_receiving (slice_get self.now link) }
    {
        match self.at(link) {
            Phase::Receiving(phase) => phase.parts == 0,
            Phase::Apart | Phase::Sending(_) => false,
        }
    }

    /// Begins a phase of the rank's side of a link: no partition is ready or freed in it, or no box taken. One that is
    /// going on goes on.
    pub fn begin(&mut self, link: u8)
        ensures { self.new ≡ changed_at link begun self.old }
    {
        self.put(link, self.at(link).begun());
    }

    /// Gives the sender's side of a link to a transfer: 1 to 16 partitions of so many bytes.
    pub fn shape_sending(&mut self, link: u8, parts: u8, size: u8)
        requires parts { parts ≤ 16 }
        requires size { size ≤ 128 }
        ensures { self.new ≡ changed_at link (on_sending (shaped_sending parts size)) self.old }
    {
        self.put_sending(link, self.sending(link).shaped(parts, size));
    }

    /// Gives the receiver's side of a link to a transfer: 1 to 16 partitions of so many bytes.
    pub fn shape_receiving(&mut self, link: u8, parts: u8, size: u8)
        requires parts { parts ≤ 16 }
        requires size { size ≤ 128 }
        ensures { self.new ≡ changed_at link (on_receiving (shaped_receiving parts size)) self.old }
    {
        self.put_receiving(link, self.receiving(link).shaped(parts, size));
    }

    /// Tells the receiver's side of a link how the sender cut the transfer: so many boxes of so many bytes.
    pub fn cut(&mut self, link: u8, boxes: u8, bytes: u8)
        requires boxes { boxes ≤ 16 }
        requires bytes { bytes ≤ 128 }
        ensures { self.new ≡ changed_at link (on_receiving (cut_into boxes bytes)) self.old }
    {
        self.put_receiving(link, self.receiving(link).cut_into(boxes, bytes));
    }

    /// Makes a partition of the sender's side of a link ready.
    pub fn ready(&mut self, link: u8, part: u8)
        ensures { self.new ≡ changed_at link (on_sending (readied part)) self.old }
    {
        self.put_sending(link, self.sending(link).readied(part));
    }

    /// Frees the lowest partition of the sender's side of a link that isn't freed. The last one ends the phase.
    pub fn free_one(&mut self, link: u8)
        requires { IsTrue (not (all_freed (sending_at self.old link))) }
        ensures { self.new ≡ changed_at link (on_sending one_freed) self.old }
    {
        self.put_sending(link, self.sending(link).one_freed());
    }

    /// Marks a box as taken by the receiver's side of a link. The last one ends the phase.
    pub fn take_one(&mut self, link: u8, place: u8)
        ensures { self.new ≡ changed_at link (on_receiving (one_taken place)) self.old }
    {
        self.put_receiving(link, self.receiving(link).one_taken(place));
    }

    // The sender's side of a link is another. Where the rank hasn't it, nothing changes.
    fn put_sending(&mut self, link: u8, phase: SendPhase)
        requires { IsSendPhase phase }
        ensures { self.new ≡ changed_at link (on_sending (λ _. phase)) self.old }
    {
        self.put(link, self.at(link).with_sending(phase));
    }

    // The receiver's side of a link is another. Where the rank hasn't it, nothing changes.
    fn put_receiving(&mut self, link: u8, phase: RecvPhase)
        requires { IsRecvPhase phase }
        ensures { self.new ≡ changed_at link (on_receiving (λ _. phase)) self.old }
    {
        self.put(link, self.at(link).with_receiving(phase));
    }

    // The side that the rank has of a link. Of one that isn't there it has none.
    fn at(&self, link: u8) -> Phase
        ensures phase { result ≡ get_or self.now link Phase.Apart }
        ensures kept { IsPhase result }
    {
        match self.list.get(link as usize) {
            Some(phase) => *phase,
            None => Phase::Apart,
        }
    }

    // The side that the rank has of a link is another. Where there is no such link, nothing changes.
    fn put(&mut self, link: u8, phase: Phase)
        requires { IsPhase phase }
        ensures { self.new ≡ set self.old link phase }
    {
        let at = link as usize;
        if at < self.list.len() {
            self.list[at] = phase;
        }
    }
}
