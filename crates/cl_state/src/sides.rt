//! What answers do to partitioned transfers and their phases.

ghost use Rattle.std.specs.Prelude.{◌≡◌, ◌∷◌, List, [], IsTrue, not};
ghost use Rattle.mp_request.specs.Handles.{IsInactive};
ghost use Rattle.part_phase.specs.Phases.{sending_at};
ghost use Rattle.part_phase.specs.Sending.{all_freed};
ghost use Rattle.cl_calls.specs.Needs.{needs_of};
ghost use Rattle.cl_calls.specs.declared.calls.Call.TheVariants as call;
ghost use Rattle.cl_state.specs.Right.{IsRight};
ghost use Rattle.cl_state.specs.Told.{arrived, cut_known, freed_one, made_receiving, made_sending, part_readied};
ghost use Rattle.cl_state.specs.Told.{phase_begun, seen_one, taken_one, with_taken_box};
ghost use Rattle.cl_state.specs.Turn.{Becomes, HasPages, part_in};
ghost use Rattle.cl_state.specs.declared.writes.Range.{Range};
ghost use Rattle.cl_state.specs.Writes.{box_into, message_into, statuses_from};

use crate::partitions::{place_at, side_on};
use crate::pending::{Manner, Target};
use crate::turn::{Turn, write_where_right};
use cl_calls::{ANY, Partitioning, position};
use mp_request::{OpenRequest, Partitions, Progress, State, Transfer};
use mp_types::Code;
use part_phase::Contents;

/// How a sender cut its transfer: so many boxes of so many bytes each.
#[derive(Clone, Copy, Drop)]
pub(crate) struct Cut {
    pub(crate) boxes: u8,
    pub(crate) bytes: u8,
}

/// A box that a receiver's side took, and its bytes.
#[derive(Drop)]
pub(crate) struct Taken<'a> {
    pub(crate) side: Partitions,
    pub(crate) part: u8,
    pub(crate) bytes: &'a Contents,
}

impl<'a> Turn<'a> {
    /// Starts an inactive partitioned request, and with it a phase.
    #[tactic(auto, unfolding(crate::specs::Told::phase_begun))]
    pub(crate) fn begin_phase(&mut self, handle: u64, link: u8)
        requires { IsInactive self.old.requests.now handle }
        ensures { Becomes self.old self.new (phase_begun handle link (part_in self.old)) }
    {
        let Ok(()) = self.requests.start(handle, Progress::InPhase) else {
            unreachable!()
        };
        self.phases.begin(link);
        self.end(Code::Ok, 0)
    }

    /// Makes the sender's side of a transfer on this link.
    pub(crate) fn make_sending(&mut self, t: &Partitioning, link: u8)
        requires { IsRight self.old.site.now (needs_of (call.PsendInit t.now)) }
        ensures { Becomes self.old self.new (made_sending self.old.site.now t.now link (part_in self.old)) }
    {
        if !self.phases.has_unshaped_sending(link) {
            return self.end(Code::BadRequest, 0);
        }
        let request = OpenRequest {
            transfer: Transfer::SendPartitions(side_on(self.site, t, link)),
            state: State::Inactive,
        };
        match self.requests.open(request) {
            Ok(handle) => {
                self.phases.shape_sending(link, t.parts as u8, t.size as u8);
                self.end(Code::Ok, u64::from(handle))
            }
            Err(_) => self.end(Code::Full, 0),
        }
    }

    /// Makes the receiver's side of a transfer on this link.
    pub(crate) fn make_receiving(&mut self, t: &Partitioning, link: u8)
        requires { IsRight self.old.site.now (needs_of (call.PrecvInit t.now)) }
        ensures { Becomes self.old self.new (made_receiving self.old.site.now t.now link (part_in self.old)) }
    {
        if !self.phases.has_unshaped_receiving(link) {
            return self.end(Code::BadRequest, 0);
        }
        let request = OpenRequest {
            transfer: Transfer::ReceivePartitions(side_on(self.site, t, link)),
            state: State::Inactive,
        };
        match self.requests.open(request) {
            Ok(handle) => {
                self.phases
                    .shape_receiving(link, t.parts as u8, t.size as u8);
                self.end(Code::Ok, u64::from(handle))
            }
            Err(_) => self.end(Code::Full, 0),
        }
    }

    /// A receiver's side learns its sender's cut, if it fits; nothing has come yet.
    pub(crate) fn know_cut(&mut self, manner: Manner, link: u8, cut: Cut)
        ensures { Becomes self.old self.new
            (cut_known self.old.site.now manner link cut.boxes cut.bytes (part_in self.old)) }
    {
        let phase = self.phases.receiving(link);
        if phase.is_cut(self.site.version, cut.boxes, cut.bytes) {
            self.phases.cut(link, cut.boxes, cut.bytes);
            self.not_yet(manner)
        } else {
            self.end(Code::BadRequest, 0)
        }
    }

    /// A partition was made ready.
    #[tactic(auto, unfolding(crate::specs::Told::part_readied))]
    pub(crate) fn ready_part(&mut self, link: u8, part: u8)
        ensures { Becomes self.old self.new (part_readied link part (part_in self.old)) }
    {
        self.phases.ready(link, part);
        self.end(Code::Ok, 0)
    }

    /// One more partition was found taken; with the last one the send completes.
    #[tactic(auto, unfolding(crate::specs::Told::freed_one))]
    pub(crate) fn free_part(&mut self, manner: Manner, link: u8, target: Target)
        requires going { IsTrue (not (all_freed (sending_at self.old.phases.now link))) }
        requires pages { HasPages self.old (message_into target 0) }
        ensures { Becomes self.old self.new (freed_one manner link target (part_in self.old)) }
    {
        self.phases.free_one(link);
        if self.phases.sending(link).all_freed() {
            self.receive(target, ANY, ANY, &[])
        } else {
            self.not_yet(manner)
        }
    }

    /// A partitioned receive completes: its status has the source, the tag and all the bytes.
    #[tactic(auto, unfolding(crate::specs::Told::arrived))]
    pub(crate) fn arrive(&mut self, side: &Partitions, target: Target)
        requires { HasPages self.old (statuses_from target.status 1 ∷ []) }
        ensures { Becomes self.old self.new (arrived self.old.site.now side.now target (part_in self.old)) }
    {
        match position(side.peer, self.site.members(u64::from(side.comm))) {
            None => self.end(Code::BadRequest, 0),
            Some(source) => {
                let _ = self.requests.complete(target.handle);
                let count = u64::from(side.parts) * u64::from(side.size);
                self.write_status(target.status, source, u64::from(side.tag), count);
                self.end(Code::Ok, target.value)
            }
        }
    }

    /// The bytes of a box that was taken stand behind the buffer, at its number times the sender's size.
    #[tactic(auto, using(crate::proofs::Places::written_at))]
    fn put_box(&mut self, taken: &Taken)
        requires { HasPages self.old (box_into self.old.phases.now taken.now.side taken.now.part ∷ []) }
        ensures becomes { Becomes self.old self.new
            (with_taken_box taken.now.side taken.now.part taken.now.bytes.now (part_in self.old)) }
        ensures left { (rs : List Range)
            → HasPages self.old (box_into self.old.phases.now taken.now.side taken.now.part ∷ rs)
            → HasPages self.new rs }
    {
        // an address past all others is past the memory too
        prove!(self.memory.size() <= 1048576);
        let side = taken.side;
        let bytes = self.phases.receiving(side.link).bytes;
        let address = place_at(side.buffer, taken.part, bytes);
        let bytes = taken.bytes.first(bytes as usize);
        write_where_right(self.memory, self.spares, address, bytes);
        self.phases.take_one(side.link, taken.part);
    }

    /// A box was taken; with the last one the receive completes.
    #[tactic(auto, unfolding(crate::specs::Told::taken_one))]
    pub(crate) fn take_box(&mut self, manner: Manner, taken: &Taken, target: Target)
        requires { HasPages self.old
            (box_into self.old.phases.now taken.now.side taken.now.part ∷ statuses_from target.status 1 ∷ []) }
        ensures { Becomes self.old self.new
            (taken_one self.old.site.now manner taken.now.side taken.now.part target taken.now.bytes.now
            (part_in self.old)) }
    {
        self.put_box(taken);
        if self.phases.receiving(taken.side.link).active {
            self.not_yet(manner)
        } else {
            self.arrive(&taken.side, target)
        }
    }

    /// A box was taken: the partition that was asked about has arrived where none of its boxes is left.
    #[tactic(auto, unfolding(crate::specs::Told::seen_one))]
    pub(crate) fn see_box(&mut self, taken: &Taken, asked: u8)
        requires { HasPages self.old (box_into self.old.phases.now taken.now.side taken.now.part ∷ []) }
        ensures { Becomes self.old self.new
            (seen_one taken.now.side taken.now.part asked taken.now.bytes.now (part_in self.old)) }
    {
        self.put_box(taken);
        let value = match self.phases.receiving(taken.side.link).next_of(asked) {
            None => 1,
            Some(_) => 0,
        };
        self.end(Code::Ok, value)
    }
}
