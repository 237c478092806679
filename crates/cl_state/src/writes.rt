//! How many pages that a turn may write aren't there.

ghost use Rattle.std.specs.Prelude.{◌≡◌, ◌≤◌, ◌*◌, ◌∷◌, [], length};
ghost use Rattle.cl_state.specs.Turn.{HasArray, IsAble, IsReady, IsRow, IsWantable, part_in, row_for};
ghost use Rattle.cl_state.specs.Writes.{box_into, buffer_of, message_into, missing_for, several_into, statuses_from};
ghost use Rattle.cl_state.specs.Writes.{writes_at_once, writes_by, writes_in, writes_on_box, writes_on_reply};
ghost use Rattle.rv_memory.specs.MorePages.{missing_pages};

use crate::asking::Doing;
use crate::partitions::place_at;
use crate::pending::{Pending, Target};
use crate::row::{Outcome, Row, Visit, Wanted};
use crate::several::{array, pending};
use crate::turn::Turn;
use cl_calls::{Several, handles_at};
use mp_request::Partitions;
use rv_hart::store_range;

/// Bytes of a rank's memory, from an address on.
#[derive(Clone, Copy, Drop)]
pub struct Range {
    pub address: u64,
    pub count: u64,
}

impl Range {
    /// So many statuses of three words each; at address 0 none is wanted.
    fn of_statuses(address: u64, statuses: u64) -> Range
        requires { statuses ≤ 255 }
        ensures { result ≡ statuses_from address statuses }
    {
        let count = if address == 0 { 0 } else { 24 * statuses };
        Range { address, count }
    }

    /// Where the message goes that a request waits for, if it waits for one.
    fn of_buffer(pending: Pending) -> Range
        ensures { result ≡ buffer_of pending }
    {
        match pending {
            Pending::Message {
                post: _,
                buffer,
                capacity,
            } => Range {
                address: buffer,
                count: u64::from(capacity),
            },
            Pending::Nothing | Pending::FromNull | Pending::Word(_) => Range {
                address: 0,
                count: 0,
            },
        }
    }
}

impl<'a> Turn<'a> {
    /// How many pages of a range aren't there.
    fn missing(&self, range: Range) -> usize
        ensures value { result ≡ missing_pages self.now.memory.now.pages range.address range.count }
        ensures most { result ≤ 256 }
    {
        self.memory.missing(range.address, range.count)
    }

    /// Of where a message and its status go.
    fn missing_message(&self, target: Target, count: u64) -> usize
        ensures value { result ≡ missing_for self.now.memory.now.pages (message_into target count) }
        ensures most { result ≤ 512 }
    {
        let buffer = Range {
            address: target.buffer,
            count,
        };
        self.missing(buffer) + self.missing(Range::of_statuses(target.status, 1))
    }

    /// Of where a status goes.
    fn missing_status(&self, address: u64) -> usize
        ensures value { result ≡ missing_for self.now.memory.now.pages (statuses_from address 1 ∷ []) }
        ensures most { result ≤ 256 }
    {
        self.missing(Range::of_statuses(address, 1))
    }

    /// Of where the bytes of a box go.
    fn missing_box(&self, side: &Partitions, part: u8) -> usize
        ensures value { result ≡ missing_for self.now.memory.now.pages (box_into self.now.phases.now side.now part ∷ []) }
        ensures most { result ≤ 256 }
    {
        let bytes = self.phases.receiving(side.link).bytes;
        self.missing(Range {
            address: place_at(side.buffer, part, bytes),
            count: u64::from(bytes),
        })
    }

    /// Of where the messages of several requests and their statuses go.
    fn missing_several(&self, several: Several) -> usize
        requires { HasArray self.now several }
        ensures { result ≡ missing_for self.now.memory.now.pages (several_into (part_in self.now) several) }
    {
        let handles = handles_at(self.memory, array(&several));
        let mut missing = 0;
        let mut rest = handles.as_slice();
        while let Some((handle, after)) = rest.split_first() {
            missing += self.missing(Range::of_buffer(pending(self.requests, *handle)));
            rest = after;
        }
        missing + self.missing(Range::of_statuses(several.statuses, handles.len() as u64))
    }

    fn missing_at_once(&self, outcome: &Outcome) -> usize
        requires { IsAble self.now outcome.now }
        ensures { result ≡ missing_for self.now.memory.now.pages (writes_at_once (part_in self.now) outcome.now) }
    {
        match *outcome {
            Outcome::Steps => {
                let stored = store_range(self.hart, self.memory);
                self.missing(Range {
                    address: stored.address,
                    count: stored.count,
                })
            }
            Outcome::Completes { source: _, target } => self.missing_message(target, 0),
            Outcome::FindsNothing { value: _, status } => self.missing_status(status),
            Outcome::CompletesAll { value: _, several } => self.missing_several(several),
            Outcome::Arrives { side: _, target } => self.missing_status(target.status),
            _ => 0,
        }
    }

    fn missing_on_reply(&self, wanted: &Wanted) -> usize
        requires { IsWantable self.now wanted.now }
        ensures { result ≡ missing_for self.now.memory.now.pages (writes_on_reply (part_in self.now) wanted.now) }
    {
        match *wanted {
            Wanted::MessageOrPost(target) | Wanted::Message(target) => {
                self.missing_message(target, target.capacity)
            }
            Wanted::Word(target) => self.missing_message(target, 0),
            Wanted::All { value: _, several } => self.missing_several(several),
            Wanted::Sight { value: _, status } | Wanted::Claim { status } => {
                self.missing_status(status)
            }
            _ => 0,
        }
    }

    fn missing_on_box(&self, visit: &Visit) -> usize
        ensures { result ≡ missing_for self.now.memory.now.pages (writes_on_box (part_in self.now) visit.now) }
    {
        match *visit {
            Visit::Readies { .. } => 0,
            Visit::Frees { target, .. } => self.missing_message(target, 0),
            Visit::Takes {
                manner: _,
                side,
                part,
                target,
            } => self.missing_box(&side, part) + self.missing_status(target.status),
            Visit::Sees {
                side,
                part,
                asked: _,
            } => self.missing_box(&side, part),
        }
    }

    /// Of all that a row may write.
    fn missing_by(&self, row: &Row) -> usize
        requires { IsRow self.now row.now }
        ensures { result ≡ missing_for self.now.memory.now.pages (writes_by (part_in self.now) row.now) }
    {
        match row {
            Row::AtOnce(outcome) => self.missing_at_once(outcome),
            Row::OnReply(_, wanted) => self.missing_on_reply(wanted),
            Row::OnBox(visit) => self.missing_on_box(visit),
        }
    }

    /// The turn's row of the table, and how many pages that it may write aren't there, summed over its ranges.
    #[tactic(auto, using(crate::proofs::Ready::row_of_ready))]
    pub(crate) fn row_and_missing(&self, doing: &Doing) -> (Row, usize)
        requires { IsReady self.now doing.now }
        ensures row { result.0 ≡ row_for self.now doing.now }
        ensures missing { result.1
            ≡ missing_for self.now.memory.now.pages
            (writes_in self.now.site.now self.now.number doing.now (part_in self.now)) }
    {
        let row = self.row(doing);
        (row, self.missing_by(&row))
    }
}
