//! What an answer does to a hart, the memory, the requests, the phases and the output.

ghost use Rattle.std.specs.Prelude.{◌≡◌, ◌≤◌, ◌+◌, length, vec_capacity, vec_len};
ghost use Rattle.cl_state.specs.Right.{IsChecked, IsRunning, output_of};
ghost use Rattle.cl_state.specs.Told.{done, replied, told_in, told_row, visited};
ghost use Rattle.cl_state.specs.Turn.{Becomes, HasPages, IsAble, IsReady, IsRow, IsVisitable, IsWantable};
ghost use Rattle.cl_state.specs.Turn.{KeepsPlaces};
ghost use Rattle.cl_state.specs.Turn.{part_in, part_with, row_for, told_by};
ghost use Rattle.cl_state.specs.Table.{row_in};
ghost use Rattle.cl_state.specs.Writes.{IsEnough, writes_at_once, writes_by, writes_in, writes_on_box, writes_on_reply};

use crate::asking::{Answer, Doing};
use crate::pending::Manner;
use crate::row::{Outcome, Row, Visit, Wanted};
use crate::sides::{Cut, Taken};
use crate::table::begun;
use crate::transfers::Posted;
use crate::turn::Turn;
use cl_calls::{ANY, Site};
use mp_request::Requests;
use mp_types::{Code, Reply};
use part_phase::Phases;
use rv_hart::{Hart, Mode};
use rv_memory::{RankMemory, SparePages};

impl<'a> Turn<'a> {
    /// What is done at once.
    fn act(&mut self, outcome: Outcome)
        requires able { IsAble self.old outcome }
        requires pages { HasPages self.old (writes_at_once (part_in self.old) outcome) }
        ensures { Becomes self.old self.new (done self.old.site.now outcome (part_in self.old)) }
    {
        match outcome {
            Outcome::Steps => self.step(),
            Outcome::Stays => {}
            Outcome::Exits(code) => self.hart.set_mode(Mode::Ended(code)),
            Outcome::Ends(code, value) => self.end(code, value),
            Outcome::Waits(post) => self.wait(post),
            Outcome::Puts { buffer, count } => self.put(buffer, count),
            Outcome::Opens(request) => self.open(request),
            Outcome::Starts { handle, progress } => self.start(handle, progress),
            Outcome::Frees(handle) => self.free(handle),
            Outcome::Completes { source, target } => self.receive(target, source, ANY, &[]),
            Outcome::FindsNothing { value, status } => self.find_nothing(value, status),
            Outcome::CompletesAll { value, several } => self.complete_several(value, several),
            Outcome::BeginsPhase { handle, link } => self.begin_phase(handle, link),
            Outcome::Holds => self.hold(),
            Outcome::Arrives { side, target } => self.arrive(&side, target),
        }
    }

    /// What a reply does where it is wanted. Any other doesn't fit.
    fn take(&mut self, wanted: Wanted, reply: &Reply)
        requires wantable { IsWantable self.old wanted }
        requires pages { HasPages self.old (writes_on_reply (part_in self.old) wanted) }
        ensures { Becomes self.old self.new (replied self.old.site.now wanted reply.now (part_in self.old)) }
    {
        match (wanted, reply) {
            (Wanted::Post(why, transfer), Reply::Posted { post, done }) => {
                let posted = Posted {
                    post: *post,
                    done: *done,
                };
                self.act(begun(why, transfer, posted.progress(&transfer)))
            }
            (Wanted::MessageOrPost(_), Reply::Posted { post, done: _ }) => self.wait(*post),
            (Wanted::MessageOrPost(target), Reply::Got(message)) => {
                self.receive_message(target, message)
            }
            (Wanted::Message(target), Reply::Got(message)) => self.receive_message(target, message),
            (Wanted::Word(target), Reply::Done) => self.receive(target, ANY, ANY, &[]),
            (Wanted::Sent, Reply::Done) => self.end(Code::Ok, 0),
            (Wanted::All { value, several }, Reply::AllGot(gots)) => {
                self.gather(value, several, gots.as_slice())
            }
            (Wanted::Sight { value, status }, Reply::Seen(envelope)) => {
                self.find(value, status, *envelope)
            }
            (Wanted::Claim { status }, Reply::Held(message, envelope)) => {
                self.find(*message, status, *envelope)
            }
            (Wanted::SendingLink(partitioning), Reply::Link(link)) => {
                self.make_sending(&partitioning, *link)
            }
            (Wanted::ReceivingLink(partitioning), Reply::Link(link)) => {
                self.make_receiving(&partitioning, *link)
            }
            (Wanted::Cut { manner, link }, Reply::Cut { parts, size }) => {
                let cut = Cut {
                    boxes: *parts,
                    bytes: *size,
                };
                self.know_cut(manner, link, cut)
            }
            _ => self.end(Code::BadRequest, 0),
        }
    }

    /// What the answer of a box does. Any other doesn't fit.
    fn visit(&mut self, visit: Visit, answer: &Answer)
        requires visitable { IsVisitable self.old visit }
        requires pages { HasPages self.old (writes_on_box (part_in self.old) visit) }
        ensures { Becomes self.old self.new (visited self.old.site.now visit answer.now (part_in self.old)) }
    {
        match (visit, answer) {
            (Visit::Readies { link, part }, Answer::Alone) => self.ready_part(link, part),
            (
                Visit::Frees {
                    manner,
                    link,
                    target,
                },
                Answer::Freed,
            ) => self.free_part(manner, link, target),
            (Visit::Frees { manner, .. }, Answer::Missed) => self.not_yet(manner),
            (
                Visit::Takes {
                    manner,
                    side,
                    part,
                    target,
                },
                Answer::Taken(bytes),
            ) => {
                let taken = Taken { side, part, bytes };
                self.take_box(manner, &taken, target)
            }
            (Visit::Takes { manner, .. }, Answer::Missed) => self.not_yet(manner),
            (Visit::Sees { side, part, asked }, Answer::Taken(bytes)) => {
                let taken = Taken { side, part, bytes };
                self.see_box(&taken, asked)
            }
            (Visit::Sees { .. }, Answer::Missed) => self.not_yet(Manner::Immediate),
            _ => self.end(Code::BadRequest, 0),
        }
    }

    /// What a row does with the answer. NotYet and a code are told alike to all calls.
    fn answer(&mut self, row: &Row, answer: &Answer)
        requires row { IsRow self.old row.now }
        requires pages { HasPages self.old (writes_by (part_in self.old) row.now) }
        ensures { Becomes self.old self.new (told_row self.old.site.now row.now answer.now (part_in self.old)) }
    {
        match *row {
            Row::AtOnce(outcome) => self.act(outcome),
            Row::OnReply(manner, wanted) => match answer {
                Answer::Reply(Reply::NotYet) => self.not_yet(manner),
                Answer::Reply(Reply::Code(code)) => self.end(*code, 0),
                Answer::Reply(reply) => self.take(wanted, reply),
                _ => self.end(Code::BadRequest, 0),
            },
            Row::OnBox(visit) => self.visit(visit, answer),
        }
    }

    /// The turn, which has this row, is answered what it asked.
    #[tactic(auto, using(crate::proofs::Ready::row_of_ready))]
    fn finish(&mut self, _doing: &Doing, row: &Row, answer: &Answer)
        requires ready { IsReady self.old _doing.now }
        requires row { row.now ≡ row_for self.old _doing.now }
        requires pages { HasPages self.old
            (writes_in self.old.site.now self.old.number _doing.now (part_in self.old)) }
        ensures { Becomes self.old self.new
            (told_in self.old.site.now self.old.number _doing.now answer.now (part_in self.old)) }
    {
        self.answer(row, answer);
    }
}

/// What a hart is told: its rank and number, the bytes that it
/// puts behind the output, what its turn is, that one's row of the table, and the answer.
#[derive(Drop)]
pub(crate) struct News<'a> {
    pub(crate) site: &'a Site,
    pub(crate) number: u8,
    pub(crate) fresh: &'a [u8],
    pub(crate) doing: &'a Doing,
    pub(crate) row: &'a Row,
    pub(crate) answer: &'a Answer,
}

/// What all harts of a rank have in common, and a turn of one may change.
#[derive(Drop)]
pub(crate) struct Common<'a> {
    pub(crate) memory: &'a mut RankMemory,
    pub(crate) spares: &'a mut SparePages,
    pub(crate) requests: &'a mut Requests,
    pub(crate) phases: &'a mut Phases,
    pub(crate) out: &'a mut Vec<u8>,
}

/// The answer to what a hart's turn asked.
pub(crate) fn tell_hart(news: &News, hart: &mut Hart, common: &mut Common)
    requires running { IsRunning news.now.doing.now hart.old }
    requires checked { IsChecked news.now.site.now common.old.memory.now common.old.requests.now common.old.phases.now
        news.now.doing.now }
    requires row { news.now.row.now ≡ row_in news.now.site.now news.now.number common.old.memory.now
        common.old.requests.now common.old.phases.now news.now.doing.now }
    requires fresh { news.now.fresh.now ≡ output_of common.old.memory.now news.now.doing.now }
    requires room { vec_len common.old.out.now + length news.now.fresh.now ≤ vec_capacity common.old.out.now }
    requires pages { IsEnough common.old.memory.now.pages common.old.spares.now
        (writes_in news.now.site.now news.now.number news.now.doing.now (part_with hart.old common.old)) }
    ensures told { part_with hart.new common.new ≡ told_by news.now (part_with hart.old common.old) }
    ensures places { KeepsPlaces common.old common.new }
{
    let mut turn = Turn {
        site: news.site,
        number: news.number,
        fresh: news.fresh,
        hart,
        memory: &mut *common.memory,
        spares: &mut *common.spares,
        requests: &mut *common.requests,
        phases: &mut *common.phases,
        out: &mut *common.out,
    };
    turn.finish(news.doing, news.row, news.answer);
}
