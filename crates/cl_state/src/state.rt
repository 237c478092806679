//! A rank as it runs.

ghost use Rattle.std.specs.Prelude.{◌≡◌, ◌<◌, vec_len, IfOk, IsOk, IsOkAnd, MatchResult, OnErr, OnOk, max};
ghost use Rattle.rv_memory.specs.Memory.{bytes_at};
ghost use Rattle.cl_state.specs.Asked.{asked, doing as doing_of, part_of};
ghost use Rattle.cl_state.specs.TurnRoom.{carried};
ghost use Rattle.cl_state.specs.Moves.{started_by};
ghost use Rattle.cl_state.specs.Right.{growth_of};
ghost use Rattle.cl_state.specs.Told.{told};

use crate::asking::{Answer, Ask, Doing};
use crate::row::Row;
use crate::telling::{Common, News, tell_hart};
use crate::turn::Turn;
use cl_calls::{Call, Site, Standing};
use mp_request::Requests;
use mp_types::{Posts, Stamp};
use part_phase::Phases;
use rv_hart::Hart;
use rv_memory::{RankMemory, SparePages};
use std::alloc::{AllocError, Global};

/// A rank's parts as they are loaded: what the image fixes, its memory, its harts, its requests and its phases.
#[derive(Drop)]
pub struct RankParts {
    pub site: Site,
    pub memory: RankMemory,
    pub harts: Vec<Hart>,
    pub requests: Requests,
    pub phases: Phases,
}

/// A rank: its memory, its harts, its open requests, its phases, its output and its clock, beside what the image fixes.
#[derive(Drop)]
pub struct RankState {
    alloc: Global,
    pub site: Site,
    pub memory: RankMemory,
    pub harts: Vec<Hart>,
    pub requests: Requests,
    /// One a link of the image.
    pub phases: Phases,
    pub out: Vec<u8>,
    /// The bytes that the next turn puts behind the output, once `room` made them.
    pub fresh: Vec<u8>,
    /// Pages for what the next turn writes, once `room` made them.
    pub spares: SparePages,
    pub clock: Stamp,
}

impl RankState {
    ghost use Rattle.std.specs.Prelude.{[]};
    ghost use Rattle.cl_state.specs.Room.{rank_of};
    ghost use Rattle.cl_state.specs.TurnRoom.{HasRoom, HasRoomBehind, IsNext, IsStanding, row_at, writes_of};
    ghost use Rattle.cl_state.specs.Writes.{missing_for};

    /// A rank with these parts, with no output, at clock 0.
    pub fn new(alloc: Global, parts: RankParts) -> RankState
        ensures rank { rank_of result
            ≡ record {
              site = parts.site;
              memory = parts.memory;
              harts = parts.harts.items;
              requests = parts.requests;
              phases = parts.phases;
              out = [];
              clock = 0;
            } }
        ensures harts { vec_len result.harts ≡ vec_len parts.harts }
    {
        let RankParts {
            site,
            memory,
            harts,
            requests,
            phases,
        } = parts;
        RankState {
            alloc,
            site,
            memory,
            harts,
            requests,
            phases,
            out: Vec::new(alloc),
            fresh: Vec::new(alloc),
            spares: SparePages::new(alloc),
            clock: 0,
        }
    }

    /// How the rank stands when a turn is read.
    fn standing(&self) -> Standing<'_>
        ensures { IsStanding self.now result }
    {
        Standing {
            site: &self.site,
            memory: &self.memory,
            requests: &self.requests,
            phases: &self.phases,
            written: self.out.len(),
        }
    }

    /// What the next turn of a hart is. A turn works it out once, and hands it to what follows.
    pub fn next(&self, hart: u8) -> Doing
        requires { hart < vec_len self.now.harts }
        ensures { IsNext self.now hart result }
    {
        Doing::of(&self.standing(), &self.harts[hart as usize])
    }

    /// What the hart asks in its next turn. Only a copy of bytes to be sent, or a list of posts, takes memory: nothing
    /// else is refused.
    pub fn ask(&self, hart: u8) -> Result<Ask, AllocError>
        requires { hart < vec_len self.now.harts }
        ensures { MatchResult result (λ ask. ask ≡ asked (rank_of self.now) hart)
            (λ e. 0 < carried (asked (rank_of self.now) hart)) }
    {
        self.ask_next(hart, &self.next(hart))
    }

    /// The same of a turn that was worked out.
    pub fn ask_next(&self, hart: u8, doing: &Doing) -> Result<Ask, AllocError>
        requires { IsNext self.now hart doing.now }
        ensures { MatchResult result (λ ask. ask ≡ asked (rank_of self.now) hart)
            (λ e. 0 < carried (asked (rank_of self.now) hart)) }
    {
        self.ask_again(hart, doing, None)
    }

    /// The same, where a list of posts is known for which the hart asked before. Where it asks for these once more the
    /// list is shared, and no memory is asked for.
    #[tactic(auto, unfolding(crate::specs::Asked::asked))]
    pub fn ask_again(
        &self,
        hart: u8,
        doing: &Doing,
        known: Option<&Posts>,
    ) -> Result<Ask, AllocError>
        requires { IsNext self.now hart doing.now }
        ensures { MatchResult result (λ ask. ask ≡ asked (rank_of self.now) hart)
            (λ e. 0 < carried (asked (rank_of self.now) hart)) }
    {
        doing.ask(self.alloc, &self.standing(), known)
    }

    /// The link whose phase the hart's turn begins, if it starts a partitioned request.
    #[tactic(auto, unfolding(crate::specs::Moves::started_by))]
    pub fn starts_next(&self, hart: u8, doing: &Doing) -> Option<u8>
        requires { IsNext self.now hart doing.now }
        ensures { result ≡ started_by (rank_of self.now) hart }
    {
        doing.starts(&self.requests)
    }

    /// A copy of bytes to be put behind the output. No bytes take no memory.
    fn copy(&self, buffer: u64, count: u64) -> Result<Vec<u8>, AllocError>
        ensures bytes { IfOk result (λ bytes. bytes.items ≡ bytes_at self.now.memory buffer count) }
        ensures sure { count ≡ 0 → IsOkAnd result (λ bytes. vec_len bytes ≡ 0) }
    {
        match self.memory.read_bytes(self.alloc, buffer, count) {
            Ok(bytes) => Ok(bytes),
            Err(_) => Err(AllocError),
        }
    }

    /// The row of the hart's turn, and how many pages that it may write aren't there, summed over its ranges. The rank stays
    /// as it is.
    fn row_and_missing(&mut self, hart: u8, doing: &Doing) -> (Row, usize)
        requires next { IsNext self.old hart doing.now }
        requires room { HasRoomBehind self.old hart }
        ensures row { result.0 ≡ row_at self.old hart doing.now }
        ensures missing { result.1 ≡ missing_for self.old.memory.pages (writes_of self.old hart) }
        ensures same { self.new ≡ self.old }
    {
        let mut at = self.harts[hart as usize];
        let turn = Turn {
            site: &self.site,
            number: hart,
            fresh: self.fresh.as_slice(),
            hart: &mut at,
            memory: &mut self.memory,
            spares: &mut self.spares,
            requests: &mut self.requests,
            phases: &mut self.phases,
            out: &mut self.out,
        };
        turn.row_and_missing(doing)
    }

    /// What a turn does that was worked out: its row of the table of calls. The rank stays as it is.
    pub fn row_next(&mut self, hart: u8, doing: &Doing) -> Row
        requires next { IsNext self.old hart doing.now }
        ensures row { result ≡ row_at self.old hart doing.now }
        ensures same { self.new ≡ self.old }
    {
        let mut at = self.harts[hart as usize];
        let turn = Turn {
            site: &self.site,
            number: hart,
            fresh: self.fresh.as_slice(),
            hart: &mut at,
            memory: &mut self.memory,
            spares: &mut self.spares,
            requests: &mut self.requests,
            phases: &mut self.phases,
            out: &mut self.out,
        };
        turn.row(doing)
    }

    /// Makes all growths of the hart's next turn, and spare pages for what it may write where none are. The rank stays
    /// as it is. Where nothing grows, and no page is missing, nothing is refused. Just the pages that are missing are
    /// made, and none where as many are spare.
    pub fn room(&mut self, hart: u8) -> Result<(), AllocError>
        requires { hart < vec_len self.old.harts }
        ensures same { rank_of self.new ≡ rank_of self.old }
        ensures harts { vec_len self.new.harts ≡ vec_len self.old.harts }
        ensures room { OnOk result (HasRoom self.new hart) }
        ensures sure { growth_of (doing_of self.old.site (part_of (rank_of self.old) hart)) ≡ 0
            → missing_for self.old.memory.pages (writes_of self.old hart) ≡ 0 → IsOk result }
        ensures spares { OnOk result (self.new.spares
            ≡ max self.old.spares (missing_for self.old.memory.pages (writes_of self.old hart))) }
        ensures kept { OnErr result (self.new.spares ≡ self.old.spares) }
    {
        let doing = self.next(hart);
        self.room_next(hart, &doing)
    }

    /// The same of a turn that was worked out, which stays the hart's next.
    pub fn room_next(&mut self, hart: u8, doing: &Doing) -> Result<(), AllocError>
        requires { IsNext self.old hart doing.now }
        ensures same { rank_of self.new ≡ rank_of self.old }
        ensures harts { vec_len self.new.harts ≡ vec_len self.old.harts }
        ensures room { OnOk result (HasRoom self.new hart) }
        ensures sure { growth_of doing.now ≡ 0
            → missing_for self.old.memory.pages (writes_of self.old hart) ≡ 0 → IsOk result }
        ensures spares { OnOk result (self.new.spares
            ≡ max self.old.spares (missing_for self.old.memory.pages (writes_of self.old hart))) }
        ensures kept { OnErr result (self.new.spares ≡ self.old.spares) }
        ensures next { IsNext self.new hart doing.now }
    {
        let _ = self.lay_out(hart, doing)?;
        Ok(())
    }

    /// The same, and gives the turn's row of the table of calls, for `tell_row`.
    pub fn lay_out(&mut self, hart: u8, doing: &Doing) -> Result<Row, AllocError>
        requires { IsNext self.old hart doing.now }
        ensures row { IfOk result (λ row. row ≡ row_at self.new hart doing.now) }
        ensures same { rank_of self.new ≡ rank_of self.old }
        ensures harts { vec_len self.new.harts ≡ vec_len self.old.harts }
        ensures room { OnOk result (HasRoom self.new hart) }
        ensures sure { growth_of doing.now ≡ 0
            → missing_for self.old.memory.pages (writes_of self.old hart) ≡ 0 → IsOk result }
        ensures spares { OnOk result (self.new.spares
            ≡ max self.old.spares (missing_for self.old.memory.pages (writes_of self.old hart))) }
        ensures kept { OnErr result (self.new.spares ≡ self.old.spares) }
        ensures next { IsNext self.new hart doing.now }
    {
        self.room_behind(hart, doing)?;
        let (row, missing) = self.row_and_missing(hart, doing);
        self.spares.make_up_to(missing)?;
        Ok(row)
    }

    /// Makes the bytes that the turn puts behind the output, and room for them there.
    fn room_behind(&mut self, hart: u8, doing: &Doing) -> Result<(), AllocError>
        requires { IsNext self.old hart doing.now }
        ensures same { rank_of self.new ≡ rank_of self.old }
        ensures harts { vec_len self.new.harts ≡ vec_len self.old.harts }
        ensures room { OnOk result (HasRoomBehind self.new hart) }
        ensures sure { growth_of doing.now ≡ 0 → IsOk result }
        ensures spares { self.new.spares ≡ self.old.spares }
        ensures next { IsNext self.new hart doing.now }
    {
        match *doing {
            Doing::Go(Call::Put { buffer, count }) => {
                let bytes = self.copy(buffer, count)?;
                self.out.reserve(bytes.len())?;
                self.fresh = bytes;
                Ok(())
            }
            _ => {
                self.fresh = Vec::new(self.alloc);
                Ok(())
            }
        }
    }

    /// Tells the rank the answer to what the hart asked. Takes no memory.
    pub fn tell(&mut self, hart: u8, answer: &Answer, stamp: Stamp)
        requires hart { hart < vec_len self.old.harts }
        requires room { HasRoom self.old hart }
        ensures told { rank_of self.new ≡ told (rank_of self.old) hart answer.now stamp }
        ensures harts { vec_len self.new.harts ≡ vec_len self.old.harts }
    {
        let doing = self.next(hart);
        self.tell_next(hart, &doing, answer, stamp)
    }

    /// The same of a turn that was worked out.
    pub fn tell_next(&mut self, hart: u8, doing: &Doing, answer: &Answer, stamp: Stamp)
        requires next { IsNext self.old hart doing.now }
        requires room { HasRoom self.old hart }
        ensures told { rank_of self.new ≡ told (rank_of self.old) hart answer.now stamp }
        ensures harts { vec_len self.new.harts ≡ vec_len self.old.harts }
    {
        let row = self.row_next(hart, doing);
        self.tell_row(hart, doing, &row, answer, stamp)
    }

    /// The same where the turn's row is known.
    #[tactic(auto, unfolding(crate::specs::Told::told))]
    pub fn tell_row(&mut self, hart: u8, doing: &Doing, row: &Row, answer: &Answer, stamp: Stamp)
        requires next { IsNext self.old hart doing.now }
        requires room { HasRoom self.old hart }
        requires row { row.now ≡ row_at self.old hart doing.now }
        ensures told { rank_of self.new ≡ told (rank_of self.old) hart answer.now stamp }
        ensures harts { vec_len self.new.harts ≡ vec_len self.old.harts }
    {
        let news = News {
            site: &self.site,
            number: hart,
            fresh: self.fresh.as_slice(),
            doing,
            row,
            answer,
        };
        let mut common = Common {
            memory: &mut self.memory,
            spares: &mut self.spares,
            requests: &mut self.requests,
            phases: &mut self.phases,
            out: &mut self.out,
        };
        tell_hart(&news, &mut self.harts[hart as usize], &mut common);
        self.clock = stamp;
    }
}
