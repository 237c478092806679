//! A rank with its trace and the sides of its links, and its turns.

ghost use Rattle.std.specs.Prelude.{ℕ, ◌≡◌, ◌<◌, ◌≤◌, ◌+◌, ◌^◌, [], None, length, vec_len, IfOk, IfErr, OnOk, OnErr};
ghost use Rattle.cl_state.specs.Rank.{loaded};
ghost use Rattle.cl_state.specs.Room.{rank_of};
ghost use Rattle.cl_trace.specs.Rising.{last_stamp};
ghost use Rattle.cl_rank.specs.Facts.{are_sides_fact};
ghost use Rattle.cl_rank.specs.Fitting.{RequestsFit};
ghost use Rattle.cl_sides.specs.Sides.{AreChannelsOf, AreNewSides, AreSides, sides_in};
ghost use Rattle.cl_rank.specs.Roomy.{IsRoomy, is_roomy_fact};
ghost use Rattle.cl_deeds.specs.Turns.{IsActive};
ghost use Rattle.cl_rank.specs.Turning.{Answered, IsCause, IsTurn, StopHolds};

use crate::desks::{Desk, PlainDesk};
use crate::stops::Stop;
use crate::turning::all_stopped;
use cl_journal::{CLOCK_MAX, Hub};
use cl_plain::step_plain;
use cl_sides::BoxId;
use cl_state::RankState;
use cl_trace::Trace;
use mp_types::Request;
use part_channel::{Channel, RecvSide, SendSide};
use rv_image_types::Image;
use std::alloc::{AllocError, Global};

/// A rank with the events of its turns so far, and the sides that it has of the image's links.
#[derive(Drop)]
pub struct Rank {
    pub(crate) alloc: Global,
    pub state: RankState,
    /// How many turns the rank may take.
    pub budget: u64,
    pub trace: Trace,
    /// The sender's sides, each with the number of its link.
    pub sends: Vec<(u8, SendSide)>,
    /// The receiver's sides, likewise.
    pub recvs: Vec<(u8, RecvSide)>,
    /// The box that the last turn asked, if it asked one.
    pub asked_box: Option<BoxId>,
    /// The hart whose poll was just answered that nothing is there yet. The room that its turn wants is made, so that
    /// the next poll needn't work the turn out.
    pub(crate) roomy: Option<u8>,
    /// What that hart asks in its next turn, if it is known.
    pub(crate) again: Option<Request>,
    /// Whether the last plain turns ended at a turn that isn't plain, which is the next one: so that isn't tried as one again.
    pub(crate) is_at_other: bool,
    ghost low: { state.clock < 2 ^ 62 },
    ghost within: { length trace.events ≤ budget },
    ghost stamped: { last_stamp 0 trace.events ≤ state.clock },
    ghost sides: { AreSides state.site.version state.phases state.clock
        (sides_in sends.items recvs.items) } by { are_sides_fact state.site.version state.phases state.clock
            (sides_in sends.items recvs.items) },
    ghost fit: { RequestsFit state.requests state.phases },
    ghost room: { IsRoomy state roomy again } by { is_roomy_fact state roomy again },
}

impl Rank {
    ghost use Rattle.cl_rank.specs.Views.{IsOver, TurnEnds, view_of};

    /// The rank of this number as it is loaded, which took no turn, with the sides of its links, which are new.
    pub fn new(
        alloc: Global,
        image: &Image,
        rank: u8,
        budget: u64,
        sends: Vec<(u8, SendSide)>,
        recvs: Vec<(u8, RecvSide)>,
    ) -> Result<Rank, AllocError>
        requires { AreNewSides image.now.links rank (sides_in sends.items recvs.items) }
        ensures view { IfOk result (λ new. view_of new
            ≡ record {
              rank = loaded image.now rank;
              events = [];
              sides = sides_in sends.items recvs.items;
              asked_box = None;
            }) }
        ensures harts { IfOk result (λ new. vec_len new.state.harts ≡ image.now.harts) }
        ensures budget { IfOk result (λ new. new.budget ≡ budget) }
    {
        Ok(Rank {
            alloc,
            state: RankState::load(alloc, image, rank)?,
            budget,
            trace: Trace::new(alloc),
            sends,
            recvs,
            asked_box: None,
            roomy: None,
            again: None,
            is_at_other: false,
        })
    }

    /// Whether the last plain turns ended at a turn that isn't plain, and that one wasn't taken yet.
    #[inline(always)]
    pub fn is_at_other(&self) -> bool
        ensures { result ≡ self.now.is_at_other }
    {
        self.is_at_other
    }

    /// Takes a turn of a hart that is there: one event, behind those before. Only a call of the hub reaches the desk,
    /// and only a step on a box its channel: `channels` are those of all links, by number.
    ///
    /// Refusals, in this order: AllEnded where all harts are stopped, Budget where
    /// there are as many events as the budget allows, ClockFull where the rank's clock
    /// is 2^62 - 1, then Memory or the desk's. After each the rank is as it was.
    #[inline(always)]
    pub fn turn<R, D: Desk<R>>(
        &mut self,
        rt: &R,
        desk: &mut D,
        channels: &[Channel],
        hart: u8,
    ) -> Result<(), Stop>
        requires hart { hart < vec_len self.old.state.harts }
        requires own { IsOver self.old channels.now }
        ensures { TurnEnds D.gives hart channels.now self.old desk.old result self.new desk.new }
    {
        if self.trace.len() >= self.budget || self.state.clock >= CLOCK_MAX {
            return Err(self.why_stopped());
        }
        if self.trace.reserve().is_err() {
            return Err(self.why_stopped());
        }
        if self.is_at_other {
            self.is_at_other = false;
            return self.other_turn(rt, desk, hart, channels);
        }
        let stamp = self.state.clock + 1;
        if step_plain(&mut self.state, hart, stamp) {
            self.asked_box = None;
            self.roomy = None;
            self.trace.push_plain(hart, stamp);
            return Ok(());
        }
        self.other_turn(rt, desk, hart, channels)
    }

    /// Takes a turn of a hart over the hub itself, and never waits. After a refusal the hub is as it was, too.
    pub fn turn_plain(&mut self, hub: &mut Hub, channels: &[Channel], hart: u8) -> Result<(), Stop>
        requires hart { hart < vec_len self.old.state.harts }
        requires own { IsOver self.old channels.now }
        ensures turned { OnOk result (IsTurn Answered hart (view_of self.old) (view_of self.new) hub.old hub.new) }
        ensures active { OnOk result (IsActive (rank_of self.old.state)
            (length self.old.trace.events) self.old.budget) }
        ensures stop { IfErr result
            (λ stop. StopHolds Answered hart (rank_of self.old.state)
            self.old.trace.room (length self.old.trace.events) self.old.budget hub.old hub.new stop) }
        ensures unchanged { OnErr result (view_of self.new ≡ view_of self.old) }
        ensures hub { OnErr result (hub.new ≡ hub.old) }
        ensures own { IsOver self.new channels.now }
        ensures budget { self.new.budget ≡ self.old.budget }
        ensures harts { vec_len self.new.state.harts ≡ vec_len self.old.state.harts }
    {
        let mut desk = PlainDesk { hub };
        self.turn(&(), &mut desk, channels, hart)
    }

    /// The rank's state, its trace, and its sides of links, the sender's first. No event is later than the clock.
    pub fn into_parts(self) -> (RankState, Trace, Vec<(u8, SendSide)>, Vec<(u8, RecvSide)>)
        ensures state { result.0 ≡ self.state }
        ensures trace { result.1 ≡ self.trace }
        ensures sends { result.2 ≡ self.sends }
        ensures recvs { result.3 ≡ self.recvs }
        ensures stamped { last_stamp 0 result.1.events ≤ result.0.clock }
    {
        let Rank {
            alloc: _,
            state,
            budget: _,
            trace,
            sends,
            recvs,
            asked_box: _,
            roomy: _,
            again: _,
            is_at_other: _,
        } = self;
        (state, trace, sends, recvs)
    }

    /// Why there is no turn, of a rank that is at an end or whose trace found no memory.
    #[inline(never)]
    fn why_stopped(&self) -> Stop
        ensures { (hart room : ℕ)
            → (IsActive (rank_of self.now.state) (length self.now.trace.events) self.now.budget → room ≡ 0)
            → IsCause hart (rank_of self.now.state) room (length self.now.trace.events) self.now.budget result }
    {
        if all_stopped(&self.state) {
            Stop::AllEnded
        } else if self.trace.len() >= self.budget {
            Stop::Budget
        } else if self.state.clock >= CLOCK_MAX {
            Stop::ClockFull(self.state.clock)
        } else {
            Stop::Memory
        }
    }
}
