//! PREADYs, and PARRIVEDs that look at a box, which are worked out straight from the registers and the open requests.
//!
//! A rank makes these calls for one partition after another. Their checks aren't made one by one, and what they ask and
//! their rows aren't looked up. What a box answers is told by the rows.

ghost use Rattle.std.specs.Prelude.{◌≡◌, IfSome, IsFalse, IsTrue, true};
ghost use Rattle.cl_rank.specs.QuickParts.{AwaitsBox, MayBeReady};
ghost use Rattle.cl_rank.specs.Views.{HasTurn, IsOver, IsQuietTurn};

use crate::quick_sends::is_at;
use crate::ranks::Rank;
use crate::turning::Turn;
use cl_calls::{Call, PARRIVED, PREADY, receiving_side, sending_side};
use cl_sides::BoxId;
use cl_state::{Doing, RankState, Row, Visit, part_contents, place_at};
use mp_request::Partitions;
use part_channel::Channel;
use rv_decode::Reg;

/// The side of a request, and the partition of it that may be made ready.
#[inline(always)]
fn unready(state: &RankState, handle: u64, part: u64) -> Option<(Partitions, u8)>
    ensures may { IfSome result (λ it. MayBeReady state.now handle part it.0) }
    ensures part { IfSome result (λ it. it.1 ≡ part) }
{
    let side = sending_side(&state.requests, handle)?;
    let phase = state.phases.sending(side.link);
    if part >= u64::from(phase.parts) {
        return None;
    }
    let part = part as u8;
    if phase.all_freed() || phase.is_ready(part) {
        return None;
    }
    Some((side, part))
}

/// The side of a request, a partition of it, and the box that this one awaits, if the pages are there that its bytes go
/// to.
#[inline(always)]
fn awaited(state: &RankState, handle: u64, part: u64) -> Option<(Partitions, u8, u8)>
    ensures awaits { IfSome result (λ it. AwaitsBox state.now handle part it.0 it.2) }
    ensures part { IfSome result (λ it. it.1 ≡ part) }
{
    let side = receiving_side(&state.requests, handle)?;
    let phase = state.phases.receiving(side.link);
    if part >= u64::from(phase.parts) || !phase.active {
        return None;
    }
    let part = part as u8;
    let place = phase.next_of(part)?;
    let address = place_at(side.buffer, place, phase.bytes);
    if state.memory.missing(address, u64::from(phase.bytes)) != 0 {
        return None;
    }
    Some((side, part, place))
}

impl Rank {
    /// A PREADY that may be done, if a hart's turn is one: whether it was. Else the rank stays as it is.
    #[inline(never)]
    pub(crate) fn ready_turn(&mut self, channels: &[Channel], hart: u8) -> bool
        requires has { HasTurn self.old hart }
        requires own { IsOver self.old channels.now }
        ensures turned { IsTrue result → IsQuietTurn hart self.old self.new }
        ensures same { IsFalse result → self.new ≡ self.old }
    {
        let at = &self.state.harts[hart as usize];
        if !is_at(at, &self.state.memory, PREADY) {
            return false;
        }
        let (handle, number) = (at.get(Reg::new(10)), at.get(Reg::new(11)));
        let Some((side, part)) = unready(&self.state, handle, number) else {
            return false;
        };
        let turn = Turn {
            hart,
            doing: Doing::Go(Call::Pready {
                handle,
                part: number,
            }),
            row: Row::OnBox(Visit::Readies {
                link: side.link,
                part,
            }),
        };
        let bytes = part_contents(&self.state.site, &self.state.memory, &side, part);
        self.roomy = None;
        self.state.fresh = Vec::new(self.alloc);
        let link = side.link;
        self.make_ready(channels, &turn, BoxId { link, part }, &bytes);
        true
    }

    /// A PARRIVED that looks at a box, if a hart's turn is one: whether it was. Else the rank stays as it is.
    #[inline(never)]
    pub(crate) fn look_turn(&mut self, channels: &[Channel], hart: u8) -> bool
        requires has { HasTurn self.old hart }
        requires own { IsOver self.old channels.now }
        ensures turned { IsTrue result → IsQuietTurn hart self.old self.new }
        ensures same { IsFalse result → self.new ≡ self.old }
    {
        let at = &self.state.harts[hart as usize];
        if !is_at(at, &self.state.memory, PARRIVED) {
            return false;
        }
        let (handle, number) = (at.get(Reg::new(10)), at.get(Reg::new(11)));
        let Some((side, asked, part)) = awaited(&self.state, handle, number) else {
            return false;
        };
        let turn = Turn {
            hart,
            doing: Doing::Go(Call::Parrived {
                handle,
                part: number,
            }),
            row: Row::OnBox(Visit::Sees { side, part, asked }),
        };
        self.roomy = None;
        self.state.fresh = Vec::new(self.alloc);
        let link = side.link;
        self.look(channels, &turn, BoxId { link, part });
        true
    }
}
