//! A rank at its plan, from its first turn to its end.

ghost use Rattle.std.specs.Prelude.{◌≡◌, ◌<◌, ◌≤◌, ◌+◌, ◌%◌, List, [], All, None, Some, IfOk, IsTrue, IsFalse, length, vec_len, is_some};
ghost use Rattle.rv_image_types.specs.Image.{IsLink};
ghost use Rattle.part_channel.specs.Channels.{ChannelView};
ghost use Rattle.cl_state.specs.Rank.{loaded};
ghost use Rattle.cl_rank.specs.RankSides.{AreChannelsOf, AreNewSides};
ghost use Rattle.cl_rank.specs.Views.{view_of};
ghost use Rattle.cl_rank.specs.declared.stops.Stop.TheVariants.{Memory};
ghost use Rattle.cl_record.specs.Plans.{IsPlan};
ghost use Rattle.cl_record.specs.Wiring.{AreNewEnds, sides_in};

use crate::done::Done;
use crate::plans::Plan;
use crate::wiring::Ends;
use cl_rank::{Desk, Rank, RankState, Stop};
use part_channel::Channel;
use rv_image_types::Image;
use std::alloc::{AllocError, Global};

/// A rank with its plan, its place there, and its stop: what a driver keeps of it.
#[derive(Drop)]
pub struct Seat<'a> {
    pub rank: Rank,
    /// Which harts take the rank's turns, and how many it has.
    pub plan: &'a Plan,
    /// The place of the rank's next hart in the order of its plan.
    pub next: usize,
    /// Why the rank takes no more turns, once it takes none.
    pub stop: Option<Stop>,
    pub ghost next_there: { next < length plan.now.order.items },
    pub ghost harts_there: { All (λ hart. hart < vec_len rank.state.harts) plan.now.order.items },
    pub ghost budget_is: { rank.budget ≡ plan.now.budget },
}

/// The place behind this one, where so many places are used round and round.
#[inline(always)]
fn place_after(place: usize, count: usize) -> usize
    requires { place < count }
    ensures place { result ≡ (place + 1) % count }
    ensures there { result < count }
{
    let next = place + 1;
    if next == count { 0 } else { next }
}

/// Has the words of the rank's text stand for what they were decoded to in another rank of the image.
fn decode_as(rank: &mut Rank, decoded: &RankState) -> Result<(), AllocError>
    ensures view { view_of rank.new ≡ view_of rank.old }
    ensures harts { vec_len rank.new.state.harts ≡ vec_len rank.old.state.harts }
    ensures budget { rank.new.budget ≡ rank.old.budget }
{
    rank.state.decode_text(Some(decoded))
}

/// A rank as it is loaded, with its ends of the links, and with its text decoded as in another rank of the image.
fn load_rank(
    alloc: Global,
    image: &Image,
    rank: u8,
    budget: u64,
    ends: Ends,
    decoded: &RankState,
) -> Result<Rank, AllocError>
    requires { AreNewSides image.now.links rank (sides_in ends) }
    ensures view { IfOk result (λ new. view_of new
        ≡ record { rank = loaded image.now rank; events = []; sides = sides_in ends; asked_box = None }) }
    ensures harts { IfOk result (λ new. vec_len new.state.harts ≡ image.now.harts) }
    ensures budget { IfOk result (λ new. new.budget ≡ budget) }
{
    let Ends { sends, recvs } = ends;
    let mut own = Rank::new(alloc, image, rank, budget, sends, recvs)?;
    decode_as(&mut own, decoded)?;
    Ok(own)
}

impl<'a> Seat<'a> {
    ghost use Rattle.cl_rank.specs.Plains.{Repeats};
    ghost use Rattle.cl_record.specs.Seats.{GoesOn, IsFresh, MayRunOut, TakesPlainTurn, station};

    /// A rank as it is loaded, with its plan and its ends of the links. It took no turn. The words of its text stand for
    /// what they were decoded to in another rank of the image.
    pub fn load(
        alloc: Global,
        image: &Image,
        rank: u8,
        plan: &'a Plan,
        ends: Ends,
        decoded: &RankState,
    ) -> Result<Seat<'a>, AllocError>
        requires plan { IsPlan image.now.harts plan.now }
        requires joined { All (IsLink image.now.ranks) image.now.links }
        requires ends { (channels : List ChannelView)
            × AreNewEnds image.now.version image.now.links channels rank (sides_in ends) }
        ensures plan { IfOk result (λ seat. seat.plan.now ≡ plan.now) }
        ensures fresh { IfOk result (λ seat. (channels : List ChannelView)
            → AreNewEnds image.now.version image.now.links channels rank (sides_in ends)
            → IsFresh image.now channels rank seat) }
    {
        let rank = load_rank(alloc, image, rank, plan.budget, ends, decoded)?;
        Ok(Seat {
            rank,
            plan,
            next: 0,
            stop: None,
        })
    }

    /// The rank's next turn, of the hart that its plan names, by this desk. Where there is none the rank stops. Whether it
    /// took one. `channels` are those of all links, by number.
    #[inline(always)]
    pub fn turn<R, D: Desk<R>>(&mut self, rt: &R, desk: &mut D, channels: &[Channel]) -> bool
        requires running { self.old.stop ≡ None }
        requires channels { AreChannelsOf (station self.old).rank.site.version channels.now (station self.old).sides }
        ensures goes { GoesOn D.gives self.old.plan.now (station self.old) desk.old (station self.new) desk.new }
        ensures memory { self.new.stop ≡ Some Memory
            → MayRunOut self.old.plan.now (station self.old) self.old.rank.trace.room }
        ensures on { IsTrue result → self.new.stop ≡ None }
        ensures end { IsFalse result → IsTrue (is_some self.new.stop) }
        ensures plan { self.new.plan.now ≡ self.old.plan.now }
        ensures channels { AreChannelsOf (station self.new).rank.site.version channels.now (station self.new).sides }
    {
        let hart = self.plan.order[self.next];
        match self.rank.turn(rt, desk, channels, hart) {
            Ok(()) => {
                self.next = place_after(self.next, self.plan.order.len());
                true
            }
            Err(stop) => {
                self.stop = Some(stop);
                false
            }
        }
    }

    /// Takes plain turns of the rank by its plan, one after another and at most so many: how many. They are taken where one
    /// hart has all turns of the plan, and else none. It ends where the next turn isn't plain, or there is none.
    pub fn run_plain(&mut self, most: u64) -> u64
        requires running { self.old.stop ≡ None }
        ensures within { result ≤ most }
        ensures turns { Repeats (TakesPlainTurn self.old.plan.now) result (station self.old) (station self.new) }
        ensures plan { self.new.plan.now ≡ self.old.plan.now }
        ensures channels { (channels : List ChannelView)
            → AreChannelsOf (station self.old).rank.site.version channels (station self.old).sides
            → AreChannelsOf (station self.new).rank.site.version channels (station self.new).sides }
    {
        if self.plan.order.len() != 1 {
            return 0;
        }
        let hart = self.plan.order[self.next];
        self.rank.run_plain(hart, most)
    }

    /// The rank at its end, and why it stopped.
    pub fn end(self) -> Done
        requires { IsTrue (is_some self.stop) }
        ensures rank { result.rank ≡ self.entry.rank }
        ensures stop { Some result.stop ≡ self.entry.stop }
    {
        let Seat {
            rank,
            plan: _,
            next: _,
            stop,
        } = self;
        let Some(stop) = stop else { unreachable!() };
        Done { rank, stop }
    }
}
