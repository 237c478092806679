//! The driver of a run on one thread.

ghost use Rattle.std.specs.Prelude.{◌≡◌, ◌<◌, ◌≤◌, ◌+◌, ◌*◌, ℕ, List, None, Some, All, IfOk};
ghost use Rattle.std.specs.Prelude.{false, true, length, map, slice_get, slice_index, vec_len};
ghost use Rattle.rv_image_types.specs.declared.images.ImageParts.{ImageParts};
ghost use Rattle.rv_image_types.specs.Image.{IsLink};
ghost use Rattle.part_box.specs.declared.view.Receiving.{Receiving};
ghost use Rattle.part_box.specs.declared.view.Sending.{Sending};
ghost use Rattle.cl_rank.specs.RankSides.{AreChannelsOf, receiver_of, sender_of};
ghost use Rattle.cl_rank.specs.Turning.{Answered};
ghost use Rattle.cl_record.specs.BoxKeys.{AgreeOn};
ghost use Rattle.cl_record.specs.Leaving.{HaveRoom};
ghost use Rattle.cl_record.specs.Plans.{HasPlans};
ghost use Rattle.cl_record.specs.Seats.{GoesOn, Station, station};
ghost use Rattle.cl_record.specs.declared.plans.Plan.{Plan};
ghost use Rattle.cl_run.specs.Driver.{Agree, AreJoined, AreSeated, HaveKeys, IsDriver, IsLeftBy, IsStoppedAt};
ghost use Rattle.cl_run.specs.Driver.{KeysAgree, SlotGoes, left, stations};
ghost use Rattle.cl_run.specs.Going.{GoesRounds, RunsToEnd};
ghost use Rattle.cl_run.specs.UnderWay.{IsUnderWay};

use crate::closing::close;
use crate::looks::Watch;
use cl_journal::Hub;
use cl_rank::{BoxId, PlainDesk, agree};
use cl_record::{Lists, Plan, Record, Seat, Wiring, load_seats};
use part_channel::Channel;
use rv_image_types::{Image, Link};
use std::alloc::{AllocError, Global};

/// All ranks, by their numbers, the hub, and the channels, by the numbers of their links.
#[derive(Drop)]
pub(crate) struct Driver<'a> {
    pub seats: Vec<Seat<'a>>,
    pub hub: Hub,
    pub channels: Vec<Channel>,
}

/// The two keys of a box, of its sender's seat and its receiver's, agree. Nothing changes.
fn agree_of(from: &mut Seat, to: &mut Seat, channels: &[Channel], place: BoxId)
    requires sender { AreChannelsOf (station from.old).rank.site.version channels.now (station from.old).sides }
    requires receiver { AreChannelsOf (station to.old).rank.site.version channels.now (station to.old).sides }
    requires sends { (s : Sending) × (sender_of (station from.old).sides place.link place.part ≡ Some s) }
    requires receives { (r : Receiving) × (receiver_of (station to.old).sides place.link place.part ≡ Some r) }
    ensures from { from.new ≡ from.old }
    ensures to { to.new ≡ to.old }
    ensures agreed { (s : Sending) (r : Receiving)
        → sender_of (station from.old).sides place.link place.part ≡ Some s
        → receiver_of (station to.old).sides place.link place.part ≡ Some r
        → AgreeOn (station from.old).rank.site.version s r }
{
    agree(&mut from.rank, &mut to.rank, channels, place);
}

/// What has a rank's keys, and can tell what those of a box know of each other.
trait Sits {
    ghost use Rattle.cl_record.specs.Seats.{Station};

    // what contracts see of it
    ghost seen: { Self → Station };

    /// The two keys of a box, of its sender and its receiver, agree. Nothing changes.
    fn agree_with(&mut self, receiver: &mut Self, channels: &[Channel], place: BoxId)
        requires sender { AreChannelsOf (seen self.old).rank.site.version channels.now (seen self.old).sides }
        requires receiver { AreChannelsOf (seen receiver.old).rank.site.version channels.now (seen receiver.old).sides }
        requires sends { (s : Sending) × (sender_of (seen self.old).sides place.link place.part ≡ Some s) }
        requires receives { (r : Receiving) × (receiver_of (seen receiver.old).sides place.link place.part ≡ Some r) }
        ensures sender { self.new ≡ self.old }
        ensures receiver { receiver.new ≡ receiver.old }
        ensures agreed { (s : Sending) (r : Receiving)
            → sender_of (seen self.old).sides place.link place.part ≡ Some s
            → receiver_of (seen receiver.old).sides place.link place.part ≡ Some r
            → AgreeOn (seen self.old).rank.site.version s r };
}

impl<'a> Sits for Seat<'a> {
    ghost use Rattle.cl_record.specs.Seats.{station};

    ghost seen = { station };

    fn agree_with(&mut self, receiver: &mut Seat<'a>, channels: &[Channel], place: BoxId) {
        agree_of(self, receiver, channels, place);
    }
}

/// The two keys of a box, of those that sit at the link's two ranks, agree. Nothing changes.
// generic, since of two parts of a list nothing is known once they are joined where its elements borrow, as seats do
fn agree_on<S: Sits>(seats: &mut [S], channels: &[Channel], link: Link, place: BoxId)
    requires link { IsLink (length seats.old) link }
    requires keys { HaveKeys (map S.seen seats.old) channels.now link place.link place.part }
    ensures same { seats.new ≡ seats.old }
    ensures agree { KeysAgree (map S.seen seats.old) link place.link place.part }
{
    if link.from < link.to {
        let (low, high) = seats.split_at_mut(link.to as usize);
        low[link.from as usize].agree_with(&mut high[0], channels, place);
    } else {
        let (low, high) = seats.split_at_mut(link.from as usize);
        high[0].agree_with(&mut low[link.to as usize], channels, place);
    }
}

impl<'a> Driver<'a> {
    /// All ranks as they are loaded, a hub that was never called, and new channels.
    pub(crate) fn load(
        alloc: Global,
        image: &Image,
        plans: &'a [Plan],
    ) -> Result<Driver<'a>, AllocError>
        requires { HasPlans image.now plans.now }
        ensures { IfOk result (IsDriver image.now plans.now) }
    {
        // ghost: brings into scope that each link joins two ranks; no effect at run time
        let _parts = image.parts();
        let Wiring { channels, ends } = Wiring::of(alloc, image)?;
        let seats = load_seats(alloc, image, plans, ends)?;
        let hub = Hub::start(alloc, image)?;
        Ok(Driver {
            seats,
            hub,
            channels,
        })
    }

    /// The two keys of the box that this rank asked last, if it asked one, agree. Nothing changes.
    fn agree(&mut self, rank: u8)
        requires there { rank < vec_len self.old.seats }
        requires joined { AreJoined self.old }
        ensures seats { self.new.seats.items ≡ self.old.seats.items }
        ensures hub { self.new.hub ≡ self.old.hub }
        ensures channels { self.new.channels.items ≡ self.old.channels.items }
        ensures agree { (s : Station) → slice_get (stations self.old) rank ≡ Some s
            → Agree self.old.hub.links (stations self.old) s.asked }
    {
        let asked = self.seats[rank as usize].rank.asked_box;
        let Some(place) = asked else {
            return;
        };
        let link = self.hub.links()[place.link as usize];
        agree_on(
            self.seats.as_mut_slice(),
            self.channels.as_slice(),
            link,
            place,
        );
    }

    /// One slot of the order: a turn of this rank, unless it is stopped. Whether anything was done.
    #[inline(always)]
    pub(crate) fn slot(&mut self, rank: u8) -> bool
        requires there { rank < vec_len self.old.seats }
        requires joined { AreJoined self.old }
        ensures { SlotGoes rank self.old self.new result }
    {
        if self.seats[rank as usize].stop.is_some() {
            return false;
        }
        let channels = self.channels.as_slice();
        let mut desk = PlainDesk { hub: &mut self.hub };
        self.seats[rank as usize].turn(&(), &mut desk, channels);
        self.agree(rank);
        true
    }

    /// One round: each rank that the order names, in that order, watched by this one. Whether anything was done.
    pub(crate) fn round<W: Watch>(&mut self, order: &[u8], watch: &mut W) -> bool
        requires joined { AreJoined self.old }
        requires there { All (λ r. r < vec_len self.old.seats) order.now }
        ensures seated { (plans : List Plan) → AreSeated plans self.old → AreSeated plans self.new }
        ensures goes { (image : ImageParts) (plans : List Plan) (k : ℕ) → AreSeated plans self.old
            → IsUnderWay image plans order.now (stations self.old) self.old.hub (k * length order.now)
            → IsUnderWay image plans order.now (stations self.new) self.new.hub ((k + 1) * length order.now) }
        ensures joined { AreJoined self.new }
        ensures count { vec_len self.new.seats ≡ vec_len self.old.seats }
        ensures done { result ≡ false → (place : ℕ) → place < length order.now
            → IsStoppedAt (stations self.new) (slice_index order.now place) }
        ensures less { result ≡ true → left self.new < left self.old }
        ensures no_more { left self.new ≤ left self.old }
    {
        let mut moved = false;
        for rank in order {
            let goes_on = self.slot(*rank);
            watch.see(self.seats.get(*rank as usize), *rank);
            moved = moved || goes_on;
        }
        moved
    }

    /// Plain turns of a rank that is alone, as many as follow one another, each in a slot of its own, where the order has
    /// one. Nothing is done where there are more, or the rank is stopped.
    fn go_on(&mut self, order: &[u8])
        requires joined { AreJoined self.old }
        requires there { All (λ r. r < vec_len self.old.seats) order.now }
        ensures { GoesRounds order.now self.old self.new }
    {
        if order.len() != 1 || self.seats.len() != 1 || self.seats[0].stop.is_some() {
            return;
        }
        self.seats[0].run_plain(u64::MAX);
    }

    /// Round by round, until each rank that the order names is stopped. A rank that is alone goes on by itself.
    fn run_alone(&mut self, order: &[u8])
        requires joined { AreJoined self.old }
        requires there { All (λ r. r < vec_len self.old.seats) order.now }
        ensures { RunsToEnd order.now self.old self.new }
    {
        loop {
            self.go_on(order);
            if !self.round(order, &mut ()) {
                return;
            }
        }
    }

    /// Round by round, until each rank that the order names is stopped.
    pub(crate) fn run(&mut self, order: &[u8])
        requires joined { AreJoined self.old }
        requires there { All (λ r. r < vec_len self.old.seats) order.now }
        ensures goes { (image : ImageParts) (plans : List Plan) → AreSeated plans self.old
            → IsUnderWay image plans order.now (stations self.old) self.old.hub 0
            → (slot : ℕ) × IsUnderWay image plans order.now (stations self.new) self.new.hub slot }
        ensures done { (place : ℕ) → place < length order.now
            → IsStoppedAt (stations self.new) (slice_index order.now place) }
        ensures seated { (plans : List Plan) → AreSeated plans self.old → AreSeated plans self.new }
    {
        if order.len() == 1 && self.seats.len() == 1 {
            self.run_alone(order);
        } else {
            self.run_all(order);
        }
    }

    /// What the run left, in lists that have room for it. A rank that hasn't stopped is told to, here.
    pub(crate) fn into_record(self, lists: Lists) -> Record
        requires joined { AreJoined self }
        requires room { HaveRoom (length self.seats.items) (length self.hub.links) lists }
        ensures { IsLeftBy self.entry result }
    {
        let Driver {
            seats,
            hub,
            channels,
        } = self;
        let mut lists = lists;
        for seat in seats {
            lists.add(close(seat));
        }
        lists.close(hub, channels)
    }
}
