//! Whether a rank looks in vain, as its own thread sees it.

use crate::rests::RestingDesk;
use crate::roll::Roll;
use cl_rank::{BoxId, RankState, Stop};
use cl_record::Seat;
use rv_hart::Mode;
use std::sync::{MutexGuard, Wait};

/// How many turns in a row are in vain before a rank rests behind each, also where it asks no hub.
const PATIENCE: u64 = 64;

/// The turns of a rank in a row that changed nothing, and where the roll stood meanwhile.
///
/// A hart that waits asks the same box again until it gets something there. So where no hart of the rank runs, none is told
/// anything by the hub, and each asks the box that it asked the time before, nothing changed by the turns before the last.
#[derive(Drop)]
pub(crate) struct Lookout<'a> {
    roll: Option<&'a Roll>,
    rank: u8,
    /// How many turns give each hart of the plan two.
    whole: u64,
    /// The box that each hart asked last, by its link and its number there.
    boxes: [Option<(u8, u8)>; 4],
    /// How many turns in a row changed nothing.
    turns: u64,
    /// The number of the turn that follows on them.
    next: u64,
    /// The roll's last call as they began.
    begun: u64,
    /// The roll's last call as it was seen last, and how many of these turns there were when it was seen first.
    seen: u64,
    since: u64,
    /// Held once nobody can go on, while the rank uses up its turns.
    place: Option<MutexGuard<'a, ()>>,
}

/// Whether a hart of the rank runs.
#[inline(always)]
fn runs(state: &RankState) -> bool {
    for hart in state.harts.iter() {
        if matches!(hart.mode(), Mode::Running) {
            return true;
        }
    }
    false
}

/// The hart of the seat's last turn.
fn last_hart(seat: &Seat<'_>) -> Option<u8> {
    let order = seat.plan.order.as_slice();
    match seat.next.checked_sub(1) {
        Some(place) => order.get(place).copied(),
        None => order.last().copied(),
    }
}

/// The link of a box, and its number there.
fn place_of(asked: Option<BoxId>) -> Option<(u8, u8)> {
    asked.map(|place| (place.link, place.part))
}

impl<'a> Lookout<'a> {
    /// Of a rank that took no turn, by a plan that gives so many turns until each of its harts had one.
    pub(crate) fn new(roll: Option<&'a Roll>, rank: u8, round: usize) -> Lookout<'a> {
        Lookout {
            roll,
            rank,
            whole: (round as u64).saturating_mul(2),
            boxes: [None; 4],
            turns: 0,
            next: 0,
            begun: 0,
            seen: 0,
            since: 0,
            place: None,
        }
    }

    /// Notes the box that the seat's last turn asked. Whether the same hart asked the same box the time before.
    fn is_same(&mut self, seat: &Seat<'_>) -> bool {
        let asked = place_of(seat.rank.asked_box);
        let Some(hart) = last_hart(seat) else {
            return false;
        };
        match self.boxes.get_mut(usize::from(hart)) {
            None => false,
            Some(last) => {
                let same = *last == asked;
                *last = asked;
                same
            }
        }
    }

    /// Calls the roll where it wasn't called since these turns began, and answers it where it was and all harts looked in
    /// vain behind the call. Whether nobody can go on.
    fn attend(&mut self, roll: &Roll) -> bool {
        if roll.is_over() {
            return true;
        }
        let call = roll.last();
        if self.turns <= 1 {
            self.begun = call;
        }
        if self.turns <= 1 || self.seen != call {
            self.seen = call;
            self.since = self.turns;
        }
        if self.turns.wrapping_sub(self.since) < self.whole {
            return false;
        }
        if self.seen == self.begun {
            roll.call_behind(call);
            return false;
        }
        roll.answer(self.rank, call)
    }

    /// Counts a turn behind which no hart of the rank runs. Whether nobody can go on.
    #[inline(never)]
    fn count(&mut self, seat: &Seat<'_>, desk: &mut RestingDesk<'_>, number: u64) -> bool {
        let same = self.is_same(seat);
        if desk.take_told() || !same {
            self.turns = 0;
            return false;
        }
        if self.next != number {
            self.turns = 0;
        }
        self.next = number.wrapping_add(1);
        self.turns = self.turns.saturating_add(1);
        // a rank that isn't told when nobody can go on uses up its turns without it
        let Some(roll) = self.roll else {
            return false;
        };
        if self.turns > PATIENCE {
            desk.be_patient(self.turns / PATIENCE);
        }
        self.attend(roll)
    }

    /// Sees the seat behind its turn of this number, which it took at this desk. Whether nobody can go on.
    #[inline(always)]
    pub(crate) fn see(&mut self, seat: &Seat<'_>, desk: &mut RestingDesk<'_>, number: u64) -> bool {
        if self.place.is_some() || runs(&seat.rank.state) {
            self.turns = 0;
            return false;
        }
        self.count(seat, desk, number)
    }

    /// Whether a rank had left that could have gone on, once nobody can: then those that wait aren't stuck for ever.
    pub(crate) fn is_cut(&self) -> bool {
        match self.roll {
            None => false,
            Some(roll) => roll.is_cut(),
        }
    }

    /// Waits until the rank may use up its turns. Nothing is looked for from here on.
    #[inline(never)]
    pub(crate) fn queue<R: Wait>(&mut self, rt: &R) {
        if let Some(roll) = self.roll {
            self.place = Some(roll.queue(rt));
        }
    }

    /// The rank stopped for this cause: it leaves the roll where all its harts are stopped.
    pub(crate) fn leave(&self, stop: Option<Stop>) {
        if let (Some(roll), Some(Stop::AllEnded)) = (self.roll, stop) {
            roll.leave(self.rank);
        }
    }
}
