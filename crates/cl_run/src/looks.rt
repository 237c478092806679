//! What is seen of the turns of a run: whether any of them changed anything but clocks and counts of turns.

use cl_rank::{BoxId, RankState};
use cl_record::Seat;
use rv_hart::Mode;
use rv_image_types::{HARTS_MAX, RANKS_MAX};

/// Who is shown each seat behind its slot.
pub(crate) trait Watch {
    /// Sees the seat of the rank of this number behind a slot of it, if there is one.
    fn see(&mut self, seat: Option<&Seat<'_>>, rank: u8);
}

/// Nobody watches.
impl Watch for () {
    #[inline(always)]
    fn see(&mut self, _seat: Option<&Seat<'_>>, _rank: u8) {}
}

/// As many places as there are harts of all ranks.
const PLACES: usize = RANKS_MAX as usize * HARTS_MAX as usize;

/// The box that each hart of each rank asked when it was seen last, and whether anything changed of late. A hart that
/// waits asks the same box again until it gets something there. So where each hart waits before and behind its turn, and
/// asks the box that it asked the time before, nothing has changed since.
#[derive(Drop)]
pub(crate) struct Looks {
    boxes: [Option<BoxId>; PLACES],
    changed: bool,
}

/// Whether two turns asked the same box, or both none.
fn is_same(one: Option<BoxId>, other: Option<BoxId>) -> bool {
    match (one, other) {
        (None, None) => true,
        (Some(one), Some(other)) => one.link == other.link && one.part == other.part,
        _ => false,
    }
}

/// Whether a hart of the rank runs.
pub(crate) fn has_running(state: &RankState) -> bool {
    state
        .harts
        .iter()
        .any(|hart| matches!(hart.mode(), Mode::Running))
}

/// The hart of the seat's last turn, if it took one.
fn last_hart(seat: &Seat<'_>) -> Option<u8> {
    let order = &seat.plan.order;
    let place = if seat.next == 0 {
        order.len()
    } else {
        seat.next
    };
    order.get(place.saturating_sub(1)).copied()
}

impl Looks {
    /// Nothing was seen yet.
    pub(crate) fn new() -> Looks {
        Looks {
            boxes: [None; PLACES],
            changed: false,
        }
    }

    /// Whether anything changed since this was asked last.
    pub(crate) fn changed(&mut self) -> bool {
        let changed = self.changed;
        self.changed = false;
        changed
    }

    /// Notes the box that a hart of a rank asked.
    fn note(&mut self, rank: u8, hart: u8, asked: Option<BoxId>) {
        let place = HARTS_MAX * (rank % RANKS_MAX) + hart % HARTS_MAX;
        if let Some(last) = self.boxes.get_mut(usize::from(place)) {
            if !is_same(*last, asked) {
                self.changed = true;
                *last = asked;
            }
        }
    }
}

impl Watch for Looks {
    fn see(&mut self, seat: Option<&Seat<'_>>, rank: u8) {
        let Some(seat) = seat else {
            return;
        };
        if has_running(&seat.rank.state) {
            self.changed = true;
        }
        if let Some(hart) = last_hart(seat) {
            self.note(rank, hart, seat.rank.asked_box);
        }
    }
}
