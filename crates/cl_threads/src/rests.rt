//! The hub as a rank on its own thread asks it: behind a call in vain it rests before its next turn.

use crate::gates::{Gate, Passage};
use cl_journal::{Hub, HubFault};
use cl_rank::{Desk, LockedDesk};
use mp_types::{Reply, Request, Stamp};
use std::hint::spin_loop;
use std::sync::{Mutex, Wait};
use std::thread::yield_now;

/// The longest rest, in short waits of the processor.
const MOST: u32 = 64;

/// The hub under its lock, which tells when a rank was answered that nothing is there. Then the rank rests and lets other
/// threads run: it doesn't wait the first time, then twice as long each time, up to a bound, as long as it does nothing
/// but ask in vain. So it leaves the lock to the ranks that have something to tell, and takes fewer turns until then.
#[derive(Drop)]
pub(crate) struct RestingDesk<'a> {
    desk: LockedDesk<'a>,
    /// The stamp of the last call, if it was in vain. Where it is the rank's clock no other turn came behind it.
    vain: Option<Stamp>,
    /// How long the next rest waits.
    waits: u32,
    /// Whether there is a rest before the next turn.
    pub(crate) is_due: bool,
    /// Whether the rank was told something since this was asked last.
    told: bool,
    /// How often it rests before its next turn.
    rests: u64,
    /// Whether it rests no more.
    hurries: bool,
}

impl<'a> RestingDesk<'a> {
    pub(crate) fn new(hub: &'a Mutex<Hub>) -> RestingDesk<'a> {
        RestingDesk {
            desk: LockedDesk { hub },
            vain: None,
            waits: 0,
            is_due: false,
            told: false,
            rests: 1,
            hurries: false,
        }
    }

    /// Whether the rank was told anything, but that nothing is there, since this was asked last.
    pub(crate) fn take_told(&mut self) -> bool {
        let told = self.told;
        self.told = false;
        told
    }

    /// The rank rests before its next turn too, whatever that turn was, and so often: the longer it looked in vain, the
    /// longer it may rest without being late for long.
    pub(crate) fn be_patient(&mut self, rests: u64) {
        self.is_due = !self.hurries;
        self.rests = rests;
    }

    /// The rank rests no more: nothing will ever be there.
    pub(crate) fn hurry(&mut self) {
        self.hurries = true;
        self.is_due = false;
    }

    /// Rests behind a call in vain. Where other ranks are held until this one comes to its next turn there is no rest,
    /// and those behind the next calls are short again.
    #[inline(never)]
    pub(crate) fn rest<G: Gate + Drop>(&mut self, passage: &Passage<G>) {
        self.is_due = false;
        let rests = self.rests;
        self.rests = 1;
        for _ in 0..rests {
            if !self.rest_once(passage) {
                return;
            }
        }
        self.waits = self.waits.saturating_mul(2).clamp(1, MOST);
    }

    /// Rests, and lets other threads run. Whether the rank may rest on.
    fn rest_once<G: Gate + Drop>(&mut self, passage: &Passage<G>) -> bool {
        for _ in 0..self.waits {
            if passage.is_awaited() {
                break;
            }
            spin_loop();
        }
        if passage.is_awaited() {
            self.waits = 0;
            return false;
        }
        yield_now();
        true
    }
}

impl<'a, R: Wait> Desk<R> for RestingDesk<'a> {
    ghost use Rattle.cl_journal.specs.Replaying.{HubHistory};
    ghost use Rattle.cl_rank.specs.Turning.{Answered};

    // as of the hub under its lock
    ghost gives = { λ before rank hart clock request told after. (j : HubHistory) ×
        (k : HubHistory) × Answered j rank hart clock request told k };

    fn call(
        &mut self,
        rt: &R,
        rank: u8,
        hart: u8,
        clock: Stamp,
        request: Request,
    ) -> Result<(Reply, Stamp), HubFault> {
        if self.vain != Some(clock) {
            self.waits = 0;
        }
        let told = self.desk.call(rt, rank, hart, clock, request);
        self.vain = match &told {
            Ok((Reply::NotYet, stamp)) => Some(*stamp),
            _ => None,
        };
        self.told = self.told || self.vain.is_none();
        self.is_due = self.vain.is_some() && !self.hurries;
        told
    }
}
