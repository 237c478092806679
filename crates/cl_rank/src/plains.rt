//! Plain turns of a hart, one after another.

ghost use Rattle.std.specs.Prelude.{◌≡◌, ◌≤◌, ◌<◌, ◌+◌, ◌^◌, List, length, vec_len};
ghost use Rattle.part_channel.specs.Channels.{ChannelView};
ghost use Rattle.cl_state.specs.Room.{rank_of};
ghost use Rattle.cl_rank.specs.Plains.{IsHartStep, IsPlainStep, IsPlainTurn, Repeats};
ghost use Rattle.cl_rank.specs.Views.{IsOver, view_of};

use crate::ranks::Rank;
use cl_journal::CLOCK_MAX;
use cl_plain::step_running;
use cl_state::RankState;
use rv_hart::Hart;
use rv_memory::RankMemory;

/// Does instructions of a running hart, at most so many, until one isn't plain: how many. The hart and the memory stay at
/// hand from one to the next. A function of its own, so that the step stands inside its loop.
#[inline(never)]
fn step_hart(hart: &mut Hart, memory: &mut RankMemory, most: u64) -> u64
    ensures within { result ≤ most }
    ensures steps { Repeats IsHartStep result (hart.old, memory.old) (hart.new, memory.new) }
{
    let mut done: u64 = 0;
    while done < most {
        if !step_running(hart, memory) {
            return done;
        }
        done += 1;
    }
    done
}

/// Does the same for a hart of a rank, whose clock goes on by as many.
fn step_plains(state: &mut RankState, hart: u8, most: u64) -> u64
    requires hart { hart < vec_len state.old.harts }
    requires low { state.old.clock + most < 2 ^ 62 }
    ensures within { result ≤ most }
    ensures steps { Repeats (IsPlainStep hart) result (rank_of state.old) (rank_of state.new) }
    ensures none { result ≡ 0 → state.new ≡ state.old }
    ensures clock { state.new.clock ≡ state.old.clock + result }
    ensures harts { vec_len state.new.harts ≡ vec_len state.old.harts }
{
    let done = step_hart(&mut state.harts[hart as usize], &mut state.memory, most);
    state.clock += done;
    done
}

impl Rank {
    /// Takes plain turns of a hart that is there, one after another and at most so many: how many. Each does one
    /// instruction, and asks nobody. It ends where the hart's next turn isn't plain, at the budget, at the greatest
    /// clock, and where there is no memory; then the next turn is to be taken by itself, or there is none.
    pub fn run_plain(&mut self, hart: u8, most: u64) -> u64
        requires hart { hart < vec_len self.old.state.harts }
        ensures within { result ≤ most }
        ensures turns { Repeats (IsPlainTurn hart) result (view_of self.old) (view_of self.new) }
        ensures left { length self.old.trace.events + result ≤ self.old.budget }
        ensures own { (channels : List ChannelView) → IsOver self.old channels → IsOver self.new channels }
        ensures budget { self.new.budget ≡ self.old.budget }
        ensures harts { vec_len self.new.state.harts ≡ vec_len self.old.state.harts }
    {
        if self.is_at_other {
            return 0;
        }
        let taken = self.trace.len();
        let clock = self.state.clock;
        if taken >= self.budget || clock >= CLOCK_MAX || self.trace.reserve().is_err() {
            return 0;
        }
        let most = most.min(self.budget - taken).min(CLOCK_MAX - clock);
        let done = step_plains(&mut self.state, hart, most);
        self.is_at_other = done < most;
        if done > 0 {
            self.asked_box = None;
            self.roomy = None;
            self.trace.push_plains(hart, clock, done);
        }
        done
    }
}
