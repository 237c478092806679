//! A step of a running hart, and of a hart of a rank.

ghost use Rattle.std.specs.Prelude.{◌≡◌, ◌<◌, IsFalse, IsTrue, Some, slice_get, vec_len, false, true};
ghost use Rattle.rv_hart.specs.State.{State};
ghost use Rattle.rv_hart.specs.Stepped.{stepped};
ghost use Rattle.rv_hart.specs.Stores.{IsThere, store_range};
ghost use Rattle.rv_hart.specs.declared.state.Mode.TheVariants.{Running};
ghost use Rattle.rv_memory.specs.Access.{word_at};
ghost use Rattle.cl_state.specs.declared.asking.Ask.TheVariants as ask;
ghost use Rattle.cl_state.specs.declared.asking.Answer.TheVariants.{Alone};
ghost use Rattle.cl_state.specs.Asked.{asked, is_ecall as is_ecall_of};
ghost use Rattle.cl_state.specs.Room.{rank_of};
ghost use Rattle.cl_state.specs.Told.{told};
ghost use Rattle.cl_deeds.specs.Turns.{AllStopped};

use cl_state::RankState;
use mp_types::Stamp;
use rv_hart::{Did, Hart, Mode, step};
use rv_memory::RankMemory;

/// Does the instruction of a running hart, where it is no ECALL. Else nothing is done: the hart isn't running, its word
/// is ECALL's, or there is no memory for the page that the instruction stores to. Where that page is there no memory is
/// taken.
///
/// The step itself tells that it met an ECALL, of which it does nothing. So the word isn't looked at before.
#[inline(always)]
pub fn step_running(hart: &mut Hart, memory: &mut RankMemory) -> bool
    ensures running { IsTrue result → hart.old.mode ≡ Running }
    ensures no_call { IsTrue result → is_ecall_of (word_at memory.old hart.old.pc) ≡ false }
    ensures hart { IsTrue result → hart.new ≡ (stepped hart.old memory.old).state }
    ensures memory { IsTrue result → memory.new ≡ (stepped hart.old memory.old).memory }
    ensures same_hart { IsFalse result → hart.new ≡ hart.old }
    ensures same_memory { IsFalse result → memory.new ≡ memory.old }
    ensures other { IsFalse result → hart.old.mode ≡ Running → IsThere memory.old (store_range hart.old memory.old)
        → is_ecall_of (word_at memory.old hart.old.pc) ≡ true }
{
    match hart.mode() {
        Mode::Running => {}
        _ => return false,
    }
    let Ok(did) = step(hart, memory) else {
        return false;
    };
    match did {
        Did::Call => false,
        _ => true,
    }
}

/// Does the same for a hart of a rank, at this stamp.
#[inline(always)]
#[tactic(auto, unfolding(cl_state::specs::Asked::asked, cl_state::specs::Told::told, cl_state::specs::Asked::doing))]
pub fn step_plain(state: &mut RankState, hart: u8, stamp: Stamp) -> bool
    requires { hart < vec_len state.old.harts }
    ensures asked { IsTrue result → asked (rank_of state.old) hart ≡ ask.Plain }
    ensures told { IsTrue result → rank_of state.new ≡ told (rank_of state.old) hart Alone stamp }
    ensures active { IsTrue result → ¬ (AllStopped (rank_of state.old)) }
    ensures clock { IsTrue result → state.new.clock ≡ stamp }
    ensures none { IsFalse result → state.new ≡ state.old }
    ensures other { IsFalse result → (at : State) → slice_get state.old.harts.items hart ≡ Some at → at.mode ≡ Running
        → IsThere state.old.memory (store_range at state.old.memory)
        → is_ecall_of (word_at state.old.memory at.pc) ≡ true }
    ensures harts { vec_len state.new.harts ≡ vec_len state.old.harts }
{
    if !step_running(&mut state.harts[hart as usize], &mut state.memory) {
        return false;
    }
    state.clock = stamp;
    true
}
