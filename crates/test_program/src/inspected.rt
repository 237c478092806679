//! What words of `debug` are refused for, and what is told of harts that wait.

ghost use Rattle.std.specs.Prelude.{◌≡◌, [], ◌∷◌, ℕ, List, OnOk, Some, codes, false};
ghost use Rattle.cl_debug.specs.Shown.{HasNoSymbol};
ghost use Rattle.cl_debug.specs.declared.faults.DebugFault.TheVariants.{NoSymbol};
ghost use Rattle.cl_state.specs.Room.{rank_of};
ghost use Rattle.rv_hart.specs.State.{State};
ghost use Rattle.rv_hart.specs.declared.state.Mode.TheVariants.{Waiting};
ghost use Rattle.rv_hart.specs.declared.state.Wait.{Wait};
ghost use Rattle.rvmc_inspect.specs.Waits.{waits};
ghost use Rattle.rvmc_inspect.specs.declared.awaited.Wait.TheVariants.{Receiver};
ghost use Rattle.rvmc_words.specs.declared.debug.DebugWord.TheVariants as word;
ghost use Rattle.rvmc_words.specs.declared.debug.Spot.TheVariants.{Name};
ghost use Rattle.test_program.specs.Texts.{StandsBehind};

use cl_debug::Debugger;
use cl_state::RankState;
use mp_hub::HubState;
use part_box::Settled;
use rvmc_inspect::{Told, put_harts, tell_all};
use rvmc_words::DebugWord;
use std::alloc::{AllocError, Global};

/// A name that the image hasn't is told as an unknown name, and as no missing rank, whether the rank is there or not.
pub fn an_unknown_name_is_told_as_that(
    alloc: Global,
    debugger: &mut Debugger,
    words: &[DebugWord],
) -> Told
    ensures { (rank count : ℕ) (name : List ℕ) → words.now ≡ word.Bytes rank (Name name) count ∷ []
        → HasNoSymbol debugger.old.image name → result.fault ≡ Some NoSymbol }
{
    tell_all(alloc, debugger, words)
}

/// Of a hart that waits for two things both are told.
pub fn all_that_is_waited_for_is_told(
    alloc: Global,
    text: &mut Vec<u8>,
    hub: &HubState,
    boxes: &[[Settled; 16]],
    rank: usize,
    own: &RankState,
) -> Result<(), AllocError>
    ensures { (hart : State) (wait : Wait) → (rank_of own.now).harts ≡ hart ∷ [] → hart.mode ≡ Waiting wait
        → waits hub.now boxes.now (rank_of own.now) 0 ≡ Receiver 1 ∷ Receiver 2 ∷ []
        → OnOk result
        (StandsBehind (codes " for rank 1 to receive; rank 2 to receive") text.old.items text.new.items) }
{
    put_harts(alloc, text, &[], hub, boxes, rank, own, false)
}
