//! The line of an instruction up to what it left: what is known before it is done.

ghost use Rattle.std.specs.Prelude.{◌≡◌, ◌++◌, ◌<◌, IfOk, OnOk, vec_len};
ghost use Rattle.cl_state.specs.Room.{rank_of};
ghost use Rattle.rvmc_list.specs.Fronts.{ahead_in, ahead_met, front_of, spot_met};
ghost use Rattle.rvmc_list.specs.Keeping.{AreKept};

use crate::kept::{Texts, put_spot};
use cl_machine::Step;
use cl_state::RankState;
use rv_hart::Hart;
use rv_image_types::Symbol;
use rv_memory::Cause;
use rvmc_places::{put_place, put_trapped};
use rvmc_sights::{Ahead, ahead_of, put_head};
use std::io;

/// Adds the instruction at a hart's pc behind its address, and says what it will leave.
fn put_met(
    text: &mut Vec<u8>,
    texts: &mut Texts,
    symbols: &[Symbol],
    word: Option<u32>,
    before: &Hart,
) -> io::Result<Option<Ahead>>
    requires kept { AreKept symbols.now texts.old }
    ensures text { OnOk result (text.new.items ≡ text.old.items ++ spot_met symbols.now before.now.pc word) }
    ensures ahead { IfOk result (λ ahead. ahead ≡ ahead_met word before.now) }
    ensures kept { OnOk result (AreKept symbols.now texts.new) }
{
    let at = before.pc();
    let Some(word) = word else {
        put_place(text, symbols, at)?;
        text.extend_from_slice(b": ")?;
        put_trapped(text, false, Cause::InstructionAccess)?;
        return Ok(None);
    };
    match put_spot(text, texts, symbols, at, word)? {
        None => Ok(None),
        Some(instr) => Ok(Some(ahead_of(&instr, before))),
    }
}

/// Adds what is known of a step before it is done, and says what it will leave.
pub(crate) fn put_front(
    text: &mut Vec<u8>,
    texts: &mut Texts,
    symbols: &[Symbol],
    place: u64,
    own: &RankState,
    step: &Step,
) -> io::Result<Option<Ahead>>
    requires hart { step.now.hart < vec_len own.now.harts }
    requires kept { AreKept symbols.now texts.old }
    ensures text { OnOk result (text.new.items ≡ text.old.items ++ front_of symbols.now place step.now (rank_of own.now)) }
    ensures ahead { IfOk result (λ ahead. ahead ≡ ahead_in step.now (rank_of own.now)) }
    ensures kept { OnOk result (AreKept symbols.now texts.new) }
{
    let hart = &own.harts[usize::from(step.hart())];
    let word = own.memory.text_word(hart.pc());
    put_head(text, place, step)?;
    put_met(text, texts, symbols, word, hart)
}
