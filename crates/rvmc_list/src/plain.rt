//! The lines of steps that do an instruction: each begins before it, and ends behind it.

ghost use Rattle.std.specs.Prelude.{◌≡◌, ◌∷◌, ◌++◌, [], IfErr, OnOk, true};
ghost use Rattle.cl_replay.specs.InnerReplaying.{StepBreaks};
ghost use Rattle.cl_replay.specs.Steps.{Leads};
ghost use Rattle.rvmc_list.specs.Fronts.{PutsPlain};
ghost use Rattle.rvmc_list.specs.Folding.{is_plain as is_plain_of};
ghost use Rattle.rvmc_list.specs.Keeping.{AreKept};
ghost use Rattle.rvmc_list.specs.Phases.{phase_text};
ghost use Rattle.rvmc_list.specs.Putting.{PutsPlainLine};

use crate::folding::close;
use crate::fronts::put_front;
use crate::kept::Texts;
use crate::listing::Due;
use crate::phases::put_phase;
use crate::walk::{hart_after, has_overflowed_after};
use cl_machine::{KindRef, Step};
use cl_replay::{ClusterState, ReplayFault};
use cl_trace::Bare;
use rv_image_types::Symbol;
use rvmc_sights::put_rest;
use std::io;

/// Whether a step does an instruction.
pub(crate) fn is_plain(step: &Step) -> bool
    ensures { result ≡ is_plain_of step.now.kind }
{
    matches!(step.kind(), KindRef::Bare(Bare::Plain))
}

/// Does a step that does an instruction, and adds its line without a newline.
fn put_plain(
    state: &mut ClusterState,
    text: &mut Vec<u8>,
    texts: &mut Texts,
    symbols: &[Symbol],
    place: u64,
    step: &Step,
) -> Result<(), ReplayFault>
    requires plain { is_plain_of step.now.kind ≡ true }
    requires kept { AreKept symbols.now texts.old }
    ensures leads { OnOk result (Leads state.old step.now state.new) }
    ensures puts { OnOk result (PutsPlain symbols.now state.old place step.now state.new text.old.items text.new.items) }
    ensures kept { OnOk result (AreKept symbols.now texts.new) }
    ensures fault { IfErr result (StepBreaks state.old place step.now) }
{
    let Some(own) = state.ranks.get(usize::from(step.rank())) else {
        return state.step_at(place, step);
    };
    if usize::from(step.hart()) >= own.harts.len() {
        return state.step_at(place, step);
    }
    let ahead = put_front(text, texts, symbols, place, own, step)?;
    state.step_at(place, step)?;
    let Some(after) = hart_after(state, step) else {
        return Ok(());
    };
    put_rest(text, ahead, after, has_overflowed_after(state, step))?;
    Ok(())
}

/// Adds the phase of a step, if it has one, and ends the line.
fn end_line(text: &mut Vec<u8>, phase: Option<u64>) -> io::Result<()>
    ensures { OnOk result (text.new.items ≡ text.old.items ++ (phase_text phase ++ 10 ∷ [])) }
{
    put_phase(text, phase)?;
    text.push(b'\n')?;
    Ok(())
}

/// Does a step that does an instruction, and adds its line behind what was begun.
pub(crate) fn put_plain_line(
    state: &mut ClusterState,
    text: &mut Vec<u8>,
    texts: &mut Texts,
    symbols: &[Symbol],
    begun: Option<u64>,
    due: &Due<'_>,
) -> Result<(), ReplayFault>
    requires plain { is_plain_of due.now.step.now.kind ≡ true }
    requires kept { AreKept symbols.now texts.old }
    ensures leads { OnOk result (Leads state.old due.now.step.now state.new) }
    ensures puts { OnOk result (PutsPlainLine symbols.now state.old due.now.place due.now.phase due.now.step.now state.new begun text.old.items text.new.items) }
    ensures kept { OnOk result (AreKept symbols.now texts.new) }
    ensures fault { IfErr result (StepBreaks state.old due.now.place due.now.step.now) }
{
    close(text, begun)?;
    put_plain(state, text, texts, symbols, due.place, due.step)?;
    end_line(text, due.phase)?;
    Ok(())
}
