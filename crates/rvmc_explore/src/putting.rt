//! The outcomes of a search, each written when it is found.

ghost use Rattle.std.specs.Prelude.{◌≡◌, ◌<◌, ◌++◌, [], IfErr, IfOk, List, false, length, true, ℕ};
ghost use Rattle.std.specs.Io.KnownBytes.{Appends};
ghost use Rattle.cl_explore.specs.Ends.{findings};
ghost use Rattle.cl_explore.specs.Needing.{SaysNeeds};
ghost use Rattle.cl_lines.specs.Telling.{TellsProgress};
ghost use Rattle.rvmc_explore.specs.InnerOutcomes.{AreHeard};
ghost use Rattle.rvmc_explore.specs.Searched.{IsSearched};
ghost use Rattle.rvmc_explore.specs.InnerTelling.{WereTold};
ghost use Rattle.rvmc_explore.specs.Outcomes.{ListsNeed, any_need};
ghost use Rattle.rvmc_explore.specs.Telling.{AddsOutcomes, IsBegun, Tells};

use crate::asked::Asked;
use crate::closing::{last_line, needs_line};
use crate::counting::put_counts;
use crate::going::put_goings;
use crate::hangs::tell_hang;
use crate::hearing::Sends;
use crate::judging::search_status;
use crate::outcomes::{Outcome, tell};
use crate::teller::{Outset, Teller, put};
use crate::telling::{Told, put_told};
use crate::unending::{endless_in, unending_line};
use cl_explore::{Course, Exploration, explore};
use cl_moves::MoveFault;
use rv_image_types::Image;
use std::alloc::{AllocError, Global};
use std::io::Write;
use std::marker::Brand;

/// What became of a search whose outcomes were written when they were found.
#[derive(Clone, Copy, Drop)]
pub struct Searched {
    /// Whether the writer took all of it.
    pub taken: bool,
    /// Whether states are left because a rank took more turns by itself than it was let, as the last line says. Never where the
    /// writer didn't take all.
    pub long: bool,
    /// The status of the search: 4, that not all is told, where the writer didn't take all.
    pub status: u8,
}

/// The search, and each end told as it is found, and ranks that need buffers unless each standard send copies its message, behind
/// whatever the writer held.
fn search_telling<K: Outset + Sends, O: Write, E: Write>(
    alloc: Global,
    image: &Image,
    asked: &Asked<'_>,
    teller: &mut Teller<'_, O, K>,
    err: &mut E,
) -> Result<Exploration, MoveFault>
    requires order { 0 < length asked.now.order.now }
    requires name { teller.old.out.ghost_name ≡ K.name }
    requires before { O.contents teller.old.out.now ≡ K.before }
    requires none { teller.old.told.items ≡ [] }
    requires taken { teller.old.taken ≡ true }
    requires sends { teller.old.buffered ≡ asked.now.buffered }
    requires buffered { K.buffered ≡ asked.now.buffered }
    ensures same_reference { teller.new.out.ghost_name ≡ teller.old.out.ghost_name }
    ensures heard { AreHeard asked.now.order.now image.now teller.new.told.items }
    ensures told { WereTold teller.new.told.items teller.new.taken (O.contents teller.old.out.now)
        (O.contents teller.new.out.now) }
    ensures no_need { asked.now.buffered ≡ true → any_need teller.new.told.items ≡ false }
    ensures searched { IfOk result (λ found.
        IsSearched image.now asked.now.order.now asked.now.buffered asked.now.states asked.now.turns (findings found)) }
    ensures needs { IfOk result (λ found. SaysNeeds asked.now.buffered image.now (findings found)
        (ListsNeed image.now asked.now.order.now teller.new.told.items) found.needs) }
    ensures progress { TellsProgress asked.now.progress (E.contents err.old) (E.contents err.new) }
{
    let course = Course {
        alloc,
        order: asked.order,
        most: asked.turns,
        progress: asked.progress,
        buffered: asked.buffered,
    };
    explore(&course, image, asked.states, teller, err)
}

/// What is told behind what was told as it was found, and the status of the search: ends that weren't told yet, ranks that are
/// stuck, how many ends look like an outcome, where harts go on that never end, why it isn't known whether ranks need buffers, and
/// whether these are all.
fn rest_of(
    alloc: Global,
    image: &Image,
    asked: &Asked<'_>,
    found: &Exploration,
    heard: Vec<Outcome>,
) -> Result<Told, AllocError>
    requires searched { IsSearched image.now asked.now.order.now asked.now.buffered asked.now.states asked.now.turns
        (findings found.now) }
    requires heard { AreHeard asked.now.order.now image.now heard.items }
    requires no_need { asked.now.buffered ≡ true → any_need heard.items ≡ false }
    requires needs { SaysNeeds asked.now.buffered image.now (findings found.now)
        (ListsNeed image.now asked.now.order.now heard.items) found.now.needs }
    ensures { IfOk result (λ rest. (text : List ℕ) → AddsOutcomes 1 heard.items [] text
        → Tells image.now asked.now.order.now asked.now.buffered asked.now.states asked.now.turns
        (text ++ rest.text.items) rest.status) }
{
    // ghost: brings into scope that the parts are those of an image; no effect at run time
    let _parts = image.parts();
    let before = heard.len();
    let mut told = tell(alloc, image, asked.order, found, heard)?;
    let endless = endless_in(alloc, found)?;
    let unending = endless.is_some();
    let hanging = tell_hang(alloc, image, found, &mut told, unending)?;
    let mut text = Vec::new(alloc);
    put_told(alloc, &mut text, image, told.as_slice(), before)?;
    put_counts(alloc, &mut text, told.as_slice())?;
    let nodes = found.nodes.as_slice();
    put_goings(alloc, &mut text, image, asked.order, nodes, endless)?;
    let line = unending_line(alloc, unending)?;
    text.extend_from_slice(line.as_bytes())?;
    let unknown = needs_line(alloc, found.needs, asked.buffered)?;
    text.extend_from_slice(unknown.as_bytes())?;
    let last = last_line(alloc, found, told.len(), asked.turns)?;
    text.extend_from_slice(last.as_bytes())?;
    let status = search_status(found, asked.order, hanging, unending);
    Ok(Told { text, status })
}

/// Writes each outcome of a search on `out` when it is found: for an end its ranks, and what each waits for that waits there;
/// for ranks that need buffers how they are held up. Once the search is over it writes the others: for ranks that are stuck while
/// others run on, what they wait for; for a state from which runs hang if sends wait, how each rank stands there. Each begins
/// with the first message by which it differs from outcome 1. Behind them stands how many ends look like an outcome, if two or
/// more do; where harts go on in a state from which no run ends, if there is one, and that some runs go on for ever; why it isn't
/// known whether ranks need buffers; and in the last line whether the list is complete, or is so with buffered sends alone. No
/// two outcomes have the same text. The status is 4 if the list isn't complete, else 3 if a hart trapped at an end, else 7 if a
/// hart that takes turns waits at one, some ranks are stuck, ranks need buffers, or runs hang if sends wait, else 8 if some runs
/// go on for ever, else 0. If asked for, lines on `err` say how far the search came.
///
/// Others run on where a rank that isn't stuck can go on, and no end was found from there. If no state is left there is none, and
/// they run on for ever.
///
/// Refusals: Clock, Memory. Outcomes that were written before stay: ends, and ranks that need buffers. If the writer doesn't take
/// all, the result says so.
#[tactic(auto, using(crate::proofs::Heard::cut_by, crate::proofs::Heard::whole_by))]
pub fn put_explored<O: Write, E: Write>(
    alloc: Global,
    image: &Image,
    asked: &Asked<'_>,
    out: &mut O,
    err: &mut E,
) -> Result<Searched, MoveFault>
    requires { 0 < length asked.now.order.now }
    ensures told { IfOk result (λ searched. searched.taken ≡ true → (text : List ℕ)
        × Tells image.now asked.now.order.now asked.now.buffered asked.now.states asked.now.turns text searched.status
        × Appends (O.contents out.old) (O.contents out.new) text) }
    ensures cut { IfErr result (λ fault. (text : List ℕ) × IsBegun image.now asked.now.order.now asked.now.buffered text
        × Appends (O.contents out.old) (O.contents out.new) text) }
    ensures progress { TellsProgress asked.now.progress (E.contents err.old) (E.contents err.new) }
{
    let mut teller: Teller<'_, O, Brand> = Teller::new(alloc, asked.buffered, out);
    let found = search_telling::<Brand, O, E>(alloc, image, asked, &mut teller, err);
    let Teller {
        told,
        taken,
        buffered: _buffered,
        out,
        of: _of,
    } = teller;
    if !taken {
        return Ok(Searched {
            taken: false,
            long: false,
            status: 4,
        });
    }
    let Told { text, status } = rest_of(alloc, image, asked, &found?, told)?;
    Ok(Searched {
        taken: put(out, text.as_slice()),
        long: text.as_slice().ends_with(b" turns alone\n"),
        status,
    })
}
