//! How often each box was made ready and taken, and the phase of a step that asks one.

ghost use Rattle.std.specs.Prelude.{◌≡◌, ◌*◌, ◌<◌, ◌++◌, IfOk, OnOk, length, replicate, vec_len};
ghost use Rattle.cl_machine.specs.Boxes.{box_number};
ghost use Rattle.cl_machine.specs.SameSteps.{kind_seen};
ghost use Rattle.cl_state.specs.Asked.{asked};
ghost use Rattle.cl_state.specs.Room.{rank_of};
ghost use Rattle.rvmc_sights.specs.Lines.{box_in as box_in_ask};
ghost use Rattle.rvmc_list.specs.Meeting.{IsMet, IsMetBy, behind_box, one_got, one_made};
ghost use Rattle.rvmc_list.specs.Phases.{phase_asked, phase_text};
ghost use Rattle.rvmc_stats.specs.Tallies.{count_at};

use cl_machine::{KindRef, Step};
use cl_replay::ClusterState;
use cl_state::{Ask, RankState};
use cl_trace::Bare;
use rv_image_types::Image;
use rvmc_sights::box_in;
use rvmc_stats::Tally;
use std::alloc::{AllocError, Global};
use std::io;
use std::io::Write;

/// How often each box was made ready, and how often taken, by its number.
#[derive(Drop)]
pub(crate) struct Phases {
    pub(crate) made: Tally,
    pub(crate) taken: Tally,
}

/// The number of a box among all boxes: each link has 16.
fn number_of(link: u8, part: u8) -> usize
    ensures { result ≡ box_number link part }
{
    16 * usize::from(link) + usize::from(part)
}

impl Phases {
    /// The boxes of an image's links, of which none was made ready. The only error is want of memory.
    pub(crate) fn new(alloc: Global, image: &Image) -> Result<Phases, AllocError>
        ensures made { IfOk result (λ phases. phases.made ≡ replicate (16 * length image.now.links) 0) }
        ensures taken { IfOk result (λ phases. phases.taken ≡ replicate (16 * length image.now.links) 0) }
    {
        let boxes = 16 * image.parts().links.as_slice().len();
        Ok(Phases {
            made: Tally::new(alloc, boxes)?,
            taken: Tally::new(alloc, boxes)?,
        })
    }

    /// The phase of what is asked of a box.
    fn phase_of(&self, ask: &Ask) -> Option<u64>
        ensures { result ≡ phase_asked (count_at self.now.made) (count_at self.now.taken) ask.now }
    {
        match ask {
            Ask::Ready { link, part, .. } => {
                Some(self.made.get(number_of(*link, *part)).saturating_add(1))
            }
            Ask::Look { link, part } => {
                Some(self.taken.get(number_of(*link, *part)).saturating_add(1))
            }
            Ask::Freed { link, part } => Some(self.made.get(number_of(*link, *part))),
            Ask::Plain | Ask::Local | Ask::Hub(_) | Ask::Held | Ask::Idle => None,
        }
    }

    /// Counts a box that was made ready.
    fn count_made(&mut self, ask: &Ask)
        ensures { self.new ≡ one_made (box_in_ask ask.now) self.old }
    {
        if let Some((link, part)) = box_in(ask) {
            self.made.add(number_of(link, part), 1);
        }
    }

    /// Counts a box that was taken.
    fn count_taken(&mut self, ask: &Ask)
        ensures { self.new ≡ one_got (box_in_ask ask.now) self.old }
    {
        if let Some((link, part)) = box_in(ask) {
            self.taken.add(number_of(link, part), 1);
        }
    }

    /// Counts the box that a step of this kind asked.
    fn count(&mut self, kind: KindRef<'_>, ask: &Ask)
        ensures { self.new ≡ behind_box (kind_seen kind.entry) (box_in_ask ask.now) self.old }
    {
        match kind {
            KindRef::Bare(Bare::Ready) => self.count_made(ask),
            KindRef::Bare(Bare::Take) => self.count_taken(ask),
            _ => {}
        }
    }
}

/// The phase of the box that a step asks, if it is of a kind that asks one; the box is counted.
fn meet_own(phases: &mut Phases, own: &RankState, step: &Step) -> Result<Option<u64>, AllocError>
    requires { step.now.hart < vec_len own.now.harts }
    ensures { IfOk result (λ phase.
        IsMetBy step.now (asked (rank_of own.now) step.now.hart) phases.old phase phases.new) }
{
    match step.kind() {
        KindRef::Bare(kind) => match kind {
            Bare::Ready | Bare::Take | Bare::Miss | Bare::Freed => {
                let ask = own.ask(step.hart())?;
                let phase = phases.phase_of(&ask);
                phases.count(step.kind(), &ask);
                Ok(phase)
            }
            Bare::Plain | Bare::Local | Bare::Held | Bare::Idle => Ok(None),
        },
        KindRef::Hub(_) => Ok(None),
    }
}

/// The same of a step of whichever rank.
pub(crate) fn meet(
    phases: &mut Phases,
    state: &ClusterState,
    step: &Step,
) -> Result<Option<u64>, AllocError>
    ensures { IfOk result (λ phase. IsMet state.now step.now phases.old phase phases.new) }
{
    let Some(own) = state.ranks.get(usize::from(step.rank())) else {
        return Ok(None);
    };
    if usize::from(step.hart()) >= own.harts.len() {
        return Ok(None);
    }
    meet_own(phases, own, step)
}

/// Adds the phase of a step, if it has one.
pub(crate) fn put_phase(text: &mut Vec<u8>, phase: Option<u64>) -> io::Result<()>
    ensures { OnOk result (text.new.items ≡ text.old.items ++ phase_text phase) }
{
    match phase {
        None => Ok(()),
        Some(phase) => write!(text, " -> phase {phase}"),
    }
}
