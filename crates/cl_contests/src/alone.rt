//! Turns that need only their rank, and go on.

ghost use Rattle.std.specs.Prelude.{◌≡◌, IfOk, OnOk};
ghost use Rattle.cl_contests.specs.Kept.{search_of};
ghost use Rattle.cl_contests.specs.Lone.{IsTurnIfSome};
ghost use Rattle.cl_contests.specs.Turns.{GoesAlone, GoesRoundAlone, IsBusyIfSome, IsBusyNext};

use crate::complete::polls_complete;
use crate::patterns::Patterns;
use cl_journal::CLOCK_MAX;
use cl_machine::Step;
use cl_moves::{Alone, MoveFault, Standing, Watch};
use cl_state::Ask;
use cl_trace::Bare;
use rv_image_types::RANKS_MAX;
use std::alloc::Global;

/// The kind of a turn that needs only its rank and goes on, of a hart that asks this.
fn busy_kind(ask: &Ask) -> Option<Bare>
    ensures { IsBusyIfSome ask.now result }
{
    match ask {
        Ask::Plain => Some(Bare::Plain),
        Ask::Local => Some(Bare::Local),
        _ => None,
    }
}

/// The next turn of a rank that may go first, if it needs only the rank and goes on, and polls no send that it may not poll.
fn next_busy(standing: &Standing, rank: u8, patterns: &Patterns) -> Result<Option<Step>, MoveFault>
    ensures whose { IfOk result (IsTurnIfSome rank) }
    ensures busy { IfOk result (IsBusyNext (search_of patterns.now.may_wait patterns.now.kept.items) standing.now) }
{
    let place = usize::from(rank);
    if place >= standing.cluster.ranks.len() {
        return Ok(None);
    }
    let own = &standing.cluster.ranks[place];
    if own.harts.len() == 0 || patterns.hold_back(standing, rank) {
        return Ok(None);
    }
    let doing = own.next(0);
    if !patterns.allow_poll_of_complete(rank, polls_complete(own, &doing)) {
        return Ok(None);
    }
    let Some(kind) = busy_kind(&own.ask_next(0, &doing)?) else {
        return Ok(None);
    };
    if own.clock >= CLOCK_MAX {
        return Err(MoveFault::Clock);
    }
    Ok(Some(Step::bare(rank, 0, own.clock + 1, kind)))
}

/// The ranks that take no more turns by themselves for now: those that go round for ever, about which turns of others change
/// nothing, and those that took as many as they were let.
#[derive(Drop)]
pub(crate) struct Spent {
    ranks: [bool; RANKS_MAX as usize],
}

impl Spent {
    /// None of them.
    pub(crate) fn new() -> Spent {
        Spent {
            ranks: [false; RANKS_MAX as usize],
        }
    }

    fn has(&self, rank: u8) -> bool {
        match self.ranks.get(usize::from(rank)) {
            Some(spent) => *spent,
            None => false,
        }
    }

    fn add(&mut self, rank: u8) {
        if rank < RANKS_MAX {
            self.ranks[usize::from(rank)] = true;
        }
    }
}

/// Takes such turns of a rank, at most so many, until it comes back to where it was.
///
/// Refusals: Clock, Memory. Then the standing may be anything.
fn go_alone(
    alloc: Global,
    standing: &mut Standing,
    rank: u8,
    most: u64,
    patterns: &Patterns,
) -> Result<Alone, MoveFault>
    ensures alone { OnOk result (GoesAlone (search_of patterns.now.may_wait patterns.now.kept.items) standing.old
        standing.new) }
    ensures round { IfOk result (λ how. how ≡ Alone.Round → GoesRoundAlone standing.old standing.new rank) }
{
    let mut watch = Watch::new();
    for _turn in 0..most {
        let Some(turn) = next_busy(standing, rank, patterns)? else {
            return Ok(Alone::Done);
        };
        if !standing.take(turn)? {
            return Ok(Alone::Done);
        }
        if standing.is_back(alloc, rank, &[0], &mut watch)? {
            return Ok(Alone::Round);
        }
    }
    Ok(Alone::Long)
}

/// The same of a rank that isn't spent. Answers whether it would take more.
///
/// Refusals: Clock, Memory. Then the standing may be anything.
fn go_unless_spent(
    alloc: Global,
    standing: &mut Standing,
    rank: u8,
    most: u64,
    patterns: &Patterns,
    spent: &mut Spent,
) -> Result<bool, MoveFault>
    ensures { OnOk result (GoesAlone (search_of patterns.now.may_wait patterns.now.kept.items) standing.old
        standing.new) }
{
    if spent.has(rank) {
        return Ok(false);
    }
    match go_alone(alloc, standing, rank, most, patterns)? {
        Alone::Done => Ok(false),
        Alone::Round => {
            spent.add(rank);
            Ok(false)
        }
        Alone::Long => {
            spent.add(rank);
            Ok(true)
        }
    }
}

/// The same of each rank. Answers the first one that would take more, if there is one.
///
/// Refusals: Clock, Memory. Then the standing may be anything.
fn each_alone(
    alloc: Global,
    standing: &mut Standing,
    most: u64,
    patterns: &Patterns,
    spent: &mut Spent,
) -> Result<Option<u8>, MoveFault>
    ensures { OnOk result (GoesAlone (search_of patterns.now.may_wait patterns.now.kept.items) standing.old
        standing.new) }
{
    let mut long = None;
    for rank in 0..RANKS_MAX {
        let more = go_unless_spent(alloc, standing, rank, most, patterns, spent)?;
        if more && long.is_none() {
            long = Some(rank);
        }
    }
    Ok(long)
}

/// The same of this rank, or of each.
///
/// Refusals: Clock, Memory. Then the standing may be anything.
pub(crate) fn all_alone(
    alloc: Global,
    standing: &mut Standing,
    whose: Option<u8>,
    most: u64,
    patterns: &Patterns,
    spent: &mut Spent,
) -> Result<Option<u8>, MoveFault>
    ensures { OnOk result (GoesAlone (search_of patterns.now.may_wait patterns.now.kept.items) standing.old
        standing.new) }
{
    let Some(rank) = whose else {
        return each_alone(alloc, standing, most, patterns, spent);
    };
    let more = go_unless_spent(alloc, standing, rank, most, patterns, spent)?;
    Ok(if more { Some(rank) } else { None })
}
