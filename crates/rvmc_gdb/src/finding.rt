//! Places of a record that are looked for: that of the other end of a message, and that of the last change of some bytes.

ghost use Rattle.std.specs.Prelude.{◌≡◌, ◌≤◌, [], IfOk, OnOk, option_map, slice_get};
ghost use Rattle.cl_debug.specs.Debugging.{at_place};
ghost use Rattle.rvmc_gdb.specs.Finding.{FindsWrite, IsEnd, IsLineAt, TellsGoal, bytes_of_spot, goal_text, is_turn_of, room};
ghost use Rattle.rvmc_gdb.specs.Finding.{named_bytes, place_line, turns_back, way_text, write_goal};
ghost use Rattle.rvmc_gdb.specs.Shown.{IsLine};

use crate::ends::{Found, Side, nearest};
use crate::session::{Goal, Who};
use crate::shown::hart_line;
use cl_debug::Debugger;
use cl_replay::Step;
use rv_image_types::Symbol;
use rvmc_motions::{Halt, Mark, Mover, backwards};
use rvmc_picture::arrows;
use rvmc_protocol::replies::Stop;
use rvmc_words::Spot;
use std::alloc::{AllocError, Global};
use std::io;
use std::io::Write;

/// Goes to a place that is in the record.
fn go(debugger: &mut Debugger, place: u64) -> Result<(), AllocError>
    ensures { OnOk result (debugger.new ≡ at_place debugger.old place) }
{
    match debugger.go(place) {
        Ok(()) => Ok(()),
        Err(_) => Err(AllocError),
    }
}

/// What `why` tells of a hart at another place.
fn line_there(
    alloc: Global,
    debugger: &mut Debugger,
    who: Who,
    place: u64,
) -> Result<Vec<u8>, AllocError>
    ensures kept { OnOk result (debugger.new ≡ debugger.old) }
    ensures line { IfOk result (λ text. IsLineAt (at_place debugger.old place) who text.items) }
{
    let (here, _) = debugger.place();
    go(debugger, place)?;
    let found = hart_line(alloc, debugger, who)?;
    go(debugger, here)?;
    match found {
        Some(line) => Ok(line),
        None => Ok(Vec::new(alloc)),
    }
}

/// Which way a place lies, and so which command goes there.
fn way(here: u64, there: u64) -> &'static [u8]
    ensures { result.now ≡ way_text here there }
{
    if there < here {
        b": reverse-continue goes there\n"
    } else if here < there {
        b": continue goes there\n"
    } else {
        b": here\n"
    }
}

/// The line of a place.
fn place_line(alloc: Global, here: u64, there: u64, len: u64) -> io::Result<Vec<u8>>
    ensures { IfOk result (λ text. text.items ≡ place_line here there len) }
{
    let mut text = Vec::new(alloc);
    write!(text, "at {there} of {len}")?;
    text.extend_from_slice(way(here, there))?;
    Ok(text)
}

/// The line of a hart, and that of a place.
fn goal_text(alloc: Global, line: &[u8], here: u64, there: u64, len: u64) -> io::Result<Vec<u8>>
    ensures { IfOk result (λ text. text.items ≡ goal_text line.now here there len) }
{
    let mut text = Vec::from_slice(alloc, line)?;
    text.extend_from_slice(b"\n")?;
    text.extend_from_slice(place_line(alloc, here, there, len)?.as_slice())?;
    Ok(text)
}

/// What is told of a place, and of the hart that is meant there.
pub(crate) fn tell_goal(
    alloc: Global,
    debugger: &mut Debugger,
    goal: Goal,
) -> Result<Vec<u8>, AllocError>
    ensures kept { OnOk result (debugger.new ≡ debugger.old) }
    ensures told { IfOk result (λ text. TellsGoal debugger.old goal text.items) }
{
    let who = Who {
        rank: goal.rank,
        hart: goal.hart,
    };
    let line = line_there(alloc, debugger, who, goal.place)?;
    let (here, len) = debugger.place();
    match goal_text(alloc, line.as_slice(), here, goal.place, len) {
        Ok(text) => Ok(text),
        Err(_) => Err(AllocError),
    }
}

/// Whether a step is there, and is a turn of the hart.
fn is_turn_of(who: Who, step: Option<&Step>) -> bool
    ensures { result ≡ is_turn_of who (option_map (λ step. step.now) step.entry) }
{
    match step {
        Some(step) => step.rank() == who.rank && step.hart() == who.hart,
        None => false,
    }
}

/// Whether the step at a place is a turn of the hart.
fn is_turn_at(who: Who, steps: &[Step], place: u64) -> bool
    ensures { result ≡ is_turn_of who (slice_get steps.now place) }
{
    is_turn_of(who, steps.get(place as usize))
}

/// The place so many turns of a hart back, or the first.
#[tactic(auto, using(crate::proofs::Nearest::turns_none, crate::proofs::Nearest::turns_first))]
fn turns_back(steps: &[Step], who: Who, here: u64, count: u64) -> u64
    ensures { result ≡ turns_back count steps.now who here }
{
    let mut left = count;
    let mut place = here;
    while left > 0 && place > 0 {
        place -= 1;
        if is_turn_at(who, steps, place) {
            left -= 1;
        }
    }
    place
}

/// What a hart gets, or sends, in one of its last two turns, or first from here on. There are two, since gdb goes on by an
/// instruction where a watchpoint stops it.
pub(crate) fn found_end(
    alloc: Global,
    debugger: &Debugger,
    side: Side,
    who: Who,
) -> Result<Option<Found>, AllocError>
    ensures { IfOk result (IsEnd debugger.now side who) }
{
    let (here, _) = debugger.place();
    let from = turns_back(debugger.steps(), who, here, 2);
    match arrows(alloc, debugger.image(), debugger.steps()) {
        Ok(arrows) => Ok(nearest(side, who, from, arrows.as_slice())),
        Err(_) => Err(AllocError),
    }
}

/// The distance from an address to a symbol that is behind it, or 8.
fn room(address: u64, symbol: &Symbol) -> u64
    ensures { result ≡ room address symbol.now }
{
    let other = u64::from(symbol.address);
    if address < other { other - address } else { 8 }
}

/// The bytes of a symbol, of which eight are watched at most: as far as the next symbol.
#[tactic(auto, using(crate::proofs::Nearest::min_assoc, crate::proofs::Nearest::min_most))]
fn named_bytes(symbols: &[Symbol], address: u64) -> u64
    ensures { result ≡ named_bytes address symbols.now }
{
    let mut count = 8;
    for symbol in symbols {
        count = count.min(room(address, symbol));
    }
    count
}

/// How many bytes are meant by an address, by a symbol, or by a line.
pub(crate) fn bytes_of_spot(symbols: &[Symbol], at: &Spot, address: u64) -> u64
    ensures { result ≡ bytes_of_spot symbols.now at.now address }
{
    match at {
        Spot::Address(_) | Spot::Line { .. } => 8,
        Spot::Name(_) => named_bytes(symbols, address),
    }
}

/// Where a motion ended for a change, unless it was the start of the record.
fn write_goal(halt: Halt, place: u64) -> Option<Goal>
    ensures { result ≡ write_goal halt.stop halt place }
{
    match halt.stop {
        Stop::Begin => None,
        Stop::Step
        | Stop::Before
        | Stop::HardwareBefore
        | Stop::Written(_)
        | Stop::Read(_)
        | Stop::Touched(_)
        | Stop::End
        | Stop::There => Some(Goal {
            place,
            rank: halt.rank,
            hart: halt.hart,
        }),
    }
}

/// The last step before this place that changed the bytes of a mark: where a motion backwards would end for it alone.
pub(crate) fn last_write(
    alloc: Global,
    debugger: &mut Debugger,
    mark: Mark,
    mover: Mover,
) -> Result<Option<Goal>, AllocError>
    ensures kept { OnOk result (debugger.new ≡ debugger.old) }
    ensures found { IfOk result (FindsWrite debugger.old mark mover) }
{
    let (here, _) = debugger.place();
    let marks = [mark];
    let Ok(halt) = backwards(alloc, debugger, &marks, mover) else {
        return Err(AllocError);
    };
    let (there, _) = debugger.place();
    go(debugger, here)?;
    Ok(write_goal(halt, there))
}
