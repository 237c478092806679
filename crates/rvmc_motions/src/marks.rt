//! Where motions stop: breakpoints and watchpoints.

ghost use Rattle.std.specs.Prelude.{◌≡◌};
ghost use Rattle.rvmc_motions.specs.Marks.{break_of, broken, covers, is_watch_of, point_stop, watch_stop};

use rvmc_protocol::replies::Stop;
use rvmc_protocol::requests::Point;

/// Ranks of a cluster.
#[derive(Clone, Copy)]
pub enum Ranks {
    /// Every one.
    All,
    /// The one of this number.
    One(u8),
}

/// A point that was set for some ranks: an instruction of their harts, or so many bytes of their memories.
#[derive(Clone, Copy)]
pub struct Mark {
    pub ranks: Ranks,
    pub point: Point,
    pub address: u64,
    pub size: u64,
}

/// Why a motion ended, and whose hart is meant from then on.
#[derive(Clone, Copy)]
pub struct Halt {
    pub stop: Stop,
    pub rank: u8,
    pub hart: u8,
}

/// How far a motion goes.
#[derive(Clone, Copy)]
pub enum Motion {
    /// To a step of the hart.
    Step,
    /// To a breakpoint of any hart of the ranks.
    Run,
}

/// Whose motion it is: that of some ranks, all harts of which move, and the hart that is meant where it ends at an end of
/// the record.
#[derive(Clone, Copy)]
pub struct Mover {
    pub ranks: Ranks,
    pub rank: u8,
    pub hart: u8,
    pub motion: Motion,
}

/// Whether a rank is one of these.
pub(crate) fn covers(ranks: Ranks, rank: u8) -> bool
    ensures { result ≡ covers ranks rank }
{
    match ranks {
        Ranks::All => true,
        Ranks::One(own) => own == rank,
    }
}

/// How a stop before an instruction is told; a watchpoint makes none.
fn point_stop(point: Point) -> Option<Stop>
    ensures { result ≡ point_stop point }
{
    match point {
        Point::Before => Some(Stop::Before),
        Point::HardwareBefore => Some(Stop::HardwareBefore),
        Point::Written | Point::Read | Point::Touched => None,
    }
}

/// Whether a mark is a breakpoint at this pc of a rank's harts.
fn break_of(rank: u8, pc: u64, mark: &Mark) -> Option<Stop>
    ensures { result ≡ break_of rank pc mark.now }
{
    if covers(mark.ranks, rank) && mark.address == pc {
        point_stop(mark.point)
    } else {
        None
    }
}

/// The first breakpoint among the marks at this pc.
pub(crate) fn broken(rank: u8, pc: u64, marks: &[Mark]) -> Option<Stop>
    ensures { result ≡ broken rank pc marks.now }
{
    for mark in marks {
        if let Some(stop) = break_of(rank, pc, mark) {
            return Some(stop);
        }
    }
    None
}

/// Whether a mark is a watchpoint of the rank.
pub(crate) fn is_watch_of(rank: u8, mark: &Mark) -> bool
    ensures { result ≡ is_watch_of rank mark.now }
{
    match mark.point {
        Point::Before | Point::HardwareBefore => false,
        Point::Written | Point::Read | Point::Touched => covers(mark.ranks, rank),
    }
}

/// How a watchpoint's stop is told, of bytes that were changed or read.
pub(crate) fn watch_stop(mark: &Mark, changed: bool, read: bool) -> Option<Stop>
    ensures { result ≡ watch_stop mark.now.point mark.now.address changed read }
{
    match mark.point {
        Point::Before | Point::HardwareBefore => None,
        Point::Written => {
            if changed {
                Some(Stop::Written(mark.address))
            } else {
                None
            }
        }
        Point::Read => {
            if read {
                Some(Stop::Read(mark.address))
            } else {
                None
            }
        }
        Point::Touched => {
            if changed || read {
                Some(Stop::Touched(mark.address))
            } else {
                None
            }
        }
    }
}
