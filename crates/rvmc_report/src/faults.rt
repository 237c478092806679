//! Why there is no answer.

ghost use Rattle.std.specs.Prelude.{◌≡◌};
ghost use Rattle.rvmc_report.specs.Faults.{fault_of_image, fault_of_source};
ghost use Rattle.rvmc_report.specs.OtherFaults.{fault_of_record, fault_of_replay, fault_of_run, place_of};
ghost use Rattle.rvmc_report.specs.Faults.{fault_of_debug, fault_status};
ghost use Rattle.rvmc_report.specs.declared.faults.Fault.TheVariants as faults;

use cl_debug::DebugFault;
use cl_record::RunFault;
use cl_replay::ReplayFault;
use cl_text::RecordFault;
use rv_asm::{AsmFault, AsmFaultKind};
use rv_image::ImageFault;
use std::alloc::{AllocError, AllocFailed};
use thiserror::Error;

/// Why there is no place with so many steps done. It is printed as its name and its number.
#[derive(Clone, Copy, Debug, Drop, Error)]
pub enum PlaceFault {
    /// The place is behind the end. Carries the number of steps.
    #[error("PastEnd {0}")]
    PastEnd(u64),
    /// The steps up to the place are no run of the image: the machine has no such step where the steps before it lead.
    /// Carries its number, from 0.
    #[error("NotARun {0}")]
    NotARun(u64),
}

impl PlaceFault {
    /// Why a replay that was refused has no such place. None if it was refused memory.
    pub fn of(fault: ReplayFault) -> Option<PlaceFault>
        ensures { result ≡ place_of fault }
    {
        match fault {
            ReplayFault::PastEnd(steps) => Some(PlaceFault::PastEnd(steps)),
            ReplayFault::Step(number) => Some(PlaceFault::NotARun(number)),
            ReplayFault::Memory => None,
        }
    }
}

/// Why a record isn't listed.
#[derive(Clone, Copy, Debug, Drop, Error)]
pub enum ListRefusal {
    /// The image has no such rank.
    #[error("NoRank")]
    NoRank,
    /// There is no place where the list begins or ends.
    #[error("{0}")]
    Place(PlaceFault),
}

/// Why a record isn't drawn.
#[derive(Clone, Copy, Debug, Drop, Error)]
pub enum DrawRefusal {
    /// There is no place where the picture begins or ends, or the record does.
    #[error("{0}")]
    Place(PlaceFault),
    /// More steps have a mark than a picture may have. Carries how many.
    #[error("TooMany {0}")]
    TooMany(u64),
}

/// Why a search tells nothing.
#[derive(Clone, Copy, Debug, Drop, Error)]
pub enum ExploreRefusal {
    /// There are fewer ends. Carries the number of the end whose record was asked for.
    #[error("NoOutcome {0}")]
    NoOutcome(u64),
    /// The start is one of another image.
    #[error("OtherImage")]
    OtherImage,
    /// A turn of the start leads nowhere. Carries its number among the start's turns, from 1.
    #[error("NoTurn {0}")]
    NoTurn(u64),
    /// What is to be joined isn't told of a start. Carries the number of the text, from 1.
    #[error("NotAText {0}")]
    NotAText(u64),
    /// What is to be joined is told of a start of another split than the text before. Carries the number of the text, from 1.
    #[error("OtherSplit {0}")]
    OtherSplit(u64),
}

/// Why there is no answer. It prints as the fault's line on standard error, behind `rvmc: `.
#[derive(Clone, Copy, Debug, Drop, Error)]
pub enum Fault {
    /// The source's first fault.
    #[error("{0}")]
    Source(AsmFault),
    /// The image's first fault.
    #[error("image: {0}")]
    Image(ImageFault),
    /// The record's first fault.
    #[error("record: {0}")]
    Record(RecordFault),
    /// The plan or the order names a hart or a rank that isn't there, or the order misses a rank.
    #[error("plans")]
    Plans,
    /// What the threads of a run left doesn't fit together.
    #[error("unlike {rank} {place}")]
    Unlike { rank: u8, place: u64 },
    /// Why the debugger didn't open the record, or didn't do a word.
    #[error("debug: {0}")]
    Debug(DebugFault),
    /// Why `why` has no place to tell of.
    #[error("why: {0}")]
    Why(PlaceFault),
    /// Why there is no report of a record: its steps are no run of the image. Carries the number, from 0, of the first
    /// that isn't the machine's.
    #[error("report: NotARun {0}")]
    Report(u64),
    /// Why there is no list of a record.
    #[error("list: {0}")]
    List(ListRefusal),
    /// Why there is no picture of a record.
    #[error("draw: {0}")]
    Draw(DrawRefusal),
    /// Why there is no page of a record.
    #[error("page: {0}")]
    Page(PlaceFault),
    /// Why a search tells nothing.
    #[error("explore: {0}")]
    Explore(ExploreRefusal),
    /// Memory was refused.
    #[error("memory")]
    Memory,
    /// A thread was refused.
    #[error("spawn")]
    Spawn,
    /// A read failed, or the input is too long.
    #[error("read")]
    Read,
    /// A write failed.
    #[error("write")]
    Write,
}

impl Fault {
    /// The status that a program ends with: 1 for a fault of the input, 5 for memory or a thread, 6 for reads and
    /// writes.
    pub fn status(self) -> u8
        ensures { result ≡ fault_status self }
    {
        match self {
            Fault::Source(_)
            | Fault::Image(_)
            | Fault::Record(_)
            | Fault::Plans
            | Fault::Unlike { .. }
            | Fault::Debug(_)
            | Fault::Why(_)
            | Fault::Report(_)
            | Fault::List(_)
            | Fault::Draw(_)
            | Fault::Page(_)
            | Fault::Explore(_) => 1,
            Fault::Memory | Fault::Spawn => 5,
            Fault::Read | Fault::Write => 6,
        }
    }
}

impl From<AsmFault> for Fault {
    ghost from_gives = { λ fault e. e ≡ fault_of_source fault };

    fn from(fault: AsmFault) -> Fault {
        match fault.kind {
            AsmFaultKind::Memory => Fault::Memory,
            _ => Fault::Source(fault),
        }
    }
}

impl From<ImageFault> for Fault {
    ghost from_gives = { λ fault e. e ≡ fault_of_image fault };

    fn from(fault: ImageFault) -> Fault {
        match fault {
            ImageFault::Memory => Fault::Memory,
            _ => Fault::Image(fault),
        }
    }
}

impl From<RecordFault> for Fault {
    ghost from_gives = { λ fault e. e ≡ fault_of_record fault };

    fn from(fault: RecordFault) -> Fault {
        match fault {
            RecordFault::Memory => Fault::Memory,
            _ => Fault::Record(fault),
        }
    }
}

impl From<RunFault> for Fault {
    ghost from_gives = { λ fault e. e ≡ fault_of_run fault };

    fn from(fault: RunFault) -> Fault {
        match fault {
            RunFault::Plans => Fault::Plans,
            RunFault::Memory => Fault::Memory,
            RunFault::Spawn => Fault::Spawn,
            RunFault::Unlike { rank, place } => Fault::Unlike { rank, place },
        }
    }
}

impl From<DebugFault> for Fault {
    ghost from_gives = { λ fault e. e ≡ fault_of_debug fault };

    fn from(fault: DebugFault) -> Fault {
        match fault {
            DebugFault::Memory => Fault::Memory,
            _ => Fault::Debug(fault),
        }
    }
}

impl From<ReplayFault> for Fault {
    ghost from_gives = { λ fault e. e ≡ fault_of_replay fault };

    fn from(fault: ReplayFault) -> Fault {
        match PlaceFault::of(fault) {
            Some(place) => Fault::Why(place),
            None => Fault::Memory,
        }
    }
}

impl From<AllocError> for Fault {
    ghost from_gives = { λ _ e. e ≡ faults.Memory };

    fn from(_e: AllocError) -> Fault {
        Fault::Memory
    }
}

impl<T: Drop> From<AllocFailed<T>> for Fault {
    ghost from_gives = { λ _ e. e ≡ faults.Memory };

    fn from(_e: AllocFailed<T>) -> Fault {
        Fault::Memory
    }
}
