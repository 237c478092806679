//! What rvmc is asked to do, or why that isn't known.

ghost use Rattle.std.specs.Prelude.{◌≡◌};
ghost use Rattle.rvmc_line.specs.declared.line.ParseFault.TheVariants.{Memory};

use crate::texts::SourceSizes;
use rvmc_starts::Start;
use rvmc_words::{DebugWords, Numbers};
use std::alloc::AllocError;

/// What is written of a run.
#[derive(Clone, Copy, Drop)]
pub enum Written {
    /// The report.
    Report,
    /// The record, in place of the report.
    Record,
    /// The report, and behind it how each hart is where the run ended, and what it waits for; with `frames` also which calls
    /// led there.
    Why { frames: bool },
}

/// What rvmc is asked to do.
#[derive(Drop)]
pub enum CommandLine {
    /// An image, or with `source` a source, is read, and the command is done with its image.
    OfImage { source: bool, command: ImageCommand },
    /// A record is read, and the command is done with its image and its steps.
    OfRecord(RecordCommand),
    /// A record is read, and behind it the packets of gdb, each of which is answered as it comes: of this rank of the record
    /// (0 to 255), or of all its ranks. Whether there is such a rank is not known here.
    Session { rank: Option<u64> },
    /// A record is read, and behind it lines with the words of `debug`, each of which is answered as it comes.
    WordSession,
    /// Texts are read that were told of the starts of a split, and it is told whether these are all ends. Whether they were
    /// told of one split, and of each of its starts, is not known here.
    Join,
}

/// What is done with an image.
#[derive(Drop)]
pub enum ImageCommand {
    /// It is written; or with `from` it is one of either version, and is written in version 2.
    Asm {
        from: bool,
    },
    /// Its listing is written.
    Dis,
    /// It is run with a thread for each rank, each rank for at most `budget` turns (1 to 16,777,216),
    /// and the report, or what else `written` says, is written. A rank that is more than `lead` turns
    /// (1 to 65,536) ahead of the slowest that hasn't ended is held back. The harts of a rank take turns
    /// in the order of `plan`, round and round; without it all take turns in order. Whether a hart is
    /// there is not known here.
    Run {
        budget: u64,
        plan: Option<Numbers>,
        lead: u64,
        written: Written,
    },
    /// The same, but that the run ends once all ranks that are left look in vain. Then what each hart waits for is written
    /// behind the report, also where `written` doesn't ask for it.
    RunUntilStuck {
        budget: u64,
        plan: Option<Numbers>,
        lead: u64,
        written: Written,
    },
    /// It is run on one thread, each rank for at most `budget` turns (1 to 16,777,216), and the report,
    /// or what else `written` says, is written. The ranks take turns in the order of `order`, and each
    /// rank's harts in that of `plan`, round and round; without them all take turns in order. Whether a
    /// rank or a hart is there is not known here.
    One {
        budget: u64,
        plan: Option<Numbers>,
        order: Option<Numbers>,
        written: Written,
    },
    /// The same, but that the run ends once each rank that has a running or a waiting hart is in a deadlock. Then what
    /// each hart waits for is written behind the report, also where `written` doesn't ask for it.
    OneUntilStuck {
        budget: u64,
        plan: Option<Numbers>,
        order: Option<Numbers>,
        written: Written,
    },
    /// All ends are told, over all orders of the ranks' turns, of at most `states` states (1 to 16,777,216), where a rank
    /// takes at most `turns` turns (1 to 16,777,216) alone between two meetings; with `record` the record of the end of
    /// this number (1 to 18,446,744,073,709,551,615) is written, in place of the text. The harts of a rank take turns in
    /// the order of `plan`, round and round; without it all take turns in order. With `buffered` it isn't asked whether ranks
    /// need buffers. With `progress` lines on standard error say how far the search came. Whether a hart or such an end is
    /// there is not known here.
    Explore {
        plan: Option<Numbers>,
        states: u64,
        turns: u64,
        record: Option<u64>,
        buffered: bool,
        progress: bool,
    },
    /// Starts are written from which all ends can be searched apart: `count` (1 to 16,777,216) or more of them, as far as the
    /// orders part so often. A rank takes at most `turns` turns (1 to 16,777,216) alone between two meetings. The harts of a
    /// rank take turns in the order of `plan`, round and round; without it all take turns in order. With `progress` lines on
    /// standard error say how far the search came. Whether a hart is there is not known here.
    Split {
        plan: Option<Numbers>,
        count: u64,
        turns: u64,
        progress: bool,
    },
    /// All ends are told to which some order leads behind `start`, whose harts are the plan, of at most `states` states (1 to
    /// 16,777,216), where a rank takes at most `turns` turns (1 to 16,777,216) alone between two meetings; with `record` the
    /// record of the end of this number (1 to 18,446,744,073,709,551,615) is written, in place of the text. It isn't asked
    /// whether ranks need buffers, with `buffered` or without it. With `progress` lines on standard error say how far the
    /// search came. Whether the start is one of the image, and such an end is there, is not known here.
    ExploreFrom {
        start: Start,
        states: u64,
        turns: u64,
        record: Option<u64>,
        buffered: bool,
        progress: bool,
    },
}

/// What is done with the image and the steps of a record.
#[derive(Drop)]
pub enum RecordCommand {
    /// It is written whether the steps are a run in order.
    Check,
    /// The report of the state to which the steps lead is written.
    Report,
    /// The text of each word is written, in order, as far as no word is refused.
    Debug {
        words: DebugWords,
    },
    /// The steps are written in words, one line a step: from place `from` on, up to place `to` or else to the end, those of
    /// `rank` alone if one is given, and with `calls` no plain instructions. Whether there are such places, and such a
    /// rank, is not known here.
    List {
        from: u64,
        to: Option<u64>,
        rank: Option<u64>,
        calls: bool,
    },
    /// The steps are counted, and tables of their numbers are written: those from place `from` on, up to place `to` or else
    /// to the end, of `rank` alone if one is given. Whether there are such places, and such a rank, is not known here.
    Stats {
        from: u64,
        to: Option<u64>,
        rank: Option<u64>,
    },
    /// A picture of the steps is written: of those from place `from` on, up to place `to` or else to the end. Whether there
    /// are such places is not known here.
    Draw {
        from: u64,
        to: Option<u64>,
    },
    /// A page that walks the steps forwards and back is written: those from place `from` on, up to place `to` or else to
    /// the end, with the sources whose bytes stand behind the record, in this order. Whether there are such places, and so
    /// many bytes, is not known here.
    Page {
        from: u64,
        to: Option<u64>,
        texts: SourceSizes,
    },
    /// It is written how each hart is after the first `at` steps, or else after all, what it waits for,
    /// and which ranks are in a deadlock; with `frames` also which calls led there. Whether there are so
    /// many steps is not known here.
    Why {
        at: Option<u64>,
        frames: bool,
    },
}

/// Why there is no command line.
#[derive(Drop)]
pub enum ParseFault {
    /// Memory was refused.
    Memory,
    /// Help or the version was asked for: its text, for standard output.
    Asked(String),
    /// The words aren't taken: why not and what is, for standard error.
    Refused(String),
}

impl From<AllocError> for ParseFault {
    ghost from_gives = { λ _ e. e ≡ Memory };

    fn from(_e: AllocError) -> ParseFault {
        ParseFault::Memory
    }
}
