//! What a person types behind `monitor`.

ghost use Rattle.std.specs.Prelude.{◌≡◌, ◌≢◌, ◌<◌, [], IfErr, IfOk, OnOk, length};
ghost use Rattle.cl_debug.specs.declared.faults.DebugFault.TheVariants as faults;
ghost use Rattle.rvmc_words.specs.declared.debug.DebugWord.TheVariants as word;
ghost use Rattle.rvmc_picture.specs.Below.{Refuses, TellsBytes, WantsMemory};
ghost use Rattle.rvmc_gdb.specs.Ends.{arrow_text, nothing_text};
ghost use Rattle.rvmc_gdb.specs.Finding.{TellsGoal};
ghost use Rattle.rvmc_gdb.specs.Typing.{fault_text, flush_text, help_text, printed_text, unchanged_text, unknown_text};

use crate::ends::{Found, Side, other_end, put_arrow, put_nothing};
use crate::finding::{bytes_of_spot, found_end, last_write, tell_goal};
use crate::points::can_stand;
use crate::session::{Goal, Session, Who, text_of};
use crate::shown::digits_of;
use cl_debug::{DebugFault, Debugger};
use rvmc_draw::Arrow;
use rvmc_motions::{Mark, Motion, Mover, Ranks};
use rvmc_picture::{address_of, bytes_text, place_text, regs_text, why};
use rvmc_protocol::monitor::{Typed, typed_word};
use rvmc_protocol::requests::Point;
use rvmc_words::Spot;
use std::alloc::{AllocError, Global};

const HELP: &[u8] = b"place         tells how many of the record's steps are done
go N          goes to the place with N steps done
why           tells what each hart waits for there
rank R        shows rank R from now on
regs R H      shows the registers of hart H of rank R
bytes R A N   shows N bytes of rank R from A on: an address, a symbol or FILE:LINE
sent          tells where the message was sent that the hart gets here, or next
got           tells where the message is got that the hart sends here, or next
last-write A  tells what last changed the bytes of address A, or of a symbol
help          tells this
";

const UNKNOWN: &[u8] = b"no such word: monitor help tells which there are\n";

/// What is told where gdb shows what it kept.
const FLUSH: &[u8] = b"maintenance flush register-cache shows it\n";

/// A fault, as the command line tells it.
fn fault_text(alloc: Global, fault: DebugFault) -> Result<Vec<u8>, AllocError>
    ensures { IfOk result (λ text. text.items ≡ fault_text fault) }
{
    let text = match fault {
        DebugFault::PastEnd(len) => format!(in alloc; "rvmc: debug: PastEnd {len}\n")?,
        DebugFault::NoRank => format!(in alloc; "rvmc: debug: NoRank\n")?,
        DebugFault::NoHart => format!(in alloc; "rvmc: debug: NoHart\n")?,
        DebugFault::Range => format!(in alloc; "rvmc: debug: Range\n")?,
        DebugFault::Memory => format!(in alloc; "rvmc: debug: Memory\n")?,
        DebugFault::NotARun(n) => format!(in alloc; "rvmc: debug: NotARun {n}\n")?,
        DebugFault::NoSymbol => format!(in alloc; "rvmc: debug: NoSymbol\n")?,
    };
    Ok(text.into_bytes())
}

/// The answer that prints this: in digits, or that it is done where nothing is printed.
fn printed_text(alloc: Global, printed: &[u8]) -> Result<Vec<u8>, AllocError>
    ensures { IfOk result (λ text. text.items ≡ printed_text printed.now) }
{
    if printed.is_empty() {
        return text_of(alloc, b"OK");
    }
    digits_of(alloc, printed)
}

/// What is printed for a word that was refused, as the command line prints it. Want of memory is no answer.
pub fn refusal(alloc: Global, fault: DebugFault) -> Result<Vec<u8>, AllocError>
    ensures told { IfOk result (λ text. text.items ≡ fault_text fault) }
    ensures memory { OnOk result (fault ≢ faults.Memory) }
{
    match fault {
        DebugFault::Memory => Err(AllocError),
        _ => fault_text(alloc, fault),
    }
}

/// Bytes of a rank's memory, as `debug` prints them.
fn bytes_of(
    alloc: Global,
    debugger: &Debugger,
    rank: u8,
    count: u64,
    at: &Spot,
) -> Result<Vec<u8>, DebugFault>
    ensures does { IfOk result (λ text. TellsBytes debugger.now rank at.now count debugger.now text.items) }
    ensures fault { IfErr result (λ fault. Refuses debugger.now fault (word.Bytes rank at.now count)) }
    ensures wanted { IfOk result
        (λ text. 0 < length text.items → WantsMemory debugger.now (word.Bytes rank at.now count)) }
{
    let address = address_of(debugger, at)?;
    let shown = debugger.bytes(rank, address, count)?;
    if count == 0 {
        return Ok(Vec::new(alloc));
    }
    Ok(bytes_text(alloc, shown.as_slice())?)
}

/// What is told where nothing changed the bytes.
const UNCHANGED: &[u8] = b"nothing changes it before this place\n";

/// The line of an arrow.
fn arrow_line(alloc: Global, arrow: &Arrow) -> Result<Vec<u8>, AllocError>
    ensures { IfOk result (λ text. text.items ≡ arrow_text arrow.now) }
{
    let mut text = Vec::new(alloc);
    match put_arrow(&mut text, arrow) {
        Ok(()) => Ok(text),
        Err(_) => Err(AllocError),
    }
}

/// The line of a hart that gets, or sends, nothing.
fn nothing_line(alloc: Global, side: Side, who: Who) -> Result<Vec<u8>, AllocError>
    ensures { IfOk result (λ text. text.items ≡ nothing_text side who) }
{
    let mut text = Vec::new(alloc);
    match put_nothing(&mut text, side, who) {
        Ok(()) => Ok(text),
        Err(_) => Err(AllocError),
    }
}

impl Session {
    ghost use Rattle.rvmc_gdb.specs.Typing.{Monitors, Prints, PrintsChange, PrintsChangeAt, PrintsEnd, PrintsFound, PrintsGo};
    ghost use Rattle.rvmc_gdb.specs.Typing.{PrintsGoal, PrintsRank, PrintsWhy, PrintsWord, change_mark, change_mover};

    /// The text of the place.
    fn place(&self) -> Result<Vec<u8>, AllocError>
        ensures { IfOk result (λ text. PrintsWord self.now word.Place self.now text.items) }
    {
        let (n, len) = self.debugger.place();
        Ok(place_text(self.alloc, n, len)?.into_bytes())
    }

    /// Goes to a place, and tells it, and how gdb shows it.
    fn go_to(&mut self, n: u64) -> Result<Vec<u8>, AllocError>
        ensures { IfOk result (λ text. PrintsGo self.old n self.new text.items) }
    {
        match self.debugger.go(n) {
            Ok(()) => {
                let mut text = self.place()?;
                text.extend_from_slice(FLUSH)?;
                Ok(text)
            }
            Err(fault) => Ok(refusal(self.alloc, fault)?),
        }
    }

    /// The registers of a hart of any rank.
    fn regs(&self, rank: u8, hart: u8) -> Result<Vec<u8>, AllocError>
        ensures { IfOk result (λ text. PrintsWord self.now (word.Regs rank hart) self.now text.items) }
    {
        match self.debugger.regs(rank, hart) {
            Ok(shown) => regs_text(self.alloc, rank, hart, shown),
            Err(fault) => Ok(refusal(self.alloc, fault)?),
        }
    }

    /// Bytes of any rank's memory.
    fn bytes_of(&self, rank: u8, at: &Spot, count: u64) -> Result<Vec<u8>, AllocError>
        ensures { IfOk result (λ text. PrintsWord self.now (word.Bytes rank at.now count) self.now text.items) }
    {
        match bytes_of(self.alloc, &self.debugger, rank, count, at) {
            Ok(text) => Ok(text),
            Err(fault) => Ok(refusal(self.alloc, fault)?),
        }
    }

    /// Shows another rank from now on, if it is there, and its first hart.
    fn show_rank(&mut self, rank: u8) -> Result<Vec<u8>, AllocError>
        ensures { IfOk result (λ text. PrintsRank self.old rank self.new text.items) }
    {
        if rank >= self.debugger.image().parts().ranks {
            return fault_text(self.alloc, DebugFault::NoRank);
        }
        self.rank = rank;
        self.hart = 0;
        self.moved = None;
        text_of(self.alloc, FLUSH)
    }

    /// What each hart waits for.
    fn why(&self) -> Result<Vec<u8>, AllocError>
        ensures { IfOk result (λ text. PrintsWhy self.now text.items) }
    {
        Ok(why(
            self.alloc,
            self.debugger.image(),
            self.debugger.state(),
            false,
        )?)
    }

    /// What is told of a place that is asked for.
    fn tell(&mut self, goal: Goal) -> Result<Vec<u8>, AllocError>
        ensures kept { OnOk result (self.new ≡ self.old) }
        ensures told { IfOk result (λ text. TellsGoal self.old.debugging goal text.items) }
    {
        let text = tell_goal(self.alloc, &mut self.debugger, goal)?;
        Ok(text)
    }

    /// Asks for a place, or for none, and tells of it.
    fn aim(&mut self, none: &[u8], goal: Option<Goal>) -> Result<Vec<u8>, AllocError>
        ensures { IfOk result (λ text. PrintsGoal none.now self.old goal self.new text.items) }
    {
        self.goal = goal;
        match goal {
            Some(goal) => {
                let text = self.tell(goal)?;
                Ok(text)
            }
            None => text_of(self.alloc, none),
        }
    }

    /// Tells of both ends of a message, and asks for the other one's place.
    fn tell_found(&mut self, side: Side, found: Option<Found>) -> Result<Vec<u8>, AllocError>
        ensures { IfOk result (λ text. PrintsFound side found self.old self.new text.items) }
    {
        let Some(found) = found else {
            let nothing = nothing_line(self.alloc, side, self.own_who())?;
            return self.aim(nothing.as_slice(), None);
        };
        let mut text = arrow_line(self.alloc, &found.arrow)?;
        let more = self.aim(b"", other_end(side, &found.arrow))?;
        text.extend_from_slice(more.as_slice())?;
        Ok(text)
    }

    /// The other end of what the hart gets, or sends.
    fn end_of(&mut self, side: Side) -> Result<Vec<u8>, AllocError>
        ensures { IfOk result (λ text. PrintsEnd side self.old self.new text.items) }
    {
        let found = found_end(self.alloc, &self.debugger, side, self.own_who())?;
        self.tell_found(side, found)
    }

    /// The bytes from an address on, of the rank that is meant.
    fn change_mark(&self, at: &Spot, address: u64) -> Mark
        ensures { result ≡ change_mark self.now at.now address }
    {
        let symbols = self.debugger.image().parts().symbols.as_slice();
        Mark {
            ranks: Ranks::One(self.rank),
            point: Point::Written,
            address,
            size: bytes_of_spot(symbols, at, address),
        }
    }

    /// A run of that rank.
    fn change_mover(&self) -> Mover
        ensures { result ≡ change_mover self.now }
    {
        Mover {
            ranks: Ranks::One(self.rank),
            rank: self.rank,
            hart: self.hart,
            motion: Motion::Run,
        }
    }

    /// What changed the bytes of a mark last.
    fn change_at(&mut self, mark: Mark) -> Result<Vec<u8>, AllocError>
        ensures { IfOk result (λ text. PrintsChangeAt mark self.old self.new text.items) }
    {
        if !can_stand(self.owner(), &mark) {
            self.goal = None;
            return fault_text(self.alloc, DebugFault::Range);
        }
        let mover = self.change_mover();
        let goal = last_write(self.alloc, &mut self.debugger, mark, mover)?;
        self.aim(UNCHANGED, goal)
    }

    /// What changed the bytes of an address, or of a symbol, last.
    fn change_of(&mut self, at: &Spot) -> Result<Vec<u8>, AllocError>
        ensures { IfOk result (λ text. PrintsChange at.now self.old self.new text.items) }
    {
        match address_of(&self.debugger, at) {
            Ok(address) => self.change_at(self.change_mark(at, address)),
            Err(_) => {
                self.goal = None;
                fault_text(self.alloc, DebugFault::NoSymbol)
            }
        }
    }

    /// Does a word, and tells what it prints.
    fn prints(&mut self, word: &Typed) -> Result<Vec<u8>, AllocError>
        ensures { IfOk result (λ text. Prints self.old word.now self.new text.items) }
    {
        match word {
            Typed::Help => text_of(self.alloc, HELP),
            Typed::Why => self.why(),
            Typed::Rank(rank) => self.show_rank(*rank),
            Typed::Go(n) => self.go_to(*n),
            Typed::Place => self.place(),
            Typed::Regs { rank, hart } => self.regs(*rank, *hart),
            Typed::Bytes { rank, at, count } => self.bytes_of(*rank, at, *count),
            Typed::Sent => self.end_of(Side::Gets),
            Typed::Got => self.end_of(Side::Sends),
            Typed::LastWrite(at) => self.change_of(at),
            Typed::Unknown => text_of(self.alloc, UNKNOWN),
        }
    }

    /// Does what was typed, and answers what it prints.
    pub(crate) fn monitor(&mut self, typed: &[u8]) -> Result<Vec<u8>, AllocError>
        ensures { IfOk result (λ text. Monitors self.old typed.now self.new text.items) }
    {
        let word = typed_word(self.alloc, typed)?;
        let printed = self.prints(&word)?;
        printed_text(self.alloc, printed.as_slice())
    }
}
