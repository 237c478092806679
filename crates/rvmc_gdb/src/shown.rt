//! What is shown of the rank at the place.

ghost use Rattle.std.specs.Prelude.{◌≡◌, ◌<◌, ◌≤◌, ◌+◌, ◌++◌, ◌==◌, [], IfOk, OnOk, map, option_map, slice_get, true};
ghost use Rattle.std.specs.List.{range_with_len, slice_split};
ghost use Rattle.std.specs.Option.{option_copied, unwrap_or};
ghost use Rattle.hex.specs.Hex.{encode_lower};
ghost use Rattle.rvmc_protocol.specs.Replies.Digits.{register_text};
ghost use Rattle.rvmc_protocol.specs.Replies.Features.{description_text};
ghost use Rattle.rvmc_protocol.specs.Replies.Parts.{part_of};
ghost use Rattle.rvmc_gdb.specs.Serving.{refused};
ghost use Rattle.rvmc_gdb.specs.Shown.{IsLine, behind_name, line_at, wait_lines, register_value, registers_of, registers_text};

use crate::session::{Session, Who, text_of};
use cl_debug::{DebugFault, Debugger};
use cl_replay::ClusterState;
use cl_state::RankState;
use rv_decode::Reg;
use rv_hart::Hart;
use rv_image_types::Symbol;
use rvmc_picture::put_harts;
use rvmc_protocol::replies::{description, put_bytes, put_name, put_named, put_part, put_register};
use std::alloc::{AllocError, Global};
use std::io;

/// Adds x0 to x31.
fn put_registers(alloc: Global, text: &mut Vec<u8>, hart: &Hart) -> Result<(), AllocError>
    ensures { OnOk result (text.new.items ≡ text.old.items ++ registers_of hart.now (range_with_len 0 32)) }
{
    for number in 0..32 {
        let value = hart.get(Reg::new(number));
        put_register(alloc, text, value)?;
    }
    Ok(())
}

/// All registers of a hart: x0 to x31 and the pc.
fn registers_text(alloc: Global, hart: &Hart) -> Result<Vec<u8>, AllocError>
    ensures { IfOk result (λ text. text.items ≡ registers_text hart.now) }
{
    let mut text = Vec::new(alloc);
    put_registers(alloc, &mut text, hart)?;
    put_register(alloc, &mut text, hart.pc())?;
    Ok(text)
}

/// A register of a hart, of which 32 is the pc.
fn register_value(hart: &Hart, number: u64) -> Option<u64>
    ensures { result ≡ register_value number hart.now }
{
    if number < 32 {
        Some(hart.get(Reg::new(number as u8)))
    } else if number == 32 {
        Some(hart.pc())
    } else {
        None
    }
}

/// The text of a register.
fn register_text(alloc: Global, value: u64) -> Result<Vec<u8>, AllocError>
    ensures { IfOk result (λ text. text.items ≡ register_text value) }
{
    let mut text = Vec::new(alloc);
    put_register(alloc, &mut text, value)?;
    Ok(text)
}

/// Bytes in digits.
pub(crate) fn digits_of(alloc: Global, bytes: &[u8]) -> Result<Vec<u8>, AllocError>
    ensures { IfOk result (λ text. text.items ≡ encode_lower bytes.now) }
{
    let mut text = Vec::new(alloc);
    put_bytes(alloc, &mut text, bytes)?;
    Ok(text)
}

/// The pieces of a text between its newlines.
fn lines(alloc: Global, text: &[u8]) -> Result<Vec<&[u8]>, AllocError>
    ensures { IfOk result
        (λ pieces. map (λ piece. piece.now) pieces.items ≡ slice_split (λ byte. byte == 10) text.now) }
{
    text.split(|byte| *byte == b'\n').collect(alloc)
}

/// The piece of this number between newlines, if there is one.
fn line_of(alloc: Global, text: &[u8], number: u8) -> Result<Option<Vec<u8>>, AllocError>
    ensures { IfOk result (λ found. option_map (λ line. line.items) found
        ≡ slice_get (slice_split (λ byte. byte == 10) text.now) number) }
{
    let pieces = lines(alloc, text)?;
    match pieces.get(usize::from(number)) {
        Some(line) => Ok(Some(text_of(alloc, line)?)),
        None => Ok(None),
    }
}

/// The line of a hart among those that `why` has of a rank's harts.
fn owner_line(
    alloc: Global,
    symbols: &[Symbol],
    state: &ClusterState,
    rank: u8,
    owner: &RankState,
    hart: u8,
) -> Result<Option<Vec<u8>>, AllocError>
    ensures { IfOk result (λ found. option_map (λ text. text.items) found
        ≡ slice_get (wait_lines symbols.now state.now rank owner.now) hart) }
{
    let mut text = Vec::new(alloc);
    put_harts(
        alloc,
        &mut text,
        symbols,
        &state.hub,
        state.boxes.as_slice(),
        usize::from(rank),
        owner,
        false,
    )?;
    Ok(line_of(alloc, text.as_slice(), hart)?)
}

/// The line of a hart of a rank among those that `why` has, if there is one.
fn rank_line(
    alloc: Global,
    symbols: &[Symbol],
    state: &ClusterState,
    rank: u8,
    hart: u8,
) -> Result<Option<Vec<u8>>, AllocError>
    ensures { IfOk result (λ found. option_map (λ text. text.items) found ≡ line_at symbols.now state.now rank hart) }
{
    match state.ranks.get(usize::from(rank)) {
        Some(owner) => owner_line(alloc, symbols, state, rank, owner, hart),
        None => Ok(None),
    }
}

/// A text that was found, in digits, or a refusal.
fn digits_or_refused(alloc: Global, found: Option<Vec<u8>>) -> Result<Vec<u8>, AllocError>
    ensures { IfOk result (λ text. text.items
        ≡ unwrap_or (option_map encode_lower (option_map (λ text. text.items) found)) refused) }
{
    match found {
        Some(text) => digits_of(alloc, text.as_slice()),
        None => text_of(alloc, b"E01"),
    }
}

/// What `why` tells of a hart at the debugger's place, if it tells something.
pub(crate) fn hart_line(
    alloc: Global,
    debugger: &Debugger,
    who: Who,
) -> Result<Option<Vec<u8>>, AllocError>
    ensures { IfOk result (λ found. IsLine debugger.now who (option_map (λ text. text.items) found)) }
{
    let symbols = debugger.image().parts().symbols.as_slice();
    Ok(rank_line(alloc, symbols, debugger.state(), who.rank, who.hart)?)
}

/// What stands behind a hart's name and a blank.
fn behind_name(alloc: Global, who: Who, line: &[u8]) -> io::Result<Vec<u8>>
    ensures { IfOk result (λ text. text.items ≡ behind_name who line.now) }
{
    let mut name = Vec::new(alloc);
    put_name(&mut name, who.rank, who.hart)?;
    let begin = line.len().min(name.len() + 1);
    Ok(Vec::from_slice(alloc, &line[begin..])?)
}

/// What is told of a hart behind its name, or nothing.
fn told_of(alloc: Global, who: Who, line: Option<Vec<u8>>) -> io::Result<Vec<u8>>
    ensures { IfOk result
        (λ text. text.items ≡ behind_name who (unwrap_or (option_map (λ line. line.items) line) [])) }
{
    match line {
        Some(line) => behind_name(alloc, who, line.as_slice()),
        None => behind_name(alloc, who, b""),
    }
}

impl Session {
    ghost use Rattle.rvmc_gdb.specs.Shown.{IsOwn, IsRead, TellsBytes, TellsRegister, TellsRegisters, TellsThread, raw_text};
    ghost use Rattle.rvmc_gdb.specs.Serving.{thread_count};
    ghost use Rattle.rvmc_gdb.specs.Shown.{Lists, ListsIf, Names, named_thread, named_threads, names_in};

    /// The hart that is meant, if the image has one of these numbers.
    fn own(&self) -> Option<&Hart>
        ensures { IsOwn self.now (option_copied result) }
    {
        match self.debugger.regs(self.rank, self.hart) {
            Ok(hart) => Some(hart),
            Err(_) => None,
        }
    }

    /// All registers of the hart that is meant.
    pub(crate) fn registers(&self) -> Result<Vec<u8>, AllocError>
        ensures { IfOk result (λ text. TellsRegisters self.now text.items) }
    {
        match self.own() {
            Some(hart) => registers_text(self.alloc, hart),
            None => self.refused(),
        }
    }

    /// One of them.
    pub(crate) fn register(&self, number: u64) -> Result<Vec<u8>, AllocError>
        ensures { IfOk result (λ text. TellsRegister self.now number text.items) }
    {
        let Some(hart) = self.own() else {
            return self.refused();
        };
        match register_value(hart, number) {
            Some(value) => register_text(self.alloc, value),
            None => self.refused(),
        }
    }

    /// Bytes of the rank's memory, or none where some of them are outside.
    fn read(&self, address: u64, count: u64) -> Result<Option<Vec<u8>>, AllocError>
        ensures { IfOk result (λ found. IsRead self.now address count (option_map (λ bytes. bytes.items) found)) }
    {
        match self.debugger.bytes(self.rank, address, count) {
            Ok(bytes) => Ok(Some(bytes)),
            Err(DebugFault::Memory) => Err(AllocError),
            Err(_) => Ok(None),
        }
    }

    /// Bytes of the rank's memory, in digits.
    pub(crate) fn bytes(&self, address: u64, count: u64) -> Result<Vec<u8>, AllocError>
        ensures { IfOk result (λ text. TellsBytes encode_lower self.now address count text.items) }
    {
        match self.read(address, count)? {
            Some(bytes) => digits_of(self.alloc, bytes.as_slice()),
            None => self.refused(),
        }
    }

    /// Bytes of the rank's memory as they are, behind `b`.
    pub(crate) fn raw_bytes(&self, address: u64, count: u64) -> Result<Vec<u8>, AllocError>
        ensures { IfOk result (λ text. TellsBytes raw_text self.now address count text.items) }
    {
        match self.read(address, count)? {
            Some(bytes) => {
                let mut text = text_of(self.alloc, b"b")?;
                text.extend_from_slice(bytes.as_slice())?;
                Ok(text)
            }
            None => self.refused(),
        }
    }

    /// What `why` tells of a thread, in digits.
    pub(crate) fn thread_text(&self, thread: u64) -> Result<Vec<u8>, AllocError>
        ensures { IfOk result (λ text. TellsThread self.now thread text.items) }
    {
        let Some(who) = self.who_of(thread) else {
            return self.refused();
        };
        let found = hart_line(self.alloc, &self.debugger, who)?;
        Ok(digits_or_refused(self.alloc, found)?)
    }

    /// Adds a thread, which is that of a number from 0 on and 1, with its name and what `why` tells of it.
    #[tactic(auto, unfolding(crate::specs::Shown::named_thread))]
    fn put_thread(
        &self,
        text: &mut Vec<u8>,
        symbols: &[Symbol],
        state: &ClusterState,
        number: u64,
        thread: u64,
    ) -> io::Result<()>
        requires there { number < thread_count self.now }
        requires next { thread ≡ number + 1 }
        ensures { OnOk result (text.new.items
            ≡ text.old.items ++ named_thread symbols.now state.now self.now number) }
    {
        let who = self.who_at(number);
        let line = rank_line(self.alloc, symbols, state, who.rank, who.hart)?;
        let told = told_of(self.alloc, who, line)?;
        put_named(text, thread, who.rank, who.hart, told.as_slice())
    }

    /// Adds so many threads, from the first on.
    fn put_threads(
        &self,
        text: &mut Vec<u8>,
        symbols: &[Symbol],
        state: &ClusterState,
        count: u64,
    ) -> io::Result<()>
        requires { count ≤ thread_count self.now }
        ensures { OnOk result (text.new.items
            ≡ text.old.items ++ named_threads symbols.now state.now self.now count) }
    {
        for number in 0..count {
            self.put_thread(text, symbols, state, number, number + 1)?;
        }
        Ok(())
    }

    /// The list of all threads by their names, in this state.
    fn names_in(&self, symbols: &[Symbol], state: &ClusterState) -> io::Result<Vec<u8>>
        ensures { IfOk result (λ text. text.items ≡ names_in symbols.now state.now self.now) }
    {
        let mut text = Vec::new(self.alloc);
        text.extend_from_slice(b"<?xml version=\"1.0\"?><threads>")?;
        self.put_threads(&mut text, symbols, state, self.thread_count())?;
        text.extend_from_slice(b"</threads>")?;
        Ok(text)
    }

    /// The list of all threads by their names.
    fn names(&self) -> io::Result<Vec<u8>>
        ensures { IfOk result (λ text. Names self.now text.items) }
    {
        let symbols = self.debugger.image().parts().symbols.as_slice();
        let state = self.debugger.state();
        Ok(self.names_in(symbols, state)?)
    }

    /// A part of that list.
    fn names_part(&self, from: u64, count: u64) -> Result<Vec<u8>, AllocError>
        ensures { IfOk result (λ text. ListsIf true self.now from count text.items) }
    {
        let Ok(list) = self.names() else {
            return Err(AllocError);
        };
        let mut text = Vec::new(self.alloc);
        put_part(&mut text, list.as_slice(), from, count)?;
        Ok(text)
    }

    /// A part of that list; with one rank there is none.
    pub(crate) fn thread_list(&self, from: u64, count: u64) -> Result<Vec<u8>, AllocError>
        ensures { IfOk result (λ text. Lists self.now from count text.items) }
    {
        if self.all {
            self.names_part(from, count)
        } else {
            Ok(Vec::new(self.alloc))
        }
    }

    /// A part of the registers' description.
    pub(crate) fn description(&self, from: u64, count: u64) -> Result<Vec<u8>, AllocError>
        ensures { IfOk result (λ text. text.items ≡ part_of description_text from count) }
    {
        let mut text = Vec::new(self.alloc);
        put_part(&mut text, description(), from, count)?;
        Ok(text)
    }
}
