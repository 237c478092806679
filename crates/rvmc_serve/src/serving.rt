//! The session of a stream.

ghost use Rattle.std.specs.Prelude.{◌≡◌, ◌≢◌, ◌<◌, ◌≤◌, ◌+◌, ◌++◌, IfErr, IfOk, List, None, OnOk, Option, Some, length, ⊤, ℕ};
ghost use Rattle.std.specs.Option.{unwrap_or};
ghost use Rattle.std.specs.Io.KnownBytes.{Appends, Consumes, Keeps};
ghost use Rattle.cl_text.specs.Front.Input.{IsFront};
ghost use Rattle.cl_debug.specs.declared.faults.DebugFault.TheVariants.{NoRank};
ghost use Rattle.cl_text.specs.Reading.{reading_record};
ghost use Rattle.rvmc_gdb.specs.Serving.{opened as opened_at};
ghost use Rattle.rvmc_gdb.specs.Talks.{Serves, flow_of};
ghost use Rattle.rvmc_gdb.specs.Below.{TakesAtMost};
ghost use Rattle.rvmc_gdb.specs.Below.faults;
ghost use Rattle.rvmc_serve.specs.Serving.{CutsShort, IsFaultOf, IsOfFront, IsOpenedAs, fault_of_front};
ghost use Rattle.rvmc_serve.specs.Sessions.{HearsAll, HearsSome, IsSession};

use cl_debug::{DebugFault, Debugger};
use cl_text::front::{Front, FrontFault, read_front};
use cl_text::read_record;
use rvmc_gdb::faults::Fault;
use rvmc_gdb::{Flow, Server, Session};
use std::alloc::Global;
use std::io::{Read, Write};

/// How many bytes are read at most, those of the record among them, and how many reads but one.
pub(crate) const MOST: usize = 67_108_864;

/// Why a session ended before its client left, and before its input came to an end.
#[derive(Drop)]
pub struct Refused {
    pub fault: Fault,
    /// What was read as a record, where the fault is one of it.
    pub bytes: Vec<u8>,
}

/// How a fault of the front is told.
fn front_fault(fault: FrontFault) -> Fault
    ensures { result ≡ fault_of_front fault }
{
    match fault {
        FrontFault::Read => Fault::Read,
        FrontFault::Memory => Fault::Memory,
    }
}

/// The session of a rank at the debugger's place, or of all ranks; or NoRank where there is no such rank.
fn shown(alloc: Global, debugger: Debugger, rank: Option<u64>) -> Result<Session, DebugFault>
    ensures there { IfOk result (λ _. unwrap_or rank 0 < debugger.image.ranks) }
    ensures shown { IfOk result (λ session. session ≡ opened_at debugger rank) }
    ensures fault { IfErr result (λ fault. fault ≡ NoRank) }
    ensures no_rank { IfErr result (λ _. debugger.image.ranks ≤ unwrap_or rank 0) }
{
    match rank {
        None => Session::open(alloc, debugger, None),
        Some(rank) => {
            if rank >= u64::from(debugger.image().parts().ranks) {
                return Err(DebugFault::NoRank);
            }
            Session::open(alloc, debugger, Some(rank as u8))
        }
    }
}

/// A session of this rank, or of all ranks, over the record that bytes spell, of whose packets nothing is read. The fault is that of the
/// record, `NotARun` where its steps are no run of its image, `NoRank` where the image hasn't the rank, or `Memory`.
#[tactic(auto, using(crate::proofs::Opening::is_opened, crate::proofs::Opening::no_rank, crate::proofs::Opening::no_run, crate::proofs::Opening::unread))]
fn opened(alloc: Global, rank: Option<u64>, bytes: &[u8]) -> Result<Server, Fault>
    ensures opened { IfOk result (IsOpenedAs rank (reading_record bytes.now)) }
    ensures fault { IfErr result (IsFaultOf rank (reading_record bytes.now)) }
{
    let (image, steps) = read_record(alloc, bytes)?;
    let debugger = Debugger::open(alloc, image, steps)?;
    let session = shown(alloc, debugger, rank)?;
    Ok(Server::new(alloc, session))
}

/// The same, with the bytes beside the fault. Behind a record that was opened they are needed no more.
fn opened_or_kept(alloc: Global, rank: Option<u64>, bytes: Vec<u8>) -> Result<Server, Refused>
    ensures opened { IfOk result (IsOpenedAs rank (reading_record bytes.items)) }
    ensures fault { IfErr result (λ refused. IsFaultOf rank (reading_record bytes.items) refused.fault) }
    ensures kept { IfErr result (λ refused. refused.bytes.items ≡ bytes.items) }
{
    match opened(alloc, rank, bytes.as_slice()) {
        Ok(server) => Ok(server),
        Err(fault) => Err(Refused { fault, bytes }),
    }
}

/// Writes a text, and tells whether the writer took all of it.
pub(crate) fn put<W: Write>(out: &mut W, text: &[u8]) -> Result<(), Fault>
    ensures written { OnOk result (Appends (W.contents out.old) (W.contents out.new) text.now) }
    ensures fault { IfErr result (λ fault. fault ≡ faults.Write) }
{
    if out.write_all(text).is_ok() && out.flush().is_ok() {
        Ok(())
    } else {
        Err(Fault::Write)
    }
}

/// Hears further bytes, and writes at once what is answered.
fn answered<W: Write>(
    alloc: Global,
    server: &mut Server,
    bytes: &[u8],
    out: &mut W,
) -> Result<Flow, Fault>
    ensures serves { OnOk result ((text : List ℕ) × Serves server.old bytes.now server.new text
        × Appends (W.contents out.old) (W.contents out.new) text) }
    ensures flow { IfOk result (λ flow. flow ≡ flow_of server.new.talk.ended) }
    ensures cut { IfErr result (λ fault. CutsShort fault (Keeps (W.contents out.old) (W.contents out.new))) }
{
    let mut text = Vec::new(alloc);
    let flow = server.serve(bytes, &mut text)?;
    put(out, text.as_slice())?;
    Ok(flow)
}

/// Hears the rest of an input, in pieces of 4,096 bytes at most, until the client leaves. `Read` comes where a read
/// fails, and where more bytes than `most` are read, or more than 67,108,865 times.
#[tactic(auto, using(crate::proofs::Hearing::cut_quiet))]
fn talk<I: Read, O: Write>(
    alloc: Global,
    server: &mut Server,
    most: usize,
    input: &mut I,
    out: &mut O,
) -> Result<(), Fault>
    ensures whole { (bytes : List ℕ) → I.remaining input.old ≡ Some bytes → IfOk result (λ _.
        (text : List ℕ) × HearsAll server.old bytes text
        × Appends (O.contents out.old) (O.contents out.new) text) }
    ensures cut { (bytes : List ℕ) → I.remaining input.old ≡ Some bytes → IfErr result (λ fault.
        CutsShort fault ((text : List ℕ) × HearsSome server.old bytes text
        × Appends (O.contents out.old) (O.contents out.new) text)) }
    ensures fault { IfErr result (λ fault. CutsShort fault ⊤) }
    ensures front { TakesAtMost (most + 4096) (I.remaining input.old) (I.remaining input.new) }
{
    let mut left = most;
    let mut buffer = [0u8; 4096];
    for _ in 0..=MOST {
        let Ok(count) = input.read(&mut buffer) else {
            return Err(Fault::Read);
        };
        if count == 0 {
            return Ok(());
        }
        if count > left {
            return Err(Fault::Read);
        }
        left -= count;
        if let Flow::Ended = answered(alloc, server, &buffer[..count], out)? {
            return Ok(());
        }
    }
    Err(Fault::Read)
}

/// The same, where bytes were read before that are to be heard first.
#[tactic(auto, using(crate::proofs::Hearing::cut_at_once))]
fn talk_behind<I: Read, O: Write>(
    alloc: Global,
    server: &mut Server,
    first: &[u8],
    most: usize,
    input: &mut I,
    out: &mut O,
) -> Result<(), Fault>
    ensures whole { (bytes : List ℕ) → I.remaining input.old ≡ Some bytes → IfOk result (λ _.
        (text : List ℕ) × HearsAll server.old (first.now ++ bytes) text
        × Appends (O.contents out.old) (O.contents out.new) text) }
    ensures cut { (bytes : List ℕ) → I.remaining input.old ≡ Some bytes → IfErr result (λ fault.
        CutsShort fault ((text : List ℕ) × HearsSome server.old (first.now ++ bytes) text
        × Appends (O.contents out.old) (O.contents out.new) text)) }
    ensures fault { IfErr result (λ fault. CutsShort fault ⊤) }
    ensures front { TakesAtMost (most + 4096) (I.remaining input.old) (I.remaining input.new) }
{
    match answered(alloc, server, first, out)? {
        Flow::On => talk(alloc, server, most, input, out),
        Flow::Ended => Ok(()),
    }
}

/// The same; a fault stands beside no bytes.
fn talked<I: Read, O: Write>(
    alloc: Global,
    server: &mut Server,
    behind: &[u8],
    most: usize,
    input: &mut I,
    out: &mut O,
) -> Result<(), Refused>
    ensures whole { (bytes : List ℕ) → I.remaining input.old ≡ Some bytes → IfOk result (λ _.
        (text : List ℕ) × HearsAll server.old (behind.now ++ bytes) text
        × Appends (O.contents out.old) (O.contents out.new) text) }
    ensures cut { (bytes : List ℕ) → I.remaining input.old ≡ Some bytes → IfErr result (λ refused.
        CutsShort refused.fault ((text : List ℕ) × HearsSome server.old (behind.now ++ bytes) text
        × Appends (O.contents out.old) (O.contents out.new) text)) }
    ensures fault { IfErr result (λ refused. CutsShort refused.fault ⊤) }
    ensures front { TakesAtMost (most + 4096) (I.remaining input.old) (I.remaining input.new) }
{
    match talk_behind(alloc, server, behind, most, input, out) {
        Ok(()) => Ok(()),
        Err(fault) => Err(Refused {
            fault,
            bytes: Vec::new(alloc),
        }),
    }
}

/// The front of an input. A fault stands beside no bytes.
pub(crate) fn front_of<I: Read>(alloc: Global, input: &mut I) -> Result<Front, Refused>
    ensures taken { IfOk result (λ front. Consumes (I.remaining input.old) (I.remaining input.new)
        (front.record.items ++ front.behind.items)) }
    ensures front { IfOk result (λ front.
        IsFront front.record.items front.behind.items (I.remaining input.new)) }
    ensures short { IfOk result (λ front. length (front.record.items ++ front.behind.items) ≤ 67108864) }
    ensures fault { IfErr result (λ refused. IsOfFront refused.fault) }
    ensures hint { (rank : Option ℕ) → IfErr result (λ refused. IsFaultOf rank (reading_record refused.bytes.items) refused.fault) }
    ensures most { TakesAtMost 67112960 (I.remaining input.old) (I.remaining input.new) }
{
    match read_front(alloc, input) {
        Ok(front) => Ok(front),
        Err(fault) => Err(Refused {
            fault: front_fault(fault),
            bytes: Vec::new(alloc),
        }),
    }
}

/// Serves a client of gdb's remote serial protocol: the input is a record, and behind it what the client sends, each
/// piece of which is answered on the output at once. The session is that of the record's rank `rank`, or of all its ranks,
/// before its first step; it ends where the client leaves, or with the input.
///
/// The fault is that of the record, which decides at the byte where it is known; `Debug` with `NotARun`, where its steps
/// are no run of its image, or with `NoRank`; `Memory` where memory is refused; `Read` where a read fails, where there are
/// more than 67,108,864 bytes, the record's among them, or more reads than so many and one; and `Write` where a write
/// fails.
pub fn serve<I: Read, O: Write>(
    alloc: Global,
    rank: Option<u64>,
    input: &mut I,
    out: &mut O,
) -> Result<(), Refused>
    // What stands on the output is what is answered to all that the client sent, until it left.
    ensures served { (bytes : List ℕ) → I.remaining input.old ≡ Some bytes → IfOk result (λ _.
        (text : List ℕ) × IsSession rank bytes text None
        × Appends (O.contents out.old) (O.contents out.new) text) }
    // Nothing, where there is no session; or what is answered to what was heard until it was cut short.
    ensures refused { (bytes : List ℕ) → I.remaining input.old ≡ Some bytes → IfErr result (λ refused.
        refused.fault ≢ faults.Write → (text : List ℕ) × IsSession rank bytes text (Some refused.fault)
        × Appends (O.contents out.old) (O.contents out.new) text) }
    // The bytes beside a fault of a record are those that have it.
    ensures hint { IfErr result (λ refused. IsFaultOf rank (reading_record refused.bytes.items) refused.fault) }

    // Whatever is answered: bytes are taken from the front alone, and 4,096 beyond the limit at most.
    ensures front { TakesAtMost 67112960 (I.remaining input.old) (I.remaining input.new) }
{
    let Front { record, behind } = match front_of(alloc, input) {
        Ok(front) => front,
        Err(refused) => return Err(refused),
    };
    let most = MOST - record.len() - behind.len();
    let mut server = match opened_or_kept(alloc, rank, record) {
        Ok(server) => server,
        Err(refused) => return Err(refused),
    };
    talked(alloc, &mut server, behind.as_slice(), most, input, out)
}
