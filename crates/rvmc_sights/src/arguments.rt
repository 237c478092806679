//! The arguments of calls, as text.

ghost use Rattle.std.specs.Prelude.{◌≡◌, ◌++◌, OnOk, Some, codes};
ghost use Rattle.rvmc_sights.specs.Arguments.{arguments_text, claimed_text, completing_text, partitioning_text};
ghost use Rattle.rvmc_sights.specs.Arguments.{part_text, probing_text, receiving_text, sending_text, several_text};
ghost use Rattle.rvmc_sights.specs.Arguments.{buffer_text, comm_argument, handle_text, match_text, status_text, wild_text};

use cl_calls::{
    ANY, Call, Claimed, Completing, NO_RANK, Partitioning, Probing, Receiving, Sending, Several,
};
use std::io::Write;
use std::{fmt, io};

/// A rank, a tag or a message handle, which may be `any` or `null`.
#[derive(Clone, Copy, Drop)]
pub(crate) struct Wild(pub(crate) u64);

impl fmt::Display for Wild {
    ghost output = { λ wild. Some (wild_text wild.0) };

    fn fmt<W: fmt::Write>(&self, f: &mut fmt::Formatter<W>) -> fmt::Result {
        let number = self.0;
        if number == ANY {
            return write!(f, "any");
        }
        if number == NO_RANK {
            return write!(f, "null");
        }
        write!(f, "{number}")
    }
}

/// Adds a buffer, and how many bytes it has or may get, or how many partitions.
fn put_buffer(text: &mut Vec<u8>, buffer: u64, name: &'static str, count: u64) -> io::Result<()>
    ensures { OnOk result (text.new.items ≡ text.old.items ++ buffer_text buffer name.now count) }
{
    write!(text, " buf=0x{buffer:x}{name}{count}")
}

/// Adds the other rank, a tag and a communicator.
fn put_match(
    text: &mut Vec<u8>,
    name: &'static str,
    rank: u64,
    tag: u64,
    comm: u64,
) -> io::Result<()>
    ensures { OnOk result (text.new.items ≡ text.old.items ++ match_text name.now rank tag comm) }
{
    let rank = Wild(rank);
    let tag = Wild(tag);
    write!(text, "{name}{rank} tag={tag} c={comm}")
}

/// Adds the arguments of a send.
fn put_sending(text: &mut Vec<u8>, s: &Sending) -> io::Result<()>
    ensures { OnOk result (text.new.items ≡ text.old.items ++ sending_text s.now) }
{
    put_buffer(text, s.buffer, " count=", s.count)?;
    put_match(text, " dest=", s.dest, s.tag, s.comm)
}

/// Adds the arguments of a receive.
fn put_receiving(text: &mut Vec<u8>, r: &Receiving) -> io::Result<()>
    ensures { OnOk result (text.new.items ≡ text.old.items ++ receiving_text r.now) }
{
    put_buffer(text, r.buffer, " cap=", r.capacity)?;
    put_match(text, " source=", r.source, r.tag, r.comm)
}

/// Adds the arguments of a receive of a claimed message.
fn put_claimed(text: &mut Vec<u8>, m: &Claimed) -> io::Result<()>
    ensures { OnOk result (text.new.items ≡ text.old.items ++ claimed_text m.now) }
{
    put_buffer(text, m.buffer, " cap=", m.capacity)?;
    let message = Wild(m.message);
    write!(text, " m={message}")
}

/// Adds the address of a status.
fn put_status(text: &mut Vec<u8>, status: u64) -> io::Result<()>
    ensures { OnOk result (text.new.items ≡ text.old.items ++ status_text status) }
{
    write!(text, " st=0x{status:x}")
}

/// Adds the arguments of a probe.
fn put_probing(text: &mut Vec<u8>, p: &Probing) -> io::Result<()>
    ensures { OnOk result (text.new.items ≡ text.old.items ++ probing_text p.now) }
{
    put_match(text, " source=", p.source, p.tag, p.comm)?;
    put_status(text, p.status)
}

/// Adds the handle of a request.
fn put_handle(text: &mut Vec<u8>, handle: u64) -> io::Result<()>
    ensures { OnOk result (text.new.items ≡ text.old.items ++ handle_text handle) }
{
    write!(text, " h={handle}")
}

/// Adds the arguments of a call that completes a request.
fn put_completing(text: &mut Vec<u8>, c: &Completing) -> io::Result<()>
    ensures { OnOk result (text.new.items ≡ text.old.items ++ completing_text c.now) }
{
    put_handle(text, c.handle)?;
    put_status(text, c.status)
}

/// Adds the arguments of a call that completes several requests.
fn put_several(text: &mut Vec<u8>, s: &Several) -> io::Result<()>
    ensures { OnOk result (text.new.items ≡ text.old.items ++ several_text s.now) }
{
    let Several {
        array,
        count,
        statuses,
    } = *s;
    write!(
        text,
        " array=0x{array:x} count={count} statuses=0x{statuses:x}"
    )
}

/// Adds the arguments of a call that makes a side of a partitioned transfer.
fn put_partitioning(text: &mut Vec<u8>, name: &'static str, t: &Partitioning) -> io::Result<()>
    ensures { OnOk result (text.new.items ≡ text.old.items ++ partitioning_text name.now t.now) }
{
    put_buffer(text, t.buffer, " parts=", t.parts)?;
    let size = t.size;
    write!(text, " size={size}")?;
    put_match(text, name, t.peer, t.tag, t.comm)
}

/// Adds the handle of a request, and a partition of its transfer.
fn put_part(text: &mut Vec<u8>, handle: u64, part: u64) -> io::Result<()>
    ensures { OnOk result (text.new.items ≡ text.old.items ++ part_text handle part) }
{
    put_handle(text, handle)?;
    write!(text, " partition={part}")
}

/// Adds a communicator.
fn put_comm(text: &mut Vec<u8>, comm: u64) -> io::Result<()>
    ensures { OnOk result (text.new.items ≡ text.old.items ++ comm_argument comm) }
{
    write!(text, " c={comm}")
}

/// Adds the arguments of a call, each behind a blank.
pub(crate) fn put_arguments(text: &mut Vec<u8>, call: &Call) -> io::Result<()>
    ensures { OnOk result (text.new.items ≡ text.old.items ++ arguments_text call.now) }
{
    match call {
        Call::Exit { code } => write!(text, " code={code}"),
        Call::Put { buffer, count } => put_buffer(text, *buffer, " count=", *count),
        Call::Rank { comm } | Call::Size { comm } => put_comm(text, *comm),
        Call::Send(s) | Call::Ssend(s) | Call::Isend(s) | Call::Issend(s) | Call::SendInit(s) =>
            put_sending(text, s),
        Call::Recv { receiving, status } => {
            put_receiving(text, receiving)?;
            put_status(text, *status)
        }
        Call::Irecv(r) | Call::RecvInit(r) => put_receiving(text, r),
        Call::Test(c) | Call::Wait(c) => put_completing(text, c),
        Call::Iprobe(p) | Call::Probe(p) | Call::Improbe(p) | Call::Mprobe(p) => {
            put_probing(text, p)
        }
        Call::Imrecv(m) => put_claimed(text, m),
        Call::Mrecv { claimed, status } => {
            put_claimed(text, claimed)?;
            put_status(text, *status)
        }
        Call::Start { handle } | Call::RequestFree { handle } => put_handle(text, *handle),
        Call::Testall(s) | Call::Waitall(s) => put_several(text, s),
        Call::PsendInit(t) => put_partitioning(text, " dest=", t),
        Call::PrecvInit(t) => put_partitioning(text, " source=", t),
        Call::Pready { handle, part } | Call::Parrived { handle, part } => {
            put_part(text, *handle, *part)
        }
        _ => Ok(()),
    }
}
