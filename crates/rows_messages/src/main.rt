//! Reads calls of a hub from standard input, and prints what the hub answers.
//!
//! `hub N` starts a hub of two ranks, with N links from rank 0 to rank 1. `RANK HART CLOCK REQUEST` is a call of it:
//! the stamp and the reply are printed, or why it was refused. `times N` before a call makes it so often, and tells
//! the last; a `#` in it is then how often it was made before. `entries` prints how many calls were entered, and the
//! hart of the last. Behind `!` a request or a reply stands whose copy isn't the same. A call that is refused memory is
//! told as `memory`, and made once more.
//!
//! The rows of `stdin` and `stdout` were worked out by hand from what the calls are said to answer.
#![tactic(auto)]

mod printing;
mod requests;

use cl_journal::{Hub, HubFault};
use mp_types::{Reply, Request, Stamp};
use printing::print_reply;
use requests::{Row, byte, number, request};
use rv_image::{ImageFault, read_image};
use rv_image_types::Image;
use std::alloc::{AllocError, Global};
use std::io;
use std::io::Write;

/// The text of an image of two ranks, with so many links from rank 0 to rank 1.
fn image_text(alloc: Global, links: u8) -> Result<Vec<u8>, AllocError> {
    let header = b"RVMC\x01\0\x02\x01\0\x10\0\0\0\0\0\0\x04\0\0\0\0\0\0\0\0";
    let mut bytes = Vec::from_slice(alloc, header)?;
    bytes.extend_from_slice(&[links, 0, 0])?;
    for _ in 0..links {
        bytes.extend_from_slice(&[0, 1])?;
    }
    bytes.extend_from_slice(&[0x13, 0, 0, 0])?;
    Ok(bytes)
}

/// A hub of an image. Its only fault is that of memory.
fn started(alloc: Global, image: &Image) -> Result<Hub, ImageFault> {
    Ok(Hub::start(alloc, image)?)
}

/// A hub of the image that these bytes spell.
fn hub_of(alloc: Global, bytes: &[u8]) -> Result<Hub, ImageFault> {
    match read_image(alloc, bytes) {
        Ok(image) => started(alloc, &image),
        Err(fault) => Err(fault),
    }
}

/// A hub of two ranks, with so many links from rank 0 to rank 1.
fn hub(alloc: Global, links: u8) -> Result<Hub, ImageFault> {
    let bytes = image_text(alloc, links)?;
    hub_of(alloc, &bytes)
}

/// What the hub answers to a call: its reply and stamp, or why it was refused.
type Answer = Result<(Reply, Stamp), HubFault>;

/// Calls the hub as the row says.
fn called(hub: &mut Hub, row: &Row<'_>, request: Request) -> Answer {
    hub.call(byte(row, 0), byte(row, 1), number(row, 2), request)
}

/// Calls the hub as the row says. Where memory is refused, a line says so, and the call is made once more, with the copy.
fn call<W: Write>(
    out: &mut W,
    hub: &mut Hub,
    row: &Row<'_>,
    request: Request,
    copy: Request,
) -> io::Result<Answer> {
    match called(hub, row, request) {
        Err(HubFault::Memory) => {
            out.write_all(b"memory\n")?;
            Ok(called(hub, row, copy))
        }
        answer => Ok(answer),
    }
}

/// Prints `!` where a copy isn't the same.
fn print_copied<W: Write>(out: &mut W, is_same: bool) -> io::Result<()> {
    if is_same {
        return Ok(());
    }
    out.write_all(b"! ")
}

/// Whether a copy of the reply is the same.
fn is_copied(alloc: Global, reply: &Reply) -> Result<bool, AllocError> {
    Ok(reply.try_copy(alloc)? == *reply)
}

/// Prints a reply behind its stamp.
fn print_stamped<W: Write>(
    alloc: Global,
    out: &mut W,
    reply: &Reply,
    stamp: Stamp,
) -> io::Result<()> {
    write!(out, "{stamp}: ")?;
    print_copied(out, is_copied(alloc, reply)?)?;
    print_reply(out, reply)
}

/// Prints what the hub answered.
fn print_answer<W: Write>(alloc: Global, out: &mut W, answer: &Answer) -> io::Result<()> {
    match answer {
        Ok((reply, stamp)) => print_stamped(alloc, out, reply, *stamp),
        Err(HubFault::Memory) => out.write_all(b"memory\n"),
        Err(HubFault::ClockFull(clock)) => writeln!(out, "clock {clock}"),
        Err(HubFault::Calls(count)) => writeln!(out, "calls {count}"),
    }
}

/// Prints the answer to a call, and whether the copy of its request was the same.
fn print_last<W: Write>(
    alloc: Global,
    out: &mut W,
    copied: bool,
    answer: &Answer,
) -> io::Result<()> {
    print_copied(out, copied)?;
    print_answer(alloc, out, answer)
}

/// Makes a call, and prints what it was answered where it is the last.
fn make<W: Write>(
    alloc: Global,
    out: &mut W,
    hub: &mut Hub,
    row: &Row<'_>,
    request: Request,
    is_last: bool,
) -> io::Result<()> {
    let copy = request.try_copy(alloc)?;
    let copied = copy == request;
    let answer = call(out, hub, row, request, copy)?;
    if is_last {
        return print_last(alloc, out, copied, &answer);
    }
    Ok(())
}

/// Makes the call of a row, unless it spells none: then it prints that. Whether there is one.
fn make_row<W: Write>(
    alloc: Global,
    out: &mut W,
    hub: &mut Hub,
    row: &Row<'_>,
    is_last: bool,
) -> io::Result<bool> {
    match request(alloc, row)? {
        Some(request) => make(alloc, out, hub, row, request, is_last)?,
        None => {
            out.write_all(b"no request\n")?;
            return Ok(false);
        }
    }
    Ok(true)
}

/// Makes the call of a row so often, and prints what the last was answered.
fn repeat<W: Write>(
    alloc: Global,
    out: &mut W,
    hub: &mut Hub,
    row: &mut Row<'_>,
    times: u64,
) -> io::Result<()> {
    for turn in 0..times {
        row.turn = turn;
        if !make_row(alloc, out, hub, row, turn + 1 == times)? {
            break;
        }
    }
    Ok(())
}

/// Prints how many calls were entered, and the hart of the last.
fn print_entries<W: Write>(out: &mut W, hub: &Hub) -> io::Result<()> {
    let mut entries = hub.entries();
    let count = entries.len();
    let mut last = None;
    for _ in 0..count {
        last = entries.next();
    }
    match last {
        Some(entry) => writeln!(out, "{count} entries, hart {}", entry.like.hart),
        None => out.write_all(b"no entries\n"),
    }
}

/// Starts the hub anew, with so many links.
fn start_anew(alloc: Global, current: &mut Hub, links: u8) -> io::Result<()> {
    match hub(alloc, links) {
        Ok(hub) => *current = hub,
        Err(_fault) => return Err(io::Error::from(io::ErrorKind::OutOfMemory)),
    }
    Ok(())
}

/// Does what a row says. How often the next call is made.
fn take_row<W: Write>(
    alloc: Global,
    out: &mut W,
    current: &mut Hub,
    row: &mut Row<'_>,
    times: u64,
) -> io::Result<u64> {
    match row.words.first() {
        Some(&"hub") => start_anew(alloc, current, byte(row, 1))?,
        Some(&"times") => return Ok(number(row, 1)),
        Some(&"entries") => print_entries(out, current)?,
        _ => {
            repeat(alloc, out, current, row, times)?;
            return Ok(1)
        }
    }
    Ok(times)
}

/// Does what a line says. How often the next call is made.
fn take_line<W: Write>(
    alloc: Global,
    out: &mut W,
    current: &mut Hub,
    line: &str,
    times: u64,
) -> io::Result<u64> {
    let words: Vec<&str> = line.split(' ').collect(alloc)?;
    take_row(alloc, out, current, &mut Row { words, turn: 0 }, times)
}

/// Does what the lines of standard input say.
fn take_lines(rt: &HostRuntime, current: &mut Hub) -> io::Result<()> {
    let mut times = 1;
    for line in rt.lines(rt.alloc()) {
        times = take_line(rt.alloc(), &mut rt.stdout(), current, &line?, times)?;
    }
    Ok(())
}

fn main(rt: HostRuntime) -> io::Result<()> {
    match hub(rt.alloc(), 0) {
        Ok(mut hub) => take_lines(&rt, &mut hub),
        Err(_fault) => println!(rt; "no hub"),
    }
}
