//! Replies as lines.

use mp_types::{Envelope, Message, Reply};
use std::io;
use std::io::Write;

/// The source, the tag and the count.
fn print_envelope<W: Write>(out: &mut W, envelope: &Envelope) -> io::Result<()> {
    write!(
        out,
        "{} {} {}",
        envelope.source, envelope.tag, envelope.count
    )
}

/// The envelope and the bytes.
fn print_message<W: Write>(out: &mut W, message: &Message) -> io::Result<()> {
    print_envelope(out, &message.envelope)?;
    out.write_all(b" ")?;
    out.write_all(message.bytes.as_slice())
}

/// What one of several posts gave.
fn print_got<W: Write>(out: &mut W, got: &Option<Message>) -> io::Result<()> {
    out.write_all(b"; ")?;
    match got {
        Some(message) => print_message(out, message),
        None => out.write_all(b"sent"),
    }
}

/// A word and a number behind it.
fn print_number<W: Write>(out: &mut W, word: &str, number: u64) -> io::Result<()> {
    write!(out, "{word} {number}")
}

/// A post, and whether it is done.
fn print_posted<W: Write>(out: &mut W, post: u64, done: bool) -> io::Result<()> {
    print_number(out, "posted", post)?;
    if done {
        return out.write_all(b", done");
    }
    Ok(())
}

/// A claimed message, and its envelope.
fn print_held<W: Write>(out: &mut W, message: u64, envelope: &Envelope) -> io::Result<()> {
    print_number(out, "held", message)?;
    out.write_all(b": ")?;
    print_envelope(out, envelope)
}

/// What several posts gave.
fn print_gots<W: Write>(out: &mut W, gots: &[Option<Message>]) -> io::Result<()> {
    out.write_all(b"all")?;
    for got in gots {
        print_got(out, got)?;
    }
    Ok(())
}

/// A word and an envelope behind it.
fn print_seen<W: Write>(out: &mut W, envelope: &Envelope) -> io::Result<()> {
    out.write_all(b"seen ")?;
    print_envelope(out, envelope)
}

/// A message behind its word.
fn print_only<W: Write>(out: &mut W, message: &Message) -> io::Result<()> {
    out.write_all(b"got ")?;
    print_message(out, message)
}

/// What a reply says.
fn print_said<W: Write>(out: &mut W, reply: &Reply) -> io::Result<()> {
    match reply {
        Reply::Code(code) => print_number(out, "code", u64::from(code.number())),
        Reply::Posted { post, done } => print_posted(out, *post, *done),
        Reply::Got(message) => print_only(out, message),
        Reply::NotYet => out.write_all(b"not yet"),
        Reply::Done => out.write_all(b"done"),
        Reply::Seen(envelope) => print_seen(out, envelope),
        Reply::Held(message, envelope) => print_held(out, *message, envelope),
        Reply::AllGot(gots) => print_gots(out, gots.as_slice()),
        Reply::Link(link) => print_number(out, "link", u64::from(*link)),
        Reply::Cut { parts, size } => write!(out, "cut {parts} of {size}"),
    }
}

/// Prints a reply, and ends the line.
pub fn print_reply<W: Write>(out: &mut W, reply: &Reply) -> io::Result<()> {
    print_said(out, reply)?;
    out.write_all(b"\n")
}
