//! What calls gave, as text.

ghost use Rattle.std.specs.Prelude.{◌≡◌, ◌++◌, OnOk, codes, false, option_map, take, true};
ghost use Rattle.std.specs.List.{flat_map};
ghost use Rattle.cl_machine.specs.SameSteps.{kind_seen};
ghost use Rattle.rvmc_sights.specs.Arguments.{wild_text};
ghost use Rattle.rvmc_sights.specs.Gave.{box_text, byte_text, code_text, end_text, met_envelope_text, met_if_any, is_refusal};
ghost use Rattle.rvmc_sights.specs.Gave.{is_refused as is_refused_of, kind_text, met_message_text, named_value_text, told_by_reply};
ghost use Rattle.rvmc_sights.specs.Gave.{value_name as value_name_of};

use crate::arguments::Wild;
use cl_calls::Call;
use cl_machine::KindRef;
use mp_types::{Envelope, Message, Reply};
use rv_decode::Reg;
use rv_hart::{Hart, Mode};
use rvmc_stats::code_name;
use std::io;
use std::io::Write;

/// The number of a box: its link and its place there.
pub type BoxNumber = (u8, u8);

/// Adds what is known of a message without its bytes.
fn put_envelope(text: &mut Vec<u8>, envelope: &Envelope) -> io::Result<()>
    ensures { OnOk result (text.new.items ≡ text.old.items ++ met_envelope_text envelope.now) }
{
    let Envelope {
        source,
        tag,
        count,
        ..
    } = *envelope;
    write!(
        text,
        " -> message from rank {source} tag {tag}, {count} bytes"
    )
}

/// Adds a byte in two hex digits.
fn put_byte(text: &mut Vec<u8>, byte: u8) -> io::Result<()>
    ensures { OnOk result (text.new.items ≡ text.old.items ++ byte_text byte) }
{
    write!(text, " {byte:02x}")
}

/// Adds bytes.
fn put_bytes(text: &mut Vec<u8>, bytes: &[u8]) -> io::Result<()>
    ensures { OnOk result (text.new.items ≡ text.old.items ++ flat_map byte_text bytes.now) }
{
    for byte in bytes {
        put_byte(text, *byte)?;
    }
    Ok(())
}

/// The first sixteen bytes, or all where there are fewer.
#[tactic(auto, using(std::proofs::lemmas::List::take_all))]
fn first_sixteen(bytes: &[u8]) -> &[u8]
    ensures { result.now ≡ take 16 bytes.now }
{
    if bytes.len() <= 16 {
        return bytes;
    }
    &bytes[..16]
}

/// Adds a message with its first sixteen bytes.
fn put_message(text: &mut Vec<u8>, message: &Message) -> io::Result<()>
    ensures { OnOk result (text.new.items ≡ text.old.items ++ met_message_text message.now) }
{
    put_envelope(text, &message.envelope)?;
    text.extend_from_slice(b":")?;
    put_bytes(text, first_sixteen(message.bytes.as_slice()))
}

/// Adds what one of several posts gave.
fn put_got(text: &mut Vec<u8>, got: &Option<Message>) -> io::Result<()>
    ensures { OnOk result (text.new.items ≡ text.old.items ++ met_if_any got.now) }
{
    match got {
        None => Ok(()),
        Some(message) => put_message(text, message),
    }
}

/// Adds what several posts gave.
fn put_gots(text: &mut Vec<u8>, gots: &[Option<Message>]) -> io::Result<()>
    ensures { OnOk result (text.new.items ≡ text.old.items ++ flat_map met_if_any gots.now) }
{
    for got in gots {
        put_got(text, got)?;
    }
    Ok(())
}

/// Adds what the hub told, but for how the call ended.
fn put_reply(text: &mut Vec<u8>, reply: &Reply) -> io::Result<()>
    ensures { OnOk result (text.new.items ≡ text.old.items ++ told_by_reply reply.now) }
{
    match reply {
        Reply::Got(message) => put_message(text, message),
        Reply::Seen(envelope) => put_envelope(text, envelope),
        Reply::Held(_, envelope) => put_envelope(text, envelope),
        Reply::AllGot(gots) => put_gots(text, gots.as_slice()),
        Reply::Link(link) => write!(text, " -> link {link}"),
        Reply::Cut { parts, size } => {
            write!(text, " -> cut into {parts} partitions of {size} bytes")
        }
        Reply::Code(_) | Reply::Posted { .. } | Reply::NotYet | Reply::Done => Ok(()),
    }
}

/// Adds what the hub told, if it was asked.
pub(crate) fn put_kind(text: &mut Vec<u8>, kind: KindRef<'_>) -> io::Result<()>
    ensures { OnOk result (text.new.items ≡ text.old.items ++ kind_text (kind_seen kind.entry)) }
{
    match kind {
        KindRef::Hub(reply) => put_reply(text, reply),
        KindRef::Bare(_) => Ok(()),
    }
}

/// Adds the box that was asked, if one was.
pub(crate) fn put_box(text: &mut Vec<u8>, number: Option<BoxNumber>) -> io::Result<()>
    ensures { OnOk result (text.new.items ≡ text.old.items ++ box_text number) }
{
    match number {
        None => Ok(()),
        Some((link, part)) => write!(text, " -> link {link} partition {part}"),
    }
}

/// What a call leaves in a1, if anything.
fn value_name(call: &Call) -> Option<&'static str>
    ensures { option_map (λ name. name.now) result ≡ value_name_of call.now }
{
    match call {
        Call::Rank { .. } => Some("rank "),
        Call::Size { .. } => Some("size "),
        Call::Hart => Some("hart "),
        Call::Isend(_)
        | Call::Issend(_)
        | Call::Irecv(_)
        | Call::Imrecv(_)
        | Call::SendInit(_)
        | Call::RecvInit(_)
        | Call::PsendInit(_)
        | Call::PrecvInit(_) => Some("handle "),
        Call::Test(_) | Call::Testall(_) | Call::Iprobe(_) | Call::Parrived { .. } => {
            Some("flag ")
        }
        Call::Improbe(_) | Call::Mprobe(_) => Some("message handle "),
        _ => None,
    }
}

/// Adds the value that a call left, if it has one.
fn put_value(text: &mut Vec<u8>, name: Option<&'static str>, value: u64) -> io::Result<()>
    ensures { OnOk result
        (text.new.items ≡ text.old.items ++ named_value_text (option_map (λ word. word.now) name.entry) value) }
{
    match name {
        None => Ok(()),
        Some(name) => {
            let value = Wild(value);
            write!(text, " -> {name}{value}")
        }
    }
}

/// Adds the code of a call that returned, where it isn't OK.
fn put_code(text: &mut Vec<u8>, code: u64) -> io::Result<()>
    ensures { OnOk result (text.new.items ≡ text.old.items ++ code_text code) }
{
    if code == 0 {
        return Ok(());
    }
    text.extend_from_slice(b" -> ")?;
    text.extend_from_slice(code_name(code).as_bytes())?;
    Ok(())
}

/// Adds how a call ended.
pub(crate) fn put_end(text: &mut Vec<u8>, call: &Call, after: &Hart) -> io::Result<()>
    ensures { OnOk result (text.new.items ≡ text.old.items ++ end_text call.now after.now after.now.mode) }
{
    match after.mode() {
        Mode::Running => {
            put_code(text, after.get(Reg::new(10)))?;
            put_value(text, value_name(call), after.get(Reg::new(11)))
        }
        Mode::Waiting(_) => {
            text.extend_from_slice(b" -> waits")?;
            Ok(())
        }
        Mode::Ended(_) | Mode::Trapped(_, _) => Ok(()),
    }
}

/// Whether a call was refused: it returned with a code other than OK and TRUNCATED.
pub fn is_refused(after: &Hart) -> bool
    ensures { result ≡ is_refused_of after.now after.now.mode }
{
    match after.mode() {
        Mode::Running => {
            let code = after.get(Reg::new(10));
            code != 0 && code != 7
        }
        _ => false,
    }
}
