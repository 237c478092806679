//! The payload that the text of a packet carries.

ghost use Rattle.std.specs.Prelude.{◌≡◌, ◌==◌, ◌++◌, ◌∷◌, [], IfOk, OnOk, false, if◌then◌else◌, option_map, replicate};
ghost use Rattle.rvmc_protocol.specs.Packets.Texts.{escape_added, escape_next, expanded, is_special, payload_in, run_added, run_next, unescaped};

use std::alloc::{AllocError, Global};
use std::marker::Model;

/// What a packet carries. Contracts see its bytes.
#[derive(Drop)]
pub struct Payload {
    bytes: Vec<u8>,
}

impl Model for Payload {
    ghost use Rattle.std.specs.Prelude.{List, ℕ};

    ghost Value = { List ℕ };

    ghost view = { λ payload. payload.bytes.items };
}

impl Payload {
    /// The bytes.
    pub fn as_slice(&self) -> &[u8]
        ensures { result.now ≡ self.now }
    {
        self.bytes.as_slice()
    }
}

/// What stands right before the next byte of a text with short runs.
#[derive(Clone, Copy)]
pub(crate) enum Behind {
    /// Nothing.
    Start,
    /// This byte, or a run of it.
    Byte(u8),
    /// This byte, or a run of it, and `*`: the next byte is how often it stands there once more.
    Star(u8),
}

/// Whether a byte stands in a text only behind `}`.
pub(crate) fn is_special(byte: u8) -> bool
    ensures { result ≡ is_special byte }
{
    byte == b'#' || byte == b'$' || byte == b'*' || byte == b'}'
}

/// Adds a byte so many times.
fn put_times(done: &mut Vec<u8>, byte: u8, times: u8) -> Result<(), AllocError>
    ensures { OnOk result (done.new.items ≡ done.old.items ++ replicate times byte) }
{
    for _n in 0..times {
        done.push(byte)?;
    }
    Ok(())
}

/// Adds a byte that is no `*`, and tells that it is behind the next one; of a `*` it tells this.
fn put_plain(
    done: &mut Vec<u8>,
    starred: Option<Behind>,
    byte: u8,
) -> Result<Option<Behind>, AllocError>
    ensures after { IfOk result (λ after. after ≡ (if byte == 42 then starred else Some (Behind.Byte byte))) }
    ensures added { OnOk result (done.new.items ≡ done.old.items ++ (if byte == 42 then [] else byte ∷ [])) }
{
    if byte == b'*' {
        return Ok(starred);
    }
    done.push(byte)?;
    Ok(Some(Behind::Byte(byte)))
}

/// Adds the run of a byte that a number behind `*` stands for, and tells what is behind it.
fn put_starred(done: &mut Vec<u8>, last: u8, byte: u8) -> Result<Option<Behind>, AllocError>
    ensures after { IfOk result (λ after. after ≡ run_next (Behind.Star last) byte) }
    ensures added { OnOk result (done.new.items ≡ done.old.items ++ run_added (Behind.Star last) byte) }
{
    if byte < 32 || 126 < byte {
        return Ok(None);
    }
    put_times(done, last, byte - 29)?;
    Ok(Some(Behind::Byte(last)))
}

/// Adds what the next byte of a text stands for, and tells what is behind it; None where it can't stand there.
fn put_run(done: &mut Vec<u8>, behind: Behind, byte: u8) -> Result<Option<Behind>, AllocError>
    ensures after { IfOk result (λ after. after ≡ run_next behind byte) }
    ensures added { OnOk result (done.new.items ≡ done.old.items ++ run_added behind byte) }
{
    match behind {
        Behind::Start => put_plain(done, None, byte),
        Behind::Byte(last) => put_plain(done, Some(Behind::Star(last)), byte),
        Behind::Star(last) => put_starred(done, last, byte),
    }
}

/// The text with its short runs written out, or None where it has a `*` with no byte before it or no number behind it.
fn expanded(alloc: Global, text: &[u8]) -> Result<Option<Vec<u8>>, AllocError>
    ensures { IfOk result (λ found. option_map (λ done. done.items) found ≡ expanded Behind.Start text.now) }
{
    let mut done = Vec::new(alloc);
    let mut behind = Behind::Start;
    for byte in text {
        let Some(after) = put_run(&mut done, behind, *byte)? else {
            return Ok(None);
        };
        behind = after;
    }
    if matches!(behind, Behind::Star(_)) {
        return Ok(None);
    }
    Ok(Some(done))
}

/// Adds what the next byte of a text stands for, and tells whether the one behind it is escaped.
fn put_unescaped(done: &mut Vec<u8>, behind: bool, byte: u8) -> Result<bool, AllocError>
    ensures after { IfOk result (λ after. after ≡ escape_next behind byte) }
    ensures added { OnOk result (done.new.items ≡ done.old.items ++ escape_added behind byte) }
{
    if behind {
        done.push(byte ^ 32)?;
        return Ok(false);
    }
    if byte == b'}' {
        return Ok(true);
    }
    done.push(byte)?;
    Ok(false)
}

/// The text with its escapes undone, or None where a `}` ends it.
fn unescaped(alloc: Global, text: &[u8]) -> Result<Option<Payload>, AllocError>
    ensures { IfOk result (λ found. found ≡ unescaped false text.now) }
{
    let mut bytes = Vec::new(alloc);
    let mut behind = false;
    for byte in text {
        behind = put_unescaped(&mut bytes, behind, *byte)?;
    }
    if behind {
        return Ok(None);
    }
    Ok(Some(Payload { bytes }))
}

/// The payload that a text carries, or None where it is no text of a packet: a `}` ends it, or it has a `*` with no byte
/// before it or no number behind it. Runs are written out before escapes are undone, as GDB does.
#[tactic(auto, unfolding(crate::specs::Packets::Texts::payload_in))]
pub(crate) fn payload_in(alloc: Global, text: &[u8]) -> Result<Option<Payload>, AllocError>
    ensures { IfOk result (λ found. found ≡ payload_in text.now) }
{
    let Some(text) = expanded(alloc, text)? else {
        return Ok(None);
    };
    unescaped(alloc, text.as_slice())
}
