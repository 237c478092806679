//! Packets as they are written.

ghost use Rattle.std.specs.Prelude.{◌≡◌, ◌++◌, IfOk, OnOk};
ghost use Rattle.rvmc_protocol.specs.Packets.Texts.{escaped, text_of};
ghost use Rattle.rvmc_protocol.specs.Packets.Frames.{packet_of};

use crate::packets::sums::{digit, sum_of};
use crate::packets::texts::is_special;
use std::alloc::{AllocError, Global};

/// Adds a byte as the text of a packet has it.
#[tactic(auto, unfolding(crate::specs::Packets::Texts::escaped))]
fn put_escaped(text: &mut Vec<u8>, byte: u8) -> Result<(), AllocError>
    ensures { OnOk result (text.new.items ≡ text.old.items ++ escaped byte) }
{
    if is_special(byte) {
        text.push(b'}')?;
        text.push(byte ^ 32)?;
    } else {
        text.push(byte)?;
    }
    Ok(())
}

/// The text that carries a payload, with no short runs.
fn text_of(alloc: Global, payload: &[u8]) -> Result<Vec<u8>, AllocError>
    ensures { IfOk result (λ text. text.items ≡ text_of payload.now) }
{
    let mut text = Vec::new(alloc);
    for byte in payload {
        put_escaped(&mut text, *byte)?;
    }
    Ok(text)
}

/// Adds the packet of a payload: `$`, the text, `#` and the sum. No run is written short.
#[tactic(auto, unfolding(crate::specs::Packets::Frames::packet_of))]
pub fn put_packet(alloc: Global, out: &mut Vec<u8>, payload: &[u8]) -> Result<(), AllocError>
    ensures { OnOk result (out.new.items ≡ out.old.items ++ packet_of payload.now) }
{
    let text = text_of(alloc, payload)?;
    let sum = sum_of(text.as_slice());
    out.push(b'$')?;
    out.extend_from_slice(text.as_slice())?;
    out.extend_from_slice(&[b'#', digit(sum / 16), digit(sum % 16)])?;
    Ok(())
}
