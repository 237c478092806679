//! Parts of a text that is told piece by piece, as the description of the registers is (GDB manual, 'General Query
//! Packets').

ghost use Rattle.std.specs.Prelude.{◌≡◌, ◌++◌, ◌∷◌, OnOk};
ghost use Rattle.rvmc_protocol.specs.Replies.Parts.{part_of};

use std::alloc::AllocError;

/// Adds a part behind its mark.
fn put_marked(text: &mut Vec<u8>, mark: u8, part: &[u8]) -> Result<(), AllocError>
    ensures { OnOk result (text.new.items ≡ text.old.items ++ mark ∷ part.now) }
{
    text.push(mark)?;
    text.extend_from_slice(part)
}

/// Adds a part of a text from this byte on, of at most so many bytes: behind `l` where it is the last one, and else
/// behind `m`.
pub fn put_part(text: &mut Vec<u8>, whole: &[u8], from: u64, count: u64) -> Result<(), AllocError>
    ensures { OnOk result (text.new.items ≡ text.old.items ++ part_of whole.now from count) }
{
    let length = whole.len() as u64;
    let begin = from.min(length) as usize;
    let rest = &whole[begin..];
    if rest.len() as u64 <= count {
        put_marked(text, b'l', rest)
    } else {
        put_marked(text, b'm', &rest[..count as usize])
    }
}
