//! Bytes that XML allows.

ghost use Rattle.std.specs.Prelude.{◌≡◌, ◌++◌, OnOk};
ghost use Rattle.std.specs.List.{flat_map};
ghost use Rattle.rvmc_svg.specs.Adding.{safe_one};
ghost use Rattle.rvmc_svg.specs.Escaped.{escaped, safe_byte as safe_byte_of};

use std::io;

/// The byte where it is a printed character of ASCII or a newline, else a dot.
fn safe_byte(byte: u8) -> u8
    ensures { result ≡ safe_byte_of byte }
{
    if byte == 10 {
        byte
    } else if 32 <= byte && byte <= 126 {
        byte
    } else {
        b'.'
    }
}

/// Adds a byte, escaped where it would be markup (XML 1.0, 2.4).
#[tactic(auto, unfolding(crate::specs::Escaped::escaped))]
fn put_byte(text: &mut Vec<u8>, byte: u8) -> io::Result<()>
    ensures { OnOk result (text.new.items ≡ text.old.items ++ escaped byte) }
{
    match byte {
        b'&' => text.extend_from_slice(b"&amp;")?,
        b'<' => text.extend_from_slice(b"&lt;")?,
        b'>' => text.extend_from_slice(b"&gt;")?,
        b'"' => text.extend_from_slice(b"&quot;")?,
        _ => text.push(safe_byte(byte))?,
    }
    Ok(())
}

/// Adds bytes of a guest as text.
pub(crate) fn put_text(text: &mut Vec<u8>, bytes: &[u8]) -> io::Result<()>
    ensures { OnOk result (text.new.items ≡ text.old.items ++ flat_map escaped bytes.now) }
{
    for byte in bytes {
        put_byte(text, *byte)?;
    }
    Ok(())
}

/// Adds the safe bytes of these.
pub(crate) fn put_safe(text: &mut Vec<u8>, bytes: &[u8]) -> io::Result<()>
    ensures { OnOk result (text.new.items ≡ text.old.items ++ flat_map safe_one bytes.now) }
{
    for byte in bytes {
        text.push(safe_byte(*byte))?;
    }
    Ok(())
}
