//! Bytes of a guest, made safe.

ghost use Rattle.std.specs.Prelude.{◌≡◌, ◌++◌, OnOk};
ghost use Rattle.std.specs.List.{flat_map};
ghost use Rattle.rvmc_picture.specs.Below.{padded_hex};
ghost use Rattle.rvmc_page.specs.Escaped.{hex_pairs, spelled_byte, escaped_in_lines, is_unescaped as is_plain_of};

use std::io;
use std::io::Write;

/// Whether a byte stands for itself.
fn is_unescaped(byte: u8) -> bool
    ensures { result ≡ is_plain_of byte }
{
    byte == b' '
        || byte == b'$'
        || (b'(' <= byte && byte <= b';')
        || (b'A' <= byte && byte <= b'Z')
        || byte == b'_'
        || (b'a' <= byte && byte <= b'z')
}

/// Adds a byte as two hex digits.
#[tactic(auto, using(rvmc_report::proofs::Digits::padded_by_zeros))]
fn put_hex_2(text: &mut Vec<u8>, byte: u8) -> io::Result<()>
    ensures { OnOk result (text.new.items ≡ text.old.items ++ padded_hex 2 byte) }
{
    write!(text, "{byte:02x}")
}

/// Adds a byte, escaped where it isn't plain.
#[tactic(auto, unfolding(crate::specs::Escaped::spelled_byte))]
fn put_byte(text: &mut Vec<u8>, byte: u8) -> io::Result<()>
    ensures { OnOk result (text.new.items ≡ text.old.items ++ spelled_byte byte) }
{
    if is_unescaped(byte) {
        text.push(byte)?;
        Ok(())
    } else {
        text.push(b'\\')?;
        text.push(b'x')?;
        put_hex_2(text, byte)
    }
}

/// Adds a byte, escaped where it isn't plain and doesn't end a line.
#[tactic(auto, unfolding(crate::specs::Escaped::escaped_in_lines))]
fn put_in_lines(text: &mut Vec<u8>, byte: u8) -> io::Result<()>
    ensures { OnOk result (text.new.items ≡ text.old.items ++ escaped_in_lines byte) }
{
    if byte == b'\n' {
        text.push(byte)?;
        Ok(())
    } else {
        put_byte(text, byte)
    }
}

/// Adds bytes, each escaped where it isn't plain.
pub(crate) fn put_escaped(text: &mut Vec<u8>, bytes: &[u8]) -> io::Result<()>
    ensures { OnOk result (text.new.items ≡ text.old.items ++ flat_map spelled_byte bytes.now) }
{
    for byte in bytes {
        put_byte(text, *byte)?;
    }
    Ok(())
}

/// Adds lines, of which each byte is escaped where it isn't plain.
pub(crate) fn put_lines(text: &mut Vec<u8>, bytes: &[u8]) -> io::Result<()>
    ensures { OnOk result (text.new.items ≡ text.old.items ++ flat_map escaped_in_lines bytes.now) }
{
    for byte in bytes {
        put_in_lines(text, *byte)?;
    }
    Ok(())
}

/// Adds two hex digits for each byte.
pub(crate) fn put_bytes(text: &mut Vec<u8>, bytes: &[u8]) -> io::Result<()>
    ensures { OnOk result (text.new.items ≡ text.old.items ++ hex_pairs bytes.now) }
{
    for byte in bytes {
        put_hex_2(text, *byte)?;
    }
    Ok(())
}
