//! The listing of an image's text.

ghost use Rattle.std.specs.Prelude.{◌≡◌, ◌+◌, ◌*◌, ◌<◌, ◌/◌, ◌++◌, ◌≤◌, ◌^◌, IfOk, OnOk, length};
ghost use Rattle.std.specs.List.{flat_map};
ghost use Rattle.rv_memory.specs.Memory.{value_at};
ghost use Rattle.rvmc_report.specs.Listing.{hex_8, listed_statement, listing, listing_line, name_line, symbols_at};
ghost use Rattle.rv_decode.specs.Decoded.{decoded};
ghost use Rattle.rvmc_report.specs.Listing.{word_lines};

use rv_decode::decode;
use rv_image_types::{Image, ImageParts, Symbol};
use std::alloc::{AllocError, Global};
use std::io;
use std::io::Write;

/// Adds eight hex digits in lower case.
fn put_hex_8(lines: &mut Vec<u8>, number: u32) -> io::Result<()>
    ensures { OnOk result (lines.new.items ≡ lines.old.items ++ hex_8 number) }
{
    write!(lines, "{number:08x}")
}

/// Adds the instruction of a word, or `.word 0x` and its digits.
fn put_statement(lines: &mut Vec<u8>, word: u32) -> io::Result<()>
    ensures { OnOk result (lines.new.items ≡ lines.old.items ++ listed_statement (decoded word) word) }
{
    match decode(word) {
        Some(instr) => write!(lines, "{instr}"),
        None => {
            lines.write_all(b".word 0x")?;
            put_hex_8(lines, word)
        }
    }
}

/// Adds the line of a word: its address, its digits, and its instruction or `.word 0x` and the digits once more.
fn put_line(lines: &mut Vec<u8>, address: u32, word: u32) -> io::Result<()>
    ensures { OnOk result (lines.new.items ≡ lines.old.items ++ listing_line address word) }
{
    put_hex_8(lines, address)?;
    lines.write_all(b": ")?;
    put_hex_8(lines, word)?;
    lines.write_all(b"  ")?;
    put_statement(lines, word)?;
    lines.write_all(b"\n")
}

/// The word of four bytes, low byte first.
fn word_at(text: &[u8], at: usize) -> u32
    requires { at + 4 ≤ length text.now }
    ensures { result ≡ value_at text.now at 4 }
{
    u32::from(text[at])
        + u32::from(text[at + 1]) * 0x100
        + u32::from(text[at + 2]) * 0x1_0000
        + u32::from(text[at + 3]) * 0x100_0000
}

/// Adds the names at an address, a line each.
fn put_names(lines: &mut Vec<u8>, symbols: &[Symbol], address: u32) -> Result<(), AllocError>
    ensures { OnOk result (lines.new.items ≡ lines.old.items ++ flat_map name_line (symbols_at symbols.now address)) }
{
    for symbol in symbols {
        if symbol.address == address {
            lines.extend_from_slice(symbol.name.as_slice())?;
            lines.extend_from_slice(b":\n")?;
        }
    }
    Ok(())
}

/// Adds the word of this number, behind the names of its address.
fn put_word(lines: &mut Vec<u8>, parts: &ImageParts, number: usize) -> Result<(), AllocError>
    requires length { length parts.now.text ≤ 2 ^ 20 }
    requires there { number < length parts.now.text / 4 }
    ensures { OnOk result (lines.new.items ≡ lines.old.items ++ word_lines parts.now number) }
{
    let text = parts.text.as_slice();
    let at = 4 * number;
    put_names(lines, parts.symbols.as_slice(), at as u32)?;
    // a vector refuses bytes only where memory is refused
    match put_line(lines, at as u32, word_at(text, at)) {
        Ok(()) => Ok(()),
        Err(_) => Err(AllocError),
    }
}

/// The listing of an image, one line a word of its text: its address, its digits, and its instruction. Before it stand
/// the names of the symbols at its address, a line each. Symbols at other addresses aren't shown.
pub fn listing(alloc: Global, image: &Image) -> Result<Vec<u8>, AllocError>
    ensures { IfOk result (λ lines. lines.items ≡ listing image.now) }
{
    let parts = image.parts();
    let text = parts.text.as_slice();
    let mut lines = Vec::new(alloc);
    for number in 0..text.len() / 4 {
        put_word(&mut lines, parts, number)?;
    }
    Ok(lines)
}
