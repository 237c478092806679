//! What stands in an input, as its bytes show.

ghost use Rattle.std.specs.Prelude.{◌≡◌};
ghost use Rattle.std.specs.List.{list_all};
ghost use Rattle.rvmc_hints.specs.Seen.{includes, is_c, is_printable, read_in, seen_in};

/// What stands in an input.
#[derive(Clone, Copy, Drop)]
pub enum Seen {
    /// Nothing.
    Nothing,
    /// The first bytes of an image.
    Image,
    /// The first bytes of a record.
    Record,
    /// The first bytes of an ELF file.
    Elf,
    /// A source in C: a line that begins with `#include`.
    C,
    /// Printable ASCII, blanks, tabs and ends of lines alone.
    Text,
    /// Something else.
    Other,
}

/// Whether a byte is printable ASCII, a blank, a tab, a newline or a carriage return.
fn is_printable(byte: u8) -> bool
    ensures { result ≡ is_printable byte }
{
    matches!(byte, 9 | 10 | 13 | 32..=126)
}

/// Whether all bytes are so.
pub fn are_printable(bytes: &[u8]) -> bool
    ensures { result ≡ list_all is_printable bytes.now }
{
    let mut rest = bytes;
    while let Some((byte, after)) = rest.split_first() {
        if !is_printable(*byte) {
            return false;
        }
        rest = after;
    }
    true
}

/// Whether a line of these bytes but the first begins with `#include`.
fn includes(bytes: &[u8]) -> bool
    ensures { result ≡ includes bytes.now }
{
    let mut rest = bytes;
    while let Some((byte, after)) = rest.split_first() {
        if *byte == 10 && after.starts_with(b"#include") {
            return true;
        }
        rest = after;
    }
    false
}

/// Whether a line begins with `#include`.
fn is_c(bytes: &[u8]) -> bool
    ensures { result ≡ is_c bytes.now }
{
    bytes.starts_with(b"#include") || includes(bytes)
}

/// What a text is, or what isn't one: a source in C by one of its lines, and else a text only where all bytes are
/// printable.
fn read_in(bytes: &[u8]) -> Seen
    ensures { result ≡ read_in bytes.now }
{
    if is_c(bytes) {
        Seen::C
    } else if are_printable(bytes) {
        Seen::Text
    } else {
        Seen::Other
    }
}

/// What stands in an input, by its first bytes, or else as a text.
pub fn seen_in(bytes: &[u8]) -> Seen
    ensures { result ≡ seen_in bytes.now }
{
    if bytes.is_empty() {
        Seen::Nothing
    } else if bytes.starts_with(b"RVMC") {
        Seen::Image
    } else if bytes.starts_with(b"RVMR") {
        Seen::Record
    } else if bytes.starts_with(b"\x7fELF") {
        Seen::Elf
    } else {
        read_in(bytes)
    }
}
