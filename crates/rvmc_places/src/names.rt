//! What the names of symbols say.

ghost use Rattle.std.specs.Prelude.{◌≡◌, ◌<◌, IfSome, length, option_map};
ghost use Rattle.std.specs.List.{list_all};
ghost use Rattle.rv_image_types.specs.Names.{is_digit};
ghost use Rattle.rvmc_places.specs.Names as names;
ghost use Rattle.rvmc_places.specs.Read.{both_of, read_of};

/// A line of a source, as the name of a symbol tells it.
#[derive(Clone, Copy, Drop)]
pub struct SourceLine<'a> {
    /// The file's name, without folders, as `farm.c`.
    pub file: &'a [u8],
    /// The line's number in decimal, from 1 on.
    pub number: &'a [u8],
}

/// The parts of a text before and behind its last dot.
#[derive(Clone, Copy, Drop)]
struct Parts<'a> {
    front: &'a [u8],
    back: &'a [u8],
}

/// The place of the last dot.
fn last_dot(text: &[u8]) -> Option<usize>
    ensures found { result ≡ names.last_dot text.now }
    ensures within { IfSome result (λ dot. dot < length text.now) }
{
    let mut found = None;
    for at in 0..text.len() {
        if text[at] == b'.' {
            found = Some(at);
        }
    }
    found
}

/// What stands before the last dot, and what behind it.
fn parted(text: &[u8]) -> Option<Parts<'_>>
    ensures { option_map both_of result ≡ names.parted text.now }
{
    let dot = last_dot(text)?;
    Some(Parts {
        front: &text[..dot],
        back: &text[dot + 1..],
    })
}

/// Whether all bytes are digits.
fn are_digits(text: &[u8]) -> bool
    ensures { result ≡ list_all is_digit text.now }
{
    let mut rest = text;
    while let Some((byte, after)) = rest.split_first() {
        if !byte.is_ascii_digit() {
            return false;
        }
        rest = after;
    }
    true
}

/// Whether the bytes are a number that begins with no 0.
fn is_number(text: &[u8]) -> bool
    ensures { result ≡ names.is_number text.now }
{
    match text.first() {
        None => false,
        Some(byte) => *byte != b'0' && are_digits(text),
    }
}

/// Whether the byte is a letter.
fn is_letter(byte: u8) -> bool
    ensures { result ≡ names.is_letter byte }
{
    byte.is_ascii_lowercase() || byte.is_ascii_uppercase()
}

/// Whether all bytes are letters.
fn are_letters(text: &[u8]) -> bool
    ensures { result ≡ list_all names.is_letter text.now }
{
    let mut rest = text;
    while let Some((byte, after)) = rest.split_first() {
        if !is_letter(*byte) {
            return false;
        }
        rest = after;
    }
    true
}

/// Whether the bytes are 1 to 3 letters.
fn is_extension(text: &[u8]) -> bool
    ensures { result ≡ names.is_extension text.now }
{
    if text.len() < 1 || text.len() > 3 {
        return false;
    }
    are_letters(text)
}

/// Whether the bytes end in a dot and an extension.
fn is_file(text: &[u8]) -> bool
    ensures { result ≡ names.is_file text.now }
{
    match parted(text) {
        None => false,
        Some(parts) => is_extension(parts.back),
    }
}

/// The line that the parts spell, as `farm.c` and `46`.
fn line_parted<'a>(parts: Option<Parts<'a>>) -> Option<SourceLine<'a>>
    ensures { option_map read_of result ≡ names.line_parted (option_map both_of parts.entry) }
{
    let parts = parts?;
    if !is_number(parts.back) || !is_file(parts.front) {
        return None;
    }
    Some(SourceLine {
        file: parts.front,
        number: parts.back,
    })
}

/// The line before a second number, as that of `farm.c.46.2`.
fn line_again<'a>(parts: Option<Parts<'a>>) -> Option<SourceLine<'a>>
    ensures { option_map read_of result ≡ names.line_again (option_map both_of parts.entry) }
{
    let parts = parts?;
    if !is_number(parts.back) {
        return None;
    }
    line_parted(parted(parts.front))
}

/// The line that a name is of. None where it is that of a label.
#[tactic(auto, unfolding(crate::specs::Names::line_named))]
pub fn line_named(name: &[u8]) -> Option<SourceLine<'_>>
    ensures { option_map read_of result ≡ names.line_named name.now }
{
    let parts = parted(name);
    match line_parted(parts) {
        Some(line) => Some(line),
        None => line_again(parts),
    }
}
