//! The lines of a source, and their words: names, and numbers with their sign.

ghost use Rattle.std.specs.Prelude.{◌≡◌, ◌<◌, ◌≤◌, IfSome, false, length};
ghost use Rattle.rvmc_hints.specs.Lines.{begins_with_colon, is_name_byte, is_number, is_word_byte};

/// A word of a line, and the bytes behind it.
#[derive(Clone, Copy)]
pub struct Word<'a> {
    pub text: &'a [u8],
    pub behind: &'a [u8],
}

/// Whether a byte may stand in a word behind its first.
pub fn is_name_byte(byte: u8) -> bool
    ensures { result ≡ is_name_byte byte }
{
    byte.is_ascii_alphanumeric() || byte == b'_' || byte == b'.' || byte == b'$'
}

/// Whether a word begins with a byte: a name or a number.
pub fn is_word_byte(byte: u8) -> bool
    ensures { result ≡ is_word_byte byte }
{
    is_name_byte(byte) || byte == b'-'
}

/// How many bytes that may stand in a word come first.
fn word_length(bytes: &[u8]) -> usize
    ensures { result ≤ length bytes.now }
{
    for (at, byte) in bytes.iter().enumerate() {
        if !is_name_byte(*byte) {
            return at;
        }
    }
    bytes.len()
}

/// The word that bytes begin with, of which the first is one of a word.
pub fn word_at(bytes: &[u8]) -> Option<Word<'_>>
    ensures { IfSome result (λ word. length word.behind.now < length bytes.now) }
{
    let (_, after) = bytes.split_first()?;
    let length = word_length(after) + 1;
    Some(Word {
        text: &bytes[..length],
        behind: &bytes[length..],
    })
}

/// The first word of a line, before any string or comment.
pub fn first_word(line: &[u8]) -> Option<Word<'_>>
    ensures { IfSome result (λ word. length word.behind.now < length line.now) }
{
    let mut rest = line;
    while let Some((byte, after)) = rest.split_first() {
        if matches!(*byte, b'"' | b'#') {
            return None;
        }
        if is_word_byte(*byte) {
            return word_at(rest);
        }
        rest = after;
    }
    None
}

/// Whether a word is a number, or looks like one: it begins with a digit or a sign.
pub fn is_number(word: &[u8]) -> bool
    ensures { result ≡ is_number word.now }
{
    matches!(word, [b'0'..=b'9' | b'-', ..])
}

/// Whether a colon stands first, behind blanks.
fn begins_with_colon(bytes: &[u8]) -> bool
    ensures { result ≡ begins_with_colon bytes.now }
{
    let mut rest = bytes;
    while let Some((byte, after)) = rest.split_first() {
        if !matches!(*byte, b' ' | b'\t') {
            return *byte == b':';
        }
        rest = after;
    }
    false
}

/// Whether a word is a label: a colon stands behind it.
pub fn is_label(word: &Word<'_>) -> bool
    ensures { result ≡ begins_with_colon word.now.behind.now }
{
    begins_with_colon(word.behind)
}

/// The first word of a line behind its labels.
pub fn statement(line: &[u8]) -> Option<Word<'_>>
    ensures { IfSome result (λ word. begins_with_colon word.behind.now ≡ false) }
{
    let mut rest = line;
    while let Some(word) = first_word(rest) {
        if !is_label(&word) {
            return Some(word);
        }
        rest = word.behind;
    }
    None
}

/// How many bytes stand before the first newline, or all.
fn line_length(bytes: &[u8]) -> usize
    ensures { result ≤ length bytes.now }
{
    for (at, byte) in bytes.iter().enumerate() {
        if *byte == b'\n' {
            return at;
        }
    }
    bytes.len()
}

/// A line without its newline, and the bytes behind that.
#[derive(Clone, Copy)]
pub struct Line<'a> {
    pub text: &'a [u8],
    pub behind: &'a [u8],
}

/// The first line of bytes, of which there is one at least.
pub fn first_line(bytes: &[u8]) -> Option<Line<'_>>
    ensures { IfSome result (λ line. length line.behind.now < length bytes.now) }
{
    if bytes.is_empty() {
        return None;
    }
    let length = line_length(bytes);
    if length == bytes.len() {
        return Some(Line {
            text: bytes,
            behind: &[],
        });
    }
    Some(Line {
        text: &bytes[..length],
        behind: &bytes[length + 1..],
    })
}

/// The line of this number, from 1 on, or nothing.
pub fn line_at(bytes: &[u8], number: u64) -> &[u8] {
    let mut rest = bytes;
    let mut left = number;
    while let Some(line) = first_line(rest) {
        if left <= 1 {
            return line.text;
        }
        left -= 1;
        rest = line.behind;
    }
    &[]
}
