//! Pieces of the text, and forms that they are put into.

use crate::safe::put_text;
use std::io;
use std::io::Write;

/// A piece of the text.
#[derive(Clone, Copy, Drop)]
pub(crate) enum Piece<'a> {
    /// Words of the picture's own, as they are.
    Words(&'a str),
    /// Bytes of a guest, escaped where they would be markup.
    Guest(&'a [u8]),
    /// The number of a rank.
    Rank(u8),
    /// The number of a hart.
    Hart(u8),
    /// Any other number.
    Number(u64),
    /// A length across, in per cent.
    Across(u64),
}

/// Adds a piece.
fn put_piece(text: &mut Vec<u8>, piece: Piece<'_>) -> io::Result<()> {
    match piece {
        Piece::Words(words) => write!(text, "{words}"),
        Piece::Guest(bytes) => put_text(text, bytes),
        Piece::Rank(number) | Piece::Hart(number) => write!(text, "{number}"),
        Piece::Number(number) => write!(text, "{number}"),
        Piece::Across(at) => {
            let whole = at / 100;
            let part = at % 100;
            write!(text, "{whole}.{part:02}%")
        }
    }
}

/// Adds a form, where each `{N}` is the piece with this number, from 0 to 9.
pub(crate) fn put(text: &mut Vec<u8>, form: &str, pieces: &[Piece<'_>]) -> io::Result<()> {
    let mut is_number = false;
    for byte in form.as_bytes() {
        if *byte == b'{' {
            is_number = true;
        } else if *byte == b'}' {
            is_number = false;
        } else if !is_number {
            text.push(*byte)?;
        } else if let Some(piece) = pieces.get(usize::from(byte.saturating_sub(b'0'))) {
            put_piece(text, *piece)?;
        }
    }
    Ok(())
}
