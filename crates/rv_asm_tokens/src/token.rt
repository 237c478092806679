//! What a line is made of.

use crate::number::Number;

/// A token of a line; its bytes stand in the source.
#[derive(Clone, Copy)]
pub enum Token<'a> {
    /// Letters, digits, `_`, `.` and `$`, not beginning with a digit.
    Name(&'a [u8]),
    Number(Number),
    /// What stands between the quotes, with its escapes.
    Text(&'a [u8]),
    Comma,
    Colon,
    Open,
    Close,
    Plus,
}
