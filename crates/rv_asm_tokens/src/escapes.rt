//! Strings: where one ends, and the bytes that it stands for.

ghost use Rattle.std.specs.Prelude.{◌≡◌, ◌<◌, IfSome, IfOk, false, true, length};
ghost use Rattle.rv_asm_tokens.specs.Escapes.{is_escape, quote_step, quoted_length, escape_value, text_from, text_of};

use std::alloc::{AllocError, Global};

#[tactic(auto, unfolding(crate::specs::Escapes::is_escape))]
fn is_escape_byte(b: u8) -> bool
    ensures { result ≡ is_escape b }
{
    matches!(b, b'n' | b't' | b'0' | b'\\' | b'"')
}

/// What a byte of a string does.
#[derive(Clone, Copy)]
pub enum QuoteStep {
    End,
    Bad,
    /// Whether the byte was a backslash that stands before another.
    Go(bool),
}

#[tactic(auto, unfolding(crate::specs::Escapes::quote_step))]
fn step_at(escaped: bool, b: u8) -> QuoteStep
    ensures { result ≡ quote_step escaped b }
{
    if escaped {
        if is_escape_byte(b) {
            QuoteStep::Go(false)
        } else {
            QuoteStep::Bad
        }
    } else if b == b'"' {
        QuoteStep::End
    } else if b < 128 {
        QuoteStep::Go(b == b'\\')
    } else {
        QuoteStep::Bad
    }
}

/// How many bytes come before the quote that ends a string.
pub fn length_of_quoted(bytes: &[u8]) -> Option<usize>
    ensures value { result ≡ quoted_length false 0 bytes.now }
    ensures within { IfSome result (λ n. n < length bytes.now) }
{
    let mut escaped = false;
    for (i, b) in bytes.iter().enumerate() {
        match step_at(escaped, *b) {
            QuoteStep::End => return Some(i),
            QuoteStep::Bad => return None,
            QuoteStep::Go(next) => escaped = next,
        }
    }
    None
}

fn value_of_escape(b: u8) -> u8
    ensures { result ≡ escape_value b }
{
    match b {
        b'n' => b'\n',
        b't' => b'\t',
        b'0' => 0,
        _ => b,
    }
}

/// The bytes that a string stands for, with no escapes.
#[tactic(auto, unfolding(crate::specs::Escapes::text_from))]
pub fn text_bytes(alloc: Global, raw: &[u8]) -> Result<Vec<u8>, AllocError>
    ensures { IfOk result (λ v. v.items ≡ text_of raw.now) }
{
    let mut done = Vec::new(alloc);
    let mut escaped = false;
    let mut rest = raw;
    while let [b, after @ ..] = rest {
        if escaped {
            done.push(value_of_escape(*b))?;
            escaped = false;
        } else if *b == b'\\' {
            escaped = true;
        } else {
            done.push(*b)?;
        }
        rest = after;
    }
    Ok(done)
}
