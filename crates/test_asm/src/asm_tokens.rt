//! Of `rv_asm_tokens`: a line's tokens, a string's bytes, a number's value.

ghost use Rattle.std.specs.Prelude.{◌≡◌, IfOk, Ok, negsuc};
ghost use Rattle.test_asm.specs.Lines.{AreTokensOfLines, bytes_of_escapes, tokens_of_a_line};

use rv_asm_tokens::{AsmFaultKind, Number, Tokens, text_bytes, value_of};
use std::alloc::{AllocError, Global};

/// A name has all its bytes, a number its sign, and a comment is no token.
#[tactic(auto, unfolding(rv_asm_tokens::specs::Digits::digits_from, rv_asm_tokens::specs::Digits::magnitude, rv_asm_tokens::specs::Digits::with_digit, rv_asm_tokens::specs::Scan::front_at, rv_asm_tokens::specs::Scan::tokens_from))]
pub fn a_line_has_its_tokens() -> Result<Tokens<'static>, AsmFaultKind>
    ensures { result ≡ Ok tokens_of_a_line }
{
    Tokens::of_line(b"go: li a0, -0x10 # a comment")
}

/// These lines have these tokens, or are Token: numbers from -2^63 to 2^64 - 1, and what a string may hold.
pub fn lines_have_their_tokens()
    ensures { AreTokensOfLines }
{}

/// An escape is its byte, and an `n` with nothing before it is an `n`.
#[tactic(auto, unfolding(rv_asm_tokens::specs::Escapes::text_from))]
pub fn escapes_are_their_bytes(alloc: Global) -> Result<Vec<u8>, AllocError>
    ensures { IfOk result (λ bytes. bytes.items ≡ bytes_of_escapes) }
{
    text_bytes(alloc, b"\\n\\t\\0\\\\\\\"n")
}

/// A number has its sign.
pub fn a_number_has_its_sign() -> i128
    ensures { result ≡ negsuc 0 }
{
    value_of(Number {
        negative: true,
        magnitude: 1,
    })
}
