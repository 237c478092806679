//! What stands at a byte of a line, and so its first token.

ghost use Rattle.std.specs.Prelude.{◌≡◌, ◌≤◌, ◌<◌, ◌+◌, ◌∷◌, [], IfOk, IfSome, IsOk, List, MatchOption, MatchResult, Err, drop, length};
ghost use Rattle.std.specs.Option.{option_map};
ghost use Rattle.rv_asm_tokens.specs.Cursor.{Begins, tokens_in};
ghost use Rattle.rv_asm_tokens.specs.Lexeme.{Lexeme};
ghost use Rattle.rv_asm_tokens.specs.Returned.{Is};
ghost use Rattle.rv_asm_tokens.specs.TokenView.{lexeme_of};
ghost use Rattle.rv_asm_tokens.specs.Scan.{is_blank, is_name_byte, word_length, sign, sign_front, number_front, negative_front};
ghost use Rattle.rv_asm_tokens.specs.Scan.{name_front, text_front, front_at, tokens_from, tokens_of};
ghost use Rattle.rv_asm_tokens.specs.FrontView.{front_view, LiesIn};

use crate::digits::magnitude_of;
use crate::escapes::length_of_quoted;
use crate::fault::AsmFaultKind;
use crate::number::Number;
use crate::token::Token;

/// What stands at a byte.
#[derive(Clone, Copy)]
pub enum Front<'a> {
    Comment,
    Blank,
    /// A token, and how many of the bytes after the first belong to it.
    Piece(Token<'a>, usize),
}

/// For each byte that may stand in names itself, and for each other one `-`.
static NAME_BYTES: [u8; 256] = *b"------------------------------------$---------.-0123456789------\
    -ABCDEFGHIJKLMNOPQRSTUVWXYZ----_-abcdefghijklmnopqrstuvwxyz-----\
    ----------------------------------------------------------------\
    ----------------------------------------------------------------";

#[inline(always)]
fn may_stand_in_name(b: u8) -> bool
    ensures { result ≡ is_name_byte b }
{
    NAME_BYTES[usize::from(b)] != b'-'
}

fn length_of_word(bytes: &[u8]) -> usize
    ensures value { result ≡ word_length bytes.now }
    ensures within { result ≤ length bytes.now }
{
    for (i, b) in bytes.iter().enumerate() {
        if !may_stand_in_name(*b) {
            return i;
        }
    }
    bytes.len()
}

fn number_at<'a>(here: &'a [u8], after: &'a [u8]) -> Result<Front<'a>, AsmFaultKind>
    requires { length here.now ≡ length after.now + 1 }
    ensures value { Is front_view result (number_front here.now after.now) }
    ensures within { IfOk result (LiesIn (length after.now)) }
{
    let more = length_of_word(after);
    match magnitude_of(&here[..more + 1]) {
        None => Err(AsmFaultKind::Token),
        Some(magnitude) => Ok(Front::Piece(
            Token::Number(Number {
                negative: false,
                magnitude,
            }),
            more,
        )),
    }
}

fn negative_at(after: &[u8]) -> Result<Front<'_>, AsmFaultKind>
    ensures value { Is front_view result (negative_front after.now) }
    ensures within { IfOk result (LiesIn (length after.now)) }
{
    let more = length_of_word(after);
    match magnitude_of(&after[..more]) {
        None => Err(AsmFaultKind::Token),
        Some(magnitude) => {
            if magnitude > 9_223_372_036_854_775_808 {
                return Err(AsmFaultKind::Token);
            }
            Ok(Front::Piece(
                Token::Number(Number {
                    negative: true,
                    magnitude,
                }),
                more,
            ))
        }
    }
}

fn name_at<'a>(here: &'a [u8], after: &'a [u8]) -> Front<'a>
    requires { length here.now ≡ length after.now + 1 }
    ensures value { front_view result ≡ name_front here.now after.now }
    ensures within { LiesIn (length after.now) result }
{
    let more = length_of_word(after);
    Front::Piece(Token::Name(&here[..more + 1]), more)
}

fn text_at(after: &[u8]) -> Result<Front<'_>, AsmFaultKind>
    ensures value { Is front_view result (text_front after.now) }
    ensures within { IfOk result (LiesIn (length after.now)) }
{
    match length_of_quoted(after) {
        None => Err(AsmFaultKind::Token),
        Some(n) => Ok(Front::Piece(Token::Text(&after[..n]), n + 1)),
    }
}

fn sign_of(b: u8) -> Option<Token<'static>>
    ensures { option_map lexeme_of result ≡ sign b }
{
    match b {
        b',' => Some(Token::Comma),
        b':' => Some(Token::Colon),
        b'(' => Some(Token::Open),
        b')' => Some(Token::Close),
        b'+' => Some(Token::Plus),
        _ => None,
    }
}

fn sign_at<'a>(b: u8) -> Result<Front<'a>, AsmFaultKind>
    ensures value { Is front_view result (sign_front b) }
    ensures within { IfOk result (LiesIn 0) }
{
    match sign_of(b) {
        None => Err(AsmFaultKind::Token),
        Some(token) => Ok(Front::Piece(token, 0)),
    }
}

#[inline(always)]
fn is_blank(b: u8) -> bool
    ensures { result ≡ is_blank b }
{
    matches!(b, b' ' | b'\t')
}

/// The bytes from a place on.
fn behind(bytes: &[u8], at: usize) -> &[u8]
    requires { at ≤ length bytes.now }
    ensures value { result.now ≡ drop at bytes.now }
    ensures len { length result.now + at ≡ length bytes.now }
{
    &bytes[at..]
}

/// Where the blanks that stand from a place on end.
#[inline(always)]
fn past_blanks(bytes: &[u8], start: usize) -> usize
    requires { start ≤ length bytes.now }
    ensures onward { start ≤ result }
    ensures within { result ≤ length bytes.now }
    ensures same { (done : List Lexeme)
        → tokens_from 0 done (drop result bytes.now) ≡ tokens_from 0 done (drop start bytes.now) }
{
    let mut at = start;
    while at < bytes.len() && is_blank(bytes[at]) {
        at += 1;
    }
    at
}

/// What stands at the first byte of `here`, which is `b` with `after` behind it.
#[inline(always)]
#[tactic(auto, unfolding(crate::specs::Scan::front_at))]
fn found_at<'a>(b: u8, here: &'a [u8], after: &'a [u8]) -> Result<Front<'a>, AsmFaultKind>
    requires { length here.now ≡ length after.now + 1 }
    ensures value { Is front_view result (front_at b here.now after.now) }
    ensures within { IfOk result (LiesIn (length after.now)) }
{
    match b {
        b' ' | b'\t' => Ok(Front::Blank),
        b'#' => Ok(Front::Comment),
        b'"' => text_at(after),
        b'-' => negative_at(after),
        b'0'..=b'9' => number_at(here, after),
        _ => {
            if may_stand_in_name(b) {
                Ok(name_at(here, after))
            } else {
                sign_at(b)
            }
        }
    }
}

/// A token, and the bytes behind it.
#[derive(Clone, Copy)]
pub struct First<'a> {
    pub token: Token<'a>,
    pub rest: &'a [u8],
}

/// The first token of bytes, if one is left: `Token` where a character, number or string before it or there is none.
pub fn first_token(bytes: &[u8]) -> Result<Option<First<'_>>, AsmFaultKind>
    ensures begins { MatchResult result (Begins bytes.now) (λ e. tokens_of bytes.now ≡ Err e) }
    ensures shorter { IfOk result (λ found. IfSome found (λ f. length f.rest.now < length bytes.now)) }
{
    let mut at = past_blanks(bytes, 0);
    while at < bytes.len() {
        let here = behind(bytes, at);
        let after = behind(bytes, at + 1);
        match found_at(bytes[at], here, after)? {
            Front::Comment => return Ok(None),
            Front::Blank => at += 1,
            Front::Piece(token, more) => return Ok(Some(First {
                token,
                rest: behind(after, more),
            })),
        }
    }
    Ok(None)
}

/// Whether bytes are tokens: `Token` where a character, number or string is none.
pub fn check_tokens(bytes: &[u8]) -> Result<(), AsmFaultKind>
    ensures { MatchResult result (λ _. IsOk (tokens_of bytes.now)) (λ e. tokens_of bytes.now ≡ Err e) }
{
    let mut rest = bytes;
    while let Some(first) = first_token(rest)? {
        rest = first.rest;
    }
    Ok(())
}

/// The first token of bytes that are tokens, if one is left.
pub fn first_left(bytes: &[u8]) -> Option<First<'_>>
    requires { IsOk (tokens_of bytes.now) }
    ensures { MatchOption result (tokens_in bytes.now ≡ []) (λ f. IsOk (tokens_of f.rest.now)
        × (tokens_in bytes.now ≡ lexeme_of f.token ∷ tokens_in f.rest.now)) }
{
    match first_token(bytes) {
        Ok(first) => first,
        Err(_) => None,
    }
}
