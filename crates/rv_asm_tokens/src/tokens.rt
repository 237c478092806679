//! The tokens of a line, one after the other, from its bytes.

use crate::fault::AsmFaultKind;
use crate::scanning::{check_tokens, first_left, first_token};
use crate::token::Token;
use std::marker::Model;

/// How many tokens of a line are kept from its test on.
const KEPT: usize = 8;

/// The tokens of a line that are left. The first ones of the line are kept here, and those behind them are read from
/// its bytes one by one, so that they take no memory. Contracts see a list of tokens.
#[derive(Drop)]
pub struct Tokens<'a> {
    kept: [Token<'a>; KEPT],
    /// Those that are kept and left stand from here ..
    at: usize,
    /// .. to here.
    end: usize,
    /// What stands behind those that are kept.
    bytes: &'a [u8],
}

impl<'a> Model for Tokens<'a> {
    ghost use Rattle.std.specs.Prelude.{◌≡◌, ◌≤◌, List, IsOk, length};
    ghost use Rattle.rv_asm_tokens.specs.Kept.{tokens_left};
    ghost use Rattle.rv_asm_tokens.specs.Lexeme.{Lexeme};
    ghost use Rattle.rv_asm_tokens.specs.Scan.{tokens_of};

    ghost Value = { List Lexeme };

    ghost view = { λ tokens. tokens_left tokens.kept tokens.at tokens.end tokens.bytes.now };

    ghost invariant = { λ tokens. (tokens.at ≤ tokens.end) × (tokens.end ≤ 8) × (length tokens.kept ≡ 8)
        × IsOk (tokens_of tokens.bytes.now) };
}

impl<'a> Tokens<'a> {
    ghost use Rattle.std.specs.Prelude.{◌≡◌, ◌==◌, ◌∷◌, [], MatchOption, length, slice_get};
    ghost use Rattle.std.specs.Option.{option_map};
    ghost use Rattle.rv_asm_tokens.specs.Returned.{Is};
    ghost use Rattle.rv_asm_tokens.specs.TokenView.{lexeme_of};
    ghost use Rattle.rv_asm_tokens.specs.Scan.{tokens_of};

    /// The tokens of a line, whose newline is left out.
    ///
    /// `Token` where a character, number or string is none. Nothing but tab, space and the characters of tokens may
    /// stand outside strings and comments.
    pub fn of_line(line: &'a [u8]) -> Result<Tokens<'a>, AsmFaultKind>
        ensures { Is (λ tokens. tokens) result (tokens_of line.now) }
    {
        let mut kept = [Token::Comma; KEPT];
        let mut end = 0;
        let mut bytes = line;
        while end < KEPT {
            let Some(first) = first_token(bytes)? else {
                break;
            };
            kept[end] = first.token;
            end += 1;
            bytes = first.rest;
        }
        check_tokens(bytes)?;
        Ok(Tokens {
            kept,
            at: 0,
            end,
            bytes,
        })
    }

    /// Takes the first token, if one is left.
    #[inline(always)]
    pub fn next(&mut self) -> Option<Token<'a>>
        ensures { MatchOption result ((self.old ≡ []) × (self.new ≡ [])) (λ t. self.old ≡ lexeme_of t ∷ self.new) }
    {
        if self.at < self.end {
            let token = self.kept[self.at];
            self.at += 1;
            Some(token)
        } else {
            let first = first_left(self.bytes)?;
            self.bytes = first.rest;
            Some(first.token)
        }
    }

    /// The token behind so many others, if there is one. They all stay here.
    #[inline(always)]
    pub fn get(&self, before: usize) -> Option<Token<'a>>
        ensures { option_map lexeme_of result ≡ slice_get self.now before }
    {
        if before < self.end - self.at {
            Some(self.kept[self.at + before])
        } else {
            self.read_behind(before)
        }
    }

    /// The token behind so many others, which are taken one by one.
    fn read_behind(&self, before: usize) -> Option<Token<'a>>
        ensures { option_map lexeme_of result ≡ slice_get self.now before }
    {
        let mut rest = self.again();
        let mut more = before;
        while more > 0 {
            rest.next()?;
            more -= 1;
        }
        rest.next()
    }

    /// Whether no token is left.
    pub fn is_empty(&self) -> bool
        ensures { result ≡ (length self.now == 0) }
    {
        self.at == self.end && first_left(self.bytes).is_none()
    }

    /// The same tokens, which stay here too.
    pub fn again(&self) -> Tokens<'a>
        ensures { result ≡ self.now }
    {
        Tokens {
            kept: self.kept,
            at: self.at,
            end: self.end,
            bytes: self.bytes,
        }
    }
}
