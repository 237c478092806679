//! What stands between the commas of a statement.

ghost use Rattle.std.specs.Prelude.{◌≡◌, ◌<◌, ◌≤◌, [], IfSome, MatchOption, None, Some, false, is_some, length, true};
ghost use Rattle.rv_asm_tokens.specs.Lexeme.{number_value};
ghost use Rattle.rv_asm_statements.specs.Arguments.{arguments_of};
ghost use Rattle.rv_asm_statements.specs.CodeViews.{argument_view};
ghost use Rattle.rv_asm_statements.specs.Pieces.{at_name as at_name_meant, at_value as at_value_meant};
ghost use Rattle.rv_asm_statements.specs.Pieces.{at_place as at_place_meant, ended};
ghost use Rattle.rv_asm_statements.specs.Pieces.{first_operand, piece_view, pieces_of, those};
ghost use Rattle.rv_asm_statements.specs.First.{AreFirst};

use crate::few::Few;
use rv_asm_tokens::{Number, Token, Tokens};
use std::marker::Model;

/// An operand, in the forms in which one can stand.
#[derive(Clone, Copy)]
pub enum Operand<'a> {
    /// A register, a label, or another name.
    Name(&'a [u8]),
    Number(Number),
    /// A string, with its escapes.
    Text(&'a [u8]),
    /// `name+number`
    Sum(&'a [u8], Number),
    /// `number(name)`
    Place(Number, &'a [u8]),
}

/// An operand, and whether a comma stands behind it.
#[derive(Clone, Copy)]
pub struct Piece<'a> {
    pub operand: Operand<'a>,
    pub more: bool,
}

#[inline(always)]
fn taken_piece<'a>(operand: Operand<'a>, more: bool) -> Option<Piece<'a>>
    ensures { result ≡ Some (record { operand = operand.entry; more = more }) }
{
    Some(Piece { operand, more })
}

/// Takes what may stand behind an operand: nothing, or a comma.
fn ending<'a>(tokens: &mut Tokens<'a>, operand: Operand<'a>) -> Option<Piece<'a>>
    ensures front { piece_view result tokens.new ≡ ended (argument_view operand.entry) tokens.old }
    ensures last { IfSome result (λ piece. piece.more ≡ false → tokens.new ≡ []) }
    ensures shorter { length tokens.new ≤ length tokens.old }
{
    match tokens.next() {
        None => taken_piece(operand, false),
        Some(Token::Comma) => taken_piece(operand, true),
        _ => None,
    }
}

/// Takes the rest of an operand that begins with a name.
fn at_name<'a>(tokens: &mut Tokens<'a>, name: &'a [u8]) -> Option<Piece<'a>>
    ensures front { piece_view result tokens.new ≡ at_name_meant name.now tokens.old }
    ensures last { IfSome result (λ piece. piece.more ≡ false → tokens.new ≡ []) }
    ensures shorter { length tokens.new ≤ length tokens.old }
{
    let operand = Operand::Name(name);
    match tokens.next() {
        None => taken_piece(operand, false),
        Some(Token::Comma) => taken_piece(operand, true),
        Some(Token::Plus) => match tokens.next() {
            Some(Token::Number(number)) => ending(tokens, Operand::Sum(name, number)),
            _ => None,
        },
        _ => None,
    }
}

/// Takes the register of an address behind its number.
fn at_place<'a>(tokens: &mut Tokens<'a>, number: Number) -> Option<Piece<'a>>
    ensures front { piece_view result tokens.new ≡ at_place_meant (number_value number) tokens.old }
    ensures last { IfSome result (λ piece. piece.more ≡ false → tokens.new ≡ []) }
    ensures shorter { length tokens.new ≤ length tokens.old }
{
    let Some(Token::Name(name)) = tokens.next() else {
        return None;
    };
    let Some(Token::Close) = tokens.next() else {
        return None;
    };
    ending(tokens, Operand::Place(number, name))
}

/// Takes the rest of an operand that begins with a number.
fn at_value<'a>(tokens: &mut Tokens<'a>, number: Number) -> Option<Piece<'a>>
    ensures front { piece_view result tokens.new ≡ at_value_meant (number_value number) tokens.old }
    ensures last { IfSome result (λ piece. piece.more ≡ false → tokens.new ≡ []) }
    ensures shorter { length tokens.new ≤ length tokens.old }
{
    let operand = Operand::Number(number);
    match tokens.next() {
        None => taken_piece(operand, false),
        Some(Token::Comma) => taken_piece(operand, true),
        Some(Token::Open) => at_place(tokens, number),
        _ => None,
    }
}

/// Takes the operand that tokens begin with, and the comma behind it.
fn take_operand<'a>(tokens: &mut Tokens<'a>) -> Option<Piece<'a>>
    ensures front { piece_view result tokens.new ≡ first_operand tokens.old }
    ensures last { IfSome result (λ piece. piece.more ≡ false → tokens.new ≡ []) }
    ensures shorter { IfSome result (λ piece. length tokens.new < length tokens.old) }
{
    match tokens.next()? {
        Token::Name(name) => at_name(tokens, name),
        Token::Number(number) => at_value(tokens, number),
        Token::Text(raw) => ending(tokens, Operand::Text(raw)),
        _ => None,
    }
}

/// The first of the operands that stand between commas, if nothing else stands there.
fn first_pieces<'a>(tokens: &Tokens<'a>) -> Option<Few<'a>>
    ensures { MatchOption result (pieces_of tokens.now ≡ None)
        (λ few. (is_some (pieces_of tokens.now) ≡ true) × AreFirst few (those (pieces_of tokens.now))) }
{
    let mut few = Few::none();
    let mut rest = tokens.again();
    'pieces: loop {
        match take_operand(&mut rest) {
            None => return None,
            Some(piece) => {
                few.push(piece.operand);
                if !piece.more {
                    return Some(few);
                }
            }
        }
    }
}

/// The first operands of a statement, if its tokens are operands.
#[tactic(auto, using(crate::proofs::Pieces::no_token, crate::proofs::Pieces::some_token))]
fn first_operands<'a>(tokens: &Tokens<'a>) -> Option<Few<'a>>
    ensures { MatchOption result (arguments_of tokens.now ≡ None)
        (λ few. (is_some (arguments_of tokens.now) ≡ true) × AreFirst few (those (arguments_of tokens.now))) }
{
    if tokens.is_empty() {
        Some(Few::none())
    } else {
        first_pieces(tokens)
    }
}

/// The operands of a statement that are left. They are read from its tokens one by one, so they take no memory. Contracts
/// see a list of operands.
#[derive(Drop)]
pub struct OperandsLeft<'a> {
    tokens: Tokens<'a>,
}

impl<'a> Model for OperandsLeft<'a> {
    ghost use Rattle.std.specs.Prelude.{◌≡◌, List, is_some, true};
    ghost use Rattle.rv_asm_statements.specs.Arguments.{Argument, arguments_of};
    ghost use Rattle.rv_asm_statements.specs.Pieces.{those};

    ghost Value = { List Argument };

    ghost view = { λ left. those (arguments_of left.tokens) };

    ghost invariant = { λ left. is_some (arguments_of left.tokens) ≡ true };
}

impl<'a> OperandsLeft<'a> {
    ghost use Rattle.std.specs.Prelude.{◌≡◌, ◌∷◌, [], MatchOption};
    ghost use Rattle.rv_asm_statements.specs.CodeViews.{argument_view};

    /// Takes the first operand, if one is left.
    pub fn next(&mut self) -> Option<Operand<'a>>
        ensures { MatchOption result ((self.old ≡ []) × (self.new ≡ [])) (λ x. self.old ≡ argument_view x ∷ self.new) }
    {
        let mut tokens = self.tokens.again();
        match take_operand(&mut tokens) {
            None => None,
            Some(piece) => {
                self.tokens = tokens;
                Some(piece.operand)
            }
        }
    }
}

/// The operands of a statement: the first few, and the tokens of all. Contracts see a list of operands.
#[derive(Drop)]
pub struct Operands<'a> {
    few: Few<'a>,
    tokens: Tokens<'a>,
}

impl<'a> Model for Operands<'a> {
    ghost use Rattle.std.specs.Prelude.{◌≡◌, List, is_some, true};
    ghost use Rattle.rv_asm_statements.specs.Arguments.{Argument, arguments_of};
    ghost use Rattle.rv_asm_statements.specs.First.{AreFirst};
    ghost use Rattle.rv_asm_statements.specs.Pieces.{those};

    ghost Value = { List Argument };

    ghost view = { λ operands. those (arguments_of operands.tokens) };

    ghost invariant = { λ operands. (is_some (arguments_of operands.tokens) ≡ true)
        × AreFirst operands.few (those (arguments_of operands.tokens)) };
}

impl<'a> Operands<'a> {
    ghost use Rattle.std.specs.Prelude.{◌≡◌, ◌<◌, MatchOption, length, map};
    ghost use Rattle.rv_asm_statements.specs.Arguments.{arguments_of};
    ghost use Rattle.rv_asm_statements.specs.CodeViews.{argument_view};

    /// The operands of a statement, or none where what stands between two commas is no operand.
    #[tactic(auto, using(crate::proofs::Pieces::those_some))]
    pub fn of_tokens(tokens: Tokens<'a>) -> Option<Operands<'a>>
        ensures { result ≡ arguments_of tokens.entry }
    {
        let few = first_operands(&tokens)?;
        Some(Operands { few, tokens })
    }

    /// All of them, if there are three at most.
    pub fn few(&self) -> Option<&[Operand<'a>]>
        ensures { MatchOption result (3 < length self.now) (λ few. map argument_view few.now ≡ self.now) }
    {
        self.few.all()
    }

    /// All of them, to be taken one by one.
    pub fn left(&self) -> OperandsLeft<'a>
        ensures { result ≡ self.now }
    {
        OperandsLeft {
            tokens: self.tokens.again(),
        }
    }
}
