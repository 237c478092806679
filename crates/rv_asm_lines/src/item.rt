//! What stands where, as the first pass keeps it.

ghost use Rattle.std.specs.Prelude.{◌≡◌, IfOk, IfSome};
ghost use Rattle.rv_asm_tokens.specs.Lexeme.{number_value};
ghost use Rattle.rv_asm_lines.specs.Layout.{item_at};
ghost use Rattle.rv_asm_lines.specs.ItemView.{unlabelled};
ghost use Rattle.rv_asm_statements.specs.declared.statements.Statement.TheVariants.{Instruction, Label};
ghost use Rattle.rv_asm_statements.specs.declared.statements.Statement.TheVariants.{Directive as Directed};

use crate::parts::{Part, Place};
use rv_asm_statements::{Directive, Filled, Integer, Statement, Target, Template, Use};
use rv_asm_tokens::Number;
use rv_decode::Reg;
use std::alloc::{AllocError, Global};
use std::marker::Model;

/// A label or a statement, its line, and where it stands: contracts see these three. It takes 32 bytes, since a label's
/// name is that in the source, and directives and what names a label have blocks of their own.
#[derive(Drop)]
pub struct Item<'a> {
    pub(crate) kept: Kept<'a>,
}

/// Each has its part, how many bytes of it stand before, and its line.
#[derive(Drop)]
pub(crate) enum Kept<'a> {
    Label(Part, u32, u64, &'a [u8]),
    Directive(Part, u32, u64, Box<Directive>),
    /// An instruction that names no label stands in the item itself. The fields are in the order that leaves no gaps.
    Plain {
        part: Part,
        template: Template,
        at: u32,
        first: Reg,
        second: Reg,
        third: Reg,
        negative: bool,
        line: u64,
        magnitude: u64,
    },
    Other(Part, u32, u64, Box<Statement>),
}

const _: () = prove!(size_of::<Item<'static>>() == 32);

/// An instruction that names no label.
#[inline(always)]
pub(crate) fn plain_use(
    template: Template,
    first: Reg,
    second: Reg,
    third: Reg,
    number: Number,
) -> Use
    ensures { result ≡ unlabelled template first second third (number_value number) }
{
    Use {
        template,
        filled: Filled {
            first,
            second,
            third,
            target: Target {
                label: None,
                number: Integer::from_number(number),
            },
        },
    }
}

impl<'a> Model for Item<'a> {
    ghost use Rattle.rv_asm_lines.specs.Item.{Item};

    ghost Value = { Item };

    ghost use Rattle.rv_asm_lines.specs.ItemView.{item_view};

    ghost view = { item_view };
}

impl<'a> Item<'a> {
    /// The label of a name in the source.
    pub fn label(line: u64, place: Place, name: &'a [u8]) -> Item<'a>
        ensures { result ≡ item_at line place (Label name.now) }
    {
        Item {
            kept: Kept::Label(place.part, place.at, line, name),
        }
    }

    /// An instruction in the item itself, unless it names a label.
    fn plain(line: u64, place: Place, found: &Use) -> Option<Item<'a>>
        ensures { IfSome result (λ item. item ≡ item_at line place (Instruction found.now)) }
    {
        if found.filled.target.label.is_some() {
            return None;
        }
        let number = found.filled.target.number.number();
        Some(Item {
            kept: Kept::Plain {
                part: place.part,
                template: found.template,
                at: place.at,
                first: found.filled.first,
                second: found.filled.second,
                third: found.filled.third,
                negative: number.negative,
                line,
                magnitude: number.magnitude,
            },
        })
    }

    /// A directive, in a block of its own.
    fn directed(
        alloc: Global,
        line: u64,
        place: Place,
        directive: Directive,
    ) -> Result<Item<'a>, AllocError>
        ensures { IfOk result (λ item. item ≡ item_at line place (Directed directive)) }
    {
        let directive = Box::new(alloc, directive)?;
        Ok(Item {
            kept: Kept::Directive(place.part, place.at, line, directive),
        })
    }

    /// A statement, in a block of its own.
    fn other(
        alloc: Global,
        statement: Statement,
        line: u64,
        place: Place,
    ) -> Result<Item<'a>, AllocError>
        ensures { IfOk result (λ item. item ≡ item_at line place statement) }
    {
        let stated = Box::new(alloc, statement)?;
        Ok(Item {
            kept: Kept::Other(place.part, place.at, line, stated),
        })
    }

    /// An instruction, in a block of its own where it names a label.
    fn used(alloc: Global, line: u64, place: Place, found: Use) -> Result<Item<'a>, AllocError>
        ensures { IfOk result (λ item. item ≡ item_at line place (Instruction found)) }
    {
        match Item::plain(line, place, &found) {
            Some(item) => Ok(item),
            None => Item::other(alloc, Statement::Instruction(found), line, place),
        }
    }

    /// A statement, in a block of its own unless it is an instruction that names no label.
    pub fn stated(
        alloc: Global,
        line: u64,
        place: Place,
        statement: Statement,
    ) -> Result<Item<'a>, AllocError>
        ensures { IfOk result (λ item. item ≡ item_at line place statement) }
    {
        match statement {
            Statement::Instruction(found) => Item::used(alloc, line, place, found),
            Statement::Directive(directive) => Item::directed(alloc, line, place, directive),
            label => Item::other(alloc, label, line, place),
        }
    }

    /// The number of its line.
    pub fn line(&self) -> u64
        ensures { result ≡ self.now.line }
    {
        match &self.kept {
            Kept::Label(_, _, line, _) => *line,
            Kept::Plain { line, .. } => *line,
            Kept::Directive(_, _, line, _) => *line,
            Kept::Other(_, _, line, _) => *line,
        }
    }

    /// Where it stands.
    pub fn place(&self) -> Place
        ensures { result ≡ self.now.place }
    {
        let (part, at) = match &self.kept {
            Kept::Label(part, at, _, _) => (*part, *at),
            Kept::Plain { part, at, .. } => (*part, *at),
            Kept::Directive(part, at, _, _) => (*part, *at),
            Kept::Other(part, at, _, _) => (*part, *at),
        };
        Place { part, at }
    }
}
