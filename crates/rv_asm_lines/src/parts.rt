//! The two parts of a source, and how long statements are.

ghost use Rattle.std.specs.Prelude.{◌≡◌, ◌≤◌, ◌<◌, ◌^◌};
ghost use Rattle.rv_asm_lines.specs.Parts.{address, width_bytes, alignment_bytes, padding, directive_length, length_of};
ghost use Rattle.rv_asm_lines.specs.Parts.{data_may_stand, directive_may_stand, may_stand as can_stand, directive_part};
ghost use Rattle.rv_asm_lines.specs.Parts.{part_after as part_behind};

use crate::resolved::length_of_use;
use rv_asm_statements::{Alignment, Directive, Statement, Width};

/// Where a statement belongs.
#[derive(Clone, Copy)]
pub enum Part {
    /// Instructions and words, loaded at address 0.
    Text,
    /// What every rank's memory begins with, behind the text at a multiple of 16.
    Data,
}

/// A part, and the number of its bytes that stand before.
#[derive(Clone, Copy)]
pub struct Place {
    pub part: Part,
    pub at: u32,
}

/// The address of a place, where the text has so many bytes.
pub fn address_of(text: u32, place: Place) -> u64
    ensures value { result ≡ address text place.part place.at }
    ensures small { result < 2 ^ 34 }
{
    match place.part {
        Part::Text => u64::from(place.at),
        Part::Data => (u64::from(text) + 15) / 16 * 16 + u64::from(place.at),
    }
}

/// How many bytes an item of this width takes.
pub fn bytes_of_width(width: Width) -> usize
    ensures value { result ≡ width_bytes width }
    ensures most { result ≤ 8 }
{
    match width {
        Width::Byte => 1,
        Width::Half => 2,
        Width::Word => 4,
        Width::Double => 8,
    }
}

fn bytes_of_alignment(alignment: Alignment) -> u32
    ensures value { result ≡ alignment_bytes alignment }
    ensures least { 1 ≤ result }
    ensures most { result ≤ 16 }
{
    match alignment {
        Alignment::One => 1,
        Alignment::Two => 2,
        Alignment::Four => 4,
        Alignment::Eight => 8,
        Alignment::Sixteen => 16,
    }
}

/// How many bytes are missing to the next multiple.
pub fn padding_at(alignment: Alignment, at: u32) -> u32
    ensures value { result ≡ padding (alignment_bytes alignment) at }
    ensures small { result < 16 }
{
    let multiple = bytes_of_alignment(alignment);
    (multiple - at % multiple) % multiple
}

/// How many bytes a directive takes. The number of items is bounded by memory alone.
fn length_of_directive(at: u32, directive: &Directive) -> u128
    ensures value { result ≡ directive_length at directive.now }
    ensures small { result ≤ 2 ^ 70 }
{
    match directive {
        Directive::Items(width, items) => {
            bytes_of_width(*width) as u128 * items.as_slice().len() as u128
        }
        Directive::Bytes(bytes) => bytes.as_slice().len() as u128,
        Directive::Zero(count) => u128::from(count.number()),
        Directive::Align(alignment) => u128::from(padding_at(*alignment, at)),
        _ => 0,
    }
}

/// How many bytes a statement takes at a place of its part.
pub fn length_of_statement(at: u32, statement: &Statement) -> u128
    ensures value { result ≡ length_of at statement.now }
    ensures small { result ≤ 2 ^ 70 }
{
    match statement {
        Statement::Label(_) => 0,
        Statement::Instruction(found) => u128::from(length_of_use(found)),
        Statement::Directive(directive) => length_of_directive(at, directive),
    }
}

fn data_stands(part: Part, width: Width) -> bool
    ensures { result ≡ data_may_stand part width }
{
    matches!(part, Part::Data) || matches!(width, Width::Word)
}

fn directive_stands(part: Part, directive: &Directive) -> bool
    ensures { result ≡ directive_may_stand part directive.now }
{
    match directive {
        Directive::Items(width, _) => data_stands(part, *width),
        Directive::Bytes(_) | Directive::Zero(_) | Directive::Align(_) => matches!(
            part,
            Part::Data
        ),
        _ => true,
    }
}

/// Whether a statement may stand in a part: in the text only instructions and words, in the data no instructions.
pub fn may_stand(part: Part, statement: &Statement) -> bool
    ensures { result ≡ can_stand part statement.now }
{
    match statement {
        Statement::Label(_) => true,
        Statement::Instruction(_) => matches!(part, Part::Text),
        Statement::Directive(directive) => directive_stands(part, directive),
    }
}

/// The part that follows a statement.
pub fn part_after(part: Part, statement: &Statement) -> Part
    ensures { result ≡ part_behind part statement.now }
{
    match statement {
        Statement::Directive(Directive::Text) => Part::Text,
        Statement::Directive(Directive::Data) => Part::Data,
        _ => part,
    }
}
