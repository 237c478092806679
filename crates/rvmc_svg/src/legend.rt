//! The legend: each shape that the picture has, drawn.

use crate::arrows::{Kinds, kinds_of};
use crate::forms::{
    ARROW_SIGN, BAR_SIGN, MARK_SIGN, MEANING, NUMBERS, ONE_KIND, SEVERAL_KINDS, WILD_SIGN,
};
use crate::marks::shape_name;
use crate::pieces::Piece::{Number, Words};
use crate::pieces::put;
use rvmc_draw::{Carried, Drawing, Shape};
use std::io;

/// How high a row of the legend is, how far apart two of its signs are, in per cent, and where a row ends.
const ROW: u64 = 17;

const APART: u64 = 33;

const END: u64 = 99;

/// How far apart two lines are.
const LINE: u64 = 14;

/// What a picture may have that has a sign: which says how the sign is drawn.
#[derive(Clone, Copy, Drop)]
enum Sign {
    /// A mark of this shape.
    Mark(Shape),
    /// A hart that waits, and goes on or doesn't: a bar of this class.
    Bar(bool, &'static str),
    /// A receive of any source.
    Wild,
    /// An arrow that isn't plain: a line of this class.
    Arrow(Kind, &'static str),
}

/// A kind of arrow.
#[derive(Clone, Copy, Drop)]
enum Kind {
    /// To a claim.
    Claim,
    /// Of what could have been taken.
    Could,
    /// Of a message that nobody got, or of a partition that nobody took.
    Lost,
}

/// All signs and what they mean, in the legend's order.
static SIGNS: [(Sign, &str); 21] = [
    (Sign::Mark(Shape::Send), "sends"),
    (Sign::Mark(Shape::SyncSend), "sends, synchronous"),
    (Sign::Mark(Shape::Done), "send complete"),
    (Sign::Mark(Shape::Posted), "receive posted"),
    (Sign::Mark(Shape::Got), "has got"),
    (Sign::Mark(Shape::Seen), "probe saw"),
    (Sign::Mark(Shape::Claimed), "claims"),
    (Sign::Mark(Shape::Ready), "partition ready"),
    (Sign::Mark(Shape::Taken), "partition taken"),
    (Sign::Mark(Shape::Freed), "known to be taken"),
    (Sign::Mark(Shape::Put), "puts out"),
    (Sign::Mark(Shape::Exit), "ends"),
    (Sign::Mark(Shape::Trap), "traps"),
    (Sign::Mark(Shape::Refused), "call refused"),
    (Sign::Mark(Shape::Other), "another call"),
    (Sign::Bar(true, "wait"), "waits"),
    (Sign::Bar(false, "ever"), "waits at the end"),
    (Sign::Wild, "from any rank"),
    (Sign::Arrow(Kind::Lost, "lost"), "got by nobody"),
    (Sign::Arrow(Kind::Claim, "claim"), "to the claim"),
    (Sign::Arrow(Kind::Could, "far"), "could have been got"),
];

/// Whether the picture has what this is the sign of.
fn has(drawing: &Drawing, sign: Sign) -> bool {
    for mark in drawing.marks.as_slice() {
        let is = match sign {
            Sign::Mark(shape) => mark.shape == shape,
            Sign::Wild => mark.wild,
            _ => false,
        };
        if is {
            return true;
        }
    }
    for bar in drawing.bars.as_slice() {
        let is = match sign {
            Sign::Bar(went_on, _) => bar.went_on == went_on,
            _ => false,
        };
        if is {
            return true;
        }
    }
    for arrow in drawing.arrows.as_slice() {
        let is = match sign {
            Sign::Arrow(Kind::Claim, _) => matches!(arrow.carried, Carried::Claim { .. }),
            Sign::Arrow(Kind::Could, _) => matches!(arrow.carried, Carried::Could { .. }),
            Sign::Arrow(Kind::Lost, _) => arrow.to.is_none(),
            _ => false,
        };
        if is {
            return true;
        }
    }
    false
}

/// Adds what all messages share, or how one is told, and where the next line stands.
fn put_kinds(text: &mut Vec<u8>, drawing: &Drawing, down: u64) -> io::Result<u64> {
    match kinds_of(drawing.arrows.as_slice()) {
        Kinds::None => return Ok(down),
        Kinds::One(tag, count) => {
            let (tag, size) = (Number(u64::from(tag)), Number(u64::from(count)));
            let unit = Words(if count == 1 { "byte" } else { "bytes" });
            put(text, ONE_KIND, &[Number(down), tag, size, unit])?
        }
        Kinds::Several => put(text, SEVERAL_KINDS, &[Number(down)])?,
    }
    Ok(down.saturating_add(LINE))
}

/// Adds the legend, from this row on, and tells where it ends.
pub(crate) fn put_legend(text: &mut Vec<u8>, drawing: &Drawing, from: u64) -> io::Result<u64> {
    let mut down = put_kinds(text, drawing, from)?;
    put(text, NUMBERS, &[Number(down)])?;
    down = down.saturating_add(18);
    let mut across: u64 = 0;
    for row in &SIGNS {
        let (sign, meaning) = *row;
        if !has(drawing, sign) {
            continue;
        }
        let (form, class) = match sign {
            Sign::Mark(shape) => (MARK_SIGN, shape_name(shape)),
            Sign::Bar(_, class) => (BAR_SIGN, class),
            Sign::Wild => (WILD_SIGN, ""),
            Sign::Arrow(_, class) => (ARROW_SIGN, class),
        };
        let pieces = [
            Number(across),
            Number(down),
            Words(class),
            Number(down.saturating_sub(6)),
            Number(down.saturating_add(4)),
            Words(meaning),
        ];
        put(text, form, &pieces)?;
        put(text, MEANING, &pieces)?;
        across = across.saturating_add(APART);
        if across >= END {
            across = 0;
            down = down.saturating_add(ROW);
        }
    }
    Ok(down.saturating_add(ROW))
}
