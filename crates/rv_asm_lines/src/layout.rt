//! The first pass: where each label and statement of a source stands.

ghost use Rattle.std.specs.Prelude.{◌≡◌};
ghost use Rattle.rv_asm_lines.specs.Layout.{next_place as next_place_meant};
ghost use Rattle.rv_asm_lines.specs.LayoutView.{layout_view};

use crate::fields::Fields;
use crate::item::Item;
use crate::parts::{Part, Place};
use indexmap::IndexMap;
use std::collections::BTreeSet;

/// The lines so far: how long the parts are, the part that follows, the fields, the names of `.globl` in byte order,
/// the labels, whose names are those in the source, and what stands where.
#[derive(Drop)]
pub struct Layout<'a> {
    pub text: u32,
    pub init: u32,
    pub part: Part,
    pub fields: Fields,
    pub globals: BTreeSet<Vec<u8>>,
    pub labels: IndexMap<&'a [u8], Place>,
    pub items: Vec<Item<'a>>,
}

/// Where the next statement stands.
pub fn next_place(layout: &Layout<'_>) -> Place
    ensures { result ≡ next_place_meant (layout_view layout.now) }
{
    let at = match layout.part {
        Part::Text => layout.text,
        Part::Data => layout.init,
    };
    Place {
        part: layout.part,
        at,
    }
}
