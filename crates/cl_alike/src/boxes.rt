//! Boxes, compared but for their stamps.

ghost use Rattle.std.specs.Prelude.{◌≡◌, ◌↔◌, IsTrue};
ghost use Rattle.part_box.specs.declared.settled.Settled.{Settled};
ghost use Rattle.cl_alike.specs.Boxes.{AreAlikeLinks, AreAlikeParts, IsAlikeSettled};

use part_box::Settled;

#[tactic(auto, using(crate::proofs::Same::same_words))]
fn are_same_words(words: &[u64; 16], others: &[u64; 16]) -> bool
    ensures { IsTrue result ↔ (words.now ≡ others.now) }
{
    words == others
}

fn is_alike_box(a: &Settled, b: &Settled) -> bool
    ensures { IsTrue result → IsAlikeSettled a.now b.now }
{
    b.full == a.full && are_same_words(&b.words, &a.words)
}

fn are_alike_parts(parts: &[Settled], others: &[Settled]) -> bool
    ensures { IsTrue result → AreAlikeParts parts.now others.now }
{
    if parts.len() != others.len() {
        return false;
    }
    for part in 0..parts.len() {
        if !is_alike_box(&parts[part], &others[part]) {
            return false;
        }
    }
    true
}

/// Whether in each box stands what stands in the other one of its number, whatever their stamps.
pub fn are_alike_boxes(boxes: &[[Settled; 16]], others: &[[Settled; 16]]) -> bool
    ensures { IsTrue result → AreAlikeLinks boxes.now others.now }
{
    if boxes.len() != others.len() {
        return false;
    }
    for link in 0..boxes.len() {
        if !are_alike_parts(&boxes[link], &others[link]) {
            return false;
        }
    }
    true
}
