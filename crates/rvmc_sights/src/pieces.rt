//! A long text, which is written piece by piece and never stands in memory as a whole.

ghost use Rattle.std.specs.Prelude.{◌≡◌, true};
ghost use Rattle.rvmc_sights.specs.Pieces.{IsMoved};

use std::io::Write;

/// How many bytes a piece has at least, but for the last one.
const PIECE: usize = 65_536;

/// Writes the text that is held once it is a piece, and says whether the writer took it.
pub fn put_piece<W: Write>(text: &mut Vec<u8>, out: &mut W) -> bool
    ensures { result ≡ true → IsMoved text.old.items text.new.items (W.contents out.old) (W.contents out.new) }
{
    if text.len() < PIECE {
        return true;
    }
    if out.write_all(text.as_slice()).is_err() {
        return false;
    }
    text.clear();
    true
}
