//! Lines that are written as far as a writer takes them.

ghost use Rattle.std.specs.Prelude.{◌≡◌, ◌≤◌, IfSome, None, length, take};
ghost use Rattle.std.specs.Io.KnownBytes.{Appends, Keeps};
ghost use Rattle.cl_lines.specs.Beginnings.{AppendsBeginning};

use std::io::{ErrorKind, Write};

/// Writes some bytes of a text, and tells how many: 0 where the write was interrupted, and none where it failed, or took
/// nothing.
#[tactic(auto, using(crate::proofs::Pieces::none_taken, crate::proofs::Pieces::nothing_taken))]
fn put_some<W: Write>(out: &mut W, text: &[u8]) -> Option<usize>
    ensures within { IfSome result (λ count. count ≤ length text.now) }
    ensures some { IfSome result (λ count. Appends (W.contents out.old) (W.contents out.new) (take count text.now)) }
    ensures none { result ≡ None → Keeps (W.contents out.old) (W.contents out.new) }
{
    match out.write(text) {
        Ok(0) => None,
        Ok(count) => Some(count),
        Err(error) => {
            if error.kind() == ErrorKind::Interrupted {
                Some(0)
            } else {
                None
            }
        }
    }
}

/// Writes as much of a line as the writer takes: all of it, or what it took before a write failed.
#[tactic(auto, using(crate::proofs::Pieces::beginning_stays))]
pub fn put_beginning<W: Write>(out: &mut W, line: &[u8])
    ensures { AppendsBeginning line.now (W.contents out.old) (W.contents out.new) }
{
    let mut done = 0;
    for _turn in 0..=line.len() {
        match put_some(out, &line[done..]) {
            Some(count) => done += count,
            None => return,
        }
    }
}
