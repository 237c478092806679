//! Sixteen marks, one a partition or box.

ghost use Rattle.std.specs.Prelude.{◌≡◌, get_or, set, true, false};

// Whether there is such a mark, and it is set.
pub(crate) fn is_marked(marks: &[bool; 16], at: u8) -> bool
    ensures { result ≡ get_or marks.now at false }
{
    at < 16 && marks[at as usize]
}

// The marks with one more, if it is there.
pub(crate) fn with_mark(marks: [bool; 16], at: u8) -> [bool; 16]
    ensures { result ≡ set marks at true }
{
    let mut more = marks;
    if at < 16 {
        more[at as usize] = true;
    }
    more
}
