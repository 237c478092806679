//! Worked values, as theorems that compute.
ghost use Rattle.part_box.specs.Rows.{SettledRows};

/// What a box is left with whose thing was taken, and one whose thing wasn't.
pub fn settled_rows()
    ensures { SettledRows }
{}
