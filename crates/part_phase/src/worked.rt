//! Worked values, as theorems that compute.

ghost use Rattle.part_phase.specs.Worked.{CutRows, LimitRows, PaddedRows, SendingRows, SideRows, WidthRows};

/// Which numbers of partitions and of bytes are right, in both versions.
pub fn limit_rows()
    ensures { LimitRows }
{}

/// Bytes with 0 behind them, in both widths.
pub fn padded_rows()
    ensures { PaddedRows }
{}

/// A phase of two partitions, made ready in turn and freed.
pub fn sending_rows()
    ensures { SendingRows }
{}

/// What the two partitions of a receiver wait for, whose sender has three.
pub fn cut_rows()
    ensures { CutRows }
{}

/// Which cuts of 192 bytes there are in both versions, and that sixteen partitions of 128 bytes are a side.
pub fn width_rows()
    ensures { WidthRows }
{}

/// The sides that a rank has of three links, before and after a transfer has one.
pub fn side_rows()
    ensures { SideRows }
{}
