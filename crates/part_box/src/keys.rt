//! The two keys of a box.
ghost use Rattle.part_box.specs.Fields.{IsSender, IsReceiver};
ghost use Rattle.part_box.specs.Keys.{Sender, Receiver};

use crate::view::View;
use atomic_table::Seat;
use std::marker::Model;

/// The right to make things ready in one box. Contracts see it as a `Sender`: its box, and what it knows.
#[derive(Drop)]
pub struct SendKey {
    pub(crate) seat: Seat<(), View>,
    // How many data words of the next thing are stored.
    pub(crate) filled: usize,
}

impl Model for SendKey {
    ghost Value = { Sender };

    ghost view = { λ k. record { at = k.seat.table_id; view = k.seat.me.0.sending } };

    ghost invariant = { λ k. IsSender k.seat.me k.filled };
}

/// The right to take things out of one box. Contracts see it as a `Receiver`: its box, and what it knows.
#[derive(Drop)]
pub struct RecvKey {
    pub(crate) seat: Seat<(), View>,
    // How many data words of the thing in the box are copied.
    pub(crate) copied: usize,
}

impl Model for RecvKey {
    ghost Value = { Receiver };

    ghost view = { λ k. record { at = k.seat.table_id; view = k.seat.me.0.receiving } };

    ghost invariant = { λ k. IsReceiver k.seat.me k.copied };
}
