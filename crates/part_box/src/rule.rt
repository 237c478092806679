//! The gate rule over the words of a box, and what each kind of step on them tells its key.
ghost use Rattle.std.specs.Prelude.{◌≡◌, ℕ, List};
ghost use Rattle.part_box.specs.Gate.{stamp_of};
ghost use Rattle.part_box.specs.Rule.{GateRule, IsGated};
ghost use Rattle.part_box.specs.Seats.{first_view, sender_part, receiver_part, joined_view, spent_view};
ghost use Rattle.part_box.specs.Steps.{with_made, with_freed, with_look};
ghost use Rattle.part_box.specs.Seats.{with_sending, with_receiving, with_word};
ghost use Rattle.part_box.specs.Steps.{with_got};
ghost use Rattle.part_box.specs.Seats.{with_copy};

use crate::view::View;
use atomic_table::{Join, Play, Split, TableRule};

/// The words of a box keep the gate rule. Their key is the width of the box: the number of its data words.
pub(crate) struct Gated;

impl TableRule<(), View, usize> for Gated {
    ghost holds = { IsGated };

    ghost first = { λ _. first_view };
}

/// Both keys in one seat: at first, while they agree, and again once the box is settled.
pub(crate) struct BothKeys;

impl Split<View> for BothKeys {
    ghost left = { sender_part };

    ghost right = { receiver_part };
}

impl Join<View> for BothKeys {
    ghost both = { joined_view };

    ghost spent = { spent_view };
}

/// The sender stores a data word.
pub(crate) struct Fill;

impl Play<(), View> for Fill {
    ghost then = { λ _ was word is. is ≡ (with_sending was.0 (with_word was.0.sending word), was.1) };
}

/// The sender stores an odd gate.
pub(crate) struct Ready;

impl Play<(), View> for Ready {
    ghost then = { λ _ was word is. is ≡ (with_sending was.0 (with_made was.0.sending (stamp_of word)), was.1) };
}

/// The sender loads the gate.
pub(crate) struct Freed;

impl Play<(), View> for Freed {
    ghost then = { λ _ was word is. is ≡ (with_sending was.0 (with_freed was.0.sending word), was.1) };
}

/// The receiver loads the gate.
pub(crate) struct Look;

impl Play<(), View> for Look {
    ghost then = { λ _ was word is. is ≡ (with_receiving was.0 (with_look was.0.receiving word), was.1) };
}

/// The receiver loads a data word.
pub(crate) struct Copy;

impl Play<(), View> for Copy {
    ghost then = { λ _ was word is. is ≡ (with_receiving was.0 (with_copy was.0.receiving word), was.1) };
}

/// The receiver stores an even gate.
pub(crate) struct Empty;

impl Play<(), View> for Empty {
    ghost then = { λ _ was word is. is ≡ (with_receiving was.0 (with_got was.0.receiving (stamp_of word)), was.1) };
}

/// Both keys load the last data word, whose number is the width: the gate rule holds of what they know.
pub(crate) struct Agree;

impl Play<(), View> for Agree {
    ghost then = { λ step was _ is. (is ≡ was)
        × (words : List ℕ) × GateRule step.word words was.0.sending was.0.receiving };
}
