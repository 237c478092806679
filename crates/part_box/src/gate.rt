//! What a gate word shows. The gate is twice a stamp while the box is empty, and one more while it is full.
ghost use Rattle.std.specs.Prelude.{◌≡◌, ◌-◌, ◌^◌, ◌<◌, IfSome};
ghost use Rattle.part_box.specs.Gate.{ready_stamp, taken_stamp};

/// The greatest stamp, 2^62 - 1. Nobody could go on from it, since no stamp stands above it.
const GREATEST_STAMP: u64 = (1 << 62) - 1;

/// The stamp of the thing in the box, where the gate shows one.
pub(crate) fn ready_in(gate: u64) -> Option<u64>
    ensures stamp { result ≡ ready_stamp gate }
    ensures room_above { IfSome result (λ stamp. stamp < 2 ^ 62 - 1) }
{
    if gate % 2 == 1 && gate / 2 < GREATEST_STAMP {
        Some(gate / 2)
    } else {
        None
    }
}

/// The stamp of the last take, where the gate shows one.
pub(crate) fn taken_in(gate: u64) -> Option<u64>
    ensures stamp { result ≡ taken_stamp gate }
    ensures room_above { IfSome result (λ stamp. stamp < 2 ^ 62 - 1) }
{
    if gate % 2 == 0 && gate / 2 < GREATEST_STAMP {
        Some(gate / 2)
    } else {
        None
    }
}
