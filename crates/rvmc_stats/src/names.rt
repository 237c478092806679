//! The names of how calls end.

ghost use Rattle.std.specs.Prelude.{◌≡◌};
ghost use Rattle.rvmc_stats.specs.Names.{code_name as code_name_of, outcome_name as outcome_name_of};

/// The name of the code that a call leaves in a0.
pub fn code_name(number: u64) -> &'static str
    ensures { result.now ≡ code_name_of number }
{
    match number {
        0 => "OK",
        1 => "BAD_BUFFER",
        2 => "BAD_COUNT",
        3 => "BAD_TAG",
        4 => "BAD_RANK",
        5 => "BAD_COMM",
        6 => "BAD_REQUEST",
        7 => "TRUNCATED",
        8 => "FULL",
        9 => "BAD_PARTITION",
        10 => "NO_CHANNEL",
        11 => "SHAPE",
        12 => "ACTIVE",
        13 => "BAD_CALL",
        14 => "BAD_MESSAGE",
        15 => "ALREADY_READY",
        16 => "NOT_ACTIVE",
        _ => "no code",
    }
}

/// How a call ended, by its column: a code, `waits`, `ended` or `trapped`.
pub(crate) fn outcome_name(place: usize) -> &'static str
    ensures { result.now ≡ outcome_name_of place }
{
    match place {
        18 => "waits",
        19 => "ended",
        20 => "trapped",
        _ => code_name(place as u64),
    }
}
