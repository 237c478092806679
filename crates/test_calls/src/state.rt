//! Answers of `cl_state`.

ghost use Rattle.std.specs.Prelude.{◌≡◌, ◌<◌, [], Ok, vec_len, IsOk, OnOk, OnErr};
ghost use Rattle.cl_state.specs.declared.asking.Doing.TheVariants.{Step};
ghost use Rattle.cl_state.specs.Asked.{asked, doing, part_of};
ghost use Rattle.cl_state.specs.TurnRoom.{carried};
ghost use Rattle.cl_state.specs.Room.{rank_of};
ghost use Rattle.cl_state.specs.TurnRoom.{writes_of};
ghost use Rattle.cl_state.specs.Writes.{missing_for};
ghost use Rattle.cl_state.specs.Told.{told};
ghost use Rattle.test_calls.specs.Turns.{AskedPlaces, BreakRow, ExitRow, IssendAmongSeveral, IssendRow, LoadedRow};
ghost use Rattle.test_calls.specs.Turns.{NoStatus, ProbeWaits, RankSizeRow, ReceiveFromNullRow, SecondHartRow};
ghost use Rattle.test_calls.specs.Turns.{SendToNullRow, SeveralPlaces, StatusOverBuffer, StoppedRows, ToldPlaces};

use cl_state::{Answer, Ask, RankParts, RankState};
use mp_types::Stamp;
use std::alloc::{AllocError, Global};

/// EXIT ends its hart with its code.
pub fn exits()
    ensures { ExitRow }
{}

/// RANK gives the place in the communicator that was asked for, and SIZE its number of members.
pub fn tells_rank_and_size()
    ensures { RankSizeRow }
{}

/// Each hart asks and is told by its own registers.
pub fn second_hart()
    ensures { SecondHartRow }
{}

/// A hart that ended or trapped asks nothing, and nothing but the clock changes.
pub fn stopped_harts()
    ensures { StoppedRows }
{}

/// EBREAK is no call.
pub fn break_is_no_call()
    ensures { BreakRow }
{}

/// A send to the null process asks nobody.
pub fn sends_to_the_null_process()
    ensures { SendToNullRow }
{}

/// What is received from the null process has its status.
pub fn receives_from_the_null_process()
    ensures { ReceiveFromNullRow }
{}

/// The hub is asked for the rank at a position of the communicator.
pub fn asks_for_the_rank_of_a_place()
    ensures { AskedPlaces }
{}

/// A status tells the position of a message's source, and not its rank.
pub fn tells_the_place_of_a_rank()
    ensures { ToldPlaces }
{}

/// So do the statuses of several requests.
pub fn tells_the_places_of_several()
    ensures { SeveralPlaces }
{}

/// TEST of ISSEND's request asks whether it is complete.
pub fn tests_a_synchronous_send()
    ensures { IssendRow }
{}

/// Among several a synchronous send gets no message.
pub fn tests_a_synchronous_send_among_several()
    ensures { IssendAmongSeveral }
{}

/// PROBE and MPROBE wait where nothing is there.
pub fn probes_wait()
    ensures { ProbeWaits }
{}

/// The status of a receive is written behind its bytes.
pub fn status_over_buffer()
    ensures { StatusOverBuffer }
{}

/// A status at address 0 isn't written.
pub fn no_status()
    ensures { NoStatus }
{}

/// A rank is loaded with its number, its communicators, its links and its sides of them, its harts at the entry, and
/// clock 0.
pub fn loads()
    ensures { LoadedRow }
{}

/// What carries no list is asked as the hart's registers spell it, and isn't refused memory.
pub fn asks_without_memory(rank: &RankState, hart: u8) -> Result<Ask, AllocError>
    requires hart { hart < vec_len rank.now.harts }
    requires nothing { carried (asked (rank_of rank.now) hart) ≡ 0 }
    ensures { result ≡ Ok (asked (rank_of rank.now) hart) }
{
    rank.ask(hart)
}

/// Whatever a hart is answered, the rank is told it once there is room, and else stays as it was.
pub fn tells_what_was_answered(
    rank: &mut RankState,
    hart: u8,
    answer: &Answer,
    stamp: Stamp,
) -> Result<(), AllocError>
    requires { hart < vec_len rank.old.harts }
    ensures told { OnOk result (rank_of rank.new ≡ told (rank_of rank.old) hart answer.now stamp) }
    ensures same { OnErr result (rank_of rank.new ≡ rank_of rank.old) }
{
    rank.room(hart)?;
    rank.tell(hart, answer, stamp);
    Ok(())
}

/// A new rank has put nothing out, and is at clock 0.
pub fn begins_at_clock_0(alloc: Global, parts: RankParts) -> RankState
    ensures out { result.out.items ≡ [] }
    ensures clock { result.clock ≡ 0 }
    ensures phases { result.phases ≡ parts.phases }
{
    RankState::new(alloc, parts)
}

/// An instruction needs no room where the pages that it stores to are there.
pub fn steps_in_place(rank: &mut RankState, hart: u8) -> Result<(), AllocError>
    requires hart { hart < vec_len rank.old.harts }
    requires step { doing rank.old.site (part_of (rank_of rank.old) hart) ≡ Step }
    requires pages { missing_for rank.old.memory.pages (writes_of rank.old hart) ≡ 0 }
    ensures { IsOk result }
{
    rank.room(hart)
}
