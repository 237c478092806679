//! Ranks that rest.

ghost use Rattle.std.specs.Prelude.{◌≡◌, ◌<◌, ◌==◌, ◌&&◌, ◌||◌, ℕ, nat_lt, option_map, vec_len};
ghost use Rattle.std.specs.List.{list_any};
ghost use Rattle.cl_state.specs.Room.{rank_of};
ghost use Rattle.cl_state.specs.TurnRoom.{IsNext};
ghost use Rattle.cl_rest_laws.specs.Rests.{handles_waited_for as handles_in, is_behind_call as is_behind_of};
ghost use Rattle.cl_rest_laws.specs.Rests.{is_free_to_go as is_free_of, may_wait_for_receipt as may_wait_of};
ghost use Rattle.cl_rest_laws.specs.Rests.{rests_before as rests_before_of, rests_behind as rests_behind_of};
ghost use Rattle.cl_rest_laws.specs.Rests.{rests_in as rests_in_of, says_buffered as says_buffered_of};
ghost use Rattle.cl_rests.specs.Held.{TellsRestsBeside};
ghost use Rattle.cl_rests.specs.Found.{TellsRestsTo, sent_behind};
ghost use Rattle.cl_rests.specs.Sets.{in_set};
ghost use Rattle.cl_rests.specs.Sought.{is_sought, is_sought_handle};
ghost use Rattle.cl_rests.specs.Telling.{IsRestAt, TellsResting};

use crate::handles::{handles_waited_for, is_wait, post_of_send};
use crate::sets::RankSet;
use crate::sought::Sought;
use cl_calls::{Call, Sending};
use cl_moves::Standing;
use cl_state::{Doing, RankState, is_ecall};
use mp_request::Requests;
use rv_decode::Reg;
use rv_hart::{Hart, Mode, Wait};

/// Whether a hart in this mode is neither stopped nor polls a post.
fn is_free_to_go(mode: Mode) -> bool
    ensures { result ≡ is_free_of mode }
{
    matches!(mode, Mode::Running | Mode::Waiting(Wait::Again))
}

/// What a SEND, or a WAIT or WAITALL of one, has in a5 if the message is buffered by whoever sends it: the eight letters of
/// `buffered`.
const BUFFERED: u64 = 0x6465_7265_6666_7562;

/// Whether the hart says in a5 that the messages of the call that its registers spell are buffered. Then none of them waits for
/// its receive.
pub fn says_buffered(hart: &Hart) -> bool
    ensures { result ≡ says_buffered_of hart.now }
{
    hart.get(Reg::new(15)) == BUFFERED
}

/// Whether the call that the hart made wasn't refused, for its code in a0 is 0, and doesn't say that it is buffered.
fn may_wait_for_receipt(hart: &Hart) -> bool
    ensures { result ≡ may_wait_of hart.now }
{
    hart.get(Reg::new(10)) == 0 && !says_buffered(hart)
}

/// Whether the hart stands behind a call: the word before the one at its pc is an ECALL.
fn is_behind_call(own: &RankState, hart: &Hart) -> bool
    ensures { result ≡ is_behind_of (rank_of own.now).memory hart.now }
{
    let pc = hart.pc();
    pc > 3 && is_ecall(own.memory.text_word(pc - 4))
}

/// The SEND behind which the rank's first hart stands, if it stands behind one that may wait.
fn send_behind(own: &RankState) -> Option<Sending>
    ensures { result ≡ sent_behind (rank_of own.now) }
{
    if own.harts.len() == 0 {
        return None;
    }
    let hart = &own.harts[0];
    if !is_free_to_go(hart.mode()) || !is_behind_call(own, hart) || !may_wait_for_receipt(hart) {
        return None;
    }
    match Call::of(hart) {
        Call::Send(sending) => Some(sending),
        _ => None,
    }
}

/// Whether the rank's first hart rests behind a SEND of such a message.
fn rests_behind(sought: &Sought<'_>, own: &RankState) -> bool
    ensures { result ≡ rests_behind_of (is_sought sought.now) sought.now.hub.now sought.now.from (rank_of own.now) 0 }
{
    match send_behind(own) {
        None => false,
        Some(sending) => sought.finds_any_sent(&own.site, &sending),
    }
}

/// Whether the handle is that of a standard send of such a message.
fn finds_handle(sought: &Sought<'_>, requests: &Requests, handle: u64) -> bool
    ensures { result ≡ is_sought_handle sought.now requests.now handle }
{
    sought.finds_post(post_of_send(&requests.get(handle)))
}

/// Whether one of these handles is.
fn finds_any_handle(sought: &Sought<'_>, requests: &Requests, handles: &[u64]) -> bool
    ensures { result ≡ list_any (is_sought_handle sought.now requests.now) handles.now }
{
    handles
        .iter()
        .any(|handle| finds_handle(sought, requests, *handle))
}

/// Whether a turn of the rank's first hart is a WAIT or WAITALL of such a handle.
fn waits_for(sought: &Sought<'_>, own: &RankState, doing: &Doing) -> bool
    requires { IsNext own.now 0 doing.now }
    ensures { result
        ≡ list_any (is_sought_handle sought.now own.now.requests) (handles_in own.now.memory doing.now) }
{
    // no room for handles is taken for any other turn: most are
    if !is_wait(doing) {
        return false;
    }
    let handles = handles_waited_for(own, doing);
    finds_any_handle(sought, &own.requests, handles.as_slice())
}

/// Whether the rank's first hart rests before a WAIT or WAITALL of such a message.
fn rests_before(sought: &Sought<'_>, own: &RankState) -> bool
    requires { 0 < vec_len own.now.harts }
    ensures { result ≡ rests_before_of (is_sought sought.now) sought.now.hub.now sought.now.from (rank_of own.now) 0 }
{
    !says_buffered(&own.harts[0]) && waits_for(sought, own, &own.next(0))
}

/// Whether the rank's first hart rests for such a message.
fn rests_in(sought: &Sought<'_>, own: &RankState) -> bool
    ensures { result ≡ rests_in_of (is_sought sought.now) sought.now.hub.now sought.now.from (rank_of own.now) 0 }
{
    if own.harts.len() == 0 {
        return false;
    }
    rests_behind(sought, own) || rests_before(sought, own)
}

/// Whether the rank rests until one of these receives, or until any rank does if none are given.
fn rests_to(standing: &Standing, rank: u8, to: Option<&[u8]>) -> bool
    ensures { TellsRestsTo standing.now rank (option_map (λ ranks. ranks.now) to.entry) result }
{
    let place = usize::from(rank);
    if place >= standing.cluster.ranks.len() {
        return false;
    }
    let sought = Sought {
        hub: &standing.whole,
        from: rank,
        to,
    };
    rests_in(&sought, &standing.cluster.ranks[place])
}

/// Whether the rank rests until one of these receives.
pub(crate) fn rests_beside(among: &[u8], standing: &Standing, rank: u8) -> bool
    ensures { TellsRestsBeside among.now standing.now rank result }
{
    rests_to(standing, rank, Some(among))
}

/// Whether the rank waits for the receive of a standard send, where such sends wait: nobody received the message, and the rank's
/// first hart is right behind the SEND, or before a WAIT or WAITALL of it. A matched probe doesn't receive it.
pub fn rests(standing: &Standing, rank: u8) -> bool
    ensures { IsRestAt standing.now rank result }
{
    rests_to(standing, rank, None)
}

/// The set, and this rank too if it is one.
fn with_if(ranks: RankSet, rank: u8, is_one: bool) -> RankSet
    ensures { (r : ℕ) → in_set result r ≡ in_set ranks r || (is_one && ((r == rank) && nat_lt rank 8)) }
{
    if is_one { ranks.with(rank) } else { ranks }
}

/// The ranks that rest so.
pub fn resting_ranks(standing: &Standing) -> RankSet
    ensures { TellsResting standing.now result }
{
    let mut ranks = RankSet::none();
    for rank in 0..8 {
        ranks = with_if(ranks, rank, rests(standing, rank));
    }
    ranks
}
