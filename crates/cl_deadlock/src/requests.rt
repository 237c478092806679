//! Requests to the hub that aren't answered yet, and are up to the ranks of a list.

ghost use Rattle.std.specs.Prelude.{◌≡◌, ◌↔◌, ℕ, false, true, slice_get, Some};
ghost use Rattle.mp_match.specs.Board.{line_of};
ghost use Rattle.mp_hub.specs.Hub.{is_ready};
ghost use Rattle.mp_hub.specs.Vain.{asks_in_vain};
ghost use Rattle.mp_wait_laws.specs.Waits.{IsUpTo, OnlyOf, could_pair};
ghost use Rattle.cl_deadlock_laws.specs.Stuck.{is_among, is_member};

use crate::among::{could_only_pair, could_only_send, has_sender};
use cl_calls::Site;
use mp_hub::HubState;
use mp_match::Selection;
use mp_types::Request;

/// Whether the post isn't ready and is up to these.
fn holds_back(among: &[u8], site: &Site, hub: &HubState, rank: u8, post: u64) -> bool
    ensures { (result ≡ true) ↔ ((is_ready hub.now rank post ≡ false)
        × OnlyOf (is_among among.now) (could_pair (is_member site.now) (line_of hub.now.board post))) }
{
    !hub.is_ready(rank, post) && could_only_pair(among, site, hub, post)
}

/// Whether one of the posts isn't ready and is up to these.
fn has_one_up_to(among: &[u8], site: &Site, hub: &HubState, rank: u8, posts: &[u64]) -> bool
    ensures { (result ≡ true)
        ↔ ((i : ℕ) × (post : ℕ)
        × (slice_get posts.now i ≡ Some post)
        × (is_ready hub.now rank post ≡ false)
        × OnlyOf (is_among among.now) (could_pair (is_member site.now) (line_of hub.now.board post))) }
{
    for place in 0..posts.len() {
        if holds_back(among, site, hub, rank, posts[place]) {
            return true;
        }
    }
    false
}

/// Whether what the rank asks of the hub in vain could come from these alone.
fn is_up_to(among: &[u8], site: &Site, hub: &HubState, rank: u8, request: &Request) -> bool
    ensures { asks_in_vain hub.now rank request.now ≡ true
        → ((result ≡ true) ↔ IsUpTo (is_member site.now) (is_among among.now) hub.now rank request.now) }
{
    match request {
        Request::Collect { post } | Request::Finished { post } => could_only_pair(
            among, site, hub, *post,
        ),
        Request::Probe { comm, source, tag } | Request::Claim { comm, source, tag } => {
            let selection = Selection {
                rank,
                comm: *comm,
                source: *source,
                tag: *tag,
            };
            could_only_send(among, site, &selection)
        }
        Request::All { posts } => has_one_up_to(among, site, hub, rank, posts.as_slice()),
        Request::Cut { link } => has_sender(among, hub.links(), *link),
        _ => false,
    }
}

/// Whether the rank's request wouldn't be answered now, and what it asks for could come from these alone.
pub(crate) fn is_in_vain(
    among: &[u8],
    site: &Site,
    hub: &HubState,
    rank: u8,
    request: &Request,
) -> bool
    ensures { (result ≡ true) ↔ ((asks_in_vain hub.now rank request.now ≡ true)
        × IsUpTo (is_member site.now) (is_among among.now) hub.now rank request.now) }
{
    hub.asks_in_vain(rank, request) && is_up_to(among, site, hub, rank, request)
}
