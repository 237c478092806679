//! Whether none but the ranks of a list could bring something.

ghost use Rattle.std.specs.Prelude.{◌≡◌, ◌↔◌, ◌||◌, not, ℕ, false, true, None, Some};
ghost use Rattle.std.specs.List.{list_all, list_any};
ghost use Rattle.mp_match.specs.Pairs.{admits as admits_of};
ghost use Rattle.mp_match.specs.Board.{line_of};
ghost use Rattle.mp_transfers.specs.Inits.{is_receiver};
ghost use Rattle.mp_hub.specs.Hub.{is_ready};
ghost use Rattle.mp_wait_laws.specs.Waits.{OnlyOf, could_pair, could_send, sends_over};
ghost use Rattle.cl_deadlock_laws.specs.Stuck.{is_among as is_among_of, is_member};

use cl_calls::Site;
use mp_hub::HubState;
use mp_match::{Post, Selection};
use rv_image_types::Link;

/// Whether the rank is one of these.
pub(crate) fn is_among(among: &[u8], rank: u8) -> bool
    ensures { result ≡ is_among_of among.now rank }
{
    among.iter().any(|other| *other == rank)
}

/// Whether a source, or any where there is None, admits the rank.
fn admits(source: Option<u8>, rank: u8) -> bool
    ensures { result ≡ admits_of source rank }
{
    match source {
        None => true,
        Some(source) => rank == source,
    }
}

/// Whether each of the members that the source admits is one of these.
fn has_senders(among: &[u8], members: &[u8], source: Option<u8>) -> bool
    ensures { result ≡ list_all (λ k. not (admits_of source k) || is_among_of among.now k) members.now }
{
    for member in members {
        if admits(source, *member) && !is_among(among, *member) {
            return false;
        }
    }
    true
}

/// Whether none but these could send what is selected: all members of its communicator that it admits are among them.
pub(crate) fn could_only_send(among: &[u8], site: &Site, selection: &Selection) -> bool
    ensures { (result ≡ true) ↔ OnlyOf (is_among_of among.now) (could_send (is_member site.now) selection.now) }
{
    has_senders(
        among,
        site.members(u64::from(selection.comm)),
        selection.source,
    )
}

/// Whether none but these could make the other side of a post.
fn could_only_make(among: &[u8], site: &Site, post: &Post) -> bool
    ensures { (result ≡ true) ↔ OnlyOf (is_among_of among.now)
        (could_pair (is_member site.now) (Some (record { post = post.now; partner = None }))) }
{
    match post {
        Post::Send(sent) => is_among(among, sent.dest),
        Post::Receive(selection) => could_only_send(among, site, selection),
        Post::Claim(selection) => could_only_send(among, site, selection),
    }
}

/// Whether none but these could make the other side of a post that isn't ready: receive a send, also one that was
/// claimed, or send what is selected. Of a post that isn't there nobody could.
pub(crate) fn could_only_pair(among: &[u8], site: &Site, hub: &HubState, post: u64) -> bool
    ensures { (rank : ℕ) → is_ready hub.now rank post ≡ false
        → ((result ≡ true)
        ↔ OnlyOf (is_among_of among.now) (could_pair (is_member site.now) (line_of hub.now.board post))) }
{
    match hub.live_post(post) {
        None => true,
        Some(live) => could_only_make(among, site, &live),
    }
}

/// Whether none but these could send over the link.
pub(crate) fn has_sender(among: &[u8], links: &[Link], link: u8) -> bool
    ensures { (result ≡ true) ↔ OnlyOf (is_among_of among.now) (sends_over links.now link) }
{
    match links.get(usize::from(link)) {
        None => true,
        Some(link) => is_among(among, link.from),
    }
}

/// Whether none but these could receive over the link.
pub(crate) fn has_receiver(among: &[u8], links: &[Link], link: u8) -> bool
    ensures { (result ≡ true) ↔ OnlyOf (is_among_of among.now) (λ k. is_receiver links.now k link) }
{
    match links.get(usize::from(link)) {
        None => true,
        Some(link) => is_among(among, link.to),
    }
}
