//! The text of ranks that need buffers.

ghost use Rattle.std.specs.Prelude.{◌≡◌, ◌<◌, ◌++◌, IfOk, OnOk, slice_get, string_bytes, vec_len};
ghost use Rattle.std.specs.List.{flat_map};
ghost use Rattle.rv_image_types.specs.declared.images.ImageParts.{ImageParts};
ghost use Rattle.cl_calls.specs.Calls.{call_named};
ghost use Rattle.cl_calls.specs.Site.{member};
ghost use Rattle.cl_state.specs.Room.{rank_of};
ghost use Rattle.rvmc_inspect.specs.Texts.{hart_head};
ghost use Rattle.rvmc_inspect.specs.Waits.{waits as waits_of};
ghost use Rattle.rvmc_inspect.specs.Why.{live_ranks, rank_names};
ghost use Rattle.rvmc_explore.specs.Needs.{awaited_sends, behind_text, held_rank_text, held_text, lacks_receive_at, need_line, need_text};
ghost use Rattle.rvmc_explore.specs.Needs.{receiver_at, sends_to, rest_in, rest_line, rest_of, send_wait, sends_ahead};

use cl_calls::{Call, Site, call_name, called_number};
use cl_replay::ClusterState;
use cl_rests::{handles_ahead, post_of_send, says_buffered};
use cl_state::RankState;
use mp_hub::HubState;
use mp_request::{OpenRequest, Transfer};
use rv_hart::{Hart, Mode};
use rv_image_types::{Image, Symbol};
use rvmc_inspect::{Wait, put_harts, put_live_ranks, put_waits, waits};
use rvmc_places::{is_in_library, put_own_place};
use std::alloc::{AllocError, Global};

/// A send behind which a hart rests.
#[derive(Clone, Copy, Drop)]
struct Rest {
    /// The hart as it was when it made the call.
    hart: Hart,
    /// The rank that is to receive.
    to: u8,
}

/// The rank at a position of a communicator.
fn member(site: &Site, comm: u64, position: u64) -> u8
    ensures { result ≡ member site.now comm position }
{
    let members = site.members(comm);
    if position >= members.len() as u64 {
        return 0;
    }
    members[position as usize]
}

/// The send behind which this hart rests, if it runs and is held up.
fn rest_in(site: &Site, hart: &Hart) -> Option<Rest>
    ensures { result ≡ rest_in site.now hart.now hart.now.mode (call_named hart.now) }
{
    match (hart.mode(), Call::of(hart)) {
        (Mode::Running, Call::Send(sending)) => {
            let mut before = *hart;
            before.set_pc(hart.pc().saturating_sub(4));
            Some(Rest {
                hart: before,
                to: member(site, sending.comm, sending.dest),
            })
        }
        _ => None,
    }
}

/// The send behind which the rank's first hart rests, if the rank is held up.
fn rest_of(own: &RankState) -> Option<Rest>
    ensures { result ≡ rest_of (rank_of own.now) }
{
    match own.harts.get(0) {
        None => None,
        Some(hart) => rest_in(&own.site, hart),
    }
}

/// The rank to which a request sends, if it does.
fn sends_to(request: &Option<OpenRequest>) -> Option<u8>
    ensures { result ≡ sends_to request.now }
{
    match request {
        Some(
            OpenRequest {
                transfer: Transfer::Send { dest, .. },
                ..
            },
        ) => Some(*dest),
        _ => None,
    }
}

/// Whether no receive has the message of this post: a matched probe may.
fn lacks_receive_at(hub: &HubState, post: u64) -> bool
    ensures { result ≡ lacks_receive_at hub.now post }
{
    hub.free_post(post).is_some() || hub.is_only_claimed(post)
}

/// The rank that is to receive what a request sends, if it is a standard send whose message nobody received.
fn receiver_at(hub: &HubState, request: &Option<OpenRequest>) -> Option<u8>
    ensures { result ≡ receiver_at hub.now request.now }
{
    match post_of_send(request) {
        Some(post) if lacks_receive_at(hub, post) => sends_to(request),
        _ => None,
    }
}

/// Adds the receive that completes the request of this handle, if it is of a send whose message nobody received.
fn add_wait(
    found: &mut Vec<Wait>,
    hub: &HubState,
    own: &RankState,
    handle: u64,
) -> Result<(), AllocError>
    ensures { OnOk result (found.new.items ≡ found.old.items ++ send_wait hub.now (rank_of own.now) handle) }
{
    let request = own.requests.get(handle);
    match receiver_at(hub, &request) {
        None => Ok(()),
        Some(to) => {
            found.push(Wait::Receiver { rank: to })?;
            Ok(())
        }
    }
}

/// The same of these handles, in their order.
fn add_waits(
    found: &mut Vec<Wait>,
    hub: &HubState,
    own: &RankState,
    handles: &[u64],
) -> Result<(), AllocError>
    ensures { OnOk result
        (found.new.items ≡ found.old.items ++ flat_map (send_wait hub.now (rank_of own.now)) handles.now) }
{
    for handle in handles {
        add_wait(found, hub, own, *handle)?;
    }
    Ok(())
}

/// The receives that the call waits for which the rank's first hart is about to make, in the order of its handles.
fn sends_ahead(alloc: Global, hub: &HubState, own: &RankState) -> Result<Vec<Wait>, AllocError>
    ensures { IfOk result (λ found. found.items ≡ sends_ahead hub.now (rank_of own.now)) }
{
    let mut found = Vec::new(alloc);
    let handles = handles_ahead(own);
    add_waits(&mut found, hub, own, handles.as_slice())?;
    Ok(found)
}

/// The same, but of a hart that says that its sends are buffered none.
fn awaited_sends(alloc: Global, hub: &HubState, own: &RankState) -> Result<Vec<Wait>, AllocError>
    ensures { IfOk result
        (λ found. found.items ≡ awaited_sends hub.now (rank_of own.now) (slice_get (rank_of own.now).harts 0)) }
{
    match own.harts.get(0) {
        Some(hart) if !says_buffered(hart) => sends_ahead(alloc, hub, own),
        _ => Ok(Vec::new(alloc)),
    }
}

/// `rank R hart H `, before how the hart stands.
pub(crate) fn hart_head(alloc: Global, rank: usize, number: usize) -> Result<String, AllocError>
    ensures { IfOk result (λ text. string_bytes text ≡ hart_head rank number) }
{
    format!(in alloc; "rank {rank} hart {number} ")
}

/// Adds the line of a rank that rests: where its hart makes the call, and what it waits for.
#[tactic(auto, unfolding(rvmc_inspect::specs::Texts::waiting_text))]
fn put_rest(
    alloc: Global,
    text: &mut Vec<u8>,
    symbols: &[Symbol],
    rank: usize,
    own: &RankState,
    hart: &Hart,
    found: &[Wait],
) -> Result<(), AllocError>
    ensures { OnOk result
        (text.new.items ≡ text.old.items ++ rest_line symbols.now rank (rank_of own.now) hart.now found.now) }
{
    let head = hart_head(alloc, rank, 0)?;
    text.extend_from_slice(head.as_bytes())?;
    text.extend_from_slice(b"waits at ")?;
    let name = call_name(called_number(hart));
    put_own_place(text, symbols, &own.memory, hart, name)?;
    text.extend_from_slice(b" for ")?;
    let inside = is_in_library(symbols, &own.memory, hart);
    put_waits(alloc, text, inside, found)?;
    text.push(b'\n')?;
    Ok(())
}

/// Adds the line of a rank that rests behind a send, or the lines of the harts of another one.
fn put_sent(
    alloc: Global,
    text: &mut Vec<u8>,
    symbols: &[Symbol],
    state: &ClusterState,
    number: usize,
    own: &RankState,
) -> Result<(), AllocError>
    ensures { (image : ImageParts) → image.symbols ≡ symbols.now → OnOk result
        (text.new.items
        ≡ text.old.items ++ behind_text image state.now number own.now (rest_of (rank_of own.now))) }
{
    match rest_of(own) {
        Some(rest) => {
            let found = [Wait::Receiver { rank: rest.to }];
            put_rest(alloc, text, symbols, number, own, &rest.hart, &found)
        }
        None => put_harts(
            alloc,
            text,
            symbols,
            &state.hub,
            state.boxes.as_slice(),
            number,
            own,
            false,
        ),
    }
}

/// What the rank's first hart waits for in the call that it is about to make: messages, and behind them these receives.
fn all_waits(
    alloc: Global,
    state: &ClusterState,
    own: &RankState,
    sends: &[Wait],
) -> Result<Vec<Wait>, AllocError>
    requires { 0 < vec_len own.now.harts }
    ensures { IfOk result (λ found.
        found.items ≡ waits_of state.now.hub state.now.boxes.items (rank_of own.now) 0 ++ sends.now) }
{
    let mut found = waits(alloc, &state.hub, state.boxes.as_slice(), own, 0)?;
    found.extend_from_slice(sends)?;
    Ok(found)
}

/// Adds how a rank is held up whose first hart waits for these receives in the call that it is about to make.
fn put_held_rank(
    alloc: Global,
    text: &mut Vec<u8>,
    image: &Image,
    state: &ClusterState,
    number: usize,
    own: &RankState,
    sends: &[Wait],
) -> Result<(), AllocError>
    ensures { OnOk result
        (text.new.items
        ≡ text.old.items
        ++ held_rank_text image.now state.now number own.now (slice_get (rank_of own.now).harts 0) sends.now) }
{
    let symbols = image.parts().symbols.as_slice();
    match (own.harts.get(0), sends.split_first()) {
        (Some(hart), Some(_)) => {
            let found = all_waits(alloc, state, own, sends)?;
            put_rest(alloc, text, symbols, number, own, hart, found.as_slice())
        }
        _ => put_sent(alloc, text, symbols, state, number, own),
    }
}

/// Adds how a rank is held up, if it is there.
pub(crate) fn put_held(
    alloc: Global,
    text: &mut Vec<u8>,
    image: &Image,
    state: &ClusterState,
    rank: u8,
) -> Result<(), AllocError>
    ensures { OnOk result (text.new.items ≡ text.old.items ++ held_text image.now state.now rank) }
{
    let number = usize::from(rank);
    let Some(own) = state.ranks.get(number) else {
        return Ok(());
    };
    let sends = awaited_sends(alloc, &state.hub, own)?;
    put_held_rank(alloc, text, image, state, number, own, sends.as_slice())
}

/// The same of these ranks, in order.
fn put_all_held(
    alloc: Global,
    text: &mut Vec<u8>,
    image: &Image,
    state: &ClusterState,
    ranks: &[u8],
) -> Result<(), AllocError>
    ensures { OnOk result
        (text.new.items ≡ text.old.items ++ flat_map (held_text image.now state.now) ranks.now) }
{
    for rank in ranks {
        put_held(alloc, text, image, state, *rank)?;
    }
    Ok(())
}

/// Adds that these ranks need buffers.
fn put_need_line(
    alloc: Global,
    text: &mut Vec<u8>,
    state: &ClusterState,
    ranks: &[u8],
) -> Result<(), AllocError>
    ensures { OnOk result (text.new.items ≡ text.old.items ++ need_line state.now ranks.now) }
{
    text.extend_from_slice(b"needs buffering: ")?;
    put_live_ranks(alloc, text, state, ranks)?;
    text.push(b'\n')?;
    Ok(())
}

/// Adds how ranks that need buffers are held up: of one that rests, where it sent or waits for its sends and which ranks are to
/// receive; of another one, how its harts stand and what each waits for. Behind them, that they need buffers. The only error is want of
/// memory.
pub(crate) fn put_need(
    alloc: Global,
    text: &mut Vec<u8>,
    image: &Image,
    state: &ClusterState,
    ranks: &[u8],
) -> Result<(), AllocError>
    ensures { OnOk result (text.new.items ≡ text.old.items ++ need_text image.now state.now ranks.now) }
{
    put_all_held(alloc, text, image, state, ranks)?;
    put_need_line(alloc, text, state, ranks)
}
