//! Ranks, hub and channels before the first turn.

ghost use Rattle.std.specs.Prelude.{◌≡◌, ◌≤◌, [], IfOk, length};
ghost use Rattle.std.specs.VecDeque.{deque_capacity};
ghost use Rattle.cl_record.specs.Leaving.{HaveRoom};
ghost use Rattle.cl_record.specs.Plans.{HasPlans};
ghost use Rattle.cl_threads.specs.Loading.{IsCluster};

use cl_journal::Hub;
use cl_record::{Done, Lists, Plan, Seat, Wiring, load_seats};
use part_channel::Channel;
use rv_image_types::Image;
use std::alloc::{AllocError, Global};
use std::collections::VecDeque;

/// All that a run is made from, with the room for what it leaves: nothing but the ranks' own turns asks for memory
/// behind it.
#[derive(Drop)]
pub(crate) struct Cluster<'a> {
    /// The ranks at their plans, by their numbers.
    pub seats: VecDeque<Seat<'a>>,
    pub hub: Hub,
    /// The channels by the numbers of their links.
    pub channels: Vec<Channel>,
    /// Room for the ranks as their threads hand them back.
    pub done: VecDeque<Done>,
    pub lists: Lists,
}

/// A hub that was never called, and the room for what so many ranks leave: for the ranks themselves, and in lists.
fn hub_and_room(
    alloc: Global,
    image: &Image,
    ranks: usize,
) -> Result<(Hub, VecDeque<Done>, Lists), AllocError>
    ensures links { IfOk result (λ made. made.0.links ≡ image.now.links) }
    ensures no_calls { IfOk result (λ made. made.0.entries ≡ []) }
    ensures none_done { IfOk result (λ made. made.1.items ≡ []) }
    ensures done_room { IfOk result (λ made. ranks ≤ deque_capacity made.1) }
    ensures room { IfOk result (λ made. HaveRoom ranks (length image.now.links) made.2) }
{
    let links = image.parts().links.as_slice().len();
    let done = VecDeque::with_capacity(alloc, ranks)?;
    let lists = Lists::with_room(alloc, ranks, links)?;
    // the hub last, since it has the most to let go of
    let hub = Hub::start(alloc, image)?;
    Ok((hub, done, lists))
}

impl<'a> Cluster<'a> {
    /// All ranks as they are loaded, a hub that was never called, and new channels.
    pub(crate) fn load(
        alloc: Global,
        image: &Image,
        plans: &'a [Plan],
    ) -> Result<Cluster<'a>, AllocError>
        requires { HasPlans image.now plans.now }
        ensures { IfOk result (IsCluster image.now plans.now) }
    {
        // ghost: brings into scope that each link joins two ranks; no effect at run time
        let _parts = image.parts();
        let Wiring { channels, ends } = Wiring::of(alloc, image)?;
        let seats = load_seats(alloc, image, plans, ends)?;
        let (hub, done, lists) = hub_and_room(alloc, image, plans.len())?;
        Ok(Cluster {
            seats: VecDeque::from(seats),
            hub,
            channels,
            done,
            lists,
        })
    }
}
