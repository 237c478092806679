//! All seats before the first turn.

ghost use Rattle.std.specs.Prelude.{◌≡◌, ◌<◌, ◌≤◌, List, [], All, IfOk, OnOk, length, map, vec_len};
ghost use Rattle.rv_image_types.specs.Image.{IsLink};
ghost use Rattle.rv_image_types.specs.Limits.{most_ranks};
ghost use Rattle.part_channel.specs.Channels.{ChannelView};
ghost use Rattle.cl_state.specs.Rank.{below, loaded};
ghost use Rattle.cl_state.specs.Room.{rank_of};
ghost use Rattle.cl_record.specs.Loading.{AreLoaded, HasNext};
ghost use Rattle.cl_record.specs.Plans.{HasPlans};
ghost use Rattle.cl_record.specs.Seats.{AreAt, AreFresh};
ghost use Rattle.cl_record.specs.Wiring.{AreAllNew, AreNewEnds, sides_in};

use crate::plans::Plan;
use crate::seats::Seat;
use crate::wiring::Ends;
use cl_rank::RankState;
use rv_image_types::Image;
use std::alloc::{AllocError, Global};

/// The next rank as it is loaded, at its plan, with its ends of the links, behind those before it.
fn load_next<'a>(
    seats: &mut Vec<Seat<'a>>,
    alloc: Global,
    image: &Image,
    plans: &'a [Plan],
    own: Ends,
    decoded: &RankState,
) -> Result<(), AllocError>
    requires plans { HasPlans image.now plans.now }
    requires few { image.now.ranks ≤ most_ranks }
    requires joined { All (IsLink image.now.ranks) image.now.links }
    requires there { vec_len seats.old < image.now.ranks }
    requires own { (channels : List ChannelView)
        × AreNewEnds image.now.version image.now.links channels (vec_len seats.old) (sides_in own) }
    ensures { OnOk result (HasNext image.now plans.now own (vec_len seats.old) seats.old.items seats.new.items) }
{
    let rank = seats.len();
    let seat = Seat::load(alloc, image, rank as u8, &plans[rank], own, decoded)?;
    seats.push(seat)?;
    Ok(())
}

/// All ranks as they are loaded, one behind another.
fn load_each<'a>(
    seats: &mut Vec<Seat<'a>>,
    alloc: Global,
    image: &Image,
    plans: &'a [Plan],
    ends: Vec<Ends>,
    decoded: &RankState,
) -> Result<(), AllocError>
    requires none { seats.old.items ≡ [] }
    requires plans { HasPlans image.now plans.now }
    requires few { image.now.ranks ≤ most_ranks }
    requires joined { All (IsLink image.now.ranks) image.now.links }
    requires count { length ends.items ≡ image.now.ranks }
    requires ends { (channels : List ChannelView) × AreAllNew image.now channels ends.items }
    ensures { OnOk result (AreLoaded image.now plans.now ends.items (length ends.items) seats.new.items) }
{
    for own in ends {
        load_next(seats, alloc, image, plans, own, decoded)?;
    }
    Ok(())
}

/// All ranks as they are loaded. The first decodes the image's text, for all of them, which have the same text.
fn load_as<'a>(
    first: &mut RankState,
    alloc: Global,
    image: &Image,
    plans: &'a [Plan],
    ends: Vec<Ends>,
) -> Result<Vec<Seat<'a>>, AllocError>
    requires plans { HasPlans image.now plans.now }
    requires few { image.now.ranks ≤ most_ranks }
    requires joined { All (IsLink image.now.ranks) image.now.links }
    requires count { length ends.items ≡ image.now.ranks }
    requires ends { (channels : List ChannelView) × AreAllNew image.now channels ends.items }
    ensures { IfOk result (λ seats. AreLoaded image.now plans.now ends.items (length ends.items) seats.items) }
{
    first.decode_text(None)?;
    let mut seats: Vec<Seat<'a>> = Vec::new(alloc);
    load_each(&mut seats, alloc, image, plans, ends, first)?;
    Ok(seats)
}

/// All ranks as they are loaded, by their numbers, at their plans, with these ends of the links. The
/// image's text is decoded once for all of them.
pub fn load_seats<'a>(
    alloc: Global,
    image: &Image,
    plans: &'a [Plan],
    ends: Vec<Ends>,
) -> Result<Vec<Seat<'a>>, AllocError>
    requires plans { HasPlans image.now plans.now }
    requires few { image.now.ranks ≤ most_ranks }
    requires joined { All (IsLink image.now.ranks) image.now.links }
    requires count { length ends.items ≡ image.now.ranks }
    requires ends { (channels : List ChannelView) × AreAllNew image.now channels ends.items }
    ensures count { IfOk result (λ seats. length seats.items ≡ image.now.ranks) }
    ensures plans { IfOk result (λ seats. AreAt plans.now seats.items) }
    ensures ranks { IfOk result (λ seats. map (λ seat. rank_of seat.rank.state) seats.items
        ≡ map (loaded image.now) (below image.now.ranks)) }
    ensures fresh { IfOk result (λ seats. (channels : List ChannelView) → AreAllNew image.now channels ends.items
        → AreFresh image.now channels seats.items) }
{
    let mut first = RankState::load(alloc, image, 0)?;
    load_as(&mut first, alloc, image, plans, ends)
}
