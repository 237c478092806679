//! The posts of a record, each with its partner and the step that made it, and the arrows between their steps.

ghost use Rattle.std.specs.Prelude.{◌≡◌, ◌++◌, ◌+◌, ◌∷◌, ◌&&◌, [], OnOk, Some, length, option_to_list};
ghost use Rattle.std.specs.List.{flat_map, position_from};
ghost use Rattle.mp_match.specs.Pairs.{accepts as accepts_of, add, admits, fits as fits_of, may_pair as may_pair_of};
ghost use Rattle.mp_match.specs.Pairs.{partner_for as partner_for_of, partner_set};
ghost use Rattle.mp_match.specs.declared.posts.Post.TheVariants as post;
ghost use Rattle.rvmc_draw.specs.Board.{arrow_at, arrow_if, arrow_in, arrow_to, arrows_to, carried_by, claim_arrows, could, could_from, message};
ghost use Rattle.rvmc_draw.specs.Board.{could_of_all, first_of, is_open_to as is_open_to_of, is_sent_by as is_sent_by_of};
ghost use Rattle.rvmc_draw.specs.Board.{is_got_in, lines_with, lost, lost_from, lost_here, messages, other_first};
ghost use Rattle.rvmc_draw.specs.Board.{partner_numbered, partners_of, spot_if};
ghost use Rattle.rvmc_draw.specs.Board.{unless_taken as unless_taken_of, wildcard_in as wildcard_in_of};

use crate::deeds::Deed;
use crate::drawing::{Arrow, Carried, Spot};
use crate::views::View;
use mp_match::{Line, Post, Selection, Sent};
use std::alloc::{AllocError, Global};

/// The posts, by their numbers less 1.
#[derive(Drop)]
pub struct Board {
    /// How many ranks there are.
    pub ranks: u8,
    /// Each with the place of its partner.
    pub lines: Vec<Line>,
    /// The step that made each.
    pub spots: Vec<Spot>,
    /// The places of the sends whose messages were got.
    pub got: Vec<u64>,
}

/// What an arrow from a send is told as.
#[derive(Clone, Copy, Drop)]
pub enum Manner {
    /// A message that was got.
    Got,
    /// One that was claimed.
    Claimed,
    /// One that could have been got.
    Could,
}

/// Whether a wildcard, or this value, is asked for.
fn admits_rank(asked: Option<u8>, rank: u8) -> bool
    ensures { result ≡ admits asked rank }
{
    match asked {
        None => true,
        Some(asked) => rank == asked,
    }
}

/// Whether a wildcard, or this value, is asked for.
fn admits_tag(asked: Option<u16>, tag: u16) -> bool
    ensures { result ≡ admits asked tag }
{
    match asked {
        None => true,
        Some(asked) => tag == asked,
    }
}

/// Whether a receive accepts a message (MPI 4.1, chapter 3.2.4).
fn accepts(a: &Selection, s: &Sent) -> bool
    ensures { result ≡ accepts_of a.now s.now }
{
    s.dest == a.rank
        && s.envelope.comm == a.comm
        && admits_rank(a.source, s.envelope.source)
        && admits_tag(a.tag, s.envelope.tag)
}

/// Whether a new post may have this earlier one as its partner.
fn may_pair(new: &Post, old: &Post) -> bool
    ensures { result ≡ may_pair_of new.now old.now }
{
    match new {
        Post::Send(s) => match old {
            Post::Receive(a) => accepts(a, s),
            Post::Send(_) => false,
            Post::Claim(_) => false,
        },
        Post::Receive(a) => match old {
            Post::Send(s) => accepts(a, s),
            Post::Receive(_) => false,
            Post::Claim(_) => false,
        },
        Post::Claim(a) => match old {
            Post::Send(s) => accepts(a, s),
            Post::Receive(_) => false,
            Post::Claim(_) => false,
        },
    }
}

/// Whether it may, and that one has no partner.
fn fits(new: &Post, line: &Line) -> bool
    ensures { result ≡ fits_of new.now line.now }
{
    line.partner.is_none() && may_pair(new, &line.post)
}

/// The least place of a post without a partner that the new one may have.
fn partner_for(lines: &[Line], new: &Post) -> Option<usize>
    ensures { result ≡ partner_for_of lines.now new.now }
{
    lines.iter().position(|line| fits(new, line))
}

/// Whether it is a send of this source.
fn is_sent_by(source: u8, post: &Post) -> bool
    ensures { result ≡ is_sent_by_of source post.now }
{
    match post {
        Post::Send(s) => s.envelope.source == source,
        Post::Receive(_) => false,
        Post::Claim(_) => false,
    }
}

/// Whether it is a send of this source, without a partner, that a receive accepts.
fn is_open_to(receive: &Post, source: u8, line: &Line) -> bool
    ensures { result ≡ (fits_of receive.now line.now && is_sent_by_of source line.now.post) }
{
    fits(receive, line) && is_sent_by(source, &line.post)
}

/// The place of the first of them.
fn first_of(lines: &[Line], a: Selection, source: u8) -> Option<usize>
    ensures { result ≡ first_of lines.now a source }
{
    let receive = Post::Receive(a);
    lines
        .iter()
        .position(|line| is_open_to(&receive, source, line))
}

/// None where that is the one which is taken.
fn unless_taken(taken: Option<usize>, found: Option<usize>) -> Option<usize>
    ensures { result ≡ unless_taken_of taken found }
{
    match found {
        None => None,
        Some(place) => match taken {
            None => Some(place),
            Some(other) => { if other == place { None } else { Some(place) } }
        },
    }
}

/// What a receive or a claim of any source selects.
pub fn wildcard_in(made: Option<Post>) -> Option<Selection>
    ensures { result ≡ wildcard_in_of made }
{
    match made {
        None => None,
        Some(Post::Send(_)) => None,
        Some(Post::Receive(a)) => match a.source {
            None => Some(a),
            Some(_) => None,
        },
        Some(Post::Claim(a)) => match a.source {
            None => Some(a),
            Some(_) => None,
        },
    }
}

/// What an arrow from a send carries.
fn carried_by(manner: Manner, s: &Sent) -> Carried
    ensures { result ≡ carried_by manner s.now }
{
    let tag = s.envelope.tag;
    let count = s.envelope.count;
    match manner {
        Manner::Got => Carried::Message { tag, count },
        Manner::Claimed => Carried::Claim { tag, count },
        Manner::Could => Carried::Could { tag, count },
    }
}

/// An arrow from the step of a send.
fn arrow_in(manner: Manner, to: Option<Spot>, post: &Post, from: Spot) -> Option<Arrow>
    ensures { result ≡ arrow_in manner to post.now from }
{
    match post {
        Post::Send(s) => Some(Arrow {
            from,
            to,
            dest: s.dest,
            carried: carried_by(manner, s),
        }),
        Post::Receive(_) => None,
        Post::Claim(_) => None,
    }
}

/// Adds an arrow, if there is one.
fn put_arrow(arrows: &mut Vec<Arrow>, arrow: Option<Arrow>) -> Result<(), AllocError>
    ensures { OnOk result (arrows.new.items ≡ arrows.old.items ++ option_to_list arrow) }
{
    if let Some(arrow) = arrow {
        arrows.push(arrow)?;
    }
    Ok(())
}

/// Sets the partner of a post.
#[tactic(auto, using(crate::proofs::Pairs::set_is, crate::proofs::Pairs::past_is))]
fn pair(lines: &mut Vec<Line>, place: usize, partner: u64)
    ensures { lines.new.items ≡ partner_set lines.old.items place partner }
{
    if place < lines.len() {
        let post = lines[place].post;
        lines[place] = Line {
            post,
            partner: Some(partner),
        };
    }
}

/// The place of the partner of the post of this number.
fn partner_in(lines: &[Line], number: u64) -> Option<u64>
    ensures { result ≡ partner_numbered lines.now number }
{
    if number == 0 {
        return None;
    }
    match lines.get((number - 1) as usize) {
        None => None,
        Some(line) => line.partner,
    }
}

/// Adds the place of a partner, if there is one.
fn put_partner(got: &mut Vec<u64>, partner: Option<u64>) -> Result<(), AllocError>
    ensures { OnOk result (got.new.items ≡ got.old.items ++ option_to_list partner) }
{
    if let Some(place) = partner {
        got.push(place)?;
    }
    Ok(())
}

/// Adds the places of the partners of these posts.
fn put_partners(got: &mut Vec<u64>, lines: &[Line], numbers: &[u64]) -> Result<(), AllocError>
    ensures { OnOk result (got.new.items ≡ got.old.items ++ partners_of lines.now numbers.now) }
{
    for number in numbers {
        put_partner(got, partner_in(lines, *number))?;
    }
    Ok(())
}

/// Whether a place is among those of the sends whose messages were got.
fn is_got(got: &[u64], place: u64) -> bool
    ensures { result ≡ is_got_in got.now place }
{
    got.iter().any(|other| *other == place)
}

impl Board {
    /// No posts.
    pub fn new(alloc: Global, ranks: u8) -> Board
        ensures ranks { result.ranks ≡ ranks }
        ensures lines { result.lines.items ≡ [] }
        ensures spots { result.spots.items ≡ [] }
        ensures got { result.got.items ≡ [] }
    {
        Board {
            ranks,
            lines: Vec::new(alloc),
            spots: Vec::new(alloc),
            got: Vec::new(alloc),
        }
    }

    /// The number of the next post.
    pub fn next(&self) -> u64
        ensures { result ≡ length self.now.lines.items + 1 }
    {
        self.lines.len() as u64 + 1
    }

    /// Adds a post, and pairs it where there is a partner.
    fn add(&mut self, new: Post, spot: Spot) -> Result<(), AllocError>
        ensures lines { OnOk result (self.new.lines.items ≡ add self.old.lines.items new) }
        ensures spots { OnOk result (self.new.spots.items ≡ self.old.spots.items ++ spot ∷ []) }
        ensures ranks { self.new.ranks ≡ self.old.ranks }
        ensures got { self.new.got.items ≡ self.old.got.items }
    {
        let own = self.lines.len() as u64;
        let partner = partner_for(self.lines.as_slice(), &new);
        let told = match partner {
            None => None,
            Some(place) => {
                pair(&mut self.lines, place, own);
                Some(place as u64)
            }
        };
        self.lines.push(Line {
            post: new,
            partner: told,
        })?;
        self.spots.push(spot)?;
        Ok(())
    }

    /// The arrow from the step of the send at a place.
    fn arrow_at(&self, manner: Manner, to: Option<Spot>, place: usize) -> Option<Arrow>
        ensures { result ≡ arrow_at self.now.lines.items self.now.spots.items manner to place }
    {
        match self.lines.get(place) {
            None => None,
            Some(line) => match self.spots.get(place) {
                None => None,
                Some(from) => arrow_in(manner, to, &line.post, *from),
            },
        }
    }

    /// The arrow to a step from the step of the send that is the partner of the post of this number.
    fn arrow_to(&self, manner: Manner, to: Spot, number: u64) -> Option<Arrow>
        ensures { result ≡ arrow_to self.now.lines.items self.now.spots.items manner to number }
    {
        match partner_in(self.lines.as_slice(), number) {
            None => None,
            Some(place) => self.arrow_at(manner, Some(to), place as usize),
        }
    }

    /// The line from the first send of a source that a receive could have taken.
    fn could_arrow(&self, a: Selection, to: Spot, source: u8) -> Option<Arrow>
        ensures { result
            ≡ arrow_if self.now.lines.items self.now.spots.items Manner.Could (Some to)
            (other_first self.now.lines.items a source) }
    {
        let lines = self.lines.as_slice();
        let taken = partner_for(lines, &Post::Receive(a));
        match unless_taken(taken, first_of(lines, a, source)) {
            None => None,
            Some(place) => self.arrow_at(Manner::Could, Some(to), place),
        }
    }

    /// Adds the line from the first send of a source that a receive could have taken.
    #[tactic(auto, unfolding(crate::specs::Board::could_from))]
    fn put_could_from(
        &self,
        arrows: &mut Vec<Arrow>,
        a: Selection,
        to: Spot,
        source: u8,
    ) -> Result<(), AllocError>
        ensures { OnOk result
            (arrows.new.items
            ≡ arrows.old.items ++ could_from self.now.lines.items self.now.spots.items to a source) }
    {
        put_arrow(arrows, self.could_arrow(a, to, source))
    }

    /// Adds those of all sources.
    fn put_could_all(
        &self,
        arrows: &mut Vec<Arrow>,
        a: Selection,
        to: Spot,
    ) -> Result<(), AllocError>
        ensures { OnOk result
            (arrows.new.items
            ≡ arrows.old.items ++ could_of_all self.now.ranks self.now.lines.items self.now.spots.items to a) }
    {
        for source in 0..self.ranks {
            self.put_could_from(arrows, a, to, source)?;
        }
        Ok(())
    }

    /// Adds the lines of what a receive or a claim of any source could have taken.
    fn put_could(
        &self,
        arrows: &mut Vec<Arrow>,
        wildcard: Option<Selection>,
        to: Spot,
    ) -> Result<(), AllocError>
        ensures { OnOk result
            (arrows.new.items
            ≡ arrows.old.items ++ could self.now.ranks self.now.lines.items self.now.spots.items to wildcard) }
    {
        match wildcard {
            None => Ok(()),
            Some(a) => self.put_could_all(arrows, a, to),
        }
    }

    /// Adds the arrow of a message that a step got.
    #[tactic(auto, unfolding(crate::specs::Board::message))]
    fn put_message(&self, arrows: &mut Vec<Arrow>, to: Spot, number: u64) -> Result<(), AllocError>
        ensures { OnOk result
            (arrows.new.items ≡ arrows.old.items ++ message self.now.lines.items self.now.spots.items to number) }
    {
        put_arrow(arrows, self.arrow_to(Manner::Got, to, number))
    }

    /// Adds the arrows of what a step got.
    fn put_messages(
        &self,
        arrows: &mut Vec<Arrow>,
        to: Spot,
        numbers: &[u64],
    ) -> Result<(), AllocError>
        ensures { OnOk result
            (arrows.new.items ≡ arrows.old.items ++ messages self.now.lines.items self.now.spots.items to numbers.now) }
    {
        for number in numbers {
            self.put_message(arrows, to, *number)?;
        }
        Ok(())
    }

    /// Adds the arrow of what a step claimed.
    fn put_claim(
        &self,
        arrows: &mut Vec<Arrow>,
        made: Option<Post>,
        to: Spot,
    ) -> Result<(), AllocError>
        ensures { OnOk result
            (arrows.new.items ≡ arrows.old.items ++ claim_arrows self.now.lines.items self.now.spots.items to made) }
    {
        match made {
            Some(Post::Claim(_)) => {
                let last = self.lines.len() as u64;
                put_arrow(arrows, self.arrow_to(Manner::Claimed, to, last))
            }
            Some(Post::Send(_)) => Ok(()),
            Some(Post::Receive(_)) => Ok(()),
            None => Ok(()),
        }
    }

    /// Adds the arrows of what a step claimed, and of what it got.
    fn put_taken(&self, arrows: &mut Vec<Arrow>, deed: &Deed) -> Result<(), AllocError>
        ensures { OnOk result
            (arrows.new.items
            ≡ arrows.old.items
            ++ (claim_arrows self.now.lines.items self.now.spots.items deed.now.spot deed.now.made
            ++ messages self.now.lines.items self.now.spots.items deed.now.spot deed.now.got.items)) }
    {
        self.put_claim(arrows, deed.made, deed.spot)?;
        self.put_messages(arrows, deed.spot, deed.got.as_slice())
    }

    /// Adds the post of a step, if it made one.
    fn add_if(&mut self, made: Option<Post>, spot: Spot) -> Result<(), AllocError>
        ensures lines { OnOk result (self.new.lines.items ≡ lines_with self.old.lines.items made) }
        ensures spots { OnOk result (self.new.spots.items ≡ self.old.spots.items ++ spot_if made spot) }
        ensures ranks { self.new.ranks ≡ self.old.ranks }
        ensures got { self.new.got.items ≡ self.old.got.items }
    {
        match made {
            None => Ok(()),
            Some(new) => self.add(new, spot),
        }
    }

    /// Notes which sends' messages a step got.
    fn note_got(&mut self, numbers: &[u64]) -> Result<(), AllocError>
        ensures lines { self.new.lines.items ≡ self.old.lines.items }
        ensures spots { self.new.spots.items ≡ self.old.spots.items }
        ensures ranks { self.new.ranks ≡ self.old.ranks }
        ensures got { OnOk result
            (self.new.got.items ≡ self.old.got.items ++ partners_of self.old.lines.items numbers.now) }
    {
        put_partners(&mut self.got, self.lines.as_slice(), numbers)
    }

    /// The arrow of the message of the send at a place, if that is shown and nobody got it.
    fn lost_at(&self, view: View, place: usize) -> Option<Arrow>
        ensures { option_to_list result
            ≡ lost_here view self.now.lines.items self.now.spots.items self.now.got.items place }
    {
        match self.spots.get(place) {
            None => None,
            Some(spot) => {
                if view.has(*spot) && !is_got(self.got.as_slice(), place as u64) {
                    self.arrow_at(Manner::Got, None, place)
                } else {
                    None
                }
            }
        }
    }

    /// Adds the arrow of the message of the send at a place, if that is shown and nobody got it.
    #[tactic(auto, unfolding(crate::specs::Board::lost_from))]
    fn put_lost_at(
        &self,
        arrows: &mut Vec<Arrow>,
        view: View,
        place: usize,
    ) -> Result<(), AllocError>
        ensures { OnOk result
            (arrows.new.items
            ≡ arrows.old.items
            ++ lost_from view self.now.lines.items self.now.spots.items self.now.got.items place) }
    {
        put_arrow(arrows, self.lost_at(view, place))
    }

    /// Adds the arrows of messages that are shown and that nobody got. The only error is want of memory.
    pub fn put_lost(&self, arrows: &mut Vec<Arrow>, view: View) -> Result<(), AllocError>
        ensures { OnOk result
            (arrows.new.items
            ≡ arrows.old.items ++ lost view self.now.lines.items self.now.spots.items self.now.got.items) }
    {
        for place in 0..self.lines.len() {
            self.put_lost_at(arrows, view, place)?;
        }
        Ok(())
    }

    /// Adds a step: its post, and the arrows to it. The only error is want of memory.
    pub fn take(&mut self, arrows: &mut Vec<Arrow>, deed: &Deed) -> Result<(), AllocError>
        ensures arrows { OnOk result
            (arrows.new.items
            ≡ arrows.old.items ++ arrows_to self.old.ranks self.old.lines.items self.old.spots.items deed.now) }
        ensures lines { OnOk result (self.new.lines.items ≡ lines_with self.old.lines.items deed.now.made) }
        ensures spots { OnOk result
            (self.new.spots.items ≡ self.old.spots.items ++ spot_if deed.now.made deed.now.spot) }
        ensures ranks { self.new.ranks ≡ self.old.ranks }
        ensures got { OnOk result
            (self.new.got.items
            ≡ self.old.got.items
            ++ partners_of (lines_with self.old.lines.items deed.now.made) deed.now.got.items) }
    {
        self.put_could(arrows, wildcard_in(deed.made), deed.spot)?;
        self.add_if(deed.made, deed.spot)?;
        self.put_taken(arrows, deed)?;
        self.note_got(deed.got.as_slice())
    }
}
