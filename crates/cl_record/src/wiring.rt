//! The channels of all links, and each rank's sides of them.

ghost use Rattle.std.specs.Prelude.{◌≡◌, ◌<◌, ◌∷◌, ◌++◌, List, [], IfOk, length};
ghost use Rattle.rv_image_types.specs.Image.{IsLink};
ghost use Rattle.rv_image_types.specs.Limits.{most_links};
ghost use Rattle.cl_record.specs.Wiring.{IsWired};

use part_channel::{Channel, RecvSide, SendSide};
use part_phase::box_words;
use rv_image_types::{Image, ImageVersion, Link};
use std::alloc::{AllocError, Global};

/// One rank's sides, each with the number of its link.
#[derive(Drop)]
pub struct Ends {
    pub sends: Vec<(u8, SendSide)>,
    pub recvs: Vec<(u8, RecvSide)>,
}

impl Ends {
    /// No sides.
    fn none(alloc: Global) -> Ends
        ensures { (result.sends.items ≡ []) × (result.recvs.items ≡ []) }
    {
        Ends {
            sends: Vec::new(alloc),
            recvs: Vec::new(alloc),
        }
    }
}

/// The channels, by the numbers of their links, and the ends that each rank has of them, by its number.
#[derive(Drop)]
pub struct Wiring {
    pub channels: Vec<Channel>,
    pub ends: Vec<Ends>,
}

impl Wiring {
    /// So many ranks, and no link.
    fn new(alloc: Global, ranks: u8, version: ImageVersion) -> Result<Wiring, AllocError>
        ensures { IfOk result (IsWired version ranks []) }
    {
        let channels = Vec::new(alloc);
        let mut ends = Vec::new(alloc);
        for _rank in 0..ranks {
            ends.push(Ends::none(alloc))?;
        }
        Ok(Wiring { channels, ends })
    }

    /// One link more: a channel, and a side of it for each of the two ranks.
    fn add(&mut self, alloc: Global, version: ImageVersion, link: Link) -> Result<(), AllocError>
        requires few { length self.old.channels.items < most_links }
        requires link { IsLink (length self.old.ends.items) link }
        ensures { IfOk result (λ _. (links : List Link)
            → IsWired version (length self.old.ends.items) links self.old
            → IsWired version (length self.old.ends.items) (links ++ link ∷ []) self.new) }
    {
        let number = self.channels.len() as u8;
        let (channel, send, recv) = Channel::new(alloc, box_words(version))?;
        self.channels.push(channel)?;
        self.ends[link.from as usize].sends.push((number, send))?;
        self.ends[link.to as usize].recvs.push((number, recv))?;
        Ok(())
    }

    /// All links of the image.
    pub fn of(alloc: Global, image: &Image) -> Result<Wiring, AllocError>
        ensures { IfOk result (IsWired image.now.version image.now.ranks image.now.links) }
    {
        let parts = image.parts();
        let mut wiring = Wiring::new(alloc, parts.ranks, parts.version)?;
        let links = parts.links.as_slice();
        for number in 0..links.len() {
            wiring.add(alloc, parts.version, links[number])?;
        }
        Ok(wiring)
    }
}
