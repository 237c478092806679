//! A rank as it is loaded.

ghost use Rattle.std.specs.Prelude.{◌≡◌, ◌≤◌, ◌*◌, ◌++◌, ◌∷◌, IfOk, OnOk, length, vec_len};
ghost use Rattle.mp_request.specs.Table.{no_requests};
ghost use Rattle.part_phase.specs.Phases.{first_phases};
ghost use Rattle.rv_image_types.specs.Image.{IsImage};
ghost use Rattle.rv_image_types.specs.Limits.{most_comms, memory_page};
ghost use Rattle.rv_memory.specs.Memory.{loaded_memory};
ghost use Rattle.cl_state.specs.Rank.{below, loaded, site_of, start_harts};

use crate::parts::{Core, Transfers};
use crate::state::RankState;
use cl_calls::{Communicators, Site};
use mp_request::Requests;
use part_phase::Phases;
use rv_hart::Hart;
use rv_image_types::{Comms, Image, ImageParts, Links, Members};
use rv_memory::RankMemory;
use std::alloc::{AllocError, Global};

fn all_ranks(alloc: Global, ranks: u8) -> Result<Members, AllocError>
    ensures { IfOk result (λ members. members ≡ below ranks) }
{
    let mut list = Vec::new(alloc);
    for rank in 0..ranks {
        list.push(rank)?;
    }
    Ok(Members::from_vec(list))
}

/// Copies of these communicators, behind the others.
fn add_comms(alloc: Global, lists: &mut Vec<Members>, comms: &[Members]) -> Result<(), AllocError>
    ensures { OnOk result (lists.new.items ≡ lists.old.items ++ comms.now) }
{
    for i in 0..comms.len() {
        let comm = comms[i].try_copy(alloc)?;
        lists.push(comm)?;
    }
    Ok(())
}

fn all_comms(alloc: Global, ranks: u8, comms: &Comms) -> Result<Communicators, AllocError>
    requires { length comms.now ≤ most_comms }
    ensures { IfOk result (λ all. all ≡ below ranks ∷ comms.now) }
{
    let mut lists = Vec::new(alloc);
    lists.push(all_ranks(alloc, ranks)?)?;
    add_comms(alloc, &mut lists, comms.as_slice())?;
    Ok(Communicators::from_vec(lists))
}

fn all_harts(alloc: Global, parts: &ImageParts, rank: u8) -> Result<Vec<Hart>, AllocError>
    requires { memory_page * parts.now.harts ≤ parts.now.memory }
    ensures harts { IfOk result (λ harts. harts.items ≡ start_harts parts.now rank parts.now.harts) }
    ensures count { IfOk result (λ harts. vec_len harts ≡ parts.now.harts) }
{
    let mut harts = Vec::new(alloc);
    for hart in 0..parts.harts {
        harts.push(Hart::start(u64::from(parts.entry), u64::from(parts.memory), hart, rank))?;
    }
    Ok(harts)
}

/// The memory of a rank as it is loaded. Its text for fetches is the image's own, which all ranks of the image share.
#[tactic(auto, using(crate::proofs::Starts::start_is))]
fn memory(alloc: Global, parts: &ImageParts) -> Result<RankMemory, AllocError>
    requires { IsImage parts.now }
    ensures { IfOk result (λ memory. memory ≡ loaded_memory parts.now.memory parts.now.text parts.now.init) }
{
    RankMemory::sharing(
        alloc,
        parts.memory as usize,
        parts.text.share()?,
        parts.init.as_slice(),
    )
}

/// What the image fixes of a rank.
fn site(alloc: Global, parts: &ImageParts, rank: u8) -> Result<Site, AllocError>
    requires { IsImage parts.now }
    ensures { IfOk result (λ site. site ≡ site_of parts.now rank) }
{
    let links = parts.links.try_copy(alloc)?;
    let comms = all_comms(alloc, parts.ranks, &parts.comms)?;
    Ok(Site {
        number: rank,
        ranks: parts.ranks,
        comms,
        links,
        version: parts.version,
    })
}

/// The memory and the harts of a rank as it is loaded.
fn first_core(alloc: Global, parts: &ImageParts, rank: u8) -> Result<Core, AllocError>
    requires { IsImage parts.now }
    ensures memory { IfOk result (λ core. core.memory
        ≡ loaded_memory parts.now.memory parts.now.text parts.now.init) }
    ensures harts { IfOk result (λ core. core.harts.items ≡ start_harts parts.now rank parts.now.harts) }
    ensures count { IfOk result (λ core. vec_len core.harts ≡ parts.now.harts) }
{
    let harts = all_harts(alloc, parts, rank)?;
    let memory = memory(alloc, parts)?;
    Ok(Core { memory, harts })
}

/// No requests, and the phases of a rank as they begin.
fn first_transfers(alloc: Global, links: &Links, rank: u8) -> Result<Transfers, AllocError>
    ensures requests { IfOk result (λ transfers. transfers.requests ≡ no_requests) }
    ensures phases { IfOk result (λ transfers. transfers.phases ≡ first_phases links.now rank) }
{
    let phases = Phases::of(alloc, links, rank)?;
    let requests = Requests::new(alloc)?;
    Ok(Transfers { requests, phases })
}

impl RankState {
    ghost use Rattle.cl_state.specs.Room.{rank_of};

    /// The rank of this number, as it is loaded.
    pub fn load(alloc: Global, image: &Image, rank: u8) -> Result<RankState, AllocError>
        ensures loaded { IfOk result (λ state. rank_of state ≡ loaded image.now rank) }
        ensures harts { IfOk result (λ state. vec_len state.harts ≡ image.now.harts) }
    {
        let parts = image.parts();
        let transfers = first_transfers(alloc, &parts.links, rank)?;
        let site = site(alloc, parts, rank)?;
        let core = first_core(alloc, parts, rank)?;
        Ok(RankState::of(alloc, site, core, transfers))
    }

    /// Decodes the words of the rank's text, each once; or by what another rank decoded, where its text is the same. The rank
    /// stays as it is. The only error is want of memory.
    pub fn decode_text(&mut self, other: Option<&RankState>) -> Result<(), AllocError>
        ensures { self.new ≡ self.old }
    {
        match other {
            Some(other) => self.memory.decode_as(&other.memory),
            None => self.memory.decode_text(),
        }
    }
}
