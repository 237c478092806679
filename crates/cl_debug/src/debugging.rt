//! The debugger, and what it tells of itself.

ghost use Rattle.std.specs.Prelude.{◌≡◌, ◌≤◌, [], length, IfErr, IfNone, IfOk, IfSome, OnOk};
ghost use Rattle.cl_replay.specs.Replays.{IsRunUpTo};
ghost use Rattle.cl_replay.specs.Replaying.{IsReached};
ghost use Rattle.cl_debug.specs.Faults.{OpenFaultHolds};
ghost use Rattle.cl_debug.specs.Leads.{IsKeptAt};
ghost use Rattle.cl_debug.specs.Shown.{HasNoSymbol, IsSymbolOf};
ghost use Rattle.cl_debug.specs.Spacing.{IsSpacing};

use crate::breaks::Break;
use crate::faults::DebugFault;
use crate::spacing::spacing_for;
use crate::stepping::{advance, kept_and_first};
use cl_replay::{ClusterState, KeptCluster, Step};
use rv_image_types::Image;
use std::alloc::Global;
use std::marker::Model;

/// A record that is walked through. It stands at a place: so many of the steps are done. States are kept at all
/// multiples of the spacing, from the loaded cluster on, so that any place is reached by less than one spacing of
/// steps.
#[derive(Drop)]
pub struct Debugger {
    pub(crate) alloc: Global,
    pub(crate) image: Image,
    pub(crate) steps: Vec<Step>,
    /// The cluster at the place.
    pub(crate) state: ClusterState,
    pub(crate) place: u64,
    pub(crate) breaks: Vec<Break>,
    pub(crate) spacing: u64,
    /// The cluster at each multiple of the spacing. Pages that are alike in several of them stand once.
    pub(crate) kept: Vec<KeptCluster>,
}

impl Model for Debugger {
    ghost use Rattle.cl_debug.specs.Debugging.{Debugging};

    ghost Value = { Debugging };

    ghost view = { λ d. record { image = d.image; steps = d.steps.items; place = d.place; breaks = d.breaks.items } };

    ghost use Rattle.cl_debug.specs.Leads.{IsDebugger};

    ghost invariant = { λ d. IsDebugger d.image d.steps.items d.place d.state d.spacing d.kept.items };
}

impl Debugger {
    /// Opens a record at its start. NotARun where the steps are no run of the image, with the number of the first that
    /// isn't the machine's; else Memory.
    pub fn open(alloc: Global, image: Image, steps: Vec<Step>) -> Result<Debugger, DebugFault>
        ensures opened { IfOk result
            (λ debugger. debugger ≡ record { image = image; steps = steps.items; place = 0; breaks = [] }) }
        ensures run { OnOk result (IsRunUpTo image steps.items (length steps.items)) }
        ensures fault { IfErr result (OpenFaultHolds image steps.items) }
    {
        let spacing = spacing_for(steps.len() as u64);
        let (kept, state) = kept_and_first(alloc, &image, steps.as_slice(), spacing)?;
        Ok(Debugger {
            alloc,
            image,
            steps,
            state,
            place: 0,
            breaks: Vec::new(alloc),
            spacing,
            kept,
        })
    }

    /// The cluster at a place, from the one that was kept at an earlier place. The only error is want of memory.
    pub(crate) fn led(
        &self,
        start: &KeptCluster,
        from: u64,
        to: u64,
    ) -> Result<ClusterState, DebugFault>
        requires forwards { from ≤ to }
        requires within { to ≤ length self.now.steps }
        requires starts { IsKeptAt self.now.image self.now.steps from start.now }
        ensures reached { IfOk result (IsReached self.now.image self.now.steps to) }
        ensures fault { IfErr result (λ fault. fault ≡ DebugFault.Memory) }
    {
        let mut state = start.live(self.alloc)?;
        advance(&mut state, self.steps.as_slice(), from, to)?;
        Ok(state)
    }

    /// The place, and how many steps there are. The place is at most the end, and the steps are a run of the image.
    pub fn place(&self) -> (u64, u64)
        ensures place { result ≡ (self.now.place, length self.now.steps) }
        ensures inside { self.now.place ≤ length self.now.steps }
        ensures run { IsRunUpTo self.now.image self.now.steps (length self.now.steps) }
    {
        (self.place, self.steps.len() as u64)
    }

    /// The image whose steps they are.
    pub fn image(&self) -> &Image
        ensures { result.now ≡ self.now.image }
    {
        &self.image
    }

    /// The steps, from the first on.
    #[inline(always)]
    pub fn steps(&self) -> &[Step]
        ensures { result.now ≡ self.now.steps }
    {
        self.steps.as_slice()
    }

    /// The cluster as it is at the place.
    #[inline(always)]
    pub fn state(&self) -> &ClusterState
        ensures { IsReached self.now.image self.now.steps self.now.place result.now }
    {
        &self.state
    }

    /// How far apart the kept states are, in steps.
    pub fn spacing(&self) -> u64
        ensures { IsSpacing (length self.now.steps) result }
    {
        self.spacing
    }

    /// The address of a symbol of the image, if it has one of that name.
    pub fn symbol(&self, name: &str) -> Option<u64>
        ensures found { IfSome result (IsSymbolOf self.now.image name.now) }
        ensures none { IfNone result (HasNoSymbol self.now.image name.now) }
    {
        for symbol in self.image.parts().symbols.as_slice() {
            if symbol.name.as_slice() == name.as_bytes() {
                return Some(u64::from(symbol.address));
            }
        }
        None
    }
}
