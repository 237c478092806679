//! Laws of chains of frames. The functions do nothing; their contracts are the laws.

ghost use Rattle.rvmc_tool_laws.specs.Frames.{FramesRiseLaw, HeldFramesLaw};

/// The ends of frames rise in a chain, so it ends, and no frame stands in it twice; there are 64 at most. And each frame
/// above the innermost is what the memory holds where the one before it points to, or what a way out of the caller leads to.
pub fn frames_law()
    ensures rise { FramesRiseLaw }
    ensures held { HeldFramesLaw }
{}
