//! What a client of gdb's protocol is answered.

ghost use Rattle.std.specs.Prelude.{◌≡◌, ◌++◌, ◌∷◌, IfOk, List, Ok, OnOk, codes, ℕ};
ghost use Rattle.cl_machine.specs.declared.steps.Step.{Step};
ghost use Rattle.cl_text.specs.Reading.{reading_record};
ghost use Rattle.rv_image_types.specs.declared.images.ImageParts.{ImageParts};
ghost use Rattle.rvmc_tool.specs.Below.{Serving, connected};
ghost use Rattle.rvmc_tool.specs.Below.flows;
ghost use Rattle.rvmc_protocol.specs.Packets.Frames.{packet_of};

use rvmc_tool::{Flow, Refused, Server, answers_law, heard_law, serve};
use std::alloc::{AllocError, Global};

/// A client that has left by `D` is heard no more.
pub fn who_has_left_is_heard_no_more(
    server: &mut Server,
    out: &mut Vec<u8>,
) -> Result<Flow, AllocError>
    ensures { (serving : Serving) → server.old ≡ connected serving → IfOk result (λ flow. flow ≡ flows.Ended) }
{
    heard_law();
    server.serve(b"$D#44", out)
}

/// What a client sends right behind a record is answered, also where both are read at once.
pub fn what_stands_behind_a_record_is_answered(
    alloc: Global,
    rank: Option<u64>,
    input: &mut &[u8],
    out: &mut Vec<u8>,
) -> Result<(), Refused>
    ensures { (spelled : List ℕ) (image : ImageParts) (steps : List Step)
        → reading_record spelled ≡ Ok (image, steps) → input.old.now ≡ spelled ++ codes "$D#44"
        → OnOk result (out.new.items ≡ out.old.items ++ (43 ∷ packet_of (codes "OK"))) }
{
    answers_law();
    serve(alloc, rank, input, out)
}
