//! Records as bytes.
ghost use Rattle.std.specs.Prelude.{List, Err};
ghost use Rattle.rv_image_types.specs.declared.images.ImageParts.{ImageParts};
ghost use Rattle.cl_machine.specs.declared.steps.Step.{Step};
ghost use Rattle.cl_text.specs.ReadingAnswers.{AnswersBy};

use cl_machine::Step;
use cl_text::{RecordFault, read_record};
use rv_image_types::Image;
use std::alloc::Global;

/// A byte behind the end is told, with where the end is, unless memory is refused: the record of no step of one `nop`,
/// and a byte more.
#[tactic(auto, unfolding(cl_text::specs::Reading::reading_record, cl_text::specs::Reading::body_at, cl_text::specs::Reading::steps_at, cl_text::specs::Reading::repeated, rv_image::specs::Reading::reading, rv_image::specs::Reading::header_at, rv_image::specs::Reading::body_at, rv_image::specs::Reading::repeated))]
pub fn a_byte_behind_the_end_is_told(alloc: Global) -> Result<(Image, Vec<Step>), RecordFault>
    ensures { AnswersBy {B = ImageParts × List Step} (λ x. (x.0, x.1.items)) result (Err (RecordFault.Long 52)) }
{
    let record =
        b"RVMR\x02\0\0\0\x20\0\0\0RVMC\x01\0\x01\x01\0\x10\0\0\0\0\0\0\x04\0\0\0\0\0\0\0\0\0\0\0\x13\0\0\0\0\0\0\0\0\0\0\0\0";
    read_record(alloc, record)
}
