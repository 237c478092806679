//! At which byte it is decided what a stream's first bytes are as a record.

ghost use Rattle.std.specs.Prelude.{◌≡◌, ◌++◌, ℕ, IfOk, List, Ok, Some, length};
ghost use Rattle.cl_machine.specs.declared.steps.Step.{Step};
ghost use Rattle.cl_text.specs.Reading.{reading_record};
ghost use Rattle.rv_image_types.specs.declared.images.ImageParts.{ImageParts};

use cl_text::front::Scan;
use cl_text::front::laws::end_law;
use std::alloc::{AllocError, Global};

/// A record is decided by its last byte and by none before, the bytes of its last step's reply among them, whatever
/// follows.
pub fn a_record_ends_with_its_last_byte(
    alloc: Global,
    bytes: &[u8],
) -> Result<Option<usize>, AllocError>
    ensures { (spelled more : List ℕ) (read : ImageParts × List Step) → bytes.now ≡ spelled ++ more
        → reading_record spelled ≡ Ok read → IfOk result (λ end. end ≡ Some (length spelled)) }
{
    end_law();
    let mut scan = Scan::new();
    scan.look(alloc, bytes)
}
