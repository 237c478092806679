//! The gate rule of ranks alone.

ghost use Rattle.cl_box_laws.specs.Gates.{GatesKeptLaw, QuestionsLaw};

/// Whatever it meets outside, each rank of an image touches boxes on its own side only. It makes the next thing in a
/// box only once it saw the one before taken, and sees that only once it made something there.
pub fn gates_kept_law()
    ensures { GatesKeptLaw }
{}

/// Each question to a box keeps the same rule, also one whose answer is a miss.
pub fn questions_law()
    ensures { QuestionsLaw }
{}
