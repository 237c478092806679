//! Laws of the definitions, with no code: each function's contract is the law.

ghost use Rattle.rv_image.specs.Order.{FirstFaultLaw};

/// The tests of all parts of an image are one table in their order. What bytes are read as is the fault of the first
/// row that fails, and an image where none does.
pub fn first_fault_law()
    ensures { FirstFaultLaw }
{}
