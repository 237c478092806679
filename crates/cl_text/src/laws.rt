//! Laws of the record's text. The functions do nothing; their contracts are the laws.

ghost use Rattle.cl_text.specs.Order.{FirstFaultLaw};
ghost use Rattle.cl_text.specs.Laws.{OneSpellingLaw};

/// Reading answers the fault of the first test that doesn't hold, of all tests of all parts in one table.
pub fn first_fault_law()
    ensures { FirstFaultLaw }
{}

/// What is inside the limits is read again from its text, so no two records have one text; and whatever is read is
/// inside the limits, and the bytes are its text.
pub fn one_spelling_law()
    ensures { OneSpellingLaw }
{}
