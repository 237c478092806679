//! Laws of the text of a record. The functions do nothing; their contracts are the laws.

ghost use Rattle.rvmc_list.specs.Laws.{NoCallLeftOutLaw};

/// Each line that is told stands in the text, alone or as one of several that are folded and counted: none is left out.
pub fn no_call_left_out_law()
    ensures { NoCallLeftOutLaw }
{}
