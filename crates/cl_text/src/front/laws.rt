//! The laws of the deciding byte. The function does nothing; its contract is the laws.

ghost use Rattle.cl_text.specs.Front.Laws.{EndLaw};

/// So many bytes decide just where a reading of them doesn't ask for more and one of fewer does; a record's last byte
/// decides, whatever follows; and where none does, a reading asks for more.
pub fn end_law()
    ensures { EndLaw }
{}
