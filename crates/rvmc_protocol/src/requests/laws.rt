//! Laws of the definitions, with no code: each function's contract is the law.

ghost use Rattle.rvmc_protocol.specs.Requests.Laws.{NumberLaw, SpelledLaw};

/// A number that is written in hexadecimal digits is read as that number.
pub fn number_law()
    ensures { NumberLaw }
{}

/// What is written of a request with numbers is read as that request, with these numbers.
pub fn spelled_law()
    ensures { SpelledLaw }
{}
