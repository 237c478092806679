//! The law of the page's data. The function does nothing; its contract is the law.

ghost use Rattle.rvmc_page.specs.Plain.{PlainLaw};

/// No byte of any part of the data is markup, a quote, or another than a letter, a digit, one of a few signs, or the end of
/// a line; whatever a guest put out, its memory holds and its symbols are called, and whatever its sources are called and
/// have in them.
pub fn plain_law()
    ensures { PlainLaw }
{}
