//! Laws of turns that may change places, with no code: each function's contract is the law.

ghost use Rattle.cl_first_laws.specs.Laws.{ExchangeLaw};

/// A send or a receive may go before that of another rank, where the two make no race.
pub fn exchange_law()
    ensures { ExchangeLaw }
{}
