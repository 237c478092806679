//! Why the table refuses.

ghost use Rattle.std.specs.Prelude.{◌≡◌};
ghost use Rattle.mp_request.specs.Refusals.{code_of};

use mp_types::Code;

/// Why the table refused. It is as it was before the call.
#[derive(Clone, Copy, Drop)]
pub enum Refusal {
    /// The handle isn't open, or its request isn't of a kind that the call takes. Code 6.
    BadRequest,
    /// All 255 handles are open. Code 8.
    Full,
    /// The request is active. Code 12.
    Active,
}

impl Refusal {
    /// The code that the guest is told.
    pub fn code(self) -> Code
        ensures { result ≡ code_of self }
    {
        match self {
            Refusal::BadRequest => Code::BadRequest,
            Refusal::Full => Code::Full,
            Refusal::Active => Code::Active,
        }
    }
}
