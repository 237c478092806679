//! How a call ended.

ghost use Rattle.std.specs.Prelude.{◌≡◌, ◌<◌, ◌↔◌, IfSome, IsNone};
ghost use Rattle.mp_types.specs.Codes.{code_number};

/// How a call ended. The numbers are what a guest finds in a0.
#[derive(Clone, Copy, PartialEq, Eq, Drop)]
pub enum Code {
    /// The call did what was asked.
    Ok = 0,
    /// A range of addresses leaves the memory, or would be written and touches the text.
    BadBuffer = 1,
    /// A number of bytes or of handles is beyond its limit.
    BadCount = 2,
    /// A tag is outside 0 to 32,767 and isn't the wildcard where one is allowed.
    BadTag = 3,
    /// A rank isn't in the communicator and isn't a wildcard or the null process where one is allowed.
    BadRank = 4,
    /// The image has no such communicator, or the caller isn't in it.
    BadComm = 5,
    /// A handle isn't open, or isn't of a kind that the call takes.
    BadRequest = 6,
    /// The message was longer than the buffer. Its first bytes were written.
    Truncated = 7,
    /// There is no room: for a message, a handle or output.
    Full = 8,
    /// A partition isn't there.
    BadPartition = 9,
    /// No link between the two ranks is left.
    NoChannel = 10,
    /// The two sides of a partitioned transfer have unequal totals: partitions times their bytes.
    Shape = 11,
    /// The request is active.
    Active = 12,
    /// There is no such call.
    BadCall = 13,
    /// The message handle isn't one that this rank may receive.
    BadMessage = 14,
    /// The partition was made ready, or taken, in this phase already.
    AlreadyReady = 15,
    /// The request isn't active.
    NotActive = 16,
}

impl Code {
    /// The number, from 0 to 16, that a guest finds in a0.
    pub fn number(self) -> u8
        ensures { result ≡ code_number self }
    {
        self as u8
    }

    /// The code of a number. None for a number above 16.
    pub fn from_number(number: u8) -> Option<Code>
        ensures found { IfSome result (λ code. code_number code ≡ number) }
        ensures none { IsNone result ↔ (16 < number) }
    {
        match number {
            0 => Some(Code::Ok),
            1 => Some(Code::BadBuffer),
            2 => Some(Code::BadCount),
            3 => Some(Code::BadTag),
            4 => Some(Code::BadRank),
            5 => Some(Code::BadComm),
            6 => Some(Code::BadRequest),
            7 => Some(Code::Truncated),
            8 => Some(Code::Full),
            9 => Some(Code::BadPartition),
            10 => Some(Code::NoChannel),
            11 => Some(Code::Shape),
            12 => Some(Code::Active),
            13 => Some(Code::BadCall),
            14 => Some(Code::BadMessage),
            15 => Some(Code::AlreadyReady),
            16 => Some(Code::NotActive),
            _ => None,
        }
    }
}
