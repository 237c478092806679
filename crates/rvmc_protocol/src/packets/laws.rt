//! Laws of the definitions, with no code: each function's contract is the law.

ghost use Rattle.rvmc_protocol.specs.Packets.Laws.{KeptLaw, ReadLaw, WrittenLaw};

/// What a reader tells byte by byte is what the stream holds by the grammar of packets: all of it, and nothing else.
pub fn read_law()
    ensures { ReadLaw }
{}

/// What is written is read again, whatever the payload is.
pub fn written_law()
    ensures { WrittenLaw }
{}

/// A reader keeps no more bytes than the text of a packet may have.
pub fn kept_law()
    ensures { KeptLaw }
{}
