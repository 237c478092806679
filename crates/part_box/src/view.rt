//! What the two keys of a box know. No value of these types is made: contracts and proofs alone speak of them.
//! A clause reads an array as a list of any length.

/// A thing that was made ready.
pub struct Made {
    /// The stamp under which it was made ready.
    pub stamp: u64,
    /// Its data words.
    pub words: [u64; 0],
}

/// A thing that was taken.
pub struct Got {
    /// The stamp under which it was made ready.
    pub stamp: u64,
    /// Its data words.
    pub words: [u64; 0],
    /// The stamp under which it was taken.
    pub taken: u64,
}

/// A gate word that a key loaded.
pub struct Loaded {
    /// The gate word.
    pub word: u64,
    /// How many things the key had made, or got, by then.
    pub count: u64,
}

/// What a sender knows.
pub struct Sending {
    /// The things that it made ready, in order.
    pub made: [Made; 0],
    /// The first data words of its next thing.
    pub filled: [u64; 0],
    /// Whether the last thing that it made is known to be taken; at first there is none, and this is true.
    pub is_open: bool,
    /// The last stamp that it stored or saw, 0 at first.
    pub front: u64,
    /// The gate words that it loaded, in order.
    pub loads: [Loaded; 0],
}

/// What a receiver knows.
pub struct Receiving {
    /// The things that it took, in order.
    pub got: [Got; 0],
    /// The stamp of the thing in the box, once that was seen.
    pub seen: Option<u64>,
    /// The data words of that thing that are copied.
    pub copied: [u64; 0],
    /// The gate words that it loaded, in order.
    pub loads: [Loaded; 0],
}

/// What one seat of the words knows: a sender's seat, a receiver's, both in one, or a spent one that is neither.
pub struct View {
    /// Whether it is a sender's: then what it knows as a sender holds of the box.
    pub sends: bool,
    /// Whether it is a receiver's: then what it knows as a receiver holds of the box.
    pub receives: bool,
    /// Known to the seat where it sends.
    pub sending: Sending,
    /// Known to the seat where it receives.
    pub receiving: Receiving,
}
