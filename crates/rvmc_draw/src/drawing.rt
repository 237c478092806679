//! A picture of a record, as data.

/// A step, by the place before it, and the hart that took it.
#[derive(Clone, Copy, Drop)]
pub struct Spot {
    pub place: u64,
    /// From 0 to 7.
    pub rank: u8,
    /// From 0 to 3.
    pub hart: u8,
}

/// What a step did, as far as a picture shows it.
#[derive(Clone, Copy, PartialEq, Eq, Drop)]
pub enum Shape {
    /// A standard send was posted (MPI 4.1, chapter 3.4).
    Send,
    /// A synchronous send was posted.
    SyncSend,
    /// A receive was posted that got nothing yet.
    Posted,
    /// A message was received, or several.
    Got,
    /// A message was claimed (3.8.2).
    Claimed,
    /// A probe saw a message (3.8.1).
    Seen,
    /// A synchronous send is complete.
    Done,
    /// A partition was made ready (4.2).
    Ready,
    /// A partition was taken.
    Taken,
    /// A partition was found to be taken.
    Freed,
    /// Bytes were put out.
    Put,
    /// The hart ended.
    Exit,
    /// The hart trapped.
    Trap,
    /// A call was refused.
    Refused,
    /// The first look in vain of several.
    Look,
    /// Another call that ended a wait.
    Other,
}

/// A step that is shown.
#[derive(Drop)]
pub struct Mark {
    pub spot: Spot,
    pub shape: Shape,
    /// The step posted a receive or a claim of any source: a ring is drawn.
    pub wild: bool,
    /// What stands beside it, if anything. Any bytes.
    pub note: Vec<u8>,
    /// What is told of it. Any bytes.
    pub tip: Vec<u8>,
    /// How many steps of its kind that follow at once it stands for, itself among them.
    pub times: u64,
    /// How many steps its hart took since the last that is shown, or since it last looked in vain.
    pub quiet: u64,
}

/// What an arrow carries.
#[derive(Clone, Copy, Drop)]
pub enum Carried {
    /// A message from its send to the step that got it.
    Message { tag: u16, count: u16 },
    /// A message from its send to the step that claimed it.
    Claim { tag: u16, count: u16 },
    /// A message that a wildcard receive could have taken.
    Could { tag: u16, count: u16 },
    /// A partition, from the step that made it ready to the one that took it, in this phase of its link.
    Partition { link: u8, part: u8, phase: u64 },
}

/// A line from one step to another.
#[derive(Clone, Copy, Drop)]
pub struct Arrow {
    pub from: Spot,
    /// None where nobody got it.
    pub to: Option<Spot>,
    /// The rank that it goes to.
    pub dest: u8,
    pub carried: Carried,
}

/// Looks in vain of a hart that follow one another.
#[derive(Clone, Copy, Drop)]
pub struct Bar {
    /// The first of them.
    pub first: Spot,
    /// The place of the step that went on, or the picture's end.
    pub last: u64,
    /// Whether there is such a step.
    pub went_on: bool,
    pub looks: u64,
}

/// A hart that waits at the end.
#[derive(Drop)]
pub struct Row {
    pub rank: u8,
    pub hart: u8,
    /// The ranks that it waits for.
    pub awaited: Vec<u8>,
    /// Whether it is of a rank in a deadlock.
    pub stuck: bool,
}

/// A picture of a record.
#[derive(Drop)]
pub struct Drawing {
    /// How many there are, from 1 to 8.
    pub ranks: u8,
    /// How many each rank has, from 1 to 4.
    pub harts: u8,
    /// The steps that are shown: from this place to that.
    pub from: u64,
    pub to: u64,
    /// In the order of their places, one a place.
    pub marks: Vec<Mark>,
    pub arrows: Vec<Arrow>,
    pub bars: Vec<Bar>,
    pub rows: Vec<Row>,
    /// What `why` tells of the end, its verdict last. Any bytes.
    pub told: Vec<u8>,
}
