//! The limits of an image. Contracts have them from `specs/Limits.antt`; a limit that changes is changed in both.

/// How many ranks an image has at most, and how many members a communicator.
pub const RANKS_MAX: u8 = 8;

/// How many harts a rank has at most.
pub const HARTS_MAX: u8 = 4;

/// How many communicators an image keeps at most, numbered from 1. Communicator 0, all ranks in order, isn't kept.
pub const COMMS_MAX: u8 = 7;

/// How many communicators there are at most, by their numbers from 0.
pub const COMM_NUMBERS: u8 = COMMS_MAX + 1;

/// How many links an image has at most.
pub const LINKS_MAX: u8 = 32;

/// How many symbols an image in version 2 has at most.
pub const SYMBOLS_MAX: u16 = 1_024;

/// Bytes of a page. The memory of a rank is some whole pages, one at least for each hart.
pub const PAGE: u32 = 4_096;

/// How many bytes of memory a rank has at most.
pub const MEMORY_MAX: u32 = 1_048_576;
