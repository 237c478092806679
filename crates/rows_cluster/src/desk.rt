//! Makes calls of a hub behind its lock, as ranks on threads of their own do, and prints the journal: each call is
//! entered with its own rank and hart. What the hub held then can't be seen behind the lock, so no clause says it.
//! `stdout` was written by hand: a stamp is the greater of the caller's clock and the stamp before, plus 1.
use cl_journal::{Entered, Entries, Hub};
use cl_rank::{Desk, LockedDesk};
use mp_types::Request;
use rv_image::{ImageFault, read_image};
use std::alloc::Global;
use std::io;
use std::sync::{Mutex, Wait};

/// An image of 3 ranks of 4 harts with 16,384 bytes each, whose text is one `nop`.
const IMAGE: [u8; 32] = [
    0x52, 0x56, 0x4d, 0x43, 0x01, 0x00, 0x03, 0x04, 0x00, 0x40, 0x00, 0x00, 0x00, 0x00, 0x00, 0x00,
    0x04, 0x00, 0x00, 0x00, 0x00, 0x00, 0x00, 0x00, 0x00, 0x00, 0x00, 0x00, 0x13, 0x00, 0x00, 0x00,
];

/// The calls: rank, hart, and the rank's clock.
const CALLS: [(u8, u8, u64); 7] = [
    (0, 3, 0),
    (2, 1, 1),
    (1, 2, 0),
    (1, 0, 3),
    (2, 3, 9),
    (0, 3, 1),
    (2, 3, 11),
];

/// The hub of that image.
fn hub(alloc: Global) -> Result<Hub, ImageFault> {
    let image = read_image(alloc, &IMAGE)?;
    Ok(Hub::start(alloc, &image)?)
}

/// Makes each of the calls behind the lock; a call that is refused isn't entered.
fn make_calls<R: Wait>(rt: &R, hub: &Mutex<Hub>) {
    for (rank, hart, clock) in CALLS {
        let request = Request::Finished { post: 1 };
        let _ = LockedDesk { hub }.call(rt, rank, hart, clock, request);
    }
}

/// Prints the journal.
fn print_journal(rt: &HostRuntime, mut entries: Entries<'_>) -> io::Result<()> {
    for _ in 0..entries.len() {
        let Some(Entered { clock, stamp, like }) = entries.next() else {
            break;
        };
        let (rank, hart) = (like.rank, like.hart);
        println!(rt; "rank {rank} hart {hart} clock {clock} stamp {stamp}")?;
    }
    Ok(())
}

/// Makes the calls, and prints the journal. `host` is where lines are told.
pub(crate) fn print_desk<R: Wait>(rt: &R, host: &HostRuntime) -> io::Result<()> {
    let Ok(hub) = hub(host.alloc()) else {
        return println!(host; "no hub");
    };
    let hub = Mutex::new(hub);
    make_calls(rt, &hub);
    print_journal(host, hub.lock(rt).entries())
}
