//! Runs two ranks on threads of their own and prints what they leave. Each waits at its first turn until the other has
//! come to its own: that they run at the same time no clause says, and a driver that runs one rank after the other, or
//! gives them turns on one thread, doesn't get past it. Then two ranks and three loop under a pace, and the turns are
//! counted that were further ahead than its lead. `stdout` was written by hand.
ghost use Rattle.std.specs.Prelude.{◌<◌};

use crate::watching::Watched;
use cl_record::{Plan, Record, RunFault};
use cl_threads::{Gate, NoGate, Pace, Point, run_threads};
use rv_image::read_image;
use rv_image_types::Image;
use std::alloc::{AllocError, Global};
use std::io;
use std::sync::Wait;
use std::sync::atomic::{AtomicU64, Ordering};
use std::thread::{Threads, yield_now};

/// An image of 2 ranks with 65,536 bytes each, whose harts put out `hi` and a newline and end with 0, in 10 turns.
const IMAGE: [u8; 68] = [
    0x52, 0x56, 0x4d, 0x43, 0x01, 0x00, 0x02, 0x01, 0x00, 0x00, 0x01, 0x00, 0x00, 0x00, 0x00, 0x00,
    0x28, 0x00, 0x00, 0x00, 0x00, 0x00, 0x00, 0x00, 0x00, 0x00, 0x00, 0x00, 0xb7, 0x72, 0x0a, 0x00,
    0x93, 0x82, 0x82, 0x96, 0x23, 0x3c, 0x51, 0xfe, 0x13, 0x05, 0x81, 0xff, 0x93, 0x05, 0x30, 0x00,
    0x93, 0x08, 0x10, 0x00, 0x73, 0x00, 0x00, 0x00, 0x13, 0x05, 0x00, 0x00, 0x93, 0x08, 0x00, 0x00,
    0x73, 0x00, 0x00, 0x00,
];

/// An image of 2 ranks of 4096 bytes each, whose harts jump to where they are, for ever.
const LOOP: [u8; 32] = [
    0x52, 0x56, 0x4d, 0x43, 0x01, 0x00, 0x02, 0x01, 0x00, 0x10, 0x00, 0x00, 0x00, 0x00, 0x00, 0x00,
    0x04, 0x00, 0x00, 0x00, 0x00, 0x00, 0x00, 0x00, 0x00, 0x00, 0x00, 0x00, 0x6f, 0x00, 0x00, 0x00,
];

/// The same of 3 ranks.
const LOOP_OF_THREE: [u8; 32] = [
    0x52, 0x56, 0x4d, 0x43, 0x01, 0x00, 0x03, 0x01, 0x00, 0x10, 0x00, 0x00, 0x00, 0x00, 0x00, 0x00,
    0x04, 0x00, 0x00, 0x00, 0x00, 0x00, 0x00, 0x00, 0x00, 0x00, 0x00, 0x00, 0x6f, 0x00, 0x00, 0x00,
];

/// How often a rank looks for the other.
const TRIES: u32 = 10_000_000;

/// Holds each of two ranks at its first turn until the other has come there too.
#[derive(Drop)]
struct Meet {
    /// How often each rank passed its points.
    begun: [AtomicU64; 2],
    turns: [AtomicU64; 2],
    ended: [AtomicU64; 2],
    /// How many ranks gave up.
    alone: AtomicU64,
}

fn zeros() -> [AtomicU64; 2] {
    [AtomicU64::new(0), AtomicU64::new(0)]
}

impl Meet {
    fn new() -> Meet {
        Meet {
            begun: zeros(),
            turns: zeros(),
            ended: zeros(),
            alone: AtomicU64::new(0),
        }
    }

    /// Waits until the other rank has come to a turn.
    fn meet(&self, other: usize)
        requires { other < 2 }
    {
        for _ in 0..TRIES {
            if self.turns[other].load(Ordering::SeqCst) > 0 {
                return;
            }
            yield_now();
        }
        self.alone.fetch_add(1, Ordering::SeqCst);
    }
}

impl Gate for Meet {
    fn pass(&self, rank: u8, point: Point) {
        if rank > 1 {
            return;
        }
        let mine = usize::from(rank);
        match point {
            Point::Begin => {
                self.begun[mine].fetch_add(1, Ordering::SeqCst);
            }
            Point::Turn => {
                self.turns[mine].fetch_add(1, Ordering::SeqCst);
                self.meet(1 - mine);
            }
            Point::End => {
                self.ended[mine].fetch_add(1, Ordering::SeqCst);
            }
        }
    }
}

/// A plan of hart 0 for each of so many ranks.
fn plans(alloc: Global, ranks: u8, budget: u64) -> Result<Vec<Plan>, AllocError> {
    let mut plans = Vec::new(alloc);
    for _rank in 0..ranks {
        let order = vec![in alloc; 0]?;
        plans.push(Plan { order, budget })?;
    }
    Ok(plans)
}

/// A run of an image, by a plan of so many turns.
fn run_of<R: Threads + Wait + Sync, G: Gate>(
    rt: &R,
    alloc: Global,
    bytes: &[u8],
    budget: u64,
    gate: &G,
) -> Result<Record, RunFault> {
    let Ok(image) = read_image(alloc, bytes) else {
        return Err(RunFault::Memory);
    };
    let Ok(plans) = plans(alloc, image.parts().ranks, budget) else {
        return Err(RunFault::Memory);
    };
    run_threads(rt, alloc, &image, plans.as_slice(), gate)
}

/// A run of the image that puts out `hi`.
fn run<R: Threads + Wait + Sync, G: Gate>(
    rt: &R,
    alloc: Global,
    budget: u64,
    gate: &G,
) -> Result<Record, RunFault> {
    run_of(rt, alloc, &IMAGE, budget, gate)
}

/// A run of ranks that loop for so many turns, under a pace of this lead: how many turns were too far ahead.
fn far<R: Threads + Wait + Sync>(
    rt: &R,
    alloc: Global,
    bytes: &[u8],
    watched: &Watched,
    budget: u64,
) -> Result<u64, RunFault> {
    run_of(rt, alloc, bytes, budget, watched)?;
    Ok(watched.far())
}

/// Prints what each rank put out, after how many turns it stopped, and why.
fn print_record(rt: &HostRuntime, name: &str, left: Result<Record, RunFault>) -> io::Result<()> {
    match left {
        Ok(record) => {
            for rank in 0..record
                .ranks
                .len()
                .min(record.traces.len())
                .min(record.stops.len())
            {
                let out = record.ranks[rank].out.as_slice();
                let turns = record.traces[rank].len();
                let stop = record.stops[rank];
                println!(rt; "{name}: rank {rank} put {out:?}, turns {turns}, {stop:?}")?;
            }
            Ok(())
        }
        Err(fault) => println!(rt; "{name}: {fault:?}"),
    }
}

/// Prints how often each rank passed its points.
fn print_points(rt: &HostRuntime, meet: &Meet) -> io::Result<()> {
    for rank in 0..2 {
        let begun = meet.begun[rank].load(Ordering::SeqCst);
        let turns = meet.turns[rank].load(Ordering::SeqCst);
        let ended = meet.ended[rank].load(Ordering::SeqCst);
        println!(rt; "rank {rank} passed begin {begun}, turn {turns}, end {ended}")?;
    }
    let alone = meet.alone.load(Ordering::SeqCst);
    println!(rt; "ranks that found nobody: {alone}")
}

/// Prints what two ranks leave that wait for each other, under no gate, and under a pace.
fn print_records<R: Threads + Wait + Sync>(rt: &R, host: &HostRuntime) -> io::Result<()> {
    let alloc = host.alloc();
    let meet = Meet::new();
    print_record(host, "meet", run(rt, alloc, 1000, &meet))?;
    print_points(host, &meet)?;
    print_record(host, "no gate", run(rt, alloc, 1000, &NoGate))?;
    print_record(host, "pace", run(rt, alloc, 3, &Pace::new(2, 1)))?;
    print_record(host, "no turns", run(rt, alloc, 0, &NoGate))
}

/// Prints how many turns of ranks that loop were too far ahead. `host` is where lines are told.
fn print_leads<R: Threads + Wait + Sync>(rt: &R, host: &HostRuntime) -> io::Result<()> {
    let alloc = host.alloc();
    println!(host;
        "lead 1, turns too far ahead: {:?}",
        far(rt, alloc, &LOOP, &Watched::new(2, 1), 1000)
    )?;
    println!(host;
        "lead 100, turns too far ahead: {:?}",
        far(rt, alloc, &LOOP, &Watched::new(2, 100), 100_000)
    )?;
    println!(host;
        "three ranks, lead 5, turns too far ahead: {:?}",
        far(rt, alloc, &LOOP_OF_THREE, &Watched::new(3, 5), 10_000)
    )
}

/// Prints what runs by threads leave.
pub(crate) fn print_meetings<R: Threads + Wait + Sync>(
    rt: &R,
    host: &HostRuntime,
) -> io::Result<()> {
    print_records(rt, host)?;
    print_leads(rt, host)
}
