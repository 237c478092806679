//! Prints what partition boxes and channels over them show, of 8 and of 16 words: one thing from look to freed, phases
//! with their stamps, cuts and refusals, and what is left of each.
//!
//! `stdout` was worked out by hand from what the calls are said to answer.
#![tactic(auto)]

mod boxes;
mod channels;

use boxes::print_boxes;
use channels::print_channels;
use std::io;

fn main(rt: HostRuntime) -> io::Result<()> {
    let alloc = rt.alloc();
    print_boxes(alloc, &mut rt.stdout(), 8)?;
    print_boxes(alloc, &mut rt.stdout(), 16)?;
    print_channels(alloc, &mut rt.stdout(), 8)?;
    print_channels(alloc, &mut rt.stdout(), 16)
}
