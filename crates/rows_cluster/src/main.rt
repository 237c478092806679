//! Prints what no clause can say: with which rank and hart a call behind the hub's lock is entered (`desk`), and that
//! ranks run on threads at the same time, and keep to a pace (`meeting`). A program near the top has its price, so both
//! stand in one.
#![tactic(auto)]

mod desk;
mod meeting;
mod watching;

use crate::desk::print_desk;
use crate::meeting::print_meetings;
use std::io;

fn main(rt: HostRuntime) -> io::Result<()> {
    print_desk(&rt, &rt)?;
    print_meetings(&rt, &rt)
}
