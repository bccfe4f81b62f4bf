// A book with its pages at work, and the answer sets of some rules.
#![tactic(auto)]

mod booking;
mod seeking;

use crate::booking::day;
use crate::seeking::search;
use std::io;

fn main(rt: HostRuntime) -> io::Result<()> {
    day(&rt)?;
    search(&rt)
}
