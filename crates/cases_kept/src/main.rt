//! Cases of the kept replies: which pairs are kept, in which order they leave, and what the items of a burst are to
//! them.
#![tactic(auto)]

mod bursts;
mod cases;
mod lists;

use cases::Cases;
use cases_text::transcript;
use std::io;

fn main(rt: HostRuntime) -> io::Result<()> {
    transcript(&rt, &mut Cases::new())
}
