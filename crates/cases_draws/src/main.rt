//! Cases of jobs that workers draw: what they are answered, how often each is executed, and that workers run at the
//! same time.
#![tactic(auto)]

mod cases;
mod lines;
mod requested_draw;

use lines::transcript;
use std::io;

fn main(rt: HostRuntime) -> io::Result<()> {
    transcript(&rt)
}
