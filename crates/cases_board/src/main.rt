//! Cases of bursts on a board: which places may be open together, what each step answers, and what it comes to.
#![tactic(auto)]

mod asking;
mod bench;
mod cases;
mod held;
mod play;
mod steps;
mod tree;
mod waves;
mod write_step;

use cases::Cases;
use cases_text::transcript;
use std::io;

fn main(rt: HostRuntime) -> io::Result<()> {
    transcript(&rt, &mut Cases::new(rt.alloc()))
}
