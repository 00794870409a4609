//! Cases of single commands on tables: what each is answered, and what it changes; and which entries requests may
//! claim.
#![tactic(auto)]

mod bench;
mod commands;
mod footprints;
mod keys;
mod places;
mod tables;

use cases_text::transcript;
use commands::Commands;
use std::io;

fn main(rt: HostRuntime) -> io::Result<()> {
    transcript(&rt, &mut Commands::new())
}
