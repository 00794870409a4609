//! Cases of the engine and of what stands above it, a subject behind another: gateways, configurations, replays,
//! networks and runs of the program.
#![tactic(auto)]

mod answers;
mod bursts;
mod cases;
mod clocks;
mod configurations;
mod gates;
mod gateways;
mod line;
mod lines;
mod networks;
mod pieces;
mod programs;
mod repeats;
mod replays;
mod streams;
mod variants;
mod workers;

use lines::transcript;
use std::io;

fn main(rt: HostRuntime) -> io::Result<()> {
    transcript(&rt)
}
