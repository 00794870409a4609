//! Jobs that many workers execute, each job by the worker that draws its number from one word.
#![tactic(auto)]

mod draw;
mod gate;
mod laws;
mod map;
mod seats;
mod table;
mod workers;

pub use draw::{draw_all, draw_one};
pub use gate::{Gate, OpenGate};
pub use laws::{each_job_is_answered_once, the_word_stays_near_the_jobs};
pub use map::draw_map;
pub use table::{Seat, Table, View};
pub use workers::Workers;
