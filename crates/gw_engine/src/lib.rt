//! The gateway: its state, and what it answers.
#![tactic(auto)]

mod answers;
mod audit;
mod carry;
mod classify;
mod counts;
mod datagram;
mod drawn;
mod fault;
mod gateway;
mod items;
mod laws;
mod octets;
mod reading;
mod reserve;
mod run;
mod usage;

pub use counts::BurstCounts;
pub use datagram::Datagram;
pub use fault::{ConfigFault, LimitName};
pub use gateway::Gateway;
pub use gw_base::Config;
pub use gw_draw::{Gate, OpenGate, Workers};
pub use laws::{answers_are_read_as_messages, bursts_go_in_phases};
pub use octets::Octets;
pub use run::BurstAnswers;
pub use usage::Usage;
