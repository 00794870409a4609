//! What an operator hands to the gateway: configurations as text, bursts of datagrams to replay, and controllers over
//! UDP.
#![tactic(auto)]

mod answering;
mod answers;
mod burst_reading;
mod controllers;
mod counted;
mod counts;
mod exchange;
mod header;
mod inbox;
mod losses;
mod reading;
mod replay_fault;
mod replay_laws;
mod replaying;
mod reporter;
mod serve_fault;
mod serve_options;
mod server;
mod serving;
mod totals;
mod writing;

pub use answering::answer;
pub use controllers::{Controller, NoAddress};
pub use counts::Counts;
pub use exchange::Exchange;
pub use gw_base::Config;
pub use gw_config::{ConfigTextFault, read_config};
pub use replay_fault::ReplayFault;
pub use replay_laws::{bursts_are_one, first_faults_are_one};
pub use replaying::replay;
pub use serve_fault::ServeFault;
pub use serve_options::ServeOptions;
pub use serving::{serve, serve_over};
pub use totals::Totals;
