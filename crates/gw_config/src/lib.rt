//! Configurations of a gateway as text.
#![tactic(auto)]

mod config;
mod fault;
mod forms;
mod item;
mod lines;
mod settings;

pub use config::read_config;
pub use fault::ConfigTextFault;
pub use forms::{behind, number_of};
