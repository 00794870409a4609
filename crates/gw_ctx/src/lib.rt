//! Contexts: who is in one, in joining order, and their properties.
#![tactic(auto)]

mod context;
mod fault;
mod laws;
mod links;
mod names;
mod pairs;

pub use context::Context;
pub use fault::JoinFault;
pub use laws::contexts_stay_fit;
pub use links::LinkIter;
