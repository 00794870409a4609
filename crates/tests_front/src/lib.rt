//! Tests of what the program stands on: replays over streams that are slow or fail, and the limit of a context.
#![tactic(auto)]

#[cfg(test)]
mod members;
#[cfg(test)]
mod replay;
#[cfg(test)]
mod streams;
