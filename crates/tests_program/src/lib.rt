//! Tests of the program by its words, of the lines of its faults, and of serving.
#![tactic(auto)]

#[cfg(test)]
mod addresses;
#[cfg(test)]
mod faults;
#[cfg(test)]
mod networks;
#[cfg(test)]
mod places;
#[cfg(test)]
mod program;
#[cfg(test)]
mod runs;
#[cfg(test)]
mod serving;
