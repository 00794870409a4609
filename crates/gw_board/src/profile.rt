//! How requests are executed and answered.

use gw_base::{Mid, Rules};

/// The rules by which commands are executed, and the mId that replies are sent from.
#[derive(Clone, Copy)]
pub struct Profile {
    /// The rules of commands.
    pub rules: Rules,
    /// The gateway's own mId.
    pub mid: Mid,
}
