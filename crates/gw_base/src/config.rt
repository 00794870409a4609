//! What an operator configures.

use crate::items::Items;
use crate::media::MediaAddr;
use crate::mid::Mid;
use crate::name::TermName;

/// A gateway's configuration, as it was read. Its limits are tested where a gateway is made of it.
#[derive(Drop)]
pub struct Config {
    /// The gateway's own mId, which heads each answer.
    pub mid: Mid,
    /// The address of its media, which fills `$` in a Local.
    pub media: MediaAddr,
    /// How many contexts there may be: 1 to 65,535.
    pub contexts: u32,
    /// How many ephemeral terminations there may be: 0 to 4,096.
    pub slots: u32,
    /// How many members a context may have: 1 to 64.
    pub members: u32,
    /// How many replies are kept for repeats: 1 to 4,096.
    pub keep: u32,
    /// The provisioned terminations: at most 65,535.
    pub terms: Items<TermName>,
}
