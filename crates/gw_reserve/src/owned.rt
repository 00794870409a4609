//! What a request owns.

use gw_base::{CtxNum, Short};

/// What a request owns (own to this profile), an entry for each of its actions and for each of its commands, so that
/// nobody has to look for its `$` again. Past a list's end nothing is owned. Most transactions have an action or two
/// and few commands, so that the lists take no memory.
#[derive(Drop)]
pub struct Owned {
    /// For each action, in order: the context number that it owns, if it has `$` and a number was left.
    pub contexts: Short<Option<CtxNum>, 2>,
    /// For each command of all the actions, in order: the slot below 4,096 that it owns, if it adds `$` or `RTP/$` and
    /// a slot was left.
    pub slots: Short<Option<u16>, 4>,
}
