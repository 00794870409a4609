//! What actions and commands own, an entry for each.

ghost use Rattle.std.specs.Prelude.{◌≡◌, drop};
ghost use Rattle.gw_reserve.specs.Owned.{first_owned, later_owned};

use gw_base::{CtxNum, Rules};
use gw_msg::Action;

/// An action under the gateway's rules, with what it owns.
#[derive(Drop)]
pub(crate) struct ActionTask<'k, 'a> {
    /// The gateway's rules.
    pub rules: &'k Rules,
    /// The action.
    pub sent: &'k Action<'a>,
    /// The number of the context that it may make.
    pub number: Option<CtxNum>,
    /// The slots of its commands, an entry for each, before any others.
    pub slots: &'k [Option<u16>],
}

/// The first entry, and those behind it. Past the end nothing is owned.
pub fn next_entry<T: Copy>(entries: &[Option<T>]) -> (Option<T>, &[Option<T>])
    ensures own { result.0 ≡ first_owned entries.now }
    ensures later { result.1.now ≡ later_owned entries.now }
{
    match entries {
        [own, later @ ..] => (*own, later),
        [] => (None, entries),
    }
}

/// The entries behind so many.
pub fn entries_behind<T: Copy>(entries: &[Option<T>], count: usize) -> &[Option<T>]
    ensures { result.now ≡ drop count entries.now }
{
    if count < entries.len() {
        &entries[count..]
    } else {
        &entries[entries.len()..]
    }
}
