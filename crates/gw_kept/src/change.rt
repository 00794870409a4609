//! What a burst changes in the kept replies.

ghost use Rattle.std.specs.Prelude.{◌≡◌};
ghost use Rattle.gw_kept.specs.Changes.{changes_of, kept_after, AreNew};

use crate::entry::Entry;
use crate::kept::Kept;
use crate::point::Removal;

/// A change that is due at its place in order of arrival.
#[derive(Drop)]
pub enum Turn<'h> {
    /// The reply to the next new request is kept.
    Keep,
    /// What an acknowledgement names is removed.
    Forget(Removal<'h>),
}

impl Kept {
    /// Makes the changes of a burst, one after another; each turn that keeps a pair takes the next of these entries.
    /// The caller knows that at its turn each has a key that no kept pair has. It takes no memory, and costs what
    /// `push` and `forget` do, but one pass over the pairs at the end for all that it removes.
    pub fn change(&mut self, turns: &[Turn<'_>], entries: Vec<Entry>)
        requires { AreNew self.old (changes_of turns.now entries.items) }
        ensures { self.new ≡ kept_after self.old (changes_of turns.now entries.items) }
    {
        self.row.change(turns, entries);
        self.row.settle();
    }
}
