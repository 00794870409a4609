//! Which commands own a slot.

ghost use Rattle.std.specs.Prelude.{◌≡◌};
ghost use Rattle.gw_table.specs.Unused.{owns_slot};

use gw_base::{TermRef, Verb};

/// Whether a command owns a slot, whether it is reached or not: an Add of `$` or `RTP/$`.
pub fn owns_slot(verb: Verb, term: TermRef) -> bool
    ensures { result ≡ owns_slot verb term }
{
    matches!(verb, Verb::Add) && matches!(term, TermRef::Choose)
}
