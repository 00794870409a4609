//! What remains of a termination that is subtracted.

ghost use Rattle.std.specs.Prelude.{◌≡◌, false, is_some};
ghost use Rattle.gw_term.specs.Record.{reset};
ghost use Rattle.gw_table.specs.Gone.{what_remains};

use gw_term::Termination;

/// A termination without a slot in the null context, with nothing set but its service state.
fn reset(termination: &Termination) -> Termination
    requires { is_some termination.now.slot ≡ false }
    ensures { result ≡ reset termination.now }
{
    let mut remains = Termination::provisioned();
    remains.set_service(termination.service());
    remains
}

/// What remains of a termination that leaves its context (RFC 3525, section 7.2.3): of one with a slot nothing, and
/// of another one in the null context of which nothing was set, in the same service state.
pub fn what_remains(termination: &Termination) -> Option<Termination>
    ensures { result ≡ what_remains termination.now }
{
    if termination.slot.is_some() {
        return None;
    }
    Some(reset(termination))
}
