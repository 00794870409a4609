//! Commands that are refused by their form alone.

ghost use Rattle.std.specs.Prelude.{◌≡◌};
ghost use Rattle.gw_refusal.specs.Forms.{is_left_out, is_misplaced, refusal_by_form};

use crate::at::At;
use crate::requested::{
    audits_any, brings, is_choose, is_modify, is_move, is_other, is_other_delay, is_other_method,
    is_root, is_service_change, is_subtract, is_unsupported, is_wildcard,
};
use gw_base::Code;
use gw_msg::Command;

/// What this profile leaves out.
fn is_left_out(at: At, command: &Command<'_>) -> bool
    ensures { result ≡ is_left_out at command.now }
{
    let (verb, term) = (command.verb, &command.term);
    let descriptors = command.descriptors.as_slice();
    is_other(term)
        || (is_move(verb) && (is_wildcard(term) || is_choose(term)))
        || (is_modify(verb) && is_root(term))
        || (command.wild && is_wildcard(term) && audits_any(descriptors))
        || (is_service_change(verb)
            && (is_other_method(descriptors) || is_other_delay(descriptors)))
        || (at.is_each() && !is_wildcard(term))
}

/// What does not go with the action's context, or with the TerminationID.
fn is_misplaced(at: At, command: &Command<'_>) -> bool
    ensures { result ≡ is_misplaced at command.now }
{
    let (verb, term) = (command.verb, &command.term);
    (at.is_null() && (brings(verb) || is_subtract(verb)))
        || (at.is_each() && brings(verb))
        || (at.is_unmade() && !brings(verb))
        || (is_root(term) && (brings(verb) || is_subtract(verb)))
        || (is_choose(term) && !brings(verb))
        || (is_root(term) && !at.is_null())
}

/// Why a command is refused by its form alone: the first of `UnknownCommand` (AuditCapability, Notify),
/// `NotImplemented` and `IllegalCombination` that applies.
#[tactic(auto, unfolding(crate::specs::Forms::refusal_by_form))]
pub fn refusal_by_form(at: At, command: &Command<'_>) -> Option<Code>
    ensures { result ≡ refusal_by_form at command.now }
{
    if is_unsupported(command.verb) {
        Some(Code::UnknownCommand)
    } else if is_left_out(at, command) {
        Some(Code::NotImplemented)
    } else if is_misplaced(at, command) {
        Some(Code::IllegalCombination)
    } else {
        None
    }
}
