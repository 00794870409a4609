//! Commands that are refused by the tables as they are, or by what is wrong with their descriptors.

ghost use Rattle.std.specs.Prelude.{◌≡◌};
ghost use Rattle.gw_refusal.specs.Requested.{is_some_list};
ghost use Rattle.gw_refusal.specs.Targets.{targets};
ghost use Rattle.gw_cmd.specs.Refusals.{has_ended, missing, refusal_by_tables};

use crate::prepared::Prepared;
use gw_base::{Code, TermRef};
use gw_refusal::At;
use gw_table::Draft;

/// Whether the action's context has ended.
fn has_ended(draft: &Draft, at: At) -> bool
    ensures { result ≡ has_ended at draft.now.maps }
{
    match at {
        At::Live(number) | At::Each(number) => draft.ctx(number).is_none(),
        At::Null | At::Unmade(_) => false,
    }
}

/// What is missing: the termination of a name, one that a wildcard matches, or a slot.
fn missing(
    draft: &Draft,
    at: At,
    slot: Option<u16>,
    prepared: &Prepared<'_, '_>,
    any: bool,
) -> Option<Code>
    requires { any ≡ is_some_list (targets at prepared.now.command.now draft.now.maps) }
    ensures { result ≡ missing at slot prepared.now.command.now draft.now.maps prepared.now.command.now.term }
{
    match prepared.command.term {
        TermRef::Name(name) if draft.term(&name).is_none() => { Some(Code::UnknownTermination) }
        TermRef::All | TermRef::Under(_) if !any => Some(Code::NoWildcardMatch),
        TermRef::Choose if slot.is_none() => Some(Code::NoTerminationLeft),
        _ => None,
    }
}

/// Why a command is refused whose form is allowed: the first of `UnknownContext` (the action's context has ended), what
/// is missing, and what is wrong with its descriptors. The caller says whether the command is for any termination.
#[tactic(auto, unfolding(crate::specs::Refusals::refusal_by_tables))]
pub(crate) fn refusal_by_tables(
    draft: &Draft,
    at: At,
    slot: Option<u16>,
    prepared: &Prepared<'_, '_>,
    any: bool,
) -> Option<Code>
    requires { any ≡ is_some_list (targets at prepared.now.command.now draft.now.maps) }
    ensures { result ≡ refusal_by_tables at slot prepared.now.command.now draft.now.maps }
{
    if has_ended(draft, at) {
        return Some(Code::UnknownContext);
    }
    if let Some(code) = missing(draft, at, slot, prepared, any) {
        return Some(code);
    }
    prepared.wrong
}
