//! The terminations that a command is for.

ghost use Rattle.std.specs.Prelude.{◌≡◌, ◌&&◌, IfOk};
ghost use Rattle.std.specs.List.{list_any};
ghost use Rattle.gw_table.specs.Maps.{names, ctx, members_of};
ghost use Rattle.gw_refusal.specs.Requested.{matches, is_some_list};
ghost use Rattle.gw_refusal.specs.Targets.{is_free, those_in, source, matched, targets};

use crate::at::At;
use crate::requested::{is_add, matches};
use gw_base::{CtxNum, NoMemory, TermRef};
use gw_msg::Command;
use gw_table::{Draft, Target};
use std::alloc::Global;

/// The members of a context in joining order.
fn members(alloc: Global, draft: &Draft, number: CtxNum) -> Result<Vec<Target>, NoMemory>
    ensures { IfOk result (λ list. list.items ≡ members_of (ctx draft.now.maps number)) }
{
    match draft.ctx(number) {
        Some(context) => Target::each(alloc, context.members().as_slice()),
        None => Ok(Vec::new(alloc)),
    }
}

/// The terminations in this place: a context, or none for the null context.
fn those_in(alloc: Global, draft: &Draft, place: Option<CtxNum>) -> Result<Vec<Target>, NoMemory>
    ensures { IfOk result (λ list. list.items ≡ those_in place draft.now.maps) }
{
    match place {
        Some(number) => members(alloc, draft, number),
        None => draft.free_targets(alloc),
    }
}

/// Where a wildcard's terminations are: those of an Add in the null context, those of another command in the action's.
fn source(at: At, command: &Command<'_>) -> Option<CtxNum>
    ensures { result ≡ source at command.now }
{
    if is_add(command.verb) {
        None
    } else {
        at.place()
    }
}

/// Those that a wildcard matches. The work is one pass of the members, or that of listing the terminations of the null
/// context.
#[tactic(auto, unfolding(crate::specs::Targets::matched))]
fn matched(
    alloc: Global,
    draft: &Draft,
    at: At,
    command: &Command<'_>,
) -> Result<Vec<Target>, NoMemory>
    ensures { IfOk result (λ list. list.items ≡ matched at command.now draft.now.maps) }
{
    let mut named = those_in(alloc, draft, source(at, command))?;
    if let TermRef::All = command.term {
        return Ok(named);
    }
    named.retain(|target| matches(&command.term, target.name()));
    Ok(named)
}

/// The terminations that the command is for, in order, as the tables are now.
pub fn targets(
    alloc: Global,
    draft: &Draft,
    at: At,
    command: &Command<'_>,
) -> Result<Vec<Target>, NoMemory>
    ensures { IfOk result (λ list. list.items ≡ targets at command.now draft.now.maps) }
{
    match command.term {
        TermRef::Name(name) => {
            let mut named = Vec::new(alloc);
            named.push(Target::named(name))?;
            Ok(named)
        }
        TermRef::All | TermRef::Under(_) => matched(alloc, draft, at, command),
        _ => Ok(Vec::new(alloc)),
    }
}

/// Whether the wildcard matches a member of the context.
fn has_member(draft: &Draft, number: CtxNum, term: &TermRef) -> bool
    ensures { result ≡ list_any (matches term.now) (members_of (ctx draft.now.maps number)) }
{
    match draft.ctx(number) {
        Some(context) => context
            .members()
            .as_slice()
            .iter()
            .any(|name| matches(term, name)),
        None => false,
    }
}

/// Whether the wildcard matches a termination of the null context.
fn has_free(draft: &Draft, term: TermRef) -> bool
    ensures { result ≡ list_any (λ name. is_free draft.now.maps name && matches term name) (names draft.now.maps) }
{
    match term {
        TermRef::All => draft.has_free_under(&[]),
        TermRef::Under(prefix) => draft.has_free_under(prefix.as_bytes()),
        _ => false,
    }
}

/// Whether a wildcard matches a termination. The work ends at the first.
#[tactic(auto, unfolding(crate::specs::Targets::matched))]
fn has_matched(draft: &Draft, at: At, command: &Command<'_>) -> bool
    ensures { result ≡ is_some_list (matched at command.now draft.now.maps) }
{
    match source(at, command) {
        Some(number) => has_member(draft, number, &command.term),
        None => has_free(draft, command.term),
    }
}

/// Whether the command is for a termination, as the tables are now: whether [`targets`] has a name. It takes no memory.
/// A wildcard costs a look-up of the context and one pass of its members, which are not looked up, or, in the null
/// context and of an Add, one pass of the names, up to the first that matches.
pub fn has_targets(draft: &Draft, at: At, command: &Command<'_>) -> bool
    ensures { result ≡ is_some_list (targets at command.now draft.now.maps) }
{
    match command.term {
        TermRef::Name(_) => true,
        TermRef::All | TermRef::Under(_) => has_matched(draft, at, command),
        _ => false,
    }
}
