//! Which commands and actions are whole-table.

ghost use Rattle.std.specs.Prelude.{◌≡◌, ◌||◌};
ghost use Rattle.std.specs.List.{list_any};
ghost use Rattle.gw_tx.specs.Footprints.{stands_for_all};
ghost use Rattle.gw_foot.specs.Gathered.{has_wildcard, spans_all};

use gw_base::{CtxRef, TermRef, Verb};
use gw_msg::{Action, Command};
use gw_refusal::{is_add, is_wildcard};

/// Whether a command stands for terminations of the null context, or for all.
fn stands_for_all(sent: CtxRef, command: &Command<'_>) -> bool
    ensures { result ≡ stands_for_all sent command.now }
{
    match command.term {
        TermRef::All | TermRef::Under(_) => matches!(sent, CtxRef::Null) || is_add(command.verb),
        TermRef::Root => matches!(command.verb, Verb::ServiceChange),
        TermRef::Choose | TermRef::Name(_) | TermRef::Other(_) => false,
    }
}

/// Whether a wildcard is among what commands name.
pub(crate) fn has_wildcard(commands: &[Command<'_>]) -> bool
    ensures { result ≡ has_wildcard commands.now }
{
    commands.iter().any(|command| is_wildcard(&command.term))
}

fn has_one_for_all(sent: CtxRef, commands: &[Command<'_>]) -> bool
    ensures { result ≡ list_any (stands_for_all sent) commands.now }
{
    commands.iter().any(|command| stands_for_all(sent, command))
}

/// Whether an action is for each context, or has a command that stands for all.
pub(crate) fn spans_all(action: &Action<'_>) -> bool
    ensures { result ≡ spans_all action.now }
{
    matches!(action.ctx, CtxRef::All) || has_one_for_all(action.ctx, action.commands.as_slice())
}
