//! Commands for all that match which change nothing, and of whose targets no single reply is kept.

ghost use Rattle.std.specs.Prelude.{◌≡◌, ◌&&◌, true, false, OnOk, IfOk};
ghost use Rattle.gw_reply.specs.declared.writer.ReplyWriter.TheVariants.{TooLong};
ghost use Rattle.gw_table.specs.Parts.{Holds};
ghost use Rattle.gw_table.specs.WellFormed.{IsSound};
ghost use Rattle.gw_refusal.specs.Requested.{is_some_list, is_wildcard};
ghost use Rattle.gw_cmd.specs.Commands.{allowed};
ghost use Rattle.gw_cmd.specs.Idle.{is_full_at, leaves_all, seen_idle, IsIdle};
ghost use Rattle.gw_cmd.specs.Keys.{command_keys};
ghost use Rattle.gw_cmd.specs.Tasks.{task_place, task_verb, IsAllowed};
ghost use Rattle.gw_cmd.specs.Written.{outcome_behind};

use crate::members::is_full;
use crate::outcome::{CmdWritten, Seen};
use crate::prepared::Prepared;
use crate::replies::{has_one_reply, outcome_of, outcome_of_all, refused, writes_none};
use crate::tables::refusal_by_tables;
use crate::task::{Act, Execution, Task};
use gw_base::{Code, NoMemory};
use gw_refusal::{has_targets, is_wildcard};
use gw_reply::{CommandReply, ReplyWriter};
use gw_table::Draft;
use std::alloc::Global;

/// Whether a command leaves each termination as it is: an AuditValue, and without descriptors a Modify and an Add into
/// a full context.
fn leaves_all(draft: &Draft, task: Task, prepared: &Prepared<'_, '_>) -> bool
    ensures { result ≡ leaves_all (task_verb task) (is_some_list prepared.now.command.now.descriptors) (is_full_at prepared.now.rules.now (task_place task) draft.now.maps) }
{
    let is_bare = prepared.command.descriptors.is_empty();
    match task {
        Task::Act(Act::Audit(_)) => true,
        Task::Act(Act::Modify(_)) => is_bare,
        Task::Act(Act::Add(number)) => is_bare && is_full(prepared.rules, draft, number),
        _ => false,
    }
}

/// Whether a command is for all that match, leaves each as it is, and has no single reply of one that is kept. Of one
/// in an action for each context that is said where the draft is of whole tables. An Add costs a look-up of the
/// context, the others nothing.
pub(crate) fn is_idle(
    draft: &Draft,
    execution: Execution,
    prepared: &Prepared<'_, '_>,
    writer: &ReplyWriter<CommandReply>,
) -> bool
    requires { IsAllowed execution.at prepared.now.command.now execution.task }
    ensures idle { result ≡ true → IsIdle draft.now.keys prepared.now.rules.now execution.at prepared.now.command.now draft.now.maps }
    ensures unkept { result ≡ true → (prepared.now.command.now.wild && is_wildcard prepared.now.command.now.term) ≡ false → writer.now ≡ TooLong }
{
    let command = prepared.command;
    is_wildcard(&command.term)
        && (command.wild || writes_none(writer))
        && (!execution.at.is_each() || draft.has_every_key())
        && leaves_all(draft, execution.task, prepared)
}

/// What comes of the targets of such a command, if there are any: each refuses an Add, and the others are done.
fn seen_idle(task: Task) -> Seen
    ensures { result ≡ seen_idle (task_verb task) }
{
    let first_error = match task {
        Task::Act(Act::Add(_)) => Some(Code::ContextFull),
        _ => None,
    };
    Seen {
        written: ReplyWriter::TooLong,
        first_error,
        any_done: first_error.is_none(),
    }
}

/// Executes such a command without its targets: whether there is one is looked up alone.
pub(crate) fn on_idle(
    alloc: Global,
    draft: &Draft,
    execution: Execution,
    prepared: &Prepared<'_, '_>,
    writer: ReplyWriter<CommandReply>,
) -> Result<CmdWritten, NoMemory>
    requires sound { IsSound draft.now.keys draft.now.maps }
    requires covered { Holds draft.now.keys (command_keys execution.at execution.slot prepared.now.command.now draft.now.maps) }
    requires allowed { IsAllowed execution.at prepared.now.command.now execution.task }
    requires idle { IsIdle draft.now.keys prepared.now.rules.now execution.at prepared.now.command.now draft.now.maps }
    requires unkept { (prepared.now.command.now.wild && is_wildcard prepared.now.command.now.term) ≡ false → writer ≡ TooLong }
    ensures maps { (allowed prepared.now.rules.now execution.at execution.slot prepared.now.command.now draft.now.maps).maps ≡ draft.now.maps }
    ensures answer { IfOk result (λ done. done ≡ outcome_behind writer (allowed prepared.now.rules.now execution.at execution.slot prepared.now.command.now draft.now.maps).answer) }
{
    let command = prepared.command;
    let any = has_targets(draft, execution.at, command);
    if let Some(code) = refusal_by_tables(draft, execution.at, execution.slot, prepared, any) {
        return refused(writer, execution.at, command, code);
    }
    let seen = seen_idle(execution.task);
    if !has_one_reply(command) {
        return Ok(outcome_of(execution.at, seen));
    }
    outcome_of_all(alloc, writer, execution.at, command, seen)
}
