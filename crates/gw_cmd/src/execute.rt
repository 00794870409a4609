//! The execution of one command.

ghost use Rattle.std.specs.Prelude.{◌≡◌, ◌≢◌, true, ℕ, List, None, IfOk, OnOk};
ghost use Rattle.gw_base.specs.declared.command_words.Verb.TheVariants.{ServiceChange};
ghost use Rattle.gw_base.specs.declared.key.Key.TheVariants.{Term};
ghost use Rattle.gw_base.specs.declared.term_ref.TermRef.TheVariants.{Name};
ghost use Rattle.gw_base.specs.NameLists.{is_in};
ghost use Rattle.gw_table.specs.Maps.{names};
ghost use Rattle.gw_table.specs.Parts.{holds, Holds, HoldsPlace};
ghost use Rattle.gw_table.specs.WellFormed.{IsSound};
ghost use Rattle.gw_refusal.specs.Requested.{is_add};
ghost use Rattle.gw_refusal.specs.Forms.{refusal_by_form};
ghost use Rattle.gw_refusal.specs.Places.{place_at};
ghost use Rattle.gw_refusal.specs.Targets.{targets};
ghost use Rattle.gw_cmd.specs.Commands.{on_names, on_new as made_new, on_root as root_done, executed as executed_by, allowed, command as command_done};
ghost use Rattle.gw_cmd.specs.Keys.{command_keys};
ghost use Rattle.gw_cmd.specs.Prepared.{IsSameCommand};
ghost use Rattle.gw_cmd.specs.Suits.{HoldsSlot, IsUnused, IsReady, HoldsNew};
ghost use Rattle.gw_cmd.specs.Tasks.{IsAllowed};
ghost use Rattle.gw_cmd.specs.Written.{outcome_behind};

use crate::effects::on_new;
use crate::idle::{is_idle, on_idle};
use crate::outcome::{CmdOutcome, CmdWritten};
use crate::prepared::Prepared;
use crate::refusal::Refusal;
use crate::replies::{
    has_one_reply, new_term, outcome_of, outcome_of_all, refused, writes_none, written,
};
use crate::root::{root_parts, serve_all};
use crate::tables::refusal_by_tables;
use crate::targets::{on_target, on_targets};
use crate::task::{Execution, Task};
use gw_base::{Code, Items, NoMemory, Rules, TermName, TermRef};
use gw_msg::Command;
use gw_refusal::{At, targets};
use gw_reply::{CommandReply, ReplyWriter};
use gw_table::{Draft, Target, slot_name};
use std::alloc::Global;
use std::slice;

/// Executes a command on the terminations that a wildcard matched. Where they have one reply together, no other is
/// written.
fn on_names(
    alloc: Global,
    draft: &mut Draft,
    execution: Execution,
    prepared: &mut Prepared<'_, '_>,
    named: &[Target],
    writer: ReplyWriter<CommandReply>,
) -> Result<CmdWritten, NoMemory>
    requires sound { IsSound draft.old.keys draft.old.maps }
    requires ready { IsReady draft.old.keys execution.at prepared.old.command.now draft.old.maps }
    requires many { (t : List ℕ) → prepared.old.command.now.term ≢ Name t }
    requires named { named.now ≡ targets execution.at prepared.old.command.now draft.old.maps }
    requires allowed { IsAllowed execution.at prepared.old.command.now execution.task }
    ensures maps { OnOk result (draft.new.maps ≡ (on_names prepared.old.rules.now execution.at prepared.old.command.now draft.old.maps).maps) }
    ensures answer { IfOk result (λ done. done ≡ outcome_behind writer (on_names prepared.old.rules.now execution.at prepared.old.command.now draft.old.maps).answer) }
    ensures keys { draft.new.keys ≡ draft.old.keys }
    ensures same { IsSameCommand prepared.old prepared.new }
{
    let command = prepared.command;
    if has_one_reply(command) {
        let seen = on_targets(
            alloc,
            draft,
            execution.task,
            prepared,
            named,
            ReplyWriter::TooLong,
        )?;
        return outcome_of_all(alloc, writer, execution.at, command, seen);
    }
    let seen = on_targets(alloc, draft, execution.task, prepared, named, writer)?;
    Ok(outcome_of(execution.at, seen))
}

/// Executes a command on the termination of a name.
fn on_one(
    alloc: Global,
    draft: &mut Draft,
    execution: Execution,
    prepared: &mut Prepared<'_, '_>,
    target: &Target,
    writer: ReplyWriter<CommandReply>,
) -> Result<CmdWritten, NoMemory>
    requires sound { IsSound draft.old.keys draft.old.maps }
    requires ready { IsReady draft.old.keys execution.at prepared.old.command.now draft.old.maps }
    requires named { prepared.old.command.now.term ≡ Name target.now }
    requires allowed { IsAllowed execution.at prepared.old.command.now execution.task }
    ensures maps { OnOk result (draft.new.maps ≡ (on_names prepared.old.rules.now execution.at prepared.old.command.now draft.old.maps).maps) }
    ensures answer { IfOk result (λ done. done ≡ outcome_behind writer (on_names prepared.old.rules.now execution.at prepared.old.command.now draft.old.maps).answer) }
    ensures keys { draft.new.keys ≡ draft.old.keys }
    ensures same { IsSameCommand prepared.old prepared.new }
{
    Ok(outcome_of(
        execution.at,
        on_target(alloc, draft, execution.task, prepared, target, writer)?,
    ))
}

/// Executes an Add on a termination that it makes in the slot, if one is owned.
fn on_slot(
    alloc: Global,
    draft: &mut Draft,
    execution: Execution,
    prepared: &mut Prepared<'_, '_>,
    writer: ReplyWriter<CommandReply>,
) -> Result<CmdWritten, NoMemory>
    requires sound { IsSound draft.old.keys draft.old.maps }
    requires ctx_key { HoldsPlace draft.old.keys (place_at execution.at) }
    requires slot_key { HoldsSlot draft.old.keys execution.slot }
    requires unused { IsUnused execution.slot draft.old.maps }
    requires adds { is_add prepared.old.command.now.verb ≡ true }
    requires allowed { IsAllowed execution.at prepared.old.command.now execution.task }
    ensures maps { OnOk result (draft.new.maps ≡ (made_new prepared.old.rules.now execution.at prepared.old.command.now execution.slot draft.old.maps).maps) }
    ensures answer { IfOk result (λ done. done ≡ outcome_behind writer (made_new prepared.old.rules.now execution.at prepared.old.command.now execution.slot draft.old.maps).answer) }
    ensures keys { draft.new.keys ≡ draft.old.keys }
    ensures same { IsSameCommand prepared.old prepared.new }
{
    let command = prepared.command;
    let Some(slot) = execution.slot else {
        return refused(writer, execution.at, command, Code::NoTerminationLeft);
    };
    let Task::Act(act) = execution.task else {
        unreachable!()
    };
    let name = slot_name(slot);
    let wanted = !writes_none(&writer);
    let answer = match on_new(alloc, draft, act, prepared, slot, &name, wanted) {
        Ok(parts) => Ok(parts),
        Err(Refusal::Code(code)) => Err(code),
        Err(Refusal::NoMemory) => return Err(NoMemory),
    };
    let term = new_term(&answer, name);
    Ok(outcome_of(execution.at, written(writer, command, term, answer)?))
}

/// Executes a command on the gateway itself.
fn on_root(
    alloc: Global,
    draft: &mut Draft,
    execution: Execution,
    command: &Command<'_>,
    writer: ReplyWriter<CommandReply>,
) -> Result<CmdWritten, NoMemory>
    requires term_keys { command.now.verb ≡ ServiceChange → (t : List ℕ) → is_in t (names draft.old.maps) ≡ true → holds draft.old.keys (Term t) ≡ true }
    requires allowed { IsAllowed execution.at command.now execution.task }
    ensures maps { OnOk result (draft.new.maps ≡ (root_done execution.at command.now draft.old.maps).maps) }
    ensures answer { IfOk result (λ done. done ≡ outcome_behind writer (root_done execution.at command.now draft.old.maps).answer) }
    ensures keys { draft.new.keys ≡ draft.old.keys }
{
    serve_all(alloc, draft, execution.task)?;
    let parts = root_parts(alloc, command.descriptors.as_slice())?;
    Ok(outcome_of(
        execution.at,
        written(writer, command, TermRef::Root, Ok(parts))?,
    ))
}

/// Executes a command that is not refused as a whole.
fn executed(
    alloc: Global,
    draft: &mut Draft,
    execution: Execution,
    prepared: &mut Prepared<'_, '_>,
    named: &[Target],
    writer: ReplyWriter<CommandReply>,
) -> Result<CmdWritten, NoMemory>
    requires sound { IsSound draft.old.keys draft.old.maps }
    requires ready { IsReady draft.old.keys execution.at prepared.old.command.now draft.old.maps }
    requires new { HoldsNew draft.old.keys execution.slot prepared.old.command.now }
    requires unused { IsUnused execution.slot draft.old.maps }
    requires named { named.now ≡ targets execution.at prepared.old.command.now draft.old.maps }
    requires allowed { IsAllowed execution.at prepared.old.command.now execution.task }
    ensures maps { OnOk result (draft.new.maps ≡ (executed_by prepared.old.rules.now execution.at execution.slot prepared.old.command.now draft.old.maps prepared.old.command.now.term).maps) }
    ensures answer { IfOk result (λ done. done ≡ outcome_behind writer (executed_by prepared.old.rules.now execution.at execution.slot prepared.old.command.now draft.old.maps prepared.old.command.now.term).answer) }
    ensures keys { draft.new.keys ≡ draft.old.keys }
    ensures same { IsSameCommand prepared.old prepared.new }
{
    let command = prepared.command;
    match &command.term {
        TermRef::Root => on_root(alloc, draft, execution, command, writer),
        TermRef::Choose => on_slot(alloc, draft, execution, prepared, writer),
        TermRef::Name(_) => {
            let Some(target) = named.first() else {
                unreachable!()
            };
            on_one(alloc, draft, execution, prepared, target, writer)
        }
        _ => on_names(alloc, draft, execution, prepared, named, writer),
    }
}

/// Executes a command whose form is allowed on these targets, unless the tables refuse it.
fn on_allowed(
    alloc: Global,
    draft: &mut Draft,
    execution: Execution,
    prepared: &mut Prepared<'_, '_>,
    named: &[Target],
    writer: ReplyWriter<CommandReply>,
) -> Result<CmdWritten, NoMemory>
    requires sound { IsSound draft.old.keys draft.old.maps }
    requires covered { Holds draft.old.keys (command_keys execution.at execution.slot prepared.old.command.now draft.old.maps) }
    requires unused { IsUnused execution.slot draft.old.maps }
    requires named { named.now ≡ targets execution.at prepared.old.command.now draft.old.maps }
    requires allowed { IsAllowed execution.at prepared.old.command.now execution.task }
    ensures maps { OnOk result (draft.new.maps ≡ (allowed prepared.old.rules.now execution.at execution.slot prepared.old.command.now draft.old.maps).maps) }
    ensures answer { IfOk result (λ done. done ≡ outcome_behind writer (allowed prepared.old.rules.now execution.at execution.slot prepared.old.command.now draft.old.maps).answer) }
    ensures keys { draft.new.keys ≡ draft.old.keys }
    ensures same { IsSameCommand prepared.old prepared.new }
{
    if let Some(code) = refusal_by_tables(
        draft,
        execution.at,
        execution.slot,
        prepared,
        !named.is_empty(),
    ) {
        return refused(writer, execution.at, prepared.command, code);
    }
    executed(alloc, draft, execution, prepared, named, writer)
}

/// Executes a command as [`command`] does, and writes its replies behind those before it. Once the writer is full, no
/// reply is written and nothing is audited, and the command is executed all the same. A match of a wildcard costs what
/// the same command costs by name. A command that changes nothing, and of whose targets no single reply is kept, names
/// none of them.
///
/// # Errors
///
/// Out of memory. The draft is then spent: nothing is known of it but its keys.
#[tactic(auto, unfolding(crate::specs::Commands::command))]
#[inline(always)]
pub fn command_written(
    alloc: Global,
    draft: &mut Draft,
    at: At,
    slot: Option<u16>,
    prepared: &mut Prepared<'_, '_>,
    writer: ReplyWriter<CommandReply>,
) -> Result<CmdWritten, NoMemory>
    requires sound { IsSound draft.old.keys draft.old.maps }
    requires covered { Holds draft.old.keys (command_keys at slot prepared.old.command.now draft.old.maps) }
    requires unused { IsUnused slot draft.old.maps }
    ensures maps { OnOk result (draft.new.maps ≡ (command_done prepared.old.rules.now at slot prepared.old.command.now draft.old.maps).maps) }
    ensures answer { IfOk result (λ done. done ≡ outcome_behind writer (command_done prepared.old.rules.now at slot prepared.old.command.now draft.old.maps).answer) }
    ensures keys { draft.new.keys ≡ draft.old.keys }
    ensures same { IsSameCommand prepared.old prepared.new }
{
    let command = prepared.command;
    let task = match prepared.task(at) {
        Ok(task) => task,
        Err(code) => return refused(writer, at, command, code),
    };
    let execution = Execution { at, slot, task };
    if let TermRef::Name(name) = &command.term {
        let target = Target::named(*name);
        draft.seek_term(&target);
        let named = slice::from_ref(&target);
        return on_allowed(alloc, draft, execution, prepared, named, writer);
    }
    if is_idle(draft, execution, prepared, &writer) {
        return on_idle(alloc, draft, execution, prepared, writer);
    }
    let named = targets(alloc, draft, at, command)?;
    on_allowed(alloc, draft, execution, prepared, &named, writer)
}

/// Executes one command (RFC 3525, section 7.2): its refusals in their order, and then what it does to each termination
/// that it is for. `slot` is what an Add of `$` owns. A command by name costs look-ups in the tables and the size of
/// its context, of its descriptors and of the termination's record; a wildcard one pass of the members, or, in the null
/// context and of an Add, of all names, and its matches.
///
/// The caller knows that the tables are sound, that the draft has the command's keys, and that no termination has the
/// name of the slot.
///
/// # Errors
///
/// Out of memory. The draft is then spent: nothing is known of it but its keys.
pub fn command(
    alloc: Global,
    rules: &Rules,
    draft: &mut Draft,
    at: At,
    slot: Option<u16>,
    command: &Command<'_>,
) -> Result<CmdOutcome, NoMemory>
    requires sound { IsSound draft.old.keys draft.old.maps }
    requires covered { Holds draft.old.keys (command_keys at slot command.now draft.old.maps) }
    requires unused { IsUnused slot draft.old.maps }
    ensures maps { OnOk result (draft.new.maps ≡ (command_done rules.now at slot command.now draft.old.maps).maps) }
    ensures answer { IfOk result (λ done. done ≡ (command_done rules.now at slot command.now draft.old.maps).answer) }
    ensures keys { draft.new.keys ≡ draft.old.keys }
{
    let mut prepared = Prepared::new(rules, command, false);
    let writer = ReplyWriter::All(Items::new(alloc));
    let CmdWritten {
        written,
        failed,
        made,
    } = command_written(alloc, draft, at, slot, &mut prepared, writer)?;
    let ReplyWriter::All(replies) = written else {
        unreachable!()
    };
    Ok(CmdOutcome {
        replies,
        failed,
        made,
    })
}
