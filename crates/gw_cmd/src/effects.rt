//! What a command does to one termination.

ghost use Rattle.std.specs.Prelude.{◌≡◌, true, None, OnOk, Bool};
ghost use Rattle.gw_base.specs.declared.command_words.Rules.{Rules as TheRules};
ghost use Rattle.gw_base.specs.declared.key.Key.TheVariants.{Term};
ghost use Rattle.gw_msg.specs.declared.message.Command.{Command};
ghost use Rattle.gw_table.specs.Maps.{term, place_of};
ghost use Rattle.gw_table.specs.Parts.{holds, HoldsPlace};
ghost use Rattle.gw_table.specs.WellFormed.{IsSound};
ghost use Rattle.gw_term.specs.Record.{ephemeral};
ghost use Rattle.gw_cmd.specs.Changes.{changed};
ghost use Rattle.gw_cmd.specs.Effects.{on_record, on_name};
ghost use Rattle.gw_cmd.specs.Plans.{answered};
ghost use Rattle.gw_cmd.specs.Prepared.{IsSameCommand};
ghost use Rattle.gw_cmd.specs.Refused.{Gives};
ghost use Rattle.gw_cmd.specs.Suits.{Suits, HoldsMoved, HoldsFound};
ghost use Rattle.gw_cmd.specs.declared.task.Task.TheVariants as does;
ghost use Rattle.gw_cmd.specs.Tasks.{act_place, act_verb, task_place, task_verb, Does};

use crate::change::Change;
use crate::decide::{decided, refusal_elsewhere};
use crate::prepared::Prepared;
use crate::refusal::Refusal;
use crate::task::{Act, Task};
use gw_base::{Code, CtxNum, Items, NoMemory, Rules, Service, TermName};
use gw_reply::ReplyPart;
use gw_table::{Draft, Target};
use gw_term::Termination;
use std::alloc::Global;

/// What a change makes of the tables.
fn changed(
    alloc: Global,
    rules: &Rules,
    draft: &mut Draft,
    name: &TermName,
    change: Change,
) -> Result<(), NoMemory>
    requires { Suits rules.now draft.old.keys name.now change draft.old.maps }
    ensures ok { OnOk result (draft.new.maps ≡ changed name.now change draft.old.maps) }
    ensures keys { draft.new.keys ≡ draft.old.keys }
{
    match change {
        Change::Stays => Ok(()),
        Change::Becomes(record) => draft.set_term(*name, Some(record)),
        Change::Joins(number, record) => {
            draft.set_term(*name, Some(record))?;
            draft.join(alloc, number, *name, usize::from(rules.members))
        }
        Change::Crosses(from, number, record) => {
            draft.set_term(*name, Some(record))?;
            draft.leave(from, name)?;
            draft.join(alloc, number, *name, usize::from(rules.members))
        }
        Change::Leaves(number, remains) => {
            draft.set_term(*name, remains)?;
            draft.leave(number, name)
        }
    }
}

/// Does this to a termination.
fn act_on(
    alloc: Global,
    draft: &mut Draft,
    act: Act,
    prepared: &mut Prepared<'_, '_>,
    target: &Target,
    wanted: bool,
) -> Result<Items<ReplyPart>, Refusal>
    requires sound { IsSound draft.old.keys draft.old.maps }
    requires term_key { HoldsFound draft.old.keys target.now draft.old.maps }
    requires ctx_key { HoldsPlace draft.old.keys (act_place act) }
    requires moved_key { HoldsMoved draft.old.keys (act_verb act) (place_of (term draft.old.maps target.now)) }
    requires does { Does (does.Act act) prepared.old.command.now }
    ensures gives { Gives result draft.new.maps (answered wanted (on_name prepared.old.rules.now (act_place act) prepared.old.command.now target.now draft.old.maps)) }
    ensures keys { draft.new.keys ≡ draft.old.keys }
    ensures same { IsSameCommand prepared.old prepared.new }
{
    let name = target.name();
    let Some(old) = draft.term(name) else {
        return Err(Refusal::Code(Code::UnknownTermination));
    };
    let decided = decided(alloc, draft, act, &mut prepared.merger, old, wanted)?;
    changed(alloc, prepared.rules, draft, name, decided.change)?;
    Ok(decided.parts)
}

/// Gives a termination, if it is in this place, the service state, if there is one for it.
fn serve(
    alloc: Global,
    draft: &mut Draft,
    place: Option<CtxNum>,
    service: Option<Service>,
    target: &Target,
) -> Result<Items<ReplyPart>, Refusal>
    requires { HoldsFound draft.old.keys target.now draft.old.maps }
    ensures gives { (rules : TheRules) (c : Command) (wanted : Bool) → Does (does.Serve place service) c → Gives result draft.new.maps (answered wanted (on_name rules place c target.now draft.old.maps)) }
    ensures keys { draft.new.keys ≡ draft.old.keys }
{
    let name = target.name();
    let Some(old) = draft.term(name) else {
        return Err(Refusal::Code(Code::UnknownTermination));
    };
    if let Some(code) = refusal_elsewhere(place, old.place()) {
        return Err(Refusal::Code(code));
    }
    let given = service.unwrap_or(old.service());
    draft.set_service(name, given)?;
    Ok(Items::new(alloc))
}

/// Does the task to a termination. What its reply has is found only where it is wanted.
pub(crate) fn on_name(
    alloc: Global,
    draft: &mut Draft,
    task: Task,
    prepared: &mut Prepared<'_, '_>,
    target: &Target,
    wanted: bool,
) -> Result<Items<ReplyPart>, Refusal>
    requires sound { IsSound draft.old.keys draft.old.maps }
    requires term_key { HoldsFound draft.old.keys target.now draft.old.maps }
    requires ctx_key { HoldsPlace draft.old.keys (task_place task) }
    requires moved_key { HoldsMoved draft.old.keys (task_verb task) (place_of (term draft.old.maps target.now)) }
    requires does { Does task prepared.old.command.now }
    ensures gives { Gives result draft.new.maps (answered wanted (on_name prepared.old.rules.now (task_place task) prepared.old.command.now target.now draft.old.maps)) }
    ensures keys { draft.new.keys ≡ draft.old.keys }
    ensures same { IsSameCommand prepared.old prepared.new }
{
    match task {
        Task::Act(act) => act_on(alloc, draft, act, prepared, target, wanted),
        Task::Serve(place, service) => serve(alloc, draft, place, service, target),
    }
}

/// Does this to a termination that it makes in a slot, under the slot's name.
pub(crate) fn on_new(
    alloc: Global,
    draft: &mut Draft,
    act: Act,
    prepared: &mut Prepared<'_, '_>,
    slot: u16,
    name: &TermName,
    wanted: bool,
) -> Result<Items<ReplyPart>, Refusal>
    requires sound { IsSound draft.old.keys draft.old.maps }
    requires unused { term draft.old.maps name.now ≡ None }
    requires term_key { holds draft.old.keys (Term name.now) ≡ true }
    requires ctx_key { HoldsPlace draft.old.keys (act_place act) }
    requires does { Does (does.Act act) prepared.old.command.now }
    ensures gives { Gives result draft.new.maps (answered wanted (on_record prepared.old.rules.now (act_place act) prepared.old.command.now name.now (ephemeral slot) draft.old.maps)) }
    ensures keys { draft.new.keys ≡ draft.old.keys }
    ensures same { IsSameCommand prepared.old prepared.new }
{
    let new = Termination::ephemeral(slot);
    let decided = decided(alloc, draft, act, &mut prepared.merger, &new, wanted)?;
    changed(alloc, prepared.rules, draft, name, decided.change)?;
    Ok(decided.parts)
}
