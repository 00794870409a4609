//! What a command does to its targets, and their replies.

ghost use Rattle.std.specs.Prelude.{◌≡◌, ◌≢◌, ◌∷◌, [], ℕ, true, false, List, IfOk, OnOk, option_copied};
ghost use Rattle.gw_base.specs.declared.term_ref.TermRef.TheVariants.{Name};
ghost use Rattle.gw_base.specs.NameLists.{is_in};
ghost use Rattle.gw_table.specs.Maps.{term, place_of, members_of};
ghost use Rattle.gw_table.specs.Parts.{HoldsPlace};
ghost use Rattle.gw_table.specs.WellFormed.{IsSound};
ghost use Rattle.gw_refusal.specs.Requested.{is_move};
ghost use Rattle.gw_cmd.specs.Commands.{reply};
ghost use Rattle.gw_cmd.specs.Effects.{on_name};
ghost use Rattle.gw_cmd.specs.Prepared.{IsSameCommand};
ghost use Rattle.gw_cmd.specs.Suits.{HoldsMoved, HoldsFound, LeaveFirst};
ghost use Rattle.gw_cmd.specs.Tasks.{task_place, task_verb, targets_in, Does};
ghost use Rattle.gw_cmd.specs.Written.{seen};

use crate::effects::on_name;
use crate::outcome::Seen;
use crate::prepared::Prepared;
use crate::refusal::Refusal;
use crate::replies::{writes_none, written};
use crate::task::{Act, Task};
use gw_base::{NoMemory, TermRef};
use gw_ctx::Context;
use gw_reply::{CommandReply, ReplyWriter};
use gw_table::{Draft, Target};
use std::alloc::Global;

/// Does the task to a termination, and writes the reply. Once the writer is full, nothing is audited.
pub(crate) fn on_target(
    alloc: Global,
    draft: &mut Draft,
    task: Task,
    prepared: &mut Prepared<'_, '_>,
    target: &Target,
    writer: ReplyWriter<CommandReply>,
) -> Result<Seen, NoMemory>
    requires sound { IsSound draft.old.keys draft.old.maps }
    requires term_key { HoldsFound draft.old.keys target.now draft.old.maps }
    requires ctx_key { HoldsPlace draft.old.keys (task_place task) }
    requires moved_key { HoldsMoved draft.old.keys (task_verb task) (place_of (term draft.old.maps target.now)) }
    requires does { Does task prepared.old.command.now }
    ensures maps { OnOk result (draft.new.maps ≡ (on_name prepared.old.rules.now (task_place task) prepared.old.command.now target.now draft.old.maps).maps) }
    ensures answer { IfOk result (λ done. done ≡ seen writer (reply prepared.old.command.now (Name target.now) (on_name prepared.old.rules.now (task_place task) prepared.old.command.now target.now draft.old.maps).answer ∷ [])) }
    ensures keys { draft.new.keys ≡ draft.old.keys }
    ensures same { IsSameCommand prepared.old prepared.new }
{
    let wanted = !writes_none(&writer);
    let answer = match on_name(alloc, draft, task, prepared, target, wanted) {
        Ok(parts) => Ok(parts),
        Err(Refusal::Code(code)) => Err(code),
        Err(Refusal::NoMemory) => return Err(NoMemory),
    };
    written(
        writer,
        prepared.command,
        TermRef::Name(*target.name()),
        answer,
    )
}

/// Whether these are the members of a context, in joining order, and there is one.
fn are_all(context: Option<&Context>, named: &[Target]) -> bool
    ensures { result ≡ true → (members_of (option_copied context.entry) ≡ named.now) × (named.now ≢ []) }
{
    let Some(context) = context else {
        return false;
    };
    let members = context.members().as_slice();
    if named.is_empty() || members.len() != named.len() {
        return false;
    }
    for place in 0..members.len() {
        if !(members[place] == *named[place].name()) {
            return false;
        }
    }
    true
}

/// A Subtract of all members of its context ends that before their records change, so that whole tables log the context
/// itself and no copy of it. The Subtract does the same to its targets then.
fn end_first(draft: &mut Draft, task: Task, named: &[Target]) -> Result<(), NoMemory>
    requires sound { IsSound draft.old.keys draft.old.maps }
    requires ctx_key { HoldsPlace draft.old.keys (task_place task) }
    ensures first { OnOk result (LeaveFirst draft.old.keys task named.now draft.old.maps draft.new.maps) }
    ensures keys { draft.new.keys ≡ draft.old.keys }
{
    let Task::Act(Act::Subtract(number)) = task else {
        return Ok(());
    };
    if draft.has_every_key() && are_all(draft.ctx(number), named) {
        draft.set_ctx(number, None)?;
    }
    Ok(())
}

/// Does the task to these terminations, one after another; none stops the others.
pub(crate) fn on_targets(
    alloc: Global,
    draft: &mut Draft,
    task: Task,
    prepared: &mut Prepared<'_, '_>,
    named: &[Target],
    writer: ReplyWriter<CommandReply>,
) -> Result<Seen, NoMemory>
    requires sound { IsSound draft.old.keys draft.old.maps }
    requires term_keys { (t : List ℕ) → is_in t named.now ≡ true → HoldsFound draft.old.keys t draft.old.maps }
    requires ctx_key { HoldsPlace draft.old.keys (task_place task) }
    requires stays { is_move (task_verb task) ≡ false }
    requires does { Does task prepared.old.command.now }
    ensures maps { OnOk result (draft.new.maps ≡ (targets_in prepared.old.rules.now (task_place task) prepared.old.command.now named.now draft.old.maps).maps) }
    ensures answer { IfOk result (λ done. done ≡ seen writer (targets_in prepared.old.rules.now (task_place task) prepared.old.command.now named.now draft.old.maps).answer.answers) }
    ensures keys { draft.new.keys ≡ draft.old.keys }
    ensures same { IsSameCommand prepared.old prepared.new }
{
    end_first(draft, task, named)?;
    let mut written = writer;
    let mut first_error = None;
    let mut any_done = false;
    for target in named {
        draft.seek_term(target);
        let one = on_target(alloc, draft, task, prepared, target, written)?;
        written = one.written;
        any_done = any_done || one.any_done;
        first_error = first_error.or(one.first_error);
    }
    Ok(Seen {
        written,
        first_error,
        any_done,
    })
}
