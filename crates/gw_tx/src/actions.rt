//! The actions of a transaction.

ghost use Rattle.std.specs.Prelude.{◌≡◌, true, false, None, IfOk, OnOk};
ghost use Rattle.std.specs.List.{list_any};
ghost use Rattle.gw_base.specs.declared.key.Key.TheVariants.{Ctx};
ghost use Rattle.gw_refusal.specs.declared.at.At.TheVariants.{Live};
ghost use Rattle.gw_reply.specs.Replies.{action_reply_text};
ghost use Rattle.gw_reply.specs.Writers.{written_behind};
ghost use Rattle.gw_reserve.specs.Owned.{AreFreeSlots, paired_actions, paired_commands};
ghost use Rattle.gw_table.specs.Maps.{ctx};
ghost use Rattle.gw_table.specs.Parts.{holds};
ghost use Rattle.gw_tx.specs.Footprints.{action_footprint, footprint_of, list_keys, Covers};
ghost use Rattle.gw_tx.specs.Properties.{is_too_high, refusal_of_properties};
ghost use Rattle.gw_tx.specs.LimitedText.{owned_action, progress};
ghost use Rattle.gw_tx.specs.Transactions.{action_in as done_in, action_on as done_on, action as action_done, actions as all_actions};

use crate::commands::commands_in;
use crate::contexts::{action_for_each, in_context};
use crate::limited_text::{Progress, inside};
use crate::links::{linked_names, refusal_of_links};
use crate::owned::{ActionTask, entries_behind, next_entry};
use crate::properties::refusal_of_properties;
use crate::replies::action_error;
use gw_base::{Code, CtxNum, CtxRef, NoMemory, Rules};
use gw_cmd::At;
use gw_msg::Action;
use gw_reply::{ActionReply, ReplyWriter};
use gw_table::Draft;
use std::alloc::Global;

/// Executes an action with a number, where the context and what is to be linked in it are there.
fn action_in(
    alloc: Global,
    draft: &mut Draft,
    number: CtxNum,
    task: &ActionTask<'_, '_>,
    writer: ReplyWriter<ActionReply>,
) -> Result<Progress<(), ActionReply>, NoMemory>
    requires covered { Covers draft.old (list_keys (Live number) (paired_commands task.now.slots.now task.now.sent.now.commands) draft.old.maps) }
    requires unused { AreFreeSlots draft.old.maps task.now.slots.now }
    requires key { holds draft.old.keys (Ctx number) ≡ true }
    requires low { list_any is_too_high task.now.sent.now.props ≡ false }
    ensures maps { OnOk result (draft.new.maps ≡ (done_in task.now.rules.now number (owned_action task.now) draft.old.maps (ctx draft.old.maps number)).maps) }
    ensures answer { IfOk result (λ done. done ≡ progress action_reply_text writer (done_in task.now.rules.now number (owned_action task.now) draft.old.maps (ctx draft.old.maps number)).answer) }
    ensures keys { draft.new.keys ≡ draft.old.keys }
{
    draft.seek_ctx(number);
    if draft.ctx(number).is_none() {
        return action_error(alloc, writer, CtxRef::Num(number), Code::UnknownContext);
    }
    let names = linked_names(alloc, task.sent.props.as_slice())?;
    match refusal_of_links(draft, number, &names) {
        Some(code) => action_error(alloc, writer, CtxRef::Num(number), code),
        None => in_context(alloc, draft, number, task, writer),
    }
}

/// Executes an action that is not refused for its properties.
#[inline(always)]
fn action_on(
    alloc: Global,
    draft: &mut Draft,
    task: &ActionTask<'_, '_>,
    writer: ReplyWriter<ActionReply>,
) -> Result<Progress<(), ActionReply>, NoMemory>
    requires covered { Covers draft.old (action_footprint (owned_action task.now) draft.old.maps) }
    requires unused { AreFreeSlots draft.old.maps task.now.slots.now }
    requires allowed { refusal_of_properties task.now.sent.now ≡ None }
    ensures maps { OnOk result (draft.new.maps ≡ (done_on task.now.rules.now (owned_action task.now) draft.old.maps task.now.sent.now.ctx).maps) }
    ensures answer { IfOk result (λ done. done ≡ progress action_reply_text writer (done_on task.now.rules.now (owned_action task.now) draft.old.maps task.now.sent.now.ctx).answer) }
    ensures keys { draft.new.keys ≡ draft.old.keys }
{
    let none = inside(alloc, &writer);
    match task.sent.ctx {
        CtxRef::Null => commands_in(alloc, draft, &[], At::Null, task, none, writer),
        CtxRef::Num(number) => action_in(alloc, draft, number, task, writer),
        CtxRef::Choose => match task.number {
            Some(number) => {
                let late = task.sent.props.as_slice();
                commands_in(alloc, draft, late, At::Unmade(number), task, none, writer)
            }
            None => action_error(alloc, writer, CtxRef::Choose, Code::NoContextLeft),
        },
        CtxRef::All => action_for_each(alloc, draft, task, writer),
    }
}

/// Executes one action with what it owns, and writes its replies behind those of the actions before it.
#[inline(always)]
fn action(
    alloc: Global,
    draft: &mut Draft,
    task: &ActionTask<'_, '_>,
    writer: ReplyWriter<ActionReply>,
) -> Result<Progress<(), ActionReply>, NoMemory>
    requires covered { Covers draft.old (action_footprint (owned_action task.now) draft.old.maps) }
    requires unused { AreFreeSlots draft.old.maps task.now.slots.now }
    ensures maps { OnOk result (draft.new.maps ≡ (action_done task.now.rules.now tt (owned_action task.now) draft.old.maps).maps) }
    ensures answer { IfOk result (λ done. done ≡ progress action_reply_text writer (action_done task.now.rules.now tt (owned_action task.now) draft.old.maps).answer) }
    ensures keys { draft.new.keys ≡ draft.old.keys }
{
    match refusal_of_properties(task.sent) {
        Some(code) => action_error(alloc, writer, task.sent.ctx, code),
        None => action_on(alloc, draft, task, writer),
    }
}

/// Executes actions in order, up to the first that stops, with what they and their commands own.
pub(crate) fn actions(
    alloc: Global,
    rules: &Rules,
    draft: &mut Draft,
    numbers: &[Option<CtxNum>],
    slots: &[Option<u16>],
    sent: &[Action<'_>],
    writer: ReplyWriter<ActionReply>,
) -> Result<ReplyWriter<ActionReply>, NoMemory>
    requires covered { Covers draft.old (footprint_of (paired_actions numbers.now slots.now sent.now) draft.old.maps) }
    requires unused { AreFreeSlots draft.old.maps slots.now }
    ensures maps { OnOk result (draft.new.maps ≡ (all_actions rules.now (paired_actions numbers.now slots.now sent.now) draft.old.maps).maps) }
    ensures answer { IfOk result (λ all. all ≡ written_behind action_reply_text writer (all_actions rules.now (paired_actions numbers.now slots.now sent.now) draft.old.maps).answer.answers) }
    ensures keys { draft.new.keys ≡ draft.old.keys }
{
    let mut numbers_left = numbers;
    let mut slots_left = slots;
    let mut writer = writer;
    for one in sent {
        let (number, later) = next_entry(numbers_left);
        let task = ActionTask {
            rules,
            sent: one,
            number,
            slots: slots_left,
        };
        let done = action(alloc, draft, &task, writer)?;
        numbers_left = later;
        slots_left = entries_behind(slots_left, one.commands.len());
        writer = done.writer;
        if done.stopped {
            return Ok(writer);
        }
    }
    Ok(writer)
}
