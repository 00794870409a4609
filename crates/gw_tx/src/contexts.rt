//! An action in a context that is there, and in each that there is.

ghost use Rattle.std.specs.Prelude.{◌≡◌, true, false, All, IfOk, OnOk};
ghost use Rattle.std.specs.List.{list_any};
ghost use Rattle.gw_base.specs.declared.ids.CtxNum.{CtxNum};
ghost use Rattle.gw_base.specs.declared.key.Key.TheVariants.{Ctx};
ghost use Rattle.gw_cmd.specs.Prepared.{ArePrepared};
ghost use Rattle.gw_refusal.specs.declared.at.At.TheVariants.{Live, Each};
ghost use Rattle.gw_reply.specs.Replies.{action_reply_text};
ghost use Rattle.gw_reserve.specs.Owned.{AreFreeSlots, paired_commands};
ghost use Rattle.gw_table.specs.Maps.{numbers};
ghost use Rattle.gw_table.specs.Parts.{holds};
ghost use Rattle.gw_tx.specs.Footprints.{list_keys, Covers};
ghost use Rattle.gw_tx.specs.Properties.{is_too_high, ArePlain};
ghost use Rattle.gw_tx.specs.LimitedText.{owned_action, progress};
ghost use Rattle.gw_tx.specs.Transactions.{in_context as done_in_context, in_all, action_for_each};

use crate::commands::{commands_in, commands_prepared};
use crate::context_parts::context_parts_if;
use crate::limited_text::{Progress, inside};
use crate::owned::ActionTask;
use crate::replies::{action_error, replied};
use crate::setting::set_properties;
use gw_base::{Code, CtxNum, CtxRef, NoMemory};
use gw_cmd::{At, Prepared, all_prepared};
use gw_reply::{ActionReply, ReplyWriter};
use gw_table::Draft;
use std::alloc::Global;

/// Executes an action in a context that is there: sets its properties, writes what it then is, and executes the
/// commands.
// Not inlined, so that the other kinds of actions cost less; nor is `action_for_each`.
#[inline(never)]
pub(crate) fn in_context(
    alloc: Global,
    draft: &mut Draft,
    number: CtxNum,
    task: &ActionTask<'_, '_>,
    writer: ReplyWriter<ActionReply>,
) -> Result<Progress<(), ActionReply>, NoMemory>
    requires covered { Covers draft.old (list_keys (Live number) (paired_commands task.now.slots.now task.now.sent.now.commands) draft.old.maps) }
    requires unused { AreFreeSlots draft.old.maps task.now.slots.now }
    requires key { holds draft.old.keys (Ctx number) ≡ true }
    requires low { list_any is_too_high task.now.sent.now.props ≡ false }
    ensures maps { OnOk result (draft.new.maps ≡ (done_in_context task.now.rules.now (owned_action task.now) (Live number) number draft.old.maps).maps) }
    ensures answer { IfOk result (λ done. done ≡ progress action_reply_text writer (done_in_context task.now.rules.now (owned_action task.now) (Live number) number draft.old.maps).answer) }
    ensures keys { draft.new.keys ≡ draft.old.keys }
{
    set_properties(draft, number, task.sent.props.as_slice())?;
    let parts = context_parts_if(alloc, draft, number, task.sent, &writer)?;
    commands_in(alloc, draft, &[], At::Live(number), task, parts, writer)
}

/// The same in one of the contexts of an action with `*`, whose commands were prepared once for all of them.
fn in_each(
    alloc: Global,
    draft: &mut Draft,
    number: CtxNum,
    task: &ActionTask<'_, '_>,
    prepared: &mut [Prepared<'_, '_>],
    writer: ReplyWriter<ActionReply>,
) -> Result<Progress<(), ActionReply>, NoMemory>
    requires covered { Covers draft.old (list_keys (Each number) (paired_commands task.now.slots.now task.now.sent.now.commands) draft.old.maps) }
    requires unused { AreFreeSlots draft.old.maps task.now.slots.now }
    requires key { holds draft.old.keys (Ctx number) ≡ true }
    requires low { list_any is_too_high task.now.sent.now.props ≡ false }
    requires prepared { ArePrepared task.now.rules.now prepared.old task.now.sent.now.commands }
    ensures maps { OnOk result (draft.new.maps ≡ (done_in_context task.now.rules.now (owned_action task.now) (Each number) number draft.old.maps).maps) }
    ensures answer { IfOk result (λ done. done ≡ progress action_reply_text writer (done_in_context task.now.rules.now (owned_action task.now) (Each number) number draft.old.maps).answer) }
    ensures keys { draft.new.keys ≡ draft.old.keys }
    ensures prepared { OnOk result (ArePrepared task.now.rules.now prepared.new task.now.sent.now.commands) }
{
    set_properties(draft, number, task.sent.props.as_slice())?;
    let parts = context_parts_if(alloc, draft, number, task.sent, &writer)?;
    let within = inside(alloc, &writer);
    let done = commands_prepared(alloc, draft, At::Each(number), task, prepared, within)?;
    replied(writer, parts, done)
}

/// Executes an action in each of these contexts. A stop ends the commands of its context alone; that there was one is
/// what the next would go on from.
fn in_all(
    alloc: Global,
    draft: &mut Draft,
    numbers: &[CtxNum],
    task: &ActionTask<'_, '_>,
    prepared: &mut [Prepared<'_, '_>],
    writer: ReplyWriter<ActionReply>,
) -> Result<Progress<bool, ActionReply>, NoMemory>
    requires covered { (n : CtxNum) → Covers draft.old (list_keys (Each n) (paired_commands task.now.slots.now task.now.sent.now.commands) draft.old.maps) }
    requires unused { AreFreeSlots draft.old.maps task.now.slots.now }
    requires key { All (λ n. holds draft.old.keys (Ctx n) ≡ true) numbers.now }
    requires plain { ArePlain task.now.sent.now.props }
    requires prepared { ArePrepared task.now.rules.now prepared.old task.now.sent.now.commands }
    ensures maps { OnOk result (draft.new.maps ≡ (in_all task.now.rules.now (owned_action task.now) numbers.now draft.old.maps).maps) }
    ensures answer { IfOk result (λ done. done ≡ progress action_reply_text writer (in_all task.now.rules.now (owned_action task.now) numbers.now draft.old.maps).answer) }
    ensures keys { draft.new.keys ≡ draft.old.keys }
{
    let mut stopped = false;
    let mut writer = writer;
    for number in numbers {
        draft.seek_ctx(*number);
        let done = in_each(alloc, draft, *number, task, prepared, writer)?;
        stopped = stopped || done.stopped;
        writer = done.writer;
    }
    Ok(Progress {
        next: stopped,
        writer,
        stopped: false,
    })
}

/// Executes an action with `*`: in each context that exists when it begins, in rising number. The work is that of its
/// properties and commands in each of them, and of the replies that there is room for.
#[inline(never)]
pub(crate) fn action_for_each(
    alloc: Global,
    draft: &mut Draft,
    task: &ActionTask<'_, '_>,
    writer: ReplyWriter<ActionReply>,
) -> Result<Progress<(), ActionReply>, NoMemory>
    requires covered { (n : CtxNum) → Covers draft.old (list_keys (Each n) (paired_commands task.now.slots.now task.now.sent.now.commands) draft.old.maps) }
    requires unused { AreFreeSlots draft.old.maps task.now.slots.now }
    requires plain { ArePlain task.now.sent.now.props }
    ensures maps { OnOk result (draft.new.maps ≡ (action_for_each task.now.rules.now (owned_action task.now) draft.old.maps (numbers draft.old.maps)).maps) }
    ensures answer { IfOk result (λ done. done ≡ progress action_reply_text writer (action_for_each task.now.rules.now (owned_action task.now) draft.old.maps (numbers draft.old.maps)).answer) }
    ensures keys { draft.new.keys ≡ draft.old.keys }
{
    let numbers = draft.numbers(alloc)?;
    if numbers.is_empty() {
        return action_error(alloc, writer, CtxRef::All, Code::NoWildcardMatch);
    }
    let mut prepared = all_prepared(alloc, task.rules, task.sent.commands.as_slice())?;
    let done = in_all(alloc, draft, &numbers, task, &mut prepared, writer)?;
    Ok(Progress {
        next: (),
        writer: done.writer,
        stopped: done.next,
    })
}
