//! The commands of an action.

ghost use Rattle.std.specs.Prelude.{◌≡◌, [], List, IfOk, OnOk};
ghost use Rattle.gw_cmd.specs.Keys.{command_keys};
ghost use Rattle.gw_cmd.specs.Prepared.{ArePrepared, IsSameCommand};
ghost use Rattle.gw_cmd.specs.Suits.{IsUnused};
ghost use Rattle.gw_reply.specs.ContextParts.{context_part_text};
ghost use Rattle.gw_reply.specs.Replies.{command_reply_text, action_reply_text};
ghost use Rattle.gw_reply.specs.Writers.{inside, written_behind};
ghost use Rattle.gw_reply.specs.declared.context_parts.ContextPart.{ContextPart as Part};
ghost use Rattle.gw_reserve.specs.Owned.{AreFreeSlots, paired_commands};
ghost use Rattle.gw_tx.specs.Footprints.{list_keys, Covers};
ghost use Rattle.gw_tx.specs.Properties.{ArePlain};
ghost use Rattle.gw_tx.specs.LimitedText.{progress};
ghost use Rattle.gw_tx.specs.Transactions.{attempt, commands as all_commands, replied as action_replied};

use crate::limited_text::{Progress, inside};
use crate::owned::{ActionTask, next_entry};
use crate::replies::replied;
use crate::setting::set_when_made;
use gw_base::NoMemory;
use gw_cmd::{At, Prepared, command_written};
use gw_msg::ContextProp;
use gw_reply::{ActionReply, CommandReply, ContextPart, ReplyWriter};
use gw_table::Draft;
use std::alloc::Global;

/// Executes one command with the slot that it owns, and writes its replies behind those of the commands before it. A
/// context that it makes gets the properties that are late. It stops where it fails and has no `O-`.
#[inline(always)]
fn attempt(
    alloc: Global,
    draft: &mut Draft,
    late: &[ContextProp],
    at: At,
    slot: Option<u16>,
    prepared: &mut Prepared<'_, '_>,
    writer: ReplyWriter<CommandReply>,
) -> Result<Progress<At, CommandReply>, NoMemory>
    requires covered { Covers draft.old (command_keys at slot prepared.old.command.now draft.old.maps) }
    requires unused { IsUnused slot draft.old.maps }
    requires plain { ArePlain late.now }
    ensures maps { OnOk result (draft.new.maps ≡ (attempt prepared.old.rules.now late.now at (slot, prepared.old.command.now) draft.old.maps).maps) }
    ensures answer { IfOk result (λ done. done ≡ progress command_reply_text writer (attempt prepared.old.rules.now late.now at (slot, prepared.old.command.now) draft.old.maps).answer) }
    ensures keys { draft.new.keys ≡ draft.old.keys }
    ensures same { IsSameCommand prepared.old prepared.new }
{
    let done = command_written(alloc, draft, at, slot, prepared, writer)?;
    set_when_made(draft, done.made, at, late)?;
    Ok(Progress {
        next: if done.made { at.made() } else { at },
        writer: done.written,
        stopped: done.failed && !prepared.command.optional,
    })
}

/// Executes the commands of an action in order, with the slots that they own, up to the first that stops. Where there
/// is no room for more replies, they are executed all the same.
#[inline(always)]
fn commands(
    alloc: Global,
    draft: &mut Draft,
    late: &[ContextProp],
    at: At,
    task: &ActionTask<'_, '_>,
    writer: ReplyWriter<CommandReply>,
) -> Result<Progress<At, CommandReply>, NoMemory>
    requires covered { Covers draft.old (list_keys at (paired_commands task.now.slots.now task.now.sent.now.commands) draft.old.maps) }
    requires unused { AreFreeSlots draft.old.maps task.now.slots.now }
    requires plain { ArePlain late.now }
    ensures maps { OnOk result (draft.new.maps ≡ (all_commands task.now.rules.now late.now at (paired_commands task.now.slots.now task.now.sent.now.commands) draft.old.maps).maps) }
    ensures answer { IfOk result (λ done. done ≡ progress command_reply_text writer (all_commands task.now.rules.now late.now at (paired_commands task.now.slots.now task.now.sent.now.commands) draft.old.maps).answer) }
    ensures keys { draft.new.keys ≡ draft.old.keys }
{
    let mut at = at;
    let mut left = task.slots;
    let mut writer = writer;
    let sent = task.sent.commands.as_slice();
    for command in sent {
        let (slot, later) = next_entry(left);
        left = later;
        let mut prepared = Prepared::new(task.rules, command, false);
        let done = attempt(alloc, draft, late, at, slot, &mut prepared, writer)?;
        at = done.next;
        writer = done.writer;
        if done.stopped {
            return Ok(Progress {
                next: at,
                writer,
                stopped: true,
            });
        }
    }
    Ok(Progress {
        next: at,
        writer,
        stopped: false,
    })
}

/// The same of commands that were prepared before, in a context that is there.
pub(crate) fn commands_prepared(
    alloc: Global,
    draft: &mut Draft,
    at: At,
    task: &ActionTask<'_, '_>,
    prepared: &mut [Prepared<'_, '_>],
    writer: ReplyWriter<CommandReply>,
) -> Result<Progress<At, CommandReply>, NoMemory>
    requires covered { Covers draft.old (list_keys at (paired_commands task.now.slots.now task.now.sent.now.commands) draft.old.maps) }
    requires unused { AreFreeSlots draft.old.maps task.now.slots.now }
    requires prepared { ArePrepared task.now.rules.now prepared.old task.now.sent.now.commands }
    ensures maps { OnOk result (draft.new.maps ≡ (all_commands task.now.rules.now [] at (paired_commands task.now.slots.now task.now.sent.now.commands) draft.old.maps).maps) }
    ensures answer { IfOk result (λ done. done ≡ progress command_reply_text writer (all_commands task.now.rules.now [] at (paired_commands task.now.slots.now task.now.sent.now.commands) draft.old.maps).answer) }
    ensures keys { draft.new.keys ≡ draft.old.keys }
    ensures prepared { OnOk result (ArePrepared task.now.rules.now prepared.new task.now.sent.now.commands) }
{
    let mut at = at;
    let mut left = task.slots;
    let mut writer = writer;
    for command in prepared.iter_mut() {
        let (slot, later) = next_entry(left);
        left = later;
        let done = attempt(alloc, draft, &[], at, slot, command, writer)?;
        at = done.next;
        writer = done.writer;
        if done.stopped {
            return Ok(Progress {
                next: at,
                writer,
                stopped: true,
            });
        }
    }
    Ok(Progress {
        next: at,
        writer,
        stopped: false,
    })
}

/// Executes the commands of an action in one context, and writes its reply, with what is written of the context,
/// behind those of the actions before it.
#[inline(always)]
pub(crate) fn commands_in(
    alloc: Global,
    draft: &mut Draft,
    late: &[ContextProp],
    at: At,
    task: &ActionTask<'_, '_>,
    parts: ReplyWriter<ContextPart>,
    writer: ReplyWriter<ActionReply>,
) -> Result<Progress<(), ActionReply>, NoMemory>
    requires covered { Covers draft.old (list_keys at (paired_commands task.now.slots.now task.now.sent.now.commands) draft.old.maps) }
    requires unused { AreFreeSlots draft.old.maps task.now.slots.now }
    requires plain { ArePlain late.now }
    ensures maps { OnOk result (draft.new.maps ≡ (all_commands task.now.rules.now late.now at (paired_commands task.now.slots.now task.now.sent.now.commands) draft.old.maps).maps) }
    ensures answer { (all : List Part) → parts ≡ written_behind context_part_text (inside writer) all → IfOk result (λ done. done ≡ progress action_reply_text writer (action_replied all (all_commands task.now.rules.now late.now at (paired_commands task.now.slots.now task.now.sent.now.commands) draft.old.maps).answer)) }
    ensures keys { draft.new.keys ≡ draft.old.keys }
{
    let within = inside(alloc, &writer);
    let done = commands(alloc, draft, late, at, task, within)?;
    replied(writer, parts, done)
}
