//! The replies to a command.

ghost use Rattle.std.specs.Prelude.{◌≡◌, ◌∷◌, [], ◌&&◌, true, false, List, Err, IfOk};
ghost use Rattle.gw_reply.specs.declared.writer.ReplyWriter.{ReplyWriter};
ghost use Rattle.gw_reply.specs.declared.writer.ReplyWriter.TheVariants.{TooLong};
ghost use Rattle.gw_reply.specs.declared.reply.CommandReply.{CommandReply};
ghost use Rattle.gw_refusal.specs.Requested.{is_wildcard};
ghost use Rattle.gw_cmd.specs.Commands.{reply, outcome_of, outcome_written};
ghost use Rattle.gw_cmd.specs.Written.{new_term, outcome_behind, seen};

use crate::outcome::{CmdWritten, Seen};
use gw_base::{Code, Items, NoMemory, TermName, TermRef};
use gw_msg::Command;
use gw_refusal::{At, is_wildcard};
use gw_reply::{AuditReply, CommandReply, ReplyWriter};
use std::alloc::Global;

/// The reply to the command on a termination.
fn reply(command: &Command<'_>, term: TermRef, answer: Result<AuditReply, Code>) -> CommandReply
    ensures { result ≡ reply command.now term answer }
{
    CommandReply {
        verb: command.verb,
        term,
        result: answer,
    }
}

/// The TerminationID of a termination that an Add was to make: its name where it came into being, else as sent.
pub(crate) fn new_term(answer: &Result<AuditReply, Code>, name: TermName) -> TermRef
    ensures { result ≡ new_term name answer.now }
{
    match answer {
        Ok(_) => TermRef::Name(name),
        Err(_) => TermRef::Choose,
    }
}

/// Whether the writer is full, so that nothing more is written.
pub(crate) fn writes_none(writer: &ReplyWriter<CommandReply>) -> bool
    ensures { result ≡ true → writer.now ≡ TooLong }
{
    matches!(writer, ReplyWriter::TooLong)
}

/// The reply to the command on one termination is written behind those before it.
#[inline(always)]
pub(crate) fn written(
    writer: ReplyWriter<CommandReply>,
    command: &Command<'_>,
    term: TermRef,
    answer: Result<AuditReply, Code>,
) -> Result<Seen, NoMemory>
    ensures { IfOk result (λ done. done ≡ seen writer (reply command.now term answer ∷ [])) }
{
    let first_error = match &answer {
        Ok(_) => None,
        Err(code) => Some(*code),
    };
    let any_done = first_error.is_none();
    Ok(Seen {
        written: writer.write(reply(command, term, answer))?,
        first_error,
        any_done,
    })
}

/// What a command gave whose targets' replies are written.
#[tactic(auto, using(crate::proofs::Seen::failed_first))]
pub(crate) fn outcome_of(at: At, done: Seen) -> CmdWritten
    ensures { (writer : ReplyWriter CommandReply) (replies : List CommandReply) → done ≡ seen writer replies → result ≡ outcome_behind writer (outcome_of at replies) }
{
    CmdWritten {
        written: done.written,
        failed: done.first_error.is_some(),
        made: at.is_unmade() && done.any_done,
    }
}

/// One reply to the TerminationID as sent.
#[inline(always)]
pub(crate) fn refused(
    writer: ReplyWriter<CommandReply>,
    at: At,
    command: &Command<'_>,
    code: Code,
) -> Result<CmdWritten, NoMemory>
    ensures { IfOk result (λ done. done ≡ outcome_behind writer (outcome_of at (reply command.now command.now.term (Err code) ∷ []))) }
{
    Ok(outcome_of(at, written(writer, command, command.term, Err(code))?))
}

/// Whether the targets of the command have one reply together, with `W-` and a wildcard.
pub(crate) fn has_one_reply(command: &Command<'_>) -> bool
    ensures { result ≡ (command.now.wild && is_wildcard command.now.term) }
{
    command.wild && is_wildcard(&command.term)
}

/// What a command gave whose targets have one reply together, to the wildcard as sent: with the first error, if there
/// is one.
pub(crate) fn outcome_of_all(
    alloc: Global,
    writer: ReplyWriter<CommandReply>,
    at: At,
    command: &Command<'_>,
    done: Seen,
) -> Result<CmdWritten, NoMemory>
    requires { (command.now.wild && is_wildcard command.now.term) ≡ true }
    ensures { (before : ReplyWriter CommandReply) (replies : List CommandReply) → done ≡ seen before replies → IfOk result (λ outcome. outcome ≡ outcome_behind writer (outcome_written at command.now replies)) }
{
    let result = match done.first_error {
        Some(code) => Err(code),
        None => Ok(Items::new(alloc)),
    };
    Ok(CmdWritten {
        written: writer.write(reply(command, command.term, result))?,
        failed: done.first_error.is_some(),
        made: at.is_unmade() && done.any_done,
    })
}
