//! What the reply to a command on a termination has.

ghost use Rattle.std.specs.Prelude.{◌≡◌, ◌++◌, IfOk};
ghost use Rattle.gw_term.specs.Audit.{audit_parts};
ghost use Rattle.gw_refusal.specs.Requested.{audited};
ghost use Rattle.gw_cmd.specs.Effects.{filled_part, parts_of};
ghost use Rattle.gw_cmd.specs.Plans.{parts_by, parts_if};

use crate::change::Change;
use gw_base::{Items, NoMemory};
use gw_desc::Descriptor;
use gw_refusal::{first_audit, requests_media};
use gw_reply::{AuditReply, ReplyPart};
use gw_term::{Filled, Termination};
use std::alloc::Global;

/// What the first Audit requests, if there is one.
#[tactic(auto, unfolding(gw_term::specs::Audit::audit_parts))]
fn audit(
    alloc: Global,
    termination: &Termination,
    descriptors: &[Descriptor<'_>],
) -> Result<AuditReply, NoMemory>
    ensures { IfOk result (λ parts. parts ≡ audit_parts (audited descriptors.now) termination.now) }
{
    match first_audit(descriptors) {
        Some(words) => termination.audit(alloc, words),
        None => Ok(Items::new(alloc)),
    }
}

/// The Locals that were filled, unless Media is audited.
fn filled_part(
    alloc: Global,
    descriptors: &[Descriptor<'_>],
    filled: Filled,
) -> Result<AuditReply, NoMemory>
    ensures { IfOk result (λ parts. parts ≡ filled_part descriptors.now filled) }
{
    let mut parts = Items::new(alloc);
    if filled.is_empty() || requests_media(descriptors) {
        return Ok(parts);
    }
    parts.push(ReplyPart::Filled(filled))?;
    Ok(parts)
}

/// What was filled, and what is audited of the record after it.
fn parts_of(
    alloc: Global,
    descriptors: &[Descriptor<'_>],
    filled: Filled,
    new: &Termination,
) -> Result<AuditReply, NoMemory>
    ensures { IfOk result (λ parts. parts ≡ parts_of descriptors.now filled new.now) }
{
    let mut parts = filled_part(alloc, descriptors, filled)?;
    let audited = audit(alloc, new, descriptors)?;
    parts.append(audited)?;
    Ok(parts)
}

/// What the reply has after a change of a termination that had this record, if that is wanted.
pub(crate) fn parts_if(
    alloc: Global,
    wanted: bool,
    descriptors: &[Descriptor<'_>],
    filled: Filled,
    change: &Change,
    old: &Termination,
) -> Result<AuditReply, NoMemory>
    ensures { IfOk result (λ parts. parts ≡ parts_if wanted (parts_by descriptors.now filled old.now change.now)) }
{
    if !wanted {
        return Ok(Items::new(alloc));
    }
    match change {
        Change::Stays | Change::Leaves(_, _) => audit(alloc, old, descriptors),
        Change::Becomes(new) | Change::Joins(_, new) | Change::Crosses(_, _, new) => {
            parts_of(alloc, descriptors, filled, new)
        }
    }
}
