//! The words of commands, and the identifiers of contexts and terminations (RFC 3525, Annex B.2).

ghost use Rattle.std.specs.Prelude.{◌≡◌, ◌++◌, OnOk, codes};
ghost use Rattle.gw_reply.specs.Commands.{command_word};
ghost use Rattle.gw_reply.specs.Contexts.{context_text};

use crate::wire::{Written, write_opening};
use gw_base::{CtxNum, CtxRef, TermRef, Verb};
use std::alloc::AllocError;

/// The ContextID, and the brace that opens behind it.
pub(crate) fn write_context(ctx: &CtxRef, out: &mut Vec<u8>) -> Result<(), AllocError>
    ensures { OnOk result (out.new.items ≡ out.old.items ++ (context_text ctx.now ++ codes "{")) }
{
    match ctx {
        CtxRef::Null => out.extend_from_slice(b"-{"),
        CtxRef::All => out.extend_from_slice(b"*{"),
        CtxRef::Choose => out.extend_from_slice(b"${"),
        CtxRef::Num(CtxNum(number)) => write_opening(*number, out),
    }
}

impl Written for TermRef {
    ghost use Rattle.gw_reply.specs.Terminations.{term_text};

    ghost text = { term_text };

    fn write_to(&self, out: &mut Vec<u8>) -> Result<(), AllocError> {
        match self {
            TermRef::Root => out.extend_from_slice(b"ROOT"),
            TermRef::All => out.extend_from_slice(b"*"),
            TermRef::Under(prefix) => {
                out.extend_from_slice(prefix.as_bytes())?;
                out.extend_from_slice(b"*")
            }
            TermRef::Choose => out.extend_from_slice(b"$"),
            TermRef::Name(name) => out.extend_from_slice(name.as_bytes()),
            TermRef::Other(pattern) => out.extend_from_slice(pattern.as_bytes()),
        }
    }
}

/// The word of a command, and behind it `=`, at once.
pub(crate) fn write_command(verb: Verb, out: &mut Vec<u8>) -> Result<(), AllocError>
    ensures { OnOk result (out.new.items ≡ out.old.items ++ (command_word verb ++ codes "=")) }
{
    match verb {
        Verb::Add => out.extend_from_slice(b"Add="),
        Verb::Modify => out.extend_from_slice(b"Modify="),
        Verb::Move => out.extend_from_slice(b"Move="),
        Verb::Subtract => out.extend_from_slice(b"Subtract="),
        Verb::AuditValue => out.extend_from_slice(b"AuditValue="),
        Verb::AuditCapability => out.extend_from_slice(b"AuditCapability="),
        Verb::Notify => out.extend_from_slice(b"Notify="),
        Verb::ServiceChange => out.extend_from_slice(b"ServiceChange="),
    }
}
