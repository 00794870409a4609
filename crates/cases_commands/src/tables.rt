//! Replies and tables as a case has them.

use cases_text::{CaseFault, Page, split_at_byte};
use gw_base::{CtxRef, Items, Mid, TxId};
use gw_cmd::CmdOutcome;
use gw_reply::{ActionReply, CommandReply, TxReply, write_reply};
use gw_table::Tables;
use std::alloc::{AllocError, Global};

/// What stands before and behind the replies in a message.
const FRONT: &[u8] = b"MEGACO/1 mg\nReply=1{Context=-{";

const END: &[u8] = b"}}";

/// The tree of a reply with these command replies.
fn tree_of(alloc: Global, replies: Items<CommandReply>) -> Result<TxReply, AllocError> {
    let mut actions = Items::new(alloc);
    actions.push(ActionReply {
        ctx: CtxRef::Null,
        parts: Items::new(alloc),
        result: Ok(replies),
    })?;
    Ok(TxReply {
        id: TxId(1),
        result: Ok(actions),
    })
}

/// The command replies out of a message.
fn replies_of(message: &[u8]) -> Option<&[u8]> {
    message.strip_prefix(FRONT)?.strip_suffix(END)
}

/// Whether the command failed, whether it made its context, and its replies.
pub fn write_outcome(out: &mut Page, outcome: CmdOutcome) -> Result<(), CaseFault> {
    let Ok(mid) = Mid::read(b"mg") else {
        return Err(CaseFault::Form);
    };
    out.put(if outcome.failed { b"failed" } else { b"done" });
    out.put(if outcome.made { b", made: " } else { b": " });
    let reply = tree_of(out.alloc(), outcome.replies)?;
    match write_reply(out.alloc(), &reply, &mid) {
        Ok(text) => out.encoded(replies_of(text.as_slice()).unwrap_or(b"")),
        Err(fault) => out.display(&fault),
    }
    out.put(b"\n");
    Ok(())
}

/// A line for each context and for each termination.
pub fn write_tables(out: &mut Page, tables: &Tables) -> Result<(), CaseFault> {
    let mut text = Vec::new(out.alloc());
    let Ok(()) = tables.write_text(out.alloc(), &mut text) else {
        return Err(CaseFault::NoMemory);
    };
    out.put(text.as_slice());
    Ok(())
}

/// What a line of the tables is about: its first two words.
fn entry_of(line: &[u8]) -> &[u8] {
    let mut is_second = false;
    for (place, byte) in line.iter().enumerate() {
        if *byte == b' ' {
            if is_second {
                return &line[..place];
            }
            is_second = true;
        }
    }
    line
}

/// Whether a line stands in the text.
fn has_line(text: &[u8], line: &[u8]) -> bool {
    let mut rest = text;
    // Each step takes one byte or more.
    for _step in text {
        let (other, behind) = split_at_byte(rest, b'\n');
        if other == line {
            return true;
        }
        rest = behind;
    }
    false
}

/// Whether a line of the text is about this entry.
fn has_entry(text: &[u8], entry: &[u8]) -> bool {
    let mut rest = text;
    // Each step takes one byte or more.
    for _step in text {
        let (other, behind) = split_at_byte(rest, b'\n');
        if entry_of(other) == entry {
            return true;
        }
        rest = behind;
    }
    false
}

/// Each line that is new or another.
fn write_new(out: &mut Page, before: &[u8], after: &[u8]) {
    let mut rest = after;
    // Each step takes one byte or more.
    for _step in after {
        let (line, behind) = split_at_byte(rest, b'\n');
        if !line.is_empty() && !has_line(before, line) {
            out.put(line);
            out.put(b"\n");
        }
        rest = behind;
    }
}

/// Each entry that is gone.
fn write_gone(out: &mut Page, before: &[u8], after: &[u8]) {
    let mut rest = before;
    // Each step takes one byte or more.
    for _step in before {
        let (line, behind) = split_at_byte(rest, b'\n');
        let entry = entry_of(line);
        if !entry.is_empty() && !has_entry(after, entry) {
            out.put(b"no ");
            out.put(entry);
            out.put(b"\n");
        }
        rest = behind;
    }
}

/// Each line of the tables that is new or another than in the text of those before, and each entry that is gone.
pub fn write_changes(out: &mut Page, before: &[u8], after: &Tables) -> Result<(), CaseFault> {
    let mut new = Page::new(out.alloc());
    write_tables(&mut new, after)?;
    let after = new.whole()?;
    write_new(out, before, after);
    write_gone(out, before, after);
    Ok(())
}
