//! One transaction by itself, and its reply as a tree.

ghost use Rattle.gw_reserve.specs.Owned.{AreFreeSlots};
ghost use Rattle.gw_table.specs.Stored.{maps_of, NoneIsOut};
ghost use Rattle.gw_table.specs.WellFormed.{AreWellFormed};

use cases_text::{CaseFault, Page};
use gw_base::{NoMemory, Rules};
use gw_msg::Request;
use gw_reply::{ActionReply, TxReply, Written};
use gw_reserve::Owned;
use gw_table::{Draft, Tables};
use gw_tx::transaction;

/// Writes the text of an action reply.
fn write_action(action: &ActionReply, out: &mut Page) -> Result<(), CaseFault> {
    let mut text = Vec::new(out.alloc());
    action.write_to(&mut text)?;
    out.encoded(text.as_slice());
    out.put(b"\n");
    Ok(())
}

/// Writes the number of a reply, and each of its action replies.
fn write_replies(reply: &TxReply, out: &mut Page) -> Result<(), CaseFault> {
    out.put(b"reply ");
    out.number(u64::from(reply.id.0));
    out.put(b"\n");
    match &reply.result {
        Ok(actions) => {
            for action in actions.as_slice() {
                write_action(action, out)?;
            }
        }
        Err(code) => out.number(u64::from(code.number())),
    }
    Ok(())
}

/// Executes a request by itself on these tables, which end with it, and writes its reply. The caller knows that the
/// tables are well-formed, that nothing is out, and that the slots that the request owns are unused.
///
/// # Errors
///
/// `NoMemory` where an allocation was refused.
pub fn write_tree(
    rules: &Rules,
    tables: Tables,
    request: &Request<'_>,
    owned: &Owned,
    out: &mut Page,
) -> Result<(), CaseFault>
    requires whole { AreWellFormed rules.now.members (maps_of tables) }
    requires here { NoneIsOut tables }
    requires unused { AreFreeSlots (maps_of tables) owned.now.slots }
{
    let alloc = out.alloc();
    let mut draft = Draft::of_tables(alloc, tables);
    let done: Result<TxReply, NoMemory> = transaction(alloc, rules, &mut draft, request, owned);
    match done {
        Ok(reply) => write_replies(&reply, out),
        Err(NoMemory) => Err(CaseFault::NoMemory),
    }
}
