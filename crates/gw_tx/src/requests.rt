//! Whole transactions.

ghost use Rattle.std.specs.Prelude.{◌≡◌, IfOk, OnOk};
ghost use Rattle.gw_reserve.specs.Owned.{AreFreeSlots, paired};
ghost use Rattle.gw_tx.specs.Footprints.{footprint_of, Covers};
ghost use Rattle.gw_tx.specs.LimitedText.{within};
ghost use Rattle.gw_tx.specs.Transactions.{paired_transaction};

use crate::actions::actions;
use crate::limited_text::{LimitedText, limited_text_of, writer_within};
use gw_base::{Items, NoMemory, Rules};
use gw_msg::Request;
use gw_reply::{ReplyWriter, TxReply};
use gw_reserve::Owned;
use gw_table::Draft;
use std::alloc::Global;

/// Executes a request, with what it owns: its actions in order, and the commands of each in order, up to the first
/// that stops. The caller knows that the draft covers the request, and that the slots that are owned are unused
/// there. The work is that of the commands, in each context for an action with `*`.
///
/// # Errors
///
/// Out of memory. The draft is then spent: nothing is known of it but its keys.
pub fn transaction(
    alloc: Global,
    rules: &Rules,
    draft: &mut Draft,
    request: &Request<'_>,
    owned: &Owned,
) -> Result<TxReply, NoMemory>
    requires covered { Covers draft.old (footprint_of (paired request.now owned.now) draft.old.maps) }
    requires unused { AreFreeSlots draft.old.maps owned.now.slots }
    ensures maps { OnOk result (draft.new.maps ≡ (paired_transaction rules.now request.now (paired request.now owned.now) draft.old.maps).maps) }
    ensures answer { IfOk result (λ reply. reply ≡ (paired_transaction rules.now request.now (paired request.now owned.now) draft.old.maps).answer) }
    ensures keys { draft.new.keys ≡ draft.old.keys }
{
    let written = actions(
        alloc,
        rules,
        draft,
        owned.contexts.as_slice(),
        owned.slots.as_slice(),
        request.actions.as_slice(),
        ReplyWriter::All(Items::new(alloc)),
    )?;
    let ReplyWriter::All(replies) = written else {
        unreachable!()
    };
    Ok(TxReply {
        id: request.id,
        result: Ok(replies),
    })
}

/// Executes a request as [`transaction`] does, and answers with the text of its reply only where that has at most
/// `limit` bytes: those from `Reply=` to the last brace, as they stand in a message. Replies are written as they
/// come, into the block, of which nothing else is kept. Once they are too long none is kept or written, and what is
/// left to do is done all the same.
///
/// # Errors
///
/// Out of memory. The draft is then spent: nothing is known of it but its keys.
pub fn transaction_within(
    alloc: Global,
    rules: &Rules,
    draft: &mut Draft,
    request: &Request<'_>,
    owned: &Owned,
    block: Items<u8>,
    limit: usize,
) -> Result<LimitedText, NoMemory>
    requires covered { Covers draft.old (footprint_of (paired request.now owned.now) draft.old.maps) }
    requires unused { AreFreeSlots draft.old.maps owned.now.slots }
    ensures maps { OnOk result (draft.new.maps ≡ (paired_transaction rules.now request.now (paired request.now owned.now) draft.old.maps).maps) }
    ensures answer { IfOk result (λ limited_text. limited_text ≡ within limit (paired_transaction rules.now request.now (paired request.now owned.now) draft.old.maps).answer) }
    ensures keys { draft.new.keys ≡ draft.old.keys }
{
    let written = actions(
        alloc,
        rules,
        draft,
        owned.contexts.as_slice(),
        owned.slots.as_slice(),
        request.actions.as_slice(),
        writer_within(block, request.id, limit),
    )?;
    Ok(limited_text_of(written))
}
