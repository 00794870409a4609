//! Executing a request, and the text of its reply.

ghost use Rattle.std.specs.Prelude.{◌≡◌, IfOk, OnOk, option_copied, slice_get};
ghost use Rattle.gw_reply.specs.Messages.{reply_text};
ghost use Rattle.gw_reply.specs.declared.reply.TxReply.{TxReply};
ghost use Rattle.gw_reserve.specs.Owned.{AreFreeSlots};
ghost use Rattle.gw_tx.specs.Footprints.{Covers};
ghost use Rattle.gw_tx.specs.LimitedText.{within};
ghost use Rattle.gw_table.specs.Stored.{maps_of};
ghost use Rattle.gw_board.specs.Boards.{AllClosed, requested_in, reply_of, reply_at};
ghost use Rattle.gw_board.specs.Carried.{carried, done, keys_of};
ghost use Rattle.gw_board.specs.Limits.{reply_limit};
ghost use Rattle.gw_board.specs.BoardEntries.{standing_of};

use crate::board::Board;
use crate::board_entry::Stage;
use crate::profile::Profile;
use crate::requested::BurstRequest;
use bumpalo::Bump;
use gw_base::{Code, Items, Mid, NoMemory, TxId};
use gw_reply::{TxReply, write_framed_reply, write_reply};
use gw_table::Draft;
use gw_tx::{LimitedText, transaction_within};
use std::alloc::Global;
use std::mem;

/// How many bytes a message with a reply may have.
const LONGEST_MESSAGE: usize = 16_384;

/// How many bytes the reply itself may have in a message from this mId.
pub(crate) fn reply_limit(mid: &Mid) -> usize
    ensures { result ≡ reply_limit mid.now }
{
    LONGEST_MESSAGE - b"MEGACO/1 \n".len() - mid.as_bytes().len()
}

/// The text of the reply to the transaction of this number, of which this was written within the limit: where it is
/// too long, that of error 533 in its place.
pub(crate) fn text_of_reply(
    alloc: Global,
    mid: &Mid,
    id: TxId,
    limited_text: &LimitedText,
) -> Result<Items<u8>, NoMemory>
    ensures { (reply : TxReply) → limited_text.now ≡ within (reply_limit mid.now) reply → reply.id ≡ id → IfOk result (λ text. text ≡ reply_text mid.now reply) }
{
    match limited_text {
        LimitedText::Whole(actions) => {
            let text = write_framed_reply(alloc, id, actions.as_slice(), mid)?;
            Ok(Items::from(text))
        }
        LimitedText::TooLong => {
            let short = TxReply {
                id,
                result: Err(Code::ReplyTooLong),
            };
            Ok(Items::from(write_reply(alloc, &short, mid)?))
        }
    }
}

/// Executes a request on a draft that covers it, and writes the reply. What is behind the limit of a reply is
/// executed, and not written. Texts are gathered in the block, which is left for the next request, whatever it has.
///
/// # Errors
///
/// Out of memory. Nothing is known of the draft then but its keys.
pub(crate) fn carry_on(
    alloc: Global,
    profile: &Profile,
    requested: &BurstRequest<'_, '_>,
    draft: &mut Draft,
    block: &mut Items<u8>,
) -> Result<Items<u8>, NoMemory>
    requires covered { Covers draft.old (keys_of requested.now draft.old.maps) }
    requires unused { AreFreeSlots draft.old.maps requested.now.owned.slots }
    ensures maps { OnOk result (draft.new.maps ≡ (done profile.now requested.now draft.old.maps).maps) }
    ensures reply { IfOk result (λ text. text ≡ (done profile.now requested.now draft.old.maps).answer) }
    ensures keys { draft.new.keys ≡ draft.old.keys }
{
    let scratch = Bump::new(alloc);
    let request = requested.request.tree(&scratch)?;
    let mid = &profile.mid;
    let limit = reply_limit(mid);
    let room = mem::replace(block, Items::new(alloc));
    let limited_text = transaction_within(
        alloc,
        &profile.rules,
        draft,
        request,
        &requested.owned,
        room,
        limit,
    )?;
    let text = text_of_reply(alloc, mid, request.id, &limited_text)?;
    *block = limited_text.into_block(alloc);
    Ok(text)
}

/// The text that a place is closed with.
fn text_in(stage: &Stage) -> Option<&[u8]>
    ensures { option_copied result ≡ reply_of (standing_of stage.now) }
{
    match stage {
        Stage::Closed(reply) => Some(reply.as_slice()),
        _ => None,
    }
}

impl Board<'_, '_, '_> {
    /// The text of the reply at a place that was closed with its result. Where every place is closed, that is what
    /// executing all requests one after another answers there.
    pub fn reply_at(&self, place: usize) -> Option<&[u8]>
        ensures reply { option_copied result ≡ reply_at (slice_get self.now.places place) }
        ensures all { AllClosed self.now.places → option_copied result ≡ slice_get (carried self.now.profile (requested_in self.now.places) (maps_of self.now.start)).answer place }
    {
        match self.board_entries.get(place) {
            Some(board_entry) => text_in(&board_entry.stage),
            None => None,
        }
    }
}
