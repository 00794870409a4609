//! What a termination answers to an Audit.

ghost use Rattle.std.specs.Prelude.{◌≡◌, ◌++◌, IfOk, OnOk};
ghost use Rattle.std.specs.Option.{option_copied};
ghost use Rattle.gw_term.specs.Audit.{written_stream, written_media, written_item};
ghost use Rattle.gw_term.specs.Places.{numbers_read, rising};

use crate::held::HeldProperty;
use crate::places::PerStream;
use crate::record::{Stream, Termination};
use gw_base::{Items, NoMemory};
use gw_desc::{AuditItem, AuditItems, item_of};
use gw_reply::{AuditReply, KeptProperty, MediaReply, ReplyPart, StreamReply};
use std::alloc::Global;

/// The properties as a reply has them.
fn reply_properties(
    alloc: Global,
    properties: &[HeldProperty],
) -> Result<Items<KeptProperty>, NoMemory>
    ensures { IfOk result (λ reply. reply ≡ properties.now) }
{
    let mut reply = Items::new(alloc);
    for property in properties {
        reply.push(property.to_reply(alloc)?)?;
    }
    Ok(reply)
}

/// The stream goes last under this number, if it is there.
fn push_stream(
    alloc: Global,
    number: u8,
    stream: Option<&Stream>,
    streams: &mut Items<StreamReply>,
) -> Result<(), NoMemory>
    ensures { OnOk result (streams.new ≡ streams.old ++ written_stream number (option_copied stream.entry)) }
{
    let Some(stream) = stream else {
        return Ok(());
    };
    streams.push(StreamReply {
        number,
        mode: stream.mode,
        properties: reply_properties(alloc, stream.properties.as_slice())?,
        local: stream.local.to_reply(alloc)?,
        remote: stream.remote.to_reply(alloc)?,
    })?;
    Ok(())
}

/// The streams that are there, in rising order.
fn reply_streams(
    alloc: Global,
    from: &PerStream<Option<&Stream>>,
) -> Result<Items<StreamReply>, NoMemory>
    ensures { IfOk result (λ streams. streams ≡ rising written_stream (numbers_read from.now)) }
{
    let mut streams = Items::new(alloc);
    push_stream(alloc, 1, from.first, &mut streams)?;
    push_stream(alloc, 2, from.second, &mut streams)?;
    push_stream(alloc, 3, from.third, &mut streams)?;
    push_stream(alloc, 4, from.fourth, &mut streams)?;
    Ok(streams)
}

fn reply_media(alloc: Global, termination: &Termination) -> Result<MediaReply, NoMemory>
    ensures { IfOk result (λ media. media ≡ written_media termination.now) }
{
    let set = termination.settings.by_place();
    Ok(MediaReply {
        service: termination.service,
        properties: reply_properties(alloc, set.properties)?,
        streams: reply_streams(alloc, &set.streams)?,
    })
}

/// What answers the item: a tail that is not there by its bare word.
fn reply_part(
    alloc: Global,
    termination: &Termination,
    item: AuditItem,
) -> Result<ReplyPart, NoMemory>
    ensures { IfOk result (λ part. part ≡ written_item termination.now item) }
{
    match item {
        AuditItem::Media => Ok(ReplyPart::Media(reply_media(alloc, termination)?)),
        AuditItem::Kept(kind) => match termination.settings.by_place().tails.at(kind) {
            Some(tail) => Ok(ReplyPart::Kept(kind, tail.to_reply(alloc)?)),
            None => Ok(ReplyPart::Bare(item)),
        },
        AuditItem::Statistics | AuditItem::ObservedEvents | AuditItem::Packages => {
            Ok(ReplyPart::Bare(item))
        }
    }
}

impl Termination {
    ghost use Rattle.gw_term.specs.Audit.{audit_parts};

    /// The items that an Audit requests, in the order requested, as the termination is now: of Media its service state,
    /// its properties and its streams; of a descriptor that is kept as sent its tail, or the bare word; of what the
    /// gateway does not gather the bare word. The caller knows that each word is an item, as `check` finds it.
    ///
    /// # Errors
    ///
    /// Out of memory.
    #[tactic(auto, unfolding(crate::specs::Audit::audit_parts))]
    pub fn audit(&self, alloc: Global, words: &AuditItems<'_>) -> Result<AuditReply, NoMemory>
        ensures { IfOk result (λ parts. parts ≡ audit_parts words.now self.now) }
    {
        let mut parts = Items::new(alloc);
        for word in words.as_slice() {
            if let Some(item) = item_of(word.as_bytes()) {
                parts.push(reply_part(alloc, self, item)?)?;
            }
        }
        Ok(parts)
    }
}
