//! The table of a burst: its requests, its acknowledgements and its texts that are no message, in order of arrival.

ghost use Rattle.std.specs.Prelude.{◌≡◌, ◌<◌, ◌+◌, ◌^◌, ◌++◌, length, option_copied, OnOk, IfOk};
ghost use Rattle.std.specs.Option.{option_to_list};
ghost use Rattle.gw_engine.specs.Phases.{items_from, items_of, new_for, point_of, turn_for, turns_in, with_class};

use crate::reading::ReadDatagram;
use gw_base::{Code, Items, NoMemory};
use gw_board::RequestRef;
use gw_kept::{BorrowedKey, Class, Point, Ranges, Removal, Turn};
use gw_msg::{Item, Sender};
use std::alloc::Global;

/// A request, and who sent it.
#[derive(Drop)]
pub(crate) struct Sent<'h, 'a> {
    pub(crate) mid: Sender<'a>,
    pub(crate) request: RequestRef<'h, 'a>,
}

/// What was sent.
#[derive(Drop)]
pub(crate) enum Content<'h, 'a> {
    /// A request, which is answered.
    Request(Sent<'h, 'a>),
    /// An acknowledgement, which is not.
    Ack(Removal<'h>),
    /// A text that has this error, which is answered.
    Fault(Code),
}

/// An entry of the table. Its first two columns are filled when the burst is read, the others when it is classified.
#[derive(Drop)]
pub(crate) struct BurstItem<'h, 'a> {
    /// Who sent it, and gets its answer.
    pub(crate) peer: u32,
    pub(crate) content: Content<'h, 'a>,
    /// `Nothing` of what is no request.
    pub(crate) class: Class,
    /// How many new requests come before it. The place of a new one on the board is this number.
    pub(crate) before: usize,
}

impl<'h, 'a: 'h> BurstItem<'h, 'a> {
    /// What it is to the kept replies. An error is nothing to them.
    pub(crate) fn point(&self) -> Point<'h>
        ensures { result ≡ point_of self.now.content }
    {
        match &self.content {
            Content::Request(sent) => {
                Point::Request(BorrowedKey::new(sent.mid.again(), sent.request.id()))
            }
            Content::Ack(removal) => Point::Ack(removal.again()),
            Content::Fault(_) => Point::Nothing,
        }
    }

    /// Fills its last two columns, and answers how many new requests come before the next item.
    pub(crate) fn classify(&mut self, class: Class, before: usize) -> usize
        requires { before + 1 < 2 ^ 64 }
        ensures item { self.new ≡ with_class self.old class before }
        ensures before { result ≡ before + length (option_to_list (new_for self.old.content class)) }
    {
        self.class = class;
        self.before = before;
        match self.new_request() {
            Some(_) => before + 1,
            None => before,
        }
    }

    /// Its request, if that is new.
    pub(crate) fn new_request(&self) -> Option<&Sent<'h, 'a>>
        ensures { option_copied result ≡ new_for self.now.content self.now.class }
    {
        match (&self.content, self.class) {
            (Content::Request(sent), Class::New) => Some(sent),
            _ => None,
        }
    }

    /// What it changes in the kept replies.
    fn turn(&self) -> Option<Turn<'h>>
        ensures { result ≡ turn_for self.now.content self.now.class }
    {
        match (&self.content, self.class) {
            (Content::Request(_), Class::New) => Some(Turn::Keep),
            (Content::Ack(removal), _) => Some(Turn::Forget(removal.again())),
            _ => None,
        }
    }
}

/// The items of one datagram go last. A reply is none.
fn push_items<'h, 'a>(
    items: &mut Items<BurstItem<'h, 'a>>,
    datagram: &'h ReadDatagram<'a>,
) -> Result<(), NoMemory>
    ensures { OnOk result (items.new ≡ items.old ++ items_from datagram.now.peer datagram.now.message) }
{
    let peer = datagram.peer;
    let message = match &datagram.message {
        Ok(message) => message,
        Err(code) => {
            items.push(BurstItem {
                peer,
                content: Content::Fault(*code),
                class: Class::Nothing,
                before: 0,
            })?;
            return Ok(());
        }
    };
    let mid = &message.mid;
    let parts = message.items.as_slice();
    for part in parts {
        let content = match part {
            Item::Request(request) => Content::Request(Sent {
                mid: mid.again(),
                request: RequestRef::new(request),
            }),
            Item::Ack(ranges) => Content::Ack(Removal {
                mid: mid.again(),
                ranges: Ranges::new(ranges.as_slice()),
            }),
            Item::Ignored => continue,
        };
        items.push(BurstItem {
            peer,
            content,
            class: Class::Nothing,
            before: 0,
        })?;
    }
    Ok(())
}

/// How many items a datagram has at most.
fn most_of(datagram: &ReadDatagram<'_>) -> usize {
    match &datagram.message {
        Ok(message) => message.items.len(),
        Err(_) => 1,
    }
}

/// How many items a burst has at most.
fn most_in(messages: &[ReadDatagram<'_>]) -> usize {
    messages.iter().fold(0usize, |sum, datagram| {
        sum.saturating_add(most_of(datagram))
    })
}

/// The table of a burst that was read, before it is classified.
///
/// # Errors
///
/// Out of memory.
pub(crate) fn items_of<'h, 'a>(
    alloc: Global,
    messages: &'h [ReadDatagram<'a>],
) -> Result<Items<BurstItem<'h, 'a>>, NoMemory>
    ensures { IfOk result (λ items. items ≡ items_of messages.now) }
{
    let mut items = Items::from(Vec::with_capacity(alloc, most_in(messages))?);
    for datagram in messages {
        push_items(&mut items, datagram)?;
    }
    Ok(items)
}

/// A change of the kept replies goes last, if an item makes one.
fn push_turn<'h>(turns: &mut Items<Turn<'h>>, item: &BurstItem<'h, '_>) -> Result<(), NoMemory>
    ensures { OnOk result (turns.new ≡ turns.old ++ option_to_list (turn_for item.now.content item.now.class)) }
{
    if let Some(turn) = item.turn() {
        turns.push(turn)?;
    }
    Ok(())
}

/// What a burst changes in the kept replies, in order.
///
/// # Errors
///
/// Out of memory.
pub(crate) fn turns_of<'h>(
    alloc: Global,
    items: &[BurstItem<'h, '_>],
) -> Result<Items<Turn<'h>>, NoMemory>
    ensures { IfOk result (λ turns. turns ≡ turns_in items.now) }
{
    let mut turns = Items::from(Vec::with_capacity(alloc, items.len())?);
    for item in items {
        push_turn(&mut turns, item)?;
    }
    Ok(turns)
}
