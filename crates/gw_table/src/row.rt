//! A place in the maps of tables, with a guide to where its key was logged.

ghost use Rattle.std.specs.Prelude.{◌≡◌, ◌<◌, true, false, length, Some, is_some, IfOk, OnOk, OnErr, option_copied};
ghost use Rattle.std.specs.Bool.{OnTrue};
ghost use Rattle.gw_base.specs.Keys.{has};
ghost use Rattle.gw_base.specs.NameLists.{is_in};
ghost use Rattle.gw_ctx.specs.Contexts.{joined};
ghost use Rattle.gw_table.specs.Found.{IsFound};
ghost use Rattle.gw_table.specs.Joining.{HasJoined};
ghost use Rattle.gw_table.specs.Maps.{members_of};
ghost use Rattle.gw_table.specs.UndoLog.{keys_written};
ghost use Rattle.gw_table.specs.Stored.{visible};

use crate::place::Place;
use crate::rows::Guide;
use crate::undo_log::Write;
use gw_base::{Key, NoMemory, TermName};
use gw_ctx::{Context, JoinFault};
use std::marker::Model;
use std::mem;

/// What a write found at its key.
#[derive(Drop)]
pub(crate) enum Found<T> {
    /// What stood there, or none: the key is logged already.
    Logged(Option<T>),
    /// What stood there, or none, which is to be logged.
    Unlogged(Option<T>),
}

/// What stands at a prepared key, and where the key was logged last in a list of writes. That is a guide alone: what
/// it says is looked at in the list, so that one of an earlier list does no harm. So is the row's own number.
#[derive(Drop)]
pub(crate) struct Row<T> {
    place: Place<T>,
    logged: u32,
    number: u32,
}

impl<T> Model for Row<T> {
    ghost use Rattle.gw_table.specs.declared.place.Place.{Place};

    ghost Value = { Place T };

    ghost view = { λ a. a.place };
}

/// Where the next write of a list will stand. A list that is longer than any index logs nothing that is found again.
fn next_of(writes: &[Write]) -> u32 {
    u32::try_from(writes.len()).unwrap_or(u32::MAX)
}

/// Whether this write is one of a key.
fn is_at(writes: &[Write], at: usize, key: &Key) -> bool
    ensures { OnTrue result (has (keys_written writes.now) key.now ≡ true) }
{
    at < writes.len() && writes[at].is_of(key)
}

/// The name joins the context as its last member. The caller knows that there is room.
pub(crate) fn joined(context: &mut Context, name: TermName, limit: usize) -> Result<(), NoMemory>
    requires new { is_in name context.old.members ≡ false }
    requires room { length context.old.members < limit }
    ensures ok { OnOk result (context.new ≡ joined name context.old) }
    ensures err { OnErr result (context.new ≡ context.old) }
{
    match context.join(name, limit) {
        Ok(()) => Ok(()),
        Err(JoinFault::Full) => unreachable!(),
        Err(JoinFault::NoMemory) => Err(NoMemory),
    }
}

impl<T> Row<T> {
    /// A place whose key is not logged.
    pub(crate) fn of(place: Place<T>) -> Row<T>
        ensures { result ≡ place }
    {
        Row {
            place,
            logged: u32::MAX,
            number: u32::MAX,
        }
    }

    /// A place whose key is logged next in a list of writes.
    pub(crate) fn logged_in(writes: &[Write], place: Place<T>) -> Row<T>
        ensures { result ≡ place }
    {
        Row {
            place,
            logged: next_of(writes),
            number: u32::MAX,
        }
    }

    /// The row, with its number.
    pub(crate) fn numbered(self, number: usize) -> Row<T>
        ensures { result ≡ self }
    {
        let Row {
            place,
            logged,
            number: _,
        } = self;
        Row {
            place,
            logged,
            number: u32::try_from(number).unwrap_or(u32::MAX),
        }
    }

    /// Where the row stands.
    pub(crate) fn guide(&self) -> Guide {
        Guide::at(self.number as usize)
    }

    /// The place.
    pub(crate) fn place(&self) -> &Place<T>
        ensures { result.now ≡ self.now }
    {
        &self.place
    }

    /// Whether an entry stands here.
    pub(crate) fn is_here(&self) -> bool
        ensures { result ≡ is_some (visible (Some self.now)) }
    {
        self.place.is_here()
    }

    /// Puts something else here, and answers what stood here.
    pub(crate) fn put(&mut self, new: Place<T>) -> Place<T>
        ensures before { result ≡ self.old }
        ensures after { self.new ≡ new }
    {
        mem::replace(&mut self.place, new)
    }

    /// Whether its key is logged in a list of writes.
    fn is_logged(&self, writes: &[Write], key: &Key) -> bool
        ensures { OnTrue result (has (keys_written writes.now) key.now ≡ true) }
    {
        is_at(writes, self.logged as usize, key)
    }

    /// Puts something else here, and answers what stood here, which is to be logged next where the key is not logged.
    pub(crate) fn write(&mut self, new: Place<T>, writes: &[Write], key: &Key) -> Found<T>
        ensures found { IsFound (keys_written writes.now) key.now (visible (Some self.old)) result }
        ensures after { self.new ≡ new }
    {
        let is_logged = self.is_logged(writes, key);
        let before = self.put(new).into_entry();
        if is_logged {
            return Found::Logged(before);
        }
        self.logged = next_of(writes);
        Found::Unlogged(before)
    }
}

impl Row<Context> {
    /// The name joins the context that stands here, in its place, if the key is logged. Answers whether it has joined;
    /// else, and out of memory, nothing has changed. The caller knows that there is room.
    pub(crate) fn join(
        &mut self,
        name: TermName,
        limit: usize,
        writes: &[Write],
        key: &Key,
    ) -> Result<bool, NoMemory>
        requires new { is_in name (members_of (visible (Some self.old))) ≡ false }
        requires room { length (members_of (visible (Some self.old))) < limit }
        ensures joined { IfOk result (λ has_joined. HasJoined (keys_written writes.now) key.now name self.old has_joined self.new) }
        ensures err { OnErr result (self.new ≡ self.old) }
        ensures still { is_some (visible (Some self.new)) ≡ is_some (visible (Some self.old)) }
    {
        let is_logged = self.is_logged(writes, key);
        match &mut self.place {
            Place::Here(context) if is_logged => {
                joined(context, name, limit)?;
                Ok(true)
            }
            _ => Ok(false),
        }
    }
}

/// The place, if there is one.
pub(crate) fn place_at<T>(row: Option<&Row<T>>) -> Option<&Place<T>>
    ensures { option_copied result ≡ option_copied row.entry }
{
    match row {
        Some(row) => Some(row.place()),
        None => None,
    }
}
