//! Tables that are changed in place, with what stood there before: each write, and the log of the first ones.

ghost use Rattle.std.specs.Prelude.{◌≡◌, ◌<◌, false, length, None, IfSome, OnSome, IfNone, IfOk, OnOk, OnErr};
ghost use Rattle.gw_base.specs.NameLists.{is_in};
ghost use Rattle.gw_base.specs.declared.key.Key.TheVariants.{Term, Ctx};
ghost use Rattle.gw_table.specs.declared.place.Place.TheVariants.{Empty};
ghost use Rattle.gw_table.specs.Found.{IsFound};
ghost use Rattle.gw_table.specs.Joining.{HasJoinedAt, with_member_if};
ghost use Rattle.gw_table.specs.Maps.{term, ctx, put_term, put_ctx, members_of};
ghost use Rattle.gw_table.specs.UndoLog.{keys_written, undone};
ghost use Rattle.gw_table.specs.Parts.{Over, start_of};
ghost use Rattle.gw_table.specs.Stored.{maps_of, put_term_place, put_ctx_place, NoneIsOut, AreReady, KeepReady, NoOtherReady};

use crate::in_use::{set_number, set_slot};
use crate::place::Place;
use crate::row::{Found, Row};
use crate::rows::Guide;
use crate::tables::Tables;
use crate::undo_log::{UndoLog, Write, make_room};
use gw_base::{CtxNum, Key, NoMemory, TermName};
use gw_ctx::Context;
use gw_term::Termination;
use std::alloc::Global;
use std::marker::Model;
use std::snapshot::Snapshot;

impl Tables {
    /// Sets the place of a termination, and answers what was found there, which the caller logs next where the
    /// name is not logged in the list of writes. It is looked for where the guide says first: that is no search where it
    /// is right, and else one, or two where the name has no place. A refused allocation changes nothing.
    pub(crate) fn write_term(
        &mut self,
        guide: Guide,
        name: &TermName,
        place: Place<Termination>,
        writes: &[Write],
    ) -> Result<Found<Termination>, NoMemory>
        ensures found { IfOk result (λ found. IsFound (keys_written writes.now) (Term name.now) (term (maps_of self.old) name.now) found) }
        ensures ok { OnOk result (self.new ≡ put_term_place self.old name.now place) }
        ensures err { OnErr result (self.new ≡ self.old) }
    {
        let stands = place.is_here();
        if let Some(row) = self.terms.get_mut_at(guide, name) {
            let found = row.write(place, writes, &Key::Term(*name));
            set_slot(&mut self.slots, name, stands);
            return Ok(found);
        }
        self.terms.insert(*name, Row::logged_in(writes, place))?;
        set_slot(&mut self.slots, name, stands);
        Ok(Found::Unlogged(None))
    }

    /// Sets the place of a context, as `write_term` does.
    pub(crate) fn write_ctx(
        &mut self,
        guide: Guide,
        number: CtxNum,
        place: Place<Context>,
        writes: &[Write],
    ) -> Result<Found<Context>, NoMemory>
        ensures found { IfOk result (λ found. IsFound (keys_written writes.now) (Ctx number) (ctx (maps_of self.old) number) found) }
        ensures ok { OnOk result (self.new ≡ put_ctx_place self.old number place) }
        ensures err { OnErr result (self.new ≡ self.old) }
    {
        let stands = place.is_here();
        if let Some(row) = self.contexts.get_mut_at(guide, &number.0) {
            let found = row.write(place, writes, &Key::Ctx(number));
            set_number(&mut self.numbers, number, stands);
            return Ok(found);
        }
        self.contexts
            .insert(number.0, Row::logged_in(writes, place))?;
        set_number(&mut self.numbers, number, stands);
        Ok(Found::Unlogged(None))
    }

    /// The name joins the context with a number, in its place, if there is one and the number is logged in the list of
    /// writes. Answers whether it has joined; else, and out of memory, nothing has changed. The caller knows that there
    /// is room.
    pub(crate) fn join(
        &mut self,
        number: CtxNum,
        name: TermName,
        limit: usize,
        writes: &[Write],
    ) -> Result<bool, NoMemory>
        requires new { is_in name (members_of (ctx (maps_of self.old) number)) ≡ false }
        requires room { length (members_of (ctx (maps_of self.old) number)) < limit }
        ensures joined { IfOk result (λ has_joined. HasJoinedAt (keys_written writes.now) number name self.old has_joined self.new) }
        ensures err { OnErr result (self.new ≡ self.old) }
    {
        let Some(row) = self.contexts.get_mut(&number.0) else {
            return Ok(false);
        };
        row.join(name, limit, writes, &Key::Ctx(number))
    }
}

/// Tables that are changed in place, with an undo log: the first write of each key is logged with what stood there,
/// and taking the log back needs no memory. A look-up is one in the tables, and a write takes one. The log has one
/// write for each key, however often it is written.
pub(crate) struct InPlace {
    pub(crate) tables: Tables,
    pub(crate) writes: Vec<Write>,
    before: Snapshot<Tables>,
}

// By hand, so that a function that drops it does so by one call. A derived one would stand in it field by field.
impl Drop for InPlace {
    fn drop(self) {
        let InPlace {
            tables: _,
            writes: _,
            before: _,
        } = self;
    }
}

impl Model for InPlace {
    ghost use Rattle.gw_table.specs.UndoLog.{IsInPlace};
    ghost use Rattle.gw_table.specs.Parts.{Parted, Over, coded_part};
    ghost use Rattle.gw_table.specs.Stored.{maps_of};

    ghost Value = { Parted };

    ghost coded = { coded_part };

    ghost view = { λ a. record { keys = Over a.before.value; maps = maps_of a.tables } };

    ghost invariant = { λ a. IsInPlace a.before.value a.tables a.writes.items };
}

impl InPlace {
    /// Tables, with an undo log that begins here.
    pub(crate) fn new(alloc: Global, tables: Tables) -> InPlace
        requires { NoneIsOut tables }
        ensures { result ≡ record { keys = Over tables; maps = maps_of tables } }
    {
        let before = Snapshot::of(&tables);
        InPlace {
            tables,
            writes: Vec::new(alloc),
            before,
        }
    }

    /// Sets the termination of a name, which is looked for where the guide says first, or none. What stood there is moved
    /// to the log; where it was written before it is dropped, since what stood there first is logged.
    pub(crate) fn set_term(
        &mut self,
        guide: Guide,
        name: &TermName,
        entry: Option<Termination>,
    ) -> Result<(), NoMemory>
        ensures maps { OnOk result (self.new.maps ≡ put_term self.old.maps name.now entry) }
        ensures err { OnErr result (self.new.maps ≡ self.old.maps) }
        ensures keys { self.new.keys ≡ self.old.keys }
    {
        make_room(&mut self.writes)?;
        let found = self
            .tables
            .write_term(guide, name, Place::of(entry), &self.writes)?;
        match found {
            Found::Logged(_) => Ok(()),
            Found::Unlogged(before) => {
                self.writes.push_reserved(Write::OfTerm(*name, before));
                Ok(())
            }
        }
    }

    /// Sets the context with a number, or none, as `set_term` does.
    pub(crate) fn set_ctx(
        &mut self,
        guide: Guide,
        number: CtxNum,
        entry: Option<Context>,
    ) -> Result<(), NoMemory>
        ensures maps { OnOk result (self.new.maps ≡ put_ctx self.old.maps number entry) }
        ensures err { OnErr result (self.new.maps ≡ self.old.maps) }
        ensures keys { self.new.keys ≡ self.old.keys }
    {
        make_room(&mut self.writes)?;
        let found = self
            .tables
            .write_ctx(guide, number, Place::of(entry), &self.writes)?;
        match found {
            Found::Logged(_) => Ok(()),
            Found::Unlogged(before) => {
                self.writes.push_reserved(Write::OfCtx(number, before));
                Ok(())
            }
        }
    }

    /// Takes the context with a number out, to be changed and set again: the context itself where it was written
    /// before, and else a copy, since what stood there is logged. A number without a context is not written.
    pub(crate) fn take_ctx(&mut self, number: CtxNum) -> Result<Option<Context>, NoMemory>
        ensures context { IfOk result (λ context. context ≡ ctx self.old.maps number) }
        ensures maps { OnOk result (self.new.maps ≡ put_ctx self.old.maps number None) }
        ensures err { OnErr result (self.new.maps ≡ self.old.maps) }
        ensures keys { self.new.keys ≡ self.old.keys }
    {
        if self.tables.find_ctx(number).is_none() {
            return Ok(None);
        }
        make_room(&mut self.writes)?;
        let found = self
            .tables
            .write_ctx(Guide::none(), number, Place::Empty, &self.writes)?;
        match found {
            Found::Logged(context) => Ok(context),
            Found::Unlogged(None) => {
                self.writes.push_reserved(Write::OfCtx(number, None));
                Ok(None)
            }
            Found::Unlogged(Some(before)) => {
                let Ok(context) = before.copy() else {
                    self.tables
                        .exchange_ctx(&mut Guide::none(), number, Place::Here(before));
                    return Err(NoMemory);
                };
                self.writes
                    .push_reserved(Write::OfCtx(number, Some(before)));
                Ok(Some(context))
            }
        }
    }

    /// The name joins the context with a number, in its place, if it was written before. Answers whether it has joined;
    /// else nothing has changed.
    pub(crate) fn join(
        &mut self,
        number: CtxNum,
        name: TermName,
        limit: usize,
    ) -> Result<bool, NoMemory>
        requires new { is_in name (members_of (ctx self.old.maps number)) ≡ false }
        requires room { length (members_of (ctx self.old.maps number)) < limit }
        ensures maps { IfOk result (λ has_joined. self.new.maps ≡ with_member_if has_joined number name self.old.maps) }
        ensures keys { self.new.keys ≡ self.old.keys }
    {
        self.tables.join(number, name, limit, &self.writes)
    }

    /// The tables as they are, and what stood there before.
    pub(crate) fn into_tables(self) -> (Tables, UndoLog)
        ensures maps { maps_of result.0 ≡ self.maps }
        ensures here { NoneIsOut result.0 }
        ensures kept { KeepReady (start_of self.keys) result.0 }
        ensures ready { AreReady (keys_written result.1) result.0 }
        ensures alone { NoOtherReady (keys_written result.1) (start_of self.keys) result.0 }
        ensures back { undone result.1 (maps_of result.0) ≡ maps_of (start_of self.keys) }
    {
        let InPlace {
            tables,
            writes,
            before: _,
        } = self;
        (tables, UndoLog { writes })
    }

    /// The tables as they were at the start. It takes no memory.
    pub(crate) fn undone(self) -> Tables
        ensures maps { maps_of result ≡ maps_of (start_of self.keys) }
        ensures here { NoneIsOut result }
        ensures kept { KeepReady (start_of self.keys) result }
    {
        let InPlace {
            mut tables,
            writes,
            before: _,
        } = self;
        tables.take_all_back(writes);
        tables
    }
}
