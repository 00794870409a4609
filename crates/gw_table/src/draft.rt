//! What commands work on: whole tables or a part, in place.

ghost use Rattle.std.specs.Prelude.{◌≡◌, ◌<◌, None, true, false, length, IfOk, OnOk, OnErr, option_copied};
ghost use Rattle.gw_base.specs.declared.key.Key.{Key as AKey};
ghost use Rattle.gw_base.specs.declared.key.Key.TheVariants.{Term, Ctx};
ghost use Rattle.gw_base.specs.NameLists.{is_in};
ghost use Rattle.gw_table.specs.Cells.{put_cell};
ghost use Rattle.gw_table.specs.Joining.{with_member_if};
ghost use Rattle.gw_table.specs.Maps.{term, ctx, put_term, put_ctx, names, numbers, members_of};
ghost use Rattle.gw_table.specs.Members.{put_service, with_member, without_member};
ghost use Rattle.gw_table.specs.UndoLog.{keys_written, undone};
ghost use Rattle.gw_table.specs.Parts.{Over, Only, list_of, start_of, holds, Holds, overlaid};
ghost use Rattle.gw_table.specs.Stored.{maps_of, NoneIsOut, AreReady, KeepReady, NoOtherReady};

use crate::cell::Cell;
use crate::free::Target;
use crate::in_place::InPlace;
use crate::part::Part;
use crate::row::joined;
use crate::rows::{Guide, guide_at};
use crate::tables::Tables;
use crate::undo_log::UndoLog;
use gw_base::{CtxNum, Key, NoMemory, Service, TermName};
use gw_ctx::Context;
use gw_term::Termination;
use std::alloc::Global;
use std::marker::Model;
use std::mem;

/// What a draft works on.
#[derive(Drop)]
pub(crate) enum Backing {
    /// A part.
    OfPart(Part),
    /// Whole tables.
    OfTables(InPlace),
}

/// Whole tables that are changed in place, with an undo log; or a part that is changed in place, without one. What is
/// read at a key is what was written there last. A context that is taken out of whole tables is a copy where what stood
/// there is logged; what is set is moved.
pub struct Draft {
    pub(crate) backing: Backing,
}

// By hand, so that a function that drops a draft does so by one call. A derived one would stand in it field by field.
impl Drop for Draft {
    fn drop(self) {
        let Draft { backing: _ } = self;
    }
}

impl Model for Draft {
    ghost use Rattle.gw_table.specs.Backings.{backing_part};
    ghost use Rattle.gw_table.specs.Parts.{Parted, coded_part};

    ghost Value = { Parted };

    ghost coded = { coded_part };

    ghost view = { λ a. backing_part a.backing };
}

impl Draft {
    /// Whole tables, with an undo log that begins here. The caller knows that nothing is out. It takes no memory.
    pub fn of_tables(alloc: Global, tables: Tables) -> Draft
        requires { NoneIsOut tables }
        ensures { result ≡ record { keys = Over tables; maps = maps_of tables } }
    {
        Draft {
            backing: Backing::OfTables(InPlace::new(alloc, tables)),
        }
    }

    /// A part. It takes no memory.
    pub fn of_part(part: Part) -> Draft
        ensures { result ≡ part }
    {
        Draft {
            backing: Backing::OfPart(part),
        }
    }

    /// The termination of a name.
    pub fn term(&self, name: &TermName) -> Option<&Termination>
        ensures { option_copied result ≡ term self.now.maps name.now }
    {
        match &self.backing {
            Backing::OfPart(part) => part.term(name),
            Backing::OfTables(backing) => backing.tables.find_term(name),
        }
    }

    /// Looks for a termination that a command is for, so that what follows does not search whole tables for it again,
    /// until another is sought or written. Nothing changes.
    pub fn seek_term(&mut self, target: &Target)
        ensures { self.new ≡ self.old }
    {
        if let Backing::OfTables(backing) = &mut self.backing {
            backing.tables.seek_term(target.guide(), target.name());
        }
    }

    /// Looks for the context that an action is for, as `seek_term` does for a termination.
    pub fn seek_ctx(&mut self, number: CtxNum)
        ensures { self.new ≡ self.old }
    {
        if let Backing::OfTables(backing) = &mut self.backing {
            backing.tables.seek_ctx(number);
        }
    }

    /// The context with a number.
    pub fn ctx(&self, number: CtxNum) -> Option<&Context>
        ensures { option_copied result ≡ ctx self.now.maps number }
    {
        match &self.backing {
            Backing::OfPart(part) => part.ctx(number),
            Backing::OfTables(backing) => backing.tables.find_ctx(number),
        }
    }

    /// Sets the termination of a name, or none. The caller knows that the name is one of the draft's keys.
    ///
    /// # Errors
    ///
    /// Out of memory. The draft is as it was.
    pub fn set_term(&mut self, name: TermName, entry: Option<Termination>) -> Result<(), NoMemory>
        requires { holds self.old.keys (Term name) ≡ true }
        ensures maps { OnOk result (self.new.maps ≡ put_term self.old.maps name entry) }
        ensures err { OnErr result (self.new.maps ≡ self.old.maps) }
        ensures keys { self.new.keys ≡ self.old.keys }
    {
        self.set_term_at(Guide::none(), &name, entry)
    }

    /// Sets the context with a number, or none. The caller knows that the number is one of the draft's keys.
    ///
    /// # Errors
    ///
    /// Out of memory. The draft is as it was.
    pub fn set_ctx(&mut self, number: CtxNum, entry: Option<Context>) -> Result<(), NoMemory>
        requires { holds self.old.keys (Ctx number) ≡ true }
        ensures maps { OnOk result (self.new.maps ≡ put_ctx self.old.maps number entry) }
        ensures err { OnErr result (self.new.maps ≡ self.old.maps) }
        ensures keys { self.new.keys ≡ self.old.keys }
    {
        self.set_ctx_at(Guide::none(), number, entry)
    }

    /// Takes the context with a number out of the draft, to be changed and set again: a copy, where what stood there
    /// is logged. The caller knows that the number is one of the draft's keys. Of a part it takes no memory.
    ///
    /// # Errors
    ///
    /// Out of memory. The draft is as it was.
    pub fn take_ctx(&mut self, number: CtxNum) -> Result<Option<Context>, NoMemory>
        requires { holds self.old.keys (Ctx number) ≡ true }
        ensures context { IfOk result (λ context. context ≡ ctx self.old.maps number) }
        ensures maps { OnOk result (self.new.maps ≡ put_ctx self.old.maps number None) }
        ensures err { OnErr result (self.new.maps ≡ self.old.maps) }
        ensures keys { self.new.keys ≡ self.old.keys }
    {
        match &mut self.backing {
            Backing::OfPart(part) => Ok(part.set_ctx(number, None)),
            Backing::OfTables(backing) => backing.take_ctx(number),
        }
    }

    /// The termination of a name has another service state, if there is one: a copy of it is set. The caller knows that
    /// the name is one of the draft's keys.
    ///
    /// # Errors
    ///
    /// Out of memory. Nothing is known of the draft then but its keys.
    pub fn set_service(&mut self, name: &TermName, service: Service) -> Result<(), NoMemory>
        requires { holds self.old.keys (Term name.now) ≡ true }
        ensures maps { OnOk result (self.new.maps ≡ put_service service name.now self.old.maps (term self.old.maps name.now)) }
        ensures keys { self.new.keys ≡ self.old.keys }
    {
        let Some(termination) = self.term(name) else {
            return Ok(());
        };
        let mut termination = termination.clone()?;
        termination.set_service(service);
        self.set_term(*name, Some(termination))
    }

    /// The name joins the context in its place, if the draft is of whole tables in which it was written before. Answers
    /// whether it has joined; else nothing has changed.
    fn join_in_place(
        &mut self,
        number: CtxNum,
        name: TermName,
        limit: usize,
    ) -> Result<bool, NoMemory>
        requires new { is_in name (members_of (ctx self.old.maps number)) ≡ false }
        requires room { length (members_of (ctx self.old.maps number)) < limit }
        ensures maps { IfOk result (λ has_joined. self.new.maps ≡ with_member_if has_joined number name self.old.maps) }
        ensures keys { self.new.keys ≡ self.old.keys }
    {
        match &mut self.backing {
            Backing::OfPart(_) => Ok(false),
            Backing::OfTables(backing) => backing.join(number, name, limit),
        }
    }

    /// The name joins the context as its last member. A context comes into being with its first. The caller knows
    /// that the number is one of the draft's keys, that the name is no member, and that there are fewer members than
    /// `limit`. It takes the context out and sets it again, unless it was written before in whole tables.
    ///
    /// # Errors
    ///
    /// Out of memory. Nothing is known of the draft then but its keys.
    pub fn join(
        &mut self,
        alloc: Global,
        number: CtxNum,
        name: TermName,
        limit: usize,
    ) -> Result<(), NoMemory>
        requires new { is_in name (members_of (ctx self.old.maps number)) ≡ false }
        requires room { length (members_of (ctx self.old.maps number)) < limit }
        requires key { holds self.old.keys (Ctx number) ≡ true }
        ensures maps { OnOk result (self.new.maps ≡ with_member number name self.old.maps) }
        ensures keys { self.new.keys ≡ self.old.keys }
    {
        if self.join_in_place(number, name, limit)? {
            return Ok(());
        }
        let mut context = match self.take_ctx(number)? {
            Some(context) => context,
            None => Context::new(alloc),
        };
        joined(&mut context, name, limit)?;
        self.set_ctx(number, Some(context))
    }

    /// The name leaves the context, which ends if it is empty. The caller knows that the number is one of the draft's
    /// keys. It takes the context out, and sets it again where a member is left.
    ///
    /// # Errors
    ///
    /// Out of memory. Nothing is known of the draft then but its keys.
    pub fn leave(&mut self, number: CtxNum, name: &TermName) -> Result<(), NoMemory>
        requires { holds self.old.keys (Ctx number) ≡ true }
        ensures maps { OnOk result (self.new.maps ≡ without_member number name.now self.old.maps) }
        ensures keys { self.new.keys ≡ self.old.keys }
    {
        let Some(mut context) = self.take_ctx(number)? else {
            return Ok(());
        };
        context.leave(name);
        if context.members().is_empty() {
            return Ok(());
        }
        self.set_ctx(number, Some(context))
    }

    /// The names of all terminations that the draft shows, in the order of their bytes. The work is one pass over the
    /// tables, or a look-up for each key of the part.
    ///
    /// # Errors
    ///
    /// Out of memory.
    pub fn names(&self, alloc: Global) -> Result<Vec<TermName>, NoMemory>
        ensures { IfOk result (λ list. list.items ≡ names self.now.maps) }
    {
        match &self.backing {
            Backing::OfPart(part) => part.names(alloc),
            Backing::OfTables(backing) => backing.tables.names(alloc),
        }
    }

    /// The numbers of all contexts that the draft shows, rising. The work is one pass over the tables, or a look-up
    /// for each key of the part.
    ///
    /// # Errors
    ///
    /// Out of memory.
    pub fn numbers(&self, alloc: Global) -> Result<Vec<CtxNum>, NoMemory>
        ensures { IfOk result (λ list. list.items ≡ numbers self.now.maps) }
    {
        match &self.backing {
            Backing::OfPart(part) => part.numbers(alloc),
            Backing::OfTables(backing) => backing.tables.numbers(alloc),
        }
    }

    /// Whether it is of whole tables, which have each key: a member of a context that it shows then has its entry in
    /// it. Of a part that is never said.
    pub fn has_every_key(&self) -> bool
        ensures { result ≡ true → (k : AKey) → holds self.now.keys k ≡ true }
    {
        match &self.backing {
            Backing::OfTables(backing) => {
                // No effect at run time. The proof reads here that whole tables have each key.
                let _ = &backing.tables;
                true
            }
            Backing::OfPart(_) => false,
        }
    }

    /// The tables that a draft of whole tables changes, as they are.
    pub fn tables(&self) -> &Tables
        requires { self.now.keys ≡ Over (start_of self.now.keys) }
        ensures maps { maps_of result.now ≡ self.now.maps }
    {
        match &self.backing {
            Backing::OfTables(backing) => &backing.tables,
            Backing::OfPart(part) => {
                // No effect at run time. The proof reads here that it lists its keys.
                let _ = &part.keys;
                unreachable!()
            }
        }
    }

    /// Sets the termination of a name, which whole tables look for where the guide says first, as `set_term` does.
    fn set_term_at(
        &mut self,
        guide: Guide,
        name: &TermName,
        entry: Option<Termination>,
    ) -> Result<(), NoMemory>
        requires { holds self.old.keys (Term name.now) ≡ true }
        ensures maps { OnOk result (self.new.maps ≡ put_term self.old.maps name.now entry) }
        ensures err { OnErr result (self.new.maps ≡ self.old.maps) }
        ensures keys { self.new.keys ≡ self.old.keys }
    {
        match &mut self.backing {
            Backing::OfPart(part) => {
                part.set_term(name, entry);
                Ok(())
            }
            Backing::OfTables(backing) => backing.set_term(guide, name, entry),
        }
    }

    /// Sets the context with a number, which whole tables look for where the guide says first, as `set_ctx` does.
    fn set_ctx_at(
        &mut self,
        guide: Guide,
        number: CtxNum,
        entry: Option<Context>,
    ) -> Result<(), NoMemory>
        requires { holds self.old.keys (Ctx number) ≡ true }
        ensures maps { OnOk result (self.new.maps ≡ put_ctx self.old.maps number entry) }
        ensures err { OnErr result (self.new.maps ≡ self.old.maps) }
        ensures keys { self.new.keys ≡ self.old.keys }
    {
        match &mut self.backing {
            Backing::OfPart(part) => {
                part.set_ctx(number, entry);
                Ok(())
            }
            Backing::OfTables(backing) => backing.set_ctx(guide, number, entry),
        }
    }

    /// Sets what is in the cell of a key, which whole tables look for where the guide says first, or none.
    fn set_cell(&mut self, guide: Guide, key: &Key, cell: Cell) -> Result<(), NoMemory>
        requires { holds self.old.keys key.now ≡ true }
        ensures maps { OnOk result (self.new.maps ≡ put_cell key.now cell self.old.maps) }
        ensures keys { self.new.keys ≡ self.old.keys }
    {
        match key {
            Key::Term(name) => self.set_term_at(guide, name, cell.into_term().into_entry()),
            Key::Ctx(number) => self.set_ctx_at(guide, *number, cell.into_ctx().into_entry()),
            Key::Whole => Ok(()),
        }
    }

    /// Lays the entries of a part over those of the draft: each of the part's keys has the part's entry then, or none
    /// where the part has none. The caller knows that they are among the draft's keys. A key takes one write, and no
    /// search where its guide is right.
    ///
    /// # Errors
    ///
    /// Out of memory. Nothing is known of the draft then but its keys.
    pub fn lay(&mut self, part: Part) -> Result<(), NoMemory>
        requires { Holds self.old.keys (list_of part.keys) }
        ensures maps { OnOk result (self.new.maps ≡ overlaid (list_of part.keys) part.maps self.old.maps) }
        ensures keys { self.new.keys ≡ self.old.keys }
    {
        let Part {
            keys,
            mut cells,
            guides,
        } = part;
        for (i, key) in keys.iter().enumerate() {
            let cell = mem::replace(&mut cells[i], Cell::OfWhole);
            self.set_cell(guide_at(&guides, i), key, cell)?;
        }
        Ok(())
    }

    /// A draft of whole tables as the tables that it left, with what stood there before: the writes, taken back, give
    /// the tables in which the changes began. What is prepared was so then, or was written. It takes no memory.
    pub fn into_tables(self) -> (Tables, UndoLog)
        requires { self.keys ≡ Over (start_of self.keys) }
        ensures maps { maps_of result.0 ≡ self.maps }
        ensures here { NoneIsOut result.0 }
        ensures kept { KeepReady (start_of self.keys) result.0 }
        ensures ready { AreReady (keys_written result.1) result.0 }
        ensures alone { NoOtherReady (keys_written result.1) (start_of self.keys) result.0 }
        ensures back { undone result.1 (maps_of result.0) ≡ maps_of (start_of self.keys) }
    {
        let Draft { backing } = self;
        match backing {
            Backing::OfTables(backing) => backing.into_tables(),
            Backing::OfPart(part) => {
                // No effect at run time. The proof reads here that it lists its keys.
                let _ = &part.keys;
                unreachable!()
            }
        }
    }

    /// A draft of whole tables as the tables in which the changes began, whatever was written since. It takes no
    /// memory.
    pub fn undone(self) -> Tables
        requires { self.keys ≡ Over (start_of self.keys) }
        ensures maps { maps_of result ≡ maps_of (start_of self.keys) }
        ensures here { NoneIsOut result }
        ensures kept { KeepReady (start_of self.keys) result }
    {
        let Draft { backing } = self;
        match backing {
            Backing::OfTables(backing) => backing.undone(),
            Backing::OfPart(part) => {
                // No effect at run time. The proof reads here that it lists its keys.
                let _ = &part.keys;
                unreachable!()
            }
        }
    }

    /// A draft of a part as the part that it left. It takes no memory.
    pub fn into_part(self) -> Part
        requires { self.keys ≡ Only (list_of self.keys) }
        ensures { result ≡ self }
    {
        let Draft { backing } = self;
        match backing {
            Backing::OfPart(part) => part,
            Backing::OfTables(backing) => {
                // No effect at run time. The proof reads here that its keys are those of whole tables.
                let _ = &backing.tables;
                unreachable!()
            }
        }
    }
}
