//! What stood at keys of tables before they were written: an undo log.

ghost use Rattle.std.specs.Prelude.{◌≡◌, ◌<◌, true, false, [], ◌∷◌, OnOk, vec_len, vec_capacity};
ghost use Rattle.gw_base.specs.Keys.{same_key};
ghost use Rattle.gw_table.specs.UndoLog.{key_written, keys_written, without_write, undone};
ghost use Rattle.gw_table.specs.Stored.{maps_of, is_ready, is_out, AreReady, AreIn, AreAsReady, AreAsOut, AreSweptAmong, KeepReady, NoneIsOut, WereSwept};

use crate::place::Place;
use crate::rows::Guide;
use crate::tables::Tables;
use gw_base::{CtxNum, Key, NoMemory, TermName};
use gw_ctx::Context;
use gw_term::Termination;
use std::marker::Model;

/// From how many writes on one pass over all rows may be less work than look-ups.
const MANY: usize = 64;

/// Whether of so many writes in so many rows all rows are passed over.
fn are_many(writes: usize, rows: usize) -> bool {
    writes >= MANY && writes >= rows / 4
}

/// How much room is made at first: for what few transactions write.
const ROOM_AT_FIRST: usize = 8;

/// How much room is made at once, from the second time on: for the writes of a context that comes or goes with its
/// members.
const ROOM: usize = 64;

/// Makes room for one more write.
///
/// # Errors
///
/// Out of memory.
pub(crate) fn make_room(writes: &mut Vec<Write>) -> Result<(), NoMemory>
    ensures same { writes.new.items ≡ writes.old.items }
    ensures room { OnOk result (vec_len writes.new < vec_capacity writes.new) }
{
    if writes.len() == writes.capacity() {
        let more = if writes.is_empty() {
            ROOM_AT_FIRST
        } else {
            ROOM
        };
        writes.reserve(more)?;
    }
    Ok(())
}

/// What stood at a key before a write of it.
#[derive(Drop)]
pub enum Write {
    /// The termination of a name, or none.
    OfTerm(TermName, Option<Termination>),
    /// The context with a number, or none.
    OfCtx(CtxNum, Option<Context>),
}

impl Write {
    /// Whether it is a write of this key.
    pub(crate) fn is_of(&self, key: &Key) -> bool
        ensures { result ≡ same_key key.now (key_written self.now) }
    {
        match (self, key) {
            (Write::OfTerm(own, _), Key::Term(name)) => own == name,
            (Write::OfCtx(own, _), Key::Ctx(number)) => own.0 == number.0,
            _ => false,
        }
    }
}

/// What stood at keys of tables before they were written, in the order of the writes: a key for each, and of each key
/// what its first write found there. Contracts see the list of the writes.
#[derive(Drop)]
pub struct UndoLog {
    pub(crate) writes: Vec<Write>,
}

impl Model for UndoLog {
    ghost use Rattle.std.specs.Prelude.{List};
    ghost use Rattle.gw_table.specs.declared.undo_log.Write.{Write};

    ghost Value = { List Write };

    ghost view = { λ a. a.writes.items };
}

impl Tables {
    /// Puts back what stood at a key before a write of it.
    fn take_back(&mut self, write: Write)
        requires ready { is_ready self.old (key_written write) ≡ true }
        requires here { is_out self.old (key_written write) ≡ false }
        ensures maps { maps_of self.new ≡ without_write write (maps_of self.old) }
        ensures out { AreAsOut self.old self.new }
        ensures ready { AreAsReady self.old self.new }
    {
        match write {
            Write::OfTerm(name, before) => {
                self.exchange_term(&mut Guide::none(), &name, Place::of(before));
            }
            Write::OfCtx(number, before) => {
                self.exchange_ctx(&mut Guide::none(), number, Place::of(before));
            }
        }
    }

    /// Puts back what stood at each key before its first write. The caller knows that each has a place, and that none
    /// is out. A write takes one look-up, and no memory is taken.
    pub(crate) fn take_all_back(&mut self, mut writes: Vec<Write>)
        requires ready { AreReady (keys_written writes.items) self.old }
        requires here { AreIn (keys_written writes.items) self.old }
        ensures maps { maps_of self.new ≡ undone writes.items (maps_of self.old) }
        ensures out { AreAsOut self.old self.new }
        ensures ready { AreAsReady self.old self.new }
    {
        while let Some(write) = writes.pop() {
            self.take_back(write);
        }
    }

    /// Takes the writes back: each of their keys has its entry then, or none where there was none. The caller knows
    /// that each has a place, and that none is out. A write takes one look-up, and no memory is taken.
    pub fn restore(&mut self, undo_log: UndoLog)
        requires ready { AreReady (keys_written undo_log) self.old }
        requires here { AreIn (keys_written undo_log) self.old }
        ensures maps { maps_of self.new ≡ undone undo_log (maps_of self.old) }
        ensures out { AreAsOut self.old self.new }
        ensures ready { AreAsReady self.old self.new }
    {
        let UndoLog { writes } = undo_log;
        self.take_all_back(writes);
    }

    /// Ends the preparation of the key of a write, if it has no entry. The caller knows that it is not out.
    fn sweep_write(&mut self, write: &Write)
        requires { is_out self.old (key_written write.now) ≡ false }
        ensures { WereSwept (key_written write.now ∷ []) self.old self.new }
    {
        match write {
            Write::OfTerm(name, _) => self.sweep_term(Guide::none(), name),
            Write::OfCtx(number, _) => self.sweep_ctx(Guide::none(), *number),
        }
    }

    /// Ends the preparation of those keys of the writes that have no entry. The caller knows that none of them is out.
    fn sweep_writes(&mut self, writes: &[Write])
        requires { AreIn (keys_written writes.now) self.old }
        ensures { WereSwept (keys_written writes.now) self.old self.new }
    {
        for write in writes {
            self.sweep_write(write);
        }
    }

    /// Ends the preparation of those keys that were written and have no entry. The caller knows that nothing is out. A
    /// key takes one look-up, and one more where its row is freed. Many keys take one pass over all rows instead, which
    /// frees each that has no entry. No memory is taken.
    pub fn sweep_vacated(&mut self, undo_log: &UndoLog)
        requires { NoneIsOut self.old }
        ensures maps { maps_of self.new ≡ maps_of self.old }
        ensures here { NoneIsOut self.new }
        ensures swept { AreSweptAmong (keys_written undo_log.now) self.new }
        ensures fewer { KeepReady self.new self.old }
    {
        let rows = self.terms.len().saturating_add(self.contexts.len());
        if are_many(undo_log.writes.len(), rows) {
            self.sweep();
        } else {
            self.sweep_writes(&undo_log.writes);
        }
    }
}
