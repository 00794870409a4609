//! Entries that go from tables to a part, and back.

ghost use Rattle.std.specs.Prelude.{◌≡◌, ◌≤◌, Some, [], true, List, length, vec_capacity, IfOk};
ghost use Rattle.std.specs.FinMap as finite;
ghost use Rattle.gw_base.specs.declared.key.Key.{Key};
ghost use Rattle.gw_base.specs.declared.key.Key.TheVariants.{Term, Ctx};
ghost use Rattle.gw_base.specs.Keys.{has};
ghost use Rattle.gw_table.specs.Cells.{celled, cell_from, out_cell, visible_cell, with_cell};
ghost use Rattle.gw_table.specs.KeyLists.{IsInOrder};
ghost use Rattle.gw_table.specs.Parts.{Only, list_of, restricted, cut, overlaid};
ghost use Rattle.gw_table.specs.Stored.{nothing_stored, maps_of, is_ready, put_term_place, put_ctx_place, with_out, AreMoved, AreReady, AreIn, AreOut, AreAsReady, AreAsOut, WentOut, CameBack};

use crate::cell::Cell;
use crate::in_use::{set_number, set_slot};
use crate::keys::Keys;
use crate::part::Part;
use crate::place::Place;
use crate::rows::{Guide, guide_at, set_guide};
use crate::tables::Tables;
use gw_base::{CtxNum, Key, NoMemory, TermName};
use gw_ctx::Context;
use gw_term::Termination;
use std::alloc::Global;
use std::mem;

impl Tables {
    /// Puts something else in the place of a termination, and answers what stood there. The guide is looked at first,
    /// and is then that of the row.
    pub(crate) fn exchange_term(
        &mut self,
        guide: &mut Guide,
        name: &TermName,
        new: Place<Termination>,
    ) -> Place<Termination>
        requires { is_ready self.old (Term name.now) ≡ true }
        ensures before { Some result ≡ finite.get self.old.terms name.now }
        ensures after { self.new ≡ put_term_place self.old name.now new }
    {
        set_slot(&mut self.slots, name, new.is_here());
        match self.terms.get_mut_at(*guide, name) {
            Some(row) => {
                *guide = row.guide();
                row.put(new)
            }
            None => unreachable!(),
        }
    }

    /// Puts something else in the place of a context, and answers what stood there. The guide is looked at first, and
    /// is then that of the row.
    pub(crate) fn exchange_ctx(
        &mut self,
        guide: &mut Guide,
        number: CtxNum,
        new: Place<Context>,
    ) -> Place<Context>
        requires { is_ready self.old (Ctx number) ≡ true }
        ensures before { Some result ≡ finite.get self.old.contexts number.0 }
        ensures after { self.new ≡ put_ctx_place self.old number new }
    {
        set_number(&mut self.numbers, number, new.is_here());
        match self.contexts.get_mut_at(*guide, &number.0) {
            Some(row) => {
                *guide = row.guide();
                row.put(new)
            }
            None => unreachable!(),
        }
    }

    /// Takes what stands at a key out, as its cell.
    fn take_one(&mut self, guide: &mut Guide, key: &Key) -> Cell
        requires { is_ready self.old key.now ≡ true }
        ensures left { self.new ≡ with_out self.old key.now }
        ensures full { result ≡ cell_from self.old key.now }
    {
        match key {
            Key::Term(name) => Cell::OfTerm(self.exchange_term(guide, name, Place::Out)),
            Key::Ctx(number) => Cell::OfCtx(self.exchange_ctx(guide, *number, Place::Out)),
            Key::Whole => Cell::OfWhole,
        }
    }

    /// Takes what stands at each of the keys out, as a cell, and sets its guide. The caller knows that there is room
    /// for the cells.
    fn take_each(&mut self, keys: &[Key], cells: &mut Vec<Cell>, guides: &mut [Guide])
        requires order { IsInOrder keys.now }
        requires empty { cells.old.items ≡ [] }
        requires room { length keys.now ≤ vec_capacity cells.old }
        requires ready { AreReady keys.now self.old }
        ensures moved { AreMoved keys.now self.old nothing_stored self.new (celled keys.now cells.new.items) }
        ensures as_many { length cells.new.items ≡ length keys.now }
    {
        for (i, key) in keys.iter().enumerate() {
            let mut guide = guide_at(guides, i);
            cells.push_reserved(self.take_one(&mut guide, key));
            set_guide(guides, i, guide);
        }
    }

    /// Puts what is in the cell of a key there.
    fn put_one(&mut self, mut guide: Guide, key: &Key, cell: &mut Cell)
        requires { is_ready self.old key.now ≡ true }
        ensures left { cell.new ≡ out_cell key.now cell.old }
        ensures full { self.new ≡ with_cell key.now cell.old self.old }
    {
        match key {
            Key::Term(name) => {
                let place = mem::replace(cell, Cell::OfTerm(Place::Out)).into_term();
                self.exchange_term(&mut guide, name, place);
            }
            Key::Ctx(number) => {
                let place = mem::replace(cell, Cell::OfCtx(Place::Out)).into_ctx();
                self.exchange_ctx(&mut guide, *number, place);
            }
            Key::Whole => {}
        }
    }

    /// Puts what is in the cell of each of the keys there.
    fn put_each(&mut self, keys: &[Key], cells: &mut [Cell], guides: &[Guide])
        requires order { IsInOrder keys.now }
        requires as_many { length cells.old ≡ length keys.now }
        requires ready { AreReady keys.now self.old }
        ensures { AreMoved keys.now (celled keys.now cells.old) self.old (celled keys.now cells.new) self.new }
    {
        for (i, key) in keys.iter().enumerate() {
            self.put_one(guide_at(guides, i), key, &mut cells[i]);
        }
    }

    /// Takes the entries of the keys out, as a part. The caller knows that each key is prepared and none is out. Of
    /// `Whole` nothing is required but that every entry's key is listed, and then the part has every entry. A key takes
    /// one look-up, or none where its guide is right.
    pub fn take_out(&mut self, keys: Keys) -> Part
        requires ready { AreReady keys self.old }
        requires here { AreIn keys self.old }
        ensures keys { result.keys ≡ Only keys }
        ensures part { result.maps ≡ restricted keys (maps_of self.old) }
        ensures maps { maps_of self.new ≡ cut keys (maps_of self.old) }
        ensures out { WentOut keys self.old self.new }
        ensures ready { AreAsReady self.old self.new }
    {
        let Keys {
            list,
            mut cells,
            mut guides,
        } = keys;
        self.take_each(&list, &mut cells, &mut guides);
        Part {
            keys: list,
            cells,
            guides,
        }
    }

    /// Where the row of a key is, or as of none.
    fn guide_of(&self, key: &Key) -> Guide {
        let found = match key {
            Key::Term(name) => self.terms.find(name),
            Key::Ctx(number) => self.contexts.find(&number.0),
            Key::Whole => None,
        };
        found.unwrap_or(Guide::none())
    }

    /// A copy of what stands at a key, as its cell. One that is out is none.
    fn copied_cell(&self, guide: Guide, key: &Key) -> Result<Cell, NoMemory>
        ensures { IfOk result (λ cell. cell ≡ visible_cell (maps_of self.now) key.now) }
    {
        match key {
            Key::Term(name) => {
                let entry = self.find_term_at(guide, name);
                Ok(Cell::OfTerm(Place::of(entry.cloned()?)))
            }
            Key::Ctx(number) => {
                let entry = self.find_ctx_at(guide, *number);
                Ok(Cell::OfCtx(Place::of(entry.cloned()?)))
            }
            Key::Whole => Ok(Cell::OfWhole),
        }
    }

    /// A part with copies of the entries at the keys, which the caller knows to be in order, each once. The tables keep
    /// theirs. A key takes one look-up.
    ///
    /// # Errors
    ///
    /// Out of memory.
    pub fn copied(&self, alloc: Global, keys: Vec<Key>) -> Result<Part, NoMemory>
        requires { IsInOrder keys.items }
        ensures keys { IfOk result (λ part. part.keys ≡ Only keys.items) }
        ensures maps { IfOk result (λ part. part.maps ≡ restricted keys.items (maps_of self.now)) }
    {
        let mut guides = Vec::with_capacity(alloc, keys.len())?;
        let mut cells = Vec::with_capacity(alloc, keys.len())?;
        for key in &keys {
            let guide = self.guide_of(key);
            guides.push(guide)?;
            cells.push(self.copied_cell(guide, key)?)?;
        }
        Ok(Part {
            keys,
            cells,
            guides,
        })
    }

    /// Lays the entries of a part over those that are here.
    fn lay(&mut self, part: Part)
        requires { AreReady (list_of part.keys) self.old }
        ensures maps { maps_of self.new ≡ overlaid (list_of part.keys) part.maps (maps_of self.old) }
        ensures out { CameBack (list_of part.keys) self.old self.new }
        ensures ready { AreAsReady self.old self.new }
    {
        let Part {
            keys,
            mut cells,
            guides,
        } = part;
        self.put_each(&keys, &mut cells, &guides);
    }

    /// Puts the entries of a part back: each of its keys has the part's entry then, or none where the part has none.
    /// The caller knows that its keys are out. A key takes one look-up, or none where its guide is right.
    pub fn put_back(&mut self, part: Part)
        requires { AreOut (list_of part.keys) self.old }
        ensures maps { maps_of self.new ≡ overlaid (list_of part.keys) part.maps (maps_of self.old) }
        ensures out { CameBack (list_of part.keys) self.old self.new }
        ensures ready { AreAsReady self.old self.new }
    {
        self.lay(part);
    }

    /// Puts the entries of a part in place of those that are here: each of its keys has the part's entry then, or
    /// none where the part has none. The caller knows that its keys are prepared and none is out. A key takes one
    /// look-up, or none where its guide is right.
    pub fn replace(&mut self, part: Part)
        requires ready { AreReady (list_of part.keys) self.old }
        requires here { AreIn (list_of part.keys) self.old }
        ensures maps { maps_of self.new ≡ overlaid (list_of part.keys) part.maps (maps_of self.old) }
        ensures out { AreAsOut self.old self.new }
        ensures ready { AreAsReady self.old self.new }
    {
        self.lay(part);
    }
}
