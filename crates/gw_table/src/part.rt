//! A part of the tables: entries that were taken out of them.

ghost use Rattle.std.specs.Prelude.{◌≡◌, true, IfOk, option_copied};
ghost use Rattle.gw_base.specs.declared.key.Key.TheVariants.{Term, Ctx};
ghost use Rattle.gw_table.specs.KeyLists.{IsInOrder};
ghost use Rattle.gw_table.specs.Maps.{term, ctx, put_term, put_ctx, names, numbers};
ghost use Rattle.gw_table.specs.Parts.{list_of, holds, IsPart};

use crate::cell::{Cell, find_name, find_number};
use crate::place::Place;
use crate::rows::Guide;
use gw_base::{CtxNum, Key, NoMemory, TermName};
use gw_ctx::Context;
use gw_term::Termination;
use std::alloc::Global;
use std::marker::Model;
use std::mem;

/// A part of the tables: its keys, and the entry of each or none. A look-up takes log k steps in its k keys.
#[derive(Drop)]
pub struct Part {
    pub(crate) keys: Vec<Key>,
    pub(crate) cells: Vec<Cell>,
    // Those of its keys, as in `Keys`.
    pub(crate) guides: Vec<Guide>,
}

impl Model for Part {
    ghost use Rattle.std.specs.Prelude.{◌≡◌, length};
    ghost use Rattle.gw_table.specs.Cells.{celled};
    ghost use Rattle.gw_table.specs.KeyLists.{IsInOrder};
    ghost use Rattle.gw_table.specs.Parts.{Parted, Only, coded_part};
    ghost use Rattle.gw_table.specs.Stored.{maps_of, ArePacked};

    ghost Value = { Parted };

    ghost coded = { coded_part };

    ghost view = { λ a. record { keys = Only a.keys.items; maps = maps_of (celled a.keys.items a.cells.items) } };

    ghost invariant = { λ a. IsInOrder a.keys.items × (length a.cells.items ≡ length a.keys.items) × ArePacked a.keys.items (celled a.keys.items a.cells.items) };
}

impl Part {
    /// An equal part, with entries of its own.
    ///
    /// # Errors
    ///
    /// Out of memory.
    pub fn copy(&self, alloc: Global) -> Result<Part, NoMemory>
        ensures { IfOk result (λ copy. copy ≡ self.now) }
    {
        let keys = Vec::from_slice(alloc, &self.keys)?;
        let guides = Vec::from_slice(alloc, &self.guides)?;
        let mut cells = Vec::with_capacity(alloc, self.cells.len())?;
        for cell in &self.cells {
            cells.push(cell.copy()?)?;
        }
        Ok(Part {
            keys,
            cells,
            guides,
        })
    }

    /// The keys of the part, in order. No entry is at another one.
    pub fn keys(&self) -> &[Key]
        ensures keys { result.now ≡ list_of self.now.keys }
        ensures order { IsInOrder (list_of self.now.keys) }
        ensures entries { IsPart self.now.keys self.now.maps }
    {
        &self.keys
    }

    /// The termination of a name.
    pub fn term(&self, name: &TermName) -> Option<&Termination>
        ensures { option_copied result ≡ term self.now.maps name.now }
    {
        match find_name(&self.keys, name) {
            Some(i) => self.cells[i].term(),
            None => None,
        }
    }

    /// The context with a number.
    pub fn ctx(&self, number: CtxNum) -> Option<&Context>
        ensures { option_copied result ≡ ctx self.now.maps number }
    {
        match find_number(&self.keys, number) {
            Some(i) => self.cells[i].ctx(),
            None => None,
        }
    }

    /// Sets the termination of a name, or none, and answers what stood there. The caller knows that the name is one
    /// of the part's keys.
    pub fn set_term(&mut self, name: &TermName, entry: Option<Termination>) -> Option<Termination>
        requires { holds self.old.keys (Term name.now) ≡ true }
        ensures before { result ≡ term self.old.maps name.now }
        ensures maps { self.new.maps ≡ put_term self.old.maps name.now entry }
        ensures keys { self.new.keys ≡ self.old.keys }
    {
        match find_name(&self.keys, name) {
            Some(i) => mem::replace(&mut self.cells[i], Cell::OfTerm(Place::of(entry)))
                .into_term()
                .into_entry(),
            None => unreachable!(),
        }
    }

    /// Sets the context with a number, or none, and answers what stood there. The caller knows that the number is one
    /// of the part's keys.
    pub fn set_ctx(&mut self, number: CtxNum, entry: Option<Context>) -> Option<Context>
        requires { holds self.old.keys (Ctx number) ≡ true }
        ensures before { result ≡ ctx self.old.maps number }
        ensures maps { self.new.maps ≡ put_ctx self.old.maps number entry }
        ensures keys { self.new.keys ≡ self.old.keys }
    {
        match find_number(&self.keys, number) {
            Some(i) => mem::replace(&mut self.cells[i], Cell::OfCtx(Place::of(entry)))
                .into_ctx()
                .into_entry(),
            None => unreachable!(),
        }
    }

    /// The names of all terminations, in the order of their bytes. Each of the keys takes a look-up.
    ///
    /// # Errors
    ///
    /// Out of memory.
    pub fn names(&self, alloc: Global) -> Result<Vec<TermName>, NoMemory>
        ensures { IfOk result (λ list. list.items ≡ names self.now.maps) }
    {
        let mut names = Vec::with_capacity(alloc, self.keys.len())?;
        for key in &self.keys {
            if let Key::Term(name) = key {
                if self.term(name).is_some() {
                    names.push(*name)?;
                }
            }
        }
        Ok(names)
    }

    /// The numbers of all contexts, rising. Each of the keys takes a look-up.
    ///
    /// # Errors
    ///
    /// Out of memory.
    pub fn numbers(&self, alloc: Global) -> Result<Vec<CtxNum>, NoMemory>
        ensures { IfOk result (λ list. list.items ≡ numbers self.now.maps) }
    {
        let mut numbers = Vec::with_capacity(alloc, self.keys.len())?;
        for key in &self.keys {
            if let Key::Ctx(number) = key {
                if self.ctx(*number).is_some() {
                    numbers.push(*number)?;
                }
            }
        }
        Ok(numbers)
    }
}
