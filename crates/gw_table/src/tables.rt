//! The gateway's tables: two ordered maps with a place for each prepared key, which contracts see as finite maps.

ghost use Rattle.std.specs.Prelude.{◌≡◌, Some, IfOk, OnOk, option_copied};
ghost use Rattle.gw_term.specs.Record.{provisioned};
ghost use Rattle.gw_table.specs.Maps.{term, ctx, put_term, names, numbers, new_maps};
ghost use Rattle.gw_table.specs.Provided.{put_missing, AreAmong};
ghost use Rattle.gw_table.specs.Stored.{maps_of, nothing_stored, AreSwept, NoneIsOut};

use crate::place::{Place, entry_at};
use crate::reserved::SLOTS;
use crate::row::{Row, place_at};
use crate::rows::{Guide, Rows};
use gw_base::{Config, CtxNum, NoMemory, TermName};
use gw_bits::BitSet;
use gw_ctx::Context;
use gw_term::Termination;
use std::alloc::Global;
use std::marker::Model;

/// The numbers below this one have a bit: all numbers of contexts.
const NUMBERS: u32 = 65536;

/// Terminations by name, and contexts by number, each by its handle in a place. A look-up takes log n steps. Numbers
/// and slots of which an entry stands have a bit that is set, for the search for free ones.
pub struct Tables {
    pub(crate) terms: Rows<TermName, Termination>,
    pub(crate) contexts: Rows<u32, Context>,
    // Where a bit is set an entry stands. Where it is not one may stand too.
    pub(crate) numbers: BitSet,
    pub(crate) slots: BitSet,
}

// By hand, so that a function that drops tables does so by one call. A derived one would stand in it field by field.
impl Drop for Tables {
    fn drop(self) {
        let Tables {
            terms: _,
            contexts: _,
            numbers: _,
            slots: _,
        } = self;
    }
}

impl Model for Tables {
    ghost use Rattle.std.specs.FinMap as finite;
    ghost use Rattle.gw_table.specs.Marking.{AreSet};
    ghost use Rattle.gw_table.specs.Stored.{Stored, coded_stored, stored, maps_of};

    ghost Value = { Stored };

    ghost coded = { coded_stored };

    ghost view = { λ a. record { terms = finite.from_entries a.terms.entries; contexts = finite.from_entries a.contexts.entries } };

    ghost invariant = { λ a. AreSet a.numbers a.slots (maps_of (stored a.terms.entries a.contexts.entries)) };
}

impl Tables {
    /// Tables without places, which take no memory. They set no bits.
    pub fn new(alloc: Global) -> Self
        ensures { result ≡ nothing_stored }
    {
        Tables {
            terms: Rows::new(alloc),
            contexts: Rows::new(alloc),
            numbers: BitSet::new(alloc),
            slots: BitSet::new(alloc),
        }
    }

    /// Tables without places, which set the bits of what comes to stand in them, with room for so many terminations.
    fn marking(alloc: Global, terms: usize) -> Result<Tables, NoMemory>
        ensures { IfOk result (λ tables. tables ≡ nothing_stored) }
    {
        Ok(Tables {
            terms: Rows::with_room(alloc, terms)?,
            contexts: Rows::new(alloc),
            numbers: BitSet::with_room(alloc, NUMBERS)?,
            slots: BitSet::with_room(alloc, u32::from(SLOTS))?,
        })
    }

    /// A termination in the null context under the name.
    fn provide(&mut self, name: TermName) -> Result<(), NoMemory>
        ensures maps { OnOk result (maps_of self.new ≡ put_term (maps_of self.old) name (Some provisioned)) }
        ensures out { OnOk result (NoneIsOut self.old → NoneIsOut self.new) }
        ensures swept { OnOk result (AreSwept self.old → AreSwept self.new) }
    {
        let new = Place::Here(Termination::provisioned());
        self.terms.insert(name, Row::of(new))?;
        Ok(())
    }

    /// The termination of a name, unless it is there.
    fn provide_missing(&mut self, name: &TermName) -> Result<(), NoMemory>
        ensures maps { OnOk result (maps_of self.new ≡ put_missing name.now (maps_of self.old) (term (maps_of self.old) name.now)) }
        ensures out { OnOk result (NoneIsOut self.old → NoneIsOut self.new) }
        ensures swept { OnOk result (AreSwept self.old → AreSwept self.new) }
    {
        match self.find_term(name) {
            Some(_) => Ok(()),
            None => self.provide(*name),
        }
    }

    /// The terminations of three names of each five.
    fn provide_most(&mut self, names: &[TermName]) -> Result<(), NoMemory>
        requires among { AreAmong names.now (maps_of self.old) }
        requires out { NoneIsOut self.old }
        requires swept { AreSwept self.old }
        ensures among { OnOk result (AreAmong names.now (maps_of self.new)) }
        ensures out { OnOk result (NoneIsOut self.new) }
        ensures swept { OnOk result (AreSwept self.new) }
    {
        for (i, name) in names.iter().enumerate() {
            if i % 5 < 3 {
                self.provide(*name)?;
            }
        }
        Ok(())
    }

    /// The terminations of the names that have none.
    fn provide_others(&mut self, names: &[TermName]) -> Result<(), NoMemory>
        requires among { AreAmong names.now (maps_of self.old) }
        requires out { NoneIsOut self.old }
        requires swept { AreSwept self.old }
        ensures maps { OnOk result (maps_of self.new ≡ new_maps names.now) }
        ensures out { OnOk result (NoneIsOut self.new) }
        ensures swept { OnOk result (AreSwept self.new) }
    {
        for name in names {
            self.provide_missing(name)?;
        }
        Ok(())
    }

    /// The configured terminations, all in the null context, and no contexts. A name that is given twice is there once.
    /// No other key is prepared. The work is n log n in the names. Names that come in order are put in in two turns, so
    /// that the second fills the nodes that the first left half full. There is room for the mark of each number and of
    /// each slot, 8,704 bytes.
    ///
    /// # Errors
    ///
    /// Out of memory.
    pub fn provision(alloc: Global, config: &Config) -> Result<Tables, NoMemory>
        ensures maps { IfOk result (λ tables. maps_of tables ≡ new_maps config.now.terms) }
        ensures out { IfOk result NoneIsOut }
        ensures swept { IfOk result AreSwept }
    {
        let names = config.terms.as_slice();
        let mut tables = Tables::marking(alloc, names.len())?;
        tables.provide_most(names)?;
        tables.provide_others(names)?;
        Ok(tables)
    }

    /// The termination of a name. One that is out is not found.
    pub fn find_term(&self, name: &TermName) -> Option<&Termination>
        ensures { option_copied result ≡ term (maps_of self.now) name.now }
    {
        self.find_term_at(Guide::none(), name)
    }

    /// The termination of a name, which is looked for where the guide says first. One that is out is not found.
    pub(crate) fn find_term_at(&self, guide: Guide, name: &TermName) -> Option<&Termination>
        ensures { option_copied result ≡ term (maps_of self.now) name.now }
    {
        entry_at(place_at(self.terms.get_at(guide, name)))
    }

    /// Looks for the termination of a name, where the guide says first, so that it is not searched for again.
    pub(crate) fn seek_term(&mut self, guide: Guide, name: &TermName)
        ensures { self.new ≡ self.old }
    {
        self.terms.seek(guide, name);
    }

    /// Looks for the context with a number, so that it is not searched for again.
    pub(crate) fn seek_ctx(&mut self, number: CtxNum)
        ensures { self.new ≡ self.old }
    {
        self.contexts.seek(Guide::none(), &number.0);
    }

    /// The context with a number. One that is out is not found.
    pub fn find_ctx(&self, number: CtxNum) -> Option<&Context>
        ensures { option_copied result ≡ ctx (maps_of self.now) number }
    {
        self.find_ctx_at(Guide::none(), number)
    }

    /// The context with a number, which is looked for where the guide says first. One that is out is not found.
    pub(crate) fn find_ctx_at(&self, guide: Guide, number: CtxNum) -> Option<&Context>
        ensures { option_copied result ≡ ctx (maps_of self.now) number }
    {
        entry_at(place_at(self.contexts.get_at(guide, &number.0)))
    }

    /// The names of all terminations, in the order of their bytes.
    ///
    /// # Errors
    ///
    /// Out of memory.
    pub fn names(&self, alloc: Global) -> Result<Vec<TermName>, NoMemory>
        ensures { IfOk result (λ list. list.items ≡ names (maps_of self.now)) }
    {
        let mut names = Vec::with_capacity(alloc, self.terms.len())?;
        for (name, row) in &self.terms {
            if row.is_here() {
                names.push(*name)?;
            }
        }
        Ok(names)
    }

    /// The numbers of all contexts, rising.
    ///
    /// # Errors
    ///
    /// Out of memory.
    pub fn numbers(&self, alloc: Global) -> Result<Vec<CtxNum>, NoMemory>
        ensures { IfOk result (λ list. list.items ≡ numbers (maps_of self.now)) }
    {
        let mut numbers = Vec::with_capacity(alloc, self.contexts.len())?;
        for (number, row) in &self.contexts {
            if row.is_here() {
                numbers.push(CtxNum(*number))?;
            }
        }
        Ok(numbers)
    }
}
