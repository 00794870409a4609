//! Terminations of the null context.

ghost use Rattle.std.specs.Prelude.{◌≡◌, ◌&&◌, nat_eq, is_some, IfOk};
ghost use Rattle.std.specs.List.{filter, list_any, starts_with};
ghost use Rattle.gw_table.specs.Free.{is_free_at};
ghost use Rattle.gw_table.specs.Maps.{term, is_free, names};
ghost use Rattle.gw_table.specs.Stored.{maps_of};

use crate::draft::{Backing, Draft};
use crate::part::Part;
use crate::place::Place;
use crate::row::Row;
use crate::rows::Guide;
use crate::tables::Tables;
use gw_base::{Key, NoMemory, TermName};
use gw_term::Termination;
use std::alloc::Global;
use std::marker::Model;

/// Whether a termination of the null context stands in a place.
pub(crate) fn is_free_at(row: &Row<Termination>) -> bool
    ensures { result ≡ is_free_at row.now }
{
    match row.place() {
        Place::Here(termination) => termination.place().is_none(),
        Place::Empty | Place::Out => false,
    }
}

/// Whether a name begins so.
pub(crate) fn begins_with(name: &TermName, prefix: &[u8]) -> bool
    ensures { result ≡ starts_with nat_eq name.now prefix.now }
{
    prefix.is_empty() || name.as_bytes().starts_with(prefix)
}

/// A termination that a command is for: its name, and where it may stand. Contracts see the name.
#[derive(Drop)]
pub struct Target {
    name: TermName,
    guide: Guide,
}

impl Model for Target {
    ghost use Rattle.std.specs.Prelude.{ℕ, List};

    ghost Value = { List ℕ };

    ghost view = { λ t. t.name };
}

impl Target {
    /// The termination of this name, wherever it stands.
    pub fn named(name: TermName) -> Target
        ensures { result ≡ name }
    {
        Target::found(name, Guide::none())
    }

    /// The termination of this name, which was found there.
    pub(crate) fn found(name: TermName, guide: Guide) -> Target
        ensures { result ≡ name }
    {
        Target { name, guide }
    }

    /// Those of these names, wherever they stand.
    pub fn each(alloc: Global, names: &[TermName]) -> Result<Vec<Target>, NoMemory>
        ensures { IfOk result (λ targets. targets.items ≡ names.now) }
    {
        let mut targets = Vec::with_capacity(alloc, names.len())?;
        for name in names {
            targets.push(Target::named(*name))?;
        }
        Ok(targets)
    }

    /// Its name.
    pub fn name(&self) -> &TermName
        ensures { result.now ≡ self.now }
    {
        &self.name
    }

    /// Where it may stand.
    pub(crate) fn guide(&self) -> Guide {
        self.guide
    }
}

impl Tables {
    /// The terminations of the null context, in the order of the bytes of their names.
    fn free_targets(&self, alloc: Global) -> Result<Vec<Target>, NoMemory>
        ensures { IfOk result (λ list. list.items ≡ filter (is_free (maps_of self.now)) (names (maps_of self.now))) }
    {
        let mut targets = Vec::with_capacity(alloc, self.terms.len())?;
        for (name, row) in &self.terms {
            if is_free_at(row) {
                targets.push(Target::found(*name, row.guide()))?;
            }
        }
        Ok(targets)
    }

    /// Whether there is a termination of the null context with a name that begins so.
    fn has_free_under(&self, prefix: &[u8]) -> bool
        ensures { result ≡ list_any (λ t. is_free (maps_of self.now) t && starts_with nat_eq t prefix.now) (names (maps_of self.now)) }
    {
        for (name, row) in &self.terms {
            if is_free_at(row) && begins_with(name, prefix) {
                return true;
            }
        }
        false
    }
}

impl Part {
    /// Whether the termination of this name is in the null context.
    fn is_free(&self, name: &TermName) -> bool
        ensures { result ≡ is_free self.now.maps name.now }
    {
        match self.term(name) {
            Some(termination) => termination.place().is_none(),
            None => true,
        }
    }

    /// Whether there is a termination of this name, in the null context, and its name begins so.
    fn is_free_under(&self, name: &TermName, prefix: &[u8]) -> bool
        ensures { result ≡ (is_some (term self.now.maps name.now) && (is_free self.now.maps name.now && starts_with nat_eq name.now prefix.now)) }
    {
        match self.term(name) {
            Some(termination) => termination.place().is_none() && begins_with(name, prefix),
            None => false,
        }
    }

    fn free_targets(&self, alloc: Global) -> Result<Vec<Target>, NoMemory>
        ensures { IfOk result (λ list. list.items ≡ filter (is_free self.now.maps) (names self.now.maps)) }
    {
        let mut named = self.names(alloc)?;
        named.retain(|name| self.is_free(name));
        Target::each(alloc, &named)
    }

    fn has_free_under(&self, prefix: &[u8]) -> bool
        ensures { result ≡ list_any (λ t. is_free self.now.maps t && starts_with nat_eq t prefix.now) (names self.now.maps) }
    {
        for key in &self.keys {
            if let Key::Term(name) = key {
                if self.is_free_under(name, prefix) {
                    return true;
                }
            }
        }
        false
    }
}

impl Draft {
    /// The terminations of the null context, in the order of the bytes of their names. The work is one pass over the
    /// tables, without a look-up; or two look-ups for each key of the part.
    ///
    /// # Errors
    ///
    /// Out of memory.
    pub fn free_targets(&self, alloc: Global) -> Result<Vec<Target>, NoMemory>
        ensures { IfOk result (λ list. list.items ≡ filter (is_free self.now.maps) (names self.now.maps)) }
    {
        match &self.backing {
            Backing::OfPart(part) => part.free_targets(alloc),
            Backing::OfTables(backing) => backing.tables.free_targets(alloc),
        }
    }

    /// Whether there is a termination of the null context with a name that begins so. The work is at most one pass
    /// over the tables, without a look-up and without memory, which ends at the first; or a look-up for each key of
    /// the part.
    pub fn has_free_under(&self, prefix: &[u8]) -> bool
        ensures { result ≡ list_any (λ t. is_free self.now.maps t && starts_with nat_eq t prefix.now) (names self.now.maps) }
    {
        match &self.backing {
            Backing::OfPart(part) => part.has_free_under(prefix),
            Backing::OfTables(backing) => backing.tables.has_free_under(prefix),
        }
    }
}
