//! What stands at the keys of a part: a cell for each, found by a search among the keys in order.

ghost use Rattle.std.specs.Prelude.{◌≡◌, Some, IfOk, option_copied};
ghost use Rattle.gw_base.specs.declared.key.Key.{Key};
ghost use Rattle.gw_base.specs.declared.key.Key.TheVariants.{Term, Ctx};
ghost use Rattle.gw_table.specs.Cells.{cell_term, cell_ctx, IsFound};
ghost use Rattle.gw_table.specs.KeyLists.{key_cmp, IsInOrder};
ghost use Rattle.gw_table.specs.Stored.{visible};

use crate::place::{Place, entry_at};
use gw_base::{CtxNum, Key, NoMemory, TermName};
use gw_ctx::Context;
use gw_term::Termination;
use std::cmp::Ordering;

/// The place of a key of a part, by the kind of the key. Of `Whole` there is none.
#[derive(Drop)]
pub enum Cell {
    /// The place of a termination.
    OfTerm(Place<Termination>),
    /// The place of a context.
    OfCtx(Place<Context>),
    /// No place.
    OfWhole,
}

impl Cell {
    /// The place of a termination.
    pub(crate) fn into_term(self) -> Place<Termination>
        ensures { result ≡ cell_term self }
    {
        match self {
            Cell::OfTerm(place) => place,
            Cell::OfCtx(_) | Cell::OfWhole => Place::Empty,
        }
    }

    /// The place of a context.
    pub(crate) fn into_ctx(self) -> Place<Context>
        ensures { result ≡ cell_ctx self }
    {
        match self {
            Cell::OfCtx(place) => place,
            Cell::OfTerm(_) | Cell::OfWhole => Place::Empty,
        }
    }

    /// An equal cell.
    pub(crate) fn copy(&self) -> Result<Cell, NoMemory>
        ensures { IfOk result (λ copy. copy ≡ self.now) }
    {
        match self {
            Cell::OfTerm(place) => Ok(Cell::OfTerm(place.clone()?)),
            Cell::OfCtx(place) => Ok(Cell::OfCtx(place.clone()?)),
            Cell::OfWhole => Ok(Cell::OfWhole),
        }
    }

    /// The termination that stands here.
    pub(crate) fn term(&self) -> Option<&Termination>
        ensures { option_copied result ≡ visible (Some (cell_term self.now)) }
    {
        match self {
            Cell::OfTerm(place) => entry_at(Some(place)),
            Cell::OfCtx(_) | Cell::OfWhole => None,
        }
    }

    /// The context that stands here.
    pub(crate) fn ctx(&self) -> Option<&Context>
        ensures { option_copied result ≡ visible (Some (cell_ctx self.now)) }
    {
        match self {
            Cell::OfCtx(place) => entry_at(Some(place)),
            Cell::OfTerm(_) | Cell::OfWhole => None,
        }
    }
}

fn compare_to_name(key: &Key, name: &TermName) -> Ordering
    ensures { result ≡ key_cmp key.now (Term name.now) }
{
    match key {
        Key::Term(own) => own.cmp(name),
        Key::Ctx(_) | Key::Whole => Ordering::Greater,
    }
}

fn compare_to_number(key: &Key, number: CtxNum) -> Ordering
    ensures { result ≡ key_cmp key.now (Ctx number) }
{
    match key {
        Key::Term(_) => Ordering::Less,
        Key::Ctx(own) => own.0.cmp(&number.0),
        Key::Whole => Ordering::Greater,
    }
}

/// Where a name stands among keys in order.
pub(crate) fn find_name(keys: &[Key], name: &TermName) -> Option<usize>
    requires { IsInOrder keys.now }
    ensures { IsFound keys.now (Term name.now) result }
{
    keys.binary_search_by(|key| compare_to_name(key, name)).ok()
}

/// Where the number of a context stands among keys in order.
pub(crate) fn find_number(keys: &[Key], number: CtxNum) -> Option<usize>
    requires { IsInOrder keys.now }
    ensures { IsFound keys.now (Ctx number) result }
{
    keys.binary_search_by(|key| compare_to_number(key, number))
        .ok()
}
