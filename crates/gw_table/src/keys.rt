//! Keys in order, with room for their entries.

ghost use Rattle.std.specs.Prelude.{◌≡◌, IfOk};
ghost use Rattle.gw_table.specs.KeyLists.{IsInOrder, IsListOf};

use crate::cell::Cell;
use crate::key_list::put_in_order;
use crate::rows::Guide;
use gw_base::{Key, NoMemory};
use std::alloc::Global;
use std::marker::Model;

/// Keys in order without doubles, with room for their entries: terminations by the bytes of their names, then contexts
/// by number, then `Whole`.
#[derive(Drop)]
pub struct Keys {
    pub(crate) list: Vec<Key>,
    // Empty, with room for the cell of each key.
    pub(crate) cells: Vec<Cell>,
    // Where the row of each key was last. No contract speaks of it: what is there is looked at before it is believed,
    // and a missing one is `Guide::none()`.
    pub(crate) guides: Vec<Guide>,
}

impl Model for Keys {
    ghost use Rattle.std.specs.Prelude.{◌≡◌, ◌≤◌, List, [], length, vec_capacity};
    ghost use Rattle.std.specs.Coded.{coded_list};
    ghost use Rattle.gw_base.specs.declared.key.Key.{Key};
    ghost use Rattle.gw_table.specs.KeyLists.{IsInOrder};
    ghost use Rattle.gw_table.specs.Parts.{coded_key};

    ghost Value = { List Key };

    ghost coded = { coded_list coded_key };

    ghost view = { λ a. a.list.items };

    ghost invariant = { λ a. IsInOrder a.list.items × (a.cells.items ≡ []) × (length a.list.items ≤ vec_capacity a.cells) };
}

impl Keys {
    /// Keys that the caller knows to be in order, each once. The work is n log n in the keys.
    ///
    /// # Errors
    ///
    /// Out of memory.
    pub fn from_list(alloc: Global, list: Vec<Key>) -> Result<Keys, NoMemory>
        requires { IsInOrder list.items }
        ensures { IfOk result (λ keys. keys ≡ list.items) }
    {
        let cells = Vec::with_capacity(alloc, list.len())?;
        let guides = vec![in alloc; Guide::none(); list.len()]?;
        Ok(Keys {
            list,
            cells,
            guides,
        })
    }

    /// The given keys and no other. The work is n log n in the keys.
    ///
    /// # Errors
    ///
    /// Out of memory.
    pub fn of(alloc: Global, given: &[Key]) -> Result<Keys, NoMemory>
        ensures { IfOk result (λ keys. IsListOf keys given.now) }
    {
        let mut list = Vec::with_capacity(alloc, given.len())?;
        list.extend_from_slice(given)?;
        put_in_order(&mut list);
        Keys::from_list(alloc, list)
    }

    /// The keys, in order.
    pub fn list(&self) -> &[Key]
        ensures list { result.now ≡ self.now }
        ensures order { IsInOrder self.now }
    {
        // No effect at run time. The proof reads here that the keys are in order.
        let _ = &self.cells;
        &self.list
    }
}
