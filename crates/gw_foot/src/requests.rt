//! Which entries of the tables a request may claim.

ghost use Rattle.std.specs.Prelude.{IfOk, ◌≡◌};
ghost use Rattle.std.specs.List.{list_any};
ghost use Rattle.gw_base.specs.declared.key.Key.{Key as AKey};
ghost use Rattle.gw_base.specs.declared.key.Key.TheVariants.{Whole};
ghost use Rattle.gw_base.specs.Keys.{has};
ghost use Rattle.gw_table.specs.KeyLists.{IsListOf};
ghost use Rattle.gw_table.specs.Maps.{Maps};
ghost use Rattle.gw_table.specs.Stored.{maps_of};
ghost use Rattle.gw_cmd.specs.Keys.{every_key, keys_if};
ghost use Rattle.gw_reserve.specs.Owned.{paired};
ghost use Rattle.gw_reserve.specs.declared.owned.Owned.{Owned as AnOwned};
ghost use Rattle.gw_tx.specs.Footprints.{footprint_of};
ghost use Rattle.gw_foot.specs.Gathered.{spans_all};

use crate::gather::{add_actions, add_every_key};
use crate::requested::spans_all;
use gw_base::{Key, NoMemory};
use gw_msg::{Action, Request};
use gw_reserve::Owned;
use gw_table::{Keys, Tables, put_in_order};
use std::alloc::Global;

/// Most requests have no more keys, so that the list is made by one allocation.
const MOST_HAVE: usize = 8;

fn any_spans_all(actions: &[Action<'_>]) -> bool
    ensures { result ≡ list_any spans_all actions.now }
{
    actions.iter().any(|action| spans_all(action))
}

/// Whether something in a request is whole-table: then the whole of the tables is among its keys, whatever they are,
/// and else never. The work is one pass over its commands.
pub fn is_for_all(request: &Request<'_>) -> bool
    ensures { (owned : AnOwned) (m : Maps) → has (footprint_of (paired request.now owned) m) Whole ≡ result }
{
    any_spans_all(request.actions.as_slice())
}

/// Every key where something in the request is whole-table, else none.
fn begun(alloc: Global, tables: &Tables, actions: &[Action<'_>]) -> Result<Vec<Key>, NoMemory>
    ensures { IfOk result (λ keys. keys.items ≡ keys_if (list_any spans_all actions.now) (every_key (maps_of tables.now))) }
{
    let mut keys = Vec::with_capacity(alloc, MOST_HAVE)?;
    if any_spans_all(actions) {
        add_every_key(alloc, tables, &mut keys)?;
    }
    Ok(keys)
}

/// The keys of a request with what it owns, as `footprint` has them, in no order, and some more than once. Every
/// termination is looked at only where something in the request is whole-table.
///
/// # Errors
///
/// Out of memory.
pub fn footprint_keys(
    alloc: Global,
    tables: &Tables,
    request: &Request<'_>,
    owned: &Owned,
) -> Result<Vec<Key>, NoMemory>
    ensures { IfOk result (λ keys. (k : AKey) → has keys.items k ≡ has (footprint_of (paired request.now owned.now) (maps_of tables.now)) k) }
{
    let actions = request.actions.as_slice();
    let mut keys = begun(alloc, tables, actions)?;
    add_actions(
        tables,
        owned.contexts.as_slice(),
        owned.slots.as_slice(),
        actions,
        &mut keys,
    )?;
    Ok(keys)
}

/// The keys of a request with what it owns, in the tables as they are, over all its actions and commands, reached or
/// not: each once, in order. With n keys the work is n log n. A wildcard's members are those that its context has;
/// every termination is looked at only where something in the request is whole-table.
///
/// # Errors
///
/// Out of memory.
pub fn footprint(
    alloc: Global,
    tables: &Tables,
    request: &Request<'_>,
    owned: &Owned,
) -> Result<Keys, NoMemory>
    ensures { IfOk result (λ keys. IsListOf keys (footprint_of (paired request.now owned.now) (maps_of tables.now))) }
{
    let mut keys = footprint_keys(alloc, tables, request, owned)?;
    put_in_order(&mut keys);
    Ok(Keys::from_list(alloc, keys)?)
}
