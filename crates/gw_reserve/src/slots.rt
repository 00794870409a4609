//! Free slots, one after another.

ghost use Rattle.std.specs.Prelude.{◌≡◌, ℕ, ◌≤◌, ◌++◌, if◌then◌else◌, None, OnOk, slice_get, take, drop, option_to_list};
ghost use Rattle.gw_reserve.specs.Owned.{is_adding};
ghost use Rattle.gw_reserve.specs.Owners.{adding, taken_by, behind_last};
ghost use Rattle.gw_reserve.specs.Searches.{slots_from, IsSearch};
ghost use Rattle.gw_table.specs.Stored.{maps_of};

use crate::order::{Order, Search};
use gw_base::{NoMemory, Short};
use gw_msg::Command;
use gw_table::{Tables, owns_slot, slot_name};

/// The first rank, from one on, of which the slot may be free, or the end: the slots of those passed by are taken. The
/// work is a step for each 64 of them.
fn skip_taken(tables: &Tables, order: Order, rank: u32) -> u32
    requires start { order.start ≤ order.limit }
    requires limit { order.limit ≤ 4096 }
    requires rank { rank ≤ order.limit }
    ensures behind { rank ≤ result }
    ensures within { result ≤ order.limit }
    ensures same { slots_from (maps_of tables.now) order result ≡ slots_from (maps_of tables.now) order rank }
{
    if rank == order.limit {
        return rank;
    }
    let stretch = order.stretch(rank);
    rank + (tables.next_slot(stretch.from, stretch.to) - stretch.from)
}

/// The next free slot. The work is a step for each 64 slots that are passed by, and a look-up for each of them of which
/// the termination has no bit.
fn take_slot(tables: &Tables, order: Order, search: &mut Search) -> Option<u16>
    requires search { IsSearch 4096 order search.old }
    ensures value { result ≡ slice_get (slots_from (maps_of tables.now) order search.old.next) 0 }
    ensures rest { slots_from (maps_of tables.now) order search.new.next ≡ drop 1 (slots_from (maps_of tables.now) order search.old.next) }
    ensures cursor { search.new.cursor ≡ behind_last search.old.cursor (option_to_list result) }
    ensures none { result ≡ None → search.new.next ≡ order.limit }
    ensures search { IsSearch 4096 order search.new }
{
    let mut rank = skip_taken(tables, order, search.next);
    while rank < order.limit {
        let slot = order.at(rank) as u16;
        if tables.find_term(&slot_name(slot)).is_none() {
            search.next = rank + 1;
            search.cursor = u32::from(slot) + 1;
            return Some(slot);
        }
        rank = skip_taken(tables, order, rank + 1);
    }
    search.next = order.limit;
    None
}

/// The slot that a command owns: the next free one for an Add of `$` or `RTP/$`.
fn slot_for(
    tables: &Tables,
    order: Order,
    search: &mut Search,
    command: &Command<'_>,
) -> Option<u16>
    requires search { IsSearch 4096 order search.old }
    ensures value { result ≡ (if is_adding command.now then slice_get (slots_from (maps_of tables.now) order search.old.next) 0 else None) }
    ensures rest { slots_from (maps_of tables.now) order search.new.next ≡ (if is_adding command.now then drop 1 (slots_from (maps_of tables.now) order search.old.next) else slots_from (maps_of tables.now) order search.old.next) }
    ensures cursor { search.new.cursor ≡ behind_last search.old.cursor (option_to_list result) }
    ensures search { IsSearch 4096 order search.new }
{
    if owns_slot(command.verb, command.term) {
        take_slot(tables, order, search)
    } else {
        None
    }
}

/// The slots that the commands of one action own, behind those of the actions before it.
///
/// # Errors
///
/// Out of memory. Nothing is then known of the search.
pub(crate) fn own_slots(
    tables: &Tables,
    order: Order,
    search: &mut Search,
    commands: &[Command<'_>],
    slots: &mut Short<Option<u16>, 4>,
) -> Result<(), NoMemory>
    requires search { IsSearch 4096 order search.old }
    ensures slots { OnOk result (slots.new ≡ slots.old ++ taken_by is_adding commands.now (slots_from (maps_of tables.now) order search.old.next)) }
    ensures rest { OnOk result (slots_from (maps_of tables.now) order search.new.next ≡ drop (adding commands.now) (slots_from (maps_of tables.now) order search.old.next)) }
    ensures cursor { OnOk result (search.new.cursor ≡ behind_last search.old.cursor (take (adding commands.now) (slots_from (maps_of tables.now) order search.old.next))) }
    ensures search { IsSearch 4096 order search.new }
{
    for command in commands {
        slots.push(slot_for(tables, order, search, command))?;
    }
    Ok(())
}
