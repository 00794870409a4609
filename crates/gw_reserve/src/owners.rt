//! Reserving: what the requests of a burst own.

ghost use Rattle.std.specs.Prelude.{◌≡◌, ℕ, ◌≤◌, ◌∷◌, [], IfOk, OnOk, length, take, drop};
ghost use Rattle.gw_base.specs.Choose.{is_choose};
ghost use Rattle.gw_table.specs.Unused.{owned};
ghost use Rattle.gw_table.specs.Stored.{maps_of};
ghost use Rattle.gw_reserve.specs.Owned.{is_adding, paired, with_ids};
ghost use Rattle.gw_reserve.specs.Owners.{number_choices, slot_choices, chosen, all_adding, all_commands, taken_by, last_number, behind_last, new_cursors, ids_of, AreWithin};
ghost use Rattle.gw_reserve.specs.Reservations.{begun, numbers_left, slots_left};
ghost use Rattle.gw_reserve.specs.Searches.{numbers_from, slots_from, IsSearch};

use crate::numbers::number_for;
use crate::order::{Order, Search};
use crate::owned::Owned;
use crate::slots::own_slots;
use gw_base::{NoMemory, Short};
use gw_msg::{Action, Request};
use gw_table::Tables;
use std::alloc::Global;
use std::marker::Model;

/// Where the search for free identifiers begins.
#[derive(Clone, Copy, PartialEq, Eq)]
pub struct Cursors {
    /// The last context number that was owned, or 0.
    pub context: u32,
    /// The slot behind the last that was owned, or 0.
    pub slot: u32,
}

/// What the requests of a burst own, one request after another: each owns the first of what those before it left.
pub struct Reservation {
    numbers: Order,
    slots: Order,
    number_search: Search,
    slot_search: Search,
}

impl Drop for Reservation {
    fn drop(self) {
        let Reservation {
            numbers: _,
            slots: _,
            number_search: _,
            slot_search: _,
        } = self;
    }
}

impl Model for Reservation {
    ghost use Rattle.gw_reserve.specs.Reservations.{Reserving, coded_reserving};

    ghost Value = { Reserving };

    ghost coded = { coded_reserving };

    ghost use Rattle.gw_reserve.specs.ReservationView.{value_of, IsReservation};

    ghost view = { value_of };

    ghost invariant = { IsReservation };
}

/// What actions own, in one pass over them and their commands.
fn own_all(
    alloc: Global,
    tables: &Tables,
    numbers: Order,
    number_search: &mut Search,
    slots: Order,
    slot_search: &mut Search,
    actions: &[Action<'_>],
) -> Result<Owned, NoMemory>
    requires numbers { IsSearch 65535 numbers number_search.old }
    requires slots { IsSearch 4096 slots slot_search.old }
    ensures contexts { IfOk result (λ o. o.contexts ≡ taken_by (λ a. is_choose a.ctx) actions.now (numbers_from (maps_of tables.now) numbers number_search.old.next)) }
    ensures slots { IfOk result (λ o. o.slots ≡ taken_by is_adding (all_commands actions.now) (slots_from (maps_of tables.now) slots slot_search.old.next)) }
    ensures numbers_left { OnOk result (numbers_from (maps_of tables.now) numbers number_search.new.next ≡ drop (chosen actions.now) (numbers_from (maps_of tables.now) numbers number_search.old.next)) }
    ensures slots_left { OnOk result (slots_from (maps_of tables.now) slots slot_search.new.next ≡ drop (all_adding actions.now) (slots_from (maps_of tables.now) slots slot_search.old.next)) }
    ensures number_cursor { OnOk result (number_search.new.cursor ≡ last_number number_search.old.cursor (take (chosen actions.now) (numbers_from (maps_of tables.now) numbers number_search.old.next))) }
    ensures slot_cursor { OnOk result (slot_search.new.cursor ≡ behind_last slot_search.old.cursor (take (all_adding actions.now) (slots_from (maps_of tables.now) slots slot_search.old.next))) }
    ensures number_search { IsSearch 65535 numbers number_search.new }
    ensures slot_search { IsSearch 4096 slots slot_search.new }
{
    let mut owned = Owned {
        contexts: Short::new(alloc),
        slots: Short::new(alloc),
    };
    for action in actions {
        owned
            .contexts
            .push(number_for(tables, numbers, number_search, action))?;
        let commands = action.commands.as_slice();
        own_slots(tables, slots, slot_search, commands, &mut owned.slots)?;
    }
    Ok(owned)
}

impl Reservation {
    /// The reservation of a burst, before its first request. The caller knows that there are at most 65,535 contexts
    /// and 4,096 slots, and that the cursors are at most these numbers.
    pub fn new(contexts: u32, slots: u32, cursors: &Cursors) -> Self
        requires contexts { contexts ≤ 65535 }
        requires slots { slots ≤ 4096 }
        requires cursors { AreWithin contexts slots cursors.now }
        ensures { result ≡ begun contexts slots cursors.now }
    {
        Reservation {
            numbers: Order {
                start: cursors.context,
                limit: contexts,
            },
            slots: Order {
                start: cursors.slot,
                limit: slots,
            },
            number_search: Search {
                next: 0,
                cursor: cursors.context,
            },
            slot_search: Search {
                next: 0,
                cursor: cursors.slot,
            },
        }
    }

    /// What the burst's next request owns, in the tables as they are at the burst's start: an entry for each of its
    /// actions, and for each of its commands. Over a whole burst each number and each slot is passed by once, from the
    /// cursor to the last one owned, or round to the cursor where they run out, 64 at a time where they are taken; each
    /// command is looked at once.
    ///
    /// # Errors
    ///
    /// Out of memory. Nothing is then known of the reservation.
    pub fn own(
        &mut self,
        alloc: Global,
        tables: &Tables,
        request: &Request<'_>,
    ) -> Result<Owned, NoMemory>
        ensures entry_for_action { IfOk result (λ o. length o.contexts ≡ length request.now.actions) }
        ensures entry_for_command { IfOk result (λ o. length o.slots ≡ length (all_commands request.now.actions)) }
        ensures paired { IfOk result (λ o. paired request.now o ≡ with_ids request.now (ids_of request.now (numbers_left (maps_of tables.now) self.old) (slots_left (maps_of tables.now) self.old))) }
        ensures contexts { IfOk result (λ o. owned o.contexts ≡ take (number_choices request.now) (numbers_left (maps_of tables.now) self.old)) }
        ensures owned_slots { IfOk result (λ o. owned o.slots ≡ take (slot_choices request.now) (slots_left (maps_of tables.now) self.old)) }
        ensures numbers { OnOk result (numbers_left (maps_of tables.now) self.new ≡ drop (number_choices request.now) (numbers_left (maps_of tables.now) self.old)) }
        ensures slots { OnOk result (slots_left (maps_of tables.now) self.new ≡ drop (slot_choices request.now) (slots_left (maps_of tables.now) self.old)) }
        ensures cursors { OnOk result (self.new.cursors ≡ new_cursors self.old.cursors (ids_of request.now (numbers_left (maps_of tables.now) self.old) (slots_left (maps_of tables.now) self.old) ∷ [])) }
        ensures contexts_stay { OnOk result (self.new.most_contexts ≡ self.old.most_contexts) }
        ensures slots_stay { OnOk result (self.new.most_slots ≡ self.old.most_slots) }
    {
        own_all(
            alloc,
            tables,
            self.numbers,
            &mut self.number_search,
            self.slots,
            &mut self.slot_search,
            request.actions.as_slice(),
        )
    }

    /// Where the next burst's search is to begin. The cursors are at most the numbers of contexts and of slots.
    pub fn cursors(&self) -> Cursors
        ensures cursors { result ≡ self.now.cursors }
        ensures within { AreWithin self.now.most_contexts self.now.most_slots result }
    {
        Cursors {
            context: self.number_search.cursor,
            slot: self.slot_search.cursor,
        }
    }
}
