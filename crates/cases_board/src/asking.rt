//! What a burst requests, with what each of its requests owns.

ghost use Rattle.std.specs.Prelude.{◌≡◌, ◌≤◌, ◌++◌, [], IfOk, OnOk};
ghost use Rattle.gw_table.specs.Stored.{maps_of};
ghost use Rattle.gw_table.specs.Unused.{AreUnused};
ghost use Rattle.gw_reserve.specs.Reservations.{slots_left};
ghost use Rattle.gw_board.specs.Results.{slots_of};

use bumpalo::Bump;
use gw_base::NoMemory;
use gw_board::{BurstRequest, RequestRef};
use gw_msg::{Item, Message, Sender};
use gw_reserve::{Cursors, Reservation};
use gw_table::Tables;
use std::alloc::Global;

/// How many contexts and slots there are.
#[derive(Clone, Copy)]
pub struct Limits {
    /// At most 65,535.
    pub contexts: u32,
    /// At most 4,096.
    pub slots: u32,
    ghost few_contexts: { contexts ≤ 65535 },
    ghost few_slots: { slots ≤ 4096 },
}

/// The request of an item, if it is one, goes last, with the next identifiers that are free.
fn add_requested<'h, 'a>(
    alloc: Global,
    tables: &Tables,
    mid: &Sender<'a>,
    item: &'h Item<'a>,
    reservation: &mut Reservation,
    requested: &mut Vec<BurstRequest<'h, 'a>>,
) -> Result<(), NoMemory>
    ensures { OnOk result (slots_of requested.new.items ++ slots_left (maps_of tables.now) reservation.new ≡ slots_of requested.old.items ++ slots_left (maps_of tables.now) reservation.old) }
{
    let Item::Request(source) = item else {
        return Ok(());
    };
    let request = RequestRef::new(source);
    let scratch = Bump::new(alloc);
    let tree = request.tree(&scratch)?;
    let owned = reservation.own(alloc, tables, tree)?;
    requested.push(BurstRequest {
        mid: mid.again(),
        request: request.again(),
        owned,
    })?;
    Ok(())
}

/// The requests of a message, each with what it owns in the tables as they are, from the first free context and slot
/// on.
pub fn requests_in<'h, 'a>(
    alloc: Global,
    tables: &Tables,
    limits: Limits,
    message: &'h Message<'a>,
) -> Result<Vec<BurstRequest<'h, 'a>>, NoMemory>
    ensures { IfOk result (λ requested. AreUnused (maps_of tables.now) [] (slots_of requested.items)) }
{
    let cursors = Cursors {
        context: 0,
        slot: 0,
    };
    let mut reservation = Reservation::new(limits.contexts, limits.slots, &cursors);
    let mut requested = Vec::new(alloc);
    for item in message.items.as_slice() {
        add_requested(
            alloc,
            tables,
            &message.mid,
            item,
            &mut reservation,
            &mut requested,
        )?;
    }
    Ok(requested)
}
