//! Free context numbers, one after another.

ghost use Rattle.std.specs.Prelude.{◌≡◌, ℕ, ◌<◌, ◌≤◌, if◌then◌else◌, None, slice_get, drop, option_to_list};
ghost use Rattle.std.proofs.Common.{get_or};
ghost use Rattle.gw_base.specs.Choose.{is_choose};
ghost use Rattle.gw_table.specs.Maps.{number};
ghost use Rattle.gw_table.specs.Stored.{maps_of};
ghost use Rattle.gw_reserve.specs.Owners.{last_number};
ghost use Rattle.gw_reserve.specs.Searches.{numbers_in_order, numbers_from, IsSearch};

use crate::order::{Order, Search};
use gw_base::CtxNum;
use gw_msg::Action;
use gw_table::Tables;

/// The number at a rank of the order. Numbers run from 1.
fn number_at(order: Order, rank: u32) -> CtxNum
    requires start { order.start ≤ order.limit }
    requires limit { order.limit ≤ 65535 }
    requires rank { rank < order.limit }
    ensures value { result ≡ get_or (numbers_in_order order) rank (number 0) }
    ensures small { result.0 ≤ order.limit }
{
    CtxNum(order.at(rank) + 1)
}

/// The first rank, from one on, of which the number may be free, or the end: the numbers of those passed by are taken.
/// The work is a step for each 64 of them.
fn skip_taken(tables: &Tables, order: Order, rank: u32) -> u32
    requires start { order.start ≤ order.limit }
    requires limit { order.limit ≤ 65535 }
    requires rank { rank ≤ order.limit }
    ensures behind { rank ≤ result }
    ensures within { result ≤ order.limit }
    ensures same { numbers_from (maps_of tables.now) order result ≡ numbers_from (maps_of tables.now) order rank }
{
    if rank == order.limit {
        return rank;
    }
    let stretch = order.stretch(rank);
    let first = stretch.from + 1;
    rank + (tables.next_number(first, stretch.to + 1) - first)
}

/// The next free number. The work is a step for each 64 numbers that are passed by, and a look-up for each of them of
/// which the context has no bit.
fn take_number(tables: &Tables, order: Order, search: &mut Search) -> Option<CtxNum>
    requires search { IsSearch 65535 order search.old }
    ensures value { result ≡ slice_get (numbers_from (maps_of tables.now) order search.old.next) 0 }
    ensures rest { numbers_from (maps_of tables.now) order search.new.next ≡ drop 1 (numbers_from (maps_of tables.now) order search.old.next) }
    ensures cursor { search.new.cursor ≡ last_number search.old.cursor (option_to_list result) }
    ensures none { result ≡ None → search.new.next ≡ order.limit }
    ensures search { IsSearch 65535 order search.new }
{
    let mut rank = skip_taken(tables, order, search.next);
    while rank < order.limit {
        let number = number_at(order, rank);
        if tables.find_ctx(number).is_none() {
            search.next = rank + 1;
            search.cursor = number.0;
            return Some(number);
        }
        rank = skip_taken(tables, order, rank + 1);
    }
    search.next = order.limit;
    None
}

/// The number that an action owns: the next free one for an action with `$`.
pub(crate) fn number_for(
    tables: &Tables,
    order: Order,
    search: &mut Search,
    action: &Action<'_>,
) -> Option<CtxNum>
    requires search { IsSearch 65535 order search.old }
    ensures value { result ≡ (if is_choose action.now.ctx then slice_get (numbers_from (maps_of tables.now) order search.old.next) 0 else None) }
    ensures rest { numbers_from (maps_of tables.now) order search.new.next ≡ (if is_choose action.now.ctx then drop 1 (numbers_from (maps_of tables.now) order search.old.next) else numbers_from (maps_of tables.now) order search.old.next) }
    ensures cursor { search.new.cursor ≡ last_number search.old.cursor (option_to_list result) }
    ensures search { IsSearch 65535 order search.new }
{
    if action.ctx.is_choose() {
        take_number(tables, order, search)
    } else {
        None
    }
}
