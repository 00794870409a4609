//! What follows from the definitions alone.

ghost use Rattle.std.specs.Prelude.{◌≡◌, ℕ, ◌≤◌, List, []};
ghost use Rattle.gw_msg.specs.declared.message.Request.{Request};
ghost use Rattle.gw_table.specs.Maps.{Maps};
ghost use Rattle.gw_table.specs.Unused.{AreUnused};
ghost use Rattle.gw_reserve.specs.declared.owners.Cursors.{Cursors};
ghost use Rattle.gw_reserve.specs.Owners.{free_slots, owners, AreFresh, AreWithin};

/// What the requests of a burst own is unused in the tables as they are at its start, no two choices own the same, and
/// the limits are kept. So is all that they could own of the slots.
pub fn what_is_owned_is_fresh()
    ensures owned { (m : Maps) (cursors : Cursors) (contexts slots : ℕ) (rs : List Request) → AreWithin contexts slots cursors → slots ≤ 4096 → AreFresh m contexts slots (owners m cursors contexts slots rs) }
    ensures free { (m : Maps) (cursor slots : ℕ) → cursor ≤ slots → slots ≤ 4096 → AreUnused m [] (free_slots m cursor slots) }
{}
