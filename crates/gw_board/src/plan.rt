//! Which places may be opened together.

ghost use Rattle.std.specs.Prelude.{◌≡◌, ◌||◌, ◌&&◌, not, List, IfOk, OnOk};
ghost use Rattle.gw_base.specs.declared.key.Key.{Key as AKey};
ghost use Rattle.gw_table.specs.Stored.{maps_of};
ghost use Rattle.gw_foot.specs.Meets.{meets};
ghost use Rattle.gw_board.specs.Boards.{core_of};
ghost use Rattle.gw_board.specs.Carried.{keys_of};
ghost use Rattle.gw_board.specs.BoardEntries.{standing_of};
ghost use Rattle.gw_board.specs.Waiting.{meet_waiting};
ghost use Rattle.gw_board.specs.Waves.{is_pending, wave};

use crate::board::Board;
use crate::board_entry::{BoardEntry, is_pending};
use crate::open::keys_of;
use crate::requested::is_seen_for_all;
use crate::waiting::Waiting;
use gw_base::NoMemory;
use gw_table::Tables;
use std::alloc::Global;

/// Whether a place is pending and meets none of those that wait. If it is pending, it waits from now on. One that is
/// whole-table meets whatever waits, so that its keys are not gathered then.
fn join_waiting(
    alloc: Global,
    tables: &Tables,
    board_entry: &BoardEntry<'_, '_, '_>,
    waiting: &mut Waiting,
) -> Result<bool, NoMemory>
    ensures free { IfOk result (λ is_free. is_free ≡ (is_pending (standing_of board_entry.now.stage) && not (meet_waiting waiting.old (keys_of board_entry.now.task (maps_of tables.now))))) }
    ensures waiting { OnOk result ((k : List AKey) → meet_waiting waiting.new k ≡ (meet_waiting waiting.old k || (is_pending (standing_of board_entry.now.stage) && meets (keys_of board_entry.now.task (maps_of tables.now)) k))) }
{
    if !is_pending(board_entry) {
        return Ok(false);
    }
    let task = &board_entry.task;
    if waiting.is_any() && is_seen_for_all(task.get()) {
        waiting.add_whole();
        return Ok(false);
    }
    let keys = keys_of(alloc, tables, task)?;
    let is_met = waiting.add(keys.list())?;
    Ok(!is_met)
}

impl Board<'_, '_, '_> {
    /// The next wave: in rising order, all pending places whose keys, in the tables as they are, meet those of no
    /// earlier pending place. While nothing is open, the places of the wave may be opened in this order, one after
    /// another. Nothing behind a whole-table place is looked at, nor are the keys of such a place gathered, where one
    /// before it is pending. With n keys of the places that are looked at the work is n log n.
    ///
    /// # Errors
    ///
    /// Out of memory.
    pub fn plan(&self, alloc: Global) -> Result<Vec<usize>, NoMemory>
        ensures { IfOk result (λ places. places.items ≡ wave (core_of self.now)) }
    {
        let mut places = Vec::new(alloc);
        let mut waiting = Waiting::new(alloc);
        for at in 0..self.board_entries.len() {
            if waiting.is_whole() {
                return Ok(places);
            }
            let board_entry = &self.board_entries[at];
            let is_free = join_waiting(alloc, &self.tables, board_entry, &mut waiting)?;
            if is_free {
                places.push(at)?;
            }
        }
        Ok(places)
    }
}
