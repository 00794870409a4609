//! The places of a burst, as they are kept.

ghost use Rattle.std.specs.Prelude.{◌≡◌, ◌<◌, IfOk, length, map, Some, slice_get, slice_set, vec_len};
ghost use Rattle.gw_board.specs.Core.{Place as PlaceOf, pending};
ghost use Rattle.gw_board.specs.Boards.{requested_in, is_pending_at};
ghost use Rattle.gw_board.specs.BoardEntries.{standing_of, place_of};
ghost use Rattle.gw_board.specs.Waves.{is_pending};

use crate::requested::{BurstRequest, Task};
use gw_base::{Items, Key, NoMemory};
use gw_table::Part;
use std::alloc::Global;
use std::snapshot::Snapshot;

/// How a place stands.
#[derive(Drop)]
pub(crate) enum Stage {
    /// Its request waits.
    Pending,
    /// Its job is out: the job's keys, and its part, which contracts alone see.
    Opened {
        keys: Vec<Key>,
        part: Snapshot<Part>,
    },
    /// Its request was executed; the text of the reply.
    Closed(Items<u8>),
}

/// A place of a burst: its request, and how it stands.
#[derive(Drop)]
pub(crate) struct BoardEntry<'b, 'h, 'a> {
    pub(crate) task: Task<'b, 'h, 'a>,
    pub(crate) stage: Stage,
}

/// A place for each request, all pending.
pub(crate) fn board_entries_of<'b, 'h, 'a>(
    alloc: Global,
    requested: &'b [BurstRequest<'h, 'a>],
) -> Result<Vec<BoardEntry<'b, 'h, 'a>>, NoMemory>
    ensures { IfOk result (λ board_entries. map place_of board_entries.items ≡ map pending requested.now) }
{
    let mut board_entries = Vec::with_capacity(alloc, requested.len())?;
    for one in requested {
        board_entries.push(BoardEntry {
            task: Task::new(one),
            stage: Stage::Pending,
        })?;
    }
    Ok(board_entries)
}

/// Whether a place is pending.
pub(crate) fn is_pending(board_entry: &BoardEntry<'_, '_, '_>) -> bool
    ensures { result ≡ is_pending (standing_of board_entry.now.stage) }
{
    matches!(board_entry.stage, Stage::Pending)
}

/// Whether there is a pending place of this number.
pub(crate) fn is_pending_at(board_entries: &[BoardEntry<'_, '_, '_>], place: usize) -> bool
    ensures { result ≡ is_pending_at (slice_get (map place_of board_entries.now) place) }
{
    match board_entries.get(place) {
        Some(board_entry) => is_pending(board_entry),
        None => false,
    }
}

/// A place stands otherwise from now on.
pub(crate) fn set_stage(board_entries: &mut Vec<BoardEntry<'_, '_, '_>>, place: usize, stage: Stage)
    requires { place < length board_entries.old.items }
    ensures requested { requested_in (map place_of board_entries.new.items) ≡ requested_in (map place_of board_entries.old.items) }
    ensures places { (p : PlaceOf) → slice_get (map place_of board_entries.old.items) place ≡ Some p → map place_of board_entries.new.items ≡ slice_set (map place_of board_entries.old.items) place (record { requested = p.requested; standing = standing_of stage }) }
    ensures len { vec_len board_entries.new ≡ vec_len board_entries.old }
{
    let board_entry = &mut board_entries[place];
    board_entry.stage = stage;
}

/// Every place is pending from now on.
pub(crate) fn all_pending(board_entries: &mut Vec<BoardEntry<'_, '_, '_>>)
    ensures places { map place_of board_entries.new.items ≡ map pending (requested_in (map place_of board_entries.old.items)) }
    ensures requested { requested_in (map place_of board_entries.new.items) ≡ requested_in (map place_of board_entries.old.items) }
    ensures len { vec_len board_entries.new ≡ vec_len board_entries.old }
{
    for place in 0..board_entries.len() {
        set_stage(board_entries, place, Stage::Pending);
    }
}
