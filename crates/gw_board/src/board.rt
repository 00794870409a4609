//! The board: the tables of a burst that is executed, and how its places stand.

ghost use Rattle.std.specs.Prelude.{◌≡◌, [], IfOk, IfErr, length};
ghost use Rattle.gw_table.specs.Stored.{maps_of, NoneIsOut};
ghost use Rattle.gw_table.specs.Unused.{AreUnused};
ghost use Rattle.gw_table.specs.WellFormed.{AreWellFormed};
ghost use Rattle.gw_board.specs.Boards.{begun_board, GivesTheFold};
ghost use Rattle.gw_board.specs.Refused.{HandsBack};
ghost use Rattle.gw_board.specs.Results.{slots_of};

use crate::board_entry::{BoardEntry, board_entries_of};
use crate::fault::BoardFault;
use crate::profile::Profile;
use crate::requested::BurstRequest;
use crate::undo_step::UndoStep;
use gw_base::Items;
use gw_table::Tables;
use std::alloc::Global;
use std::marker::Model;
use std::snapshot::Snapshot;

/// Tables, and the places of a burst: which requests are pending, open or closed. A place is the number of a request
/// in the burst, from 0. The entries that an open job may claim are out of the tables. Contracts see the maps, the
/// places, the tables that the board was given, and the undo log that leads to their maps.
#[derive(Drop)]
pub struct Board<'b, 'h, 'a> {
    pub(crate) tables: Tables,
    pub(crate) profile: Profile,
    pub(crate) board_entries: Vec<BoardEntry<'b, 'h, 'a>>,
    /// Keys may be prepared that are neither those of the undo log nor of open jobs.
    pub(crate) sweeps_all: bool,
    pub(crate) undo_log: Vec<UndoStep>,
    pub(crate) replies: Vec<Items<u8>>,
    pub(crate) start: Snapshot<Tables>,
}

impl<'b, 'h, 'a> Model for Board<'b, 'h, 'a> {
    ghost use Rattle.std.specs.Coded.{codes};
    ghost use Rattle.gw_table.specs.Maps.{coded_maps};
    ghost use Rattle.gw_table.specs.Stored.{coded_stored};
    ghost use Rattle.gw_board.specs.Boards.{Seen};

    ghost Value = { Seen };

    ghost coded = { Prim.hlevel (codes, coded_maps, coded_stored) };

    ghost use Rattle.gw_board.specs.BoardView.{value_of, IsBoard};

    ghost view = { value_of };

    ghost invariant = { IsBoard };
}

impl<'b, 'h, 'a> Board<'b, 'h, 'a> {
    /// A board on which every request is pending. The caller knows that the tables are well-formed, that nothing is
    /// out, and that the slots that the requests own are distinct and unused. Room for the replies and for the
    /// undo steps is made here.
    ///
    /// # Errors
    ///
    /// Out of memory. The tables come back as they were.
    pub fn new(
        alloc: Global,
        tables: Tables,
        profile: Profile,
        requested: &'b [BurstRequest<'h, 'a>],
    ) -> Result<Board<'b, 'h, 'a>, BoardFault>
        requires whole { AreWellFormed profile.rules.members (maps_of tables) }
        requires here { NoneIsOut tables }
        requires unused { AreUnused (maps_of tables) [] (slots_of requested.now) }
        ensures board { IfOk result (λ board. board ≡ begun_board profile requested.now tables) }
        ensures outcome { IfOk result GivesTheFold }
        ensures fault { IfErr result (HandsBack tables) }
    {
        let Ok(board_entries) = board_entries_of(alloc, requested) else {
            return Err(BoardFault::NoMemory(tables));
        };
        let Ok(undo_log) = Vec::with_capacity(alloc, requested.len()) else {
            return Err(BoardFault::NoMemory(tables));
        };
        let Ok(replies) = Vec::with_capacity(alloc, requested.len()) else {
            return Err(BoardFault::NoMemory(tables));
        };
        let start = Snapshot::of(&tables);
        Ok(Board {
            tables,
            profile,
            board_entries,
            sweeps_all: false,
            undo_log,
            replies,
            start,
        })
    }
}
