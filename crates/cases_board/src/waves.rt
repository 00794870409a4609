//! Requests that are executed in waves, to prepare the tables of a case.

ghost use Rattle.std.specs.Prelude.{[], IfOk};
ghost use Rattle.gw_table.specs.Stored.{maps_of, NoneIsOut};
ghost use Rattle.gw_table.specs.Unused.{AreUnused};
ghost use Rattle.gw_table.specs.WellFormed.{AreWellFormed};
ghost use Rattle.gw_board.specs.Results.{slots_of};

use crate::held::none_held;
use crate::steps::{carry_in_waves, is_over};
use cases_text::CaseFault;
use gw_board::{Board, BoardFault, BurstRequest, Profile};
use gw_table::Tables;
use std::alloc::Global;

/// The tables after these requests. The caller knows that they are well-formed, that nothing is out, and that what is
/// owned is unused.
pub fn executed_text(
    alloc: Global,
    tables: Tables,
    profile: Profile,
    requested: &[BurstRequest<'_, '_>],
) -> Result<Tables, CaseFault>
    requires whole { AreWellFormed profile.rules.members (maps_of tables) }
    requires here { NoneIsOut tables }
    requires unused { AreUnused (maps_of tables) [] (slots_of requested.now) }
    ensures whole { IfOk result (λ after. AreWellFormed profile.rules.members (maps_of after)) }
    ensures here { IfOk result NoneIsOut }
{
    let mut board = match Board::new(alloc, tables, profile, requested) {
        Ok(board) => board,
        Err(BoardFault::NoMemory(_)) => return Err(CaseFault::NoMemory),
    };
    let Ok(mut held) = none_held(alloc, requested.len()) else {
        return Err(CaseFault::NoMemory);
    };
    carry_in_waves(alloc, &mut board, &mut held)?;
    // Each wave closes a place, so that all are closed.
    if !is_over(&board, held.len()) {
        return Err(CaseFault::NoMemory);
    }
    let (tables, _replies) = board.finish();
    Ok(tables)
}
