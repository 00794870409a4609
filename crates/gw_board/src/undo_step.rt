//! What stood in the tables before a place was closed with its result.

ghost use Rattle.std.specs.Prelude.{◌≡◌};
ghost use Rattle.gw_board.specs.UndoLog.{led};
ghost use Rattle.gw_board.specs.BoardEntries.{undo_step_of_part, undo_step_of_writes};
ghost use Rattle.gw_table.specs.Stored.{maps_of, AreReady, AreIn, AreAsReady, AreAsOut, AreSweptAmong, KeepReady, NoneIsOut};

use gw_table::{Part, Tables, UndoLog};
use std::marker::Model;

/// What stood at the keys of a place.
#[derive(Drop)]
pub(crate) enum Stood {
    /// The part that its job took out.
    OfJob(Part),
    /// What its writes found, where it was executed alone.
    OfWrites(UndoLog),
}

/// What stood at the keys of a place, which contracts see as a step of the undo log.
#[derive(Drop)]
pub(crate) struct UndoStep {
    stood: Stood,
}

impl Model for UndoStep {
    ghost use Rattle.std.specs.Coded.{codes};
    ghost use Rattle.gw_table.specs.Maps.{coded_maps};
    ghost use Rattle.gw_board.specs.UndoLog.{UndoStep as Way};
    ghost use Rattle.gw_board.specs.Stood.{stood_undo_step};

    ghost Value = { Way };

    ghost coded = { Prim.hlevel (codes, coded_maps) };

    ghost view = { λ a. stood_undo_step a.stood };
}

impl UndoStep {
    /// Of a place that was open.
    pub(crate) fn of_job(part: Part) -> UndoStep
        ensures { result ≡ undo_step_of_part part }
    {
        UndoStep {
            stood: Stood::OfJob(part),
        }
    }

    /// Of a place that was executed alone.
    pub(crate) fn of_writes(undo_log: UndoLog) -> UndoStep
        ensures { result ≡ undo_step_of_writes undo_log }
    {
        UndoStep {
            stood: Stood::OfWrites(undo_log),
        }
    }

    /// Leads the tables back. The caller knows that its keys have places and none is out. A key takes one look-up.
    pub(crate) fn put_back(self, tables: &mut Tables)
        requires ready { AreReady self.keys tables.old }
        requires here { AreIn self.keys tables.old }
        ensures maps { maps_of tables.new ≡ led self (maps_of tables.old) }
        ensures out { AreAsOut tables.old tables.new }
        ensures ready { AreAsReady tables.old tables.new }
    {
        let UndoStep { stood } = self;
        match stood {
            Stood::OfJob(part) => tables.replace(part),
            Stood::OfWrites(undo_log) => tables.restore(undo_log),
        }
    }

    /// Ends the preparation of its keys that have no entry. A key takes a look-up.
    pub(crate) fn sweep(&self, tables: &mut Tables)
        requires { NoneIsOut tables.old }
        ensures maps { maps_of tables.new ≡ maps_of tables.old }
        ensures here { NoneIsOut tables.new }
        ensures swept { AreSweptAmong self.now.keys tables.new }
        ensures fewer { KeepReady tables.new tables.old }
    {
        match &self.stood {
            Stood::OfJob(part) => tables.sweep_part(part),
            Stood::OfWrites(undo_log) => tables.sweep_vacated(undo_log),
        }
    }
}
