//! The undo log: the undo steps of the places that are closed with a result, in the order of closing.

ghost use Rattle.std.specs.Prelude.{◌≡◌, [], vec_capacity};
ghost use Rattle.gw_table.specs.Stored.{maps_of, AreReady, AreSwept, NoneIsOut};
ghost use Rattle.gw_board.specs.Fitting.{Each};
ghost use Rattle.gw_board.specs.UndoLog.{undone};

use crate::undo_step::UndoStep;
use gw_table::Tables;

/// Takes all undo steps back, the last one first. Then a key without an entry is prepared no more. The caller knows
/// that nothing is out, and that each of the keys of the undo steps has a place.
pub(crate) fn put_all_back(tables: &mut Tables, undo_log: &mut Vec<UndoStep>)
    requires here { NoneIsOut tables.old }
    requires ready { Each (λ o. AreReady o.keys tables.old) undo_log.old.items }
    ensures maps { maps_of tables.new ≡ undone undo_log.old.items (maps_of tables.old) }
    ensures here { NoneIsOut tables.new }
    ensures swept { AreSwept tables.new }
    ensures none { undo_log.new.items ≡ [] }
    ensures capacity { vec_capacity undo_log.new ≡ vec_capacity undo_log.old }
{
    while let Some(undo_step) = undo_log.pop() {
        undo_step.put_back(tables);
    }
    tables.sweep();
}
