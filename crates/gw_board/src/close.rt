//! Closing a job, and the end of a board. Nothing here takes memory.

ghost use Rattle.std.specs.Prelude.{◌≡◌, true};
ghost use Rattle.gw_table.specs.Stored.{maps_of, AreSwept, AreSweptAmong, KeepReady, NoneIsOut};
ghost use Rattle.gw_board.specs.Boards.{requested_in, after_end, AllClosed, core_of, GivesTheFold, HasOpen, outcome_of, unchanged, with_result};
ghost use Rattle.gw_board.specs.Carried.{carried};
ghost use Rattle.gw_board.specs.Fitting.{Each};
ghost use Rattle.gw_board.specs.Jobs.{new_part};
ghost use Rattle.gw_board.specs.Results.{NothingIsOpen};

use crate::board::Board;
use crate::board_entry::{BoardEntry, Stage, set_stage};
use crate::job::{Done, Job};
use crate::undo_log::put_all_back;
use crate::undo_step::UndoStep;
use gw_base::Items;
use gw_table::{Part, Tables};

/// Ends the preparation of keys that have no entry: of those of the undo log, or of all.
fn sweep_logged(tables: &mut Tables, undo_log: &[UndoStep], all: bool)
    requires { NoneIsOut tables.old }
    ensures maps { maps_of tables.new ≡ maps_of tables.old }
    ensures here { NoneIsOut tables.new }
    ensures swept { Each (λ o. AreSweptAmong o.keys tables.new) undo_log.now }
    ensures all { all ≡ true → AreSwept tables.new }
    ensures fewer { KeepReady tables.new tables.old }
{
    if all {
        tables.sweep();
        return;
    }
    for undo_step in undo_log {
        undo_step.sweep(tables);
    }
}

impl<'b, 'h, 'a> Board<'b, 'h, 'a> {
    /// The job's new entries go into the tables, and its reply stands at its place. The part that it had goes to the
    /// undo log.
    fn close_with(&mut self, job: Job<'_, '_, '_>, part: Part, reply: Items<u8>)
        requires open { HasOpen self.old job }
        requires part { part ≡ new_part job }
        requires reply { reply ≡ (outcome_of job).answer }
        ensures board { self.new ≡ with_result self.old job.entry }
        ensures outcome { GivesTheFold self.new }
    {
        let Job {
            place,
            profile: _,
            task: _,
            part: undo_step,
        } = job;
        self.tables.put_back(part);
        set_stage(&mut self.board_entries, place, Stage::Closed(reply));
        self.undo_log.push_reserved(UndoStep::of_job(undo_step));
    }

    /// The job's entries go back as they were, and its place is pending again.
    fn take_back(&mut self, job: Job<'_, '_, '_>)
        requires { HasOpen self.old job }
        ensures board { self.new ≡ unchanged self.old job.entry }
        ensures outcome { GivesTheFold self.new }
    {
        let Job {
            place,
            profile: _,
            task: _,
            part: back,
        } = job;
        self.tables.put_back(back);
        self.sweeps_all = true;
        set_stage(&mut self.board_entries, place, Stage::Pending);
    }

    /// Closes a job. With its result, its new entries go into the tables, its reply stands at its place, and the part
    /// that it had goes to the undo log; unchanged, its entries go back and its place is pending again. The
    /// caller knows that this board has the job open. The work is a look-up for each of its keys.
    pub fn close(&mut self, done: Done<'_, '_, '_>)
        requires { HasOpen self.old done.job }
        ensures board { self.new ≡ after_end self.old done.entry }
        ensures outcome { GivesTheFold self.new }
    {
        let Done { job, result_of_job } = done;
        match result_of_job {
            Some((part, reply)) => self.close_with(job, part, reply),
            None => self.take_back(job),
        }
    }

    /// The tables as they were when the board was made: its undo steps go back, the last one first. The
    /// caller knows that nothing is open. No key without an entry stays prepared. The work is a look-up for each key
    /// of the undo log, and one pass over all rows.
    pub fn undo(self) -> Tables
        requires { NothingIsOpen (core_of self) }
        ensures maps { maps_of result ≡ (maps_of self.entry.start) }
        ensures here { NoneIsOut result }
        ensures swept { AreSwept result }
    {
        let Board {
            mut tables,
            profile: _,
            board_entries: _,
            sweeps_all: _,
            mut undo_log,
            replies: _,
            start: _,
        } = self;
        put_all_back(&mut tables, &mut undo_log);
        tables
    }

    /// The tables, and the texts of the replies in the order of the places: what executing the requests one after
    /// another gives, on the tables that the board was made with. The caller knows that every place is closed with a
    /// reply. Where each prepared key had an entry then, each has one now: the work is a look-up for each key of the
    /// undo log, or one pass over all rows, where places that were executed alone wrote many keys, or where a job was
    /// closed unchanged.
    pub fn finish(self) -> (Tables, Vec<Items<u8>>)
        requires { AllClosed self.places }
        ensures maps { maps_of result.0 ≡ (carried self.entry.profile (requested_in self.entry.places) (maps_of self.entry.start)).maps }
        ensures replies { result.1.items ≡ (carried self.entry.profile (requested_in self.entry.places) (maps_of self.entry.start)).answer }
        ensures here { NoneIsOut result.0 }
        ensures swept { AreSwept self.entry.start → AreSwept result.0 }
    {
        let Board {
            mut tables,
            profile: _,
            board_entries,
            sweeps_all,
            undo_log,
            mut replies,
            start: _,
        } = self;
        for board_entry in board_entries {
            let BoardEntry { task: _, stage } = board_entry;
            let Stage::Closed(reply) = stage else {
                unreachable!()
            };
            replies.push_reserved(reply);
        }
        sweep_logged(&mut tables, &undo_log, sweeps_all);
        (tables, replies)
    }
}
