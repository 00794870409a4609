//! Executing places one after another, on the tables where they lie.

ghost use Rattle.std.specs.Prelude.{◌≡◌, ◌+◌, ◌<◌, ◌≤◌, true, map, take, drop, vec_len, IfSome, OnErr, OnOk, length, slice_get};
ghost use Rattle.gw_table.specs.Parts.{Over, start_of};
ghost use Rattle.gw_table.specs.Stored.{Stored};
ghost use Rattle.gw_board.specs.Alone.{AreSameBeside, FindsFirst};
ghost use Rattle.gw_board.specs.GoingOn.{MayGoOn};
ghost use Rattle.gw_board.specs.Boards.{requested_in, begun_board, core_of, is_closed, is_pending_at, AllClosed, GivesTheFold, IsSameBurst, unclosed};
ghost use Rattle.gw_board.specs.Results.{NothingIsOpen};
ghost use Rattle.gw_board.specs.Met.{PendsAt};
ghost use Rattle.gw_board.specs.BoardEntries.{standing_of, place_of};

use crate::board::Board;
use crate::board_entry::{BoardEntry, Stage, all_pending, set_stage};
use crate::profile::Profile;
use crate::reply::carry_on;
use crate::requested::Task;
use crate::side_by_side::{carry_stretch, end_of_stretch};
use crate::undo_log::put_all_back;
use crate::undo_step::UndoStep;
use gw_base::{Items, NoMemory};
use gw_draw::{Gate, Workers};
use gw_table::{Draft, Tables};
use std::alloc::Global;
use std::mem;
use std::ops::Range;
use std::thread::Threads;

fn is_closed(board_entry: &BoardEntry<'_, '_, '_>) -> bool
    ensures { result ≡ is_closed (standing_of board_entry.now.stage) }
{
    matches!(board_entry.stage, Stage::Closed(_))
}

/// What a place requests, if it is pending.
pub(crate) fn pending_at<'b, 'h, 'a>(
    board_entries: &[BoardEntry<'b, 'h, 'a>],
    place: usize,
) -> Option<Task<'b, 'h, 'a>>
    ensures { PendsAt (slice_get (map place_of board_entries.now) place) result }
{
    let board_entry = board_entries.get(place)?;
    match board_entry.stage {
        Stage::Pending => Some(board_entry.task.again()),
        _ => None,
    }
}

/// Executes what is pending of a range of places, one after another, on a draft of whole tables, and closes each with
/// its reply. The gate is passed before each. The caller knows that nothing is open, that all places before the range
/// are closed, and that what is pending may be executed from the draft's maps on.
///
/// # Errors
///
/// Out of memory. Some places may be closed then, and nothing is known of the draft but its keys.
pub(crate) fn carry_each<G: Gate>(
    alloc: Global,
    profile: &Profile,
    board_entries: &mut Vec<BoardEntry<'_, '_, '_>>,
    places: Range<usize>,
    draft: &mut Draft,
    gate: &G,
) -> Result<(), NoMemory>
    requires range { places.start ≤ places.end }
    requires over { draft.old.keys ≡ Over (start_of draft.old.keys) }
    requires goes_on { (start : Stored) × MayGoOn profile.now start draft.old.maps (map place_of board_entries.old.items) }
    requires first { AllClosed (take places.start (map place_of board_entries.old.items)) }
    ensures goes_on { OnOk result ((start : Stored) → MayGoOn profile.now start draft.old.maps (map place_of board_entries.old.items) → MayGoOn profile.now start draft.new.maps (map place_of board_entries.new.items)) }
    ensures closed { OnOk result (AllClosed (take places.end (map place_of board_entries.new.items))) }
    ensures beside { OnOk result (AreSameBeside places.start places.end (map place_of board_entries.old.items) (map place_of board_entries.new.items)) }
    ensures requested { requested_in (map place_of board_entries.new.items) ≡ requested_in (map place_of board_entries.old.items) }
    ensures len { vec_len board_entries.new ≡ vec_len board_entries.old }
    ensures keys { draft.new.keys ≡ draft.old.keys }
{
    let mut block = Items::new(alloc);
    for place in places.start..places.end {
        let Some(task) = pending_at(board_entries, place) else {
            continue;
        };
        gate.pass(0);
        let text = carry_on(alloc, profile, task.get(), draft, &mut block)?;
        set_stage(board_entries, place, Stage::Closed(text));
    }
    Ok(())
}

/// Executes what is pending of a range of places, stretch by stretch, as `carry_each` does one after another.
fn carry_range<R: Threads + Sync, G: Gate>(
    workers: &Workers<'_, R, G>,
    alloc: Global,
    profile: &Profile,
    board_entries: &mut Vec<BoardEntry<'_, '_, '_>>,
    places: Range<usize>,
    draft: &mut Draft,
) -> Result<(), NoMemory>
    requires inside { places.end ≤ vec_len board_entries.old }
    requires range { places.start ≤ places.end }
    requires over { draft.old.keys ≡ Over (start_of draft.old.keys) }
    requires goes_on { (start : Stored) × MayGoOn profile.now start draft.old.maps (map place_of board_entries.old.items) }
    requires first { AllClosed (take places.start (map place_of board_entries.old.items)) }
    ensures goes_on { OnOk result ((start : Stored) → MayGoOn profile.now start draft.old.maps (map place_of board_entries.old.items) → MayGoOn profile.now start draft.new.maps (map place_of board_entries.new.items)) }
    ensures closed { OnOk result (AllClosed (take places.end (map place_of board_entries.new.items))) }
    ensures beside { OnOk result (AreSameBeside places.start places.end (map place_of board_entries.old.items) (map place_of board_entries.new.items)) }
    ensures requested { requested_in (map place_of board_entries.new.items) ≡ requested_in (map place_of board_entries.old.items) }
    ensures len { vec_len board_entries.new ≡ vec_len board_entries.old }
    ensures keys { draft.new.keys ≡ draft.old.keys }
{
    if workers.count == 1 {
        return carry_each(alloc, profile, board_entries, places, draft, workers.gate);
    }
    let mut first = places.start;
    while first < places.end {
        let end = end_of_stretch(board_entries, first..places.end);
        carry_stretch(workers, alloc, profile, board_entries, first..end, draft)?;
        first = end;
    }
    Ok(())
}

impl Board<'_, '_, '_> {
    /// The first place that is not closed. The caller knows that those before the place `from` are closed, which are
    /// not looked at. While nothing is open, the place that is found is pending.
    pub fn first_unclosed(&self, from: usize) -> Option<usize>
        requires { AllClosed (take from self.now.places) }
        ensures first { FindsFirst self.now.places result }
        ensures pends { NothingIsOpen (core_of self.now) → IfSome result (λ place. is_pending_at (slice_get self.now.places place) ≡ true) }
    {
        for place in from..self.board_entries.len() {
            if !is_closed(&self.board_entries[place]) {
                return Some(place);
            }
        }
        None
    }

    /// Executes what is pending of a range of places, one after another, on one draft of the tables where they lie,
    /// whose undo log is one step of the board's. The caller knows that nothing is open, that all earlier places are
    /// closed, and that the first of these is pending.
    ///
    /// # Errors
    ///
    /// Out of memory. The board is as it was when it was made: every place is pending.
    fn carry_places<R: Threads + Sync, G: Gate>(
        &mut self,
        alloc: Global,
        places: Range<usize>,
        workers: &Workers<'_, R, G>,
    ) -> Result<(), NoMemory>
        requires open { NothingIsOpen (core_of self.old) }
        requires first { AllClosed (take places.start self.old.places) }
        requires pends { is_pending_at (slice_get self.old.places places.start) ≡ true }
        requires range { places.start < places.end }
        requires inside { places.end ≤ length self.old.places }
        ensures none { NothingIsOpen (core_of self.new) }
        ensures closed { OnOk result (AllClosed (take places.end self.new.places)) }
        ensures left { OnOk result (unclosed self.new.places ≡ unclosed (drop places.end self.old.places)) }
        ensures same { IsSameBurst self.old self.new }
        ensures outcome { GivesTheFold self.new }
        ensures err { OnErr result (self.new ≡ begun_board self.old.profile (requested_in self.old.places) self.old.start) }
    {
        let tables = mem::replace(&mut self.tables, Tables::new(alloc));
        let mut draft = Draft::of_tables(alloc, tables);
        let Ok(()) = carry_range(
            workers,
            alloc,
            &self.profile,
            &mut self.board_entries,
            places,
            &mut draft,
        ) else {
            self.tables = draft.undone();
            put_all_back(&mut self.tables, &mut self.undo_log);
            all_pending(&mut self.board_entries);
            return Err(NoMemory);
        };
        let (tables, found) = draft.into_tables();
        self.tables = tables;
        self.undo_log.push_reserved(UndoStep::of_writes(found));
        Ok(())
    }

    /// Executes all that is pending, on one draft of the tables where they lie. One worker executes one place after
    /// another, and passes the gate with the number 0 before each. Several go stretch by stretch, up to the next request
    /// that is whole-table: chains of requests that share no key are executed side by side, each by one worker, who
    /// passes the gate with the chain's number; a stretch that is one chain is executed as by one worker. What stood
    /// where the commands write goes to the undo log, once for each key. The caller knows that nothing is open.
    ///
    /// # Errors
    ///
    /// Out of memory. The board is as it was when it was made: every place is pending.
    pub fn carry_rest<R: Threads + Sync, G: Gate>(
        &mut self,
        alloc: Global,
        workers: &Workers<'_, R, G>,
    ) -> Result<(), NoMemory>
        requires open { NothingIsOpen (core_of self.old) }
        ensures none { NothingIsOpen (core_of self.new) }
        ensures closed { OnOk result (AllClosed self.new.places) }
        ensures same { IsSameBurst self.old self.new }
        ensures outcome { GivesTheFold self.new }
        ensures err { OnErr result (self.new ≡ begun_board self.old.profile (requested_in self.old.places) self.old.start) }
    {
        let end = self.board_entries.len();
        match self.first_unclosed(0) {
            Some(first) => self.carry_places(alloc, first..end, workers),
            None => Ok(()),
        }
    }
}
