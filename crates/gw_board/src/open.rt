//! Opening a place.

ghost use Rattle.std.specs.Prelude.{◌≡◌, ◌∷◌, IfOk, List, OnErr, OnOk, IfErr, map, slice_get, Some};
ghost use Rattle.std.specs.List.{list_any};
ghost use Rattle.gw_base.specs.Keys.{has, same_key};
ghost use Rattle.gw_table.specs.KeyLists.{IsListOf};
ghost use Rattle.gw_table.specs.Stored.{maps_of};
ghost use Rattle.gw_foot.specs.Meets.{meets};
ghost use Rattle.gw_board.specs.Boards.{core_of, GivesTheFold, Opens};
ghost use Rattle.gw_board.specs.Carried.{keys_of};
ghost use Rattle.gw_board.specs.Core.{pending, meets_at, MayOpen};
ghost use Rattle.gw_board.specs.Met.{FindsFirstMet, IsRefused, PendsAt};
ghost use Rattle.gw_board.specs.BoardEntries.{standing_of, place_of};

use crate::alone::pending_at;
use crate::board::Board;
use crate::board_entry::{BoardEntry, Stage, set_stage};
use crate::fault::OpenFault;
use crate::job::Job;
use crate::requested::Task;
use bumpalo::Bump;
use gw_base::{Key, NoMemory};
use gw_foot::{footprint, meets};
use gw_table::{Keys, Tables};
use std::alloc::Global;
use std::snapshot::Snapshot;

/// The keys of a request, in the tables as they are.
pub(crate) fn keys_of(
    alloc: Global,
    tables: &Tables,
    task: &Task<'_, '_, '_>,
) -> Result<Keys, NoMemory>
    ensures { IfOk result (λ keys. IsListOf keys (keys_of task.now (maps_of tables.now))) }
{
    let requested = task.get();
    let scratch = Bump::new(alloc);
    let tree = requested.request.tree(&scratch)?;
    footprint(alloc, tables, tree, &requested.owned)
}

/// Whether two keys are the same.
pub(crate) fn is_same(a: &Key, b: &Key) -> bool
    ensures { result ≡ same_key a.now b.now }
{
    match (a, b) {
        (Key::Term(a), Key::Term(b)) => a == b,
        (Key::Ctx(a), Key::Ctx(b)) => a.0 == b.0,
        (Key::Whole, Key::Whole) => true,
        _ => false,
    }
}

pub(crate) fn has_key(keys: &[Key], key: &Key) -> bool
    ensures { result ≡ has keys.now key.now }
{
    keys.iter().any(|other| is_same(key, other))
}

/// Whether a key is in both lists.
fn share_a_key(a: &[Key], b: &[Key]) -> bool
    ensures { result ≡ list_any (has a.now) b.now }
{
    b.iter().any(|key| has_key(a, key))
}

/// Whether keys of an open job and others meet.
fn lists_meet(a: &[Key], b: &[Key]) -> bool
    ensures { result ≡ meets a.now b.now }
{
    has_key(a, &Key::Whole) || has_key(b, &Key::Whole) || share_a_key(a, b)
}

/// Whether keys meet those of a pending place, in the tables as they are, or of an open job.
fn does_meet(
    alloc: Global,
    tables: &Tables,
    board_entry: &BoardEntry<'_, '_, '_>,
    keys: &Keys,
) -> Result<bool, NoMemory>
    ensures { IfOk result (λ met. met ≡ meets_at keys.now (maps_of tables.now) board_entry.now.task (standing_of board_entry.now.stage)) }
{
    match &board_entry.stage {
        Stage::Pending => {
            let theirs = keys_of(alloc, tables, &board_entry.task)?;
            Ok(meets(&theirs, keys))
        }
        Stage::Opened { keys: theirs, .. } => Ok(lists_meet(theirs, keys.list())),
        Stage::Closed(_) => Ok(false),
    }
}

/// The first of the places, pending or open, that keys meet.
fn first_met(
    alloc: Global,
    tables: &Tables,
    board_entries: &[BoardEntry<'_, '_, '_>],
    keys: &Keys,
) -> Result<Option<usize>, NoMemory>
    ensures { IfOk result (FindsFirstMet keys.now (maps_of tables.now) (map place_of board_entries.now)) }
{
    for (at, board_entry) in board_entries.iter().enumerate() {
        if does_meet(alloc, tables, board_entry, keys)? {
            return Ok(Some(at));
        }
    }
    Ok(None)
}

impl<'b, 'h, 'a> Board<'b, 'h, 'a> {
    /// What a pending place requests.
    pub(crate) fn pending_task(&self, place: usize) -> Option<Task<'b, 'h, 'a>>
        ensures { PendsAt (slice_get self.now.places place) result }
    {
        pending_at(&self.board_entries, place)
    }

    /// The keys of a pending place, which meet those of no earlier one.
    fn free_keys(
        &self,
        alloc: Global,
        place: usize,
        task: &Task<'_, '_, '_>,
    ) -> Result<Keys, OpenFault>
        requires { slice_get self.now.places place ≡ Some (pending task.now) }
        ensures free { IfOk result (λ keys. MayOpen (core_of self.now) place task.now keys) }
        ensures fault { IfErr result (IsRefused self.now place) }
    {
        let keys = keys_of(alloc, &self.tables, task)?;
        match first_met(alloc, &self.tables, &self.board_entries[..place], &keys)? {
            Some(earlier) => Err(OpenFault::Meets(earlier)),
            None => Ok(keys),
        }
    }

    /// Takes the entries of the keys out, and hands them out as a job.
    fn hand_out(
        &mut self,
        alloc: Global,
        place: usize,
        task: Task<'b, 'h, 'a>,
        keys: Keys,
    ) -> Result<Job<'b, 'h, 'a>, NoMemory>
        requires { MayOpen (core_of self.old) place task keys }
        ensures job { IfOk result (λ job. Opens self.old place job self.new) }
        ensures outcome { OnOk result (GivesTheFold self.new) }
        ensures err { OnErr result (self.new ≡ self.old) }
    {
        let listed = Vec::from_slice(alloc, keys.list())?;
        let mut prepared = keys;
        let Ok(()) = self.tables.prepare(&mut prepared) else {
            self.sweeps_all = true;
            return Err(NoMemory);
        };
        let part = self.tables.take_out(prepared);
        let visible = Snapshot::of(&part);
        let profile = self.profile;
        set_stage(
            &mut self.board_entries,
            place,
            Stage::Opened {
                keys: listed,
                part: visible,
            },
        );
        Ok(Job {
            place,
            profile,
            task,
            part,
        })
    }

    /// Opens a pending place whose keys, in the tables as they are, meet those of no earlier place that is pending or
    /// open: their entries go out of the tables into the job. Room for what may come into being at these keys is made
    /// here, so that closing takes no memory. The footprint of each earlier pending place is looked at.
    ///
    /// # Errors
    ///
    /// `NotPending` where the place is open, closed or not there; else `Meets` with the first earlier place that is
    /// met; out of memory. The board is as it was.
    pub fn open(&mut self, alloc: Global, place: usize) -> Result<Job<'b, 'h, 'a>, OpenFault>
        ensures job { IfOk result (λ job. Opens self.old place job self.new) }
        ensures outcome { OnOk result (GivesTheFold self.new) }
        ensures fault { IfErr result (IsRefused self.old place) }
        ensures stays { OnErr result (self.new ≡ self.old) }
    {
        let Some(task) = self.pending_task(place) else {
            return Err(OpenFault::NotPending);
        };
        let keys = self.free_keys(alloc, place, &task)?;
        Ok(self.hand_out(alloc, place, task, keys)?)
    }
}
