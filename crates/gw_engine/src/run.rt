//! Answering bursts of datagrams.

ghost use Rattle.std.specs.Prelude.{◌≡◌, ◌≤◌, [], IfOk, OnOk, OnErr};
ghost use Rattle.gw_board.specs.Results.{slots_of};
ghost use Rattle.gw_kept.specs.Changes.{changes_of, AreNew};
ghost use Rattle.gw_reserve.specs.Owners.{AreWithin};
ghost use Rattle.gw_table.specs.Unused.{AreUnused};
ghost use Rattle.gw_engine.specs.Bursts.{AnswersBurst};
ghost use Rattle.gw_engine.specs.Counts.{counts_of, CountsBurst};
ghost use Rattle.gw_engine.specs.Phases.{table_of, new_of, ids_in, turns_of, AreJobs, cursors_behind, done_by, kept_of, texts_of, answers_of, adopted};
ghost use Rattle.gw_engine.specs.Readable.{CanBeRead};
ghost use Rattle.gw_engine.specs.State.{IsWellFormed};

use crate::carry::{Done, executed_burst};
use crate::classify::classify;
use crate::counts::BurstCounts;
use crate::datagram::Datagram;
use crate::gateway::Gateway;
use crate::items::{BurstItem, items_of, turns_of};
use crate::reading::{ReadDatagram, arena_for, keeps_trees, read_burst};
use gw_base::{Items, NoMemory};
use gw_board::{BurstRequest, Profile};
use gw_draw::{Gate, Workers};
use gw_kept::Turn;
use gw_reserve::Cursors;
use gw_table::Tables;
use std::alloc::Global;
use std::mem;
use std::thread::Threads;

/// What is known of a burst before its first transaction.
#[derive(Drop)]
struct Plan<'h, 'a> {
    items: Vec<BurstItem<'h, 'a>>,
    jobs: Items<BurstRequest<'h, 'a>>,
    cursors: Cursors,
    turns: Items<Turn<'h>>,
    counts: BurstCounts,
}

/// The answers to a burst, and how many of its requests there are of each class.
#[derive(Drop)]
pub struct BurstAnswers {
    /// In order of arrival, each for the peer of the datagram that it answers.
    pub answers: Items<Datagram>,
    /// Of the classes of the burst.
    pub counts: BurstCounts,
}

impl Gateway {
    /// Fills the table, and reserves what new requests own: the phases before the first transaction.
    fn plan<'h, 'a>(
        &self,
        alloc: Global,
        messages: &'h [ReadDatagram<'a>],
    ) -> Result<Plan<'h, 'a>, NoMemory>
        ensures items { IfOk result (λ plan. plan.items.items ≡ table_of self.now messages.now) }
        ensures jobs { IfOk result (λ plan. AreJobs (new_of self.now messages.now) (ids_in self.now (new_of self.now messages.now)) plan.jobs) }
        ensures cursors { IfOk result (λ plan. plan.cursors ≡ cursors_behind self.now messages.now) }
        ensures within { IfOk result (λ plan. AreWithin self.now.settings.contexts self.now.settings.slots plan.cursors) }
        ensures turns { IfOk result (λ plan. plan.turns ≡ turns_of self.now messages.now) }
        ensures counts { IfOk result (λ plan. plan.counts ≡ counts_of self.now messages.now) }
    {
        let mut items = items_of(alloc, messages)?.into_vec();
        let counts = classify(alloc, &self.kept, items.as_mut_slice())?;
        let reserved = self.reserve(alloc, items.as_slice(), counts.executed)?;
        let turns = turns_of(alloc, items.as_slice())?;
        Ok(Plan {
            items,
            jobs: reserved.jobs,
            cursors: reserved.cursors,
            turns,
            counts,
        })
    }

    /// Executes what is planned, and makes what comes of it the gateway's state. The tables leave the gateway for that
    /// time. The caller knows that the slots that are owned are unused, that each new pair's key is new at its turn,
    /// and that the new state is well-formed.
    ///
    /// # Errors
    ///
    /// Out of memory. The gateway is as it was.
    fn perform<R: Threads + Sync, G: Gate>(
        &mut self,
        workers: &Workers<'_, R, G>,
        alloc: Global,
        plan: Plan<'_, '_>,
    ) -> Result<Items<Datagram>, NoMemory>
        requires unused { AreUnused self.old.state.maps [] (slots_of plan.jobs) }
        requires new { AreNew self.old.state.kept (changes_of plan.turns (kept_of self.old plan.jobs)) }
        requires fits { IsWellFormed self.old.settings (adopted self.old.state (done_by self.old.settings.rules plan.jobs self.old.state.maps).maps plan.cursors (changes_of plan.turns (kept_of self.old plan.jobs))) }
        ensures answers { IfOk result (λ answers. answers ≡ answers_of self.old.settings.mid self.old.state.kept (texts_of (kept_of self.old plan.entry.jobs)) plan.entry.items.items) }
        ensures settings { self.new.settings ≡ self.old.settings }
        ensures state { OnOk result (self.new.state ≡ adopted self.old.state (done_by self.old.settings.rules plan.entry.jobs self.old.state.maps).maps plan.entry.cursors (changes_of plan.entry.turns (kept_of self.old plan.entry.jobs))) }
        ensures err { OnErr result (self.new ≡ self.old) }
        ensures well_formed { IsWellFormed self.new.settings self.new.state }
    {
        let profile = Profile {
            rules: self.rules,
            mid: self.mid,
        };
        let Plan {
            items,
            jobs,
            cursors,
            turns,
            counts: _,
        } = plan;
        let tables = mem::replace(&mut self.tables, Tables::new(alloc));
        match executed_burst(
            workers,
            alloc,
            tables,
            profile,
            &self.kept,
            items.as_slice(),
            jobs.as_slice(),
        ) {
            Ok(done) => {
                let Done {
                    tables,
                    entries,
                    answers,
                } = done;
                self.tables = tables;
                self.cursors = cursors;
                self.kept.change(turns.as_slice(), entries);
                Ok(answers)
            }
            Err(tables) => {
                self.tables = tables;
                Err(NoMemory)
            }
        }
    }

    /// Answers a burst: its items in order of arrival, one after another. A text that is no message is answered with
    /// error 406 or 400. A request whose reply is kept gets it again and changes nothing; any other is executed and
    /// its reply kept, but those behind 1,024 new ones, which get error 510. An acknowledgement removes the replies
    /// that it names, and has no answer; neither has anything else. Each answer is for the peer of the datagram that
    /// it answers, and is a message of the grammar. The burst may have any number of datagrams, each of any length.
    ///
    /// With one worker each request is executed by itself, in order of arrival, and passes the gate with number 0.
    /// With more, they go stretch by stretch: a stretch ends before the next request that is whole-table, which is one
    /// by itself. Requests of a stretch that share a key, directly or by others, are a chain. The chains are executed
    /// side by side, the requests of each in order. The tables are not copied: a request changes them in place, or,
    /// where a stretch has several chains, a copy of the entries at the chain's keys, which goes into the tables once
    /// all of them are executed; and the undo log is kept until the burst is over.
    ///
    /// The chains of a stretch are executed by so many workers, 1 to 64, in threads; the caller is one of them and
    /// waits for the others. Each draws the next chain until none is left, and passes the gate just before it, with
    /// the chain's number within its stretch, from 0. A stretch has as many workers as chains at most; where it is one
    /// chain, it is executed as by one worker, and no thread is started. Answers and state are the same for every
    /// number of workers, however they are scheduled. A worker that cannot be started is no fault. A `pass` that never
    /// returns holds up the call. Answers are written by workers too where replies have more than 1,048,576 bytes; there
    /// they pass no gate. The lists of what is read lie in an arena, which is freed when the burst is over, so a burst
    /// is read by the caller alone.
    ///
    /// Once the trees of what is read take more than 16,777,216 bytes, those of later datagrams are not kept: each of
    /// their requests is read when the burst comes in, once more for what it owns and once more to be executed, and one
    /// worker executes the burst, one request after another. So a burst of datagrams of UDP takes some 40 MB for its
    /// trees at most, and beside that by the number of its transactions. Of a datagram of more than 1,048,576 bytes no
    /// trees are kept.
    ///
    /// # Errors
    ///
    /// Out of memory, at any allocation. The gateway is then as it was, cursors and kept replies included.
    pub fn run<R: Threads + Sync, G: Gate>(
        &mut self,
        rt: &R,
        alloc: Global,
        workers: u32,
        burst: &[Datagram],
        gate: &G,
    ) -> Result<Items<Datagram>, NoMemory>
        requires some { 1 ≤ workers }
        requires limit { workers ≤ 64 }
        ensures ok { IfOk result (λ answers. AnswersBurst self.old burst.now answers self.new) }
        ensures readable { IfOk result (CanBeRead self.old.settings.mid burst.now) }
        ensures err { OnErr result (self.new ≡ self.old) }
        ensures fits { IsWellFormed self.new.settings self.new.state }
    {
        let workers = Workers::new(rt, workers, gate);
        Ok(self.run_counted(alloc, &workers, burst)?.answers)
    }

    /// Answers a burst as `run` does, and counts its requests by their classes.
    ///
    /// # Errors
    ///
    /// Those of `run`.
    pub fn run_counted<R: Threads + Sync, G: Gate>(
        &mut self,
        alloc: Global,
        workers: &Workers<'_, R, G>,
        burst: &[Datagram],
    ) -> Result<BurstAnswers, NoMemory>
        ensures ok { IfOk result (λ done. AnswersBurst self.old burst.now done.answers self.new) }
        ensures counts { IfOk result (λ done. CountsBurst self.old burst.now done.counts) }
        ensures readable { IfOk result (λ done. CanBeRead self.old.settings.mid burst.now done.answers) }
        ensures err { OnErr result (self.new ≡ self.old) }
        ensures fits { IsWellFormed self.new.settings self.new.state }
    {
        // No effect at run time. The proof reads here that the state is well-formed.
        let _ = &self.tables;
        let bump = arena_for(alloc, burst)?;
        let messages = read_burst(alloc, &bump, burst)?;
        let plan = self.plan(alloc, messages.as_slice())?;
        let counts = plan.counts;
        let answers = self.perform(&workers.alone_unless(keeps_trees(&bump)), alloc, plan)?;
        Ok(BurstAnswers { answers, counts })
    }
}
