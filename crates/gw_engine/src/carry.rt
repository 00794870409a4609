//! Executing the new requests of a burst: by one worker one after another, by several in chains side by side.

ghost use Rattle.std.specs.Prelude.{◌≡◌, [], map, IfOk, IfErr, OnOk, length, vec_capacity, ◌≤◌};
ghost use Rattle.gw_board.specs.Boards.{core_of, AllClosed, IsSameBurst};
ghost use Rattle.gw_board.specs.Results.{NothingIsOpen, slots_of};
ghost use Rattle.gw_table.specs.Stored.{maps_of, AreSwept, NoneIsOut};
ghost use Rattle.gw_table.specs.Unused.{AreUnused};
ghost use Rattle.gw_table.specs.WellFormed.{AreWellFormed};
ghost use Rattle.gw_engine.specs.Phases.{sent_of, done_by, entries_of, texts_of, answers_of};
ghost use Rattle.gw_engine.specs.Replies.{board_texts, entries_with};

use crate::answers::answers;
use crate::datagram::Datagram;
use crate::items::BurstItem;
use gw_base::{Items, NoMemory};
use gw_board::{Board, BoardFault, BurstRequest, Profile};
use gw_draw::{Gate, Workers};
use gw_kept::{Entry, Kept};
use gw_table::Tables;
use std::alloc::Global;
use std::thread::Threads;

/// What came of a burst: all that takes memory is done.
#[derive(Drop)]
pub(crate) struct Done {
    pub(crate) tables: Tables,
    /// What is to be kept of the new requests.
    pub(crate) entries: Vec<Entry>,
    pub(crate) answers: Items<Datagram>,
}

/// Executes what is pending on the board, and writes the answers. The caller knows that nothing is open, and nothing is
/// open then. One worker executes one request after another; several go stretch by stretch, up to the next request that
/// is whole-table, and execute chains of requests that share no key side by side.
///
/// # Errors
///
/// Out of memory.
fn answered<R: Threads + Sync, G: Gate>(
    workers: &Workers<'_, R, G>,
    alloc: Global,
    profile: &Profile,
    kept: &Kept,
    items: &[BurstItem<'_, '_>],
    board: &mut Board<'_, '_, '_>,
) -> Result<Items<Datagram>, NoMemory>
    requires { NothingIsOpen (core_of board.old) }
    ensures closed { OnOk result (AllClosed board.new.places) }
    ensures answers { IfOk result (λ answers. answers ≡ answers_of profile.now.mid kept.now (board_texts board.new) items.now) }
    ensures none { NothingIsOpen (core_of board.new) }
    ensures same { IsSameBurst board.old board.new }
{
    board.carry_rest(alloc, workers)?;
    answers(workers, alloc, &profile.mid, kept, board, items)
}

/// The pair of each request and its text. The caller knows that there is room for all, and none yet.
fn with_texts(
    mut entries: Vec<Entry>,
    jobs: &[BurstRequest<'_, '_>],
    texts: Vec<Items<u8>>,
) -> Vec<Entry>
    requires none { entries.items ≡ [] }
    requires room { length jobs.now ≤ vec_capacity entries }
    requires each { length texts.items ≡ length jobs.now }
    ensures { result.items ≡ entries_with jobs.now texts.items }
{
    for bytes in texts {
        let job = &jobs[entries.len()];
        let Ok(()) = entries.push(Entry {
            mid: *job.mid.mid(),
            id: job.request.id(),
            bytes,
        }) else {
            unreachable!()
        };
    }
    entries
}

/// Executes requests and writes the answers of a burst, with a board that has the tables for that time. The caller
/// knows that the tables are well-formed, that nothing is out, that each prepared key has an entry, and that the slots
/// that are owned are unused. Then each prepared key has an entry again.
///
/// # Errors
///
/// Out of memory, which hands the tables back as they were.
pub(crate) fn executed_burst<R: Threads + Sync, G: Gate>(
    workers: &Workers<'_, R, G>,
    alloc: Global,
    tables: Tables,
    profile: Profile,
    kept: &Kept,
    items: &[BurstItem<'_, '_>],
    jobs: &[BurstRequest<'_, '_>],
) -> Result<Done, Tables>
    requires whole { AreWellFormed profile.rules.members (maps_of tables) }
    requires here { NoneIsOut tables }
    requires swept { AreSwept tables }
    requires unused { AreUnused (maps_of tables) [] (slots_of jobs.now) }
    ensures tables { IfOk result (λ done. maps_of done.tables ≡ (done_by profile.rules jobs.now (maps_of tables)).maps) }
    ensures entries { IfOk result (λ done. done.entries.items ≡ entries_of profile.mid (map sent_of jobs.now) (done_by profile.rules jobs.now (maps_of tables)).answer) }
    ensures answers { IfOk result (λ done. done.answers ≡ answers_of profile.mid kept.now (texts_of done.entries.items) items.now) }
    ensures here { IfOk result (λ done. NoneIsOut done.tables) }
    ensures swept { IfOk result (λ done. AreSwept done.tables) }
    ensures back { IfErr result (λ back. maps_of back ≡ maps_of tables) }
    ensures back_here { IfErr result (λ back. NoneIsOut back) }
    ensures back_swept { IfErr result (λ back. AreSwept back) }
{
    let Ok(entries) = Vec::with_capacity(alloc, jobs.len()) else {
        return Err(tables);
    };
    let mut board = match Board::new(alloc, tables, profile, jobs) {
        Ok(board) => board,
        Err(BoardFault::NoMemory(tables)) => return Err(tables),
    };
    match answered(workers, alloc, &profile, kept, items, &mut board) {
        Ok(answers) => {
            let (tables, texts) = board.finish();
            Ok(Done {
                tables,
                entries: with_texts(entries, jobs, texts),
                answers,
            })
        }
        Err(NoMemory) => Err(board.undo()),
    }
}
