//! Executing the requests of a stretch of places side by side, each chain by one worker.

ghost use Rattle.std.specs.Prelude.{◌≡◌, ◌+◌, ◌-◌, ◌<◌, ◌≤◌, ℕ, length, map, take, drop, true, is_ok, vec_len, All, IfOk, OnOk};
ghost use Rattle.std.specs.List.{list_all, AllZip};
ghost use Rattle.std.specs.Vec.Iter.{into_iter_items};
ghost use Rattle.gw_table.specs.Maps.{Maps};
ghost use Rattle.gw_table.specs.Parts.{Over, start_of};
ghost use Rattle.gw_table.specs.Stored.{Stored};
ghost use Rattle.gw_board.specs.Alone.{AreSameBeside};
ghost use Rattle.gw_board.specs.BoardEntries.{place_of};
ghost use Rattle.gw_board.specs.Boards.{requested_in, AllClosed};
ghost use Rattle.gw_board.specs.Carried.{carried};
ghost use Rattle.gw_board.specs.Chained.{all_overlaid, texts_in, AreTexts, TakesNext, IsChainAnswer};
ghost use Rattle.gw_board.specs.Chains.{requests_of};
ghost use Rattle.gw_board.specs.GoingOn.{MayGoOn};
ghost use Rattle.gw_board.specs.Stretches.{chained, AreChained};
ghost use Rattle.gw_board.specs.declared.profile.Profile.{Profile as AProfile};

use crate::alone::{carry_each, pending_at};
use crate::board_entry::{BoardEntry, Stage, is_pending_at, set_stage};
use crate::chain::{Answer, Chain, chains_with_tasks};
use crate::chains::{Chains, chains_of};
use crate::profile::Profile;
use crate::requested::is_seen_for_all;
use gw_base::{Items, NoMemory};
use gw_draw::{Gate, Workers, draw_map};
use gw_table::Draft;
use std::alloc::Global;
use std::ops::Range;
use std::thread::Threads;
use std::vec::IntoIter;

/// The most jobs that are drawn.
const MOST_DRAWN: usize = 4_294_967_295;

/// Texts of replies that are left of a chain, in their order.
type Texts = IntoIter<Items<u8>>;

/// Lays what the chains came to over the draft: the texts of each chain.
///
/// # Errors
///
/// Out of memory, for one of them or here. Nothing is known of the draft then but its keys.
fn lay_all(alloc: Global, draft: &mut Draft, answers: Vec<Answer>) -> Result<Vec<Texts>, NoMemory>
    requires over { draft.old.keys ≡ Over (start_of draft.old.keys) }
    ensures maps { OnOk result (draft.new.maps ≡ all_overlaid answers.items draft.old.maps) }
    ensures texts { IfOk result (λ texts. map into_iter_items texts.items ≡ map texts_in answers.items) }
    ensures ok { OnOk result (list_all is_ok answers.items ≡ true) }
    ensures keys { draft.new.keys ≡ draft.old.keys }
{
    let mut texts = Vec::with_capacity(alloc, answers.len())?;
    for answer in answers {
        let (part, replies) = answer?;
        draft.lay(part)?;
        texts.push(replies.into_vec().into_iter())?;
    }
    Ok(texts)
}

/// Takes the next text of a chain, if there is one.
fn next_text(texts: &mut Vec<Texts>, number: usize) -> Option<Items<u8>>
    requires { number < vec_len texts.old }
    ensures next { TakesNext number (map into_iter_items texts.old.items) result (map into_iter_items texts.new.items) }
    ensures len { vec_len texts.new ≡ vec_len texts.old }
{
    texts[number].next()
}

/// Closes what is pending of a range of places, each place with the next text of its chain.
fn close_chained(
    board_entries: &mut Vec<BoardEntry<'_, '_, '_>>,
    places: Range<usize>,
    numbers: &[usize],
    texts: &mut Vec<Texts>,
)
    requires inside { places.end ≤ vec_len board_entries.old }
    requires range { places.start + length numbers.now ≡ places.end }
    requires numbered { All (λ g. g < vec_len texts.old) numbers.now }
    requires goes_on { (profile : AProfile) × (start : Stored) × (m : Maps) × MayGoOn profile start m (map place_of board_entries.old.items) × AreTexts profile (chained numbers.now (drop places.start (map place_of board_entries.old.items))) m (map into_iter_items texts.old.items) }
    requires first { AllClosed (take places.start (map place_of board_entries.old.items)) }
    ensures goes_on { (profile : AProfile) (start : Stored) (m : Maps) → MayGoOn profile start m (map place_of board_entries.old.items) → AreTexts profile (chained numbers.now (drop places.start (map place_of board_entries.old.items))) m (map into_iter_items texts.old.items) → MayGoOn profile start (carried profile (requests_of (chained numbers.now (drop places.start (map place_of board_entries.old.items)))) m).maps (map place_of board_entries.new.items) }
    ensures closed { AllClosed (take places.end (map place_of board_entries.new.items)) }
    ensures beside { AreSameBeside places.start places.end (map place_of board_entries.old.items) (map place_of board_entries.new.items) }
    ensures requested { requested_in (map place_of board_entries.new.items) ≡ requested_in (map place_of board_entries.old.items) }
    ensures len { vec_len board_entries.new ≡ vec_len board_entries.old }
{
    for place in places.start..places.end {
        if !is_pending_at(board_entries, place) {
            continue;
        }
        let Some(text) = next_text(texts, numbers[place - places.start]) else {
            unreachable!()
        };
        set_stage(board_entries, place, Stage::Closed(text));
    }
}

/// What each chain comes to, by as many workers as there are and as the chains allow.
fn answers_of<R: Threads + Sync, G: Gate>(
    workers: &Workers<'_, R, G>,
    alloc: Global,
    chains: Vec<Chain<'_, '_, '_, '_>>,
) -> Result<Vec<Answer>, NoMemory>
    ensures { IfOk result (λ answers. AllZip IsChainAnswer chains.entry.items answers.items) }
{
    if chains.len() > MOST_DRAWN {
        return Err(NoMemory);
    }
    let drawn = draw_map(
        workers.rt,
        alloc,
        workers.count,
        &chains,
        move |chain: &Chain<'_, '_, '_, '_>| chain.execute(alloc),
        workers.gate,
    )?;
    Ok(drawn)
}

/// Executes the chains of a range of places.
fn carry_chains<R: Threads + Sync, G: Gate>(
    workers: &Workers<'_, R, G>,
    alloc: Global,
    profile: &Profile,
    board_entries: &mut Vec<BoardEntry<'_, '_, '_>>,
    places: Range<usize>,
    chains: Chains,
    draft: &mut Draft,
) -> Result<(), NoMemory>
    requires inside { places.end ≤ vec_len board_entries.old }
    requires range { places.start ≤ places.end }
    requires over { draft.old.keys ≡ Over (start_of draft.old.keys) }
    requires goes_on { (start : Stored) × MayGoOn profile.now start draft.old.maps (map place_of board_entries.old.items) }
    requires first { AllClosed (take places.start (map place_of board_entries.old.items)) }
    requires chained { AreChained chains.numbers.items chains.keys.items draft.old.maps (map place_of (take (places.end - places.start) (drop places.start board_entries.old.items))) }
    ensures goes_on { OnOk result ((start : Stored) → MayGoOn profile.now start draft.old.maps (map place_of board_entries.old.items) → MayGoOn profile.now start draft.new.maps (map place_of board_entries.new.items)) }
    ensures closed { OnOk result (AllClosed (take places.end (map place_of board_entries.new.items))) }
    ensures beside { OnOk result (AreSameBeside places.start places.end (map place_of board_entries.old.items) (map place_of board_entries.new.items)) }
    ensures requested { requested_in (map place_of board_entries.new.items) ≡ requested_in (map place_of board_entries.old.items) }
    ensures len { vec_len board_entries.new ≡ vec_len board_entries.old }
    ensures keys { draft.new.keys ≡ draft.old.keys }
{
    let Chains { numbers, keys } = chains;
    let stretch = &board_entries[places.start..places.end];
    let jobs = chains_with_tasks(alloc, profile, draft.tables(), stretch, &numbers, keys)?;
    let answers = answers_of(workers, alloc, jobs)?;
    let mut texts = lay_all(alloc, draft, answers)?;
    close_chained(board_entries, places, &numbers, &mut texts);
    Ok(())
}

/// Executes what is pending of a stretch, which may go side by side: its chains by the workers, or where it
/// is one chain, one after another.
pub(crate) fn carry_stretch<R: Threads + Sync, G: Gate>(
    workers: &Workers<'_, R, G>,
    alloc: Global,
    profile: &Profile,
    board_entries: &mut Vec<BoardEntry<'_, '_, '_>>,
    places: Range<usize>,
    draft: &mut Draft,
) -> Result<(), NoMemory>
    requires inside { places.end ≤ vec_len board_entries.old }
    requires range { places.start ≤ places.end }
    requires over { draft.old.keys ≡ Over (start_of draft.old.keys) }
    requires goes_on { (start : Stored) × MayGoOn profile.now start draft.old.maps (map place_of board_entries.old.items) }
    requires first { AllClosed (take places.start (map place_of board_entries.old.items)) }
    ensures goes_on { OnOk result ((start : Stored) → MayGoOn profile.now start draft.old.maps (map place_of board_entries.old.items) → MayGoOn profile.now start draft.new.maps (map place_of board_entries.new.items)) }
    ensures closed { OnOk result (AllClosed (take places.end (map place_of board_entries.new.items))) }
    ensures beside { OnOk result (AreSameBeside places.start places.end (map place_of board_entries.old.items) (map place_of board_entries.new.items)) }
    ensures requested { requested_in (map place_of board_entries.new.items) ≡ requested_in (map place_of board_entries.old.items) }
    ensures len { vec_len board_entries.new ≡ vec_len board_entries.old }
    ensures keys { draft.new.keys ≡ draft.old.keys }
{
    if places.end - places.start < 2 {
        return carry_each(alloc, profile, board_entries, places, draft, workers.gate);
    }
    let stretch = &board_entries[places.start..places.end];
    match chains_of(alloc, draft.tables(), stretch)? {
        Some(chains) if chains.keys.len() > 1 => carry_chains(
            workers,
            alloc,
            profile,
            board_entries,
            places,
            chains,
            draft,
        ),
        _ => carry_each(alloc, profile, board_entries, places, draft, workers.gate),
    }
}

/// Behind the last place of the stretch that begins with the first place of a range: it ends before the next place
/// whose request is seen to be whole-table, and such a place is one by itself.
pub(crate) fn end_of_stretch(
    board_entries: &[BoardEntry<'_, '_, '_>],
    places: Range<usize>,
) -> usize
    requires { places.start < places.end }
    ensures after { places.start < result }
    ensures within { result ≤ places.end }
{
    for place in places.start..places.end {
        if let Some(board_entry) = board_entries.get(place) {
            if is_seen_for_all(board_entry.task.get()) {
                return if place == places.start {
                    place + 1
                } else {
                    place
                };
            }
        }
    }
    places.end
}
