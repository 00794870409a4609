//! An answer for each job, by many workers.

ghost use Rattle.std.specs.Prelude.{◌≡◌, ℕ, ◌<◌, ◌≤◌, ◌^◌, [], All, length, IfOk, vec_len, map, Some, None, IsSome, slice_index_or, slice_set, replicate};
ghost use Rattle.gw_draw.specs.Draws.{view};
ghost use Rattle.gw_draw.specs.Answers.{IsSeatOf, view_of, Accepts, IsFresh, IsRun, GivesEach, placed};

use crate::draw::draw_all;
use crate::gate::Gate;
use crate::table::{Seat, Table};
use gw_base::NoMemory;
use std::alloc::Global;
use std::thread;
use std::thread::Threads;

/// A worker's run: its seat, and what it answered.
#[derive(Drop)]
pub(crate) struct Run<X> {
    seat: Seat,
    answers: Vec<(u64, X)>,
}

/// A seat for each worker.
fn seats(
    alloc: Global,
    table: &Table,
    mut first: Seat,
    workers: usize,
) -> Result<Vec<Seat>, NoMemory>
    requires table { IsSeatOf table.now first }
    requires some { 0 < workers }
    requires whole { view_of first ≡ view [] workers (view_of first).jobs workers }
    ensures as_many { IfOk result (λ seats. vec_len seats ≡ workers) }
    ensures fresh { IfOk result (λ seats. All (IsFresh table.now (view_of first).jobs workers) seats.items) }
{
    let mut seats = Vec::with_capacity(alloc, workers)?;
    for _seat in 1..workers {
        let seat = table.split_one(&mut first);
        seats.push(seat)?;
    }
    seats.push(first)?;
    Ok(seats)
}

/// What a worker does.
fn work<J, X: Drop, F: Fn(&J) -> X, G: Gate>(
    alloc: Global,
    table: &Table,
    mut seat: Seat,
    jobs: &[J],
    f: &F,
    gate: &G,
    workers: usize,
) -> Result<Run<X>, NoMemory>
    requires fresh { IsFresh table.now (length jobs.now) workers seat }
    requires accepts { Accepts F.Fn f.now jobs.now }
    ensures { IfOk result (IsRun F.Fn f.now table.now jobs.now workers) }
{
    let answers = draw_all(alloc, table, &mut seat, jobs, f, gate)?;
    Ok(Run { seat, answers })
}

fn put<X: Drop>(places: &mut Vec<Option<X>>, place: usize, answer: X)
    requires { place < vec_len places.old }
    ensures { places.new.items ≡ slice_set places.old.items place (Some answer) }
{
    places[place] = Some(answer);
}

/// Each answer goes to the place of its number.
fn place<X: Drop>(places: &mut Vec<Option<X>>, answers: Vec<(u64, X)>)
    requires { (k : ℕ) (a : _) → k < vec_len answers → (slice_index_or answers.items k a).0 < vec_len places.old }
    ensures { places.new.items ≡ placed places.old.items answers.items }
{
    for (number, answer) in answers {
        put(places, number as usize, answer);
    }
}

fn blanks<X: Drop>(alloc: Global, count: usize) -> Result<Vec<Option<X>>, NoMemory>
    ensures { IfOk result (λ places. places.items ≡ replicate count None) }
{
    let mut places = Vec::with_capacity(alloc, count)?;
    for _place in 0..count {
        places.push(None)?;
    }
    Ok(places)
}

/// The answers, of which there is one in each place.
fn unwrapped<X: Drop>(alloc: Global, places: Vec<Option<X>>) -> Result<Vec<X>, NoMemory>
    requires { (i : ℕ) → i < vec_len places → IsSome (slice_index_or places.items i None) }
    ensures { IfOk result (λ answers. map (λ x. Some x) answers.items ≡ places.items) }
{
    let mut answers = Vec::with_capacity(alloc, places.len())?;
    for place in places {
        let Some(answer) = place else { unreachable!() };
        answers.push(answer)?;
    }
    Ok(answers)
}

/// The answers of all workers, in the jobs' places.
fn gather<J, X: Drop, F: Fn(&J) -> X>(
    alloc: Global,
    table: Table,
    jobs: &[J],
    _f: &F,
    workers: usize,
    mut runs: Vec<Result<Run<X>, NoMemory>>,
) -> Result<Vec<X>, NoMemory>
    requires some { 0 < workers }
    requires as_many { vec_len runs ≡ workers }
    requires each { All (λ run. IfOk run (IsRun F.Fn _f.now table jobs.now workers)) runs.items }
    ensures { IfOk result (λ answers. GivesEach F.Fn _f.now jobs.now answers.items) }
{
    let mut places = blanks(alloc, jobs.len())?;
    let Some(first) = runs.pop() else {
        unreachable!()
    };
    let Run { mut seat, answers } = first?;
    place(&mut places, answers);
    while let Some(next) = runs.pop() {
        let Run {
            seat: other,
            answers,
        } = next?;
        table.join(&mut seat, other);
        place(&mut places, answers);
    }
    table.close(seat);
    unwrapped(alloc, places)
}

/// In the place of each job an answer of `f` on that job, by as many workers at most as are given, 1 to 64. Each draws
/// the next job from one word until none is left, and passes the gate just before each job. There are as many seats as
/// workers and jobs allow, one at least; the caller works one of them, so with one worker no thread is started. It
/// waits for its workers. Where a worker cannot be started, its seat draws on a thread that runs. The caller knows that
/// `f` may be called on each job; there are at most 4,294,967,295.
///
/// # Errors
///
/// Out of memory.
pub fn draw_map<R: Threads + Sync, J: Sync, X: Send + Drop, F: Fn(&J) -> X + Sync + Drop, G: Gate>(
    rt: &R,
    alloc: Global,
    workers: u32,
    jobs: &[J],
    f: F,
    gate: &G,
) -> Result<Vec<X>, NoMemory>
    requires some { 1 ≤ workers }
    requires limit { workers ≤ 64 }
    requires jobs { length jobs.now < 2 ^ 32 }
    requires accepts { Accepts F.Fn f jobs.now }
    ensures { IfOk result (λ answers. GivesEach F.Fn f jobs.now answers.items) }
{
    let workers = (workers as usize).min(jobs.len()).max(1);
    let (table, first) = Table::new(alloc, jobs.len() as u64, workers as u64)?;
    let seats = seats(alloc, &table, first, workers)?;
    let shared = &table;
    let called = &f;
    let worker = move |seat: Seat| -> Result<Run<X>, NoMemory>
        requires { IsFresh shared.now (length jobs.now) workers seat × Accepts F.Fn called.now jobs.now }
        ensures { IfOk result (IsRun F.Fn called.entry.now shared.entry.now jobs.entry.now workers) }
    { work(alloc, shared, seat, jobs, called, gate, workers) };
    let runs = thread::map_vec(rt, seats, &worker)?;
    gather(alloc, table, jobs, called, workers, runs)
}
