//! One draw, and the run of one worker.

ghost use Rattle.std.specs.Prelude.{◌≡◌, ◌<◌, ◌≤◌, All, length, IfOk};
ghost use Rattle.gw_draw.specs.Draws.{with_draw, top};
ghost use Rattle.gw_draw.specs.Answers.{IsSeatOf, view_of, Accepts, GivesAt, HasRun};

use crate::gate::Gate;
use crate::table::{Draw, Seat, Table};
use gw_base::NoMemory;
use std::alloc::Global;

/// The next number, by one `fetch_add`: it goes last on the seat's list, and is above those that the seat drew before.
/// The caller knows that the list holds job numbers alone. It takes no memory.
pub fn draw_one(table: &Table, seat: &mut Seat) -> u64
    requires table { IsSeatOf table.now seat.old }
    requires jobs_alone { All (λ x. x < (view_of seat.old).jobs) (view_of seat.old).drawn }
    ensures table { IsSeatOf table.now seat.new }
    ensures drawn { view_of seat.new ≡ with_draw (view_of seat.old) result }
    ensures rising { top (view_of seat.old).drawn ≤ result }
{
    table.table.shared.fetch_add::<Draw>(&mut seat.seat, 0, 1)
}

/// One worker's run: it draws until a number is past the last job, and answers each job number drawn, in their order,
/// with `f` of that job, passing the gate just before. The caller knows that there are as many jobs as the seat's view
/// says, that its list holds job numbers alone, and that `f` may be called on each job.
///
/// # Errors
///
/// Out of memory. What was drawn stays drawn.
pub fn draw_all<J, X: Drop, F: Fn(&J) -> X, G: Gate>(
    alloc: Global,
    table: &Table,
    seat: &mut Seat,
    jobs: &[J],
    f: &F,
    gate: &G,
) -> Result<Vec<(u64, X)>, NoMemory>
    requires table { IsSeatOf table.now seat.old }
    requires jobs { length jobs.now ≡ (view_of seat.old).jobs }
    requires jobs_alone { All (λ x. x < (view_of seat.old).jobs) (view_of seat.old).drawn }
    requires accepts { Accepts F.Fn f.now jobs.now }
    ensures table { IsSeatOf table.now seat.new }
    ensures run { IfOk result (λ answers. HasRun F.Fn f.now jobs.now (view_of seat.old) (view_of seat.new) answers.items) }
{
    let mut answers = Vec::new(alloc);
    'draw: loop {
        let number = draw_one(table, seat);
        if number >= jobs.len() as u64 {
            return Ok(answers);
        }
        gate.pass(number as usize);
        let answer = carry(jobs, number as usize, f);
        answers.push((number, answer))?;
    }
}

/// The answer on the job at this place.
fn carry<J, X, F: Fn(&J) -> X>(jobs: &[J], place: usize, f: &F) -> X
    requires inside { place < length jobs.now }
    requires accepts { Accepts F.Fn f.now jobs.now }
    ensures { GivesAt F.Fn f.now jobs.now place result }
{
    f(&jobs[place])
}
