//! A table is made, its seats are split and joined, and it is closed.

ghost use Rattle.std.specs.Prelude.{◌≡◌, ℕ, ◌+◌, ◌-◌, ◌<◌, ◌^◌, [], ◌++◌, IfOk};
ghost use Rattle.gw_draw.specs.Draws.{view, times, once_below};
ghost use Rattle.gw_draw.specs.Answers.{IsSeatOf, IsFresh, view_of};

use crate::table::{Both, OneOff, Plan, Seat, Table};
use gw_base::NoMemory;
use std::alloc::Global;

impl Table {
    /// A table from which nothing was drawn, and its first seat, which has all of the allowance.
    ///
    /// # Errors
    ///
    /// Out of memory.
    pub fn new(alloc: Global, jobs: u64, workers: u64) -> Result<(Table, Seat), NoMemory>
        requires some { 0 < workers }
        requires small { jobs + workers < 2 ^ 63 }
        ensures { IfOk result (λ r. IsSeatOf r.0 r.1 × (view_of r.1 ≡ view [] workers jobs workers)) }
    {
        let (table, seat) = atomic_table::Table::of_words(alloc, &[0], &Plan { jobs, workers })?;
        Ok((Table { table }, Seat { seat }))
    }

    /// A new seat with 1 of the allowance of this one, which has drawn nothing.
    pub fn split_one(&self, seat: &mut Seat) -> Seat
        requires table { IsSeatOf self.now seat.old }
        requires more { 1 < (view_of seat.old).allowance }
        requires blank { (view_of seat.old).drawn ≡ [] }
        ensures table { IsSeatOf self.now seat.new }
        ensures left { view_of seat.new ≡ view [] ((view_of seat.old).allowance - 1) (view_of seat.old).jobs (view_of seat.old).workers }
        ensures fresh { IsFresh self.now (view_of seat.old).jobs (view_of seat.old).workers result }
    {
        Seat {
            seat: self.table.shared.split_seat::<OneOff>(&mut seat.seat),
        }
    }

    /// Takes over the list and the allowance of another seat.
    pub fn join(&self, seat: &mut Seat, other: Seat)
        requires table { IsSeatOf self.now seat.old }
        requires other { IsSeatOf self.now other }
        ensures table { IsSeatOf self.now seat.new }
        ensures both { view_of seat.new ≡ view ((view_of seat.old).drawn ++ (view_of other).drawn) ((view_of seat.old).allowance + (view_of other).allowance) (view_of seat.old).jobs (view_of seat.old).workers }
    {
        let Seat { seat: joined } = other;
        self.table.shared.join_seat::<Both>(&mut seat.seat, joined);
    }

    /// The word at the end. A seat with the whole allowance has drawn each number below it once, and no other.
    pub fn close(self, seat: Seat) -> u64
        requires { IsSeatOf self seat }
        ensures { (view_of seat).allowance ≡ (view_of seat).workers → (x : ℕ) → times x (view_of seat).drawn ≡ once_below result x }
    {
        let Table { table } = self;
        let Seat { seat: last } = seat;
        let closed = table.close_with(last);
        let word = closed.word(0);
        closed.free();
        word
    }
}
