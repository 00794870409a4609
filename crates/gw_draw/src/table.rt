//! The word from which jobs are drawn, the workers' seats, and the rule that both keep.

ghost use Rattle.std.specs.Prelude.{◌≡◌, ◌+◌, ◌-◌, ◌<◌, [], ◌++◌};
ghost use Rattle.gw_draw.specs.Draws.{view, spent, IsKept, Drew};

use atomic_table::{Join, Play, Split, TableRule};
use std::alloc::Global;
use std::collections::LinkedList;

/// What a seat knows. It stands in contracts alone: no value of it is made.
pub struct View {
    /// The numbers that were drawn, in their order.
    pub drawn: LinkedList<u64>,
    /// How many of them may be no job's.
    pub allowance: u64,
    /// How many jobs there are.
    pub jobs: u64,
    /// How many workers may draw.
    pub workers: u64,
}

/// How many jobs there are, and how many workers may draw.
#[derive(Clone, Copy, Drop)]
pub struct Plan {
    pub(crate) jobs: u64,
    pub(crate) workers: u64,
}

/// The rule of the word and the views.
pub struct DrawRule;

impl TableRule<(), View, Plan> for DrawRule {
    ghost holds = { λ plan s. IsKept plan.jobs plan.workers s };

    ghost first = { λ plan. view [] plan.workers plan.jobs plan.workers };
}

/// A draw.
pub(crate) struct Draw;

impl Play<(), View> for Draw {
    ghost then = { Drew };
}

/// A seat that has drawn nothing gives 1 of its allowance to a new one.
pub(crate) struct OneOff;

impl Split<View> for OneOff {
    ghost left = { λ v. view v.drawn (v.allowance - 1) v.jobs v.workers };

    ghost right = { λ v. view [] 1 v.jobs v.workers };
}

/// A seat takes over the list and the allowance of another.
pub(crate) struct Both;

impl Join<View> for Both {
    ghost both = { λ v w. view (v.drawn ++ w.drawn) (v.allowance + w.allowance) v.jobs v.workers };

    ghost spent = { spent };
}

/// The word that jobs are drawn from.
#[derive(Drop)]
pub struct Table {
    pub(crate) table: atomic_table::Table<(), View, Plan, DrawRule, Global>,
    ghost one_word: { table.shared.table_id.words ≡ 1 },
    ghost no_slots: { table.shared.table_id.slots ≡ 0 },
}

/// A worker's right to draw.
#[derive(Drop)]
pub struct Seat {
    pub(crate) seat: atomic_table::Seat<(), View>,
    ghost no_slot: { seat.me.1 ≡ [] },
    ghost allowed: { 0 < seat.me.0.allowance },
}
