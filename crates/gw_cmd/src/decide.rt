//! What is decided of one termination, by its record and by whether the action's context is full.

ghost use Rattle.std.specs.Prelude.{◌≡◌, List, Ok};
ghost use Rattle.gw_desc.specs.declared.descriptor.Descriptor.{Descriptor};
ghost use Rattle.gw_term.specs.declared.record.Termination.{Termination as Record};
ghost use Rattle.gw_refusal.specs.Places.{same_place};
ghost use Rattle.gw_cmd.specs.Effects.{refusal_to_add, refusal_to_move, refusal_elsewhere, with_parts, merging, added, crosses, moved, modified, subtracted, audited_in};
ghost use Rattle.gw_cmd.specs.Mergers.{IsSameMerger};
ghost use Rattle.gw_cmd.specs.Refused.{Answers};
ghost use Rattle.gw_cmd.specs.Plans.{Merges, Plans, decided_if};
ghost use Rattle.gw_cmd.specs.Tasks.{decided_by};

use crate::change::{Change, Decided, Plan};
use crate::members::is_full;
use crate::parts::parts_if;
use crate::refusal::Refusal;
use crate::task::Act;
use gw_base::{Code, CtxNum, Items};
use gw_table::{Draft, what_remains};
use gw_term::{Applied, Merger, Termination};
use std::alloc::Global;

/// Whether both are the null context or one context.
pub(crate) fn is_same_place(a: Option<CtxNum>, b: Option<CtxNum>) -> bool
    ensures { result ≡ same_place a b }
{
    match (a, b) {
        (Some(a), Some(b)) => a.0 == b.0,
        (None, None) => true,
        _ => false,
    }
}

/// Why a termination in this place is not added.
fn refusal_to_add(full: bool, place: Option<CtxNum>) -> Option<Code>
    ensures { result ≡ refusal_to_add full place }
{
    match place {
        Some(_) => Some(Code::AlreadyInContext),
        None if full => Some(Code::ContextFull),
        None => None,
    }
}

/// Why a termination in this place is not moved to the context.
fn refusal_to_move(full: bool, number: CtxNum, place: Option<CtxNum>) -> Option<Code>
    ensures { result ≡ refusal_to_move full number place }
{
    match place {
        None => Some(Code::NotInContext),
        Some(place) if place.0 == number.0 => Some(Code::AlreadyInContext),
        Some(_) if full => Some(Code::ContextFull),
        Some(_) => None,
    }
}

/// Why nothing is done to a termination that is elsewhere.
pub(crate) fn refusal_elsewhere(place: Option<CtxNum>, there: Option<CtxNum>) -> Option<Code>
    ensures { result ≡ refusal_elsewhere place there }
{
    if is_same_place(there, place) {
        None
    } else {
        Some(Code::NotInContext)
    }
}

/// The record after the descriptors, in this place, unless that is refused. A list that would hold too many properties
/// is refused first.
#[tactic(auto, unfolding(crate::specs::Effects::merging))]
fn merged(
    alloc: Global,
    merger: &mut Merger<'_, '_>,
    old: &Termination,
    place: Option<CtxNum>,
    refused: Option<Code>,
) -> Result<Applied, Refusal>
    ensures merged { Merges merger.old.descriptors.now result (merging merger.old.rules.now merger.old.descriptors.now old.now place refused) }
    ensures same { IsSameMerger merger.old merger.new }
{
    let Applied { record, filled } = merger.merged(alloc, old)?;
    if let Some(code) = refused {
        return Err(Refusal::Code(code));
    }
    let mut record = record;
    record.set_place(place);
    Ok(Applied { record, filled })
}

fn added(
    alloc: Global,
    merger: &mut Merger<'_, '_>,
    full: bool,
    number: CtxNum,
    old: &Termination,
) -> Result<Plan, Refusal>
    ensures plan { Plans merger.old.descriptors.now old.now result (added merger.old.rules.now merger.old.descriptors.now full number old.now) }
    ensures same { IsSameMerger merger.old merger.new }
{
    let refused = refusal_to_add(full, old.place());
    let Applied { record, filled } = merged(alloc, merger, old, Some(number), refused)?;
    Ok(Plan {
        change: Change::Joins(number, record),
        filled,
    })
}

/// The termination crosses from the context that it is in.
fn crosses(from: Option<CtxNum>, number: CtxNum, applied: Applied) -> Result<Plan, Refusal>
    ensures { (descriptors : List Descriptor) (old : Record) → Plans descriptors old result (crosses from number (Ok (with_parts descriptors applied.filled applied.record))) }
{
    let Some(from) = from else {
        return Err(Refusal::Code(Code::NotInContext));
    };
    Ok(Plan {
        change: Change::Crosses(from, number, applied.record),
        filled: applied.filled,
    })
}

fn moved(
    alloc: Global,
    merger: &mut Merger<'_, '_>,
    full: bool,
    number: CtxNum,
    old: &Termination,
) -> Result<Plan, Refusal>
    ensures plan { Plans merger.old.descriptors.now old.now result (moved merger.old.rules.now merger.old.descriptors.now full number old.now) }
    ensures same { IsSameMerger merger.old merger.new }
{
    let refused = refusal_to_move(full, number, old.place());
    let applied = merged(alloc, merger, old, Some(number), refused)?;
    crosses(old.place(), number, applied)
}

fn modified(
    alloc: Global,
    merger: &mut Merger<'_, '_>,
    place: Option<CtxNum>,
    old: &Termination,
) -> Result<Plan, Refusal>
    ensures plan { Plans merger.old.descriptors.now old.now result (modified merger.old.rules.now merger.old.descriptors.now place old.now) }
    ensures same { IsSameMerger merger.old merger.new }
{
    let refused = refusal_elsewhere(place, old.place());
    let Applied { record, filled } = merged(alloc, merger, old, place, refused)?;
    Ok(Plan {
        change: Change::Becomes(record),
        filled,
    })
}

fn subtracted(alloc: Global, number: CtxNum, old: &Termination) -> Result<Plan, Refusal>
    ensures { (descriptors : List Descriptor) → Plans descriptors old.now result (subtracted descriptors number old.now) }
{
    if let Some(code) = refusal_elsewhere(Some(number), old.place()) {
        return Err(Refusal::Code(code));
    }
    Ok(Plan {
        change: Change::Leaves(number, what_remains(old)),
        filled: Items::new(alloc),
    })
}

fn audited(alloc: Global, place: Option<CtxNum>, old: &Termination) -> Result<Plan, Refusal>
    ensures { (descriptors : List Descriptor) → Plans descriptors old.now result (audited_in descriptors place old.now) }
{
    match refusal_elsewhere(place, old.place()) {
        Some(code) => Err(Refusal::Code(code)),
        None => Ok(Plan {
            change: Change::Stays,
            filled: Items::new(alloc),
        }),
    }
}

/// What becomes of a termination with this record.
fn planned(
    alloc: Global,
    draft: &Draft,
    act: Act,
    merger: &mut Merger<'_, '_>,
    old: &Termination,
) -> Result<Plan, Refusal>
    ensures plan { Plans merger.old.descriptors.now old.now result (decided_by merger.old.rules.now merger.old.descriptors.now act draft.now.maps old.now) }
    ensures same { IsSameMerger merger.old merger.new }
{
    match act {
        Act::Add(number) => {
            let full = is_full(merger.rules, draft, number);
            added(alloc, merger, full, number, old)
        }
        Act::Move(number) => {
            let full = is_full(merger.rules, draft, number);
            moved(alloc, merger, full, number, old)
        }
        Act::Modify(place) => modified(alloc, merger, place, old),
        Act::Subtract(number) => subtracted(alloc, number, old),
        Act::Audit(place) => audited(alloc, place, old),
    }
}

/// What is decided of a termination with this record. What its reply has is found only where it is wanted.
pub(crate) fn decided(
    alloc: Global,
    draft: &Draft,
    act: Act,
    merger: &mut Merger<'_, '_>,
    old: &Termination,
    wanted: bool,
) -> Result<Decided, Refusal>
    ensures decided { Answers result (decided_if wanted (decided_by merger.old.rules.now merger.old.descriptors.now act draft.now.maps old.now)) }
    ensures same { IsSameMerger merger.old merger.new }
{
    let Plan { change, filled } = planned(alloc, draft, act, merger, old)?;
    let parts = parts_if(alloc, wanted, merger.descriptors, filled, &change, old)?;
    Ok(Decided { change, parts })
}
