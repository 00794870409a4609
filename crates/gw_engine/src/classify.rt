//! Which requests of a burst are new, which are repeats, and which are refused.

ghost use Rattle.std.specs.Prelude.{◌≡◌, ◌≤◌, length, IfOk, OnOk};
ghost use Rattle.gw_kept.specs.Classes.{classes_of};
ghost use Rattle.gw_engine.specs.Counts.{counts_in};
ghost use Rattle.gw_engine.specs.Phases.{classified, points_of};

use crate::counts::BurstCounts;
use crate::items::BurstItem;
use gw_base::{Items, NoMemory};
use gw_kept::{Class, Kept, Point};
use std::alloc::Global;

/// The items, as they are to the kept replies.
fn points_of<'h>(alloc: Global, items: &[BurstItem<'h, '_>]) -> Result<Items<Point<'h>>, NoMemory>
    ensures { IfOk result (λ points. points ≡ points_of items.now) }
{
    let mut points = Items::from(Vec::with_capacity(alloc, items.len())?);
    for item in items {
        points.push(item.point())?;
    }
    Ok(points)
}

/// Fills the columns of the class and of the new requests before each item.
fn fill(items: &mut [BurstItem<'_, '_>], classes: &[Class])
    requires { length items.old ≤ length classes.now }
    ensures { items.new ≡ classified 0 items.old classes.now }
{
    let mut before = 0;
    for (place, item) in items.iter_mut().enumerate() {
        before = item.classify(classes[place], before);
    }
}

/// Classifies the items of a burst, and counts those of each class. All of it follows from keys and acknowledgements
/// alone.
///
/// # Errors
///
/// Out of memory.
pub(crate) fn classify(
    alloc: Global,
    kept: &Kept,
    items: &mut [BurstItem<'_, '_>],
) -> Result<BurstCounts, NoMemory>
    ensures items { OnOk result (items.new ≡ classified 0 items.old (classes_of kept.now (points_of items.old))) }
    ensures counts { IfOk result (λ counts. counts ≡ counts_in items.old (classes_of kept.now (points_of items.old))) }
{
    let points = points_of(alloc, items)?;
    let classes = kept.classify(alloc, points.as_slice())?;
    let counts = BurstCounts::of(items, classes.as_slice());
    fill(items, classes.as_slice());
    Ok(counts)
}
