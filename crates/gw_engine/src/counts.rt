//! How many requests of a burst there are of each class.

ghost use Rattle.std.specs.Prelude.{◌≡◌, count_by};
ghost use Rattle.gw_engine.specs.Counts.{counts_in, is_new, is_repeat, is_over, is_fault};

use crate::items::{BurstItem, Content};
use gw_kept::Class;

/// What a burst was, by the classes of its requests.
#[derive(Clone, Copy, Debug, PartialEq, Eq)]
pub struct BurstCounts {
    /// Requests that were new, and so executed.
    pub executed: usize,
    /// Requests that were answered with a kept reply.
    pub repeats: usize,
    /// Requests behind 1,024 new ones, which were answered with error 510.
    pub over: usize,
    /// Datagrams that are no message, which were answered with error 400 or 406.
    pub errors: usize,
}

fn new_in(classes: &[Class]) -> usize
    ensures { result ≡ count_by is_new classes.now }
{
    classes
        .iter()
        .filter(|class| matches!(class, Class::New))
        .count()
}

fn repeats_in(classes: &[Class]) -> usize
    ensures { result ≡ count_by is_repeat classes.now }
{
    classes
        .iter()
        .filter(|class| matches!(class, Class::Repeat(_)))
        .count()
}

fn over_in(classes: &[Class]) -> usize
    ensures { result ≡ count_by is_over classes.now }
{
    classes
        .iter()
        .filter(|class| matches!(class, Class::Over))
        .count()
}

fn errors_in(items: &[BurstItem<'_, '_>]) -> usize
    ensures { result ≡ count_by is_fault items.now }
{
    items
        .iter()
        .filter(|item| matches!(item.content, Content::Fault(_)))
        .count()
}

impl BurstCounts {
    /// The counts of a burst, from its items and the class of each.
    pub(crate) fn of(items: &[BurstItem<'_, '_>], classes: &[Class]) -> BurstCounts
        ensures { result ≡ counts_in items.now classes.now }
    {
        BurstCounts {
            executed: new_in(classes),
            repeats: repeats_in(classes),
            over: over_in(classes),
            errors: errors_in(items),
        }
    }
}
