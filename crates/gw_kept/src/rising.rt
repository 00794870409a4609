//! The classes of requests whose numbers rise: none of them comes twice, so no index of them is needed.

ghost use Rattle.std.specs.Prelude.{◌≡◌, ◌∷◌, List, None, Some, IfOk, true, false, length};
ghost use Rattle.gw_kept.specs.declared.point.Point.{Point as Item};
ghost use Rattle.gw_kept.specs.Classes.{Standing, kept_place, class_at, class_of, classes_of, behind};
ghost use Rattle.gw_kept.specs.Index.{requests_behind, seen};
ghost use Rattle.gw_kept.specs.Rises.{is_above, do_numbers_rise, IsApart, IsTurn};

use crate::class::Class;
use crate::index::{MOST_NEW, kept_place, source};
use crate::kept::Kept;
use crate::point::{BorrowedKey, Point};
use gw_base::{Items, NoMemory};
use std::alloc::Global;

/// Whether a number is above the last one, if there was one.
fn is_above(last: Option<u32>, number: u32) -> bool
    ensures { result ≡ is_above last number }
{
    match last {
        Some(last) => last < number,
        None => true,
    }
}

/// Whether the numbers of the requests rise, each above that of the one before it. Then none comes twice.
pub(crate) fn do_numbers_rise(points: &[Point<'_>]) -> bool
    ensures { result ≡ do_numbers_rise None points.now }
{
    let mut last = None;
    for point in points {
        if let Point::Request(key) = point {
            if !is_above(last, key.id()) {
                return false;
            }
            last = Some(key.id());
        }
    }
    true
}

impl Kept {
    /// The class of a request whose key no new request of the burst has, where there are so many pairs, those of the
    /// new ones counted: one look-up among the kept pairs.
    fn class_among(&self, key: &BorrowedKey<'_>, total: usize) -> Class
        ensures { (s : Standing) → IsApart self.now key.now s → total ≡ length s.pairs → result ≡ class_of (length self.now.pairs) s.pairs (kept_place key.now s) }
    {
        let before = self.len();
        let oldest = total.saturating_sub(self.most());
        if let Some(place) = kept_place(self.place(key), key, oldest, &None) {
            return Class::Repeat(source(before, place));
        }
        if total.saturating_sub(before) >= MOST_NEW {
            return Class::Over;
        }
        Class::New
    }

    /// The class of the next item, and how many pairs there are behind it.
    fn class_in_turn(&self, point: &Point<'_>, total: usize) -> (Class, usize)
        ensures { (s : Standing) (rest : List Item) → IsTurn self.now s (point.now ∷ rest) total → (result.0 ≡ class_at (length self.now.pairs) (seen false point.now) s) × IsTurn self.now (behind self.now.most (length self.now.pairs) (seen false point.now) s) rest result.1 }
    {
        let Point::Request(key) = point else {
            return (Class::Nothing, total);
        };
        match self.class_among(key, total) {
            Class::New => (Class::New, total.saturating_add(1)),
            class => (class, total),
        }
    }

    /// The classes of a burst's items, where the numbers of its requests rise and no request comes behind an
    /// acknowledgement: one look-up among the kept pairs for each request.
    ///
    /// # Errors
    ///
    /// Out of memory.
    pub(crate) fn classify_rising(
        &self,
        alloc: Global,
        points: &[Point<'_>],
    ) -> Result<Items<Class>, NoMemory>
        requires rise { do_numbers_rise None points.now ≡ true }
        requires unsaid { requests_behind false points.now ≡ false }
        ensures { IfOk result (λ classes. classes ≡ classes_of self.now points.now) }
    {
        let mut total = self.len();
        let mut classes = Items::from(Vec::with_capacity(alloc, points.len())?);
        for point in points {
            let (class, next) = self.class_in_turn(point, total);
            classes.push(class)?;
            total = next;
        }
        Ok(classes)
    }
}
