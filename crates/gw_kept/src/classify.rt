//! The classes of a burst's items.

ghost use Rattle.std.specs.Prelude.{◌≡◌, IfOk, false};
ghost use Rattle.gw_kept.specs.Classes.{classes_of};
ghost use Rattle.gw_kept.specs.Index.{requests_behind};

use crate::class::Class;
use crate::index::Index;
use crate::kept::Kept;
use crate::point::Point;
use crate::rising::do_numbers_rise;
use gw_base::{Items, NoMemory};
use std::alloc::Global;

/// Whether a request comes behind an acknowledgement. Else acknowledgements have no say in the classes.
fn requests_behind(points: &[Point<'_>]) -> bool
    ensures { result ≡ requests_behind false points.now }
{
    let mut acknowledged = false;
    for point in points {
        match point {
            Point::Request(_) if acknowledged => return true,
            Point::Ack(_) => acknowledged = true,
            _ => {}
        }
    }
    false
}

impl Kept {
    /// The classes of a burst's items, in order of arrival, each by what it is to the kept replies: `Point::of` has
    /// it. They follow from keys and ranges alone, before anything is executed. A request is a repeat where its reply
    /// is kept at that point: it is among the last ones, those of the burst's new requests included, and no
    /// acknowledgement has removed it.
    ///
    /// Where the numbers of the requests rise, each key is looked up among the kept pairs: n log k steps for n
    /// requests and k pairs. Else an index of the burst's keys is made first, each looked up so: n log n and n log k
    /// steps. Where a request comes behind an acknowledgement, the keys of the kept pairs are copied once, and each
    /// acknowledgement costs what `forget` does, without its pass over the pairs.
    ///
    /// # Errors
    ///
    /// Out of memory.
    pub fn classify(&self, alloc: Global, points: &[Point<'_>]) -> Result<Items<Class>, NoMemory>
        ensures classes { IfOk result (λ classes. classes ≡ classes_of self.now points.now) }
    {
        let acknowledged = requests_behind(points);
        if !acknowledged && do_numbers_rise(points) {
            return self.classify_rising(alloc, points);
        }
        let mut index = Index::of(alloc, self, points, acknowledged)?;
        let mut classes = Items::new(alloc);
        for point in points {
            let class = index.class(alloc, point);
            classes.push(class)?;
        }
        Ok(classes)
    }
}
