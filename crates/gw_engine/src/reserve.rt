//! What the new requests of a burst own.

ghost use Rattle.std.specs.Prelude.{◌≡◌, IfOk, OnOk};
ghost use Rattle.gw_reserve.specs.Owners.{new_cursors, AreWithin};
ghost use Rattle.gw_engine.specs.Bursts.{cursors_of};
ghost use Rattle.gw_engine.specs.Owning.{IsOwned, IsReserved};
ghost use Rattle.gw_engine.specs.Phases.{ids_in, new_for, new_in, sent_of, AreJobs};

use crate::gateway::Gateway;
use crate::items::{BurstItem, Sent};
use bumpalo::Bump;
use gw_base::{Items, NoMemory};
use gw_board::BurstRequest;
use gw_reserve::{Cursors, Reservation};
use std::alloc::Global;

/// The requests that a burst executes, each with what it owns, and where the next burst's search for identifiers
/// begins.
#[derive(Drop)]
pub(crate) struct Reserved<'h, 'a> {
    pub(crate) jobs: Items<BurstRequest<'h, 'a>>,
    pub(crate) cursors: Cursors,
}

impl Gateway {
    /// A request with what it owns of what those before it left.
    fn job<'h, 'a>(
        &self,
        alloc: Global,
        reservation: &mut Reservation,
        sent: &Sent<'h, 'a>,
    ) -> Result<BurstRequest<'h, 'a>, NoMemory>
        ensures owned { IfOk result (λ job. IsOwned self.now.state.maps sent.now.request reservation.old reservation.new job.owned) }
        ensures sent { IfOk result (λ job. sent_of job ≡ sent.now) }
        ensures contexts { OnOk result (reservation.new.most_contexts ≡ reservation.old.most_contexts) }
        ensures slots { OnOk result (reservation.new.most_slots ≡ reservation.old.most_slots) }
    {
        let scratch = Bump::new(alloc);
        let tree = sent.request.tree(&scratch)?;
        let owned = reservation.own(alloc, &self.tables, tree)?;
        Ok(BurstRequest {
            mid: sent.mid.again(),
            request: sent.request.again(),
            owned,
        })
    }

    /// An item's job goes last, if it is a new request.
    fn push_job<'h, 'a>(
        &self,
        alloc: Global,
        reservation: &mut Reservation,
        jobs: &mut Items<BurstRequest<'h, 'a>>,
        item: &BurstItem<'h, 'a>,
    ) -> Result<(), NoMemory>
        ensures jobs { OnOk result (IsReserved self.now.state.maps (new_for item.now.content item.now.class) reservation.old reservation.new jobs.old jobs.new) }
        ensures contexts { OnOk result (reservation.new.most_contexts ≡ reservation.old.most_contexts) }
        ensures slots { OnOk result (reservation.new.most_slots ≡ reservation.old.most_slots) }
    {
        let Some(sent) = item.new_request() else {
            return Ok(());
        };
        let job = self.job(alloc, reservation, sent)?;
        jobs.push(job)?;
        Ok(())
    }

    /// Gives each new request what it owns of what is free in the tables as they are. There are so many new ones.
    ///
    /// # Errors
    ///
    /// Out of memory.
    pub(crate) fn reserve<'h, 'a>(
        &self,
        alloc: Global,
        items: &[BurstItem<'h, 'a>],
        count: usize,
    ) -> Result<Reserved<'h, 'a>, NoMemory>
        ensures jobs { IfOk result (λ r. AreJobs (new_in items.now) (ids_in self.now (new_in items.now)) r.jobs) }
        ensures cursors { IfOk result (λ r. r.cursors ≡ new_cursors (cursors_of self.now.state) (ids_in self.now (new_in items.now))) }
        ensures within { IfOk result (λ r. AreWithin self.now.settings.contexts self.now.settings.slots r.cursors) }
    {
        let mut reservation = Reservation::new(self.contexts, self.slots, &self.cursors);
        let mut jobs = Items::from(Vec::with_capacity(alloc, count)?);
        for item in items {
            self.push_job(alloc, &mut reservation, &mut jobs, item)?;
        }
        Ok(Reserved {
            jobs,
            cursors: reservation.cursors(),
        })
    }
}
