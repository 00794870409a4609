//! Jobs: pending requests that are handed out, each with the entries that it may claim.

ghost use Rattle.std.specs.Prelude.{◌≡◌, IfOk, true, false};
ghost use Rattle.gw_board.specs.Boards.{outcome_of};
ghost use Rattle.gw_board.specs.Jobs.{new_part};

use crate::profile::Profile;
use crate::reply::carry_on;
use crate::requested::Task;
use gw_base::{Items, NoMemory};
use gw_table::{Draft, Part};
use std::alloc::Global;
use std::marker::Model;

/// A request of an open place, with the entries that it may claim, which are out of the tables meanwhile. It may be
/// executed wherever its owner likes.
#[derive(Drop)]
pub struct Job<'b, 'h, 'a> {
    pub(crate) place: usize,
    pub(crate) profile: Profile,
    pub(crate) task: Task<'b, 'h, 'a>,
    pub(crate) part: Part,
}

impl<'b, 'h, 'a> Model for Job<'b, 'h, 'a> {
    ghost use Rattle.std.specs.Prelude.{◌≡◌};
    ghost use Rattle.std.specs.Coded.{codes};
    ghost use Rattle.gw_table.specs.Maps.{coded_maps};
    ghost use Rattle.gw_table.specs.Parts.{Only, list_of};
    ghost use Rattle.gw_board.specs.Boards.{Handed};
    ghost use Rattle.gw_board.specs.Jobs.{IsJob};

    ghost Value = { Handed };

    ghost coded = { Prim.hlevel (codes, coded_maps) };

    ghost view = { λ a. record { profile = a.profile; place = a.place; requested = a.task; keys = list_of a.part.keys; part = a.part.maps } };

    ghost invariant = { λ a. (a.part.keys ≡ Only (list_of a.part.keys)) × IsJob (record { profile = a.profile; place = a.place; requested = a.task; keys = list_of a.part.keys; part = a.part.maps }) };
}

/// Executes a job's request on a copy of its part, and writes the reply; the job stays as it is. The work is that of
/// the commands and of the copy. What is behind the limit of a reply is executed, and not written.
///
/// # Errors
///
/// Out of memory.
pub fn carry(alloc: Global, job: &Job<'_, '_, '_>) -> Result<(Part, Items<u8>), NoMemory>
    ensures part { IfOk result (λ new. new.0 ≡ new_part job.now) }
    ensures reply { IfOk result (λ new. new.1 ≡ (outcome_of job.now).answer) }
{
    let mut draft = Draft::of_part(job.part.copy(alloc)?);
    let mut block = Items::new(alloc);
    let text = carry_on(alloc, &job.profile, job.task.get(), &mut draft, &mut block)?;
    Ok((draft.into_part(), text))
}

/// A job that is over: with its result, or unchanged.
#[derive(Drop)]
pub struct Done<'b, 'h, 'a> {
    pub(crate) job: Job<'b, 'h, 'a>,
    pub(crate) result_of_job: Option<(Part, Items<u8>)>,
}

impl<'b, 'h, 'a> Model for Done<'b, 'h, 'a> {
    ghost use Rattle.std.specs.Prelude.{is_some};
    ghost use Rattle.std.specs.Coded.{codes};
    ghost use Rattle.gw_table.specs.Maps.{coded_maps};
    ghost use Rattle.gw_board.specs.Boards.{Ended};
    ghost use Rattle.gw_board.specs.Jobs.{AreOfJob};

    ghost Value = { Ended };

    ghost coded = { Prim.hlevel (codes, coded_maps) };

    ghost view = { λ a. record { job = a.job; is_carried = is_some a.result_of_job } };

    ghost invariant = { λ a. AreOfJob a.job a.result_of_job };
}

impl<'b, 'h, 'a> Done<'b, 'h, 'a> {
    /// The job with its result. The caller knows that part and text are what its request does on its part, as `carry`
    /// answers them.
    pub fn new(job: Job<'b, 'h, 'a>, part: Part, reply: Items<u8>) -> Self
        requires part { part ≡ new_part job }
        requires reply { reply ≡ (outcome_of job).answer }
        ensures { result ≡ record { job = job.entry; is_carried = true } }
    {
        Done {
            job,
            result_of_job: Some((part, reply)),
        }
    }

    /// The job as if it had not been opened.
    pub fn unchanged(job: Job<'b, 'h, 'a>) -> Self
        ensures { result ≡ record { job = job.entry; is_carried = false } }
    {
        Done {
            job,
            result_of_job: None,
        }
    }
}
