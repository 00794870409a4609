//! The jobs that are open on a board, each at its place.

ghost use Rattle.std.specs.Prelude.{◌≡◌, ◌<◌, true, IfOk, is_none, length, None, slice_get, slice_set, Some};
ghost use Rattle.std.specs.List.{list_all};
ghost use Rattle.cases_board.specs.Held.{job_in};

use gw_base::NoMemory;
use gw_board::Job;
use std::alloc::Global;

/// An entry for each place of a burst: its job, while that is open.
pub type Held<'b, 'h, 'a> = Vec<Option<Job<'b, 'h, 'a>>>;

/// How a board ends.
#[derive(Clone, Copy)]
pub enum End {
    /// All is to be as it was at the start.
    Undo,
    /// What came of the burst is to stand.
    Finish,
    /// The steps are over before either.
    Left,
}

/// No job is open at any of so many places.
pub fn none_held<'b, 'h, 'a>(alloc: Global, count: usize) -> Result<Held<'b, 'h, 'a>, NoMemory>
    ensures none { IfOk result (λ held. list_all is_none held.items ≡ true) }
    ensures count { IfOk result (λ held. length held.items ≡ count) }
{
    let mut held: Held<'b, 'h, 'a> = Vec::with_capacity(alloc, count)?;
    for _place in 0..count {
        let none: Option<Job<'b, 'h, 'a>> = None;
        held.push(none)?;
    }
    Ok(held)
}

/// Whether no job is open.
pub fn is_none_held(held: &[Option<Job<'_, '_, '_>>]) -> bool
    ensures { result ≡ list_all is_none held.now }
{
    held.iter().all(|job| job.is_none())
}

/// The job is open at its place from now on.
pub fn hold<'b, 'h, 'a>(held: &mut Held<'b, 'h, 'a>, place: usize, job: Job<'b, 'h, 'a>)
    requires { place < length held.old.items }
    ensures { held.new.items ≡ slice_set held.old.items place (Some job.entry) }
{
    held[place] = Some(job);
}

/// Takes the job of a place away, if one is open there.
pub fn taken<'b, 'h, 'a>(held: &mut Held<'b, 'h, 'a>, place: usize) -> Option<Job<'b, 'h, 'a>>
    ensures job { result ≡ job_in (slice_get held.old.items place) }
    ensures gone { held.new.items ≡ slice_set held.old.items place None }
{
    if place >= held.len() {
        return None;
    }
    let kept = &mut held[place];
    kept.take()
}

/// The job of a place, to look at, if one is open there.
pub fn job_at<'j, 'b, 'h, 'a>(
    held: &'j [Option<Job<'b, 'h, 'a>>],
    place: usize,
) -> Option<&'j Job<'b, 'h, 'a>> {
    held.get(place)?.as_ref()
}
