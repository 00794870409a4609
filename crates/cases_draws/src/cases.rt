//! What becomes of jobs: the numbers from 1 on, each of which is squared.

ghost use Rattle.std.specs.Prelude.{◌≡◌, ◌*◌, ◌<◌, ◌≤◌, ◌^◌, IfOk, length, vec_len};
ghost use Rattle.cases_draws.specs.Squares.{AreSquares};

use crate::requested_draw::RequestedDraw;
use cases_meeting::{Meeting, Tally};
use cases_text::{CaseFault, Page};
use gw_base::NoMemory;
use gw_draw::{Gate, OpenGate, Table, draw_all, draw_map};
use std::alloc::{AllocError, Global};
use std::rt::Clock;
use std::thread::Threads;

/// A job: its place, and the number that is squared.
#[derive(Clone, Copy)]
struct Job {
    place: usize,
    number: u32,
}

impl Job {
    fn squared(&self) -> u64
        ensures { result ≡ self.now.number * self.now.number }
    {
        u64::from(self.number) * u64::from(self.number)
    }
}

/// So many jobs.
fn jobs_of(alloc: Global, count: u32) -> Result<Vec<Job>, CaseFault>
    ensures { IfOk result (λ jobs. vec_len jobs ≡ count) }
{
    let mut jobs = Vec::new(alloc);
    for number in 0..count {
        jobs.push(Job {
            place: number as usize,
            number: number.saturating_add(1),
        })?;
    }
    Ok(jobs)
}

/// The answers, one behind another.
fn write_answers(out: &mut Page, answers: &[u64]) {
    if answers.is_empty() {
        out.put(b"no answers");
    }
    for (place, answer) in answers.iter().enumerate() {
        if place > 0 {
            out.put(b" ");
        }
        out.number(*answer);
    }
    out.put(b"\n");
}

/// How many answers are the square of the number of the job in their place.
fn in_place(answers: &[u64], jobs: &[Job]) -> u64 {
    let mut count = 0u64;
    for (answer, job) in answers.iter().zip(jobs.iter()) {
        if *answer == job.squared() {
            count = count.wrapping_add(1);
        }
    }
    count
}

/// A line with a number.
fn write_count(out: &mut Page, name: &[u8], count: u64) {
    out.put(name);
    out.put(b": ");
    out.number(count);
    out.put(b"\n");
}

/// The answers of one worker on the only seat, each behind its number.
fn draw_alone(request: RequestedDraw, out: &mut Page) -> Result<(), CaseFault> {
    let alloc = out.alloc();
    let jobs = jobs_of(alloc, request.jobs)?;
    let Ok((table, mut seat)) = Table::new(alloc, jobs.len() as u64, 1) else {
        return Err(CaseFault::NoMemory);
    };
    let answers = draw_all(
        alloc,
        &table,
        &mut seat,
        jobs.as_slice(),
        &|job: &Job| job.squared(),
        &OpenGate,
    );
    let Ok(answers) = answers else {
        return Err(CaseFault::NoMemory);
    };
    for (number, answer) in answers {
        out.put(b"(");
        out.number(number);
        out.put(b", ");
        out.number(answer);
        out.put(b")\n");
    }
    Ok(())
}

/// Whether the jobs met, and the answers.
fn write_meeting<R: Clock>(out: &mut Page, meeting: &Meeting<'_, R>, answers: &[u64]) {
    out.put(if meeting.was_met() {
        b"met\n"
    } else {
        b"given up\n"
    });
    write_answers(out, answers);
}

/// The squares, each by a job that may fail, as one that takes memory may. Its contract shows what a caller knows of
/// the answers.
fn squares<R: Threads + Sync>(
    rt: &R,
    alloc: Global,
    workers: u32,
    jobs: &[Job],
) -> Result<Vec<Result<u64, NoMemory>>, NoMemory>
    requires some { 1 ≤ workers }
    requires limit { workers ≤ 64 }
    requires few { length jobs.now < 2 ^ 32 }
    ensures as_many { IfOk result (λ answers. vec_len answers ≡ length jobs.now) }
    ensures squares { IfOk result (λ answers. AreSquares jobs.now answers.items) }
{
    let square = |job: &Job| -> Result<u64, NoMemory>
        ensures { IfOk result (λ answer. answer ≡ job.now.number * job.now.number) }
    { Ok(job.squared()) };
    draw_map(rt, alloc, workers, jobs, square, &OpenGate)
}

/// The squares, one behind another.
fn square<R: Threads + Sync>(
    rt: &R,
    request: RequestedDraw,
    out: &mut Page,
) -> Result<(), CaseFault> {
    let alloc = out.alloc();
    let jobs = jobs_of(alloc, request.jobs)?;
    let Ok(answers) = squares(rt, alloc, request.workers, jobs.as_slice()) else {
        return Err(CaseFault::NoMemory);
    };
    if answers.is_empty() {
        out.put(b"no answers");
    }
    for answer in answers.iter() {
        match answer {
            Ok(answer) => out.number(*answer),
            Err(NoMemory) => return Err(CaseFault::NoMemory),
        }
        out.put(b"\n");
    }
    Ok(())
}

/// What is counted of jobs, by place.
#[derive(Drop)]
struct Counts {
    called: Tally,
    passed: Tally,
    behind: Tally,
}

impl Counts {
    /// Nothing happened yet.
    fn new(alloc: Global, jobs: u32) -> Result<Counts, AllocError> {
        Ok(Counts {
            called: Tally::new(alloc, jobs)?,
            passed: Tally::new(alloc, jobs)?,
            behind: Tally::new(alloc, jobs)?,
        })
    }

    /// A job is executed.
    fn carry(&self, job: &Job) -> u64 {
        self.called.note(job.place);
        if self.passed.at(job.place) == 1 {
            self.behind.note(job.place);
        }
        job.squared()
    }

    fn write(&self, out: &mut Page) {
        write_count(out, b"carried out once", self.called.places_with(1));
        write_count(out, b"gate passed once", self.passed.places_with(1));
        write_count(out, b"behind the gate", self.behind.places_with(1));
    }
}

impl Gate for Counts {
    fn pass(&self, place: usize) {
        self.passed.note(place);
    }
}

/// How often each job is executed, and the gate passed before it.
fn count<R: Threads + Sync>(
    rt: &R,
    request: RequestedDraw,
    out: &mut Page,
) -> Result<(), CaseFault> {
    let alloc = out.alloc();
    let jobs = jobs_of(alloc, request.jobs)?;
    let counts = Counts::new(alloc, request.jobs)?;
    let answers = draw_map(
        rt,
        alloc,
        request.workers,
        jobs.as_slice(),
        |job: &Job| counts.carry(job),
        &counts,
    );
    let Ok(answers) = answers else {
        return Err(CaseFault::NoMemory);
    };
    let in_place = in_place(answers.as_slice(), jobs.as_slice());
    write_count(out, b"answers", answers.len() as u64);
    write_count(out, b"in place", in_place);
    counts.write(out);
    Ok(())
}

/// Jobs that meet at the gate.
fn meet_at_gate<R: Threads + Clock + Sync>(
    rt: &R,
    request: RequestedDraw,
    out: &mut Page,
) -> Result<(), CaseFault> {
    let alloc = out.alloc();
    let jobs = jobs_of(alloc, request.jobs)?;
    let meeting = Meeting::new(rt, alloc, request.jobs, request.place)?;
    let answers = draw_map(
        rt,
        alloc,
        request.workers,
        jobs.as_slice(),
        |job: &Job| job.squared(),
        &meeting,
    );
    let Ok(answers) = answers else {
        return Err(CaseFault::NoMemory);
    };
    write_meeting(out, &meeting, answers.as_slice());
    Ok(())
}

/// Jobs that meet while they are executed.
fn meet<R: Threads + Clock + Sync>(
    rt: &R,
    request: RequestedDraw,
    out: &mut Page,
) -> Result<(), CaseFault> {
    let alloc = out.alloc();
    let jobs = jobs_of(alloc, request.jobs)?;
    let meeting = Meeting::new(rt, alloc, request.jobs, request.place)?;
    let answers = draw_map(
        rt,
        alloc,
        request.workers,
        jobs.as_slice(),
        |job: &Job| {
            meeting.come(job.place);
            job.squared()
        },
        &OpenGate,
    );
    let Ok(answers) = answers else {
        return Err(CaseFault::NoMemory);
    };
    write_meeting(out, &meeting, answers.as_slice());
    Ok(())
}

/// Writes the answer to a case, by the call's name and what stands behind it.
///
/// # Errors
///
/// What is wrong with the case.
pub fn answer<R: Threads + Clock + Sync>(
    rt: &R,
    call: &str,
    request: &[u8],
    out: &mut Page,
) -> Result<(), CaseFault> {
    let request = RequestedDraw::read(request)?;
    match call {
        "square" => square(rt, request, out),
        "alone" => draw_alone(request, out),
        "count" => count(rt, request, out),
        "gate" => meet_at_gate(rt, request, out),
        "meet" => meet(rt, request, out),
        _ => Err(CaseFault::Call),
    }
}
