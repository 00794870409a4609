//! The words of a case.

ghost use Rattle.std.specs.Prelude.{◌≤◌};

use cases_text::{CaseFault, as_text, number_of, split_at_byte, split_word};

/// The most workers that may be given.
const MOST_WORKERS: u32 = 64;

/// The most jobs that a case has.
const MOST_JOBS: u32 = 100_000;

/// How many workers and jobs there are, and a place of a job.
#[derive(Clone, Copy)]
pub struct RequestedDraw {
    /// 1 to 64.
    pub workers: u32,
    /// At most 100,000.
    pub jobs: u32,
    /// A job's place, where the case names one.
    pub place: Option<usize>,
    ghost some: { 1 ≤ workers },
    ghost limit: { workers ≤ 64 },
}

/// What a word of a name, `=` and a number changes.
fn change(request: &mut RequestedDraw, word: &[u8]) -> Result<(), CaseFault> {
    let (name, value) = split_at_byte(word, b'=');
    let number = number_of(value).ok_or(CaseFault::Form)?;
    match as_text(name) {
        "workers" if (1..=MOST_WORKERS).contains(&number) => request.workers = number,
        "jobs" if number <= MOST_JOBS => request.jobs = number,
        "place" => request.place = Some(number as usize),
        _ => return Err(CaseFault::Form),
    }
    Ok(())
}

impl RequestedDraw {
    /// What the words ask: one worker and no jobs, but for what they say.
    ///
    /// # Errors
    ///
    /// `Form` at a word that says nothing.
    pub fn read(words: &[u8]) -> Result<RequestedDraw, CaseFault> {
        let mut request = RequestedDraw {
            workers: 1,
            jobs: 0,
            place: None,
        };
        let mut rest = words;
        // Each step takes one byte or more.
        for _step in words {
            let (word, behind) = split_word(rest);
            if !word.is_empty() {
                change(&mut request, word)?;
            }
            rest = behind;
        }
        Ok(request)
    }
}
