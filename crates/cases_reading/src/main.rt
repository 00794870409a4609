//! Cases of reading: texts, and what each is read as.
#![tactic(auto)]

mod descriptors;
mod messages;
mod names;
mod scans;

use cases_text::{CaseFault, CaseRunner, Page, decoded, transcript};
use std::io;

/// Answers cases of reading.
#[derive(Drop)]
struct Reading;

impl CaseRunner for Reading {
    fn answer(&mut self, call: &str, given: &[u8], out: &mut Page) -> Result<(), CaseFault> {
        let text = decoded(out.alloc(), given)?;
        let text = text.as_slice();
        if names::answers(call, text, out)
            || descriptors::answers(call, text, out)
            || messages::answers(call, text, out)
            || scans::answers(call, text, out)
        {
            return Ok(());
        }
        Err(CaseFault::Call)
    }
}

fn main(rt: HostRuntime) -> io::Result<()> {
    transcript(&rt, &mut Reading)
}
