//! The calls of the cases.

use crate::bursts::classify;
use crate::lists::{find, forget, made, push, reply_at};
use cases_text::{CaseFault, CaseRunner, Page, decoded};
use gw_kept::Kept;

/// Answers cases on one list of kept replies.
#[derive(Drop)]
pub struct Cases {
    kept: Option<Kept>,
}

impl Cases {
    /// No list yet.
    pub fn new() -> Cases {
        Cases { kept: None }
    }
}

impl CaseRunner for Cases {
    fn answer(&mut self, call: &str, given: &[u8], out: &mut Page) -> Result<(), CaseFault> {
        let text = decoded(out.alloc(), given)?;
        let text = text.as_slice();
        if call == "new" {
            self.kept = Some(made(text, out)?);
            return Ok(());
        }
        let Some(kept) = &mut self.kept else {
            return Err(CaseFault::Call);
        };
        match call {
            "push" => push(kept, text, out),
            "find" => find(kept, text, out),
            "at" => reply_at(kept, text, out),
            "forget" => forget(kept, text, out),
            "classify" => classify(kept, text, out),
            _ => Err(CaseFault::Call),
        }
    }
}
