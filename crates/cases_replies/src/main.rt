//! Cases of replies, of descriptors and of records: the message that a tree is written as, what is wrong with
//! descriptors, what they do to a termination, and what it answers to an Audit.
#![tactic(auto)]

mod asking;
mod checking;
mod records;
mod trees;

use cases_text::{CaseFault, CaseRunner, Page, decoded, transcript};
use records::Record;
use std::io::{self, ErrorKind};

impl CaseRunner for Record {
    fn answer(&mut self, call: &str, given: &[u8], out: &mut Page) -> Result<(), CaseFault> {
        let text = decoded(out.alloc(), given)?;
        let text = text.as_slice();
        match call {
            "reply" => trees::write_tree(self.mid(), text, out),
            "fault" => trees::write_code(self.mid(), text, out),
            "check" => checking::write_checked(text, out),
            "fill" => checking::write_filled(text, out),
            "properties" | "streams" | "items" => checking::write_long(call, text, out),
            _ => self.step(call, text, out),
        }
    }
}

fn main(rt: HostRuntime) -> io::Result<()> {
    match Record::new() {
        Some(mut record) => transcript(&rt, &mut record),
        None => Err(io::Error::from(ErrorKind::InvalidData)),
    }
}
