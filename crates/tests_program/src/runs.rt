//! Runs of the program on words, with no input.

use gw_program::{Stream, program};
use std::net::Net;
use std::rt::Files;
use std::sync::Wait;
use std::test::Fail;
use std::thread::Threads;
use std::time::Clock;
use tests_wanted::{is_so, is_text};

/// A configuration: the one that is built in, as a text.
pub(crate) const CONFIGURATION: &str =
    "mid [10.0.0.1]:2944\nmedia 10.0.0.1\ncontexts 8\nslots 4\nmembers 3\nkeep 4\nterm T/1\nterm T/2\nterm T/3\nterm T/4\n";

/// What a run left. What is read of it takes it, so that a test drops none unread.
pub(crate) struct Run {
    status: u8,
    out: Vec<u8>,
    err: Vec<u8>,
}

// By hand, so that a function that lets a run go does so by one call. A derived one would stand in it field by field.
impl Drop for Run {
    fn drop(self) {
        let Run {
            status: _,
            out: _,
            err: _,
        } = self;
    }
}

/// Whether the bytes hold the text.
fn holds(bytes: &[u8], text: &[u8]) -> bool {
    text.is_empty() || bytes.windows(text.len()).any(|part| part == text)
}

impl Run {
    /// A run on the words.
    pub(crate) fn of<R: Files + Net + Wait + Threads + Clock + Sync + AllocGlobal>(
        rt: &R,
        words: &[&str],
    ) -> Run {
        let mut out = Vec::new(rt.alloc());
        let mut err = Stream {
            stream: Vec::new(rt.alloc()),
        };
        let mut input = b"".as_slice();
        let status = program(rt, words, &mut input, &mut out, &mut err);
        Run {
            status,
            out,
            err: err.stream,
        }
    }

    /// It ended with status 0, and said this among more.
    pub(crate) fn explains(self, part: &[u8]) -> Result<(), Fail> {
        is_so(self.status == 0 && self.err.is_empty(), "an explanation")?;
        is_so(holds(self.out.as_slice(), part), "its words")
    }

    /// It ended with status 2, and said this on standard error among more.
    pub(crate) fn is_misused(self, part: &[u8]) -> Result<(), Fail> {
        is_so(self.status == 2 && self.out.is_empty(), "a mistake")?;
        is_so(holds(self.err.as_slice(), part), "its words")
    }

    /// It ended with status 1, this line on standard error and nothing on standard output.
    pub(crate) fn fails(self, line: &[u8]) -> Result<(), Fail> {
        self.fails_behind(b"", line)
    }

    /// It ended with status 1, this on standard output and this line on standard error.
    pub(crate) fn fails_behind(self, said: &[u8], line: &[u8]) -> Result<(), Fail> {
        is_so(self.status == 1, "a fault")?;
        is_text(self.out.as_slice(), said)?;
        is_text(self.err.as_slice(), line)
    }
}
