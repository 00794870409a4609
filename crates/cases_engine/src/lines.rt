//! Each line of the input, and below a case its answer, as `cases_text::transcript` writes them. That one takes a
//! `CaseRunner`, and no method of a trait can pass a runtime on to threads.

use crate::cases::{Cases, answer};
use cases_text::{CaseFault, Page, as_text, split_at_byte, split_word};
use std::io::{self, ErrorKind, Read, Write};
use std::net::Net;
use std::rt::{Clock, Files};
use std::sync::Wait;
use std::thread::Threads;

/// The answer to a case, which is written on the page.
fn answered<'p, R: Files + Net + Wait + Threads + Clock + AllocGlobal + Sync>(
    rt: &R,
    cases: &mut Cases,
    line: &[u8],
    page: &'p mut Page,
) -> Result<&'p [u8], CaseFault> {
    let (call, given) = split_word(line);
    answer(rt, cases, as_text(call), given, page)?;
    page.whole()
}

/// Writes a line, and below it its answer where it is a case.
fn write_case<R: Files + Net + Wait + Threads + Clock + AllocGlobal + Sync>(
    rt: &R,
    cases: &mut Cases,
    line: &[u8],
    out: &mut Page,
) {
    out.put(line);
    out.put(b"\n");
    if line.is_empty() || line.starts_with(b"#") {
        return;
    }
    let mut page = Page::new(out.alloc());
    match answered(rt, cases, line, &mut page) {
        Ok(text) => out.indented(text),
        Err(fault) => out.indented(fault.text()),
    }
}

/// Writes each line, and below a case its answer.
fn write_cases<R: Files + Net + Wait + Threads + Clock + AllocGlobal + Sync>(
    rt: &R,
    text: &[u8],
    out: &mut Page,
) {
    let mut cases = Cases::new(out.alloc());
    let mut rest = text;
    // Each step takes one byte or more.
    for _step in text {
        if rest.is_empty() {
            break;
        }
        let (line, behind) = split_at_byte(rest, b'\n');
        write_case(rt, &mut cases, line, out);
        rest = behind;
    }
}

/// Reads cases, one a line, and writes each line with the answer below it.
///
/// # Errors
///
/// A failed read or write; `OutOfMemory` where the transcript would miss a part.
pub fn transcript<R: Input + Print + Files + Net + Wait + Threads + Clock + AllocGlobal + Sync>(
    rt: &R,
) -> io::Result<()> {
    let mut text = Vec::new(rt.alloc());
    rt.reader().read_to_end(&mut text)?;
    let mut out = Page::new(rt.alloc());
    write_cases(rt, text.as_slice(), &mut out);
    match out.whole() {
        Ok(text) => io::writer(rt).write_all(text),
        Err(_) => Err(io::Error::from(ErrorKind::OutOfMemory)),
    }
}
