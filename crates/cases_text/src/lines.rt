//! A transcript: each line of the input, and below a case its answer.

use crate::fault::CaseFault;
use crate::page::Page;
use crate::split::{split_at_byte, split_word};
use crate::words::as_text;
use std::io::{self, ErrorKind, Read, Write};

/// What answers cases.
pub trait CaseRunner {
    /// Writes the answer to a case, by the call's name and what stands behind it: one line or more, in printable bytes.
    /// No line: nothing stands below the case.
    ///
    /// # Errors
    ///
    /// What is wrong with the case.
    fn answer(&mut self, call: &str, given: &[u8], out: &mut Page) -> Result<(), CaseFault>;
}

/// The answer to a case, which is written on the page.
fn answered<'p, D: CaseRunner>(
    runner: &mut D,
    line: &[u8],
    page: &'p mut Page,
) -> Result<&'p [u8], CaseFault> {
    let (call, given) = split_word(line);
    runner.answer(as_text(call), given, page)?;
    page.whole()
}

/// Writes a line, and below it its answer where it is a case.
fn write_case<D: CaseRunner>(runner: &mut D, line: &[u8], out: &mut Page) {
    out.put(line);
    out.put(b"\n");
    if line.is_empty() || line.starts_with(b"#") {
        return;
    }
    let mut answer = Page::new(out.alloc());
    match answered(runner, line, &mut answer) {
        Ok(text) => out.indented(text),
        Err(fault) => out.indented(fault.text()),
    }
}

/// Writes each line, and below a case its answer.
fn write_cases<D: CaseRunner>(runner: &mut D, text: &[u8], out: &mut Page) {
    let mut rest = text;
    // Each step takes one byte or more.
    for _step in text {
        if rest.is_empty() {
            break;
        }
        let (line, behind) = split_at_byte(rest, b'\n');
        write_case(runner, line, out);
        rest = behind;
    }
}

/// Reads cases, one a line, and writes each line with the answer below it, or behind a `!` what is wrong with it. Empty
/// lines and lines that begin with `#` are no cases.
///
/// # Errors
///
/// A failed read or write; `OutOfMemory` where the transcript would miss a part.
pub fn transcript<D: CaseRunner>(
    rt: &(impl Input + Print + AllocGlobal),
    runner: &mut D,
) -> io::Result<()> {
    let mut text = Vec::new(rt.alloc());
    rt.reader().read_to_end(&mut text)?;
    let mut out = Page::new(rt.alloc());
    write_cases(runner, text.as_slice(), &mut out);
    match out.whole() {
        Ok(text) => io::writer(rt).write_all(text),
        Err(_) => Err(io::Error::from(ErrorKind::OutOfMemory)),
    }
}
