//! Runs of the program: words, files and standard input, and below them the status and what each stream got.

use crate::repeats::repeated;
use crate::streams::{Input, Output};
use cases_text::{CaseFault, Page, as_text, decoded, number_of, split_word};
use gw_program::{Stream, program, unreadable_words};
use std::alloc::{AllocError, Global};
use std::fs;
use std::io::{Error, ErrorKind};
use std::net::Net;
use std::rt::Files;
use std::sync::Wait;
use std::thread::Threads;
use std::time::Clock;

/// The standard input of the runs below, which was written last.
#[derive(Drop)]
pub struct Programs {
    input: Vec<u8>,
}

/// How the streams of a run end.
#[derive(Clone, Copy)]
struct Ends {
    /// A read behind the input fails.
    input_fails: bool,
    /// So many bytes go to standard output, and no more.
    room: usize,
    /// So many go to standard error.
    err_room: usize,
}

/// Every read and write succeeds.
const WELL: Ends = Ends {
    input_fails: false,
    room: usize::MAX,
    err_room: usize::MAX,
};

/// The words of a line.
fn words_of<'a>(alloc: Global, line: &'a [u8]) -> Result<Vec<&'a str>, AllocError> {
    let mut words = Vec::new(alloc);
    let mut rest = line;
    // Each step takes one byte or more.
    for _step in line {
        if rest.is_empty() {
            break;
        }
        let (word, behind) = split_word(rest);
        words.push(as_text(word))?;
        rest = behind;
    }
    Ok(words)
}

/// A line for what a stream got, where it got something.
fn write_stream(out: &mut Page, name: &[u8], text: &[u8]) {
    if !text.is_empty() {
        out.put(b"\n");
        out.put(name);
        out.encoded(text);
    }
}

/// The status of words that could not be read, and what is said of them.
fn write_unreadable(kind: ErrorKind, out: &mut Page) {
    let mut err = Stream {
        stream: Output::new(Vec::new(out.alloc()), usize::MAX),
    };
    let status = unreadable_words(&Error::from(kind), &mut err);
    out.put(b"status ");
    out.number(u64::from(status));
    write_stream(out, b"err ", err.stream.as_bytes());
}

impl Programs {
    /// No input yet.
    pub fn new(alloc: Global) -> Programs {
        Programs {
            input: Vec::new(alloc),
        }
    }
}

/// Runs the program on the words: its status, and what each stream got.
fn run<R: Files + Net + Wait + Threads + Clock + AllocGlobal + Sync>(
    rt: &R,
    input: &[u8],
    line: &[u8],
    ends: Ends,
    out: &mut Page,
) -> Result<(), CaseFault> {
    let words = words_of(out.alloc(), line)?;
    let mut input = Input::new(input, ends.input_fails);
    let mut written = Output::new(Vec::new(out.alloc()), ends.room);
    let mut err = Stream {
        stream: Output::new(Vec::new(out.alloc()), ends.err_room),
    };
    let status = program(rt, words.as_slice(), &mut input, &mut written, &mut err);
    out.put(b"status ");
    out.number(u64::from(status));
    write_stream(out, b"out ", written.as_bytes());
    write_stream(out, b"err ", err.stream.as_bytes());
    Ok(())
}

/// Runs the program with an output that has room for so many bytes: the number comes before the words.
fn run_short<R: Files + Net + Wait + Threads + Clock + AllocGlobal + Sync>(
    rt: &R,
    input: &[u8],
    line: &[u8],
    out: &mut Page,
) -> Result<(), CaseFault> {
    let (room, words) = split_word(line);
    let room = number_of(room).ok_or(CaseFault::Form)?;
    let ends = Ends {
        room: room as usize,
        ..WELL
    };
    run(rt, input, words, ends, out)
}

/// Writes a file, into the folder that the cases run in: its name, and its text.
fn write_file<R: Files>(rt: &R, line: &[u8], out: &mut Page) -> Result<(), CaseFault> {
    let (name, text) = split_word(line);
    let text = decoded(out.alloc(), text)?;
    match fs::write(rt, as_text(name), text.as_slice()) {
        Ok(()) => Ok(()),
        Err(_) => Err(CaseFault::Form),
    }
}

/// The answer to a case of runs.
pub fn answer<R: Files + Net + Wait + Threads + Clock + AllocGlobal + Sync>(
    rt: &R,
    programs: &mut Programs,
    call: &str,
    given: &[u8],
    out: &mut Page,
) -> Result<(), CaseFault> {
    let failing = Ends {
        input_fails: true,
        ..WELL
    };
    let mute = Ends {
        err_room: 0,
        ..WELL
    };
    let input = programs.input.as_slice();
    match call {
        "file" => return write_file(rt, given, out),
        "input" => programs.input = decoded(out.alloc(), given)?,
        "input-more" => {
            let more = repeated(out.alloc(), given)?;
            programs.input.extend_from_slice(more.whole()?)?;
        }
        "run" => return run(rt, input, given, WELL, out),
        "run-unread" => return run(rt, input, given, failing, out),
        "run-mute" => return run(rt, input, given, mute, out),
        "run-short" => return run_short(rt, input, given, out),
        "no-text" => write_unreadable(ErrorKind::InvalidData, out),
        "no-memory" => write_unreadable(ErrorKind::OutOfMemory, out),
        _ => return Err(CaseFault::Call),
    }
    Ok(())
}
