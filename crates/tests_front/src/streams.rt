//! Streams that are slow, and that fail.

use std::alloc::Global;
use std::io::{self, Error, ErrorKind, Read, Write};

/// A reader that gives a byte at a time, each after a signal where it is slow, and fails when it was read so many
/// times.
#[derive(Drop)]
pub(crate) struct Source<'a> {
    rest: &'a [u8],
    reads_left: usize,
    is_slow: bool,
    is_interrupted: bool,
}

impl<'a> Source<'a> {
    /// A slow reader of the text that never fails.
    pub(crate) fn slow(text: &'a [u8]) -> Source<'a> {
        Source {
            rest: text,
            reads_left: usize::MAX,
            is_slow: true,
            is_interrupted: false,
        }
    }

    /// A reader of the text that fails behind so many reads.
    pub(crate) fn failing(text: &'a [u8], reads: usize) -> Source<'a> {
        Source {
            rest: text,
            reads_left: reads,
            is_slow: false,
            is_interrupted: false,
        }
    }
}

impl Read for Source<'_> {
    fn read(&mut self, buf: &mut [u8]) -> io::Result<usize> {
        if self.is_slow && !self.is_interrupted {
            self.is_interrupted = true;
            return Err(Error::from(ErrorKind::Interrupted));
        }
        self.is_interrupted = false;
        if self.reads_left == 0 {
            return Err(Error::from(ErrorKind::BrokenPipe));
        }
        self.reads_left -= 1;
        let ([first, rest @ ..], [place, ..]) = (self.rest, buf) else {
            return Ok(0);
        };
        *place = *first;
        self.rest = rest;
        Ok(1)
    }
}

/// How a writer ends that has taken what it has room for.
#[derive(Clone, Copy, PartialEq, Eq)]
pub(crate) enum End {
    /// A write fails.
    Fails,
    /// A write takes nothing.
    IsFull,
    /// It has room for all, but a flush fails.
    DoesNotFlush,
}

/// A writer that takes so many bytes, one at a time and each after a signal, and then ends.
#[derive(Drop)]
pub(crate) struct Sink {
    /// What it took.
    pub(crate) taken: Vec<u8>,
    room: usize,
    end: End,
    is_interrupted: bool,
}

impl Sink {
    /// A writer that takes so many bytes and ends so.
    pub(crate) fn new(alloc: Global, room: usize, end: End) -> Sink {
        Sink {
            taken: Vec::new(alloc),
            room,
            end,
            is_interrupted: false,
        }
    }
}

impl Write for Sink {
    fn write(&mut self, buf: &[u8]) -> io::Result<usize> {
        self.is_interrupted = !self.is_interrupted;
        if self.is_interrupted {
            return Err(Error::from(ErrorKind::Interrupted));
        }
        let [first, ..] = buf else {
            return Ok(0);
        };
        if self.room == 0 {
            return match self.end {
                End::IsFull => Ok(0),
                _ => Err(Error::from(ErrorKind::BrokenPipe)),
            };
        }
        self.room -= 1;
        self.taken.push(*first)?;
        Ok(1)
    }

    fn flush(&mut self) -> io::Result<()> {
        match self.end {
            End::DoesNotFlush => Err(Error::from(ErrorKind::BrokenPipe)),
            _ => Ok(()),
        }
    }
}
