//! Streams of the program in memory: an input that may fail at its end, an output with so much room.

use std::io::{self, Error, ErrorKind, Read, Write};

/// An input in memory.
#[derive(Drop)]
pub struct Input<'a> {
    rest: &'a [u8],
    fails: bool,
}

impl<'a> Input<'a> {
    /// The text, behind which a read fails, or ends.
    pub fn new(text: &'a [u8], fails: bool) -> Input<'a> {
        Input { rest: text, fails }
    }
}

impl Read for Input<'_> {
    fn read(&mut self, buf: &mut [u8]) -> io::Result<usize> {
        if self.fails && self.rest.is_empty() {
            return Err(Error::from(ErrorKind::BrokenPipe));
        }
        let count = self.rest.len().min(buf.len());
        buf[..count].copy_from_slice(&self.rest[..count]);
        self.rest = &self.rest[count..];
        Ok(count)
    }
}

/// An output in memory that has room for so many bytes. A write behind them fails.
#[derive(Drop)]
pub struct Output {
    text: Vec<u8>,
    room: usize,
}

impl Output {
    /// Nothing was written yet.
    pub fn new(text: Vec<u8>, room: usize) -> Output {
        Output { text, room }
    }

    /// What was written.
    pub fn as_bytes(&self) -> &[u8] {
        self.text.as_slice()
    }
}

impl Write for Output {
    fn write(&mut self, buf: &[u8]) -> io::Result<usize> {
        if self.room == 0 {
            return Err(Error::from(ErrorKind::BrokenPipe));
        }
        let count = self.room.min(buf.len());
        self.text.extend_from_slice(&buf[..count])?;
        self.room -= count;
        Ok(count)
    }

    fn flush(&mut self) -> io::Result<()> {
        Ok(())
    }
}
