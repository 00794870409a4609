//! An input in memory that gives so many bytes at a time.

use std::io::{self, Read};

/// An input in memory that gives so many bytes at a time.
#[derive(Drop)]
pub struct Pieces<'a> {
    rest: &'a [u8],
    most: usize,
}

impl<'a> Pieces<'a> {
    /// The text, in pieces of at most so many bytes.
    pub fn new(text: &'a [u8], most: usize) -> Pieces<'a> {
        Pieces { rest: text, most }
    }
}

impl Read for Pieces<'_> {
    fn read(&mut self, buf: &mut [u8]) -> io::Result<usize> {
        let count = self.most.min(self.rest.len()).min(buf.len());
        buf[..count].copy_from_slice(&self.rest[..count]);
        self.rest = &self.rest[count..];
        Ok(count)
    }
}
