//! A reader that is read so many times and no more.

ghost use Rattle.std.specs.Prelude.{◌≡◌, ◌-◌, IsErr};
ghost use Rattle.std.specs.Io.{ReadsAtMost};
ghost use Rattle.std.specs.Io.KnownBytes.{ReadConsumes};

use std::io::{self, Error, ErrorKind, Read};

/// A reader that may be read so many times, reads that a signal interrupts included. A read more fails. So a replay of
/// an input that never ends does end.
#[derive(Drop)]
pub(crate) struct Counted<'a, R> {
    reader: &'a mut R,
    left: u32,
}

impl<'a, R: Read> Counted<'a, R> {
    /// The reader, which may be read 4,294,967,295 times.
    pub(crate) fn new(reader: &'a mut R) -> Counted<'a, R>
        ensures same { result.reader.now ≡ reader.old }
        ensures reads { result.left ≡ 4294967295 }
    {
        Counted {
            reader,
            left: u32::MAX,
        }
    }
}

impl<R: Read> Read for Counted<'_, R> {
    ghost remaining = { λ s. R.remaining s.reader.now };

    fn read(&mut self, buf: &mut [u8]) -> io::Result<usize>
        ensures bound { ReadsAtMost result buf.new }
        ensures bytes { ReadConsumes (R.remaining self.old.reader.now) (R.remaining self.new.reader.now)
            result buf.new }

        // A read takes one of those that are left; where none is left it fails, and the reader is not read.
        ensures counted { self.new.left ≡ self.old.left - 1 }
        ensures none { self.old.left ≡ 0 → IsErr result }
        ensures unread { self.old.left ≡ 0 → self.new.reader.now ≡ self.old.reader.now }
    {
        if self.left == 0 {
            return Err(Error::from(ErrorKind::Other));
        }
        self.left -= 1;
        self.reader.read(buf)
    }
}
