//! A page: what a case program writes.

use crate::fault::CaseFault;
use crate::split::split_at_byte;
use gw_base::{CtxNum, Service};
use itoa::Buffer;
use std::alloc::Global;
use std::fmt::{Debug, Display};

/// How many equal bytes in a row are written as a run.
const LONG_RUN: usize = 40;

/// The digits of a byte's number.
const DIGITS: &[u8; 16] = b"0123456789ABCDEF";

/// What heads each message of the gateway that cases are about.
const HEADER: &[u8] = b"MEGACO/1 [10.0.0.1]:2944\n";

/// Text that is being written. Where an allocation is refused, which the page remembers, a part of it is missing.
pub struct Page {
    alloc: Global,
    text: Vec<u8>,
    is_short: bool,
}

// By hand, so that a function that lets a page go does so by one call. A derived one would stand in it field by field.
impl Drop for Page {
    fn drop(self) {
        let Page {
            alloc: _,
            text: _,
            is_short: _,
        } = self;
    }
}

/// How many bytes in a row are equal at the front.
fn equal_at_front(bytes: &[u8]) -> usize {
    let [first, ..] = bytes else {
        return 0;
    };
    for (place, byte) in bytes.iter().enumerate() {
        if byte != first {
            return place;
        }
    }
    bytes.len()
}

impl Page {
    /// A page with nothing on it.
    pub fn new(alloc: Global) -> Page {
        Page {
            alloc,
            text: Vec::new(alloc),
            is_short: false,
        }
    }

    /// What pages grow by.
    pub fn alloc(&self) -> Global {
        self.alloc
    }

    /// What was written.
    pub fn as_bytes(&self) -> &[u8] {
        self.text.as_slice()
    }

    /// What was written, with no part missing.
    ///
    /// # Errors
    ///
    /// `NoMemory` where an allocation was refused.
    pub fn whole(&self) -> Result<&[u8], CaseFault> {
        if self.is_short {
            return Err(CaseFault::NoMemory);
        }
        Ok(self.text.as_slice())
    }

    /// A part is missing, since memory for it was refused before it was written.
    pub fn lose(&mut self) {
        self.is_short = true;
    }

    /// Takes all off the page.
    pub fn clear(&mut self) {
        self.text.clear();
    }

    /// Bytes as they are.
    pub fn put(&mut self, text: &[u8]) {
        if self.text.extend_from_slice(text).is_err() {
            self.is_short = true;
        }
    }

    /// A number in digits.
    pub fn number(&mut self, number: u64) {
        self.put(Buffer::new().format(number).as_bytes());
    }

    /// A value as a program shows it.
    pub fn display<T: Display>(&mut self, value: &T) {
        match format!(in self.alloc; "{value}") {
            Ok(text) => self.put(text.as_bytes()),
            Err(_) => self.is_short = true,
        }
    }

    /// A value as it stands in the code.
    pub fn named<T: Debug>(&mut self, value: &T) {
        match format!(in self.alloc; "{value:?}") {
            Ok(text) => self.put(text.as_bytes()),
            Err(_) => self.is_short = true,
        }
    }

    /// One byte, as itself or by its number.
    fn byte(&mut self, byte: u8) {
        if (b' '..=b'~').contains(&byte) && byte != b'%' {
            self.put(&[byte]);
        } else {
            let (high, low) = (byte / 16, byte % 16);
            self.put(&[b'%', DIGITS[usize::from(high)], DIGITS[usize::from(low)]]);
        }
    }

    /// So many equal bytes.
    fn run(&mut self, byte: u8, count: usize) {
        self.put(b"%[");
        self.number(count as u64);
        self.put(&[byte, b']']);
    }

    /// Bytes as a case has them. More than 40 equal letters or digits in a row are written as a run.
    pub fn encoded(&mut self, bytes: &[u8]) {
        let mut rest = bytes;
        // Each step takes one byte or more.
        for _step in bytes {
            let [first, others @ ..] = rest else {
                break;
            };
            let count = equal_at_front(rest);
            if count > LONG_RUN && first.is_ascii_alphanumeric() {
                self.run(*first, count);
                rest = rest.get(count..).unwrap_or(b"");
            } else {
                self.byte(*first);
                rest = others;
            }
        }
    }

    /// What stands on another page, as a case has it. Where a part of that one is missing, one is missing here.
    pub fn page(&mut self, other: &Page) {
        self.encoded(other.as_bytes());
        if other.is_short {
            self.is_short = true;
        }
    }

    /// A message as a case has it, `H` and a space in place of the gateway's header.
    pub fn message(&mut self, text: &[u8]) {
        match text.strip_prefix(HEADER) {
            Some(body) => {
                self.put(b"H ");
                self.encoded(body);
            }
            None => self.encoded(text),
        }
    }

    /// Where a termination is, `-` for the null context, and its service state.
    pub fn state(&mut self, place: Option<CtxNum>, service: Service) {
        match place {
            Some(place) => self.number(u64::from(place.0)),
            None => self.put(b"-"),
        }
        match service {
            Service::Test => self.put(b" Test"),
            Service::OutOfService => self.put(b" OutOfService"),
            Service::InService => self.put(b" InService"),
        }
    }

    /// The lines of a text, each behind two spaces, but for the empty ones.
    pub fn indented(&mut self, text: &[u8]) {
        let mut rest = text;
        // Each step takes one byte or more.
        for _step in text {
            let (line, behind) = split_at_byte(rest, b'\n');
            if !line.is_empty() {
                self.put(b"  ");
                self.put(line);
                self.put(b"\n");
            }
            rest = behind;
        }
    }
}
