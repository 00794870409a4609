//! What is wrong with descriptors, and Locals that are filled.

ghost use Rattle.std.specs.Prelude.{◌≤◌, ◌<◌};

use crate::asking::{OnDescriptors, ask};
use crate::trees::verb_of;
use cases_text::{CaseFault, Page, number_of, split_word};
use gw_base::{Code, MediaAddr, Verb};
use gw_desc::{Descriptor, check, fill_local};

/// A code's number and its text.
pub fn write_code(code: Code, out: &mut Page) {
    out.number(u64::from(code.number()));
    out.put(b" ");
    out.put(code.text().as_bytes());
}

/// What is wrong with the descriptors, as those of a command.
#[derive(Drop)]
struct Wrong {
    verb: Verb,
}

impl OnDescriptors for Wrong {
    fn ask(&mut self, descriptors: &[Descriptor<'_>], out: &mut Page) -> Result<(), CaseFault> {
        match check(self.verb, descriptors) {
            Ok(()) => out.put(b"right"),
            Err(code) => write_code(code, out),
        }
        Ok(())
    }
}

/// What is wrong with descriptors, as those of the command that stands before them.
pub fn write_checked(given: &[u8], out: &mut Page) -> Result<(), CaseFault> {
    let (verb, text) = split_word(given);
    let verb = verb_of(verb)?;
    ask(text, &mut Wrong { verb }, out)
}

/// A Local of a slot's termination in a stream, filled.
fn write_local(text: &[u8], media: &MediaAddr, slot: u16, stream: u8, out: &mut Page)
    requires first { 1 ≤ stream }
    requires last { stream ≤ 4 }
{
    match fill_local(out.alloc(), text, media, slot, stream) {
        Ok((local, is_filled)) => {
            out.put(if is_filled { b"filled " } else { b"as it was " });
            out.encoded(local.as_slice());
        }
        Err(fault) => out.display(&fault),
    }
}

/// A Local of a slot's termination in a stream, filled for 10.0.0.1.
pub fn write_filled(given: &[u8], out: &mut Page) -> Result<(), CaseFault> {
    let (slot, rest) = split_word(given);
    let (stream, text) = split_word(rest);
    let slot = number_of(slot).ok_or(CaseFault::Form)?;
    let stream = number_of(stream).ok_or(CaseFault::Form)?;
    if slot >= 4_096 || stream == 0 || stream > 4 {
        return Err(CaseFault::Form);
    }
    let Ok(media) = MediaAddr::read(b"10.0.0.1") else {
        return Err(CaseFault::Form);
    };
    write_local(text, &media, slot as u16, stream as u8, out);
    Ok(())
}

/// A part so many times, each with its number.
fn write_numbered(front: &[u8], behind: &[u8], count: u32, out: &mut Page) {
    for number in 0..count {
        out.put(front);
        out.number(u64::from(number));
        out.put(behind);
    }
}

/// What is wrong with a list of so many parts, of which the last stands twice: properties, Streams or items of an
/// Audit.
pub fn write_long(call: &str, count: &[u8], out: &mut Page) -> Result<(), CaseFault> {
    let count = number_of(count).ok_or(CaseFault::Form)?;
    let mut text = Page::new(out.alloc());
    match call {
        "properties" => {
            text.put(b"M{O{");
            write_numbered(b"p", b"=1,", count, &mut text);
            text.put(b"P0=1}}");
        }
        "streams" => {
            text.put(b"M{");
            write_numbered(b"ST=", b"{L{}},", count, &mut text);
            text.put(b"ST=0{L{}}}");
        }
        _ => {
            text.put(b"AT{Events,");
            write_numbered(b"x", b",", count, &mut text);
            text.put(b"Events}");
        }
    }
    ask(text.whole()?, &mut Wrong { verb: Verb::Modify }, out)
}
