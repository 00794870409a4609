//! One list of kept replies, changed and looked at by single calls.

use cases_text::{CaseFault, Page, number_of, split_at_byte, split_word};
use gw_base::{Items, Mid, TxId};
use gw_kept::{Entry, Kept};
use gw_msg::AckRange;
use std::alloc::Global;

/// How many pairs a list may keep.
const MOST_KEPT: u32 = 4_096;

/// A list that keeps the last so many pairs.
pub fn made(text: &[u8], out: &mut Page) -> Result<Kept, CaseFault> {
    let most = number_of(text).ok_or(CaseFault::Form)?;
    if most < 1 || most > MOST_KEPT {
        return Err(CaseFault::Form);
    }
    let Ok(kept) = Kept::new(out.alloc(), most) else {
        return Err(CaseFault::NoMemory);
    };
    write_count(&kept, out);
    Ok(kept)
}

/// A sender and a number.
fn key_of(mid: &[u8], number: &[u8]) -> Result<(Mid, TxId), CaseFault> {
    let mid = Mid::read(mid).map_err(|_| CaseFault::Form)?;
    let number = number_of(number).ok_or(CaseFault::Form)?;
    Ok((mid, TxId(number)))
}

/// How many pairs there are.
fn write_count(kept: &Kept, out: &mut Page) {
    out.number(kept.len() as u64);
    out.put(b" kept\n");
}

/// The bytes of a reply, or that there is none.
fn write_reply(reply: Option<&[u8]>, out: &mut Page) {
    match reply {
        Some(bytes) => out.encoded(bytes),
        None => out.put(b"none"),
    }
    out.put(b"\n");
}

/// The pair goes last; answers which pair was dropped for it. A key that a kept pair has is not allowed.
pub fn push(kept: &mut Kept, text: &[u8], out: &mut Page) -> Result<(), CaseFault> {
    let (mid, rest) = split_word(text);
    let (number, bytes) = split_word(rest);
    let (mid, id) = key_of(mid, number)?;
    if kept.find(&mid, id).is_some() {
        out.put(b"not allowed\n");
        return Ok(());
    }
    let bytes = Items::from_slice(out.alloc(), bytes)?;
    if let Some(dropped) = kept.push(Entry { mid, id, bytes }) {
        out.put(b"dropped ");
        out.encoded(dropped.mid.as_bytes());
        out.put(b" ");
        out.number(u64::from(dropped.id.0));
        out.put(b" ");
        out.encoded(dropped.bytes.as_slice());
        out.put(b"\n");
    }
    write_count(kept, out);
    Ok(())
}

/// The reply to a sender under a number.
pub fn find(kept: &Kept, text: &[u8], out: &mut Page) -> Result<(), CaseFault> {
    let (mid, number) = split_word(text);
    let (mid, id) = key_of(mid, number)?;
    write_reply(kept.find(&mid, id), out);
    Ok(())
}

/// The reply at a place, counted from the oldest.
pub fn reply_at(kept: &Kept, text: &[u8], out: &mut Page) -> Result<(), CaseFault> {
    let place = number_of(text).ok_or(CaseFault::Form)?;
    write_reply(kept.reply_at(place as usize), out);
    Ok(())
}

/// A range, `7` or `1-3`.
fn range_of(word: &[u8]) -> Result<AckRange, CaseFault> {
    let (first, last) = split_at_byte(word, b'-');
    let first = number_of(first).ok_or(CaseFault::Form)?;
    if last.is_empty() {
        return Ok(AckRange { first, last: first });
    }
    let last = number_of(last).ok_or(CaseFault::Form)?;
    Ok(AckRange { first, last })
}

/// The ranges of a text, with a space between each two.
fn ranges_of(alloc: Global, text: &[u8]) -> Result<Vec<AckRange>, CaseFault> {
    let mut ranges = Vec::new(alloc);
    let mut rest = text;
    // Each step takes one byte or more.
    for _step in text {
        if rest.is_empty() {
            break;
        }
        let (word, behind) = split_word(rest);
        ranges.push(range_of(word)?)?;
        rest = behind;
    }
    Ok(ranges)
}

/// The pairs of a sender with a number in one of the ranges go.
pub fn forget(kept: &mut Kept, text: &[u8], out: &mut Page) -> Result<(), CaseFault> {
    let (mid, rest) = split_word(text);
    let mid = Mid::read(mid).map_err(|_| CaseFault::Form)?;
    let ranges = ranges_of(out.alloc(), rest)?;
    kept.forget(&mid, ranges.as_slice());
    write_count(kept, out);
    Ok(())
}
