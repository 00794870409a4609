//! Names, mIds, addresses, TerminationIDs, and the table of error codes.

use cases_text::{Page, code_of, split_word};
use gw_base::{MediaAddr, Mid, NameFault, NoMemory, TermName, TermRef};
use gw_msg::ReadFault;
use gw_text::ParseFault;
use std::cmp::Ordering;
use std::fmt::Display;

/// What was read, as it is written.
fn write_value<T: Display>(out: &mut Page, value: &T) {
    let mut text = Page::new(out.alloc());
    text.display(value);
    out.put(b"read ");
    out.page(&text);
}

/// What was read or its fault, as they are written.
fn write_read<T: Display + Drop>(out: &mut Page, read: Result<T, NameFault>) {
    match read {
        Ok(value) => write_value(out, &value),
        Err(fault) => out.display(&fault),
    }
}

fn write_term(out: &mut Page, text: &[u8]) {
    match TermRef::read(text) {
        Ok(term) => out.named(&term),
        Err(fault) => out.display(&fault),
    }
}

/// The order of two names.
fn write_order(out: &mut Page, text: &[u8]) {
    let (first, second) = split_word(text);
    let (Ok(first), Ok(second)) = (TermName::read(first), TermName::read(second)) else {
        out.put(b"no names");
        return;
    };
    out.put(match first.cmp(&second) {
        Ordering::Less => b"before",
        Ordering::Equal => b"the same",
        Ordering::Greater => b"behind",
    });
}

/// Whether two mIds are one sender's.
fn write_senders(out: &mut Page, text: &[u8]) {
    let (first, second) = split_word(text);
    let (Ok(first), Ok(second)) = (Mid::read(first), Mid::read(second)) else {
        out.put(b"no mIds");
        return;
    };
    out.put(if first == second { b"one" } else { b"two" });
}

/// The text of the code with a number.
fn write_code(out: &mut Page, number: &[u8]) {
    match code_of(number) {
        Some(code) => out.put(code.text().as_bytes()),
        None => out.put(b"no code"),
    }
}

/// The texts for out of memory, by the crate that has it.
fn write_no_memory(out: &mut Page) {
    out.display(&NoMemory);
    out.put(b"\n");
    out.display(&ParseFault::NoMemory);
    out.put(b"\n");
    out.display(&ReadFault::NoMemory);
}

/// Answers a case of these calls. False: it is none.
pub fn answers(call: &str, text: &[u8], out: &mut Page) -> bool {
    match call {
        "name" => write_read(out, TermName::read(text)),
        "mid" => write_read(out, Mid::read(text)),
        "media" => write_read(out, MediaAddr::read(text)),
        "term" => write_term(out, text),
        "order" => write_order(out, text),
        "senders" => write_senders(out, text),
        "code" => write_code(out, text),
        "no-memory" => write_no_memory(out),
        _ => return false,
    }
    true
}
