//! Places, keys, replies and tables as a case has them.

use cases_text::{CaseFault, Page};
use gw_base::{Items, Key};
use gw_table::Tables;

/// What stands between two items.
const COMMA: &[u8] = b", ";

/// The places, or that there is none.
pub fn write_places(out: &mut Page, places: &[usize]) {
    if places.is_empty() {
        out.put(b"none");
    }
    for (at, place) in places.iter().enumerate() {
        if at > 0 {
            out.put(COMMA);
        }
        out.number(*place as u64);
    }
}

/// How many sizes there are in a row that are equal: `2 of 1` for two of the size 1.
fn write_run(out: &mut Page, count: u64, size: usize) {
    if count > 0 {
        out.number(count);
        out.put(b" of ");
        out.number(size as u64);
    }
}

/// Sizes, those that are equal and stand in a row together, or that there is none.
pub fn write_runs(out: &mut Page, sizes: &[usize]) {
    if sizes.is_empty() {
        out.put(b"none");
    }
    let mut count = 0u64;
    let mut last = 0;
    for size in sizes {
        if *size != last {
            write_run(out, count, last);
            if count > 0 {
                out.put(COMMA);
            }
            count = 0;
            last = *size;
        }
        count = count.saturating_add(1);
    }
    write_run(out, count, last);
}

fn write_key(out: &mut Page, key: &Key) {
    match key {
        Key::Term(name) => out.put(name.as_bytes()),
        Key::Ctx(number) => {
            out.put(b"context ");
            out.number(u64::from(number.0));
        }
        Key::Whole => out.put(b"the whole"),
    }
}

/// The keys of a request, in order.
pub fn write_keys(out: &mut Page, keys: &[Key]) {
    if keys.is_empty() {
        out.put(b"none");
    }
    for (at, key) in keys.iter().enumerate() {
        if at > 0 {
            out.put(COMMA);
        }
        write_key(out, key);
    }
    out.put(b"\n");
}

/// A line for each reply.
pub fn write_replies(out: &mut Page, replies: &[Items<u8>]) {
    for reply in replies {
        out.message(reply.as_slice());
        out.put(b"\n");
    }
}

/// A line for each context and for each termination.
pub fn write_tables(out: &mut Page, tables: &Tables) -> Result<(), CaseFault> {
    let mut text = Vec::new(out.alloc());
    let Ok(()) = tables.write_text(out.alloc(), &mut text) else {
        return Err(CaseFault::NoMemory);
    };
    out.put(text.as_slice());
    Ok(())
}
