//! Which entries of the tables a request may claim, and whether two requests may claim the same.

use bumpalo::Bump;
use cases_text::{CaseFault, Page, decoded, split_at_byte};
use gw_base::Key;
use gw_foot::{footprint, meets};
use gw_msg::{Item, Message, Request, read_message};
use gw_reserve::{Cursors, Reservation};
use gw_table::{Keys, Tables};
use std::alloc::Global;

/// The keys of a request that is alone in its burst, with 8 contexts and 4 slots and cursors at 0.
fn keys_of(alloc: Global, tables: &Tables, request: &Request<'_>) -> Result<Keys, CaseFault> {
    let cursors = Cursors {
        context: 0,
        slot: 0,
    };
    let mut reservation = Reservation::new(8, 4, &cursors);
    let Ok(owned) = reservation.own(alloc, tables, request) else {
        return Err(CaseFault::NoMemory);
    };
    match footprint(alloc, tables, request, &owned) {
        Ok(keys) => Ok(keys),
        Err(_) => Err(CaseFault::NoMemory),
    }
}

/// The request of a message of one.
fn request_of<'m, 'a>(message: &'m Message<'a>) -> Option<&'m Request<'a>> {
    let [item] = message.items.as_slice() else {
        return None;
    };
    match item {
        Item::Request(source) => source.kept_tree(),
        _ => None,
    }
}

/// The keys of the request of a message.
fn keys_in(alloc: Global, tables: &Tables, message: &[u8]) -> Result<Keys, CaseFault> {
    let bump = Bump::new(alloc);
    let Ok(message) = read_message(&bump, message) else {
        return Err(CaseFault::Form);
    };
    match request_of(&message) {
        Some(request) => keys_of(alloc, tables, request),
        None => Err(CaseFault::Form),
    }
}

/// The keys of the request of these actions.
fn keys_of_text(alloc: Global, tables: &Tables, actions: &[u8]) -> Result<Keys, CaseFault> {
    let text = decoded(alloc, actions)?;
    let mut whole = Page::new(alloc);
    whole.put(b"MEGACO/1 mg T=1{");
    whole.put(text.as_slice());
    whole.put(b"}");
    keys_in(alloc, tables, whole.whole()?)
}

fn write_key(out: &mut Page, key: &Key) {
    match key {
        Key::Term(name) => out.put(name.as_bytes()),
        Key::Ctx(number) => {
            out.put(b"context ");
            out.number(u64::from(number.0));
        }
        Key::Whole => out.put(b"the whole"),
    }
}

/// The keys of a request, in order.
pub fn write_footprint(out: &mut Page, tables: &Tables, actions: &[u8]) -> Result<(), CaseFault> {
    let keys = keys_of_text(out.alloc(), tables, actions)?;
    let keys = keys.list();
    if keys.is_empty() {
        out.put(b"none");
    }
    for (place, key) in keys.iter().enumerate() {
        if place > 0 {
            out.put(b", ");
        }
        write_key(out, key);
    }
    out.put(b"\n");
    Ok(())
}

/// Whether two requests meet, whose actions stand on either side of a `|`.
pub fn write_meeting(out: &mut Page, tables: &Tables, given: &[u8]) -> Result<(), CaseFault> {
    let (first, second) = split_at_byte(given, b'|');
    let first = keys_of_text(out.alloc(), tables, first)?;
    let second = keys_of_text(out.alloc(), tables, second)?;
    let answer: &[u8] = if meets(&first, &second) {
        b"they meet\n"
    } else {
        b"they do not meet\n"
    };
    out.put(answer);
    Ok(())
}
