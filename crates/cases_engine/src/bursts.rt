//! Bursts of several datagrams, each from a peer of its own: its place.

use cases_text::{CaseFault, Page, number_of, split_word};
use gw_base::Items;
use gw_engine::{Datagram, Octets};
use std::alloc::{AllocError, Global};

/// What heads the datagrams of the controller that cases are about.
pub const CONTROLLER: &[u8] = b"MEGACO/1 [10.0.0.9]:2944 ";

/// A datagram of these bytes.
pub fn datagram_of(alloc: Global, peer: u32, bytes: &[u8]) -> Result<Datagram, AllocError> {
    let bytes = Octets::from(Items::from_slice(alloc, bytes)?);
    Ok(Datagram { peer, bytes })
}

/// Adds a datagram to a burst.
pub fn add(alloc: Global, burst: &mut Items<Datagram>, bytes: &[u8]) -> Result<(), CaseFault> {
    let peer = u32::try_from(burst.len()).unwrap_or(u32::MAX);
    let datagram = datagram_of(alloc, peer, bytes)?;
    Ok(burst.push(datagram)?)
}

/// Datagrams of so many transactions each, which are numbered from the first to the last and all have one body.
#[derive(Clone, Copy)]
struct Many<'a> {
    first: u32,
    last: u32,
    each: u32,
    body: &'a [u8],
}

impl<'a> Many<'a> {
    /// By the words: the first, the last, how many a datagram has, and the body.
    fn read(words: &'a [u8]) -> Option<Many<'a>> {
        let (first, rest) = split_word(words);
        let (last, rest) = split_word(rest);
        let (each, body) = split_word(rest);
        Some(Many {
            first: number_of(first)?,
            last: number_of(last)?,
            each: number_of(each)?,
            body,
        })
    }

    /// Adds the datagrams, each written on the page.
    fn add(&self, burst: &mut Items<Datagram>, page: &mut Page) -> Result<(), CaseFault> {
        let mut held = 0u32;
        page.put(CONTROLLER);
        for number in self.first..=self.last {
            page.put(b"Transaction=");
            page.number(u64::from(number));
            page.put(self.body);
            held = held.saturating_add(1);
            if held >= self.each || number == self.last {
                add(page.alloc(), burst, page.whole()?)?;
                page.clear();
                page.put(CONTROLLER);
                held = 0;
            }
        }
        Ok(())
    }
}

/// Adds the datagrams that the words ask for.
pub fn add_many(alloc: Global, burst: &mut Items<Datagram>, words: &[u8]) -> Result<(), CaseFault> {
    let many = Many::read(words).ok_or(CaseFault::Form)?;
    many.add(burst, &mut Page::new(alloc))
}

/// Adds the controller's datagram of a text with so many blanks behind it: how many, and the text.
pub fn add_padded(
    alloc: Global,
    burst: &mut Items<Datagram>,
    words: &[u8],
) -> Result<(), CaseFault> {
    let (count, text) = split_word(words);
    let count = number_of(count).ok_or(CaseFault::Form)?;
    let mut page = Page::new(alloc);
    page.put(CONTROLLER);
    page.put(text);
    for _blank in 0..count {
        page.put(b" ");
    }
    add(alloc, burst, page.whole()?)
}
