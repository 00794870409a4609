//! Texts that are written by what they repeat.

use cases_text::{CaseFault, Page, decoded, number_of, split_word};
use std::alloc::Global;

/// By the words: how often, a text that is repeated so often, and another behind it.
pub fn repeated(alloc: Global, words: &[u8]) -> Result<Page, CaseFault> {
    let (count, words) = split_word(words);
    let (record, rest) = split_word(words);
    let count = number_of(count).ok_or(CaseFault::Form)?;
    let record = decoded(alloc, record)?;
    let mut text = Page::new(alloc);
    for _ in 0..count {
        text.put(record.as_slice());
    }
    text.put(decoded(alloc, rest)?.as_slice());
    Ok(text)
}
