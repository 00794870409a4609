//! The gateway of a case: `[10.0.0.1]:2944` with media 10.0.0.1, 8 contexts, 4 slots, 3 members, 4 kept replies and the
//! terminations T/1 to T/4, but for what the case says: `contexts=2`, `slots=0`, `members=1`, `keep=1`, `terms=a,b`,
//! `more=a,b` for further ones, or `count=4000` for the terminations T/0 to T/3999.

use crate::fault::CaseFault;
use crate::page::Page;
use crate::split::{split_at_byte, split_word};
use crate::words::{as_text, number_of};
use gw_base::{Config, Items, MediaAddr, Mid, TermName};
use std::alloc::Global;

fn add_name(terms: &mut Items<TermName>, name: &[u8]) -> Result<(), CaseFault> {
    let Ok(name) = TermName::read(name) else {
        return Err(CaseFault::Form);
    };
    Ok(terms.push(name)?)
}

/// Adds the names, which have commas between them.
fn add_names(terms: &mut Items<TermName>, names: &[u8]) -> Result<(), CaseFault> {
    let mut rest = names;
    // Each step takes one byte or more.
    for _step in names {
        if rest.is_empty() {
            break;
        }
        let (name, behind) = split_at_byte(rest, b',');
        add_name(terms, name)?;
        rest = behind;
    }
    Ok(())
}

/// Adds so many names.
fn add_counted(terms: &mut Items<TermName>, name: &mut Page, count: u32) -> Result<(), CaseFault> {
    for number in 0..count {
        name.clear();
        name.put(b"T/");
        name.number(u64::from(number));
        add_name(terms, name.whole()?)?;
    }
    Ok(())
}

/// Changes a number of the configuration; `count` makes the terminations anew.
fn renumber(alloc: Global, config: &mut Config, name: &str, number: u32) -> Result<(), CaseFault> {
    match name {
        "contexts" => config.contexts = number,
        "slots" => config.slots = number,
        "members" => config.members = number,
        "keep" => config.keep = number,
        "count" => {
            config.terms.clear();
            return add_counted(&mut config.terms, &mut Page::new(alloc), number);
        }
        _ => return Err(CaseFault::Form),
    }
    Ok(())
}

/// Changes the configuration by a word of a name, `=` and a value.
fn change(alloc: Global, config: &mut Config, word: &[u8]) -> Result<(), CaseFault> {
    let (name, value) = split_at_byte(word, b'=');
    match as_text(name) {
        "terms" => {
            config.terms.clear();
            add_names(&mut config.terms, value)
        }
        "more" => add_names(&mut config.terms, value),
        name => {
            let number = number_of(value).ok_or(CaseFault::Form)?;
            renumber(alloc, config, name, number)
        }
    }
}

/// Changes the configuration by each of the words.
fn change_all(alloc: Global, config: &mut Config, words: &[u8]) -> Result<(), CaseFault> {
    let mut rest = words;
    // Each step takes one byte or more.
    for _step in words {
        let (word, behind) = split_word(rest);
        if !word.is_empty() {
            change(alloc, config, word)?;
        }
        rest = behind;
    }
    Ok(())
}

/// The gateway of a case that says nothing else, but for its terminations.
fn usual(alloc: Global) -> Result<Config, CaseFault> {
    let Ok(mid) = Mid::read(b"[10.0.0.1]:2944") else {
        return Err(CaseFault::Form);
    };
    let Ok(media) = MediaAddr::read(b"10.0.0.1") else {
        return Err(CaseFault::Form);
    };
    Ok(Config {
        mid,
        media,
        contexts: 8,
        slots: 4,
        members: 3,
        keep: 4,
        terms: Items::new(alloc),
    })
}

/// The configuration that the words write.
///
/// # Errors
///
/// `Form` at a word that says nothing; `NoMemory` where an allocation was refused.
pub fn config_of(alloc: Global, words: &[u8]) -> Result<Config, CaseFault> {
    let mut config = usual(alloc)?;
    add_names(&mut config.terms, b"T/1,T/2,T/3,T/4")?;
    change_all(alloc, &mut config, words)?;
    Ok(config)
}
