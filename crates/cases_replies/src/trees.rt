//! The tree of a reply, from words: the transaction's number; `!510` for an error in its place; `in:1` for an action
//! reply in a context, `in:9!411` for one that is an error; `Priority=3`, `Emergency` and `Topology=T/1,T/2,Oneway`
//! behind it for what is written of the context; `Add=T/1` and `Add=T/9!430` for command replies; `*236` in front of a
//! word that stands so many times.

use cases_text::{
    CaseFault, Page, as_text, code_of, context_of, number_of, split_at_byte, split_word,
};
use gw_base::{Code, Flow, Items, Link, Mid, NoMemory, TermName, TermRef, TxId, Verb};
use gw_reply::{ActionReply, CommandReply, ContextPart, TxReply, write_fault, write_reply};
use std::alloc::Global;

/// The command of a word.
pub fn verb_of(word: &[u8]) -> Result<Verb, CaseFault> {
    match as_text(word) {
        "Add" => Ok(Verb::Add),
        "Modify" => Ok(Verb::Modify),
        "Move" => Ok(Verb::Move),
        "Subtract" => Ok(Verb::Subtract),
        "AuditValue" => Ok(Verb::AuditValue),
        "AuditCapability" => Ok(Verb::AuditCapability),
        "Notify" => Ok(Verb::Notify),
        "ServiceChange" => Ok(Verb::ServiceChange),
        _ => Err(CaseFault::Form),
    }
}

/// The code that a word has behind a `!`, or no code where it has none.
fn error_of(number: &[u8]) -> Result<Option<Code>, CaseFault> {
    if number.is_empty() {
        return Ok(None);
    }
    match code_of(number) {
        Some(code) => Ok(Some(code)),
        None => Err(CaseFault::Form),
    }
}

/// A command reply.
fn command_of(alloc: Global, word: &[u8]) -> Result<CommandReply, CaseFault> {
    let (front, number) = split_at_byte(word, b'!');
    let (verb, term) = split_at_byte(front, b'=');
    let verb = verb_of(verb)?;
    let code = error_of(number)?;
    let Ok(term) = TermRef::read(term) else {
        return Err(CaseFault::Form);
    };
    Ok(CommandReply {
        verb,
        term,
        result: match code {
            Some(code) => Err(code),
            None => Ok(Items::new(alloc)),
        },
    })
}

/// Adds a command reply so many times.
fn add_command(
    alloc: Global,
    commands: &mut Items<CommandReply>,
    word: &[u8],
    times: u32,
) -> Result<(), CaseFault> {
    for _ in 0..times {
        commands.push(command_of(alloc, word)?)?;
    }
    Ok(())
}

/// Adds the command replies that the words write up to the next action reply, and gives what stands from there on.
fn add_commands<'a>(
    alloc: Global,
    commands: &mut Items<CommandReply>,
    words: &'a [u8],
) -> Result<&'a [u8], CaseFault> {
    let mut rest = words;
    let mut times = 1;
    // Each step takes one byte or more.
    for _step in words {
        if rest.is_empty() || rest.starts_with(b"in:") {
            break;
        }
        let (word, behind) = split_word(rest);
        if let Some(count) = word.strip_prefix(b"*") {
            times = number_of(count).ok_or(CaseFault::Form)?;
        } else {
            add_command(alloc, commands, word, times)?;
            times = 1;
        }
        rest = behind;
    }
    Ok(rest)
}

/// A link of a topology, of its two names and its direction.
fn link_of(a: &[u8], b: &[u8], flow: &[u8]) -> Result<Link, CaseFault> {
    let flow = match as_text(flow) {
        "Bothway" => Flow::Bothway,
        "Isolate" => Flow::Isolate,
        "Oneway" => Flow::Oneway,
        _ => return Err(CaseFault::Form),
    };
    let (Ok(a), Ok(b)) = (TermName::read(a), TermName::read(b)) else {
        return Err(CaseFault::Form);
    };
    Ok(Link { a, b, flow })
}

/// The links of a topology; none where there is no text.
fn links_of(alloc: Global, words: &[u8]) -> Result<Items<Link>, CaseFault> {
    let mut links = Items::new(alloc);
    let mut rest = words;
    // Each step takes one byte or more.
    for _step in words {
        if rest.is_empty() {
            break;
        }
        let (a, behind) = split_at_byte(rest, b',');
        let (b, behind) = split_at_byte(behind, b',');
        let (flow, behind) = split_at_byte(behind, b',');
        links.push(link_of(a, b, flow)?)?;
        rest = behind;
    }
    Ok(links)
}

/// What a word says of a context, if it is such a word.
fn part_of(alloc: Global, word: &[u8]) -> Result<Option<ContextPart>, CaseFault> {
    if let Some(number) = word.strip_prefix(b"Priority=") {
        let number = number_of(number).ok_or(CaseFault::Form)?;
        let priority = u8::try_from(number).map_err(|_| CaseFault::Form)?;
        return Ok(Some(ContextPart::Priority(priority)));
    }
    if let Some(links) = word.strip_prefix(b"Topology=") {
        return Ok(Some(ContextPart::Topology(links_of(alloc, links)?)));
    }
    match as_text(word) {
        "Emergency" => Ok(Some(ContextPart::Emergency)),
        _ => Ok(None),
    }
}

/// Adds what the words say of a context up to the first that does not, and gives what stands from there on.
fn add_parts<'a>(
    alloc: Global,
    parts: &mut Items<ContextPart>,
    words: &'a [u8],
) -> Result<&'a [u8], CaseFault> {
    let mut rest = words;
    // Each step takes one byte or more.
    for _step in words {
        let (word, behind) = split_word(rest);
        let Some(part) = part_of(alloc, word)? else {
            break;
        };
        parts.push(part)?;
        rest = behind;
    }
    Ok(rest)
}

/// Adds the action reply that the words begin with, and gives what stands behind it.
fn add_action<'a>(
    alloc: Global,
    actions: &mut Items<ActionReply>,
    words: &'a [u8],
) -> Result<&'a [u8], CaseFault> {
    let (word, rest) = split_word(words);
    let ctx = word.strip_prefix(b"in:").ok_or(CaseFault::Form)?;
    let (ctx, number) = split_at_byte(ctx, b'!');
    let ctx = context_of(ctx).ok_or(CaseFault::Form)?;
    let mut parts = Items::new(alloc);
    let rest = add_parts(alloc, &mut parts, rest)?;
    if let Some(code) = error_of(number)? {
        actions.push(ActionReply {
            ctx,
            parts,
            result: Err(code),
        })?;
        return Ok(rest);
    }
    let mut commands = Items::new(alloc);
    let rest = add_commands(alloc, &mut commands, rest)?;
    actions.push(ActionReply {
        ctx,
        parts,
        result: Ok(commands),
    })?;
    Ok(rest)
}

/// Adds the action replies that the words write.
fn add_actions(
    alloc: Global,
    actions: &mut Items<ActionReply>,
    words: &[u8],
) -> Result<(), CaseFault> {
    let mut rest = words;
    // Each step takes one byte or more.
    for _step in words {
        if rest.is_empty() {
            break;
        }
        rest = add_action(alloc, actions, rest)?;
    }
    Ok(())
}

/// The tree that the words write.
fn tree_of(alloc: Global, words: &[u8]) -> Result<TxReply, CaseFault> {
    let (id, rest) = split_word(words);
    let id = TxId(number_of(id).ok_or(CaseFault::Form)?);
    if let Some(number) = rest.strip_prefix(b"!") {
        let code = code_of(number).ok_or(CaseFault::Form)?;
        return Ok(TxReply {
            id,
            result: Err(code),
        });
    }
    let mut actions = Items::new(alloc);
    add_actions(alloc, &mut actions, rest)?;
    Ok(TxReply {
        id,
        result: Ok(actions),
    })
}

/// A message with its length.
fn write_text(text: Result<Vec<u8>, NoMemory>, out: &mut Page) {
    match text {
        Ok(text) => {
            out.number(text.len() as u64);
            out.put(b" bytes: ");
            out.message(text.as_slice());
        }
        Err(fault) => out.display(&fault),
    }
}

/// The message of the tree that the words write.
pub fn write_tree(mid: &Mid, words: &[u8], out: &mut Page) -> Result<(), CaseFault> {
    let tree = tree_of(out.alloc(), words)?;
    write_text(write_reply(out.alloc(), &tree, mid), out);
    Ok(())
}

/// The message that has the error as its body.
pub fn write_code(mid: &Mid, number: &[u8], out: &mut Page) -> Result<(), CaseFault> {
    let code = code_of(number).ok_or(CaseFault::Form)?;
    write_text(write_fault(out.alloc(), code, mid), out);
    Ok(())
}
