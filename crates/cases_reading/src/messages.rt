//! A message as one line: its sender, and its tree.

use crate::descriptors::write_descriptor;
use bumpalo::Bump;
use cases_text::Page;
use gw_base::CtxRef;
use gw_msg::{
    AckRange, Action, Command, ContextProp, Item, Message, ReadFault, Request, RequestSource,
    Triple, read_message, skim_message,
};

fn write_command(out: &mut Page, command: &Command<'_>) {
    out.put(b"; ");
    out.named(&command.verb);
    if command.optional {
        out.put(b" optional");
    }
    if command.wild {
        out.put(b" wild");
    }
    out.put(b" ");
    out.named(&command.term);
    for descriptor in command.descriptors.as_slice() {
        out.put(b" + ");
        write_descriptor(out, descriptor);
    }
}

fn write_context(out: &mut Page, ctx: CtxRef) {
    out.put(b" in ");
    match ctx {
        CtxRef::Null => out.put(b"-"),
        CtxRef::All => out.put(b"*"),
        CtxRef::Choose => out.put(b"$"),
        CtxRef::Num(number) => out.number(u64::from(number.0)),
    }
}

fn write_triple(out: &mut Page, triple: &Triple) {
    out.put(b" (");
    out.named(&triple.a);
    out.put(b" ");
    out.named(&triple.b);
    out.put(b" ");
    out.named(&triple.flow);
    out.put(b")");
}

fn write_prop(out: &mut Page, prop: &ContextProp<'_>) {
    match prop {
        ContextProp::Priority(number) => {
            out.put(b"Priority ");
            out.number(u64::from(*number));
        }
        ContextProp::Emergency => out.put(b"Emergency"),
        ContextProp::Topology(triples) => {
            out.put(b"Topology");
            for triple in triples.as_slice() {
                write_triple(out, triple);
            }
        }
        ContextProp::ContextAudit(items) => {
            out.put(b"ContextAudit");
            for item in items.as_slice() {
                out.put(b" ");
                out.named(item);
            }
        }
    }
}

fn write_action(out: &mut Page, action: &Action<'_>) {
    write_context(out, action.ctx);
    for prop in action.props.as_slice() {
        out.put(b" / ");
        write_prop(out, prop);
    }
    for command in action.commands.as_slice() {
        write_command(out, command);
    }
}

fn write_request(out: &mut Page, request: &Request<'_>) {
    out.put(b"request ");
    out.number(u64::from(request.id.0));
    for action in request.actions.as_slice() {
        write_action(out, action);
    }
}

fn write_ack(out: &mut Page, ranges: &[AckRange]) {
    out.put(b"ack");
    for range in ranges {
        out.put(b" ");
        out.number(u64::from(range.first));
        out.put(b"-");
        out.number(u64::from(range.last));
    }
}

fn write_source(out: &mut Page, source: &RequestSource<'_>) {
    let bump = Bump::new(out.alloc());
    match source.tree(&bump) {
        Ok(tree) => {
            if source.id().0 != tree.id.0 {
                out.put(b"another number is kept than that of ");
            }
            write_request(out, tree);
        }
        Err(_) => out.put(b"no memory"),
    }
}

fn write_message(out: &mut Page, message: &Message<'_>) {
    out.encoded(message.mid.mid().as_bytes());
    out.put(b": ");
    for item in message.items.as_slice() {
        match item {
            Item::Request(source) => write_source(out, source),
            Item::Ack(ranges) => write_ack(out, ranges.as_slice()),
            Item::Ignored => out.put(b"ignored"),
        }
        out.put(b".");
    }
}

fn write_found(out: &mut Page, found: &Result<Message<'_>, ReadFault>) {
    match found {
        Ok(message) => write_message(out, message),
        Err(fault) => out.display(fault),
    }
}

/// What the text is read as; and what it is read as without trees, if that is anything else.
fn write_read(out: &mut Page, text: &[u8]) {
    let bump = Bump::new(out.alloc());
    let mut read = Page::new(out.alloc());
    write_found(&mut read, &read_message(&bump, text));
    let mut skimmed = Page::new(out.alloc());
    write_found(&mut skimmed, &skim_message(out.alloc(), &bump, text));
    out.put(read.as_bytes());
    if skimmed.as_bytes() != read.as_bytes() {
        out.put(b" without trees: ");
        out.put(skimmed.as_bytes());
    }
}

/// What the text is read as between two others.
fn write_between(out: &mut Page, front: &[u8], text: &[u8], behind: &[u8]) {
    let mut whole = Page::new(out.alloc());
    whole.put(front);
    whole.put(text);
    whole.put(behind);
    match whole.whole() {
        Ok(text) => write_read(out, text),
        Err(fault) => out.put(fault.text()),
    }
}

/// How many of the text's proper prefixes are no message.
fn write_prefixes(out: &mut Page, text: &[u8]) {
    let mut none = 0u64;
    for end in 0..text.len() {
        let bump = Bump::new(out.alloc());
        if let Err(ReadFault::Syntax) = read_message(&bump, &text[..end]) {
            none = none.saturating_add(1);
        }
    }
    out.number(none);
    out.put(b" of ");
    out.number(text.len() as u64);
    out.put(b" have a syntax error");
}

/// Answers a case of these calls. False: it is none.
pub fn answers(call: &str, text: &[u8], out: &mut Page) -> bool {
    match call {
        "message" => write_read(out, text),
        "body" => write_between(out, b"MEGACO/1 mg ", text, b""),
        "action" => write_between(out, b"MEGACO/1 mg Transaction=1{", text, b"}"),
        "descriptors" => write_between(
            out,
            b"MEGACO/1 mg Transaction=1{Context=-{Modify=T/1{",
            text,
            b"}}}",
        ),
        "prefixes" => write_prefixes(out, text),
        _ => return false,
    }
    true
}
