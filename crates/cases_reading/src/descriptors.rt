//! A descriptor as one line: what is kept as sent stands in it as sent.

use bumpalo::Bump;
use cases_text::Page;
use gw_base::Span;
use gw_desc::{
    Descriptor, KeptKind, MediaPart, Property, ServiceParm, ServiceValue, Sign, StreamPart, Tail,
};
use gw_text::parts::Parse;
use gw_text::{Cursor, ParseFault};

fn write_property(out: &mut Page, property: &Property<Span<'_>>) {
    out.put(b"(");
    out.encoded(property.name.as_bytes());
    out.put(match property.sign {
        Sign::Equal => b"=",
        Sign::NotEqual => b"#",
        Sign::Less => b"<",
        Sign::Greater => b">",
    });
    out.encoded(property.value.as_bytes());
    out.put(b")");
}

fn write_properties(out: &mut Page, name: &[u8], properties: &[Property<Span<'_>>]) {
    out.put(name);
    for property in properties {
        write_property(out, property);
    }
}

fn write_octets(out: &mut Page, name: &[u8], octets: &[u8]) {
    out.put(name);
    out.put(b"<");
    out.encoded(octets);
    out.put(b">");
}

fn write_stream_part(out: &mut Page, part: &StreamPart<'_>) {
    match part {
        StreamPart::Local(octets) => write_octets(out, b"Local", octets.as_bytes()),
        StreamPart::Remote(octets) => write_octets(out, b"Remote", octets.as_bytes()),
        StreamPart::LocalControl(list) => write_properties(out, b"Control", list.as_slice()),
    }
}

fn write_stream(out: &mut Page, id: u16, parts: &[StreamPart<'_>]) {
    out.put(b"Stream ");
    out.number(u64::from(id));
    for part in parts {
        out.put(b" .");
        write_stream_part(out, part);
    }
}

fn write_media(out: &mut Page, parts: &[MediaPart<'_>]) {
    out.put(b"Media");
    for part in parts {
        out.put(b" ");
        match part {
            MediaPart::Outside(part) => write_stream_part(out, part),
            MediaPart::Stream(id, parts) => write_stream(out, *id, parts.as_slice()),
            MediaPart::TerminationState(list) => write_properties(out, b"State", list.as_slice()),
        }
    }
}

fn write_tail(out: &mut Page, kind: KeptKind, tail: &Tail<Span<'_>>) {
    out.put(match kind {
        KeptKind::Events => b"Events",
        KeptKind::Signals => b"Signals",
        KeptKind::DigitMap => b"DigitMap",
        KeptKind::EventBuffer => b"EventBuffer",
    });
    if tail.equals {
        out.put(b" =");
    }
    if let Some(word) = &tail.word {
        out.put(b" word ");
        out.encoded(word.as_bytes());
    }
    if let Some(group) = &tail.group {
        out.put(b" group ");
        out.encoded(group.as_bytes());
    }
}

fn write_services(out: &mut Page, parms: &[ServiceParm<'_>]) {
    out.put(b"Services");
    for parm in parms {
        out.put(b" ");
        out.encoded(parm.name.as_bytes());
        match &parm.value {
            Some(ServiceValue::Quoted(span)) => {
                out.put(b" quoted ");
                out.encoded(span.as_bytes());
            }
            Some(ServiceValue::Run(span)) => {
                out.put(b" run ");
                out.encoded(span.as_bytes());
            }
            None => {}
        }
    }
}

fn write_audit(out: &mut Page, words: &[Span<'_>]) {
    out.put(b"Audit");
    for word in words {
        out.put(b" ");
        out.encoded(word.as_bytes());
    }
}

/// Writes the tree in one line.
pub fn write_descriptor(out: &mut Page, descriptor: &Descriptor<'_>) {
    match descriptor {
        Descriptor::Media(parts) => write_media(out, parts.as_slice()),
        Descriptor::Keep(kind, sent) => write_tail(out, *kind, sent),
        Descriptor::Audit(words) => write_audit(out, words.as_slice()),
        Descriptor::Services(parms) => write_services(out, parms.as_slice()),
        Descriptor::Other(word) => {
            out.put(b"Other ");
            out.encoded(word.as_bytes());
        }
    }
}

/// The descriptor that the text begins with, and whether nothing is left behind it.
fn first<'a>(bump: &'a Bump, text: &'a [u8]) -> Result<(Descriptor<'a>, bool), ParseFault> {
    let mut cursor = Cursor::new(text);
    let descriptor = Descriptor::read(bump, &mut cursor)?;
    Ok((descriptor, cursor.is_empty()))
}

/// What the text is read as: its tree in one line, with ` ..` where something is left; or the fault.
fn write_read(out: &mut Page, text: &[u8]) {
    let bump = Bump::new(out.alloc());
    match first(&bump, text) {
        Ok((descriptor, is_whole)) => {
            write_descriptor(out, &descriptor);
            if !is_whole {
                out.put(b" ..");
            }
        }
        Err(fault) => out.display(&fault),
    }
}

/// How many of the text's proper prefixes are no descriptor.
fn write_prefixes(out: &mut Page, text: &[u8]) {
    let mut none = 0u64;
    for end in 0..text.len() {
        let bump = Bump::new(out.alloc());
        if first(&bump, &text[..end]).is_err() {
            none = none.saturating_add(1);
        }
    }
    out.number(none);
    out.put(b" of ");
    out.number(text.len() as u64);
    out.put(b" are no descriptor");
}

/// Answers a case of these calls. False: it is none.
pub fn answers(call: &str, text: &[u8], out: &mut Page) -> bool {
    match call {
        "descriptor" => write_read(out, text),
        "descriptor-prefixes" => write_prefixes(out, text),
        _ => return false,
    }
    true
}
