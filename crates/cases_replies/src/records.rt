//! A termination, what descriptors do to it, and what it answers.

use crate::asking::{OnDescriptors, ask};
use crate::checking::write_code;
use cases_text::{CaseFault, Page, as_text, number_of};
use gw_base::{CtxNum, CtxRef, Items, MediaAddr, Mid, Rules, Service, TermRef, TxId, Verb};
use gw_desc::{AuditItems, Descriptor, check};
use gw_reply::{ActionReply, CommandReply, ReplyPart, TxReply, write_reply};
use gw_term::{ApplyFault, Termination};
use std::alloc::{AllocError, Global};

/// A termination, and what is needed to apply descriptors and to write replies.
#[derive(Drop)]
pub struct Record {
    mid: Mid,
    rules: Rules,
    termination: Termination,
    is_audit: bool,
}

/// A list of one.
fn one<T: Drop>(alloc: Global, item: T) -> Result<Items<T>, AllocError> {
    let mut items = Items::new(alloc);
    items.push(item)?;
    Ok(items)
}

/// The tree of a reply to a command on T/1, which has these parts.
fn tree_of(alloc: Global, verb: Verb, parts: Items<ReplyPart>) -> Result<TxReply, CaseFault> {
    let Ok(term) = TermRef::read(b"T/1") else {
        return Err(CaseFault::Form);
    };
    let command = CommandReply {
        verb,
        term,
        result: Ok(parts),
    };
    let action = ActionReply {
        ctx: CtxRef::Null,
        parts: Items::new(alloc),
        result: Ok(one(alloc, command)?),
    };
    Ok(TxReply {
        id: TxId(1),
        result: Ok(one(alloc, action)?),
    })
}

/// Parts as the reply to a command on T/1 has them.
fn write_parts(
    mid: &Mid,
    verb: Verb,
    parts: Items<ReplyPart>,
    out: &mut Page,
) -> Result<(), CaseFault> {
    let reply = tree_of(out.alloc(), verb, parts)?;
    match write_reply(out.alloc(), &reply, mid) {
        Ok(text) => out.message(text.as_slice()),
        Err(fault) => out.display(&fault),
    }
    Ok(())
}

impl OnDescriptors for Record {
    fn ask(&mut self, descriptors: &[Descriptor<'_>], out: &mut Page) -> Result<(), CaseFault> {
        if let Err(code) = check(Verb::Add, descriptors) {
            write_code(code, out);
            return Ok(());
        }
        if self.is_audit {
            return self.audit(descriptors, out);
        }
        match self
            .termination
            .apply(out.alloc(), &self.rules, descriptors)
        {
            Ok(filled) => {
                let mut parts = Items::new(out.alloc());
                if !filled.is_empty() {
                    parts.push(ReplyPart::Filled(filled))?;
                }
                write_parts(&self.mid, Verb::Modify, parts, out)
            }
            Err(ApplyFault::Code(code)) => {
                write_code(code, out);
                Ok(())
            }
            Err(ApplyFault::NoMemory) => Err(CaseFault::NoMemory),
        }
    }
}

impl Record {
    /// A provisioned termination of the gateway `[10.0.0.1]:2944` with media 10.0.0.1.
    pub fn new() -> Option<Record> {
        let mid = Mid::read(b"[10.0.0.1]:2944").ok()?;
        let media = MediaAddr::read(b"10.0.0.1").ok()?;
        Some(Record {
            mid,
            rules: Rules { media, members: 3 },
            termination: Termination::provisioned(),
            is_audit: false,
        })
    }

    /// The gateway's mId.
    pub fn mid(&self) -> &Mid {
        &self.mid
    }

    /// What it answers to these items of an Audit.
    fn answered(&self, words: &AuditItems<'_>, out: &mut Page) -> Result<(), CaseFault> {
        match self.termination.audit(out.alloc(), words) {
            Ok(parts) => write_parts(&self.mid, Verb::AuditValue, parts, out),
            Err(_) => Err(CaseFault::NoMemory),
        }
    }

    /// What it answers to the first Audit among the descriptors.
    fn audit(&self, descriptors: &[Descriptor<'_>], out: &mut Page) -> Result<(), CaseFault> {
        for descriptor in descriptors {
            if let Descriptor::Audit(words) = descriptor {
                return self.answered(words, out);
            }
        }
        Err(CaseFault::Form)
    }

    /// Another termination takes the place of this one. A function of its own, since this one is dropped here.
    fn put(&mut self, termination: Termination) {
        self.termination = termination;
    }

    /// A termination of a slot takes its place.
    fn put_ephemeral(&mut self, slot: &[u8]) -> Result<(), CaseFault> {
        match number_of(slot) {
            Some(slot) if slot < 4_096 => self.put(Termination::ephemeral(slot as u16)),
            _ => return Err(CaseFault::Form),
        }
        Ok(())
    }

    /// A copy takes its place.
    fn put_copy(&mut self) -> Result<(), CaseFault> {
        match self.termination.copy() {
            Ok(copy) => self.put(copy),
            Err(_) => return Err(CaseFault::NoMemory),
        }
        Ok(())
    }

    /// It gets the service state of a word.
    fn set_service(&mut self, word: &[u8]) {
        self.termination.set_service(match as_text(word) {
            "Test" => Service::Test,
            "OutOfService" => Service::OutOfService,
            _ => Service::InService,
        });
    }

    /// The answer to a step.
    pub fn step(&mut self, call: &str, given: &[u8], out: &mut Page) -> Result<(), CaseFault> {
        match call {
            "provisioned" => self.put(Termination::provisioned()),
            "ephemeral" => return self.put_ephemeral(given),
            "reset" => self.termination.reset(),
            "place" => self.termination.set_place(number_of(given).map(CtxNum)),
            "service" => self.set_service(given),
            "copy" => return self.put_copy(),
            "state" => {
                out.put(b"in ");
                out.state(self.termination.place(), self.termination.service());
            }
            "apply" | "audit" => {
                self.is_audit = call == "audit";
                return ask(given, self, out);
            }
            _ => return Err(CaseFault::Call),
        }
        Ok(())
    }
}
