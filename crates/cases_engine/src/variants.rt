//! The same gateway several times, each with another number of workers: what the first is answered, each must be
//! answered.

use crate::answers::{write_answer, write_answers};
use crate::gates::Waves;
use crate::workers::{EACH, Workers};
use cases_meeting::Meeting;
use cases_text::{CaseFault, Page, config_of};
use gw_base::{Items, NoMemory};
use gw_engine::{ConfigFault, Datagram, Gate, Gateway, OpenGate};
use std::alloc::Global;
use std::rt::Clock;
use std::thread::Threads;

/// A gateway, and how many workers execute its bursts.
#[derive(Drop)]
pub struct Variant {
    workers: Workers,
    gateway: Gateway,
}

/// The gateways of a case.
#[derive(Drop)]
pub struct Variants {
    /// The one number of workers that gateways are made for, or each.
    only: Option<Workers>,
    variants: Vec<Variant>,
}

/// What is written of a burst.
#[derive(Clone, Copy)]
pub enum BurstReport {
    /// Each answer.
    Each,
    /// How many answers there are, and the last one.
    Last,
    /// In how many waves several workers execute it, and each answer.
    Waves,
    /// Whether its jobs meet at the gate, and each answer: the job at a place waits there for all others, or each job
    /// where none is named. Each datagram is one job.
    Meeting(Option<usize>),
}

/// What is written of the tables.
#[derive(Clone, Copy)]
pub enum Audit {
    /// Their text.
    Text,
    /// How many bytes and lines that has.
    Size,
}

/// What is written by one of them, and must be by each.
#[derive(Drop)]
struct Common {
    first: Option<Page>,
    /// The number of workers of the first that wrote something else.
    other: Option<Workers>,
}

impl Common {
    /// Nothing is written yet.
    fn new() -> Common {
        Common {
            first: None,
            other: None,
        }
    }

    /// One writes this.
    fn add(&mut self, workers: Workers, page: Page) -> Result<(), CaseFault> {
        page.whole()?;
        match &self.first {
            None => self.first = Some(page),
            Some(first) => {
                if self.other.is_none() && first.as_bytes() != page.as_bytes() {
                    self.other = Some(workers);
                }
            }
        }
        Ok(())
    }

    /// What all write, if one writes something.
    fn write_if_any(&self, out: &mut Page) -> Result<(), CaseFault> {
        match &self.first {
            Some(_) => self.write(out),
            None => Ok(()),
        }
    }

    /// What all write.
    fn write(&self, out: &mut Page) -> Result<(), CaseFault> {
        let Some(first) = &self.first else {
            return Err(CaseFault::Form);
        };
        out.put(first.whole()?);
        if let Some(workers) = self.other {
            out.put(b"\ndiffers with ");
            out.number(u64::from(workers.number));
            out.put(b" workers\n");
        }
        Ok(())
    }
}

/// How many answers there are, and the last one.
fn write_last(answers: Items<Datagram>, out: &mut Page) {
    out.number(answers.len() as u64);
    out.put(b" answers, the last:\n");
    write_answer(answers.into_vec().pop(), out);
}

impl Variants {
    /// No gateway yet, and each number of workers.
    pub fn new(alloc: Global) -> Variants {
        Variants {
            only: None,
            variants: Vec::new(alloc),
        }
    }

    /// From the next gateway on this number of workers, or each.
    ///
    /// # Errors
    ///
    /// `Form` where the word is neither `each` nor a number of 1 to 64.
    pub fn choose(&mut self, word: &[u8]) -> Result<(), CaseFault> {
        self.only = if word == b"each".as_slice() {
            None
        } else {
            Some(Workers::read(word)?)
        };
        Ok(())
    }

    /// Adds a new gateway, or writes the fault of its configuration.
    fn add(
        variants: &mut Vec<Variant>,
        workers: Workers,
        words: &[u8],
        alloc: Global,
    ) -> Result<Option<ConfigFault>, CaseFault> {
        let config = config_of(alloc, words)?;
        match Gateway::new(alloc, config) {
            Ok(gateway) => {
                variants.push(Variant { workers, gateway })?;
                Ok(None)
            }
            Err(fault) => Ok(Some(fault)),
        }
    }

    /// Other gateways take the places of these. A function of its own, since these are dropped here.
    fn put(&mut self, variants: Vec<Variant>) {
        self.variants = variants;
    }

    /// New gateways, one for each of these numbers of workers.
    fn make_with(
        &mut self,
        numbers: &[Workers],
        words: &[u8],
        out: &mut Page,
    ) -> Result<(), CaseFault> {
        let mut variants = Vec::new(out.alloc());
        for workers in numbers {
            if let Some(fault) = Variants::add(&mut variants, *workers, words, out.alloc())? {
                out.display(&fault);
                return Ok(());
            }
        }
        self.put(variants);
        Ok(())
    }

    /// New gateways; or the fault of their configuration is written, and those that were there stay.
    pub fn make(&mut self, words: &[u8], out: &mut Page) -> Result<(), CaseFault> {
        match self.only {
            Some(workers) => self.make_with(&[workers], words, out),
            None => self.make_with(&EACH, words, out),
        }
    }
}

/// How many lines a text has.
fn lines_of(text: &[u8]) -> u64 {
    let mut lines = 0u64;
    for byte in text {
        if *byte == b'\n' {
            lines = lines.saturating_add(1);
        }
    }
    lines
}

/// The tables of a gateway.
fn write_tables(gateway: &Gateway, audit: Audit, out: &mut Page) {
    match (gateway.audit_tables(out.alloc()), audit) {
        (Ok(text), Audit::Text) => out.put(text.as_slice()),
        (Ok(text), Audit::Size) => {
            out.number(text.len() as u64);
            out.put(b" bytes in ");
            out.number(lines_of(text.as_slice()));
            out.put(b" lines");
        }
        (Err(fault), _) => out.display(&fault),
    }
}

/// The tables of all gateways.
pub fn write_audit(variants: &Variants, audit: Audit, out: &mut Page) -> Result<(), CaseFault> {
    let mut common = Common::new();
    for variant in variants.variants.iter() {
        let mut page = Page::new(out.alloc());
        write_tables(&variant.gateway, audit, &mut page);
        common.add(variant.workers, page)?;
    }
    common.write(out)
}

/// The answers of one gateway to a burst, whose jobs pass the gate.
fn answers_of<R: Threads + Sync, G: Gate>(
    rt: &R,
    alloc: Global,
    variant: &mut Variant,
    burst: &[Datagram],
    gate: &G,
) -> Result<Items<Datagram>, NoMemory> {
    variant
        .gateway
        .run(rt, alloc, variant.workers.number, burst, gate)
}

/// Whether the jobs of a burst meet at the gate, and its answers.
fn write_meeting<R: Threads + Clock + Sync>(
    rt: &R,
    variant: &mut Variant,
    burst: &[Datagram],
    place: Option<usize>,
    out: &mut Page,
) -> Result<(), NoMemory> {
    let jobs = u32::try_from(burst.len()).unwrap_or(u32::MAX);
    let meeting = Meeting::new(rt, out.alloc(), jobs, place)?;
    let answers = answers_of(rt, out.alloc(), variant, burst, &meeting)?;
    out.put(if meeting.was_met() {
        b"met\n"
    } else {
        b"given up\n"
    });
    write_answers(answers, out);
    Ok(())
}

/// What is written of a burst that one gateway executes: in how many waves, where that is requested, on a page of its
/// own.
fn write_report<R: Threads + Clock + Sync>(
    rt: &R,
    variant: &mut Variant,
    burst: &[Datagram],
    requested: BurstReport,
    counts: &mut Page,
    out: &mut Page,
) -> Result<(), NoMemory> {
    match requested {
        BurstReport::Waves => {
            let waves = Waves::new(out.alloc())?;
            let answers = answers_of(rt, out.alloc(), variant, burst, &waves)?;
            waves.write(counts);
            write_answers(answers, out);
        }
        BurstReport::Each => {
            let answers = answers_of(rt, out.alloc(), variant, burst, &OpenGate)?;
            write_answers(answers, out);
        }
        BurstReport::Last => {
            let answers = answers_of(rt, out.alloc(), variant, burst, &OpenGate)?;
            write_last(answers, out);
        }
        BurstReport::Meeting(place) => write_meeting(rt, variant, burst, place, out)?,
    }
    Ok(())
}

/// Sends a burst to each gateway, and writes what is written of it. Where one refuses it for memory, that is written in
/// its place, and false is answered.
pub fn run<R: Threads + Clock + Sync>(
    rt: &R,
    variants: &mut Variants,
    burst: &[Datagram],
    requested: BurstReport,
    out: &mut Page,
) -> Result<bool, CaseFault> {
    let mut waves = Common::new();
    let mut common = Common::new();
    let mut is_done = true;
    for variant in variants.variants.iter_mut() {
        let mut counts = Page::new(out.alloc());
        let mut page = Page::new(out.alloc());
        if let Err(fault) = write_report(rt, variant, burst, requested, &mut counts, &mut page) {
            page.display(&fault);
            is_done = false;
        }
        // One worker executes each request by itself, so that there are no waves.
        if variant.workers.number > 1 {
            waves.add(variant.workers, counts)?;
        }
        common.add(variant.workers, page)?;
    }
    waves.write_if_any(out)?;
    common.write(out)?;
    Ok(is_done)
}
