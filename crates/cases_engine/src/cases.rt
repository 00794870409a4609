//! The answer to a case, by what it is about.

use crate::gateways::{self, Gateways};
use crate::networks::{self, Networks};
use crate::programs::{self, Programs};
use crate::{configurations, replays};
use cases_text::{CaseFault, Page, as_text};
use std::alloc::Global;
use std::net::Net;
use std::rt::{Clock, Files};
use std::sync::Wait;
use std::thread::Threads;

/// What cases are about.
#[derive(Clone, Copy)]
enum Subject {
    Gateways,
    Configurations,
    Replays,
    Networks,
    Programs,
}

/// What cases of each subject stand on. A line `subject ..` names the one that the cases below it are about.
#[derive(Drop)]
pub struct Cases {
    subject: Subject,
    gateways: Gateways,
    networks: Networks,
    programs: Programs,
}

fn subject_of(word: &[u8]) -> Result<Subject, CaseFault> {
    match as_text(word) {
        "gateways" => Ok(Subject::Gateways),
        "configurations" => Ok(Subject::Configurations),
        "replays" => Ok(Subject::Replays),
        "networks" => Ok(Subject::Networks),
        "programs" => Ok(Subject::Programs),
        _ => Err(CaseFault::Form),
    }
}

impl Cases {
    /// No case yet.
    pub fn new(alloc: Global) -> Cases {
        Cases {
            subject: Subject::Gateways,
            gateways: Gateways::new(alloc),
            networks: Networks::new(alloc),
            programs: Programs::new(alloc),
        }
    }
}

/// Writes the answer to a case, by the call's name and what stands behind it.
///
/// # Errors
///
/// What is wrong with the case.
pub fn answer<R: Files + Net + Wait + Threads + Clock + AllocGlobal + Sync>(
    rt: &R,
    cases: &mut Cases,
    call: &str,
    given: &[u8],
    out: &mut Page,
) -> Result<(), CaseFault> {
    if call == "subject" {
        cases.subject = subject_of(given)?;
        return Ok(());
    }
    match cases.subject {
        Subject::Gateways => gateways::answer(rt, &mut cases.gateways, call, given, out),
        Subject::Configurations => configurations::answer(call, given, out),
        Subject::Replays => replays::answer(rt, call, given, out),
        Subject::Networks => networks::answer(rt, &mut cases.networks, call, given, out),
        Subject::Programs => programs::answer(rt, &mut cases.programs, call, given, out),
    }
}
