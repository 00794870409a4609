//! Single commands: what each is answered, and what it changes in the tables.

use crate::bench::Bench;
use crate::footprints::{write_footprint, write_meeting};
use crate::places::{Place, place_of};
use crate::tables::{write_changes, write_outcome, write_tables};
use cases_text::{CaseFault, CaseRunner, Page, as_text, config_of, decoded, split_word};
use gw_base::Config;
use std::alloc::Global;

/// A command that was executed and is kept: where it stands, and its text.
#[derive(Drop)]
struct Kept {
    place: Place,
    text: Vec<u8>,
}

/// Tables as a case has made them: a configuration, and the commands that were executed since, in order. The tables
/// themselves are made anew for each line.
#[derive(Drop)]
struct Made {
    config: Config,
    kept: Vec<Kept>,
}

/// Answers cases with tables, which stand until the next are made.
#[derive(Drop)]
pub struct Commands {
    made: Option<Made>,
}

/// What becomes of a command that is executed.
#[derive(Clone, Copy)]
enum Use {
    /// It prepares a case: it must succeed, and is not written.
    Given,
    /// It is written, and the tables stay as they were.
    Tried,
    /// It is written, and kept.
    Kept,
}

impl Made {
    /// The tables: as they were configured, with the kept commands executed.
    fn bench(&self, alloc: Global) -> Result<Bench, CaseFault> {
        let mut bench = Bench::new(alloc, &self.config)?;
        for kept in &self.kept {
            let (_, after) = bench.executed(alloc, kept.place, kept.text.as_slice())?;
            bench = after;
        }
        Ok(bench)
    }
}

/// Executes a command and writes it. Whether it failed.
fn carried(bench: Bench, place: Place, text: &[u8], out: &mut Page) -> Result<bool, CaseFault> {
    let mut before = Page::new(out.alloc());
    write_tables(&mut before, bench.tables())?;
    let (outcome, after) = bench.executed(out.alloc(), place, text)?;
    let failed = outcome.failed;
    write_outcome(out, outcome)?;
    write_changes(out, before.whole()?, after.tables())?;
    Ok(failed)
}

impl Commands {
    /// No tables yet.
    pub fn new() -> Commands {
        Commands { made: None }
    }

    /// Other tables take the place of these. A function of its own, since these are dropped here.
    fn put(&mut self, made: Made) {
        self.made = Some(made);
    }

    /// New tables.
    fn make(&mut self, alloc: Global, words: &[u8]) -> Result<(), CaseFault> {
        let config = config_of(alloc, words)?;
        let _tables = Bench::new(alloc, &config)?;
        self.put(Made {
            config,
            kept: Vec::new(alloc),
        });
        Ok(())
    }

    /// The tables.
    fn bench(&self, alloc: Global) -> Result<Bench, CaseFault> {
        match &self.made {
            Some(made) => made.bench(alloc),
            None => Err(CaseFault::Form),
        }
    }

    /// Keeps a command that was executed.
    fn keep(&mut self, place: Place, text: Vec<u8>) -> Result<(), CaseFault> {
        let Some(made) = &mut self.made else {
            return Err(CaseFault::Form);
        };
        Ok(made.kept.push(Kept { place, text })?)
    }

    /// Executes a command.
    fn ask(
        &mut self,
        used: Use,
        call: &str,
        given: &[u8],
        out: &mut Page,
    ) -> Result<(), CaseFault> {
        let bench = self.bench(out.alloc())?;
        let (place, text) = place_of(call, given)?;
        let text = decoded(out.alloc(), text)?;
        let failed = carried(bench, place, text.as_slice(), out)?;
        match used {
            Use::Given if failed => return Err(CaseFault::Form),
            Use::Given => out.clear(),
            Use::Tried => return Ok(()),
            Use::Kept => {}
        }
        self.keep(place, text)
    }
}

impl CaseRunner for Commands {
    fn answer(&mut self, call: &str, given: &[u8], out: &mut Page) -> Result<(), CaseFault> {
        let (next, behind) = split_word(given);
        match call {
            "new" => self.make(out.alloc(), given),
            "tables" => write_tables(out, self.bench(out.alloc())?.tables()),
            "footprint" => write_footprint(out, self.bench(out.alloc())?.tables(), given),
            "meeting" => write_meeting(out, self.bench(out.alloc())?.tables(), given),
            "given" => self.ask(Use::Given, as_text(next), behind, out),
            "try" => self.ask(Use::Tried, as_text(next), behind, out),
            _ => self.ask(Use::Kept, call, given, out),
        }
    }
}
