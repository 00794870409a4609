//! The lines of a case: the tables, a burst, and the steps on its board.

use crate::bench::Bench;
use cases_text::{CaseFault, CaseRunner, Page, config_of, decoded, number_of, split_word};
use gw_base::Config;
use std::alloc::Global;

/// What stands before the transactions in a message.
const FRONT: &[u8] = b"MEGACO/1 [10.0.0.9]:2944";

/// The most times that a transaction is put into a burst by one line.
const MOST_TIMES: u32 = 4_096;

/// Tables as a case has made them: a configuration, and the transactions that were executed since, in order. The tables
/// themselves are made anew for each line.
#[derive(Drop)]
struct Made {
    config: Config,
    given: Vec<Page>,
}

/// Answers cases with tables and a burst, which stand until the next are made.
#[derive(Drop)]
pub struct Cases {
    made: Option<Made>,
    burst: Page,
}

/// Puts the transactions behind the text so many times.
fn put_times(text: &mut Page, transactions: &[u8], times: u32) -> Result<(), CaseFault> {
    let transactions = decoded(text.alloc(), transactions)?;
    for _time in 0..times {
        text.put(b" ");
        text.put(transactions.as_slice());
    }
    Ok(())
}

/// The message of these transactions.
fn message_of(alloc: Global, transactions: &[u8]) -> Result<Page, CaseFault> {
    let mut text = Page::new(alloc);
    text.put(FRONT);
    put_times(&mut text, transactions, 1)?;
    Ok(text)
}

impl Made {
    /// The tables: as they were configured, with the transactions executed.
    fn bench(&self, alloc: Global) -> Result<Bench, CaseFault> {
        let mut bench = Bench::new(alloc, &self.config)?;
        for given in &self.given {
            let text = given.whole()?;
            bench = bench.after(alloc, text)?;
        }
        Ok(bench)
    }
}

impl Cases {
    /// No tables yet, and an empty burst.
    pub fn new(alloc: Global) -> Cases {
        Cases {
            made: None,
            burst: Page::new(alloc),
        }
    }

    /// Other tables take the place of these. A function of its own, since these are dropped here.
    fn put(&mut self, made: Made) {
        self.made = Some(made);
    }

    /// New tables.
    fn make(&mut self, alloc: Global, words: &[u8]) -> Result<(), CaseFault> {
        let config = config_of(alloc, words)?;
        let _tables = Bench::new(alloc, &config)?;
        self.put(Made {
            config,
            given: Vec::new(alloc),
        });
        Ok(())
    }

    /// The tables.
    fn bench(&self, alloc: Global) -> Result<Bench, CaseFault> {
        match &self.made {
            Some(made) => made.bench(alloc),
            None => Err(CaseFault::Form),
        }
    }

    /// Keeps transactions that prepare a case, once they are executed.
    fn prepare(&mut self, alloc: Global, transactions: &[u8]) -> Result<(), CaseFault> {
        let text = message_of(alloc, transactions)?;
        let _tables = self.bench(alloc)?.after(alloc, text.whole()?)?;
        let Some(made) = &mut self.made else {
            return Err(CaseFault::Form);
        };
        Ok(made.given.push(text)?)
    }

    /// A burst of these transactions begins.
    fn begin(&mut self, transactions: &[u8]) -> Result<(), CaseFault> {
        self.burst.clear();
        self.burst.put(FRONT);
        put_times(&mut self.burst, transactions, 1)
    }

    /// A transaction comes so many times more.
    fn repeat(&mut self, requested: &[u8]) -> Result<(), CaseFault> {
        let (times, transactions) = split_word(requested);
        match number_of(times) {
            Some(times) if times <= MOST_TIMES => put_times(&mut self.burst, transactions, times),
            _ => Err(CaseFault::Form),
        }
    }

    fn write_footprint(&self, place: &[u8], out: &mut Page) -> Result<(), CaseFault> {
        let place = number_of(place).ok_or(CaseFault::Form)?;
        let bench = self.bench(out.alloc())?;
        bench.write_footprint(self.burst.whole()?, place as usize, out)
    }

    fn write_tree(&self, out: &mut Page) -> Result<(), CaseFault> {
        let bench = self.bench(out.alloc())?;
        bench.write_tree(self.burst.whole()?, out)
    }

    fn take(&self, steps: &[u8], out: &mut Page) -> Result<(), CaseFault> {
        let bench = self.bench(out.alloc())?;
        bench.play(self.burst.whole()?, steps, out)
    }
}

impl CaseRunner for Cases {
    fn answer(&mut self, call: &str, requested: &[u8], out: &mut Page) -> Result<(), CaseFault> {
        match call {
            "new" => self.make(out.alloc(), requested),
            "given" => self.prepare(out.alloc(), requested),
            "burst" => self.begin(requested),
            "and" => put_times(&mut self.burst, requested, 1),
            "times" => self.repeat(requested),
            "footprint" => self.write_footprint(requested, out),
            "tree" => self.write_tree(out),
            "steps" => self.take(requested, out),
            _ => Err(CaseFault::Call),
        }
    }
}
