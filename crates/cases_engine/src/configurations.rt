//! Configurations: texts, and the configuration or the line that each is answered with.

use crate::repeats::repeated;
use cases_text::{CaseFault, Page, decoded};
use gw_base::Config;
use gw_front::{ConfigTextFault, read_config};

/// The most bytes of a configuration.
const LONGEST: usize = 16_777_216;

/// The configuration in one line.
fn write_config(out: &mut Page, config: &Config) {
    out.display(&config.mid);
    out.put(b" ");
    out.display(&config.media);
    for number in [config.contexts, config.slots, config.members, config.keep] {
        out.put(b" ");
        out.number(u64::from(number));
    }
    for term in config.terms.as_slice() {
        out.put(b" ");
        out.put(term.as_bytes());
    }
}

/// What a text is answered with.
fn write_read(out: &mut Page, text: &[u8]) -> Result<(), CaseFault> {
    if text.len() > LONGEST {
        return Err(CaseFault::Form);
    }
    match read_config(out.alloc(), text) {
        Ok(config) => write_config(out, &config),
        Err(ConfigTextFault::Line(number)) => {
            out.put(b"line ");
            out.number(u64::from(number));
        }
        Err(ConfigTextFault::NoMemory) => return Err(CaseFault::NoMemory),
    }
    Ok(())
}

/// The answer to a case of configurations.
pub fn answer(call: &str, given: &[u8], out: &mut Page) -> Result<(), CaseFault> {
    match call {
        "text" => {
            let text = decoded(out.alloc(), given)?;
            write_read(out, text.as_slice())
        }
        "times" => {
            let text = repeated(out.alloc(), given)?;
            write_read(out, text.whole()?)
        }
        _ => Err(CaseFault::Call),
    }
}
