//! Reading a configuration.

ghost use Rattle.std.specs.Prelude.{◌≤◌, length};
ghost use Rattle.gw_config.specs.ConfigTexts.{IsConfigReading};

use crate::fault::ConfigTextFault;
use crate::lines::next_line;
use crate::settings::NOTHING;
use gw_base::{Config, Items};
use std::alloc::Global;

/// The configuration that a text is. Its lines are ended by LF; a CR before the LF is dropped, and the last LF may be
/// missing. Empty lines and lines that begin with `#` say nothing. Each of `mid`, `media`, `contexts`, `slots`,
/// `members` and `keep` stands once, `term` any number of times: each with one space and its value behind it. The
/// caller knows that the text has at most 16,777,216 bytes. The work is linear in the text.
///
/// # Errors
///
/// `Line` at the first line that is of no form or repeats a keyword, and behind the last line where a keyword is
/// missing; `NoMemory` where an allocation was refused.
pub fn read_config(alloc: Global, text: &[u8]) -> Result<Config, ConfigTextFault>
    requires { length text.now ≤ 16777216 }
    ensures { IsConfigReading text.now result }
{
    let mut settings = NOTHING;
    let mut terms = Items::new(alloc);
    let mut number = 0;
    let mut rest = text;
    while let Some((line, behind)) = next_line(rest) {
        number += 1;
        settings.take(&mut terms, line, number)?;
        rest = behind;
    }
    match settings.config(terms) {
        Some(config) => Ok(config),
        None => Err(ConfigTextFault::Line(number + 1)),
    }
}
