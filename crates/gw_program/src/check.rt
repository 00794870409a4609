//! The command `check`: what a configuration has.

ghost use Rattle.std.specs.Prelude.{◌≡◌, ◌++◌, OnOk, IfOk, decimal};
ghost use Rattle.gw_program.specs.Jobs.{IsCheck, check_text};

use crate::fault::Fault;
use crate::file::config_of;
use gw_engine::Gateway;
use gw_front::Config;
use itoa::Buffer;
use std::alloc::{AllocError, Global};
use std::io::Write;
use std::rt::Files;

/// Puts a word and a number behind the line.
fn put(line: &mut Vec<u8>, word: &[u8], number: usize) -> Result<(), AllocError>
    ensures { OnOk result (line.new.items ≡ line.old.items ++ word.now ++ decimal number) }
{
    let mut buffer = Buffer::new();
    line.extend_from_slice(word)?;
    line.extend_from_slice(buffer.format(number).as_bytes())?;
    Ok(())
}

/// The line of a configuration.
fn line_of(alloc: Global, config: &Config) -> Result<Vec<u8>, AllocError>
    ensures { IfOk result (λ line. line.items ≡ check_text config.now) }
{
    let mut line = Vec::new(alloc);
    put(&mut line, b"ok terms=", config.terms.len())?;
    put(&mut line, b" contexts=", config.contexts as usize)?;
    put(&mut line, b" slots=", config.slots as usize)?;
    put(&mut line, b" members=", config.members as usize)?;
    put(&mut line, b" keep=", config.keep as usize)?;
    line.push(b'\n')?;
    Ok(line)
}

/// Makes the gateway that the file describes, and writes its numbers.
///
/// # Errors
///
/// Those of the file and of the gateway; `ReplayWrite` where the line cannot be written.
pub(crate) fn check<'a, R: Files, W: Write>(
    rt: &R,
    alloc: Global,
    path: &'a str,
    out: &mut W,
) -> Result<(), Fault<'a>>
    ensures { IsCheck R.File.Read.remaining path.now (W.contents out.old) (W.contents out.new) result }
{
    let config = config_of(rt, alloc, path)?;
    let line = line_of(alloc, &config)?;
    let _gateway = Gateway::new(alloc, config)?;
    match out.write_all(line.as_slice()) {
        Ok(()) => Ok(()),
        Err(_) => Err(Fault::ReplayWrite),
    }
}
