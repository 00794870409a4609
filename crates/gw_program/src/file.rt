//! Reading a configuration file into a gateway.

ghost use Rattle.std.specs.Prelude.{◌≡◌, ◌≤◌, length, take, IfOk, IfErr, IfSome};
ghost use Rattle.gw_program.specs.Jobs.{IsTextOf, IsConfigIn, IsGatewayIn, IsUnread};

use crate::fault::Fault;
use gw_engine::Gateway;
use gw_front::{Config, read_config};
use std::alloc::Global;
use std::fs::File;
use std::io::{self, ErrorKind, Read};
use std::rt::Files;

/// How many bytes a configuration may have.
const LONGEST_TEXT: usize = 16_777_216;

/// What a file holds, or one byte more than a configuration may have, which shows that there is more.
fn bytes_of<R: Files>(rt: &R, alloc: Global, path: &str) -> io::Result<Vec<u8>>
    ensures { IfOk result (λ text. (file : R.File) × IfSome (R.File.Read.remaining file)
        (λ bytes. text.items ≡ take 16777217 bytes)) }
{
    let mut text = Vec::new(alloc);
    let limit = LONGEST_TEXT as u64 + 1;
    File::open(rt, path)?.take(limit).read_to_end(&mut text)?;
    Ok(text)
}

/// The text of a configuration file.
fn text_of<'a, R: Files>(rt: &R, alloc: Global, path: &'a str) -> Result<Vec<u8>, Fault<'a>>
    ensures short { IfOk result (λ text. length text.items ≤ 16777216) }
    ensures held { IfOk result (λ text. IsTextOf R.File.Read.remaining text.items) }
    ensures fault { IfErr result (IsUnread path.now) }
{
    match bytes_of(rt, alloc, path) {
        Ok(text) if text.len() <= LONGEST_TEXT => Ok(text),
        Err(e) if e.kind() == ErrorKind::OutOfMemory => Err(Fault::NoMemory),
        _ => Err(Fault::CannotRead(path)),
    }
}

/// The configuration that a file holds.
///
/// # Errors
///
/// `CannotRead` where the file cannot be read or has more than 16,777,216 bytes; `ConfigLine`; `NoMemory`.
pub(crate) fn config_of<'a, R: Files>(
    rt: &R,
    alloc: Global,
    path: &'a str,
) -> Result<Config, Fault<'a>>
    ensures { IsConfigIn R.File.Read.remaining path.now result }
{
    let text = text_of(rt, alloc, path)?;
    Ok(read_config(alloc, text.as_slice())?)
}

/// The gateway that a file describes.
///
/// # Errors
///
/// Those of the configuration, and of a gateway that it cannot make.
pub(crate) fn gateway_of<'a, R: Files>(
    rt: &R,
    alloc: Global,
    path: &'a str,
) -> Result<Gateway, Fault<'a>>
    ensures { IsGatewayIn R.File.Read.remaining path.now result }
{
    let config = config_of(rt, alloc, path)?;
    Ok(Gateway::new(alloc, config)?)
}
