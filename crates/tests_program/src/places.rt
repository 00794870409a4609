//! Files and addresses of a run's own.

use std::fs::File;
use std::io::{ErrorKind, Write};
use std::net::{IpAddr, Net, SocketAddr};
use std::rt::Files;
use std::test::Fail;

/// How many names are tried.
const NAMES: u32 = 100;

/// A new file, which was not there before, and its name. It lies in the folder that the tests run in, which each run
/// has for itself. Whoever reads it takes it away.
pub(crate) fn new_file<R: Files + AllocGlobal>(rt: &R) -> Result<(String, R::File), Fail> {
    for number in 0..NAMES {
        let name = format!(in rt.alloc(); "test-{number}.conf")?;
        match File::create_new(rt, name.as_str()) {
            Ok(file) => return Ok((name, file)),
            Err(e) if e.kind() == ErrorKind::AlreadyExists => {}
            Err(_) => return Err(Fail::new("a new file")),
        }
    }
    Err(Fail::new("a name that no file has"))
}

/// A new file with that text.
pub(crate) fn file_of<R: Files + AllocGlobal>(rt: &R, text: &str) -> Result<String, Fail> {
    let (name, mut file) = new_file(rt)?;
    file.write_all(text.as_bytes())?;
    Ok(name)
}

/// An address of the host that nobody has: the system picks its port, and it is free again.
pub(crate) fn free_address(rt: &impl Net, host: IpAddr) -> Result<SocketAddr, Fail> {
    Ok(rt.bind_udp(SocketAddr::from((host, 0)))?.local_addr()?)
}
