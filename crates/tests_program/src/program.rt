//! The program by its words: the texts of the command line's reader, and files of every length. What else it does on
//! words is cases (`cases_engine`, subject programs).

use crate::places::new_file;
use crate::runs::Run;
use std::fs::{self, OpenFile};
use std::net::Net;
use std::rt::Files;
use std::sync::Wait;
use std::test::Fail;
use std::thread::Threads;
use std::time::Clock;

/// A file that is not there, since its folder is none.
const MISSING: &str = "/dev/null/missing.conf";

/// The program fails so on a file of so many bytes: the line, and the file's name behind it where that is written.
fn fails_at<R: Files + Net + Wait + Threads + Clock + Sync + AllocGlobal>(
    rt: &R,
    length: u64,
    line: &str,
    is_named: bool,
) -> Result<(), Fail> {
    let (name, file) = new_file(rt)?;
    file.set_len(length)?;
    let behind = if is_named { name.as_str() } else { "" };
    let line = format!(in rt.alloc(); "{line}{behind}\n")?;
    Run::of(rt, &["check", name.as_str()]).fails(line.as_bytes())?;
    Ok(fs::remove_file(rt, name.as_str())?)
}

#[test]
fn words_and_their_statuses(rt: HostRuntime) -> Result<(), Fail> {
    let explained: [(&[&str], &[u8]); 5] = [
        (&["--help"], b"Usage: h248gw [COMMAND]"),
        (&["check", "--help"], b"Usage: h248gw check <FILE>"),
        (&["serve", "--help"], b"[default: 0.0.0.0:2944]"),
        (&["serve", "--help"], b"--controller <ADDR>"),
        (&["--version"], b"h248gw 0.1.0\n"),
    ];
    for (words, part) in explained {
        Run::of(&rt, words).explains(part)?;
    }
    let misused: [(&[&str], &[u8]); 9] = [
        (&["check"], b"<FILE>"),
        (&["nonsense"], b"nonsense"),
        (&["serve", MISSING, "--bursts", "-1"], b"-1"),
        (&["replay", MISSING, "--workers", "0"], b"1..=64"),
        (&["replay", MISSING, "--workers", "65"], b"1..=64"),
        (&["serve", MISSING, "--workers", "x"], b"'x'"),
        (
            &["serve", MISSING, "--give-up", "0"],
            b"0 is not in 1..18446744073709551615",
        ),
        (&["serve", MISSING, "--report", "-1"], b"-1"),
        (
            &["serve", MISSING, "--controller", "mgc.example"],
            b"error: invalid value 'mgc.example' for '--controller <ADDR>': no IP address, and none with a port\n\nFor more information, try '--help'.\n",
        ),
    ];
    for (words, part) in misused {
        Run::of(&rt, words).is_misused(part)?;
    }
    Ok(())
}

#[test]
fn a_file_that_is_too_long_or_no_file(rt: HostRuntime) -> Result<(), Fail> {
    fails_at(&rt, 16_777_216, "h248gw: config line 1", false)?;
    fails_at(&rt, 16_777_217, "h248gw: cannot read ", true)?;
    Run::of(&rt, &["check", MISSING]).fails(b"h248gw: cannot read /dev/null/missing.conf\n")
}
