//! Bytes in a line of printable text: `%` and two hexadecimal digits stand for the byte of that number, and `%[64T]`
//! for 64 letters T. Any other printable byte stands for itself.

use crate::fault::CaseFault;
use crate::split::split_at_byte;
use crate::words::number_of;
use std::alloc::Global;

/// The most bytes that a run may stand for.
const LONGEST_RUN: u32 = 1_000_000;

/// The byte of two hexadecimal digits.
fn byte_of(high: u8, low: u8) -> Option<u8> {
    let high = char::from(high).to_digit(16)?;
    let low = char::from(low).to_digit(16)?;
    u8::try_from(high * 16 + low).ok()
}

/// A run behind its opening bracket: how many bytes, which, and what follows the closing bracket.
fn run_of(text: &[u8]) -> Option<(u32, u8, &[u8])> {
    let (run, rest) = split_at_byte(text, b']');
    let (byte, count) = run.split_last()?;
    let count = number_of(count)?;
    if count > LONGEST_RUN {
        return None;
    }
    Some((count, *byte, rest))
}

/// Adds what stands behind a `%`, and gives what follows it.
fn add_escape<'a>(bytes: &mut Vec<u8>, text: &'a [u8]) -> Result<&'a [u8], CaseFault> {
    match text {
        [b'[', run @ ..] => {
            let (count, byte, rest) = run_of(run).ok_or(CaseFault::Escape)?;
            for _ in 0..count {
                bytes.push(byte)?;
            }
            Ok(rest)
        }
        [high, low, rest @ ..] => {
            bytes.push(byte_of(*high, *low).ok_or(CaseFault::Escape)?)?;
            Ok(rest)
        }
        _ => Err(CaseFault::Escape),
    }
}

/// Adds what a line stands for.
fn add_decoded(bytes: &mut Vec<u8>, line: &[u8]) -> Result<(), CaseFault> {
    let mut rest = line;
    // Each step takes one byte or more.
    for _step in line {
        let [first, others @ ..] = rest else {
            break;
        };
        if *first == b'%' {
            rest = add_escape(bytes, others)?;
        } else {
            bytes.push(*first)?;
            rest = others;
        }
    }
    Ok(())
}

/// The bytes that a line stands for.
///
/// # Errors
///
/// `Escape` where a `%` stands for nothing; `NoMemory` where an allocation was refused.
pub fn decoded(alloc: Global, line: &[u8]) -> Result<Vec<u8>, CaseFault> {
    let mut bytes = Vec::new(alloc);
    add_decoded(&mut bytes, line)?;
    Ok(bytes)
}
