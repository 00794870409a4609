//! Where a command stands: `null`, `live 1`, `unmade 2` or `each 1`, and behind it `slot=0` where the command owns a
//! slot.

use cases_text::{CaseFault, number_of, split_word};
use gw_base::CtxNum;
use gw_cmd::At;

/// Where a command stands.
#[derive(Clone, Copy)]
pub struct Place {
    /// Its action's context.
    pub at: At,
    /// The slot that it owns.
    pub slot: Option<u16>,
}

/// The context of an action by its word, and what stands behind it.
fn at_of<'a>(call: &str, rest: &'a [u8]) -> Result<(At, &'a [u8]), CaseFault> {
    if call == "null" {
        return Ok((At::Null, rest));
    }
    let (number, behind) = split_word(rest);
    let number = CtxNum(number_of(number).ok_or(CaseFault::Form)?);
    match call {
        "live" => Ok((At::Live(number), behind)),
        "unmade" => Ok((At::Unmade(number), behind)),
        "each" => Ok((At::Each(number), behind)),
        _ => Err(CaseFault::Call),
    }
}

/// Where the command stands, and the command.
pub fn place_of<'a>(call: &str, rest: &'a [u8]) -> Result<(Place, &'a [u8]), CaseFault> {
    let (at, rest) = at_of(call, rest)?;
    let (word, behind) = split_word(rest);
    let Some(digits) = word.strip_prefix(b"slot=") else {
        return Ok((Place { at, slot: None }, rest));
    };
    match number_of(digits) {
        Some(slot) if slot < 4_096 => Ok((
            Place {
                at,
                slot: Some(slot as u16),
            },
            behind,
        )),
        _ => Err(CaseFault::Form),
    }
}
