//! What tests want of a run.
#![tactic(auto)]

use std::test::Fail;

/// Fails, and says of what, where something is not so.
///
/// # Errors
///
/// The failure.
pub fn is_so(holds: bool, what: &str) -> Result<(), Fail> {
    if holds {
        return Ok(());
    }
    Err(Fail::new(what))
}

/// Fails where the bytes are not those that are wanted.
///
/// # Errors
///
/// The failure, which has both.
pub fn is_text(found: &[u8], wanted: &[u8]) -> Result<(), Fail> {
    if found == wanted {
        return Ok(());
    }
    Err(Fail::new(format_args!("{found:?}, and not {wanted:?}")))
}
