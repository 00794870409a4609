//! Writing a text in pieces, through a buffer that never grows.

ghost use Rattle.std.specs.Prelude.{◌≡◌, ◌≤◌, ◌++◌, ℕ, [], OnOk, OnErr, IfOk, IfErr, MatchBool, length, take};
ghost use Rattle.std.specs.Io.KnownBytes.{Appends, Keeps};
ghost use Rattle.gw_front.specs.Outputs.{Moves, IsFront};
ghost use Rattle.gw_front.specs.declared.replay_fault.ReplayFault.TheVariants.{Write as WriteFault};

use crate::replay_fault::ReplayFault;
use std::io::{ErrorKind, Write};

/// One write of the text: how many bytes it took, none where a signal came first.
fn write_some<W: Write>(out: &mut W, text: &[u8]) -> Result<usize, ReplayFault>
    ensures bound { IfOk result (λ count. count ≤ length text.now) }
    ensures front { IfOk result (λ count. Appends (W.contents out.old) (W.contents out.new) (take count text.now)) }
    ensures nothing { OnErr result (Keeps (W.contents out.old) (W.contents out.new)) }
    ensures fault { IfErr result (λ fault. fault ≡ WriteFault) }
{
    match out.write(text) {
        Ok(0) => Err(ReplayFault::Write),
        Ok(count) => Ok(count),
        Err(e) if e.kind() == ErrorKind::Interrupted => Ok(0),
        Err(_) => Err(ReplayFault::Write),
    }
}

/// Writes the text. After a fault a front of it is out: a write that failed wrote nothing, and one that took 0 bytes
/// neither.
fn write_whole<W: Write>(out: &mut W, text: &[u8]) -> Result<(), ReplayFault>
    ensures whole { OnOk result (Appends (W.contents out.old) (W.contents out.new) text.now) }
    ensures front { OnErr result ((n : ℕ) × Appends (W.contents out.old) (W.contents out.new) (take n text.now)) }
    ensures fault { IfErr result (λ fault. fault ≡ WriteFault) }
{
    let mut written = 0;
    for _turn in 0..u64::MAX {
        if written == text.len() {
            return Ok(());
        }
        written += write_some(out, &text[written..])?;
    }
    Err(ReplayFault::Write)
}

/// Writes what the buffer holds, which holds nothing then.
fn write_held<W: Write>(out: &mut W, held: &mut Vec<u8>) -> Result<(), ReplayFault>
    ensures whole { OnOk result (Appends (W.contents out.old) (W.contents out.new) held.old.items
        × (held.new.items ≡ [])) }
    ensures front { OnErr result ((n : ℕ) × Appends (W.contents out.old) (W.contents out.new) (take n held.old.items)) }
    ensures fault { IfErr result (λ fault. fault ≡ WriteFault) }
{
    write_whole(out, held.as_slice())?;
    held.clear();
    Ok(())
}

/// Puts the bytes last in the buffer, where they fit; whether they do.
fn hold(held: &mut Vec<u8>, piece: &[u8]) -> bool
    ensures { MatchBool result (held.new.items ≡ held.old.items ++ piece.now) (held.new.items ≡ held.old.items) }
{
    if piece.len() > held.capacity() - held.len() {
        return false;
    }
    held.extend_from_slice(piece).is_ok()
}

/// The piece goes behind what was written and what the buffer holds, for which it has no room. Kept out of `put`, so
/// that a piece that fits costs its copy alone.
#[inline(never)]
fn put_past<W: Write>(out: &mut W, held: &mut Vec<u8>, piece: &[u8]) -> Result<(), ReplayFault>
    ensures whole { OnOk result (Moves (W.contents out.old) held.old.items (W.contents out.new)
        held.new.items piece.now) }
    ensures front { OnErr result (IsFront (W.contents out.old) held.old.items (W.contents out.new) piece.now) }
    ensures fault { IfErr result (λ fault. fault ≡ WriteFault) }
{
    write_held(out, held)?;
    if hold(held, piece) {
        return Ok(());
    }
    write_whole(out, piece)
}

/// The piece goes behind what was written and what the buffer holds.
#[inline(always)]
pub(crate) fn put<W: Write>(
    out: &mut W,
    held: &mut Vec<u8>,
    piece: &[u8],
) -> Result<(), ReplayFault>
    ensures whole { OnOk result (Moves (W.contents out.old) held.old.items (W.contents out.new)
        held.new.items piece.now) }
    ensures front { OnErr result (IsFront (W.contents out.old) held.old.items (W.contents out.new) piece.now) }
    ensures fault { IfErr result (λ fault. fault ≡ WriteFault) }
{
    if hold(held, piece) {
        return Ok(());
    }
    put_past(out, held, piece)
}

/// Writes what the buffer holds, and flushes.
pub(crate) fn finish<W: Write>(out: &mut W, held: &mut Vec<u8>) -> Result<(), ReplayFault>
    ensures whole { OnOk result (Appends (W.contents out.old) (W.contents out.new) held.old.items
        × (held.new.items ≡ [])) }
    ensures front { OnErr result ((n : ℕ) × Appends (W.contents out.old) (W.contents out.new) (take n held.old.items)) }
    ensures fault { IfErr result (λ fault. fault ≡ WriteFault) }
{
    write_held(out, held)?;
    match out.flush() {
        Ok(()) => Ok(()),
        Err(_) => Err(ReplayFault::Write),
    }
}
