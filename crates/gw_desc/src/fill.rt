//! How `$` in a Local is filled (own to this profile): the address of a `c=` line and the port of an `m=` line.

ghost use Rattle.std.specs.Prelude.{◌≡◌, ◌≤◌, ◌<◌, ◌++◌, ◌∷◌, ◌==◌, ◌&&◌, false, true, IfOk, OnOk, IfNone, IfSome, MatchOption, length, take, drop, ◌+◌, bytes_eq, codes, slice_index};
ghost use Rattle.std.specs.List.{list_any};
ghost use Rattle.std.specs.Option.{is_some};
ghost use Rattle.gw_base.specs.Bytes.{is_one_of};
ghost use Rattle.gw_desc.specs.Fill.{line_ends, filled, is_fillable, is_fillable_line, filled_line, filled_text, has_choose, IsChoiceAt, IsFilledAt};

use gw_base::{Items, MediaAddr, NoMemory};
use itoa::Buffer;
use memchr::memchr2;
use std::alloc::{AllocError, Global};

/// What leaves a value to the gateway.
const CHOOSE: &[u8] = b"$";

/// What stands between two fields of a line.
const FIELD_ENDS: &[u8] = b" ";

/// What stands before the first of these bytes, that byte, and what stands behind it.
fn cut<'a>(text: &'a [u8], ends: &[u8]) -> Option<(&'a [u8], u8, &'a [u8])>
    ensures none { IfNone result (list_any (is_one_of ends.now) text.now ≡ false) }
    ensures split { IfSome result (λ r. text.now ≡ r.0.now ++ r.1 ∷ r.2.now) }
    ensures first { IfSome result (λ r. list_any (is_one_of ends.now) r.0.now ≡ false) }
    ensures end { IfSome result (λ r. is_one_of ends.now r.1 ≡ true) }
{
    for (i, b) in text.iter().enumerate() {
        if ends.contains(b) {
            return Some((&text[..i], *b, &text[i + 1..]));
        }
    }
    None
}

/// Whether a field is `$`, and its place is 0.
fn is_choice(field: &[u8], place: usize) -> bool
    ensures { result ≡ (place == 0 && bytes_eq field.now (codes "$")) }
{
    place == 0 && field == CHOOSE
}

/// Where the field of this place begins, if it is `$`.
#[tactic(auto, using(crate::proofs::FillRuns::other_fields))]
fn choice_in(line: &[u8], place: usize) -> Option<usize>
    ensures { MatchOption result (has_choose place line.now ≡ false) (λ at. IsChoiceAt place at line.now) }
{
    let Some((field, _, behind)) = cut(line, FIELD_ENDS) else {
        return if is_choice(line, place) {
            Some(0)
        } else {
            None
        };
    };
    if place > 0 {
        return match choice_in(behind, place - 1) {
            Some(at) => Some(field.len() + 1 + at),
            None => None,
        };
    }
    if is_choice(field, place) {
        Some(0)
    } else {
        None
    }
}

/// Where a line has a `$` to fill, and the text to fill it with.
#[tactic(auto, unfolding(crate::specs::Fill::filled_line, crate::specs::Fill::is_fillable_line, crate::specs::Fill::put))]
fn choice_of<'a>(line: &[u8], address: &'a [u8], port: &'a [u8]) -> Option<(usize, &'a [u8])>
    ensures fillable { is_some result ≡ is_fillable_line line.now }
    ensures filled { MatchOption result (filled_line address.now port.now line.now ≡ line.now) (λ r. IsFilledAt r.0 r.1.now line.now (filled_line address.now port.now line.now)) }
{
    if line.starts_with(b"c=") {
        return Some((choice_in(line, 2)?, address));
    }
    if line.starts_with(b"m=") {
        return Some((choice_in(line, 1)?, port));
    }
    None
}

/// How long the first line is, if it has an end.
#[tactic(auto, using(crate::proofs::FillRuns::no_end, crate::proofs::FillRuns::clean_before))]
fn line_len(text: &[u8]) -> Option<usize>
    ensures none { IfNone result (list_any (is_one_of line_ends) text.now ≡ false) }
    ensures within { IfSome result (λ len. len < length text.now) }
    ensures first { IfSome result (λ len. list_any (is_one_of line_ends) (take len text.now) ≡ false) }
    ensures end { IfSome result (λ len. is_one_of line_ends (slice_index text.now len) ≡ true) }
{
    memchr2(b'\r', b'\n', text)
}

/// What stands before this place goes behind what was written, and then the new text.
fn write_to(text: &[u8], place: usize, new: &[u8], out: &mut Vec<u8>) -> Result<(), AllocError>
    requires { place ≤ length text.now }
    ensures { OnOk result (out.new.items ≡ out.old.items ++ (take place text.now ++ new.now)) }
{
    out.extend_from_slice(&text[..place])?;
    out.extend_from_slice(new)
}

/// The text from this place on.
fn text_from(text: &[u8], place: usize) -> &[u8]
    requires { place ≤ length text.now }
    ensures { result.now ≡ drop place text.now }
{
    &text[place..]
}

/// So many bytes from this place on.
fn line_at(text: &[u8], place: usize, len: usize) -> &[u8]
    requires place { place ≤ length text.now }
    requires len { len ≤ length (drop place text.now) }
    ensures { result.now ≡ take len (drop place text.now) }
{
    &text[place..][..len]
}

/// What stands behind the byte in this place.
fn behind(text: &[u8], place: usize) -> &[u8]
    requires { place < length text.now }
    ensures { result.now ≡ drop (place + 1) text.now }
{
    &text[place + 1..]
}

/// The text goes behind what was written: what stands before this place as it is, and behind it the last line, filled;
/// whether that had a `$` to fill.
#[tactic(auto, using(crate::proofs::FillRuns::last_line))]
fn write_last(
    text: &[u8],
    same: usize,
    address: &[u8],
    port: &[u8],
    out: &mut Vec<u8>,
) -> Result<bool, AllocError>
    requires within { same ≤ length text.now }
    requires last { list_any (is_one_of line_ends) (drop same text.now) ≡ false }
    ensures text { OnOk result (out.new.items ≡ out.old.items ++ (take same text.now ++ filled_text address.now port.now (drop same text.now))) }
    ensures fillable { IfOk result (λ fillable. fillable ≡ is_fillable (drop same text.now)) }
{
    match choice_of(text_from(text, same), address, port) {
        Some((at, new)) => {
            write_to(text, same + at, new, out)?;
            out.extend_from_slice(behind(text, same + at))?;
            Ok(true)
        }
        None => {
            out.extend_from_slice(text)?;
            Ok(false)
        }
    }
}

/// The text goes behind what was written, each line filled; whether there was a `$` to fill. What stays as it is goes
/// over as far as the next `$` at once.
fn write_lines(
    text: &[u8],
    address: &[u8],
    port: &[u8],
    out: &mut Vec<u8>,
) -> Result<bool, AllocError>
    ensures text { OnOk result (out.new.items ≡ out.old.items ++ filled_text address.now port.now text.now) }
    ensures fillable { IfOk result (λ fillable. fillable ≡ is_fillable text.now) }
{
    let mut fillable = false;
    // What is not written yet, and how much of that, up to the next line, stays as it is.
    let mut rest = text;
    let mut same = 0;
    while let Some(len) = line_len(text_from(rest, same)) {
        match choice_of(line_at(rest, same, len), address, port) {
            Some((at, new)) => {
                write_to(rest, same + at, new, out)?;
                rest = behind(rest, same + at);
                same = len - at;
                fillable = true;
            }
            None => same += len + 1,
        }
    }
    let last = write_last(rest, same, address, port, out)?;
    Ok(fillable || last)
}

/// A Local's text in which the `$` of an ephemeral termination are filled, and whether there was one: the third field
/// of each line that begins with `c=` becomes the address of the gateway's media, and the second of each that begins
/// with `m=` the port `16384 + 8 * slot + 2 * (stream - 1)`. Fields stand between single spaces; all else stays. A
/// gateway's slots are below 4,096; the caller knows that the stream is 1 to 4. The work is linear in the text.
///
/// # Errors
///
/// Out of memory.
#[tactic(auto, unfolding(crate::specs::Fill::filled))]
pub fn fill_local(
    alloc: Global,
    text: &[u8],
    media: &MediaAddr,
    slot: u16,
    stream: u8,
) -> Result<(Vec<u8>, bool), NoMemory>
    requires first { 1 ≤ stream }
    requires last { stream ≤ 4 }
    ensures text { IfOk result (λ r. r.0.items ≡ filled media.now slot stream text.now) }
    ensures fillable { IfOk result (λ r. r.1 ≡ is_fillable text.now) }
{
    let mut buffer = Buffer::new();
    let port = buffer.format(16384 + 8 * u32::from(slot) + 2 * u32::from(stream - 1));
    // Mostly one address and one port are filled in.
    let filled = media.as_bytes().len() + port.len();
    let mut out = Vec::with_capacity(alloc, text.len().saturating_add(filled))?;
    let fillable = write_lines(text, media.as_bytes(), port.as_bytes(), &mut out)?;
    Ok((out, fillable))
}
