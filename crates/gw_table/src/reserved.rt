//! Names that are the gateway's own to give.

ghost use Rattle.std.specs.Prelude.{◌≡◌, ◌≢◌, ℕ, ◌<◌, ◌≤◌, ◌^◌, ◌↔◌, true, length, slice_index, None, IfSome, IsTrue, codes, nat_eq};
ghost use Rattle.std.specs.List.{starts_with};
ghost use Rattle.std.specs.Str.{all_ascii_digits};
ghost use Rattle.std.specs.Str.Parse.{digits_value};
ghost use Rattle.gw_table.specs.Reserved.{is_reserved, slot_name};

use gw_base::TermName;
use itoa::Buffer;

/// Whether no termination may be configured under the name: `ROOT` in any case, and what begins with `RTP/`, are the
/// gateway's own to give.
pub fn is_reserved(name: TermName) -> bool
    ensures { result ≡ is_reserved name }
{
    let bytes = name.as_bytes();
    bytes.eq_ignore_ascii_case(b"ROOT") || bytes.starts_with(b"RTP/")
}

/// The name of the termination in a slot: `RTP/` and the slot in decimal, without leading zeros.
pub fn slot_name(slot: u16) -> TermName
    ensures { result ≡ slot_name slot }
{
    let mut buffer = Buffer::new();
    let digits = buffer.format(slot).as_bytes();
    let end = 4 + digits.len();
    let mut text = *b"RTP/00000";
    text[4..end].copy_from_slice(digits);
    TermName::of(&text[..end])
}

/// The slots are those below this number.
pub(crate) const SLOTS: u16 = 4096;

/// The number of a slot that the text writes in digits, leading zeros or not.
fn number_in(text: &[u8]) -> Option<u16>
    ensures number { IfSome result (λ n. n ≡ digits_value 10 text.now) }
    ensures digits { IfSome result (λ n. all_ascii_digits text.now ≡ true) }
    ensures small { IfSome result (λ n. n < 4096) }
    ensures none { result ≡ None → all_ascii_digits text.now ≡ true → 4096 ≤ digits_value 10 text.now }
{
    let mut number: u16 = 0;
    for byte in text {
        if !byte.is_ascii_digit() {
            return None;
        }
        number = number * 10 + u16::from(*byte - b'0');
        if number >= SLOTS {
            return None;
        }
    }
    Some(number)
}

/// The digit 0.
const ZERO: u8 = b'0';

/// Whether the text begins with a 0 that is not all of it.
fn has_leading_zero(text: &[u8]) -> bool
    ensures { IsTrue result ↔ ((1 < length text.now) × (slice_index text.now 0 ≡ ZERO)) }
{
    text.len() > 1 && text[0] == ZERO
}

/// Whether the text begins as the name of a slot. Most names differ from that in the first byte.
fn begins_as_slot(text: &[u8]) -> bool
    ensures { result ≡ starts_with nat_eq text.now (codes "RTP/") }
{
    match text.first() {
        Some(b'R') => text.starts_with(b"RTP/"),
        _ => false,
    }
}

/// The slot below 4,096 of which the name is.
pub(crate) fn slot_of(name: &TermName) -> Option<u16>
    ensures small { IfSome result (λ s. s < 4096) }
    ensures slot { IfSome result (λ s. slot_name s ≡ name.now) }
    ensures none { result ≡ None → (s : ℕ) → s < 4096 → slot_name s ≢ name.now }
{
    let bytes = name.as_bytes();
    if !begins_as_slot(bytes) {
        return None;
    }
    let digits = &bytes[4..];
    if digits.is_empty() || has_leading_zero(digits) {
        return None;
    }
    number_in(digits)
}
