//! How long what stands at the front of a text is.

ghost use Rattle.std.specs.Prelude.{◌≡◌, ◌≤◌, length};
ghost use Rattle.gw_base.specs.Bytes.{is_digit};
ghost use Rattle.gw_text.specs.Lexical.{is_safe, is_solid};
ghost use Rattle.gw_text.specs.Runs.{run_len};

use crate::class::{is_safe, is_solid_in_scan};
use gw_base::is_digit;

/// The length of the safe bytes.
pub fn word_len(text: &[u8]) -> usize
    ensures value { result ≡ run_len is_safe text.now }
    ensures within { result ≤ length text.now }
{
    text.iter().take_while(|b| is_safe(**b)).count()
}

/// The length of the digits.
pub fn digits_len(text: &[u8]) -> usize
    ensures value { result ≡ run_len is_digit text.now }
    ensures within { result ≤ length text.now }
{
    text.iter().take_while(|b| is_digit(**b)).count()
}

/// The length of the bytes before the first with which white space begins.
pub fn solid_len(text: &[u8]) -> usize
    ensures value { result ≡ run_len is_solid text.now }
    ensures within { result ≤ length text.now }
{
    text.iter().take_while(|b| is_solid_in_scan(**b)).count()
}
