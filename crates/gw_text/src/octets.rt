//! Octets: the text of a Local or a Remote, and quoted texts.

ghost use Rattle.std.specs.Prelude.{◌≡◌, ◌≤◌, ◌<◌, length, take, slice_index, IfSome};
ghost use Rattle.gw_text.specs.Lexical.{right_brace};
ghost use Rattle.gw_text.specs.Runs.{IsRun, run_len};
ghost use Rattle.gw_text.specs.OctetsScan.{is_plain, solid_end, octets_ends, trimmed};
ghost use Rattle.gw_text.specs.Quoted.{is_quotable};
ghost use Rattle.gw_text.specs.QuotedScan.{quoted_len};

use crate::class::is_blank;
use crate::space::blanks_len;
use memchr::memchr3;

/// The length of octets in which nothing is escaped, if the text begins with such.
#[tactic(auto, using(crate::proofs::OctetsPlain::plain_below, crate::proofs::OctetsPlain::no_other))]
fn plain_len(text: &[u8]) -> Option<usize>
    ensures within { IfSome result (λ len. len < length text.now) }
    ensures plain { IfSome result (λ len. IsRun is_plain (take len text.now)) }
    ensures closed { IfSome result (λ len. slice_index text.now len ≡ right_brace) }
{
    let len = memchr3(b'}', b'\\', 0, text)?;
    if text[len] == b'}' { Some(len) } else { None }
}

/// The length of the text without the white space at its end.
#[tactic(auto, using(crate::proofs::OctetsPlain::end_blank, crate::proofs::OctetsPlain::end_solid))]
fn solid_end(text: &[u8]) -> usize
    ensures value { result ≡ solid_end text.now }
    ensures within { result ≤ length text.now }
{
    let mut front = text;
    while let [rest @ .., b] = front {
        if !is_blank(*b) {
            return front.len();
        }
        front = rest;
    }
    0
}

/// Where octets end: the place of their `}`, and the end of what is kept of them.
#[tactic(auto, using(crate::proofs::OctetsPlain::plain_ends))]
pub fn octets_ends(text: &[u8]) -> Option<(usize, usize)>
    ensures value { result ≡ octets_ends text.now }
    ensures within { IfSome result (λ ends. (ends.0 < length text.now) × (ends.1 ≤ ends.0)) }
{
    match plain_len(text) {
        Some(len) => Some((len, solid_end(&text[..len]))),
        None => escaped_ends(text),
    }
}

/// The same, byte by byte.
#[tactic(auto, using(crate::proofs::RunLemmas::at_byte), unfolding(crate::specs::OctetsScan::octets_ends))]
fn escaped_ends(text: &[u8]) -> Option<(usize, usize)>
    ensures value { result ≡ octets_ends text.now }
    ensures within { IfSome result (λ ends. (ends.0 < length text.now) × (ends.1 ≤ ends.0)) }
{
    let mut escaped = false;
    let mut keep = 0;
    for (i, b) in text.iter().enumerate() {
        if *b == 0 {
            return None;
        }
        if !escaped && *b == b'}' {
            return Some((i, keep));
        }
        if escaped || !is_blank(*b) {
            keep = i + 1;
        }
        escaped = *b == b'\\';
    }
    None
}

/// The text without the white space at its front.
pub fn trimmed(text: &[u8]) -> &[u8]
    ensures { result.now ≡ trimmed text.now }
{
    &text[blanks_len(text)..]
}

fn is_quotable(b: u8) -> bool
    ensures { result ≡ is_quotable b }
{
    b != b'"' && (b == b'\t' || (b >= b' ' && b <= b'~'))
}

fn quotable_len(text: &[u8]) -> usize
    ensures value { result ≡ run_len is_quotable text.now }
    ensures within { result ≤ length text.now }
{
    text.iter().take_while(|b| is_quotable(**b)).count()
}

/// The length of the quoted text at the front, its quotes among it.
#[tactic(auto, unfolding(crate::specs::QuotedScan::quoted_len))]
pub fn quoted_len(text: &[u8]) -> Option<usize>
    ensures value { result ≡ quoted_len text.now }
    ensures within { IfSome result (λ len. len ≤ length text.now) }
{
    let [b'"', rest @ ..] = text else {
        return None;
    };
    let inner = quotable_len(rest);
    match &rest[inner..] {
        [b'"', ..] => Some(inner + 2),
        _ => None,
    }
}
