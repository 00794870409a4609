//! Brackets and runs, which are kept as sent.

ghost use Rattle.std.specs.Prelude.{◌≡◌, ◌≤◌, true, false, length, drop, IfSome, MatchOption};
ghost use Rattle.gw_text.specs.Lexical.{right_bracket};
ghost use Rattle.gw_text.specs.Runs.{begins, is_byte, run_len};
ghost use Rattle.gw_text.specs.Bracket.{is_run_byte, is_bracket_byte};
ghost use Rattle.gw_text.specs.BracketScan.{piece_len, bracket_rest, bracket_at, IsLeft, IsSpanLen};

use crate::class::is_safe;
use crate::octets::quoted_len;
use crate::space::space_len;

fn is_run_byte(b: u8) -> bool
    ensures { result ≡ is_run_byte b }
{
    is_safe(b) || b"[]:<>#".contains(&b)
}

/// The length of the run at the front.
pub fn run_len(text: &[u8]) -> usize
    ensures value { result ≡ run_len is_run_byte text.now }
    ensures within { result ≤ length text.now }
{
    text.iter().take_while(|b| is_run_byte(**b)).count()
}

fn is_bracket_byte(b: u8) -> bool
    ensures { result ≡ is_bracket_byte b }
{
    is_safe(b) || b == b',' || b == b':'
}

/// The length of the piece at the front.
fn piece_len(text: &[u8]) -> Option<usize>
    ensures value { result ≡ piece_len text.now }
    ensures within { IfSome result (λ len. len ≤ length text.now) }
{
    let [b, ..] = text else {
        return None;
    };
    if is_bracket_byte(*b) {
        return Some(1);
    }
    if *b == b'"' {
        return quoted_len(text);
    }
    let len = space_len(text);
    if len == 0 { None } else { Some(len) }
}

/// What is left behind a bracket that closes, if it comes next.
fn closed<'a>(text: &'a [u8]) -> Option<&'a [u8]>
    ensures { MatchOption result (begins (is_byte right_bracket) text.now ≡ false) (λ rest. (begins (is_byte right_bracket) text.now ≡ true) × (rest.now ≡ drop 1 text.now)) }
{
    let [b, rest @ ..] = text else {
        return None;
    };
    if *b == b']' { Some(rest) } else { None }
}

/// What is left behind the bracket that closes, over the pieces before it.
#[tactic(auto, using(crate::proofs::BracketLaws::bracket_steps))]
fn bracket_rest<'a>(text: &'a [u8]) -> Option<&'a [u8]>
    ensures value { IsLeft (λ rest. rest.now) result (bracket_rest text.now) }
    ensures within { IfSome result (λ rest. length rest.now ≤ length text.now) }
{
    let mut rest = text;
    loop {
        if let Some(left) = closed(rest) {
            return Some(left);
        }
        let Some(len) = piece_len(rest) else {
            return None;
        };
        let (_, left) = rest.split_at(len);
        rest = left;
    }
}

/// The length of the bracket at the front.
#[tactic(auto, using(crate::proofs::BracketLaws::bracket_len_at), unfolding(crate::specs::BracketScan::bracket_at))]
pub fn bracket_len(text: &[u8]) -> Option<usize>
    ensures value { IsSpanLen text.now result (bracket_at text.now) }
    ensures within { IfSome result (λ len. len ≤ length text.now) }
{
    let [b, inner @ ..] = text else {
        return None;
    };
    if *b != b'[' {
        return None;
    }
    let None = closed(inner) else {
        return None;
    };
    let Some(rest) = bracket_rest(inner) else {
        return None;
    };
    Some(text.len() - rest.len())
}
