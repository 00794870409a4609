//! Groups in braces, scanned piece by piece.

ghost use Rattle.std.specs.Prelude.{◌≡◌, ◌≤◌, ◌+◌, ◌<◌, ◌^◌, length, IfOk};
ghost use Rattle.gw_text.specs.SpaceScan.{space_len};
ghost use Rattle.gw_text.specs.Group.{after_word, after_mark};
ghost use Rattle.gw_text.specs.GroupScan.{opened, after_sign, spaced, step_at, group_rest, balanced_at, place, IsRest, IsLen};
ghost use Rattle.gw_text.specs.declared.group.Before.TheVariants as before;

use crate::class::{is_safe, is_solid};
use crate::fault::ScanFault;
use crate::lengths::word_len;
use crate::octets::{octets_ends, quoted_len};
use crate::space::some_space_len;
use crate::token::{Token, token_of};

/// What stands before a place in a group, white space aside.
#[derive(Clone, Copy)]
enum Before {
    /// `=`
    Equals,
    /// A word behind which braces enclose octets.
    OctetsWord,
    Other,
}

/// A place in groups: how many are open, and what stands before it.
#[derive(Clone, Copy)]
struct Place {
    depth: u32,
    before: Before,
}

impl Place {
    fn new(depth: u32, before: Before) -> Place
        ensures { result ≡ place depth before }
    {
        Place { depth, before }
    }
}

fn after_word(before: Before, word: &[u8]) -> Before
    ensures { result ≡ after_word before word.now }
{
    match before {
        Before::Equals => Before::Other,
        _ if matches!(token_of(word), Some(Token::Local | Token::Remote)) => Before::OctetsWord,
        _ => Before::Other,
    }
}

fn after_mark(b: u8) -> Before
    ensures { result ≡ after_mark b }
{
    if b == b'=' {
        Before::Equals
    } else {
        Before::Other
    }
}

/// Over a `{`, of which `inner` stands behind, or over octets.
fn opened(limit: u32, at: Place, inner: &[u8]) -> Result<(Place, usize), ScanFault>
    requires { length inner.now + 1 < 2 ^ 64 }
    ensures value { result ≡ opened limit at inner.now }
    ensures within { IfOk result (λ next. next.1 ≤ length inner.now + 1) }
{
    if at.depth >= limit {
        return Err(ScanFault::TooDeep);
    }
    match at.before {
        Before::OctetsWord => {
            let Some((len, _)) = octets_ends(inner) else {
                return Err(ScanFault::Unexpected);
            };
            Ok((Place::new(at.depth, Before::Other), len + 2))
        }
        _ => Ok((Place::new(at.depth + 1, Before::Other), 1)),
    }
}

/// Over a byte that is a piece alone.
fn after_sign(at: Place, b: u8) -> Result<(Place, usize), ScanFault>
    ensures value { result ≡ after_sign at b }
    ensures within { IfOk result (λ next. next.1 ≤ 1) }
{
    if b == 0 {
        return Err(ScanFault::Unexpected);
    }
    Ok((Place::new(at.depth, after_mark(b)), 1))
}

/// Over white space.
fn spaced(at: Place, text: &[u8]) -> Result<(Place, usize), ScanFault>
    ensures value { result ≡ spaced at (space_len text.now) }
    ensures within { IfOk result (λ next. next.1 ≤ length text.now) }
{
    let len = some_space_len(text);
    if len == 0 {
        return Err(ScanFault::Unexpected);
    }
    Ok((at, len))
}

/// Over the next piece: where the scan goes on, and how many bytes it passed.
#[tactic(auto, unfolding(crate::specs::GroupScan::step_at))]
fn step(limit: u32, at: Place, text: &[u8]) -> Result<(Place, usize), ScanFault>
    requires { 0 < at.depth }
    ensures value { result ≡ step_at limit at text.now }
    ensures within { IfOk result (λ next. next.1 ≤ length text.now) }
{
    let [b, inner @ ..] = text else {
        return Err(ScanFault::Unexpected);
    };
    if *b == b'{' {
        return opened(limit, at, inner);
    }
    if *b == b'}' {
        return Ok((Place::new(at.depth - 1, Before::Other), 1));
    }
    if *b == b'"' {
        let len = quoted_len(text).ok_or(ScanFault::Unexpected)?;
        return Ok((Place::new(at.depth, Before::Other), len));
    }
    if is_safe(*b) {
        let len = word_len(text);
        let before = after_word(at.before, &text[..len]);
        return Ok((Place::new(at.depth, before), len));
    }
    if is_solid(*b) {
        return after_sign(at, *b);
    }
    spaced(at, text)
}

/// What is left behind a group, from behind its first brace.
#[tactic(auto, using(crate::proofs::GroupSteps::rest_steps))]
fn group_rest<'a>(limit: u32, text: &'a [u8]) -> Result<&'a [u8], ScanFault>
    requires { 0 < limit }
    ensures value { IsRest (λ rest. rest.now) result (group_rest limit (place 1 before.Other) text.now) }
    ensures within { IfOk result (λ rest. length rest.now ≤ length text.now) }
{
    let mut at = Place::new(1, Before::Other);
    let mut rest = text;
    loop {
        let (next, len) = step(limit, at, rest)?;
        let (_, left) = rest.split_at(len);
        rest = left;
        if next.depth == 0 {
            return Ok(rest);
        }
        at = next;
    }
}

/// The length of the group at the front, with braces at most `depth` deep.
#[tactic(auto, using(crate::proofs::GroupSound::group_len_at), unfolding(crate::specs::GroupScan::balanced_at))]
pub fn group_len(depth: u32, text: &[u8]) -> Result<usize, ScanFault>
    ensures { IsLen text.now result (balanced_at depth text.now) }
{
    let [b, inner @ ..] = text else {
        return Err(ScanFault::Unexpected);
    };
    if *b != b'{' {
        return Err(ScanFault::Unexpected);
    }
    if depth == 0 {
        return Err(ScanFault::TooDeep);
    }
    let rest = group_rest(depth, inner)?;
    Ok(text.len() - rest.len())
}
