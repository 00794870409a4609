//! White space: blanks and comments (RFC 3525, Annex B.2).

ghost use Rattle.std.specs.Prelude.{◌≡◌, ◌≤◌, ◌<◌, length, IfSome};
ghost use Rattle.std.specs.Bool.{OnTrue};
ghost use Rattle.gw_text.specs.Lexical.{is_blank, is_comment_byte};
ghost use Rattle.gw_text.specs.Runs.{run_len};
ghost use Rattle.gw_text.specs.SpaceScan.{space_len, comment_len};

use crate::class::{is_blank, is_comment_byte, is_eol, is_solid};

/// The length of the white space, which is mostly none, or one blank.
#[tactic(auto, unfolding(crate::specs::SpaceScan::space_len))]
pub fn space_len(text: &[u8]) -> usize
    ensures value { result ≡ space_len text.now }
    ensures within { result ≤ length text.now }
{
    match text {
        [b, c, ..] if is_blank(*b) && is_solid(*c) => 1,
        [b, ..] if !is_solid(*b) => some_space_len(text),
        _ => 0,
    }
}

/// Whether no white space comes next, as its first byte shows.
#[tactic(auto, unfolding(crate::specs::SpaceScan::space_len))]
pub fn is_unspaced(text: &[u8]) -> bool
    ensures { OnTrue result (space_len text.now ≡ 0) }
{
    match text {
        [b, ..] => is_solid(*b),
        [] => true,
    }
}

/// The same, where there mostly is some. Kept out of the scans that look for it where there is mostly none.
#[inline(never)]
pub fn some_space_len(text: &[u8]) -> usize
    ensures value { result ≡ space_len text.now }
    ensures within { result ≤ length text.now }
{
    let mut len = blanks_len(text);
    while let Some(comment) = comment_len(&text[len..]) {
        len += comment;
        len += blanks_len(&text[len..]);
    }
    len
}

/// The length of the blanks.
pub fn blanks_len(text: &[u8]) -> usize
    ensures value { result ≡ run_len is_blank text.now }
    ensures within { result ≤ length text.now }
{
    text.iter().take_while(|b| is_blank(**b)).count()
}

/// The length of the comment bytes.
fn line_len(text: &[u8]) -> usize
    ensures value { result ≡ run_len is_comment_byte text.now }
    ensures within { result ≤ length text.now }
{
    text.iter().take_while(|b| is_comment_byte(**b)).count()
}

/// The length of the comment, the end of its line included, if one stands there.
fn comment_len(text: &[u8]) -> Option<usize>
    ensures value { result ≡ comment_len text.now }
    ensures within { IfSome result (λ len. len ≤ length text.now) }
{
    let [b';', line @ ..] = text else {
        return None;
    };
    let len = line_len(line);
    match &line[len..] {
        [b, ..] if is_eol(*b) => Some(len + 2),
        _ => None,
    }
}
