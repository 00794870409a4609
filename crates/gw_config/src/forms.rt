//! The forms of a configuration's lines, each alone.

ghost use Rattle.std.specs.Prelude.{◌≡◌, ◌≢◌, ◌↔◌, ◌++◌, ℕ, List, IsTrue, MatchOption, codes};
ghost use Rattle.gw_base.specs.Lang.{◌▹◌, IsText};
ghost use Rattle.gw_text.specs.Forms.{IsUint32};
ghost use Rattle.gw_config.specs.ConfigTexts.{IsSkipped, IsMidLine, IsMediaLine, IsTermLine, IsNumberLine};

use gw_base::{MediaAddr, Mid, TermName};
use gw_text::Cursor;

/// What stands behind the keyword and its space, if the line begins so.
pub fn behind<'a>(line: &'a [u8], keyword: &[u8]) -> Option<&'a [u8]>
    ensures { MatchOption result ((rest : List ℕ) → line.now ≢ keyword.now ++ rest) (λ rest. line.now ≡ keyword.now ++ rest.now) }
{
    line.strip_prefix(keyword)
}

/// Whether the line is empty or a comment.
pub(crate) fn is_skipped(line: &[u8]) -> bool
    ensures { IsTrue result ↔ IsSkipped line.now }
{
    line.is_empty() || line[0] == b'#'
}

/// The mId of a line.
pub(crate) fn mid_behind(line: &[u8]) -> Option<Mid>
    ensures { MatchOption result ((mid : List ℕ) → ¬ IsMidLine mid line.now) (λ mid. IsMidLine mid line.now) }
{
    match Mid::read(behind(line, b"mid ")?) {
        Ok(mid) => Some(mid),
        Err(_) => None,
    }
}

/// The address of a line.
pub(crate) fn address_behind(line: &[u8]) -> Option<MediaAddr>
    ensures { MatchOption result ((media : List ℕ) → ¬ IsMediaLine media line.now) (λ media. IsMediaLine media line.now) }
{
    match MediaAddr::read(behind(line, b"media ")?) {
        Ok(media) => Some(media),
        Err(_) => None,
    }
}

/// The name of a line.
pub(crate) fn name_behind(line: &[u8]) -> Option<TermName>
    ensures { MatchOption result ((name : List ℕ) → ¬ IsTermLine name line.now) (λ name. IsTermLine name line.now) }
{
    match TermName::read(behind(line, b"term ")?) {
        Ok(name) => Some(name),
        Err(_) => None,
    }
}

/// The number that a text is.
pub fn number_of(text: &[u8]) -> Option<u32>
    ensures { MatchOption result ((n : ℕ) → ¬ IsUint32 n text.now) (λ n. IsUint32 n text.now) }
{
    let mut cursor = Cursor::new(text);
    match cursor.uint32() {
        Ok(number) => {
            if cursor.is_empty() {
                Some(number.value)
            } else {
                None
            }
        }
        Err(_) => None,
    }
}

/// The number of a line that begins with the keyword.
pub(crate) fn number_behind(line: &[u8], keyword: &[u8]) -> Option<u32>
    ensures { MatchOption result ((n : ℕ) → ¬ IsNumberLine keyword.now n line.now) (λ n. IsNumberLine keyword.now n line.now) }
{
    number_of(behind(line, keyword)?)
}
