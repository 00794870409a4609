//! What one line of a configuration says.

ghost use Rattle.std.specs.Prelude.{◌≡◌, ◌++◌, MatchOption};
ghost use Rattle.gw_config.specs.ConfigTexts.{Says};
ghost use Rattle.gw_config.specs.declared.item.Item.{Item as Said};

use crate::forms::{address_behind, is_skipped, mid_behind, name_behind, number_behind};
use gw_base::{MediaAddr, Mid, TermName};

/// What one line of a configuration says.
#[derive(Clone, Copy)]
pub(crate) enum Item {
    /// An empty line or a comment.
    Nothing,
    /// `mid`: the gateway's own mId.
    Mid(Mid),
    /// `media`: the address of its media.
    Media(MediaAddr),
    /// `contexts`: how many contexts there may be.
    Contexts(u32),
    /// `slots`: how many ephemeral terminations there may be.
    Slots(u32),
    /// `members`: how many members a context may have.
    Members(u32),
    /// `keep`: how many replies are kept.
    Keep(u32),
    /// `term`: a provisioned termination.
    Term(TermName),
}

/// What the line says, if it is of a form.
pub(crate) fn item_of(line: &[u8]) -> Option<Item>
    ensures { MatchOption result ((item : Said) → ¬ Says item line.now) (λ item. Says item line.now) }
{
    if is_skipped(line) {
        return Some(Item::Nothing);
    }
    if let Some(mid) = mid_behind(line) {
        return Some(Item::Mid(mid));
    }
    if let Some(media) = address_behind(line) {
        return Some(Item::Media(media));
    }
    if let Some(name) = name_behind(line) {
        return Some(Item::Term(name));
    }
    if let Some(number) = number_behind(line, b"contexts ") {
        return Some(Item::Contexts(number));
    }
    if let Some(number) = number_behind(line, b"slots ") {
        return Some(Item::Slots(number));
    }
    if let Some(number) = number_behind(line, b"members ") {
        return Some(Item::Members(number));
    }
    if let Some(number) = number_behind(line, b"keep ") {
        return Some(Item::Keep(number));
    }
    None
}
