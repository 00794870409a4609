//! What follows the word of a descriptor that is kept as sent.

ghost use Rattle.gw_desc.specs.Reading.{optional_group_at, tail_at, word_tail_at};
ghost use Rattle.gw_text.specs.Parts.{Finds};

use crate::descriptor::Tail;
use crate::spans::group;
use gw_base::Span;
use gw_text::parts::word;
use gw_text::{Cursor, ParseFault};

/// Takes the group behind the white space, if a brace comes next there; else nothing. Braces may lie 8 deep (own to
/// this profile).
///
/// # Errors
///
/// `Syntax` where a brace comes next there and no group stands there. After it nothing is said of the cursor.
#[tactic(auto, unfolding(crate::specs::Reading::optional_group_at, gw_text::specs::SpaceScan::skip))]
pub fn optional_group<'a>(cursor: &mut Cursor<'a>) -> Result<Option<Span<'a>>, ParseFault>
    ensures { Finds result cursor.new (optional_group_at cursor.old) }
{
    if !cursor.is_ahead(b'{') {
        return Ok(None);
    }
    cursor.lwsp();
    Ok(Some(group(cursor)?))
}

/// The word behind `=`, and the group behind it, if there is one.
fn word_tail<'a>(cursor: &mut Cursor<'a>) -> Result<Tail<Span<'a>>, ParseFault>
    ensures { Finds result cursor.new (word_tail_at cursor.old) }
{
    let word = word(cursor)?;
    let group = optional_group(cursor)?;
    Ok(Tail {
        equals: true,
        word: Some(word),
        group,
    })
}

/// Takes what follows the word of a descriptor that is kept as sent, or of a context property: `=` with a word, a group
/// or both behind it; or a group; or nothing. Braces may lie 8 deep (own to this profile).
///
/// # Errors
///
/// `Syntax` where `=` or a brace comes next and no tail stands there. After it nothing is said of the cursor.
#[tactic(auto, unfolding(crate::specs::Reading::tail_at))]
pub fn tail<'a>(cursor: &mut Cursor<'a>) -> Result<Tail<Span<'a>>, ParseFault>
    ensures { Finds result cursor.new (tail_at cursor.old) }
{
    if !cursor.sign(b'=') {
        let group = optional_group(cursor)?;
        return Ok(Tail {
            equals: false,
            word: None,
            group,
        });
    }
    if !cursor.is_at(b'{') {
        return word_tail(cursor);
    }
    let group = group(cursor)?;
    Ok(Tail {
        equals: true,
        word: None,
        group: Some(group),
    })
}
