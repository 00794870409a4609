//! Groups, where they stand in a text. After a fault nothing is said of the cursor.

ghost use Rattle.gw_text.specs.Reader.{group_read};
ghost use Rattle.gw_desc.specs.Grammar.{request_depth};
ghost use Rattle.gw_text.specs.Parts.{Finds};

use gw_base::Span;
use gw_text::{Cursor, ParseFault};

/// How deep braces may lie in a request (own to this profile).
const REQUEST_DEPTH: u32 = 8;

/// A group as it may stand in a request, its braces included.
pub fn group<'a>(cursor: &mut Cursor<'a>) -> Result<Span<'a>, ParseFault>
    ensures { Finds result cursor.new (group_read request_depth cursor.old) }
{
    Ok(Span::new(cursor.balanced(REQUEST_DEPTH)?))
}
