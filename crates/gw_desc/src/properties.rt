//! Properties: a name, a sign and a value, which is kept as sent. After a fault nothing is said of the cursor.

ghost use Rattle.std.proofs.Common.{arith};
ghost use Rattle.gw_desc.specs.Reading.{property_at, relation_at, value_at};
ghost use Rattle.gw_text.specs.Parts.{Finds};

use crate::descriptor::{Property, Sign};
use crate::spans::group;
use bumpalo::Bump;
use gw_base::Span;
use gw_text::parts::{Parse, sign, word};
use gw_text::{Cursor, ParseFault};

/// The value of a property, as sent.
#[tactic(auto, unfolding(crate::specs::Reading::value_at))]
fn value<'a>(cursor: &mut Cursor<'a>) -> Result<Span<'a>, ParseFault>
    ensures { Finds result cursor.new (value_at cursor.old) }
{
    if cursor.is_at(b'"') {
        return Ok(Span::new(cursor.quoted()?));
    }
    if cursor.is_at(b'[') {
        return Ok(Span::new(cursor.bracket()?));
    }
    if cursor.is_at(b'{') {
        return group(cursor);
    }
    word(cursor)
}

/// The sign between a property's name and its value.
#[tactic(auto, unfolding(crate::specs::Reading::relation_at))]
fn relation(cursor: &mut Cursor<'_>) -> Result<Sign, ParseFault>
    ensures { Finds result cursor.new (relation_at cursor.old) }
{
    if cursor.sign(b'=') {
        return Ok(Sign::Equal);
    }
    if cursor.sign(b'#') {
        return Ok(Sign::NotEqual);
    }
    if cursor.sign(b'<') {
        return Ok(Sign::Less);
    }
    sign(cursor, b'>')?;
    Ok(Sign::Greater)
}

impl<'a> Parse<'a> for Property<Span<'a>> {
    ghost read_at = { property_at };

    ghost fits = { Prim.search arith };

    #[tactic(auto, unfolding(crate::specs::Reading::property_at))]
    fn read(_bump: &'a Bump, cursor: &mut Cursor<'a>) -> Result<Property<Span<'a>>, ParseFault> {
        let name = word(cursor)?;
        let sign = relation(cursor)?;
        let value = value(cursor)?;
        Ok(Property { name, sign, value })
    }
}
