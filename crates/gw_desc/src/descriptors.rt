//! Descriptors, as they are read. After a fault nothing is said of the cursor.

ghost use Rattle.std.proofs.Common.{arith};
ghost use Rattle.gw_desc.specs.Reading.{descriptor_at, dropped_at, keep_at};
ghost use Rattle.gw_text.specs.Parts.{Finds};

use crate::descriptor::{Descriptor, KeptKind, Tail};
use crate::tails::tail;
use bumpalo::Bump;
use gw_base::Span;
use gw_text::parts::{Parse, braced, braced_or_empty};
use gw_text::{Cursor, ParseFault, Token};

/// What follows another word, which is dropped: a bracket perhaps, and the tail that is answered.
#[tactic(auto, unfolding(crate::specs::Reading::dropped_at, gw_text::specs::SpaceScan::skip))]
fn dropped<'a>(cursor: &mut Cursor<'a>) -> Result<Tail<Span<'a>>, ParseFault>
    ensures { Finds result cursor.new (dropped_at cursor.old) }
{
    if cursor.is_ahead(b'[') {
        cursor.lwsp();
        cursor.bracket()?;
    }
    tail(cursor)
}

/// A descriptor that is kept, behind its word.
fn keep<'a>(cursor: &mut Cursor<'a>, kind: KeptKind) -> Result<Descriptor<'a>, ParseFault>
    ensures { Finds result cursor.new (keep_at kind cursor.old) }
{
    Ok(Descriptor::Keep(kind, tail(cursor)?))
}

impl<'a> Parse<'a> for Descriptor<'a> {
    ghost read_at = { descriptor_at };

    ghost fits = { Prim.search arith };

    #[tactic(auto, using(crate::proofs::DescriptorLaws::parts_shrink), unfolding(crate::specs::Reading::descriptor_at))]
    fn read(bump: &'a Bump, cursor: &mut Cursor<'a>) -> Result<Descriptor<'a>, ParseFault> {
        let (word, token) = cursor.named()?;
        match token {
            Some(Token::Media) => Ok(Descriptor::Media(braced(bump, cursor)?)),
            Some(Token::Events) => keep(cursor, KeptKind::Events),
            Some(Token::Signals) => keep(cursor, KeptKind::Signals),
            Some(Token::DigitMap) => keep(cursor, KeptKind::DigitMap),
            Some(Token::EventBuffer) => keep(cursor, KeptKind::EventBuffer),
            Some(Token::Audit) => Ok(Descriptor::Audit(braced_or_empty(bump, cursor)?)),
            Some(Token::Services) => Ok(Descriptor::Services(braced(bump, cursor)?)),
            _ => {
                dropped(cursor)?;
                Ok(Descriptor::Other(Span::new(word)))
            }
        }
    }
}
