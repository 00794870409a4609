//! What an action requests of its context itself, as it is read: its properties, and that they are audited.

ghost use Rattle.std.proofs.Common.{arith};
ghost use Rattle.gw_text.specs.Parts.{Gives, Finds};
ghost use Rattle.gw_msg.specs.ActionReading.{triple_at, context_item_at, priority_at, context_property_at};

use crate::message::{ContextItem, ContextProp, Triple};
use crate::words::{context_item, flow, term};
use bumpalo::Bump;
use gw_text::parts::{Parse, braced, sign, token};
use gw_text::{Cursor, ParseFault, Token};

/// The most digits of a priority, as it is sent.
const PRIORITY_DIGITS: usize = 5;

/// The greatest number that they write.
const PRIORITY_MAX: u32 = 65_535;

impl<'a> Parse<'a> for Triple {
    ghost read_at = { triple_at };

    ghost fits = { Prim.search arith };

    #[tactic(auto, unfolding(crate::specs::ActionReading::triple_at))]
    fn read(_bump: &'a Bump, cursor: &mut Cursor<'a>) -> Result<Triple, ParseFault> {
        let a = term(cursor)?;
        sign(cursor, b',')?;
        let b = term(cursor)?;
        sign(cursor, b',')?;
        let flow = flow(cursor)?;
        Ok(Triple { a, b, flow })
    }
}

impl<'a> Parse<'a> for ContextItem {
    ghost read_at = { context_item_at };

    ghost fits = { Prim.search arith };

    fn read(_bump: &'a Bump, cursor: &mut Cursor<'a>) -> Result<ContextItem, ParseFault> {
        context_item(cursor)
    }
}

/// What follows the word `Priority`: its number.
#[tactic(auto, unfolding(crate::specs::ActionReading::priority_at))]
fn priority(cursor: &mut Cursor<'_>) -> Result<u16, ParseFault>
    ensures { Finds result cursor.new (priority_at cursor.old) }
{
    sign(cursor, b'=')?;
    let number = cursor.number(PRIORITY_DIGITS, PRIORITY_MAX)?;
    Ok(number.value as u16)
}

impl<'a> Parse<'a> for ContextProp<'a> {
    ghost read_at = { context_property_at };

    ghost fits = { Prim.search arith };

    #[tactic(auto, using(crate::proofs::ContextLaws::triple_shrinks, crate::proofs::ContextLaws::context_item_shrinks), unfolding(crate::specs::ActionReading::context_property_at))]
    fn read(bump: &'a Bump, cursor: &mut Cursor<'a>) -> Result<ContextProp<'a>, ParseFault> {
        match token(cursor)? {
            Token::Priority => Ok(ContextProp::Priority(priority(cursor)?)),
            Token::Emergency => Ok(ContextProp::Emergency),
            Token::Topology => Ok(ContextProp::Topology(braced(bump, cursor)?)),
            Token::ContextAudit => Ok(ContextProp::ContextAudit(braced(bump, cursor)?)),
            _ => Err(ParseFault::Syntax),
        }
    }
}
